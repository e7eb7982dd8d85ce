use super::*;

fn one_row(alloc: Global, cells: &[&str]) -> Result<Value, NoMemory> {
    let mut row = Vec::new(alloc);
    for cell in cells {
        row.push(text(alloc, cell)?)?;
    }
    let mut rows = Vec::new(alloc);
    rows.push(Items::from_vec(row))?;
    Ok(Value::Rows(Items::from_vec(rows)))
}

fn ints(alloc: Global, ints: &[i64]) -> Result<Value, NoMemory> {
    Ok(Value::Ints(Items::from_vec(Vec::from_slice(alloc, ints)?)))
}

fn cats(alloc: Global, cats: &[u32]) -> Result<Value, NoMemory> {
    Ok(Value::Cats(Items::from_vec(Vec::from_slice(alloc, cats)?)))
}

fn cells(alloc: Global, cells: &[i64]) -> Result<Value, NoMemory> {
    Ok(Value::IntVec(Items::from_vec(Vec::from_slice(alloc, cells)?)))
}

fn opt_ints(alloc: Global, ints: &[Option<i64>]) -> Result<Value, NoMemory> {
    Ok(Value::OptInts(Items::from_vec(Vec::from_slice(alloc, ints)?)))
}

fn has(domain: Domain, value: &Value) -> bool {
    domain.fits() && domain.has(value)
}

#[test]
fn records_have_as_many_cells_as_columns(rt: HostRuntime) -> Result<(), Fail> {
    let alloc = rt.alloc();
    let rows = Domain::Rows { columns: 2 };
    assert!(rt; !has(rows, &one_row(alloc, &["a"])?));
    assert!(rt; has(rows, &one_row(alloc, &["a", "b"])?));
    assert!(rt; has(rows, &Value::Rows(Items::new(alloc))));
    assert!(rt; has(Domain::Texts, &Value::Texts(Items::new(alloc))));
    assert!(rt; !has(Domain::Texts, &Value::Rows(Items::new(alloc))));
    Ok(())
}

#[test]
fn elements_and_sizes_are_as_the_domain_says(rt: HostRuntime) -> Result<(), Fail> {
    let alloc = rt.alloc();
    let unsized_ints = Domain::Ints {
        lo: 0,
        hi: 9,
        size: None,
    };
    let two_ints = Domain::Ints {
        lo: 0,
        hi: 9,
        size: Some(2),
    };
    for (numbers, any_size, of_two) in [
        ([].as_slice(), true, false),
        ([0, 9].as_slice(), true, true),
        ([0, 9, 4].as_slice(), true, false),
        ([-1, 9].as_slice(), false, false),
        ([0, 10].as_slice(), false, false),
    ] {
        let value = ints(alloc, numbers)?;
        assert_eq!(rt; has(unsized_ints, &value), any_size, "{numbers:?}");
        assert_eq!(rt; has(two_ints, &value), of_two, "{numbers:?}");
    }
    let some = Domain::OptInts { lo: 0, hi: 9 };
    assert!(rt; has(some, &opt_ints(alloc, &[None, Some(9)])?));
    assert!(rt; !has(some, &opt_ints(alloc, &[Some(10)])?));
    let categories = Domain::Cats {
        n: 3,
        size: Some(1),
    };
    assert!(rt; has(categories, &cats(alloc, &[2])?));
    assert!(rt; !has(categories, &cats(alloc, &[3])?));
    assert!(rt; !has(categories, &cats(alloc, &[2, 2])?));
    let vector = Domain::IntVec {
        len: 2,
        lo: 0,
        hi: 9,
    };
    assert!(rt; has(vector, &cells(alloc, &[0, 9])?));
    assert!(rt; !has(vector, &cells(alloc, &[0])?));
    assert!(rt; !has(vector, &ints(alloc, &[0, 9])?));
    assert!(rt; has(Domain::Int { lo: -3, hi: 3 }, &Value::Int(-3)));
    assert!(rt; has(Domain::Cat { n: 2 }, &Value::Cat(1)));
    assert!(rt; !has(Domain::Cat { n: 2 }, &Value::Cat(2)));
    Ok(())
}
