use super::*;

fn two_texts(alloc: Global) -> Result<Texts, NoMemory> {
    let mut texts = Vec::new(alloc);
    texts.push(text(alloc, "3")?)?;
    texts.push(text(alloc, "12x")?)?;
    Ok(Items::from_vec(texts))
}

fn are_two_texts(texts: &Texts) -> bool {
    texts.len() == 2
        && texts.at(0).as_slice() == b"3".as_slice()
        && texts.at(1).as_slice() == b"12x".as_slice()
}

#[test]
fn a_copy_of_texts_is_equal(rt: HostRuntime) -> Result<(), Fail> {
    let copy = Value::Texts(two_texts(rt.alloc())?).copy(rt.alloc())?;
    assert!(rt; matches!(&copy, Value::Texts(texts) if are_two_texts(texts)));
    Ok(())
}

#[test]
fn a_copy_of_rows_is_equal(rt: HostRuntime) -> Result<(), Fail> {
    let mut rows = Vec::new(rt.alloc());
    rows.push(two_texts(rt.alloc())?)?;
    let copy = Value::Rows(Items::from_vec(rows)).copy(rt.alloc())?;
    assert!(rt; matches!(&copy, Value::Rows(rows) if rows.len() == 1 && are_two_texts(rows.at(0))));
    Ok(())
}

#[test]
fn a_copy_of_numbers_is_equal(rt: HostRuntime) -> Result<(), Fail> {
    let alloc = rt.alloc();
    let ints = Value::Ints(Items::from_vec(Vec::from_slice(alloc, &[7, -3])?)).copy(alloc)?;
    assert!(rt; matches!(&ints, Value::Ints(found) if found.as_slice() == [7, -3].as_slice()));
    let some = Value::OptInts(Items::from_vec(Vec::from_slice(alloc, &[None, Some(7)])?));
    let some = some.copy(alloc)?;
    assert!(rt;
        matches!(&some, Value::OptInts(found) if found.as_slice() == [None, Some(7)].as_slice())
    );
    let cats = Value::Cats(Items::from_vec(Vec::from_slice(alloc, &[2, 0])?)).copy(alloc)?;
    assert!(rt; matches!(&cats, Value::Cats(found) if found.as_slice() == [2, 0].as_slice()));
    Ok(())
}

#[test]
fn a_copy_of_one_number_of_one_category_and_of_a_vector_is_equal(
    rt: HostRuntime,
) -> Result<(), Fail> {
    let alloc = rt.alloc();
    let int = Value::Int(-3).copy(alloc)?;
    assert!(rt; matches!(&int, Value::Int(found) if *found == -3));
    let cat = Value::Cat(2).copy(alloc)?;
    assert!(rt; matches!(&cat, Value::Cat(found) if *found == 2));
    let cells = Value::IntVec(Items::from_vec(Vec::from_slice(alloc, &[7, -3])?)).copy(alloc)?;
    assert!(rt; matches!(&cells, Value::IntVec(found) if found.as_slice() == [7, -3].as_slice()));
    Ok(())
}
