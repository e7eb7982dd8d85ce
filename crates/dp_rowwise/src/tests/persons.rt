use super::*;
use dp_num::Past;

const TWO: Domain = Domain::Rows { columns: 2 };

/// The records a,x and b,y and a,w and a,x and b,y.
fn five_records(alloc: Global) -> Result<Value, NoMemory> {
    let mut rows: Vec<Record> = Vec::new(alloc);
    for (person, item) in [
        (b"a".as_slice(), b"x".as_slice()),
        (b"b".as_slice(), b"y".as_slice()),
        (b"a".as_slice(), b"w".as_slice()),
        (b"a".as_slice(), b"x".as_slice()),
        (b"b".as_slice(), b"y".as_slice()),
    ] {
        rows.push(texts_of(alloc, &[person, item])?)?;
    }
    Ok(Value::Rows(Rows::from_vec(rows)))
}

/// Whether the records are of the persons, byte by byte, with the items.
fn are_records(v: &Value, persons: &[u8], items: &[u8]) -> bool {
    let Value::Rows(rows) = v else {
        return false;
    };
    rows.len() == persons.len() as u64 && are_cells(rows, 0, persons) && are_cells(rows, 1, items)
}

/// Whether the cells in the column are the bytes.
fn are_cells(rows: &Rows, column: usize, bytes: &[u8]) -> bool {
    rows.as_slice()
        .iter()
        .zip(bytes.iter())
        .all(|(cells, byte)| is_cell(cells, column, *byte))
}

fn is_cell(cells: &Record, column: usize, byte: u8) -> bool {
    match cells.as_slice().get(column) {
        Some(text) => text.as_slice() == [byte].as_slice(),
        None => false,
    }
}

fn truncated(alloc: Global, most: u64, v: &Value) -> Result<Value, Fault> {
    given(alloc, &Truncate::new(TWO, Metric::Users(0), most)?, v)
}

fn filtered(alloc: Global, text: &[u8]) -> Result<Filter, Fault> {
    let text = copy_bytes(alloc, text)?;
    Ok(Filter::new(TWO, Metric::Users(0), 1, text)?)
}

#[test]
fn the_least_records_of_each_person_stay(rt: HostRuntime) -> Result<(), Fault> {
    let five = five_records(rt.alloc())?;
    for (most, persons, items) in [
        (1, b"ba".as_slice(), b"yw".as_slice()),
        (2, b"abab".as_slice(), b"xywy".as_slice()),
        (3, b"abaab".as_slice(), b"xywxy".as_slice()),
        (1_048_576, b"abaab".as_slice(), b"xywxy".as_slice()),
    ] {
        let kept = truncated(rt.alloc(), most, &five)?;
        assert!(rt; are_records(&kept, persons, items), "{most}");
    }
    let none = truncated(rt.alloc(), 1, &Value::Rows(Rows::new(rt.alloc())))?;
    assert!(rt; are_records(&none, b"", b""));
    Ok(())
}

#[test]
fn persons_of_a_filter_are_truncated(rt: HostRuntime) -> Result<(), Fault> {
    let five = five_records(rt.alloc())?;
    let kept = applied(rt.alloc(), filtered(rt.alloc(), b"y")?, &five)?;
    assert!(rt; are_records(&kept, b"bb", b"yy"));
    let one = truncated(rt.alloc(), 1, &kept)?;
    assert!(rt; are_records(&one, b"b", b"y"));
    Ok(())
}

#[test]
fn truncating_is_refused_by_its_row(rt: HostRuntime) {
    for (domain, metric, most, wanted) in [
        (Domain::Texts, Metric::Symmetric, 0, Some(Refused::Kind)),
        (TWO, Metric::Symmetric, 0, Some(Refused::Metric)),
        (TWO, Metric::Users(2), 0, Some(Refused::Metric)),
        (TWO, Metric::Users(1), 0, Some(Refused::Bound)),
        (TWO, Metric::Users(1), 1_048_577, Some(Refused::Bound)),
        (TWO, Metric::Users(1), 1, None),
        (TWO, Metric::Users(0), 1_048_576, None),
    ] {
        assert!(rt; domain.fits());
        assert_eq!(rt; Truncate::new(domain, metric, most).err(), wanted);
    }
}

#[test]
fn a_person_counts_twice_as_many_records(rt: HostRuntime) -> Result<(), Fault> {
    let part = Truncate::new(TWO, Metric::Users(1), 2)?;
    assert_eq!(rt; part.most(), 2);
    assert_eq!(rt; part.column(), 1);
    assert_eq!(rt; part.in_metric(), Metric::Users(1));
    assert_eq!(rt; part.out_metric(), Metric::Symmetric);
    for (d, wanted) in [
        (0, Ok(0)),
        (1, Ok(4)),
        (1_073_741_824, Ok(4_294_967_296)),
        (1_073_741_825, Err(Past)),
    ] {
        assert_eq!(rt; part.map(d), wanted);
    }
    Ok(())
}

#[test]
fn a_filter_keeps_its_metric(rt: HostRuntime) -> Result<(), Fault> {
    let part = filtered(rt.alloc(), b"x")?;
    assert_eq!(rt; part.in_metric(), Metric::Users(0));
    assert_eq!(rt; part.out_metric(), Metric::Users(0));
    let next = Select::new(part.out_domain(), part.out_metric(), 0);
    assert_eq!(rt; next.err(), Some(Refused::Metric));
    Ok(())
}

#[test]
fn filters_of_persons_are_refused_by_their_row(rt: HostRuntime) {
    for (metric, column, wanted) in [
        (Metric::Users(2), 2, Some(Refused::Metric)),
        (Metric::ChangeOne, 1, Some(Refused::Metric)),
        (Metric::Users(1), 2, Some(Refused::Bound)),
        (Metric::Users(1), 0, None),
    ] {
        assert_eq!(rt;
            Filter::new(TWO, metric, column, Vec::new(rt.alloc())).err(),
            wanted
        );
    }
}
