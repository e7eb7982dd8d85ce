use super::*;

/// The records F,3,x and M,, and F,12x, of three cells each.
fn three_records(alloc: Global) -> Result<Rows, NoMemory> {
    let mut rows: Vec<Record> = Vec::new(alloc);
    rows.push(texts_of(alloc, &[b"F".as_slice(), b"3".as_slice(), b"x".as_slice()])?)?;
    rows.push(texts_of(alloc, &[b"M".as_slice(), b"".as_slice(), b"".as_slice()])?)?;
    rows.push(texts_of(alloc, &[b"F".as_slice(), b"12x".as_slice(), b"".as_slice()])?)?;
    Ok(Rows::from_vec(rows))
}

/// Whether the value is the two texts.
fn is_pair(v: &Value, one: &[u8], other: &[u8]) -> bool {
    let Value::Texts(found) = v else {
        return false;
    };
    match found.as_slice() {
        [first, second] => first.as_slice() == one && second.as_slice() == other,
        _ => false,
    }
}

fn is_no_rows(v: &Value) -> bool {
    match v {
        Value::Rows(found) => found.as_slice().is_empty(),
        _ => false,
    }
}

fn is_no_texts(v: &Value) -> bool {
    match v {
        Value::Texts(found) => found.as_slice().is_empty(),
        _ => false,
    }
}

fn filtered(alloc: Global, v: &Value) -> Result<Value, Fault> {
    let text = copy_bytes(alloc, b"F")?;
    let three = Domain::Rows { columns: 3 };
    applied(alloc, Filter::new(three, Metric::Symmetric, 0, text)?, v)
}

fn selected(alloc: Global, v: &Value) -> Result<Value, Fault> {
    let three = Domain::Rows { columns: 3 };
    applied(alloc, Select::new(three, Metric::Symmetric, 1)?, v)
}

#[test]
fn columns_are_refused_by_their_rows(rt: HostRuntime) {
    let two = Domain::Rows { columns: 2 };
    for (domain, metric, column, wanted) in [
        (Domain::Texts, Metric::ChangeOne, 2, Some(Refused::Kind)),
        (two, Metric::ChangeOne, 2, Some(Refused::Metric)),
        (two, Metric::Symmetric, 2, Some(Refused::Bound)),
        (two, Metric::Symmetric, 1, None),
    ] {
        assert!(rt; domain.fits());
        assert_eq!(rt;
            Filter::new(domain, metric, column, Vec::new(rt.alloc())).err(),
            wanted
        );
        assert_eq!(rt; Select::new(domain, metric, column).err(), wanted);
    }
}

#[test]
fn a_filter_keeps_records(rt: HostRuntime) -> Result<(), Fault> {
    let value = Value::Rows(three_records(rt.alloc())?);
    let kept = filtered(rt.alloc(), &value)?;
    let texts = selected(rt.alloc(), &kept)?;
    assert!(rt; is_pair(&texts, b"3", b"12x"));
    Ok(())
}

#[test]
fn no_records_stay_none(rt: HostRuntime) -> Result<(), Fault> {
    let kept = filtered(rt.alloc(), &Value::Rows(Rows::new(rt.alloc())))?;
    assert!(rt; is_no_rows(&kept));
    let texts = selected(rt.alloc(), &kept)?;
    assert!(rt; is_no_texts(&texts));
    Ok(())
}

#[test]
fn a_filter_and_a_selection_tell_what_they_read(rt: HostRuntime) -> Result<(), Fault> {
    let three = Domain::Rows { columns: 3 };
    let text = copy_bytes(rt.alloc(), b"F")?;
    let filter = Filter::new(three, Metric::Symmetric, 1, text)?;
    assert_eq!(rt; filter.column(), 1);
    assert!(rt; filter.text() == b"F".as_slice());
    let select = Select::new(three, Metric::Symmetric, 2)?;
    assert_eq!(rt; select.column(), 2);
    Ok(())
}
