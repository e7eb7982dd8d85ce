ghost use Rattle.std.specs.Prelude.{◌≤◌, ◌^◌, length};

use crate::cells::cells_up_to;
use crate::laws::domain_law;
use crate::{DataFault, Packed, cells_of, count_records, read_cells, read_records, records_of};
use dp_count::NoMemory;
use dp_domain::{Domain, Record, Value};
use dp_io::{MemShelf, Shelf, Slot};
use std::alloc::Global;
use std::process::Abort;
use std::test::Fail;

/// A text whose records have three, one and two cells.
const RAGGED: &[u8] = b"F,3,x\nM\n\"F\",12x\n";

fn has_cells(record: &Record, wanted: &[&[u8]]) -> bool {
    if record.as_slice().len() != wanted.len() {
        return false;
    }
    for (cell, text) in record.as_slice().iter().zip(wanted) {
        if cell.as_slice() != *text {
            return false;
        }
    }
    true
}

/// Whether a value is the records with these cells.
fn is_rows(v: &Value, wanted: &[&[&[u8]]]) -> bool {
    let Value::Rows(rows) = v else {
        return false;
    };
    if rows.as_slice().len() != wanted.len() {
        return false;
    }
    for (record, cells) in rows.as_slice().iter().zip(wanted) {
        if !has_cells(record, cells) {
            return false;
        }
    }
    true
}

/// Whether the texts are these cells, record by record.
fn is_packed(cells: &Packed, wanted: &[&[&[u8]]]) -> bool {
    let mut place = 0;
    for record in wanted {
        for text in *record {
            if place >= cells.len() || cells.at(place) != *text {
                return false;
            }
            place += 1;
        }
    }
    place == cells.len()
}

/// That the records of the text are these, as a value of their domain and as cells.
fn records_are(
    rt: &(impl Abort + AllocGlobal),
    text: &[u8],
    columns: u32,
    header: bool,
    wanted: &[&[&[u8]]],
) -> Result<(), Fail>
    requires some { 1 ≤ columns }
    requires few { columns ≤ 64 }
    requires short { length text.now ≤ 2 ^ 30 }
{
    let v = records_of(rt.alloc(), text, columns, header)?;
    assert!(rt; is_rows(&v, wanted));
    assert!(rt; Domain::Rows { columns }.has(&v));
    let cells = cells_of(rt.alloc(), text, columns, header)?;
    assert!(rt; is_packed(&cells, wanted));
    Ok(())
}

#[test]
fn ragged_records_are_cut_and_padded(rt: HostRuntime) -> Result<(), Fail> {
    records_are(
        &rt,
        RAGGED,
        2,
        false,
        &[&[b"F", b"3"], &[b"M", b""], &[b"F", b"12x"]],
    )?;
    records_are(&rt, RAGGED, 1, false, &[&[b"F"], &[b"M"], &[b"F"]])?;
    records_are(
        &rt,
        RAGGED,
        3,
        false,
        &[&[b"F", b"3", b"x"], &[b"M", b"", b""], &[b"F", b"12x", b""]],
    )
}

#[test]
fn a_header_is_left_out(rt: HostRuntime) -> Result<(), Fail> {
    records_are(&rt, RAGGED, 2, true, &[&[b"M", b""], &[b"F", b"12x"]])?;
    records_are(&rt, b"sex,age\n", 2, true, &[])?;
    records_are(&rt, b"sex,age\n", 2, false, &[&[b"sex", b"age"]])
}

#[test]
fn a_text_without_records_has_none(rt: HostRuntime) -> Result<(), Fail> {
    records_are(&rt, b"", 2, false, &[])?;
    records_are(&rt, b"", 2, true, &[])?;
    records_are(&rt, b"\n\r\n\n", 1, false, &[])?;
    records_are(&rt, b"\"\"", 2, false, &[&[b"", b""]])
}

#[test]
fn lines_end_in_three_ways(rt: HostRuntime) -> Result<(), Fail> {
    records_are(
        &rt,
        b"a,1\r\nb,2\rc,3\nd,4",
        2,
        false,
        &[&[b"a", b"1"], &[b"b", b"2"], &[b"c", b"3"], &[b"d", b"4"]],
    )
}

/// That so many records among the first of a text of three give these cells.
fn cells_are(
    rt: &(impl Abort + AllocGlobal),
    header: bool,
    most: u64,
    wanted: &[&[&[u8]]],
) -> Result<(), Fail> {
    let cells = cells_up_to(rt.alloc(), b"a\nb\nc\n", 1, header, most)?;
    assert!(rt; is_packed(&cells, wanted));
    Ok(())
}

#[test]
fn the_header_is_one_of_the_records_that_are_read(rt: HostRuntime) -> Result<(), Fail> {
    cells_are(&rt, false, 0, &[])?;
    cells_are(&rt, true, 0, &[])?;
    cells_are(&rt, true, 1, &[])?;
    cells_are(&rt, false, 2, &[&[b"a"], &[b"b"]])?;
    cells_are(&rt, true, 2, &[&[b"b"]])?;
    cells_are(&rt, true, 3, &[&[b"b"], &[b"c"]])?;
    cells_are(&rt, false, 4, &[&[b"a"], &[b"b"], &[b"c"]])
}

#[test]
fn counting_stops_at_the_limit(rt: HostRuntime) -> Result<(), Fail> {
    assert_eq!(rt; count_records(rt.alloc(), b"a\nb\nc\n", 2)?, 2);
    assert_eq!(rt; count_records(rt.alloc(), b"a\nb\nc\n", 3)?, 3);
    assert_eq!(rt; count_records(rt.alloc(), b"a\nb\nc\n", 4)?, 3);
    Ok(())
}

/// A shelf with the ragged text, of which a read gives three bytes at most and these calls fail.
fn shelf_with(alloc: Global, fails: &[u64]) -> Result<MemShelf, NoMemory> {
    let mut shelf = MemShelf::new(alloc, 3, Vec::from_slice(alloc, fails)?);
    shelf.add(
        String::from_str(alloc, "data")?,
        Vec::from_slice(alloc, RAGGED)?,
    )?;
    Ok(shelf)
}

#[test]
fn a_slot_is_read_to_its_end(rt: HostRuntime) -> Result<(), Fail> {
    let mut shelf = shelf_with(rt.alloc(), &[])?;
    let slot = shelf.open(rt.alloc(), "data")?;
    let v = read_records(rt.alloc(), &mut shelf, slot, 2, true)?;
    assert!(rt; is_rows(&v, &[&[b"M", b""], &[b"F", b"12x"]]));
    let none = read_records(rt.alloc(), &mut shelf, slot, 2, true)?;
    assert!(rt; is_rows(&none, &[]));
    let again = shelf.open(rt.alloc(), "data")?;
    let cells = read_cells(rt.alloc(), &mut shelf, again, 1, false)?;
    assert!(rt; is_packed(&cells, &[&[b"F"], &[b"M"], &[b"F"]]));
    Ok(())
}

#[test]
fn a_read_that_fails_is_a_read_fault(rt: HostRuntime) -> Result<(), Fail> {
    for call in [2, 4] {
        let mut shelf = shelf_with(rt.alloc(), &[call])?;
        let slot = shelf.open(rt.alloc(), "data")?;
        let read = read_records(rt.alloc(), &mut shelf, slot, 2, false);
        assert!(rt; matches!(read, Err(DataFault::ReadFault)));
    }
    Ok(())
}

#[test]
fn every_text_has_records(_rt: HostRuntime) -> Result<(), Fail> {
    domain_law();
    Ok(())
}
