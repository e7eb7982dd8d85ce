ghost use Rattle.std.specs.Prelude.{◌≡◌, ◌<◌, ◌≤◌, ◌^◌, length, IfOk};

use crate::{Selection, Store, read_store, store_of};
use dp_count::NoMemory;
use dp_domain::{Domain, Metric, Record, Text, Value};
use dp_io::{MemShelf, Shelf};
use dp_law::Transformation;
use dp_records::records_of;
use dp_rowwise::{Filter, Truncate};
use std::alloc::Global;
use std::process::Abort;
use std::test::Fail;

mod groups;
mod scan;

/// Five records of two persons, whom the first column names.
const PERSONS: &[u8] = b"a,x\nb,y\na,w\na,x\nb,y\n";

/// Three records of two cells.
const PEOPLE: &[u8] = b"F,34\nM,51\nF,7\n";

/// The store of a text of two columns.
fn stored(alloc: Global, text: &[u8]) -> Result<Store, NoMemory>
    requires { length text.now ≤ 2 ^ 30 }
    ensures { IfOk result (λ store. store.columns ≡ 2) }
{
    store_of(alloc, text, 2, false)
}

fn has_numbers(selection: &Selection, wanted: &[u32]) -> bool {
    let mut place = 0;
    for number in wanted {
        if place >= selection.len() || selection.at(place) != *number {
            return false;
        }
        place += 1;
    }
    place == selection.len()
}

fn same_texts(one: &[Text], other: &[Text]) -> bool {
    if one.len() != other.len() {
        return false;
    }
    for (a, b) in one.iter().zip(other) {
        if a.as_slice() != b.as_slice() {
            return false;
        }
    }
    true
}

fn same_records(one: &[Record], other: &[Record]) -> bool {
    if one.len() != other.len() {
        return false;
    }
    for (a, b) in one.iter().zip(other) {
        if !same_texts(a.as_slice(), b.as_slice()) {
            return false;
        }
    }
    true
}

fn same_rows(one: &Value, other: &Value) -> bool {
    match (one, other) {
        (Value::Rows(one), Value::Rows(other)) => same_records(one.as_slice(), other.as_slice()),
        _ => false,
    }
}

/// That the texts in both columns select these numbers.
fn selects(
    rt: &(impl Abort + AllocGlobal),
    first: &[u8],
    second: &[u8],
    numbers: &[u32],
) -> Result<(), Fail> {
    let store = stored(rt.alloc(), PEOPLE)?;
    let all = store.whole(rt.alloc())?;
    let some = store.select(rt.alloc(), &all, 0, first)?;
    let chosen = store.select(rt.alloc(), &some, 1, second)?;
    assert!(rt; has_numbers(&chosen, numbers));
    Ok(())
}

#[test]
fn all_numbers_are_selected_in_order(rt: HostRuntime) -> Result<(), Fail> {
    let store = stored(rt.alloc(), PEOPLE)?;
    let all = store.whole(rt.alloc())?;
    assert!(rt; has_numbers(&all, &[0, 1, 2]));
    Ok(())
}

#[test]
fn a_text_selects_the_numbers_of_its_records(rt: HostRuntime) -> Result<(), Fail> {
    let store = stored(rt.alloc(), PEOPLE)?;
    let all = store.whole(rt.alloc())?;
    let women = store.select(rt.alloc(), &all, 0, b"F")?;
    assert!(rt; has_numbers(&women, &[0, 2]));
    Ok(())
}

#[test]
fn a_selection_is_selected_from(rt: HostRuntime) -> Result<(), Fail> {
    selects(&rt, b"F", b"7", &[2])?;
    selects(&rt, b"F", b"51", &[])?;
    selects(&rt, b"M", b"51", &[1])?;
    selects(&rt, b"", b"51", &[])
}

/// That truncating all records of the persons keeps these numbers.
fn truncates(
    rt: &(impl Abort + AllocGlobal),
    column: u32,
    most: u64,
    numbers: &[u32],
) -> Result<(), Fail>
    requires column { column < 2 }
    requires some { 1 ≤ most }
    requires few { most ≤ 2 ^ 20 }
{
    let store = stored(rt.alloc(), PERSONS)?;
    let all = store.whole(rt.alloc())?;
    let kept = store.truncate(rt.alloc(), &all, column, most)?;
    assert!(rt; has_numbers(&kept, numbers));
    Ok(())
}

#[test]
fn truncating_keeps_the_least_records_of_each_person(rt: HostRuntime) -> Result<(), Fail> {
    truncates(&rt, 0, 2, &[0, 1, 2, 4])?;
    truncates(&rt, 0, 1, &[1, 2])?;
    truncates(&rt, 1, 1, &[0, 1, 2])
}

/// What a filter by the text in the first column gives.
fn filtered(rt: &(impl Abort + AllocGlobal), v: &Value, wanted: &[u8]) -> Result<Value, Fail> {
    let filter = Filter::new(
        Domain::Rows { columns: 2 },
        Metric::Symmetric,
        0,
        Vec::from_slice(rt.alloc(), wanted)?,
    )?;
    assert!(rt; filter.in_domain().has(v));
    Ok(filter.apply(rt.alloc(), v)?)
}

/// What truncating to so many records a person gives, whom the first column names.
fn truncated(rt: &(impl Abort + AllocGlobal), v: &Value, most: u64) -> Result<Value, Fail> {
    let truncate = Truncate::new(Domain::Rows { columns: 2 }, Metric::Users(0), most)?;
    assert!(rt; truncate.in_domain().has(v));
    Ok(truncate.apply(rt.alloc(), v)?)
}

/// That a selection by a text gives the records that a filter gives.
fn selects_as_a_filter(
    rt: &(impl Abort + AllocGlobal),
    text: &[u8],
    wanted: &[u8],
) -> Result<(), Fail>
    requires { length text.now ≤ 2 ^ 30 }
{
    let store = stored(rt.alloc(), text)?;
    let all = store.whole(rt.alloc())?;
    let chosen = store.select(rt.alloc(), &all, 0, wanted)?;
    let given = filtered(rt, &store.rows(rt.alloc(), &all)?, wanted)?;
    assert!(rt; same_rows(&store.rows(rt.alloc(), &chosen)?, &given));
    Ok(())
}

#[test]
fn a_selection_has_the_records_of_a_filter(rt: HostRuntime) -> Result<(), Fail> {
    selects_as_a_filter(&rt, PEOPLE, b"F")?;
    selects_as_a_filter(&rt, PERSONS, b"b")?;
    selects_as_a_filter(&rt, PERSONS, b"")?;
    selects_as_a_filter(&rt, b"", b"a")
}

/// That truncating a selection by a text gives the records that truncating its records gives.
fn truncates_as_the_part(
    rt: &(impl Abort + AllocGlobal),
    wanted: &[u8],
    most: u64,
) -> Result<(), Fail>
    requires some { 1 ≤ most }
    requires few { most ≤ 2 ^ 20 }
{
    let store = stored(rt.alloc(), PERSONS)?;
    let all = store.whole(rt.alloc())?;
    let chosen = store.select(rt.alloc(), &all, 0, wanted)?;
    let kept = store.truncate(rt.alloc(), &chosen, 0, most)?;
    let given = truncated(rt, &store.rows(rt.alloc(), &chosen)?, most)?;
    assert!(rt; same_rows(&store.rows(rt.alloc(), &kept)?, &given));
    Ok(())
}

#[test]
fn a_selection_is_truncated_as_its_records_are(rt: HostRuntime) -> Result<(), Fail> {
    truncates_as_the_part(&rt, b"a", 2)?;
    truncates_as_the_part(&rt, b"b", 1)?;
    truncates_as_the_part(&rt, b"c", 1)
}

/// That a store has the records of a value.
fn holds(rt: &(impl Abort + AllocGlobal), store: &Store, v: &Value) -> Result<(), Fail> {
    let all = store.whole(rt.alloc())?;
    assert!(rt; same_rows(&store.rows(rt.alloc(), &all)?, v));
    Ok(())
}

/// That the store of a text and the store of its value have the records of the text.
fn stores_agree(rt: &(impl Abort + AllocGlobal), text: &[u8]) -> Result<(), Fail>
    requires { length text.now ≤ 2 ^ 30 }
{
    let v = records_of(rt.alloc(), text, 2, true)?;
    holds(rt, &store_of(rt.alloc(), text, 2, true)?, &v)?;
    assert!(rt; Domain::Rows { columns: 2 }.has(&v));
    holds(rt, &Store::from_records(rt.alloc(), &v, 2)?, &v)
}

#[test]
fn a_store_of_a_value_has_the_records_of_the_text(rt: HostRuntime) -> Result<(), Fail> {
    stores_agree(&rt, PEOPLE)?;
    stores_agree(&rt, PERSONS)?;
    stores_agree(&rt, b"F,3,x\nM\n\"F\",12x\n")?;
    stores_agree(&rt, b"")
}

#[test]
fn a_copy_of_a_selection_has_its_numbers(rt: HostRuntime) -> Result<(), Fail> {
    let store = stored(rt.alloc(), PEOPLE)?;
    let all = store.whole(rt.alloc())?;
    let women = store.select(rt.alloc(), &all, 0, b"F")?;
    let copy = women.clone()?;
    drop(women);
    assert!(rt; has_numbers(&copy, &[0, 2]));
    assert!(rt; has_numbers(&all.clone()?, &[0, 1, 2]));
    Ok(())
}

#[test]
fn a_slot_becomes_a_store(rt: HostRuntime) -> Result<(), Fail> {
    let mut shelf = MemShelf::new(rt.alloc(), 5, Vec::new(rt.alloc()));
    shelf.add(
        String::from_str(rt.alloc(), "data")?,
        Vec::from_slice(rt.alloc(), PEOPLE)?,
    )?;
    let slot = shelf.open(rt.alloc(), "data")?;
    let store = read_store(rt.alloc(), &mut shelf, slot, 3, true)?;
    assert!(rt; store.len() == 2);
    assert!(rt; store.columns() == 3);
    assert_eq!(rt; store.cell(1, 1), b"7".as_slice());
    assert!(rt; store.cell(1, 2).is_empty());
    Ok(())
}
