ghost use Rattle.std.specs.Prelude.{◌≡◌, ◌≤◌, ◌^◌, length, IfOk};
ghost use Rattle.dp_domain.specs.declared.domains.Domain.TheVariants as domain;

use super::{PEOPLE, PERSONS, same_records, same_texts, stored};
use crate::{Held, Store};
use dp_chain::{Line, Stage, Stages};
use dp_count::NoMemory;
use dp_domain::{Ints, Metric, Text, Texts, Value};
use dp_law::Transformation;
use std::alloc::Global;
use std::process::Abort;
use std::test::Fail;

/// Records of a sex and an age, which one of them lacks.
const AGES: &[u8] = b"F,34\nM,51\nF,7\nF,\nM,34\nF,-12\n";

fn text(alloc: Global, bytes: &[u8]) -> Result<Text, NoMemory> {
    Ok(Text::from_vec(Vec::from_slice(alloc, bytes)?))
}

fn filter(alloc: Global, column: u32, wanted: &[u8]) -> Result<Stage, NoMemory> {
    Ok(Stage::Filter {
        column,
        text: text(alloc, wanted)?,
    })
}

fn bins(alloc: Global) -> Result<Stage, NoMemory> {
    Ok(Stage::Bins {
        edges: Ints::from_vec(Vec::from_slice(alloc, &[0, 18])?),
    })
}

fn categories(alloc: Global) -> Result<Stage, NoMemory> {
    let mut texts = Vec::new(alloc);
    texts.push(text(alloc, b"34")?)?;
    texts.push(text(alloc, b"7")?)?;
    Ok(Stage::Categories {
        texts: Texts::from_vec(texts),
    })
}

fn same_value(one: &Value, other: &Value) -> bool {
    match (one, other) {
        (Value::Rows(one), Value::Rows(other)) => same_records(one.as_slice(), other.as_slice()),
        (Value::Texts(one), Value::Texts(other)) => same_texts(one.as_slice(), other.as_slice()),
        (Value::OptInts(one), Value::OptInts(other)) => one.as_slice() == other.as_slice(),
        (Value::Ints(one), Value::Ints(other)) => one.as_slice() == other.as_slice(),
        (Value::Cats(one), Value::Cats(other)) => one.as_slice() == other.as_slice(),
        (Value::Int(one), Value::Int(other)) => *one == *other,
        (Value::IntVec(one), Value::IntVec(other)) => one.as_slice() == other.as_slice(),
        _ => false,
    }
}

/// The line of the stages on the store's records.
fn line_of(
    rt: &impl Abort,
    alloc: Global,
    store: &Store,
    metric: Metric,
    stages: Vec<Stage>,
) -> Line
    ensures { let m = ⟦<Line as Transformation>⟧.mapping result in
        m.input_domain ≡ domain.Rows store.now.columns }
{
    let stages = Stages::from_vec(stages);
    let Ok(line) = Line::make(alloc, store.domain(), metric, &stages) else {
        panic!(rt; "a line");
    };
    assert!(rt; line.in_domain().agrees(&store.domain()));
    line
}

/// What the stages give of the records whose first cell is `F`.
fn of_women(rt: &(impl Abort + AllocGlobal), stages: Vec<Stage>) -> Result<Value, Fail> {
    let store = stored(rt.alloc(), PEOPLE)?;
    let all = store.whole(rt.alloc())?;
    let women = store.select(rt.alloc(), &all, 0, b"F")?;
    let line = line_of(rt, rt.alloc(), &store, Metric::Symmetric, stages);
    Ok(store.scan(rt.alloc(), &women, &line)?)
}

#[test]
fn a_scan_gives_what_the_line_gives_of_the_selected_records(rt: HostRuntime) -> Result<(), Fail> {
    let mut stages = Vec::new(rt.alloc());
    stages.push(Stage::Select { column: 1 })?;
    stages.push(Stage::Cast)?;
    let Value::OptInts(ages) = of_women(&rt, stages)? else {
        panic!(rt; "numbers");
    };
    assert_eq!(rt; ages.as_slice(), [Some(34), Some(7)].as_slice());
    Ok(())
}

/// That a scan and what is held of the records whose first cell is the text have the value that the line itself gives,
/// and that records alone are held as a selection.
fn scans_as_the_line(
    rt: &(impl Abort + AllocGlobal),
    csv: &[u8],
    wanted: &[u8],
    metric: Metric,
    stages: Vec<Stage>,
) -> Result<(), Fail>
    requires { length csv.now ≤ 2 ^ 30 }
{
    let store = stored(rt.alloc(), csv)?;
    let all = store.whole(rt.alloc())?;
    let base = store.select(rt.alloc(), &all, 0, wanted)?;
    let line = line_of(rt, rt.alloc(), &store, metric, stages);
    let given = line.apply(rt.alloc(), &store.rows(rt.alloc(), &base)?)?;
    assert!(rt; same_value(&store.scan(rt.alloc(), &base, &line)?, &given));
    let held = store.hold(rt.alloc(), &base, &line)?;
    assert!(rt; matches!(&held, Held::Chosen(_)) == matches!(&given, Value::Rows(_)));
    assert!(rt; same_value(&held.into_value(rt.alloc(), &store)?, &given));
    Ok(())
}

#[test]
fn no_stage_leaves_the_selection(rt: HostRuntime) -> Result<(), Fail> {
    scans_as_the_line(&rt, PERSONS, b"a", Metric::Users(0), Vec::new(rt.alloc()))
}

#[test]
fn filters_leave_a_selection(rt: HostRuntime) -> Result<(), Fail> {
    let mut stages = Vec::new(rt.alloc());
    stages.push(filter(rt.alloc(), 1, b"x")?)?;
    stages.push(filter(rt.alloc(), 0, b"a")?)?;
    scans_as_the_line(&rt, PERSONS, b"a", Metric::Symmetric, stages)
}

#[test]
fn a_truncation_behind_a_filter_leaves_a_selection(rt: HostRuntime) -> Result<(), Fail> {
    let mut stages = Vec::new(rt.alloc());
    stages.push(filter(rt.alloc(), 0, b"a")?)?;
    stages.push(Stage::Truncate { most: 1 })?;
    stages.push(filter(rt.alloc(), 1, b"w")?)?;
    scans_as_the_line(&rt, PERSONS, b"a", Metric::Users(0), stages)
}

#[test]
fn a_filter_is_counted(rt: HostRuntime) -> Result<(), Fail> {
    let mut stages = Vec::new(rt.alloc());
    stages.push(filter(rt.alloc(), 1, b"34")?)?;
    stages.push(Stage::Count)?;
    scans_as_the_line(&rt, AGES, b"F", Metric::Symmetric, stages)
}

#[test]
fn records_and_numbers_are_counted(rt: HostRuntime) -> Result<(), Fail> {
    let mut stages = Vec::new(rt.alloc());
    stages.push(Stage::Count)?;
    scans_as_the_line(&rt, AGES, b"F", Metric::Symmetric, stages)?;
    let mut stages = Vec::new(rt.alloc());
    stages.push(Stage::Select { column: 1 })?;
    stages.push(Stage::Cast)?;
    stages.push(Stage::DropNone)?;
    stages.push(Stage::Count)?;
    scans_as_the_line(&rt, AGES, b"F", Metric::Symmetric, stages)
}

#[test]
fn texts_are_listed(rt: HostRuntime) -> Result<(), Fail> {
    let mut stages = Vec::new(rt.alloc());
    stages.push(filter(rt.alloc(), 0, b"F")?)?;
    stages.push(Stage::Select { column: 1 })?;
    scans_as_the_line(&rt, AGES, b"F", Metric::Symmetric, stages)
}

#[test]
fn bins_of_numbers_make_a_histogram(rt: HostRuntime) -> Result<(), Fail> {
    let mut stages = Vec::new(rt.alloc());
    stages.push(Stage::Select { column: 1 })?;
    stages.push(Stage::Cast)?;
    stages.push(Stage::DropNone)?;
    stages.push(bins(rt.alloc())?)?;
    stages.push(Stage::Histogram)?;
    scans_as_the_line(&rt, AGES, b"F", Metric::Symmetric, stages)
}

#[test]
fn categories_of_texts_make_a_histogram(rt: HostRuntime) -> Result<(), Fail> {
    let mut stages = Vec::new(rt.alloc());
    stages.push(Stage::Select { column: 1 })?;
    stages.push(categories(rt.alloc())?)?;
    stages.push(Stage::Histogram)?;
    scans_as_the_line(&rt, AGES, b"F", Metric::Symmetric, stages)
}

#[test]
fn clamped_numbers_are_resized_and_added_up(rt: HostRuntime) -> Result<(), Fail> {
    let mut stages = Vec::new(rt.alloc());
    stages.push(Stage::Select { column: 1 })?;
    stages.push(Stage::Cast)?;
    stages.push(Stage::Impute { value: 5 })?;
    stages.push(Stage::Clamp { lo: 0, hi: 20 })?;
    stages.push(Stage::Resize { size: 6, fill: 3 })?;
    stages.push(Stage::Sum)?;
    scans_as_the_line(&rt, AGES, b"F", Metric::Symmetric, stages)
}

#[test]
fn numbers_are_added_up(rt: HostRuntime) -> Result<(), Fail> {
    let mut stages = Vec::new(rt.alloc());
    stages.push(Stage::Select { column: 1 })?;
    stages.push(Stage::Cast)?;
    stages.push(Stage::Impute { value: 5 })?;
    stages.push(Stage::Sum)?;
    scans_as_the_line(&rt, AGES, b"F", Metric::Symmetric, stages)
}
