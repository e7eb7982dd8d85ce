ghost use Rattle.std.specs.Prelude.{◌≡◌, ◌≤◌, ◌<◌, ◌^◌, map, length, true, IfOk, OnOk};
ghost use Rattle.std.specs.List.{All};
ghost use Rattle.dp_domain.specs.Distance.{text_eq};
ghost use Rattle.dp_domain.specs.Users.{cell, group};
ghost use Rattle.dp_domain.specs.declared.values.Value.TheVariants as value;
ghost use Rattle.dp_law.specs.Making.{MakesOr};
ghost use Rattle.dp_rowwise.specs.Categories.{are_different, place_in};
ghost use Rattle.dp_rowwise.specs.OneMore.{with_one_more};
ghost use Rattle.dp_rowwise.specs.Parts.{category_texts};
ghost use Rattle.dp_group.specs.Grouped.{group_texts, groups_of};

use dp_count::NoMemory;
use dp_domain::{Domain, Duplicate, Metric, Record, Rows, Texts, Value};
use dp_law::MakeFault;
use dp_rowwise::{Categories, empty_lists, put};
use std::alloc::Global;

/// The texts of groups, looked up by their hashes. `Bound` comes exactly where there are not 1 to 1,023, or two are
/// equal, and `Kind` and `Metric` never.
pub(crate) fn table_of(alloc: Global, texts: Texts) -> Result<Categories, MakeFault>
    ensures { MakesOr category_texts result (group_texts texts) }
{
    Categories::new(alloc, Domain::Texts, Metric::Symmetric, texts)
}

/// For each text the records whose cell in the column, from 0, is the text, in order, as values. The records are gone
/// through once, and copied.
pub(crate) fn groups_of(
    alloc: Global,
    texts: &Categories,
    column: u32,
    rows: &[Record],
) -> Result<Vec<Value>, NoMemory>
    requires within { All (λ cells. column < length cells) rows.now }
    requires few { length rows.now ≤ 2 ^ 30 }
    requires different { are_different (category_texts texts.now) ≡ true }
    ensures { IfOk result (λ groups.
        groups.items ≡ groups_of column (category_texts texts.now) (value.Rows rows.now)) }
{
    let groups = parts_of(alloc, texts, column, rows)?;
    values_of(alloc, groups)
}

/// Each list of records as a value.
fn values_of(alloc: Global, groups: Vec<Rows>) -> Result<Vec<Value>, NoMemory>
    ensures { IfOk result (λ values. values.items ≡ map value.Rows groups.items) }
{
    Ok(groups.into_iter().map(Value::Rows).collect(alloc)?)
}

/// The records of each text.
fn parts_of(
    alloc: Global,
    texts: &Categories,
    column: u32,
    rows: &[Record],
) -> Result<Vec<Rows>, NoMemory>
    requires within { All (λ cells. column < length cells) rows.now }
    requires few { length rows.now ≤ 2 ^ 30 }
    requires different { are_different (category_texts texts.now) ≡ true }
    ensures { IfOk result (λ groups. groups.items
        ≡ map (λ text. group text_eq (cell column) text rows.now) (category_texts texts.now)) }
{
    let mut groups = empty_lists(alloc, texts.len())?;
    for cells in rows {
        put_copy(alloc, &mut groups, place_of(texts, column, cells), cells)?;
    }
    Ok(groups)
}

/// The place of the text that the record has in the column, or the number of texts where it is none of them.
fn place_of(texts: &Categories, column: u32, cells: &Record) -> usize
    requires { column < length cells.now }
    ensures { result ≡ place_in (category_texts texts.now) (cell column cells.now) }
{
    texts.number(cells.at(u64::from(column)).as_slice()) as usize
}

/// Appends a copy of the record to the group at the place, where there is one.
fn put_copy(
    alloc: Global,
    groups: &mut Vec<Rows>,
    place: usize,
    cells: &Record,
) -> Result<(), NoMemory>
    requires { All (λ group. length group < 2 ^ 32) groups.old.items }
    ensures { OnOk result (groups.new.items ≡ with_one_more place cells.now groups.old.items) }
{
    if place < groups.len() {
        put(groups, place, cells.duplicate(alloc)?)?;
    }
    Ok(())
}
