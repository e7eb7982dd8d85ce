ghost use Rattle.std.specs.Prelude.{◌≡◌, ◌<◌, map, filter, IfOk};
ghost use Rattle.dp_rowwise.specs.Parts.{category_texts};
ghost use Rattle.dp_store.specs.Selections.{IsSelection, has_text};

use crate::selection::Selection;
use crate::store::Store;
use dp_count::{Items, NoMemory};
use dp_rowwise::{Categories, empty_lists, put};
use std::alloc::Global;

/// For each text the numbers of the selected records whose cell in the column is the text. The records are gone through
/// once.
pub(crate) fn numbers_by_text(
    alloc: Global,
    store: &Store,
    base: &Selection,
    column: u32,
    texts: &Categories,
) -> Result<Vec<Items<u32>>, NoMemory>
    requires base { IsSelection store.now.records base.now }
    requires column { column < store.now.columns }
    ensures { IfOk result (λ lists. lists.items
        ≡ map (λ text. filter (has_text store.now.records column text) base.now) (category_texts texts.now)) }
{
    let mut lists = empty_lists(alloc, texts.len())?;
    for k in 0..base.len() {
        let number = base.at(k);
        let place = texts.number(store.cell(number, column));
        put(&mut lists, place as usize, number)?;
    }
    Ok(lists)
}

/// Each list of numbers as a selection.
pub(crate) fn selections(alloc: Global, lists: Vec<Items<u32>>) -> Result<Vec<Selection>, NoMemory>
    ensures { IfOk result (λ chosen. chosen.items ≡ lists.items) }
{
    let mut chosen = Vec::with_capacity(alloc, lists.len())?;
    for list in lists {
        chosen.push(Selection::these(list.into_vec())?)?;
    }
    Ok(chosen)
}
