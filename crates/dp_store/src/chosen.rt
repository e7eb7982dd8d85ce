ghost use Rattle.std.specs.Prelude.{◌≡◌, ◌<◌, ◌≤◌, length};
ghost use Rattle.dp_domain.specs.Users.{cell};
ghost use Rattle.dp_rowwise.specs.Truncate.{record_cmp};
ghost use Rattle.dp_store.specs.Selections.{IsSelection, selected, row_at};

use crate::selection::Selection;
use crate::store::Store;
use dp_rowwise::Records;
use std::cmp::Ordering;

/// Selected records of a store, whose cells in a column name the persons.
#[derive(Clone, Copy)]
pub(crate) struct Chosen<'a> {
    pub(crate) store: &'a Store,
    pub(crate) base: &'a Selection,
    pub(crate) column: u32,
    ghost selection: { IsSelection store.now.records base.now },
}

impl<'a> Chosen<'a> {
    /// How many cells the record at a place has, and past the end none.
    fn width(&self, place: u32) -> u32
        ensures cells { result ≡ length (row_at self.now.store.now.records self.now.base.now place) }
        ensures within { result ≤ self.now.store.now.columns }
    {
        if u64::from(place) < self.base.len() {
            self.store.columns()
        } else {
            0
        }
    }

    /// The cell in a column of the record at a place, and past an end the empty text.
    fn cell(&self, place: u32, column: u32) -> &[u8]
        ensures { result.now ≡ cell column (row_at self.now.store.now.records self.now.base.now place) }
    {
        if column < self.width(place) {
            self.store.cell(self.base.at(u64::from(place)), column)
        } else {
            &[]
        }
    }

    /// The order of the records at two places by their cells.
    fn record_order(&self, i: u32, j: u32) -> Ordering
        ensures { result ≡ record_cmp
            (row_at self.now.store.now.records self.now.base.now i)
            (row_at self.now.store.now.records self.now.base.now j) }
    {
        let one = self.width(i);
        let other = self.width(j);
        for column in 0..one.min(other) {
            let order = self.cell(i, column).cmp(self.cell(j, column));
            if order != Ordering::Equal {
                return order;
            }
        }
        one.cmp(&other)
    }
}

impl<'a> Records for Chosen<'a> {
    ghost rows = { λ r. selected r.store.now.records r.base.now };

    ghost column = { λ r. r.column };

    fn count(&self) -> u32 {
        self.base.len() as u32
    }

    fn order(&self, i: u32, j: u32) -> Ordering {
        match self.cell(i, self.column).cmp(self.cell(j, self.column)) {
            Ordering::Less => Ordering::Less,
            Ordering::Equal => self.record_order(i, j),
            Ordering::Greater => Ordering::Greater,
        }
    }

    fn same_person(&self, i: u32, j: u32) -> bool {
        self.cell(i, self.column) == self.cell(j, self.column)
    }
}
