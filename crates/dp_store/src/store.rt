ghost use Rattle.std.specs.Prelude.{◌≡◌, ◌≢◌, [], ◌++◌, ◌*◌, ◌/◌, ◌^◌, ◌<◌, ◌≤◌, ℕ, length, map, filter, All, Some, Err, IfOk, IsOk, OnOk, OnErr};
ghost use Rattle.std.specs.Option.{ForSome};
ghost use Rattle.std.specs.List.{range_with_len};
ghost use Rattle.dp_count.specs.Faults.{Rose};
ghost use Rattle.dp_domain.specs.Domains.{Fits, Has};
ghost use Rattle.dp_domain.specs.Users.{cell};
ghost use Rattle.dp_domain.specs.declared.domains.Domain.TheVariants as domain;
ghost use Rattle.dp_domain.specs.declared.values.Value.TheVariants as value;
ghost use Rattle.dp_io.specs.Shelf.{KeepsRest};
ghost use Rattle.dp_records.specs.Records.{records, rows_of, all_cells, HoldsRecords};
ghost use Rattle.dp_rowwise.specs.Filter.{filter_value};
ghost use Rattle.dp_rowwise.specs.Parts.{category_texts};
ghost use Rattle.dp_rowwise.specs.Truncate.{record_at, truncate_value};
ghost use Rattle.dp_store.specs.Selections.{IsSelection, selected, has_text, number_at};

use crate::chosen::Chosen;
use crate::groups::{numbers_by_text, selections};
use crate::selection::Selection;
use dp_count::NoMemory;
use dp_domain::{Domain, Record, Rows, Text, Value};
use dp_io::{Shelf, Slot};
use dp_records::{DataFault, Packed, cells_of, read_cells};
use dp_rowwise::{Categories, kept_places};
use std::alloc::Global;
use std::marker::Model;

/// Records of from 1 to 64 cells each, at most 2^30 of them. All cells stand one after another in one buffer, record
/// by record. They have fewer than 2^32 bytes together.
#[derive(Debug, Drop)]
pub struct Store {
    cells: Packed,
    columns: u32,
    len: u32,
}

impl Model for Store {
    ghost use Rattle.dp_records.specs.Records.{rows_of};
    ghost use Rattle.dp_store.specs.Stores.{StoreValue, IsStored};

    ghost Value = { StoreValue };

    ghost view = { λ s. record { columns = s.columns; records = rows_of s.len s.columns s.cells } };

    ghost invariant = { λ s. IsStored s.len s.columns s.cells };
}

/// The store of the records of a text of at most 2^30 bytes, from 1 to 64 cells a record.
pub fn store_of(alloc: Global, bytes: &[u8], columns: u32, header: bool) -> Result<Store, NoMemory>
    requires some { 1 ≤ columns }
    requires few { columns ≤ 64 }
    requires short { length bytes.now ≤ 2 ^ 30 }
    ensures { IfOk result (λ store. store ≡ record { columns = columns; records = records columns header bytes.now }) }
{
    let cells = cells_of(alloc, bytes, columns, header)?;
    Ok(Store::from_cells(cells, columns))
}

/// The store of the records of all that is left of an open slot, from 1 to 64 cells a record. The text is dropped.
///
/// `TooLong` comes exactly where more than 2^30 bytes are left and no read failed. `ReadFault` comes only where the
/// shelf's count of faults rose. After `Ok` nothing is left, and after a fault a rest of what was left.
pub fn read_store<S: Shelf>(
    alloc: Global,
    shelf: &mut S,
    slot: Slot,
    columns: u32,
    header: bool,
) -> Result<Store, DataFault>
    requires open { slot < S.slots shelf.old }
    requires some { 1 ≤ columns }
    requires few { columns ≤ 64 }
    ensures columns { IfOk result (λ store. store.columns ≡ columns) }
    ensures records { IfOk result (λ store. ForSome (S.left shelf.old slot)
        (λ left. store.records ≡ records columns header left)) }
    ensures short { OnOk result (ForSome (S.left shelf.old slot) (λ left. length left ≤ 2 ^ 30)) }
    ensures end { OnOk result (ForSome (S.left shelf.old slot) (λ left. S.left shelf.new slot ≡ Some [])) }
    ensures long { result ≡ Err DataFault.TooLong → ForSome (S.left shelf.old slot) (λ left. 2 ^ 30 < length left) }
    ensures rest { OnErr result (ForSome (S.left shelf.old slot)
        (λ left. KeepsRest (Some left) (S.left shelf.new slot))) }
    ensures later { S.faults shelf.old ≤ S.faults shelf.new }
    ensures no_fault { result ≢ Err DataFault.ReadFault → S.faults shelf.new ≡ S.faults shelf.old }
    ensures cause { result ≡ Err DataFault.ReadFault → Rose (S.faults shelf.old) (S.faults shelf.new) }
    ensures others { (n : ℕ) → n ≢ slot → S.left shelf.new n ≡ S.left shelf.old n }
    ensures same_files { S.files shelf.new ≡ S.files shelf.old }
    ensures same_slots { S.slots shelf.new ≡ S.slots shelf.old }
{
    let cells = read_cells(alloc, shelf, slot, columns, header)?;
    Ok(Store::from_cells(cells, columns))
}

impl Store {
    /// The store of a value of records, each of so many cells.
    pub fn from_records(alloc: Global, records: &Value, columns: u32) -> Result<Store, NoMemory>
        requires fits { Fits (domain.Rows columns) }
        requires within { Has (domain.Rows columns) records.now }
        ensures columns { IfOk result (λ store. store.columns ≡ columns) }
        ensures records { IfOk result (λ store. value.Rows store.records ≡ records.now) }
    {
        let Value::Rows(rows) = records else {
            unreachable!()
        };
        let cells = packed_cells(alloc, rows.as_slice())?;
        Ok(Store::from_cells(cells, columns))
    }

    /// The store of cells of whole records, one record after another.
    fn from_cells(cells: Packed, columns: u32) -> Store
        requires some { 1 ≤ columns }
        requires few { columns ≤ 64 }
        requires whole { HoldsRecords columns cells }
        ensures { result ≡ record { columns = columns; records = rows_of (length cells / columns) columns cells } }
    {
        let len = (cells.len() / u64::from(columns)) as u32;
        Store {
            cells,
            columns,
            len,
        }
    }

    /// How many records there are, at most 2^30.
    pub fn len(&self) -> u64
        ensures len { result ≡ length self.now.records }
        ensures few { result ≤ 2 ^ 30 }
    {
        u64::from(self.len)
    }

    /// How many cells each record has, from 1 to 64.
    pub fn columns(&self) -> u32
        ensures columns { result ≡ self.now.columns }
        ensures each { All (λ cells. length cells ≡ result) self.now.records }
    {
        self.columns
    }

    /// The domain of the records, which has them.
    pub fn domain(&self) -> Domain
        ensures domain { result ≡ domain.Rows self.now.columns }
        ensures fits { Fits result }
        ensures records { Has result (value.Rows self.now.records) }
    {
        Domain::Rows {
            columns: self.columns,
        }
    }

    /// The cell in a column of the record of that number, both from 0.
    pub fn cell(&self, number: u32, column: u32) -> &[u8]
        requires number { number < length self.now.records }
        requires column { column < self.now.columns }
        ensures { result.now ≡ cell column (record_at self.now.records number) }
    {
        self.cells
            .at(first_cell(number, self.columns) + u64::from(column))
    }

    /// All records, in order. Takes no memory.
    pub fn whole(&self, _: Global) -> Result<Selection, NoMemory>
        ensures given { IsOk result }
        ensures numbers { IfOk result (λ all. all ≡ range_with_len 0 (length self.now.records)) }
        ensures records { IfOk result (λ all. selected self.now.records all ≡ self.now.records) }
        ensures selection { IfOk result (IsSelection self.now.records) }
    {
        Ok(Selection::all(self.len))
    }

    /// Those of the selected records whose cell in the column is the text, byte for byte, in order.
    pub fn select(
        &self,
        alloc: Global,
        base: &Selection,
        column: u32,
        text: &[u8],
    ) -> Result<Selection, NoMemory>
        requires base { IsSelection self.now.records base.now }
        requires column { column < self.now.columns }
        ensures records { IfOk result (λ chosen. value.Rows (selected self.now.records chosen)
            ≡ filter_value column text.now (value.Rows (selected self.now.records base.now))) }
        ensures selection { IfOk result (IsSelection self.now.records) }
    {
        let chosen = matching(alloc, self, base, column, text)?;
        Ok(Selection::these(chosen)?)
    }

    /// For each text the selected records whose cell in the column is the text, byte for byte, in order. The selected
    /// records are gone through once.
    pub fn groups(
        &self,
        alloc: Global,
        base: &Selection,
        column: u32,
        texts: &Categories,
    ) -> Result<Vec<Selection>, NoMemory>
        requires base { IsSelection self.now.records base.now }
        requires column { column < self.now.columns }
        ensures records { IfOk result (λ groups.
            map (λ group. value.Rows (selected self.now.records group)) groups.items
            ≡ map (λ text. filter_value column text (value.Rows (selected self.now.records base.now)))
            (category_texts texts.now)) }
        ensures selections { IfOk result (λ groups. All (IsSelection self.now.records) groups.items) }
    {
        let lists = numbers_by_text(alloc, self, base, column, texts)?;
        selections(alloc, lists)
    }

    /// The least ones of the selected records, at most so many, from 1 to 2^20, of each person, whom the cell in the
    /// column names, in order.
    pub fn truncate(
        &self,
        alloc: Global,
        base: &Selection,
        column: u32,
        most: u64,
    ) -> Result<Selection, NoMemory>
        requires base { IsSelection self.now.records base.now }
        requires column { column < self.now.columns }
        requires some { 1 ≤ most }
        requires few { most ≤ 2 ^ 20 }
        ensures records { IfOk result (λ chosen. value.Rows (selected self.now.records chosen)
            ≡ truncate_value column most (value.Rows (selected self.now.records base.now))) }
        ensures selection { IfOk result (IsSelection self.now.records) }
    {
        let records = Chosen {
            store: self,
            base,
            column,
        };
        let places = kept_places(alloc, &records, most)?;
        let chosen = numbers_at(alloc, base, places.as_slice())?;
        Ok(Selection::these(chosen)?)
    }

    /// The selected records as a value, in memory of their own.
    pub fn rows(&self, alloc: Global, base: &Selection) -> Result<Value, NoMemory>
        requires { IsSelection self.now.records base.now }
        ensures records { IfOk result (λ v. v ≡ value.Rows (selected self.now.records base.now)) }
        ensures within { IfOk result (Has (domain.Rows self.now.columns)) }
    {
        let _columns = &self.columns;
        let rows = selected_rows(alloc, self, base)?;
        Ok(Value::Rows(rows))
    }

    /// The record of that number, in memory of its own.
    fn record_of(&self, alloc: Global, number: u32) -> Result<Record, NoMemory>
        requires { number < length self.now.records }
        ensures { IfOk result (λ cells. cells ≡ record_at self.now.records number) }
    {
        self.cells
            .texts(alloc, first_cell(number, self.columns), self.columns)
    }
}

/// The selected records, in memory of their own.
fn selected_rows(alloc: Global, store: &Store, base: &Selection) -> Result<Rows, NoMemory>
    requires { IsSelection store.now.records base.now }
    ensures { IfOk result (λ rows. rows ≡ selected store.now.records base.now) }
{
    let mut rows = Vec::new(alloc);
    for k in 0..base.len() {
        rows.push(store.record_of(alloc, base.at(k))?)?;
    }
    Ok(Rows::from_vec(rows))
}

/// How many cells stand before those of a record.
fn first_cell(number: u32, columns: u32) -> u64
    requires number { number ≤ 2 ^ 30 }
    requires columns { columns ≤ 64 }
    ensures place { result ≡ number * columns }
    ensures small { result ≤ 2 ^ 36 }
{
    u64::from(number) * u64::from(columns)
}

/// The cells of records, one record after another.
fn packed_cells(alloc: Global, rows: &[Record]) -> Result<Packed, NoMemory>
    ensures { IfOk result (λ cells. cells ≡ all_cells rows.now) }
{
    let mut cells = Packed::new(alloc);
    for row in rows {
        push_all(&mut cells, row.as_slice())?;
    }
    Ok(cells)
}

/// Appends texts.
fn push_all(cells: &mut Packed, texts: &[Text]) -> Result<(), NoMemory>
    ensures { OnOk result (cells.new ≡ cells.old ++ texts.now) }
{
    for text in texts {
        cells.push(text.as_slice())?;
    }
    Ok(())
}

/// The numbers of those selected records whose cell in the column is the text.
fn matching(
    alloc: Global,
    store: &Store,
    base: &Selection,
    column: u32,
    text: &[u8],
) -> Result<Vec<u32>, NoMemory>
    requires base { IsSelection store.now.records base.now }
    requires column { column < store.now.columns }
    ensures { IfOk result (λ chosen. chosen.items ≡ filter (has_text store.now.records column text.now) base.now) }
{
    let mut chosen = Vec::new(alloc);
    for k in 0..base.len() {
        let number = base.at(k);
        if store.cell(number, column) == text {
            chosen.push(number)?;
        }
    }
    Ok(chosen)
}

/// The numbers of a selection at these places.
fn numbers_at(alloc: Global, base: &Selection, places: &[u32]) -> Result<Vec<u32>, NoMemory>
    requires { All (λ place. place < length base.now) places.now }
    ensures { IfOk result (λ numbers. numbers.items ≡ map (number_at base.now) places.now) }
{
    let mut numbers = Vec::with_capacity(alloc, places.len())?;
    for place in places {
        numbers.push(base.at(u64::from(*place)))?;
    }
    Ok(numbers)
}
