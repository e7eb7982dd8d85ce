ghost use Rattle.std.specs.Prelude.{◌≡◌, ◌≢◌, [], ◌++◌, ◌<◌, ◌≤◌, ◌^◌, ℕ, length, slice_index_or, Some, Err, IfOk, OnOk, OnErr};
ghost use Rattle.std.specs.Option.{ForSome};
ghost use Rattle.csv.specs.Records.{fields_of};
ghost use Rattle.dp_count.specs.Faults.{Rose};
ghost use Rattle.dp_io.specs.Shelf.{KeepsRest};
ghost use Rattle.dp_records.specs.Records.{records, records_up_to, all_cells, HoldsRecords, cut_or_pad, added_cells, is_header};

use crate::faults::DataFault;
use crate::packed::Packed;
use crate::tally::MOST_RECORDS;
use crate::text_reader::{no_memory, text_reader};
use csv::ByteRecord;
use dp_count::NoMemory;
use dp_io::{Shelf, Slot, read_whole};
use std::alloc::Global;

/// The greatest length of a data text, in bytes.
const MOST_BYTES: u64 = 1 << 30;

/// The cells of the records of a text of at most 2^30 bytes, one record after another, from 1 to 64 cells a record.
pub fn cells_of(alloc: Global, bytes: &[u8], columns: u32, header: bool) -> Result<Packed, NoMemory>
    requires some { 1 ≤ columns }
    requires few { columns ≤ 64 }
    requires short { length bytes.now ≤ 2 ^ 30 }
    ensures cells { IfOk result (λ cells. cells ≡ all_cells (records columns header bytes.now)) }
    ensures whole { IfOk result (HoldsRecords columns) }
{
    cells_up_to(alloc, bytes, columns, header, MOST_RECORDS)
}

/// The cells of the records of all that is left of an open slot, one record after another, from 1 to 64 cells a record.
///
/// `TooLong` comes exactly where more than 2^30 bytes are left and no read failed. `ReadFault` comes only where the
/// shelf's count of faults rose. After `Ok` nothing is left, and after a fault a rest of what was left.
pub fn read_cells<S: Shelf>(
    alloc: Global,
    shelf: &mut S,
    slot: Slot,
    columns: u32,
    header: bool,
) -> Result<Packed, DataFault>
    requires open { slot < S.slots shelf.old }
    requires some { 1 ≤ columns }
    requires few { columns ≤ 64 }
    ensures cells { IfOk result (λ cells. ForSome (S.left shelf.old slot)
        (λ left. cells ≡ all_cells (records columns header left))) }
    ensures whole { IfOk result (HoldsRecords columns) }
    ensures short { OnOk result (ForSome (S.left shelf.old slot) (λ left. length left ≤ 2 ^ 30)) }
    ensures end { OnOk result (ForSome (S.left shelf.old slot) (λ left. S.left shelf.new slot ≡ Some [])) }
    ensures long { result ≡ Err DataFault.TooLong → ForSome (S.left shelf.old slot) (λ left. 2 ^ 30 < length left) }
    ensures rest { OnErr result (ForSome (S.left shelf.old slot)
        (λ left. KeepsRest (Some left) (S.left shelf.new slot))) }
    ensures later { S.faults shelf.old ≤ S.faults shelf.new }
    ensures no_fault { result ≢ Err DataFault.ReadFault → S.faults shelf.new ≡ S.faults shelf.old }
    ensures cause { result ≡ Err DataFault.ReadFault → Rose (S.faults shelf.old) (S.faults shelf.new) }
    ensures others { (n : ℕ) → n ≢ slot → S.left shelf.new n ≡ S.left shelf.old n }
    ensures same_files { S.files shelf.new ≡ S.files shelf.old }
    ensures same_slots { S.slots shelf.new ≡ S.slots shelf.old }
{
    let text = read_whole(alloc, shelf, slot, MOST_BYTES)?;
    Ok(cells_of(alloc, text.as_slice(), columns, header)?)
}

/// The cells of the records among the first CSV records of a text, as many as `most`.
pub(crate) fn cells_up_to(
    alloc: Global,
    text: &[u8],
    columns: u32,
    header: bool,
    most: u64,
) -> Result<Packed, NoMemory>
    ensures { IfOk result (λ cells. cells ≡ all_cells (records_up_to most columns header text.now)) }
{
    let mut reader = text_reader(alloc, text);
    let mut row = ByteRecord::new(alloc);
    let mut cells = Packed::new(alloc);
    for turn in 0..most {
        match reader.read_byte_record(&mut row) {
            Ok(true) => push_record(&mut cells, &row, columns, is_header(turn, header))?,
            Ok(false) => return Ok(cells),
            Err(error) => return Err(no_memory(error.into_kind())),
        }
    }
    Ok(cells)
}

/// Whether the record of this turn is the header.
fn is_header(turn: u64, header: bool) -> bool
    ensures { result ≡ is_header turn header }
{
    header && turn == 0
}

/// Appends a record's cells, cut or padded, unless it is the header.
fn push_record(
    cells: &mut Packed,
    row: &ByteRecord,
    columns: u32,
    is_header: bool,
) -> Result<(), NoMemory>
    ensures { OnOk result (cells.new ≡ cells.old ++ added_cells is_header columns (fields_of row.now)) }
{
    if is_header {
        return Ok(());
    }
    push_cells(cells, row, columns)
}

/// Appends a record's cells, cut or padded.
fn push_cells(cells: &mut Packed, row: &ByteRecord, columns: u32) -> Result<(), NoMemory>
    ensures { OnOk result (cells.new ≡ cells.old ++ cut_or_pad columns (fields_of row.now)) }
{
    for column in 0..columns {
        cells.push(cell_at(row, column))?;
    }
    Ok(())
}

/// A record's cell in a column, and past its end the empty text.
fn cell_at(row: &ByteRecord, column: u32) -> &[u8]
    ensures { result.now ≡ slice_index_or (fields_of row.now) column [] }
{
    match row.get(column as usize) {
        Some(cell) => cell,
        None => &[],
    }
}
