ghost use Rattle.std.specs.Prelude.{◌≡◌, ◌≢◌, [], ◌<◌, ◌≤◌, ◌^◌, ◌/◌, ℕ, length, Some, Err, IfOk, OnOk, OnErr};
ghost use Rattle.std.specs.Option.{ForSome};
ghost use Rattle.dp_count.specs.Faults.{Rose};
ghost use Rattle.dp_domain.specs.Domains.{Has};
ghost use Rattle.dp_domain.specs.declared.domains.Domain.TheVariants as domain;
ghost use Rattle.dp_domain.specs.declared.values.Value.TheVariants as value;
ghost use Rattle.dp_io.specs.Shelf.{KeepsRest};
ghost use Rattle.dp_records.specs.Records.{records, rows_of};

use crate::cells::{cells_of, read_cells};
use crate::faults::DataFault;
use crate::packed::Packed;
use dp_count::NoMemory;
use dp_domain::{Rows, Value};
use dp_io::{Shelf, Slot};
use std::alloc::Global;

/// The records of a text of at most 2^30 bytes, from 1 to 64 cells a record.
pub fn records_of(
    alloc: Global,
    bytes: &[u8],
    columns: u32,
    header: bool,
) -> Result<Value, NoMemory>
    requires some { 1 ≤ columns }
    requires few { columns ≤ 64 }
    requires short { length bytes.now ≤ 2 ^ 30 }
    ensures { IfOk result (λ v. v ≡ value.Rows (records columns header bytes.now)) }
{
    let cells = cells_of(alloc, bytes, columns, header)?;
    Ok(Value::Rows(rows_of(alloc, &cells, columns)?))
}

/// The records of all that is left of an open slot, from 1 to 64 cells a record.
///
/// `TooLong` comes exactly where more than 2^30 bytes are left and no read failed. `ReadFault` comes only where the
/// shelf's count of faults rose. After `Ok` nothing is left, and after a fault a rest of what was left.
pub fn read_records<S: Shelf>(
    alloc: Global,
    shelf: &mut S,
    slot: Slot,
    columns: u32,
    header: bool,
) -> Result<Value, DataFault>
    requires open { slot < S.slots shelf.old }
    requires some { 1 ≤ columns }
    requires few { columns ≤ 64 }
    ensures records { IfOk result (λ v. ForSome (S.left shelf.old slot)
        (λ left. v ≡ value.Rows (records columns header left))) }
    ensures within { IfOk result (λ v. Has (domain.Rows columns) v) }
    ensures short { OnOk result (ForSome (S.left shelf.old slot) (λ left. length left ≤ 2 ^ 30)) }
    ensures end { OnOk result (ForSome (S.left shelf.old slot) (λ left. S.left shelf.new slot ≡ Some [])) }
    ensures long { result ≡ Err DataFault.TooLong → ForSome (S.left shelf.old slot) (λ left. 2 ^ 30 < length left) }
    ensures rest { OnErr result (ForSome (S.left shelf.old slot)
        (λ left. KeepsRest (Some left) (S.left shelf.new slot))) }
    ensures later { S.faults shelf.old ≤ S.faults shelf.new }
    ensures no_fault { result ≢ Err DataFault.ReadFault → S.faults shelf.new ≡ S.faults shelf.old }
    ensures cause { result ≡ Err DataFault.ReadFault → Rose (S.faults shelf.old) (S.faults shelf.new) }
    ensures others { (n : ℕ) → n ≢ slot → S.left shelf.new n ≡ S.left shelf.old n }
    ensures same_files { S.files shelf.new ≡ S.files shelf.old }
    ensures same_slots { S.slots shelf.new ≡ S.slots shelf.old }
{
    let cells = read_cells(alloc, shelf, slot, columns, header)?;
    Ok(Value::Rows(rows_of(alloc, &cells, columns)?))
}

/// The cells as records of so many.
fn rows_of(alloc: Global, cells: &Packed, columns: u32) -> Result<Rows, NoMemory>
    requires { 1 ≤ columns }
    ensures { IfOk result (λ rows. rows ≡ rows_of (length cells.now / columns) columns cells.now) }
{
    let columns_wide = u64::from(columns);
    let mut rows = Vec::new(alloc);
    for place in 0..cells.len() / columns_wide {
        rows.push(cells.texts(alloc, place * columns_wide, columns)?)?;
    }
    Ok(Rows::from_vec(rows))
}
