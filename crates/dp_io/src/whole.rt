ghost use Rattle.std.specs.Prelude.{◌≡◌, ℕ, ◌<◌, ◌≤◌, ◌≢◌, [], length, Some, Err, IfOk, IfErr, OnOk, OnErr};
ghost use Rattle.std.specs.Option.{ForSome};
ghost use Rattle.dp_count.specs.Faults.{Rose};
ghost use Rattle.dp_io.specs.Shelf.{KeepsRest};

use crate::{Shelf, Slot, WholeFault};
use std::alloc::{AllocError, Global};

/// How many bytes one read is asked for.
const BUFFER_BYTES: usize = 65_536;

/// All the bytes that are left of an open slot, at most `limit` of them. Nothing is then left.
///
/// `TooLong` comes exactly where more than `limit` bytes are left and no read failed. `Failed` comes only where the
/// shelf's count of faults rose. After either the slot holds a rest of what it held.
pub fn read_whole<S: Shelf>(
    alloc: Global,
    shelf: &mut S,
    slot: Slot,
    limit: u64,
) -> Result<Vec<u8>, WholeFault>
    requires { slot < S.slots shelf.old }
    ensures short { IfOk result (λ bytes. length bytes.items ≤ limit) }
    ensures whole { IfOk result (λ bytes. ForSome (S.left shelf.old slot) (λ left. bytes.items ≡ left)) }
    ensures end { OnOk result (ForSome (S.left shelf.old slot) (λ left. S.left shelf.new slot ≡ Some [])) }
    ensures long { result ≡ Err WholeFault.TooLong → ForSome (S.left shelf.old slot) (λ left. limit < length left) }
    ensures rest { OnErr result (KeepsRest (S.left shelf.old slot) (S.left shelf.new slot)) }
    ensures later { S.faults shelf.old ≤ S.faults shelf.new }
    ensures no_fault { result ≢ Err WholeFault.Failed → S.faults shelf.new ≡ S.faults shelf.old }
    ensures cause { result ≡ Err WholeFault.Failed → Rose (S.faults shelf.old) (S.faults shelf.new) }
    ensures others { (n : ℕ) → n ≢ slot → S.left shelf.new n ≡ S.left shelf.old n }
    ensures same_files { S.files shelf.new ≡ S.files shelf.old }
    ensures same_slots { S.slots shelf.new ≡ S.slots shelf.old }
{
    let mut buffer = new_buffer(alloc)?;
    let mut bytes = Vec::new(alloc);
    'pieces: loop {
        let n = shelf.read(slot, &mut buffer)?;
        if n == 0 {
            return Ok(bytes);
        }
        if n as u64 > limit - bytes.len() as u64 {
            return Err(WholeFault::TooLong);
        }
        bytes.extend_from_slice(&buffer[..n])?;
    }
}

/// A buffer for the reads.
fn new_buffer(alloc: Global) -> Result<Vec<u8>, AllocError>
    ensures { IfOk result (λ buffer. 0 < length buffer.items) }
{
    vec![in alloc; 0u8; BUFFER_BYTES]
}
