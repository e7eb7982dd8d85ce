ghost use Rattle.std.specs.Prelude.{◌≡◌, ℕ, ◌+◌, ◌-◌, ◌<◌, ◌≤◌, ◌≢◌, [], length, take, drop, slice_range, IfOk, OnErr};
ghost use Rattle.dp_count.specs.Faults.{HasCause};
ghost use Rattle.dp_io.specs.Shelf.{TakesNext};
ghost use Rattle.dp_io.specs.ReadBuffer.{ReadsBehind};

use crate::{Shelf, Slot};
use dp_count::{Failed, NoMemory};
use std::alloc::Global;
use std::marker::Model;

/// How many bytes a buffer has room for.
const CAPACITY: usize = 131_072;

/// Bytes that were read ahead of their use, at most 131,072. What is read comes behind them; what is used is
/// dropped in front.
///
/// A read moves them only where the room behind them is used up. So where a read finds at most half of the
/// room in use, it moves no more bytes than were dropped since the last move.
#[derive(Debug, Drop)]
pub(crate) struct ReadBuffer {
    bytes: Vec<u8>,
    start: usize,
    end: usize,
}

impl Model for ReadBuffer {
    ghost use Rattle.std.specs.Prelude.{◌≡◌, ◌≤◌, ℕ, List, length, slice_range};

    ghost Value = { List ℕ };

    ghost view = { λ buffer. slice_range buffer.bytes.items buffer.start buffer.end };

    ghost invariant = { λ buffer. (buffer.start ≤ buffer.end)
        × (buffer.end ≤ length buffer.bytes.items) × (length buffer.bytes.items ≡ 131072) };
}

impl ReadBuffer {
    /// No bytes. Takes all the memory that later calls use.
    pub(crate) fn new(alloc: Global) -> Result<ReadBuffer, NoMemory>
        ensures { IfOk result (λ buffer. buffer ≡ []) }
    {
        Ok(ReadBuffer {
            bytes: vec![in alloc; 0u8; CAPACITY]?,
            start: 0,
            end: 0,
        })
    }

    /// The bytes.
    pub(crate) fn as_slice(&self) -> &[u8]
        ensures value { result.now ≡ self.now }
        ensures within { length result.now ≤ 131072 }
    {
        &self.bytes[self.start..self.end]
    }

    /// How many bytes there are.
    pub(crate) fn len(&self) -> usize
        ensures count { result ≡ length self.now }
        ensures within { result ≤ 131072 }
    {
        self.end - self.start
    }

    /// Drops the first n bytes, of which there are as many.
    pub(crate) fn drop_front(&mut self, n: usize)
        requires { n ≤ length self.old }
        ensures { self.new ≡ drop n self.old }
    {
        self.start += n;
    }

    /// Reads the next bytes of an open slot to the end of the buffer, and gives their number. 0 means the end
    /// of the slot.
    ///
    /// `Failed` comes only where the shelf's count of faults rose, and leaves buffer and slot as they were.
    pub(crate) fn read<S: Shelf>(&mut self, shelf: &mut S, slot: Slot) -> Result<usize, Failed>
        requires open { slot < S.slots shelf.old }
        requires room { length self.old < 131072 }
        ensures behind { IfOk result (λ n.
            ReadsBehind (S.left shelf.old slot) (S.left shelf.new slot) n self.old self.new) }
        ensures refused { OnErr result (self.new ≡ self.old) }
        ensures kept { OnErr result (S.left shelf.new slot ≡ S.left shelf.old slot) }
        ensures others { (n : ℕ) → n ≢ slot → S.left shelf.new n ≡ S.left shelf.old n }
        ensures same_files { S.files shelf.new ≡ S.files shelf.old }
        ensures same_slots { S.slots shelf.new ≡ S.slots shelf.old }
        ensures cause { HasCause (S.faults shelf.old) (S.faults shelf.new) result }
    {
        let (start, end) = make_room(&mut self.bytes, self.start, self.end);
        self.start = start;
        self.end = end;
        let n = read_from(shelf, slot, &mut self.bytes, end)?;
        self.end = end + n;
        Ok(n)
    }
}

/// Where the bytes from `start` to `end` stand after they were moved to the front, if no room was behind them.
fn make_room(bytes: &mut [u8], start: usize, end: usize) -> (usize, usize)
    requires ordered { start ≤ end }
    requires within { end ≤ length bytes.old }
    requires room { end - start < length bytes.old }
    ensures ordered { result.0 ≤ result.1 }
    ensures room { result.1 < length bytes.new }
    ensures same { slice_range bytes.new result.0 result.1 ≡ slice_range bytes.old start end }
{
    if end < bytes.len() {
        return (start, end);
    }
    bytes.copy_within(start..end, 0);
    (0, end - start)
}

/// Reads the next bytes of an open slot into the bytes from a place on.
fn read_from<S: Shelf>(
    shelf: &mut S,
    slot: Slot,
    bytes: &mut [u8],
    place: usize,
) -> Result<usize, Failed>
    requires open { slot < S.slots shelf.old }
    requires room { place < length bytes.old }
    ensures takes { IfOk result (λ n.
        TakesNext (S.left shelf.old slot) (S.left shelf.new slot) n (drop place bytes.new)) }
    ensures fits { IfOk result (λ n. place + n ≤ length bytes.old) }
    ensures front { take place bytes.new ≡ take place bytes.old }
    ensures kept { OnErr result (S.left shelf.new slot ≡ S.left shelf.old slot) }
    ensures others { (n : ℕ) → n ≢ slot → S.left shelf.new n ≡ S.left shelf.old n }
    ensures same_files { S.files shelf.new ≡ S.files shelf.old }
    ensures same_slots { S.slots shelf.new ≡ S.slots shelf.old }
    ensures cause { HasCause (S.faults shelf.old) (S.faults shelf.new) result }
{
    shelf.read(slot, &mut bytes[place..])
}
