ghost use Rattle.std.specs.Prelude.{◌≡◌, ℕ, ◌+◌, ◌<◌, ◌≤◌, ◌≢◌, ◌||◌, ◌⊎◌, [], ◌∷◌, ◌++◌, length, take, drop, min, Some, None, Err, IfOk, OnOk, OnErr, is_err, is_none, string_bytes, slice_get};
ghost use Rattle.std.specs.Option.{option_copied, ForSome};
ghost use Rattle.dp_count.specs.Faults.{Rose, HasCause};
ghost use Rattle.dp_io.specs.Shelf.{StartsFile, TakesNext, LacksFile};
ghost use Rattle.dp_io.specs.Calls.{fails_next, counted};
ghost use Rattle.dp_io.specs.MemShelf.{bytes_of, rest_of, after_call_with, after_open, after_read, is_failed};

use crate::calls::Calls;
use crate::{OpenFault, Shelf, Slot};
use dp_count::{Failed, NoMemory};
use std::alloc::Global;
use std::marker::Model;

/// A file in memory.
#[derive(Debug, Drop)]
struct StoredFile {
    name: String,
    bytes: Vec<u8>,
}

impl Model for StoredFile {
    ghost use Rattle.std.specs.Prelude.{string_bytes};
    ghost use Rattle.dp_io.specs.MemShelf.{NamedBytes};

    ghost Value = { NamedBytes };

    ghost view = { λ file. record { name = string_bytes file.name; bytes = file.bytes.items } };
}

/// The bytes of an open file that were not read yet.
#[derive(Debug, Drop)]
struct Unread {
    bytes: Vec<u8>,
    read: usize,
}

impl Model for Unread {
    ghost use Rattle.std.specs.Prelude.{List, ℕ, ◌≤◌, length, drop};

    ghost Value = { List ℕ };

    ghost view = { λ unread. drop unread.read unread.bytes.items };

    ghost invariant = { λ unread. unread.read ≤ length unread.bytes.items };
}

impl Unread {
    /// All of the bytes.
    fn new(bytes: Vec<u8>) -> Unread
        ensures { result ≡ bytes.items }
    {
        Unread { bytes, read: 0 }
    }

    /// Moves the next bytes into the buffer, as many as fit and at most `piece`, and gives their number.
    fn take(&mut self, buf: &mut [u8], piece: usize) -> usize
        ensures count { result ≡ min (min (length self.old) (length buf.old)) piece }
        ensures moved { take result buf.new ≡ take result self.old }
        ensures left { self.new ≡ drop result self.old }
    {
        let next = &self.bytes[self.read..];
        let n = next.len().min(buf.len()).min(piece);
        buf[..n].copy_from_slice(&next[..n]);
        self.read += n;
        n
    }
}

/// Files in memory. Its opens and reads are its calls; those whose number, from 1, is listed fail.
#[derive(Debug, Drop)]
pub struct MemShelf {
    piece: usize,
    stored: Vec<StoredFile>,
    opened: Vec<Unread>,
    calls: Calls,
}

impl Model for MemShelf {
    ghost use Rattle.std.specs.Prelude.{◌≤◌};
    ghost use Rattle.dp_io.specs.MemShelf.{ShelfValue};

    ghost Value = { ShelfValue };

    ghost view = { λ shelf. record {
      piece = shelf.piece;
      stored = shelf.stored.items;
      rests = shelf.opened.items;
      calls = shelf.calls;
    } };

    ghost invariant = { λ shelf. 1 ≤ shelf.piece };
}

impl MemShelf {
    /// No file and no slot. A read gives at most `piece` bytes; the calls whose numbers, from 1, are in `fails` fail.
    pub fn new(alloc: Global, piece: usize, fails: Vec<u64>) -> MemShelf
        requires { 1 ≤ piece }
        ensures { result ≡ record {
          piece = piece;
          stored = [];
          rests = [];
          calls = record { fails = fails.items; made = 0; failed = 0 };
        } }
    {
        MemShelf {
            piece,
            stored: Vec::new(alloc),
            opened: Vec::new(alloc),
            calls: Calls::new(fails),
        }
    }

    /// Adds a file of a name that no file has. After `NoMemory` the shelf is unchanged.
    pub fn add(&mut self, name: String, bytes: Vec<u8>) -> Result<(), NoMemory>
        requires { bytes_of self.old.stored (string_bytes name) ≡ None }
        ensures ok { OnOk result (self.new ≡ record self.old {
          stored = self.old.stored ++ record { name = string_bytes name; bytes = bytes.items } ∷ [];
        }) }
        ensures err { OnErr result (self.new ≡ self.old) }
    {
        self.stored.push(StoredFile { name, bytes })?;
        Ok(())
    }

    /// How many calls failed.
    #[cfg(test)]
    pub(crate) fn failed(&self) -> u64
        ensures { result ≡ self.now.calls.failed }
    {
        self.calls.failed()
    }
}

/// The bytes of the file of that name.
fn find_bytes<'a>(stored: &'a [StoredFile], name: &str) -> Option<&'a [u8]>
    ensures { option_copied result ≡ bytes_of stored.now name.now }
{
    for file in stored {
        if file.name.as_str() == name {
            return Some(file.bytes.as_slice());
        }
    }
    None
}

impl Shelf for MemShelf {
    ghost use Rattle.std.specs.Prelude.{Some, length, slice_get};
    ghost use Rattle.dp_io.specs.Calls.{counted};
    ghost use Rattle.dp_io.specs.MemShelf.{bytes_of};

    ghost files = { λ shelf. Some (bytes_of shelf.stored) };

    ghost left = { λ shelf n. slice_get shelf.rests n };

    ghost slots = { λ shelf. length shelf.rests };

    ghost faults = { λ shelf. counted shelf.calls.failed };

    fn open(&mut self, alloc: Global, name: &str) -> Result<Slot, OpenFault>
        ensures slot { IfOk result (λ slot. slot ≡ length self.old.rests) }
        ensures opened { OnOk result (length self.new.rests ≡ length self.old.rests + 1) }
        ensures starts { IfOk result (λ slot.
            StartsFile (Some (bytes_of self.old.stored)) name.now (slice_get self.new.rests slot)) }
        ensures refused { OnErr result (length self.new.rests ≡ length self.old.rests) }
        ensures same_files { Some (bytes_of self.new.stored) ≡ Some (bytes_of self.old.stored) }
        ensures others { (n : ℕ) → n < length self.old.rests → slice_get self.new.rests n ≡ slice_get self.old.rests n }
        ensures kept { OnErr result ((n : ℕ) → slice_get self.new.rests n ≡ slice_get self.old.rests n) }
        ensures later { counted self.old.calls.failed ≤ counted self.new.calls.failed }
        ensures no_fault { OnOk result (counted self.new.calls.failed ≡ counted self.old.calls.failed) }
        ensures cause { result ≡ Err OpenFault.Failed
            → (Rose (counted self.old.calls.failed) (counted self.new.calls.failed)
            ⊎ LacksFile (Some (bytes_of self.old.stored)) name.now) }
        ensures failed { is_failed result ≡ (fails_next self.old.calls || is_none (bytes_of self.old.stored name.now)) }
        ensures ok { OnOk result
            (ForSome (bytes_of self.old.stored name.now) (λ bytes. self.new ≡ after_open self.old bytes)) }
        ensures err { OnErr result (self.new ≡ after_call_with self.old self.old.rests) }
    {
        self.calls.count(false)?;
        let Some(bytes) = find_bytes(&self.stored, name) else {
            return Err(OpenFault::Failed);
        };
        let unread = Unread::new(Vec::from_slice(alloc, bytes)?);
        let slot = Slot::new(self.opened.len());
        self.opened.push(unread)?;
        Ok(slot)
    }

    fn read(&mut self, slot: Slot, buf: &mut [u8]) -> Result<usize, Failed>
        requires open { slot < length self.old.rests }
        requires room { 0 < length buf.old }
        ensures takes { IfOk result (λ n.
            TakesNext (slice_get self.old.rests slot) (slice_get self.new.rests slot) n buf.new) }
        ensures fits { IfOk result (λ n. n ≤ length buf.old) }
        ensures kept { OnErr result (slice_get self.new.rests slot ≡ slice_get self.old.rests slot) }
        ensures others { (n : ℕ) → n ≢ slot → slice_get self.new.rests n ≡ slice_get self.old.rests n }
        ensures same_files { Some (bytes_of self.new.stored) ≡ Some (bytes_of self.old.stored) }
        ensures same_slots { length self.new.rests ≡ length self.old.rests }
        ensures cause { HasCause (counted self.old.calls.failed) (counted self.new.calls.failed) result }
        ensures failed { is_err result ≡ fails_next self.old.calls }
        ensures count { IfOk result (λ n.
            n ≡ min (min (length (rest_of self.old slot)) (length buf.old)) self.old.piece) }
        ensures ok { IfOk result (λ n. self.new ≡ after_read self.old slot n) }
        ensures err { OnErr result (self.new ≡ after_call_with self.old self.old.rests) }
    {
        self.calls.count(false)?;
        Ok(self.opened[slot.number()].take(buf, self.piece))
    }

    ghost use Rattle.std.proofs.Common.{arith};

    ghost bounded = { λ shelf. Prim.omega arith };
}
