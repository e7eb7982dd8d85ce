ghost use Rattle.std.specs.Prelude.{◌≡◌, ◌≢◌, ℕ, ◌+◌, ◌<◌, ◌≤◌, [], true, false, length, slice_get, IfOk, OnOk, OnErr, is_ok, if◌then◌else◌};
ghost use Rattle.std.specs.Io.KnownBytes.{ReadConsumes};
ghost use Rattle.dp_io.specs.Calls.{one_more};
ghost use Rattle.dp_io.specs.FileShelf.{OpensSource, left_at, is_input_name};

use crate::retrying::read_retrying;
use crate::{OpenFault, Shelf, Slot};
use dp_count::Failed;
use std::alloc::Global;
use std::io::{ErrorKind, Read};
use std::marker::Model;
use std::rt::Files;
use std::{fs, io};

/// What a slot reads.
#[derive(Drop)]
enum Source<F, I> {
    Opened(F),
    Input(I),
}

/// An open slot.
#[derive(Drop)]
struct OpenSlot<F: Read, I: Read> {
    source: Source<F, I>,
}

impl<F: Read, I: Read> Model for OpenSlot<F, I> {
    ghost use Rattle.std.specs.Prelude.{true, false};
    ghost use Rattle.dp_io.specs.FileShelf.{OpenSource};
    ghost use Rattle.dp_io.specs.declared.file_shelf.Source.TheVariants as variant;

    ghost Value = { OpenSource };

    ghost view = { λ slot. elim slot.source [
      | variant.Opened file ↦ record { is_input = false; left = F.remaining file }
      | variant.Input input ↦ record { is_input = true; left = I.remaining input }
    ] };
}

impl<F: Read, I: Read> OpenSlot<F, I> {
    /// A slot that reads a file.
    fn file(file: F) -> OpenSlot<F, I>
        ensures { result ≡ record { is_input = false; left = F.remaining file } }
    {
        OpenSlot {
            source: Source::Opened(file),
        }
    }

    /// A slot that reads the standard input.
    fn input(input: I) -> OpenSlot<F, I>
        ensures { result ≡ record { is_input = true; left = I.remaining input } }
    {
        OpenSlot {
            source: Source::Input(input),
        }
    }

    /// Reads the next bytes, at most the buffer's length, with no buffer between.
    fn read(&mut self, buf: &mut [u8]) -> io::Result<usize>
        ensures fits { IfOk result (λ n. n ≤ length buf.old) }
        ensures takes { ReadConsumes self.old.left self.new.left result buf.new }
        ensures same { self.new.is_input ≡ self.old.is_input }
    {
        match &mut self.source {
            Source::Opened(file) => read_retrying(file, buf),
            Source::Input(input) => read_retrying(input, buf),
        }
    }
}

/// The files of the system; under the name `-` the standard input, if that was there when the shelf was made. It tells
/// no bytes.
///
/// Its count of faults rises at every `Err`. A read that a signal interrupts is none: it is tried again, at most 1,000
/// times.
#[derive(Drop)]
pub struct FileShelf<R: Files + Input> {
    runtime: R,
    has_input: bool,
    slots: Vec<OpenSlot<R::File, R::Reader>>,
    failed: u64,
}

impl<R: Files + Input> Model for FileShelf<R> {
    ghost use Rattle.dp_io.specs.FileShelf.{ShelfState};

    ghost Value = { ShelfState };

    ghost view = { λ shelf. record {
      has_input = shelf.has_input;
      sources = shelf.slots.items;
      failed = shelf.failed;
    } };
}

impl<R: Files + Input> FileShelf<R> {
    /// No slot is open. A read of no bytes shows whether the standard input is there.
    pub fn new(runtime: R, alloc: Global) -> FileShelf<R>
        ensures empty { result.sources ≡ [] }
        ensures failed { result.failed ≡ 0 }
    {
        let has_input = runtime.reader().read(&mut []).is_ok();
        FileShelf {
            runtime,
            has_input,
            slots: Vec::new(alloc),
            failed: 0,
        }
    }

    /// Counts a fault.
    fn count_fault(&mut self)
        ensures { self.new ≡ record self.old { failed = one_more self.old.failed } }
    {
        self.failed = self.failed.saturating_add(1);
    }

    /// What a slot of that name reads.
    fn source(&self, name: &str) -> io::Result<OpenSlot<R::File, R::Reader>>
        ensures kind { IfOk result (λ slot. slot.is_input ≡ is_input_name name.now) }
        ensures there { IfOk result (λ slot. is_input_name name.now ≡ true → self.now.has_input ≡ true) }
    {
        if name == "-" {
            if !self.has_input {
                return Err(io::Error::from(ErrorKind::NotFound));
            }
            return Ok(OpenSlot::input(self.runtime.reader()));
        }
        Ok(OpenSlot::file(fs::open(&self.runtime, name)?))
    }
}

impl<R: Files + Input> Shelf for FileShelf<R> {
    ghost use Rattle.std.specs.Prelude.{None, length};
    ghost use Rattle.dp_io.specs.Calls.{counted};

    ghost files = { λ _. None };

    ghost left = { λ _ _. None };

    ghost slots = { λ shelf. length shelf.sources };

    ghost faults = { λ shelf. counted shelf.failed };

    fn open(&mut self, _alloc: Global, name: &str) -> Result<Slot, OpenFault>
        ensures slot { IfOk result (λ slot. slot ≡ length self.old.sources) }
        ensures opens { OnOk result (OpensSource name.now self.old.has_input self.old.sources self.new.sources) }
        ensures kept { OnErr result (self.new.sources ≡ self.old.sources) }
        ensures input { self.new.has_input ≡ self.old.has_input }
        ensures failed { self.new.failed ≡ (if is_ok result then self.old.failed else one_more self.old.failed) }
    {
        let source = match self.source(name) {
            Ok(source) => source,
            Err(error) => {
                self.count_fault();
                return Err(open_fault(error.kind()));
            }
        };
        let slot = Slot::new(self.slots.len());
        if self.slots.push(source).is_err() {
            self.count_fault();
            return Err(OpenFault::NoMemory);
        }
        Ok(slot)
    }

    fn read(&mut self, slot: Slot, buf: &mut [u8]) -> Result<usize, Failed>
        requires open { slot < length self.old.sources }
        requires room { 0 < length buf.old }
        ensures fits { IfOk result (λ n. n ≤ length buf.old) }
        ensures takes { ReadConsumes (left_at self.old.sources slot) (left_at self.new.sources slot) result buf.new }
        ensures others { (n : ℕ) → n ≢ slot → slice_get self.new.sources n ≡ slice_get self.old.sources n }
        ensures slots { length self.new.sources ≡ length self.old.sources }
        ensures input { self.new.has_input ≡ self.old.has_input }
        ensures failed { self.new.failed ≡ (if is_ok result then self.old.failed else one_more self.old.failed) }
    {
        let Ok(n) = self.slots[slot.number()].read(buf) else {
            self.count_fault();
            return Err(Failed);
        };
        Ok(n)
    }

    ghost use Rattle.std.proofs.Common.{arith};

    ghost bounded = { λ shelf. Prim.omega arith };
}

/// What an error at an open means: any but want of memory is a failure.
fn open_fault(kind: ErrorKind) -> OpenFault {
    match kind {
        ErrorKind::OutOfMemory => OpenFault::NoMemory,
        _ => OpenFault::Failed,
    }
}
