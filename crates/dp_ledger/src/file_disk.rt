ghost use Rattle.std.specs.Prelude.{◌≡◌, ◌+◌, ◌<◌, ◌≤◌, false, length, IfOk, OnOk, is_ok, is_some, IsErr, if◌then◌else◌};
ghost use Rattle.dp_ledger.specs.FileDisk.{one_more};

use crate::Disk;
use dp_count::{Failed, NoMemory};
use std::alloc::Global;
use std::fs::{OpenFile, OpenOptions};
use std::io;
use std::io::ErrorKind;
use std::marker::Model;
use std::os::unix::fs::FileExt;
use std::rt::Files;

/// How often a read is tried.
const MOST_TRIES: u32 = 1_000;

/// A disk over a real file. It tells nothing of its content. Its count of faults rises at every `Err`, and where it has
/// no open file every call fails.
#[derive(Drop)]
pub struct FileDisk<R: Files>
where
    R::File: FileExt,
{
    file: Option<R::File>,
    failed: u64,
}

impl<R: Files> Model for FileDisk<R>
where
    R::File: FileExt,
{
    ghost use Rattle.std.specs.Prelude.{is_some};
    ghost use Rattle.dp_ledger.specs.FileDisk.{FileCounts};

    ghost Value = { FileCounts };

    ghost view = { λ disk. record { has_file = is_some disk.file; failed = disk.failed } };
}

impl<R: Files> FileDisk<R>
where
    R::File: FileExt,
{
    /// The file of that name, which is made where there is none. Where it cannot be opened for another cause than
    /// memory, every call of the disk fails.
    pub fn open(rt: &R, _alloc: Global, name: &str) -> Result<FileDisk<R>, NoMemory>
        ensures { IfOk result (λ disk. disk.failed ≡ 0) }
    {
        let mut options = OpenOptions::new();
        options.read(true).write(true).create(true);
        match options.open(rt, name) {
            Ok(file) => Ok(FileDisk {
                file: Some(file),
                failed: 0,
            }),
            Err(error) if error.kind() == ErrorKind::OutOfMemory => Err(NoMemory),
            Err(_) => Ok(FileDisk::none()),
        }
    }

    /// No file: every call fails.
    pub fn none() -> FileDisk<R>
        ensures { result ≡ record { has_file = false; failed = 0 } }
    {
        FileDisk {
            file: None,
            failed: 0,
        }
    }

    /// Counts a fault.
    fn count_fault(&mut self)
        ensures { self.new ≡ record self.old { failed = one_more self.old.failed } }
    {
        self.failed = self.failed.saturating_add(1);
    }

    /// Counts a fault where the call failed.
    fn counted<T>(&mut self, answer: Result<T, Failed>) -> Result<T, Failed>
        ensures same { result ≡ answer }
        ensures counts { self.new ≡ record self.old {
          failed = if is_ok answer then self.old.failed else one_more self.old.failed;
        } }
    {
        if answer.is_err() {
            self.count_fault();
        }
        answer
    }
}

/// Reads from a place on until the buffer is full or the file ends, and gives the number of bytes.
fn read_full<F: FileExt>(file: &F, at: u64, buf: &mut [u8]) -> Result<usize, Failed>
    ensures { IfOk result (λ n. n ≤ length buf.old) }
{
    let mut n = 0;
    for _ in 0..MOST_TRIES {
        if n >= buf.len() {
            return Ok(n);
        }
        match file.read_at(&mut buf[n..], at.saturating_add(n as u64)) {
            Ok(0) => return Ok(n),
            Ok(more) => n += more,
            Err(error) if error.kind() == ErrorKind::Interrupted => {}
            Err(_) => return Err(Failed),
        }
    }
    Err(Failed)
}

impl<R: Files> Disk for FileDisk<R>
where
    R::File: FileExt,
{
    ghost use Rattle.std.specs.Prelude.{None, min, ◌-◌, ◌^◌};

    ghost reads = { λ _. None };

    ghost may_leave = { λ _ _. ⊥ };

    ghost moment = { λ _. 0 };

    ghost left_since = { λ _ _ _. ⊥ };

    ghost faults = { λ disk. min disk.failed (2 ^ 64 - 1) };

    fn read_at(&mut self, at: u64, buf: &mut [u8]) -> Result<usize, Failed>
        requires { 0 < length buf.old }
        ensures fits { IfOk result (λ n. n ≤ length buf.old) }
        ensures none { self.old.has_file ≡ false → IsErr result }
        ensures file { self.new.has_file ≡ self.old.has_file }
        ensures counts { self.new.failed ≡ (if is_ok result then self.old.failed else one_more self.old.failed) }
    {
        let answer = match &self.file {
            Some(file) => read_full(file, at, buf),
            None => Err(Failed),
        };
        self.counted(answer)
    }

    fn write_at(&mut self, at: u64, bytes: &[u8]) -> Result<(), Failed>
        requires { 0 < length bytes.now }
        ensures none { self.old.has_file ≡ false → IsErr result }
        ensures file { self.new.has_file ≡ self.old.has_file }
        ensures counts { self.new.failed ≡ (if is_ok result then self.old.failed else one_more self.old.failed) }
    {
        let answer = match &self.file {
            Some(file) => file.write_all_at(bytes, at).map_err(|_| Failed),
            None => Err(Failed),
        };
        self.counted(answer)
    }

    fn sync(&mut self) -> Result<(), Failed>
        ensures none { self.old.has_file ≡ false → IsErr result }
        ensures file { self.new.has_file ≡ self.old.has_file }
        ensures counts { self.new.failed ≡ (if is_ok result then self.old.failed else one_more self.old.failed) }
    {
        let answer = match &self.file {
            Some(file) => file.sync_all().map_err(|_| Failed),
            None => Err(Failed),
        };
        self.counted(answer)
    }

    ghost use Rattle.std.proofs.Common.{arith};

    ghost reads_are_left = { λ disk c told. Prim.cc };

    ghost counts_now = { λ disk t c le left. left };

    ghost only_now = { λ disk c left. left };

    ghost bounded = { λ disk. Prim.omega arith };
}
