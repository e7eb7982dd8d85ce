ghost use Rattle.std.specs.Prelude.{◌≡◌, ◌+◌, ◌<◌, ◌≤◌, ℕ, List, [], false, length, Some, option_map, IfOk, OnOk, OnErr, is_err};
ghost use Rattle.std.specs.Option.{ForSome};
ghost use Rattle.dp_count.specs.Faults.{HasCause};
ghost use Rattle.dp_ledger.specs.Disk.{put_at, Fills, Torn, BecomesTorn, Only, Follows, SameOutcomes, Elapses};
ghost use Rattle.dp_ledger.specs.MemDisk.{written, torn, synced, nothing, MemValue, content_of, kept_of, fails_next, write_fails, with_change, with_fault};

use crate::Disk;
use crate::blanks::{copy_to_blank, new_blanks, put, replace};
use crate::calls::{Call, Made, note};
use dp_count::{Failed, NoMemory};
use std::alloc::Global;
use std::marker::Model;

/// A disk in memory, of at most `cap` bytes. The calls whose numbers, from 1, are listed fail, as do every call after
/// the number `calls` and a write that would end past `cap` bytes. It keeps a record of its calls, by which it tells
/// what a crash at an earlier moment may have left. A call after the number `calls` does not reach it and changes
/// nothing.
#[derive(Debug, Drop)]
pub struct MemDisk {
    first: Vec<u8>,
    content: Vec<u8>,
    kept: Vec<u8>,
    records: Vec<Call>,
    blanks: Vec<Vec<u8>>,
    fails: Vec<u64>,
    cap: usize,
    calls: u64,
    failed: u64,
}

impl Model for MemDisk {
    ghost use Rattle.dp_ledger.specs.MemDisk.{MemValue, HoldsState, HasRoom, replayed};

    ghost Value = { MemValue };

    ghost view = { λ disk. record {
      first = disk.first.items;
      changes = disk.records.items;
      fails = disk.fails.items;
      cap = disk.cap;
      calls = disk.calls;
      failed = disk.failed;
    } };

    ghost invariant = { λ disk.
        HoldsState (replayed disk.first.items disk.records.items) disk.cap disk.content disk.kept
        × HasRoom disk.calls disk.cap disk.records disk.blanks };
}

impl MemDisk {
    /// A disk with these bytes, at most `cap`, all of them kept. It takes all its memory here: for `cap` bytes of
    /// content and of kept content, and for the records of `calls` calls with the bytes that they write.
    pub fn new(
        alloc: Global,
        bytes: Vec<u8>,
        fails: Vec<u64>,
        cap: usize,
        calls: u64,
    ) -> Result<MemDisk, NoMemory>
        requires { length bytes.items ≤ cap }
        ensures { IfOk result (λ disk. disk ≡ record {
          first = bytes.items;
          changes = [];
          fails = fails.items;
          cap = cap;
          calls = calls;
          failed = 0;
        }) }
    {
        let mut content = Vec::with_capacity(alloc, cap)?;
        replace(&mut content, &bytes);
        let mut kept = Vec::with_capacity(alloc, cap)?;
        replace(&mut kept, &bytes);
        Ok(MemDisk {
            first: bytes,
            content,
            kept,
            records: Vec::with_capacity(alloc, calls as usize)?,
            blanks: new_blanks(alloc, calls as usize, cap)?,
            fails,
            cap,
            calls,
            failed: 0,
        })
    }

    /// Its content.
    pub fn reads(&self) -> &[u8]
        ensures { result.now ≡ content_of self.now }
    {
        &self.content
    }

    /// The content at the last sync that succeeded, or at the start.
    pub fn kept(&self) -> &[u8]
        ensures { result.now ≡ kept_of self.now }
    {
        &self.kept
    }

    /// Whether the next call fails.
    fn fails_next(&self) -> bool
        ensures { result ≡ fails_next self.now }
    {
        self.calls <= self.records.len() as u64
            || self.fails.contains(&(self.records.len() as u64 + 1))
    }

    /// Whether a write of n bytes at a place fails.
    fn write_fails(&self, at: u64, n: usize) -> bool
        ensures { result ≡ write_fails self.now at n }
    {
        n > self.cap || at > (self.cap - n) as u64 || self.fails_next()
    }

    /// Counts a write that failed.
    fn fail_write(&mut self, at: u64, size: usize)
        ensures { self.new ≡ with_fault self.old (torn at size) }
    {
        note(&mut self.records, self.calls, Made::Torn { at, size });
        self.failed = self.failed.saturating_add(1);
    }

    /// Counts a call that failed and changed nothing.
    fn fail_other(&mut self)
        ensures { self.new ≡ with_fault self.old nothing }
    {
        note(&mut self.records, self.calls, Made::Nothing);
        self.failed = self.failed.saturating_add(1);
    }

    /// Puts bytes at a place.
    fn put_bytes(&mut self, at: u64, bytes: &[u8])
        requires { write_fails self.old at (length bytes.now) ≡ false }
        ensures { self.new ≡ with_change self.old (written at bytes.now) }
    {
        let copy = copy_to_blank(&mut self.blanks, self.cap, bytes);
        put(&mut self.content, at as usize, bytes);
        note(
            &mut self.records,
            self.calls,
            Made::Written { at, bytes: copy },
        );
    }

    /// Keeps the content.
    fn keep(&mut self)
        requires { fails_next self.old ≡ false }
        ensures { self.new ≡ with_change self.old synced }
    {
        replace(&mut self.kept, &self.content);
        note(&mut self.records, self.calls, Made::Synced);
    }

    /// The bytes from a place on, as far as the content reaches and the buffer has room.
    fn read_bytes(&mut self, at: u64, buf: &mut [u8]) -> usize
        requires { fails_next self.old ≡ false }
        ensures fills { Fills (content_of self.old) at result buf.new }
        ensures fits { result ≤ length buf.old }
        ensures noted { self.new ≡ with_change self.old nothing }
    {
        let n = copy_from(&self.content, at, buf);
        note(&mut self.records, self.calls, Made::Nothing);
        n
    }
}

/// Copies the bytes from a place on to a buffer, as many as there are and as it has room for.
fn copy_from(content: &[u8], at: u64, buf: &mut [u8]) -> usize
    ensures fills { Fills content.now at result buf.new }
    ensures fits { result ≤ length buf.old }
{
    if at >= content.len() as u64 {
        return 0;
    }
    let rest = &content[at as usize..];
    let n = rest.len().min(buf.len());
    buf[..n].copy_from_slice(&rest[..n]);
    n
}

impl Disk for MemDisk {
    ghost use Rattle.std.specs.Prelude.{Some};
    ghost use Rattle.dp_ledger.specs.MemDisk.{content_of, MayLeave, moment_of, LeftSince, counted};
    ghost use Rattle.dp_ledger.specs.MemDiskProof.{told_left, now_left, only_left};

    ghost reads = { λ disk. Some (content_of disk) };

    ghost may_leave = { MayLeave };

    ghost moment = { moment_of };

    ghost left_since = { LeftSince };

    ghost faults = { λ disk. counted disk.failed };

    fn read_at(&mut self, at: u64, buf: &mut [u8]) -> Result<usize, Failed>
        requires { 0 < length buf.old }
        ensures fits { IfOk result (λ n. n ≤ length buf.old) }
        ensures fills { IfOk result (λ n. ForSome (Some (content_of self.old))
            (λ content. Fills content at n buf.new)) }
        ensures same { Some (content_of self.new) ≡ Some (content_of self.old) }
        ensures still { SameOutcomes (MayLeave self.old) (MayLeave self.new) }
        ensures time { Elapses (moment_of self.old) (moment_of self.new) (LeftSince self.old) (LeftSince self.new)
            (MayLeave self.new) }
        ensures cause { HasCause (counted self.old.failed) (counted self.new.failed) result }
        ensures failed { is_err result ≡ fails_next self.old }
        ensures ok { OnOk result (self.new ≡ with_change self.old nothing) }
        ensures err { OnErr result (self.new ≡ with_fault self.old nothing) }
    {
        if self.fails_next() {
            self.fail_other();
            return Err(Failed);
        }
        Ok(self.read_bytes(at, buf))
    }

    fn write_at(&mut self, at: u64, bytes: &[u8]) -> Result<(), Failed>
        requires { 0 < length bytes.now }
        ensures written { OnOk result (Some (content_of self.new)
            ≡ option_map (put_at at bytes.now) (Some (content_of self.old))) }
        ensures torn { OnErr result (ForSome (Some (content_of self.old))
            (λ was. BecomesTorn at (length bytes.now) was (Some (content_of self.new)))) }
        ensures crash { Follows (Torn at (length bytes.now)) (MayLeave self.old) (MayLeave self.new) }
        ensures time { Elapses (moment_of self.old) (moment_of self.new) (LeftSince self.old) (LeftSince self.new)
            (MayLeave self.new) }
        ensures cause { HasCause (counted self.old.failed) (counted self.new.failed) result }
        ensures failed { is_err result ≡ write_fails self.old at (length bytes.now) }
        ensures ok { OnOk result (self.new ≡ with_change self.old (written at bytes.now)) }
        ensures err { OnErr result (self.new ≡ with_fault self.old (torn at (length bytes.now))) }
    {
        if self.write_fails(at, bytes.len()) {
            self.fail_write(at, bytes.len());
            return Err(Failed);
        }
        self.put_bytes(at, bytes);
        Ok(())
    }

    fn sync(&mut self) -> Result<(), Failed>
        ensures durable { OnOk result (ForSome (Some (content_of self.old))
            (λ content. Only content (MayLeave self.new))) }
        ensures still { OnErr result (SameOutcomes (MayLeave self.old) (MayLeave self.new)) }
        ensures same { Some (content_of self.new) ≡ Some (content_of self.old) }
        ensures crash { (c : List ℕ) → MayLeave self.new c → MayLeave self.old c }
        ensures time { Elapses (moment_of self.old) (moment_of self.new) (LeftSince self.old) (LeftSince self.new)
            (MayLeave self.new) }
        ensures cause { HasCause (counted self.old.failed) (counted self.new.failed) result }
        ensures failed { is_err result ≡ fails_next self.old }
        ensures ok { OnOk result (self.new ≡ with_change self.old synced) }
        ensures err { OnErr result (self.new ≡ with_fault self.old nothing) }
    {
        if self.fails_next() {
            self.fail_other();
            return Err(Failed);
        }
        self.keep();
        Ok(())
    }

    ghost reads_are_left = { told_left };

    ghost counts_now = { now_left };

    ghost only_now = { only_left };

    ghost use Rattle.std.proofs.Common.{arith};

    ghost bounded = { λ disk. Prim.omega arith };
}
