ghost use Rattle.std.specs.Prelude.{◌≡◌, ℕ, ◌+◌, ◌-◌, ◌<◌, ◌≤◌, ◌||◌, [], ◌∷◌, ◌++◌, length, take, min, Some, IfOk, OnOk, OnErr, is_err, nat_le};
ghost use Rattle.dp_count.specs.Faults.{HasCause};
ghost use Rattle.dp_io.specs.Sink.{appended};
ghost use Rattle.dp_io.specs.Calls.{fails_next, counted, after_call};
ghost use Rattle.dp_io.specs.MemSink.{after_write};

use crate::Sink;
use crate::calls::Calls;
use dp_count::{Failed, NoMemory};
use std::alloc::Global;
use std::marker::Model;

/// A sink in memory that holds at most `cap` bytes. Its writes are its calls; those whose number, from 1, is listed
/// fail, and so does a write when `cap` bytes are held.
#[derive(Debug, Drop)]
pub struct MemSink {
    piece: usize,
    cap: usize,
    bytes: Vec<u8>,
    calls: Calls,
}

impl Model for MemSink {
    ghost use Rattle.std.specs.Prelude.{◌≤◌, length, vec_capacity};
    ghost use Rattle.dp_io.specs.MemSink.{SinkValue};

    ghost Value = { SinkValue };

    ghost view = { λ sink. record {
      piece = sink.piece;
      cap = sink.cap;
      bytes = sink.bytes.items;
      calls = sink.calls;
    } };

    ghost invariant = { λ sink.
        (1 ≤ sink.piece) × (length sink.bytes.items ≤ sink.cap) × (sink.cap ≤ vec_capacity sink.bytes) };
}

impl MemSink {
    /// Holds nothing. A write takes at most `piece` bytes; the calls whose numbers, from 1, are in `fails` fail.
    pub fn new(
        alloc: Global,
        piece: usize,
        fails: Vec<u64>,
        cap: usize,
    ) -> Result<MemSink, NoMemory>
        requires { 1 ≤ piece }
        ensures { IfOk result (λ sink. sink ≡ record {
          piece = piece;
          cap = cap;
          bytes = [];
          calls = record { fails = fails.items; made = 0; failed = 0 };
        }) }
    {
        Ok(MemSink {
            piece,
            cap,
            bytes: Vec::with_capacity(alloc, cap)?,
            calls: Calls::new(fails),
        })
    }

    /// The bytes that were written.
    pub fn held(&self) -> &[u8]
        ensures bytes { result.now ≡ self.now.bytes }
        ensures within { length self.now.bytes ≤ self.now.cap }
    {
        &self.bytes
    }
}

impl Sink for MemSink {
    ghost use Rattle.std.specs.Prelude.{Some};
    ghost use Rattle.dp_io.specs.Calls.{counted};

    ghost held = { λ sink. Some sink.bytes };

    ghost faults = { λ sink. counted sink.calls.failed };

    fn write(&mut self, bytes: &[u8]) -> Result<usize, Failed>
        requires { 0 < length bytes.now }
        ensures some { IfOk result (λ n. 1 ≤ n) }
        ensures fits { IfOk result (λ n. n ≤ length bytes.now) }
        ensures gained { IfOk result (λ n. Some self.new.bytes ≡ appended (Some self.old.bytes) (take n bytes.now)) }
        ensures kept { OnErr result (Some self.new.bytes ≡ Some self.old.bytes) }
        ensures cause { HasCause (counted self.old.calls.failed) (counted self.new.calls.failed) result }
        ensures failed { is_err result ≡ (nat_le self.old.cap (length self.old.bytes) || fails_next self.old.calls) }
        ensures count { IfOk result (λ n.
            n ≡ min (min (length bytes.now) self.old.piece) (self.old.cap - length self.old.bytes)) }
        ensures ok { IfOk result (λ n. self.new ≡ after_write self.old (take n bytes.now)) }
        ensures err { OnErr result (self.new ≡ after_write self.old []) }
        ensures within { length self.new.bytes ≤ self.new.cap }
    {
        self.calls.count(self.bytes.len() >= self.cap)?;
        let n = bytes.len().min(self.piece).min(self.cap - self.bytes.len());
        self.bytes.extend_from_slice(&bytes[..n]).unwrap();
        Ok(n)
    }

    ghost use Rattle.std.proofs.Common.{arith};

    ghost bounded = { λ sink. Prim.omega arith };
}
