ghost use Rattle.std.specs.Prelude.{◌≡◌, ◌<◌, ◌≤◌, length, IfOk, is_ok, if◌then◌else◌};
ghost use Rattle.std.specs.Io.KnownBytes.{WriteAppends};
ghost use Rattle.dp_io.specs.Calls.{one_more};

use crate::Sink;
use crate::retrying::write_retrying;
use dp_count::Failed;
use std::io::Write;
use std::marker::Model;
use std::rt::{Stderr, Stdout};

/// What is written to a writer of the standard library, as a standard stream. It tells no bytes.
///
/// Contracts see the writer's bytes, where the writer tells them, and the count of faults, which rises at every `Err`.
/// A write that took nothing is one; a write that a signal interrupts is none, and is tried again, at most 1,000 times.
#[derive(Drop)]
pub struct StdSink<W: Write> {
    writer: W,
    failed: u64,
}

impl<W: Write> Model for StdSink<W> {
    ghost use Rattle.dp_io.specs.StdSink.{WriterState};

    ghost Value = { WriterState };

    ghost view = { λ sink. record { bytes = W.contents sink.writer; failed = sink.failed } };
}

impl StdSink<Stdout> {
    /// The standard output.
    pub fn out(rt: &HostRuntime) -> StdSink<Stdout>
        ensures { result.failed ≡ 0 }
    {
        StdSink::new(rt.stdout())
    }
}

impl StdSink<Stderr> {
    /// The standard error.
    pub fn err(rt: &HostRuntime) -> StdSink<Stderr>
        ensures { result.failed ≡ 0 }
    {
        StdSink::new(rt.stderr())
    }
}

impl<W: Write> StdSink<W> {
    /// What is written goes to the writer, with no buffer between.
    pub(crate) fn new(writer: W) -> StdSink<W>
        ensures { result ≡ record { bytes = W.contents writer; failed = 0 } }
    {
        StdSink { writer, failed: 0 }
    }
}

impl<W: Write> Sink for StdSink<W> {
    ghost use Rattle.std.specs.Prelude.{None};
    ghost use Rattle.dp_io.specs.Calls.{counted};

    ghost held = { λ _. None };

    ghost faults = { λ sink. counted sink.failed };

    fn write(&mut self, bytes: &[u8]) -> Result<usize, Failed>
        requires { 0 < length bytes.now }
        ensures some { IfOk result (λ n. 1 ≤ n) }
        ensures fits { IfOk result (λ n. n ≤ length bytes.now) }
        ensures appends { WriteAppends self.old.bytes self.new.bytes result bytes.now }
        ensures failed { self.new.failed ≡ (if is_ok result then self.old.failed else one_more self.old.failed) }
    {
        match write_retrying(&mut self.writer, bytes) {
            Ok(n) if 0 < n => Ok(n),
            _ => {
                self.failed = self.failed.saturating_add(1);
                Err(Failed)
            }
        }
    }

    ghost use Rattle.std.proofs.Common.{arith};

    ghost bounded = { λ sink. Prim.omega arith };
}
