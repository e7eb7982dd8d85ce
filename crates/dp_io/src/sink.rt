ghost use Rattle.std.specs.Prelude.{◌≡◌, ℕ, ◌+◌, ◌^◌, ◌<◌, ◌≤◌, List, [], length, take, Option, Ok, IfOk, OnOk, OnErr};
ghost use Rattle.dp_count.specs.Faults.{HasCause};
ghost use Rattle.dp_io.specs.Sink.{appended, AddsFront};

use dp_count::Failed;

/// What bytes are written to.
pub trait Sink {
    // the bytes that the sink holds, where it tells them
    ghost held: { Self → Option (List ℕ) };

    // how many calls failed; it never falls, and stands still at 2 ^ 64 - 1
    ghost faults: { Self → ℕ };

    /// Takes between one byte and all of a piece that is not empty, appends what it took, and gives their number.
    ///
    /// `Failed` comes only where the count of faults rose, and leaves what the sink holds as it was.
    fn write(&mut self, bytes: &[u8]) -> Result<usize, Failed>
        requires { 0 < length bytes.now }
        ensures some { IfOk result (λ n. 1 ≤ n) }
        ensures fits { IfOk result (λ n. n ≤ length bytes.now) }
        ensures gained { IfOk result (λ n. held self.new ≡ appended (held self.old) (take n bytes.now)) }
        ensures kept { OnErr result (held self.new ≡ held self.old) }
        ensures cause { HasCause (faults self.old) (faults self.new) result };

    ghost bounded: { (sink : Self) → faults sink < 2 ^ 64 };
}

/// Writes all of the bytes, with no call for an empty piece.
///
/// `Failed` comes only where the sink's count of faults rose; the sink then gained a front of the bytes.
pub fn write_all<K: Sink>(sink: &mut K, bytes: &[u8]) -> Result<(), Failed>
    ensures written { OnOk result (K.held sink.new ≡ appended (K.held sink.old) bytes.now) }
    ensures front { OnErr result (AddsFront (K.held sink.old) (K.held sink.new) bytes.now) }
    ensures cause { HasCause (K.faults sink.old) (K.faults sink.new) result }
    ensures nothing { bytes.now ≡ [] → (result ≡ Ok tt) × (sink.new ≡ sink.old) }
{
    let mut done = 0;
    while done < bytes.len() {
        done += sink.write(&bytes[done..])?;
    }
    Ok(())
}
