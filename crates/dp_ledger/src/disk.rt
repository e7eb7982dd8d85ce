ghost use Rattle.std.specs.Prelude.{◌≡◌, ℕ, ◌^◌, ◌<◌, ◌≤◌, List, length, Option, option_map, IfOk, OnOk, OnErr};
ghost use Rattle.std.specs.Option.{ForSome};
ghost use Rattle.dp_count.specs.Faults.{HasCause};
ghost use Rattle.dp_ledger.specs.Disk.{put_at, Fills, Torn, BecomesTorn, Only, Follows, SameOutcomes, Elapses};

use dp_count::Failed;

/// A sequence of bytes that is read and written at any place. Where it tells its content, it also tells what a crash
/// may leave of it: between two syncs any bytes in each written range and past the old end, the other bytes as they
/// were; after a sync that succeeds what a read gives.
pub trait Disk {
    // what it reads as, where the disk tells it
    ghost reads: { Self → Option (List ℕ) };

    // what a crash now may leave
    ghost may_leave: { Self → List ℕ → Type 0 };

    // the time of the disk's clock, which never falls
    ghost moment: { Self → ℕ };

    // what a crash at some moment from that time on may have left, during a call or between two
    ghost left_since: { Self → ℕ → List ℕ → Type 0 };

    // how many calls failed; it never falls, and stands still at 2 ^ 64 - 1
    ghost faults: { Self → ℕ };

    /// Fills a buffer that is not empty with the bytes from a place on, as far as the content reaches, and gives
    /// their number. It changes nothing. `Failed` comes only where the count of faults rose.
    fn read_at(&mut self, at: u64, buf: &mut [u8]) -> Result<usize, Failed>
        requires { 0 < length buf.old }
        ensures fits { IfOk result (λ n. n ≤ length buf.old) }
        ensures fills { IfOk result (λ n. ForSome (reads self.old) (λ content. Fills content at n buf.new)) }
        ensures same { reads self.new ≡ reads self.old }
        ensures still { SameOutcomes (may_leave self.old) (may_leave self.new) }
        ensures time { Elapses (moment self.old) (moment self.new) (left_since self.old) (left_since self.new)
            (may_leave self.new) }
        ensures cause { HasCause (faults self.old) (faults self.new) result };

    /// Puts bytes, at least one, at a place; a gap before them reads as zeros. Until a sync succeeds, and after
    /// `Failed` too, the written range may hold any bytes. `Failed` comes only where the count of faults rose.
    fn write_at(&mut self, at: u64, bytes: &[u8]) -> Result<(), Failed>
        requires { 0 < length bytes.now }
        ensures written { OnOk result (reads self.new ≡ option_map (put_at at bytes.now) (reads self.old)) }
        ensures torn { OnErr result (ForSome (reads self.old)
            (λ was. BecomesTorn at (length bytes.now) was (reads self.new))) }
        ensures crash { Follows (Torn at (length bytes.now)) (may_leave self.old) (may_leave self.new) }
        ensures time { Elapses (moment self.old) (moment self.new) (left_since self.old) (left_since self.new)
            (may_leave self.new) }
        ensures cause { HasCause (faults self.old) (faults self.new) result };

    /// After `Ok` a crash leaves what a read gives. It never changes what a read gives. `Failed` comes only where the
    /// count of faults rose, and what a crash may leave is then as before.
    fn sync(&mut self) -> Result<(), Failed>
        ensures durable { OnOk result (ForSome (reads self.old) (λ content. Only content (may_leave self.new))) }
        ensures still { OnErr result (SameOutcomes (may_leave self.old) (may_leave self.new)) }
        ensures same { reads self.new ≡ reads self.old }
        ensures crash { (c : List ℕ) → may_leave self.new c → may_leave self.old c }
        ensures time { Elapses (moment self.old) (moment self.new) (left_since self.old) (left_since self.new)
            (may_leave self.new) }
        ensures cause { HasCause (faults self.old) (faults self.new) result };

    // what it reads as is one of the contents that a crash now may leave
    ghost reads_are_left: { (disk : Self) → ForSome (reads disk) (may_leave disk) };

    // this moment is one of those since an earlier time
    ghost counts_now: { (disk : Self) (t : ℕ) (c : List ℕ) → t ≤ moment disk → may_leave disk c
        → left_since disk t c };

    // since this moment there is no other
    ghost only_now: { (disk : Self) (c : List ℕ) → left_since disk (moment disk) c → may_leave disk c };

    ghost bounded: { (disk : Self) → faults disk < 2 ^ 64 };
}
