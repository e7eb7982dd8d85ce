ghost use Rattle.std.specs.Prelude.{◌≡◌, ◌<◌, ◌≤◌, length, option_map, IfOk, OnOk, IsSome};
ghost use Rattle.std.specs.Option.{ForSome};
ghost use Rattle.dp_count.specs.Faults.{HasCause};
ghost use Rattle.dp_ledger.specs.Disk.{put_at, Fills, LeavesTorn, Only, LeavesOnly};

use crate::Disk;
use dp_count::Failed;

/// Writes bytes and syncs. After `Ok` a crash leaves what a read gives.
pub(crate) fn settle<B: Disk>(disk: &mut B, at: u64, bytes: &[u8]) -> Result<(), Failed>
    requires { 0 < length bytes.now }
    ensures reads { OnOk result (B.reads disk.new ≡ option_map (put_at at bytes.now) (B.reads disk.old)) }
    ensures alone { OnOk result (ForSome (B.reads disk.new) (λ now. Only now (B.may_leave disk.new))) }
    ensures any_moment { LeavesOnly B.moment B.left_since disk.old disk.new
        (LeavesTorn (B.may_leave disk.old) at (length bytes.now)) }
    ensures telling { IsSome (B.reads disk.old) → IsSome (B.reads disk.new) }
    ensures cause { HasCause (B.faults disk.old) (B.faults disk.new) result }
{
    disk.write_at(at, bytes)?;
    disk.sync()
}

/// Syncs, and then fills a buffer that is not empty with the first bytes, as far as the content reaches. After `Ok` a
/// crash leaves what a read gives.
pub(crate) fn look<B: Disk>(disk: &mut B, buf: &mut [u8]) -> Result<usize, Failed>
    requires { 0 < length buf.old }
    ensures fits { IfOk result (λ n. n ≤ length buf.old) }
    ensures fills { IfOk result (λ n. ForSome (B.reads disk.old) (λ content. Fills content 0 n buf.new)) }
    ensures same { B.reads disk.new ≡ B.reads disk.old }
    ensures alone { OnOk result (ForSome (B.reads disk.new) (λ content. Only content (B.may_leave disk.new))) }
    ensures any_moment { LeavesOnly B.moment B.left_since disk.old disk.new (B.may_leave disk.old) }
    ensures cause { HasCause (B.faults disk.old) (B.faults disk.new) result }
{
    disk.sync()?;
    disk.read_at(0, buf)
}
