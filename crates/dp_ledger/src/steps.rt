ghost use Rattle.std.specs.Prelude.{◌≡◌, ◌+◌, ◌<◌, ◌≤◌, ◌^◌, OnOk};
ghost use Rattle.dp_count.specs.Faults.{HasCause};
ghost use Rattle.dp_ledger.specs.Ledger.{total_of, ratio_of, Rests, Shows, HasTotal, BeforeOrAfter};
ghost use Rattle.dp_ledger.specs.Steps.{IsShut, IsFilled, IsRaised, Passes};

use crate::settle::settle;
use crate::{Disk, Ledger};
use dp_count::Failed;

impl Ledger {
    /// Closes the gate of the other slot, where it is open, so that nothing that is written behind it counts.
    pub(crate) fn shut<B: Disk>(&self, disk: &mut B) -> Result<(), Failed>
        requires { Rests B.reads B.may_leave disk.old (Shows self.now) }
        ensures shut { OnOk result (Rests B.reads B.may_leave disk.new (IsShut self.now)) }
        ensures passes { Passes B.reads B.moment B.left_since disk.old disk.new
            (HasTotal (ratio_of self.now) (total_of self.now)) }
        ensures cause { HasCause (B.faults disk.old) (B.faults disk.new) result }
    {
        if !self.other_open {
            return Ok(());
        }
        settle(disk, self.current.other().place() as u64 + 8, &[0])
    }

    /// Writes the total after the charge behind the closed gate.
    pub(crate) fn fill<B: Disk>(&self, disk: &mut B, by: u64) -> Result<(), Failed>
        requires rests { Rests B.reads B.may_leave disk.old (IsShut self.now) }
        requires small { total_of self.now + by ≤ 2 ^ 32 }
        ensures filled { OnOk result (Rests B.reads B.may_leave disk.new
            (IsFilled self.now (total_of self.now + by))) }
        ensures passes { Passes B.reads B.moment B.left_since disk.old disk.new
            (HasTotal (ratio_of self.now) (total_of self.now)) }
        ensures cause { HasCause (B.faults disk.old) (B.faults disk.new) result }
    {
        let bytes = (self.total + by).to_le_bytes();
        settle(disk, self.current.other().place() as u64, &bytes)
    }

    /// Opens the gate over the new total, which is on the disk.
    pub(crate) fn open_gate<B: Disk>(&self, disk: &mut B, by: u64) -> Result<(), Failed>
        requires rests { Rests B.reads B.may_leave disk.old (IsFilled self.now (total_of self.now + by)) }
        requires some { 0 < by }
        requires small { total_of self.now + by ≤ 2 ^ 32 }
        ensures raised { OnOk result (Rests B.reads B.may_leave disk.new
            (IsRaised self.now (total_of self.now + by))) }
        ensures passes { Passes B.reads B.moment B.left_since disk.old disk.new
            (BeforeOrAfter (ratio_of self.now) (total_of self.now) by) }
        ensures cause { HasCause (B.faults disk.old) (B.faults disk.new) result }
    {
        settle(disk, self.current.other().place() as u64 + 8, &[1])
    }

    /// The three steps of a charge.
    pub(crate) fn raise<B: Disk>(&self, disk: &mut B, by: u64) -> Result<(), Failed>
        requires rests { Rests B.reads B.may_leave disk.old (Shows self.now) }
        requires some { 0 < by }
        requires small { total_of self.now + by ≤ 2 ^ 32 }
        ensures raised { OnOk result (Rests B.reads B.may_leave disk.new
            (IsRaised self.now (total_of self.now + by))) }
        ensures passes { Passes B.reads B.moment B.left_since disk.old disk.new
            (BeforeOrAfter (ratio_of self.now) (total_of self.now) by) }
        ensures cause { HasCause (B.faults disk.old) (B.faults disk.new) result }
    {
        // The gate has to be closed on the disk first: behind an open one a torn total would count.
        self.shut(disk)?;
        // The total has to be on the disk before the gate: else an open gate might stand over any bytes.
        self.fill(disk, by)?;
        self.open_gate(disk, by)
    }
}
