ghost use Rattle.std.specs.Prelude.{◌≡◌, ◌≢◌, ◌⊎◌, ◌+◌, ◌≤◌, ◌^◌, true, false, List, ℕ, [], Some, None, Err, IfOk, OnOk, OnErr, IsOk, IsSome};
ghost use Rattle.std.specs.Option.{ForSome};
ghost use Rattle.dp_count.specs.Faults.{Rose, Still};
ghost use Rattle.dp_ledger.specs.Disk.{Only, LeavesOnly};
ghost use Rattle.dp_ledger.specs.Image.{ledger_total, new_image};

use crate::image::{SIZE, new_image, read_image};
use crate::settle::{look, settle};
use crate::slot::Slot;
use crate::{ChargeFault, CreateFault, Disk, OpenLedgerFault};
use dp_num::{MOST_UNITS, Ratio};

/// A total of units on a disk, which it does not hold: the ratio, the total, at most 2^32, which slot is current,
/// whether the other slot's gate is open, and whether it is closed.
#[derive(Debug, Drop)]
pub struct Ledger {
    pub(crate) ratio: Ratio,
    pub(crate) total: u64,
    pub(crate) current: Slot,
    pub(crate) other_open: bool,
    pub(crate) closed: bool,
    pub(crate) ghost in_range: { total ≤ 2 ^ 32 },
}

impl Ledger {
    ghost use Rattle.dp_ledger.specs.Ledger.{total_of, ratio_of, is_closed, IsOn, HasTotal, BeforeOrAfter, refusal, refused_by};

    /// Writes a new ledger of the ratio, with the total 0, on an empty disk. `There` comes exactly where the disk is
    /// not empty and no call of it failed. A crash inside the call may leave any bytes.
    pub fn create<B: Disk>(disk: &mut B, ratio: Ratio) -> Result<Ledger, CreateFault>
        // Where no call of the disk failed, the answer is one of these two, by the content.
        ensures there { result ≡ Err CreateFault.There → ForSome (B.reads disk.old) (λ content. content ≢ []) }
        ensures empty { OnOk result (ForSome (B.reads disk.old) (λ content. content ≡ [])) }
        ensures only_there { ForSome (B.reads disk.old) (λ content. content ≢ []
            → Still (B.faults disk.old) (B.faults disk.new) → result ≡ Err CreateFault.There) }

        ensures stands { IfOk result (λ ledger. IsOn B.reads B.may_leave disk.new ledger) }
        ensures ratio { IfOk result (λ ledger. ratio_of ledger ≡ ratio) }
        ensures zero { IfOk result (λ ledger. total_of ledger ≡ 0) }
        ensures image { OnOk result (ForSome (B.reads disk.new) (λ content. content ≡ new_image ratio)) }
        ensures acknowledged { OnOk result (IsSome (B.reads disk.old) → (c : List ℕ) → B.may_leave disk.new c
            → HasTotal ratio 0 c) }

        ensures telling { IsSome (B.reads disk.old) → IsSome (B.reads disk.new) }
        ensures kept { result ≡ Err CreateFault.There → B.reads disk.new ≡ B.reads disk.old }
        ensures nothing_new { result ≡ Err CreateFault.There
            → (c : List ℕ) → B.may_leave disk.new c → B.may_leave disk.old c }
        ensures later { B.faults disk.old ≤ B.faults disk.new }
        ensures no_fault { result ≢ Err CreateFault.DiskFault → B.faults disk.new ≡ B.faults disk.old }
        ensures cause { result ≡ Err CreateFault.DiskFault → Rose (B.faults disk.old) (B.faults disk.new) }
    {
        let mut first = [0; 1];
        if look(disk, &mut first)? > 0 {
            return Err(CreateFault::There);
        }
        settle(disk, 0, &new_image(&ratio))?;
        Ok(Ledger {
            ratio,
            total: 0,
            current: Slot::First,
            other_open: false,
            closed: false,
        })
    }

    /// Reads the ledger of the ratio, and writes nothing. `NotLedger` comes exactly where the content is no ledger of
    /// that ratio and no call of the disk failed.
    pub fn open<B: Disk>(disk: &mut B, ratio: Ratio) -> Result<Ledger, OpenLedgerFault>
        // Where no call of the disk failed, the answer is one of these two, by the content.
        ensures none { result ≡ Err OpenLedgerFault.NotLedger
            → ForSome (B.reads disk.old) (λ content. ledger_total ratio content ≡ None) }
        ensures found { IfOk result (λ ledger. ForSome (B.reads disk.old) (HasTotal ratio (total_of ledger))) }
        ensures only_none { ForSome (B.reads disk.old) (λ content. ledger_total ratio content ≡ None
            → Still (B.faults disk.old) (B.faults disk.new) → result ≡ Err OpenLedgerFault.NotLedger) }

        ensures stands { IfOk result (λ ledger. IsOn B.reads B.may_leave disk.new ledger) }
        ensures ratio { IfOk result (λ ledger. ratio_of ledger ≡ ratio) }
        ensures range { IfOk result (λ ledger. total_of ledger ≤ 2 ^ 32) }
        ensures acknowledged { IfOk result (λ ledger. IsSome (B.reads disk.old) →
            (c : List ℕ) → B.may_leave disk.new c → HasTotal ratio (total_of ledger) c) }

        ensures kept { B.reads disk.new ≡ B.reads disk.old }
        ensures any_moment { LeavesOnly B.moment B.left_since disk.old disk.new (B.may_leave disk.old) }
        ensures nothing_new { (c : List ℕ) → B.may_leave disk.new c → B.may_leave disk.old c }
        ensures later { B.faults disk.old ≤ B.faults disk.new }
        ensures no_fault { result ≢ Err OpenLedgerFault.DiskFault → B.faults disk.new ≡ B.faults disk.old }
        ensures cause { result ≡ Err OpenLedgerFault.DiskFault → Rose (B.faults disk.old) (B.faults disk.new) }
    {
        // One byte more than an image has, to see that there is none.
        let mut bytes = [0; SIZE + 1];
        let n = look(disk, &mut bytes)?;
        let Some(reading) = read_image(&ratio, &bytes[..n]) else {
            return Err(OpenLedgerFault::NotLedger);
        };
        Ok(Ledger {
            ratio,
            total: reading.total,
            current: reading.current,
            other_open: reading.other_open,
            closed: false,
        })
    }

    /// The total, in units.
    pub fn total(&self) -> u64
        ensures total { result ≡ total_of self.now }
        ensures range { result ≤ 2 ^ 32 }
    {
        self.total
    }

    /// The ratio.
    pub fn ratio(&self) -> Ratio
        ensures { result ≡ ratio_of self.now }
    {
        self.ratio
    }

    /// Whether an earlier charge answered `DiskFault`.
    pub fn closed(&self) -> bool
        ensures { result ≡ is_closed self.now }
    {
        self.closed
    }

    /// Adds units to the total, on the disk first. A crash at any moment leaves the total before the charge or the
    /// one after it, and after `Ok` the one after it alone. `Closed`, `Full` and a charge of 0 make no call of the
    /// disk; after `DiskFault` the ledger is closed, and is to be opened again.
    pub fn charge<B: Disk>(&mut self, disk: &mut B, by: u64) -> Result<(), ChargeFault>
        requires units { by ≤ 2 ^ 32 }
        requires stands { IsOn B.reads B.may_leave disk.old self.old ⊎ (is_closed self.old ≡ true) }

        // Which refusal comes before any call of the disk, and that no other does.
        ensures refused { refused_by result ≡ refusal self.old by }
        ensures zero { refusal self.old by ≡ None → by ≡ 0 → IsOk result }
        ensures no_call { IsSome (refusal self.old by) ⊎ (by ≡ 0)
            → (disk.new ≡ disk.old) × (self.new ≡ self.old) }

        ensures raised { OnOk result (total_of self.new ≡ total_of self.old + by) }
        ensures kept { OnErr result (total_of self.new ≡ total_of self.old) }
        ensures ratio { ratio_of self.new ≡ ratio_of self.old }
        ensures closes { result ≡ Err ChargeFault.DiskFault → is_closed self.new ≡ true }
        ensures stays { result ≢ Err ChargeFault.DiskFault → is_closed self.new ≡ is_closed self.old }
        ensures stands { result ≢ Err ChargeFault.DiskFault → is_closed self.old ≡ false
            → IsOn B.reads B.may_leave disk.new self.new }

        // Where the disk tells: what a crash leaves at any moment, at the end, and after `Ok`, and what a read gives.
        ensures any_moment { is_closed self.old ≡ false → IsSome (B.reads disk.old)
            → LeavesOnly B.moment B.left_since disk.old disk.new
            (BeforeOrAfter (ratio_of self.old) (total_of self.old) by) }
        ensures at_exit { is_closed self.old ≡ false → IsSome (B.reads disk.old)
            → (c : List ℕ) → B.may_leave disk.new c → BeforeOrAfter (ratio_of self.old) (total_of self.old) by c }
        ensures acknowledged { OnOk result (IsSome (B.reads disk.old) → (c : List ℕ) → B.may_leave disk.new c
            → HasTotal (ratio_of self.old) (total_of self.old + by) c) }
        ensures reads { is_closed self.old ≡ false → IsSome (B.reads disk.old)
            → ForSome (B.reads disk.new) (BeforeOrAfter (ratio_of self.old) (total_of self.old) by) }
        ensures telling { IsSome (B.reads disk.old) → IsSome (B.reads disk.new) }

        ensures later { B.faults disk.old ≤ B.faults disk.new }
        ensures no_fault { result ≢ Err ChargeFault.DiskFault → B.faults disk.new ≡ B.faults disk.old }
        ensures cause { result ≡ Err ChargeFault.DiskFault → Rose (B.faults disk.old) (B.faults disk.new) }
    {
        if self.closed {
            return Err(ChargeFault::Closed);
        }
        if self.total + by > MOST_UNITS {
            let total = self.total;
            return Err(ChargeFault::Full { total, by });
        }
        if by == 0 {
            return Ok(());
        }
        if self.raise(disk, by).is_err() {
            self.closed = true;
            return Err(ChargeFault::DiskFault);
        }
        self.total += by;
        self.current = self.current.other();
        self.other_open = true;
        Ok(())
    }
}
