use dp_count::Failed;

/// Why no ledger was created.
#[derive(Clone, Copy, Debug, PartialEq, Eq)]
pub enum CreateFault {
    /// The disk is not empty.
    There,
    /// A call of the disk failed.
    DiskFault,
}

/// Why no ledger was opened.
#[derive(Clone, Copy, Debug, PartialEq, Eq)]
pub enum OpenLedgerFault {
    /// The disk has no ledger of the ratio.
    NotLedger,
    /// A call of the disk failed.
    DiskFault,
}

/// Why a charge was not made.
#[derive(Clone, Copy, Debug, PartialEq, Eq)]
pub enum ChargeFault {
    /// An earlier charge answered `DiskFault`: the ledger is to be opened again.
    Closed,
    /// The total and the charge are together greater than 2^32.
    Full { total: u64, by: u64 },
    /// A call of the disk failed: a crash leaves the total before the charge or the one after it.
    DiskFault,
}

impl From<Failed> for CreateFault {
    ghost use Rattle.std.specs.Prelude.{◌≡◌};
    ghost use Rattle.dp_ledger.specs.declared.faults.CreateFault.TheVariants as create_fault;

    ghost from_gives = { λ _ fault. fault ≡ create_fault.DiskFault };

    fn from(_: Failed) -> Self {
        CreateFault::DiskFault
    }
}

impl From<Failed> for OpenLedgerFault {
    ghost use Rattle.std.specs.Prelude.{◌≡◌};
    ghost use Rattle.dp_ledger.specs.declared.faults.OpenLedgerFault.TheVariants as open_fault;

    ghost from_gives = { λ _ fault. fault ≡ open_fault.DiskFault };

    fn from(_: Failed) -> Self {
        OpenLedgerFault::DiskFault
    }
}
