use dp_count::NoMemory;
use dp_io::WholeFault;

/// Why the records of a data file were not read.
#[derive(Clone, Copy, Debug, PartialEq, Eq)]
pub enum DataFault {
    /// A read failed.
    ReadFault,
    /// More than 2^30 bytes are left.
    TooLong,
    /// Memory ran out.
    NoMemory,
}

impl From<WholeFault> for DataFault {
    ghost use Rattle.std.specs.Prelude.{◌≡◌};
    ghost use Rattle.dp_records.specs.DataFaults.{fault_of_whole};

    ghost from_gives = { λ whole fault. fault ≡ fault_of_whole whole };

    fn from(fault: WholeFault) -> Self {
        match fault {
            WholeFault::Failed => DataFault::ReadFault,
            WholeFault::TooLong => DataFault::TooLong,
            WholeFault::NoMemory => DataFault::NoMemory,
        }
    }
}

impl From<NoMemory> for DataFault {
    ghost use Rattle.std.specs.Prelude.{◌≡◌};
    ghost use Rattle.dp_records.specs.declared.faults.DataFault.TheVariants as data_fault;

    ghost from_gives = { λ _ fault. fault ≡ data_fault.NoMemory };

    fn from(_: NoMemory) -> Self {
        DataFault::NoMemory
    }
}
