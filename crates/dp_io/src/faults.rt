use dp_count::{Failed, NoMemory};
use std::alloc::{AllocError, AllocFailed};

/// Why a file was not opened.
#[derive(Clone, Copy, Debug, PartialEq, Eq)]
pub enum OpenFault {
    /// The shelf failed, or has no file of that name.
    Failed,
    /// Memory ran out.
    NoMemory,
}

/// Why a file was not read whole.
#[derive(Clone, Copy, Debug, PartialEq, Eq)]
pub enum WholeFault {
    /// A read failed.
    Failed,
    /// More bytes are left than the limit allows.
    TooLong,
    /// Memory ran out.
    NoMemory,
}

/// Why a line was not read.
#[derive(Clone, Copy, Debug, PartialEq, Eq)]
pub enum LineFault {
    /// A read failed.
    Failed,
    /// The line has more than 65,536 bytes.
    TooLong,
}

impl From<Failed> for OpenFault {
    ghost use Rattle.std.specs.Prelude.{◌≡◌};
    ghost use Rattle.dp_io.specs.declared.faults.OpenFault.TheVariants as open_fault;

    ghost from_gives = { λ _ fault. fault ≡ open_fault.Failed };

    fn from(_: Failed) -> Self {
        OpenFault::Failed
    }
}

impl From<NoMemory> for OpenFault {
    ghost use Rattle.std.specs.Prelude.{◌≡◌};
    ghost use Rattle.dp_io.specs.declared.faults.OpenFault.TheVariants as open_fault;

    ghost from_gives = { λ _ fault. fault ≡ open_fault.NoMemory };

    fn from(_: NoMemory) -> Self {
        OpenFault::NoMemory
    }
}

impl From<AllocError> for OpenFault {
    ghost use Rattle.std.specs.Prelude.{◌≡◌};
    ghost use Rattle.dp_io.specs.declared.faults.OpenFault.TheVariants as open_fault;

    ghost from_gives = { λ _ fault. fault ≡ open_fault.NoMemory };

    fn from(_: AllocError) -> Self {
        OpenFault::NoMemory
    }
}

impl<T: Drop> From<AllocFailed<T>> for OpenFault {
    ghost use Rattle.std.specs.Prelude.{◌≡◌};
    ghost use Rattle.dp_io.specs.declared.faults.OpenFault.TheVariants as open_fault;

    ghost from_gives = { λ _ fault. fault ≡ open_fault.NoMemory };

    fn from(_: AllocFailed<T>) -> Self {
        OpenFault::NoMemory
    }
}

impl From<Failed> for WholeFault {
    ghost use Rattle.std.specs.Prelude.{◌≡◌};
    ghost use Rattle.dp_io.specs.declared.faults.WholeFault.TheVariants as whole_fault;

    ghost from_gives = { λ _ fault. fault ≡ whole_fault.Failed };

    fn from(_: Failed) -> Self {
        WholeFault::Failed
    }
}

impl From<NoMemory> for WholeFault {
    ghost use Rattle.std.specs.Prelude.{◌≡◌};
    ghost use Rattle.dp_io.specs.declared.faults.WholeFault.TheVariants as whole_fault;

    ghost from_gives = { λ _ fault. fault ≡ whole_fault.NoMemory };

    fn from(_: NoMemory) -> Self {
        WholeFault::NoMemory
    }
}

impl From<AllocError> for WholeFault {
    ghost use Rattle.std.specs.Prelude.{◌≡◌};
    ghost use Rattle.dp_io.specs.declared.faults.WholeFault.TheVariants as whole_fault;

    ghost from_gives = { λ _ fault. fault ≡ whole_fault.NoMemory };

    fn from(_: AllocError) -> Self {
        WholeFault::NoMemory
    }
}

impl<T: Drop> From<AllocFailed<T>> for WholeFault {
    ghost use Rattle.std.specs.Prelude.{◌≡◌};
    ghost use Rattle.dp_io.specs.declared.faults.WholeFault.TheVariants as whole_fault;

    ghost from_gives = { λ _ fault. fault ≡ whole_fault.NoMemory };

    fn from(_: AllocFailed<T>) -> Self {
        WholeFault::NoMemory
    }
}

impl From<Failed> for LineFault {
    ghost use Rattle.std.specs.Prelude.{◌≡◌};
    ghost use Rattle.dp_io.specs.declared.faults.LineFault.TheVariants as line_fault;

    ghost from_gives = { λ _ fault. fault ≡ line_fault.Failed };

    fn from(_: Failed) -> Self {
        LineFault::Failed
    }
}
