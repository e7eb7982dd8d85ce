ghost use Rattle.std.specs.Prelude.{◌≡◌};

use dp_count::{Failed, NoMemory};
use std::alloc::AllocError;

/// Why nothing is released.
#[derive(Clone, Copy, Debug, PartialEq, Eq)]
pub enum ReleaseFault {
    /// The draw source failed.
    DrawFault,
    /// Memory ran out.
    NoMemory,
}

impl From<Failed> for ReleaseFault {
    ghost use Rattle.std.specs.Prelude.{◌≡◌};
    ghost use Rattle.dp_law.specs.declared.faults.ReleaseFault.TheVariants as fault;

    ghost from_gives = { λ _ made. made ≡ fault.DrawFault };

    fn from(_: Failed) -> Self {
        ReleaseFault::DrawFault
    }
}

impl From<NoMemory> for ReleaseFault {
    ghost use Rattle.std.specs.Prelude.{◌≡◌};
    ghost use Rattle.dp_law.specs.declared.faults.ReleaseFault.TheVariants as fault;

    ghost from_gives = { λ _ made. made ≡ fault.NoMemory };

    fn from(_: NoMemory) -> Self {
        ReleaseFault::NoMemory
    }
}

impl From<AllocError> for ReleaseFault {
    ghost use Rattle.std.specs.Prelude.{◌≡◌};
    ghost use Rattle.dp_law.specs.declared.faults.ReleaseFault.TheVariants as fault;

    ghost from_gives = { λ _ made. made ≡ fault.NoMemory };

    fn from(_: AllocError) -> Self {
        ReleaseFault::NoMemory
    }
}
