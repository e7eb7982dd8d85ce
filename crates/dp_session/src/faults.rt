use crate::refusal::Refusal;
use dp_count::{Failed, NoMemory};
use std::alloc::AllocError;
use thiserror::Error;

/// Why an account did not answer a line.
#[derive(Clone, Copy, Debug, PartialEq, Eq, Error)]
pub enum AccountFault {
    /// An earlier call answered a fault, or the last line was asked for.
    #[error("Ended")]
    Ended,
    /// The output failed.
    #[error("WriteFault")]
    WriteFault,
    /// Memory ran out.
    #[error("NoMemory")]
    NoMemory,
}

impl From<NoMemory> for AccountFault {
    ghost use Rattle.std.specs.Prelude.{◌≡◌};
    ghost use Rattle.dp_session.specs.declared.faults.AccountFault.TheVariants as fault;

    ghost from_gives = { λ _ made. made ≡ fault.NoMemory };

    fn from(_: NoMemory) -> Self {
        AccountFault::NoMemory
    }
}

impl From<Failed> for AccountFault {
    ghost use Rattle.std.specs.Prelude.{◌≡◌};
    ghost use Rattle.dp_session.specs.declared.faults.AccountFault.TheVariants as fault;

    ghost from_gives = { λ _ made. made ≡ fault.WriteFault };

    fn from(_: Failed) -> Self {
        AccountFault::WriteFault
    }
}

/// Why a session did not answer a line.
#[derive(Clone, Copy, Debug, PartialEq, Eq, Error)]
pub enum SessionFault {
    /// An earlier call answered a fault, or the last line was asked for.
    #[error("Ended")]
    Ended,
    /// A draw could not be taken.
    #[error("DrawFault")]
    DrawFault,
    /// The output failed.
    #[error("WriteFault")]
    WriteFault,
    /// Memory ran out.
    #[error("NoMemory")]
    NoMemory,
}

impl From<NoMemory> for SessionFault {
    ghost use Rattle.std.specs.Prelude.{◌≡◌};
    ghost use Rattle.dp_session.specs.declared.faults.SessionFault.TheVariants as fault;

    ghost from_gives = { λ _ made. made ≡ fault.NoMemory };

    fn from(_: NoMemory) -> Self {
        SessionFault::NoMemory
    }
}

impl From<Failed> for SessionFault {
    ghost use Rattle.std.specs.Prelude.{◌≡◌};
    ghost use Rattle.dp_session.specs.declared.faults.SessionFault.TheVariants as fault;

    ghost from_gives = { λ _ made. made ≡ fault.WriteFault };

    fn from(_: Failed) -> Self {
        SessionFault::WriteFault
    }
}

/// Why the last line was not written.
#[derive(Clone, Copy, Debug, PartialEq, Eq, Error)]
pub enum EndFault {
    /// An earlier call answered a fault, or the last line was asked for.
    #[error("Ended")]
    Ended,
    /// The output failed.
    #[error("WriteFault")]
    WriteFault,
}

/// Why a query was not accepted.
#[derive(Clone, Copy, Debug, PartialEq, Eq)]
pub(crate) enum JudgeFault {
    /// It has a refusal.
    Refused(Refusal),
    /// Memory ran out.
    NoMemory,
}

impl From<Refusal> for JudgeFault {
    ghost use Rattle.std.specs.Prelude.{◌≡◌};
    ghost use Rattle.dp_session.specs.declared.faults.JudgeFault.TheVariants as fault;

    ghost from_gives = { λ refused made. made ≡ fault.Refused refused };

    fn from(refused: Refusal) -> Self {
        JudgeFault::Refused(refused)
    }
}
