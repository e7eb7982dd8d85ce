use dp_count::NoMemory;
use thiserror::Error;

/// Why a text is no pipeline.
#[derive(Clone, Copy, Debug, PartialEq, Eq, Error)]
pub enum PipelineFault {
    /// The text is refused, with a number from 1 to 9.
    ///
    /// | number | why |
    /// |---|---|
    /// | 1 to 3 | a plan is not made: the kind of a domain, a metric, a bound |
    /// | 4, 5 | a plan has no cost: its loss is greater than 2^32, or it takes more than 2^20 draws |
    /// | 6 | the text is no JSON |
    /// | 7 | it is not of a pipeline's form |
    /// | 8 | a number or a name is out of its range |
    /// | 9 | it has more than 2^20 bytes |
    #[error("Refused")]
    Refused(u8),
    /// Memory ran out.
    #[error("NoMemory")]
    NoMemory,
}

impl From<NoMemory> for PipelineFault {
    ghost use Rattle.std.specs.Prelude.{◌≡◌};
    ghost use Rattle.dp_pipeline.specs.declared.faults.PipelineFault.TheVariants as fault;

    ghost from_gives = { λ _ made. made ≡ fault.NoMemory };

    fn from(_: NoMemory) -> Self {
        PipelineFault::NoMemory
    }
}

/// Why a pipeline is not printed.
#[derive(Clone, Copy, Debug, PartialEq, Eq)]
pub enum PrintFault {
    /// The output failed.
    WriteFault,
    /// Memory ran out.
    NoMemory,
}

/// Why a line is no query.
#[derive(Clone, Copy, Debug, PartialEq, Eq, Error)]
pub enum QueryFault {
    /// The line is not of a query's form.
    #[error("Malformed")]
    Malformed,
    /// Memory ran out.
    #[error("NoMemory")]
    NoMemory,
}

impl From<NoMemory> for QueryFault {
    ghost use Rattle.std.specs.Prelude.{◌≡◌};
    ghost use Rattle.dp_pipeline.specs.declared.faults.QueryFault.TheVariants as fault;

    ghost from_gives = { λ _ made. made ≡ fault.NoMemory };

    fn from(_: NoMemory) -> Self {
        QueryFault::NoMemory
    }
}
