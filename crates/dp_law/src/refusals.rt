ghost use Rattle.std.specs.Prelude.{◌≡◌};

use dp_count::NoMemory;

/// Why a part is not made.
#[derive(Clone, Copy, Debug, PartialEq, Eq)]
pub enum Refused {
    /// The input domain is of another kind.
    Kind,
    /// The kind fits, but the size or the metric is not the part's.
    Metric,
    /// The kind and the metric fit, but the parameters are out of their range.
    Bound,
}

/// Why a part that takes memory of its own is not made.
#[derive(Clone, Copy, Debug, PartialEq, Eq)]
pub enum MakeFault {
    /// The input domain is of another kind.
    Kind,
    /// The kind fits, but the size or the metric is not the part's.
    Metric,
    /// The kind and the metric fit, but the parameters are out of their range.
    Bound,
    /// Memory ran out.
    NoMemory,
}

impl From<NoMemory> for MakeFault {
    ghost use Rattle.std.specs.Prelude.{◌≡◌};
    ghost use Rattle.dp_law.specs.declared.refusals.MakeFault.TheVariants as fault;

    ghost from_gives = { λ _ made. made ≡ fault.NoMemory };

    fn from(_: NoMemory) -> Self {
        MakeFault::NoMemory
    }
}

impl From<Refused> for MakeFault {
    ghost use Rattle.std.specs.Prelude.{◌≡◌};
    ghost use Rattle.dp_law.specs.Making.{make_fault};

    ghost from_gives = { λ refused made. made ≡ make_fault refused };

    fn from(refused: Refused) -> Self {
        match refused {
            Refused::Kind => MakeFault::Kind,
            Refused::Metric => MakeFault::Metric,
            Refused::Bound => MakeFault::Bound,
        }
    }
}

#[cfg(test)]
mod tests {
    use super::*;

    #[test]
    fn refusals_become_faults_of_the_same_name(rt: HostRuntime) {
        for (refused, fault) in [
            (Refused::Kind, MakeFault::Kind),
            (Refused::Metric, MakeFault::Metric),
            (Refused::Bound, MakeFault::Bound),
        ] {
            assert_eq!(rt; MakeFault::from(refused), fault);
        }
        assert_eq!(rt; MakeFault::from(NoMemory), MakeFault::NoMemory);
    }
}
