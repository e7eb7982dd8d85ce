use dp_budget::Over;
use dp_tree::{FindFault, SeatFault};

/// Why a query is refused. The refusals have the numbers 1 to 7, in this order, and of those that apply the lowest is
/// answered.
#[derive(Clone, Copy, Debug, PartialEq, Eq)]
pub enum Refusal {
    /// The line is of no query's form, or names a column or a plan that the pipeline does not have.
    Malformed,
    /// There is no node of that number.
    NoNode,
    /// The node is frozen: a query after it was opened was accepted above it.
    Frozen {
        /// The nearest node above to which one was addressed.
        ancestor: u32,
        /// The last query there.
        later: u32,
    },
    /// A stage or a noise is not made, or there is no cost: 1 to 3 for the kind of a domain, a metric and a bound, 4
    /// where a distance, a loss or a sum of losses passes 2^32, 5 where a release takes more than 2^20 draws.
    Construction(u8),
    /// A child would be at depth 17.
    Depth,
    /// The child's distance is below the one that its line makes of the node's.
    ChildDistance {
        /// That distance.
        mapped: u64,
    },
    /// The cost is over the node's budget.
    Budget(Over),
}

impl From<FindFault> for Refusal {
    ghost use Rattle.std.specs.Prelude.{◌≡◌};
    ghost use Rattle.dp_session.specs.Verdicts.{find_refusal};

    ghost from_gives = { λ fault refused. refused ≡ find_refusal fault };

    fn from(fault: FindFault) -> Self {
        match fault {
            FindFault::NoNode => Refusal::NoNode,
            FindFault::Frozen { ancestor, later } => Refusal::Frozen { ancestor, later },
        }
    }
}

impl From<SeatFault> for Refusal {
    ghost use Rattle.std.specs.Prelude.{◌≡◌};
    ghost use Rattle.dp_session.specs.Verdicts.{seat_refusal};

    ghost from_gives = { λ fault refused. refused ≡ seat_refusal fault };

    fn from(fault: SeatFault) -> Self {
        match fault {
            SeatFault::Depth => Refusal::Depth,
            SeatFault::ChildDistance { mapped } => Refusal::ChildDistance { mapped },
            SeatFault::Over(over) => Refusal::Budget(over),
        }
    }
}
