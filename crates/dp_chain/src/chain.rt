ghost use Rattle.std.specs.Prelude.{◌≡◌};
ghost use Rattle.dp_chain.specs.Joins.{Joins};
ghost use Rattle.dp_law.specs.Joining.{chained};

use crate::faults::JoinFault;
use dp_count::NoMemory;
use dp_domain::{Domain, Metric, Value};
use dp_law::Transformation;
use dp_num::Past;
use std::alloc::Global;

/// Two transformations one after the other, as one: the second takes what the first gives. A distance goes through the
/// first's stability map and then through the second's; `map` answers `Past` where one of them does.
#[derive(Drop)]
pub struct Chain<A: Transformation, B: Transformation> {
    first: A,
    second: B,
    ghost domains: { let a = A.mapping first in let b = B.mapping second in a.output_domain ≡ b.input_domain },
    ghost metrics: { let a = A.mapping first in let b = B.mapping second in a.output_metric ≡ b.input_metric },
}

impl<A: Transformation + Drop, B: Transformation + Drop> Chain<A, B> {
    /// `first`, and then `second`. `Kind` comes exactly where the first's output domain differs from the second's input
    /// domain, bounds and sizes included, and `Metric` exactly where only the metrics differ.
    pub fn new(first: A, second: B) -> Result<Chain<A, B>, JoinFault>
        ensures { let a = A.mapping first in let b = B.mapping second in
            Joins ⟦<Chain<A, B> as Transformation>⟧.mapping result
            record { domain = a.output_domain; metric = a.output_metric }
            record { domain = b.input_domain; metric = b.input_metric } (chained a b) }
    {
        if !first.out_domain().agrees(&second.in_domain()) {
            return Err(JoinFault::Kind);
        }
        if first.out_metric() != second.in_metric() {
            return Err(JoinFault::Metric);
        }
        Ok(Chain { first, second })
    }
}

impl<A: Transformation, B: Transformation> Transformation for Chain<A, B> {
    ghost use Rattle.dp_law.specs.Joining.{chained};
    ghost use Rattle.dp_law.proofs.ChainingLaw.{chained_law};

    ghost mapping = { λ t. chained (A.mapping t.first) (B.mapping t.second) };

    fn in_domain(&self) -> Domain {
        self.first.in_domain()
    }

    fn in_metric(&self) -> Metric {
        self.first.in_metric()
    }

    fn out_domain(&self) -> Domain {
        self.second.out_domain()
    }

    fn out_metric(&self) -> Metric {
        self.second.out_metric()
    }

    fn map(&self, d: u64) -> Result<u64, Past> {
        let between = self.first.map(d)?;
        self.second.map(between)
    }

    fn apply(&self, alloc: Global, v: &Value) -> Result<Value, NoMemory> {
        let between = self.first.apply(alloc, v)?;
        self.second.apply(alloc, &between)
    }

    ghost law = { λ t. chained_law (A.mapping t.first) (B.mapping t.second)
        (A.law t.first) (B.law t.second) t.domains t.metrics };
}
