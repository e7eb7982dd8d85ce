ghost use Rattle.std.specs.Prelude.{◌≡◌};
ghost use Rattle.dp_chain.specs.Joins.{Joins};
ghost use Rattle.dp_law.specs.Joining.{measured};

use crate::faults::JoinFault;
use dp_count::{NoMemory, Shape};
use dp_domain::{Domain, Metric, Value};
use dp_draws::Draws;
use dp_law::{Answer, Measurement, ReleaseFault, Transformation};
use dp_num::Past;
use std::alloc::Global;

/// A transformation and then a measurement of what it gives, as one measurement. A distance goes through the stability
/// map and then through the privacy map; `loss` answers `Past` where one of them does.
#[derive(Drop)]
pub struct Measured<T: Transformation, M: Measurement> {
    first: T,
    second: M,
    ghost domains: { let a = T.mapping first in let b = M.mechanism second in a.output_domain ≡ b.input_domain },
    ghost metrics: { let a = T.mapping first in let b = M.mechanism second in a.output_metric ≡ b.input_metric },
}

impl<T: Transformation + Drop, M: Measurement + Drop> Measured<T, M> {
    /// `first`, and then `second`. `Kind` comes exactly where the first's output domain differs from the second's input
    /// domain, bounds and sizes included, and `Metric` exactly where only the metrics differ.
    pub fn new(first: T, second: M) -> Result<Measured<T, M>, JoinFault>
        ensures { let a = T.mapping first in let b = M.mechanism second in
            Joins ⟦<Measured<T, M> as Measurement>⟧.mechanism result
            record { domain = a.output_domain; metric = a.output_metric }
            record { domain = b.input_domain; metric = b.input_metric } (measured a b) }
    {
        if !first.out_domain().agrees(&second.in_domain()) {
            return Err(JoinFault::Kind);
        }
        if first.out_metric() != second.in_metric() {
            return Err(JoinFault::Metric);
        }
        Ok(Measured { first, second })
    }
}

impl<T: Transformation, M: Measurement> Measured<T, M> {
    /// `first`, and then `second`, which takes what the first gives.
    pub(crate) fn joined(first: T, second: M) -> Measured<T, M>
        requires domains { let a = T.mapping first in let b = M.mechanism second in a.output_domain ≡ b.input_domain }
        requires metrics { let a = T.mapping first in let b = M.mechanism second in a.output_metric ≡ b.input_metric }
        ensures first { result.first ≡ first }
        ensures second { result.second ≡ second }
    {
        Measured { first, second }
    }

    /// The transformation.
    pub fn first(&self) -> &T
        ensures { result.now ≡ self.now.first }
    {
        &self.first
    }

    /// The measurement of what the transformation gives.
    pub fn second(&self) -> &M
        ensures { result.now ≡ self.now.second }
    {
        &self.second
    }
}

impl<T: Transformation, M: Measurement> Measurement for Measured<T, M> {
    ghost use Rattle.dp_law.specs.Joining.{measured};
    ghost use Rattle.dp_law.proofs.ChainingLaw.{measured_law};

    ghost mechanism = { λ m. measured (T.mapping m.first) (M.mechanism m.second) };

    fn in_domain(&self) -> Domain {
        self.first.in_domain()
    }

    fn in_metric(&self) -> Metric {
        self.first.in_metric()
    }

    fn draws(&self) -> u64 {
        self.second.draws()
    }

    fn pieces(&self) -> u64 {
        self.second.pieces()
    }

    fn shape(&self, alloc: Global) -> Result<Shape, NoMemory> {
        self.second.shape(alloc)
    }

    fn loss(&self, d: u64) -> Result<u64, Past> {
        let between = self.first.map(d)?;
        self.second.loss(between)
    }

    fn release<D: Draws>(
        &self,
        alloc: Global,
        v: &Value,
        draws: &mut D,
    ) -> Result<Answer, ReleaseFault> {
        let between = match self.first.apply(alloc, v) {
            Ok(between) => between,
            Err(NoMemory) => return Err(ReleaseFault::NoMemory),
        };
        self.second.release(alloc, &between, draws)
    }

    ghost law = { λ m. measured_law (T.mapping m.first) (M.mechanism m.second)
        (T.law m.first) (M.law m.second) m.domains m.metrics };
}
