ghost use Rattle.std.specs.Prelude.{◌≡◌, ◌≤◌, ◌^◌, ◌+◌, ◌++◌, length, IfOk};
ghost use Rattle.dp_chain.specs.Joins.{Joins};
ghost use Rattle.dp_law.specs.Joining.{both};

use crate::faults::JoinFault;
use dp_count::{NoMemory, Shape};
use dp_domain::{Domain, Metric, Value};
use dp_draws::Draws;
use dp_law::{Answer, Measurement, ReleaseFault};
use dp_num::{Past, add_units};
use std::alloc::Global;

/// Two measurements on one input, as one: the answer is the first's and then the second's, each on draws of its own,
/// and the losses are added.
#[derive(Drop)]
pub struct Both<M1: Measurement, M2: Measurement> {
    first: M1,
    second: M2,
    ghost domains: { let a = M1.mechanism first in let b = M2.mechanism second in a.input_domain ≡ b.input_domain },
    ghost metrics: { let a = M1.mechanism first in let b = M2.mechanism second in a.input_metric ≡ b.input_metric },
    ghost ratios: { let a = M1.mechanism first in let b = M2.mechanism second in a.ratio ≡ b.ratio },
    ghost few_draws: { let a = M1.mechanism first in let b = M2.mechanism second in
        length a.shape + length b.shape ≤ 2 ^ 40 },
    ghost few_pieces: { let a = M1.mechanism first in let b = M2.mechanism second in a.pieces + b.pieces ≤ 2 ^ 31 },
}

impl<M1: Measurement + Drop, M2: Measurement + Drop> Both<M1, M2> {
    /// `first` and `second` on one input. The two have one ratio, at most 2^40 draws and at most 2^31 pieces together.
    /// `Kind` comes exactly where the input domains differ, bounds and sizes included, and `Metric` exactly where only
    /// the metrics differ.
    pub fn new(first: M1, second: M2) -> Result<Both<M1, M2>, JoinFault>
        requires one_ratio { let a = M1.mechanism first in let b = M2.mechanism second in a.ratio ≡ b.ratio }
        requires few_draws { let a = M1.mechanism first in let b = M2.mechanism second in
            length a.shape + length b.shape ≤ 2 ^ 40 }
        requires few_pieces { let a = M1.mechanism first in let b = M2.mechanism second in
            a.pieces + b.pieces ≤ 2 ^ 31 }
        ensures { let a = M1.mechanism first in let b = M2.mechanism second in
            Joins ⟦<Both<M1, M2> as Measurement>⟧.mechanism result
            record { domain = a.input_domain; metric = a.input_metric }
            record { domain = b.input_domain; metric = b.input_metric } (both a b) }
    {
        if !first.in_domain().agrees(&second.in_domain()) {
            return Err(JoinFault::Kind);
        }
        if first.in_metric() != second.in_metric() {
            return Err(JoinFault::Metric);
        }
        Ok(Both { first, second })
    }
}

impl<M1: Measurement, M2: Measurement> Measurement for Both<M1, M2> {
    ghost use Rattle.dp_law.specs.Joining.{both};
    ghost use Rattle.dp_law.proofs.JoiningLaw.{both_law};

    ghost mechanism = { λ t. both (M1.mechanism t.first) (M2.mechanism t.second) };

    fn in_domain(&self) -> Domain {
        self.first.in_domain()
    }

    fn in_metric(&self) -> Metric {
        self.first.in_metric()
    }

    fn draws(&self) -> u64 {
        self.first.draws() + self.second.draws()
    }

    fn pieces(&self) -> u64 {
        self.first.pieces() + self.second.pieces()
    }

    fn shape(&self, alloc: Global) -> Result<Shape, NoMemory> {
        let mut shape = self.first.shape(alloc)?;
        shape.join(&self.second.shape(alloc)?)?;
        Ok(shape)
    }

    fn loss(&self, d: u64) -> Result<u64, Past> {
        add_units(self.first.loss(d)?, self.second.loss(d)?)
    }

    fn release<D: Draws>(
        &self,
        alloc: Global,
        v: &Value,
        draws: &mut D,
    ) -> Result<Answer, ReleaseFault> {
        match self.first.release(alloc, v, draws) {
            Err(fault) => Err(fault),
            Ok(front) => match self.second.release(alloc, v, draws) {
                Err(fault) => Err(fault),
                Ok(back) => match joined_answers(front, back) {
                    Err(NoMemory) => Err(ReleaseFault::NoMemory),
                    Ok(answer) => Ok(answer),
                },
            },
        }
    }

    ghost law = { λ t. both_law (M1.mechanism t.first) (M2.mechanism t.second) (M1.law t.first) (M2.law t.second)
        t.domains t.metrics t.ratios t.few_draws t.few_pieces };
}

/// The pieces of two answers in order.
pub(crate) fn joined_answers(front: Answer, back: Answer) -> Result<Answer, NoMemory>
    ensures { IfOk result (λ answer. answer ≡ front ++ back) }
{
    let mut pieces = front.into_vec();
    let mut rest = back.into_vec();
    pieces.append(&mut rest)?;
    Ok(Answer::from_vec(pieces))
}
