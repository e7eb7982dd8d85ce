ghost use Rattle.std.specs.Prelude.{◌≡◌, IsTrue, IfOk, IsOk};
ghost use Rattle.dp_domain.specs.Domains.{Fits, Has};
ghost use Rattle.dp_domain.proofs.Limits.{Fits-prop};
ghost use Rattle.dp_law.specs.Making.{Makes};
ghost use Rattle.dp_domain.specs.declared.domains.Domain.TheVariants as domain;
ghost use Rattle.dp_aggregate.specs.Quantise.{quantised, quantise_from, is_step};

use dp_count::NoMemory;
use dp_domain::{Domain, Metric, Value};
use dp_law::{Refused, Transformation};
use dp_num::{Past, ceil_div, floor_div};
use std::alloc::Global;

/// The greatest step.
const MOST_STEP: u64 = 1 << 31;

/// Rounds a number down to steps, also below 0, and gives how many steps it is above 0. It takes and gives a number by
/// `Absolute`.
#[derive(Clone, Copy, Debug)]
pub struct Quantise {
    lo: i64,
    hi: i64,
    step: u64,
    ghost input_fits: { Fits (domain.Int lo hi) } by { Fits-prop (domain.Int lo hi) },
    ghost step_fits: { IsTrue (is_step step) },
}

impl Quantise {
    /// Quantising by a step. `Kind` comes exactly where the domain is not `Int`, `Metric` exactly where it is and the
    /// metric is not `Absolute`, and `Bound` exactly where neither comes and not 1 ≤ step ≤ 2^31.
    pub fn new(domain: Domain, metric: Metric, step: u64) -> Result<Quantise, Refused>
        requires { Fits domain }
        ensures { Makes ⟦<Quantise as Transformation>⟧.mapping result (quantise_from step domain metric) }
    {
        let Domain::Int { lo, hi } = domain else {
            return Err(Refused::Kind);
        };
        if metric != Metric::Absolute {
            return Err(Refused::Metric);
        }
        if !is_step(step) {
            return Err(Refused::Bound);
        }
        Ok(Quantise { lo, hi, step })
    }
}

impl Transformation for Quantise {
    ghost use Rattle.dp_aggregate.specs.Quantise.{quantise_mapping};
    ghost use Rattle.dp_aggregate.specs.QuantiseProof.{quantise_law};

    ghost mapping = { λ t. quantise_mapping t.lo t.hi t.step };

    fn in_domain(&self) -> Domain {
        Domain::Int {
            lo: self.lo,
            hi: self.hi,
        }
    }

    fn in_metric(&self) -> Metric {
        Metric::Absolute
    }

    fn out_domain(&self) -> Domain {
        Domain::Int {
            lo: quantised(self.step, &self.lo),
            hi: quantised(self.step, &self.hi),
        }
    }

    fn out_metric(&self) -> Metric {
        Metric::Absolute
    }

    fn map(&self, d: u64) -> Result<u64, Past> {
        Ok(ceil_div(d, self.step))
    }

    fn apply(&self, _: Global, v: &Value) -> Result<Value, NoMemory>
        requires { let m = ⟦<Quantise as Transformation>⟧.mapping self.now in Has m.input_domain v.now }
        ensures value { let m = ⟦<Quantise as Transformation>⟧.mapping self.now in
            IfOk result (λ w. w ≡ m.function v.now) }
        ensures within { let m = ⟦<Quantise as Transformation>⟧.mapping self.now in
            IfOk result (λ w. Has m.output_domain w) }
        ensures given { IsOk result }
    {
        let Value::Int(number) = v else {
            unreachable!()
        };
        Ok(Value::Int(quantised(self.step, number)))
    }

    ghost law = { λ t. quantise_law t.lo t.hi t.step t.input_fits t.step_fits };
}

/// The number in steps.
fn quantised(step: u64, number: &i64) -> i64
    requires { IsTrue (is_step step) }
    ensures { result ≡ quantised step number.now }
{
    floor_div(*number, step as i64)
}

/// Whether the step is from 1 to 2^31.
fn is_step(step: u64) -> bool
    ensures { result ≡ is_step step }
{
    1 <= step && step <= MOST_STEP
}
