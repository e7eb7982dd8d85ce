ghost use Rattle.std.specs.Prelude.{◌≡◌, ◌≤◌, ◌^◌, ◌*ℤ◌, All, length, pos, IfOk, IsOk};
ghost use Rattle.dp_domain.specs.Domains.{Fits, Has};
ghost use Rattle.dp_domain.specs.Sums.{int_sum};
ghost use Rattle.dp_domain.proofs.Limits.{Fits-prop};
ghost use Rattle.dp_law.specs.Making.{Makes};
ghost use Rattle.dp_domain.specs.declared.domains.Domain.TheVariants as domain;
ghost use Rattle.dp_aggregate.specs.Sum.{IsItem, sum_low, sum_high, sum_factor, sum_from};

use dp_count::NoMemory;
use dp_domain::{Domain, Metric, Value};
use dp_law::{Refused, Transformation, is_list_metric, list_metric};
use dp_num::{Past, mul_units};
use std::alloc::Global;

/// The most elements that a list without a size has.
const MOST_ITEMS: u32 = 1 << 30;

/// Adds the numbers of a list. It takes a list without a size by `Symmetric` or one with a size by `ChangeOne`, and
/// gives a number by `Absolute`. The work is linear in the list. A sum is from -2^61 to 2^61.
#[derive(Clone, Copy, Debug)]
pub struct Sum {
    lo: i64,
    hi: i64,
    size: Option<u32>,
    ghost input_fits: { Fits (domain.Ints lo hi size) } by { Fits-prop (domain.Ints lo hi size) },
}

impl Sum {
    /// Adding the lists of a domain. `Kind` comes exactly where the domain is not `Ints`, and `Metric` exactly where
    /// it is and the metric is not that of its size. `Bound` does not come.
    pub fn new(domain: Domain, metric: Metric) -> Result<Sum, Refused>
        requires { Fits domain }
        ensures { Makes ⟦<Sum as Transformation>⟧.mapping result (sum_from domain metric) }
    {
        let Domain::Ints { lo, hi, size } = domain else {
            return Err(Refused::Kind);
        };
        if !is_list_metric(size, metric) {
            return Err(Refused::Metric);
        }
        Ok(Sum { lo, hi, size })
    }

    /// The least sum.
    fn low(&self) -> i64
        ensures { result ≡ sum_low self.now.lo self.now.size }
    {
        match self.size {
            None => times(MOST_ITEMS, &0i64.min(self.lo)),
            Some(size) => times(size, &self.lo),
        }
    }

    /// The greatest sum.
    fn high(&self) -> i64
        ensures { result ≡ sum_high self.now.hi self.now.size }
    {
        match self.size {
            None => times(MOST_ITEMS, &0i64.max(self.hi)),
            Some(size) => times(size, &self.hi),
        }
    }

    /// How much a sum changes at most by one element that comes, goes or is changed.
    fn factor(&self) -> u64
        ensures value { result ≡ sum_factor self.now.lo self.now.hi self.now.size }
        ensures small { result ≤ 2 ^ 32 }
    {
        match self.size {
            None => self.lo.unsigned_abs().max(self.hi.unsigned_abs()),
            Some(_) => self.hi.abs_diff(self.lo),
        }
    }
}

impl Transformation for Sum {
    ghost use Rattle.dp_aggregate.specs.Sum.{sum_mapping};
    ghost use Rattle.dp_aggregate.specs.SumProof.{sum_law};

    ghost mapping = { λ t. sum_mapping t.lo t.hi t.size };

    fn in_domain(&self) -> Domain {
        Domain::Ints {
            lo: self.lo,
            hi: self.hi,
            size: self.size,
        }
    }

    fn in_metric(&self) -> Metric {
        list_metric(self.size)
    }

    fn out_domain(&self) -> Domain {
        Domain::Int {
            lo: self.low(),
            hi: self.high(),
        }
    }

    fn out_metric(&self) -> Metric {
        Metric::Absolute
    }

    fn map(&self, d: u64) -> Result<u64, Past> {
        mul_units(d, self.factor())
    }

    fn apply(&self, _: Global, v: &Value) -> Result<Value, NoMemory>
        requires { let m = ⟦<Sum as Transformation>⟧.mapping self.now in Has m.input_domain v.now }
        ensures value { let m = ⟦<Sum as Transformation>⟧.mapping self.now in IfOk result (λ w. w ≡ m.function v.now) }
        ensures within { let m = ⟦<Sum as Transformation>⟧.mapping self.now in
            IfOk result (λ w. Has m.output_domain w) }
        ensures given { IsOk result }
    {
        let Value::Ints(numbers) = v else {
            unreachable!()
        };
        Ok(Value::Int(add_all(numbers.as_slice())))
    }

    ghost law = { λ t. sum_law t.lo t.hi t.size t.input_fits };
}

/// So many times the number.
fn times(count: u32, number: &i64) -> i64
    requires few { count ≤ 2 ^ 30 }
    requires small { IsItem number.now }
    ensures { result ≡ pos count *ℤ number.now }
{
    i64::from(count) * *number
}

/// The sum of the numbers.
fn add_all(numbers: &[i64]) -> i64
    requires few { length numbers.now ≤ 2 ^ 30 }
    requires small { All IsItem numbers.now }
    ensures { result ≡ int_sum numbers.now }
{
    let mut total = 0;
    for number in numbers {
        total += *number;
    }
    total
}
