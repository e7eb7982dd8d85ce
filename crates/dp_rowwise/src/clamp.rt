ghost use Rattle.std.specs.Prelude.{◌≡◌, ◌≤ℤ◌, map, IfOk};
ghost use Rattle.dp_domain.specs.Domains.{Fits};
ghost use Rattle.dp_domain.specs.Ranges.{clamped};
ghost use Rattle.dp_domain.proofs.Limits.{Fits-prop};
ghost use Rattle.dp_law.specs.Making.{Makes};
ghost use Rattle.dp_domain.specs.declared.domains.Domain.TheVariants as domain;
ghost use Rattle.dp_rowwise.specs.Clamp.{clamp_from};

use dp_count::NoMemory;
use dp_domain::{Domain, Ints, Metric, Value, clamped, is_item_range};
use dp_law::{Refused, Transformation, is_list_metric, list_metric};
use dp_num::Past;
use std::alloc::Global;

/// Brings each number of a list into a range. It takes a list without a size by `Symmetric` or one with a size by
/// `ChangeOne`. The work is linear in the list.
#[derive(Clone, Copy, Debug)]
pub struct Clamp {
    lo: i64,
    hi: i64,
    from_lo: i64,
    from_hi: i64,
    size: Option<u32>,
    ghost input_fits: { Fits (domain.Ints from_lo from_hi size) } by { Fits-prop (domain.Ints from_lo from_hi size) },
    ghost output_fits: { Fits (domain.Ints lo hi size) } by { Fits-prop (domain.Ints lo hi size) },
}

impl Clamp {
    ghost use Rattle.dp_rowwise.specs.Clamp.{clamp_value};
    ghost use Rattle.dp_rowwise.specs.Parts.{clamp_lo, clamp_hi};

    /// Clamping to `lo`..=`hi`. `Kind` comes exactly where the domain is not `Ints`, `Metric` exactly where it is and
    /// the metric is not that of its size, and `Bound` exactly where neither comes and not -2^31 ≤ lo ≤ hi ≤ 2^31.
    pub fn new(domain: Domain, metric: Metric, lo: i64, hi: i64) -> Result<Clamp, Refused>
        requires { Fits domain }
        ensures { Makes ⟦<Clamp as Transformation>⟧.mapping result (clamp_from lo hi domain metric) }
    {
        let Domain::Ints {
            lo: from_lo,
            hi: from_hi,
            size,
        } = domain
        else {
            return Err(Refused::Kind);
        };
        if !is_list_metric(size, metric) {
            return Err(Refused::Metric);
        }
        if !is_item_range(&lo, &hi) {
            return Err(Refused::Bound);
        }
        Ok(Clamp {
            lo,
            hi,
            from_lo,
            from_hi,
            size,
        })
    }

    /// The number of the range that is nearest to a number.
    pub fn number(&self, number: &i64) -> i64
        ensures value { result ≡ clamped (clamp_lo self.now) (clamp_hi self.now) number.now }
        ensures clamps { let m = ⟦<Clamp as Transformation>⟧.mapping self.now in
            m.function ≡ clamp_value (clamp_lo self.now) (clamp_hi self.now) }
    {
        clamped(&self.lo, &self.hi, number)
    }
}

impl Transformation for Clamp {
    ghost use Rattle.dp_rowwise.specs.Clamp.{clamp_mapping};
    ghost use Rattle.dp_rowwise.specs.ClampProof.{clamp_law};

    ghost mapping = { λ t. clamp_mapping t.lo t.hi t.from_lo t.from_hi t.size };

    fn in_domain(&self) -> Domain {
        Domain::Ints {
            lo: self.from_lo,
            hi: self.from_hi,
            size: self.size,
        }
    }

    fn in_metric(&self) -> Metric {
        list_metric(self.size)
    }

    fn out_domain(&self) -> Domain {
        Domain::Ints {
            lo: self.lo,
            hi: self.hi,
            size: self.size,
        }
    }

    fn out_metric(&self) -> Metric {
        list_metric(self.size)
    }

    fn map(&self, d: u64) -> Result<u64, Past> {
        Ok(d)
    }

    fn apply(&self, alloc: Global, v: &Value) -> Result<Value, NoMemory> {
        let Value::Ints(numbers) = v else {
            unreachable!()
        };
        Ok(Value::Ints(Ints::from_vec(clamp_all(alloc, numbers.as_slice(), &self.lo, &self.hi)?)))
    }

    ghost law = { λ t. clamp_law t.lo t.hi t.from_lo t.from_hi t.size t.input_fits t.output_fits };
}

/// Each number clamped.
fn clamp_all(alloc: Global, numbers: &[i64], lo: &i64, hi: &i64) -> Result<Vec<i64>, NoMemory>
    requires { lo.now ≤ℤ hi.now }
    ensures { IfOk result (λ out. out.items ≡ map (clamped lo.now hi.now) numbers.now) }
{
    Ok(numbers.iter().map(|z| clamped(lo, hi, z)).collect(alloc)?)
}
