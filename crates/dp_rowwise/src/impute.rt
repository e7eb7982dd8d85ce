ghost use Rattle.std.specs.Prelude.{◌≡◌, ◌↔◌, map, unwrap_or, IfOk, IsTrue};
ghost use Rattle.dp_domain.specs.Domains.{Fits, IsBetween};
ghost use Rattle.dp_domain.specs.declared.domains.Domain.TheVariants as domain;
ghost use Rattle.dp_domain.proofs.Limits.{Fits-prop};
ghost use Rattle.dp_law.specs.Making.{Makes};
ghost use Rattle.dp_rowwise.specs.Impute.{is_between, impute_from};

use dp_count::NoMemory;
use dp_domain::{Domain, Ints, Metric, Value};
use dp_law::{Refused, Transformation};
use dp_num::Past;
use std::alloc::Global;

/// Puts a number in the place of each missing one. It takes `OptInts` and gives `Ints` of the same range, both by
/// `Symmetric`. The work is linear in the list.
#[derive(Clone, Copy, Debug)]
pub struct Impute {
    value: i64,
    lo: i64,
    hi: i64,
    ghost fits: { Fits (domain.OptInts lo hi) } by { Fits-prop (domain.OptInts lo hi) },
    ghost between: { IsBetween lo hi value },
}

impl Impute {
    ghost use Rattle.dp_rowwise.specs.Impute.{impute_value};
    ghost use Rattle.dp_rowwise.specs.Parts.{imputed_number};

    /// Imputing `value`. `Kind` comes exactly where the domain is not `OptInts`, `Metric` exactly where it is and the
    /// metric is not `Symmetric`, and `Bound` exactly where neither comes and the value is outside the domain's range.
    pub fn new(domain: Domain, metric: Metric, value: i64) -> Result<Impute, Refused>
        requires { Fits domain }
        ensures { Makes ⟦<Impute as Transformation>⟧.mapping result (impute_from value domain metric) }
    {
        let Domain::OptInts { lo, hi } = domain else {
            return Err(Refused::Kind);
        };
        if metric != Metric::Symmetric {
            return Err(Refused::Metric);
        }
        if !is_between(&lo, &hi, &value) {
            return Err(Refused::Bound);
        }
        Ok(Impute { value, lo, hi })
    }

    /// The number, or the one that is imputed where it is missing.
    pub fn number(&self, number: &Option<i64>) -> i64
        ensures value { result ≡ unwrap_or number.now (imputed_number self.now) }
        ensures imputes { let m = ⟦<Impute as Transformation>⟧.mapping self.now in
            m.function ≡ impute_value (imputed_number self.now) }
    {
        (*number).unwrap_or(self.value)
    }
}

impl Transformation for Impute {
    ghost use Rattle.dp_rowwise.specs.Impute.{impute_mapping};
    ghost use Rattle.dp_rowwise.specs.ImputeProof.{impute_law};

    ghost mapping = { λ t. impute_mapping t.value t.lo t.hi };

    fn in_domain(&self) -> Domain {
        Domain::OptInts {
            lo: self.lo,
            hi: self.hi,
        }
    }

    fn in_metric(&self) -> Metric {
        Metric::Symmetric
    }

    fn out_domain(&self) -> Domain {
        Domain::Ints {
            lo: self.lo,
            hi: self.hi,
            size: None,
        }
    }

    fn out_metric(&self) -> Metric {
        Metric::Symmetric
    }

    fn map(&self, d: u64) -> Result<u64, Past> {
        Ok(d)
    }

    fn apply(&self, alloc: Global, v: &Value) -> Result<Value, NoMemory> {
        let Value::OptInts(numbers) = v else {
            unreachable!()
        };
        let imputed = impute_all(alloc, numbers.as_slice(), &self.value)?;
        Ok(Value::Ints(Ints::from_vec(imputed)))
    }

    ghost law = { λ t. impute_law t.value t.lo t.hi t.fits t.between };
}

/// The value in the place of each missing number.
fn impute_all(alloc: Global, numbers: &[Option<i64>], value: &i64) -> Result<Vec<i64>, NoMemory>
    ensures { IfOk result (λ imputed. imputed.items ≡ map (λ x. unwrap_or x value.now) numbers.now) }
{
    Ok(
        numbers
            .iter()
            .map(|number| (*number).unwrap_or(*value))
            .collect(alloc)?,
    )
}

/// Whether the number is from `lo` to `hi`.
fn is_between(lo: &i64, hi: &i64, number: &i64) -> bool
    ensures value { result ≡ is_between lo.now hi.now number.now }
    ensures between { IsTrue result ↔ IsBetween lo.now hi.now number.now }
{
    *lo <= *number && *number <= *hi
}
