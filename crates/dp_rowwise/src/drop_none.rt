ghost use Rattle.std.specs.Prelude.{◌≡◌, filter_map, IfOk};
ghost use Rattle.dp_domain.specs.Domains.{Fits};
ghost use Rattle.dp_domain.specs.declared.domains.Domain.TheVariants as domain;
ghost use Rattle.dp_domain.proofs.Limits.{Fits-prop};
ghost use Rattle.dp_law.specs.Making.{Makes};
ghost use Rattle.dp_rowwise.specs.DropNone.{drop_none_from};

use dp_count::NoMemory;
use dp_domain::{Domain, Ints, Metric, Value};
use dp_law::{Refused, Transformation};
use dp_num::Past;
use std::alloc::Global;

/// Drops the missing numbers. It takes `OptInts` and gives `Ints` of the same range, both by `Symmetric`. The work is
/// linear in the list.
#[derive(Clone, Copy, Debug)]
pub struct DropNone {
    lo: i64,
    hi: i64,
    ghost fits: { Fits (domain.OptInts lo hi) } by { Fits-prop (domain.OptInts lo hi) },
}

impl DropNone {
    /// Dropping the missing numbers. `Kind` comes exactly where the domain is not `OptInts`, and `Metric` exactly where
    /// it is and the metric is not `Symmetric`.
    pub fn new(domain: Domain, metric: Metric) -> Result<DropNone, Refused>
        requires { Fits domain }
        ensures { Makes ⟦<DropNone as Transformation>⟧.mapping result (drop_none_from domain metric) }
    {
        let Domain::OptInts { lo, hi } = domain else {
            return Err(Refused::Kind);
        };
        if metric != Metric::Symmetric {
            return Err(Refused::Metric);
        }
        Ok(DropNone { lo, hi })
    }
}

impl Transformation for DropNone {
    ghost use Rattle.dp_rowwise.specs.DropNone.{drop_none_mapping};
    ghost use Rattle.dp_rowwise.specs.DropNoneProof.{drop_none_law};

    ghost mapping = { λ t. drop_none_mapping t.lo t.hi };

    fn in_domain(&self) -> Domain {
        Domain::OptInts {
            lo: self.lo,
            hi: self.hi,
        }
    }

    fn in_metric(&self) -> Metric {
        Metric::Symmetric
    }

    fn out_domain(&self) -> Domain {
        Domain::Ints {
            lo: self.lo,
            hi: self.hi,
            size: None,
        }
    }

    fn out_metric(&self) -> Metric {
        Metric::Symmetric
    }

    fn map(&self, d: u64) -> Result<u64, Past> {
        Ok(d)
    }

    fn apply(&self, alloc: Global, v: &Value) -> Result<Value, NoMemory> {
        let Value::OptInts(numbers) = v else {
            unreachable!()
        };
        let present = present(alloc, numbers.as_slice())?;
        Ok(Value::Ints(Ints::from_vec(present)))
    }

    ghost law = { λ t. drop_none_law t.lo t.hi t.fits };
}

/// The numbers that are not missing.
fn present(alloc: Global, numbers: &[Option<i64>]) -> Result<Vec<i64>, NoMemory>
    ensures { IfOk result (λ present. present.items ≡ filter_map (λ x. x) numbers.now) }
{
    Ok(numbers.iter().filter_map(|number| *number).collect(alloc)?)
}
