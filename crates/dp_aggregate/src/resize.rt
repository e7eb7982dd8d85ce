ghost use Rattle.std.specs.Prelude.{◌≡◌, IfOk, IsTrue, None};
ghost use Rattle.dp_domain.specs.Domains.{Fits};
ghost use Rattle.dp_domain.proofs.Limits.{Fits-prop};
ghost use Rattle.dp_law.specs.Making.{Makes};
ghost use Rattle.dp_domain.specs.declared.domains.Domain.TheVariants as domain;
ghost use Rattle.dp_aggregate.specs.Resize.{resized, can_resize, resize_from};

use dp_count::NoMemory;
use dp_domain::{Domain, Ints, Metric, Value};
use dp_law::{Refused, Transformation};
use dp_num::Past;
use std::alloc::Global;

/// The greatest size.
const MOST_SIZE: u64 = 1 << 20;

/// Gives a list a size: it keeps its least numbers in rising order, and fills up where there are too few. It takes a
/// list without a size by `Symmetric`, and gives one with a size by `ChangeOne`. The work is that of a sort.
#[derive(Clone, Copy, Debug)]
pub struct Resize {
    lo: i64,
    hi: i64,
    size: u32,
    fill: i64,
    ghost input_fits: { Fits (domain.Ints lo hi None) } by { Fits-prop (domain.Ints lo hi None) },
    ghost size_fits: { IsTrue (can_resize lo hi size fill) },
}

impl Resize {
    /// Resizing to `size` elements, with `fill` where there are too few. `Kind` comes exactly where the domain is not
    /// `Ints`, `Metric` exactly where it is and it has a size or the metric is not `Symmetric`, and `Bound` exactly
    /// where neither comes and not 1 ≤ size ≤ 2^20 and lo ≤ fill ≤ hi for the domain's range.
    pub fn new(domain: Domain, metric: Metric, size: u64, fill: i64) -> Result<Resize, Refused>
        requires { Fits domain }
        ensures { Makes ⟦<Resize as Transformation>⟧.mapping result (resize_from size fill domain metric) }
    {
        let Domain::Ints {
            lo,
            hi,
            size: given,
        } = domain
        else {
            return Err(Refused::Kind);
        };
        if given.is_some() || metric != Metric::Symmetric {
            return Err(Refused::Metric);
        }
        if !can_resize(&lo, &hi, size, &fill) {
            return Err(Refused::Bound);
        }
        Ok(Resize {
            lo,
            hi,
            size: size as u32,
            fill,
        })
    }
}

impl Transformation for Resize {
    ghost use Rattle.dp_aggregate.specs.Resize.{resize_mapping};
    ghost use Rattle.dp_aggregate.specs.ResizeProof.{resize_law};

    ghost mapping = { λ t. resize_mapping t.lo t.hi t.size t.fill };

    fn in_domain(&self) -> Domain {
        Domain::Ints {
            lo: self.lo,
            hi: self.hi,
            size: None,
        }
    }

    fn in_metric(&self) -> Metric {
        Metric::Symmetric
    }

    fn out_domain(&self) -> Domain {
        Domain::Ints {
            lo: self.lo,
            hi: self.hi,
            size: Some(self.size),
        }
    }

    fn out_metric(&self) -> Metric {
        Metric::ChangeOne
    }

    fn map(&self, d: u64) -> Result<u64, Past> {
        Ok(d)
    }

    fn apply(&self, alloc: Global, v: &Value) -> Result<Value, NoMemory> {
        let Value::Ints(numbers) = v else {
            unreachable!()
        };
        Ok(Value::Ints(Ints::from_vec(least(alloc, numbers.as_slice(), self.size, &self.fill)?)))
    }

    ghost law = { λ t. resize_law t.lo t.hi t.size t.fill t.input_fits t.size_fits };
}

/// The `size` least numbers in rising order, then `fill` up to the size.
fn least(alloc: Global, numbers: &[i64], size: u32, fill: &i64) -> Result<Vec<i64>, NoMemory>
    ensures { IfOk result (λ out. out.items ≡ resized size fill.now numbers.now) }
{
    let mut least = Vec::from_slice(alloc, numbers)?;
    least.sort_unstable();
    least.resize(size as usize, *fill)?;
    Ok(least)
}

/// Whether the size is from 1 to 2^20, and `lo` ≤ `fill` ≤ `hi`.
fn can_resize(lo: &i64, hi: &i64, size: u64, fill: &i64) -> bool
    ensures { result ≡ can_resize lo.now hi.now size fill.now }
{
    1 <= size && size <= MOST_SIZE && *lo <= *fill && *fill <= *hi
}
