ghost use Rattle.std.specs.Prelude.{◌≡◌, ◌≤◌, ◌<◌, ◌^◌, All, IfOk, length, pos};
ghost use Rattle.dp_domain.specs.Domains.{Fits};
ghost use Rattle.dp_domain.proofs.Limits.{Fits-prop};
ghost use Rattle.dp_law.specs.Making.{Makes};
ghost use Rattle.dp_domain.specs.declared.domains.Domain.TheVariants as domain;
ghost use Rattle.dp_aggregate.specs.Histogram.{histogram, histogram_most, histogram_factor, histogram_from};

use dp_count::NoMemory;
use dp_domain::{Cells, Domain, Metric, Value};
use dp_law::{Refused, Transformation, is_list_metric, list_metric};
use dp_num::{Past, mul_units};
use std::alloc::Global;

/// The most elements that a list without a size has.
const MOST_ITEMS: i64 = 1 << 30;

/// Counts the elements of each category. It takes a list without a size by `Symmetric` or one with a size by
/// `ChangeOne`, and gives a vector by `L1`. The work is linear in the list and in the number of categories.
#[derive(Clone, Copy, Debug)]
pub struct Histogram {
    n: u32,
    size: Option<u32>,
    ghost input_fits: { Fits (domain.Cats n size) } by { Fits-prop (domain.Cats n size) },
}

impl Histogram {
    /// The histogram of a domain's lists. `Kind` comes exactly where the domain is not `Cats`, and `Metric` exactly
    /// where it is and the metric is not that of its size. `Bound` does not come.
    pub fn new(domain: Domain, metric: Metric) -> Result<Histogram, Refused>
        requires { Fits domain }
        ensures { Makes ⟦<Histogram as Transformation>⟧.mapping result (histogram_from domain metric) }
    {
        let Domain::Cats { n, size } = domain else {
            return Err(Refused::Kind);
        };
        if !is_list_metric(size, metric) {
            return Err(Refused::Metric);
        }
        Ok(Histogram { n, size })
    }
}

impl Transformation for Histogram {
    ghost use Rattle.dp_aggregate.specs.Histogram.{histogram_mapping};
    ghost use Rattle.dp_aggregate.specs.HistogramProof.{histogram_law};

    ghost mapping = { λ t. histogram_mapping t.n t.size };

    fn in_domain(&self) -> Domain {
        Domain::Cats {
            n: self.n,
            size: self.size,
        }
    }

    fn in_metric(&self) -> Metric {
        list_metric(self.size)
    }

    fn out_domain(&self) -> Domain {
        Domain::IntVec {
            len: self.n,
            lo: 0,
            hi: histogram_most(self.size),
        }
    }

    fn out_metric(&self) -> Metric {
        Metric::L1
    }

    fn map(&self, d: u64) -> Result<u64, Past> {
        mul_units(histogram_factor(self.size), d)
    }

    fn apply(&self, alloc: Global, v: &Value) -> Result<Value, NoMemory> {
        let Value::Cats(categories) = v else {
            unreachable!()
        };
        Ok(Value::IntVec(Cells::from_vec(count_each(alloc, self.n, categories.as_slice())?)))
    }

    ghost law = { λ t. histogram_law t.n t.size t.input_fits };
}

/// For each category below `n`, how many elements have it.
fn count_each(alloc: Global, n: u32, categories: &[u32]) -> Result<Vec<i64>, NoMemory>
    requires below { All (λ category. category < n) categories.now }
    requires few { length categories.now ≤ 2 ^ 30 }
    ensures { IfOk result (λ cells. cells.items ≡ histogram n categories.now) }
{
    let mut cells = vec![in alloc; 0; n as usize]?;
    for category in categories {
        cells[*category as usize] += 1;
    }
    Ok(cells)
}

/// The most elements of one category.
fn histogram_most(size: Option<u32>) -> i64
    ensures { result ≡ pos (histogram_most size) }
{
    match size {
        None => MOST_ITEMS,
        Some(size) => i64::from(size),
    }
}

/// How often an element counts that comes, goes or is changed.
fn histogram_factor(size: Option<u32>) -> u64
    ensures { result ≡ histogram_factor size }
{
    match size {
        None => 1,
        Some(_) => 2,
    }
}
