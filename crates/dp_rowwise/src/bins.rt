ghost use Rattle.std.specs.Prelude.{◌≡◌, ◌≤◌, true, map, length, IfOk};
ghost use Rattle.dp_domain.specs.Domains.{Fits, most_listed};
ghost use Rattle.dp_domain.specs.Edges.{edges_at_most, is_rising};
ghost use Rattle.dp_domain.specs.declared.domains.Domain.TheVariants as domain;
ghost use Rattle.dp_domain.proofs.Limits.{Fits-prop};
ghost use Rattle.dp_law.specs.Making.{Makes};
ghost use Rattle.dp_rowwise.specs.Bins.{bins_domain, bins_from};

use dp_count::NoMemory;
use dp_domain::{Cats, Domain, ITEM_LIMIT, Metric, Value, are_edges, edges_at_most};
use dp_law::{Refused, Transformation, is_list_metric, list_metric};
use dp_num::Past;
use std::alloc::Global;

/// Gives for each number how many edges are at most it. It takes `Ints` without a size by `Symmetric` or with one by
/// `ChangeOne`, and gives `Cats` of the same size by the same metric. The work for each number is logarithmic in the
/// edges.
#[derive(Debug, Drop)]
pub struct Bins {
    edges: Vec<i64>,
    lo: i64,
    hi: i64,
    size: Option<u32>,
    ghost input_fits: { Fits (domain.Ints lo hi size) } by { Fits-prop (domain.Ints lo hi size) },
    ghost output_fits: { Fits (bins_domain edges.items size) } by { Fits-prop (bins_domain edges.items size) },
    ghost rising: { is_rising edges.items ≡ true },
}

impl Bins {
    ghost use Rattle.dp_rowwise.specs.Bins.{bins_value};
    ghost use Rattle.dp_rowwise.specs.Parts.{bin_edges};

    /// The bins between the edges. `Kind` comes exactly where the domain is not `Ints`, `Metric` exactly where it is
    /// and the metric is not that of its size, and `Bound` exactly where neither comes and the edges are not 1 to
    /// 1,023 strictly rising numbers from -2^31 to 2^31.
    pub fn new(domain: Domain, metric: Metric, edges: Vec<i64>) -> Result<Bins, Refused>
        requires { Fits domain }
        ensures { Makes ⟦<Bins as Transformation>⟧.mapping result (bins_from edges.items domain metric) }
    {
        let Domain::Ints { lo, hi, size } = domain else {
            return Err(Refused::Kind);
        };
        if !is_list_metric(size, metric) {
            return Err(Refused::Metric);
        }
        if !are_edges(&ITEM_LIMIT, edges.as_slice()) {
            return Err(Refused::Bound);
        }
        Ok(Bins {
            edges,
            lo,
            hi,
            size,
        })
    }

    /// How many edges are at most a number.
    pub fn number(&self, number: &i64) -> u32
        ensures value { result ≡ edges_at_most (bin_edges self.now) number.now }
        ensures bins { let m = ⟦<Bins as Transformation>⟧.mapping self.now in
            m.function ≡ bins_value (bin_edges self.now) }
    {
        edges_at_most(self.edges.as_slice(), number)
    }
}

impl Transformation for Bins {
    ghost use Rattle.dp_rowwise.specs.Bins.{bins_mapping};
    ghost use Rattle.dp_rowwise.specs.BinsProof.{bins_law};

    ghost mapping = { λ t. bins_mapping t.edges.items t.lo t.hi t.size };

    fn in_domain(&self) -> Domain {
        Domain::Ints {
            lo: self.lo,
            hi: self.hi,
            size: self.size,
        }
    }

    fn in_metric(&self) -> Metric {
        list_metric(self.size)
    }

    fn out_domain(&self) -> Domain {
        Domain::Cats {
            n: self.edges.len() as u32 + 1,
            size: self.size,
        }
    }

    fn out_metric(&self) -> Metric {
        list_metric(self.size)
    }

    fn map(&self, d: u64) -> Result<u64, Past> {
        Ok(d)
    }

    fn apply(&self, alloc: Global, v: &Value) -> Result<Value, NoMemory> {
        let Value::Ints(numbers) = v else {
            unreachable!()
        };
        let bins = bin_all(alloc, self.edges.as_slice(), numbers.as_slice())?;
        Ok(Value::Cats(Cats::from_vec(bins)))
    }

    ghost law = { λ t. bins_law t.edges.items t.lo t.hi t.size t.input_fits t.output_fits };
}

/// The bin of each number.
fn bin_all(alloc: Global, edges: &[i64], numbers: &[i64]) -> Result<Vec<u32>, NoMemory>
    requires few { length edges.now ≤ most_listed }
    requires rising { is_rising edges.now ≡ true }
    ensures { IfOk result (λ bins. bins.items ≡ map (edges_at_most edges.now) numbers.now) }
{
    Ok(
        numbers
            .iter()
            .map(|number| edges_at_most(edges, number))
            .collect(alloc)?,
    )
}
