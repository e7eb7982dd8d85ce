ghost use Rattle.std.specs.Prelude.{◌≡◌, ◌+◌, true, length, IfOk, IsOk};
ghost use Rattle.dp_domain.specs.Domains.{Fits, Has};
ghost use Rattle.dp_domain.specs.Edges.{is_rising};
ghost use Rattle.dp_domain.proofs.Limits.{Fits-prop};
ghost use Rattle.dp_law.specs.Making.{Makes};
ghost use Rattle.dp_domain.specs.declared.domains.Domain.TheVariants as domain;
ghost use Rattle.dp_aggregate.specs.AtLeast.{at_least_from};

use dp_count::NoMemory;
use dp_domain::{Domain, Ints, Metric, NUMBER_LIMIT, Value, are_edges, edges_at_most};
use dp_law::{Refused, Transformation};
use dp_num::Past;
use std::alloc::Global;

/// Tells how many of some edges a number reaches, as a category. It takes a number by `Absolute` and gives a category
/// by `Discrete`. It finds the edge by binary search.
#[derive(Debug, Drop)]
pub struct AtLeast {
    edges: Ints,
    lo: i64,
    hi: i64,
    ghost input_fits: { Fits (domain.Int lo hi) } by { Fits-prop (domain.Int lo hi) },
    ghost output_fits: { Fits (domain.Cat (length edges + 1)) } by { Fits-prop (domain.Cat (length edges + 1)) },
    ghost rising: { is_rising edges ≡ true },
}

impl AtLeast {
    /// Telling which edges are reached. `Kind` comes exactly where the domain is not `Int`, `Metric` exactly where it
    /// is and the metric is not `Absolute`, and `Bound` exactly where neither comes and there are not 1 to 1,023
    /// strictly rising edges, each from -2^61 to 2^61.
    pub fn new(domain: Domain, metric: Metric, edges: Vec<i64>) -> Result<AtLeast, Refused>
        requires { Fits domain }
        ensures { Makes ⟦<AtLeast as Transformation>⟧.mapping result (at_least_from edges.items domain metric) }
    {
        let Domain::Int { lo, hi } = domain else {
            return Err(Refused::Kind);
        };
        if metric != Metric::Absolute {
            return Err(Refused::Metric);
        }
        if !are_edges(&NUMBER_LIMIT, edges.as_slice()) {
            return Err(Refused::Bound);
        }
        Ok(AtLeast {
            edges: Ints::from_vec(edges),
            lo,
            hi,
        })
    }
}

impl Transformation for AtLeast {
    ghost use Rattle.dp_aggregate.specs.AtLeast.{at_least_mapping};
    ghost use Rattle.dp_aggregate.specs.AtLeastProof.{at_least_law};

    ghost mapping = { λ t. at_least_mapping t.edges t.lo t.hi };

    fn in_domain(&self) -> Domain {
        Domain::Int {
            lo: self.lo,
            hi: self.hi,
        }
    }

    fn in_metric(&self) -> Metric {
        Metric::Absolute
    }

    fn out_domain(&self) -> Domain {
        Domain::Cat {
            n: self.edges.len() as u32 + 1,
        }
    }

    fn out_metric(&self) -> Metric {
        Metric::Discrete
    }

    fn map(&self, d: u64) -> Result<u64, Past> {
        Ok(d.min(1))
    }

    fn apply(&self, _: Global, v: &Value) -> Result<Value, NoMemory>
        requires { let m = ⟦<AtLeast as Transformation>⟧.mapping self.now in Has m.input_domain v.now }
        ensures value { let m = ⟦<AtLeast as Transformation>⟧.mapping self.now in
            IfOk result (λ w. w ≡ m.function v.now) }
        ensures within { let m = ⟦<AtLeast as Transformation>⟧.mapping self.now in
            IfOk result (λ w. Has m.output_domain w) }
        ensures given { IsOk result }
    {
        let Value::Int(number) = v else {
            unreachable!()
        };
        Ok(Value::Cat(edges_at_most(self.edges.as_slice(), number)))
    }

    ghost law = { λ t. at_least_law t.edges t.lo t.hi t.input_fits t.output_fits };
}
