ghost use Rattle.std.specs.Prelude.{◌≡◌, IsTrue, IfOk, IsOk};
ghost use Rattle.dp_domain.specs.Domains.{Fits, Has};
ghost use Rattle.dp_domain.proofs.Limits.{Fits-prop};
ghost use Rattle.dp_law.specs.Making.{Makes};
ghost use Rattle.dp_aggregate.specs.Count.{has_lists, has_unsized_lists, count_from};

use dp_count::NoMemory;
use dp_domain::{Domain, Metric, Value};
use dp_law::{Refused, Transformation};
use dp_num::Past;
use std::alloc::Global;

/// The most elements that a list has.
const MOST_ITEMS: i64 = 1 << 30;

/// Counts the elements of a list. It takes lists of any kind without a size by `Symmetric`, and gives a number by
/// `Absolute`. It looks at no element.
#[derive(Clone, Copy, Debug)]
pub struct Count {
    lists: Domain,
    ghost input_fits: { Fits lists } by { Fits-prop lists },
    ghost input_unsized: { IsTrue (has_unsized_lists lists) },
}

impl Count {
    /// Counting the lists of a domain. `Kind` comes exactly where the domain is not one of lists, and `Metric` exactly
    /// where it is, and it has a size or the metric is not `Symmetric`. `Bound` does not come.
    pub fn new(domain: Domain, metric: Metric) -> Result<Count, Refused>
        requires { Fits domain }
        ensures { Makes ⟦<Count as Transformation>⟧.mapping result (count_from domain metric) }
    {
        if !has_lists(&domain) {
            return Err(Refused::Kind);
        }
        if !has_unsized_lists(&domain) || metric != Metric::Symmetric {
            return Err(Refused::Metric);
        }
        Ok(Count { lists: domain })
    }
}

impl Transformation for Count {
    ghost use Rattle.dp_aggregate.specs.Count.{count_mapping};
    ghost use Rattle.dp_aggregate.specs.CountProof.{count_law};

    ghost mapping = { λ t. count_mapping t.lists };

    fn in_domain(&self) -> Domain {
        self.lists
    }

    fn in_metric(&self) -> Metric {
        Metric::Symmetric
    }

    fn out_domain(&self) -> Domain {
        Domain::Int {
            lo: 0,
            hi: MOST_ITEMS,
        }
    }

    fn out_metric(&self) -> Metric {
        Metric::Absolute
    }

    fn map(&self, d: u64) -> Result<u64, Past> {
        Ok(d)
    }

    fn apply(&self, _: Global, v: &Value) -> Result<Value, NoMemory>
        requires { let m = ⟦<Count as Transformation>⟧.mapping self.now in Has m.input_domain v.now }
        ensures value { let m = ⟦<Count as Transformation>⟧.mapping self.now in
            IfOk result (λ w. w ≡ m.function v.now) }
        ensures within { let m = ⟦<Count as Transformation>⟧.mapping self.now in
            IfOk result (λ w. Has m.output_domain w) }
        ensures given { IsOk result }
    {
        let length = match v {
            Value::Rows(rows) => rows.len(),
            Value::Texts(texts) => texts.len(),
            Value::OptInts(numbers) => numbers.len(),
            Value::Ints(numbers) => numbers.len(),
            Value::Cats(categories) => categories.len(),
            _ => unreachable!(),
        };
        Ok(Value::Int(length as i64))
    }

    ghost law = { λ t. count_law t.lists t.input_fits t.input_unsized };
}

/// Whether the domain's values are lists.
fn has_lists(domain: &Domain) -> bool
    ensures { result ≡ has_lists domain.now }
{
    match domain {
        Domain::Rows { .. }
        | Domain::Texts
        | Domain::OptInts { .. }
        | Domain::Ints { .. }
        | Domain::Cats { .. } => true,
        _ => false,
    }
}

/// Whether the domain's values are lists, and no size is given.
fn has_unsized_lists(domain: &Domain) -> bool
    ensures { result ≡ has_unsized_lists domain.now }
{
    match domain {
        Domain::Rows { .. } | Domain::Texts | Domain::OptInts { .. } => true,
        Domain::Ints { size, .. } | Domain::Cats { size, .. } => size.is_none(),
        _ => false,
    }
}
