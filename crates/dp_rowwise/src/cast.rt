ghost use Rattle.std.specs.Prelude.{◌≡◌, ◌≤◌, map, IfOk, IfSome};
ghost use Rattle.dp_count.specs.Digits.{decimal};
ghost use Rattle.dp_domain.specs.Domains.{Fits, item_limit};
ghost use Rattle.dp_law.specs.Making.{Makes};
ghost use Rattle.dp_rowwise.specs.Cast.{small, cast, cast_from};

use dp_count::{NoMemory, at_most, decimal, with_sign, without_sign};
use dp_domain::{Domain, ITEM_LIMIT, Metric, OptInts, Text, Texts, Value};
use dp_law::{Refused, Transformation};
use dp_num::Past;
use std::alloc::Global;

/// Casts each text to a number: an optional `-` and one or more ASCII digits, whose value is from -2^31 to 2^31. Every
/// other text gives no number. It takes `Texts` and gives `OptInts`, both by `Symmetric`. The work is linear in the
/// bytes.
#[derive(Clone, Copy, Debug)]
pub struct Cast;

impl Cast {
    ghost use Rattle.dp_rowwise.specs.Cast.{cast_value};

    /// The cast. `Kind` comes exactly where the domain is not `Texts`, and `Metric` exactly where it is and the metric
    /// is not `Symmetric`.
    pub fn new(domain: Domain, metric: Metric) -> Result<Cast, Refused>
        requires { Fits domain }
        ensures { Makes ⟦<Cast as Transformation>⟧.mapping result (cast_from domain metric) }
    {
        let Domain::Texts = domain else {
            return Err(Refused::Kind);
        };
        if metric != Metric::Symmetric {
            return Err(Refused::Metric);
        }
        Ok(Cast)
    }

    /// The number that an optional `-` and one or more digits spell, from -2^31 to 2^31.
    pub fn number(&self, text: &[u8]) -> Option<i64>
        ensures value { result ≡ cast text.now }
        ensures casts { let m = ⟦<Cast as Transformation>⟧.mapping self.now in m.function ≡ cast_value }
    {
        cast_text(text)
    }
}

impl Transformation for Cast {
    ghost use Rattle.dp_rowwise.specs.Cast.{cast_mapping};
    ghost use Rattle.dp_rowwise.specs.CastProof.{cast_law};

    ghost mapping = { λ _. cast_mapping };

    fn in_domain(&self) -> Domain {
        Domain::Texts
    }

    fn in_metric(&self) -> Metric {
        Metric::Symmetric
    }

    fn out_domain(&self) -> Domain {
        Domain::OptInts {
            lo: -ITEM_LIMIT,
            hi: ITEM_LIMIT,
        }
    }

    fn out_metric(&self) -> Metric {
        Metric::Symmetric
    }

    fn map(&self, d: u64) -> Result<u64, Past> {
        Ok(d)
    }

    fn apply(&self, alloc: Global, v: &Value) -> Result<Value, NoMemory> {
        let Value::Texts(texts) = v else {
            unreachable!()
        };
        let numbers = cast_all(alloc, texts.as_slice())?;
        Ok(Value::OptInts(OptInts::from_vec(numbers)))
    }

    ghost law = { λ _. cast_law };
}

/// Each text cast.
fn cast_all(alloc: Global, texts: &[Text]) -> Result<Vec<Option<i64>>, NoMemory>
    ensures { IfOk result (λ numbers. numbers.items ≡ map cast texts.now) }
{
    let mut numbers = Vec::with_capacity(alloc, texts.len())?;
    for text in texts {
        numbers.push(cast_text(text.as_slice()))?;
    }
    Ok(numbers)
}

/// The number that an optional `-` and one or more digits spell.
fn cast_text(text: &[u8]) -> Option<i64>
    ensures { result ≡ cast text.now }
{
    let (negative, digits) = without_sign(text);
    let number = small(digits)?;
    Some(with_sign(negative, number))
}

/// The number that digits spell, where it is at most 2^31.
fn small(digits: &[u8]) -> Option<u64>
    ensures number { result ≡ small (decimal digits.now) }
    ensures limit { IfSome result (λ n. n ≤ item_limit) }
{
    at_most(ITEM_LIMIT as u64, decimal(digits)?)
}
