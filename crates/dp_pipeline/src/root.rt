ghost use Rattle.std.specs.Prelude.{◌≡◌, map, IfOk, IfSome};
ghost use Rattle.serde_json.specs.View.{view};
ghost use Rattle.dp_budget.specs.declared.budget.Rule.TheVariants as rule;
ghost use Rattle.dp_pipeline.specs.Json.{list_of, count_of};
ghost use Rattle.dp_pipeline.specs.StageForms.{one};
ghost use Rattle.dp_pipeline.specs.Accepted.{IsLimit};
ghost use Rattle.dp_pipeline.specs.RootForms.{rule_by, rule_of};

use crate::json::{array, count, list, text};
use crate::stages::bare;
use dp_budget::Rule;
use dp_count::NoMemory;
use serde_json::Value;
use std::alloc::Global;

/// The budget of the root.
pub type RootSpec = Rule;

/// The budget of a value, if it is an array that begins with a budget's word and goes on by its form.
#[tactic(auto, unfolding(crate::specs::RootForms::rule_of))]
pub(crate) fn rule_from(alloc: Global, value: &Value) -> Result<Option<Rule>, NoMemory>
    ensures reads { IfOk result (λ found. found ≡ rule_of (view value.now)) }
    ensures limit { IfOk result (λ found. IfSome found IsLimit) }
{
    let Some([first, args @ ..]) = array(value) else {
        return Ok(None);
    };
    let Some(word) = text(first) else {
        return Ok(None);
    };
    rule_after(alloc, word, args)
}

/// The budget of a word with its arguments: a line a word.
#[tactic(auto, unfolding(crate::specs::RootForms::rule_by))]
fn rule_after(alloc: Global, word: &str, args: &[Value]) -> Result<Option<Rule>, NoMemory>
    ensures reads { IfOk result (λ found. found ≡ rule_by word.now (map view args.now)) }
    ensures limit { IfOk result (λ found. IfSome found IsLimit) }
{
    match word {
        "compositor" => compositor(alloc, args),
        "filter" => Ok(filter(args)),
        "odometer" => Ok(bare(Rule::Odometer, args)),
        _ => Ok(None),
    }
}

/// `["compositor", [mid, ..]]`
fn compositor(alloc: Global, args: &[Value]) -> Result<Option<Rule>, NoMemory>
    ensures reads { IfOk result (λ found. found ≡ one (list_of count_of) rule.Compositor (map view args.now)) }
    ensures limit { IfOk result (λ found. IfSome found IsLimit) }
{
    let [mids] = args else {
        return Ok(None);
    };
    let Some(mids) = list(alloc, &[], mids)? else {
        return Ok(None);
    };
    Ok(Some(Rule::Compositor(mids)))
}

/// `["filter", limit]`
fn filter(args: &[Value]) -> Option<Rule>
    ensures reads { result ≡ one count_of rule.Filter (map view args.now) }
    ensures limit { IfSome result IsLimit }
{
    let [limit] = args else {
        return None;
    };
    let limit = count(limit)?;
    Some(Rule::Filter(limit))
}
