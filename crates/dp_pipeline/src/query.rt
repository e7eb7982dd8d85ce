ghost use Rattle.std.specs.Prelude.{◌≡◌, IfOk, IfSome, IsSome, codes};
ghost use Rattle.dp_budget.specs.Rules.{fresh, declared};
ghost use Rattle.serde_json.specs.View.{view};
ghost use Rattle.dp_pipeline.specs.Contents.{member_by, has_only};
ghost use Rattle.dp_pipeline.specs.Accepted.{IsLimit};
ghost use Rattle.dp_pipeline.specs.Json.{list_of};
ghost use Rattle.dp_pipeline.specs.Queries.{plan_named, asked_of, ask_of, ask_names, child_budget, budget_of, open_of, open_names, query_of, IsQuery};
ghost use Rattle.dp_pipeline.specs.StageForms.{stage_of};
ghost use Rattle.dp_pipeline.specs.Answers.{Reads};

use crate::faults::QueryFault;
use crate::json::{list, member, parse, text};
use crate::pipeline::Pipeline;
use crate::reading::{count_at, has_only};
use crate::root::rule_from;
use crate::spec::{Spec, spec_from};
use dp_budget::{Budget, Rule};
use dp_chain::Stages;
use dp_count::NoMemory;
use dp_domain::Text;
use serde_json::Value;
use std::alloc::Global;

/// The members of a query that asks.
const ASK_NAMES: [&str; 2] = ["node", "ask"];

/// The members of a query that opens.
const OPEN_NAMES: [&str; 4] = ["node", "open", "distance", "budget"];

/// A query at a node, by the node's number.
#[derive(Debug, Drop)]
pub enum Query {
    /// A release on the node's value.
    Ask {
        /// The node, at most 2^32.
        node: u64,
        /// The release.
        spec: Spec,
    },
    /// A child of the node, whose value is what the stages give.
    Open {
        /// The node, at most 2^32.
        node: u64,
        /// The stages, from first to last.
        stages: Stages,
        /// The distance that is declared for the child, at most 2^32.
        distance: u64,
        /// The child's budget, of which nothing is spent. It is no odometer.
        budget: Budget,
    },
}

/// The query that a line spells, without its line feed, under a pipeline whose columns and plans it may name.
///
/// `Malformed` comes exactly where the line is no JSON text in UTF-8 nested at most 127 deep, or is not of one of the
/// two forms, names a column or a plan that the pipeline does not have, or gives a child no budget within its limits.
#[tactic(auto, unfolding(crate::specs::Queries::query_of))]
pub fn read_query(alloc: Global, pipeline: &Pipeline, bytes: &[u8]) -> Result<Query, QueryFault>
    ensures reads { Reads result (query_of pipeline.now bytes.now) }
    ensures bounded { IfOk result IsQuery }
{
    let Some(value) = parse(alloc, bytes)? else {
        return Err(QueryFault::Malformed);
    };
    if let Some(ask) = ask_from(alloc, pipeline, &value)? {
        return Ok(ask);
    }
    match open_from(alloc, pipeline, &value)? {
        Some(open) => Ok(open),
        None => Err(QueryFault::Malformed),
    }
}

/// `{"node": N, "ask": X}`
#[tactic(auto, unfolding(crate::specs::Queries::ask_of))]
fn ask_from(alloc: Global, pipeline: &Pipeline, value: &Value) -> Result<Option<Query>, NoMemory>
    ensures reads { IfOk result (λ found. found ≡ ask_of pipeline.now (view value.now)) }
    ensures bounded { IfOk result (λ found. IfSome found IsQuery) }
{
    let Some(node) = count_at(value, "node") else {
        return Ok(None);
    };
    let Some(spec) = asked_at(alloc, pipeline, value)? else {
        return Ok(None);
    };
    if !has_ask(value) {
        return Ok(None);
    }
    Ok(Some(Query::Ask { node, spec }))
}

/// The release that is asked for, or the plan that is named.
fn asked_at(alloc: Global, pipeline: &Pipeline, value: &Value) -> Result<Option<Spec>, NoMemory>
    ensures { IfOk result (λ found. found ≡ member_by (asked_of pipeline.now) (codes "ask") (view value.now)) }
{
    match member(value, "ask") {
        Some(asked) => asked_from(alloc, pipeline, asked),
        None => Ok(None),
    }
}

/// A release: the name of a plan stands for its own.
#[tactic(auto, unfolding(crate::specs::Queries::asked_of))]
fn asked_from(alloc: Global, pipeline: &Pipeline, asked: &Value) -> Result<Option<Spec>, NoMemory>
    ensures { IfOk result (λ found. found ≡ asked_of pipeline.now (view asked.now)) }
{
    match text(asked) {
        Some(name) => named(alloc, pipeline, name.as_bytes()),
        None => spec_from(alloc, pipeline.columns().as_slice(), asked),
    }
}

/// A copy of the release of the plan of that name.
fn named(alloc: Global, pipeline: &Pipeline, name: &[u8]) -> Result<Option<Spec>, NoMemory>
    ensures { IfOk result (λ found. found ≡ plan_named pipeline.now.plans name.now) }
{
    match pipeline.plan(name) {
        Some(spec) => Ok(Some(spec.copy(alloc)?)),
        None => Ok(None),
    }
}

/// `{"node": N, "open": LINE, "distance": D, "budget": B}`
#[tactic(auto, unfolding(crate::specs::Queries::open_of))]
fn open_from(alloc: Global, pipeline: &Pipeline, value: &Value) -> Result<Option<Query>, NoMemory>
    ensures reads { IfOk result (λ found. found ≡ open_of pipeline.now (view value.now)) }
    ensures bounded { IfOk result (λ found. IfSome found IsQuery) }
{
    let Some(node) = count_at(value, "node") else {
        return Ok(None);
    };
    let Some(stages) = stages_at(alloc, pipeline.columns().as_slice(), value)? else {
        return Ok(None);
    };
    let Some(distance) = count_at(value, "distance") else {
        return Ok(None);
    };
    let Some(budget) = budget_at(alloc, value)? else {
        return Ok(None);
    };
    if !has_open(value) {
        return Ok(None);
    }
    Ok(Some(Query::Open {
        node,
        stages,
        distance,
        budget,
    }))
}

/// Whether an object has members of an ask's names alone.
fn has_ask(value: &Value) -> bool
    ensures { result ≡ has_only ask_names (view value.now) }
{
    has_only(value, &ASK_NAMES)
}

/// Whether an object has members of an open's names alone.
fn has_open(value: &Value) -> bool
    ensures { result ≡ has_only open_names (view value.now) }
{
    has_only(value, &OPEN_NAMES)
}

/// The stages of a child's line.
fn stages_at(alloc: Global, columns: &[Text], value: &Value) -> Result<Option<Stages>, NoMemory>
    ensures { IfOk result (λ found.
        found ≡ member_by (list_of (stage_of columns.now)) (codes "open") (view value.now)) }
{
    match member(value, "open") {
        Some(line) => list(alloc, columns, line),
        None => Ok(None),
    }
}

/// The budget of a child.
#[tactic(auto, unfolding(crate::specs::Queries::budget_of))]
fn budget_at(alloc: Global, value: &Value) -> Result<Option<Budget>, NoMemory>
    ensures reads { IfOk result (λ found. found ≡ member_by budget_of (codes "budget") (view value.now)) }
    ensures fresh { IfOk result (λ found. IfSome found (λ budget.
        (budget ≡ fresh budget.rule) × IsSome (declared budget.rule))) }
{
    let Some(budget) = member(value, "budget") else {
        return Ok(None);
    };
    match rule_from(alloc, budget)? {
        Some(rule) => Ok(child_budget(rule)),
        None => Ok(None),
    }
}

/// A budget of mids within their limits, or of a limit.
fn child_budget(rule: Rule) -> Option<Budget>
    requires { IsLimit rule }
    ensures reads { result ≡ child_budget rule }
    ensures fresh { IfSome result (λ budget. (budget ≡ fresh budget.rule) × IsSome (declared budget.rule)) }
{
    match rule {
        Rule::Compositor(mids) => Budget::compositor(mids).ok(),
        Rule::Filter(limit) => Some(Budget::filter(limit)),
        Rule::Odometer => None,
    }
}
