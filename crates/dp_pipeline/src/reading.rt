ghost use Rattle.std.specs.Prelude.{◌≡◌, ◌≤◌, ◌^◌, ◌<◌, IfOk, IfSome, length, map, codes};
ghost use Rattle.std.specs.List.{list_all, list_any};
ghost use Rattle.std.specs.Str.{bytes_eq};
ghost use Rattle.serde_json.specs.Find.{as_bool};
ghost use Rattle.serde_json.specs.View.{view, members_view};
ghost use Rattle.dp_pipeline.specs.Json.{member_at, members_of, list_of, text_of, count_of};
ghost use Rattle.dp_pipeline.specs.Accepted.{IsBounded, IsLimit};
ghost use Rattle.dp_pipeline.specs.RootForms.{rule_of};
ghost use Rattle.dp_pipeline.specs.StageForms.{spec_of};
ghost use Rattle.dp_pipeline.specs.Contents.{member_by, two_of, pair_of, plans_at, plans_in, user_at, siblings_at, siblings_by, siblings_of, has_only, member_names, content_of};

use crate::content::{Content, Siblings};
use crate::json::{count, list, member, text, text_from};
use crate::plan::{Plan, Plans};
use crate::root::{RootSpec, rule_from};
use crate::spec::spec_from;
use crate::stages::column_named;
use dp_count::NoMemory;
use dp_domain::{Items, Text, Texts};
use serde_json::{Map, Value};
use std::alloc::Global;

/// The names that a pipeline's members may have.
const MEMBER_NAMES: [&str; 9] = [
    "version", "columns", "header", "ratio", "distance", "root", "plans", "user", "siblings",
];

/// What a pipeline's text says, if it is of the form.
#[tactic(auto, unfolding(crate::specs::Contents::content_of))]
pub(crate) fn content_from(alloc: Global, value: &Value) -> Result<Option<Content>, NoMemory>
    ensures reads { IfOk result (λ found. found ≡ content_of (view value.now)) }
    ensures bounded { IfOk result (λ found. IfSome found IsBounded) }
{
    let Some(version) = count_at(value, "version") else {
        return Ok(None);
    };
    let Some(columns) = columns_at(alloc, value)? else {
        return Ok(None);
    };
    let Some(header) = bool_at(value, "header") else {
        return Ok(None);
    };
    let Some((p, q)) = pair_at(alloc, value, "ratio")? else {
        return Ok(None);
    };
    let Some(distance) = count_at(value, "distance") else {
        return Ok(None);
    };
    let Some(root) = rule_at(alloc, value, "root")? else {
        return Ok(None);
    };
    let Some(plans) = plans_at(alloc, columns.as_slice(), value)? else {
        return Ok(None);
    };
    let Some(user) = user_at(columns.as_slice(), value)? else {
        return Ok(None);
    };
    let Some(siblings) = siblings_at(version, value) else {
        return Ok(None);
    };
    if !has_members(value) {
        return Ok(None);
    }
    Ok(Some(Content {
        version,
        columns,
        header,
        p,
        q,
        distance,
        root,
        plans,
        user,
        siblings,
    }))
}

/// The count that the member of that name is.
pub(crate) fn count_at(value: &Value, name: &str) -> Option<u64>
    ensures reads { result ≡ member_by count_of name.now (view value.now) }
    ensures within { IfSome result (λ number. number ≤ 2 ^ 32) }
{
    count(member(value, name)?)
}

/// The names of the columns.
fn columns_at(alloc: Global, value: &Value) -> Result<Option<Texts>, NoMemory>
    ensures { IfOk result (λ found. found ≡ member_by (list_of text_of) (codes "columns") (view value.now)) }
{
    let Some(columns) = member(value, "columns") else {
        return Ok(None);
    };
    list(alloc, &[], columns)
}

/// Whether the member of that name is true.
fn bool_at(value: &Value, name: &str) -> Option<bool>
    ensures { result ≡ member_by as_bool name.now (view value.now) }
{
    member(value, name)?.as_bool()
}

/// The two counts that the member of that name is.
#[tactic(auto, unfolding(crate::specs::Contents::pair_of))]
fn pair_at(alloc: Global, value: &Value, name: &str) -> Result<Option<(u64, u64)>, NoMemory>
    ensures { IfOk result (λ found. found ≡ member_by pair_of name.now (view value.now)) }
{
    let Some(pair) = member(value, name) else {
        return Ok(None);
    };
    let Some(numbers) = list(alloc, &[], pair)? else {
        return Ok(None);
    };
    Ok(two(numbers.as_slice()))
}

/// Two numbers, if there are exactly two.
fn two(numbers: &[u64]) -> Option<(u64, u64)>
    ensures { result ≡ two_of numbers.now }
{
    let [first, second] = numbers else {
        return None;
    };
    Some((*first, *second))
}

/// The budget that the member of that name is.
fn rule_at(alloc: Global, value: &Value, name: &str) -> Result<Option<RootSpec>, NoMemory>
    ensures reads { IfOk result (λ found. found ≡ member_by rule_of name.now (view value.now)) }
    ensures limit { IfOk result (λ found. IfSome found IsLimit) }
{
    match member(value, name) {
        Some(rule) => rule_from(alloc, rule),
        None => Ok(None),
    }
}

/// The plans, none where there is no such member.
#[tactic(auto, unfolding(crate::specs::Json::object_of))]
fn plans_at(alloc: Global, columns: &[Text], value: &Value) -> Result<Option<Plans>, NoMemory>
    ensures { IfOk result (λ found. found ≡ plans_at columns.now (member_at (codes "plans") (view value.now))) }
{
    let Some(plans) = member(value, "plans") else {
        return Ok(Some(Plans::new(alloc)));
    };
    let Some(members) = plans.as_object() else {
        return Ok(None);
    };
    plans_among(alloc, columns, members)
}

/// The plans of the members, if each is of a release's form.
#[tactic(auto, unfolding(crate::specs::Contents::plans_in))]
fn plans_among(
    alloc: Global,
    columns: &[Text],
    members: &Map<String, Value>,
) -> Result<Option<Plans>, NoMemory>
    ensures { IfOk result (λ found. found ≡ plans_in columns.now (members_of (members_view members.now.entries))) }
{
    let mut plans = Vec::new(alloc);
    for (name, value) in members.iter() {
        let Some(spec) = spec_from(alloc, columns, value)? else {
            return Ok(None);
        };
        let name = text_from(alloc, name.as_str())?;
        plans.push(Plan { name, spec })?;
    }
    Ok(Some(Plans::from_vec(plans)))
}

/// The column of persons, if one is named.
fn user_at(columns: &[Text], value: &Value) -> Result<Option<Option<u32>>, NoMemory>
    ensures reads { IfOk result (λ found. found ≡ user_at columns.now (member_at (codes "user") (view value.now))) }
    ensures range { IfOk result (λ found. IfSome found (λ user.
        IfSome user (λ column. column < length columns.now))) }
{
    let Some(user) = member(value, "user") else {
        return Ok(Some(None));
    };
    match column_named(columns, user)? {
        Some(column) => Ok(Some(Some(column))),
        None => Ok(None),
    }
}

/// What is said of siblings: version 2 has to, and no other may.
fn siblings_at(version: u64, value: &Value) -> Option<Option<Siblings>>
    ensures { result ≡ siblings_at version (member_at (codes "siblings") (view value.now)) }
{
    match (member(value, "siblings"), version) {
        (None, 2) => None,
        (None, _) => Some(None),
        (Some(siblings), 2) => Some(Some(siblings_named(siblings)?)),
        (Some(_), _) => None,
    }
}

/// Whether siblings stay open, as the value says.
#[tactic(auto, unfolding(crate::specs::Contents::siblings_of))]
fn siblings_named(siblings: &Value) -> Option<Siblings>
    ensures { result ≡ siblings_of (view siblings.now) }
{
    match text(siblings)? {
        "open" => Some(Siblings::Open),
        "frozen" => Some(Siblings::Frozen),
        _ => None,
    }
}

/// Whether an object has members of a pipeline's names alone.
fn has_members(value: &Value) -> bool
    ensures { result ≡ has_only member_names (view value.now) }
{
    has_only(value, &MEMBER_NAMES)
}

/// Whether the members of an object have these names alone.
#[tactic(auto, unfolding(crate::specs::Contents::has_only, crate::specs::Json::object_of))]
pub(crate) fn has_only(value: &Value, names: &[&str]) -> bool
    ensures { result ≡ has_only (map (λ name. name.now) names.now) (view value.now) }
{
    match value.as_object() {
        Some(members) => are_named(members, names),
        None => true,
    }
}

/// Whether all members have these names.
fn are_named(members: &Map<String, Value>, names: &[&str]) -> bool
    ensures { result ≡ list_all (λ named. list_any (bytes_eq named.0) (map (λ name. name.now) names.now))
        (members_of (members_view members.now.entries)) }
{
    for (name, _) in members.iter() {
        if !is_among(name.as_str(), names) {
            return false;
        }
    }
    true
}

/// Whether the name is among these.
fn is_among(name: &str, names: &[&str]) -> bool
    ensures { result ≡ list_any (bytes_eq name.now) (map (λ name. name.now) names.now) }
{
    is_known(name, names)
}

/// Whether one of the names is the name.
fn is_known(name: &str, names: &[&str]) -> bool
    ensures { result ≡ list_any (λ known. bytes_eq name.now known.now) names.now }
{
    names.iter().any(|known| is_name(name, known))
}

/// Whether the two are one name.
fn is_name(name: &str, known: &str) -> bool
    ensures { result ≡ bytes_eq name.now known.now }
{
    name == known
}
