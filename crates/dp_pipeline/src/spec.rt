ghost use Rattle.std.specs.Prelude.{◌≡◌, ◌≤◌, true, false, map, length, IfOk, option_map};
ghost use Rattle.serde_json.specs.View.{view};
ghost use Rattle.dp_pipeline.specs.StageForms.{SpecValue, last_apart, part_in, part_of, few_parts, after_all, all_in, one_in, spec_of};

use crate::json::{FromJson, all, array, text};
use crate::stages::noise_from;
use dp_chain::{Part, ReleaseSpec};
use dp_count::NoMemory;
use dp_domain::{Duplicate, Text};
use serde_json::Value;
use std::alloc::Global;
use std::marker::Model;

/// The greatest number of parts.
const MOST_PARTS: u64 = 16;

/// The parts of a release, 1 to 16, and whether they were written as an `all`. Contracts see both.
#[derive(Debug, Drop)]
pub struct Spec {
    parts: ReleaseSpec,
    is_all: bool,
}

impl Model for Spec {
    ghost use Rattle.std.specs.Prelude.{◌≡◌, true, length};
    ghost use Rattle.dp_pipeline.specs.StageForms.{SpecValue, few_parts};

    ghost Value = { SpecValue };

    ghost view = { λ spec. record { parts = spec.parts; is_all = spec.is_all } };

    ghost invariant = { λ spec. few_parts (length spec.parts) ≡ true };
}

impl Spec {
    /// The parts in order.
    pub fn parts(&self) -> &ReleaseSpec
        ensures parts { result.now ≡ self.now.parts }
        ensures some { 1 ≤ length result.now }
        ensures few { length result.now ≤ 16 }
    {
        &self.parts
    }

    /// An equal release in memory of its own.
    pub(crate) fn copy(&self, alloc: Global) -> Result<Spec, NoMemory>
        ensures { IfOk result (λ copy. copy ≡ self.now) }
    {
        Ok(Spec {
            parts: self.parts.duplicate(alloc)?,
            is_all: self.is_all,
        })
    }

    /// Whether the parts were written as an `all`.
    pub fn is_all(&self) -> bool
        ensures { result ≡ self.now.is_all }
    {
        self.is_all
    }
}

impl FromJson for Part {
    ghost use Rattle.dp_pipeline.specs.StageForms.{part_of};

    ghost form = { part_of };

    fn from_json(alloc: Global, columns: &[Text], value: &Value) -> Result<Option<Part>, NoMemory> {
        part_from(alloc, columns, value)
    }
}

/// The part of a value, if it is an array of stages and then a noise.
#[tactic(auto, unfolding(crate::specs::StageForms::part_of))]
fn part_from(alloc: Global, columns: &[Text], value: &Value) -> Result<Option<Part>, NoMemory>
    ensures { IfOk result (λ found. found ≡ part_of columns.now (view value.now)) }
{
    match array(value) {
        Some(items) => part_among(alloc, columns, items),
        None => Ok(None),
    }
}

/// The part of stages and then a noise.
#[tactic(auto, unfolding(crate::specs::StageForms::part_in))]
fn part_among(alloc: Global, columns: &[Text], items: &[Value]) -> Result<Option<Part>, NoMemory>
    ensures { IfOk result (λ found. found ≡ part_in columns.now (map view items.now)) }
{
    let [stages @ .., last] = items else {
        return Ok(None);
    };
    let Some(stages) = all(alloc, columns, stages)? else {
        return Ok(None);
    };
    let Some(noise) = noise_from(last) else {
        return Ok(None);
    };
    Ok(Some(Part { stages, noise }))
}

/// The release of a value, if it is an `all` of 1 to 16 parts, or one part.
#[tactic(auto, unfolding(crate::specs::StageForms::spec_of))]
pub(crate) fn spec_from(
    alloc: Global,
    columns: &[Text],
    value: &Value,
) -> Result<Option<Spec>, NoMemory>
    ensures { IfOk result (λ found. found ≡ spec_of columns.now (view value.now)) }
{
    let Some(items) = array(value) else {
        return Ok(None);
    };
    match after_all(items) {
        Some(parts) => all_among(alloc, columns, parts),
        None => one_among(alloc, columns, items),
    }
}

/// The items after the text `all`, where they begin with it.
fn after_all(items: &[Value]) -> Option<&[Value]>
    ensures { option_map (λ rest. map view rest.now) result ≡ after_all (map view items.now) }
{
    let [first, rest @ ..] = items else {
        return None;
    };
    match text(first)? {
        "all" => Some(rest),
        _ => None,
    }
}

/// An `all` of 1 to 16 parts.
#[tactic(auto, unfolding(crate::specs::StageForms::all_in))]
fn all_among(alloc: Global, columns: &[Text], items: &[Value]) -> Result<Option<Spec>, NoMemory>
    ensures { IfOk result (λ found. found ≡ all_in columns.now (map view items.now)) }
{
    let Some(parts) = all(alloc, columns, items)? else {
        return Ok(None);
    };
    if !few_parts(parts.len()) {
        return Ok(None);
    }
    Ok(Some(Spec {
        parts,
        is_all: true,
    }))
}

/// Whether the number of parts is from 1 to 16.
fn few_parts(len: u64) -> bool
    ensures { result ≡ few_parts len }
{
    1 <= len && len <= MOST_PARTS
}

/// One part by itself.
#[tactic(auto, unfolding(crate::specs::StageForms::one_in))]
fn one_among(alloc: Global, columns: &[Text], items: &[Value]) -> Result<Option<Spec>, NoMemory>
    ensures { IfOk result (λ found. found ≡ one_in columns.now (map view items.now)) }
{
    let Some(part) = part_among(alloc, columns, items)? else {
        return Ok(None);
    };
    let parts = ReleaseSpec::from_vec(vec![in alloc; part]?);
    Ok(Some(Spec {
        parts,
        is_all: false,
    }))
}
