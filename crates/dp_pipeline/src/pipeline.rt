ghost use Rattle.std.specs.Prelude.{◌≡◌, IfErr, ◌≤◌, ◌^◌, ◌<◌, IfSome, length, option_map, true};
ghost use Rattle.dp_count.specs.Results.{on_ok};
ghost use Rattle.dp_domain.specs.Domains.{Fits};
ghost use Rattle.dp_domain.specs.Users.{user_metric};
ghost use Rattle.dp_num.specs.Fractions.{fraction_of};
ghost use Rattle.dp_pipeline.specs.Accepted.{accepted, plans_made, root_place, is_in_range, IsBounded, IsLimit, is_rule, ratio_of, siblings_open};
ghost use Rattle.dp_pipeline.specs.Answers.{Answers, IsNumbered};
ghost use Rattle.dp_pipeline.specs.Queries.{plan_named, HasCost};
ghost use Rattle.dp_pipeline.specs.StageForms.{place_of};

use crate::content::{Content, Siblings};
use crate::costs::make_plans;
use crate::faults::PipelineFault;
use crate::json::parse;
use crate::place::Place;
use crate::plan::{Plans, plan_named};
use crate::ranges::is_in_range;
use crate::reading::content_from;
use crate::root::RootSpec;
use crate::spec::Spec;
use crate::stages::place_of;
use dp_domain::{Domain, Metric, Texts};
use dp_num::Ratio;
use std::alloc::Global;
use std::marker::Model;

/// The greatest number of bytes of a pipeline's text.
const MOST_BYTES: usize = 1_048_576;

/// An accepted pipeline. Contracts see what its text says.
#[derive(Debug, Drop)]
pub struct Pipeline {
    content: Content,
    ratio: Ratio,
}

impl Model for Pipeline {
    ghost use Rattle.dp_pipeline.specs.declared.content.Content.{Content};
    ghost use Rattle.dp_num.specs.Fractions.{fraction_of};
    ghost use Rattle.dp_pipeline.specs.Accepted.{IsAccepted};

    ghost Value = { Content };

    ghost view = { λ pipeline. pipeline.content };

    ghost invariant = { λ pipeline. IsAccepted pipeline.content (fraction_of pipeline.ratio) };
}

/// The pipeline that a text spells.
///
/// A text is refused with the first number of this list that applies: 9 where it has more than 2^20 bytes, 6 where it
/// is no JSON text in UTF-8 nested at most 127 deep, 7 where it is not of a pipeline's form, 8 where a number or a name
/// is out of its range, and 1 to 5 where a plan is refused, the first in the order of the names' bytes.
#[tactic(auto, unfolding(crate::specs::Accepted::accepted))]
pub fn read_pipeline(alloc: Global, bytes: &[u8]) -> Result<Pipeline, PipelineFault>
    ensures answers { Answers (λ pipeline. pipeline) result (accepted bytes.now) }
    ensures number { IfErr result IsNumbered }
{
    if bytes.len() > MOST_BYTES {
        return Err(PipelineFault::Refused(9));
    }
    let Some(value) = parse(alloc, bytes)? else {
        return Err(PipelineFault::Refused(6));
    };
    let Some(content) = content_from(alloc, &value)? else {
        return Err(PipelineFault::Refused(7));
    };
    if !is_in_range(&content) {
        return Err(PipelineFault::Refused(8));
    }
    make_pipeline(alloc, content)
}

/// The pipeline of what a text says, if no plan is refused.
#[tactic(auto, using(crate::proofs::InRange::ratio_in))]
fn make_pipeline(alloc: Global, content: Content) -> Result<Pipeline, PipelineFault>
    requires in_range { is_in_range content ≡ true }
    requires bounded { IsBounded content }
    ensures answers { Answers (λ pipeline. pipeline) result (on_ok (λ made. content)
        (plans_made (ratio_of content) (root_place content) content.plans)) }
    ensures number { IfErr result IsNumbered }
{
    let Ok(ratio) = Ratio::new(content.p, content.q) else {
        unreachable!()
    };
    let at = root_place(&content);
    match make_plans(alloc, ratio, &at, content.plans.as_slice()) {
        Ok(()) => Ok(Pipeline { content, ratio }),
        Err(fault) => Err(fault),
    }
}

/// Where the plans are made.
#[tactic(auto, using(crate::proofs::InRange::columns_few))]
fn root_place(content: &Content) -> Place
    requires in_range { is_in_range content.now ≡ true }
    requires bounded { IsBounded content.now }
    ensures { result ≡ root_place content.now }
{
    let domain = Domain::Rows {
        columns: content.columns.len() as u32,
    };
    Place::new(domain, user_metric(content.user), content.distance)
}

/// The metric of records: by the persons of a column, or by the records themselves.
fn user_metric(user: Option<u32>) -> Metric
    ensures { result ≡ user_metric user }
{
    match user {
        Some(column) => Metric::Users(column),
        None => Metric::Symmetric,
    }
}

impl Pipeline {
    /// The names of the columns, 1 to 64.
    #[tactic(auto, using(crate::proofs::InRange::columns_few))]
    pub fn columns(&self) -> &Texts
        ensures columns { result.now ≡ self.now.columns }
        ensures some { 1 ≤ length result.now }
        ensures few { length result.now ≤ 64 }
    {
        &self.content.columns
    }

    /// Whether the first record of a data text is left out.
    pub fn header(&self) -> bool
        ensures { result ≡ self.now.header }
    {
        self.content.header
    }

    /// The ratio of a unit of loss.
    pub fn ratio(&self) -> Ratio
        ensures { fraction_of result ≡ ratio_of self.now }
    {
        self.ratio
    }

    /// Within which distance two data texts are kept apart by no more than the units spent; at most 2^32.
    pub fn distance(&self) -> u64
        ensures distance { result ≡ self.now.distance }
        ensures range { result ≤ 2 ^ 32 }
    {
        self.content.distance
    }

    /// The budget of the root: mids and limits are within their ranges.
    #[tactic(auto, using(crate::proofs::InRange::root_rule))]
    pub fn root(&self) -> &RootSpec
        ensures root { result.now ≡ self.now.root }
        ensures range { is_rule result.now ≡ true }
        ensures limit { IsLimit result.now }
    {
        &self.content.root
    }

    /// The releases by name, in the order of the names' bytes.
    pub fn plans(&self) -> &Plans
        ensures { result.now ≡ self.now.plans }
    {
        &self.content.plans
    }

    /// The release of the plan of that name, if there is one. It is made at the root, and has a cost there.
    pub fn plan(&self, name: &[u8]) -> Option<&Spec>
        ensures spec { option_map (λ spec. spec.now) result ≡ plan_named self.now.plans name.now }
        ensures cost { IfSome result (λ spec. HasCost self.now spec.now) }
    {
        plan_named(self.content.plans.as_slice(), name)
    }

    /// The column of that name, from 0, if there is one.
    #[tactic(auto, using(crate::proofs::InRange::columns_few))]
    pub fn column(&self, name: &[u8]) -> Option<u32>
        ensures column { result ≡ place_of self.now.columns name.now }
        ensures range { IfSome result (λ column. column < length self.now.columns) }
    {
        match place_of(self.content.columns.as_slice(), name) {
            Some(place) => Some(place as u32),
            None => None,
        }
    }

    /// The column that names persons, if there is one. The distance of data texts then counts persons.
    pub fn user(&self) -> Option<u32>
        ensures user { result ≡ self.now.user }
        ensures range { IfSome result (λ column. column < length self.now.columns) }
    {
        self.content.user
    }

    /// What version 2 says of siblings, and nothing in version 1.
    pub fn siblings(&self) -> Option<Siblings>
        ensures { result ≡ self.now.siblings }
    {
        self.content.siblings
    }

    /// The records' domain, metric and distance: where the plans are made.
    pub fn place(&self) -> Place
        ensures { result ≡ root_place self.now }
    {
        root_place(&self.content)
    }

    /// Whether queries at a node leave open what is below it: exactly in version 2 with open siblings.
    pub fn siblings_open(&self) -> bool
        ensures { result ≡ siblings_open self.now }
    {
        self.content.siblings == Some(Siblings::Open)
    }
}
