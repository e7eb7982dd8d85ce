ghost use Rattle.std.specs.Prelude.{◌≡◌, ◌≤◌, ◌<◌, ◌^◌, ℕ, List, map, length, true, Some, string_bytes, IfOk};
ghost use Rattle.std.specs.List.{All};
ghost use Rattle.dp_count.specs.Results.{on_ok};
ghost use Rattle.dp_domain.specs.declared.domains.Domain.TheVariants as domain;
ghost use Rattle.dp_domain.specs.declared.values.Value.TheVariants as value;
ghost use Rattle.dp_law.specs.declared.pieces.Piece.{Piece};
ghost use Rattle.dp_law.specs.Releasing.{Released, ReleaseCause};
ghost use Rattle.dp_group.specs.Grouped.{groups_of, TakesColumn, grouped_on};
ghost use Rattle.dp_post.specs.Posts.{posted};
ghost use Rattle.dp_rowwise.specs.Parts.{category_texts};
ghost use Rattle.dp_pipeline.specs.Accepted.{root_domain, part_refused};
ghost use Rattle.dp_store.specs.declared.held.Held.TheVariants as held;
ghost use Rattle.dp_session.specs.Serving.{Suits};
ghost use Rattle.dp_session.specs.Sessions.{Drawing, MakesText, DrawCause};
ghost use Rattle.dp_session.specs.Settling.{MadeOr};
ghost use Rattle.dp_session.specs.Singles.{plan_release, admitted_on, plan_verdict, post_verdict, group_verdict};
ghost use Rattle.dp_session.specs.Singles.{answer_lines, refusal_lines, single_slot};
ghost use Rattle.dp_session.specs.Verdicts.{made_or};

use crate::end_line::end_line;
use crate::faults::{JudgeFault, SessionFault};
use crate::judge::{cost_at, make_release, not_made};
use crate::queries::root_budget;
use crate::refusal::Refusal;
use crate::serving::{NodeValue, answered_text};
use crate::text::{accepted_line, refused_line};
use dp_chain::Release;
use dp_count::NoMemory;
use dp_domain::Texts;
use dp_draws::Draws;
use dp_group::{Grouped, ReleaseInput, release_each};
use dp_law::{Answer, Measurement, ReleaseFault};
use dp_pipeline::Pipeline;
use dp_post::{Post, changed_answer};
use dp_rowwise::Categories;
use dp_store::{Held, Selection, Store};
use std::alloc::Global;

/// An accepted release, and what it costs.
#[derive(Drop)]
struct Single<M: Measurement> {
    measurement: M,
    cost: u64,
}

/// One release of a plan on the records of a store, whose answer is changed by the changes from first to last before it
/// is written: the line of its answer or of its refusal, and the last line. It begins a budget of the pipeline's root.
///
/// It is refused as malformed exactly where there is no plan of that name, and else only over the budget. The draws of
/// a refused release are none. `DrawFault` comes exactly where the source fails in taking the draws. `Ended` and
/// `WriteFault` do not come.
pub fn post_text<D: Draws>(
    alloc: Global,
    pipeline: &Pipeline,
    store: &Store,
    plan: &[u8],
    posts: &[Post],
    draws: &mut D,
) -> Result<String, SessionFault>
    requires { store.now.columns ≡ length pipeline.now.columns }
    ensures text { MakesText string_bytes result
        record { step = D.step; before = D.state draws.old; after = D.state draws.new }
        (single_slot (post_verdict pipeline.now plan.now posts.now) (value.Rows store.now.records)) }
    ensures cause { DrawCause result (D.faults draws.old) (D.faults draws.new) }
{
    match plan_single(alloc, pipeline, plan) {
        Ok(single) => {
            let released = release_whole(alloc, store, &single.measurement, draws);
            released_lines(alloc, changed(posts, released), single.cost)
        }
        Err(JudgeFault::Refused(refused)) => Ok(refusal_lines(alloc, &refused)?),
        Err(JudgeFault::NoMemory) => Err(SessionFault::NoMemory),
    }
}

/// One release of a plan on the records of each text in a column of a store, in the order of the texts: the line of its
/// answer or of its refusal, and the last line. It begins a budget of the pipeline's root. Records of no text are in no
/// group. The records are gone through once to find their groups.
///
/// The refusals come in the order of their numbers: malformed exactly where there is no plan or no column of that name;
/// construction 2 where a column names persons, 3 where there are not 1 to 1,023 texts or two are equal, 4 where the
/// loss passes 2^32, 5 where there are more than 2^20 draws; and over the budget. The faults come as those of
/// `post_text` do.
pub fn group_text<D: Draws>(
    alloc: Global,
    pipeline: &Pipeline,
    store: &Store,
    plan: &[u8],
    column: &[u8],
    texts: Texts,
    draws: &mut D,
) -> Result<String, SessionFault>
    requires { store.now.columns ≡ length pipeline.now.columns }
    ensures text { MakesText string_bytes result
        record { step = D.step; before = D.state draws.old; after = D.state draws.new }
        (single_slot (group_verdict pipeline.now plan.now column.now texts) (value.Rows store.now.records)) }
    ensures cause { DrawCause result (D.faults draws.old) (D.faults draws.new) }
{
    match group_single(alloc, pipeline, plan, column, texts) {
        Ok(single) => {
            let released = release_groups(alloc, store, &single.measurement, draws);
            released_lines(alloc, released, single.cost)
        }
        Err(JudgeFault::Refused(refused)) => Ok(refusal_lines(alloc, &refused)?),
        Err(JudgeFault::NoMemory) => Err(SessionFault::NoMemory),
    }
}

/// The release of a plan, if it is accepted.
#[tactic(auto, unfolding(crate::specs::Singles::plan_verdict))]
fn plan_single(
    alloc: Global,
    pipeline: &Pipeline,
    plan: &[u8],
) -> Result<Single<Release>, JudgeFault>
    ensures single { MadeOr
        (λ single. record {
          measurement = ⟦<Release as Measurement>⟧.mechanism single.measurement;
          cost = single.cost;
        })
        result (plan_verdict pipeline.now plan.now) }
    ensures domain { IfOk result (λ single. let m = ⟦<Release as Measurement>⟧.mechanism single.measurement in
        m.input_domain ≡ root_domain pipeline.now) }
{
    match plan_release(alloc, pipeline, plan) {
        Ok(release) => admit(alloc, pipeline, release),
        Err(fault) => Err(fault),
    }
}

/// The release of a plan on the group of each text in a column, if it is accepted.
#[tactic(auto, unfolding(crate::specs::Singles::group_verdict))]
fn group_single(
    alloc: Global,
    pipeline: &Pipeline,
    plan: &[u8],
    column: &[u8],
    texts: Texts,
) -> Result<Single<Grouped<Release>>, JudgeFault>
    ensures single { MadeOr
        (λ single. record {
          measurement = ⟦<Grouped<Release> as Measurement>⟧.mechanism single.measurement;
          cost = single.cost;
        })
        result (group_verdict pipeline.now plan.now column.now texts) }
    ensures domain { IfOk result (λ single.
        let m = ⟦<Grouped<Release> as Measurement>⟧.mechanism single.measurement in
        m.input_domain ≡ root_domain pipeline.now) }
{
    let Some(column) = pipeline.column(column) else {
        return Err(JudgeFault::Refused(Refusal::Malformed));
    };
    let release = match plan_release(alloc, pipeline, plan) {
        Ok(release) => release,
        Err(fault) => return Err(fault),
    };
    match make_groups(alloc, release, column, texts) {
        Ok(groups) => admit(alloc, pipeline, groups),
        Err(fault) => Err(fault),
    }
}

/// The release of a plan on the pipeline's records. It is private, costs nothing at the distance 0, and is small.
#[tactic(auto, unfolding(crate::specs::Singles::plan_release))]
fn plan_release(alloc: Global, pipeline: &Pipeline, plan: &[u8]) -> Result<Release, JudgeFault>
    ensures release { MadeOr ⟦<Release as Measurement>⟧.mechanism result (plan_release pipeline.now plan.now) }
    ensures domain { IfOk result (λ release. let m = ⟦<Release as Measurement>⟧.mechanism release in
        m.input_domain ≡ root_domain pipeline.now) }
    ensures nothing_at_0 { IfOk result (λ release. let m = ⟦<Release as Measurement>⟧.mechanism release in
        m.privacy_map 0 ≡ Some 0) }
    ensures few_draws { IfOk result (λ release. let m = ⟦<Release as Measurement>⟧.mechanism release in
        length m.shape ≤ 2 ^ 20) }
    ensures few_pieces { IfOk result (λ release. let m = ⟦<Release as Measurement>⟧.mechanism release in
        m.pieces ≤ 2 ^ 20) }
{
    let Some(spec) = pipeline.plan(plan) else {
        return Err(JudgeFault::Refused(Refusal::Malformed));
    };
    make_release(alloc, pipeline.ratio(), &pipeline.place(), spec.parts())
}

/// The release on the group of each text in a column.
fn make_groups(
    alloc: Global,
    release: Release,
    column: u32,
    texts: Texts,
) -> Result<Grouped<Release>, JudgeFault>
    requires nothing_at_0 { let m = ⟦<Release as Measurement>⟧.mechanism release in m.privacy_map 0 ≡ Some 0 }
    requires few_draws { let m = ⟦<Release as Measurement>⟧.mechanism release in length m.shape ≤ 2 ^ 20 }
    requires few_pieces { let m = ⟦<Release as Measurement>⟧.mechanism release in m.pieces ≤ 2 ^ 20 }
    ensures { MadeOr ⟦<Grouped<Release> as Measurement>⟧.mechanism result
        (made_or part_refused (grouped_on column texts (⟦<Release as Measurement>⟧.mechanism release))) }
{
    match Grouped::new(alloc, release, column, texts) {
        Ok(groups) => Ok(groups),
        Err(fault) => Err(not_made(fault)),
    }
}

/// A measurement that has a cost at the pipeline's distance, if a budget of the root of which nothing is spent admits
/// it.
#[tactic(auto, unfolding(crate::specs::Singles::admitted_on))]
fn admit<M: Measurement + Drop>(
    alloc: Global,
    pipeline: &Pipeline,
    measurement: M,
) -> Result<Single<M>, JudgeFault>
    ensures single { MadeOr
        (λ single. record { measurement = M.mechanism single.measurement; cost = single.cost })
        result (admitted_on pipeline.now (M.mechanism measurement)) }
    ensures same { IfOk result (λ single. single.measurement ≡ measurement) }
{
    let cost = match cost_at(&measurement, pipeline.distance()) {
        Ok(cost) => cost,
        Err(refused) => return Err(JudgeFault::Refused(refused)),
    };
    let Ok(mut budget) = root_budget(alloc, pipeline.root()) else {
        return Err(JudgeFault::NoMemory);
    };
    match budget.admit(cost) {
        Ok(()) => Ok(Single { measurement, cost }),
        Err(over) => Err(JudgeFault::Refused(Refusal::Budget(over))),
    }
}

/// A release on all records of a store.
fn release_whole<D: Draws>(
    alloc: Global,
    store: &Store,
    release: &Release,
    draws: &mut D,
) -> Result<Answer, ReleaseFault>
    requires { let m = ⟦<Release as Measurement>⟧.mechanism release.now in
        m.input_domain ≡ domain.Rows store.now.columns }
    ensures released { let m = ⟦<Release as Measurement>⟧.mechanism release.now in
        Released D.step m.shape (m.function (value.Rows store.now.records))
        (D.state draws.old) result (D.state draws.new) }
    ensures cause { ReleaseCause (D.faults draws.old) (D.faults draws.new) result }
{
    let Ok(whole) = store.whole(alloc) else {
        return Err(ReleaseFault::NoMemory);
    };
    let _domain = store.domain();
    let held = Held::Chosen(whole);
    release.release_from(alloc, &NodeValue { store, held: &held }, draws)
}

/// A group of a store's records, as it is held.
#[derive(Drop)]
struct Group<'a> {
    store: &'a Store,
    held: Held,
}

impl ReleaseInput<Release> for Group<'_> {
    ghost use Rattle.dp_store.specs.Held.{held_value};
    ghost use Rattle.dp_session.specs.Serving.{Suits};

    ghost stands_for = { λ group. held_value group.store.now.records group.held };

    ghost takes = { λ group domain. Suits group.store.now group.held domain };

    fn released<D: Draws>(
        &self,
        alloc: Global,
        measurement: &Release,
        draws: &mut D,
    ) -> Result<Answer, ReleaseFault> {
        let at = NodeValue {
            store: self.store,
            held: &self.held,
        };
        measurement.release_from(alloc, &at, draws)
    }

    ghost has_value = { λ group domain suits. suits.has };
}

/// A release on the groups of a store's records.
fn release_groups<D: Draws>(
    alloc: Global,
    store: &Store,
    groups: &Grouped<Release>,
    draws: &mut D,
) -> Result<Answer, ReleaseFault>
    requires { let m = ⟦<Grouped<Release> as Measurement>⟧.mechanism groups.now in
        m.input_domain ≡ domain.Rows store.now.columns }
    ensures released { let m = ⟦<Grouped<Release> as Measurement>⟧.mechanism groups.now in
        Released D.step m.shape (m.function (value.Rows store.now.records))
        (D.state draws.old) result (D.state draws.new) }
    ensures cause { ReleaseCause (D.faults draws.old) (D.faults draws.new) result }
{
    let (release, column, texts) = groups.parts();
    let Ok(values) = groups_of(alloc, store, column, texts) else {
        return Err(ReleaseFault::NoMemory);
    };
    release_each(alloc, release, values.as_slice(), draws)
}

/// The groups of the texts in a column, in the order of the texts.
fn groups_of<'a>(
    alloc: Global,
    store: &'a Store,
    column: u32,
    texts: &Categories,
) -> Result<Vec<Group<'a>>, NoMemory>
    requires column { column < store.now.columns }
    ensures values { IfOk result (λ groups. map ⟦<Group<'a> as ReleaseInput<Release>>⟧.stands_for groups.items
        ≡ groups_of column (category_texts texts.now) (value.Rows store.now.records)) }
    ensures suit { IfOk result (λ groups.
        All (λ group. Suits store.now group.held (domain.Rows store.now.columns)) groups.items) }
    ensures store { IfOk result (λ groups. All (λ group. group.store.now ≡ store.now) groups.items) }
{
    let whole = store.whole(alloc)?;
    let chosen = store.groups(alloc, &whole, column, texts)?;
    let _domain = store.domain();
    held_groups(alloc, store, chosen)
}

/// The groups of selections of a store's records.
fn held_groups<'a>(
    alloc: Global,
    store: &'a Store,
    chosen: Vec<Selection>,
) -> Result<Vec<Group<'a>>, NoMemory>
    ensures { IfOk result (λ groups. groups.items
        ≡ map (λ selection. record { store = store.entry; held = held.Chosen selection }) chosen.items) }
{
    let groups = chosen.into_iter().map(|selection| Group {
        store,
        held: Held::Chosen(selection),
    });
    Ok(groups.collect(alloc)?)
}

/// What was released, with its answer changed.
fn changed(posts: &[Post], released: Result<Answer, ReleaseFault>) -> Result<Answer, ReleaseFault>
    ensures { result ≡ on_ok (posted posts.now) released }
{
    match released {
        Ok(answer) => Ok(changed_answer(posts, answer)),
        Err(fault) => Err(fault),
    }
}

/// The lines of what was released, or why nothing was.
fn released_lines(
    alloc: Global,
    released: Result<Answer, ReleaseFault>,
    cost: u64,
) -> Result<String, SessionFault>
    ensures text { (source : Drawing) (shape : List ℕ) (function : List ℕ → List Piece)
        → Released source.step shape function source.before released source.after
        → MakesText string_bytes result source
        record { shape = shape; out = λ draws. answer_lines (function draws) cost } }
    ensures cause { (before now : ℕ) → ReleaseCause before now released → DrawCause result before now }
{
    match released {
        Ok(answer) => Ok(answer_lines(alloc, &answer, cost)?),
        Err(ReleaseFault::DrawFault) => Err(SessionFault::DrawFault),
        Err(ReleaseFault::NoMemory) => Err(SessionFault::NoMemory),
    }
}

/// The line of an answer, by its cost, and the last line.
fn answer_lines(alloc: Global, answer: &Answer, cost: u64) -> Result<String, NoMemory>
    ensures { IfOk result (λ lines. string_bytes lines ≡ answer_lines answer.now cost) }
{
    let done = answered_text(alloc, answer)?;
    let mut lines = accepted_line(alloc, 1, done.as_str(), cost, cost)?;
    lines.push_str(end_line(1, cost).as_str())?;
    Ok(lines)
}

/// The line of a refusal, and the last line.
fn refusal_lines(alloc: Global, refused: &Refusal) -> Result<String, NoMemory>
    ensures { IfOk result (λ lines. string_bytes lines ≡ refusal_lines refused.now) }
{
    let mut lines = refused_line(alloc, 1, refused)?;
    lines.push_str(end_line(1, 0).as_str())?;
    Ok(lines)
}
