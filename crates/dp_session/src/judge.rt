ghost use Rattle.std.specs.Prelude.{◌≡◌, ◌+◌, ◌≤◌, ◌^◌, None, Some, length, IfOk, OnOk, IsSome};
ghost use Rattle.dp_budget.specs.Rules.{fresh, declared};
ghost use Rattle.dp_num.specs.Fractions.{fraction_of};
ghost use Rattle.dp_chain.specs.Lines.{line_on};
ghost use Rattle.dp_chain.specs.Releases.{release_on, cost_of};
ghost use Rattle.dp_tree.specs.History.{total};
ghost use Rattle.dp_tree.specs.Table.{IsNext, row_of, fault_in};
ghost use Rattle.dp_pipeline.specs.Accepted.{ratio_of, part_refused, cost_refused};
ghost use Rattle.dp_pipeline.specs.Queries.{query_of};
ghost use Rattle.dp_session.specs.Verdicts.{by_table, found, made_or, distance_or, ask_on, open_on, judge};
ghost use Rattle.dp_session.specs.Settling.{IsReady, MadeOr, Settles, Extends, not_made};

use crate::faults::JudgeFault;
use crate::refusal::Refusal;
use crate::task::Task;
use crate::work::Work;
use dp_budget::Budget;
use dp_chain::{CostFault, Line, Release, ReleaseSpec, Stages, cost_of};
use dp_law::{MakeFault, Measurement, Transformation};
use dp_num::{Ratio, Steps};
use dp_pipeline::{Pipeline, Place, Query, QueryFault, read_query};
use dp_tree::Tree;
use std::alloc::Global;
use std::sync::ledger::Ledger;

/// Accepts the query of a line, which has that number, or answers its refusal.
pub(crate) fn judge<L: Ledger>(
    alloc: Global,
    pipeline: &Pipeline,
    tree: &mut Tree,
    number: u32,
    line: &[u8],
    steps: &mut Steps<L>,
) -> Result<Work, JudgeFault>
    requires next { IsNext tree.old number }
    requires root { IsSome (row_of tree.old 0) }
    ensures settles { Settles result
        (judge (ratio_of pipeline.now) (by_table tree.old) number (query_of pipeline.now line.now)) }
    ensures extends { Extends result
        (judge (ratio_of pipeline.now) (by_table tree.old) number (query_of pipeline.now line.now)) tree.old tree.new }
    ensures ready { IsReady tree.new number }
    ensures siblings { tree.new.siblings_open ≡ tree.old.siblings_open }
    ensures at_most { steps.new ≤ steps.old + 17 }
    ensures none { query_of pipeline.now line.now ≡ None → steps.new ≡ steps.old }
{
    match read_query(alloc, pipeline, line) {
        Ok(Query::Ask { node, spec }) => ask(
            alloc,
            pipeline.ratio(),
            tree,
            number,
            node,
            spec.parts(),
            steps,
        ),
        Ok(
            Query::Open {
                node,
                stages,
                distance,
                budget,
            },
        ) => open_child(alloc, tree, number, node, &stages, distance, budget, steps),
        Err(QueryFault::Malformed) => Err(JudgeFault::Refused(Refusal::Malformed)),
        Err(QueryFault::NoMemory) => Err(JudgeFault::NoMemory),
    }
}

/// Asks for a release at a node.
#[tactic(auto, unfolding(crate::specs::Verdicts::ask_on))]
fn ask<L: Ledger>(
    alloc: Global,
    ratio: Ratio,
    tree: &mut Tree,
    number: u32,
    node: u64,
    spec: &ReleaseSpec,
    steps: &mut Steps<L>,
) -> Result<Work, JudgeFault>
    requires next { IsNext tree.old number }
    requires root { IsSome (row_of tree.old 0) }
    requires some { 1 ≤ length spec.now }
    requires few { length spec.now ≤ 16 }
    ensures settles { Settles result (ask_on (fraction_of ratio) (by_table tree.old) number node spec.now) }
    ensures extends { Extends result (ask_on (fraction_of ratio) (by_table tree.old) number node spec.now)
        tree.old tree.new }
    ensures ready { IsReady tree.new number }
    ensures siblings { tree.new.siblings_open ≡ tree.old.siblings_open }
    ensures at_most { steps.new ≤ steps.old + 17 }
{
    let at = match place_at(tree, node, steps) {
        Ok(at) => at,
        Err(refused) => return Err(JudgeFault::Refused(refused)),
    };
    let release = match make_release(alloc, ratio, &at, spec) {
        Ok(release) => release,
        Err(fault) => return Err(fault),
    };
    let cost = match cost_at(&release, at.distance()) {
        Ok(cost) => cost,
        Err(refused) => return Err(JudgeFault::Refused(refused)),
    };
    match tree.ask(node, number, cost) {
        Ok(()) => Ok(Work {
            node,
            cost,
            task: Task::Release(release),
        }),
        Err(over) => Err(JudgeFault::Refused(Refusal::Budget(over))),
    }
}

/// Opens a child below a node.
#[tactic(auto, unfolding(crate::specs::Verdicts::open_on))]
fn open_child<L: Ledger>(
    alloc: Global,
    tree: &mut Tree,
    number: u32,
    node: u64,
    stages: &Stages,
    distance: u64,
    budget: Budget,
    steps: &mut Steps<L>,
) -> Result<Work, JudgeFault>
    requires next { IsNext tree.old number }
    requires root { IsSome (row_of tree.old 0) }
    requires near { distance ≤ 2 ^ 32 }
    requires fresh { budget ≡ fresh budget.rule }
    requires bounded { IsSome (declared budget.rule) }
    ensures settles { Settles result (open_on (by_table tree.old) number node stages.now distance budget) }
    ensures extends { Extends result (open_on (by_table tree.old) number node stages.now distance budget)
        tree.old tree.new }
    ensures ready { IsReady tree.new number }
    ensures siblings { tree.new.siblings_open ≡ tree.old.siblings_open }
    ensures at_most { steps.new ≤ steps.old + 17 }
{
    let at = match place_at(tree, node, steps) {
        Ok(at) => at,
        Err(refused) => return Err(JudgeFault::Refused(refused)),
    };
    let line = match make_line(alloc, &at, stages) {
        Ok(line) => line,
        Err(fault) => return Err(fault),
    };
    let mapped = match distance_at(&line, at.distance()) {
        Ok(mapped) => mapped,
        Err(refused) => return Err(JudgeFault::Refused(refused)),
    };
    let total = total_of(&budget);
    // There has to be room before the tree is changed.
    if tree.reserve().is_err() {
        return Err(JudgeFault::NoMemory);
    }
    match tree.open(
        node,
        number,
        line.out_domain(),
        line.out_metric(),
        distance,
        mapped,
        budget,
    ) {
        Ok(()) => Ok(Work {
            node,
            cost: total,
            task: Task::Child(line),
        }),
        Err(fault) => Err(JudgeFault::Refused(Refusal::from(fault))),
    }
}

/// The place of a node to which a query may be addressed.
fn place_at<L: Ledger>(tree: &Tree, node: u64, steps: &mut Steps<L>) -> Result<Place, Refusal>
    ensures place { result ≡ found (by_table tree.now) node }
    ensures found { OnOk result (fault_in tree.now node ≡ None) }
    ensures at_most { steps.new ≤ steps.old + 17 }
{
    match tree.find(node, steps) {
        Ok(()) => Ok(Place::new(tree.domain(node), tree.metric(node), tree.distance(node))),
        Err(fault) => Err(Refusal::from(fault)),
    }
}

/// The release of a spec at a place.
pub(crate) fn make_release(
    alloc: Global,
    ratio: Ratio,
    at: &Place,
    spec: &ReleaseSpec,
) -> Result<Release, JudgeFault>
    requires some { 1 ≤ length spec.now }
    requires few { length spec.now ≤ 16 }
    ensures made { MadeOr ⟦<Release as Measurement>⟧.mechanism result
        (made_or part_refused (release_on (fraction_of ratio) spec.now at.now.domain at.now.metric)) }
    ensures nothing_at_0 { IfOk result (λ release. let m = ⟦<Release as Measurement>⟧.mechanism release in
        m.privacy_map 0 ≡ Some 0) }
    ensures few_pieces { IfOk result (λ release. let m = ⟦<Release as Measurement>⟧.mechanism release in
        m.pieces ≤ 16) }
{
    match Release::make(alloc, at.domain(), at.metric(), ratio, spec) {
        Ok(release) => Ok(release),
        Err(fault) => Err(not_made(fault)),
    }
}

/// The line of stages at a place.
fn make_line(alloc: Global, at: &Place, stages: &Stages) -> Result<Line, JudgeFault>
    ensures { MadeOr ⟦<Line as Transformation>⟧.mapping result
        (made_or part_refused (line_on stages.now at.now.domain at.now.metric)) }
{
    match Line::make(alloc, at.domain(), at.metric(), stages) {
        Ok(line) => Ok(line),
        Err(fault) => Err(not_made(fault)),
    }
}

/// The refusal of a part that is not made.
pub(crate) fn not_made(fault: MakeFault) -> JudgeFault
    ensures { result ≡ not_made fault }
{
    match fault {
        MakeFault::Kind => JudgeFault::Refused(Refusal::Construction(1)),
        MakeFault::Metric => JudgeFault::Refused(Refusal::Construction(2)),
        MakeFault::Bound => JudgeFault::Refused(Refusal::Construction(3)),
        MakeFault::NoMemory => JudgeFault::NoMemory,
    }
}

/// What a measurement costs on values within a distance.
pub(crate) fn cost_at<M: Measurement>(measurement: &M, distance: u64) -> Result<u64, Refusal>
    requires { distance ≤ 2 ^ 32 }
    ensures cost { result ≡ made_or cost_refused (cost_of (M.mechanism measurement.now) distance) }
    ensures range { IfOk result (λ cost. cost ≤ 2 ^ 32) }
{
    match cost_of(measurement, distance) {
        Ok(cost) => Ok(cost),
        Err(CostFault::Distance) => Err(Refusal::Construction(4)),
        Err(CostFault::Draws) => Err(Refusal::Construction(5)),
    }
}

/// The distance that a line makes of a distance.
fn distance_at(line: &Line, distance: u64) -> Result<u64, Refusal>
    requires { distance ≤ 2 ^ 32 }
    ensures mapped { let m = ⟦<Line as Transformation>⟧.mapping line.now in
        result ≡ distance_or (m.stability_map distance) }
    ensures range { IfOk result (λ mapped. mapped ≤ 2 ^ 32) }
{
    match line.map(distance) {
        Ok(mapped) => Ok(mapped),
        Err(_) => Err(Refusal::Construction(4)),
    }
}

/// All that a child's budget may spend.
fn total_of(budget: &Budget) -> u64
    requires { IsSome (declared budget.now.rule) }
    ensures { result ≡ total budget.now.rule }
{
    let Some(total) = budget.declared() else {
        unreachable!()
    };
    total
}
