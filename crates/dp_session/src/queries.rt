ghost use Rattle.std.specs.Prelude.{◌≡◌, ◌+◌, ◌≤◌, ◌<◌, ◌^◌, [], ◌∷◌, List, ℕ, true, None, IfOk, OnOk};
ghost use Rattle.dp_budget.specs.Rules.{fresh, are_mids};
ghost use Rattle.dp_budget.specs.declared.budget.Rule.TheVariants as rule;
ghost use Rattle.dp_tree.specs.Table.{root_rows};
ghost use Rattle.dp_pipeline.specs.Accepted.{siblings_open, is_rule, IsLimit};
ghost use Rattle.dp_pipeline.specs.Queries.{query_of};
ghost use Rattle.dp_session.specs.Verdicts.{verdict, root_seat, root_spent};
ghost use Rattle.dp_session.specs.Settling.{StandAt, Settles, IfSettled};

use crate::faults::JudgeFault;
use crate::judge::judge;
use crate::work::Work;
use dp_budget::{Budget, Mids, Rule};
use dp_count::NoMemory;
use dp_num::Steps;
use dp_pipeline::{Pipeline, RootSpec};
use dp_tree::Tree;
use std::alloc::Global;
use std::marker::Model;
use std::sync::ledger::Ledger;

/// The queries of a pipeline that were answered so far: who may be asked, and what is spent.
#[derive(Drop)]
pub(crate) struct Queries {
    pipeline: Pipeline,
    tree: Tree,
    answered: u32,
}

impl Model for Queries {
    ghost use Rattle.dp_session.specs.Settling.{QueriesValue, IsReady};

    ghost Value = { QueriesValue };

    ghost view = { λ q. record { pipeline = q.pipeline; tree = q.tree; answered = q.answered } };

    ghost invariant = { λ q. IsReady q.tree q.answered };
}

impl Queries {
    /// No queries yet.
    pub(crate) fn new(alloc: Global, pipeline: Pipeline) -> Result<Queries, NoMemory>
        ensures pipeline { IfOk result (λ queries. queries.pipeline ≡ pipeline) }
        ensures stands { IfOk result (λ queries. StandAt queries []) }
    {
        let tree = root_tree(alloc, &pipeline)?;
        Ok(Queries {
            pipeline,
            tree,
            answered: 0,
        })
    }

    /// Accepts the query of a line, or answers its refusal. After want of memory the queries stand at no lines. It takes
    /// at most one step for each node on the way to the root.
    pub(crate) fn settle<L: Ledger>(
        &mut self,
        alloc: Global,
        line: &[u8],
        steps: &mut Steps<L>,
    ) -> Result<Work, JudgeFault>
        requires { self.old.answered < 2 ^ 20 }
        ensures settles { (past : List (List ℕ)) → StandAt self.old past
            → Settles result (verdict self.old.pipeline past line.now) }
        ensures stands { (past : List (List ℕ)) → StandAt self.old past
            → IfSettled result (StandAt self.new (line.now ∷ past)) }
        ensures same { self.new.pipeline ≡ self.old.pipeline }
        ensures counted { self.new.answered ≡ self.old.answered + 1 }
        ensures at_most { steps.new ≤ steps.old + 17 }
        ensures none { query_of self.old.pipeline line.now ≡ None → steps.new ≡ steps.old }
    {
        self.answered += 1;
        judge(
            alloc,
            &self.pipeline,
            &mut self.tree,
            self.answered,
            line,
            steps,
        )
    }

    /// The pipeline.
    pub(crate) fn pipeline(&self) -> &Pipeline
        ensures { result.now ≡ self.now.pipeline }
    {
        &self.pipeline
    }

    /// How many queries were answered.
    pub(crate) fn answered(&self) -> u32
        ensures { result ≡ self.now.answered }
    {
        self.answered
    }

    /// What the root has spent, in units.
    pub(crate) fn spent(&self) -> u64
        ensures { (past : List (List ℕ)) → StandAt self.now past → result ≡ root_spent self.now.pipeline past }
    {
        self.tree.spent(0)
    }
}

/// The tree of a pipeline's root alone.
fn root_tree(alloc: Global, pipeline: &Pipeline) -> Result<Tree, NoMemory>
    ensures rows { IfOk result (λ tree. tree.rows ≡ root_rows (root_seat pipeline.now)) }
    ensures siblings { IfOk result (λ tree. tree.siblings_open ≡ siblings_open pipeline.now) }
{
    let budget = root_budget(alloc, pipeline.root())?;
    let at = pipeline.place();
    if pipeline.siblings_open() {
        Tree::new_open(alloc, at.domain(), at.metric(), at.distance(), budget)
    } else {
        Tree::new(alloc, at.domain(), at.metric(), at.distance(), budget)
    }
}

/// A budget of a pipeline's rule, of which nothing is spent.
pub(crate) fn root_budget(alloc: Global, root: &RootSpec) -> Result<Budget, NoMemory>
    requires range { is_rule root.now ≡ true }
    requires limit { IsLimit root.now }
    ensures { IfOk result (λ budget. budget ≡ fresh root.now) }
{
    match root {
        Rule::Compositor(mids) => compositor(alloc, mids),
        Rule::Filter(limit) => Ok(Budget::filter(*limit)),
        Rule::Odometer => Ok(Budget::odometer()),
    }
}

/// A budget of a copy of the mids.
fn compositor(alloc: Global, mids: &Mids) -> Result<Budget, NoMemory>
    requires { are_mids mids.now ≡ true }
    ensures { IfOk result (λ budget. budget ≡ fresh (rule.Compositor mids.now)) }
{
    let copy = Vec::from_slice(alloc, mids.as_slice())?;
    let Ok(budget) = Budget::compositor(Mids::from_vec(copy)) else {
        unreachable!()
    };
    Ok(budget)
}
