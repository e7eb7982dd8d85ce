ghost use Rattle.std.specs.Prelude.{◌≡◌, ◌+◌, ◌≤◌, ◌<◌, ◌^◌, [], true, false, None};
ghost use Rattle.std.specs.Prelude.{IfSome, IfOk, IsSome, OnOk, OnErr, length};
ghost use Rattle.std.specs.Result.{result_err};
ghost use Rattle.dp_domain.specs.Domains.{Fits};
ghost use Rattle.dp_budget.specs.Rules.{fresh, declared};

use crate::charge::charge;
use crate::places::place;
use crate::states::NodeState;
use crate::walk::nearest_frozen;
use crate::{FindFault, SeatFault};
use dp_budget::{Budget, Over};
use dp_count::NoMemory;
use dp_domain::{Domain, Metric};
use dp_num::{Link, Reserved, Steps, Trail};
use std::alloc::Global;
use std::marker::Model;
use std::sync::ledger::Ledger;

/// The greatest depth of a node.
const MOST_DEPTH: u32 = 16;

/// Nodes below a root, each with a domain, a metric, a distance and a budget. Contracts see a table with a row for
/// each node, for how many more nodes there is room, and whether a query leaves the nodes below open.
#[derive(Debug, Drop)]
pub struct Tree {
    numbers: Reserved<u32>,
    trail: Trail,
    states: Reserved<NodeState>,
    siblings_open: bool,
}

impl Model for Tree {
    ghost use Rattle.std.specs.Prelude.{min};
    ghost use Rattle.dp_tree.specs.Table.{TreeValue};

    ghost Value = { TreeValue };

    ghost use Rattle.dp_tree.specs.Lists.{rows_from, HoldTree};

    ghost view = { λ t.
        record {
          rows = rows_from t.numbers.items t.trail.links t.states.items;
          spare = min t.numbers.spare (min t.trail.spare t.states.spare);
          siblings_open = t.siblings_open;
        } };

    ghost invariant = { λ t. HoldTree t.numbers.items t.trail.links t.states.items };
}

impl Tree {
    ghost use Rattle.dp_tree.specs.History.{Ask, Open, given};
    ghost use Rattle.dp_tree.specs.Table.{Row, row_of, fault_in, over_in, seat_fault_in, asked, opened};
    ghost use Rattle.dp_tree.specs.Table.{root_rows, numbers, place_of, IsNext};
    ghost use Rattle.dp_tree.specs.Standing.{Stands, StandsIfOk, StandsStill, FindsBy, AsksBy, OpensBy};
    ghost use Rattle.dp_tree.specs.Lists.{IsTrailOf, IsStateOf};

    /// A tree with the root alone, in which a query freezes the nodes below. The root is given its domain, its metric,
    /// its distance, at most 2^32, and its budget, of which nothing is spent.
    pub fn new(
        alloc: Global,
        domain: Domain,
        metric: Metric,
        distance: u64,
        budget: Budget,
    ) -> Result<Tree, NoMemory>
        requires fits { Fits domain }
        requires near { distance ≤ 2 ^ 32 }
        requires fresh { budget ≡ fresh budget.rule }
        ensures rows { IfOk result (λ tree. tree.rows ≡ root_rows (given domain metric distance budget)) }
        ensures siblings { IfOk result (λ tree. tree.siblings_open ≡ false) }
        ensures stands { IfOk result (λ tree. Stands (given domain metric distance budget) [] tree) }
    {
        Tree::with_root(alloc, domain, metric, distance, budget, false)
    }

    /// A tree with the root alone, in which a query leaves the nodes below open. The arguments are those of `new`.
    pub fn new_open(
        alloc: Global,
        domain: Domain,
        metric: Metric,
        distance: u64,
        budget: Budget,
    ) -> Result<Tree, NoMemory>
        requires fits { Fits domain }
        requires near { distance ≤ 2 ^ 32 }
        requires fresh { budget ≡ fresh budget.rule }
        ensures rows { IfOk result (λ tree. tree.rows ≡ root_rows (given domain metric distance budget)) }
        ensures siblings { IfOk result (λ tree. tree.siblings_open ≡ true) }
        ensures stands { IfOk result (λ tree. Stands (given domain metric distance budget) [] tree) }
    {
        Tree::with_root(alloc, domain, metric, distance, budget, true)
    }

    /// Makes room for at least one more node, in each list. The nodes stay, also after `NoMemory`.
    pub fn reserve(&mut self) -> Result<(), NoMemory>
        ensures room { OnOk result (1 ≤ self.new.spare) }
        ensures kept { self.old.spare ≤ self.new.spare }
        ensures rows { self.new.rows ≡ self.old.rows }
        ensures siblings { self.new.siblings_open ≡ self.old.siblings_open }
        ensures stands { StandsStill self.old self.new }
    {
        self.numbers.reserve()?;
        self.trail.reserve()?;
        self.states.reserve()?;
        Ok(())
    }

    /// Whether a query may be addressed to a node. `NoNode` comes exactly where no node has the number. `Frozen` comes
    /// exactly where the tree is one of `new` and an accepted query with a number greater than the node's was addressed
    /// to a node above it: `ancestor` is the nearest such node, and `later` the last query there. It takes at most
    /// one step for each node on the way to the root, the node and the root with them.
    pub fn find<L: Ledger>(&self, node: u64, steps: &mut Steps<L>) -> Result<(), FindFault>
        ensures told { result_err result ≡ fault_in self.now node }
        ensures verdict { FindsBy self.now node (result_err result) }
        ensures few { IfSome (row_of self.now node) (λ row. steps.new ≤ steps.old + (row.depth + 1)) }
        ensures root { node ≡ 0 → steps.new ≤ steps.old + 1 }
        ensures at_most { steps.new ≤ steps.old + 17 }
    {
        let Some(at) = place(self.numbers.as_slice(), node) else {
            return Err(FindFault::NoNode);
        };
        if self.siblings_open {
            return Ok(());
        }
        let depth = self.states.at(u64::from(at)).depth;
        nearest_frozen(self.numbers.as_slice(), &self.trail, node, depth, at, steps)
    }

    /// Asks a query of a cost, at most 2^32, of a node that `find` finds. The query's number is greater than those of
    /// all accepted before. `Over` comes exactly by the node's budget, and then nothing changed. After `Ok` the cost is
    /// charged to the node alone, and the node has no live child.
    pub fn ask(&mut self, node: u64, query: u32, cost: u64) -> Result<(), Over>
        requires found { fault_in self.old node ≡ None }
        requires next { IsNext self.old query }
        requires cost { cost ≤ 2 ^ 32 }
        ensures refused { result_err result ≡ over_in self.old node cost }
        ensures verdict { AsksBy self.old node cost (result_err result) }
        ensures admitted { OnOk result (self.new ≡ asked self.old node query cost) }
        ensures kept { OnErr result (self.new ≡ self.old) }
        ensures stands { StandsIfOk result self.old (Ask query node cost) self.new }
    {
        let at = self.place(node);
        if let Err(over) = charge(&mut self.states, at, cost) {
            return Err(over);
        }
        self.trail.put(at, query, None);
        Ok(())
    }

    /// Opens a child below a node that `find` finds. The query's number is greater than those of all accepted before,
    /// there is room, the budget is no odometer and nothing of it is spent. The child is given its domain, its metric
    /// and its distance; `mapped` is the distance that its line makes of the node's; both distances are at most 2^32.
    /// The refusals come in this order: `Depth` exactly where the node is at depth 16, `ChildDistance` exactly where
    /// the child's distance is below `mapped`, `Over` exactly by the node's budget, to which the most that the child
    /// may spend is charged. After a refusal nothing changed. After `Ok` the query's number is a node and the node's
    /// one live child.
    pub fn open(
        &mut self,
        node: u64,
        query: u32,
        domain: Domain,
        metric: Metric,
        distance: u64,
        mapped: u64,
        budget: Budget,
    ) -> Result<(), SeatFault>
        requires found { fault_in self.old node ≡ None }
        requires next { IsNext self.old query }
        requires room { 1 ≤ self.old.spare }
        requires fits { Fits domain }
        requires near { distance ≤ 2 ^ 32 }
        requires mapped { mapped ≤ 2 ^ 32 }
        requires fresh { budget ≡ fresh budget.rule }
        requires bounded { IsSome (declared budget.rule) }
        ensures refused { result_err result ≡ seat_fault_in self.old node distance mapped budget.rule }
        ensures verdict { OpensBy self.old node distance mapped budget.rule (result_err result) }
        ensures opened { OnOk result (self.new ≡ opened self.old node query (given domain metric distance budget)) }
        ensures kept { OnErr result (self.new ≡ self.old) }
        ensures stands { StandsIfOk result self.old (Open query node (given domain metric distance budget) mapped)
            self.new }
    {
        let at = self.place(node);
        let depth = self.states.at(u64::from(at)).depth;
        if depth == MOST_DEPTH {
            return Err(SeatFault::Depth);
        }
        if distance < mapped {
            return Err(SeatFault::ChildDistance { mapped });
        }
        let Some(total) = budget.declared() else {
            unreachable!()
        };
        if let Err(over) = charge(&mut self.states, at, total) {
            return Err(SeatFault::Over(over));
        }
        let child = self.numbers.len() as u32;
        self.trail.put(at, query, Some(child));
        self.numbers.push(query);
        self.trail.push(Link {
            parent: at,
            last: 0,
            live: None,
        });
        self.states.push(NodeState {
            depth: depth + 1,
            domain,
            metric,
            distance,
            budget,
        });
        Ok(())
    }

    /// What the node's queries have spent, in units, at most 2^32.
    pub fn spent(&self, node: u64) -> u64
        requires { IsSome (row_of self.now node) }
        ensures { IfSome (row_of self.now node) (λ row. result ≡ row.budget.spent) }
    {
        self.state(node).budget.spent()
    }

    /// The domain of the node's value.
    pub fn domain(&self, node: u64) -> Domain
        requires { IsSome (row_of self.now node) }
        ensures row { IfSome (row_of self.now node) (λ row. result ≡ row.domain) }
        ensures fits { Fits result }
    {
        self.state(node).domain
    }

    /// The metric of the node's value.
    pub fn metric(&self, node: u64) -> Metric
        requires { IsSome (row_of self.now node) }
        ensures { IfSome (row_of self.now node) (λ row. result ≡ row.metric) }
    {
        self.state(node).metric
    }

    /// The distance of the node's value, at most 2^32.
    pub fn distance(&self, node: u64) -> u64
        requires { IsSome (row_of self.now node) }
        ensures row { IfSome (row_of self.now node) (λ row. result ≡ row.distance) }
        ensures range { result ≤ 2 ^ 32 }
    {
        self.state(node).distance
    }

    /// The links of the nodes, in the order of their numbers: the place of the parent, 0 for the root; the number of
    /// the last accepted query at the node, or 0; and in a tree of `new` the place of the node that this query opened,
    /// if it opened one.
    pub fn trail(&self) -> &Trail
        ensures { IsTrailOf self.now result.now.links }
    {
        &self.trail
    }

    /// A tree with the root alone.
    fn with_root(
        alloc: Global,
        domain: Domain,
        metric: Metric,
        distance: u64,
        budget: Budget,
        siblings_open: bool,
    ) -> Result<Tree, NoMemory>
        requires fits { Fits domain }
        requires near { distance ≤ 2 ^ 32 }
        requires fresh { budget ≡ fresh budget.rule }
        ensures rows { IfOk result (λ tree. tree.rows ≡ root_rows (given domain metric distance budget)) }
        ensures siblings { IfOk result (λ tree. tree.siblings_open ≡ siblings_open) }
    {
        let mut numbers = Reserved::new(alloc);
        let mut trail = Trail::new(alloc);
        let mut states = Reserved::new(alloc);
        numbers.reserve()?;
        trail.reserve()?;
        states.reserve()?;
        numbers.push(0);
        trail.push(Link {
            parent: 0,
            last: 0,
            live: None,
        });
        states.push(NodeState {
            depth: 0,
            domain,
            metric,
            distance,
            budget,
        });
        Ok(Tree {
            numbers,
            trail,
            states,
            siblings_open,
        })
    }

    /// The place of a node.
    fn place(&self, node: u64) -> u32
        requires { IsSome (row_of self.now node) }
        ensures place { result ≡ place_of (numbers self.now.rows) node }
        ensures within { result < length self.now.rows }
    {
        let Some(at) = place(self.numbers.as_slice(), node) else {
            unreachable!()
        };
        at
    }

    /// What is kept of a node.
    fn state(&self, node: u64) -> &NodeState
        requires { IsSome (row_of self.now node) }
        ensures row { IfSome (row_of self.now node) (λ row. IsStateOf row result.now) }
        ensures fits { Fits result.now.domain }
        ensures near { result.now.distance ≤ 2 ^ 32 }
    {
        let at = self.place(node);
        self.states.at(u64::from(at))
    }
}
