ghost use Rattle.std.specs.Prelude.{◌≡◌, ℕ, ◌+◌, ◌≤◌, ◌<◌, ◌^◌, IfOk, IsSome};
ghost use Rattle.std.specs.Result.{result_err};
ghost use Rattle.dp_budget.specs.Rules.{fresh, declared};
ghost use Rattle.dp_tree.specs.Table.{IsNext, fault_in};

use crate::{FindFault, SeatFault, Tree};
use dp_budget::{Budget, Mids, Over};
use dp_count::NoMemory;
use dp_domain::{Domain, Metric};
use dp_num::{Link, Steps};
use std::alloc::Global;
use std::marker::Brand;
use std::sync::ledger::{Blank, Ledger};
use std::test::Fail;

/// What became of a query.
#[derive(Clone, Copy, Debug, PartialEq, Eq)]
enum Answer {
    Accepted,
    NotFound(FindFault),
    TooCostly(Over),
    NoSeat(SeatFault),
}

/// A tree with the root alone, on records of two columns at distance 1.
fn tree_of(alloc: Global, budget: Budget) -> Result<Tree, NoMemory>
    requires { budget ≡ fresh budget.rule }
    ensures { IfOk result (λ tree. IsNext tree 1) }
{
    Tree::new(
        alloc,
        Domain::Rows { columns: 2 },
        Metric::Symmetric,
        1,
        budget,
    )
}

/// The same, with siblings that stay open.
fn open_tree_of(alloc: Global, budget: Budget) -> Result<Tree, NoMemory>
    requires { budget ≡ fresh budget.rule }
    ensures { IfOk result (λ tree. IsNext tree 1) }
{
    Tree::new_open(
        alloc,
        Domain::Rows { columns: 2 },
        Metric::Symmetric,
        1,
        budget,
    )
}

fn find_counted<L: Ledger>(tree: &Tree, node: u64, blank: Blank) -> Result<(), FindFault>
    requires name { blank.name ≡ L.name }
    requires parts { blank.parts ≡ L.parts }
    requires counts { 0 < L.parts }
    ensures { result_err result ≡ fault_in tree.now node }
{
    let mut steps = Steps::<L>::new(blank);
    tree.find(node, &mut steps)
}

/// Whether a query may be addressed to the node.
fn find(tree: &Tree, node: u64) -> Result<(), FindFault>
    ensures { result_err result ≡ fault_in tree.now node }
{
    find_counted::<Brand>(tree, node, Blank::new(1))
}

/// Asks a query of a cost.
fn ask(tree: &mut Tree, node: u64, query: u32, cost: u64) -> Answer
    requires next { IsNext tree.old query }
    requires cost { cost ≤ 2 ^ 32 }
    ensures { IsNext tree.new (query + 1) }
{
    if let Err(fault) = find(tree, node) {
        return Answer::NotFound(fault);
    }
    match tree.ask(node, query, cost) {
        Ok(()) => Answer::Accepted,
        Err(over) => Answer::TooCostly(over),
    }
}

/// Opens a child with a filter budget.
fn open_child(
    tree: &mut Tree,
    node: u64,
    query: u32,
    distance: u64,
    mapped: u64,
    limit: u64,
) -> Result<Answer, NoMemory>
    requires next { IsNext tree.old query }
    requires near { distance ≤ 2 ^ 32 }
    requires mapped { mapped ≤ 2 ^ 32 }
    requires limit { limit ≤ 2 ^ 32 }
    ensures { IsNext tree.new (query + 1) }
{
    if let Err(fault) = find(tree, node) {
        return Ok(Answer::NotFound(fault));
    }
    if tree.reserve().is_err() {
        return Err(NoMemory);
    }
    let domain = Domain::Rows { columns: 2 };
    match tree.open(
        node,
        query,
        domain,
        Metric::Symmetric,
        distance,
        mapped,
        Budget::filter(limit),
    ) {
        Ok(()) => Ok(Answer::Accepted),
        Err(fault) => Ok(Answer::NoSeat(fault)),
    }
}

/// Opens queries 1 to `most`, each below the one before, at distance 1 and with a filter budget of 0.
fn nest(tree: &mut Tree, most: u32) -> Result<bool, NoMemory>
    requires next { IsNext tree.old 1 }
    requires few { most ≤ 100 }
    ensures { IfOk result (λ _. IsNext tree.new (most + 1)) }
{
    let mut all = true;
    for above in 0..most {
        let answer = open_child(tree, u64::from(above), above + 1, 1, 1, 0)?;
        all = all && answer == Answer::Accepted;
    }
    Ok(all)
}

/// The links of a tree in order, with a counter of their own.
fn link_counted<L: Ledger>(tree: &Tree, place: u32, blank: Blank) -> Option<Link>
    requires name { blank.name ≡ L.name }
    requires parts { blank.parts ≡ L.parts }
    requires counts { 0 < L.parts }
{
    let trail = tree.trail();
    if u64::from(place) < trail.len() {
        let mut steps = Steps::<L>::new(blank);
        return Some(trail.at(place, &mut steps));
    }
    None
}

fn link(tree: &Tree, place: u32) -> Option<Link> {
    link_counted::<Brand>(tree, place, Blank::new(1))
}

/// What a node has spent.
fn spent(tree: &Tree, node: u64) -> Option<u64> {
    match find(tree, node) {
        Ok(()) => Some(tree.spent(node)),
        Err(_) => None,
    }
}

/// What a node was given.
fn given(tree: &Tree, node: u64) -> Option<(Domain, Metric, u64)> {
    match find(tree, node) {
        Ok(()) => Some((tree.domain(node), tree.metric(node), tree.distance(node))),
        Err(_) => None,
    }
}

/// Finding a node takes at most 17 steps.
fn find_in_seventeen<L: Ledger>(
    tree: &Tree,
    node: u64,
    steps: &mut Steps<L>,
) -> Result<(), FindFault>
    ensures { steps.new ≤ steps.old + 17 }
{
    tree.find(node, steps)
}

/// Finding the root takes at most one.
fn find_root_in_one<L: Ledger>(tree: &Tree, steps: &mut Steps<L>) -> Result<(), FindFault>
    ensures { steps.new ≤ steps.old + 1 }
{
    tree.find(0, steps)
}

fn found_counted<L: Ledger>(tree: &Tree, node: u64, blank: Blank) -> bool
    requires name { blank.name ≡ L.name }
    requires parts { blank.parts ≡ L.parts }
    requires counts { 0 < L.parts }
{
    let mut steps = Steps::<L>::new(blank);
    find_root_in_one(tree, &mut steps).is_ok() && find_in_seventeen(tree, node, &mut steps).is_ok()
}

fn found(tree: &Tree, node: u64) -> bool {
    found_counted::<Brand>(tree, node, Blank::new(1))
}

#[test]
fn sixteen_nodes_are_nested_and_no_more(rt: HostRuntime) -> Result<(), Fail> {
    let mut tree = tree_of(rt.alloc(), Budget::filter(5))?;
    assert!(rt; nest(&mut tree, 16)?);
    assert!(rt; found(&tree, 16));
    let depth = Answer::NoSeat(SeatFault::Depth);
    assert_eq!(rt; open_child(&mut tree, 16, 17, 1, 1, 0)?, depth);
    assert_eq!(rt;
        ask(&mut tree, 16, 18, 1),
        Answer::TooCostly(Over { cost: 1, left: 0 })
    );
    assert_eq!(rt; spent(&tree, 0), Some(0));
    assert_eq!(rt; spent(&tree, 16), Some(0));
    assert_eq!(rt; spent(&tree, 17), None);
    let last = Link {
        parent: 14,
        last: 16,
        live: Some(16),
    };
    assert_eq!(rt; link(&tree, 15), Some(last));
    let end = Link {
        parent: 15,
        last: 0,
        live: None,
    };
    assert_eq!(rt; link(&tree, 16), Some(end));
    assert_eq!(rt; link(&tree, 17), None);
    let root = Link {
        parent: 0,
        last: 1,
        live: Some(1),
    };
    assert_eq!(rt; link(&tree, 0), Some(root));
    Ok(())
}

#[test]
fn a_filter_of_five_is_spent_by_two_queries(rt: HostRuntime) -> Result<(), Fail> {
    let mut tree = tree_of(rt.alloc(), Budget::filter(5))?;
    assert_eq!(rt; ask(&mut tree, 0, 1, 3), Answer::Accepted);
    assert_eq!(rt;
        ask(&mut tree, 0, 2, 3),
        Answer::TooCostly(Over { cost: 3, left: 2 })
    );
    assert_eq!(rt; spent(&tree, 0), Some(3));
    assert_eq!(rt; ask(&mut tree, 0, 3, 2), Answer::Accepted);
    assert_eq!(rt; spent(&tree, 0), Some(5));
    Ok(())
}

#[test]
fn a_mid_is_used_by_each_query(rt: HostRuntime) -> Result<(), Fail> {
    let alloc = rt.alloc();
    let mut mids = Vec::new(alloc);
    mids.push(2)?;
    mids.push(1)?;
    let mut tree = tree_of(alloc, Budget::compositor(Mids::from_vec(mids))?)?;
    assert_eq!(rt; ask(&mut tree, 0, 1, 1), Answer::Accepted);
    assert_eq!(rt;
        ask(&mut tree, 0, 2, 2),
        Answer::TooCostly(Over { cost: 2, left: 1 })
    );
    assert_eq!(rt; ask(&mut tree, 0, 3, 1), Answer::Accepted);
    assert_eq!(rt;
        ask(&mut tree, 0, 4, 0),
        Answer::TooCostly(Over { cost: 0, left: 0 })
    );
    assert_eq!(rt; spent(&tree, 0), Some(2));
    Ok(())
}

/// Two nested opens, and then an ask at the root, at the grandchild, at the child and at no node. The last three.
fn nested(tree: &mut Tree) -> Result<[Answer; 3], NoMemory>
    requires { IsNext tree.old 1 }
{
    let child = open_child(tree, 0, 1, 1, 1, 4)?;
    let grandchild = open_child(tree, 1, 2, 1, 1, 2)?;
    let root = ask(tree, 0, 3, 1);
    let below = [ask(tree, 2, 4, 1), ask(tree, 1, 5, 1), ask(tree, 9, 6, 1)];
    if [child, grandchild, root] == [Answer::Accepted; 3] {
        Ok(below)
    } else {
        Ok([root; 3])
    }
}

#[test]
fn a_query_at_the_root_freezes_child_and_grandchild(rt: HostRuntime) -> Result<(), Fail> {
    let mut tree = tree_of(rt.alloc(), Budget::filter(5))?;
    let frozen = Answer::NotFound(FindFault::Frozen {
        ancestor: 0,
        later: 3,
    });
    let none = Answer::NotFound(FindFault::NoNode);
    assert_eq!(rt; nested(&mut tree)?, [frozen, frozen, none]);
    assert_eq!(rt; spent(&tree, 0), Some(5));
    Ok(())
}

#[test]
fn siblings_that_stay_open_are_not_frozen(rt: HostRuntime) -> Result<(), Fail> {
    let mut tree = open_tree_of(rt.alloc(), Budget::filter(5))?;
    let none = Answer::NotFound(FindFault::NoNode);
    assert_eq!(rt;
        nested(&mut tree)?,
        [Answer::Accepted, Answer::Accepted, none]
    );
    assert_eq!(rt; spent(&tree, 0), Some(5));
    assert_eq!(rt; spent(&tree, 1), Some(3));
    Ok(())
}

#[test]
fn a_refused_open_changes_nothing(rt: HostRuntime) -> Result<(), Fail> {
    let mut tree = tree_of(rt.alloc(), Budget::odometer())?;
    assert_eq!(rt; open_child(&mut tree, 0, 1, 1, 1, 3)?, Answer::Accepted);
    let too_near = Answer::NoSeat(SeatFault::ChildDistance { mapped: 2 });
    assert_eq!(rt; open_child(&mut tree, 0, 2, 1, 2, 1)?, too_near);
    assert_eq!(rt; ask(&mut tree, 1, 3, 1), Answer::Accepted);
    assert_eq!(rt; (spent(&tree, 0), spent(&tree, 1)), (Some(3), Some(1)));
    let records = Domain::Rows { columns: 2 };
    assert_eq!(rt; given(&tree, 1), Some((records, Metric::Symmetric, 1)));
    let over = Answer::NoSeat(SeatFault::Over(Over { cost: 3, left: 2 }));
    assert_eq!(rt; open_child(&mut tree, 1, 4, 1, 1, 3)?, over);
    assert_eq!(rt;
        link(&tree, 0),
        Some(Link {
            parent: 0,
            last: 1,
            live: Some(1)
        })
    );
    assert_eq!(rt; (tree.trail().len(), spent(&tree, 1)), (2, Some(1)));
    Ok(())
}
