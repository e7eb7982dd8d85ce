ghost use Rattle.std.specs.Prelude.{◌≡◌, [], ◌+◌, ◌<◌, ◌≤◌, ◌^◌, length, slice_get, slice_index_or};
ghost use Rattle.std.specs.Prelude.{Some, None, IfOk, OnOk, OnErr};

use crate::{Reserved, Steps};
use dp_count::NoMemory;
use std::alloc::Global;
use std::marker::Model;
use std::sync::ledger::Ledger;

/// What a node of a tree is linked to. A place is a node's, in the order in which the nodes were made, from 0.
#[derive(Clone, Copy, Debug, PartialEq, Eq)]
pub struct Link {
    /// The place of the node's parent. That of the root is 0, its own place.
    pub parent: u32,
    /// The number of the last query at the node, or 0.
    pub last: u32,
    /// The place of the node's live child, if it has one.
    pub live: Option<u32>,
}

/// A list of links, in which each link that is read counts as one step. It takes memory in `reserve`
/// alone. Contracts see its links, and its spare: for how many more there is room.
#[derive(Debug, Drop)]
pub struct Trail {
    links: Reserved<Link>,
}

impl Model for Trail {
    ghost use Rattle.dp_num.specs.Trail.{TrailValue};

    ghost Value = { TrailValue };

    ghost view = { λ t. record { links = t.links.items; spare = t.links.spare } };
}

impl Trail {
    ghost use Rattle.dp_num.specs.Trail.{pushed, PutsLast};

    /// The empty trail with no room, which takes no memory.
    pub fn new(alloc: Global) -> Trail
        ensures { result ≡ record { links = []; spare = 0 } }
    {
        Trail {
            links: Reserved::new(alloc),
        }
    }

    /// How many links there are.
    pub fn len(&self) -> u64
        ensures { result ≡ length self.now.links }
    {
        self.links.len()
    }

    /// Makes room for at least one more link. The links stay, also after `NoMemory`.
    pub fn reserve(&mut self) -> Result<(), NoMemory>
        ensures room { OnOk result (1 ≤ self.new.spare) }
        ensures kept { self.old.spare ≤ self.new.spare }
        ensures links { self.new.links ≡ self.old.links }
        ensures unchanged { OnErr result (self.new ≡ self.old) }
    {
        self.links.reserve()
    }

    /// Appends a link, for which there is room. It uses one of the spare and takes no memory.
    pub fn push(&mut self, link: Link)
        requires room { 1 ≤ self.old.spare }
        requires few { length self.old.links < 2 ^ 32 }
        ensures { self.new ≡ pushed self.old link }
    {
        self.links.push(link);
    }

    /// Writes the last query and the live child of the link at a place. Its parent stays.
    pub fn put(&mut self, place: u32, last: u32, live: Option<u32>)
        requires { place < length self.old.links }
        ensures put { PutsLast self.old place last live self.new }
        ensures as_many { length self.new.links ≡ length self.old.links }
    {
        let link = self.links.at_mut(u64::from(place));
        link.last = last;
        link.live = live;
    }

    /// The link at a place. It counts one step, and no other call gives a link.
    pub fn at<L: Ledger>(&self, place: u32, steps: &mut Steps<L>) -> Link
        requires { place < length self.now.links }
        ensures link { slice_get self.now.links place ≡ Some result }
        ensures value { result ≡ slice_index_or self.now.links place result }
        ensures one_step { steps.new ≡ steps.old + 1 }
    {
        steps.tick();
        *self.links.at(u64::from(place))
    }
}

#[cfg(test)]
mod tests {
    use super::*;
    use std::marker::Brand;
    use std::sync::ledger::Blank;
    use std::test::Fail;

    /// A link with no query yet.
    fn below(parent: u32) -> Link
        ensures { result ≡ record { parent = parent; last = 0; live = None } }
    {
        Link {
            parent,
            last: 0,
            live: None,
        }
    }

    /// The trail of a root with one child.
    fn trail_of_two(alloc: Global) -> Result<Trail, NoMemory>
        ensures { IfOk result (λ trail. length trail.links ≡ 2) }
    {
        let mut trail = Trail::new(alloc);
        trail.reserve()?;
        trail.push(below(0));
        trail.reserve()?;
        trail.push(below(0));
        Ok(trail)
    }

    /// The first two links.
    fn first_two<L: Ledger>(trail: &Trail, steps: &mut Steps<L>) -> (Link, Link)
        requires { 2 ≤ length trail.now.links }
        ensures two_steps { steps.new ≡ steps.old + 2 }
        ensures first { slice_get trail.now.links 0 ≡ Some result.0 }
        ensures second { slice_get trail.now.links 1 ≡ Some result.1 }
    {
        let first = trail.at(0, steps);
        let second = trail.at(1, steps);
        (first, second)
    }

    /// The first two links, with a counter of its own.
    fn read_two<L: Ledger>(trail: &Trail, blank: Blank) -> (Link, Link)
        requires two { 2 ≤ length trail.now.links }
        requires name { blank.name ≡ L.name }
        requires parts { blank.parts ≡ L.parts }
        requires counts { 0 < L.parts }
        ensures first { slice_get trail.now.links 0 ≡ Some result.0 }
        ensures second { slice_get trail.now.links 1 ≡ Some result.1 }
    {
        let mut steps = Steps::<L>::new(blank);
        first_two(trail, &mut steps)
    }

    #[test]
    fn links_are_pushed_in_order_and_keep_their_parent(rt: HostRuntime) -> Result<(), Fail> {
        let mut trail = trail_of_two(rt.alloc())?;
        assert_eq!(rt; trail.len(), 2);
        trail.put(1, 9, Some(1));
        trail.put(0, 7, None);
        let (first, second) = read_two::<Brand>(&trail, Blank::new(1));
        assert_eq!(rt; (first.parent, first.last, first.live), (0, 7, None));
        assert_eq!(rt; (second.parent, second.last, second.live), (0, 9, Some(1)));
        Ok(())
    }
}
