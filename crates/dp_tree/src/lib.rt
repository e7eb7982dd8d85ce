//! Nodes over one set of records, each with a domain, a metric, a distance and a budget: who may be asked, what is
//! left, and which nodes a later query froze. Each answer is the verdict of the accepted queries so far, and after an
//! accepted query the tree stands at the longer list. Finding a node reads at most 17 links.
#![tactic(auto)]

mod charge;
mod faults;
pub mod laws;
mod places;
mod states;
mod tree;
mod walk;

pub use faults::{FindFault, SeatFault};
pub use places::place;
pub use tree::Tree;

#[cfg(test)]
mod tests;
