use dp_budget::Budget;
use dp_domain::{Domain, Metric};

/// What a tree keeps of a node beside its number and its link.
#[derive(Debug, Drop)]
pub(crate) struct NodeState {
    /// How many nodes are above it, at most 16.
    pub(crate) depth: u32,
    /// The domain of its value.
    pub(crate) domain: Domain,
    /// The metric of its value.
    pub(crate) metric: Metric,
    /// The distance of its value, at most 2^32.
    pub(crate) distance: u64,
    /// What its queries may cost.
    pub(crate) budget: Budget,
}
