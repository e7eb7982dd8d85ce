use dp_budget::Over;

/// Why no query may be addressed to a node.
#[derive(Clone, Copy, Debug, PartialEq, Eq)]
pub enum FindFault {
    /// There is no node of that number.
    NoNode,
    /// A query that came after the node was opened was accepted above it: `ancestor` is the nearest node to which one
    /// was addressed, and `later` the last query there.
    Frozen { ancestor: u32, later: u32 },
}

/// Why no child may be opened at a node.
#[derive(Clone, Copy, Debug, PartialEq, Eq)]
pub enum SeatFault {
    /// The node is at depth 16.
    Depth,
    /// The child's distance is below the one that its line makes of the node's, `mapped`.
    ChildDistance { mapped: u64 },
    /// The most that the child may spend is over the node's budget.
    Over(Over),
}
