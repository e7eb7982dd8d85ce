//! Values, the domains that they lie in, and the metrics between them. Whether a domain has a value is decided exactly,
//! a copy is equal to its original, and the laws of the distance between two lists in any order are proved once for
//! every type of elements.
#![tactic(auto)]

mod domains;
mod duplicate;
mod edges;
pub mod laws;
mod lists;
mod metrics;
mod ranges;
mod values;

pub use domains::{Domain, MOST_LISTED, few_and_one};
pub use duplicate::Duplicate;
pub use edges::{are_edges, edges_at_most};
pub use lists::{Cats, Cells, Ints, Items, OptInts, Record, Rows, Text, Texts};
pub use metrics::Metric;
pub use ranges::{
    ITEM_LIMIT, MOST_WIDTH, NUMBER_LIMIT, clamped, is_item_range, is_narrow, is_narrow_range,
    is_number_range,
};
pub use values::Value;

#[cfg(test)]
mod tests;
