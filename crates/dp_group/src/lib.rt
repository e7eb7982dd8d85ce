//! Parallel composition over categories. A measurement of each group of records is private at the loss of one group,
//! since a record is in one group at most.
#![tactic(auto)]

mod grouped;
mod groups;
mod input;
pub mod laws;

pub use grouped::{Grouped, release_each};
pub use input::ReleaseInput;

#[cfg(test)]
mod tests;
