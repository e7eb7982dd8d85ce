//! Budgets of units: mids that are used one after the other, a limit on the sum, or the sum alone. A budget admits a
//! cost or refuses it, and keeps what it has spent.
#![tactic(auto)]

mod budget;
mod over;

pub use budget::{Budget, Mids, Rule, are_mids};
pub use over::Over;

#[cfg(test)]
mod tests;
