//! Records in one store, and selections of them by their numbers, which are shared. Filtering and truncating a
//! selection give the numbers of the records that they would keep; no record is copied. What a line gives of a
//! selection is the line's function on its records; the stages that give at most one element for each are one pass.
#![tactic(auto)]

mod chosen;
mod element;
mod groups;
mod held;
mod lines;
mod listing;
mod pass;
mod selection;
mod store;

pub use held::Held;
pub use selection::Selection;
pub use store::{Store, read_store, store_of};

#[cfg(test)]
mod tests;
