//! Row-by-row transformations: each gives for every element of a list at most one element, and so is stable at the
//! distance itself. Besides, `Truncate`, which keeps few records of each person, and so goes from persons to records.
#![tactic(auto)]

mod bins;
mod cast;
mod categories;
mod clamp;
mod drop_none;
mod filter;
mod impute;
mod lists;
mod persons;
mod select;
mod table;
mod truncate;

pub use bins::Bins;
pub use cast::Cast;
pub use categories::Categories;
pub use clamp::Clamp;
pub use drop_none::DropNone;
pub use filter::Filter;
pub use impute::Impute;
pub use lists::{empty_lists, put};
pub use persons::{Records, kept_places};
pub use select::Select;
pub use truncate::Truncate;

#[cfg(test)]
mod tests;
