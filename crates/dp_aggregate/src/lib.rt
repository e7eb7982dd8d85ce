//! Aggregates: transformations of whole lists, or of one number. Each has its function, its stability map and its
//! refusals as the definitions in `specs/` say, and is stable.
#![tactic(auto)]

mod at_least;
mod count;
mod histogram;
pub mod laws;
mod quantise;
mod resize;
mod sum;

pub use at_least::AtLeast;
pub use count::Count;
pub use histogram::Histogram;
pub use quantise::Quantise;
pub use resize::Resize;
pub use sum::Sum;

#[cfg(test)]
mod tests;
