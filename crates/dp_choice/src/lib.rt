//! Weighted choice among the cells of a vector: the exponential mechanism of McSherry and Talwar (2007) with whole
//! numbers alone. A cell's weight grows with its score by the ratio high / low, rounded down, and each cell has its
//! share of the draws, rounded down. How many draws choose a cell is known exactly.
#![tactic(auto)]

mod choice;
pub mod laws;
mod weights;

pub use choice::Choice;
