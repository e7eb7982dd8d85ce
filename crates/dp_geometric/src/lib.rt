//! Truncated geometric noise on a whole number: the geometric mechanism of Ghosh, Roughgarden and Sundararajan (2009)
//! over a finite range, from whole draws alone. How many draw lists give an answer is known exactly, and for values
//! that are at most e apart the two numbers of an answer differ by a factor of at most (high / low)^e.
#![tactic(auto)]

mod cell;
mod geometric;
pub mod laws;
mod runs;
#[cfg(test)]
mod small;

pub use cell::Cell;
pub use geometric::Geometric;
