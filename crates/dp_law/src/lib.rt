//! What it means that a transformation is stable, and that a measurement is private, as the contracts of two traits.
//! Values of a transformation's input domain within a distance go to values of its output domain within the distance
//! that its stability map gives. On values within a distance, the numbers of draw lists that give an answer of a
//! measurement differ at most by the power of its ratio that its privacy map gives. Beside them stand the refusals of
//! constructors.
#![tactic(auto)]

mod faults;
mod measurement;
mod pieces;
mod refusals;
mod sizes;
mod transformation;

pub use faults::ReleaseFault;
pub use measurement::Measurement;
pub use pieces::{Answer, Piece};
pub use refusals::{MakeFault, Refused};
pub use sizes::{is_list_metric, list_metric};
pub use transformation::Transformation;
