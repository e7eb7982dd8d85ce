//! Joined parts. A transformation before another, a transformation before a measurement, and two measurements on one
//! input are parts again, for any parts, by their laws alone.
#![tactic(auto)]

mod any_measurement;
mod any_transformation;
mod both;
mod chain;
mod faults;
mod input;
pub mod laws;
mod line;
mod measured;
mod noise;
mod release;
mod stage;

pub use any_measurement::AnyMeasurement;
pub use any_transformation::AnyTransformation;
pub use both::Both;
pub use chain::Chain;
pub use faults::{CostFault, JoinFault};
pub use input::Input;
pub use line::Line;
pub use measured::Measured;
pub use noise::{Noise, Part, ReleaseSpec};
pub use release::{MeasuredLine, Release, cost_of};
pub use stage::{Stage, Stages};

#[cfg(test)]
mod tests;
