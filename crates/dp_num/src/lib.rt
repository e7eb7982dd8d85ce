//! Numbers of a pipeline: the ratio and its powers, units of loss with their greatest number, divisions that round up
//! and down, a counter of steps, lists that take their memory ahead, and the links of a tree's nodes, of which each
//! that is read counts as a step.
#![tactic(auto)]

mod faults;
mod ratio;
mod reserved;
mod steps;
mod trail;
mod units;

pub use faults::{Bound, Past};
pub use ratio::Ratio;
pub use reserved::Reserved;
pub use steps::Steps;
pub use trail::{Link, Trail};
pub use units::{MOST_UNITS, add_units, ceil_div, floor_div, mul_units};
