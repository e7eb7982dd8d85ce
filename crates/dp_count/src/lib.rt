//! What every crate stands on: the two shared faults, what it means that a count of faults rose, the list type
//! whose contracts see a list, the reader of decimal digits, the numbers up to a limit, the shape of draw lists, and
//! the laws of the number of draw lists that meet a test.
#![tactic(auto)]

mod digits;
mod faults;
mod items;
pub mod laws;
mod limits;
mod shape;

pub use digits::{decimal, short_decimal, signed_decimal, with_sign, without_sign};
pub use faults::{Failed, NoMemory};
pub use items::Items;
pub use limits::at_most;
pub use shape::Shape;
