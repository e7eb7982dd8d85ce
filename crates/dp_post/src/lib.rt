//! Changes of answers after their release. A measurement whose answers are changed is private at the same loss, since
//! what is done to an answer alone can't tell more than the answer.
#![tactic(auto)]

mod cells;
pub mod laws;
mod post;
mod posted;

pub use post::{Post, Posts, changed_answer};
pub use posted::Posted;

#[cfg(test)]
mod tests;
