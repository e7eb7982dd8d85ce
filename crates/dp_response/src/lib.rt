//! Randomised response (Warner 1965) on a category: the true value more often than each other one, from one whole draw.
//! How many draws give each answer is known exactly, and on two values the numbers of an answer differ by a factor of
//! at most (q / p)^u.
#![tactic(auto)]

pub mod laws;
mod response;

pub use response::Response;
