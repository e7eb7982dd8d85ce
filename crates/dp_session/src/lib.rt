//! Runs of queries on one pipeline. Each line is accepted or has its refusal, by the lines before it alone, and its
//! line is written with what it cost and what is spent; a last line tells how many queries there were. An account does
//! so without data; a session answers the queries on records.
#![tactic(auto)]

mod account;
mod answer;
mod end_line;
mod faults;
mod judge;
pub mod laws;
mod queries;
mod refusal;
mod serving;
mod session;
mod single;
mod task;
mod text;
mod values;
mod work;

pub use account::Account;
pub use faults::{AccountFault, EndFault, SessionFault};
pub use refusal::Refusal;
pub use session::Session;
pub use single::{group_text, post_text};

#[cfg(test)]
mod tests;
