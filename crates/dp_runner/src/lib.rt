//! The runner: all that the program `dp` does, as one call over a shelf of files, a draw source and two outputs.
#![tactic(auto)]

mod account;
mod answerer;
mod answering;
mod check;
mod count;
mod form;
mod group;
pub mod laws;
mod pipelines;
mod post;
mod release;
mod run;
mod sample;
mod sessions;
mod stop;
mod texts;

pub use run::{end_without_memory, run_words};

#[cfg(test)]
mod tests;
