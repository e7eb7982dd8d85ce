//! Sources of draws: each draw is a whole number below a bound that the caller gives. A source that replays a list,
//! one that always fails, one that gives 0 always, one over ChaCha20, one that fails from a call on, and the reader of
//! a file of draws.
#![tactic(auto)]

mod chacha_draws;
mod fail_at;
mod no_draws;
mod reading;
mod replay;
mod source;
mod zeros;

pub use chacha_draws::ChaChaDraws;
pub use fail_at::FailAt;
pub use no_draws::NoDraws;
pub use reading::read_draws;
pub use replay::Replay;
pub use source::Draws;
pub use zeros::Zeros;

#[cfg(test)]
mod tests;
