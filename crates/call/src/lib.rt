//! One use of an accepted transform: a call is open while it is set up, then armed, and then runs on frames.
//! The rules stand in docs/RULES.md, "Calls and their states".
#![tactic(auto)]

pub mod armed;
mod inputs;
pub mod mark;
pub mod open;
mod outputs;
pub mod refusal;
mod request;
mod serve;
mod setup;
pub mod tally;
