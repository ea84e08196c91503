//! Pixels under an accepted transform: the start of one, its steps and its run to an ending, and up to 64 that run together.
//! The rules stand in docs/RULES.md, "One pixel" and "Rounds".
#![tactic(auto)]

pub mod batch;
pub mod budget;
mod effect;
pub mod ending;
pub mod pixel;
pub mod settings;
mod start;
