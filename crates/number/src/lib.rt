//! Number kinds: what the 32-bit words of a transform mean as numbers, and whole-number arithmetic.
//! The rules stand in docs/RULES.md, "Number kinds".
#![tactic(auto)]

pub mod fixed;
pub mod float;
pub mod kind;
pub mod whole;
