//! Pictures: a pixel count, a channel count and a word for each pixel and channel.
//! The rules stand in docs/RULES.md, Frames.
#![tactic(auto)]

pub mod field;
mod labels;
pub mod packed;
pub mod pixel;
pub mod planar;
pub mod readable;
pub mod relabelled;
mod size;
pub mod writable;
