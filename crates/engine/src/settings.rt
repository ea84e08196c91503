//! What decides a pixel's run besides its number kind and its input words.
use crate::budget::Budget;
use transform::Accepted;

/// A transform with a budget, and words for its uniforms.
#[derive(Clone, Copy)]
pub struct Settings<'a> {
    pub transform: Accepted<'a>,
    pub budget: Budget,
    /// A uniform row i has word i of these, or its row's word where there is none.
    pub uniforms: &'a [u32],
}
