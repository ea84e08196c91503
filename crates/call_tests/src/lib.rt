//! Tests of calls: what set and run refuse, and runs of small transforms.
#![tactic(auto)]

use call::armed::Armed;
use call::mark::{Answer, Mark};
use call::open::Open;
use call::refusal::RunRefusal;
use frame::field::Field;
use frame::planar::Planar;
use number::fixed::Fixed;

#[cfg(test)]
mod refusals;
#[cfg(test)]
mod runs;
#[cfg(test)]
mod uniforms;

/// A set on an open call; a refusal by its number. On an armed call there is none: tools/set_or_run_in_the_wrong_state shows that one is refused.
fn set_word(call: &mut Open, row: u16, word: u32) -> Result<(), u8> {
    call.set(row, word).map_err(|refusal| refusal.number())
}

/// A call that is set up and armed. Arming uses it up, so it is not set again: the same tool shows it.
fn arm_with<'a>(mut call: Open<'a>, row: u16, word: u32) -> Armed<'a> {
    let _ = call.set(row, word);
    call.arm()
}

/// A run of an armed call on a field. On an open call there is none: the same tool shows it.
// A start, as a run takes it.
fn run_field(
    call: &mut Armed,
    input: &Field,
    output: &mut Planar,
    first: usize,
    marks: &mut [Mark],
) -> Result<Answer, RunRefusal> {
    let count = marks.len();
    call.run::<Fixed, Field, Planar>(input, output, first, count, marks)
}
