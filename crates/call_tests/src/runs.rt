//! Runs of the built-in transform: docs/RULES.md, Refusals and "The built-in transform". The expected words are worked out by hand.
use super::run_field;
use call::mark::Mark;
use call::open::Open;
use engine::budget::Budget;
use engine::ending::Ending;
use frame::field::Field;
use frame::planar::Planar;
use frame::readable::Readable;
use std::test::Fail;
use transform::fork;

const UNSEEN: Mark = Mark {
    ending: Ending::OutsideTable,
    place: 9,
    steps: 9,
};

// The rounds or the refusal's number, and the first pixel's word in the out frame, which was 7.
type Seen = (Result<u32, u8>, Option<u32>);

// Runs the built-in transform on 64 pixels whose word is 131072.
fn run_fork(rt: HostRuntime, steps: u16, first: usize, marks: &mut [Mark]) -> Result<Seen, Fail> {
    let input = Field::new(vec![in rt.alloc(); 131072; 1]?, 64);
    let mut output = Planar::new(vec![in rt.alloc(); 7; 64]?, 1);
    let mut call = Open::new(fork(), Budget::new(steps)?).arm();
    let answer = run_field(&mut call, &input, &mut output, first, marks);
    let rounds = answer
        .map(|answer| answer.rounds)
        .map_err(|refusal| refusal.number());
    Ok((rounds, output.get(first, 0)))
}

#[test]
fn as_many_pixels_as_a_batch_may_have(rt: HostRuntime) -> Result<(), Fail> {
    assert_eq!(rt;
        run_fork(rt, 3, 0, &mut [UNSEEN; 64])?,
        (Ok(3), Some(196608))
    );
    Ok(())
}

#[test]
fn one_pixel_too_many(rt: HostRuntime) -> Result<(), Fail> {
    assert_eq!(rt; run_fork(rt, 3, 0, &mut [UNSEEN; 65])?, (Err(17), Some(7)));
    Ok(())
}

#[test]
fn past_the_last_pixel(rt: HostRuntime) -> Result<(), Fail> {
    assert_eq!(rt; run_fork(rt, 3, 1, &mut [UNSEEN; 64])?, (Err(19), Some(7)));
    Ok(())
}

#[test]
fn nothing_is_written_of_a_spent_pixel(rt: HostRuntime) -> Result<(), Fail> {
    let mut marks = [UNSEEN; 1];
    assert_eq!(rt; run_fork(rt, 2, 63, &mut marks)?, (Ok(2), Some(7)));
    assert_eq!(rt; marks[0].ending.number(), 4);
    assert_eq!(rt; marks[0].place, 4);
    Ok(())
}
