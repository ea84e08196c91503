//! Uniforms: docs/RULES.md, "Calls and their states". The expected words are worked out by hand.
use super::{run_field, set_word};
use call::mark::Mark;
use call::open::Open;
use engine::budget::Budget;
use engine::ending::Ending;
use frame::field::Field;
use frame::planar::Planar;
use frame::readable::Readable;
use std::test::Fail;
use transform::{Accepted, Record, Row, check, fork};

// An input, an output, a number that a call may set and a flag that it may set.
// Written out: the value of a constant may hold no call.
const ROWS: [Row; 4] = [
    Row {
        holds: 3,
        role: 1,
        channel: 0,
        word: 0,
    },
    Row {
        holds: 3,
        role: 2,
        channel: 0,
        word: 0,
    },
    Row {
        holds: 3,
        role: 3,
        channel: 0,
        word: 65536,
    },
    Row {
        holds: 1,
        role: 3,
        channel: 0,
        word: 1,
    },
];

// The output is the input and the uniform together.
const RECORDS: [Record; 2] = [
    Record {
        kind: 0,
        to: 0,
        a: 0,
        b: 0,
        word: 0,
        next: 0,
    },
    Record {
        kind: 3,
        to: 1,
        a: 0,
        b: 2,
        word: 0,
        next: 0,
    },
];

fn adding<'a>(held: &mut Accepted<'a>) -> Result<(), Fail> {
    check(held, &ROWS, &RECORDS, &[])?;
    Ok(())
}

#[test]
fn rows_and_words_that_may_not_be_set(rt: HostRuntime) -> Result<(), Fail> {
    let mut held = fork();
    adding(&mut held)?;
    let mut call = Open::new(held, Budget::new(1)?);
    assert_eq!(rt; set_word(&mut call, 0, 1), Err(15));
    assert_eq!(rt; set_word(&mut call, 4, 1), Err(15));
    assert_eq!(rt; set_word(&mut call, 3, 2), Err(16));
    assert_eq!(rt; set_word(&mut call, 3, 1), Ok(()));
    assert_eq!(rt; set_word(&mut call, 2, 2), Ok(()));
    Ok(())
}

// The output for an input of 0, after the uniform was set to the words in turn.
fn output_after(rt: HostRuntime, words: &[u32]) -> Result<Option<u32>, Fail> {
    let mut held = fork();
    adding(&mut held)?;
    let mut call = Open::new(held, Budget::new(1)?);
    for word in words {
        let _ = call.set(2, *word);
    }
    let input = Field::new(vec![in rt.alloc(); 0; 1]?, 1);
    let mut output = Planar::new(vec![in rt.alloc(); 0; 1]?, 1);
    let mut marks = [Mark {
        ending: Ending::Spent,
        place: 0,
        steps: 0,
    }];
    let mut armed = call.arm();
    let _ = run_field(&mut armed, &input, &mut output, 0, &mut marks)?;
    Ok(output.get(0, 0))
}

#[test]
fn a_uniform_has_its_default_until_it_is_set(rt: HostRuntime) -> Result<(), Fail> {
    assert_eq!(rt; output_after(rt, &[])?, Some(65536));
    Ok(())
}

#[test]
fn the_latest_word_holds(rt: HostRuntime) -> Result<(), Fail> {
    assert_eq!(rt; output_after(rt, &[131072, 196608])?, Some(196608));
    Ok(())
}
