//! Runs that are refused by each condition: docs/RULES.md, Refusals.
use call::armed::Armed;
use call::mark::Mark;
use call::open::Open;
use engine::budget::Budget;
use engine::ending::Ending;
use frame::field::Field;
use frame::planar::Planar;
use number::fixed::Fixed;
use std::test::Fail;
use transform::{Record, Row, check, fork};

const UNSEEN: Mark = Mark {
    ending: Ending::OutsideTable,
    place: 9,
    steps: 9,
};

// A field of so many pixels, whose word is 131072.
fn field(rt: HostRuntime, pixels: usize) -> Result<Field, Fail> {
    Ok(Field::new(vec![in rt.alloc(); 131072; 1]?, pixels))
}

// A frame of so many pixels of one channel.
fn planar(rt: HostRuntime, pixels: usize) -> Result<Planar, Fail> {
    Ok(Planar::new(vec![in rt.alloc(); 7; pixels]?, 1))
}

// The rounds of a run, or the number of its refusal.
fn run(
    call: &mut Armed,
    input: &Field,
    output: &mut Planar,
    count: usize,
    marks: &mut [Mark],
) -> Result<u32, u8> {
    call.run::<Fixed, Field, Planar>(input, output, 0, count, marks)
        .map(|answer| answer.rounds)
        .map_err(|refusal| refusal.number())
}

#[test]
fn frames_of_different_pixel_counts(rt: HostRuntime) -> Result<(), Fail> {
    let mut call = Open::new(fork(), Budget::new(3)?).arm();
    let mut output = planar(rt, 2)?;
    assert_eq!(rt;
        run(&mut call, &field(rt, 3)?, &mut output, 1, &mut [UNSEEN; 1]),
        Err(18)
    );
    Ok(())
}

#[test]
fn a_row_whose_channel_the_frame_does_not_have(rt: HostRuntime) -> Result<(), Fail> {
    let rows = [Row {
        holds: 3,
        role: 2,
        channel: 1,
        word: 0,
    }];
    let records = [
        Record::default(),
        Record {
            kind: 1,
            ..Record::default()
        },
    ];
    let mut held = fork();
    check(&mut held, &rows, &records, &[])?;
    let mut call = Open::new(held, Budget::new(3)?).arm();
    let mut output = planar(rt, 1)?;
    assert_eq!(rt;
        run(&mut call, &field(rt, 1)?, &mut output, 1, &mut [UNSEEN; 1]),
        Err(20)
    );
    Ok(())
}

#[test]
fn marks_that_are_not_as_many_as_pixels(rt: HostRuntime) -> Result<(), Fail> {
    let mut call = Open::new(fork(), Budget::new(3)?).arm();
    let input = field(rt, 2)?;
    let mut output = planar(rt, 2)?;
    let mut marks = [UNSEEN; 2];
    assert_eq!(rt; run(&mut call, &input, &mut output, 1, &mut marks), Err(21));
    assert_eq!(rt; marks[0], UNSEEN);
    assert_eq!(rt; run(&mut call, &input, &mut output, 2, &mut marks), Ok(3));
    Ok(())
}

#[test]
fn more_pixels_than_a_call_serves(rt: HostRuntime) -> Result<(), Fail> {
    let mut call = Open::new(fork(), Budget::new(3)?).arm();
    let input = field(rt, 64)?;
    let mut output = planar(rt, 64)?;
    let mut marks = [UNSEEN; 64];
    for _ in 0..262_144 {
        assert_eq!(rt; run(&mut call, &input, &mut output, 64, &mut marks), Ok(3));
    }
    assert_eq!(rt;
        run(&mut call, &input, &mut output, 1, &mut marks[..1]),
        Err(22)
    );
    Ok(())
}
