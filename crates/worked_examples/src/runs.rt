//! Runs of one pixel by itself: docs/RULES.md, "One pixel" and "The built-in transform". The expected words are worked out by hand.
use crate::parts::{record, row};
use engine::budget::Budget;
use engine::pixel::Pixel;
use engine::settings::Settings;
use number::fixed::Fixed;
use std::test::Fail;
use transform::{Accepted, Record, Row, check, fork};

// An input and an output, two whole numbers, a flag, a number to work with, and a uniform that is 1 unless it is set.
fn rows() -> [Row; 7] {
    [
        row(3, 1, 0, 0),
        row(3, 2, 0, 0),
        row(2, 0, 0, 0),
        row(2, 0, 0, 0),
        row(1, 0, 0, 0),
        row(3, 0, 0, 0),
        row(3, 3, 0, 65536),
    ]
}

// Every kind of record: 5 is worked out in whole numbers; an input below it is looked up, any other gives 5.
fn every_kind() -> [Record; 18] {
    [
        Record::default(),
        record(1, 2, 0, 0, 7, 2), // 7
        record(1, 3, 0, 0, 0xffff_fffe, 3), // -2
        record(6, 2, 2, 3, 0, 4), // 7 / -2 = -3
        record(7, 3, 2, 3, 0, 5), // -3 by -2 leaves -1
        record(8, 3, 3, 0, 0, 6), // 1
        record(5, 2, 2, 3, 0, 7), // -3
        record(4, 2, 3, 2, 0, 8), // 1 - -3 = 4
        record(3, 2, 2, 3, 0, 9), // 5
        record(12, 5, 2, 0, 0, 10), // the number 5
        record(9, 4, 0, 5, 0, 11), // input < 5
        record(11, 4, 4, 0, 0, 12), // or not
        record(15, 0, 4, 15, 0, 13),
        record(10, 4, 2, 3, 0, 14), // 5 = 1: no
        record(2, 1, 5, 0, 0, 0),
        record(13, 3, 0, 0, 0, 16),
        record(14, 5, 3, 0, 0, 17),
        record(2, 1, 5, 0, 0, 0),
    ]
}

const TABLE: [u32; 3] = [0x1111_1111, 0x2222_2222, 0x3333_3333];

// Ending, place, steps and the word of register 1, the output.
type Seen = (u8, u16, u16, u32);

fn seen(pixel: Pixel) -> Result<Seen, Fail> {
    let ending = pixel.ending.ok_or("no ending")?;
    Ok((
        ending.number(),
        pixel.place,
        pixel.steps,
        pixel.registers[1],
    ))
}

fn run(transform: Accepted, steps: u16, uniforms: &[u32], input: u32) -> Result<Seen, Fail> {
    let settings = Settings {
        transform,
        budget: Budget::new(steps)?,
        uniforms,
    };
    seen(settings.run_alone::<Fixed>(&[input]))
}

// One pixel under the rows above, these records and the table.
fn run_records(records: &[Record], steps: u16, uniforms: &[u32], input: u32) -> Result<Seen, Fail> {
    let mut held = fork();
    let rows = rows();
    check(&mut held, &rows, records, &TABLE)?;
    run(held, steps, uniforms, input)
}

#[test]
fn the_built_in_transform(rt: HostRuntime) -> Result<(), Fail> {
    assert_eq!(rt; run(fork(), 3, &[], 32768)?, (0, 0, 3, 32768));
    assert_eq!(rt; run(fork(), 3, &[], 131072)?, (0, 0, 3, 196608));
    assert_eq!(rt; run(fork(), 2, &[], 32768)?, (4, 3, 2, 0));
    assert_eq!(rt; run(fork(), 2, &[], 131072)?, (4, 4, 2, 0));
    Ok(())
}

#[test]
fn every_kind_of_record(rt: HostRuntime) -> Result<(), Fail> {
    assert_eq!(rt;
        run_records(&every_kind(), 100, &[], 0x0001_8000)?,
        (0, 0, 15, 0x2222_2222)
    );
    assert_eq!(rt;
        run_records(&every_kind(), 100, &[], 0x0005_0000)?,
        (0, 0, 14, 0x0005_0000)
    );
    assert_eq!(rt;
        run_records(&every_kind(), 100, &[], 0x0003_0000)?,
        (3, 16, 14, 0)
    );
    assert_eq!(rt;
        run_records(&every_kind(), 100, &[], 0xffff_8000)?,
        (3, 16, 14, 0)
    );
    assert_eq!(rt;
        run_records(&every_kind(), 14, &[], 0x0001_8000)?,
        (4, 17, 14, 0)
    );
    Ok(())
}

#[test]
fn operations_that_stop(rt: HostRuntime) -> Result<(), Fail> {
    let divide = [Record::default(), record(6, 1, 0, 5, 0, 0)];
    assert_eq!(rt; run_records(&divide, 9, &[], 65536)?, (1, 1, 1, 0));
    let convert = [
        Record::default(),
        record(1, 2, 0, 0, 40000, 2),
        record(12, 1, 2, 0, 0, 0),
    ];
    assert_eq!(rt; run_records(&convert, 9, &[], 0)?, (2, 2, 2, 0));
    let leave = [Record::default(), record(7, 2, 2, 3, 0, 0)];
    assert_eq!(rt; run_records(&leave, 9, &[], 0)?, (1, 1, 1, 0));
    Ok(())
}

#[test]
fn a_loop_spends_its_budget_and_a_set_word_holds(rt: HostRuntime) -> Result<(), Fail> {
    let count = [Record::default(), record(3, 1, 1, 6, 0, 1)];
    assert_eq!(rt; run_records(&count, 5, &[], 0)?, (4, 1, 5, 5 * 65536));
    let set = [0, 0, 0, 0, 0, 0, 2 * 65536];
    assert_eq!(rt; run_records(&count, 5, &set, 0)?, (4, 1, 5, 10 * 65536));
    Ok(())
}

#[test]
fn a_budget_is_never_0(rt: HostRuntime) {
    let steps = Budget::new(0).map(|budget| budget.steps());
    assert_eq!(rt; steps.map_err(|refused| refused.number()), Err(14));
}
