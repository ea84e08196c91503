//! The batches that bench/rounds measures: 64 pixels of one transform run together, or each by itself, many times.
#![tactic(auto)]

use engine::batch::Batch;
use engine::budget::Budget;
use engine::settings::Settings;
use number::fixed::Fixed;
use transform::{Accepted, Record, Row, check, fork};

fn row(holds: u16, role: u16, channel: u16, word: u32) -> Row {
    Row {
        holds,
        role,
        channel,
        word,
    }
}

fn record(kind: u16, to: u16, a: u16, b: u16, next: u16) -> Record {
    Record {
        kind,
        to,
        a,
        b,
        word: 0,
        next,
    }
}

/// An input, an output, a count, one, the turns, a flag, two factors and a limit.
fn rows() -> [Row; 9] {
    [
        row(3, 1, 0, 0),
        row(3, 2, 0, 0),
        row(2, 0, 0, 0),
        row(2, 0, 0, 1),
        row(2, 0, 0, 50),
        row(1, 0, 0, 0),
        row(3, 0, 0, 65000),
        row(3, 0, 0, 66000),
        row(3, 0, 0, 65536),
    ]
}

/// Fifty turns: an input below 1 is multiplied by one factor each turn, any other by the other.
fn records() -> [Record; 9] {
    [
        Record::default(),
        record(2, 1, 0, 0, 2),
        record(9, 5, 0, 8, 3),
        record(15, 0, 5, 5, 4),
        record(5, 1, 1, 6, 6),
        record(5, 1, 1, 7, 6),
        record(3, 2, 2, 3, 7),
        record(9, 5, 2, 4, 8),
        record(15, 0, 5, 0, 2),
    ]
}

// The words of 64 pixels: all below 1, or every other one above it.
fn inputs(parting: bool) -> [[u32; 8]; 64] {
    let mut inputs = [[0; 8]; 64];
    for (i, words) in inputs.iter_mut().enumerate() {
        words[0] = if parting && i % 2 == 1 { 80000 } else { 30000 };
    }
    inputs
}

fn together(settings: &Settings, inputs: &[[u32; 8]], times: u32) -> u32 {
    let mut batch = Batch::new();
    let mut sum = 0u32;
    for _ in 0..times {
        sum = sum.wrapping_add(settings.run_together::<Fixed>(inputs, &mut batch));
        for pixel in batch.pixels() {
            sum = sum.wrapping_add(pixel.registers[1]);
        }
    }
    sum
}

fn alone(settings: &Settings, inputs: &[[u32; 8]], times: u32) -> u32 {
    let mut sum = 0u32;
    for _ in 0..times {
        for words in inputs {
            sum = sum.wrapping_add(settings.run_alone::<Fixed>(words).registers[1]);
        }
    }
    sum
}

/// Runs the batch so many times, pixels that part or not, together or each by itself; answers a sum over what came out, 0 where the
/// transform is refused.
#[unsafe(no_mangle)]
pub extern "C" fn engine_runs(parting: bool, in_rounds: bool, times: u32) -> u32 {
    let rows = rows();
    let records = records();
    let mut held = fork();
    if check(&mut held, &rows, &records, &[]).is_err() {
        return 0;
    }
    let Ok(budget) = Budget::new(u16::MAX) else {
        return 0;
    };
    let settings = Settings {
        transform: held,
        budget,
        uniforms: &[],
    };
    let inputs = inputs(parting);
    if in_rounds {
        together(&settings, &inputs, times)
    } else {
        alone(&settings, &inputs, times)
    }
}
