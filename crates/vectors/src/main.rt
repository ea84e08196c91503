//! Runs the cases on standard input through the number kinds, prints those that differ, and counts.
#![tactic(auto)]

mod answer;
mod case;
mod error;

use answer::Answer;
use case::Case;
use error::CaseError;
use std::io;
use std::io::{BufRead, BufReader};

/// How many cases agreed, and how many did not.
#[derive(Clone, Copy, Default)]
struct Counts {
    agreed: u64,
    differed: u64,
}

impl Counts {
    fn note(&mut self, agreed: bool) {
        if agreed {
            self.agreed = self.agreed.saturating_add(1);
        } else {
            self.differed = self.differed.saturating_add(1);
        }
    }
}

// What the case on the line expects, and what the engine's arithmetic answers.
fn answers(line: &str) -> Result<(Answer, Answer), CaseError> {
    let case = line.parse::<Case>()?;
    let answer = case.answer().ok_or(CaseError::NoSuchOperation)?;
    Ok((case.expected, answer))
}

// Whether the case on the line agrees; says why where it does not.
fn agrees(rt: &impl Print, number: u64, line: &str) -> io::Result<bool> {
    match answers(line) {
        Ok((expected, answer)) if answer == expected => return Ok(true),
        Ok((_, answer)) => println!(rt; "line {number}: {line} but {answer} came")?,
        Err(reason) => println!(rt; "line {number}: {reason}")?,
    }
    Ok(false)
}

fn main(rt: HostRuntime) -> io::Result<()> {
    let mut counts = Counts::default();
    let lines = BufReader::new(rt.alloc(), rt.stdin())?.lines(rt.alloc());
    for (number, line) in (1u64..).zip(lines) {
        let agreed = agrees(&rt, number, line?.as_str())?;
        counts.note(agreed);
    }
    let Counts { agreed, differed } = counts;
    println!(rt; "agreed {agreed}, differed {differed}")
}
