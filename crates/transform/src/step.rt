//! A record as a step.
ghost use Rattle.std.specs.Prelude.{◌≡◌};
ghost use Rattle.transform.specs.Steps.{step_of};

use crate::kind::{Fields, RecordKind};
use crate::parts::{Record, Row, row_at};

/// A record as a step: the registers that it names, where it leads, and whether they hold numbers.
// Numbers of 0 and no Option for fields that a kind does not use, so that one fact, `Sound`, is read of every kind.
#[derive(Clone, Copy)]
pub struct Step {
    pub kind: RecordKind,
    /// The register that is written.
    pub to: u16,
    /// The first register that is read.
    pub a: u16,
    /// The second register that is read; 0 for a branch.
    pub b: u16,
    pub word: u32,
    /// The place that follows.
    pub next: u16,
    /// The place that follows a branch on 0; 0 for every other kind.
    pub other: u16,
    /// Register `to` holds a number.
    pub to_number: bool,
    /// Register `a` holds a number.
    pub a_number: bool,
}

impl Record {
    // The record as a step of its kind.
    pub(crate) fn step(self, kind: RecordKind, rows: &[Row]) -> Step
        ensures { result ≡ step_of rows.now kind self }
    {
        let (b, other) = match kind.fields() {
            Fields::Word | Fields::One | Fields::Two => (self.b, 0),
            Fields::Fork => (0, self.b),
        };
        Step {
            kind,
            to: self.to,
            a: self.a,
            b,
            word: self.word,
            next: self.next,
            other,
            to_number: row_at(rows, self.to).is_number(),
            a_number: row_at(rows, self.a).is_number(),
        }
    }
}
