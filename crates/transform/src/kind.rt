//! The fifteen kinds of step.
ghost use Rattle.std.specs.Prelude.{◌≡◌, Some};
ghost use Rattle.transform.specs.Messages.{unknown_text};
ghost use Rattle.transform.specs.Kinds.{kind_named, fields_of};

use std::{error, fmt};

/// What a step does.
#[derive(Clone, Copy)]
pub enum RecordKind {
    Literal,
    Copy,
    Add,
    Subtract,
    Multiply,
    Divide,
    Remainder,
    Negate,
    Less,
    Equal,
    Not,
    ToNumber,
    ToWhole,
    LookUp,
    Branch,
}

/// A number that names no kind of step.
#[derive(Clone, Copy, Debug, PartialEq, Eq)]
pub struct UnknownKind(pub u16);

impl TryFrom<u16> for RecordKind {
    type Error = UnknownKind;

    ghost try_from_gives = { λ number r. r ≡ kind_named number };

    fn try_from(number: u16) -> Result<RecordKind, UnknownKind> {
        match number {
            1 => Ok(RecordKind::Literal),
            2 => Ok(RecordKind::Copy),
            3 => Ok(RecordKind::Add),
            4 => Ok(RecordKind::Subtract),
            5 => Ok(RecordKind::Multiply),
            6 => Ok(RecordKind::Divide),
            7 => Ok(RecordKind::Remainder),
            8 => Ok(RecordKind::Negate),
            9 => Ok(RecordKind::Less),
            10 => Ok(RecordKind::Equal),
            11 => Ok(RecordKind::Not),
            12 => Ok(RecordKind::ToNumber),
            13 => Ok(RecordKind::ToWhole),
            14 => Ok(RecordKind::LookUp),
            15 => Ok(RecordKind::Branch),
            _ => Err(UnknownKind(number)),
        }
    }
}

impl fmt::Display for UnknownKind {
    ghost output = { λ k. Some (unknown_text k) };

    fn fmt<W: fmt::Write>(&self, f: &mut fmt::Formatter<W>) -> fmt::Result {
        let number = self.0;
        write!(f, "no kind of step has the number {number}")
    }
}

impl error::Error for UnknownKind {}

impl RecordKind {
    pub(crate) fn fields(self) -> Fields
        ensures { result ≡ fields_of self }
    {
        match self {
            RecordKind::Literal => Fields::Word,
            RecordKind::Copy
            | RecordKind::Negate
            | RecordKind::Not
            | RecordKind::ToNumber
            | RecordKind::ToWhole
            | RecordKind::LookUp => Fields::One,
            RecordKind::Add
            | RecordKind::Subtract
            | RecordKind::Multiply
            | RecordKind::Divide
            | RecordKind::Remainder
            | RecordKind::Less
            | RecordKind::Equal => Fields::Two,
            RecordKind::Branch => Fields::Fork,
        }
    }
}

// The fields that a kind uses, besides next.
#[derive(Clone, Copy)]
pub(crate) enum Fields {
    Word, // to and word
    One, // to and a
    Two, // to, a and b
    Fork, // a, and b for the place of a record
}
