//! A case, as one line has it: `KIND OPERATION A [B] EXPECTED`.
use crate::answer::{Answer, Operation, on_numbers, on_wholes};
use crate::error::CaseError;
use number::fixed::Fixed;
use number::float::Float;
use number::kind::Stop;
use std::str::FromStr;

/// What the words of a case are.
#[derive(Clone, Copy)]
pub enum Kind {
    Float,
    Fixed,
    Whole,
}

/// An operation on words, with the answer that it should give.
#[derive(Clone, Copy)]
pub struct Case {
    kind: Kind,
    operation: Operation,
    a: u32,
    b: u32,
    pub expected: Answer,
}

impl Case {
    /// What the engine's arithmetic answers; none where the kind does not have the operation.
    pub fn answer(self) -> Option<Answer> {
        match self.kind {
            Kind::Float => on_numbers::<Float>(self.operation, self.a, self.b),
            Kind::Fixed => on_numbers::<Fixed>(self.operation, self.a, self.b),
            Kind::Whole => on_wholes(self.operation, self.a, self.b),
        }
    }
}

impl FromStr for Kind {
    type Err = CaseError;

    fn from_str(name: &str) -> Result<Kind, CaseError> {
        match name {
            "float" => Ok(Kind::Float),
            "fixed" => Ok(Kind::Fixed),
            "whole" => Ok(Kind::Whole),
            _ => Err(CaseError::UnknownKind),
        }
    }
}

// The word that eight hexadecimal digits, in either case, and `h` name.
fn read_word(text: &str) -> Result<u32, CaseError> {
    let digits = text.strip_suffix('h').ok_or(CaseError::BadWord)?;
    if digits.len() != 8 || !digits.bytes().all(|digit| digit.is_ascii_hexdigit()) {
        return Err(CaseError::BadWord);
    }
    u32::from_str_radix(digits, 16).map_err(|_| CaseError::BadWord)
}

// A flag, a stop's number or a word; `after` is what follows on the line.
fn read_expected(text: &str, after: Option<&str>) -> Result<Answer, CaseError> {
    match (text, after) {
        ("0", None) => Ok(Answer::Flag(false)),
        ("1", None) => Ok(Answer::Flag(true)),
        ("stop", Some("1")) => Ok(Answer::Stop(Stop::DivisionByZero)),
        ("stop", Some("2")) => Ok(Answer::Stop(Stop::OutOfRange)),
        (_, None) => Ok(Answer::Word(read_word(text)?)),
        _ => Err(CaseError::BadAnswer),
    }
}

impl FromStr for Case {
    type Err = CaseError;

    fn from_str(line: &str) -> Result<Case, CaseError> {
        let mut parts = line.split_whitespace();
        let mut part = || parts.next().ok_or(CaseError::TooShort);
        let kind = part()?.parse::<Kind>()?;
        let operation = part()?.parse::<Operation>()?;
        let a = read_word(part()?)?;
        // 0 beside a lone operand: every operation is handed two words.
        let b = if operation.takes_two() {
            read_word(part()?)?
        } else {
            0
        };
        let expected = read_expected(part()?, parts.next())?;
        if parts.next().is_some() {
            return Err(CaseError::TooLong);
        }
        Ok(Case {
            kind,
            operation,
            a,
            b,
            expected,
        })
    }
}
