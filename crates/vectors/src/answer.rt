//! What an operation of a number kind, or of whole numbers, answers.
ghost use Rattle.std.specs.Prelude.{◌≡◌};
ghost use Rattle.vectors.specs.Answers.{of_word, on_numbers, on_wholes};

use crate::error::CaseError;
use number::kind::{NumberKind, Stop};
use number::whole;
use std::fmt;
use std::str::FromStr;

/// An operation that a case names.
#[derive(Clone, Copy)]
pub enum Operation {
    Admit,
    Add,
    Subtract,
    Multiply,
    Divide,
    Remainder,
    Negate,
    Less,
    Equal,
    FromWhole,
    ToWhole,
}

/// What an operation answers, or should.
#[derive(Clone, Copy, PartialEq, Eq)]
pub enum Answer {
    Word(u32),
    Flag(bool),
    Stop(Stop),
}

impl Operation {
    /// Whether it has a second operand.
    pub fn takes_two(self) -> bool {
        !matches!(
            self,
            Operation::Admit | Operation::Negate | Operation::FromWhole | Operation::ToWhole
        )
    }
}

impl FromStr for Operation {
    type Err = CaseError;

    fn from_str(name: &str) -> Result<Operation, CaseError> {
        match name {
            "admit" => Ok(Operation::Admit),
            "add" => Ok(Operation::Add),
            "subtract" => Ok(Operation::Subtract),
            "multiply" => Ok(Operation::Multiply),
            "divide" => Ok(Operation::Divide),
            "remainder" => Ok(Operation::Remainder),
            "negate" => Ok(Operation::Negate),
            "less" => Ok(Operation::Less),
            "equal" => Ok(Operation::Equal),
            "from-whole" => Ok(Operation::FromWhole),
            "to-whole" => Ok(Operation::ToWhole),
            _ => Err(CaseError::UnknownOperation),
        }
    }
}

impl fmt::Display for Answer {
    fn fmt<W: fmt::Write>(&self, f: &mut fmt::Formatter<W>) -> fmt::Result {
        match *self {
            Answer::Word(word) => write!(f, "{word:08X}h"),
            Answer::Flag(flag) => f.write_str(if flag { "1" } else { "0" }),
            Answer::Stop(stop) => write!(f, "stop {}", stop.number()),
        }
    }
}

impl From<Result<u32, Stop>> for Answer {
    ghost from_gives = { λ r answer. answer ≡ of_word r };

    fn from(r: Result<u32, Stop>) -> Answer {
        match r {
            Ok(word) => Answer::Word(word),
            Err(stop) => Answer::Stop(stop),
        }
    }
}

/// The operation on numbers of a kind; none where numbers do not have it.
pub fn on_numbers<K: NumberKind>(operation: Operation, a: u32, b: u32) -> Option<Answer>
    ensures { result ≡ on_numbers K.NumberKind.meaning operation a b }
{
    let answer = match operation {
        Operation::Admit => Answer::Word(K::admit(a)),
        Operation::Add => K::add(a, b).into(),
        Operation::Subtract => K::subtract(a, b).into(),
        Operation::Multiply => K::multiply(a, b).into(),
        Operation::Divide => K::divide(a, b).into(),
        Operation::Remainder => return None,
        Operation::Negate => K::negate(a).into(),
        Operation::Less => Answer::Flag(K::less(a, b)),
        Operation::Equal => Answer::Flag(K::equal(a, b)),
        Operation::FromWhole => K::from_whole(a.cast_signed()).into(),
        Operation::ToWhole => K::to_whole(a).map(|n| n.cast_unsigned()).into(),
    };
    Some(answer)
}

/// The operation on whole numbers; none where whole numbers do not have it.
pub fn on_wholes(operation: Operation, a: u32, b: u32) -> Option<Answer>
    ensures { result ≡ on_wholes operation a b }
{
    let answer = match operation {
        Operation::Add => Answer::Word(whole::add(a, b)),
        Operation::Subtract => Answer::Word(whole::subtract(a, b)),
        Operation::Multiply => Answer::Word(whole::multiply(a, b)),
        Operation::Divide => whole::divide(a, b).into(),
        Operation::Remainder => whole::remainder(a, b).into(),
        Operation::Negate => Answer::Word(whole::negate(a)),
        Operation::Less => Answer::Flag(whole::less(a, b)),
        Operation::Equal => Answer::Flag(whole::equal(a, b)),
        Operation::Admit | Operation::FromWhole | Operation::ToWhole => return None,
    };
    Some(answer)
}
