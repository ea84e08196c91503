//! What every number kind gives.
ghost use Rattle.std.specs.Prelude.{◌≡◌, ℕ, Some};
ghost use Rattle.number.specs.Meaning.{Meaning, Lawful, stop_number, stop_text};

use std::error::Error;
use std::fmt;

/// Why an operation yields nothing.
#[derive(Clone, Copy, PartialEq, Eq, Debug)]
pub enum Stop {
    DivisionByZero = 1,
    OutOfRange = 2,
}

impl Stop {
    /// The number by which a stop is reported: 1 for a division by zero, 2 for a value out of range.
    pub fn number(self) -> u8
        ensures { result ≡ stop_number self }
    {
        self as u8
    }
}

impl fmt::Display for Stop {
    ghost output = { λ stop. Some (stop_text stop) };

    fn fmt<W: fmt::Write>(&self, f: &mut fmt::Formatter<W>) -> fmt::Result {
        f.pad(match self {
            Stop::DivisionByZero => "divided by zero",
            Stop::OutOfRange => "out of range",
        })
    }
}

impl Error for Stop {}

/// A reading of 32-bit words as numbers. `meaning` says what each operation answers, for any words.
pub trait NumberKind {
    /// The kind's number: 1 for float, 2 for fixed.
    const NUMBER: u8;

    ghost NUMBER: { ℕ };

    ghost meaning: { Meaning };

    /// The admitted form of a word.
    fn admit(word: u32) -> u32
        ensures { result ≡ meaning.admit word };

    fn add(a: u32, b: u32) -> Result<u32, Stop>
        ensures { result ≡ meaning.add a b };

    fn subtract(a: u32, b: u32) -> Result<u32, Stop>
        ensures { result ≡ meaning.subtract a b };

    fn multiply(a: u32, b: u32) -> Result<u32, Stop>
        ensures { result ≡ meaning.multiply a b };

    fn divide(a: u32, b: u32) -> Result<u32, Stop>
        ensures { result ≡ meaning.divide a b };

    fn negate(a: u32) -> Result<u32, Stop>
        ensures { result ≡ meaning.negate a };

    fn less(a: u32, b: u32) -> bool
        ensures { result ≡ meaning.less a b };

    fn equal(a: u32, b: u32) -> bool
        ensures { result ≡ meaning.equal a b };

    /// The number that is the whole number n.
    fn from_whole(n: i32) -> Result<u32, Stop>
        ensures { result ≡ meaning.from_whole n };

    /// The whole number that a number becomes.
    fn to_whole(a: u32) -> Result<i32, Stop>
        ensures { result ≡ meaning.to_whole a };

    // The constant is the number that clauses speak of.
    ghost numbered: { NUMBER ≡ meaning.number };

    ghost lawful: { Lawful meaning };
}
