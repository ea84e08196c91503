//! Why a line is no case.
use std::error::Error;
use std::fmt;

/// Why a line is no case, or one that cannot be run.
#[derive(Clone, Copy, Debug, PartialEq, Eq)]
pub enum CaseError {
    TooShort,
    TooLong,
    UnknownKind,
    UnknownOperation,
    BadWord,
    BadAnswer,
    NoSuchOperation,
}

impl fmt::Display for CaseError {
    fn fmt<W: fmt::Write>(&self, f: &mut fmt::Formatter<W>) -> fmt::Result {
        f.write_str(match self {
            CaseError::TooShort => "a case is KIND OPERATION A [B] EXPECTED",
            CaseError::TooLong => "there is more on the line than a case",
            CaseError::UnknownKind => "the kind should be float, fixed or whole",
            CaseError::UnknownOperation => "there is no such operation",
            CaseError::BadWord => "a word should be eight hexadecimal digits and h",
            CaseError::BadAnswer => "the answer should be a word, 0, 1, stop 1 or stop 2",
            CaseError::NoSuchOperation => "the kind does not have the operation",
        })
    }
}

impl Error for CaseError {}
