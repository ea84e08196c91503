//! The parts of a transform, as they are given, and the numbers that they are written in.
ghost use Rattle.std.specs.Prelude.{◌≡◌};
ghost use Rattle.transform.specs.Kinds.{counts};
ghost use Rattle.transform.specs.Parts.{row_at, is_flag, is_whole, is_number, is_in, is_out, is_uniform};

// Numbers and no enums: a row that is handed in may hold any number, and each test of one stays a single comparison.

/// A register that holds a flag, 0 or 1.
pub const FLAG: u16 = 1;
/// A register that holds a whole number.
pub const WHOLE: u16 = 2;
/// A register that holds a number of the call's kind.
pub const NUMBER: u16 = 3;

/// A register for work.
pub const WORK: u16 = 0;
/// A register that starts with the input word of its channel.
pub const IN: u16 = 1;
/// A register whose last word goes to its channel of the output.
pub const OUT: u16 = 2;
/// A register whose start word a call may set.
pub const UNIFORM: u16 = 3;

/// At most so many rows.
pub const MOST_ROWS: usize = 64;
/// At most so many records.
pub const MOST_RECORDS: usize = 512;
/// At most so many words in the table.
pub const MOST_WORDS: usize = 4096;
/// So many channels, from 0.
pub const CHANNELS: u16 = 8;

/// One register: what it holds, what it is for, the channel of an in or out register, and its start word.
#[derive(Clone, Copy, Default, PartialEq, Eq)]
pub struct Row {
    // Any numbers, as they are handed in: the check answers cause 2 for a type or a role that there is not.
    pub holds: u16,
    pub role: u16,
    pub channel: u16,
    pub word: u32,
}

/// One step: its kind, the registers that it names, its word, and the place of the record that follows.
#[derive(Clone, Copy, Default, PartialEq, Eq)]
pub struct Record {
    // Any number, as it is handed in: the check answers cause 8 for a kind that there is not.
    pub kind: u16,
    pub to: u16,
    pub a: u16,
    pub b: u16,
    pub word: u32,
    pub next: u16,
}

impl Row {
    /// Whether the register holds a flag.
    pub fn is_flag(self) -> bool
        ensures { result ≡ is_flag self }
    {
        self.holds == FLAG
    }

    pub(crate) fn is_whole(self) -> bool
        ensures { result ≡ is_whole self }
    {
        self.holds == WHOLE
    }

    /// Whether the register holds a number.
    pub fn is_number(self) -> bool
        ensures { result ≡ is_number self }
    {
        self.holds == NUMBER
    }

    // Whether the register holds a whole number or a number.
    pub(crate) fn is_count(self) -> bool
        ensures { result ≡ counts self.holds }
    {
        self.is_whole() || self.is_number()
    }

    /// Whether the register starts with an input word.
    pub fn is_in(self) -> bool
        ensures { result ≡ is_in self }
    {
        self.role == IN
    }

    /// Whether the register's last word is written out.
    pub fn is_out(self) -> bool
        ensures { result ≡ is_out self }
    {
        self.role == OUT
    }

    /// Whether a call may set the register's start word.
    pub fn is_uniform(self) -> bool
        ensures { result ≡ is_uniform self }
    {
        self.role == UNIFORM
    }
}

// The row, or one of zeros where there is none.
pub(crate) fn row_at(rows: &[Row], i: u16) -> Row
    ensures { result ≡ row_at rows.now i }
{
    rows.get(usize::from(i)).copied().unwrap_or_default()
}
