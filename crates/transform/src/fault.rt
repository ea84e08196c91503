//! What the check finds wrong with a transform, and the numbers by which it is told.
ghost use Rattle.std.specs.Prelude.{◌≡◌, Some};
ghost use Rattle.transform.specs.Faults.{layer, cause, place, row_cause, row_place, record_cause, record_place};
ghost use Rattle.transform.specs.Messages.{row_text, record_text, table_text, fault_text};
ghost use Rattle.transform.specs.declared.fault.Fault.TheVariants.{Rows, Records, Table};

use std::{error, fmt};

/// What is wrong with the rows; the number is the row's.
#[derive(Clone, Copy, Debug, PartialEq, Eq)]
pub enum RowFault {
    Count,
    Unknown(usize),
    Channel(usize),
    Word(usize),
    RepeatedOut(usize),
}

/// What is wrong with the records; the number is the record's.
#[derive(Clone, Copy, Debug, PartialEq, Eq)]
pub enum RecordFault {
    Count,
    FirstNotZero,
    Kind(usize),
    Target(usize),
    Field(usize),
    Types(usize),
    ReadOnly(usize),
}

/// What is wrong with the table.
#[derive(Clone, Copy, Debug, PartialEq, Eq)]
pub enum TableFault {
    TooLong,
}

/// What is wrong with a transform.
#[derive(Clone, Copy, Debug, PartialEq, Eq)]
pub enum Fault {
    Rows(RowFault),
    Records(RecordFault),
    Table(TableFault),
}

// Written by hand, as the clauses of the check name the fault that each `?` makes.
impl From<RowFault> for Fault {
    ghost from_gives = { λ f g. g ≡ Rows f };

    fn from(fault: RowFault) -> Fault {
        Fault::Rows(fault)
    }
}

impl From<RecordFault> for Fault {
    ghost from_gives = { λ f g. g ≡ Records f };

    fn from(fault: RecordFault) -> Fault {
        Fault::Records(fault)
    }
}

impl From<TableFault> for Fault {
    ghost from_gives = { λ f g. g ≡ Table f };

    fn from(fault: TableFault) -> Fault {
        Fault::Table(fault)
    }
}

// Matches and no casts: a variant that carries a place has no number of its own. Place 0 stands for none, as a fault is reported by three numbers.
impl RowFault {
    pub(crate) fn cause(self) -> u8
        ensures { result ≡ row_cause self }
    {
        match self {
            RowFault::Count => 1,
            RowFault::Unknown(_) => 2,
            RowFault::Channel(_) => 3,
            RowFault::Word(_) => 4,
            RowFault::RepeatedOut(_) => 5,
        }
    }

    pub(crate) fn place(self) -> usize
        ensures { result ≡ row_place self }
    {
        match self {
            RowFault::Count => 0,
            RowFault::Unknown(i)
            | RowFault::Channel(i)
            | RowFault::Word(i)
            | RowFault::RepeatedOut(i) => i,
        }
    }
}

// Matches and no casts, as for the rows.
impl RecordFault {
    pub(crate) fn cause(self) -> u8
        ensures { result ≡ record_cause self }
    {
        match self {
            RecordFault::Count => 6,
            RecordFault::FirstNotZero => 7,
            RecordFault::Kind(_) => 8,
            RecordFault::Target(_) => 9,
            RecordFault::Field(_) => 10,
            RecordFault::Types(_) => 11,
            RecordFault::ReadOnly(_) => 12,
        }
    }

    pub(crate) fn place(self) -> usize
        ensures { result ≡ record_place self }
    {
        match self {
            RecordFault::Count | RecordFault::FirstNotZero => 0,
            RecordFault::Kind(i)
            | RecordFault::Target(i)
            | RecordFault::Field(i)
            | RecordFault::Types(i)
            | RecordFault::ReadOnly(i) => i,
        }
    }
}

// Matches and no casts: each variant carries a fault.
impl Fault {
    /// The part of the transform: 1 rows, 2 records, 3 table.
    pub fn layer(self) -> u8
        ensures { result ≡ layer self }
    {
        match self {
            Fault::Rows(_) => 1,
            Fault::Records(_) => 2,
            Fault::Table(_) => 3,
        }
    }

    /// The number of the broken rule, from 1 to 13 (docs/RULES.md, Checking a transform).
    pub fn cause(self) -> u8
        ensures { result ≡ cause self }
    {
        match self {
            Fault::Rows(f) => f.cause(),
            Fault::Records(f) => f.cause(),
            Fault::Table(TableFault::TooLong) => 13,
        }
    }

    /// The number of the row or record, and 0 where the fault is about neither.
    pub fn place(self) -> usize
        ensures { result ≡ place self }
    {
        match self {
            Fault::Rows(f) => f.place(),
            Fault::Records(f) => f.place(),
            Fault::Table(TableFault::TooLong) => 0,
        }
    }
}

impl fmt::Display for RowFault {
    ghost output = { λ f. Some (row_text f) };

    fn fmt<W: fmt::Write>(&self, f: &mut fmt::Formatter<W>) -> fmt::Result {
        f.write_str(match self {
            RowFault::Count => "broken rule: there are 1 to 64 rows",
            RowFault::Unknown(_) => "broken rule: the type is 1, 2 or 3, and the role 0, 1, 2 or 3",
            RowFault::Channel(_) =>
                "broken rule: a row of role 1 or 2 has a channel from 0 to 7 and type 3; any other row has channel 0",
            RowFault::Word(_) =>
                "broken rule: the word of a flag is 0 or 1, and the word of a row of role 1 is 0",
            RowFault::RepeatedOut(_) =>
                "broken rule: the channel of an out row is not that of an earlier out row",
        })
    }
}

impl fmt::Display for RecordFault {
    ghost output = { λ f. Some (record_text f) };

    fn fmt<W: fmt::Write>(&self, f: &mut fmt::Formatter<W>) -> fmt::Result {
        f.write_str(match self {
            RecordFault::Count => "broken rule: there are 2 to 512 records",
            RecordFault::FirstNotZero => "broken rule: every field of record 0 is 0",
            RecordFault::Kind(_) => "broken rule: the kind is one of 1 to 15",
            RecordFault::Target(_) => "broken rule: next names a record, and so does b of a branch",
            RecordFault::Field(_) =>
                "broken rule: every register that is used exists, and every field that is not used is 0",
            RecordFault::Types(_) =>
                "broken rule: the types suit the kind, and a literal for a flag is 0 or 1",
            RecordFault::ReadOnly(_) =>
                "broken rule: where the kind uses to, that register has neither role 1 nor role 3",
        })
    }
}

impl fmt::Display for TableFault {
    ghost output = { λ f. Some (table_text f) };

    fn fmt<W: fmt::Write>(&self, f: &mut fmt::Formatter<W>) -> fmt::Result {
        f.write_str(match self {
            TableFault::TooLong => "broken rule: there are at most 4,096 table words",
        })
    }
}

impl fmt::Display for Fault {
    ghost output = { λ f. Some (fault_text f) };

    fn fmt<W: fmt::Write>(&self, f: &mut fmt::Formatter<W>) -> fmt::Result {
        let layer = self.layer();
        let cause = self.cause();
        let place = self.place();
        write!(f, "layer {layer}, cause {cause}, place {place}, ")?;
        match self {
            Fault::Rows(rows) => write!(f, "{rows}"),
            Fault::Records(records) => write!(f, "{records}"),
            Fault::Table(table) => write!(f, "{table}"),
        }
    }
}

impl error::Error for RowFault {}

impl error::Error for RecordFault {}

impl error::Error for TableFault {}

impl error::Error for Fault {}
