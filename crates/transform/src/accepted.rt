//! The accepted transform.
ghost use Rattle.std.specs.Prelude.{◌≡◌, ◌≤◌, true, length, is_ok};
ghost use Rattle.transform.specs.Check.{checked};
ghost use Rattle.transform.specs.Parts.{most_words, IsRowCount, IsRecordCount};

use crate::parts::{Record, Row};

/// A transform that keeps every rule, in memory that its owner lent.
#[derive(Clone, Copy)]
pub struct Accepted<'a> {
    rows: &'a [Row],
    records: &'a [Record],
    table: &'a [u32],
    ghost few_rows: { IsRowCount (length rows.now) },
    ghost few_records: { IsRecordCount (length records.now) },
    ghost few_words: { length table.now ≤ most_words },
    ghost accepted: { is_ok (checked rows.now records.now table.now) ≡ true },
}

impl<'a> Accepted<'a> {
    /// The rows, in their order.
    pub fn rows(&self) -> &'a [Row]
        ensures { result.now ≡ self.now.rows.now }
    {
        self.rows
    }

    /// The records, record 0 among them.
    pub fn records(&self) -> &'a [Record]
        ensures { result.now ≡ self.now.records.now }
    {
        self.records
    }
}

pub mod built_in;
pub mod check;
pub mod reads;
