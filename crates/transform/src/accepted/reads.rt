//! Reads of an accepted transform: each takes any number.
ghost use Rattle.std.specs.Prelude.{◌≡◌, ◌<◌, ◌≤◌, true, length, is_some, IfSome};
ghost use Rattle.transform.specs.Parts.{most_words, IsRowCount, IsRecordCount, row_at, record_at, word_at};
ghost use Rattle.transform.specs.Held.{SoundIn};
ghost use Rattle.transform.specs.Steps.{step_at};

use crate::accepted::Accepted;
use crate::kind::RecordKind;
use crate::parts;
use crate::parts::{Record, Row};
use crate::step::Step;

impl Accepted<'_> {
    /// How many registers there are.
    pub fn row_count(&self) -> usize
        ensures count { result ≡ length self.now.rows.now }
        ensures few { IsRowCount result }
    {
        self.rows.len()
    }

    /// How many records there are, record 0 among them.
    pub fn record_count(&self) -> usize
        ensures count { result ≡ length self.now.records.now }
        ensures few { IsRecordCount result }
    {
        self.records.len()
    }

    /// How many words the table has.
    pub fn table_len(&self) -> usize
        ensures count { result ≡ length self.now.table.now }
        ensures few { result ≤ most_words }
    {
        self.table.len()
    }

    /// The row, or one of zeros where there is none.
    pub fn row_at(&self, i: u16) -> Row
        ensures row { result ≡ row_at self.now.rows.now i }
        ensures there { 0 < result.role → i < length self.now.rows.now }
    {
        parts::row_at(self.rows, i)
    }

    /// The record, or one of zeros where there is none.
    pub fn record_at(&self, place: u16) -> Record
        ensures { result ≡ record_at self.now.records.now place }
    {
        self.records
            .get(usize::from(place))
            .copied()
            .unwrap_or_default()
    }

    /// The step at the place: none at place 0, nor where there is no record.
    pub fn step_at(&self, place: u16) -> Option<Step>
        ensures step { result ≡ step_at self.now.rows.now self.now.records.now place }
        ensures found { 0 < place → place < length self.now.records.now → is_some result ≡ true }
        ensures sound { IfSome result (SoundIn self.now) }
    {
        if place == 0 {
            return None;
        }
        let c = self.record_at(place);
        let kind = RecordKind::try_from(c.kind).ok()?;
        Some(c.step(kind, self.rows))
    }

    /// The word of the table with the index, from 0; none outside.
    pub fn table_word(&self, index: u32) -> Option<u32>
        ensures { result ≡ word_at self.now.table.now index }
    {
        self.table.get(index as usize).copied()
    }
}
