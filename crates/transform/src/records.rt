//! The rules of the records.
ghost use Rattle.std.specs.Prelude.{◌≡◌, length, Some};
ghost use Rattle.transform.specs.Check.{step_answer, record_rules, records_answer};
ghost use Rattle.transform.specs.Kinds.{suits};
ghost use Rattle.transform.specs.Rules.{record_count_suits, leads_inside, record_fields_suit, types_rule, writable, record_writes_suit};

use crate::fault::RecordFault;
use crate::kind::{Fields, RecordKind};
use crate::parts::{MOST_RECORDS, Record, Row, row_at};

impl Row {
    fn is_writable(self) -> bool
        ensures { result ≡ writable self }
    {
        !self.is_in() && !self.is_uniform()
    }
}

impl RecordKind {
    // Whether registers that hold what these rows say suit the kind, and so does the word.
    fn suits(self, to: Row, a: Row, b: Row, word: u32) -> bool
        ensures { result ≡ suits self to.holds a.holds b.holds word }
    {
        match self {
            RecordKind::Literal => !to.is_flag() || word <= 1,
            RecordKind::Copy => a.holds == to.holds,
            RecordKind::Add | RecordKind::Subtract | RecordKind::Multiply | RecordKind::Divide =>
                to.is_count() && a.holds == to.holds && b.holds == to.holds,
            RecordKind::Remainder => to.is_whole() && a.is_whole() && b.is_whole(),
            RecordKind::Negate => to.is_count() && a.holds == to.holds,
            RecordKind::Less | RecordKind::Equal => to.is_flag()
                && a.is_count()
                && b.holds == a.holds,
            RecordKind::Not => to.is_flag() && a.is_flag(),
            RecordKind::ToNumber | RecordKind::LookUp => to.is_number() && a.is_whole(),
            RecordKind::ToWhole => to.is_whole() && a.is_number(),
            RecordKind::Branch => a.is_flag(),
        }
    }
}

// A record that is judged, at its place among so many records, over the rows.
#[derive(Clone, Copy)]
struct Candidate<'a> {
    rows: &'a [Row],
    records: usize,
    judged: Record,
    place: usize,
}

impl Candidate<'_> {
    fn leads_inside(&self, fields: Fields) -> bool
        ensures { result ≡ leads_inside fields self.now.records self.now.judged }
    {
        let leads = |place: u16| usize::from(place) < self.records;
        match fields {
            Fields::Word | Fields::One | Fields::Two => leads(self.judged.next),
            Fields::Fork => leads(self.judged.next) && leads(self.judged.b),
        }
    }

    fn fields_suit(&self, fields: Fields) -> bool
        ensures { result ≡ record_fields_suit fields (length self.now.rows.now) self.now.judged }
    {
        let c = self.judged;
        let is_row = |register: u16| usize::from(register) < self.rows.len();
        match fields {
            Fields::Word => is_row(c.to) && c.a == 0 && c.b == 0,
            Fields::One => is_row(c.to) && is_row(c.a) && c.b == 0 && c.word == 0,
            Fields::Two => is_row(c.to) && is_row(c.a) && is_row(c.b) && c.word == 0,
            Fields::Fork => c.to == 0 && is_row(c.a) && c.word == 0,
        }
    }

    fn types_suit(&self, kind: RecordKind) -> bool
        ensures { result ≡ types_rule self.now.rows.now kind self.now.judged }
    {
        let c = self.judged;
        kind.suits(
            row_at(self.rows, c.to),
            row_at(self.rows, c.a),
            row_at(self.rows, c.b),
            c.word,
        )
    }

    fn writes_suit(&self, fields: Fields) -> bool
        ensures { result ≡ record_writes_suit fields self.now.rows.now self.now.judged }
    {
        let to = row_at(self.rows, self.judged.to);
        match fields {
            Fields::Word | Fields::One | Fields::Two => to.is_writable(),
            Fields::Fork => true,
        }
    }

    fn check_step(&self, kind: RecordKind) -> Result<(), RecordFault>
        ensures { result ≡ step_answer (Some kind) self.now.rows.now self.now.records self.now.judged self.now.place }
    {
        let fields = kind.fields();
        if !self.leads_inside(fields) {
            return Err(RecordFault::Target(self.place));
        }
        if !self.fields_suit(fields) {
            return Err(RecordFault::Field(self.place));
        }
        if !self.types_suit(kind) {
            return Err(RecordFault::Types(self.place));
        }
        if !self.writes_suit(fields) {
            return Err(RecordFault::ReadOnly(self.place));
        }
        Ok(())
    }

    fn check(&self) -> Result<(), RecordFault>
        ensures { result ≡ record_rules self.now.rows.now self.now.records self.now.judged self.now.place }
    {
        let place = self.place;
        if place == 0 {
            return if self.judged == Record::default() {
                Ok(())
            } else {
                Err(RecordFault::FirstNotZero)
            };
        }
        let kind = RecordKind::try_from(self.judged.kind).map_err(|_| RecordFault::Kind(place))?;
        self.check_step(kind)
    }
}

#[tactic(auto, using(crate::proofs::Throughout::throughout_more))]
pub(crate) fn check_records(rows: &[Row], records: &[Record]) -> Result<(), RecordFault>
    ensures { result ≡ records_answer rows.now records.now }
{
    if !(2..=MOST_RECORDS).contains(&records.len()) {
        return Err(RecordFault::Count);
    }
    for (place, record) in records.iter().enumerate() {
        let candidate = Candidate {
            rows,
            records: records.len(),
            judged: *record,
            place,
        };
        candidate.check()?;
    }
    Ok(())
}
