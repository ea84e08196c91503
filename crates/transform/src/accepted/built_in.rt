//! The transform that is always there, to be held before any other is accepted.
ghost use Rattle.std.specs.Prelude.{◌≡◌, []};
ghost use Rattle.transform.specs.Fork.{fork_rows, fork_records};

use crate::accepted::Accepted;
use crate::parts::{FLAG, IN, NUMBER, OUT, Record, Row, WORK};

// Each field is written out, as the value of a constant may hold no call and so no default.
const ROWS: [Row; 4] = [
    Row {
        holds: NUMBER,
        role: IN,
        channel: 0,
        word: 0,
    },
    Row {
        holds: NUMBER,
        role: OUT,
        channel: 0,
        word: 0,
    },
    Row {
        holds: FLAG,
        role: WORK,
        channel: 0,
        word: 0,
    },
    Row {
        holds: NUMBER,
        role: WORK,
        channel: 0,
        word: 65_536,
    },
];

const RECORDS: [Record; 5] = [
    Record {
        kind: 0,
        to: 0,
        a: 0,
        b: 0,
        word: 0,
        next: 0,
    },
    Record {
        kind: 9,
        to: 2,
        a: 0,
        b: 3,
        word: 0,
        next: 2,
    },
    Record {
        kind: 15,
        to: 0,
        a: 2,
        b: 4,
        word: 0,
        next: 3,
    },
    Record {
        kind: 2,
        to: 1,
        a: 0,
        b: 0,
        word: 0,
        next: 0,
    },
    Record {
        kind: 3,
        to: 1,
        a: 0,
        b: 3,
        word: 0,
        next: 0,
    },
];

/// The built-in transform: an input below the start word of row 3 is copied out, any other has that word added.
pub fn fork<'a>() -> Accepted<'a>
    ensures rows { result.rows.now ≡ fork_rows }
    ensures records { result.records.now ≡ fork_records }
    ensures table { result.table.now ≡ [] }
{
    Accepted {
        rows: &ROWS,
        records: &RECORDS,
        table: &[],
    }
}
