//! Rows and records on one line each.
use transform::{Record, Row};

/// A row by its fields, in the order of docs/RULES.md, "Rows".
pub fn row(holds: u16, role: u16, channel: u16, word: u32) -> Row {
    Row {
        holds,
        role,
        channel,
        word,
    }
}

/// A record by its fields, in the order of docs/RULES.md, "Records".
pub fn record(kind: u16, to: u16, a: u16, b: u16, word: u32, next: u16) -> Record {
    Record {
        kind,
        to,
        a,
        b,
        word,
        next,
    }
}
