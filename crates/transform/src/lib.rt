//! A transform is a list of rows (its registers), a list of records (its steps) and a table of words.
//! It is checked once: `check` fills an `Accepted` transform, whose reads then need no test.
#![tactic(auto)]

pub mod accepted;
pub mod fault;
pub mod kind;
pub mod parts;
mod records;
mod rows;
pub mod step;
mod table;

pub use accepted::Accepted;
pub use accepted::built_in::fork;
pub use accepted::check::check;
pub use fault::{Fault, RecordFault, RowFault, TableFault};
pub use kind::RecordKind;
pub use parts::{Record, Row};
pub use step::Step;
