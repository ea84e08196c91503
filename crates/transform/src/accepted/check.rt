//! The check of a transform.
ghost use Rattle.std.specs.Prelude.{◌≡◌, true, is_ok};
ghost use Rattle.transform.specs.Breach.{Judged};
ghost use Rattle.transform.specs.Check.{checked};
ghost use Rattle.transform.specs.Held.{Filled};
ghost use Rattle.transform.specs.Keeps.{Keeps};

use crate::accepted::Accepted;
use crate::fault::Fault;
use crate::parts::{Record, Row};
use crate::records::check_records;
use crate::rows::check_rows;
use crate::table::check_table;

// The answer of the check, whatever is held.
fn judge(rows: &[Row], records: &[Record], table: &[u32]) -> Result<(), Fault>
    ensures { result ≡ checked rows.now records.now table.now }
{
    check_rows(rows)?;
    check_records(rows, records)?;
    check_table(table)?;
    Ok(())
}

/// Holds the transform from now on if it keeps every rule; else answers the first breach, and what is held stays.
#[tactic(auto, using(crate::proofs::Kept::judged, crate::proofs::Kept::accepts, crate::proofs::Kept::kept))]
pub fn check<'a>(
    held: &mut Accepted<'a>,
    rows: &'a [Row],
    records: &'a [Record],
    table: &'a [u32],
) -> Result<(), Fault>
    ensures answer { result ≡ checked rows.now records.now table.now }
    ensures judges { Judged rows.now records.now table.now result }
    ensures exactly { Keeps rows.now records.now table.now → is_ok result ≡ true }
    ensures holds { Filled held.old held.new result rows.now records.now table.now }
{
    judge(rows, records, table)?;
    *held = Accepted {
        rows,
        records,
        table,
    };
    Ok(())
}
