//! The rule of the table.
ghost use Rattle.std.specs.Prelude.{◌≡◌};
ghost use Rattle.transform.specs.Check.{table_answer};

use crate::fault::TableFault;
use crate::parts::MOST_WORDS;

pub(crate) fn check_table(table: &[u32]) -> Result<(), TableFault>
    ensures { result ≡ table_answer table.now }
{
    if table.len() > MOST_WORDS {
        return Err(TableFault::TooLong);
    }
    Ok(())
}
