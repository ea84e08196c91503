//! The rules of the rows.
ghost use Rattle.std.specs.Prelude.{◌≡◌, length};
ghost use Rattle.std.specs.List.{list_any};
ghost use Rattle.transform.specs.Check.{row_rules, rows_answer};
ghost use Rattle.transform.specs.Rules.{row_count_suits, row_known, channel_suits, word_suits, out_on, out_alone};

use crate::fault::RowFault;
use crate::parts::{CHANNELS, FLAG, MOST_ROWS, NUMBER, Row, UNIFORM};

impl Row {
    fn is_known(self) -> bool
        ensures { result ≡ row_known self }
    {
        (FLAG..=NUMBER).contains(&self.holds) && self.role <= UNIFORM
    }

    fn channel_suits(self) -> bool
        ensures { result ≡ channel_suits self }
    {
        if self.is_in() || self.is_out() {
            self.is_number() && self.channel < CHANNELS
        } else {
            self.channel == 0
        }
    }

    fn word_suits(self) -> bool
        ensures { result ≡ word_suits self }
    {
        let flag_suits = !self.is_flag() || self.word <= 1;
        let in_suits = !self.is_in() || self.word == 0;
        flag_suits && in_suits
    }

    fn is_out_on(self, channel: u16) -> bool
        ensures { result ≡ out_on self channel }
    {
        self.is_out() && self.channel == channel
    }

    // Whether none of the earlier rows is an out row with its channel, if it is one.
    fn is_out_alone(self, earlier: &[Row]) -> bool
        ensures { result ≡ out_alone earlier.now self }
    {
        !self.is_out() || !has_out_on(earlier, self.channel)
    }

    // The rules of the row that comes after the earlier ones.
    fn check(self, earlier: &[Row]) -> Result<(), RowFault>
        ensures { result ≡ row_rules earlier.now self (length earlier.now) }
    {
        let i = earlier.len();
        if !self.is_known() {
            return Err(RowFault::Unknown(i));
        }
        if !self.channel_suits() {
            return Err(RowFault::Channel(i));
        }
        if !self.word_suits() {
            return Err(RowFault::Word(i));
        }
        if !self.is_out_alone(earlier) {
            return Err(RowFault::RepeatedOut(i));
        }
        Ok(())
    }
}

fn has_out_on(rows: &[Row], channel: u16) -> bool
    ensures { result ≡ list_any (λ r. out_on r channel) rows.now }
{
    rows.iter().any(|row| row.is_out_on(channel))
}

#[tactic(auto, using(crate::proofs::Throughout::throughout_more))]
pub(crate) fn check_rows(rows: &[Row]) -> Result<(), RowFault>
    ensures { result ≡ rows_answer rows.now }
{
    if !(1..=MOST_ROWS).contains(&rows.len()) {
        return Err(RowFault::Count);
    }
    for (i, row) in rows.iter().enumerate() {
        row.check(&rows[..i])?;
    }
    Ok(())
}
