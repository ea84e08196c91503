//! A call whose settings are fixed.
ghost use Rattle.std.specs.Prelude.{◌≡◌};
ghost use Rattle.call.specs.Tallies.{Sound, empty};

use crate::setup::Setup;
use crate::tally::Tally;

/// A call that runs. It may be let go, and its tally is lost then.
#[derive(Drop)]
pub struct Armed<'a> {
    setup: Setup<'a>,
    tally: Tally,
    ghost sound: { Sound tally },
}

pub mod run;

impl<'a> Armed<'a> {
    // A call that has served nothing yet.
    pub(crate) fn fresh(setup: Setup<'a>) -> Armed<'a>
        ensures setup { result.setup ≡ setup.entry }
        ensures tally { result.tally ≡ empty }
    {
        let tally = Tally {
            endings: [0; 5],
            served: 0,
            rounds: 0,
        };
        Armed { setup, tally }
    }

    /// Ends the call; answers how often each ending occurred in the batches that it served, and the sum of their rounds.
    pub(crate) fn close(self) -> Tally
        ensures { result ≡ self.entry.tally }
    {
        self.tally
    }
}
