//! How a pixel's run ends.
ghost use Rattle.std.specs.Prelude.{◌≡◌, Some};
ghost use Rattle.engine.specs.Endings.{ending_number, ending_text};
ghost use Rattle.engine.specs.declared.ending.Ending.TheVariants.{Stopped};

use number::kind::Stop;
use std::fmt;

/// How a run ended.
#[derive(Clone, Copy, PartialEq, Eq, Debug)]
pub enum Ending {
    /// The chain of records came to its end.
    Done,
    /// An operation stopped.
    Stopped(Stop),
    /// A look-up went outside the table.
    OutsideTable,
    /// The budget was used up before the chain's end.
    Spent,
}

impl Ending {
    /// The number by which an ending is reported, 0 to 4.
    pub fn number(self) -> u8
        ensures { result ≡ ending_number self }
    {
        // A match and no cast: a variant that carries a stop has no number of its own.
        match self {
            Ending::Done => 0,
            Ending::Stopped(stop) => stop.number(),
            Ending::OutsideTable => 3,
            Ending::Spent => 4,
        }
    }
}

impl From<Stop> for Ending {
    ghost from_gives = { λ stop ending. ending ≡ Stopped stop };

    fn from(stop: Stop) -> Ending {
        Ending::Stopped(stop)
    }
}

impl fmt::Display for Ending {
    ghost output = { λ ending. Some (ending_text ending) };

    fn fmt<W: fmt::Write>(&self, f: &mut fmt::Formatter<W>) -> fmt::Result {
        match self {
            Ending::Done => f.pad("done"),
            Ending::Stopped(stop) => stop.fmt(f),
            Ending::OutsideTable => f.pad("outside the table"),
            Ending::Spent => f.pad("spent"),
        }
    }
}
