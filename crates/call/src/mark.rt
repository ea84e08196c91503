//! What a run reports of a pixel, and what it answers.
ghost use Rattle.std.specs.Prelude.{◌≡◌};
ghost use Rattle.call.specs.Frames.{mark_of};

use engine::ending::Ending;
use engine::pixel::Pixel;

/// How one pixel's run ended, at which place and after how many steps.
#[derive(Clone, Copy, PartialEq, Eq, Debug)]
pub struct Mark {
    pub ending: Ending,
    pub place: u16,
    pub steps: u16,
}

/// What a run that serves its batch answers: the batch's rounds and the kind's number.
#[derive(Clone, Copy, PartialEq, Eq, Debug)]
pub struct Answer {
    pub rounds: u32,
    // A number, as the rules ask a run for the kind's number.
    pub kind: u8,
}

impl Mark {
    // What is reported of the end of a run.
    pub(crate) fn of(end: &Pixel) -> Mark
        ensures { result ≡ mark_of end.now }
    {
        Mark {
            // The end of a run has an ending; a pixel on its way would be told as spent.
            ending: end.ending.unwrap_or(Ending::Spent),
            place: end.place,
            steps: end.steps,
        }
    }
}
