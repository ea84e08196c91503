//! A call that is being set up.
ghost use Rattle.std.specs.Prelude.{◌≡◌};
ghost use Rattle.call.specs.Tallies.{empty};
ghost use Rattle.call.specs.Setups.{defaults, set_answer, after_set};

use crate::armed::Armed;
use crate::refusal::SetRefusal;
use crate::setup::Setup;
use engine::budget::Budget;
use transform::Accepted;

/// A call whose uniforms may be set. It may be let go.
#[derive(Drop)]
pub struct Open<'a> {
    setup: Setup<'a>,
}

// The word of each row.
fn row_words(transform: &Accepted) -> [u32; 64]
    ensures { result ≡ defaults transform.now.rows.now }
{
    // No from_fn: of 64 calls the check keeps no tie to the transform that the closure holds.
    let mut words = [0; 64];
    for (i, word) in words.iter_mut().enumerate() {
        *word = transform.row_at(i as u16).word;
    }
    words
}

impl<'a> Open<'a> {
    /// Opens a call: no uniform is set, so each has its row's word.
    pub fn new(transform: Accepted<'a>, budget: Budget) -> Open<'a>
        ensures transform { result.setup.transform ≡ transform.entry }
        ensures budget { result.setup.budget ≡ budget }
        ensures uniforms { result.setup.uniforms ≡ defaults transform.entry.rows.now }
    {
        let uniforms = row_words(&transform);
        Open {
            setup: Setup {
                transform,
                budget,
                uniforms,
            },
        }
    }

    /// Sets the word of the uniform in a row; of several, the latest holds.
    /// A refused set leaves the call as it was.
    pub fn set(&mut self, row: u16, word: u32) -> Result<(), SetRefusal>
        ensures answer { result ≡ set_answer self.old.setup.transform.rows.now row word }
        ensures after { self.new.setup ≡ after_set self.old.setup row word }
    {
        let given = self.setup.transform.row_at(row);
        if !given.is_uniform() {
            return Err(SetRefusal::NoUniform);
        }
        if given.is_flag() && word > 1 {
            return Err(SetRefusal::FlagWord);
        }
        self.setup.uniforms[usize::from(row)] = word;
        Ok(())
    }

    /// Fixes the settings. The open call is used up.
    pub fn arm(self) -> Armed<'a>
        ensures setup { result.setup ≡ self.entry.setup }
        ensures tally { result.tally ≡ empty }
    {
        Armed::fresh(self.setup)
    }
}
