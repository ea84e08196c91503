//! What a call is set up with.
ghost use Rattle.std.specs.Prelude.{◌≡◌};
ghost use Rattle.number.specs.Meaning.{Meaning};
ghost use Rattle.engine.specs.Runs.{setting};
ghost use Rattle.call.specs.Setups.{setting_with};

use engine::budget::Budget;
use engine::settings::Settings;
use transform::Accepted;

// The transform, the budget, and for each row a word: that of a uniform may be set.
// Not the engine's settings: these borrow their words, and a call owns its own, with no heap.
#[derive(Clone, Copy)]
pub(crate) struct Setup<'a> {
    pub transform: Accepted<'a>,
    pub budget: Budget,
    pub uniforms: [u32; 64],
}

impl Setup<'_> {
    // The settings that runs are asked of.
    pub fn settings(&self) -> Settings<'_>
        ensures { (m : Meaning) → setting m result ≡ setting_with m self.now }
    {
        Settings {
            transform: self.transform,
            budget: self.budget,
            uniforms: &self.uniforms,
        }
    }
}
