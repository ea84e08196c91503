//! How many steps a pixel may take.
ghost use Rattle.std.specs.Prelude.{◌≡◌, ◌^◌, ◌<◌, Some, MatchResult};
ghost use Rattle.engine.specs.Endings.{zero_budget, zero_budget_text};

use std::error::Error;
use std::fmt;

/// A number of steps, never 0.
#[derive(Clone, Copy)]
pub struct Budget {
    steps: u16,
    ghost some: { 0 < steps },
    // Behind a reference a proof knows no bound of a number that the code has not read.
    ghost few: { steps < 2 ^ 16 },
}

/// The refusal of a budget of 0 steps.
#[derive(Clone, Copy, PartialEq, Eq, Debug)]
pub struct ZeroBudget;

impl ZeroBudget {
    /// The number by which this refusal is reported, 14.
    pub fn number(self) -> u8
        ensures { result ≡ zero_budget }
    {
        14
    }
}

impl fmt::Display for ZeroBudget {
    ghost output = { λ _. Some zero_budget_text };

    fn fmt<W: fmt::Write>(&self, f: &mut fmt::Formatter<W>) -> fmt::Result {
        f.write_str("a budget of 0 steps")
    }
}

impl Error for ZeroBudget {}

impl Budget {
    /// The budget of so many steps; 0 is refused.
    pub fn new(steps: u16) -> Result<Budget, ZeroBudget>
        ensures { MatchResult result (λ b. b.steps ≡ steps) (λ _. steps ≡ 0) }
    {
        if steps == 0 {
            return Err(ZeroBudget);
        }
        Ok(Budget { steps })
    }

    /// How many steps it allows.
    pub fn steps(self) -> u16
        ensures value { result ≡ self.steps }
        ensures some { 0 < result }
    {
        self.steps
    }
}
