//! Why a call refuses what it is asked. The table stands in docs/RULES.md, Refusals.
ghost use Rattle.std.specs.Prelude.{◌≡◌, Some};
ghost use Rattle.call.specs.Refusals.{set_number, set_text, run_number, run_text};

use std::error::Error;
use std::fmt;

/// Why a uniform is not set.
#[derive(Clone, Copy, PartialEq, Eq, Debug)]
pub enum SetRefusal {
    /// The row does not exist or is not a uniform.
    NoUniform = 15,
    /// The uniform is a flag and the word is above 1.
    FlagWord = 16,
}

impl SetRefusal {
    /// The number by which the refusal is reported, 15 or 16.
    pub fn number(self) -> u8
        ensures { result ≡ set_number self }
    {
        self as u8
    }
}

impl fmt::Display for SetRefusal {
    ghost output = { λ refusal. Some (set_text refusal) };

    fn fmt<W: fmt::Write>(&self, f: &mut fmt::Formatter<W>) -> fmt::Result {
        f.write_str(match self {
            SetRefusal::NoUniform => "the row does not exist or is not a uniform",
            SetRefusal::FlagWord => "the uniform is a flag and the word is above 1",
        })
    }
}

impl Error for SetRefusal {}

/// Why a run is not served.
#[derive(Clone, Copy, PartialEq, Eq, Debug)]
pub enum RunRefusal {
    /// The count is 0 or above 64.
    Count = 17,
    /// The pixel counts of the two frames differ.
    PixelCounts = 18,
    /// The batch passes the last pixel.
    PastEnd = 19,
    /// The channel of an in row is not in the in frame, or that of an out row not in the out frame.
    Channel = 20,
    /// The list of marks is not as long as the batch.
    Marks = 21,
    /// The call would serve more than 16,777,216 pixels.
    Served = 22,
}

impl RunRefusal {
    /// The number by which the refusal is reported, 17 to 22.
    pub fn number(self) -> u8
        ensures { result ≡ run_number self }
    {
        self as u8
    }
}

impl fmt::Display for RunRefusal {
    ghost output = { λ refusal. Some (run_text refusal) };

    fn fmt<W: fmt::Write>(&self, f: &mut fmt::Formatter<W>) -> fmt::Result {
        f.write_str(match self {
            RunRefusal::Count => "count is 0 or above 64",
            RunRefusal::PixelCounts => "the pixel counts of the two frames differ",
            RunRefusal::PastEnd => "the batch passes the last pixel",
            RunRefusal::Channel =>
                "the channel of an in row is not in the in frame, or that of an out row not in the out frame",
            RunRefusal::Marks => "the list of marks does not have exactly count marks",
            RunRefusal::Served => "the call would pass 16,777,216 served pixels, repeats counted",
        })
    }
}

impl Error for RunRefusal {}
