//! What a call has served so far.
ghost use Rattle.std.specs.Prelude.{◌≡◌, ◌+◌, ◌*◌, ◌^◌, ◌<◌, ◌≤◌, length};
ghost use Rattle.call.specs.Tallies.{most_served, Sound, Counted, added, Tallied};

use crate::mark::Mark;

/// At most so many pixels are served in one call, repeats counted.
pub const MOST_SERVED: usize = 16_777_216;

/// How many marks had each of the endings 0 to 4, how many pixels were served, and the sum of the rounds.
// Its bounds are asked in clauses and not kept in the type: the fields are public, and whoever made one would owe them.
#[derive(Clone, Copy)]
pub struct Tally {
    // By the number of an ending, as closing a call tells them.
    pub endings: [u32; 5],
    pub served: u32,
    pub rounds: u64,
}

impl Tally {
    // Counts the endings of some marks.
    fn count_endings(&mut self, marks: &[Mark])
        requires sound { Sound self.old }
        requires room { length marks.now ≤ most_served }
        ensures { Counted self.old marks.now self.new }
    {
        for mark in marks {
            self.endings[mark.ending.number() as usize] += 1;
        }
    }

    // Adds pixels that were served, and their rounds.
    fn add(&mut self, pixels: u32, rounds: u32)
        requires served { self.old.served + pixels < 2 ^ 32 }
        requires rounds { self.old.rounds + rounds < 2 ^ 64 }
        ensures { self.new ≡ added self.old pixels rounds }
    {
        self.served += pixels;
        self.rounds += u64::from(rounds);
    }

    // Adds a batch that was served: its marks and its rounds.
    pub(crate) fn note(&mut self, marks: &[Mark], rounds: u32)
        requires sound { Sound self.old }
        requires room { self.old.served + length marks.now ≤ most_served }
        requires few { rounds ≤ 65535 * length marks.now }
        ensures tallied { Tallied self.old marks.now rounds self.new }
        ensures sound { Sound self.new }
    {
        self.count_endings(marks);
        self.add(marks.len() as u32, rounds);
    }
}
