//! The run of an armed call on frames.
ghost use Rattle.std.specs.Prelude.{◌≡◌};
ghost use Rattle.call.specs.Setups.{setting_with};
ghost use Rattle.call.specs.Events.{Ran};

use crate::armed::Armed;
use crate::mark::{Answer, Mark};
use crate::refusal::RunRefusal;
use crate::request::Request;
use frame::readable::Readable;
use frame::writable::Writable;
use number::kind::NumberKind;

impl Armed<'_> {
    /// Serves a batch: `count` pixels of the frames, from `first` on, each as if it ran by itself.
    /// The marks are filled in pixel order, and the out words of the pixels that are done are written.
    /// A refused run alters nothing.
    // A start and a count, as the rules have a run asked for.
    pub fn run<K: NumberKind, I: Readable, O: Writable>(
        &mut self,
        input: &I,
        output: &mut O,
        first: usize,
        count: usize,
        marks: &mut [Mark],
    ) -> Result<Answer, RunRefusal>
        ensures setup { self.new.setup ≡ self.old.setup }
        ensures ran { Ran (setting_with K.NumberKind.meaning self.old.setup)
            (I.Readable.image input.now)
            (O.Readable.image output.old)
            self.old.tally
            (record {
              first = first;
              count = count;
              given = marks.old;
              filled = marks.new;
              answer = result;
              out = O.Readable.image output.new;
              tally = self.new.tally;
            }) }
    {
        let request = Request {
            first,
            count,
            marks: marks.len(),
        };
        let served = self.tally.served;
        request.check::<I, O>(&self.setup.transform, served, input, output)?;
        let rounds = self.setup.serve::<K, I, O>(input, output, first, marks);
        self.tally.note(marks, rounds);
        Ok(Answer {
            rounds,
            kind: K::NUMBER,
        })
    }
}
