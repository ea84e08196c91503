//! A batch that is served.
ghost use Rattle.std.specs.Prelude.{◌≡◌, ◌+◌, ◌*◌, ◌^◌, ◌<◌, ◌≤◌, map, length, take};
ghost use Rattle.call.specs.Setups.{setting_with};
ghost use Rattle.call.specs.Frames.{ends_put, mark_of};
ghost use Rattle.call.specs.Events.{batch_ends, batch_rounds};

use crate::inputs::fill_words;
use crate::mark::Mark;
use crate::outputs::fill_marks;
use crate::setup::Setup;
use engine::batch::{Batch, MOST_PIXELS};
use frame::readable::Readable;
use frame::writable::Writable;
use number::kind::NumberKind;

impl Setup<'_> {
    // A start and a count, as the definitions of a batch have them.
    // Runs pixels of the frame, from `first` on, in the first places of a batch; answers their rounds.
    fn run_pixels<K: NumberKind, I: Readable>(
        &self,
        input: &I,
        first: usize,
        count: usize,
        batch: &mut Batch,
    ) -> u32
        requires few { count ≤ 64 }
        requires end { first + count < 2 ^ 64 }
        ensures ends { take count batch.new.pixels ≡ batch_ends (setting_with K.NumberKind.meaning self.now) (I.Readable.image input.now) first count }
        ensures long { length (take count batch.new.pixels) ≡ count }
        ensures rounds { result ≡ batch_rounds (setting_with K.NumberKind.meaning self.now) (I.Readable.image input.now) first count }
        ensures few { result ≤ 65535 * count }
    {
        let mut words = [[0; 8]; MOST_PIXELS];
        let words = &mut words[..count];
        fill_words::<I>(input, first, words);
        self.settings().run_together::<K>(words, batch)
    }

    // Serves the pixels from `first` on, one for each mark; answers their rounds.
    pub(crate) fn serve<K: NumberKind, I: Readable, O: Writable>(
        &self,
        input: &I,
        output: &mut O,
        first: usize,
        marks: &mut [Mark],
    ) -> u32
        requires few { length marks.old ≤ 64 }
        requires end { first + length marks.old < 2 ^ 64 }
        ensures marks { marks.new ≡ map mark_of (batch_ends (setting_with K.NumberKind.meaning self.now) (I.Readable.image input.now) first (length marks.old)) }
        ensures image { O.Readable.image output.new ≡ ends_put self.now.transform.rows.now (batch_ends (setting_with K.NumberKind.meaning self.now) (I.Readable.image input.now) first (length marks.old)) first (O.Readable.image output.old) }
        ensures rounds { result ≡ batch_rounds (setting_with K.NumberKind.meaning self.now) (I.Readable.image input.now) first (length marks.old) }
        ensures few { result ≤ 65535 * length marks.old }
    {
        let mut batch = Batch::new();
        let rounds = self.run_pixels::<K, I>(input, first, marks.len(), &mut batch);
        let ends = &batch.pixels()[..marks.len()];
        fill_marks(ends, marks);
        self.write_ends::<O>(ends, output, first);
        rounds
    }
}
