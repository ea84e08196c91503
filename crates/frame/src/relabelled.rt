ghost use Rattle.std.specs.Prelude.{◌≡◌, ◌≤◌, true, is_ok, length};
ghost use Rattle.frame.specs.Image.{inside, put_image};
ghost use Rattle.frame.specs.Relabel.{all_below, distinct, relabelled_image, put_below};

use crate::labels::Labels;
use crate::readable::Readable;
use crate::writable::{Outside, Writable};

/// A frame whose channel c is the channel `labels[c]` of the frame below.
/// The labels lie in the frame itself: what is put below then cannot change them, and a loop reads them once.
#[derive(Drop)]
pub struct Relabelled<F: Readable> {
    below: F,
    labels: Labels,
    ghost few: { length labels ≤ 8 },
    ghost exist: { all_below (F.Readable.image below).channels labels ≡ true },
    ghost apart: { distinct labels ≡ true },
}

impl<F: Readable> Relabelled<F> {
    ghost use Rattle.frame.specs.Frames.{relabelled_of};

    /// The channels of a frame chosen and ordered by a list, within the limits.
    pub fn new(below: F, labels: &[usize]) -> Relabelled<F>
        ensures image { relabelled_of result ≡ relabelled_image labels.now (F.Readable.image below) }
        ensures below { result.below ≡ below }
    {
        let labels = Labels::new(labels, below.channels());
        Relabelled { below, labels }
    }

    /// The frame below again.
    pub fn into_below(self) -> F
        ensures { result ≡ self.below }
    {
        let Relabelled { below, labels: _ } = self;
        below
    }
}

impl<F: Readable> Readable for Relabelled<F> {
    ghost use Rattle.frame.specs.Frames.{relabelled_of};

    ghost image = { relabelled_of };

    fn pixels(&self) -> usize {
        if self.labels.is_empty() {
            0
        } else {
            self.below.pixels()
        }
    }

    fn channels(&self) -> usize {
        self.labels.len()
    }

    #[tactic(auto, using(crate::proofs::Relabels::through))]
    fn get(&self, pixel: usize, channel: usize) -> Option<u32> {
        let label = self.labels.get(channel)?;
        self.below.get(pixel, label)
    }
}

impl<F: Writable> Writable for Relabelled<F> {
    ghost use Rattle.frame.specs.Frames.{relabelled_of};

    #[tactic(auto, using(crate::proofs::Relabels::through))]
    fn put(&mut self, pixel: usize, channel: usize, word: u32) -> Result<(), Outside>
        ensures answer { is_ok result ≡ inside (relabelled_of self.old) pixel channel }
        ensures after { relabelled_of self.new ≡ put_image (relabelled_of self.old) pixel channel word }
        ensures below { F.Readable.image self.new.below ≡ put_below self.old.labels (F.Readable.image self.old.below) pixel channel word }
        ensures labels { self.new.labels ≡ self.old.labels }
    {
        let label = self.labels.get(channel).ok_or(Outside)?;
        self.below.put(pixel, label, word)
    }
}
