ghost use Rattle.std.specs.Prelude.{◌≡◌, ◌<◌, is_ok, vec_len, IfSome};
ghost use Rattle.frame.specs.Image.{inside, put_image};
ghost use Rattle.frame.specs.Size.{fitting};
ghost use Rattle.frame.specs.Layout.{planar_image, put_plane, plane_place};

use crate::readable::Readable;
use crate::size::Size;
use crate::writable::{Outside, Writable};

/// A frame in words, channel after channel. Words beyond the last pixel are unused.
#[derive(Drop)]
pub struct Planar {
    size: Size,
    words: Vec<u32>,
    ghost fits: { size ≡ fitting (vec_len words) size.channels },
}

impl Planar {
    ghost use Rattle.frame.specs.Frames.{planar_of};

    /// As many whole pixels of so many channels as the words hold, within the limits.
    pub fn new(words: Vec<u32>, channels: usize) -> Planar
        ensures image { planar_of result ≡ planar_image words.items channels }
        ensures words { result.words ≡ words }
    {
        Planar {
            size: Size::fitting(words.len(), channels),
            words,
        }
    }

    /// Where a sample lies among the words, if the frame has it.
    #[tactic(auto, using(crate::proofs::Sizes::column_place))]
    fn place(&self, pixel: usize, channel: usize) -> Option<usize>
        ensures place { result ≡ plane_place self.now.size pixel channel }
        ensures within { IfSome result (λ at. at < vec_len self.now.words) }
    {
        self.size
            .has(pixel, channel)
            .then(|| channel * self.size.pixels + pixel)
    }

    /// The words again, the unused ones included.
    pub fn into_words(self) -> Vec<u32>
        ensures words { result ≡ self.words }
        ensures image { planar_image result.items self.size.channels ≡ planar_of self }
    {
        let Planar { size: _, words } = self;
        words
    }
}

impl Readable for Planar {
    ghost use Rattle.frame.specs.Frames.{planar_of};

    ghost image = { planar_of };

    fn pixels(&self) -> usize {
        self.size.pixels
    }

    fn channels(&self) -> usize {
        self.size.channels
    }

    fn get(&self, pixel: usize, channel: usize) -> Option<u32> {
        let at = self.place(pixel, channel)?;
        Some(self.words[at])
    }
}

impl Writable for Planar {
    ghost use Rattle.frame.specs.Frames.{planar_of};

    #[tactic(auto, using(crate::proofs::Places::planes_after_put))]
    fn put(&mut self, pixel: usize, channel: usize, word: u32) -> Result<(), Outside>
        ensures answer { is_ok result ≡ inside (planar_of self.old) pixel channel }
        ensures after { planar_of self.new ≡ put_image (planar_of self.old) pixel channel word }
        ensures words { self.new.words.items ≡ put_plane self.old.size self.old.words.items pixel channel word }
    {
        let at = self.place(pixel, channel).ok_or(Outside)?;
        self.words[at] = word;
        Ok(())
    }
}
