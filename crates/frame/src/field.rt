ghost use Rattle.std.specs.Prelude.{◌≡◌, ◌≤◌, vec_len};
ghost use Rattle.frame.specs.Layout.{field_image};

use crate::readable::Readable;
use crate::size::Size;

/// A frame of one word per channel for all its pixels; readable only.
#[derive(Drop)]
pub struct Field {
    size: Size,
    words: Vec<u32>,
    ghost fits: { size.channels ≤ vec_len words },
}

impl Field {
    ghost use Rattle.frame.specs.Frames.{field_of};

    /// So many pixels that all have these words, within the limits.
    pub fn new(words: Vec<u32>, pixels: usize) -> Field
        ensures image { field_of result ≡ field_image words.items pixels }
        ensures words { result.words ≡ words }
    {
        Field {
            size: Size::new(pixels, words.len()),
            words,
        }
    }

    /// The words again.
    pub fn into_words(self) -> Vec<u32>
        ensures { result ≡ self.words }
    {
        let Field { size: _, words } = self;
        words
    }
}

impl Readable for Field {
    ghost use Rattle.frame.specs.Frames.{field_of};

    ghost image = { field_of };

    fn pixels(&self) -> usize {
        self.size.pixels
    }

    fn channels(&self) -> usize {
        self.size.channels
    }

    fn get(&self, pixel: usize, channel: usize) -> Option<u32> {
        self.size.has(pixel, channel).then(|| self.words[channel])
    }
}
