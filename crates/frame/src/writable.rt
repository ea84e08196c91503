ghost use Rattle.std.specs.Prelude.{◌≡◌, Some, codes, is_ok};
ghost use Rattle.frame.specs.Image.{inside, put_image};

use crate::readable::Readable;
use std::error::Error;
use std::fmt;

/// There is no such pixel or channel.
#[derive(Clone, Copy, Debug, PartialEq, Eq)]
pub struct Outside;

impl fmt::Display for Outside {
    ghost output = { λ _. Some (codes "there is no such pixel or channel") };

    fn fmt<W: fmt::Write>(&self, f: &mut fmt::Formatter<W>) -> fmt::Result {
        f.write_str("there is no such pixel or channel")
    }
}

impl Error for Outside {}

/// A readable picture that also takes words.
pub trait Writable: Readable {
    /// Makes the sample at a pixel and a channel the word, and changes nothing else.
    /// A put outside is refused and changes nothing.
    fn put(&mut self, pixel: usize, channel: usize, word: u32) -> Result<(), Outside>
        ensures answer { is_ok result ≡ inside (Self.Readable.image self.old) pixel channel }
        ensures after { Self.Readable.image self.new ≡ put_image (Self.Readable.image self.old) pixel channel word };
}
