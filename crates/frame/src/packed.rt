ghost use Rattle.std.specs.Prelude.{◌≡◌, ◌+◌, ◌*◌, ◌/◌, ◌≤◌, is_ok, IfSome, length, vec_len};
ghost use Rattle.frame.specs.Image.{inside, put_image};
ghost use Rattle.frame.specs.Size.{fitting};
ghost use Rattle.frame.specs.Layout.{packed_image, be_word, put_word, put_packed, packed_place};

use crate::readable::Readable;
use crate::size::Size;
use crate::writable::{Outside, Writable};

/// A frame in bytes, pixel after pixel, four bytes a sample, most significant first.
/// Bytes beyond the last pixel are unused.
// Not one generic struct with Planar: a trait of layouts and its laws are longer than the two bodies that differ.
#[derive(Drop)]
pub struct Packed {
    size: Size,
    bytes: Vec<u8>,
    ghost fits: { size ≡ fitting (vec_len bytes / 4) size.channels },
}

// That four bytes lie there is asked of the place: a type for it would have to borrow the bytes.
/// The word in the four bytes from a place on.
fn read_word(bytes: &[u8], at: usize) -> u32
    requires { at + 4 ≤ length bytes.now }
    ensures { result ≡ be_word bytes.now at }
{
    u32::from_be_bytes([bytes[at], bytes[at + 1], bytes[at + 2], bytes[at + 3]])
}

/// Makes the four bytes from a place on the word.
#[tactic(auto, using(crate::proofs::Places::four_put_is))]
fn write_word(bytes: &mut Vec<u8>, at: usize, word: u32)
    requires { at + 4 ≤ vec_len bytes.old }
    ensures { bytes.new.items ≡ put_word bytes.old.items at word }
{
    bytes[at..at + 4].copy_from_slice(&word.to_be_bytes());
}

impl Packed {
    ghost use Rattle.frame.specs.Frames.{packed_of};

    /// As many whole pixels of so many channels as the bytes hold, within the limits.
    pub fn new(bytes: Vec<u8>, channels: usize) -> Packed
        ensures image { packed_of result ≡ packed_image bytes.items channels }
        ensures bytes { result.bytes ≡ bytes }
    {
        Packed {
            size: Size::fitting(bytes.len() / 4, channels),
            bytes,
        }
    }

    /// Where the bytes of a sample begin, if the frame has it.
    #[tactic(auto, using(crate::proofs::Sizes::row_place))]
    fn place(&self, pixel: usize, channel: usize) -> Option<usize>
        ensures place { result ≡ packed_place self.now.size pixel channel }
        ensures within { IfSome result (λ at. at + 4 ≤ vec_len self.now.bytes) }
    {
        self.size
            .has(pixel, channel)
            .then(|| 4 * (pixel * self.size.channels + channel))
    }

    /// The bytes again, the unused ones included.
    pub fn into_bytes(self) -> Vec<u8>
        ensures bytes { result ≡ self.bytes }
        ensures image { packed_image result.items self.size.channels ≡ packed_of self }
    {
        let Packed { size: _, bytes } = self;
        bytes
    }
}

impl Readable for Packed {
    ghost use Rattle.frame.specs.Frames.{packed_of};

    ghost image = { packed_of };

    fn pixels(&self) -> usize {
        self.size.pixels
    }

    fn channels(&self) -> usize {
        self.size.channels
    }

    fn get(&self, pixel: usize, channel: usize) -> Option<u32> {
        let at = self.place(pixel, channel)?;
        Some(read_word(&self.bytes, at))
    }
}

impl Writable for Packed {
    ghost use Rattle.frame.specs.Frames.{packed_of};

    #[tactic(auto, using(crate::proofs::Places::packed_after_put))]
    fn put(&mut self, pixel: usize, channel: usize, word: u32) -> Result<(), Outside>
        ensures answer { is_ok result ≡ inside (packed_of self.old) pixel channel }
        ensures after { packed_of self.new ≡ put_image (packed_of self.old) pixel channel word }
        ensures bytes { self.new.bytes.items ≡ put_packed self.old.size self.old.bytes.items pixel channel word }
    {
        let at = self.place(pixel, channel).ok_or(Outside)?;
        write_word(&mut self.bytes, at, word);
        Ok(())
    }
}
