//! The input words of a batch.
ghost use Rattle.std.specs.Prelude.{◌≡◌, ◌+◌, ◌^◌, ◌<◌, length, map};
ghost use Rattle.std.specs.List.{range_with_len};
ghost use Rattle.call.specs.Frames.{input_words};

use frame::readable::Readable;
use std::array;

// The words of a pixel, 0 on channels that the frame does not have.
fn input_words<I: Readable>(input: &I, pixel: usize) -> [u32; 8]
    ensures { result ≡ input_words (I.Readable.image input.now) pixel }
{
    array::from_fn(|channel| input.get(pixel, channel).unwrap_or(0))
}

// Fills each entry with the words of one pixel, from `first` on.
pub(crate) fn fill_words<I: Readable>(input: &I, first: usize, entries: &mut [[u32; 8]])
    requires { first + length entries.old < 2 ^ 64 }
    ensures { entries.new ≡ map (input_words (I.Readable.image input.now)) (range_with_len first (length entries.old)) }
{
    for (i, words) in entries.iter_mut().enumerate() {
        *words = input_words::<I>(input, first + i);
    }
}
