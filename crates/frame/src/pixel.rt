ghost use Rattle.std.specs.Prelude.{◌≡◌, is_ok};
ghost use Rattle.frame.specs.Image.{inside};
ghost use Rattle.frame.specs.Pixel.{all_inside, put_samples, write_image, Written};

use crate::readable::Readable;
use crate::size::Size;
use crate::writable::{Outside, Writable};

/// A word for one channel of a pixel.
#[derive(Clone, Copy, Debug, PartialEq, Eq)]
pub struct Sample {
    pub channel: usize,
    pub word: u32,
}

fn is_inside<F: Readable>(frame: &F, pixel: usize, channel: usize) -> bool
    ensures { result ≡ inside (F.Readable.image frame.now) pixel channel }
{
    let size = Size {
        pixels: frame.pixels(),
        channels: frame.channels(),
    };
    size.has(pixel, channel)
}

fn all_inside<F: Readable>(frame: &F, pixel: usize, samples: &[Sample]) -> bool
    ensures { result ≡ all_inside (F.Readable.image frame.now) pixel samples.now }
{
    samples
        .iter()
        .all(|sample| is_inside(frame, pixel, sample.channel))
}

fn put_samples<F: Writable>(frame: &mut F, pixel: usize, samples: &[Sample])
    ensures { F.Readable.image frame.new ≡ put_samples (F.Readable.image frame.old) pixel samples.now }
{
    for sample in samples {
        let _ = frame.put(pixel, sample.channel, sample.word);
    }
}

/// Writes several words into one pixel, in their order, and changes nothing else.
/// If one of them lies outside it is refused, and nothing is written.
pub fn write_pixel<F: Writable>(
    frame: &mut F,
    pixel: usize,
    samples: &[Sample],
) -> Result<(), Outside>
    ensures answer { is_ok result ≡ all_inside (F.Readable.image frame.old) pixel samples.now }
    ensures after { F.Readable.image frame.new ≡ write_image (F.Readable.image frame.old) pixel samples.now }
    ensures written { Written (F.Readable.image frame.old) pixel samples.now (F.Readable.image frame.new) }
{
    if !all_inside(frame, pixel, samples) {
        return Err(Outside);
    }
    put_samples(frame, pixel, samples);
    Ok(())
}
