//! The loops that tools/frame_bench measures: every sample of a frame read or written, many times.
#![tactic(auto)]

use frame::field::Field;
use frame::packed::Packed;
use frame::planar::Planar;
use frame::readable::Readable;
use frame::relabelled::Relabelled;
use frame::writable::Writable;
use std::alloc::{AllocError, Global};

/// The word that every sample holds at the start.
const START: u32 = 7;

/// What `read` answers for each number below the count, added up.
// Pixel by pixel or channel by channel, each with a sum of its own: one sum over all samples would have each wait for the one before.
fn added<F: FnMut(usize) -> u32>(count: usize, mut read: F) -> u32
    requires { F.IsAlwaysCallable read }
{
    let mut sum = 0u32;
    for i in 0..count {
        sum = sum.wrapping_add(read(i));
    }
    sum
}

/// Calls `visit` on every pixel and channel, channel after channel or pixel after pixel.
// A bool and not an enum: the C interface of the exports gives the order so.
fn each_sample<F: FnMut(usize, usize)>(
    pixels: usize,
    channels: usize,
    by_channel: bool,
    mut visit: F,
)
    requires { F.IsAlwaysCallable visit }
{
    if by_channel {
        for channel in 0..channels {
            for pixel in 0..pixels {
                visit(pixel, channel);
            }
        }
    } else {
        for pixel in 0..pixels {
            for channel in 0..channels {
                visit(pixel, channel);
            }
        }
    }
}

// A loop and no closure: through one, a relabelled frame of one channel takes nearly twice the time.
fn read_pixel<F: Readable>(frame: &F, pixel: usize) -> u32 {
    let mut sum = 0u32;
    for channel in 0..frame.channels() {
        if let Some(word) = frame.get(pixel, channel) {
            sum = sum.wrapping_add(word);
        }
    }
    sum
}

fn read_by_pixel<F: Readable>(frame: &F) -> u32 {
    added(frame.pixels(), |pixel| read_pixel(frame, pixel))
}

fn read_by_channel<F: Readable>(frame: &F) -> u32 {
    added(frame.channels(), |channel| {
        added(
            frame.pixels(),
            |pixel| frame.get(pixel, channel).unwrap_or(0),
        )
    })
}

/// Reads every sample so many times, and adds the words up.
fn read_rounds<F: Readable>(frame: &F, by_channel: bool, rounds: usize) -> u32 {
    let mut sum = 0u32;
    for _ in 0..rounds {
        sum = sum.wrapping_add(if by_channel {
            read_by_channel(frame)
        } else {
            read_by_pixel(frame)
        });
    }
    sum
}

/// Writes every sample so many times, another word each time, and reads them all at the end.
fn write_rounds<F: Writable>(frame: &mut F, by_channel: bool, rounds: usize) -> u32 {
    let mut word = START;
    for _ in 0..rounds {
        word = word.wrapping_add(1);
        each_sample(
            frame.pixels(),
            frame.channels(),
            by_channel,
            |pixel, channel| {
                let _ = frame.put(pixel, channel, word);
            },
        );
    }
    read_by_pixel(frame)
}

fn planar(heap: Global, pixels: usize, channels: usize) -> Result<Planar, AllocError> {
    let words = Vec::from_elem(heap, START, pixels.saturating_mul(channels))?;
    Ok(Planar::new(words, channels))
}

fn packed(heap: Global, pixels: usize, channels: usize) -> Result<Packed, AllocError> {
    let mut bytes = Vec::from_elem(heap, 0u8, pixels.saturating_mul(channels).saturating_mul(4))?;
    for sample in bytes.as_chunks_mut().0 {
        *sample = START.to_be_bytes();
    }
    Ok(Packed::new(bytes, channels))
}

fn field(heap: Global, pixels: usize, channels: usize) -> Result<Field, AllocError> {
    let words = Vec::from_elem(heap, START, channels)?;
    Ok(Field::new(words, pixels))
}

/// A planar frame with its channels in the opposite order.
fn relabelled(
    heap: Global,
    pixels: usize,
    channels: usize,
) -> Result<Relabelled<Planar>, AllocError> {
    // One by one and not collected: for want of memory it gives up at the first request that fails.
    let mut labels = Vec::new(heap);
    for channel in (0..channels).rev() {
        labels.push(channel)?;
    }
    Ok(Relabelled::new(planar(heap, pixels, channels)?, &labels))
}

// Seven exports with one body, and 0 where there is no memory: to C each is a name of its own, and there is no Result.
#[unsafe(no_mangle)]
pub extern "C" fn planar_gets(
    heap: Global,
    pixels: usize,
    channels: usize,
    by_channel: bool,
    rounds: usize,
) -> u32 {
    planar(heap, pixels, channels).map_or(0, |frame| read_rounds(&frame, by_channel, rounds))
}

#[unsafe(no_mangle)]
pub extern "C" fn planar_puts(
    heap: Global,
    pixels: usize,
    channels: usize,
    by_channel: bool,
    rounds: usize,
) -> u32 {
    planar(heap, pixels, channels).map_or(
        0,
        |mut frame| write_rounds(&mut frame, by_channel, rounds),
    )
}

#[unsafe(no_mangle)]
pub extern "C" fn packed_gets(
    heap: Global,
    pixels: usize,
    channels: usize,
    by_channel: bool,
    rounds: usize,
) -> u32 {
    packed(heap, pixels, channels).map_or(0, |frame| read_rounds(&frame, by_channel, rounds))
}

#[unsafe(no_mangle)]
pub extern "C" fn packed_puts(
    heap: Global,
    pixels: usize,
    channels: usize,
    by_channel: bool,
    rounds: usize,
) -> u32 {
    packed(heap, pixels, channels).map_or(
        0,
        |mut frame| write_rounds(&mut frame, by_channel, rounds),
    )
}

#[unsafe(no_mangle)]
pub extern "C" fn field_gets(
    heap: Global,
    pixels: usize,
    channels: usize,
    by_channel: bool,
    rounds: usize,
) -> u32 {
    field(heap, pixels, channels).map_or(0, |frame| read_rounds(&frame, by_channel, rounds))
}

#[unsafe(no_mangle)]
pub extern "C" fn relabelled_gets(
    heap: Global,
    pixels: usize,
    channels: usize,
    by_channel: bool,
    rounds: usize,
) -> u32 {
    relabelled(heap, pixels, channels).map_or(0, |frame| read_rounds(&frame, by_channel, rounds))
}

#[unsafe(no_mangle)]
pub extern "C" fn relabelled_puts(
    heap: Global,
    pixels: usize,
    channels: usize,
    by_channel: bool,
    rounds: usize,
) -> u32 {
    relabelled(heap, pixels, channels).map_or(
        0,
        |mut frame| write_rounds(&mut frame, by_channel, rounds),
    )
}
