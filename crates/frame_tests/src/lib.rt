//! Tests of the frames: sizes at each limit, the corners, and what a put leaves alone.
#![tactic(auto)]

ghost use Rattle.std.specs.Prelude.{◌≤◌};

use frame::field::Field;
use frame::planar::Planar;
use frame::readable::Readable;
use frame::relabelled::Relabelled;
use frame::writable::Writable;

#[cfg(test)]
mod corners;
#[cfg(test)]
mod labels;
#[cfg(test)]
mod limits;
#[cfg(test)]
mod memory;

/// A word read through a relabelled field.
fn get_first(frame: &Relabelled<Field>) -> Option<u32> {
    frame.get(0, 0)
}

/// A put through a relabelled frame that is writable below.
/// Over a field there is no such call: tools/put_over_field shows that one is refused.
fn put_first(frame: &mut Relabelled<Planar>, word: u32) -> bool {
    frame.put(0, 0, word).is_ok()
}

/// How many channels a relabelled frame has: over any frame at most eight, as its type tells.
fn channels_of<F: Readable>(frame: &Relabelled<F>) -> usize
    ensures { result ≤ 8 }
{
    frame.channels()
}
