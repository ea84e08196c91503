//! The conditions that refuse a run.
ghost use Rattle.std.specs.Prelude.{◌≡◌, ◌+◌, ◌^◌, ◌<◌, OnOk, nat_lt};
ghost use Rattle.call.specs.Requests.{row_lacks, lacks_channel, refusal, unless_refused};

use crate::refusal::RunRefusal;
use crate::tally::MOST_SERVED;
use engine::batch::MOST_PIXELS;
use frame::readable::Readable;
use transform::{Accepted, Row};

// What is asked of a run: its batch, and how many marks are given.
// A start and a count, and no range: the end of a batch that passes the last pixel may be no usize.
// That it is one is asked of each list that is gone over: a span with the fact in its type would owe that the list is as long.
#[derive(Clone, Copy)]
pub(crate) struct Request {
    pub first: usize,
    pub count: usize,
    pub marks: usize,
}

// Whether the row's channel is not in its frame.
fn row_lacks(row: Row, in_channels: usize, out_channels: usize) -> bool
    ensures { result ≡ row_lacks in_channels out_channels row }
{
    if row.is_in() {
        usize::from(row.channel) >= in_channels
    } else {
        row.is_out() && usize::from(row.channel) >= out_channels
    }
}

// Whether one of the rows' channels is not in its frame.
fn lacks_channel(rows: &[Row], in_channels: usize, out_channels: usize) -> bool
    ensures { result ≡ lacks_channel in_channels out_channels rows.now }
{
    rows.iter()
        .any(|row| row_lacks(*row, in_channels, out_channels))
}

impl Request {
    // Whether the batch passes the last pixel.
    fn passes_end(self, pixels: usize) -> bool
        ensures { result ≡ nat_lt pixels (self.first + self.count) }
    {
        self.count > pixels || self.first > pixels - self.count
    }

    // Whether the run is served; if not, the first condition that refuses it.
    pub(crate) fn check<I: Readable, O: Readable>(
        self,
        transform: &Accepted,
        served: u32,
        input: &I,
        output: &O,
    ) -> Result<(), RunRefusal>
        ensures which { result ≡ unless_refused (refusal transform.now.rows.now (I.Readable.image input.now) (O.Readable.image output.now) served self.first self.count self.marks) }
        ensures fits { OnOk result (self.first + self.count < 2 ^ 64) }
    {
        if self.count == 0 || self.count > MOST_PIXELS {
            return Err(RunRefusal::Count);
        }
        if input.pixels() != output.pixels() {
            return Err(RunRefusal::PixelCounts);
        }
        if self.passes_end(input.pixels()) {
            return Err(RunRefusal::PastEnd);
        }
        if lacks_channel(transform.rows(), input.channels(), output.channels()) {
            return Err(RunRefusal::Channel);
        }
        if self.marks != self.count {
            return Err(RunRefusal::Marks);
        }
        if served as usize + self.count > MOST_SERVED {
            return Err(RunRefusal::Served);
        }
        Ok(())
    }
}
