//! The out words and the marks of a batch.
ghost use Rattle.std.specs.Prelude.{◌≡◌, ◌+◌, ◌^◌, ◌<◌, ◌≤◌, length, map, take};
ghost use Rattle.call.specs.Frames.{row_put, rows_put, end_put, ends_put, mark_of};

use crate::mark::Mark;
use crate::setup::Setup;
use engine::ending::Ending;
use engine::pixel::Pixel;
use frame::writable::Writable;
use transform::Row;

// Writes a register's word to its row's channel, if it is an out row.
fn write_row<O: Writable>(row: Row, word: u32, output: &mut O, pixel: usize)
    ensures { O.Readable.image output.new ≡ row_put pixel row word (O.Readable.image output.old) }
{
    if row.is_out() {
        let _ = output.put(pixel, usize::from(row.channel), word);
    }
}

impl Setup<'_> {
    // Writes the words of the out rows' registers into a pixel.
    fn write_rows<O: Writable>(&self, registers: &[u32; 64], output: &mut O, pixel: usize)
        ensures { O.Readable.image output.new ≡ rows_put self.now.transform.rows.now registers.now pixel (length self.now.transform.rows.now) (O.Readable.image output.old) }
    {
        // By index: at the end of a zip the check does not find that all rows were taken.
        for (i, row) in self.transform.rows().iter().enumerate() {
            write_row::<O>(*row, registers[i], output, pixel);
        }
    }

    // Writes the out words of a pixel's run, if it is done.
    fn write_end<O: Writable>(&self, end: &Pixel, output: &mut O, pixel: usize)
        ensures { O.Readable.image output.new ≡ end_put self.now.transform.rows.now end.now pixel (O.Readable.image output.old) }
    {
        if matches!(end.ending, Some(Ending::Done)) {
            self.write_rows::<O>(&end.registers, output, pixel);
        }
    }

    // Writes the out words of the ends of runs into the pixels from `first` on.
    pub(crate) fn write_ends<O: Writable>(&self, ends: &[Pixel], output: &mut O, first: usize)
        requires { first + length ends.now < 2 ^ 64 }
        ensures { O.Readable.image output.new ≡ ends_put self.now.transform.rows.now ends.now first (O.Readable.image output.old) }
    {
        for (i, end) in ends.iter().enumerate() {
            self.write_end::<O>(end, output, first + i);
        }
    }
}

// Fills each mark with what is reported of the end that has its index.
pub(crate) fn fill_marks(ends: &[Pixel], marks: &mut [Mark])
    requires { length marks.old ≤ length ends.now }
    ensures { marks.new ≡ map mark_of (take (length marks.old) ends.now) }
{
    // By index: of what is written through a zip a proof learns nothing.
    for (i, mark) in marks.iter_mut().enumerate() {
        *mark = Mark::of(&ends[i]);
    }
}
