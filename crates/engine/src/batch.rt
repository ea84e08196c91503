//! Up to 64 pixels that run together, in rounds. The rules stand in docs/RULES.md, "Rounds".
ghost use Rattle.std.specs.Prelude.{◌≡◌, ℕ, ◌<◌, ◌≤◌, List, map, length, take, replicate};
ghost use Rattle.std.specs.Option.{option_map};
ghost use Rattle.std.specs.List.{AllByRecursion};
ghost use Rattle.schedule.specs.Machine.{lone};
ghost use Rattle.schedule.specs.Rounds.{round, rounds};
ghost use Rattle.schedule.specs.Laws.{Laws};
ghost use Rattle.engine.specs.Runs.{setting, machine, start_of, Sound};
ghost use Rattle.engine.specs.Batches.{resting, pixel_at, lowered, lowest_place, ran_together, rounds_of};

use crate::ending::Ending;
use crate::pixel::Pixel;
use crate::settings::Settings;
use number::kind::NumberKind;

/// At most so many pixels run together.
pub const MOST_PIXELS: usize = 64;

/// Room for as many pixels as may run together.
#[derive(Drop)]
pub struct Batch {
    pixels: [Pixel; MOST_PIXELS],
}

impl Batch {
    /// A batch whose pixels are all at rest: done, with nothing in their registers.
    pub fn new() -> Batch
        ensures { result.pixels ≡ replicate 64 resting }
    {
        let pixel = Pixel {
            registers: [0; 64],
            place: 0,
            steps: 0,
            ending: Some(Ending::Done),
        };
        Batch {
            pixels: [pixel; MOST_PIXELS],
        }
    }

    /// The pixel with the index, from 0; none from 64 on.
    pub fn pixel(&self, index: usize) -> Option<&Pixel>
        ensures { option_map (λ x. x.now) result ≡ pixel_at self.now.pixels index }
    {
        self.pixels.get(index)
    }

    /// All pixels, the first of the batch first.
    pub fn pixels(&self) -> &[Pixel]
        ensures { result.now ≡ self.now.pixels }
    {
        &self.pixels
    }
}

// The lower of a place, if there is one, and that of a pixel, if it has no ending.
fn lower(low: Option<u16>, pixel: &Pixel) -> Option<u16>
    ensures { result ≡ lowered low pixel.now }
{
    if pixel.ending.is_some() {
        return low;
    }
    Some(low.map_or(pixel.place, |place| place.min(pixel.place)))
}

// The lowest place at which a pixel without an ending stands.
fn lowest(pixels: &[Pixel]) -> Option<u16>
    ensures { result ≡ lowest_place pixels.now }
{
    let mut low = None;
    for pixel in pixels {
        low = lower(low, pixel);
    }
    low
}

impl Settings<'_> {
    // A round at the lowest place, whose record is read once; answers the lowest place of the next round.
    fn run_round<K: NumberKind>(&self, place: u16, pixels: &mut [Pixel]) -> Option<u16>
        requires placed { 0 < place }
        requires here { place < length self.now.transform.records.now }
        requires sound { AllByRecursion (Sound (setting K.NumberKind.meaning self.now)) pixels.old }
        ensures after { pixels.new ≡ round (machine (setting K.NumberKind.meaning self.now)) place pixels.old }
        ensures next { result ≡ lowest_place pixels.new }
    {
        let step = self.transform.step_at(place)?;
        let mut low = None;
        for pixel in pixels.iter_mut() {
            pixel.turn::<K>(self, place, &step);
            low = lower(low, pixel);
        }
        low
    }

    // Rounds until every pixel has an ending; answers how many.
    fn run_rounds<K: NumberKind>(&self, pixels: &mut [Pixel]) -> u32
        requires few { length pixels.old ≤ 64 }
        requires sound { AllByRecursion (Sound (setting K.NumberKind.meaning self.now)) pixels.old }
        ensures ends { pixels.new ≡ map (lone (machine (setting K.NumberKind.meaning self.now))) pixels.old }
        ensures count { result ≡ rounds (machine (setting K.NumberKind.meaning self.now)) pixels.old }
    {
        let mut count = 0;
        let mut low = lowest(pixels);
        while let Some(place) = low {
            low = self.run_round::<K>(place, pixels);
            count += 1;
        }
        count
    }

    // Puts each pixel at its start, with the input words that have its index.
    fn start_all<K: NumberKind>(&self, inputs: &[[u32; 8]], pixels: &mut [Pixel])
        requires { length pixels.old ≤ length inputs.now }
        ensures { pixels.new ≡ map (start_of (setting K.NumberKind.meaning self.now)) (take (length pixels.old) inputs.now) }
    {
        // By index: of what is written through a zip a proof learns nothing.
        for (i, pixel) in pixels.iter_mut().enumerate() {
            *pixel = Pixel::start::<K>(self, &inputs[i]);
        }
    }

    /// Runs pixels together, in rounds, from their input words (one for each channel) to their endings; answers how many rounds.
    /// Pixel i of the batch has the words `inputs[i]`. The first 64 entries count; pixels past the last entry stay as they are.
    pub fn run_together<K: NumberKind>(&self, inputs: &[[u32; 8]], batch: &mut Batch) -> u32
        ensures ends { batch.new.pixels ≡ ran_together (setting K.NumberKind.meaning self.now) inputs.now batch.old.pixels }
        ensures count { result ≡ rounds_of (setting K.NumberKind.meaning self.now) inputs.now }
        ensures sound { (words : List ℕ) → Sound (setting K.NumberKind.meaning self.now) (start_of (setting K.NumberKind.meaning self.now) words) }
        ensures laws { Laws (machine (setting K.NumberKind.meaning self.now)) (Sound (setting K.NumberKind.meaning self.now)) }
    {
        let count = inputs.len().min(MOST_PIXELS);
        let pixels = &mut batch.pixels[..count];
        self.start_all::<K>(inputs, pixels);
        self.run_rounds::<K>(pixels)
    }
}
