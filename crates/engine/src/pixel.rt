//! One pixel: its registers, its place, its steps and its ending.
ghost use Rattle.std.specs.Prelude.{◌≡◌, ◌<◌, false, length, is_some};
ghost use Rattle.transform.specs.Held.{SoundIn};
ghost use Rattle.engine.specs.Pixels.{ending_at, standing};
ghost use Rattle.engine.specs.Batches.{taking, turned};
ghost use Rattle.engine.specs.Runs.{setting, machine, start_of, lone_run, EndsRun, Running};

use crate::budget::Budget;
use crate::effect::{Effect, effect_of};
use crate::ending::Ending;
use crate::settings::Settings;
use crate::start::start_registers;
use number::kind::NumberKind;
use transform::Step;

/// A pixel on its way, or at its end once it has an ending.
#[derive(Clone, Copy)]
pub struct Pixel {
    // As many as rows may be, as the rules have a pixel hold its own registers, with no heap.
    pub registers: [u32; 64],
    pub place: u16,
    pub steps: u16,
    pub ending: Option<Ending>,
}

// The ending at a place after so many steps.
fn ending_at(budget: Budget, place: u16, steps: u16) -> Option<Ending>
    ensures { result ≡ ending_at budget.steps place steps }
{
    if place == 0 {
        Some(Ending::Done)
    } else if steps == budget.steps() {
        Some(Ending::Spent)
    } else {
        None
    }
}

impl Pixel {
    // The pixel with these input words, at its start.
    pub(crate) fn start<K: NumberKind>(settings: &Settings, inputs: &[u32]) -> Pixel
        ensures { result ≡ start_of (setting K.NumberKind.meaning settings.now) inputs.now }
    {
        Pixel {
            registers: start_registers::<K>(settings, inputs),
            place: 1,
            steps: 0,
            ending: ending_at(settings.budget, 1, 0),
        }
    }

    // The pixel stands at a place from now on, with the steps that it has taken.
    fn stand(&mut self, place: u16, budget: Budget)
        ensures { self.new ≡ standing budget.steps self.old.registers place self.old.steps }
    {
        self.place = place;
        self.ending = ending_at(budget, place, self.steps);
    }

    // One step of a pixel that has no ending.
    fn step<K: NumberKind>(&mut self, settings: &Settings)
        requires { let s = setting K.NumberKind.meaning settings.now in Running (length s.records) s.budget self.old }
        ensures { self.new ≡ (machine (setting K.NumberKind.meaning settings.now)).step self.old }
    {
        if let Some(step) = settings.transform.step_at(self.place) {
            self.take::<K>(settings, &step);
        }
    }

    // Takes a step that has been read: counts it, and puts its word, goes to its place or stops.
    fn take<K: NumberKind>(&mut self, settings: &Settings, step: &Step)
        requires names { SoundIn settings.now.transform step.now }
        requires unspent { self.old.steps < settings.now.budget.steps }
        ensures { self.new ≡ taking (setting K.NumberKind.meaning settings.now) step.now self.old }
    {
        let a = self.registers[usize::from(step.a)];
        let b = self.registers[usize::from(step.b)];
        self.steps += 1;
        match effect_of::<K>(&settings.transform, step, a, b) {
            Ok(Effect::Put(word)) => {
                self.registers[usize::from(step.to)] = word;
                self.stand(step.next, settings.budget);
            }
            Ok(Effect::Go(place)) => self.stand(place, settings.budget),
            Err(ending) => self.ending = Some(ending),
        }
    }

    // In a round at the place the pixel takes the step there, if it has no ending and stands there.
    pub(crate) fn turn<K: NumberKind>(&mut self, settings: &Settings, place: u16, step: &Step)
        requires names { SoundIn settings.now.transform step.now }
        requires unspent { is_some self.old.ending ≡ false → self.old.steps < settings.now.budget.steps }
        ensures { self.new ≡ turned (setting K.NumberKind.meaning settings.now) place step.now self.old }
    {
        if self.ending.is_none() && self.place == place {
            self.take::<K>(settings, step);
        }
    }
}

impl Settings<'_> {
    /// Runs one pixel by itself, from its input words (one for each channel) to its ending.
    pub fn run_alone<K: NumberKind>(&self, inputs: &[u32]) -> Pixel
        ensures end { result ≡ lone_run (setting K.NumberKind.meaning self.now) inputs.now }
        ensures reached { EndsRun (setting K.NumberKind.meaning self.now) inputs.now result }
    {
        let mut pixel = Pixel::start::<K>(self, inputs);
        while pixel.ending.is_none() {
            pixel.step::<K>(self);
        }
        pixel
    }
}
