//! Patches as a picture, and what became of them under one call.
use crate::patch::Patch;
use call::armed::Armed;
use call::mark::Mark;
use call::refusal::RunRefusal;
use engine::ending::Ending;
use frame::planar::Planar;
use frame::readable::Readable;
use number::kind::NumberKind;
use std::alloc::{AllocError, Global};

/// A picture with one pixel for each patch, the picture that a call makes of it, and a mark for each pixel.
// Two frames and a list of marks, as a call is given them.
#[derive(Drop)]
pub struct Sheet {
    input: Planar,
    output: Planar,
    marks: Vec<Mark>,
}

impl Sheet {
    /// The patches as a picture of one channel; nothing is run yet.
    pub fn new(heap: Global, patches: &[Patch]) -> Result<Sheet, AllocError> {
        let unmarked = Mark {
            ending: Ending::Spent,
            place: 0,
            steps: 0,
        };
        let mut words = Vec::new(heap);
        let mut outs = Vec::new(heap);
        let mut marks = Vec::new(heap);
        for patch in patches {
            words.push(patch.inputs[0])?;
            outs.push(0)?;
            marks.push(unmarked)?;
        }
        Ok(Sheet {
            input: Planar::new(words, 1),
            output: Planar::new(outs, 1),
            marks,
        })
    }

    /// Serves the patches from `first` on, at most so many, as one batch; answers its rounds.
    pub fn run<K: NumberKind>(
        &mut self,
        armed: &mut Armed,
        first: usize,
        most: usize,
    ) -> Result<u32, RunRefusal> {
        let rest = self
            .marks
            .as_mut_slice()
            .get_mut(first..)
            .unwrap_or_default();
        let count = rest.len().min(most);
        let marks = &mut rest[..count];
        let answer = armed.run::<K, Planar, Planar>(
            &self.input,
            &mut self.output,
            first,
            count,
            marks,
        )?;
        Ok(answer.rounds)
    }

    /// The marks of the patches, in their order.
    pub fn marks(&self) -> &[Mark] {
        self.marks.as_slice()
    }

    /// The word that the call wrote on a channel for a patch.
    pub fn word(&self, index: usize, channel: usize) -> Option<u32> {
        self.output.get(index, channel)
    }

    /// Whether a patch has the same mark and the same word on channel 0 in another sheet.
    pub fn agrees(&self, other: &Sheet, index: usize) -> bool {
        self.marks.get(index) == other.marks.get(index)
            && self.word(index, 0) == other.word(index, 0)
    }
}
