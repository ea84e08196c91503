//! What one step does, of each of the fifteen kinds of record.
ghost use Rattle.std.specs.Prelude.{◌≡◌};
ghost use Rattle.transform.specs.Parts.{word_at};
ghost use Rattle.engine.specs.Effects.{entry_word, putting, effect_of};

use crate::ending::Ending;
use crate::start::admitted;
use number::kind::{NumberKind, Stop};
use number::whole;
use transform::{Accepted, RecordKind, Step};

/// What a step does to a pixel.
#[derive(Clone, Copy)]
pub(crate) enum Effect {
    /// The step's register gets the word, and the pixel goes on at the next place.
    Put(u32),
    /// The pixel goes on at the place.
    Go(u16),
}

// What the step does, where its registers a and b hold these words.
pub(crate) fn effect_of<K: NumberKind>(
    transform: &Accepted,
    step: &Step,
    a: u32,
    b: u32,
) -> Result<Effect, Ending>
    ensures { result ≡ effect_of K.NumberKind.meaning transform.now.table.now step.now a b step.now.kind }
{
    // Each arm answers by itself: joined before the answer, a round takes a tenth longer (bench/rounds).
    match (step.kind, step.a_number) {
        (RecordKind::Literal, _) => Ok(Effect::Put(admitted::<K>(step.to_number, step.word))),
        (RecordKind::Copy, _) => Ok(Effect::Put(a)),
        (RecordKind::Add, true) => put(K::add(a, b)),
        (RecordKind::Add, false) => Ok(Effect::Put(whole::add(a, b))),
        (RecordKind::Subtract, true) => put(K::subtract(a, b)),
        (RecordKind::Subtract, false) => Ok(Effect::Put(whole::subtract(a, b))),
        (RecordKind::Multiply, true) => put(K::multiply(a, b)),
        (RecordKind::Multiply, false) => Ok(Effect::Put(whole::multiply(a, b))),
        (RecordKind::Divide, true) => put(K::divide(a, b)),
        (RecordKind::Divide, false) => put(whole::divide(a, b)),
        (RecordKind::Remainder, _) => put(whole::remainder(a, b)),
        (RecordKind::Negate, true) => put(K::negate(a)),
        (RecordKind::Negate, false) => Ok(Effect::Put(whole::negate(a))),
        (RecordKind::Less, true) => Ok(Effect::Put(u32::from(K::less(a, b)))),
        (RecordKind::Less, false) => Ok(Effect::Put(u32::from(whole::less(a, b)))),
        (RecordKind::Equal, true) => Ok(Effect::Put(u32::from(K::equal(a, b)))),
        (RecordKind::Equal, false) => Ok(Effect::Put(u32::from(whole::equal(a, b)))),
        (RecordKind::Not, _) => Ok(Effect::Put(u32::from(a == 0))),
        (RecordKind::ToNumber, _) => put(K::from_whole(a.cast_signed())),
        (RecordKind::ToWhole, _) => put(K::to_whole(a).map(|n| n.cast_unsigned())),
        (RecordKind::LookUp, _) => Ok(Effect::Put(look_up::<K>(transform, a)?)),
        (RecordKind::Branch, _) => Ok(Effect::Go(if a == 0 { step.other } else { step.next })),
    }
}

// The word is put, and a stop is the pixel's ending.
fn put(answer: Result<u32, Stop>) -> Result<Effect, Ending>
    ensures { result ≡ putting answer }
{
    Ok(Effect::Put(answer?))
}

// The table word at the index, admitted. A negative index is, as a word, above every index.
fn look_up<K: NumberKind>(transform: &Accepted, index: u32) -> Result<u32, Ending>
    ensures { result ≡ entry_word K.NumberKind.meaning (word_at transform.now.table.now index) }
{
    let word = transform.table_word(index).ok_or(Ending::OutsideTable)?;
    Ok(K::admit(word))
}
