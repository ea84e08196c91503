//! The float kind: a word is a binary32 of IEEE 754.
ghost use Rattle.std.specs.Prelude.{◌≡◌, refl};
ghost use Rattle.number.specs.Float.{float, value, pattern, whole_part, ExactOr};
ghost use Rattle.number.specs.Floats;

use crate::kind::{NumberKind, Stop};
use std::num::{f32_from_bits_with_nan, f32_to_bits_with_nan, saturating_f32_to_i64};

/// The admitted form of every NaN.
const NAN: u32 = 0x7fc0_0000;

/// The ends of the whole numbers that are floats without exception.
const LEAST_WHOLE: i32 = -16777216;

const MOST_WHOLE: i32 = 16777216;

/// The float kind, number 1.
pub struct Float;

// The word of what the operation makes of the floats in two words.
fn computed<F: FnOnce(f32, f32) -> f32>(a: u32, b: u32, operation: F) -> u32
    requires { F.pre operation (value a) (value b) }
    ensures { (x : _) × F.post operation (value a) (value b) x × (result ≡ pattern x) }
{
    f32_to_bits_with_nan(operation(f32_from_bits_with_nan(a), f32_from_bits_with_nan(b)))
}

// x without its fraction, if that is a signed number of 32 bits.
#[tactic(auto, using(crate::proofs::Conversions::whole_nan))]
fn whole_part(x: f32) -> Result<i32, Stop>
    ensures { result ≡ whole_part x }
{
    if x.is_nan() {
        return Err(Stop::OutOfRange);
    }
    i32::try_from(saturating_f32_to_i64(x)).map_err(|_| Stop::OutOfRange)
}

impl NumberKind for Float {
    const NUMBER: u8 = 1;

    ghost NUMBER = { float.number };

    ghost meaning = { float };

    ghost numbered = { refl };

    ghost lawful = { Floats.lawful };

    fn admit(word: u32) -> u32 {
        if f32_from_bits_with_nan(word).is_nan() {
            NAN
        } else {
            word
        }
    }

    fn add(a: u32, b: u32) -> Result<u32, Stop> {
        Ok(computed(a, b, |x, y| x + y))
    }

    fn subtract(a: u32, b: u32) -> Result<u32, Stop> {
        Ok(computed(a, b, |x, y| x - y))
    }

    fn multiply(a: u32, b: u32) -> Result<u32, Stop> {
        Ok(computed(a, b, |x, y| x * y))
    }

    fn divide(a: u32, b: u32) -> Result<u32, Stop> {
        Ok(computed(a, b, |x, y| x / y))
    }

    fn negate(a: u32) -> Result<u32, Stop> {
        Ok(f32_to_bits_with_nan(-f32_from_bits_with_nan(a)))
    }

    fn less(a: u32, b: u32) -> bool {
        f32_from_bits_with_nan(a) < f32_from_bits_with_nan(b)
    }

    fn equal(a: u32, b: u32) -> bool {
        f32_from_bits_with_nan(a) == f32_from_bits_with_nan(b)
    }

    #[tactic(auto, using(crate::proofs::Conversions::exact_word))]
    fn from_whole(n: i32) -> Result<u32, Stop>
        ensures value { result ≡ float.from_whole n }
        ensures exact { ExactOr result n }
    {
        if !(LEAST_WHOLE..=MOST_WHOLE).contains(&n) {
            return Err(Stop::OutOfRange);
        }
        Ok(f32_to_bits_with_nan(n as f32))
    }

    fn to_whole(a: u32) -> Result<i32, Stop> {
        whole_part(f32_from_bits_with_nan(a))
    }
}
