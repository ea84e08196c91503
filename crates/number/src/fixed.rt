//! The fixed kind: a word is a signed count of 65,536ths.
ghost use Rattle.std.specs.Prelude.{◌≡◌, ◌≢◌, ◌*ℤ◌, pos, refl, int_div};
ghost use Rattle.number.specs.Fixed.{fixed, clipped};
ghost use Rattle.std.proofs.Common.{rules};

use crate::kind::{NumberKind, Stop};
use crate::whole;
use crate::whole::divisor;

/// How many counts make one.
const ONE: i64 = 65536;

/// The whole numbers that have a count.
const LEAST_WHOLE: i32 = -32768;

const MOST_WHOLE: i32 = 32767;

/// The fixed kind, number 2.
pub struct Fixed;

// The word of the count that is nearest to n.
fn clipped(n: i64) -> u32
    ensures { result ≡ clipped n }
{
    let count = n.clamp(i64::from(i32::MIN), i64::from(i32::MAX)) as i32;
    count.cast_unsigned()
}

// The product of two counts, 65,536 times too large.
fn product(a: i32, b: i32) -> i64
    ensures { result ≡ a *ℤ b }
{
    i64::from(a) * i64::from(b)
}

// The quotient of two counts, as a count; the fraction drops toward zero.
fn ratio(a: i32, b: i32) -> i64
    requires { b ≢ pos 0 }
    ensures { result ≡ int_div (a *ℤ pos 65536) b }
{
    i64::from(a) * ONE / i64::from(b)
}

impl NumberKind for Fixed {
    const NUMBER: u8 = 2;

    ghost NUMBER = { fixed.number };

    ghost meaning = { fixed };

    ghost numbered = { refl };

    ghost lawful = { Prim.search rules };

    fn admit(word: u32) -> u32 {
        word
    }

    fn add(a: u32, b: u32) -> Result<u32, Stop> {
        let sum = a.cast_signed().saturating_add(b.cast_signed());
        Ok(sum.cast_unsigned())
    }

    fn subtract(a: u32, b: u32) -> Result<u32, Stop> {
        let difference = a.cast_signed().saturating_sub(b.cast_signed());
        Ok(difference.cast_unsigned())
    }

    fn multiply(a: u32, b: u32) -> Result<u32, Stop> {
        Ok(clipped(product(a.cast_signed(), b.cast_signed()) / ONE))
    }

    fn divide(a: u32, b: u32) -> Result<u32, Stop> {
        Ok(clipped(ratio(a.cast_signed(), divisor(b)?)))
    }

    fn negate(a: u32) -> Result<u32, Stop> {
        Ok(a.cast_signed().saturating_neg().cast_unsigned())
    }

    fn less(a: u32, b: u32) -> bool {
        whole::less(a, b)
    }

    fn equal(a: u32, b: u32) -> bool {
        a.cast_signed() == b.cast_signed()
    }

    fn from_whole(n: i32) -> Result<u32, Stop> {
        if !(LEAST_WHOLE..=MOST_WHOLE).contains(&n) {
            return Err(Stop::OutOfRange);
        }
        Ok((n * 65536).cast_unsigned())
    }

    fn to_whole(a: u32) -> Result<i32, Stop> {
        Ok(a.cast_signed() >> 16)
    }
}
