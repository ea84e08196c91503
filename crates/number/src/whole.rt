//! Whole numbers: signed, of 32 bits, held in words as two's complement, wrapping modulo 4,294,967,296.
#![tactic(auto, using(std::proofs::lemmas::Int::wraps))]

ghost use Rattle.std.specs.Prelude.{◌≡◌};
ghost use Rattle.number.specs.Whole.{whole_add, whole_subtract, whole_multiply, whole_negate, whole_divide, whole_remainder, whole_less, whole_equal, signed, unless_zero};

use crate::kind::Stop;

// The divisor that a word holds; zero stops.
pub(crate) fn divisor(word: u32) -> Result<i32, Stop>
    ensures { result ≡ unless_zero (signed word) (signed word) }
{
    match word.cast_signed() {
        0 => Err(Stop::DivisionByZero),
        n => Ok(n),
    }
}

/// The sum, wrapped.
pub fn add(a: u32, b: u32) -> u32
    ensures { result ≡ whole_add a b }
{
    a.cast_signed()
        .wrapping_add(b.cast_signed())
        .cast_unsigned()
}

/// The difference, wrapped.
pub fn subtract(a: u32, b: u32) -> u32
    ensures { result ≡ whole_subtract a b }
{
    a.cast_signed()
        .wrapping_sub(b.cast_signed())
        .cast_unsigned()
}

/// The product, wrapped.
pub fn multiply(a: u32, b: u32) -> u32
    ensures { result ≡ whole_multiply a b }
{
    a.cast_signed()
        .wrapping_mul(b.cast_signed())
        .cast_unsigned()
}

/// The negative, wrapped.
pub fn negate(a: u32) -> u32
    ensures { result ≡ whole_negate a }
{
    a.cast_signed().wrapping_neg().cast_unsigned()
}

/// The quotient without its fraction, wrapped; a zero divisor stops.
#[tactic(auto, using(crate::proofs::Wrapping::wrapping_div_is))]
pub fn divide(a: u32, b: u32) -> Result<u32, Stop>
    ensures { result ≡ whole_divide a b }
{
    let quotient = a.cast_signed().wrapping_div(divisor(b)?);
    Ok(quotient.cast_unsigned())
}

/// What a division leaves, with the sign of the dividend; a zero divisor stops.
pub fn remainder(a: u32, b: u32) -> Result<u32, Stop>
    ensures { result ≡ whole_remainder a b }
{
    let left = a.cast_signed().wrapping_rem(divisor(b)?);
    Ok(left.cast_unsigned())
}

/// Whether the first lies below the second.
pub fn less(a: u32, b: u32) -> bool
    ensures { result ≡ whole_less a b }
{
    a.cast_signed() < b.cast_signed()
}

/// Whether both are the same number.
pub fn equal(a: u32, b: u32) -> bool
    ensures { result ≡ whole_equal a b }
{
    a == b
}
