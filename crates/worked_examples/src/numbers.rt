//! Fixed, float and whole numbers: docs/RULES.md, "Worked examples: numbers".
use number::fixed::Fixed;
use number::float::Float;
use number::kind::{NumberKind, Stop};
use number::whole;

// The word of a signed number.
fn word(n: i32) -> u32 {
    n.cast_unsigned()
}

#[test]
fn fixed_products_drop_toward_zero(rt: HostRuntime) {
    assert_eq!(rt; Fixed::multiply(98304, word(-32768)), Ok(word(-49152)));
    assert_eq!(rt; Fixed::multiply(1, word(-1)), Ok(0));
    assert_eq!(rt;
        Fixed::multiply(word(i32::MIN), word(i32::MIN)),
        Ok(0x7fff_ffff)
    );
}

#[test]
fn fixed_sums_are_clipped(rt: HostRuntime) {
    assert_eq!(rt; Fixed::add(0x7fff_ffff, 1), Ok(0x7fff_ffff));
    assert_eq!(rt; Fixed::subtract(0x8000_0000, 1), Ok(0x8000_0000));
    assert_eq!(rt; Fixed::negate(0x8000_0000), Ok(0x7fff_ffff));
}

#[test]
fn fixed_quotients(rt: HostRuntime) {
    assert_eq!(rt; Fixed::divide(65536, 196608), Ok(21845));
    assert_eq!(rt; Fixed::divide(65536, word(-196608)), Ok(word(-21845)));
    assert_eq!(rt; Fixed::divide(65536, 0), Err(Stop::DivisionByZero));
    assert_eq!(rt; Fixed::divide(0x7fff_ffff, 1), Ok(0x7fff_ffff));
}

#[test]
fn fixed_conversions(rt: HostRuntime) {
    assert_eq!(rt; Fixed::from_whole(32767), Ok(2147418112));
    assert_eq!(rt; Fixed::from_whole(32768), Err(Stop::OutOfRange));
    assert_eq!(rt; Fixed::from_whole(-32768), Ok(0x8000_0000));
    assert_eq!(rt; Fixed::from_whole(-32769), Err(Stop::OutOfRange));
    assert_eq!(rt; Fixed::to_whole(word(-1)), Ok(-1));
    assert_eq!(rt; Fixed::to_whole(131071), Ok(1));
}

#[test]
fn fixed_comparisons_are_signed(rt: HostRuntime) {
    assert!(rt; Fixed::less(word(-1), 0));
    assert!(rt; !Fixed::less(0, 0));
    assert!(rt; Fixed::equal(5, 5));
    assert_eq!(rt; Fixed::NUMBER, 2);
}

#[test]
fn float_conversions(rt: HostRuntime) {
    assert_eq!(rt; Float::from_whole(16777216), Ok(0x4b80_0000));
    assert_eq!(rt; Float::from_whole(16777217), Err(Stop::OutOfRange));
    assert_eq!(rt; Float::from_whole(-16777217), Err(Stop::OutOfRange));
    assert_eq!(rt; Float::to_whole(0xc020_0000), Ok(-2));
    assert_eq!(rt; Float::to_whole(0xcf00_0000), Ok(i32::MIN));
    assert_eq!(rt; Float::to_whole(0x4f00_0000), Err(Stop::OutOfRange));
    assert_eq!(rt; Float::to_whole(0x7fc0_0000), Err(Stop::OutOfRange));
}

#[test]
fn a_nan_is_admitted_as_one_word_and_equals_none(rt: HostRuntime) {
    assert_eq!(rt; Float::admit(0x7f80_0001), 0x7fc0_0000);
    assert_eq!(rt; Float::admit(0xffff_ffff), 0x7fc0_0000);
    assert_eq!(rt; Float::admit(0x8000_0000), 0x8000_0000);
    assert!(rt; !Float::equal(0x7fc0_0000, 0x7fc0_0000));
    assert!(rt; Float::equal(0, 0x8000_0000));
    assert_eq!(rt; Float::divide(0x3f80_0000, 0x8000_0000), Ok(0xff80_0000));
    assert_eq!(rt; Float::NUMBER, 1);
}

#[test]
fn whole_numbers_wrap(rt: HostRuntime) {
    assert_eq!(rt; whole::divide(word(-7), 2), Ok(word(-3)));
    assert_eq!(rt; whole::remainder(word(-7), 2), Ok(word(-1)));
    assert_eq!(rt; whole::divide(word(i32::MIN), word(-1)), Ok(word(i32::MIN)));
    assert_eq!(rt; whole::remainder(word(i32::MIN), word(-1)), Ok(0));
    assert_eq!(rt; whole::remainder(1, 0), Err(Stop::DivisionByZero));
    assert_eq!(rt; whole::add(0x7fff_ffff, 1), 0x8000_0000);
    assert_eq!(rt; whole::multiply(0x0001_0000, 0x0001_0000), 0);
    assert!(rt; whole::less(word(-1), 0));
}

#[test]
fn stops_have_numbers(rt: HostRuntime) {
    assert_eq!(rt; Stop::DivisionByZero.number(), 1);
    assert_eq!(rt; Stop::OutOfRange.number(), 2);
}
