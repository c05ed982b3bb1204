//! Products and quotients by hand, at a negative number, at zero and at the overflow.

use crate::{
    div, div_unsigned, mul, mul_high, mul_high_mixed, mul_high_unsigned, rem, rem_unsigned,
};
use std::test::Fail;

/// -7, as a word.
const MINUS_SEVEN: u32 = 0xFFFF_FFF9;

/// -1, as a word.
const MINUS_ONE: u32 = 0xFFFF_FFFF;

/// -2^31, as a word: the least signed number.
const LEAST: u32 = 0x8000_0000;

#[test]
fn minus_seven_times_two_has_a_high_word_for_each_reading(rt: HostRuntime) -> Result<(), Fail> {
    assert_eq!(rt; mul(MINUS_SEVEN, 2), 0xFFFF_FFF2);
    assert_eq!(rt; mul_high(MINUS_SEVEN, 2), 0xFFFF_FFFF);
    assert_eq!(rt; mul_high_mixed(MINUS_SEVEN, 2), 0xFFFF_FFFF);
    assert_eq!(rt; mul_high_unsigned(MINUS_SEVEN, 2), 1);
    Ok(())
}

#[test]
fn minus_seven_over_two_rounds_toward_zero(rt: HostRuntime) -> Result<(), Fail> {
    assert_eq!(rt; div(MINUS_SEVEN, 2), 0xFFFF_FFFD);
    assert_eq!(rt; rem(MINUS_SEVEN, 2), 0xFFFF_FFFF);
    Ok(())
}

#[test]
fn without_signs_the_word_of_minus_seven_is_halved(rt: HostRuntime) -> Result<(), Fail> {
    assert_eq!(rt; div_unsigned(MINUS_SEVEN, 2), 0x7FFF_FFFC);
    assert_eq!(rt; rem_unsigned(MINUS_SEVEN, 2), 1);
    Ok(())
}

#[test]
fn division_by_zero_gives_all_ones_and_leaves_the_dividend(rt: HostRuntime) -> Result<(), Fail> {
    assert_eq!(rt; div(MINUS_SEVEN, 0), 0xFFFF_FFFF);
    assert_eq!(rt; div_unsigned(MINUS_SEVEN, 0), 0xFFFF_FFFF);
    assert_eq!(rt; rem(MINUS_SEVEN, 0), MINUS_SEVEN);
    assert_eq!(rt; rem_unsigned(MINUS_SEVEN, 0), MINUS_SEVEN);
    Ok(())
}

#[test]
fn the_least_number_times_minus_one_has_a_high_word_for_each_reading(
    rt: HostRuntime,
) -> Result<(), Fail> {
    assert_eq!(rt; mul(LEAST, MINUS_ONE), 0x8000_0000);
    assert_eq!(rt; mul_high(LEAST, MINUS_ONE), 0);
    assert_eq!(rt; mul_high_mixed(LEAST, MINUS_ONE), 0x8000_0000);
    assert_eq!(rt; mul_high_unsigned(LEAST, MINUS_ONE), 0x7FFF_FFFF);
    Ok(())
}

#[test]
fn the_least_number_over_minus_one_is_itself_and_leaves_nothing(
    rt: HostRuntime,
) -> Result<(), Fail> {
    assert_eq!(rt; div(LEAST, MINUS_ONE), LEAST);
    assert_eq!(rt; rem(LEAST, MINUS_ONE), 0);
    Ok(())
}
