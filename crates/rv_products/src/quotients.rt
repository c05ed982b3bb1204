//! The quotients and remainders of two words: extension M of the RISC-V unprivileged ISA.

ghost use Rattle.std.specs.Prelude.{◌≡◌};
ghost use Rattle.rv_products.specs.Quotients.{
  quotient,
  quotient_unsigned,
  remainder,
  remainder_unsigned,
};

/// The quotient of two signed numbers, rounded toward zero: the DIV of the RISC-V unprivileged ISA.
///
/// By zero it is all ones, and -2^31 by -1 gives -2^31.
#[inline]
pub fn div(dividend: u32, divisor: u32) -> u32
    ensures { result ≡ quotient dividend divisor }
{
    if divisor == 0 {
        return u32::MAX;
    }
    let quotient = dividend.cast_signed().wrapping_div(divisor.cast_signed());
    quotient.cast_unsigned()
}

/// The quotient of two unsigned numbers: the DIVU of the RISC-V unprivileged ISA.
///
/// By zero it is all ones.
#[inline]
pub fn div_unsigned(dividend: u32, divisor: u32) -> u32
    ensures { result ≡ quotient_unsigned dividend divisor }
{
    if divisor == 0 {
        return u32::MAX;
    }
    dividend / divisor
}

/// The remainder of two signed numbers, with the dividend's sign: the REM of the RISC-V unprivileged
/// ISA.
///
/// By zero it is the dividend, and -2^31 by -1 leaves 0.
#[inline]
pub fn rem(dividend: u32, divisor: u32) -> u32
    ensures { result ≡ remainder dividend divisor }
{
    if divisor == 0 {
        return dividend;
    }
    let remainder = dividend.cast_signed().wrapping_rem(divisor.cast_signed());
    remainder.cast_unsigned()
}

/// The remainder of two unsigned numbers: the REMU of the RISC-V unprivileged ISA.
///
/// By zero it is the dividend.
#[inline]
pub fn rem_unsigned(dividend: u32, divisor: u32) -> u32
    ensures { result ≡ remainder_unsigned dividend divisor }
{
    if divisor == 0 {
        return dividend;
    }
    dividend % divisor
}
