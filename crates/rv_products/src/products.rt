//! The products of two words: extension M of the RISC-V unprivileged ISA.

ghost use Rattle.std.specs.Prelude.{◌≡◌};
ghost use Rattle.rv_products.specs.Products.{
  high_product,
  high_product_mixed,
  high_product_unsigned,
  high_word,
  low_product,
};

/// The low word of the product, which is the same whether the words are read as signed or not: the
/// MUL of the RISC-V unprivileged ISA.
#[inline]
pub fn mul(left: u32, right: u32) -> u32
    ensures { result ≡ low_product left right }
{
    left.wrapping_mul(right)
}

// The high 32 of the 64 bits.
#[inline]
fn high_word(number: i64) -> u32
    ensures { result ≡ high_word number }
{
    ((number >> 32) as i32).cast_unsigned()
}

/// The high word of the product of two signed numbers: the MULH of the RISC-V unprivileged ISA.
#[inline]
pub fn mul_high(left: u32, right: u32) -> u32
    ensures { result ≡ high_product left right }
{
    high_word(i64::from(left.cast_signed()) * i64::from(right.cast_signed()))
}

/// The high word of the product of `left` as a signed number and `right` as an unsigned one: the
/// MULHSU of the RISC-V unprivileged ISA.
#[inline]
pub fn mul_high_mixed(left: u32, right: u32) -> u32
    ensures { result ≡ high_product_mixed left right }
{
    high_word(i64::from(left.cast_signed()) * i64::from(right))
}

/// The high word of the product of two unsigned numbers: the MULHU of the RISC-V unprivileged ISA.
#[inline]
pub fn mul_high_unsigned(left: u32, right: u32) -> u32
    ensures { result ≡ high_product_unsigned left right }
{
    ((u64::from(left) * u64::from(right)) >> 32) as u32
}
