//! The high and the low word of a product make it, and what a division gives is the one quotient and
//! the one remainder.

ghost use Rattle.std.specs.Prelude.{◌≡◌, ◌≢◌, ◌<◌, ◌+◌, ◌*◌, ◌^◌, ℕ, ℤ, pos, ◌+ℤ◌, ◌*ℤ◌, false};
ghost use Rattle.pump_words.specs.Words.{signed};
ghost use Rattle.rv_products.specs.Products.{
  high_product,
  high_product_mixed,
  high_product_unsigned,
  low_product,
};
ghost use Rattle.rv_products.specs.Quotients.{
  IsQuotientAndRemainder,
  IsUnsignedQuotientAndRemainder,
  overflows,
  quotient,
  quotient_unsigned,
  remainder,
  remainder_unsigned,
};

/// However two words are read, the high word of their product, read in the same way, and its low
/// word make the product: so the MUL of the RISC-V unprivileged ISA serves its MULH, MULHSU and
/// MULHU alike.
pub fn product_law()
    ensures signed { (a b : ℕ) → a < 2 ^ 32 → b < 2 ^ 32
        → signed (high_product a b) *ℤ pos (2 ^ 32) +ℤ pos (low_product a b)
        ≡ signed a *ℤ signed b }
    ensures mixed { (a b : ℕ) → a < 2 ^ 32 → b < 2 ^ 32
        → signed (high_product_mixed a b) *ℤ pos (2 ^ 32) +ℤ pos (low_product a b)
        ≡ signed a *ℤ pos b }
    ensures unsigned { (a b : ℕ)
        → high_product_unsigned a b * 2 ^ 32 + low_product a b ≡ a * b }
{}

/// In each case that the RISC-V unprivileged ISA doesn't set apart, DIV and REM give a quotient and
/// a remainder, and no other two numbers are that; so do DIVU and REMU.
pub fn quotient_law()
    ensures signed { (a b : ℕ) → a < 2 ^ 32 → b < 2 ^ 32 → b ≢ 0 → overflows a b ≡ false
        → IsQuotientAndRemainder (signed a) (signed b)
        (signed (quotient a b)) (signed (remainder a b)) }
    ensures signed_alone { (a b : ℕ) (q r : ℤ) → a < 2 ^ 32 → b < 2 ^ 32 → b ≢ 0
        → overflows a b ≡ false → IsQuotientAndRemainder (signed a) (signed b) q r
        → (q ≡ signed (quotient a b)) × (r ≡ signed (remainder a b)) }
    ensures unsigned { (a b : ℕ) → b ≢ 0
        → IsUnsignedQuotientAndRemainder a b (quotient_unsigned a b) (remainder_unsigned a b) }
    ensures unsigned_alone { (a b q r : ℕ) → b ≢ 0 → IsUnsignedQuotientAndRemainder a b q r
        → (q ≡ quotient_unsigned a b) × (r ≡ remainder_unsigned a b) }
{}
