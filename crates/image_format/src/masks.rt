//! A set of compartments that may have up to 128.

ghost use Rattle.std.specs.Prelude.{◌≡◌};

use std::marker::Model;

/// A set of compartments 0 to 127, kept as in a file: bit i of the number says whether i is in it.
/// Contracts see it as the number.
#[derive(Clone, Copy)]
pub(crate) struct Mask {
    bytes: [u8; 16],
}

impl Model for Mask {
    ghost use Rattle.std.specs.Prelude.{ℕ};
    ghost use Rattle.std.specs.Int.{w128, from_le_bytes, to_le_bytes};
    ghost use Rattle.image_format.specs.Masks.{AreSixteenBytes};
    ghost use Rattle.image_format.specs.WideLaws.{written_again};

    ghost Value = { ℕ };

    ghost view = { λ mask. from_le_bytes w128 mask.bytes };

    ghost invariant = { λ mask. AreSixteenBytes mask.bytes };

    ghost inverse = { λ n. record { bytes = to_le_bytes w128 n } };

    ghost inverse_ok = { λ mask are i. record { bytes = written_again mask.bytes are i } };
}

impl Mask {
    /// The set of these bits.
    pub(crate) fn of_bits(bits: u128) -> Mask
        ensures { result ≡ bits }
    {
        Mask {
            bytes: bits.to_le_bytes(),
        }
    }

    /// Its bits.
    pub(crate) fn bits(self) -> u128
        ensures { result ≡ self }
    {
        u128::from_le_bytes(self.bytes)
    }
}
