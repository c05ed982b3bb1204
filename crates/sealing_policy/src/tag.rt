//! The tags of the sealing policy.

use pump_words::Same;

/// A tag of the sealing policy.
#[derive(Clone, Copy, PartialEq, Eq, PartialOrd, Ord, Hash)]
pub enum SealTag {
    /// Ordinary data, the plain tag.
    Data,
    /// The key of this number.
    Key(u32),
    /// A value that the key of this number sealed.
    Sealed(u32),
}

impl Same for SealTag {
    ghost use Rattle.std.proofs.Common.{rules};

    ghost same = { Prim.search rules };
}
