//! The tags of secrecy.

use pump_words::Same;

/// A tag of secrecy.
#[derive(Clone, Copy, PartialEq, Eq, PartialOrd, Ord, Hash)]
pub enum SecretTag {
    /// The plain tag: that of what may be told.
    Open,
    /// That of a secret byte, and of what was computed from one.
    Secret,
}

impl Same for SecretTag {
    ghost use Rattle.std.proofs.Common.{rules};

    ghost same = { Prim.search rules };
}
