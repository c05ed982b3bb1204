//! The tags of taint.

use pump_words::Same;

/// A tag of the taint policy.
#[derive(Clone, Copy, PartialEq, Eq, PartialOrd, Ord, Hash)]
pub enum TaintTag {
    /// The plain tag: that of what does not come from the input.
    Clean,
    /// That of what came from the input, or was computed from such a value.
    Tainted,
}

impl Same for TaintTag {
    ghost use Rattle.std.proofs.Common.{rules};

    ghost same = { Prim.search rules };
}
