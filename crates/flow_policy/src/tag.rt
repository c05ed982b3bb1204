//! The tags of control-flow integrity.

use pump_words::Same;

/// A tag of the flow policy. A label is a number that the image gives to a word.
#[derive(Clone, Copy, PartialEq, Eq, PartialOrd, Ord, Hash)]
pub enum FlowTag {
    /// The plain tag: that of registers and of results.
    Plain,
    /// A pc that no jump by register led to.
    Still,
    /// A pc that the JALR with this label led to.
    From(u32),
    /// A word of a code range, with its label if it has one.
    Code(Option<u32>),
    /// Every other word.
    Data,
}

impl Same for FlowTag {
    ghost use Rattle.std.proofs.Common.{rules};

    ghost same = { Prim.search rules };
}
