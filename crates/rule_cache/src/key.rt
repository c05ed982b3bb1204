//! What a kept rule is looked up by.

use policy_trait::{Ins, Outs};
use rv_decode::Group;

/// The words of the five tags that a rule is asked with.
pub type InWords = Ins<u32>;

/// The words of the two tags that a rule gives.
pub type OutWords = Outs<u32>;

/// What a kept rule is looked up by.
#[derive(Clone, Copy, PartialEq, Eq)]
pub struct Key {
    /// The group of the instruction.
    pub group: Group,
    /// The words of the five tags, each that the policy ignores in this group made plain.
    pub words: InWords,
}
