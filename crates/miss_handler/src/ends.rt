//! How a question ends that has no answer.

use policy_trait::Refused;

/// Why there is no answer.
#[derive(Clone, Copy, PartialEq, Eq)]
pub enum AskEnd {
    /// The rule refuses.
    Stopped(Refused),
    /// The outputs of the rule need more tag numbers than there may be.
    TagsOut,
    /// Memory ran out.
    Memory,
}
