//! What an image says of a word.

use crate::sets::CompartmentSet;

/// What an image says of one memory word.
#[derive(Clone, Copy, PartialEq, Eq)]
pub struct Birth {
    /// The compartment that owns the word.
    pub owner: u32,
    /// The compartments that may jump to the word.
    pub into: CompartmentSet,
    /// The compartments that may write the word.
    pub write: CompartmentSet,
    /// Whether the word lies in a code range.
    pub code: bool,
    /// The label of the word.
    pub label: Option<u32>,
    /// Whether the word lies in the heap region.
    pub heap: bool,
}
