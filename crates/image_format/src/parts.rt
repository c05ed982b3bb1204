//! What an image is made from.

use crate::compartments::CompartmentRanges;
use crate::rows::{Edge, Label, WordRange};
use crate::segments::Segments;

/// The sizes, entries and lists of an image, under no condition yet. Sizes and addresses are in bytes.
#[derive(Drop)]
pub struct ImageParts {
    /// The bytes of the RAM.
    pub ram: u32,
    /// Where the heap region begins.
    pub heap_base: u32,
    /// The bytes of the heap region.
    pub heap_bytes: u32,
    /// Where each hart starts.
    pub entries: Vec<u32>,
    /// The words that the memory starts with.
    pub segments: Segments,
    /// The words that are code.
    pub code: Vec<WordRange>,
    /// The labelled words.
    pub labels: Vec<Label>,
    /// The allowed ways from label to label.
    pub edges: Vec<Edge>,
    /// The words that compartments own, in rows of the image's version.
    pub compartments: CompartmentRanges,
}
