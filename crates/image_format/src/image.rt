//! An image whose fields and rows meet the conditions of the format.

ghost use Rattle.std.specs.Prelude.{◌≡◌, ◌+◌, ◌*◌, ◌%◌, ◌<◌, ◌≤◌, length, All};
ghost use Rattle.image_format.specs.Conditions.{IsPlace, IsList, whole, extent_of, is_segment, is_range, is_label, is_edge, is_compartment, is_clear_of, is_label_after, is_edge_after, is_compartment_after};

use crate::compartments::{CompartmentRanges, CompartmentRows};
use crate::parts::ImageParts;
use crate::rows::{Edge, Label, WordRange};
use crate::segments::Segments;
use crate::version::Version;
use std::marker::Model;

/// What a machine starts from: the sizes of the RAM and of the heap region, one entry for each of 1 to
/// 8 harts, the words of the memory, and what the policies are told of them. Sizes and addresses are in bytes.
#[derive(Drop)]
pub struct Image {
    pub(crate) ram: u32,
    pub(crate) heap_base: u32,
    pub(crate) heap_bytes: u32,
    pub(crate) entries: Vec<u32>,
    pub(crate) segments: Segments,
    pub(crate) code: Vec<WordRange>,
    pub(crate) labels: Vec<Label>,
    pub(crate) edges: Vec<Edge>,
    pub(crate) compartments: CompartmentRanges,
}

impl Model for Image {
    ghost use Rattle.image_format.specs.Picture.{Picture};

    ghost Value = { Picture };

    ghost use Rattle.image_format.specs.Seen.{picture_of};
    ghost use Rattle.image_format.specs.Conditions.{IsImage};

    ghost view = { picture_of };

    ghost invariant = { λ i. IsImage (picture_of i) };
}

impl Image {
    ghost use Rattle.image_format.specs.Picture.{nth_segment};
    ghost use Rattle.image_format.specs.Conditions.{IsImage};
    ghost use Rattle.image_format.specs.Made.{picture_from};
    ghost use Rattle.image_format.specs.Compartments.{lent_version, lent_rows};

    /// The image that has these parts, which meet the conditions of the format.
    pub fn new(parts: ImageParts) -> Image
        requires { IsImage (picture_from parts) }
        ensures { result ≡ picture_from parts }
    {
        Image {
            ram: parts.ram,
            heap_base: parts.heap_base,
            heap_bytes: parts.heap_bytes,
            entries: parts.entries,
            segments: parts.segments,
            code: parts.code,
            labels: parts.labels,
            edges: parts.edges,
            compartments: parts.compartments,
        }
    }

    /// The parts that it is made of, which meet the conditions of the format.
    pub fn into_parts(self) -> ImageParts
        ensures value { picture_from result ≡ self }
        ensures fits { IsImage (picture_from result) }
    {
        ImageParts {
            ram: self.ram,
            heap_base: self.heap_base,
            heap_bytes: self.heap_bytes,
            entries: self.entries,
            segments: self.segments,
            code: self.code,
            labels: self.labels,
            edges: self.edges,
            compartments: self.compartments,
        }
    }

    /// The version of its file.
    pub fn version(&self) -> Version
        ensures { result ≡ self.now.version }
    {
        self.compartments.version()
    }

    /// The bytes of the RAM: a multiple of 4, 4 to 16,777,216.
    pub fn ram(&self) -> u32
        ensures value { result ≡ self.now.ram }
        ensures aligned { result % 4 ≡ 0 }
        ensures least { 4 ≤ result }
        ensures most { result ≤ 16777216 }
    {
        self.ram
    }

    /// Where the heap region begins: a multiple of 4 in the RAM, or the RAM's end.
    pub fn heap_base(&self) -> u32
        ensures value { result ≡ self.now.heap_base }
        ensures aligned { result % 4 ≡ 0 }
        ensures inside { result ≤ self.now.ram }
    {
        self.heap_base
    }

    /// The bytes of the heap region: a multiple of 4. The region ends in the RAM.
    pub fn heap_bytes(&self) -> u32
        ensures value { result ≡ self.now.heap_bytes }
        ensures aligned { result % 4 ≡ 0 }
        ensures inside { self.now.heap_base + result ≤ self.now.ram }
    {
        self.heap_bytes
    }

    /// Where each hart starts: 1 to 8 multiples of 4 below the RAM's end.
    pub fn entries(&self) -> &[u32]
        ensures value { result.now ≡ self.now.entries }
        ensures least { 1 ≤ length result.now }
        ensures most { length result.now ≤ 8 }
        ensures places { All (IsPlace self.now.ram) result.now }
    {
        &self.entries
    }

    /// How many segments there are. They ascend, and no two meet.
    pub fn segment_count(&self) -> usize
        ensures count { result ≡ length self.now.segments }
        ensures rows { IsList extent_of (is_segment self.now.ram) is_clear_of self.now.segments }
    {
        self.segments.count()
    }

    /// The address of a segment, a multiple of 4.
    pub fn segment_address(&self, i: usize) -> u32
        requires { i < length self.now.segments }
        ensures value { result ≡ (nth_segment self.now i).address }
        ensures aligned { result % 4 ≡ 0 }
        ensures inside { result + 4 * length (nth_segment self.now i).words ≤ self.now.ram }
    {
        self.segments.address(i)
    }

    /// The words of a segment, at least one. They lie in the RAM.
    pub fn segment_words(&self, i: usize) -> &[u32]
        requires { i < length self.now.segments }
        ensures value { result.now ≡ (nth_segment self.now i).words }
        ensures some { 1 ≤ length result.now }
        ensures inside { (nth_segment self.now i).address + 4 * length result.now ≤ self.now.ram }
    {
        self.segments.words(i)
    }

    /// The words that are code. They ascend, and no two ranges meet.
    pub fn code(&self) -> &[WordRange]
        ensures value { result.now ≡ self.now.code }
        ensures rows { IsList whole (is_range self.now.ram) is_clear_of result.now }
    {
        &self.code
    }

    /// The labelled words, ascending by address.
    pub fn labels(&self) -> &[Label]
        ensures value { result.now ≡ self.now.labels }
        ensures rows { IsList whole (is_label self.now.ram) is_label_after result.now }
    {
        &self.labels
    }

    /// The listed edges, ascending by source, and those of one source by target.
    pub fn edges(&self) -> &[Edge]
        ensures value { result.now ≡ self.now.edges }
        ensures rows { IsList whole is_edge is_edge_after result.now }
    {
        &self.edges
    }

    /// The words that compartments own, in rows of the image's version. They ascend, and no two ranges meet.
    pub fn compartments(&self) -> CompartmentRows<'_>
        ensures version { lent_version result ≡ self.now.version }
        ensures value { lent_rows result ≡ self.now.compartments }
        ensures rows { IsList whole
            (is_compartment self.now.version self.now.ram) is_compartment_after (lent_rows result) }
    {
        self.compartments.lent()
    }
}
