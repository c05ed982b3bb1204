//! The whole file, written from its first byte to its last.

ghost use Rattle.std.specs.Prelude.{◌≡◌, ℕ, ◌^◌, ◌<◌, List, ◌++◌, length, OnOk, IfOk};
ghost use Rattle.std.specs.List.{flat_map};
ghost use Rattle.image_format.specs.Picture.{nth_segment};
ghost use Rattle.image_format.specs.Spelling.{half, number, wide_number, range_spelling, segment_spelling, label_spelling, edge_spelling, compartment_spelling, list_spelling, opening_spelling, sizes_spelling, lists_spelling, IsFileOf};

use crate::compartments::{CompartmentRange, CompartmentRows, WideCompartmentRange};
use crate::fields::MAGIC;
use crate::image::Image;
use crate::rows::{Edge, Label, WordRange};
use crate::version::Version;
use std::alloc::{AllocError, Global};

/// What stands in a file as bytes of its own.
trait Written: Copy {
    ghost text: { Self → List ℕ };

    /// Adds its bytes to others.
    fn put(self, out: &mut Vec<u8>) -> Result<(), AllocError>
        ensures { OnOk result (out.new.items ≡ out.old.items ++ text self) };
}

impl Written for u32 {
    ghost text = { number };

    #[tactic(auto, unfolding(crate::specs::Spelling::number))]
    fn put(self, out: &mut Vec<u8>) -> Result<(), AllocError> {
        out.extend_from_slice(&self.to_le_bytes())
    }
}

impl Written for u128 {
    ghost text = { wide_number };

    #[tactic(auto, unfolding(crate::specs::Spelling::wide_number))]
    fn put(self, out: &mut Vec<u8>) -> Result<(), AllocError> {
        out.extend_from_slice(&self.to_le_bytes())
    }
}

/// Two numbers, one behind the other.
fn put_pair(out: &mut Vec<u8>, first: u32, second: u32) -> Result<(), AllocError>
    ensures { OnOk result (out.new.items ≡ out.old.items ++ (number first ++ number second)) }
{
    first.put(out)?;
    second.put(out)
}

impl Written for WordRange {
    ghost text = { range_spelling };

    fn put(self, out: &mut Vec<u8>) -> Result<(), AllocError> {
        put_pair(out, self.address, self.words)
    }
}

impl Written for Label {
    ghost text = { label_spelling };

    fn put(self, out: &mut Vec<u8>) -> Result<(), AllocError> {
        put_pair(out, self.address, self.id)
    }
}

impl Written for Edge {
    ghost text = { edge_spelling };

    fn put(self, out: &mut Vec<u8>) -> Result<(), AllocError> {
        put_pair(out, self.source, self.target)
    }
}

impl Written for CompartmentRange {
    ghost use Rattle.image_format.specs.declared.version.Version.TheVariants.{One};

    ghost text = { compartment_spelling One };

    fn put(self, out: &mut Vec<u8>) -> Result<(), AllocError> {
        self.range.put(out)?;
        self.owner.put(out)?;
        put_pair(out, self.into, self.write)
    }
}

impl Written for WideCompartmentRange {
    ghost use Rattle.image_format.specs.declared.version.Version.TheVariants.{Two};

    ghost text = { compartment_spelling Two };

    fn put(self, out: &mut Vec<u8>) -> Result<(), AllocError> {
        self.range.put(out)?;
        self.owner.put(out)?;
        self.into.bits().put(out)?;
        self.write.bits().put(out)
    }
}

/// Rows, one behind the other.
fn put_rows<R: Written>(out: &mut Vec<u8>, rows: &[R]) -> Result<(), AllocError>
    ensures { OnOk result (out.new.items ≡ out.old.items ++ flat_map R.text rows.now) }
{
    for row in rows {
        row.put(out)?;
    }
    Ok(())
}

/// A list behind the segments: its count, and its rows.
fn put_list<R: Written>(out: &mut Vec<u8>, rows: &[R]) -> Result<(), AllocError>
    requires { length rows.now < 2 ^ 32 }
    ensures { OnOk result (out.new.items ≡ out.old.items ++ list_spelling R.text rows.now) }
{
    (rows.len() as u32).put(out)?;
    put_rows(out, rows)
}

/// A segment: where its words lie, and the words.
fn put_segment(out: &mut Vec<u8>, image: &Image, i: usize) -> Result<(), AllocError>
    requires { i < length image.now.segments }
    ensures { OnOk result
        (out.new.items ≡ out.old.items ++ segment_spelling (nth_segment image.now i)) }
{
    let words = image.segments.words(i);
    put_pair(out, image.segments.address(i), words.len() as u32)?;
    put_rows(out, words)
}

/// The first list: a count, and the segments.
fn put_segments(out: &mut Vec<u8>, image: &Image) -> Result<(), AllocError>
    ensures { OnOk result
        (out.new.items ≡ out.old.items ++ list_spelling segment_spelling image.now.segments) }
{
    let count = image.segments.count();
    (count as u32).put(out)?;
    for i in 0..count {
        put_segment(out, image, i)?;
    }
    Ok(())
}

/// The magic and the version.
#[tactic(auto, unfolding(crate::specs::Spelling::number, crate::specs::Spelling::half))]
fn put_opening(out: &mut Vec<u8>, version: Version) -> Result<(), AllocError>
    ensures { OnOk result (out.new.items ≡ out.old.items ++ opening_spelling version) }
{
    MAGIC.put(out)?;
    out.extend_from_slice(&version.number().to_le_bytes())
}

/// The number of harts, and the sizes of the RAM and the heap region.
#[tactic(auto, unfolding(crate::specs::Spelling::half))]
fn put_sizes(out: &mut Vec<u8>, image: &Image) -> Result<(), AllocError>
    ensures { OnOk result (out.new.items ≡ out.old.items ++ sizes_spelling image.now) }
{
    let harts = image.entries.len() as u16;
    out.extend_from_slice(&harts.to_le_bytes())?;
    image.ram.put(out)?;
    put_pair(out, image.heap_base, image.heap_bytes)
}

/// The fifth list, in rows of the image's version.
fn put_compartments(out: &mut Vec<u8>, image: &Image) -> Result<(), AllocError>
    ensures { OnOk result (out.new.items ≡ out.old.items
        ++ list_spelling (compartment_spelling image.now.version) image.now.compartments) }
{
    match image.compartments() {
        CompartmentRows::Narrow(rows) => put_list(out, rows),
        CompartmentRows::Wide(rows) => put_list(out, rows),
    }
}

/// The five lists.
fn put_lists(out: &mut Vec<u8>, image: &Image) -> Result<(), AllocError>
    ensures { OnOk result (out.new.items ≡ out.old.items ++ lists_spelling image.now) }
{
    put_segments(out, image)?;
    put_list(out, &image.code)?;
    put_list(out, &image.labels)?;
    put_list(out, &image.edges)?;
    put_compartments(out, image)
}

/// The one spelling of an image. The time is linear in its bytes.
#[tactic(auto, unfolding(crate::specs::Spelling::spelling))]
pub fn write_image(alloc: Global, image: &Image) -> Result<Vec<u8>, AllocError>
    // What is written is the file of the image, which `read_image` takes.
    ensures { IfOk result (λ bytes. IsFileOf bytes.items image.now) }
{
    let mut out = Vec::new(alloc);
    put_opening(&mut out, image.version())?;
    put_sizes(&mut out, image)?;
    put_rows(&mut out, &image.entries)?;
    put_lists(&mut out, image)?;
    Ok(out)
}
