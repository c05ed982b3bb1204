//! From the lines of a source to its image.

ghost use Rattle.std.specs.Prelude.{◌≡◌, ◌≤◌, IfOk, IsTrue, length};
ghost use Rattle.std.specs.FinMap as map;
ghost use Rattle.image_format.specs.Conditions.{is_harts, is_ram};
ghost use Rattle.asm_read.specs.Source.{Gives, at_line};
ghost use Rattle.asm_emit.specs.Assembled.{additions_of, picture_of_lines, draft_with, image_of_source};
ghost use Rattle.asm_emit.specs.Draft.{empty_draft, picture_of};
ghost use Rattle.asm_places.specs.Counts.{count_in};
ghost use Rattle.asm_emit.specs.Kept.{ArePlaced, IsAddition, IsDraft};
ghost use Rattle.asm_emit.specs.Seen.{draft_of};
ghost use Rattle.asm_emit.specs.Values.{addition_in};

use crate::builder::Builder;
use crate::values::{Addition, addition_in};
use asm_lists::sorted_edges;
use asm_places::{Layout, layout_of, names_of};
use asm_read::{AsmEnd, AsmError, Line, read_source};
use asm_words::Names;
use image_format::{Image, ImageParts};
use std::alloc::{AllocError, Global};

/// What a line at a place adds, or its error with its number.
fn addition_at<'a>(
    layout: &Layout,
    names: &Names<'a>,
    place: u32,
    line: &Line<'a>,
) -> Result<Addition, AsmError>
    requires { 1 ≤ layout.now.harts }
    ensures value { result ≡ at_line line.now.number (addition_in layout.now.version
        layout.now.harts layout.now.ram (map.get names.now) place line.now.statement) }
    ensures fits { IfOk result (IsAddition layout.now.version
        layout.now.harts layout.now.ram (count_in line.now.statement)) }
{
    let number = line.number;
    addition_in(layout, names, place, &line.statement).map_err(|kind| AsmError {
        line: number,
        kind,
    })
}

/// What the lines at their places add, one behind the other, or the first error of one.
fn builder_of<'a>(
    alloc: Global,
    lines: &[Line<'a>],
    layout: &Layout,
    names: &Names<'a>,
) -> Result<Builder, AsmEnd>
    requires harts { IsTrue (is_harts layout.now.harts) }
    requires ram { IsTrue (is_ram layout.now.ram) }
    requires count { length layout.now.places.items ≡ length lines.now }
    requires placed { ArePlaced layout.now.ram lines.now layout.now.places.items }
    ensures value { Gives draft_of result (draft_with
        (empty_draft layout.now.version layout.now.harts)
        (additions_of layout.now.version layout.now.harts layout.now.ram
        (map.get names.now) lines.now layout.now.places.items)) }
    ensures harts { IfOk result (λ builder. length builder.entries.items ≡ layout.now.harts) }
    ensures kept { IfOk result (λ builder.
        IsDraft layout.now.ram layout.now.ram (draft_of builder)) }
{
    let mut builder = Builder::new(alloc, layout.version, layout.harts)?;
    for (i, line) in lines.iter().enumerate() {
        let place = layout.places[i];
        let addition = addition_at(layout, names, place, line)?;
        builder.add(place, addition)?;
    }
    Ok(builder)
}

/// The image of what was built, for so many bytes of RAM.
///
/// Running out of memory is an error, and so are more than 2^32 - 1 edges, which no image can hold.
fn image_of(alloc: Global, ram: u32, builder: Builder) -> Result<Image, AllocError>
    requires harts { IsTrue (is_harts (length builder.entries.items)) }
    requires ram { IsTrue (is_ram ram) }
    requires kept { IsDraft ram ram (draft_of builder) }
    ensures { IfOk result (λ image. image ≡ picture_of ram (draft_of builder)) }
{
    let edges = sorted_edges(alloc, builder.edges)?;
    if edges.len() > u32::MAX as usize {
        return Err(AllocError);
    }
    Ok(Image::new(ImageParts {
        ram,
        heap_base: builder.heap_base,
        heap_bytes: builder.heap_bytes,
        entries: builder.entries,
        segments: builder.segments,
        code: builder.code,
        labels: builder.labels,
        edges,
        compartments: builder.compartments,
    }))
}

/// The image of a source's lines, or its first error.
///
/// First come the errors of the version and the sizes and then, by line, those of the places: see `asm_places::layout_of`. Then,
/// by line, a name without a place is `NoName`, and a number outside the range of its field `Range`: immediates and offsets as
/// `asm_words::emission_of` has them; the heap region, a multiple of 4 in the RAM with a multiple of 4 bytes that end in it; the
/// hart of `.entry`, below the number of harts, and its address, a multiple of 4 in the RAM; ids 0 to 2^32 - 1; owners 0 to 31
/// and masks 0 to 2^32 - 1 in version 1, owners 0 to 127 and masks 0 to 2^128 - 1 in version 2. They are looked at also where
/// they have no effect.
///
/// The image has the version that the source asks for, as segments the maximal runs of emitted words, as code ranges those that
/// stand in a text, as compartment ranges the maximal runs of one protection other than 0, 0, 0, the labels of words, and each
/// edge once. `Memory` says nothing of the source, but that it has at most 2^32 - 1 edges if there is memory enough. The time is
/// O(n log n) in lines and words.
#[tactic(auto, unfolding(crate::specs::Assembled::picture_of_lines, crate::specs::Assembled::picture_at))]
pub fn assemble<'a>(alloc: Global, lines: &[Line<'a>]) -> Result<Image, AsmEnd>
    ensures { Gives (λ image. image) result (picture_of_lines lines.now) }
{
    let layout = layout_of(alloc, lines)?;
    let names = names_of(alloc, lines, &layout)?;
    let builder = builder_of(alloc, lines, &layout, &names)?;
    let image = image_of(alloc, layout.ram, builder)?;
    Ok(image)
}

/// The image of a source, or its first error: that of reading its lines (`asm_read::read_source`), or else that of assembling
/// them. `Memory` says of the source what `assemble` says.
#[tactic(auto, unfolding(crate::specs::Assembled::image_of_source))]
pub fn assemble_source(alloc: Global, source: &[u8]) -> Result<Image, AsmEnd>
    ensures { Gives (λ image. image) result (image_of_source source.now) }
{
    let lines = read_source(alloc, source)?;
    assemble(alloc, &lines)
}
