//! The whole file, read from its first byte to its last.

ghost use Rattle.std.specs.Prelude.{◌≡◌, IfOk, Ok};
ghost use Rattle.image_format.specs.Picture.{Picture};
ghost use Rattle.image_format.specs.Compartments.{version_of, rows_of};
ghost use Rattle.image_format.specs.Conditions.{is_compartment_after};
ghost use Rattle.image_format.specs.Spelling.{IsFileOf};
ghost use Rattle.image_format.specs.Reading.{Gives, GivesImage, IsBad, compartment_at, row_at, list_at, sizes_at, entries_at, image_of};

use crate::compartments::{CompartmentRange, CompartmentRanges, WideCompartmentRange};
use crate::errors::{ImageEnd, ImageError};
use crate::fields::{harts_of, heap_base_of, heap_bytes_of, opening_of, place_of, ram_of};
use crate::image::Image;
use crate::lists::{Bounds, list_of};
use crate::room::{Room, Rooms};
use crate::rows::{Edge, Label, WordRange};
use crate::segments::segment_list_of;
use crate::sizes::Sizes;
use crate::version::Version;
use std::alloc::Global;

/// The sizes behind the version.
#[tactic(auto, unfolding(crate::specs::Reading::sizes_at))]
fn sizes_of(size: usize, bytes: &[u8]) -> Result<(Sizes, &[u8]), ImageEnd>
    ensures { Gives (λ x. (x.0, x.1.now)) result (sizes_at size bytes.now) }
{
    let (harts, rest) = harts_of(size, bytes)?;
    let (ram, rest) = ram_of(size, rest)?;
    let (heap_base, rest) = heap_base_of(size, ram, rest)?;
    let (heap_bytes, rest) = heap_bytes_of(size, ram, heap_base, rest)?;
    let sizes = Sizes {
        harts,
        ram,
        heap_base,
        heap_bytes,
    };
    Ok((sizes, rest))
}

/// One entry for each hart.
fn entries_of(
    rooms: Rooms,
    sizes: Sizes,
    size: usize,
    bytes: &[u8],
) -> Result<(Vec<u32>, &[u8]), ImageEnd>
    ensures { Gives (λ x. (x.0.items, x.1.now)) result (entries_at size sizes bytes.now) }
{
    let mut entries: Room<u32> = rooms.room_for(sizes.harts as usize, bytes)?;
    let mut rest = bytes;
    for _ in 0..sizes.harts {
        let (entry, after) = place_of(5, size, sizes.ram, rest)?;
        entries.push(entry);
        rest = after;
    }
    Ok((entries.into_items(), rest))
}

/// The fifth list, in rows of the version.
fn compartments_of(
    rooms: Rooms,
    version: Version,
    bounds: Bounds,
    bytes: &[u8],
) -> Result<(CompartmentRanges, &[u8]), ImageEnd>
    ensures read { Gives (λ x. (rows_of x.0, x.1.now)) result
        (list_at bounds.size
        (row_at 5 is_compartment_after
        (compartment_at version bounds.size bounds.ram)) bytes.now) }
    ensures version { IfOk result (λ x. version_of x.0 ≡ version) }
{
    match version {
        Version::One => {
            let (rows, rest) = list_of::<CompartmentRange>(rooms, 5, bounds, bytes)?;
            Ok((CompartmentRanges::Narrow(rows), rest))
        }
        Version::Two => {
            let (rows, rest) = list_of::<WideCompartmentRange>(rooms, 5, bounds, bytes)?;
            Ok((CompartmentRanges::Wide(rows), rest))
        }
    }
}

/// The image up to the first condition that fails.
#[tactic(auto, unfolding(crate::specs::Reading::image_of, crate::specs::Reading::picture_at, crate::specs::Reading::lists_at))]
fn image_in(alloc: Global, bytes: &[u8]) -> Result<Image, ImageEnd>
    ensures { Gives (λ image. image) result (image_of bytes.now) }
{
    let rooms = Rooms::new(alloc);
    let size = bytes.len();
    let (version, rest) = opening_of(size, bytes)?;
    let (sizes, rest) = sizes_of(size, rest)?;
    let (entries, rest) = entries_of(rooms, sizes, size, rest)?;
    let bounds = Bounds {
        size,
        ram: sizes.ram,
    };
    let (segments, rest) = segment_list_of(rooms, bounds, rest)?;
    let (code, rest) = list_of::<WordRange>(rooms, 2, bounds, rest)?;
    let (labels, rest) = list_of::<Label>(rooms, 3, bounds, rest)?;
    let (edges, rest) = list_of::<Edge>(rooms, 4, bounds, rest)?;
    let (compartments, rest) = compartments_of(rooms, version, bounds, rest)?;
    if !rest.is_empty() {
        let offset = size.saturating_sub(rest.len());
        return Err(ImageEnd::Bad(ImageError::Trailing(offset)));
    }
    Ok(Image {
        ram: sizes.ram,
        heap_base: sizes.heap_base,
        heap_bytes: sizes.heap_bytes,
        entries,
        segments,
        code,
        labels,
        edges,
        compartments,
    })
}

/// The image whose file the bytes are, or the first condition of the format that they fail, in the order
/// of reading. No growth is larger than the bytes given, and the time is linear in them.
pub fn read_image(alloc: Global, bytes: &[u8]) -> Result<Image, ImageEnd>
    // What is read is an image, and the bytes are its file.
    ensures found { IfOk result (λ g. IsFileOf bytes.now g) }
    // The file of an image is read, unless memory runs out.
    ensures only { (g : Picture) → IsFileOf bytes.now g → GivesImage result (Ok g) }
    // Bytes are refused only where they are the file of no image.
    ensures refused { IsBad result → (g : Picture) → ¬ IsFileOf bytes.now g }
    // The first condition in reading order that the bytes fail decides, unless memory runs out.
    ensures exact { GivesImage result (image_of bytes.now) }
{
    image_in(alloc, bytes)
}
