//! A tag file, read.

ghost use Rattle.elf_image.specs.Given.{GivesTags};
ghost use Rattle.elf_image.specs.Tags.{is_bare, starts_at_zero, tags_of};
ghost use Rattle.std.specs.Prelude.{◌≡◌};

use crate::errors::{TagsEnd, TagsError};
use image_format::{Image, read_image};
use std::alloc::Global;

/// Whether it has neither segments nor code.
fn is_bare(image: &Image) -> bool
    ensures { result ≡ is_bare image.now }
{
    image.segment_count() == 0 && image.code().is_empty()
}

/// Whether hart 0 has entry 0.
fn starts_at_zero(image: &Image) -> bool
    ensures { result ≡ starts_at_zero image.now }
{
    image.entries()[0] == 0
}

/// The image of a tag file: an image file, version 1 or 2, without segments and code ranges, whose hart 0
/// has entry 0. Its conditions are `read_image`'s, then `Lists`, then `Entry`, and the first that fails
/// decides.
#[tactic(auto, unfolding(crate::specs::Tags::tags_of))]
pub fn read_tags(alloc: Global, bytes: &[u8]) -> Result<Image, TagsEnd>
    ensures { GivesTags result (tags_of bytes.now) }
{
    let image = read_image(alloc, bytes)?;
    if !is_bare(&image) {
        return Err(TagsEnd::Bad(TagsError::Lists));
    }
    if !starts_at_zero(&image) {
        return Err(TagsEnd::Bad(TagsError::Entry));
    }
    Ok(image)
}
