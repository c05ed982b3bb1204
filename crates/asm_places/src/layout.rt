//! The version and the sizes that a source asks for, and where its lines lie.

ghost use Rattle.std.specs.Prelude.{◌≡◌, IfOk, IsTrue, length};
ghost use Rattle.std.specs.List.{All};
ghost use Rattle.image_format.specs.Conditions.{is_harts, is_ram};
ghost use Rattle.asm_read.specs.Source.{Gives};
ghost use Rattle.asm_places.specs.Layouts.{layout_of, layout_seen};
ghost use Rattle.asm_places.specs.Places.{IsReached};

use crate::places::places_of;
use crate::sizes::{harts_of, ram_of, version_of};
use asm_read::{AsmEnd, Line};
use image_format::Version;
use std::alloc::Global;

/// The version and the sizes that a source asks for, and where its lines lie.
#[derive(Drop)]
pub struct Layout {
    /// The version of the image's file.
    pub version: Version,
    /// How many harts there are: 1 to 8.
    pub harts: u32,
    /// The bytes of RAM: a multiple of 4, 4 to 16,777,216.
    pub ram: u32,
    /// The place of each line: the byte address that was reached before it, a multiple of 4, at most the RAM's end.
    pub places: Vec<u32>,
    /// The place reached behind the last line.
    pub end: u32,
}

/// The version and the sizes that the lines ask for and where each of them lies, or the first error.
///
/// The first `.version` that isn't 1 or 2 comes first, then the first `.harts` that isn't 1 to 8, then the first `.ram` that is
/// no multiple of 4 from 4 to 16,777,216, all `Range`. Then the first line that can't be placed: `Duplicate` where its name
/// stands before; `Order` for a second `.version`, `.harts`, `.ram` or `.heap`, a second `.entry` of the same hart, or an `.org`
/// below the place; `Range` for an `.org` that is no multiple of 4 or past the RAM, a word past the RAM, or a negative `.zero`.
/// `Memory` says nothing of the lines. The time is O(n log n).
#[tactic(auto, unfolding(crate::specs::Layouts::layout_of))]
pub fn layout_of<'a>(alloc: Global, lines: &[Line<'a>]) -> Result<Layout, AsmEnd>
    ensures value { Gives layout_seen result (layout_of lines.now) }
    ensures harts { IfOk result (λ layout. IsTrue (is_harts layout.harts)) }
    ensures ram { IfOk result (λ layout. IsTrue (is_ram layout.ram)) }
    ensures count { IfOk result (λ layout. length layout.places.items ≡ length lines.now) }
    ensures places { IfOk result (λ layout. All (IsReached layout.ram) layout.places.items) }
    ensures end { IfOk result (λ layout. IsReached layout.ram layout.end) }
{
    let version = version_of(lines)?;
    let harts = harts_of(lines)?;
    let ram = ram_of(lines)?;
    let (places, end) = places_of(alloc, ram, lines)?;
    Ok(Layout {
        version,
        harts,
        ram,
        places,
        end,
    })
}
