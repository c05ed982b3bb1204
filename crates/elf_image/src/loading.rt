//! An ELF file, loaded.

ghost use Rattle.std.specs.Prelude.{◌≡◌, IsTrue};
ghost use Rattle.image_format.specs.Conditions.{is_place, is_ram};
ghost use Rattle.elf_image.specs.Conditions.{segments_of};
ghost use Rattle.elf_image.specs.Given.{GivesElf, GivesParts};
ghost use Rattle.elf_image.specs.Loaded.{image_of_elf};

use crate::cells::{Cell, load_rows};
use crate::errors::{ElfEnd, ElfError};
use crate::headers::{check_header, entry};
use crate::words::{code_in, segments_in};
use image_format::{Image, ImageParts, Segments, WordRange};
use std::alloc::Global;

/// What an image has of an ELF file.
#[derive(Drop)]
pub(crate) struct Loaded {
    pub entry: u32,
    pub segments: Segments,
    pub code: Vec<WordRange>,
}

/// Whether it is the address of a word of a RAM of that many bytes.
fn is_place(address: u32, ram: u32) -> bool
    ensures { result ≡ is_place ram address }
{
    address % 4 == 0 && address < ram
}

/// What an image with so many bytes of RAM has of an ELF file.
fn load(alloc: Global, elf: &[u8], ram: u32) -> Result<Loaded, ElfEnd>
    requires { IsTrue (is_ram ram) }
    ensures { GivesParts elf.now ram result (segments_of elf.now ram) }
{
    check_header(elf)?;
    let mut cells = vec![in alloc; Cell::FREE; ram as usize]?;
    load_rows(&mut cells, elf)?;
    let entry = entry(elf);
    if !is_place(entry, ram) {
        return Err(ElfEnd::Bad(ElfError::Entry));
    }
    let segments = segments_in(alloc, &cells)?;
    let code = code_in(alloc, &cells)?;
    Ok(Loaded {
        entry,
        segments,
        code,
    })
}

/// The image of an ELF file under a tag file's. Each loadable segment puts its bytes at its address, and
/// zeros behind them up to its bytes in memory. The image's segments are the maximal runs of words with a
/// byte in one of them, its code ranges those with a byte in one whose flags have bit 0, and the ELF file's
/// entry is that of hart 0. All else is as `tags` has it, segments and code ranges apart.
///
/// The first condition that the file fails decides, in the order of `ElfError`; rows of other types, other
/// flags and sections are passed over. The time is linear in the file and the RAM.
pub fn read_elf(alloc: Global, elf: &[u8], tags: Image) -> Result<Image, ElfEnd>
    ensures { GivesElf result (image_of_elf elf.now tags) }
{
    let loaded = load(alloc, elf, tags.ram())?;
    let mut parts = tags.into_parts();
    parts.entries[0] = loaded.entry;
    parts.segments = loaded.segments;
    parts.code = loaded.code;
    Ok(Image::new(parts))
}
