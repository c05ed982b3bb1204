//! What `read_tags` and `read_elf` answer in place of an image.

ghost use Rattle.std.specs.Prelude.{◌≡◌};
ghost use Rattle.image_format.specs.declared.errors.ImageEnd.TheVariants as image;
ghost use Rattle.elf_image.specs.Given.{tags_end};
ghost use Rattle.elf_image.specs.declared.errors.ElfEnd.TheVariants as elf;
ghost use Rattle.elf_image.specs.declared.errors.TagsEnd.TheVariants as tags;

use image_format::{ImageEnd, ImageError};
use std::alloc::AllocError;
use thiserror::Error;

/// Why bytes are refused as a tag file: the first of its conditions that they fail.
#[derive(Clone, Copy, Debug, PartialEq, Eq, Error)]
pub enum TagsError {
    /// They are the file of no image: why not.
    #[error("{0}")]
    Image(ImageError),
    /// The image has segments or code ranges, which an ELF file has for it.
    #[error("lists")]
    Lists,
    /// The entry of hart 0 isn't 0: the ELF file says where it starts.
    #[error("entry")]
    Entry,
}

/// How reading a tag file ends without an image.
#[derive(Clone, Copy)]
pub enum TagsEnd {
    /// The bytes are no tag file, for this reason.
    Bad(TagsError),
    /// Memory ran out, which says nothing of the bytes.
    Memory,
}

impl From<ImageEnd> for TagsEnd {
    ghost from_gives = { λ end e. e ≡ tags_end end };

    fn from(end: ImageEnd) -> TagsEnd {
        match end {
            ImageEnd::Bad(error) => TagsEnd::Bad(TagsError::Image(error)),
            ImageEnd::Memory => TagsEnd::Memory,
        }
    }
}

/// Why an ELF file isn't loaded: the first of the conditions that it fails.
///
/// Offsets count bytes from the file's first. The rows are those of its program headers, counted from 0;
/// each is looked at for `Segment` before `Overlap`, and before the next.
#[derive(Clone, Copy, Debug, PartialEq, Eq, Error)]
pub enum ElfError {
    /// It has fewer than the 52 bytes of an ELF header.
    #[error("short")]
    Short,
    /// It doesn't begin with 7F, `ELF`, 32-bit, little-endian, version 1.
    #[error("ident")]
    Ident,
    /// Its type isn't 2, an executable.
    #[error("notexec")]
    NotExec,
    /// Its machine isn't 243, RISC-V.
    #[error("machine")]
    Machine,
    /// Bit 0 of its flags is set: it may have compressed instructions.
    #[error("compressed")]
    Compressed,
    /// It has program headers, and they haven't 32 bytes each or don't end in the file.
    #[error("headers")]
    Headers,
    /// A loadable segment has more bytes in the file than in memory, or its bytes don't end in the file
    /// where it has some, or don't end in the RAM: its row.
    #[error("segment {0}")]
    Segment(u16),
    /// Bytes of a loadable segment are also those of an earlier one: its row.
    #[error("overlap {0}")]
    Overlap(u16),
    /// The entry isn't a multiple of 4, or isn't below the RAM's end.
    #[error("entry")]
    Entry,
}

/// How reading an ELF file ends without an image.
#[derive(Clone, Copy)]
pub enum ElfEnd {
    /// The file is not loaded, for this reason.
    Bad(ElfError),
    /// Memory ran out, which says nothing of the file.
    Memory,
}

impl From<ElfError> for ElfEnd {
    ghost from_gives = { λ error e. e ≡ elf.Bad error };

    fn from(error: ElfError) -> ElfEnd {
        ElfEnd::Bad(error)
    }
}

impl From<AllocError> for ElfEnd {
    ghost from_gives = { λ _ e. e ≡ elf.Memory };

    fn from(_e: AllocError) -> ElfEnd {
        ElfEnd::Memory
    }
}
