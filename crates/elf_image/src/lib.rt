//! An image made of an ELF file and a tag file.
//!
//! `read_tags` takes the bytes of a tag file, an image file without segments and code whose hart 0 has
//! entry 0. `read_elf` takes an ELF file's bytes (System V ABI, ELF-32, RISC-V) and a tag file's image, and
//! gives the image whose memory the ELF file's loadable segments fill, under the tag file's tags.
#![tactic(auto)]

mod cells;
mod errors;
mod headers;
mod loading;
mod tags;
mod words;

pub use errors::{ElfEnd, ElfError, TagsEnd, TagsError};
pub use loading::read_elf;
pub use tags::read_tags;
