//! `elf`: an image that is made of an ELF file and a tag file, and its own file, saved.

ghost use Rattle.std.specs.Prelude.{◌≡◌, IfOk, IfSome};
ghost use Rattle.shared_terms.specs.Counts.{next_count};
ghost use Rattle.pump_line.specs.Task.{elf};
ghost use Rattle.pump_line.specs.Told.{elf_value};
ghost use Rattle.pump_cli.specs.Early.{GivesImage, LoadRoseBy, bytes_or_long};
ghost use Rattle.pump_cli.specs.Environments.{environment};
ghost use Rattle.pump_cli.specs.Facts.{status_in};
ghost use Rattle.pump_cli.specs.Reading.{both_taken, elf_taken, file_limit, tags_taken, within_limit};
ghost use Rattle.pump_cli.specs.Theorem.{HeadlineOf};

use crate::cut::Cut;
use crate::reading::{EarlyEnd, load_file};
use crate::refusal::{Refusal, end_early};
use crate::save::save_image;
use crate::status::Status;
use elf_image::{ElfEnd, TagsEnd, read_elf, read_tags};
use host_io::{Files, Sink, Source};
use image_format::Image;
use pump_line::ElfTask;
use std::alloc::Global;

/// The bytes of the file of this name; `None` where it is longer than its limit, which is judged later.
fn load_bytes<F: Files>(alloc: Global, files: &mut F, name: &str) -> Result<Option<Vec<u8>>, Cut>
    ensures taken { IfOk result (λ file. IfSome (F.held files.old name.now) (λ all.
        within_limit file_limit all ≡ bytes_or_long file)) }
    ensures faults { LoadRoseBy (F.read_faults files.old) (F.read_faults files.new)
        name.now result }
    ensures writes { F.write_faults files.new ≡ F.write_faults files.old }
    ensures calls { F.calls files.new ≡ next_count (F.calls files.old) }
    ensures held { F.held files.new ≡ F.held files.old }
{
    match load_file(alloc, files, name) {
        Ok(bytes) => Ok(Some(bytes)),
        Err(EarlyEnd::Refused(_)) => Ok(None),
        Err(EarlyEnd::Cut(cut)) => Err(cut),
    }
}

/// The image of a tag file of these bytes; a file without bytes is too long.
fn tags_of(alloc: Global, file: Option<Vec<u8>>) -> Result<Image, EarlyEnd>
    ensures { GivesImage result (tags_taken (bytes_or_long file)) }
{
    let Some(bytes) = file else {
        return Err(EarlyEnd::Refused(Refusal::TooLong));
    };
    match read_tags(alloc, &bytes) {
        Ok(image) => Ok(image),
        Err(TagsEnd::Bad(error)) => Err(EarlyEnd::Refused(Refusal::BadTags(error))),
        Err(TagsEnd::Memory) => Err(EarlyEnd::Cut(Cut::Memory)),
    }
}

/// The image of an ELF file of these bytes under that of a tag file; a file without bytes is too long.
fn elf_under(alloc: Global, file: Option<Vec<u8>>, tags: Image) -> Result<Image, EarlyEnd>
    ensures { GivesImage result (elf_taken (bytes_or_long file) tags) }
{
    let Some(bytes) = file else {
        return Err(EarlyEnd::Refused(Refusal::TooLong));
    };
    match read_elf(alloc, &bytes, tags) {
        Ok(image) => Ok(image),
        Err(ElfEnd::Bad(error)) => Err(EarlyEnd::Refused(Refusal::BadElf(error))),
        Err(ElfEnd::Memory) => Err(EarlyEnd::Cut(Cut::Memory)),
    }
}

/// The image of an ELF file and a tag file of these bytes: the tag file is judged first.
#[tactic(auto, unfolding(crate::specs::Reading::both_taken))]
fn image_of(alloc: Global, elf: Option<Vec<u8>>, tags: Option<Vec<u8>>) -> Result<Image, EarlyEnd>
    ensures { GivesImage result
        (both_taken (bytes_or_long elf) (bytes_or_long tags)) }
{
    match tags_of(alloc, tags) {
        Ok(tags) => elf_under(alloc, elf, tags),
        Err(end) => Err(end),
    }
}

/// Loads the ELF file and then the tag file, and saves the file of the image that is made of them.
pub(crate) fn elf_task<F: Files, S: Source, K: Sink, L: Sink>(
    alloc: Global,
    task: ElfTask<'_>,
    files: &mut F,
    input: &mut S,
    out: &mut K,
    err: &mut L,
) -> Result<Status, Cut>
    ensures { HeadlineOf (elf (elf_value task.entry)) (status_in result)
        (environment F.tells F.held F.read_faults F.write_faults F.calls S.left S.closed S.faults
        K.taken K.faults L.taken L.faults files.old input.old out.old err.old)
        (environment F.tells F.held F.read_faults F.write_faults F.calls S.left S.closed S.faults
        K.taken K.faults L.taken L.faults files.new input.new out.new err.new) }
{
    let elf = match load_bytes(alloc, files, task.elf) {
        Ok(elf) => elf,
        Err(cut) => return Err(cut),
    };
    let tags = match load_bytes(alloc, files, task.tags) {
        Ok(tags) => tags,
        Err(cut) => return Err(cut),
    };
    match image_of(alloc, elf, tags) {
        Ok(image) => save_image(alloc, files, task.image, &image),
        Err(end) => end_early(err, end),
    }
}
