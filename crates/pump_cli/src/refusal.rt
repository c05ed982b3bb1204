//! Refusals: what they say, and their statuses.

ghost use Rattle.std.specs.Prelude.{◌≡◌, ◌+◌, ◌≤◌, ◌++◌};
ghost use Rattle.arrayvec.specs.ArrayVec.{array_vec_len};
ghost use Rattle.pump_cli.specs.Codes.{status_of_refusal};
ghost use Rattle.pump_cli.specs.Early.{EndsEarly, Tells};
ghost use Rattle.pump_cli.specs.Texts.{refusal_text};

use crate::cut::Cut;
use crate::reading::EarlyEnd;
use crate::status::Status;
use crate::texts::{write_elf_error, write_image_error, write_source_error, write_tags_error};
use asm_read::AsmError;
use elf_image::{ElfError, TagsError};
use host_io::Sink;
use image_format::ImageError;
use pump_words::{Line, write_text};

/// Why a task is refused before anything is done.
#[derive(Clone, Copy)]
pub(crate) enum Refusal {
    /// The words are no command line.
    BadWords,
    /// The file is no image.
    BadImage(ImageError),
    /// The file is no source that can be assembled.
    BadSource(AsmError),
    /// The file is no tag file.
    BadTags(TagsError),
    /// The file is no ELF file that is loaded.
    BadElf(ElfError),
    /// A file or the input is longer than its limit.
    TooLong,
}

impl Refusal {
    /// The status that the program ends with.
    fn status(self) -> Status
        ensures { result ≡ status_of_refusal self }
    {
        match self {
            Refusal::BadWords => Status::BadWords,
            Refusal::BadImage(_) => Status::BadImage,
            Refusal::BadSource(_) => Status::BadSource,
            Refusal::BadTags(_) => Status::BadTags,
            Refusal::BadElf(_) => Status::BadElf,
            Refusal::TooLong => Status::TooLong,
        }
    }
}

/// Appends what a refusal says.
fn write_refusal(to: &mut Line, refusal: Refusal)
    requires { array_vec_len to.old + 100 ≤ 512 }
    ensures text { to.new.items ≡ to.old.items ++ refusal_text refusal }
    ensures short { array_vec_len to.new ≤ array_vec_len to.old + 100 }
{
    match refusal {
        Refusal::BadWords => write_text(to, b"pump: bad command line"),
        Refusal::BadImage(error) => {
            write_text(to, b"pump: bad image: ");
            write_image_error(to, error);
        }
        Refusal::BadSource(error) => {
            write_text(to, b"pump: bad source: ");
            write_source_error(to, error);
        }
        Refusal::BadTags(error) => {
            write_text(to, b"pump: bad tags: ");
            write_tags_error(to, error);
        }
        Refusal::BadElf(error) => {
            write_text(to, b"pump: bad elf: ");
            write_elf_error(to, error);
        }
        Refusal::TooLong => write_text(to, b"pump: too long"),
    }
}

/// Says in one line on standard error why the task is refused, which ends the program.
pub(crate) fn refuse<L: Sink>(err: &mut L, refusal: Refusal) -> Result<Status, Cut>
    ensures { Tells refusal (L.taken err.old) (L.taken err.new)
        (L.faults err.old) (L.faults err.new) result }
{
    let mut line = Line::new();
    write_refusal(&mut line, refusal);
    write_text(&mut line, b"\n");
    match err.put(&line) {
        Ok(()) => Ok(refusal.status()),
        Err(end) => Err(Cut::from(end)),
    }
}

/// Ends the program before anything ran: a refusal is told, and a cut is not.
pub(crate) fn end_early<L: Sink>(err: &mut L, end: EarlyEnd) -> Result<Status, Cut>
    ensures { EndsEarly end (L.taken err.old) (L.taken err.new)
        (L.faults err.old) (L.faults err.new) result }
{
    match end {
        EarlyEnd::Refused(refusal) => refuse(err, refusal),
        EarlyEnd::Cut(cut) => Err(cut),
    }
}
