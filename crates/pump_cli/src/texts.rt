//! The texts of what is wrong with a file.

ghost use Rattle.std.specs.Prelude.{◌≡◌, ◌+◌, ◌≤◌, ◌++◌};
ghost use Rattle.arrayvec.specs.ArrayVec.{array_vec_len};
ghost use Rattle.pump_cli.specs.Texts.{elf_error_text, image_error_text, kind_text, source_error_text, tags_error_text};

use asm_read::{AsmError, AsmErrorKind};
use elf_image::{ElfError, TagsError};
use image_format::ImageError;
use pump_words::{Line, write_text};
use tag_text::write_number;

/// Appends why bytes are no image.
pub(crate) fn write_image_error(line: &mut Line, error: ImageError)
    requires { array_vec_len line.old + 60 ≤ 512 }
    ensures text { line.new.items ≡ line.old.items ++ image_error_text error }
    ensures short { array_vec_len line.new ≤ array_vec_len line.old + 60 }
{
    match error {
        ImageError::Magic => write_text(line, b"magic"),
        ImageError::Version(version) => write_number(line, b"version ", u64::from(version)),
        ImageError::Short(length) => write_number(line, b"short at ", length as u64),
        ImageError::Field(number, offset) => {
            write_number(line, b"field ", u64::from(number));
            write_number(line, b" at ", offset as u64);
        }
        ImageError::Order(list, row) => {
            write_number(line, b"order ", u64::from(list));
            write_number(line, b" row ", u64::from(row));
        }
        ImageError::Trailing(offset) => write_number(line, b"trailing at ", offset as u64),
    }
}

/// Appends why bytes are no tag file.
pub(crate) fn write_tags_error(line: &mut Line, error: TagsError)
    requires { array_vec_len line.old + 60 ≤ 512 }
    ensures text { line.new.items ≡ line.old.items ++ tags_error_text error }
    ensures short { array_vec_len line.new ≤ array_vec_len line.old + 60 }
{
    match error {
        TagsError::Image(error) => write_image_error(line, error),
        TagsError::Lists => write_text(line, b"lists"),
        TagsError::Entry => write_text(line, b"entry"),
    }
}

/// Appends why an ELF file isn't loaded.
pub(crate) fn write_elf_error(line: &mut Line, error: ElfError)
    requires { array_vec_len line.old + 60 ≤ 512 }
    ensures text { line.new.items ≡ line.old.items ++ elf_error_text error }
    ensures short { array_vec_len line.new ≤ array_vec_len line.old + 60 }
{
    match error {
        ElfError::Short => write_text(line, b"short"),
        ElfError::Ident => write_text(line, b"ident"),
        ElfError::NotExec => write_text(line, b"notexec"),
        ElfError::Machine => write_text(line, b"machine"),
        ElfError::Compressed => write_text(line, b"compressed"),
        ElfError::Headers => write_text(line, b"headers"),
        ElfError::Segment(row) => write_number(line, b"segment ", u64::from(row)),
        ElfError::Overlap(row) => write_number(line, b"overlap ", u64::from(row)),
        ElfError::Entry => write_text(line, b"entry"),
    }
}

/// Appends the first error of a source.
pub(crate) fn write_source_error(line: &mut Line, error: AsmError)
    requires { array_vec_len line.old + 60 ≤ 512 }
    ensures text { line.new.items ≡ line.old.items ++ source_error_text error }
    ensures short { array_vec_len line.new ≤ array_vec_len line.old + 60 }
{
    write_number(line, b"line ", error.line);
    write_text(line, b" ");
    write_kind(line, error.kind);
}

/// Appends what is wrong with a line of source.
fn write_kind(line: &mut Line, kind: AsmErrorKind)
    requires { array_vec_len line.old + 10 ≤ 512 }
    ensures text { line.new.items ≡ line.old.items ++ kind_text kind }
    ensures short { array_vec_len line.new ≤ array_vec_len line.old + 10 }
{
    match kind {
        AsmErrorKind::Byte => write_text(line, b"byte"),
        AsmErrorKind::Mnemonic => write_text(line, b"mnemonic"),
        AsmErrorKind::Directive => write_text(line, b"directive"),
        AsmErrorKind::Operand => write_text(line, b"operand"),
        AsmErrorKind::Register => write_text(line, b"register"),
        AsmErrorKind::Number => write_text(line, b"number"),
        AsmErrorKind::Duplicate => write_text(line, b"duplicate"),
        AsmErrorKind::Order => write_text(line, b"order"),
        AsmErrorKind::Range => write_text(line, b"range"),
        AsmErrorKind::NoName => write_text(line, b"noname"),
    }
}
