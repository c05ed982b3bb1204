//! Which version of the image's file, how many harts and how many bytes of RAM a source asks for.

ghost use Rattle.std.specs.Prelude.{◌≡◌};
ghost use Rattle.std.specs.Option.{ok_or};
ghost use Rattle.image_format.specs.Conditions.{is_harts, is_ram};
ghost use Rattle.asm_read.specs.Source.{at_line};
ghost use Rattle.asm_places.specs.Sizes.{harts_in, harts_of, natural_where, ram_in, ram_of, version_in, version_numbered, version_of};

use asm_read::{AsmError, AsmErrorKind, Line, Statement};
use image_format::{MOST_HARTS, MOST_RAM, Version};

/// How many harts there are where no line says so.
const HARTS: u32 = 1;

/// How many bytes of RAM there are where no line says so.
const RAM: u32 = 65536;

/// The number of a `.version`.
fn version_in(statement: &Option<Statement<'_>>) -> Option<i64>
    ensures { result ≡ version_in statement.now }
{
    match statement {
        Some(Statement::Version(number)) => Some(*number),
        _ => None,
    }
}

/// The number of a `.harts`.
fn harts_in(statement: &Option<Statement<'_>>) -> Option<i64>
    ensures { result ≡ harts_in statement.now }
{
    match statement {
        Some(Statement::Harts(number)) => Some(*number),
        _ => None,
    }
}

/// The number of a `.ram`.
fn ram_in(statement: &Option<Statement<'_>>) -> Option<i64>
    ensures { result ≡ ram_in statement.now }
{
    match statement {
        Some(Statement::Ram(number)) => Some(*number),
        _ => None,
    }
}

/// The version that a line asks for: 1 or 2, or else the line's error.
fn version_at(line: u64, number: i64) -> Result<Version, AsmError>
    ensures { result ≡ at_line line (ok_or (version_numbered number) AsmErrorKind.Range) }
{
    match number {
        1 => Ok(Version::One),
        2 => Ok(Version::Two),
        _ => Err(AsmError {
            line,
            kind: AsmErrorKind::Range,
        }),
    }
}

/// The number of harts that a line asks for: 1 to 8, or else the line's error.
fn harts_at(line: u64, number: i64) -> Result<u32, AsmError>
    ensures { result ≡ at_line line (ok_or (natural_where is_harts number) AsmErrorKind.Range) }
{
    match u32::try_from(number) {
        Ok(harts) if 1 <= harts && harts <= u32::from(MOST_HARTS) => Ok(harts),
        _ => Err(AsmError {
            line,
            kind: AsmErrorKind::Range,
        }),
    }
}

/// The bytes of RAM that a line asks for: a multiple of 4, 4 to 16,777,216, or else the line's error.
fn ram_at(line: u64, number: i64) -> Result<u32, AsmError>
    ensures { result ≡ at_line line (ok_or (natural_where is_ram number) AsmErrorKind.Range) }
{
    match u32::try_from(number) {
        Ok(bytes) if bytes % 4 == 0 && 4 <= bytes && bytes <= MOST_RAM => Ok(bytes),
        _ => Err(AsmError {
            line,
            kind: AsmErrorKind::Range,
        }),
    }
}

/// The version that the first `.version` asks for, 1 or 2, or else its error; 1 where there is none.
pub(crate) fn version_of(lines: &[Line<'_>]) -> Result<Version, AsmError>
    ensures { result ≡ version_of lines.now }
{
    for line in lines {
        if let Some(number) = version_in(&line.statement) {
            return version_at(line.number, number);
        }
    }
    Ok(Version::One)
}

/// The number of harts that the first `.harts` asks for, 1 to 8, or else its error; 1 where there is none.
pub(crate) fn harts_of(lines: &[Line<'_>]) -> Result<u32, AsmError>
    ensures { result ≡ harts_of lines.now }
{
    for line in lines {
        if let Some(number) = harts_in(&line.statement) {
            return harts_at(line.number, number);
        }
    }
    Ok(HARTS)
}

/// The bytes of RAM that the first `.ram` asks for, a multiple of 4, 4 to 16,777,216, or else its error; 65536 where there is
/// none.
pub(crate) fn ram_of(lines: &[Line<'_>]) -> Result<u32, AsmError>
    ensures { result ≡ ram_of lines.now }
{
    for line in lines {
        if let Some(number) = ram_in(&line.statement) {
            return ram_at(line.number, number);
        }
    }
    Ok(RAM)
}
