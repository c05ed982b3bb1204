//! The words of a memory that was loaded.

ghost use Rattle.std.specs.Prelude.{◌≡◌, ◌+◌, ◌*◌, ◌<◌, ◌≤◌, ◌^◌, ◌==◌, IfOk, OnOk, length};
ghost use Rattle.std.specs.List.{list_any};
ghost use Rattle.elf_image.specs.Cells.{code_in, segments_in, with_cells, with_code_cells, word_of};
ghost use Rattle.elf_image.specs.Loaded.{with_code_word};

use crate::cells::{Cell, is_any_loaded};
use byteorder::{ByteOrder, LittleEndian};
use image_format::{Segments, WordRange};
use std::alloc::{AllocError, Global};

/// Whether a segment that may be executed has one of the bytes.
fn is_any_code(cells: &[Cell]) -> bool
    ensures { result ≡ list_any (λ cell. cell.is_code) cells.now }
{
    cells.iter().any(|cell| cell.is_code)
}

/// The word of four cells.
fn word_of(cells: &[Cell]) -> u32
    requires { length cells.now ≡ 4 }
    ensures { result ≡ word_of cells.now }
{
    LittleEndian::read_u32(&[cells[0].byte, cells[1].byte, cells[2].byte, cells[3].byte])
}

/// Puts the word of a number behind those before it, if a byte of it is loaded.
///
/// Only running out of memory is an error.
fn put_word(segments: &mut Segments, cells: &[Cell], n: u32) -> Result<(), AllocError>
    requires inside { 4 * n + 4 ≤ length cells.now }
    requires most { length cells.now < 2 ^ 32 }
    ensures { OnOk result (segments.new ≡ with_cells cells.now segments.old n) }
{
    let first = 4 * n as usize;
    let word = &cells[first..first + 4];
    if is_any_loaded(word) {
        return segments.put_word(4 * n, word_of(word));
    }
    Ok(())
}

/// The loaded words.
///
/// Only running out of memory is an error.
#[tactic(auto, using(crate::proofs::FoldLemmas::fold_next))]
pub(crate) fn segments_in(alloc: Global, cells: &[Cell]) -> Result<Segments, AllocError>
    requires { length cells.now < 2 ^ 32 }
    ensures { IfOk result (λ segments. segments ≡ segments_in cells.now) }
{
    let mut segments = Segments::new(alloc);
    for n in 0..(cells.len() / 4) as u32 {
        put_word(&mut segments, cells, n)?;
    }
    Ok(segments)
}

/// Whether the words end at the address.
fn is_up_to(range: WordRange, address: u32) -> bool
    ensures { result ≡ (range.address + 4 * range.words == address) }
{
    u64::from(range.address) + 4 * u64::from(range.words) == u64::from(address)
}

/// Appends the word of a number: to the last range, where that one ends there.
///
/// Only running out of memory is an error.
fn put_code_word(code: &mut Vec<WordRange>, n: u32) -> Result<(), AllocError>
    requires { 4 * n + 4 ≤ 2 ^ 32 }
    ensures { OnOk result (code.new.items ≡ with_code_word code.old.items n) }
{
    let address = 4 * n;
    let count = code.len();
    if count > 0 && is_up_to(code[count - 1], address) {
        code[count - 1].words += 1;
        return Ok(());
    }
    code.push(WordRange { address, words: 1 })?;
    Ok(())
}

/// Appends the word of a number, if a byte of it is code.
///
/// Only running out of memory is an error.
fn put_code(code: &mut Vec<WordRange>, cells: &[Cell], n: u32) -> Result<(), AllocError>
    requires inside { 4 * n + 4 ≤ length cells.now }
    requires most { length cells.now < 2 ^ 32 }
    ensures { OnOk result (code.new.items ≡ with_code_cells cells.now code.old.items n) }
{
    let first = 4 * n as usize;
    if is_any_code(&cells[first..first + 4]) {
        return put_code_word(code, n);
    }
    Ok(())
}

/// The ranges of code words.
///
/// Only running out of memory is an error.
#[tactic(auto, using(crate::proofs::FoldLemmas::fold_next))]
pub(crate) fn code_in(alloc: Global, cells: &[Cell]) -> Result<Vec<WordRange>, AllocError>
    requires { length cells.now < 2 ^ 32 }
    ensures { IfOk result (λ code. code.items ≡ code_in cells.now) }
{
    let mut code = Vec::new(alloc);
    for n in 0..(cells.len() / 4) as u32 {
        put_code(&mut code, cells, n)?;
    }
    Ok(code)
}
