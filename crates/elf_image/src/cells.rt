//! The memory as it is loaded, a cell for each byte.

ghost use Rattle.std.specs.Prelude.{◌≡◌, ℕ, ◌+◌, ◌<◌, ◌≤◌, IsTrue, List, [], true, length, slice_index, slice_index_or};
ghost use Rattle.std.specs.List.{list_any};
ghost use Rattle.elf_image.specs.Cells.{AreCells, Loads, free};
ghost use Rattle.elf_image.specs.Conditions.{has_headers, row_after, segment_after, segments_from};
ghost use Rattle.elf_image.specs.Headers.{header_count, row_offset};
ghost use Rattle.elf_image.specs.declared.headers.ProgramHeader.{ProgramHeader};

use crate::errors::ElfError;
use crate::headers::{ProgramHeader, header_count};

/// A byte of the memory.
#[derive(Clone, Copy)]
pub(crate) struct Cell {
    pub byte: u8,
    /// Whether a segment has it.
    pub is_loaded: bool,
    /// Whether a segment has it that may be executed.
    pub is_code: bool,
}

impl Cell {
    /// As a byte is that no segment has.
    pub const FREE: Cell = Cell {
        byte: 0,
        is_loaded: false,
        is_code: false,
    };
}

/// Whether a segment has one of the bytes.
pub(crate) fn is_any_loaded(cells: &[Cell]) -> bool
    ensures { result ≡ list_any (λ cell. cell.is_loaded) cells.now }
{
    cells.iter().any(|cell| cell.is_loaded)
}

/// Puts a segment's bytes into its cells, and zeros behind them.
fn put_bytes(cells: &mut [Cell], bytes: &[u8], is_code: bool)
    ensures { (k : ℕ) → k < length cells.old → slice_index_or cells.new k free ≡
        record { byte = slice_index bytes.now k; is_loaded = true; is_code = is_code } }
{
    for (i, cell) in cells.iter_mut().enumerate() {
        *cell = Cell {
            byte: bytes.get(i).copied().unwrap_or(0),
            is_loaded: true,
            is_code,
        };
    }
}

/// Loads the segment of a row.
fn load_segment(
    cells: &mut [Cell],
    elf: &[u8],
    row: u16,
    header: ProgramHeader,
) -> Result<(), ElfError>
    ensures { (before : List ProgramHeader) → AreCells elf.now before cells.old
        → Loads elf.now cells.new result
        (segment_after elf.now (length cells.old) row header before) }
{
    if !header.fits(elf, cells.len()) {
        return Err(ElfError::Segment(row));
    }
    let contents = header.contents(elf);
    let first = header.address as usize;
    let end = first + header.memory_bytes as usize;
    if is_any_loaded(&cells[first..end]) {
        return Err(ElfError::Overlap(row));
    }
    put_bytes(&mut cells[first..end], contents, header.is_executable());
    Ok(())
}

/// Loads the segment of a row, if the row is one of a loadable segment.
fn load_row(cells: &mut [Cell], elf: &[u8], row: u16) -> Result<(), ElfError>
    requires long { 52 ≤ length elf.now }
    requires inside { row_offset elf.now row + 32 ≤ length elf.now }
    ensures { (before : List ProgramHeader) → AreCells elf.now before cells.old
        → Loads elf.now cells.new result (row_after elf.now (length cells.old) row before) }
{
    let header = ProgramHeader::at(elf, row);
    if !header.is_load() {
        return Ok(());
    }
    load_segment(cells, elf, row, header)
}

/// Loads the segments of all rows, in their order, into cells that are free.
pub(crate) fn load_rows(cells: &mut [Cell], elf: &[u8]) -> Result<(), ElfError>
    requires long { 52 ≤ length elf.now }
    requires headers { IsTrue (has_headers elf.now) }
    requires free { AreCells elf.now [] cells.old }
    ensures { Loads elf.now cells.new result
        (segments_from elf.now (length cells.old) 0 (header_count elf.now) []) }
{
    for row in 0..header_count(elf) {
        load_row(cells, elf, row)?;
    }
    Ok(())
}
