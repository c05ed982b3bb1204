//! The header of an ELF file, and its program headers.

ghost use Rattle.std.specs.Prelude.{◌≡◌, ◌+◌, ◌≤◌, IsTrue, OnOk, drop, length, take};
ghost use Rattle.elf_image.specs.Headers.{half_at, header_at, header_count, is_executable, is_load, row_offset, word_at};
ghost use Rattle.elf_image.specs.Conditions.{fits, has_headers, header_of, lies_in};

use crate::errors::ElfError;
use byteorder::{ByteOrder, LittleEndian};

/// The bytes of an ELF header.
const HEADER_BYTES: usize = 52;

/// 7F, `ELF`, 32 bits, little-endian, version 1.
const IDENT: [u8; 7] = [0x7F, b'E', b'L', b'F', 1, 1, 1];

/// The type of an executable file.
const EXECUTABLE: u16 = 2;

/// The number of RISC-V among machines.
const RISC_V: u16 = 243;

/// The bytes of a program header.
const ROW_BYTES: u16 = 32;

/// The type of a loadable segment.
const LOAD: u32 = 1;

/// Two bytes at an offset.
fn half(elf: &[u8], offset: usize) -> u16
    requires { offset + 2 ≤ length elf.now }
    ensures { result ≡ half_at elf.now offset }
{
    LittleEndian::read_u16(&elf[offset..])
}

/// Four bytes at an offset.
fn word(elf: &[u8], offset: usize) -> u32
    requires { offset + 4 ≤ length elf.now }
    ensures { result ≡ word_at elf.now offset }
{
    LittleEndian::read_u32(&elf[offset..])
}

/// How many program headers there are.
pub(crate) fn header_count(elf: &[u8]) -> u16
    requires { 52 ≤ length elf.now }
    ensures { result ≡ header_count elf.now }
{
    half(elf, 44)
}

/// Where hart 0 starts.
pub(crate) fn entry(elf: &[u8]) -> u32
    requires { 52 ≤ length elf.now }
    ensures { result ≡ word_at elf.now 24 }
{
    word(elf, 24)
}

/// Whether the program headers have 32 bytes each and end in the file, or there are none.
fn has_headers(elf: &[u8]) -> bool
    requires { 52 ≤ length elf.now }
    ensures { result ≡ has_headers elf.now }
{
    let count = header_count(elf);
    let end = u64::from(word(elf, 28)) + u64::from(ROW_BYTES) * u64::from(count);
    count == 0 || (half(elf, 42) == ROW_BYTES && end <= elf.len() as u64)
}

/// Checks the file's header.
#[tactic(auto, unfolding(crate::specs::Conditions::header_of))]
pub(crate) fn check_header(elf: &[u8]) -> Result<(), ElfError>
    ensures value { result ≡ header_of elf.now }
    ensures long { OnOk result (52 ≤ length elf.now) }
    ensures headers { OnOk result (IsTrue (has_headers elf.now)) }
{
    if elf.len() < HEADER_BYTES {
        return Err(ElfError::Short);
    }
    if !elf.starts_with(&IDENT) {
        return Err(ElfError::Ident);
    }
    if half(elf, 16) != EXECUTABLE {
        return Err(ElfError::NotExec);
    }
    if half(elf, 18) != RISC_V {
        return Err(ElfError::Machine);
    }
    if word(elf, 36) % 2 != 0 {
        return Err(ElfError::Compressed);
    }
    if !has_headers(elf) {
        return Err(ElfError::Headers);
    }
    Ok(())
}

/// A program header: its type, where its bytes lie in the file and in memory, how many there are in each,
/// and its flags.
#[derive(Clone, Copy)]
pub(crate) struct ProgramHeader {
    pub kind: u32,
    pub offset: u32,
    pub address: u32,
    pub file_bytes: u32,
    pub memory_bytes: u32,
    pub flags: u32,
}

impl ProgramHeader {
    /// The header of a row.
    #[tactic(auto, unfolding(crate::specs::Headers::header_at))]
    pub fn at(elf: &[u8], row: u16) -> ProgramHeader
        requires long { 52 ≤ length elf.now }
        requires inside { row_offset elf.now row + 32 ≤ length elf.now }
        ensures { result ≡ header_at elf.now row }
    {
        let offset = word(elf, 28) as usize + ROW_BYTES as usize * row as usize;
        ProgramHeader {
            kind: word(elf, offset),
            offset: word(elf, offset + 4),
            address: word(elf, offset + 8),
            file_bytes: word(elf, offset + 16),
            memory_bytes: word(elf, offset + 20),
            flags: word(elf, offset + 24),
        }
    }

    /// Whether it is that of a loadable segment.
    pub fn is_load(self) -> bool
        ensures { result ≡ is_load self }
    {
        self.kind == LOAD
    }

    /// Whether the segment may be executed.
    pub fn is_executable(self) -> bool
        ensures { result ≡ is_executable self }
    {
        self.flags % 2 == 1
    }

    /// Whether the segment's bytes end in the file, if it has any there, and in a RAM of that many bytes, and
    /// it has no fewer in memory than in the file.
    pub fn fits(self, elf: &[u8], ram: usize) -> bool
        ensures { result ≡ fits elf.now ram self }
    {
        let file_end = u64::from(self.offset) + u64::from(self.file_bytes);
        let memory_end = u64::from(self.address) + u64::from(self.memory_bytes);
        self.file_bytes <= self.memory_bytes
            && (self.file_bytes == 0 || file_end <= elf.len() as u64)
            && memory_end <= ram as u64
    }

    /// The segment's bytes in the file.
    pub fn contents(self, elf: &[u8]) -> &[u8]
        requires { IsTrue (lies_in elf.now self) }
        ensures { result.now ≡ take self.file_bytes (drop self.offset elf.now) }
    {
        if self.file_bytes == 0 {
            return &elf[..0];
        }
        let offset = self.offset as usize;
        &elf[offset..offset + self.file_bytes as usize]
    }
}
