//! Accesses to memory.

ghost use Rattle.std.specs.Prelude.{◌≡◌};
ghost use Rattle.rv_step.specs.Accesses.{bytes_of, loaded_from, stored_in};

use pump_words::{byte_of, half_of, sign8, sign16, with_byte, with_half};

/// How much an access touches.
#[derive(Clone, Copy, PartialEq, Eq)]
pub enum Width {
    /// One byte.
    Byte,
    /// Two bytes.
    Half,
    /// A whole word, four bytes.
    Full,
}

impl Width {
    /// The number of bytes: 1, 2 or 4.
    #[inline(always)]
    pub fn bytes(self) -> u32
        ensures { result ≡ bytes_of self }
    {
        match self {
            Width::Byte => 1,
            Width::Half => 2,
            Width::Full => 4,
        }
    }
}

/// The access of an instruction to memory.
#[derive(Clone, Copy, PartialEq, Eq)]
pub enum Access {
    /// It makes none.
    None,
    /// A load, whose value is sign-extended where `signed` is set.
    Load {
        addr: u32,
        width: Width,
        signed: bool,
    },
    /// A store. Of `value` memory takes the low byte, the low half or all.
    Store {
        addr: u32,
        width: Width,
        value: u32,
    },
}

/// What a load from address `addr` puts in rd, where `word` is the memory word that holds the access.
#[inline(always)]
pub fn loaded(word: u32, addr: u32, width: Width, signed: bool) -> u32
    ensures { result ≡ loaded_from word addr width signed }
{
    match width {
        Width::Byte => {
            let byte = byte_of(word, addr % 4);
            if signed { sign8(byte) } else { byte }
        }
        Width::Half => {
            let half = half_of(word, addr % 4 / 2);
            if signed { sign16(half) } else { half }
        }
        Width::Full => word,
    }
}

/// What a store of `value` to address `addr` leaves in `word`, the memory word that holds the access.
#[inline(always)]
pub fn stored(word: u32, addr: u32, width: Width, value: u32) -> u32
    ensures { result ≡ stored_in word addr width value }
{
    match width {
        Width::Byte => with_byte(word, addr % 4, value),
        Width::Half => with_half(word, addr % 4 / 2, value),
        Width::Full => value,
    }
}
