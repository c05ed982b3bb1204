//! The fields of an instruction, each kept within its range by its type.
//! A contract sees each of them as a number.

ghost use Rattle.std.specs.Prelude.{◌≡◌, ◌+◌, ◌*◌, ◌/◌, ◌%◌, ◌^◌, ◌<◌, SomeIff};
ghost use Rattle.pump_words.specs.Words.{sign_extended};
ghost use Rattle.rv_decode.specs.Fields.{opcode_of, f3_of};

use crate::bits::{f3, opcode};
use pump_words::{sign12, sign13, sign21};
use std::marker::Model;

/// The number of a register, 0 to 31.
#[derive(Clone, Copy, PartialEq, Eq)]
pub struct Register {
    number: u8,
}

impl Model for Register {
    ghost use Rattle.std.specs.Prelude.{ℕ, ◌<◌};

    ghost Value = { ℕ };

    ghost view = { λ register. register.number };

    ghost invariant = { λ register. register.number < 32 };

    ghost inverse = { λ n. record { number = n } };
}

impl Register {
    /// x0, which is 0 and drops what is written.
    pub const ZERO: Register = Register { number: 0 };
    /// x1, where a call leaves the address that it returns to.
    pub const RA: Register = Register { number: 1 };
    /// x10, the first argument and the answer of a service.
    pub const A0: Register = Register { number: 10 };
    /// x11, the second argument of a service.
    pub const A1: Register = Register { number: 11 };
    /// x12, the third argument of a service.
    pub const A2: Register = Register { number: 12 };
    /// x17, the number of a service.
    pub const A7: Register = Register { number: 17 };

    /// The register of this number; `None` for a number past 31.
    pub fn new(number: u8) -> Option<Register>
        ensures { SomeIff result (number < 32) number }
    {
        if number < 32 {
            Some(Register { number })
        } else {
            None
        }
    }

    /// The register that five bits of a word name.
    pub(crate) fn of_bits(bits: u32) -> Register
        requires { bits < 32 }
        ensures { result ≡ bits }
    {
        Register { number: bits as u8 }
    }

    /// Its number, 0 to 31.
    pub fn number(self) -> u8
        ensures value { result ≡ self }
        ensures range { result < 32 }
    {
        self.number
    }
}

/// The amount of a shift by a constant, 0 to 31.
#[derive(Clone, Copy, PartialEq, Eq)]
pub struct ShiftAmount {
    count: u32,
}

impl Model for ShiftAmount {
    ghost use Rattle.std.specs.Prelude.{ℕ, ◌<◌};

    ghost Value = { ℕ };

    ghost view = { λ amount. amount.count };

    ghost invariant = { λ amount. amount.count < 32 };

    ghost inverse = { λ n. record { count = n } };
}

impl ShiftAmount {
    /// The shift by `count` places; `None` past 31.
    pub fn new(count: u32) -> Option<ShiftAmount>
        ensures { SomeIff result (count < 32) count }
    {
        if count < 32 {
            Some(ShiftAmount { count })
        } else {
            None
        }
    }

    /// The shift by so many places.
    pub(crate) fn of_bits(bits: u32) -> ShiftAmount
        requires { bits < 32 }
        ensures { result ≡ bits }
    {
        ShiftAmount { count: bits }
    }

    /// The number of places, 0 to 31.
    pub fn count(self) -> u32
        ensures value { result ≡ self }
        ensures range { result < 32 }
    {
        self.count
    }
}

/// An immediate or offset of 12 bits, sign-extended to a word: -2048 to 2047.
#[derive(Clone, Copy, PartialEq, Eq)]
pub struct Immediate {
    word: u32,
}

impl Model for Immediate {
    ghost use Rattle.std.specs.Prelude.{ℕ, ◌≡◌};
    ghost use Rattle.pump_words.specs.Words.{sign_extended};

    ghost Value = { ℕ };

    ghost view = { λ immediate. immediate.word };

    ghost invariant = { λ immediate. immediate.word ≡ sign_extended 12 immediate.word };

    ghost inverse = { λ n. record { word = n } };
}

impl Immediate {
    /// The immediate that is this word; `None` where the word is no sign extension of its low 12 bits.
    pub fn new(word: u32) -> Option<Immediate>
        ensures { SomeIff result (word ≡ sign_extended 12 word) word }
    {
        if word == sign12(word) {
            Some(Immediate { word })
        } else {
            None
        }
    }

    /// The immediate of the low 12 bits.
    pub fn of_bits(bits: u32) -> Immediate
        ensures { result ≡ sign_extended 12 bits }
    {
        Immediate { word: sign12(bits) }
    }

    /// The word that it is extended to.
    pub fn word(self) -> u32
        ensures value { result ≡ self }
        ensures range { result ≡ sign_extended 12 result }
    {
        self.word
    }
}

/// The offset of a branch: an even number of 13 bits, sign-extended to a word, -4096 to 4094.
#[derive(Clone, Copy, PartialEq, Eq)]
pub struct BranchOffset {
    word: u32,
}

impl Model for BranchOffset {
    ghost use Rattle.std.specs.Prelude.{ℕ, ◌≡◌, ◌%◌};
    ghost use Rattle.pump_words.specs.Words.{sign_extended};

    ghost Value = { ℕ };

    ghost view = { λ offset. offset.word };

    ghost invariant = { λ offset. (offset.word ≡ sign_extended 13 offset.word) × (offset.word % 2 ≡ 0) };

    ghost inverse = { λ n. record { word = n } };
}

impl BranchOffset {
    /// The offset that is this word; `None` where the word is odd or no sign extension of its low 13 bits.
    pub fn new(word: u32) -> Option<BranchOffset>
        ensures { SomeIff result ((word ≡ sign_extended 13 word) × (word % 2 ≡ 0)) word }
    {
        if word == sign13(word) && word % 2 == 0 {
            Some(BranchOffset { word })
        } else {
            None
        }
    }

    /// The offset of the low 13 bits.
    pub(crate) fn of_bits(bits: u32) -> BranchOffset
        requires { bits % 2 ≡ 0 }
        ensures { result ≡ sign_extended 13 bits }
    {
        BranchOffset { word: sign13(bits) }
    }

    /// The word that it is extended to.
    pub fn word(self) -> u32
        ensures value { result ≡ self }
        ensures range { result ≡ sign_extended 13 result }
        ensures even { result % 2 ≡ 0 }
    {
        self.word
    }
}

/// The offset of a jump: an even number of 21 bits, sign-extended to a word, -1048576 to 1048574.
#[derive(Clone, Copy, PartialEq, Eq)]
pub struct JumpOffset {
    word: u32,
}

impl Model for JumpOffset {
    ghost use Rattle.std.specs.Prelude.{ℕ, ◌≡◌, ◌%◌};
    ghost use Rattle.pump_words.specs.Words.{sign_extended};

    ghost Value = { ℕ };

    ghost view = { λ offset. offset.word };

    ghost invariant = { λ offset. (offset.word ≡ sign_extended 21 offset.word) × (offset.word % 2 ≡ 0) };

    ghost inverse = { λ n. record { word = n } };
}

impl JumpOffset {
    /// The offset that is this word; `None` where the word is odd or no sign extension of its low 21 bits.
    pub fn new(word: u32) -> Option<JumpOffset>
        ensures { SomeIff result ((word ≡ sign_extended 21 word) × (word % 2 ≡ 0)) word }
    {
        if word == sign21(word) && word % 2 == 0 {
            Some(JumpOffset { word })
        } else {
            None
        }
    }

    /// The offset of the low 21 bits.
    pub(crate) fn of_bits(bits: u32) -> JumpOffset
        requires { bits % 2 ≡ 0 }
        ensures { result ≡ sign_extended 21 bits }
    {
        JumpOffset { word: sign21(bits) }
    }

    /// The word that it is extended to.
    pub fn word(self) -> u32
        ensures value { result ≡ self }
        ensures range { result ≡ sign_extended 21 result }
        ensures even { result % 2 ≡ 0 }
    {
        self.word
    }
}

/// The upper 20 bits of a word, with twelve zeros below.
#[derive(Clone, Copy, PartialEq, Eq)]
pub struct UpperImmediate {
    word: u32,
}

impl Model for UpperImmediate {
    ghost use Rattle.std.specs.Prelude.{ℕ, ◌≡◌, ◌%◌, ◌^◌};

    ghost Value = { ℕ };

    ghost view = { λ upper. upper.word };

    ghost invariant = { λ upper. upper.word % 2 ^ 12 ≡ 0 };

    ghost inverse = { λ n. record { word = n } };
}

impl UpperImmediate {
    /// The immediate that is this word; `None` where one of its low 12 bits is set.
    pub fn new(word: u32) -> Option<UpperImmediate>
        ensures { SomeIff result (word % 2 ^ 12 ≡ 0) word }
    {
        if word % 0x1000 == 0 {
            Some(UpperImmediate { word })
        } else {
            None
        }
    }

    /// The immediate whose upper 20 bits are these.
    pub fn of_bits(bits: u32) -> UpperImmediate
        requires { bits < 2 ^ 20 }
        ensures { result ≡ bits * 2 ^ 12 }
    {
        UpperImmediate { word: bits << 12 }
    }

    /// The one that an immediate of 12 bits, the low bits of `word`, brings to `word`.
    pub fn below(word: u32) -> UpperImmediate
        ensures { result ≡ (word + 0x800) % 2 ^ 32 / 2 ^ 12 * 2 ^ 12 }
    {
        UpperImmediate {
            word: word.wrapping_add(0x800) / 0x1000 * 0x1000,
        }
    }

    /// The whole word, a multiple of 4096.
    pub fn word(self) -> u32
        ensures value { result ≡ self }
        ensures range { result % 2 ^ 12 ≡ 0 }
    {
        self.word
    }
}

/// The word of a FENCE: opcode 0F and f3 0, with all other bits free.
#[derive(Clone, Copy, PartialEq, Eq)]
pub struct FenceWord {
    word: u32,
}

impl Model for FenceWord {
    ghost use Rattle.std.specs.Prelude.{ℕ, ◌≡◌};
    ghost use Rattle.rv_decode.specs.Fields.{opcode_of, f3_of};

    ghost Value = { ℕ };

    ghost view = { λ fence. fence.word };

    ghost invariant = { λ fence. (opcode_of fence.word ≡ 0x0F) × (f3_of fence.word ≡ 0) };

    ghost inverse = { λ n. record { word = n } };
}

impl FenceWord {
    /// The FENCE of all reads and writes, and of all input and output, against all of them.
    pub const FULL: FenceWord = FenceWord { word: 0x0FF0_000F };

    /// The FENCE that is this word; `None` where its opcode or its f3 is another.
    pub fn new(word: u32) -> Option<FenceWord>
        ensures { SomeIff result ((opcode_of word ≡ 0x0F) × (f3_of word ≡ 0)) word }
    {
        if opcode(word) == 0x0F && f3(word) == 0 {
            Some(FenceWord { word })
        } else {
            None
        }
    }

    /// The whole word.
    pub fn word(self) -> u32
        ensures value { result ≡ self }
        ensures opcode { opcode_of result ≡ 0x0F }
        ensures f3 { f3_of result ≡ 0 }
    {
        self.word
    }
}
