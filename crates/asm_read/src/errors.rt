//! What is answered in place of what was read or assembled.

ghost use Rattle.std.specs.Prelude.{◌≡◌};
ghost use Rattle.asm_read.specs.declared.errors.AsmEnd.TheVariants.{Bad, Memory};

use std::alloc::{AllocError, AllocFailed};
use thiserror::Error;

/// What is wrong with a line of source. Reading gives the first six, and their order here is the order in which they decide,
/// where registers, numbers and targets go operand by operand; the others are of assembling.
#[derive(Clone, Copy, Debug, PartialEq, Eq, Error)]
pub enum AsmErrorKind {
    /// A byte is none of those that a line may have: tab, and what ASCII prints.
    #[error("byte")]
    Byte,
    /// The first word, which begins with no dot, is no form's, or what stands before the first `:` is no name.
    #[error("mnemonic")]
    Mnemonic,
    /// The first word, which begins with a dot, is no directive's.
    #[error("directive")]
    Directive,
    /// There is another number of operands, one is empty, one isn't in the form `n(r)` where it has to be, or one that has to
    /// be a name or a number is neither.
    #[error("operand")]
    Operand,
    /// An operand, or the part of one in parentheses, is no register.
    #[error("register")]
    Register,
    /// An operand, or the part of one before parentheses, is no number from -2^31 to 2^32 - 1, or up to 2^128 - 1 where it is a
    /// set of compartments.
    #[error("number")]
    Number,
    /// The name has a place already.
    #[error("duplicate")]
    Duplicate,
    /// The directive may stand once only, or goes back to a place below.
    #[error("order")]
    Order,
    /// A number or an address is outside its range.
    #[error("range")]
    Range,
    /// No line gives the name a place.
    #[error("noname")]
    NoName,
}

/// The first error of a source.
#[derive(Clone, Copy, Debug, PartialEq, Eq, Error)]
#[error("line {line} {kind}")]
pub struct AsmError {
    /// The number of the line, counted from 1.
    pub line: u64,
    /// What is wrong there.
    pub kind: AsmErrorKind,
}

/// How reading or assembling a source ends without what was asked for.
#[derive(Clone, Copy)]
pub enum AsmEnd {
    /// The source is refused, with its first error.
    Bad(AsmError),
    /// Memory ran out, which says nothing of the source.
    Memory,
}

impl From<AsmError> for AsmEnd {
    ghost from_gives = { λ error end. end ≡ Bad error };

    fn from(error: AsmError) -> AsmEnd {
        AsmEnd::Bad(error)
    }
}

impl From<AllocError> for AsmEnd {
    ghost from_gives = { λ _ end. end ≡ Memory };

    fn from(_error: AllocError) -> AsmEnd {
        AsmEnd::Memory
    }
}

impl<T: Drop> From<AllocFailed<T>> for AsmEnd {
    ghost from_gives = { λ _ end. end ≡ Memory };

    fn from(_error: AllocFailed<T>) -> AsmEnd {
        AsmEnd::Memory
    }
}
