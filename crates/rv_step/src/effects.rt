//! What an instruction does.

use crate::accesses::Access;

/// The effect of one instruction, before anything of it is carried out.
#[derive(Clone, Copy, PartialEq, Eq)]
pub struct Effect {
    /// The pc of the next instruction.
    pub next: u32,
    /// The value for rd, where the instruction computes one. That of a load comes from memory.
    pub value: Option<u32>,
    /// The access to memory.
    pub access: Access,
    /// Whether a jump or a branch is taken.
    pub taken: bool,
}
