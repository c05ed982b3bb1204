//! The instructions of RV32IM: their words, read and written, their operation groups and the places of
//! their operands.
#![tactic(auto)]

mod bits;
mod decoding;
mod encoding;
mod fields;
mod groups;
mod instructions;
pub mod laws;
mod places;

pub use decoding::decode;
pub use encoding::encode;
pub use fields::{
    BranchOffset, FenceWord, Immediate, JumpOffset, Register, ShiftAmount, UpperImmediate,
};
pub use groups::Group;
pub use instructions::Instr;
pub use places::{Places, Reads, Slot};
