//! The disassembler's text of a word: the statement of assembler source that stands for it at its address.
#![tactic(auto)]

mod instructions;
mod listing;
mod operands;
mod statements;

pub use instructions::show_instr;
pub use listing::list_word;
