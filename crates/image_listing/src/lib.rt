//! The disassembler's listing of an image: its words, each with the statement of assembler source that stands for it.
#![tactic(auto)]

mod listing;

pub use listing::list_image;
