//! The image of an assembler source.
//!
//! `assemble` takes the lines of a source as they were read. It lets `asm_places` find the sizes and the places, takes from
//! each line at its place what it adds (words, a label, an edge ..), and makes the image of all of it, or tells the first error.
#![tactic(auto)]

mod assembling;
mod builder;
pub mod laws;
mod marks;
mod runs;
mod values;

pub use assembling::{assemble, assemble_source};
pub use marks::{Marks, Protection};
pub use values::Addition;
