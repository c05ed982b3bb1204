//! The words that the statements of assembler source emit.
//!
//! A statement of an instruction is its word, `li` is one or two, `la` two, `.word` one and `.zero` any number of zeros; the other
//! directives emit nothing. A name that has no place is an error before a number that is outside its range; which names have
//! places `Names` tells.
#![tactic(auto)]

mod counts;
mod emissions;
mod instructions;
pub mod laws;
mod loads;
mod names;
mod ranges;
mod statements;
mod targets;

pub use counts::word_count;
pub use emissions::Emission;
pub use names::Names;
pub use statements::emission_of;
pub use targets::address_of;
