//! Texts of assembler source: where they are cut, what is dropped at their ends, which bytes a line may have, what is a name,
//! and which number a text writes.
#![tactic(auto)]

mod bytes;
mod cuts;
mod numbers;

pub use bytes::{is_name, only_allowed};
pub use cuts::{cut, first_word, trim};
pub use numbers::{number, wide_number};
