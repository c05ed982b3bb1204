//! From an image to an engine at its start. `memory_law` says what its memory then holds, and `values_law` that all values are
//! words.
#![tactic(auto)]

mod births;
mod law;
mod owners;
mod parts;
mod sorted;
mod start;
mod walks;

pub use births::{BirthWalk, WordRun, birth};
pub use law::{memory_law, values_law};
pub use parts::{harts_of, words_of};
pub use start::start_under;
