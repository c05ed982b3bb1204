//! The words of tags: small numbers that stand for tags in an engine that keeps rules. A tag gets the next word where it
//! first comes, up to a limit, and keeps it.
#![tactic(auto)]

mod decoder;
mod interner;
mod law;
mod room;
mod sweep;
mod table;

pub use decoder::Decoder;
pub use interner::Interner;
pub use law::growth_law;
pub use room::has_word;
pub use sweep::{remade, renumbering};
pub use table::{InternEnd, TagTable};
