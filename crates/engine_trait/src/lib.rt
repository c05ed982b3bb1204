//! The machine and its turn, and what an engine and a loader guarantee.
//!
//! The definitions (`specs/`) are those of the whole project: the state of a machine, one turn of one hart, events, and
//! runs along any list of harts. An engine's turn is the defined turn; a loader gives the defined start.
#![tactic(auto)]

mod cores;
mod ends;
mod engine;
mod law;
mod recording;

pub use cores::{Core, MOST_HARTS};
pub use ends::{Counts, Halt, LoadEnd, TurnEnd};
pub use engine::{Engine, Loader};
pub use law::{history_law, idle_law, mirror_law, plain_law, step_law, turn_law, words_law};
pub use turn_steps::{Feed, Stop};
