//! Rounds of turns over all harts of an engine, with what each turn shows on two sinks.
#![tactic(auto)]

mod law;
mod order;
mod running;
mod stops;
mod telling;

pub use law::{mirror_law, rounds_law};
pub use order::next_turn;
pub use running::{RoundsEnd, make_rounds};
pub use stops::stops_of;
pub use telling::put_stop;
