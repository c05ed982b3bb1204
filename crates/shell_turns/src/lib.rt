//! The turns of one command of the monitor shell: whose they are, what each tells, and where they end.
#![tactic(auto)]

mod breaks;
mod ends;
mod law;
mod order;
mod telling;
mod turning;

pub use ends::ObeyEnd;
pub use law::turns_law;
pub use order::Order;
pub use telling::{put_line, put_stop_line};
pub use turning::make_turns;
