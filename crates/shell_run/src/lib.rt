//! A session of the monitor shell: a machine with its start, its feed and its breakpoints, and what it replies to commands.
#![tactic(auto)]

mod breaks;
mod checks;
mod law;
mod listing;
mod running;
mod session;
mod showing;
mod texts;

pub use law::session_law;
pub use session::Session;
pub use shell_turns::ObeyEnd;
pub use texts::put_refusal;
