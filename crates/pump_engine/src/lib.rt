//! The engine that keeps rules: tags are words, and a policy's rule is asked only where it is not kept. It may remember its last
//! turns.
#![tactic(auto)]

mod pump;
mod records;
mod remembering;
mod taking_back;

pub use pump::Pump;
pub use remembering::RememberingPump;
