//! The effect of one instruction of RV32IM, and the faults of its access and its jump.
#![tactic(auto)]

mod accesses;
mod actions;
mod checks;
mod effects;
mod executing;
mod faults;

pub use accesses::{Access, Width, loaded, stored};
pub use actions::Action;
pub use checks::check;
pub use effects::Effect;
pub use executing::{act, exec};
pub use faults::Fault;
