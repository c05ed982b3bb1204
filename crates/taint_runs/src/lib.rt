//! Taint on every run: what its author proves of the turns that it allows, and what every run then keeps, whatever other
//! policies are chosen with it.
#![tactic(auto)]

mod law;

pub use law::{part_law, run_law, turn_law};
