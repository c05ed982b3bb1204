//! The engine that asks its policy at every turn: tags are values, and no rule is kept. One form of it remembers its last turns, and can
//! take them back.
#![tactic(auto)]

mod noting;
mod plain;
mod remembering;

pub use plain::Plain;
pub use remembering::RememberingPlain;
