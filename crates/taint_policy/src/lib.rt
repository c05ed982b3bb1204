//! The policy of taint, the worked case of a policy of one's own (`docs/policies/WRITE_ONE.md`): a value that came from the
//! input is tainted, and so is what is computed from it. No jump by register goes to a tainted address, no store to one, and
//! no tainted word is executed.
#![tactic(auto)]

mod law;
mod policy;
mod start;
mod table;
mod tag;

pub use law::{ignores_law, text_law};
pub use policy::Taint;
pub use tag::TaintTag;
