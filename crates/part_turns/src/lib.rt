//! The turns of a machine under a whole policy, as one part of the policy sees them: what the author of a policy proves of
//! the turns that his policy alone allows holds of every run in which it is chosen.
#![tactic(auto)]

mod law;

pub use law::turn_law;
