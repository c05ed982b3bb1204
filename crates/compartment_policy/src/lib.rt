//! The policy of compartments: each memory word is owned by a compartment, and has a set of those that may jump to it
//! and one of those that may write it. Services split words off as a new compartment, and let others in or let them write.
#![tactic(auto)]

mod law;
mod policy;
mod rules;
mod services;
mod tag;

pub use law::{ignores_law, text_law};
pub use policy::Compartments;
pub use tag::CompartmentTag;
