//! The policy of dynamic sealing: a service makes keys, one seals a value under a key, one unseals it with that key.
//! A sealed value can be moved, loaded and stored as a whole, and nothing else can be done with it.
#![tactic(auto)]

mod law;
mod policy;
mod services;
mod table;
mod tag;

pub use law::ignores_law;
pub use policy::Sealing;
pub use tag::SealTag;
