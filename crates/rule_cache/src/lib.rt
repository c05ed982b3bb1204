//! The rules that an engine keeps: by the instruction's group and the words of its five tags, bounded, the most recent
//! first.
#![tactic(auto)]

mod cache;
mod front;
mod hash;
mod key;
mod law;
mod store;

pub use cache::RuleCache;
pub use key::{InWords, Key, OutWords};
pub use law::{account_law, store_law};
pub use store::RuleStore;
