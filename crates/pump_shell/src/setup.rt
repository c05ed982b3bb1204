//! What a session starts with, beside its image.

use cache_size::CacheSize;
use policy_choice::Basis;

/// What its start rests on, and the room of the engine that keeps rules.
#[derive(Clone, Copy, Debug)]
pub struct Setup {
    /// What the start rests on beside the image: the policies that are chosen.
    pub basis: Basis,
    /// How many rules are kept; where none are, every turn asks the policies.
    pub cache: CacheSize,
    /// The most tags that may have words, at least 1. Where no rules are kept, no tag has a word.
    pub tags: u32,
    /// The most turns that can be taken back, 0 to 65,536.
    pub history: u32,
}
