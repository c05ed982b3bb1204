//! The live blocks of a heap region, as a value of their own: `first_fit` is the lowest multiple of 4 at which a range
//! lies in the region and meets no live block.
//!
//! A call takes at most a logarithm of the number of live blocks, and the moving of entries in two lists, with two
//! exceptions. `first_fit` walks over the blocks above the lowest free word, up to the first hole that is large enough.
//! `insert` of a block at the lowest free word walks over those that follow it without a gap. Where all below the end
//! of the last block is taken, there are none of either.
#![tactic(auto)]

mod block;
mod live;
mod walk;

pub use block::Block;
pub use live::LiveBlocks;
