//! Searches and walks over blocks in the order of their addresses.

ghost use Rattle.std.specs.Prelude.{◌≡◌, ◌+◌, ◌*◌, ◌<◌, ◌^◌};
ghost use Rattle.std.specs.List.{All};
ghost use Rattle.live_blocks.specs.Run.{AreBegun, AreEarlier, AreNumbered, IsRising, gap_at, run_end};
ghost use Rattle.live_blocks.specs.Space.{end_of};

use crate::block::Block;

/// The address after `words` words that begin at `at`.
pub(crate) fn range_end(at: u32, words: u32) -> u64
    ensures { result ≡ at + 4 * words }
{
    u64::from(at) + 4 * u64::from(words)
}

/// How many of the blocks begin below `base`.
pub(crate) fn begun_below(blocks: &[Block], base: u32) -> usize
    requires { IsRising blocks.now }
    ensures { AreBegun blocks.now base result }
{
    blocks.partition_point(|block| block.base < base)
}

/// How many of the blocks have a number below `number`.
pub(crate) fn numbered_below(blocks: &[Block], number: u32) -> usize
    requires { AreNumbered blocks.now }
    ensures { AreEarlier blocks.now number result }
{
    blocks.partition_point(|block| block.number < number)
}

/// Where a walk over the blocks from `from` on stops that looks for `words` words.
pub(crate) fn gap_at(blocks: &[Block], words: u32, from: u32) -> u32
    requires { All (λ block. end_of block < 2 ^ 32) blocks.now }
    ensures { result ≡ gap_at blocks.now words from }
{
    let mut at = from;
    for block in blocks {
        if range_end(at, words) <= u64::from(block.base) {
            return at;
        }
        at = block.end();
    }
    at
}

/// The end of the blocks at the head of the list that follow each other from `from` on without a gap.
pub(crate) fn run_end(blocks: &[Block], from: u32) -> u32
    requires { All (λ block. end_of block < 2 ^ 32) blocks.now }
    ensures { result ≡ run_end blocks.now from }
{
    let mut end = from;
    for block in blocks {
        if block.base != end {
            return end;
        }
        end = block.end();
    }
    end
}
