//! Calls on the live blocks of a region, each with what first fit says of it.

ghost use Rattle.std.specs.Prelude.{◌≡◌, ◌+◌, ◌<◌, ◌^◌, []};
ghost use Rattle.std.specs.List.{All};

use live_blocks::{Block, LiveBlocks};
use std::alloc::AllocError;

/// A call of a sequence. A block has its call's place in the sequence as its number.
#[derive(Clone, Copy)]
pub(crate) enum Step {
    /// So many words are asked for, and get a block at that base, or none.
    Malloc(u32, Option<u32>),
    /// The block of that number is freed.
    Free(u32),
}

/// Whether each step that asks for words gets the base that it states.
pub(crate) fn go_as_stated(blocks: &mut LiveBlocks, steps: &[Step]) -> Result<bool, AllocError>
    requires { blocks.old.space.live ≡ [] }
{
    let mut number: u32 = 0;
    for step in steps {
        let Some(next) = number.checked_add(1) else {
            return Ok(false);
        };
        if !goes_as_stated(blocks, number, *step)? {
            return Ok(false);
        }
        number = next;
    }
    Ok(true)
}

/// Whether a step, which may make a block of this number, gets the base that it states.
fn goes_as_stated(blocks: &mut LiveBlocks, number: u32, step: Step) -> Result<bool, AllocError>
    requires numbers { All (λ other. other.number < number) blocks.old.space.live }
    requires small { number + 1 < 2 ^ 32 }
    ensures { All (λ other. other.number < number + 1) blocks.new.space.live }
{
    match step {
        Step::Malloc(words, base) => Ok(malloc(blocks, number, words)? == base),
        Step::Free(other) => {
            blocks.remove(other);
            Ok(true)
        }
    }
}

/// Makes a block of at least one word live where it fits first, and tells its base.
fn malloc(blocks: &mut LiveBlocks, number: u32, words: u32) -> Result<Option<u32>, AllocError>
    requires numbers { All (λ other. other.number < number) blocks.old.space.live }
    requires small { number + 1 < 2 ^ 32 }
    ensures { All (λ other. other.number < number + 1) blocks.new.space.live }
{
    let words = words.max(1);
    let Some(base) = blocks.first_fit(words) else {
        return Ok(None);
    };
    let block = Block {
        number,
        base,
        words,
    };
    // read for the proof alone: who reads the region's end knows that numbers rise, so that there is room
    blocks.top();
    blocks.make_room(number + 1)?;
    blocks.insert(block);
    Ok(Some(base))
}
