//! What the services do: the plans of a block that is handed out, and of one that is taken back.

ghost use Rattle.std.specs.Prelude.{◌≡◌, ◌≤◌, Err};
ghost use Rattle.heap_policy.specs.Heap.{block_at, freeing, handing_out, none_fits, refused_plan, cell_after, words_of};

use crate::table::refused;
use crate::tag::{Content, HeapTag};
use live_blocks::Block;
use policy_trait::{Answer, Plan, PlanEnd, Rest, Why, Words};

/// The number of the service that hands out a block of a0 bytes.
pub(crate) const MALLOC: u32 = 48;

/// The number of the service that takes back the block at a0.
pub(crate) const FREE: u32 = 49;

/// How many blocks can be handed out.
pub(crate) const BLOCK_LIMIT: u32 = 1_048_576;

/// How many words a block of so many bytes has: at least one.
pub(crate) fn words_of(bytes: u32) -> u32
    ensures value { result ≡ words_of bytes }
    ensures some { 1 ≤ result }
{
    bytes.div_ceil(4).max(1)
}

/// The block of this number at these words.
pub(crate) fn block_at(number: u32, words: Words) -> Block
    ensures { result ≡ block_at number words }
{
    Block {
        number,
        base: words.base,
        words: words.count,
    }
}

/// The block of this number handed out at these words.
pub(crate) fn handing_out(number: u32, words: Words, pc: HeapTag) -> Plan<HeapTag>
    ensures { result ≡ handing_out number words pc }
{
    Plan {
        service: MALLOC,
        pc,
        note: number,
        range: Some(words),
        zero: true,
        answer: Some(Answer {
            value: words.base,
            tag: HeapTag::Ptr(number),
            rest: Rest::Plain,
        }),
    }
}

/// No block handed out, since none of that size fits: the answer is 0.
pub(crate) fn none_fits(pc: HeapTag) -> Plan<HeapTag>
    ensures { result ≡ none_fits pc }
{
    Plan {
        service: MALLOC,
        pc,
        note: 0,
        range: None,
        zero: false,
        answer: Some(Answer {
            value: 0,
            tag: HeapTag::Val,
            rest: Rest::Plain,
        }),
    }
}

/// The block taken back.
pub(crate) fn freeing(block: Block, pc: HeapTag) -> Plan<HeapTag>
    ensures { result ≡ freeing block pc }
{
    Plan {
        service: FREE,
        pc,
        note: block.number,
        range: Some(Words {
            base: block.base,
            count: block.words,
        }),
        zero: true,
        answer: None,
    }
}

/// The new tag of a word of the plan's range.
pub(crate) fn retagged(plan: &Plan<HeapTag>) -> HeapTag
    ensures { result ≡ cell_after plan.now.service plan.now.note }
{
    if plan.service == MALLOC {
        HeapTag::Cell(plan.note, Content::Val)
    } else {
        HeapTag::Free
    }
}

/// No plan, for a refusal by this policy.
pub(crate) fn refuse(why: Why) -> PlanEnd
    ensures { Err result ≡ refused_plan why }
{
    PlanEnd::Refused(refused(why))
}
