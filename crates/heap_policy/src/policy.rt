//! What heap safety keeps, and its answers to the machine.

ghost use Rattle.std.specs.Prelude.{◌≡◌, ◌+◌, ◌≤◌, ◌<◌, ◌%◌, ◌^◌, ◌++◌, Some, OnErr, OnOk};
ghost use Rattle.arrayvec.specs.ArrayVec.{array_vec_len};
ghost use Rattle.heap_policy.specs.Heap.{CanHandBack, CanHandOut, CanPutBack, content_text, empty_heap, free_plan, handed_back, handed_out, heap, live_again, malloc_plan, pointer_text, taken_back};

use crate::services::{
    BLOCK_LIMIT, FREE, MALLOC, block_at, freeing, handing_out, none_fits, refuse, retagged,
    words_of,
};
use crate::table::{effect_of, is_static, is_val, refused, wiped};
use crate::tag::{Content, HeapTag};
use live_blocks::LiveBlocks;
use policy_trait::{
    Args, Birth, Ins, InsAt, Mask, Outs, Part, Plan, PlanEnd, Policy, Refused, Shape, Why, Words,
};
use pump_words::{Line, dec, write_text};
use rv_decode::Group;
use std::alloc::{AllocError, Global};
use std::marker::Model;

/// Heap safety. Contracts see it as the live blocks of the heap region, and the number of the next block. At most 1,048,576
/// blocks are handed out.
#[derive(Drop)]
pub struct Heap {
    blocks: LiveBlocks,
    /// How many blocks were handed out. A number is never used again.
    next: u32,
}

impl Model for Heap {
    ghost use Rattle.heap_policy.specs.Heap.{HasRoom, HeapState};

    ghost Value = { HeapState };

    ghost view = { λ h. record { space = h.blocks.space; next = h.next } };

    ghost invariant = { λ h. HasRoom (record { space = h.blocks.space; next = h.next }) h.blocks.room };
}

impl Heap {
    /// The policy of a heap region of so many bytes from the address `base` on, a multiple of 4, before any block was
    /// handed out. Nothing is allocated.
    pub fn new(alloc: Global, base: u32, bytes: u32) -> Heap
        requires aligned { base % 4 ≡ 0 }
        requires fits { base + bytes < 2 ^ 32 }
        ensures { result ≡ empty_heap base bytes }
    {
        Heap {
            blocks: LiveBlocks::new(alloc, base, base + bytes),
            next: 0,
        }
    }

    /// The next block, of a0 bytes, at the lowest place where it fits.
    fn malloc(&self, arguments: &Args<HeapTag>, pc: HeapTag) -> Result<Plan<HeapTag>, PlanEnd>
        ensures { result ≡ malloc_plan self.now arguments.now pc }
    {
        if !is_val(arguments.t0) {
            return Err(refuse(Why::Args));
        }
        if self.next >= BLOCK_LIMIT {
            return Err(PlanEnd::Spent);
        }
        let count = words_of(arguments.a0);
        match self.blocks.first_fit(count) {
            Some(base) => Ok(handing_out(self.next, Words { base, count }, pc)),
            None => Ok(none_fits(pc)),
        }
    }

    /// The live block that a0 points to, by its first address, taken back.
    fn free(&self, arguments: &Args<HeapTag>, pc: HeapTag) -> Result<Plan<HeapTag>, PlanEnd>
        ensures { result ≡ free_plan self.now arguments.now pc }
    {
        let HeapTag::Ptr(number) = arguments.t0 else {
            return Err(refuse(Why::NotLive));
        };
        match self.blocks.find(number) {
            Some(block) if block.base == arguments.a0 => Ok(freeing(block, pc)),
            _ => Err(refuse(Why::NotLive)),
        }
    }

    /// Takes note that the block of this number was handed out at these words. The only error is running out of memory.
    fn hand_out(&mut self, number: u32, words: Words) -> Result<(), AllocError>
        requires { CanHandOut self.old number words }
        ensures ok { OnOk result (self.new ≡ handed_out self.old number (Some words)) }
        ensures err { OnErr result (self.new ≡ self.old) }
    {
        self.blocks.make_room(number + 1)?;
        self.blocks.insert(block_at(number, words));
        self.next += 1;
        Ok(())
    }

    /// Takes note that the block of this number was taken back.
    fn take_back(&mut self, number: u32)
        ensures { self.new ≡ taken_back self.old number }
    {
        self.blocks.remove(number);
    }

    /// Makes the block of this number at these words live again. It takes no memory.
    fn put_back(&mut self, number: u32, words: Words)
        requires { CanPutBack self.old number words }
        ensures { self.new ≡ live_again self.old number words }
    {
        self.blocks.insert(block_at(number, words));
    }

    /// Takes note that the block of this number was not handed out.
    fn hand_back(&mut self, number: u32)
        requires { CanHandBack self.old number }
        ensures { self.new ≡ handed_back self.old number }
    {
        self.blocks.remove(number);
        self.next -= 1;
    }
}

impl Policy for Heap {
    ghost use Rattle.heap_policy.specs.Heap.{IsHeap, heap};
    ghost use Rattle.heap_policy.specs.HeapLaws.{heap_laws};

    type Tag = HeapTag;

    ghost model = { heap };

    ghost holds = { IsHeap };

    ghost longest = { 90 };

    fn plain(&self) -> HeapTag {
        // read for the proof of `valid` alone: what reads the blocks knows their invariant
        let _next = &self.next;
        HeapTag::Val
    }

    #[inline(always)]
    fn rule(&self, group: Group, inputs: Ins<HeapTag>) -> Result<Outs<HeapTag>, Refused>
        ensures { result ≡ heap.rule self.now group inputs }
    {
        self.rule_at(
            group,
            &InsAt::new(&inputs.pc, &inputs.ci, &inputs.t1, &inputs.t2, &inputs.tm),
        )
    }

    #[inline(always)]
    fn rule_at(&self, group: Group, inputs: &InsAt<'_, HeapTag>) -> Result<Outs<HeapTag>, Refused>
        ensures { result ≡ heap.rule self.now group inputs.now }
    {
        let result = if is_static(*inputs.ci) {
            effect_of(group).result(*inputs.t1, *inputs.t2, *inputs.tm)
        } else {
            None
        };
        match result {
            Some(result) => Ok(Outs {
                pc: HeapTag::Val,
                result,
            }),
            None => Err(refused(Why::Rule(group))),
        }
    }

    fn ignores(&self, group: Group) -> Mask {
        effect_of(group).mask()
    }

    fn peeks(&self) -> bool {
        false
    }

    fn peek(&self, _shape: Shape, _first: &HeapTag, _second: &HeapTag) -> Result<(), Refused> {
        Ok(())
    }

    fn knows(&self, number: u32) -> bool {
        matches!(number, MALLOC | FREE)
    }

    fn uses(&self, _number: u32) -> u8 {
        1
    }

    fn lend(&self, _tag: HeapTag) -> Result<(), Part> {
        Ok(())
    }

    fn plan(
        &self,
        number: u32,
        arguments: &Args<HeapTag>,
        pc: HeapTag,
    ) -> Result<Plan<HeapTag>, PlanEnd> {
        if number == MALLOC {
            self.malloc(arguments, pc)
        } else {
            self.free(arguments, pc)
        }
    }

    fn retag(&self, plan: &Plan<HeapTag>, _old: HeapTag) -> Result<HeapTag, Refused> {
        Ok(retagged(plan))
    }

    fn wipe(&self, _pc: HeapTag, old: HeapTag) -> Result<HeapTag, Refused> {
        wiped(old)
    }

    fn commit(&mut self, plan: &Plan<HeapTag>) -> Result<(), AllocError> {
        if plan.service == FREE {
            self.take_back(plan.note);
        } else if let Some(words) = plan.range {
            self.hand_out(plan.note, words)?;
        }
        Ok(())
    }

    fn uncommit(&mut self, plan: &Plan<HeapTag>) {
        let Some(words) = plan.range else {
            return;
        };
        if plan.service == FREE {
            self.put_back(plan.note, words);
        } else {
            self.hand_back(plan.note);
        }
    }

    fn start_pc(&self, _birth: &Birth) -> HeapTag {
        HeapTag::Val
    }

    fn start_word(&self, birth: &Birth) -> HeapTag {
        if birth.heap {
            HeapTag::Free
        } else {
            HeapTag::Static(Content::Val)
        }
    }

    fn show(&self, tag: HeapTag, to: &mut Line) {
        match tag {
            HeapTag::Val => write_text(to, b"val"),
            HeapTag::Ptr(block) => show_pointer(to, block),
            HeapTag::Static(content) => {
                write_text(to, b"static(");
                show_content(to, content);
                write_text(to, b")");
            }
            HeapTag::Cell(block, content) => {
                write_text(to, b"cell(");
                dec(to, u64::from(block));
                write_text(to, b",");
                show_content(to, content);
                write_text(to, b")");
            }
            HeapTag::Free => write_text(to, b"free"),
        }
    }

    fn listed(&self, place: u32) -> Option<(u32, u32, u32)> {
        let block = self.blocks.get(place as usize)?;
        Some((block.number, block.base, block.words))
    }

    ghost lawful = { heap_laws };
}

/// Appends what a word holds.
fn show_content(to: &mut Line, content: Content)
    requires { array_vec_len to.old + 25 ≤ 512 }
    ensures text { to.new.items ≡ to.old.items ++ content_text content }
    ensures short { array_vec_len to.new ≤ array_vec_len to.old + 25 }
{
    match content {
        Content::Val => write_text(to, b"val"),
        Content::Ptr(block) => show_pointer(to, block),
    }
}

/// Appends a pointer to the block of this number.
fn show_pointer(to: &mut Line, block: u32)
    requires { array_vec_len to.old + 25 ≤ 512 }
    ensures text { to.new.items ≡ to.old.items ++ pointer_text block }
    ensures short { array_vec_len to.new ≤ array_vec_len to.old + 25 }
{
    write_text(to, b"ptr(");
    dec(to, u64::from(block));
    write_text(to, b")");
}
