//! A heap region with its live blocks.

ghost use Rattle.std.specs.Prelude.{◌≡◌, ◌≢◌, ℕ, ◌+◌, ◌*◌, ◌%◌, ◌<◌, ◌≤◌, ◌==◌, ◌↔◌, max, [], Some, length, slice_get, IfSome, IfNone, OnErr, OnOk};
ghost use Rattle.std.specs.List.{All, find, insert};
ghost use Rattle.std.specs.Vec.{vec_capacity, vec_len};
ghost use Rattle.live_blocks.specs.Room.{blocks_of};
ghost use Rattle.live_blocks.specs.Run.{IsPlaceOf};
ghost use Rattle.live_blocks.specs.Space.{IsFirstFit, IsSpace, IsWithin, LiesFree, first_fit, put_block, region, without_block};

use crate::block::Block;
use crate::walk::{begun_below, gap_at, numbered_below, range_end, run_end};
use std::alloc::{AllocError, Global};
use std::marker::Model;

/// The live blocks of a heap region, which lies from `base` up to `top`. They lie in it, each has a number of its own,
/// and no two meet. Contracts see them as `Blocks`: a `Space`, with the blocks in the order of their numbers, and how
/// many blocks there is room for.
#[derive(Drop)]
pub struct LiveBlocks {
    base: u32,
    top: u32,
    /// The lowest address whose word is in no block.
    full: u32,
    /// How many blocks both lists have room for. It never falls.
    room: u32,
    by_number: Vec<Block>,
    by_base: Vec<Block>,
}

impl Model for LiveBlocks {
    ghost use Rattle.std.specs.Vec.{vec_capacity};
    ghost use Rattle.live_blocks.specs.Room.{Blocks, IsRoomy, blocks_of};
    ghost use Rattle.live_blocks.specs.Space.{region};

    ghost Value = { Blocks };

    ghost view = { λ b. blocks_of (region b.base b.top b.by_number.items) b.room };

    ghost invariant = { λ b. IsRoomy (blocks_of (region b.base b.top b.by_number.items) b.room)
        b.by_base.items b.full (vec_capacity b.by_number) (vec_capacity b.by_base) };
}

impl LiveBlocks {
    /// A region with no live block and room for none, from the address `base`, a multiple of 4, up to `top`.
    pub fn new(alloc: Global, base: u32, top: u32) -> LiveBlocks
        requires aligned { base % 4 ≡ 0 }
        requires rising { base ≤ top }
        ensures { result ≡ blocks_of (region base top []) 0 }
    {
        LiveBlocks {
            base,
            top,
            full: base,
            room: 0,
            by_number: Vec::new(alloc),
            by_base: Vec::new(alloc),
        }
    }

    /// The address where the region begins.
    pub fn base(&self) -> u32
        ensures value { result ≡ self.now.space.base }
        ensures valid { IsSpace self.now.space }
    {
        self.base
    }

    /// The address after the region.
    pub fn top(&self) -> u32
        ensures value { result ≡ self.now.space.top }
        ensures valid { IsSpace self.now.space }
    {
        self.top
    }

    /// The lowest multiple of 4 at which `words` words, at least one, lie in the region and meet no live block; `None`
    /// where they fit nowhere.
    pub fn first_fit(&self, words: u32) -> Option<u32>
        requires { 1 ≤ words }
        ensures value { result ≡ first_fit self.now.space words }
        ensures exact { (at : ℕ) → (result ≡ Some at) ↔ IsFirstFit self.now.space words at }
    {
        let next = begun_below(&self.by_base, self.full);
        let at = gap_at(&self.by_base[next..], words, self.full);
        (range_end(at, words) <= u64::from(self.top)).then_some(at)
    }

    /// The live block of that number, if there is one.
    pub fn find(&self, number: u32) -> Option<Block>
        ensures { result ≡ find (λ block. block.number == number) self.now.space.live }
    {
        let place = self.place_of(number)?;
        Some(self.by_number[place])
    }

    /// The live block at a place in the order of the numbers, from 0 on; `None` from their count on.
    pub fn get(&self, place: usize) -> Option<Block>
        ensures { result ≡ slice_get self.now.space.live place }
    {
        self.by_number.get(place).copied()
    }

    /// Makes room for so many live blocks in all; where there was more, it stays. The only error is running out of
    /// memory, and nothing else of this type takes any.
    pub fn make_room(&mut self, room: u32) -> Result<(), AllocError>
        ensures ok { OnOk result (self.new ≡ blocks_of self.old.space (max self.old.room room)) }
        ensures err { OnErr result (self.new ≡ self.old) }
    {
        let more = (room as usize).saturating_sub(self.by_number.len());
        self.by_number.reserve(more)?;
        self.by_base.reserve(more)?;
        self.room = self.room.max(room);
        Ok(())
    }

    /// Makes a block live for which there is room, whose range is free, and whose number no other has. The newest block
    /// comes so, and one that was live before comes back.
    pub fn insert(&mut self, block: Block)
        requires room { length self.old.space.live < self.old.room }
        requires within { IsWithin self.old.space.base self.old.space.top block }
        requires free { LiesFree self.old.space block.words block.base }
        requires another { All (λ other. other.number ≢ block.number) self.old.space.live }
        ensures { self.new ≡ blocks_of (put_block self.old.space block) self.old.room }
    {
        let place = numbered_below(&self.by_number, block.number);
        insert_within(&mut self.by_number, place, block);
        let at = begun_below(&self.by_base, block.base);
        insert_within(&mut self.by_base, at, block);
        let start = begun_below(&self.by_base, self.full);
        self.full = run_end(&self.by_base[start..], self.full);
    }

    /// Makes the block of that number no more live. Without such a block nothing changes. The room stays.
    pub fn remove(&mut self, number: u32)
        ensures { self.new ≡ blocks_of (without_block self.old.space number) self.old.room }
    {
        if let Some(place) = self.place_of(number) {
            let block = self.by_number.remove(place);
            let at = begun_below(&self.by_base, block.base);
            self.by_base.remove(at);
            self.full = self.full.min(block.base);
        }
    }

    /// The place of that number among the numbers, if a live block has it.
    fn place_of(&self, number: u32) -> Option<usize>
        ensures found { IfSome result (IsPlaceOf self.now.space.live number) }
        ensures absent { IfNone result (All (λ block. block.number ≢ number) self.now.space.live) }
    {
        self.by_number
            .binary_search_by_key(&number, |block| block.number)
            .ok()
    }
}

/// Inserts a block into a list that has the capacity for it.
fn insert_within(blocks: &mut Vec<Block>, at: usize, block: Block)
    requires within { at ≤ vec_len blocks.old }
    requires fits { vec_len blocks.old < vec_capacity blocks.old }
    ensures items { blocks.new.items ≡ insert blocks.old.items at block }
    ensures capacity { vec_capacity blocks.new ≡ vec_capacity blocks.old }
{
    match blocks.insert(at, block) {
        Ok(()) => {}
        Err(_) => unreachable!(),
    }
}
