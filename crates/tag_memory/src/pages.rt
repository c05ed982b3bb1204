//! Lists in pages: pages of one item over and over share their slots until one of them is written.

ghost use Rattle.std.specs.Prelude.{◌≡◌, ◌≢◌, ◌==◌, ◌++◌, if◌then◌else◌, ◌∷◌, ◌+◌, ◌-◌, ◌*◌, ◌/◌, ◌%◌, ◌<◌, ◌≤◌, [], ℕ, Bool, IfOk, OnOk, false, true, length, map, replicate, slice_index, slice_index_or, slice_range, slice_set, vec_capacity};
ghost use Rattle.tag_memory.specs.Maps.{pages_by};
ghost use Rattle.tag_memory.specs.Pages.{first_slot, items_of, shifts_to, slot_of};

use crate::renumbering::{number_at, renumber_all};
use std::alloc::{AllocError, Global};
use std::marker::Model;

// How many items a page has.
const PAGE: u32 = 64;

// For so many runs of pages that share their slots room is taken at the start, beside that for all pages.
const RUNS: u32 = 64;

/// A list of at most 4,194,304 items, in pages of 64. What is written takes no memory, since room for all of it is taken when items
/// are added; and no slot of a page of one item over and over is touched before one of its items is written.
#[derive(Drop)]
pub struct Pages<T: Copy> {
    shifts: Vec<u64>,
    owned: Vec<bool>,
    slots: Vec<T>,
    count: u32,
    shared: u32,
    blank: T,
}

impl<T: Copy> Model for Pages<T> {
    ghost use Rattle.std.specs.Prelude.{vec_capacity};
    ghost use Rattle.tag_memory.specs.Pages.{ArePages, PagesState};

    ghost Value = { PagesState T };

    ghost view = { λ p. record {
      shifts = p.shifts.items;
      owned = p.owned.items;
      slots = p.slots.items;
      count = p.count;
      shared = p.shared;
      room = vec_capacity p.slots;
      blank = p.blank;
    } };

    ghost invariant = { λ p. ArePages (record {
      shifts = p.shifts.items;
      owned = p.owned.items;
      slots = p.slots.items;
      count = p.count;
      shared = p.shared;
      room = vec_capacity p.slots;
      blank = p.blank;
    }) };
}

// The slot of an item, by its number.
#[inline(always)]
fn slot_of(shifts: &[u64], n: u32) -> usize
    requires { n / 64 < length shifts.now }
    ensures { result ≡ slot_of shifts.now n }
{
    u64::from(n).wrapping_add(shifts[(n / PAGE) as usize]) as usize
}

// The first slot of a page.
fn first_slot(shifts: &[u64], page: u32) -> usize
    requires within { page < length shifts.now }
    requires small { 64 * page < 4294967296 }
    ensures { result ≡ first_slot shifts.now page }
{
    ((PAGE * page) as u64).wrapping_add(shifts[page as usize]) as usize
}

// Adds a place for a page, with what stands in another one. There is room for it.
fn copy_place<T: Copy>(slots: &mut Vec<T>, from: usize)
    requires within { from + 64 ≤ length slots.old.items }
    requires room { length slots.old.items + 64 ≤ vec_capacity slots.old }
    ensures items { slots.new.items
        ≡ slots.old.items ++ slice_range slots.old.items from (from + 64) }
    ensures capacity { vec_capacity slots.old ≤ vec_capacity slots.new }
{
    slots.extend_from_within(from..from + 64).unwrap();
}

impl<T: Copy> Pages<T> {
    /// A list without items, with room for so many, at most 4,194,304. Its `blank` is never read. The only error is running out of
    /// memory.
    #[tactic(auto, using(crate::proofs::PagesLemmas::none_are))]
    pub fn new(alloc: Global, count: u32, blank: T) -> Result<Pages<T>, AllocError>
        requires { count ≤ 4194304 }
        ensures { IfOk result (λ pages. items_of pages ≡ []) }
    {
        let pages = count.div_ceil(PAGE);
        Ok(Pages {
            shifts: Vec::with_capacity(alloc, pages as usize)?,
            owned: Vec::with_capacity(alloc, pages as usize)?,
            slots: Vec::with_capacity(alloc, (PAGE * (pages + RUNS)) as usize)?,
            count: 0,
            shared: 0,
            blank,
        })
    }

    /// How many items there are.
    #[tactic(auto, using(crate::proofs::PagesLemmas::count_is))]
    pub fn len(&self) -> u32
        ensures count { result ≡ self.now.count }
        ensures length { result ≡ length (items_of self.now) }
        ensures few { result ≤ 4194304 }
    {
        self.count
    }

    /// Where an item stands, by its number.
    #[inline(always)]
    #[tactic(auto, using(crate::proofs::PagesLemmas::count_is, crate::proofs::PagesLemmas::item_at, crate::proofs::PagesLemmas::slot_within))]
    pub fn at(&self, n: u32) -> &T
        requires { n < length (items_of self.now) }
        ensures { (d : T) → result.now ≡ slice_index_or (items_of self.now) n d }
    {
        &self.slots[slot_of(&self.shifts, n)]
    }

    /// Writes an item. Every other one stays.
    #[inline(always)]
    #[tactic(auto, using(crate::proofs::PagesLemmas::count_is))]
    pub fn set(&mut self, n: u32, item: T)
        requires { n < length (items_of self.old) }
        ensures { items_of self.new ≡ slice_set (items_of self.old) n item }
    {
        // Serves the proof alone: how many items there are.
        let _count = self.len();
        self.write(n, item);
    }

    /// Adds the items to another list, in their order. The only error is running out of memory;
    /// that list may then have some of them.
    #[tactic(auto, using(crate::proofs::PagesLemmas::count_is))]
    pub fn push_items(&self, list: &mut Vec<T>) -> Result<(), AllocError>
        ensures { OnOk result (list.new.items ≡ list.old.items ++ items_of self.now) }
    {
        list.reserve(self.count as usize)?;
        for n in 0..self.count {
            list.push(*self.at(n))?;
        }
        Ok(())
    }

    #[inline(always)]
    fn write(&mut self, n: u32, item: T)
        requires { n < self.old.count }
        ensures items { items_of self.new ≡ slice_set (items_of self.old) n item }
        ensures count { self.new.count ≡ self.old.count }
    {
        self.own(n);
        let slot = slot_of(&self.shifts, n);
        self.slots[slot] = item;
    }

    // Sees to it that the page of an item has its slots alone.
    #[inline(always)]
    fn own(&mut self, n: u32)
        requires within { n < self.old.count }
        ensures items { items_of self.new ≡ items_of self.old }
        ensures count { self.new.count ≡ self.old.count }
        ensures owned { slice_index_or self.new.owned (n / 64) false ≡ true }
    {
        if !self.owned[(n / PAGE) as usize] {
            self.part(n / PAGE);
        }
    }

    // Gives a page that shares its slots some of its own, with the items that it has.
    #[inline(never)]
    fn part(&mut self, page: u32)
        requires within { page < length self.old.shifts }
        requires shared { slice_index_or self.old.owned page true ≡ false }
        ensures items { items_of self.new ≡ items_of self.old }
        ensures count { self.new.count ≡ self.old.count }
        ensures owned { slice_index_or self.new.owned page false ≡ true }
    {
        let place = self.slots.len() as u64;
        let from = first_slot(&self.shifts, page);
        copy_place(&mut self.slots, from);
        self.shifts[page as usize] = place.wrapping_sub((PAGE * page) as u64);
        self.owned[page as usize] = true;
        self.shared -= 1;
    }

    /// The list with an item added, over and over, until there are `end`. The only error is running out of memory.
    #[tactic(auto, using(crate::proofs::PagesLemmas::added_size, crate::proofs::PagesLemmas::added_old, crate::proofs::PagesLemmas::added_new))]
    pub fn extended(self, end: u32, item: T) -> Result<Pages<T>, AllocError>
        requires more { length (items_of self) ≤ end }
        requires few { end ≤ 4194304 }
        ensures items { IfOk result (λ pages. items_of pages
            ≡ items_of self ++ replicate (end - length (items_of self)) item) }
        ensures length { IfOk result (λ pages. length (items_of pages) ≡ end) }
        // `items` again, by index.
        ensures old { IfOk result (λ pages. (k : ℕ) (d : T) → k < length (items_of self)
            → slice_index_or (items_of pages) k d ≡ slice_index_or (items_of self) k d) }
        ensures new { IfOk result (λ pages. (k : ℕ) (d : T) → length (items_of self) ≤ k → k < end
            → slice_index_or (items_of pages) k d ≡ item) }
    {
        // Serves the proof alone: how many items there are.
        let _count = self.len();
        let pages = self.grown(end, item)?;
        Ok(pages)
    }

    fn grown(mut self, end: u32, item: T) -> Result<Pages<T>, AllocError>
        requires more { self.count ≤ end }
        requires few { end ≤ 4194304 }
        ensures { IfOk result (λ pages. items_of pages
            ≡ items_of self ++ replicate (end - self.count) item) }
    {
        self.fill_last(end, item);
        if self.count < end {
            self.with_pages(end, item)
        } else {
            Ok(self)
        }
    }

    // Adds an item, over and over, until the last page is full, or there are `end`.
    fn fill_last(&mut self, end: u32, item: T)
        requires more { self.old.count ≤ end }
        requires few { end ≤ 4194304 }
        ensures items { items_of self.new
            ≡ items_of self.old ++ replicate (self.new.count - self.old.count) item }
        ensures more { self.old.count ≤ self.new.count }
        ensures most { self.new.count ≤ end }
        ensures full { self.new.count < end → self.new.count % 64 ≡ 0 }
    {
        while self.count < end && self.count % PAGE != 0 {
            self.push_within(item);
        }
    }

    // Adds an item to the last page, which isn't full.
    fn push_within(&mut self, item: T)
        requires part { self.old.count % 64 ≢ 0 }
        requires few { self.old.count < 4194304 }
        ensures items { items_of self.new ≡ items_of self.old ++ item ∷ [] }
        ensures count { self.new.count ≡ self.old.count + 1 }
    {
        let last = self.count;
        self.count += 1;
        self.write(last, item);
    }

    // The list with an item added in new pages, until there are `end`. If they are several, they share one place.
    fn with_pages(mut self, end: u32, item: T) -> Result<Pages<T>, AllocError>
        requires full { self.count % 64 ≡ 0 }
        requires some { self.count < end }
        requires few { end ≤ 4194304 }
        ensures { IfOk result (λ pages. items_of pages
            ≡ items_of self ++ replicate (end - self.count) item) }
    {
        let pages = (end - self.count).div_ceil(PAGE);
        let alone = pages == 1;
        let shared = shared_with(self.shared, pages);
        let place = self.slots.len();
        self.slots.reserve((PAGE * (shared + 1)) as usize)?;
        self.slots.resize(place + PAGE as usize, item)?;
        push_shifts(&mut self.shifts, place as u64, self.count, pages)?;
        let known = self.owned.len();
        self.owned.resize(known + pages as usize, alone)?;
        self.count = end;
        self.shared = shared;
        Ok(self)
    }
}

impl Pages<u32> {
    /// Gives each item the number that stands at its place in `numbers`, 0 for one past its end.
    /// Pages share the slots that they shared. It takes no memory.
    pub fn renumber(&mut self, numbers: &[u32])
        ensures items { items_of self.new ≡ map (slice_index numbers.now) (items_of self.old) }
        ensures pages { self.new ≡ pages_by (slice_index numbers.now) self.old }
    {
        renumber_all(&mut self.slots, numbers);
        self.blank = number_at(numbers, self.blank);
    }
}

// How many pages share their slots once there are so many more, which do unless there is one alone.
fn shared_with(shared: u32, pages: u32) -> u32
    requires { shared + pages < 4294967296 }
    ensures { result ≡ (if pages == 1 then shared else shared + pages) }
{
    if pages == 1 { shared } else { shared + pages }
}

// Adds the shifts of so many pages behind so many items, to one place.
fn push_shifts(shifts: &mut Vec<u64>, place: u64, count: u32, pages: u32) -> Result<(), AllocError>
    requires { count + 64 * pages < 4294967296 }
    ensures { OnOk result (shifts.new.items
        ≡ shifts.old.items ++ shifts_to place count pages) }
{
    for k in 0..pages {
        shifts.push(place.wrapping_sub((count + PAGE * k) as u64))?;
    }
    Ok(())
}
