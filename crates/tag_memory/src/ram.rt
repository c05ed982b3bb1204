//! Memory, with a tag for each word.

ghost use Rattle.std.specs.Prelude.{◌≡◌, ◌≢◌, ◌++◌, ℕ, ◌+◌, ◌*◌, ◌/◌, ◌%◌, ◌-◌, ◌<◌, ◌≤◌, IfOk, OnOk, drop, length, slice_index, take};
ghost use Rattle.std.specs.List.{list_all};
ghost use Rattle.tag_memory.specs.Maps.{ram_by};
ghost use Rattle.tag_memory.specs.Pages.{items_of};
ghost use Rattle.tag_memory.specs.Ram.{IsRam, fresh_ram, only_one, page_tags, ram_bytes, ram_tag, ram_word, with_ram_filled, with_ram_tag, with_ram_word};

use crate::filled::filled;
use crate::pages::Pages;
use crate::renumbering::number_at;
use pump_words::Same;
use std::alloc::{AllocError, Global};
use std::marker::Model;

/// Memory of 4 to 16,777,216 bytes: words of 32 bits, each with a tag. Contracts see it as a `RamState`.
#[derive(Drop)]
pub struct Ram<T: Copy> {
    words: Vec<u32>,
    tags: Pages<T>,
    plain: T,
}

impl<T: Copy> Model for Ram<T> {
    ghost use Rattle.tag_memory.specs.Pages.{items_of};
    ghost use Rattle.tag_memory.specs.Ram.{IsRam, RamState};

    ghost Value = { RamState T };

    ghost view = { λ r. record { words = r.words.items; tags = items_of r.tags; plain = r.plain } };

    ghost invariant = { λ r. IsRam (record { words = r.words.items; tags = items_of r.tags; plain = r.plain }) };
}

impl<T: Copy> Ram<T> {
    /// Memory of `bytes` bytes, all words 0 and plain. The only error is running out of memory.
    pub fn new(alloc: Global, bytes: u32, plain: T) -> Result<Ram<T>, AllocError>
        requires aligned { bytes % 4 ≡ 0 }
        requires some { 4 ≤ bytes }
        requires few { bytes ≤ 16777216 }
        ensures { IfOk result (λ ram. ram ≡ fresh_ram bytes plain) }
    {
        let count = bytes / 4;
        let words = filled(alloc, 0, count as usize)?;
        let tags = Pages::new(alloc, count, plain)?.extended(count, plain)?;
        Ok(Ram { words, tags, plain })
    }

    /// Memory of these words with these tags.
    pub fn from_parts(words: Vec<u32>, tags: Pages<T>, plain: T) -> Ram<T>
        requires { IsRam (record { words = words.items; tags = items_of tags; plain = plain }) }
        ensures { result ≡ record { words = words.items; tags = items_of tags; plain = plain } }
    {
        Ram { words, tags, plain }
    }

    /// How many bytes there are: a multiple of 4, at least 4 and at most 16,777,216.
    pub fn bytes(&self) -> u32
        ensures bytes { result ≡ ram_bytes self.now }
        ensures sound { IsRam self.now }
    {
        (self.words.len() as u32) * 4
    }

    /// The word at `address`.
    pub fn word(&self, address: u32) -> u32
        requires aligned { address % 4 ≡ 0 }
        requires within { address + 4 ≤ ram_bytes self.now }
        ensures { result ≡ ram_word self.now address }
    {
        self.words[(address / 4) as usize]
    }

    /// Writes the word at `address`. Its tag and every other word stay.
    pub fn set_word(&mut self, address: u32, word: u32)
        requires aligned { address % 4 ≡ 0 }
        requires within { address + 4 ≤ ram_bytes self.old }
        ensures exact { self.new ≡ with_ram_word self.old address word }
        ensures bytes { ram_bytes self.new ≡ ram_bytes self.old }
        ensures written { ram_word self.new address ≡ word }
        ensures others { (other : ℕ) → other / 4 ≢ address / 4
            → ram_word self.new other ≡ ram_word self.old other }
    {
        self.words[(address / 4) as usize] = word;
    }

    /// The tag of the word at `address`.
    pub fn tag(&self, address: u32) -> T
        requires aligned { address % 4 ≡ 0 }
        requires within { address + 4 ≤ ram_bytes self.now }
        ensures { result ≡ ram_tag self.now address }
    {
        *self.tags.at(address / 4)
    }

    /// Where the tag of the word at `address` stands.
    #[inline(always)]
    pub fn tag_at(&self, address: u32) -> &T
        requires aligned { address % 4 ≡ 0 }
        requires within { address + 4 ≤ ram_bytes self.now }
        ensures { result.now ≡ ram_tag self.now address }
    {
        self.tags.at(address / 4)
    }

    /// Writes the tag of the word at `address`. The word and every other tag stay. It takes no memory.
    #[inline(always)]
    pub fn set_tag(&mut self, address: u32, tag: T)
        requires aligned { address % 4 ≡ 0 }
        requires within { address + 4 ≤ ram_bytes self.old }
        ensures exact { self.new ≡ with_ram_tag self.old address tag }
        ensures bytes { ram_bytes self.new ≡ ram_bytes self.old }
        ensures written { ram_tag self.new address ≡ tag }
        ensures others { (other : ℕ) → other / 4 ≢ address / 4
            → ram_tag self.new other ≡ ram_tag self.old other }
    {
        self.tags.set(address / 4, tag);
    }

    /// Gives the tag to so many words from `address` on. Words and every other tag stay. It takes no memory.
    pub fn fill(&mut self, address: u32, words: u32, tag: T)
        requires aligned { address % 4 ≡ 0 }
        requires within { address + 4 * words ≤ ram_bytes self.old }
        ensures exact { self.new ≡ with_ram_filled self.old address words tag }
    {
        // Serves the proof alone: how large memory is.
        let _bytes = self.bytes();
        for n in 0..words {
            self.set_tag(address + 4 * n, tag);
        }
    }

    /// Adds the tags of all words to a list, in their order. The only error is running out of
    /// memory; the list may then have some of them.
    pub fn push_tags(&self, list: &mut Vec<T>) -> Result<(), AllocError>
        ensures { OnOk result (list.new.items ≡ list.old.items ++ self.now.tags) }
    {
        self.tags.push_items(list)
    }
}

impl Ram<u32> {
    /// Gives each tag, the plain one too, the number that stands at its place in `numbers`, 0 for
    /// one past its end. Words stay. It takes no memory.
    pub fn renumber(&mut self, numbers: &[u32])
        ensures { self.new ≡ ram_by (slice_index numbers.now) self.old }
    {
        self.tags.renumber(numbers);
        self.plain = number_at(numbers, self.plain);
    }
}

impl<T: Same> Ram<T> {
    /// The tag of all words of a page of 64, by the page's number; `None` where two of them differ. The last page may be shorter.
    pub fn page_tag(&self, page: u32) -> Option<T>
        requires { 256 * page < ram_bytes self.now }
        ensures { result ≡ only_one T.eq (page_tags self.now page) }
    {
        // Serves the proof alone: how large memory is.
        let _bytes = self.bytes();
        let first = 64 * page;
        let end = self.tags.len().min(first + 64);
        let tag = *self.tags.at(first);
        are_all(&self.tags, first + 1, end, tag).then_some(tag)
    }
}

// Whether the items from a number up to another one are all the same as that one.
fn are_all<T: Same>(items: &Pages<T>, from: u32, end: u32, item: T) -> bool
    requires some { from ≤ end }
    requires within { end ≤ length (items_of items.now) }
    ensures { result ≡ list_all (T.eq item) (take (end - from) (drop from (items_of items.now))) }
{
    for n in from..end {
        if item != *items.at(n) {
            return false;
        }
    }
    true
}
