//! The segments of an image, kept as one list of words and a list of where each begins and ends in it.

ghost use Rattle.std.specs.Prelude.{◌≡◌, ◌+◌, ◌*◌, ◌<◌, ◌==◌, [], length, slice_index_or, OnOk, OnErr};
ghost use Rattle.std.specs.Int.{w32};
ghost use Rattle.std.proofs.Common.{arith};
ghost use Rattle.image_format.specs.Rooms.{HasPlacesFor};
ghost use Rattle.image_format.specs.Reading.{Gives, number_at, times, with_prefix, range_behind_at, segment_at, rows_at, list_at};

use crate::errors::{ImageEnd, ImageError};
use crate::fields::number_of;
use crate::lists::{Bounds, in_place, range_of};
use crate::room::{Kept, Room, Rooms};
use crate::rows::WordRange;
use std::alloc::{AllocError, Global};
use std::marker::Model;

/// A segment's address, and where its words lie among those of all segments.
#[derive(Clone, Copy)]
struct Extent {
    address: u32,
    first: u32,
    words: u32,
}

impl Extent {
    /// Whether its words end at the address.
    fn is_up_to(self, address: u32) -> bool
        ensures { result ≡ (self.address + 4 * self.words == address) }
    {
        u64::from(self.address) + 4 * u64::from(self.words) == u64::from(address)
    }
}

impl Kept for Extent {
    ghost BYTES = { 12 };

    const BYTES: usize = size_of::<Extent>();

    ghost has_bytes = { Prim.omega arith };
}

/// Words that the memory starts with, in segments: each has an address in bytes, and words from there on.
#[derive(Drop)]
pub struct Segments {
    extents: Vec<Extent>,
    contents: Vec<u32>,
}

impl Model for Segments {
    ghost use Rattle.std.specs.Prelude.{List, map};
    ghost use Rattle.image_format.specs.Picture.{Segment};

    ghost Value = { List Segment };

    ghost use Rattle.image_format.specs.Parts.{part_of, AreKept};

    ghost view = { λ s. map (part_of s.contents.items) s.extents.items };

    ghost invariant = { λ s. AreKept s.contents.items s.extents.items };
}

impl Segments {
    ghost use Rattle.image_format.specs.Picture.{no_segment};
    ghost use Rattle.image_format.specs.Building.{with_word};

    /// No segments.
    pub fn new(alloc: Global) -> Segments
        ensures { result ≡ [] }
    {
        Segments {
            extents: Vec::new(alloc),
            contents: Vec::new(alloc),
        }
    }

    /// Puts a word at an address: behind the words of the last segment where that one ends there, and as
    /// the first word of a new segment elsewhere. Where memory runs out, the segments stay as they were;
    /// 2^32 - 1 words in all are as many as there is ever room for.
    pub fn put_word(&mut self, address: u32, word: u32) -> Result<(), AllocError>
        ensures put { OnOk result (self.new ≡ with_word self.old address word) }
        ensures kept { OnErr result (self.new ≡ self.old) }
    {
        let first = self.contents.len();
        if first >= u32::MAX as usize {
            return Err(AllocError);
        }
        let count = self.extents.len();
        if count > 0 && self.extents[count - 1].is_up_to(address) {
            self.contents.push(word)?;
            self.extents[count - 1].words += 1;
            return Ok(());
        }
        self.extents.push(Extent {
            address,
            first: first as u32,
            words: 1,
        })?;
        if self.contents.push(word).is_err() {
            self.extents.pop();
            return Err(AllocError);
        }
        Ok(())
    }

    /// How many segments there are.
    pub fn count(&self) -> usize
        ensures { result ≡ length self.now }
    {
        self.extents.len()
    }

    /// The address of a segment.
    pub fn address(&self, i: usize) -> u32
        requires { i < length self.now }
        ensures { result ≡ (slice_index_or self.now i no_segment).address }
    {
        self.extents[i].address
    }

    /// The words of a segment.
    pub fn words(&self, i: usize) -> &[u32]
        requires { i < length self.now }
        ensures { result.now ≡ (slice_index_or self.now i no_segment).words }
    {
        let extent = self.extents[i];
        let first = extent.first as usize;
        &self.contents[first..first + extent.words as usize]
    }
}

/// Where the words of the next segment lie, in order behind those of the one before it.
#[tactic(auto, unfolding(crate::specs::Reading::range_behind_at))]
fn range_behind(
    row: u32,
    before: Option<WordRange>,
    bounds: Bounds,
    bytes: &[u8],
) -> Result<(WordRange, &[u8]), ImageEnd>
    ensures { Gives (λ x. (x.0, x.1.now)) result
        (range_behind_at bounds.size bounds.ram row before bytes.now) }
{
    let (range, rest) = range_of(6, bounds, bytes)?;
    if !in_place(range, before) {
        return Err(ImageEnd::Bad(ImageError::Order(1, row)));
    }
    Ok((range, rest))
}

/// Adds that many words to the others: what stands behind them.
fn words_of<'a>(
    contents: &mut Room<u32>,
    count: u32,
    size: usize,
    bytes: &'a [u8],
) -> Result<&'a [u8], ImageEnd>
    requires { HasPlacesFor count 4 (length bytes.now) contents.old }
    ensures read { Gives (λ rest. (contents.new.items, rest.now)) result
        (with_prefix contents.old.items (times count (number_at w32 size) bytes.now)) }
    ensures places { contents.new.places ≡ contents.old.places }
{
    let mut rest = bytes;
    for _ in 0..count {
        let (word, after) = number_of(size, rest)?;
        contents.push(word);
        rest = after;
    }
    Ok(rest)
}

/// That many segments, one behind the other.
fn segments_of(
    rooms: Rooms,
    count: u32,
    bounds: Bounds,
    bytes: &[u8],
) -> Result<(Segments, &[u8]), ImageEnd>
    ensures { Gives (λ x. (x.0, x.1.now)) result
        (rows_at count (segment_at bounds.size bounds.ram) bytes.now) }
{
    // A row takes at least the bytes of an extent, and the words of all rows together lie in the RAM.
    let most_words = bounds.ram as usize / 4;
    let mut extents: Room<Extent> = rooms.room_for(count as usize, bytes)?;
    let mut contents: Room<u32> = rooms.room_for(most_words, bytes)?;
    let mut before = None;
    let mut rest = bytes;
    for row in 0..count {
        let (range, after) = range_behind(row, before, bounds, rest)?;
        let first = contents.len() as u32;
        rest = words_of(&mut contents, range.words, bounds.size, after)?;
        extents.push(Extent {
            address: range.address,
            first,
            words: range.words,
        });
        before = Some(range);
    }
    let segments = Segments {
        extents: extents.into_items(),
        contents: contents.into_items(),
    };
    Ok((segments, rest))
}

/// The first list: a count, and that many segments.
#[tactic(auto, unfolding(crate::specs::Reading::list_at))]
pub(crate) fn segment_list_of(
    rooms: Rooms,
    bounds: Bounds,
    bytes: &[u8],
) -> Result<(Segments, &[u8]), ImageEnd>
    ensures { Gives (λ x. (x.0, x.1.now)) result
        (list_at bounds.size (segment_at bounds.size bounds.ram) bytes.now) }
{
    let (count, rest) = number_of(bounds.size, bytes)?;
    segments_of(rooms, count, bounds, rest)
}
