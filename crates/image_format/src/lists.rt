//! The rows of an image's lists, read one behind the other.

ghost use Rattle.std.specs.Prelude.{◌≡◌, ℕ, Bool, ◌+◌, ◌<◌, ◌≤◌, Some, IfOk, length};
ghost use Rattle.std.proofs.Common.{arith};
ghost use Rattle.image_format.specs.Conditions.{is_clear_of, is_label_after, is_edge_after, is_compartment_after, in_order};
ghost use Rattle.image_format.specs.Reading.{Gives, Reads, range_at, label_at, edge_at, compartment_at, row_at, rows_at, list_at};

use crate::compartments::{CompartmentRange, OwnedRange, WideCompartmentRange};
use crate::errors::{ImageEnd, ImageError};
use crate::fields::{aligned_of, number_of, owner_of, place_of, wide_number_of, word_count_of};
use crate::room::{Kept, Room, Rooms};
use crate::rows::{Edge, Label, WordRange};
use crate::version::Version;

/// What rows are read under: the file's length, and the bytes of the RAM.
#[derive(Clone, Copy)]
pub(crate) struct Bounds {
    pub size: usize,
    pub ram: u32,
}

/// Where a row stands: the list's number, the row's own, and the row before it.
#[derive(Clone, Copy)]
pub(crate) struct RowPlace<R> {
    pub list: u8,
    pub row: u32,
    pub before: Option<R>,
}

/// A row of a list.
pub(crate) trait Row: Kept {
    ghost fields: { ℕ → ℕ → Reads Self };

    ghost follows: { Self → Self → Bool };

    /// The row at the front of the bytes.
    fn read(bounds: Bounds, bytes: &[u8]) -> Result<(Self, &[u8]), ImageEnd>
        ensures row { Gives (λ x. (x.0, x.1.now)) result
            (fields bounds.size bounds.ram bytes.now) }
        ensures takes { IfOk result (λ x. length x.1.now + Self.Kept.BYTES ≤ length bytes.now) };

    /// Whether the row may stand behind the other.
    fn is_after(self, before: Self) -> bool
        ensures { result ≡ follows before self };
}

/// A range whose address and words are the fields of these numbers.
#[tactic(auto, unfolding(crate::specs::Reading::range_at))]
pub(crate) fn range_of(
    field: u8,
    bounds: Bounds,
    bytes: &[u8],
) -> Result<(WordRange, &[u8]), ImageEnd>
    requires { field < 255 }
    ensures { Gives (λ x. (x.0, x.1.now)) result (range_at bounds.size bounds.ram field bytes.now) }
{
    let (address, rest) = aligned_of(field, bounds.size, bytes)?;
    let (words, rest) = word_count_of(field + 1, bounds.size, bounds.ram, address, rest)?;
    Ok((WordRange { address, words }, rest))
}

impl Kept for WordRange {
    ghost BYTES = { 8 };

    const BYTES: usize = size_of::<WordRange>();

    ghost has_bytes = { Prim.omega arith };
}

impl Row for WordRange {
    ghost fields = { λ size ram. range_at size ram 8 };

    ghost follows = { is_clear_of };

    fn read(bounds: Bounds, bytes: &[u8]) -> Result<(WordRange, &[u8]), ImageEnd> {
        range_of(8, bounds, bytes)
    }

    fn is_after(self, before: WordRange) -> bool {
        u64::from(before.address) + 4 * u64::from(before.words) <= u64::from(self.address)
    }
}

impl Kept for Label {
    ghost BYTES = { 8 };

    const BYTES: usize = size_of::<Label>();

    ghost has_bytes = { Prim.omega arith };
}

impl Row for Label {
    ghost fields = { label_at };

    ghost follows = { is_label_after };

    #[tactic(auto, unfolding(crate::specs::Reading::label_at))]
    fn read(bounds: Bounds, bytes: &[u8]) -> Result<(Label, &[u8]), ImageEnd> {
        let (address, rest) = place_of(10, bounds.size, bounds.ram, bytes)?;
        let (id, rest) = number_of(bounds.size, rest)?;
        Ok((Label { address, id }, rest))
    }

    fn is_after(self, before: Label) -> bool {
        before.address < self.address
    }
}

impl Kept for Edge {
    ghost BYTES = { 8 };

    const BYTES: usize = size_of::<Edge>();

    ghost has_bytes = { Prim.omega arith };
}

impl Row for Edge {
    ghost fields = { λ size _. edge_at size };

    ghost follows = { is_edge_after };

    #[tactic(auto, unfolding(crate::specs::Reading::edge_at), using(crate::proofs::RoomLemmas::edge_takes))]
    fn read(bounds: Bounds, bytes: &[u8]) -> Result<(Edge, &[u8]), ImageEnd> {
        let (source, rest) = number_of(bounds.size, bytes)?;
        let (target, rest) = number_of(bounds.size, rest)?;
        Ok((Edge { source, target }, rest))
    }

    fn is_after(self, before: Edge) -> bool {
        before.source < self.source || (before.source == self.source && before.target < self.target)
    }
}

impl Kept for CompartmentRange {
    ghost BYTES = { 20 };

    const BYTES: usize = size_of::<CompartmentRange>();

    ghost has_bytes = { Prim.omega arith };
}

impl Row for CompartmentRange {
    ghost use Rattle.image_format.specs.declared.version.Version.TheVariants.{One};

    ghost fields = { compartment_at One };

    ghost follows = { is_compartment_after };

    #[tactic(auto, unfolding(crate::specs::Reading::compartment_at))]
    fn read(bounds: Bounds, bytes: &[u8]) -> Result<(CompartmentRange, &[u8]), ImageEnd> {
        let (range, rest) = range_of(12, bounds, bytes)?;
        let (owner, rest) = owner_of(Version::One, bounds.size, rest)?;
        let (into, rest) = number_of(bounds.size, rest)?;
        let (write, rest) = number_of(bounds.size, rest)?;
        Ok((
            CompartmentRange {
                range,
                owner,
                into,
                write,
            },
            rest,
        ))
    }

    fn is_after(self, before: CompartmentRange) -> bool {
        self.range.is_after(before.range)
    }
}

impl Kept for WideCompartmentRange {
    ghost BYTES = { 44 };

    const BYTES: usize = size_of::<WideCompartmentRange>();

    ghost has_bytes = { Prim.omega arith };
}

impl Row for WideCompartmentRange {
    ghost use Rattle.image_format.specs.declared.version.Version.TheVariants.{Two};

    ghost fields = { compartment_at Two };

    ghost follows = { is_compartment_after };

    #[tactic(auto, unfolding(crate::specs::Reading::compartment_at))]
    fn read(bounds: Bounds, bytes: &[u8]) -> Result<(WideCompartmentRange, &[u8]), ImageEnd> {
        let (range, rest) = range_of(12, bounds, bytes)?;
        let (owner, rest) = owner_of(Version::Two, bounds.size, rest)?;
        let (into, rest) = wide_number_of(bounds.size, rest)?;
        let (write, rest) = wide_number_of(bounds.size, rest)?;
        Ok((WideCompartmentRange::new(range, owner, into, write), rest))
    }

    fn is_after(self, before: WideCompartmentRange) -> bool {
        self.range.is_after(before.range)
    }
}

/// Whether a row may stand at its place.
pub(crate) fn in_place<R: Row>(row: R, before: Option<R>) -> bool
    ensures { result ≡ in_order R.follows before row }
{
    match before {
        None => true,
        Some(before) => row.is_after(before),
    }
}

/// The row at the front of the bytes, in order behind the one before it.
#[tactic(auto, unfolding(crate::specs::Reading::row_at))]
fn row_of<R: Row>(place: RowPlace<R>, bounds: Bounds, bytes: &[u8]) -> Result<(R, &[u8]), ImageEnd>
    ensures row { Gives
        (λ x. (x.0, record { row = place.row + 1; before = Some x.0; bytes = x.1.now })) result
        (row_at place.list R.follows (R.fields bounds.size bounds.ram)
        (record { row = place.row; before = place.before; bytes = bytes.now })) }
    ensures takes { IfOk result (λ x. length x.1.now + R.BYTES ≤ length bytes.now) }
{
    let (row, rest) = R::read(bounds, bytes)?;
    if !in_place(row, place.before) {
        return Err(ImageEnd::Bad(ImageError::Order(place.list, place.row)));
    }
    Ok((row, rest))
}

/// That many rows, one behind the other.
fn rows_of<R: Row>(
    rooms: Rooms,
    list: u8,
    count: u32,
    bounds: Bounds,
    bytes: &[u8],
) -> Result<(Vec<R>, &[u8]), ImageEnd>
    ensures { Gives (λ x. (x.0.items, x.1.now)) result
        (rows_at count (row_at list R.follows (R.fields bounds.size bounds.ram)) bytes.now) }
{
    let mut rows: Room<R> = rooms.room_for(count as usize, bytes)?;
    let mut before = None;
    let mut rest = bytes;
    for row in 0..count {
        let place = RowPlace { list, row, before };
        let (next, after) = row_of(place, bounds, rest)?;
        rows.push(next);
        before = Some(next);
        rest = after;
    }
    Ok((rows.into_items(), rest))
}

/// A list behind the segments: a count, and that many rows.
#[tactic(auto, unfolding(crate::specs::Reading::list_at))]
pub(crate) fn list_of<R: Row>(
    rooms: Rooms,
    list: u8,
    bounds: Bounds,
    bytes: &[u8],
) -> Result<(Vec<R>, &[u8]), ImageEnd>
    ensures { Gives (λ x. (x.0.items, x.1.now)) result
        (list_at bounds.size
        (row_at list R.follows (R.fields bounds.size bounds.ram)) bytes.now) }
{
    let (count, rest) = number_of(bounds.size, bytes)?;
    rows_of(rooms, list, count, bounds, rest)
}
