//! The row of a sorted list that an address belongs to.

ghost use Rattle.std.specs.Prelude.{◌≡◌, ℕ, ◌<◌, ◌≤◌, length, nat_le, true, false};
ghost use Rattle.std.specs.List.{find};
ghost use Rattle.std.specs.List.Sorted.{IsPartitionPoint};
ghost use Rattle.tag_loader.specs.Sorted.{Ascends, BeginsUnended, first_end, holds, label_first, label_past, owned_first, owned_past, range_first, range_past};

use image_format::{CompartmentRange, Label, OwnedRange, WideCompartmentRange, WordRange};

/// A row that belongs to the addresses from one on up to another.
pub(crate) trait Placed: Copy {
    ghost first: { Self → ℕ };

    ghost past: { Self → ℕ };

    /// The first address.
    fn start(&self) -> u32
        ensures { result ≡ first self.now };

    /// The one past the last.
    fn end(&self) -> u64
        ensures { result ≡ past self.now };
}

impl Placed for WordRange {
    ghost first = { range_first };

    ghost past = { range_past };

    fn start(&self) -> u32 {
        self.address
    }

    fn end(&self) -> u64 {
        u64::from(self.address) + 4 * u64::from(self.words)
    }
}

impl Placed for CompartmentRange {
    ghost first = { owned_first };

    ghost past = { owned_past };

    fn start(&self) -> u32 {
        self.range().start()
    }

    fn end(&self) -> u64 {
        self.range().end()
    }
}

impl Placed for WideCompartmentRange {
    ghost first = { owned_first };

    ghost past = { owned_past };

    fn start(&self) -> u32 {
        self.range().start()
    }

    fn end(&self) -> u64 {
        self.range().end()
    }
}

impl Placed for Label {
    ghost first = { label_first };

    ghost past = { label_past };

    fn start(&self) -> u32 {
        self.address
    }

    fn end(&self) -> u64 {
        u64::from(self.address) + 1
    }
}

/// How many rows end before the address or at it: the first ones. They are counted in a logarithm of all rows' number.
fn ended<R: Placed>(rows: &[R], address: u32) -> usize
    requires { Ascends R.first R.past rows.now }
    ensures point { IsPartitionPoint (λ row. nat_le (R.past row) address ≡ true)
        (λ row. nat_le (R.past row) address ≡ false) rows.now result }
    ensures most { result ≤ length rows.now }
{
    rows.partition_point(|row| row.end() <= u64::from(address))
}

/// The row that the address belongs to. It is found in a logarithm of the rows' number.
pub(crate) fn row_at<R: Placed>(rows: &[R], address: u32) -> Option<R>
    requires { Ascends R.first R.past rows.now }
    ensures { result ≡ find (holds R.first R.past address) rows.now }
{
    first_run(&rows[ended(rows, address)..], address).value
}

/// What is so from an address on, up to another.
#[derive(Clone, Copy)]
pub(crate) struct Run<T> {
    /// What is so of each of these addresses.
    pub(crate) value: T,
    /// The first address of which it need not be so; 2^32 where it is so of all.
    pub(crate) end: u64,
}

/// The `end` of what is so of all addresses.
pub(crate) const NO_END: u64 = 1 << 32;

/// The row that the address belongs to, if it is the first of the rows, or none: those behind it begin later. This is so up
/// to where that row begins or ends.
pub(crate) fn first_run<R: Placed>(rows: &[R], address: u32) -> Run<Option<R>>
    requires ascends { Ascends R.first R.past rows.now }
    requires unended { BeginsUnended R.past address rows.now }
    ensures told { (at : ℕ) → address ≤ at → at < result.end →
        find (holds R.first R.past at) rows.now ≡ result.value }
    ensures some { address < result.end }
    ensures end { result.end ≡ first_end R.first R.past address rows.now }
{
    let Some(row) = rows.first() else {
        return Run {
            value: None,
            end: NO_END,
        };
    };
    if row.start() <= address {
        Run {
            value: Some(*row),
            end: row.end(),
        }
    } else {
        Run {
            value: None,
            end: u64::from(row.start()),
        }
    }
}
