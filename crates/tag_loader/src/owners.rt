//! The compartment that owns an address, by rows of either version of the image.

ghost use Rattle.std.specs.Prelude.{◌≡◌, ℕ, ◌<◌, ◌≤◌};
ghost use Rattle.std.specs.List.{find};
ghost use Rattle.image_format.specs.Compartments.{lent_rows};
ghost use Rattle.tag_loader.specs.Owners.{rows_left};
ghost use Rattle.tag_loader.specs.Sorted.{Ascends, first_end, holds, owned_first, owned_past, rows_past};

use crate::sorted::{Run, row_at};
use crate::walks::Walk;
use image_format::{CompartmentRange, CompartmentRows, WideCompartmentRange};

/// The row as one of version 2.
fn widened(row: Option<CompartmentRange>) -> Option<WideCompartmentRange>
    ensures { result ≡ row }
{
    match row {
        Some(row) => Some(row.widened()),
        None => None,
    }
}

/// The row that holds the address. It is found in a logarithm of the rows' number.
pub(crate) fn owner_at(rows: CompartmentRows<'_>, address: u32) -> Option<WideCompartmentRange>
    requires { Ascends owned_first owned_past (lent_rows rows) }
    ensures { result ≡ find (holds owned_first owned_past address) (lent_rows rows.entry) }
{
    match rows {
        CompartmentRows::Narrow(rows) => widened(row_at(rows, address)),
        CompartmentRows::Wide(rows) => row_at(rows, address),
    }
}

/// A walk through the rows of compartments of either version, from row to row.
#[derive(Drop)]
pub(crate) enum OwnerWalk<'a> {
    /// Through those of version 1.
    Narrow(Walk<'a, CompartmentRange>),
    /// Through those of version 2.
    Wide(Walk<'a, WideCompartmentRange>),
}

impl<'a> OwnerWalk<'a> {
    /// A walk over all the rows.
    pub(crate) fn new(rows: CompartmentRows<'a>) -> OwnerWalk<'a>
        requires { Ascends owned_first owned_past (lent_rows rows) }
        ensures { rows_left result ≡ lent_rows rows.entry }
    {
        match rows {
            CompartmentRows::Narrow(rows) => OwnerWalk::Narrow(Walk::new(rows)),
            CompartmentRows::Wide(rows) => OwnerWalk::Wide(Walk::new(rows)),
        }
    }

    /// The row that the address belongs to, and up to where this is so. What is left tells the same as before of each address
    /// from this one on.
    pub(crate) fn run_at(&mut self, address: u32) -> Run<Option<WideCompartmentRange>>
        ensures told { (at : ℕ) → address ≤ at → at < result.end →
            find (holds owned_first owned_past at) (rows_left self.old) ≡ result.value }
        ensures some { address < result.end }
        ensures end { result.end ≡ first_end owned_first owned_past address
            (rows_past owned_past address (rows_left self.old)) }
        ensures left { rows_left self.new ≡ rows_past owned_past address (rows_left self.old) }
        ensures later { (at : ℕ) → address ≤ at →
            find (holds owned_first owned_past at) (rows_left self.new)
            ≡ find (holds owned_first owned_past at) (rows_left self.old) }
    {
        match self {
            OwnerWalk::Narrow(walk) => {
                let run = walk.run_at(address);
                Run {
                    value: widened(run.value),
                    end: run.end,
                }
            }
            OwnerWalk::Wide(walk) => walk.run_at(address),
        }
    }
}
