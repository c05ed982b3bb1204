//! A walk through a sorted list, from row to row.

ghost use Rattle.std.specs.Prelude.{◌≡◌, ℕ, ◌<◌, ◌≤◌};
ghost use Rattle.std.specs.List.{find};
ghost use Rattle.tag_loader.specs.Sorted.{Ascends, first_end, holds, rows_past};

use crate::sorted::{Placed, Run, first_run};
use std::marker::Model;

/// The rows from the first on that ends behind the address. Those before it are passed one by one.
fn without_ended<R: Placed>(rows: &[R], address: u32) -> &[R]
    ensures { result.now ≡ rows_past R.past address rows.now }
{
    let mut left = rows;
    while let [row, rest @ ..] = left {
        if u64::from(address) < row.end() {
            break;
        }
        left = rest;
    }
    left
}

/// A sorted list that is asked for the rows of one address after another, each no lower than the one before. All of them
/// together take as many steps as there are addresses and rows. Contracts see it as the rows that it still has.
#[derive(Drop)]
pub(crate) struct Walk<'a, R: Placed> {
    rows: &'a [R],
}

impl<'a, R: Placed> Model for Walk<'a, R> {
    ghost use Rattle.std.specs.Prelude.{List};
    ghost use Rattle.tag_loader.specs.Sorted.{Ascends};

    ghost Value = { List R };

    ghost view = { λ walk. walk.rows.now };

    ghost invariant = { λ walk. Ascends R.first R.past walk.rows.now };
}

impl<'a, R: Placed> Walk<'a, R> {
    /// A walk over all the rows.
    pub(crate) fn new(rows: &'a [R]) -> Walk<'a, R>
        requires { Ascends R.first R.past rows.now }
        ensures { result ≡ rows.now }
    {
        Walk { rows }
    }

    /// The row that the address belongs to, and up to where this is so. What is left tells the same as before of each address
    /// from this one on.
    pub(crate) fn run_at(&mut self, address: u32) -> Run<Option<R>>
        ensures told { (at : ℕ) → address ≤ at → at < result.end →
            find (holds R.first R.past at) self.old ≡ result.value }
        ensures some { address < result.end }
        ensures end { result.end
            ≡ first_end R.first R.past address (rows_past R.past address self.old) }
        ensures left { self.new ≡ rows_past R.past address self.old }
        ensures later { (at : ℕ) → address ≤ at →
            find (holds R.first R.past at) self.new ≡ find (holds R.first R.past at) self.old }
    {
        self.rows = without_ended(self.rows, address);
        first_run(self.rows, address)
    }
}
