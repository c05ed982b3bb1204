//! Lists of one item over and over.

ghost use Rattle.std.specs.Prelude.{◌≡◌, IfOk, replicate};

use std::alloc::{AllocError, Global};

/// A list of `count` copies of `item`.
pub(crate) fn filled<T: Copy>(alloc: Global, item: T, count: usize) -> Result<Vec<T>, AllocError>
    ensures { IfOk result (λ list. list.items ≡ replicate count item) }
{
    let mut list = Vec::with_capacity(alloc, count)?;
    for _ in 0..count {
        list.push(item)?;
    }
    Ok(list)
}
