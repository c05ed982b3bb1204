//! The calls of a row.

ghost use Rattle.std.specs.Prelude.{◌≡◌, ◌+◌, ◌*◌, max, IfOk, OnOk, vec_len};

use crate::rows::Row;
use std::alloc::{AllocError, Global};

/// The words of a call that keeps so many rules.
fn words_with(alloc: Global, words: &Vec<String>, cache: u64) -> Result<Vec<String>, AllocError> {
    let mut all = words.clone()?;
    all.push(String::from_str(alloc, "--cache")?)?;
    all.push(format!(in alloc; "{cache}")?)?;
    Ok(all)
}

/// Puts a call behind others: with each of these numbers of kept rules, or as it stands where there is none.
fn add_calls(
    alloc: Global,
    calls: &mut Vec<Vec<String>>,
    words: &Vec<String>,
    caches: &Vec<u64>,
) -> Result<(), AllocError>
    ensures { OnOk result (vec_len calls.new ≡ vec_len calls.old + max 1 (vec_len caches.now)) }
{
    if caches.is_empty() {
        calls.push(words.clone()?)?;
        return Ok(());
    }
    for cache in caches {
        calls.push(words_with(alloc, words, *cache)?)?;
    }
    Ok(())
}

/// The words of each call of a row, in their order.
pub fn calls_of(alloc: Global, row: &Row) -> Result<Vec<Vec<String>>, AllocError>
    ensures { IfOk result (λ calls.
        vec_len calls ≡ vec_len row.now.calls * max 1 (vec_len row.now.caches)) }
{
    let mut calls = Vec::new(alloc);
    for words in &row.calls {
        add_calls(alloc, &mut calls, words, &row.caches)?;
    }
    Ok(calls)
}
