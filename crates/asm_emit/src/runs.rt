//! Runs of words, and labels of words.

ghost use Rattle.std.specs.Prelude.{◌≡◌, ◌==◌, [], IsTrue, OnOk, Option};
ghost use Rattle.std.specs.Option.{option_map};
ghost use Rattle.image_format.specs.declared.version.Version.TheVariants.{One, Two};
ghost use Rattle.image_format.specs.Compartments.{rows_of, version_of};
ghost use Rattle.asm_emit.specs.Kept.{is_protection};
ghost use Rattle.asm_emit.specs.Runs.{is_same_protection, joined_compartment, joined_range, one_word_range, protected_range, protection_of, range_end, with_code, with_label, with_protected, with_run};

use crate::marks::Protection;
use image_format::{
    CompartmentRange, CompartmentRanges, Label, OwnedRange, Version, WideCompartmentRange,
    WordRange,
};
use std::alloc::{AllocError, Global};

/// Words one behind the other that are alike.
trait Run: Copy {
    ghost fits: { Self → Type 0 };

    ghost joins: { Self → Self → Option Self };

    /// The run that it is together with the next word, whose marks fit; `None` where they are two.
    fn joined(self, next: Self) -> Option<Self>
        requires { fits next }
        ensures { result ≡ joins self next };
}

/// Whether the words end at the address.
fn is_up_to(range: WordRange, address: u32) -> bool
    ensures { result ≡ (range_end range == address) }
{
    u64::from(range.address) + 4 * u64::from(range.words) == u64::from(address)
}

impl Run for WordRange {
    ghost fits = { λ _. Unit {0} };

    ghost joins = { joined_range };

    fn joined(self, next: WordRange) -> Option<WordRange> {
        if !is_up_to(self, next.address) {
            return None;
        }
        Some(WordRange {
            address: self.address,
            words: self.words + 1,
        })
    }
}

/// Who may do what with the words.
fn protection_of<R: OwnedRange>(owned: R) -> Protection
    ensures { result ≡ protection_of (R.OwnedRange.row owned) }
{
    Protection {
        owner: owned.owner(),
        into: owned.into_mask(),
        write: owned.write_mask(),
    }
}

/// The words under the protection.
fn protected_range<R: OwnedRange>(protection: Protection, range: WordRange) -> R
    requires { IsTrue (is_protection R.OwnedRange.version protection) }
    ensures { R.OwnedRange.row result ≡ protected_range protection range }
{
    R::new(range, protection.owner, protection.into, protection.write)
}

/// The words of both rows under the one protection that both have; `None` where they are two.
fn joined_rows<R: OwnedRange>(last: R, next: R) -> Option<R>
    requires { IsTrue (is_protection R.OwnedRange.version
        (protection_of (R.OwnedRange.row next))) }
    ensures { option_map R.OwnedRange.row result ≡
        joined_compartment (R.OwnedRange.row last) (R.OwnedRange.row next) }
{
    let protection = protection_of(last);
    if protection != protection_of(next) {
        return None;
    }
    match last.range().joined(next.range()) {
        Some(range) => Some(protected_range(protection, range)),
        None => None,
    }
}

impl Run for CompartmentRange {
    ghost fits = { λ row. IsTrue (is_protection One (protection_of row)) };

    ghost joins = { joined_compartment };

    fn joined(self, next: CompartmentRange) -> Option<CompartmentRange> {
        joined_rows(self, next)
    }
}

impl Run for WideCompartmentRange {
    ghost fits = { λ row. IsTrue (is_protection Two (protection_of row)) };

    ghost joins = { joined_compartment };

    fn joined(self, next: WideCompartmentRange) -> Option<WideCompartmentRange> {
        joined_rows(self, next)
    }
}

/// The word at an address.
fn one_word(address: u32) -> WordRange
    ensures { result ≡ one_word_range address }
{
    WordRange { address, words: 1 }
}

/// Appends the next word.
///
/// Only running out of memory is an error.
fn put_run<R: Run>(runs: &mut Vec<R>, next: R) -> Result<(), AllocError>
    requires { R.fits next }
    ensures { OnOk result (runs.new.items ≡ with_run R.joins runs.old.items next) }
{
    let count = runs.len();
    if count == 0 {
        runs.push(next)?;
        return Ok(());
    }
    match runs[count - 1].joined(next) {
        Some(run) => {
            runs[count - 1] = run;
            Ok(())
        }
        None => {
            runs.push(next)?;
            Ok(())
        }
    }
}

/// Appends the word at an address, where it is code.
///
/// Only running out of memory is an error.
pub(crate) fn put_code(
    code: &mut Vec<WordRange>,
    is_code: bool,
    address: u32,
) -> Result<(), AllocError>
    ensures { OnOk result (code.new.items ≡ with_code is_code code.old.items address) }
{
    if is_code {
        return put_run(code, one_word(address));
    }
    Ok(())
}

/// No rows, for an image of the version.
pub(crate) fn no_rows(alloc: Global, version: Version) -> CompartmentRanges
    ensures version { version_of result ≡ version }
    ensures rows { rows_of result ≡ [] }
{
    match version {
        Version::One => CompartmentRanges::Narrow(Vec::new(alloc)),
        Version::Two => CompartmentRanges::Wide(Vec::new(alloc)),
    }
}

/// Appends the word at an address, where it is protected.
///
/// Only running out of memory is an error.
pub(crate) fn put_protected(
    rows: &mut CompartmentRanges,
    protection: Protection,
    address: u32,
) -> Result<(), AllocError>
    requires { IsTrue (is_protection (version_of rows.old) protection) }
    ensures version { version_of rows.new ≡ version_of rows.old }
    ensures rows { OnOk result (rows_of rows.new ≡
        with_protected protection (rows_of rows.old) address) }
{
    if protection == Protection::NONE {
        return Ok(());
    }
    let word = one_word(address);
    match rows {
        CompartmentRanges::Narrow(rows) => put_run(rows, protected_range(protection, word)),
        CompartmentRanges::Wide(rows) => put_run(rows, protected_range(protection, word)),
    }
}

/// Appends the label of the word at an address, where it has one.
///
/// Only running out of memory is an error.
pub(crate) fn put_label(
    labels: &mut Vec<Label>,
    label: Option<u32>,
    address: u32,
) -> Result<(), AllocError>
    ensures { OnOk result (labels.new.items ≡ with_label label labels.old.items address) }
{
    match label {
        Some(id) => {
            labels.push(Label { address, id })?;
            Ok(())
        }
        None => Ok(()),
    }
}
