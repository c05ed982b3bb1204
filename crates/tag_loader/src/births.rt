//! What an image says of its words.

ghost use Rattle.std.specs.Prelude.{◌≡◌, ℕ, ◌*◌, ◌<◌, ◌≤◌};
ghost use Rattle.std.specs.List.{find};
ghost use Rattle.std.specs.Option.{is_some};
ghost use Rattle.tag_loader.specs.Births.{birth_by, birth_of, id_of, is_labelled_by, is_owned_by, lies_in, lies_in_heap};
ghost use Rattle.tag_loader.specs.Walks.{birth_end, from_on, heap_end, words_end};

use crate::owners::{OwnerWalk, owner_at};
use crate::sorted::{NO_END, Run, row_at};
use crate::walks::Walk;
use image_format::{Image, Label, OwnedRange, WideCompartmentRange, WordRange};
use policy_trait::{Birth, CompartmentSet};
use std::marker::Model;

/// What the image says of the word at `address`: its compartment, whether it is code, its label, and whether it lies in
/// the heap region.
#[tactic(auto, unfolding(crate::specs::Births::birth_of))]
pub fn birth(image: &Image, address: u32) -> Birth
    ensures { result ≡ birth_of image.now address }
{
    let code = is_code(image, address);
    let label = label_at(image, address);
    let heap = heap_run(image, address).value;
    birth_from(owner_of(image, address), code, label, heap)
}

/// The birth of a word of which the lists say this. Outside the compartments' rows, owner and masks are 0.
fn birth_from(
    owner: Option<WideCompartmentRange>,
    code: bool,
    label: Option<Label>,
    heap: bool,
) -> Birth
    ensures { result ≡ birth_by owner code (id_of label) heap }
{
    let label = match label {
        None => None,
        Some(label) => Some(label.id),
    };
    match owner {
        None => Birth {
            owner: 0,
            into: CompartmentSet::empty(),
            write: CompartmentSet::empty(),
            code,
            label,
            heap,
        },
        Some(row) => Birth {
            owner: row.owner(),
            into: CompartmentSet::of_bits(row.into_mask()),
            write: CompartmentSet::of_bits(row.write_mask()),
            code,
            label,
            heap,
        },
    }
}

/// Whether the address lies in the heap region, and up to where this is so.
fn heap_run(image: &Image, address: u32) -> Run<bool>
    ensures told { (at : ℕ) → address ≤ at → at < result.end →
        lies_in_heap image.now at ≡ result.value }
    ensures some { address < result.end }
    ensures end { result.end ≡ heap_end image.now address }
{
    let base = u64::from(image.heap_base());
    let past = base + u64::from(image.heap_bytes());
    let place = u64::from(address);
    if place < base {
        Run {
            value: false,
            end: base,
        }
    } else if place < past {
        Run {
            value: true,
            end: past,
        }
    } else {
        Run {
            value: false,
            end: NO_END,
        }
    }
}

/// Whether some code range holds the address.
fn is_code(image: &Image, address: u32) -> bool
    ensures { result ≡ is_some (find (lies_in address) image.now.code) }
{
    row_at(image.code(), address).is_some()
}

/// The compartment's row that holds the address.
fn owner_of(image: &Image, address: u32) -> Option<WideCompartmentRange>
    ensures { result ≡ find (is_owned_by address) image.now.compartments }
{
    owner_at(image.compartments(), address)
}

/// The label of the address.
fn label_at(image: &Image, address: u32) -> Option<Label>
    ensures { result ≡ find (is_labelled_by address) image.now.labels }
{
    row_at(image.labels(), address)
}

/// Words, one behind another, of which an image says the same.
#[derive(Clone, Copy)]
pub struct WordRun {
    /// What it says of each of them.
    pub birth: Birth,
    /// The number of the first word behind them.
    pub end: u32,
}

/// An image that is asked for the births of one run of words after another, each no lower than the one before: it goes through
/// each list once. Contracts see it as the image with the rows that its lists still have.
#[derive(Drop)]
pub struct BirthWalk<'a> {
    image: &'a Image,
    compartments: OwnerWalk<'a>,
    code: Walk<'a, WordRange>,
    labels: Walk<'a, Label>,
}

impl<'a> Model for BirthWalk<'a> {
    ghost use Rattle.image_format.specs.Picture.{Picture};
    ghost use Rattle.tag_loader.specs.Owners.{rows_left};

    ghost Value = { Picture };

    ghost view = { λ walk. record walk.image.now {
      code = walk.code;
      labels = walk.labels;
      compartments = rows_left walk.compartments;
    } };
}

impl<'a> BirthWalk<'a> {
    /// A walk through the whole image.
    pub fn new(image: &'a Image) -> BirthWalk<'a>
        ensures { result ≡ image.now }
    {
        BirthWalk {
            image,
            compartments: OwnerWalk::new(image.compartments()),
            code: Walk::new(image.code()),
            labels: Walk::new(image.labels()),
        }
    }

    /// The words from word `n` on of which the image says the same, up to where a row or the heap region begins or ends, or
    /// memory does. What is left says the same as before of each address from theirs on.
    pub fn words_from(&mut self, n: u32) -> WordRun
        requires { 4 * n < self.old.ram }
        ensures told { (k : ℕ) → n ≤ k → k < result.end →
            birth_of self.old (4 * k) ≡ result.birth }
        ensures some { n < result.end }
        ensures end { result.end ≡ words_end self.old n }
        ensures within { 4 * result.end ≤ self.old.ram }
        ensures left { self.new ≡ from_on self.old (4 * n) }
        ensures ram { self.new.ram ≡ self.old.ram }
        ensures later { (at : ℕ) → 4 * n ≤ at → birth_of self.new at ≡ birth_of self.old at }
    {
        let ram = self.image.ram();
        let run = self.run_at(4 * n);
        let end = run.end.min(u64::from(ram)).div_ceil(4);
        WordRun {
            birth: run.value,
            end: end as u32,
        }
    }

    /// What the image says of the word at `address`, and up to where it says so. What is left says the same as before of each
    /// address from this one on.
    fn run_at(&mut self, address: u32) -> Run<Birth>
        ensures told { (at : ℕ) → address ≤ at → at < result.end →
            birth_of self.old at ≡ result.value }
        ensures some { address < result.end }
        ensures end { result.end ≡ birth_end (from_on self.old address) address }
        ensures left { self.new ≡ from_on self.old address }
        ensures later { (at : ℕ) → address ≤ at → birth_of self.new at ≡ birth_of self.old at }
    {
        let owner = self.compartments.run_at(address);
        let code = self.code.run_at(address);
        let label = self.labels.run_at(address);
        let heap = heap_run(self.image, address);
        Run {
            value: birth_from(owner.value, code.value.is_some(), label.value, heap.value),
            end: owner.end.min(code.end).min(label.end).min(heap.end),
        }
    }
}
