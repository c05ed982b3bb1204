//! What a line adds to an image.

ghost use Rattle.std.specs.Prelude.{◌≡◌, ◌≤◌, ◌&&◌, ℕ, IfOk, Option};
ghost use Rattle.std.specs.FinMap as map;
ghost use Rattle.image_format.specs.declared.version.Version.{Version};
ghost use Rattle.image_format.specs.Conditions.{is_heap_base, is_heap_bytes, is_place};
ghost use Rattle.asm_words.specs.Emission.{count_of};
ghost use Rattle.asm_places.specs.Counts.{count_in};
ghost use Rattle.asm_emit.specs.Kept.{IsAddition};
ghost use Rattle.asm_emit.specs.Values.{addition_in, addition_of, compartment_at, edge_at, entry_at, heap_at, id_at, label_at, mask_within, number_within, words_at};

use crate::marks::Protection;
use asm_places::Layout;
use asm_read::{AsmErrorKind, Statement, Target};
use asm_words::laws::count_law;
use asm_words::{Emission, Names, address_of, emission_of};
use image_format::Version;

/// What a line adds to an image. Addresses and sizes are in bytes.
#[derive(Clone, Copy)]
pub enum Addition {
    Nothing,
    /// Words at the line's place.
    Words(Emission),
    /// Where the heap region lies, and how long it is.
    Heap { base: u32, bytes: u32 },
    /// Where a hart starts.
    Entry { hart: u32, address: u32 },
    /// The words from here on are code.
    Code,
    /// The words from here on are no code.
    Data,
    /// The label of the next word.
    Label(u32),
    /// An allowed way from label to label.
    Edge { source: u32, target: u32 },
    /// The protection of the words from here on.
    Compartment(Protection),
}

/// The number, if it lies from 0 to `most`.
fn number_within(most: u32, number: i64) -> Result<u32, AsmErrorKind>
    ensures { result ≡ number_within most number }
{
    if number < 0 || number > i64::from(most) {
        return Err(AsmErrorKind::Range);
    }
    Ok(number as u32)
}

/// The set of compartments, if an image of the version may have all of them.
fn mask_within(version: Version, mask: Option<u128>) -> Result<u128, AsmErrorKind>
    ensures { result ≡ mask_within version mask }
{
    let most = match version {
        Version::One => u128::from(u32::MAX),
        Version::Two => u128::MAX,
    };
    match mask {
        Some(mask) if mask <= most => Ok(mask),
        _ => Err(AsmErrorKind::Range),
    }
}

/// The number, if four bytes can hold it.
fn id_of(number: i64) -> Result<u32, AsmErrorKind>
    ensures { result ≡ id_at number }
{
    number_within(u32::MAX, number)
}

/// Whether the heap region may lie there.
fn is_heap(ram: u32, base: u32, bytes: u32) -> bool
    ensures { result ≡ (is_heap_base ram base && is_heap_bytes ram base bytes) }
{
    let end = u64::from(base) + u64::from(bytes);
    base % 4 == 0 && base <= ram && bytes % 4 == 0 && end <= u64::from(ram)
}

/// `.heap B, N`.
#[tactic(auto, unfolding(crate::specs::Values::heap_at))]
fn heap_of(ram: u32, base: i64, bytes: i64) -> Result<Addition, AsmErrorKind>
    ensures value { result ≡ heap_at ram base bytes }
    ensures fits { (version : Version) (harts : ℕ) (count : Option ℕ) →
        IfOk result (IsAddition version harts ram count) }
{
    let base = id_of(base)?;
    let bytes = id_of(bytes)?;
    if !is_heap(ram, base, bytes) {
        return Err(AsmErrorKind::Range);
    }
    Ok(Addition::Heap { base, bytes })
}

/// Whether it is the address of a word of the RAM.
fn is_place(ram: u32, address: u32) -> bool
    ensures { result ≡ is_place ram address }
{
    address % 4 == 0 && address < ram
}

/// `.entry H, T`.
#[tactic(auto, unfolding(crate::specs::Values::entry_at))]
fn entry_of<'a>(
    layout: &Layout,
    names: &Names<'a>,
    hart: i64,
    target: &Target<'a>,
) -> Result<Addition, AsmErrorKind>
    requires { 1 ≤ layout.now.harts }
    ensures value { result ≡
        entry_at layout.now.harts layout.now.ram (map.get names.now) hart target.now }
    ensures fits { (version : Version) (count : Option ℕ) →
        IfOk result (IsAddition version layout.now.harts layout.now.ram count) }
{
    let address = address_of(names, target)?;
    let hart = number_within(layout.harts - 1, hart)?;
    if !is_place(layout.ram, address) {
        return Err(AsmErrorKind::Range);
    }
    Ok(Addition::Entry { hart, address })
}

/// `.label ID`.
#[tactic(auto, unfolding(crate::specs::Values::label_at))]
fn label_of(id: i64) -> Result<Addition, AsmErrorKind>
    ensures value { result ≡ label_at id }
    ensures fits { (version : Version) (harts ram : ℕ) (count : Option ℕ) →
        IfOk result (IsAddition version harts ram count) }
{
    let id = id_of(id)?;
    Ok(Addition::Label(id))
}

/// `.edge S, D`.
#[tactic(auto, unfolding(crate::specs::Values::edge_at))]
fn edge_of(source: i64, target: i64) -> Result<Addition, AsmErrorKind>
    ensures value { result ≡ edge_at source target }
    ensures fits { (version : Version) (harts ram : ℕ) (count : Option ℕ) →
        IfOk result (IsAddition version harts ram count) }
{
    let source = id_of(source)?;
    let target = id_of(target)?;
    Ok(Addition::Edge { source, target })
}

/// `.comp O, I, W`.
#[tactic(auto, unfolding(crate::specs::Values::compartment_at))]
fn compartment_of(
    version: Version,
    owner: i64,
    into: Option<u128>,
    write: Option<u128>,
) -> Result<Addition, AsmErrorKind>
    ensures value { result ≡ compartment_at version owner into write }
    ensures fits { (harts ram : ℕ) (count : Option ℕ) →
        IfOk result (IsAddition version harts ram count) }
{
    let owner = number_within(version.compartment_limit() - 1, owner)?;
    let into = mask_within(version, into)?;
    let write = mask_within(version, write)?;
    Ok(Addition::Compartment(Protection { owner, into, write }))
}

/// The words of the statement.
#[tactic(auto, unfolding(crate::specs::Values::words_at))]
fn words_of<'a>(
    names: &Names<'a>,
    place: u32,
    statement: &Statement<'a>,
) -> Result<Addition, AsmErrorKind>
    ensures value { result ≡ words_at (map.get names.now) place statement.now }
    ensures fits { (version : Version) (harts ram : ℕ) →
        IfOk result (IsAddition version harts ram (count_of statement.now)) }
{
    count_law();
    let emission = emission_of(names, place, statement)?;
    Ok(Addition::Words(emission))
}

/// What a statement at a place adds, or what is wrong with the numbers that it gives: a name without a place, or else a range.
#[tactic(auto, unfolding(crate::specs::Values::addition_of))]
fn addition_of<'a>(
    layout: &Layout,
    names: &Names<'a>,
    place: u32,
    statement: &Statement<'a>,
) -> Result<Addition, AsmErrorKind>
    requires { 1 ≤ layout.now.harts }
    ensures value { result ≡ addition_of layout.now.version
        layout.now.harts layout.now.ram (map.get names.now) place statement.now }
    ensures fits { IfOk result (IsAddition layout.now.version
        layout.now.harts layout.now.ram (count_of statement.now)) }
{
    match statement {
        Statement::Heap { base, bytes } => heap_of(layout.ram, *base, *bytes),
        Statement::Entry { hart, target } => entry_of(layout, names, *hart, target),
        Statement::Text => Ok(Addition::Code),
        Statement::Data => Ok(Addition::Data),
        Statement::Label(id) => label_of(*id),
        Statement::Edge {
            source,
            destination,
        } => edge_of(*source, *destination),
        Statement::Compartment { owner, into, write } => {
            compartment_of(layout.version, *owner, *into, *write)
        }
        Statement::Registers { .. }
        | Statement::Immediate { .. }
        | Statement::Shift { .. }
        | Statement::Upper { .. }
        | Statement::Load { .. }
        | Statement::Store { .. }
        | Statement::Branch { .. }
        | Statement::Jump { .. }
        | Statement::JumpRegister { .. }
        | Statement::Fence
        | Statement::Ecall
        | Statement::Ebreak
        | Statement::LoadNumber { .. }
        | Statement::LoadAddress { .. }
        | Statement::Version(_)
        | Statement::Harts(_)
        | Statement::Ram(_)
        | Statement::Origin(_)
        | Statement::Word(_)
        | Statement::Zeros(_) => words_of(names, place, statement),
    }
}

/// What a line at a place adds, of which the statement is given.
pub(crate) fn addition_in<'a>(
    layout: &Layout,
    names: &Names<'a>,
    place: u32,
    statement: &Option<Statement<'a>>,
) -> Result<Addition, AsmErrorKind>
    requires { 1 ≤ layout.now.harts }
    ensures value { result ≡ addition_in layout.now.version
        layout.now.harts layout.now.ram (map.get names.now) place statement.now }
    ensures fits { IfOk result (IsAddition layout.now.version
        layout.now.harts layout.now.ram (count_in statement.now)) }
{
    match statement {
        None => Ok(Addition::Nothing),
        Some(statement) => addition_of(layout, names, place, statement),
    }
}
