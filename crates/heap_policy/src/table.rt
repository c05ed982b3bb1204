//! The table of heap safety: what the groups do with pointers, and what that asks of the tags.

ghost use Rattle.std.specs.Prelude.{◌≡◌};
ghost use Rattle.heap_policy.specs.Heap.{content_of, difference, effect_of, word_content, holding, ignores_by, is_reached, is_static, is_val, load_content, refused_for, result_by, tag_after_store, sum, tag_of, val_where, wipe_tag};

use crate::tag::{Content, HeapTag};
use policy_trait::{Mask, Part, Refused, Why};
use rv_decode::Group;

/// What a group does that the policy looks at.
#[derive(Clone, Copy)]
pub(crate) enum Effect {
    /// It goes on, whatever the operands are.
    GoesOn,
    /// It takes the first operand as a value.
    TakesFirst,
    /// It takes the second operand as a value.
    TakesSecond,
    /// It takes both operands as values.
    TakesBoth,
    /// It moves the first operand, or moves a pointer by a number.
    Moves,
    /// It loads a memory word.
    Loads,
    /// It loads a part of a memory word.
    LoadsPart,
    /// It stores a memory word.
    Stores,
    /// It stores a part of a memory word.
    StoresPart,
    /// It adds two registers.
    Adds,
    /// It subtracts one register from another.
    Subtracts,
}

/// What the group does.
pub(crate) fn effect_of(group: Group) -> Effect
    ensures { result ≡ effect_of group }
{
    match group {
        Group::Const | Group::Here | Group::Jal | Group::Branch | Group::Fence | Group::Break => {
            Effect::GoesOn
        }
        Group::Jalr | Group::AluImm => Effect::TakesFirst,
        Group::Get | Group::Call => Effect::TakesSecond,
        Group::Alu | Group::Exit | Group::Put => Effect::TakesBoth,
        Group::Move | Group::AddImm => Effect::Moves,
        Group::LoadWord => Effect::Loads,
        Group::LoadPart => Effect::LoadsPart,
        Group::StoreWord => Effect::Stores,
        Group::StorePart => Effect::StoresPart,
        Group::Add => Effect::Adds,
        Group::Sub => Effect::Subtracts,
    }
}

impl Effect {
    /// The tag of the result, where the operands and the memory word have these tags; `None` where the policy does not
    /// allow them.
    #[inline(always)]
    pub(crate) fn result(self, first: HeapTag, second: HeapTag, word: HeapTag) -> Option<HeapTag>
        ensures { result ≡ result_by self first second word }
    {
        match self {
            Effect::GoesOn => Some(HeapTag::Val),
            Effect::TakesFirst => val_where(is_val(first)),
            Effect::TakesSecond => val_where(is_val(second)),
            Effect::TakesBoth => val_where(is_val(first) && is_val(second)),
            Effect::Moves => Some(tag_of(content_of(first)?)),
            Effect::Loads => Some(tag_of(loaded(first, word)?)),
            Effect::LoadsPart => val_where(is_reached(first, word)),
            Effect::Stores => stored(first, word, content_of(second)?),
            Effect::StoresPart => stored(first, word, Content::Val),
            Effect::Adds => sum(first, second),
            Effect::Subtracts => difference(first, second),
        }
    }

    /// Which inputs are ignored: the pc's tag, and the operands and the memory word where nothing is asked of them.
    pub(crate) fn mask(self) -> Mask
        ensures { result ≡ ignores_by self }
    {
        let (t1, t2, tm) = match self {
            Effect::GoesOn => (true, true, true),
            Effect::TakesFirst | Effect::Moves => (false, true, true),
            Effect::TakesSecond => (true, false, true),
            Effect::TakesBoth | Effect::Adds | Effect::Subtracts => (false, false, true),
            Effect::Loads | Effect::LoadsPart | Effect::StoresPart => (false, true, false),
            Effect::Stores => (false, false, false),
        };
        Mask {
            pc: true,
            ci: false,
            t1,
            t2,
            tm,
        }
    }
}

/// Whether the tag is that of an ordinary value in a register.
pub(crate) fn is_val(tag: HeapTag) -> bool
    ensures { result ≡ is_val tag }
{
    matches!(tag, HeapTag::Val)
}

/// Whether the tag is that of a memory word outside the heap region.
pub(crate) fn is_static(tag: HeapTag) -> bool
    ensures { result ≡ is_static tag }
{
    matches!(tag, HeapTag::Static(_))
}

/// The tag of an ordinary value, where that is allowed.
fn val_where(allowed: bool) -> Option<HeapTag>
    ensures { result ≡ val_where allowed }
{
    allowed.then_some(HeapTag::Val)
}

/// What a register with this tag holds; `None` for the tag of a memory word.
fn content_of(tag: HeapTag) -> Option<Content>
    ensures { result ≡ content_of tag }
{
    match tag {
        HeapTag::Val => Some(Content::Val),
        HeapTag::Ptr(block) => Some(Content::Ptr(block)),
        _ => None,
    }
}

/// The tag of a register that holds this.
fn tag_of(content: Content) -> HeapTag
    ensures { result ≡ tag_of content }
{
    match content {
        Content::Val => HeapTag::Val,
        Content::Ptr(block) => HeapTag::Ptr(block),
    }
}

/// What a memory word with this tag holds; `None` for a free word, and for the tag of a register.
fn held(word: HeapTag) -> Option<Content>
    ensures { result ≡ word_content word }
{
    match word {
        HeapTag::Static(content) | HeapTag::Cell(_, content) => Some(content),
        _ => None,
    }
}

/// The tag of a memory word that holds this from now on; `None` for a free word, and for the tag of a register.
fn holding(content: Content, word: HeapTag) -> Option<HeapTag>
    ensures { result ≡ holding content word }
{
    match word {
        HeapTag::Static(_) => Some(HeapTag::Static(content)),
        HeapTag::Cell(block, _) => Some(HeapTag::Cell(block, content)),
        _ => None,
    }
}

/// Whether an address with this tag reaches a memory word with that one: a value reaches the words outside the heap
/// region, a pointer those of its block.
fn is_reached(address: HeapTag, word: HeapTag) -> bool
    ensures { result ≡ is_reached address word }
{
    match (address, word) {
        (HeapTag::Val, HeapTag::Static(_)) => true,
        (HeapTag::Ptr(block), HeapTag::Cell(owner, _)) => block == owner,
        _ => false,
    }
}

/// What is loaded from the word, where the address reaches it.
fn loaded(address: HeapTag, word: HeapTag) -> Option<Content>
    ensures { result ≡ load_content address word }
{
    if is_reached(address, word) {
        held(word)
    } else {
        None
    }
}

/// The word's tag once the content is stored there, where the address reaches it.
fn stored(address: HeapTag, word: HeapTag, content: Content) -> Option<HeapTag>
    ensures { result ≡ tag_after_store address word content }
{
    if is_reached(address, word) {
        holding(content, word)
    } else {
        None
    }
}

/// The tag of a sum: a pointer and a value make a pointer to the same block, and two pointers have no sum.
fn sum(first: HeapTag, second: HeapTag) -> Option<HeapTag>
    ensures { result ≡ sum first second }
{
    match (first, second) {
        (HeapTag::Val, HeapTag::Val) => Some(HeapTag::Val),
        (HeapTag::Ptr(block), HeapTag::Val) | (HeapTag::Val, HeapTag::Ptr(block)) => {
            Some(HeapTag::Ptr(block))
        }
        _ => None,
    }
}

/// The tag of a difference: a pointer less a value is a pointer to the same block, and a pointer less a pointer to the
/// same block is a value.
fn difference(first: HeapTag, second: HeapTag) -> Option<HeapTag>
    ensures { result ≡ difference first second }
{
    match (first, second) {
        (HeapTag::Val, HeapTag::Val) => Some(HeapTag::Val),
        (HeapTag::Ptr(block), HeapTag::Val) => Some(HeapTag::Ptr(block)),
        (HeapTag::Ptr(block), HeapTag::Ptr(other)) if block == other => Some(HeapTag::Val),
        _ => None,
    }
}

/// The new tag of a word that another policy's service zeroes. A word keeps its place: none becomes free, and a free one
/// stays free.
pub(crate) fn wiped(old: HeapTag) -> Result<HeapTag, Refused>
    ensures { result ≡ wipe_tag old }
{
    match old {
        HeapTag::Free => Ok(HeapTag::Free),
        _ => holding(Content::Val, old).ok_or(refused(Why::Consent)),
    }
}

/// A refusal by this policy.
pub(crate) fn refused(why: Why) -> Refused
    ensures { result ≡ refused_for why }
{
    Refused {
        part: Part::Heap,
        why,
    }
}
