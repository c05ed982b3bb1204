//! Words of the tags of all policies by hand, as tags come, are refused and are cut off.

ghost use Rattle.std.specs.Prelude.{◌≤◌};

use compartment_policy::CompartmentTag;
use flow_policy::FlowTag;
use heap_policy::HeapTag;
use part_tables::AllTable;
use policy_choice::AllTag;
use sealing_policy::SealTag;
use std::alloc::{AllocError, Global};
use std::test::Fail;
use tag_intern::{InternEnd, TagTable};

/// A tag of all policies.
#[derive(Clone, Copy)]
enum Named {
    /// It is plain to all policies.
    Plain,
    /// Its part of sealing alone is not plain.
    WithKey,
    /// Its part of compartments alone is not plain.
    WithOwner,
    /// Its part of control flow alone is not plain.
    WithLabel,
    /// Its part of heap safety alone is not plain.
    WithPointer,
    /// Each of its parts is in another tag here, too.
    KeyPointer,
    /// None of its parts is in another tag here: every policy is off.
    Nothing,
}

/// The part of sealing: that of a key, or the plain one.
fn seal_part(has_key: bool) -> Option<SealTag> {
    Some(if has_key {
        SealTag::Key(7)
    } else {
        SealTag::Data
    })
}

/// The part of compartments: that of a pc in a compartment, or the plain one.
fn comp_part(has_owner: bool) -> Option<CompartmentTag> {
    Some(if has_owner {
        CompartmentTag::Pc {
            owner: 7,
            jumped: false,
        }
    } else {
        CompartmentTag::Plain
    })
}

/// The part of control flow: that of a word of code with a label, or the plain one.
fn flow_part(has_label: bool) -> Option<FlowTag> {
    Some(if has_label {
        FlowTag::Code(Some(7))
    } else {
        FlowTag::Plain
    })
}

/// The part of heap safety: that of a pointer, or the plain one.
fn heap_part(has_pointer: bool) -> Option<HeapTag> {
    Some(if has_pointer {
        HeapTag::Ptr(7)
    } else {
        HeapTag::Val
    })
}

/// The tag with this name.
fn tag_of(named: Named) -> AllTag {
    if matches!(named, Named::Nothing) {
        return AllTag::of((None, (None, (None, None))));
    }
    let seal = seal_part(matches!(named, Named::WithKey | Named::KeyPointer));
    let comp = comp_part(matches!(named, Named::WithOwner));
    let flow = flow_part(matches!(named, Named::WithLabel));
    let heap = heap_part(matches!(named, Named::WithPointer | Named::KeyPointer));
    AllTag::of((seal, (comp, (flow, heap))))
}

/// A call of a table, and what it answers.
#[derive(Clone, Copy)]
enum Step {
    /// The tag comes.
    Comes(Named, Result<u32, InternEnd>),
    /// The tag is asked for its word.
    Has(Named, Option<u32>),
    /// The word is that of the tag, or it is no tag's word and the tag is `Nothing`.
    Reads(u32, Named),
    /// So many tags have words.
    Counts(u32),
    /// The first so many tags are left their words.
    Cut(u32),
}

/// Whether the table has so many tags that it can be cut to this length, and it is then.
pub(crate) fn is_cut<T: TagTable>(table: &mut T, len: u32) -> bool {
    let within = len <= table.len();
    if within {
        table.cut(len);
    }
    within
}

/// Whether the step goes as it says.
fn goes<T: TagTable<Tag = AllTag>>(table: &mut T, step: Step) -> bool {
    match step {
        Step::Comes(named, answer) => table.intern(tag_of(named)) == answer,
        Step::Has(named, word) => table.word_of(&tag_of(named)) == word,
        Step::Reads(word, named) => { table.tag_or(word, tag_of(Named::Nothing)) == tag_of(named) }
        Step::Counts(len) => table.len() == len,
        Step::Cut(len) => is_cut(table, len),
    }
}

/// The first of the steps that does not go as it says, at a table for so many tags.
fn first_wrong<T: TagTable<Tag = AllTag>>(
    alloc: Global,
    limit: u32,
    steps: &[Step],
) -> Result<Option<usize>, AllocError>
    requires { 1 ≤ limit }
{
    let mut table = T::made(alloc, limit)?;
    for (at, &step) in steps.iter().enumerate() {
        if !goes(&mut table, step) {
            return Ok(Some(at));
        }
    }
    Ok(None)
}

/// The same at a table of parts. Only this names all its tables, which the proof of each function that does so writes out.
#[inline(never)]
fn first_wrong_in_parts(
    alloc: Global,
    limit: u32,
    steps: &[Step],
) -> Result<Option<usize>, AllocError>
    requires { 1 ≤ limit }
{
    first_wrong::<AllTable>(alloc, limit, steps)
}

/// Tags that differ from the first in one part, and one that differs in two.
const SHARING: &[Step] = &[
    Step::Comes(Named::Plain, Ok(0)),
    Step::Comes(Named::WithKey, Ok(1)),
    Step::Comes(Named::WithOwner, Ok(2)),
    Step::Comes(Named::WithLabel, Ok(3)),
    Step::Comes(Named::WithPointer, Ok(4)),
    Step::Comes(Named::KeyPointer, Ok(5)),
    // each has its word still
    Step::Comes(Named::WithPointer, Ok(4)),
    Step::Comes(Named::WithLabel, Ok(3)),
    Step::Comes(Named::WithOwner, Ok(2)),
    Step::Comes(Named::WithKey, Ok(1)),
    Step::Comes(Named::Plain, Ok(0)),
    Step::Counts(6),
    Step::Has(Named::KeyPointer, Some(5)),
    Step::Has(Named::Nothing, None),
    Step::Reads(3, Named::WithLabel),
    Step::Reads(6, Named::Nothing),
];

#[test]
fn tags_that_share_parts_have_words_of_their_own(rt: HostRuntime) -> Result<(), Fail> {
    assert_eq!(rt; first_wrong_in_parts(rt.alloc(), 8, SHARING)?, None);
    Ok(())
}

/// Tags of which the first two are left, and what comes then.
const CUTTING: &[Step] = &[
    Step::Comes(Named::Plain, Ok(0)),
    Step::Comes(Named::WithKey, Ok(1)),
    Step::Comes(Named::WithOwner, Ok(2)),
    Step::Comes(Named::WithPointer, Ok(3)),
    Step::Cut(2),
    Step::Counts(2),
    Step::Has(Named::WithKey, Some(1)),
    Step::Has(Named::WithPointer, None),
    Step::Reads(2, Named::Nothing),
    Step::Comes(Named::WithPointer, Ok(2)),
    Step::Comes(Named::WithOwner, Ok(3)),
    Step::Comes(Named::WithKey, Ok(1)),
    Step::Comes(Named::Plain, Ok(0)),
];

#[test]
fn tags_that_a_cut_leaves_keep_their_words(rt: HostRuntime) -> Result<(), Fail> {
    assert_eq!(rt; first_wrong_in_parts(rt.alloc(), 8, CUTTING)?, None);
    Ok(())
}

/// Tags that fill a table for three, and what comes then.
const FILLING: &[Step] = &[
    Step::Comes(Named::Plain, Ok(0)),
    Step::Comes(Named::WithKey, Ok(1)),
    Step::Comes(Named::WithPointer, Ok(2)),
    // each part has a word, and the whole has no room
    Step::Comes(Named::KeyPointer, Err(InternEnd::Full)),
    Step::Comes(Named::Nothing, Err(InternEnd::Full)),
    // full, and yet a tag that is there is answered
    Step::Comes(Named::WithKey, Ok(1)),
    Step::Cut(1),
    Step::Comes(Named::Nothing, Ok(1)),
    Step::Comes(Named::KeyPointer, Ok(2)),
    Step::Comes(Named::WithPointer, Err(InternEnd::Full)),
];

#[test]
fn whole_tags_alone_fill_a_table(rt: HostRuntime) -> Result<(), Fail> {
    assert_eq!(rt; first_wrong_in_parts(rt.alloc(), 3, FILLING)?, None);
    Ok(())
}
