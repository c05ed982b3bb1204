//! The table of taint, and what its rows say.

ghost use Rattle.std.specs.Prelude.{◌≡◌};
ghost use Rattle.taint_policy.specs.Taint.{guarded_row, has_first, has_second, has_word, is_clean, meets_row, merged_tag, open_row, refusal_for, row_ignores, row_of, tag_from};

use crate::tag::TaintTag;
use policy_trait::{Ins, Mask, Part, Refused, Why};
use rv_decode::Group;

/// Where the taint of a result is from.
#[derive(Clone, Copy)]
pub(crate) enum Source {
    /// From nowhere: the result is clean, or there is none.
    Nowhere,
    /// From the input: the result is tainted.
    Input,
    /// From the first operand.
    First,
    /// From either operand.
    FirstOrSecond,
    /// From the first operand, the address of a load, or from the memory word.
    FirstOrWord,
    /// From the second operand, the value that is stored.
    Second,
    /// From the second operand, or from the rest of the memory word that it goes into.
    SecondOrWord,
}

/// A row of the table: what a group needs, and its result.
#[derive(Clone, Copy)]
pub(crate) struct Row {
    /// Whether the first operand has to be clean: it is the address of a jump or of a store.
    is_guarded: bool,
    /// Where the result's taint is from.
    result: Source,
}

/// The group's row.
pub(crate) fn row_of(group: Group) -> Row
    ensures { result ≡ row_of group }
{
    match group {
        Group::Const
        | Group::Here
        | Group::Jal
        | Group::Branch
        | Group::Fence
        | Group::Exit
        | Group::Put
        | Group::Break
        | Group::Call => open_row(Source::Nowhere),
        Group::Get => open_row(Source::Input),
        Group::Move | Group::AddImm | Group::AluImm => open_row(Source::First),
        Group::Add | Group::Sub | Group::Alu => open_row(Source::FirstOrSecond),
        Group::LoadWord | Group::LoadPart => open_row(Source::FirstOrWord),
        Group::Jalr => guarded_row(Source::Nowhere),
        Group::StoreWord => guarded_row(Source::Second),
        Group::StorePart => guarded_row(Source::SecondOrWord),
    }
}

/// The row of a group that allows every operand.
fn open_row(source: Source) -> Row
    ensures { result ≡ open_row source }
{
    Row {
        is_guarded: false,
        result: source,
    }
}

/// The row of a group that jumps to its first operand or stores there.
fn guarded_row(source: Source) -> Row
    ensures { result ≡ guarded_row source }
{
    Row {
        is_guarded: true,
        result: source,
    }
}

/// Whether the tag is that of what does not come from the input.
fn is_clean(tag: TaintTag) -> bool
    ensures { result ≡ is_clean tag }
{
    matches!(tag, TaintTag::Clean)
}

/// The tag of what is computed from two values with these tags: tainted where one of them is.
fn merged_tag(one: TaintTag, other: TaintTag) -> TaintTag
    ensures { result ≡ merged_tag one other }
{
    match one {
        TaintTag::Clean => other,
        TaintTag::Tainted => TaintTag::Tainted,
    }
}

/// A refusal by this policy.
pub(crate) fn refusal(why: Why) -> Refused
    ensures { result ≡ refusal_for why }
{
    Refused {
        part: Part::Own,
        why,
    }
}

impl Source {
    /// Whether the tag of the first operand is looked at; `has_second` and `has_word` say it of the second one and of the
    /// memory word.
    fn has_first(self) -> bool
        ensures { result ≡ has_first self }
    {
        matches!(
            self,
            Source::First | Source::FirstOrSecond | Source::FirstOrWord
        )
    }

    fn has_second(self) -> bool
        ensures { result ≡ has_second self }
    {
        matches!(
            self,
            Source::Second | Source::FirstOrSecond | Source::SecondOrWord
        )
    }

    fn has_word(self) -> bool
        ensures { result ≡ has_word self }
    {
        matches!(self, Source::FirstOrWord | Source::SecondOrWord)
    }

    /// The tag of a result with its taint from there.
    fn tag(self, inputs: &Ins<TaintTag>) -> TaintTag
        ensures { result ≡ tag_from self inputs.now }
    {
        match self {
            Source::Nowhere => TaintTag::Clean,
            Source::Input => TaintTag::Tainted,
            Source::First => inputs.t1,
            Source::FirstOrSecond => merged_tag(inputs.t1, inputs.t2),
            Source::FirstOrWord => merged_tag(inputs.t1, inputs.tm),
            Source::Second => inputs.t2,
            Source::SecondOrWord => merged_tag(inputs.t2, inputs.tm),
        }
    }
}

impl Row {
    /// Whether the instruction's word is clean, and the first operand where it has to be.
    pub(crate) fn is_met(&self, inputs: &Ins<TaintTag>) -> bool
        ensures { result ≡ meets_row self.now inputs.now }
    {
        is_clean(inputs.ci) && (!self.is_guarded || is_clean(inputs.t1))
    }

    /// The tag of the result.
    pub(crate) fn tag(&self, inputs: &Ins<TaintTag>) -> TaintTag
        ensures { result ≡ tag_from self.now.result inputs.now }
    {
        self.result.tag(inputs)
    }

    /// Which inputs are ignored: the pc's tag, and each other that neither has to be clean nor taints the result.
    pub(crate) fn mask(&self) -> Mask
        ensures { result ≡ row_ignores self.now }
    {
        Mask {
            pc: true,
            ci: false,
            t1: !(self.is_guarded || self.result.has_first()),
            t2: !self.result.has_second(),
            tm: !self.result.has_word(),
        }
    }
}
