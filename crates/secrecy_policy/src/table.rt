//! The table of secrecy, and what its rows say.

ghost use Rattle.std.specs.Prelude.{◌≡◌};
ghost use Rattle.secrecy_policy.specs.Secrecy.{free, has_first, has_second, has_word, is_fit, is_open, meets_row, merged_tag, needing, refused_for, row_ignores, row_of, tag_from};

use crate::tag::SecretTag;
use policy_trait::{InsAt, Mask, Part, Refused, Why};
use rv_decode::Group;

/// Where the tag of a result is from.
#[derive(Clone, Copy)]
pub(crate) enum Source {
    /// From nowhere: the result is open, or there is none.
    Nowhere,
    /// From the first operand.
    First,
    /// From either operand.
    FirstOrSecond,
    /// From the second operand, the value that is stored.
    Second,
    /// From the memory word that is loaded from.
    Word,
    /// From the second operand, or from the rest of the memory word that it goes into.
    SecondOrWord,
}

/// A row of the table: which operands a group needs open, and its result.
#[derive(Clone, Copy)]
pub(crate) struct Row {
    /// Whether the first operand has to be open.
    first: bool,
    /// Whether the second operand has to be open.
    second: bool,
    /// Where the result's tag is from.
    result: Source,
}

/// The group's row.
pub(crate) fn row_of(group: Group) -> Row
    ensures { result ≡ row_of group }
{
    match group {
        Group::Move | Group::AddImm | Group::AluImm => free(Source::First),
        Group::Add | Group::Sub | Group::Alu => free(Source::FirstOrSecond),
        Group::LoadWord | Group::LoadPart => needing(true, false, Source::Word),
        Group::StoreWord => needing(true, false, Source::Second),
        Group::StorePart => needing(true, false, Source::SecondOrWord),
        Group::Jalr => needing(true, false, Source::Nowhere),
        Group::Branch | Group::Exit | Group::Put => needing(true, true, Source::Nowhere),
        Group::Get | Group::Call => needing(false, true, Source::Nowhere),
        Group::Const | Group::Here | Group::Jal | Group::Fence | Group::Break => {
            free(Source::Nowhere)
        }
    }
}

/// The row of a group that allows every operand.
fn free(source: Source) -> Row
    ensures { result ≡ free source }
{
    needing(false, false, source)
}

/// The row of a group that needs these operands open.
fn needing(first: bool, second: bool, source: Source) -> Row
    ensures { result ≡ needing first second source }
{
    Row {
        first,
        second,
        result: source,
    }
}

/// Whether the tag is that of what may be told.
pub(crate) fn is_open(tag: SecretTag) -> bool
    ensures { result ≡ is_open tag }
{
    matches!(tag, SecretTag::Open)
}

/// Whether the tag is open where it has to be.
fn is_fit(needed: bool, tag: SecretTag) -> bool
    ensures { result ≡ is_fit needed tag }
{
    !needed || is_open(tag)
}

/// The tag of what is computed from two values with these tags: secret where one of them is.
fn merged_tag(one: SecretTag, other: SecretTag) -> SecretTag
    ensures { result ≡ merged_tag one other }
{
    match one {
        SecretTag::Open => other,
        SecretTag::Secret => SecretTag::Secret,
    }
}

/// A refusal by this policy.
pub(crate) fn refused(why: Why) -> Refused
    ensures { result ≡ refused_for why }
{
    Refused {
        part: Part::Secret,
        why,
    }
}

impl Source {
    /// Whether the tag of the first operand is looked at; `has_second` and `has_word` say it of the second one and of the
    /// memory word.
    fn has_first(self) -> bool
        ensures { result ≡ has_first self }
    {
        matches!(self, Source::First | Source::FirstOrSecond)
    }

    fn has_second(self) -> bool
        ensures { result ≡ has_second self }
    {
        matches!(
            self,
            Source::Second | Source::FirstOrSecond | Source::SecondOrWord
        )
    }

    fn has_word(self) -> bool
        ensures { result ≡ has_word self }
    {
        matches!(self, Source::Word | Source::SecondOrWord)
    }

    /// The tag of a result that is from there.
    fn tag(self, inputs: &InsAt<'_, SecretTag>) -> SecretTag
        ensures { result ≡ tag_from self inputs.now }
    {
        match self {
            Source::Nowhere => SecretTag::Open,
            Source::First => *inputs.t1,
            Source::FirstOrSecond => merged_tag(*inputs.t1, *inputs.t2),
            Source::Second => *inputs.t2,
            Source::Word => *inputs.tm,
            Source::SecondOrWord => merged_tag(*inputs.t2, *inputs.tm),
        }
    }
}

impl Row {
    /// Whether the instruction's word is open, and each operand that has to be.
    pub(crate) fn is_met(&self, inputs: &InsAt<'_, SecretTag>) -> bool
        ensures { result ≡ meets_row self.now inputs.now }
    {
        is_open(*inputs.ci) && is_fit(self.first, *inputs.t1) && is_fit(self.second, *inputs.t2)
    }

    /// The tag of the result.
    pub(crate) fn tag(&self, inputs: &InsAt<'_, SecretTag>) -> SecretTag
        ensures { result ≡ tag_from self.now.result inputs.now }
    {
        self.result.tag(inputs)
    }

    /// Which inputs are ignored: the pc's tag, and each other that neither has to be open nor is in the result.
    pub(crate) fn mask(&self) -> Mask
        ensures { result ≡ row_ignores self.now }
    {
        Mask {
            pc: true,
            ci: false,
            t1: !(self.first || self.result.has_first()),
            t2: !(self.second || self.result.has_second()),
            tm: !self.result.has_word(),
        }
    }
}
