//! The table of sealing, and what its rows say.

ghost use Rattle.std.specs.Prelude.{◌≡◌};
ghost use Rattle.sealing_policy.specs.Sealing.{free, is_data, is_fit, meets_row, refused_for, row_ignores, row_of, tag_from};

use crate::tag::SealTag;
use policy_trait::{InsAt, Mask, Part, Refused, Why};
use rv_decode::Group;

/// Where the tag of a result is from.
#[derive(Clone, Copy)]
pub(crate) enum Source {
    /// From nowhere: it is the plain tag.
    Plain,
    /// The first operand.
    OfFirst,
    /// The second operand.
    OfSecond,
    /// The memory word.
    OfWord,
}

/// A row of the table: what a group needs, and its result.
#[derive(Clone, Copy)]
pub(crate) struct Row {
    /// Whether the first operand has to be data; `second` and `word` say it of the second one and of the memory word.
    first: bool,
    second: bool,
    word: bool,
    /// Where the result's tag is from.
    result: Source,
}

/// The group's row.
pub(crate) fn row_of(group: Group) -> Row
    ensures { result ≡ row_of group }
{
    match group {
        Group::Const | Group::Here | Group::Jal | Group::Fence | Group::Break => {
            needs(false, false, false)
        }
        Group::Move => needs(false, false, false).giving(Source::OfFirst),
        Group::LoadWord => needs(true, false, false).giving(Source::OfWord),
        Group::LoadPart => needs(true, false, true),
        Group::StoreWord => needs(true, false, false).giving(Source::OfSecond),
        Group::StorePart => needs(true, true, true),
        Group::Jalr | Group::AddImm | Group::AluImm => needs(true, false, false),
        Group::Branch
        | Group::Add
        | Group::Sub
        | Group::Alu
        | Group::Exit
        | Group::Put
        | Group::Get => needs(true, true, false),
        Group::Call => needs(false, true, false),
    }
}

/// The row of a group that needs these to be data, and whose result is data.
fn needs(first: bool, second: bool, word: bool) -> Row
    ensures { result ≡ record free { first = first; second = second; word = word } }
{
    Row {
        first,
        second,
        word,
        result: Source::Plain,
    }
}

/// Whether the tag is that of ordinary data.
pub(crate) fn is_data(tag: SealTag) -> bool
    ensures { result ≡ is_data tag }
{
    matches!(tag, SealTag::Data)
}

/// Whether the tag is data where it has to be.
fn is_fit(needed: bool, tag: SealTag) -> bool
    ensures { result ≡ is_fit needed tag }
{
    !needed || is_data(tag)
}

/// A refusal by this policy.
pub(crate) fn refused(why: Why) -> Refused
    ensures { result ≡ refused_for why }
{
    Refused {
        part: Part::Seal,
        why,
    }
}

impl Row {
    /// The row with the result's tag from there.
    fn giving(self, source: Source) -> Row
        ensures { result ≡ record self { result = source } }
    {
        Row {
            result: source,
            ..self
        }
    }

    /// Whether the instruction is data, and all that has to be data.
    pub(crate) fn is_met(&self, inputs: &InsAt<'_, SealTag>) -> bool
        ensures { result ≡ meets_row self.now inputs.now }
    {
        is_data(*inputs.ci)
            && is_fit(self.first, *inputs.t1)
            && is_fit(self.second, *inputs.t2)
            && is_fit(self.word, *inputs.tm)
    }

    /// The tag of the result.
    pub(crate) fn tag(&self, inputs: &InsAt<'_, SealTag>) -> SealTag
        ensures { result ≡ tag_from self.now.result inputs.now }
    {
        match self.result {
            Source::Plain => SealTag::Data,
            Source::OfFirst => *inputs.t1,
            Source::OfSecond => *inputs.t2,
            Source::OfWord => *inputs.tm,
        }
    }

    /// Which inputs are ignored: the pc's tag, and each operand that neither has to be data nor gives the result its tag.
    pub(crate) fn mask(&self) -> Mask
        ensures { result ≡ row_ignores self.now }
    {
        Mask {
            pc: true,
            ci: false,
            t1: !(self.first || matches!(self.result, Source::OfFirst)),
            t2: !(self.second || matches!(self.result, Source::OfSecond)),
            tm: !(self.word || matches!(self.result, Source::OfWord)),
        }
    }
}
