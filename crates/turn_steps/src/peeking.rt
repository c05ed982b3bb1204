//! What a turn looks at before its rule is asked, and who is asked whether it may.

ghost use Rattle.std.specs.Prelude.{◌≡◌, ◌+◌, ◌≤◌};
ghost use Rattle.tag_memory.specs.Ram.{ram_bytes};
ghost use Rattle.turn_steps.specs.Looks.{operand_tag};
ghost use Rattle.turn_steps.specs.Peeks.{looks_of, operands_at, operands_peeked, peeked, shape_of, shape_of_group};

use crate::look::Look;
use crate::looking::{decoded, fetch};
use crate::registers::{reg_tag, reg_tag_at};
use policy_trait::{Refused, Shape};
use rv_decode::{Group, Instr, Places, Register};
use tag_memory::{Hart, Ram};

/// Who is asked whether a turn may look at values with these tags: a policy by its own tags, or by what stands for them.
pub trait Peeks {
    ghost use Rattle.turn_steps.specs.Peeks.{Peek};

    type Tag: Copy;

    ghost answer: { Self → Peek Self.Tag };

    /// Whether a turn may look so at values with these tags, a look at one value with the plain tag as its second.
    fn answer(&self, shape: Shape, first: &Self::Tag, second: &Self::Tag) -> Result<(), Refused>
        ensures { result ≡ answer self.now shape first.now second.now };
}

/// What a turn whose checks pass looks at before its rule, by the tags of these values.
#[derive(Clone, Copy)]
pub struct Looks<T: Copy> {
    /// The tag of the word at the pc, which is decoded.
    pub word: T,
    /// What its instruction looks at; `None` where it looks at nothing.
    pub operands: Option<OperandLook<T>>,
}

/// How an instruction looks at its operands before its rule, and their tags.
#[derive(Clone, Copy)]
pub struct OperandLook<T: Copy> {
    /// How it looks at them.
    pub shape: Shape,
    /// The tag of the first.
    pub first: T,
    /// The tag of the second, the plain one where it looks at one value.
    pub second: T,
}

/// Asks whether the hart's turn may look at what it looks at before its rule: at the word at the pc, which is decoded, and at what that
/// instruction looks at. The first refusal is the answer. Where the turn stops by a fault of fetch or decode it looks no further.
#[tactic(auto, unfolding(crate::specs::Peeks::peeked))]
pub fn peeked<K: Peeks>(peeks: &K, hart: &Hart<K::Tag>, ram: &Ram<K::Tag>) -> Result<(), Refused>
    ensures { result ≡ peeked (K.answer peeks.now) hart.now ram.now }
{
    let Ok(word) = fetch(hart, ram) else {
        return Ok(());
    };
    peeks.answer(Shape::Word, ram.tag_at(hart.pc()), hart.plain_at())?;
    match decoded(word) {
        Ok(instr) => operands_peeked(peeks, hart, &instr),
        Err(_) => Ok(()),
    }
}

/// Asks whether the hart's turn may look at the operands of this instruction as it does before its rule.
fn operands_peeked<K: Peeks>(peeks: &K, hart: &Hart<K::Tag>, instr: &Instr) -> Result<(), Refused>
    ensures { result ≡ operands_peeked (K.answer peeks.now) hart.now instr.now }
{
    let Some(shape) = shape_of(instr) else {
        return Ok(());
    };
    let reads = instr.reads();
    let first = operand_tag_at(hart, reads.t1);
    let second = operand_tag_at(hart, reads.t2);
    let plain = hart.plain_at();
    match shape {
        Shape::Branch => peeks.answer(Shape::Branch, first, second),
        Shape::Call => peeks.answer(Shape::Call, second, plain),
        Shape::Word => peeks.answer(Shape::Word, first, plain),
        Shape::Load => peeks.answer(Shape::Load, first, plain),
        Shape::Store => peeks.answer(Shape::Store, first, plain),
        Shape::Jump => peeks.answer(Shape::Jump, first, plain),
    }
}

/// Where the tag of an operand stands; an absent one is plain.
fn operand_tag_at<T: Copy>(hart: &Hart<T>, operand: Option<Register>) -> &T
    ensures { result.now ≡ operand_tag hart.now operand }
{
    match operand {
        None => hart.plain_at(),
        Some(register) => reg_tag_at(hart, register),
    }
}

/// How an instruction looks at its operands before its rule is asked, if it does.
fn shape_of(instr: &Instr) -> Option<Shape>
    ensures { result ≡ shape_of instr.now }
{
    match instr {
        Instr::Lb { .. }
        | Instr::Lh { .. }
        | Instr::Lw { .. }
        | Instr::Lbu { .. }
        | Instr::Lhu { .. } => Some(Shape::Load),
        Instr::Sb { .. } | Instr::Sh { .. } | Instr::Sw { .. } => Some(Shape::Store),
        Instr::Jalr { .. } => Some(Shape::Jump),
        Instr::Beq { .. }
        | Instr::Bne { .. }
        | Instr::Blt { .. }
        | Instr::Bge { .. }
        | Instr::Bltu { .. }
        | Instr::Bgeu { .. } => Some(Shape::Branch),
        Instr::Ecall => Some(Shape::Call),
        _ => None,
    }
}

/// What the turn of a hart looks at before its rule, where its checks pass and this is what it is about to do.
#[inline]
pub fn looks_of<T: Copy>(hart: &Hart<T>, ram: &Ram<T>, look: &Look) -> Looks<T>
    requires { hart.now.pc + 4 ≤ ram_bytes ram.now }
    ensures { result ≡ looks_of hart.now ram.now look.now }
{
    let word = ram.tag(hart.pc());
    let operands = match shape_of_group(look.group) {
        None => None,
        Some(shape) => Some(operands_at(hart, &look.places, shape)),
    };
    Looks { word, operands }
}

/// The operands that an instruction with these places looks at so.
#[inline]
fn operands_at<T: Copy>(hart: &Hart<T>, places: &Places, shape: Shape) -> OperandLook<T>
    ensures { result ≡ operands_at hart.now places.now shape }
{
    let (first, second) = match shape {
        Shape::Branch => (reg_tag(hart, places.first), reg_tag(hart, places.second)),
        Shape::Call => (reg_tag(hart, places.second), hart.plain()),
        Shape::Word | Shape::Load | Shape::Store | Shape::Jump => {
            (reg_tag(hart, places.first), hart.plain())
        }
    };
    OperandLook {
        shape,
        first,
        second,
    }
}

/// How an instruction of this group looks at its operands before its rule is asked, if it does.
#[inline]
fn shape_of_group(group: Group) -> Option<Shape>
    ensures { result ≡ shape_of_group group }
{
    match group {
        Group::LoadWord | Group::LoadPart => Some(Shape::Load),
        Group::StoreWord | Group::StorePart => Some(Shape::Store),
        Group::Jalr => Some(Shape::Jump),
        Group::Branch => Some(Shape::Branch),
        Group::Exit | Group::Put | Group::Get | Group::Call => Some(Shape::Call),
        _ => None,
    }
}
