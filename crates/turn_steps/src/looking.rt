//! The checks of a turn that no policy decides, in three steps: fetch, decode, and the checks of the
//! effect; and the tags that the rule is asked with then.

ghost use Rattle.std.specs.Prelude.{◌≡◌, ℕ, ◌+◌, ◌%◌, ◌≤◌, Ok, IfOk, IfSome, IsFalse, OnOk, false, true};
ghost use Rattle.rv_step.specs.Accesses.{EndsWithin};
ghost use Rattle.turn_steps.specs.Effects.{IsSound};
ghost use Rattle.tag_memory.specs.Ram.{RamState, ram_bytes};
ghost use Rattle.turn_steps.specs.Looks.{access_tag, effect_on, inputs_on};
ghost use Rattle.turn_steps.specs.Looks.{checked_look, fetch_result, is_system, is_system_instr, look_result, read_instr, unless_system};

use crate::look::Look;
use crate::registers::{reg, reg_tag_at};
use policy_trait::{Ins, InsAt};
use rv_decode::{Instr, Places, Register, decode};
use rv_step::{Access, Action, Fault, act};
use tag_memory::{Hart, Ram};

/// The word at the pc. The only fault is that of the fetch, at a pc past the end of memory.
#[inline(always)]
pub fn fetch<T: Copy>(hart: &Hart<T>, ram: &Ram<T>) -> Result<u32, Fault>
    ensures value { result ≡ fetch_result hart.now ram.now }
    ensures within { OnOk result (hart.now.pc + 4 ≤ ram_bytes ram.now) }
{
    let pc = hart.pc();
    if pc >= ram.bytes() {
        return Err(Fault::Fetch(pc));
    }
    Ok(ram.word(pc))
}

/// The instruction of a word. The only fault is that of an illegal word, which has none.
#[inline(always)]
pub fn decoded(word: u32) -> Result<Instr, Fault>
    ensures { result ≡ read_instr word }
{
    decode(word).ok_or(Fault::Illegal(word))
}

/// What the hart is about to do by the instruction, or the first fault of alignment and range of the
/// access, and alignment of the jump, in this order. The word is the one at the pc, and the instruction
/// that of the word.
#[inline(always)]
pub fn checked<T: Copy>(
    hart: &Hart<T>,
    ram: &Ram<T>,
    word: u32,
    instr: &Instr,
) -> Result<Look, Fault>
    ensures value { result ≡ checked_look hart.now ram.now word instr.now }
    ensures safe { IfOk result (λ look. IsSound (ram_bytes ram.now) look.effect) }
{
    let service = reg(hart, Register::A7);
    let group = instr.group(service);
    let places = instr.places(service);
    let effect = effect_of(hart, instr, &places);
    effect.check(ram.bytes())?;
    Ok(Look {
        word,
        effect,
        service,
        group,
        places,
    })
}

/// What the hart is about to do, or the first fault of fetch, decode and checks, in this order (RISC-V
/// unprivileged ISA; the order is this project's profile).
#[inline(always)]
#[tactic(auto, unfolding(crate::specs::Looks::look_result))]
pub fn look_ahead<T: Copy>(hart: &Hart<T>, ram: &Ram<T>) -> Result<Look, Fault>
    ensures value { result ≡ look_result hart.now ram.now }
    ensures within { OnOk result (hart.now.pc + 4 ≤ ram_bytes ram.now) }
    ensures safe { IfOk result (λ look. IsSound (ram_bytes ram.now) look.effect) }
{
    let word = fetch(hart, ram)?;
    let instr = decoded(word)?;
    if is_system(&instr) {
        return Ok(system_look(hart, word, &instr));
    }
    checked(hart, ram, word, &instr)
}

/// What the hart is about to do by an ECALL or an EBREAK, which no check stops: it makes no access and doesn't jump. The word is the
/// one at the pc, and the instruction that of the word.
#[inline(always)]
#[tactic(auto, using(crate::proofs::StepLemmas::system_checked, crate::proofs::StepLemmas::system_sound))]
fn system_look<T: Copy>(hart: &Hart<T>, word: u32, instr: &Instr) -> Look
    requires { is_system_instr instr.now ≡ true }
    ensures value { (ram : RamState T) → checked_look hart.now ram word instr.now ≡ Ok result }
    ensures safe { (bytes : ℕ) → IsSound bytes result.effect }
{
    let service = reg(hart, Register::A7);
    Look {
        word,
        effect: Action::passing(hart.pc()),
        service,
        group: instr.group(service),
        places: instr.places(service),
    }
}

/// What the hart is about to do, where every check passes and it makes neither an ECALL nor an EBREAK, the SYSTEM instructions (RISC-V
/// unprivileged ISA); `None` else. Whether it makes one is asked of the instruction: the compiler knows that from its decoding.
// It looks at the instruction where its decoding left it: a copy would be one number of 64 bits, whose case the compiler doesn't know.
#[inline(always)]
#[tactic(auto, using(crate::proofs::StepLemmas::step_checked), unfolding(crate::specs::Looks::look_result))]
pub fn step_look<T: Copy>(hart: &Hart<T>, ram: &Ram<T>) -> Option<Look>
    ensures value { result ≡ unless_system (look_result hart.now ram.now) }
    ensures looked { IfSome result (λ look. look_result hart.now ram.now ≡ Ok look) }
    ensures plain { IfSome result (λ look. is_system look.group ≡ false) }
    ensures within { IfSome result (λ look. hart.now.pc + 4 ≤ ram_bytes ram.now) }
    ensures safe { IfSome result (λ look. IsSound (ram_bytes ram.now) look.effect) }
{
    let Ok(word) = fetch(hart, ram) else {
        return None;
    };
    let found = decode(word);
    let Some(instr) = &found else {
        return None;
    };
    if is_system(instr) {
        return None;
    }
    match checked(hart, ram, word, instr) {
        Ok(look) => Some(look),
        Err(_) => None,
    }
}

/// Whether the instruction is an ECALL or an EBREAK.
#[inline(always)]
fn is_system(instr: &Instr) -> bool
    ensures { result ≡ is_system_instr instr.now }
{
    matches!(instr, Instr::Ecall | Instr::Ebreak)
}

/// What the instruction computes of its operands.
#[inline(always)]
fn effect_of<T: Copy>(hart: &Hart<T>, instr: &Instr, places: &Places) -> Action
    ensures value { result ≡ effect_on hart.now instr.now places.now }
    ensures onward { IsFalse result.taken → result.next % 4 ≡ 0 }
{
    let first = reg(hart, places.first);
    let second = reg(hart, places.second);
    act(instr, hart.pc(), first, second)
}

/// The five tags that the rule is asked with, as hart and memory stand: of the pc, of the word there, of the two operands,
/// and of the memory word that holds the access. The look is one of this hart, whose pc and access are in memory.
#[inline(always)]
pub fn inputs_of<T: Copy>(hart: &Hart<T>, ram: &Ram<T>, look: &Look) -> Ins<T>
    requires fetched { hart.now.pc + 4 ≤ ram_bytes ram.now }
    requires in_memory { EndsWithin (ram_bytes ram.now) look.now.effect.access }
    ensures { result ≡ inputs_on hart.now ram.now look.now.places look.now.effect.access }
{
    inputs_at(hart, ram, look).read()
}

/// Where the five tags of `inputs_of` stand.
#[inline]
pub fn inputs_at<'a, T: Copy>(hart: &'a Hart<T>, ram: &'a Ram<T>, look: &Look) -> InsAt<'a, T>
    requires fetched { hart.now.pc + 4 ≤ ram_bytes ram.now }
    requires in_memory { EndsWithin (ram_bytes ram.now) look.now.effect.access }
    ensures { result ≡ inputs_on hart.now ram.now look.now.places look.now.effect.access }
{
    InsAt::new(
        hart.pc_tag_at(),
        ram.tag_at(hart.pc()),
        reg_tag_at(hart, look.places.first),
        reg_tag_at(hart, look.places.second),
        memory_tag_at(ram, hart.plain_at(), look.effect.access()),
    )
}

/// Where the tag of the memory word stands that holds the access; without an access, where the plain tag does.
#[inline(always)]
fn memory_tag_at<'a, T: Copy>(ram: &'a Ram<T>, plain: &'a T, access: Access) -> &'a T
    requires { EndsWithin (ram_bytes ram.now) access }
    ensures { result.now ≡ access_tag ram.now plain.now access }
{
    match access {
        Access::None => plain,
        Access::Load { addr, .. } | Access::Store { addr, .. } => ram.tag_at(addr - addr % 4),
    }
}
