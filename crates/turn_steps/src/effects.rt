//! What an allowed instruction does.

ghost use Rattle.std.specs.Prelude.{◌≡◌, ◌%◌, None, Option, false};
ghost use Rattle.rv_step.specs.Accesses.{EndsWithin};
ghost use Rattle.turn_steps.specs.Effects.{IsSound};
ghost use Rattle.tag_memory.specs.Ram.{ram_bytes};
ghost use Rattle.tag_memory.specs.Hart.{moved_to};
ghost use Rattle.turn_steps.specs.Effects.{effect_result, fed_hart, result_value, hart_after, with_store};
ghost use Rattle.turn_steps.specs.Feeds.{Tape, fed_after};
ghost use Rattle.turn_steps.specs.Looks.{is_call, is_system};

use crate::feed::Feed;
use crate::look::Look;
use crate::registers::{reg, set_reg};
use policy_trait::Outs;
use rv_decode::{Group, Register};
use rv_step::{Access, Action, loaded, stored};
use tag_memory::{Hart, Ram};

/// How an allowed instruction ended.
#[derive(Clone, Copy, PartialEq, Eq)]
pub enum Done {
    /// It stepped on; the byte is the one that it put out.
    Stepped(Option<u8>),
    /// It was EBREAK, and stepped on.
    Broke,
    /// It was the exit service: the hart stops with this code.
    Exited(u32),
}

/// Carries out an instruction that the checks and the rule allowed, and that is no call of a policy's service: the
/// effect of such a call is the policy's, and stands in the job that it gives.
#[inline(always)]
#[tactic(auto, unfolding(crate::specs::Effects::effect_result))]
pub fn carry_out<T: Copy>(
    hart: &mut Hart<T>,
    ram: &mut Ram<T>,
    feed: &mut Feed,
    look: &Look,
    outs: Outs<T>,
) -> Done
    requires safe { IsSound (ram_bytes ram.old) look.now.effect }
    requires own { is_call look.now.group ≡ false }
    ensures hart { hart.new ≡ (effect_result hart.old ram.old feed.old look.now outs).hart }
    ensures ram { ram.new ≡ (effect_result hart.old ram.old feed.old look.now outs).ram }
    ensures feed { feed.new ≡ (effect_result hart.old ram.old feed.old look.now outs).feed }
    ensures done { result ≡ (effect_result hart.old ram.old feed.old look.now outs).done }
    ensures bytes { ram_bytes ram.new ≡ ram_bytes ram.old }
{
    match look.group {
        Group::Exit => Done::Exited(reg(hart, Register::A0)),
        Group::Put => {
            let byte = (reg(hart, Register::A0) % 256) as u8;
            go_on(hart, look, outs);
            Done::Stepped(Some(byte))
        }
        Group::Get => {
            take_byte(hart, feed, outs.result);
            go_on(hart, look, outs);
            Done::Stepped(None)
        }
        Group::Break => {
            step(hart, ram, look, outs);
            Done::Broke
        }
        _ => {
            carry_step(hart, ram, look, outs);
            Done::Stepped(None)
        }
    }
}

/// Carries out an instruction that the checks and the rule allowed, and that is neither an ECALL nor an EBREAK: it always steps on,
/// and neither reads a byte nor puts one out.
#[inline(always)]
#[tactic(auto, using(crate::proofs::StepLemmas::step_carried))]
pub fn carry_step<T: Copy>(hart: &mut Hart<T>, ram: &mut Ram<T>, look: &Look, outs: Outs<T>)
    requires safe { IsSound (ram_bytes ram.old) look.now.effect }
    requires plain { is_system look.now.group ≡ false }
    ensures exact { (feed : Tape) → effect_result hart.old ram.old feed look.now outs
        ≡ record { hart = hart.new; ram = ram.new; feed = feed; done = Done.Stepped None } }
    ensures bytes { ram_bytes ram.new ≡ ram_bytes ram.old }
{
    step(hart, ram, look, outs);
    store(ram, look.effect.access(), outs.result);
}

/// The instruction's own result, and the next pc.
#[inline(always)]
fn step<T: Copy>(hart: &mut Hart<T>, ram: &Ram<T>, look: &Look, outs: Outs<T>)
    requires { IsSound (ram_bytes ram.now) look.now.effect }
    ensures { hart.new ≡ hart_after hart.old ram.now look.now outs }
{
    let value = value_of(ram, &look.effect);
    set_reg(hart, look.places.result, value, outs.result);
    go_on(hart, look, outs);
}

/// What goes into the result's register.
#[inline(always)]
fn value_of<T: Copy>(ram: &Ram<T>, effect: &Action) -> u32
    requires { EndsWithin (ram_bytes ram.now) effect.now.access }
    ensures { result ≡ result_value ram.now effect.now.value effect.now.access }
{
    if !effect.has_access() {
        return effect.value();
    }
    match effect.access() {
        Access::Load {
            addr,
            width,
            signed,
        } => loaded(ram.word(addr - addr % 4), addr, width, signed),
        _ => effect.value(),
    }
}

/// Memory after the access.
#[inline]
fn store<T: Copy>(ram: &mut Ram<T>, access: Access, tag: T)
    requires { EndsWithin (ram_bytes ram.old) access }
    ensures exact { ram.new ≡ with_store ram.old access tag }
    ensures bytes { ram_bytes ram.new ≡ ram_bytes ram.old }
{
    if let Access::Store { addr, width, value } = access {
        let place = addr - addr % 4;
        ram.set_word(place, stored(ram.word(place), addr, width, value));
        ram.set_tag(place, tag);
    }
}

/// The next byte of the feed into a0, FFFFFFFF where none is left.
fn take_byte<T: Copy>(hart: &mut Hart<T>, feed: &mut Feed, tag: T)
    ensures hart { hart.new ≡ fed_hart hart.old feed.old tag }
    ensures feed { feed.new ≡ fed_after feed.old }
{
    let value = feed.next().map_or(u32::MAX, u32::from);
    set_reg(hart, Register::A0, value, tag);
}

/// The next pc and its tag.
#[inline(always)]
fn go_on<T: Copy>(hart: &mut Hart<T>, look: &Look, outs: Outs<T>)
    requires { look.now.effect.next % 4 ≡ 0 }
    ensures { hart.new ≡ moved_to hart.old look.now.effect.next outs.pc }
{
    hart.set_pc(look.effect.next(), outs.pc);
}
