//! What a core's turn will replace, and a core taken back by it.

ghost use Rattle.std.specs.Prelude.{◌≡◌, ◌<◌, None, IfOk, false, length};
ghost use Rattle.std.specs.List.{All};
ghost use Rattle.std.specs.Option.{ForSome};
ghost use Rattle.tag_memory.specs.Ram.{IsPlace, ram_bytes};
ghost use Rattle.turn_steps.specs.Effects.{IsSound};
ghost use Rattle.turn_steps.specs.Looks.{is_system};
ghost use Rattle.engine_trait.specs.History.{answer_before, bare_record, core_undone, record_by, record_served, reg_before, with_old_reg, with_old_word, with_old_words, word_at, words_before, written_record};
ghost use Rattle.engine_trait.specs.HistoryLaws.{IsFit};
ghost use Rattle.engine_trait.specs.Machine.{hart_at};

use crate::cores::Core;
use policy_trait::{Answer, Plan};
use rv_decode::{Group, Register};
use rv_step::Access;
use std::alloc::{AllocError, Global};
use tag_memory::{Hart, Ram};
use turn_steps::Look;
use undo_log::{Record, Replaced, TurnStart};

impl<T: Copy> Core<T> {
    /// Where a turn of hart `h` begins.
    #[inline(always)]
    fn turn_start(&self, h: u32) -> TurnStart<T>
        requires { h < length self.now.harts }
        ensures hart { result.hart ≡ h }
        ensures pc { result.pc ≡ (hart_at self.now h).pc }
        ensures pc_tag { result.pc_tag ≡ (hart_at self.now h).pc_tag }
    {
        let hart = self.hart(h);
        TurnStart {
            hart: h,
            pc: hart.pc(),
            pc_tag: hart.pc_tag(),
        }
    }

    /// What a turn of hart `h` replaces that stops before its effect: nothing but the stop, so that it names the hart and its pc
    /// alone. It takes no memory.
    #[inline(always)]
    pub fn bare_record<U: Copy>(&self, h: u32) -> Record<T, U>
        requires { h < length self.now.harts }
        ensures { result ≡ bare_record self.now h }
    {
        Record::bare(self.turn_start(h))
    }

    /// What an instruction replaces that goes on: a store its word, any other its register. It takes no memory.
    #[inline(always)]
    fn written_record<U: Copy>(&self, h: u32, look: &Look) -> Record<T, U>
        requires hart { h < length self.now.harts }
        requires safe { IsSound (ram_bytes self.now.ram) look.now.effect }
        ensures { result
            ≡ written_record self.now h look.now.places.result look.now.effect.access }
    {
        let start = self.turn_start(h);
        match look.effect.access() {
            Access::Store { addr, .. } => {
                Record::of_word(start, word_at(self.ram(), addr - addr % 4))
            }
            Access::Load { .. } | Access::None => {
                let reg = reg_before(self.hart(h), look.places.result);
                Record::of_register(start, reg, None)
            }
        }
    }

    /// What carrying out this instruction will replace, neither an ECALL nor an EBREAK. It takes no memory.
    #[inline(always)]
    #[tactic(auto, using(crate::proofs::PastLemmas::next_unused))]
    pub fn step_record<U: Copy>(&self, h: u32, look: &Look) -> Record<T, U>
        requires hart { h < length self.now.harts }
        requires plain { is_system look.now.group ≡ false }
        requires safe { IsSound (ram_bytes self.now.ram) look.now.effect }
        ensures { result ≡ record_by look.now.group self.now None h look.now }
    {
        self.written_record(h, look)
    }

    /// What carrying out this instruction will replace, none of a policy's services; `next` is the next byte of the feed, which `get`
    /// reads. It takes no memory.
    pub fn record<U: Copy>(&self, h: u32, look: &Look, next: Option<u8>) -> Record<T, U>
        requires hart { h < length self.now.harts }
        requires safe { IsSound (ram_bytes self.now.ram) look.now.effect }
        ensures { result ≡ record_by look.now.group self.now next h look.now }
    {
        match look.group {
            Group::Exit | Group::Put => self.bare_record(h),
            Group::Get => {
                let reg = reg_before(self.hart(h), Register::A0);
                Record::of_register(self.turn_start(h), reg, next)
            }
            Group::Break => {
                let reg = reg_before(self.hart(h), look.places.result);
                Record::of_register(self.turn_start(h), reg, None)
            }
            _ => self.written_record(h, look),
        }
    }

    /// What a policy's service by this plan will replace, which writes these words. The only error is running out of memory.
    pub fn record_served<U: Copy>(
        &self,
        alloc: Global,
        h: u32,
        words: &[(u32, u32, T)],
        plan: &Plan<U>,
    ) -> Result<Record<T, U>, AllocError>
        requires hart { h < length self.now.harts }
        requires places { All (λ word. IsPlace (ram_bytes self.now.ram) word.0) words.now }
        ensures { IfOk result (λ made. made ≡ record_served self.now h words.now plan.now) }
    {
        let range = words_before(alloc, self.ram(), words)?;
        let answered = answer_before(self.hart(h), plan.answer);
        Record::of_service(alloc, self.turn_start(h), answered, range, plan)
    }

    /// Takes a turn back by what it replaced: the hart goes on where it was, and what stood there stands again. The core has what the
    /// record names, as it has after the record's turn. It takes no memory.
    #[tactic(auto, unfolding(crate::specs::History::core_undone))]
    pub fn undo<U: Copy>(&mut self, made: &Record<T, U>)
        requires { IsFit (length self.old.harts) (ram_bytes self.old.ram) made.now }
        ensures core { self.new ≡ core_undone self.old made.now }
        ensures harts { length self.new.harts ≡ length self.old.harts }
        ensures bytes { ram_bytes self.new.ram ≡ ram_bytes self.old.ram }
    {
        let h = made.hart() as usize;
        let hart = &mut self.harts[h];
        restore_reg(hart, made.reg());
        hart.set_pc(made.pc(), made.pc_tag());
        self.stops[h] = None;
        restore_word(&mut self.ram, made.word());
        restore_words(&mut self.ram, made.range());
    }
}

// What stands in a register. A write to x0 replaces nothing.
#[inline(always)]
fn reg_before<T: Copy>(hart: &Hart<T>, register: Register) -> Option<Replaced<T>>
    ensures { result ≡ reg_before hart.now register }
{
    let number = u32::from(register.number());
    if number == 0 {
        return None;
    }
    Some(Replaced {
        place: number,
        value: hart.reg(number),
        tag: hart.reg_tag(number),
    })
}

// What an answer replaces, which goes to a0; `None` where there is no answer.
fn answer_before<T: Copy, U: Copy>(hart: &Hart<T>, answer: Option<Answer<U>>) -> Option<Replaced<T>>
    ensures { result ≡ answer_before hart.now answer }
{
    match answer {
        Some(_answer) => reg_before(hart, Register::A0),
        None => None,
    }
}

// What stands in a word of memory.
#[inline(always)]
fn word_at<T: Copy>(ram: &Ram<T>, address: u32) -> Replaced<T>
    requires { IsPlace (ram_bytes ram.now) address }
    ensures { result ≡ word_at ram.now address }
{
    Replaced {
        place: address,
        value: ram.word(address),
        tag: ram.tag(address),
    }
}

// What stands in each of these words, which a service will write: address, value and tag of each.
fn words_before<T: Copy>(
    alloc: Global,
    ram: &Ram<T>,
    words: &[(u32, u32, T)],
) -> Result<Vec<Replaced<T>>, AllocError>
    requires { All (λ word. IsPlace (ram_bytes ram.now) word.0) words.now }
    ensures { IfOk result (λ found. found.items ≡ words_before ram.now words.now) }
{
    let mut found = Vec::with_capacity(alloc, words.len())?;
    for word in words {
        found.push(word_at(ram, word.0))?;
    }
    Ok(found)
}

// Puts back what stood in a register, if anything was replaced.
#[inline(always)]
fn restore_reg<T: Copy>(hart: &mut Hart<T>, replaced: Option<Replaced<T>>)
    requires { ForSome replaced (λ reg. reg.place < 32) }
    ensures { hart.new ≡ with_old_reg hart.old replaced }
{
    if let Some(reg) = replaced {
        hart.set_reg(reg.place, reg.value);
        hart.set_reg_tag(reg.place, reg.tag);
    }
}

// Puts back what stood in a word of memory, if anything was replaced.
#[inline(always)]
fn restore_word<T: Copy>(ram: &mut Ram<T>, replaced: Option<Replaced<T>>)
    requires { ForSome replaced (λ word. IsPlace (ram_bytes ram.old) word.place) }
    ensures exact { ram.new ≡ with_old_word ram.old replaced }
    ensures bytes { ram_bytes ram.new ≡ ram_bytes ram.old }
{
    if let Some(word) = replaced {
        ram.set_word(word.place, word.value);
        ram.set_tag(word.place, word.tag);
    }
}

// Puts back what stood in each of these words, in turn.
fn restore_words<T: Copy>(ram: &mut Ram<T>, range: &[Replaced<T>])
    requires { All (λ word. IsPlace (ram_bytes ram.old) word.place) range.now }
    ensures exact { ram.new ≡ with_old_words ram.old range.now }
    ensures bytes { ram_bytes ram.new ≡ ram_bytes ram.old }
{
    for word in range {
        restore_word(ram, Some(*word));
    }
}
