//! The core of an engine: harts, their stops, and memory.

ghost use Rattle.std.specs.Prelude.{◌≡◌, ◌≢◌, ◌+◌, ◌++◌, ◌%◌, ◌<◌, ◌≤◌, false, None, Ok, IfOk, IfSome, OnOk, length, map, slice_index};
ghost use Rattle.std.specs.List.{All, flat_map};
ghost use Rattle.tag_memory.specs.Hart.{hart_tags};
ghost use Rattle.tag_memory.specs.Maps.{hart_by};
ghost use Rattle.tag_memory.specs.Ram.{IsPlace, ram_bytes};
ghost use Rattle.turn_steps.specs.Effects.{IsSound};
ghost use Rattle.turn_steps.specs.Feeds.{Tape};
ghost use Rattle.turn_steps.specs.Looks.{is_call, is_system, look_result, unless_system};
ghost use Rattle.turn_steps.specs.Peeks.{looks_of, peeked};
ghost use Rattle.turn_steps.specs.Services.{args_on};
ghost use Rattle.engine_trait.specs.Machine.{CoreState, core_tags, fresh_core, hart_at, stop_at, stopping};
ghost use Rattle.engine_trait.specs.Maps.{core_by};
ghost use Rattle.engine_trait.specs.Standing.{IsFailure};
ghost use Rattle.engine_trait.specs.Turn.{carried_at, core_effected, core_served, end_of, rule_inputs, violation};

use crate::ends::TurnEnd;
use policy_trait::{Answer, Args, Ins, InsAt, Outs, Refused};
use rv_step::Fault;
use std::alloc::{AllocError, Global};
use std::marker::Model;
use tag_memory::{Hart, Ram};
use turn_steps::{
    Done, Feed, Look, Looks, Peeks, Stop, answer_to, arguments_of, carry_out, carry_step,
    inputs_at, inputs_of, look_ahead, looks_of, peeked, step_look, write_words,
};

/// The most harts of a machine.
pub const MOST_HARTS: usize = 8;

/// Harts, their stops, and memory, for any type of tags: what every engine stands on. Contracts see it as a `CoreState`.
#[derive(Drop)]
pub struct Core<T: Copy> {
    pub(crate) harts: Vec<Hart<T>>,
    pub(crate) stops: [Option<Stop>; MOST_HARTS],
    pub(crate) ram: Ram<T>,
}

impl<T: Copy> Model for Core<T> {
    ghost use Rattle.engine_trait.specs.Machine.{CoreState, IsCore};

    ghost Value = { CoreState T };

    ghost view = { λ c. record { harts = c.harts.items; stops = c.stops; ram = c.ram } };

    ghost invariant = { λ c. IsCore (record { harts = c.harts.items; stops = c.stops; ram = c.ram }) };
}

impl<T: Copy> Core<T> {
    /// These harts over this memory, none stopped.
    pub fn new(ram: Ram<T>, harts: Vec<Hart<T>>) -> Core<T>
        requires some { 1 ≤ length harts.items }
        requires few { length harts.items ≤ 8 }
        ensures { result ≡ fresh_core harts.items ram }
    {
        Core {
            harts,
            stops: [None; MOST_HARTS],
            ram,
        }
    }

    /// How many harts there are, 1 to 8.
    pub fn harts(&self) -> u32
        ensures harts { result ≡ length self.now.harts }
        ensures some { 1 ≤ result }
        ensures few { result ≤ 8 }
    {
        self.harts.len() as u32
    }

    /// Memory.
    pub fn ram(&self) -> &Ram<T>
        ensures { result.now ≡ self.now.ram }
    {
        &self.ram
    }

    /// The hart of this number.
    pub fn hart(&self, h: u32) -> &Hart<T>
        requires { h < length self.now.harts }
        ensures { result.now ≡ hart_at self.now h }
    {
        &self.harts[h as usize]
    }

    /// Why the hart stopped, if it did.
    pub fn stop(&self, h: u32) -> Option<Stop>
        requires { h < length self.now.harts }
        ensures { result ≡ stop_at self.now h }
    {
        // Serves the proof alone: what reads the harts knows the invariant, that there are at most as many as stops.
        let _harts = &self.harts;
        self.stops[h as usize]
    }

    /// Whether the hart's turn may look at what it looks at before its rule.
    pub fn peeked<K: Peeks<Tag = T>>(&self, h: u32, peeks: &K) -> Result<(), Refused>
        requires { h < length self.now.harts }
        ensures { result ≡ peeked (K.answer peeks.now) (hart_at self.now h) self.now.ram }
    {
        peeked(peeks, &self.harts[h as usize], &self.ram)
    }

    /// What the hart's turn looks at before its rule, where its checks pass and this is what it is about to do.
    #[inline]
    pub fn looks(&self, h: u32, look: &Look) -> Looks<T>
        requires hart { h < length self.now.harts }
        requires within { (hart_at self.now h).pc + 4 ≤ ram_bytes self.now.ram }
        ensures { result ≡ looks_of (hart_at self.now h) self.now.ram look.now }
    {
        looks_of(&self.harts[h as usize], &self.ram, look)
    }

    /// What the hart is about to do, or the first of the checks that fails.
    #[inline(always)]
    pub fn look(&self, h: u32) -> Result<Look, Fault>
        requires { h < length self.now.harts }
        ensures value { result ≡ look_result (hart_at self.now h) self.now.ram }
        ensures within { OnOk result ((hart_at self.now h).pc + 4 ≤ ram_bytes self.now.ram) }
        ensures safe { IfOk result (λ look. IsSound (ram_bytes self.now.ram) look.effect) }
    {
        look_ahead(&self.harts[h as usize], &self.ram)
    }

    /// What the hart is about to do, where every check passes and it makes neither an ECALL nor an EBREAK; `None` else.
    #[inline(always)]
    pub fn step_look(&self, h: u32) -> Option<Look>
        requires { h < length self.now.harts }
        ensures value { result ≡ unless_system (look_result (hart_at self.now h) self.now.ram) }
        ensures looked { IfSome result
            (λ look. look_result (hart_at self.now h) self.now.ram ≡ Ok look) }
        ensures plain { IfSome result (λ look. is_system look.group ≡ false) }
        ensures within { IfSome result
            (λ look. (hart_at self.now h).pc + 4 ≤ ram_bytes self.now.ram) }
        ensures safe { IfSome result (λ look. IsSound (ram_bytes self.now.ram) look.effect) }
    {
        step_look(&self.harts[h as usize], &self.ram)
    }

    /// The five tags that the rule of what this hart looks at is asked with. Its pc and its access are in memory, as those of a
    /// look are that this hart gave.
    #[inline(always)]
    pub fn inputs(&self, h: u32, look: &Look) -> Ins<T>
        requires hart { h < length self.now.harts }
        requires within { (hart_at self.now h).pc + 4 ≤ ram_bytes self.now.ram }
        requires safe { IsSound (ram_bytes self.now.ram) look.now.effect }
        ensures { result ≡ rule_inputs self.now h look.now }
    {
        inputs_of(&self.harts[h as usize], &self.ram, look)
    }

    /// Where the five tags of `inputs` stand.
    #[inline]
    pub fn inputs_at(&self, h: u32, look: &Look) -> InsAt<'_, T>
        requires hart { h < length self.now.harts }
        requires within { (hart_at self.now h).pc + 4 ≤ ram_bytes self.now.ram }
        requires safe { IsSound (ram_bytes self.now.ram) look.now.effect }
        ensures { result ≡ rule_inputs self.now h look.now }
    {
        inputs_at(&self.harts[h as usize], &self.ram, look)
    }

    /// Carries out an instruction that the checks and the rule allowed.
    #[inline(always)]
    #[tactic(auto, unfolding(crate::specs::Turn::core_effected, crate::specs::Turn::carried_at))]
    pub fn effect(&mut self, h: u32, feed: &mut Feed, look: &Look, outs: Outs<T>) -> TurnEnd
        requires hart { h < length self.old.harts }
        requires own { is_call look.now.group ≡ false }
        requires safe { IsSound (ram_bytes self.old.ram) look.now.effect }
        ensures core { self.new ≡ core_effected self.old feed.old h look.now outs }
        ensures feed { feed.new ≡ (carried_at self.old feed.old h look.now outs).feed }
        ensures end { result ≡ end_of (carried_at self.old feed.old h look.now outs).done }
        ensures no_failure { (why : Stop) → IsFailure why → result ≢ TurnEnd.Stopped why }
        ensures harts { length self.new.harts ≡ length self.old.harts }
        ensures bytes { ram_bytes self.new.ram ≡ ram_bytes self.old.ram }
    {
        match carry_out(&mut self.harts[h as usize], &mut self.ram, feed, look, outs) {
            Done::Stepped(byte) => TurnEnd::Ran(byte),
            Done::Broke => TurnEnd::Break,
            Done::Exited(code) => {
                self.stops[h as usize] = Some(Stop::Exit(code));
                TurnEnd::Stopped(Stop::Exit(code))
            }
        }
    }

    /// The same for an instruction that is neither an ECALL nor an EBREAK: it always steps on, and neither reads a byte nor puts one
    /// out.
    #[inline(always)]
    #[tactic(auto, unfolding(crate::specs::Turn::core_effected, crate::specs::Turn::carried_at))]
    pub fn step(&mut self, h: u32, look: &Look, outs: Outs<T>)
        requires hart { h < length self.old.harts }
        requires plain { is_system look.now.group ≡ false }
        requires safe { IsSound (ram_bytes self.old.ram) look.now.effect }
        ensures core { (feed : Tape) → self.new ≡ core_effected self.old feed h look.now outs }
        ensures feed { (feed : Tape) → (carried_at self.old feed h look.now outs).feed ≡ feed }
        ensures end { (feed : Tape)
            → end_of (carried_at self.old feed h look.now outs).done ≡ TurnEnd.Ran None }
        ensures harts { length self.new.harts ≡ length self.old.harts }
        ensures bytes { ram_bytes self.new.ram ≡ ram_bytes self.old.ram }
    {
        carry_step(&mut self.harts[h as usize], &mut self.ram, look, outs);
    }

    /// The stop of hart `h` at its pc, where a rule refused.
    pub fn violation(&self, h: u32, refused: Refused) -> Stop
        requires { h < length self.now.harts }
        ensures { result ≡ violation (hart_at self.now h).pc refused }
    {
        Stop::Violation {
            part: refused.part,
            why: refused.why,
            pc: self.hart(h).pc(),
        }
    }

    /// Stops the hart, and changes nothing else.
    pub fn stop_hart(&mut self, h: u32, why: Stop)
        requires { h < length self.old.harts }
        ensures { self.new ≡ stopping self.old h why }
    {
        // Serves the proof alone: what reads the harts knows the invariant, that there are at most as many as stops.
        let _harts = &self.harts;
        self.stops[h as usize] = Some(why);
    }

    /// What a policy's service is asked with by this hart.
    pub fn arguments(&self, h: u32) -> Args<T>
        requires { h < length self.now.harts }
        ensures { result ≡ args_on (hart_at self.now h) self.now.ram }
    {
        arguments_of(&self.harts[h as usize], &self.ram)
    }

    /// Carries out a policy's service that nothing refused: the words of its range, its answer, and the next pc.
    #[tactic(auto, unfolding(crate::specs::Turn::core_served))]
    pub fn serve(
        &mut self,
        h: u32,
        words: &[(u32, u32, T)],
        answer: Option<Answer<T>>,
        next: u32,
        pc_tag: T,
    )
        requires hart { h < length self.old.harts }
        requires places { All (λ word. IsPlace (ram_bytes self.old.ram) word.0) words.now }
        requires aligned { next % 4 ≡ 0 }
        ensures core { self.new ≡ core_served self.old h words.now answer next pc_tag }
        ensures harts { length self.new.harts ≡ length self.old.harts }
        ensures bytes { ram_bytes self.new.ram ≡ ram_bytes self.old.ram }
    {
        write_words(&mut self.ram, words);
        let hart = &mut self.harts[h as usize];
        answer_to(hart, answer);
        hart.set_pc(next, pc_tag);
    }

    /// The tags that stand in the core: those of each hart in turn, then those of memory. The only
    /// error is running out of memory.
    pub fn tags(&self, alloc: Global) -> Result<Vec<T>, AllocError>
        ensures { IfOk result (λ tags. tags.items ≡ core_tags self.now) }
    {
        let mut tags = Vec::new(alloc);
        push_all_tags(&self.harts, &mut tags)?;
        self.ram.push_tags(&mut tags)?;
        Ok(tags)
    }
}

impl Core<u32> {
    /// Gives each tag, the plain ones too, the number that stands at its place in `numbers`, 0 for
    /// one past its end. Values, words and stops stay. It takes no memory.
    pub fn renumber(&mut self, numbers: &[u32])
        ensures { self.new ≡ core_by (slice_index numbers.now) self.old }
    {
        renumber_harts(&mut self.harts, numbers);
        self.ram.renumber(numbers);
    }
}

// Adds the tags that stand in each hart to a list.
fn push_all_tags<T: Copy>(harts: &[Hart<T>], list: &mut Vec<T>) -> Result<(), AllocError>
    ensures { OnOk result (list.new.items ≡ list.old.items ++ flat_map hart_tags harts.now) }
{
    for hart in harts {
        hart.push_tags(list)?;
    }
    Ok(())
}

// Gives each tag of each hart the number that stands at its place in `numbers`.
fn renumber_harts(harts: &mut [Hart<u32>], numbers: &[u32])
    ensures { harts.new ≡ map (hart_by (slice_index numbers.now)) harts.old }
{
    for hart in harts.iter_mut() {
        hart.renumber(numbers);
    }
}
