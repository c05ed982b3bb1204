//! The engine whose tags are words of a table, with a cache of rules.

ghost use Rattle.std.specs.Prelude.{◌≡◌, ◌≢◌, ◌+◌, ◌%◌, ◌<◌, ◌≤◌, [], Err, Ok, Some, None, IfErr, IfOk, IfSome, IsOk, IsOkAnd, IsTrue, OnErr, OnOk, OnSome, false, true, length};
ghost use Rattle.std.specs.List.{All, AllByRecursion};
ghost use Rattle.policy_trait.specs.Model.{IsGiven};
ghost use Rattle.monitor_calls.specs.Ends.{EndsAs, job_by};
ghost use Rattle.tag_memory.specs.Ram.{IsPlace, ram_bytes};
ghost use Rattle.turn_steps.specs.Effects.{IsSound};
ghost use Rattle.turn_steps.specs.Feeds.{Tape};
ghost use Rattle.turn_steps.specs.Looks.{is_call, is_system, look_result, unless_system};
ghost use Rattle.turn_steps.specs.declared.look.Look.{Look as AnyLook};
ghost use Rattle.engine_trait.specs.Accounts.{is_kept, is_over, seeing, written_tags};
ghost use Rattle.engine_trait.specs.Machine.{hart_at};
ghost use Rattle.engine_trait.specs.Standing.{GivesUp, IsFailure, StopsOnly, is_ready, step};
ghost use Rattle.engine_trait.specs.Turn.{carried_at, end_of, is_offered, may_look, preparation, violation};
ghost use Rattle.miss_handler.specs.Asked.{AreOutWords};
ghost use Rattle.pump_engine.specs.Pump.{IsPump, account_by_words, machine_by_words, standing_by_words};
ghost use Rattle.pump_engine.specs.Steps.{Allows, CarriesOut, EndsService, HasParts, IsSwept, Settles, TriesOut, Unanswered, Unruled};
ghost use Rattle.pump_engine.specs.Steps.{after_effect, after_halt, after_stop, after_unanswered, job_over, key_in, pump_start, service_in, takes_memory, unanswered_end};

mod engine;

use crate::records::{push_if, remember_effect, remember_step, remember_stop, service_record};
use engine_trait::{Core, Feed, Halt, Stop, TurnEnd};
use miss_handler::{AskEnd, Asking, Masks, ask, settle};
use monitor_calls::{Job, ServeEnd, serve};
use open_words::OpenWords;
use policy_trait::{Args, Policy, Refused, Shape, TagMap};
use rule_cache::{OutWords, RuleStore};
use rv_step::Fault;
use shared_terms::count_up;
use std::alloc::{AllocError, Global};
use std::marker::Model;
use tag_intern::{Decoder, InternEnd, TagTable, remade, renumbering};
use tag_memory::{Hart, Ram};
use turn_steps::{Look, Peeks, is_call};
use undo_log::WordLog;
use word_service::{Decoded, intern_job};

/// An engine whose tags are words of a table, and which asks its policy for a rule only where the rule is not kept.
///
/// Contracts see it as a `PumpState`; `standing_by_words` is the machine of the tags that the words stand for, with its
/// account.
#[derive(Drop)]
pub struct Pump<P: Policy, T: TagTable<Tag = P::Tag>, C: RuleStore, H: WordLog<Tag = P::Tag>> {
    alloc: Global,
    policy: P,
    masks: Masks,
    core: Core<u32>,
    tags: T,
    open_words: OpenWords,
    store: C,
    turns: u64,
    sweeps: u64,
    halt: Option<Halt>,
    log: H,
}

/// A policy, asked by the words of its tags whether a turn may look at values.
#[derive(Drop)]
struct WordPeeks<'a, P: Policy, T: TagTable<Tag = P::Tag>> {
    policy: &'a P,
    decoder: Decoder<'a, T>,
}

impl<P: Policy, T: TagTable<Tag = P::Tag>> Peeks for WordPeeks<'_, P, T> {
    ghost use Rattle.tag_intern.specs.Words.{tag_at};
    ghost use Rattle.turn_steps.specs.Peeks.{peek_by};

    type Tag = u32;

    ghost answer = { λ p. peek_by (tag_at p.decoder.plain (T.state p.decoder.tags.now).tags)
        (P.model.peek p.policy.now) };

    fn answer(&self, shape: Shape, first: &u32, second: &u32) -> Result<(), Refused> {
        let first = self.decoder.image(*first);
        let second = self.decoder.image(*second);
        self.policy.peek(shape, &first, &second)
    }
}

/// What a policy's service is asked with, in the tags that words stand for.
#[derive(Drop)]
struct ServiceCall<'a, T: TagTable> {
    /// The arguments of the hart that calls it.
    arguments: Args<T::Tag>,
    /// The tag of that hart's next pc.
    pc: T::Tag,
    /// Memory.
    memory: Decoded<'a, T>,
}

impl<P: Policy, T: TagTable<Tag = P::Tag>, C: RuleStore, H: WordLog<Tag = P::Tag>> Model
    for Pump<P, T, C, H> {
    ghost use Rattle.pump_engine.specs.Pump.{IsMasked, PumpState, pump_of};

    ghost Value = { PumpState P P.Tag };

    ghost view = { λ p. pump_of p.policy p.core (T.state p.tags) (C.state p.store)
        p.turns p.sweeps p.halt (H.past p.log) };

    ghost invariant = { λ p. IsMasked P.model p.masks p.open_words
        (pump_of p.policy p.core (T.state p.tags) (C.state p.store)
        p.turns p.sweeps p.halt (H.past p.log)) };
}

impl<P: Policy, T: TagTable<Tag = P::Tag>, C: RuleStore, H: WordLog<Tag = P::Tag>> Pump<
    P,
    T,
    C,
    H,
> {
    /// The engine of these parts, of 1 to 8 harts: no hart has stopped, and no turn was made. The log has no record yet.
    pub fn new(
        alloc: Global,
        policy: P,
        ram: Ram<u32>,
        harts: Vec<Hart<u32>>,
        tags: T,
        store: C,
        log: H,
    ) -> Pump<P, T, C, H>
        requires start { IsPump P.model
            (pump_start policy harts.items ram (T.state tags) (C.state store) (H.past log)) }
        requires empty { (H.past log).kept ≡ [] }
        ensures { result
            ≡ pump_start policy harts.items ram (T.state tags) (C.state store) (H.past log) }
    {
        let masks = Masks::of(&policy);
        Pump {
            alloc,
            policy,
            masks,
            core: Core::new(ram, harts),
            tags,
            open_words: OpenWords::new(alloc),
            store,
            turns: 0,
            sweeps: 0,
            halt: None,
            log,
        }
    }

    /// How many tags have words: those below it. At all times word 0 is the plain tag, every word in a register, in a pc
    /// and in memory is that of a tag, and each kept rule is the policy's answer.
    pub fn words(&self) -> u32
        ensures count { result ≡ length self.now.table.tags }
        ensures sound { IsPump P.model self.now }
    {
        self.tags.len()
    }

    /// Whether hart `h` can have a turn: neither it nor the engine has stopped.
    #[inline(always)]
    pub(crate) fn is_ready(&self, h: u32) -> bool
        requires { h < length (standing_by_words P.model self.now).machine.core.harts }
        ensures ready { result ≡ is_ready (standing_by_words P.model self.now) h }
        ensures hart { h < length self.now.core.harts }
        ensures within { is_over (account_by_words P.model self.now) ≡ false }
    {
        self.halt.is_none() && self.core.stop(h).is_none()
    }

    /// Whether the service that is called, if one is, is one that the machine or the policy offers.
    #[inline(always)]
    fn is_offered(&self, look: &Look) -> bool
        ensures { result ≡ is_offered P.model (machine_by_words P.model self.now) look.now }
    {
        !is_call(look.group) || self.policy.knows(look.service)
    }

    /// Whether the policy lets hart `h` look at what its turn looks at before the rule. A policy that refuses no look isn't asked.
    #[inline(always)]
    fn peeked(&self, h: u32) -> Result<(), Refused>
        requires { h < length self.now.core.harts }
        ensures { result ≡ may_look P.model (machine_by_words P.model self.now) h }
    {
        if !self.policy.peeks() {
            return Ok(());
        }
        self.words_peeked(h)
    }

    /// The same, asked by the words of the tags.
    fn words_peeked(&self, h: u32) -> Result<(), Refused>
        requires { h < length self.now.core.harts }
        ensures { result ≡ may_look P.model (machine_by_words P.model self.now) h }
    {
        let peeks = WordPeeks {
            policy: &self.policy,
            decoder: self.decoder(),
        };
        self.core.peeked(h, &peeks)
    }

    /// What hart `h` is about to do, where every check passes, it makes neither an ECALL nor an EBREAK, and it is known that the policy
    /// lets it look; `None` else.
    #[inline(always)]
    fn step_look(&self, h: u32) -> Option<Look>
        requires hart { h < length self.now.core.harts }
        ensures value { IfSome result (λ look. unless_system
            (look_result (hart_at self.now.core h) self.now.core.ram) ≡ Some look) }
        ensures free { P.model.peeks self.now.policy ≡ false → result
            ≡ unless_system (look_result (hart_at self.now.core h) self.now.core.ram) }
        ensures seen { OnSome result
            (may_look P.model (machine_by_words P.model self.now) h ≡ Ok tt) }
        ensures looked { IfSome result
            (λ look. look_result (hart_at self.now.core h) self.now.core.ram ≡ Ok look) }
        ensures plain { IfSome result (λ look. is_system look.group ≡ false) }
        ensures within { IfSome result
            (λ look. (hart_at self.now.core h).pc + 4 ≤ ram_bytes self.now.core.ram) }
        ensures sound { IfSome result
            (λ look. IsSound (ram_bytes self.now.core.ram) look.effect) }
    {
        let look = self.core.step_look(h)?;
        if !self.is_open(h, &look) {
            return None;
        }
        Some(look)
    }

    /// Whether it is known that the policy lets hart `h` look at what it looks at before the rule of what it is about to do.
    #[inline(always)]
    fn is_open(&self, h: u32, look: &Look) -> bool
        requires hart { h < length self.now.core.harts }
        requires looked { look_result (hart_at self.now.core h) self.now.core.ram ≡ Ok look.now }
        requires within { (hart_at self.now.core h).pc + 4 ≤ ram_bytes self.now.core.ram }
        ensures seen { IsTrue result → may_look P.model (machine_by_words P.model self.now) h ≡ Ok tt }
        ensures free { P.model.peeks self.now.policy ≡ false → result ≡ true }
    {
        !self.policy.peeks() || self.open_words.allow(&self.core.looks(h, look))
    }

    /// How hart `h` stops where the policy refused a look.
    #[cold]
    #[inline(never)]
    fn violation(&self, h: u32, refused: Refused) -> Stop
        requires { h < length self.now.core.harts }
        ensures { result ≡ violation (hart_at self.now.core h).pc refused }
    {
        self.core.violation(h, refused)
    }

    /// The checks of hart `h`'s turn, which no tag decides.
    #[inline(always)]
    fn prepare(&self, h: u32) -> Result<Look, Stop>
        requires { h < length self.now.core.harts }
        ensures value { result ≡ preparation P.model (machine_by_words P.model self.now) h }
        ensures looked { IfOk result
            (λ look. look_result (hart_at self.now.core h) self.now.core.ram ≡ Ok look) }
        ensures within { OnOk result ((hart_at self.now.core h).pc + 4 ≤ ram_bytes self.now.core.ram) }
        ensures sound { IfOk result (λ look. IsSound (ram_bytes self.now.core.ram) look.effect) }
        ensures offered { IfOk result
            (λ look. is_offered P.model (machine_by_words P.model self.now) look ≡ true) }
    {
        if let Err(refused) = self.peeked(h) {
            return Err(self.violation(h, refused));
        }
        let look = match self.core.look(h) {
            Ok(look) => look,
            Err(fault) => return Err(Stop::Fault(fault)),
        };
        if !self.is_offered(&look) {
            return Err(Stop::Fault(Fault::NoService(look.service)));
        }
        Ok(look)
    }

    /// Counts a turn that stopped hart `h`, and remembers it.
    fn stop_hart(&mut self, h: u32, why: Stop) -> TurnEnd
        requires { h < length self.old.core.harts }
        ensures state { self.new ≡ after_stop self.old h why }
        ensures end { result ≡ TurnEnd.Stopped why }
    {
        remember_stop(&mut self.log, &self.core, h);
        self.core.stop_hart(h, why);
        count_up(&mut self.turns);
        TurnEnd::Stopped(why)
    }

    /// Stops the engine as a whole, since tag numbers ran out.
    fn run_out(&mut self) -> TurnEnd
        ensures state { self.new ≡ after_halt self.old Halt.TagNumbers }
        ensures end { result ≡ TurnEnd.TagsOut }
    {
        self.halt = Some(Halt::TagNumbers);
        TurnEnd::TagsOut
    }

    /// Stops the engine as a whole, since memory ran out.
    fn give_up(&mut self) -> TurnEnd
        ensures state { self.new ≡ after_halt self.old Halt.Memory }
        ensures end { result ≡ TurnEnd.Memory }
    {
        self.halt = Some(Halt::Memory);
        TurnEnd::Memory
    }

    /// The outputs of the rule as words, which is asked with the words as they stand, without a sweep.
    #[inline(always)]
    fn ask(&mut self, h: u32, look: &Look) -> Result<OutWords, AskEnd>
        requires hart { h < length self.old.core.harts }
        requires within { (hart_at self.old.core h).pc + 4 ≤ ram_bytes self.old.core.ram }
        requires sound { IsSound (ram_bytes self.old.core.ram) look.now.effect }
        ensures stays { HasParts self.old self.new }
        ensures core { self.new.core ≡ self.old.core }
        ensures policy { self.new.policy ≡ self.old.policy }
        ensures allowed { IfOk result (Allows P.Tag.eq P.model self.old h look.now self.new) }
        ensures unanswered { IfErr result
            (Unanswered P.Tag.eq P.model self.old h look.now self.new) }
        ensures kept { is_kept P.Tag.eq (key_in P.Tag.eq P.model self.old h look.now)
            (account_by_words P.model self.old) ≡ true → IsOk result }
    {
        let mut rules = Asking::new(&self.policy, &self.masks);
        ask(
            &mut self.tags,
            &mut self.store,
            &mut rules,
            look.group,
            self.core.inputs(h, look),
        )
    }

    /// Gives back the words of tags that stand nowhere any more: those in harts and memory, those of the words that were made beside
    /// them, and those in records have words after it, and no rule is kept. It gives the new number of each old word. All its memory is
    /// taken before anything is changed; running out of it is its only error.
    #[inline(never)]
    fn sweep(&mut self, made: &[u32]) -> Result<Vec<u32>, AllocError>
        requires { AllByRecursion (λ word. word < length self.old.table.tags) made.now }
        ensures swept { IfOk result (λ numbers.
            IsSwept P.Tag.eq P.model self.old made.now numbers.items self.new) }
        ensures size { IfOk result
            (λ numbers. length numbers.items ≡ length self.old.table.tags) }
        ensures unswept { OnErr result (self.new ≡ self.old) }
        ensures harts { length self.new.core.harts ≡ length self.old.core.harts }
        ensures bytes { ram_bytes self.new.core.ram ≡ ram_bytes self.old.core.ram }
    {
        let plain = self.policy.plain();
        let mut live = self.core.tags(self.alloc)?;
        live.extend_from_slice(made)?;
        self.log.push_words(&mut live)?;
        let Ok(table) = remade(self.alloc, &self.tags, plain, &live) else {
            return Err(AllocError);
        };
        let numbers = renumbering(self.alloc, &self.tags, &table, plain)?;
        let _words = table.len(); // for the proof: no more tags have words than may
        self.core.renumber(&numbers);
        self.log.renumber(&numbers);
        self.tags = table;
        self.open_words.forget();
        self.store.clear();
        count_up(&mut self.sweeps);
        Ok(numbers)
    }

    /// The outputs of the rule as words, behind a sweep: those that stood for them before need more words than there may be.
    fn ask_swept(&mut self, h: u32, look: &Look) -> Result<OutWords, AskEnd>
        requires hart { h < length self.old.core.harts }
        requires within { (hart_at self.old.core h).pc + 4 ≤ ram_bytes self.old.core.ram }
        requires sound { IsSound (ram_bytes self.old.core.ram) look.now.effect }
        ensures stays { HasParts self.old self.new }
        ensures settled { Settles P.Tag.eq P.model self.old h look.now self.new result }
        ensures harts { length self.new.core.harts ≡ length self.old.core.harts }
        ensures bytes { ram_bytes self.new.core.ram ≡ ram_bytes self.old.core.ram }
    {
        let _words = self.words(); // for the proof: what the engine is
        let Ok(_numbers) = self.sweep(&[]) else {
            return Err(AskEnd::Memory);
        };
        let mut rules = Asking::new(&self.policy, &self.masks);
        settle(
            &mut self.tags,
            &mut self.store,
            &mut rules,
            look.group,
            self.core.inputs(h, look),
        )
    }

    /// `ask_swept`, with what hart `h` is about to do, which is looked at once more.
    #[inline(never)]
    fn ask_looked(&mut self, h: u32) -> Result<OutWords, AskEnd>
        requires hart { h < length self.old.core.harts }
        requires looks { IsOk (look_result (hart_at self.old.core h) self.old.core.ram) }
        ensures stays { HasParts self.old self.new }
        ensures settled { (look : AnyLook)
            → look_result (hart_at self.old.core h) self.old.core.ram ≡ Ok look
            → Settles P.Tag.eq P.model self.old h look self.new result }
        ensures harts { length self.new.core.harts ≡ length self.old.core.harts }
        ensures bytes { ram_bytes self.new.core.ram ≡ ram_bytes self.old.core.ram }
    {
        match self.core.look(h) {
            Ok(look) => self.ask_swept(h, &look),
            Err(_) => unreachable!(),
        }
    }

    /// `ask_swept` for a turn that has its look. It hands on neither the look nor a place for the answer, so that turns without a sweep
    /// have them in registers.
    #[inline(always)]
    fn ask_anew(&mut self, h: u32, _look: &Look) -> Result<OutWords, AskEnd>
        requires hart { h < length self.old.core.harts }
        requires looked { look_result (hart_at self.old.core h) self.old.core.ram ≡ Ok _look.now }
        ensures stays { HasParts self.old self.new }
        ensures settled { Settles P.Tag.eq P.model self.old h _look.now self.new result }
        ensures harts { length self.new.core.harts ≡ length self.old.core.harts }
        ensures bytes { ram_bytes self.new.core.ram ≡ ram_bytes self.old.core.ram }
    {
        self.ask_looked(h)
    }

    /// The outputs of the rule as words; a sweep comes first where they need more than there may be.
    #[inline(always)]
    fn answered(&mut self, h: u32, look: &Look) -> Result<OutWords, AskEnd>
        requires hart { h < length self.old.core.harts }
        requires looked { look_result (hart_at self.old.core h) self.old.core.ram ≡ Ok look.now }
        requires within { (hart_at self.old.core h).pc + 4 ≤ ram_bytes self.old.core.ram }
        requires sound { IsSound (ram_bytes self.old.core.ram) look.now.effect }
        ensures stays { HasParts self.old self.new }
        ensures allowed { IfOk result (Allows P.Tag.eq P.model self.old h look.now self.new) }
        ensures unruled { IfErr result
            (Unruled P.Tag.eq P.model self.old h look.now self.new) }
        ensures kept { is_kept P.Tag.eq (key_in P.Tag.eq P.model self.old h look.now)
            (account_by_words P.model self.old) ≡ true → IsOk result }
        ensures harts { length self.new.core.harts ≡ length self.old.core.harts }
        ensures bytes { ram_bytes self.new.core.ram ≡ ram_bytes self.old.core.ram }
    {
        match self.ask(h, look) {
            Err(AskEnd::TagsOut) => self.ask_anew(h, look),
            answer => answer,
        }
    }

    /// Ends a turn whose rule gave no outputs.
    fn end_unanswered(&mut self, h: u32, end: AskEnd) -> TurnEnd
        requires { h < length self.old.core.harts }
        ensures state { self.new ≡ after_unanswered self.old h end }
        ensures end { result ≡ unanswered_end (hart_at self.old.core h).pc end }
        ensures harts { length self.new.core.harts ≡ length self.old.core.harts }
        ensures bytes { ram_bytes self.new.core.ram ≡ ram_bytes self.old.core.ram }
    {
        match end {
            AskEnd::Stopped(refused) => {
                let why = self.core.violation(h, refused);
                self.stop_hart(h, why)
            }
            AskEnd::TagsOut => self.run_out(),
            AskEnd::Memory => self.give_up(),
        }
    }

    /// The effect of an allowed instruction that is no service of the policy.
    #[inline(always)]
    fn effect(&mut self, h: u32, feed: &mut Feed, look: &Look, outs: OutWords) -> TurnEnd
        requires hart { h < length self.old.core.harts }
        requires own { is_call look.now.group ≡ false }
        requires sound { IsSound (ram_bytes self.old.core.ram) look.now.effect }
        requires out_words { AreOutWords (length self.old.table.tags) outs }
        ensures state { self.new ≡ after_effect self.old feed.old h look.now outs }
        ensures feed { feed.new ≡ (carried_at self.old.core feed.old h look.now outs).feed }
        ensures end { result ≡ end_of (carried_at self.old.core feed.old h look.now outs).done }
        ensures no_failure { (why : Stop) → IsFailure why → result ≢ TurnEnd.Stopped why }
        ensures harts { length self.new.core.harts ≡ length self.old.core.harts }
        ensures bytes { ram_bytes self.new.core.ram ≡ ram_bytes self.old.core.ram }
    {
        remember_effect(&mut self.log, &self.core, h, look, feed.peek());
        count_up(&mut self.turns);
        self.core.effect(h, feed, look, outs)
    }

    /// The same for an instruction that is neither an ECALL nor an EBREAK: the turn runs on, and the feed stays.
    #[inline(always)]
    fn step(&mut self, h: u32, look: &Look, outs: OutWords) -> TurnEnd
        requires hart { h < length self.old.core.harts }
        requires plain { is_system look.now.group ≡ false }
        requires sound { IsSound (ram_bytes self.old.core.ram) look.now.effect }
        requires out_words { AreOutWords (length self.old.table.tags) outs }
        ensures state { (feed : Tape) → self.new ≡ after_effect self.old feed h look.now outs }
        ensures feed { (feed : Tape) → feed ≡ (carried_at self.old.core feed h look.now outs).feed }
        ensures end { (feed : Tape)
            → result ≡ end_of (carried_at self.old.core feed h look.now outs).done }
        ensures ran { result ≡ TurnEnd.Ran None }
        ensures harts { length self.new.core.harts ≡ length self.old.core.harts }
        ensures bytes { ram_bytes self.new.core.ram ≡ ram_bytes self.old.core.ram }
    {
        remember_step(&mut self.log, &self.core, h, look);
        count_up(&mut self.turns);
        self.core.step(h, look, outs);
        TurnEnd::Ran(None)
    }

    /// What the words of the table stand for.
    pub(crate) fn decoder(&self) -> Decoder<'_, T>
        ensures tags { T.state result.tags.now ≡ self.now.table }
        ensures plain { result.plain ≡ P.model.plain self.now.policy }
    {
        Decoder {
            tags: &self.tags,
            plain: self.policy.plain(),
        }
    }

    /// What the policy's service that hart `h` calls is asked with.
    #[inline(always)]
    fn service_call(&self, h: u32, outs: OutWords) -> ServiceCall<'_, T>
        requires { h < length self.now.core.harts }
        ensures service { (look : AnyLook) → service_in P.Tag.eq P.model self.now h look outs
            ≡ job_over P.model self.now.policy result.memory.decoder.plain
            (T.state result.memory.decoder.tags.now) result.memory.ram.now look.service
            result.arguments result.pc }
        ensures memory { result.memory.ram.now ≡ self.now.core.ram }
        ensures bytes { result.arguments.ram ≡ ram_bytes self.now.core.ram }
    {
        let decoder = self.decoder();
        let arguments = self.core.arguments(h).map(&decoder);
        let pc = decoder.image(outs.pc);
        let memory = Decoded {
            ram: self.core.ram(),
            decoder,
        };
        ServiceCall {
            arguments,
            pc,
            memory,
        }
    }

    /// The policy's service that hart `h` calls, up to its effect.
    fn plan(&self, h: u32, look: &Look, outs: OutWords) -> Result<Job<P::Tag>, ServeEnd>
        requires hart { h < length self.now.core.harts }
        requires known { IsTrue (P.model.knows self.now.policy look.now.service) }
        ensures ok { IfOk result (λ job. service_in P.Tag.eq P.model self.now h look.now outs
            ≡ Ok (job_by job.plan job.words.items)) }
        ensures err { IfErr result
            (λ end. EndsAs end (service_in P.Tag.eq P.model self.now h look.now outs)) }
        // Running out of memory is told only of a service that nothing refuses and that has words to write.
        ensures memory { result ≡ Err ServeEnd.Memory
            → IsOkAnd (service_in P.Tag.eq P.model self.now h look.now outs)
            (λ job. 1 ≤ length job.words) }
        ensures places { IfOk result
            (λ job. All (λ word. IsPlace (ram_bytes self.now.core.ram) word.0) job.words.items) }
        ensures given { IfOk result (λ job. IsGiven P.model self.now.policy job.plan) }
    {
        let call = self.service_call(h, outs);
        serve(
            self.alloc,
            &self.policy,
            look.service,
            &call.arguments,
            call.pc,
            &call.memory,
        )
    }

    /// Carries out a service that nothing refused, unless what it writes has no words without a sweep, which changes nothing. What it
    /// writes gets words, its record is taken, and the policy takes note, before anything is written, since those alone can fail.
    fn try_out(
        &mut self,
        h: u32,
        look: &Look,
        outs: OutWords,
        job: &Job<P::Tag>,
    ) -> Result<TurnEnd, InternEnd>
        requires hart { h < length self.old.core.harts }
        requires given { IsGiven P.model self.old.policy job.now.plan }
        requires places { All (λ word. IsPlace (ram_bytes self.old.core.ram) word.0)
            job.now.words.items }
        requires aligned { look.now.effect.next % 4 ≡ 0 }
        requires out_words { AreOutWords (length self.old.table.tags) outs }
        ensures tries { TriesOut P.Tag.eq P.model self.old h look.now outs
            (job_by job.now.plan job.now.words.items) self.new result }
        ensures harts { length self.new.core.harts ≡ length self.old.core.harts }
        ensures bytes { ram_bytes self.new.core.ram ≡ ram_bytes self.old.core.ram }
    {
        let len = self.tags.len();
        let written = match intern_job(self.alloc, &mut self.tags, job) {
            Ok(written) => written,
            Err(end) => return Err(end),
        };
        let Ok(made) = service_record(
            &self.log,
            self.alloc,
            &self.core,
            h,
            &written.words,
            &job.plan,
        ) else {
            self.tags.cut(len);
            return Ok(self.give_up());
        };
        if self.policy.commit(&job.plan).is_err() {
            self.tags.cut(len);
            return Ok(self.give_up());
        }
        push_if(&mut self.log, made);
        self.core.serve(
            h,
            &written.words,
            written.answer,
            look.effect.next(),
            outs.pc,
        );
        count_up(&mut self.turns);
        Ok(TurnEnd::Ran(None))
    }

    /// Carries out a service that nothing refused, behind a sweep: what it writes had no words.
    fn carry_out_swept(&mut self, h: u32, look: &Look, outs: OutWords, job: &Job<P::Tag>) -> TurnEnd
        requires hart { h < length self.old.core.harts }
        requires given { IsGiven P.model self.old.policy job.now.plan }
        requires places { All (λ word. IsPlace (ram_bytes self.old.core.ram) word.0)
            job.now.words.items }
        requires aligned { look.now.effect.next % 4 ≡ 0 }
        requires out_words { AreOutWords (length self.old.table.tags) outs }
        requires over { is_over (seeing P.Tag.eq (written_tags
            (job_by job.now.plan job.now.words.items)) (account_by_words P.model self.old)) ≡ true }
        ensures ends { CarriesOut P.Tag.eq P.model self.old h look.now outs
            (job_by job.now.plan job.now.words.items) self.new result }
        ensures harts { length self.new.core.harts ≡ length self.old.core.harts }
        ensures bytes { ram_bytes self.new.core.ram ≡ ram_bytes self.old.core.ram }
    {
        let Ok(numbers) = self.sweep(&[outs.pc, outs.result]) else {
            return self.give_up();
        };
        let moved = OutWords {
            pc: numbers[outs.pc as usize],
            result: numbers[outs.result as usize],
        };
        match self.try_out(h, look, moved, job) {
            Ok(end) => end,
            Err(InternEnd::Full) => self.run_out(),
            Err(InternEnd::Memory) => self.give_up(),
        }
    }

    /// Carries out a service that nothing refused; a sweep comes first where what it writes needs more words than there may be.
    fn carry_out(&mut self, h: u32, look: &Look, outs: OutWords, job: &Job<P::Tag>) -> TurnEnd
        requires hart { h < length self.old.core.harts }
        requires given { IsGiven P.model self.old.policy job.now.plan }
        requires places { All (λ word. IsPlace (ram_bytes self.old.core.ram) word.0)
            job.now.words.items }
        requires aligned { look.now.effect.next % 4 ≡ 0 }
        requires out_words { AreOutWords (length self.old.table.tags) outs }
        ensures ends { CarriesOut P.Tag.eq P.model self.old h look.now outs
            (job_by job.now.plan job.now.words.items) self.new result }
        ensures harts { length self.new.core.harts ≡ length self.old.core.harts }
        ensures bytes { ram_bytes self.new.core.ram ≡ ram_bytes self.old.core.ram }
    {
        match self.try_out(h, look, outs, job) {
            Ok(end) => end,
            Err(InternEnd::Full) => self.carry_out_swept(h, look, outs, job),
            Err(InternEnd::Memory) => self.give_up(),
        }
    }

    /// A call of a policy's service that the rule allowed.
    #[inline(never)]
    fn service(&mut self, h: u32, look: &Look, outs: OutWords) -> TurnEnd
        requires hart { h < length self.old.core.harts }
        requires known { IsTrue (P.model.knows self.old.policy look.now.service) }
        requires aligned { look.now.effect.next % 4 ≡ 0 }
        requires out_words { AreOutWords (length self.old.table.tags) outs }
        ensures ends { EndsService P.Tag.eq P.model self.old h look.now outs self.new result }
        ensures harts { length self.new.core.harts ≡ length self.old.core.harts }
        ensures bytes { ram_bytes self.new.core.ram ≡ ram_bytes self.old.core.ram }
    {
        match self.plan(h, look, outs) {
            Ok(job) => self.carry_out(h, look, outs, &job),
            Err(ServeEnd::Refused(refused)) => {
                let why = self.core.violation(h, refused);
                self.stop_hart(h, why)
            }
            Err(ServeEnd::Spent) => self.stop_hart(h, Stop::Fault(Fault::Spent(look.service))),
            Err(ServeEnd::Memory) => self.give_up(),
        }
    }

    /// A turn of hart `h`, whichever it is, remembered where turns are. It stays a call: few turns of an engine that remembers none
    /// fail a check, or make an ECALL or an EBREAK, and every turn's code would be larger by what those take. That it is rare is told to
    /// the compiler, which else spares registers for it at every turn.
    #[cold]
    #[inline(never)]
    #[tactic(auto)]
    fn rare_turn(&mut self, h: u32, feed: &mut Feed) -> TurnEnd
        requires hart { h < length (standing_by_words P.model self.old).machine.core.harts }
        requires ready { is_ready (standing_by_words P.model self.old) h ≡ true }
        ensures step { result ≢ TurnEnd.Memory
            → step P.Tag.eq P.model (standing_by_words P.model self.old) feed.old h
            ≡ record { standing = standing_by_words P.model self.new; feed = feed.new; ended = result } }
        ensures memory { result ≡ TurnEnd.Memory
            → GivesUp P.Tag.eq P.model (standing_by_words P.model self.old) feed.old h
            (standing_by_words P.model self.new) feed.new }
        ensures failure { (why : Stop) → IsFailure why → result ≡ TurnEnd.Stopped why
            → StopsOnly (standing_by_words P.model self.old) feed.old h why
            (standing_by_words P.model self.new) feed.new }
        ensures busy { result ≢ TurnEnd.Idle }
        ensures harts { length (standing_by_words P.model self.new).machine.core.harts
            ≡ length (standing_by_words P.model self.old).machine.core.harts }
        ensures ram { ram_bytes (standing_by_words P.model self.new).machine.core.ram
            ≡ ram_bytes (standing_by_words P.model self.old).machine.core.ram }
        // A turn whose rule is kept takes no memory, but for a service of the policy that nothing refuses.
        ensures kept { result ≡ TurnEnd.Memory
            → takes_memory P.Tag.eq P.model (standing_by_words P.model self.old) h ≡ true }
    {
        // Serves the proof alone: no more tags have words than may.
        let _ready = self.is_ready(h);
        let look = match self.prepare(h) {
            Ok(look) => look,
            Err(why) => return self.stop_hart(h, why),
        };
        let outs = match self.answered(h, &look) {
            Ok(outs) => outs,
            Err(end) => return self.end_unanswered(h, end),
        };
        if is_call(look.group) {
            return self.service(h, &look, outs);
        }
        self.effect(h, feed, &look, outs)
    }

    /// Learns which of the words are open that came since the last time, where the policy refuses some look. Where memory runs out,
    /// nothing is known.
    #[cold]
    #[inline(never)]
    fn learn(&mut self)
        ensures { self.new ≡ self.old }
    {
        if !self.policy.peeks() {
            return;
        }
        let words = Decoder {
            tags: &self.tags,
            plain: self.policy.plain(),
        };
        let _learned = self.open_words.learn(&self.policy, &words);
    }

    /// The turn of a hart that is ready.
    #[inline(always)]
    #[tactic(auto)]
    pub(crate) fn turn_of_ready(&mut self, h: u32, feed: &mut Feed) -> TurnEnd
        requires hart { h < length (standing_by_words P.model self.old).machine.core.harts }
        requires ready { is_ready (standing_by_words P.model self.old) h ≡ true }
        ensures step { result ≢ TurnEnd.Memory
            → step P.Tag.eq P.model (standing_by_words P.model self.old) feed.old h
            ≡ record { standing = standing_by_words P.model self.new; feed = feed.new; ended = result } }
        ensures memory { result ≡ TurnEnd.Memory
            → GivesUp P.Tag.eq P.model (standing_by_words P.model self.old) feed.old h
            (standing_by_words P.model self.new) feed.new }
        ensures failure { (why : Stop) → IsFailure why → result ≡ TurnEnd.Stopped why
            → StopsOnly (standing_by_words P.model self.old) feed.old h why
            (standing_by_words P.model self.new) feed.new }
        ensures busy { result ≢ TurnEnd.Idle }
        ensures harts { length (standing_by_words P.model self.new).machine.core.harts
            ≡ length (standing_by_words P.model self.old).machine.core.harts }
        ensures ram { ram_bytes (standing_by_words P.model self.new).machine.core.ram
            ≡ ram_bytes (standing_by_words P.model self.old).machine.core.ram }
        // A turn whose rule is kept takes no memory, but for a service of the policy that nothing refuses.
        ensures kept { result ≡ TurnEnd.Memory
            → takes_memory P.Tag.eq P.model (standing_by_words P.model self.old) h ≡ true }
    {
        // Serves the proof alone: no more tags have words than may.
        let _ready = self.is_ready(h);
        let Some(look) = self.step_look(h) else {
            self.learn();
            return self.rare_turn(h, feed);
        };
        let outs = match self.answered(h, &look) {
            Ok(outs) => outs,
            Err(end) => return self.end_unanswered(h, end),
        };
        self.step(h, &look, outs)
    }
}
