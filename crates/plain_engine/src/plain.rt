//! The engine that keeps tags as values and asks its policy at every turn.

ghost use Rattle.std.specs.Prelude.{◌≡◌, ◌≢◌, ◌+◌, ◌%◌, ◌<◌, ◌≤◌, [], Err, Ok, Some, None, IfErr, IfOk, IfSome, IsOk, IsTrue, OnOk, OnSome, false, is_ok, true, length};
ghost use Rattle.std.specs.List.{All};
ghost use Rattle.policy_trait.specs.Model.{IsGiven};
ghost use Rattle.monitor_calls.specs.Ends.{EndsAs, job_by};
ghost use Rattle.turn_steps.specs.Effects.{IsSound};
ghost use Rattle.turn_steps.specs.Feeds.{Tape, tape_of};
ghost use Rattle.tag_memory.specs.Hart.{reg_tag, reg_value};
ghost use Rattle.tag_memory.specs.Ram.{IsPlace, ram_bytes, ram_tag, ram_word};
ghost use Rattle.undo_log.specs.Past.{past_of};
ghost use Rattle.engine_trait.specs.Accounts.{IsUncached};
ghost use Rattle.engine_trait.specs.Machine.{IsMachine, hart_at, stop_at};
ghost use Rattle.engine_trait.specs.Standing.{GivesUp, IsFailure, StopsOnly, Unchanged, is_ready, step};
ghost use Rattle.engine_trait.specs.Turn.{is_offered, is_served, may_look, preparation, rule_answer, service_on, stopped_at, turn_effect, violation};
ghost use Rattle.turn_steps.specs.Looks.{is_call, is_system, look_result, unless_system};
ghost use Rattle.turn_steps.specs.Peeks.{looks_allowed};
ghost use Rattle.plain_engine.specs.Plain.{EndsService, after_asked, after_look_up, after_turn, given_up, machine_of, standing_of, where_seen};

use engine_trait::{Core, Counts, Engine, Feed, Halt, Stop, TurnEnd};
use monitor_calls::{Job, ServeEnd, serve};
use policy_trait::{Outs, Policy, Refused, Shape};
use rv_decode::Instr;
use rv_step::Fault;
use shared_terms::count_up;
use std::alloc::Global;
use std::marker::Model;
use tag_memory::{Hart, Ram};
use turn_steps::{Look, Looks, Peeks, is_call};

/// An engine that keeps tags as values and asks its policy at every turn. Contracts see it as a `Standing`.
#[derive(Drop)]
pub struct Plain<P: Policy> {
    pub(crate) alloc: Global,
    pub(crate) policy: P,
    pub(crate) core: Core<P::Tag>,
    // Turns that ended once their rule was looked up, and those that a check stopped before that.
    asked: u64,
    unasked: u64,
    halt: Option<Halt>,
}

/// A policy, asked by its own tags whether a turn may look at values.
#[derive(Drop)]
struct OwnPeeks<'a, P: Policy> {
    policy: &'a P,
}

impl<P: Policy> Peeks for OwnPeeks<'_, P> {
    type Tag = P::Tag;

    ghost answer = { λ p. P.model.peek p.policy.now };

    fn answer(&self, shape: Shape, first: &P::Tag, second: &P::Tag) -> Result<(), Refused> {
        self.policy.peek(shape, first, second)
    }
}

impl<P: Policy> Model for Plain<P> {
    ghost use Rattle.engine_trait.specs.Standing.{Standing};
    ghost use Rattle.plain_engine.specs.Plain.{IsPlain, engine_of};

    ghost Value = { Standing P P.Tag };

    ghost view = { λ p. engine_of p.policy p.core p.asked p.unasked p.halt };

    ghost invariant = { λ p. IsPlain P.model (engine_of p.policy p.core p.asked p.unasked p.halt) };
}

impl<P: Policy> Plain<P> {
    /// The engine of these parts, of 1 to 8 harts: no hart has stopped, and the counts are 0.
    pub fn new(alloc: Global, policy: P, ram: Ram<P::Tag>, harts: Vec<Hart<P::Tag>>) -> Plain<P>
        requires { IsMachine P.model (machine_of policy harts.items ram) }
        ensures { result ≡ standing_of policy harts.items ram }
    {
        Plain {
            alloc,
            policy,
            core: Core::new(ram, harts),
            asked: 0,
            unasked: 0,
            halt: None,
        }
    }

    /// Whether hart `h` can have a turn: neither it nor the engine has stopped.
    #[inline(always)]
    pub(crate) fn is_ready(&self, h: u32) -> bool
        requires { h < length self.now.machine.core.harts }
        ensures ready { result ≡ is_ready self.now h }
        ensures running { IsTrue result → self.now.account.halt ≡ None }
        ensures uncached { IsUncached self.now.account }
        ensures unremembered { self.now.account.past ≡ past_of [] 0 }
    {
        self.halt.is_none() && self.core.stop(h).is_none()
    }

    /// What the proofs of an engine above this one cite: that it remembers no turn.
    #[inline(always)]
    pub(crate) fn forgets(&self)
        ensures { self.now.account.past ≡ past_of [] 0 }
    {
        let _halt = &self.halt;
    }

    /// Whether the service that is called, if one is, is one that the machine or the policy offers.
    #[inline(always)]
    fn is_offered(&self, look: &Look) -> bool
        ensures { result ≡ is_offered P.model self.now.machine look.now }
    {
        !is_call(look.group) || self.policy.knows(look.service)
    }

    /// Whether the policy lets hart `h` look at what its turn looks at before the rule.
    #[inline(always)]
    fn peeked(&self, h: u32) -> Result<(), Refused>
        requires { h < length self.now.machine.core.harts }
        ensures { result ≡ may_look P.model self.now.machine h }
    {
        if !self.policy.peeks() {
            return Ok(());
        }
        let peeks = OwnPeeks {
            policy: &self.policy,
        };
        self.core.peeked(h, &peeks)
    }

    /// What hart `h` is about to do, where the policy lets it look, every check passes, and it makes neither an ECALL nor an EBREAK;
    /// `None` else.
    #[inline(always)]
    pub(crate) fn step_look(&self, h: u32) -> Option<Look>
        requires hart { h < length self.now.machine.core.harts }
        ensures value { result ≡ where_seen (may_look P.model self.now.machine h) (unless_system
            (look_result (hart_at self.now.machine.core h) self.now.machine.core.ram)) }
        ensures seen { OnSome result (may_look P.model self.now.machine h ≡ Ok tt) }
        ensures looked { IfSome result (λ look.
            look_result (hart_at self.now.machine.core h) self.now.machine.core.ram ≡ Ok look) }
        ensures plain { IfSome result (λ look. is_system look.group ≡ false) }
        ensures within { IfSome result (λ look. (hart_at self.now.machine.core h).pc + 4
            ≤ ram_bytes self.now.machine.core.ram) }
        ensures sound { IfSome result
            (λ look. IsSound (ram_bytes self.now.machine.core.ram) look.effect) }
    {
        let look = self.core.step_look(h)?;
        if !self.lets_look(h, &look) {
            return None;
        }
        Some(look)
    }

    /// Whether the policy lets hart `h` look at what it looks at before the rule of what it is about to do.
    #[inline(always)]
    fn lets_look(&self, h: u32, look: &Look) -> bool
        requires hart { h < length self.now.machine.core.harts }
        requires looked { look_result (hart_at self.now.machine.core h) self.now.machine.core.ram
            ≡ Ok look.now }
        requires within { (hart_at self.now.machine.core h).pc + 4
            ≤ ram_bytes self.now.machine.core.ram }
        ensures { result ≡ is_ok (may_look P.model self.now.machine h) }
    {
        !self.policy.peeks() || self.allows(&self.core.looks(h, look))
    }

    /// Whether the policy allows these looks.
    #[inline(never)]
    fn allows(&self, looks: &Looks<P::Tag>) -> bool
        ensures { result ≡ is_ok (looks_allowed (P.model.peek self.now.machine.policy)
            (P.model.plain self.now.machine.policy) looks.now) }
    {
        let plain = self.policy.plain();
        let word = self.policy.peek(Shape::Word, &looks.word, &plain);
        word.is_ok()
            && match &looks.operands {
                None => true,
                Some(look) => self
                    .policy
                    .peek(look.shape, &look.first, &look.second)
                    .is_ok(),
            }
    }

    /// The checks of hart `h`'s turn.
    #[inline(always)]
    #[tactic(auto, unfolding(engine_trait::specs::Turn::preparation))]
    pub(crate) fn prepare(&self, h: u32) -> Result<Look, Stop>
        requires { h < length self.now.machine.core.harts }
        ensures value { result ≡ preparation P.model self.now.machine h }
        ensures within { OnOk result ((hart_at self.now.machine.core h).pc + 4
            ≤ ram_bytes self.now.machine.core.ram) }
        ensures sound { IfOk result
            (λ look. IsSound (ram_bytes self.now.machine.core.ram) look.effect) }
        ensures offered { IfOk result (λ look. is_offered P.model self.now.machine look ≡ true) }
    {
        if let Err(refused) = self.peeked(h) {
            return Err(self.core.violation(h, refused));
        }
        let look = match self.core.look(h) {
            Ok(look) => look,
            Err(fault) => return Err(Stop::Fault(fault)),
        };
        if !self.is_offered(&look) {
            return Err(Stop::Fault(Fault::NoService(look.service)));
        }
        Ok(look)
    }

    /// The answer of the rule, which reads the tags where they stand.
    #[inline(always)]
    #[tactic(auto, unfolding(engine_trait::specs::Turn::rule_answer))]
    pub(crate) fn ask(&self, h: u32, look: &Look) -> Result<Outs<P::Tag>, Stop>
        requires hart { h < length self.now.machine.core.harts }
        requires within { (hart_at self.now.machine.core h).pc + 4
            ≤ ram_bytes self.now.machine.core.ram }
        requires sound { IsSound (ram_bytes self.now.machine.core.ram) look.now.effect }
        ensures { result ≡ rule_answer P.model self.now.machine h look.now }
    {
        match self
            .policy
            .rule_at(look.group, &self.core.inputs_at(h, look))
        {
            Ok(outs) => Ok(outs),
            Err(refused) => Err(self.violation(h, refused)),
        }
    }

    /// How hart `h` stops where a rule refused.
    #[cold]
    #[inline(never)]
    fn violation(&self, h: u32, refused: Refused) -> Stop
        requires { h < length self.now.machine.core.harts }
        ensures { result ≡ violation (hart_at self.now.machine.core h).pc refused }
    {
        self.core.violation(h, refused)
    }

    /// Counts a turn that a check stopped, and stops hart `h`.
    pub(crate) fn stop_unasked(&mut self, h: u32, why: Stop) -> TurnEnd
        requires { h < length self.old.machine.core.harts }
        ensures standing { self.new ≡ after_turn self.old (stopped_at self.old.machine h why) }
        ensures end { result ≡ TurnEnd.Stopped why }
    {
        self.core.stop_hart(h, why);
        count_up(&mut self.unasked);
        TurnEnd::Stopped(why)
    }

    /// Counts a turn that looked its rule up, and its look-up.
    #[inline(always)]
    fn count_asked(&mut self)
        ensures { self.new ≡ after_asked self.old self.old.machine }
    {
        count_up(&mut self.asked);
    }

    /// Counts a turn that was stopped once its rule was looked up, and stops hart `h`.
    #[cold]
    #[inline(never)]
    pub(crate) fn stop_asked(&mut self, h: u32, why: Stop) -> TurnEnd
        requires { h < length self.old.machine.core.harts }
        ensures standing { self.new ≡ after_asked self.old (stopped_at self.old.machine h why) }
        ensures end { result ≡ TurnEnd.Stopped why }
    {
        self.core.stop_hart(h, why);
        self.count_asked();
        TurnEnd::Stopped(why)
    }

    /// Stops the engine as a whole, since memory ran out in a turn that looked its rule up.
    pub(crate) fn give_up(&mut self) -> TurnEnd
        requires { self.old.account.halt ≡ None }
        ensures standing { self.new ≡ given_up (after_look_up self.old) }
        ensures end { result ≡ TurnEnd.Memory }
    {
        self.halt = Some(Halt::Memory);
        TurnEnd::Memory
    }

    /// The effect of an allowed instruction that is no service of the policy.
    #[inline(always)]
    pub(crate) fn effect(
        &mut self,
        h: u32,
        feed: &mut Feed,
        look: &Look,
        outs: Outs<P::Tag>,
    ) -> TurnEnd
        requires hart { h < length self.old.machine.core.harts }
        requires own { is_call look.now.group ≡ false }
        requires sound { IsSound (ram_bytes self.old.machine.core.ram) look.now.effect }
        ensures standing { self.new ≡ after_asked self.old
            (turn_effect P.model self.old.machine feed.old h look.now outs None).machine }
        ensures feed { feed.new
            ≡ (turn_effect P.model self.old.machine feed.old h look.now outs None).feed }
        ensures end { result
            ≡ (turn_effect P.model self.old.machine feed.old h look.now outs None).ended }
        ensures no_failure { (why : Stop) → IsFailure why → result ≢ TurnEnd.Stopped why }
        ensures harts { length self.new.machine.core.harts ≡ length self.old.machine.core.harts }
        ensures bytes { ram_bytes self.new.machine.core.ram ≡ ram_bytes self.old.machine.core.ram }
    {
        let end = self.core.effect(h, feed, look, outs);
        self.count_asked();
        end
    }

    /// The same for an instruction that is neither an ECALL nor an EBREAK: the turn runs on, and the feed stays.
    #[inline(always)]
    pub(crate) fn step(&mut self, h: u32, look: &Look, outs: Outs<P::Tag>) -> TurnEnd
        requires hart { h < length self.old.machine.core.harts }
        requires plain { is_system look.now.group ≡ false }
        requires sound { IsSound (ram_bytes self.old.machine.core.ram) look.now.effect }
        ensures standing { (feed : Tape) → self.new ≡ after_asked self.old
            (turn_effect P.model self.old.machine feed h look.now outs None).machine }
        ensures feed { (feed : Tape) → feed
            ≡ (turn_effect P.model self.old.machine feed h look.now outs None).feed }
        ensures end { (feed : Tape) → result
            ≡ (turn_effect P.model self.old.machine feed h look.now outs None).ended }
        ensures ran { result ≡ TurnEnd.Ran None }
        ensures harts { length self.new.machine.core.harts ≡ length self.old.machine.core.harts }
        ensures bytes { ram_bytes self.new.machine.core.ram ≡ ram_bytes self.old.machine.core.ram }
    {
        self.core.step(h, look, outs);
        self.count_asked();
        TurnEnd::Ran(None)
    }

    /// The policy's service that hart `h` calls, up to its effect.
    #[tactic(auto, unfolding(engine_trait::specs::Turn::service_on))]
    pub(crate) fn plan(
        &self,
        h: u32,
        look: &Look,
        outs: Outs<P::Tag>,
    ) -> Result<Job<P::Tag>, ServeEnd>
        requires hart { h < length self.now.machine.core.harts }
        requires known { IsTrue (P.model.knows self.now.machine.policy look.now.service) }
        ensures ok { IfOk result (λ job. service_on P.model self.now.machine h look.now outs
            ≡ Ok (job_by job.plan job.words.items)) }
        ensures err { IfErr result
            (λ end. EndsAs end (service_on P.model self.now.machine h look.now outs)) }
        ensures memory { result ≡ Err ServeEnd.Memory
            → IsOk (service_on P.model self.now.machine h look.now outs) }
        ensures places { IfOk result
            (λ job. All (λ word. IsPlace (ram_bytes self.now.machine.core.ram) word.0)
            job.words.items) }
        ensures given { IfOk result (λ job. IsGiven P.model self.now.machine.policy job.plan) }
    {
        let arguments = self.core.arguments(h);
        serve(
            self.alloc,
            &self.policy,
            look.service,
            &arguments,
            outs.pc,
            self.core.ram(),
        )
    }

    /// Carries out a service that nothing refused. The policy takes note first, since that alone can fail.
    pub(crate) fn carry_out(
        &mut self,
        h: u32,
        look: &Look,
        outs: Outs<P::Tag>,
        job: &Job<P::Tag>,
    ) -> TurnEnd
        requires hart { h < length self.old.machine.core.harts }
        requires given { IsGiven P.model self.old.machine.policy job.now.plan }
        requires places { All (λ word. IsPlace (ram_bytes self.old.machine.core.ram) word.0)
            job.now.words.items }
        requires aligned { look.now.effect.next % 4 ≡ 0 }
        requires running { self.old.account.halt ≡ None }
        ensures served { result ≢ TurnEnd.Memory
            → self.new ≡ after_asked self.old (turn_effect P.model self.old.machine (tape_of []) h
            look.now outs (Some (job_by job.now.plan job.now.words.items))).machine }
        ensures memory { result ≡ TurnEnd.Memory
            → self.new ≡ given_up (after_look_up self.old) }
        ensures end { result ≢ TurnEnd.Memory → result ≡ TurnEnd.Ran None }
        ensures harts { length self.new.machine.core.harts ≡ length self.old.machine.core.harts }
        ensures bytes { ram_bytes self.new.machine.core.ram ≡ ram_bytes self.old.machine.core.ram }
    {
        if self.policy.commit(&job.plan).is_err() {
            return self.give_up();
        }
        self.core.serve(h, &job.words, job.plan.answer, look.effect.next(), outs.pc);
        self.count_asked();
        TurnEnd::Ran(None)
    }

    /// A call of a policy's service that the rule allowed.
    #[inline(never)]
    #[tactic(auto, unfolding(engine_trait::specs::Turn::turn_job))]
    fn service(&mut self, h: u32, look: &Look, outs: Outs<P::Tag>) -> TurnEnd
        requires hart { h < length self.old.machine.core.harts }
        requires call { is_call look.now.group ≡ true }
        requires known { IsTrue (P.model.knows self.old.machine.policy look.now.service) }
        requires aligned { look.now.effect.next % 4 ≡ 0 }
        requires running { self.old.account.halt ≡ None }
        ensures served { result ≢ TurnEnd.Memory
            → EndsService P.model self.old h look.now outs result self.new }
        ensures memory { result ≡ TurnEnd.Memory
            → self.new ≡ given_up (after_look_up self.old) }
        ensures unrefused { result ≡ TurnEnd.Memory
            → IsOk (service_on P.model self.old.machine h look.now outs) }
        ensures busy { result ≢ TurnEnd.Idle }
        ensures words { result ≢ TurnEnd.TagsOut }
        ensures failure { (why : Stop) → IsFailure why → result ≡ TurnEnd.Stopped why
            → self.new.machine ≡ stopped_at self.old.machine h why }
        ensures harts { length self.new.machine.core.harts ≡ length self.old.machine.core.harts }
        ensures bytes { ram_bytes self.new.machine.core.ram ≡ ram_bytes self.old.machine.core.ram }
    {
        match self.plan(h, look, outs) {
            Ok(job) => self.carry_out(h, look, outs, &job),
            Err(ServeEnd::Refused(refused)) => {
                let why = self.core.violation(h, refused);
                self.stop_asked(h, why)
            }
            Err(ServeEnd::Spent) => self.stop_asked(h, Stop::Fault(Fault::Spent(look.service))),
            Err(ServeEnd::Memory) => self.give_up(),
        }
    }

    /// A turn of hart `h`, whichever it is. It stays a call: few turns fail a check, or make an ECALL or an EBREAK, and every turn's code
    /// would be larger by what those take. That it is rare is told to the compiler, which else spares registers for it at every turn.
    #[cold]
    #[inline(never)]
    #[tactic(auto)]
    fn rare_turn(&mut self, h: u32, feed: &mut Feed) -> TurnEnd
        requires hart { h < length self.old.machine.core.harts }
        requires ready { is_ready self.old h ≡ true }
        ensures step { result ≢ TurnEnd.Memory
            → step P.Tag.eq P.model self.old feed.old h
            ≡ record { standing = self.new; feed = feed.new; ended = result } }
        ensures memory { result ≡ TurnEnd.Memory
            → GivesUp P.Tag.eq P.model self.old feed.old h self.new feed.new }
        ensures failure { (why : Stop) → IsFailure why → result ≡ TurnEnd.Stopped why
            → StopsOnly self.old feed.old h why self.new feed.new }
        ensures busy { result ≢ TurnEnd.Idle }
        ensures harts { length self.new.machine.core.harts ≡ length self.old.machine.core.harts }
        ensures ram { ram_bytes self.new.machine.core.ram ≡ ram_bytes self.old.machine.core.ram }
        // It never runs out of tag numbers, and of memory only in a policy's service that nothing refuses.
        ensures words { result ≢ TurnEnd.TagsOut }
        ensures served { result ≡ TurnEnd.Memory → is_served P.model self.old.machine h ≡ true }
    {
        // Serves the proof alone: no rules are kept.
        let _ready = self.is_ready(h);
        let look = match self.prepare(h) {
            Ok(look) => look,
            Err(why) => return self.stop_unasked(h, why),
        };
        let outs = match self.ask(h, &look) {
            Ok(outs) => outs,
            Err(why) => return self.stop_asked(h, why),
        };
        if is_call(look.group) {
            return self.service(h, &look, outs);
        }
        self.effect(h, feed, &look, outs)
    }
}

impl<P: Policy> Engine for Plain<P> {
    type P = P;

    ghost standing = { λ p. p };

    #[inline(always)]
    #[tactic(auto)]
    fn turn(&mut self, h: u32, feed: &mut Feed) -> TurnEnd
        requires { h < length self.old.machine.core.harts }
        ensures step { result ≢ TurnEnd.Memory
            → step P.Tag.eq P.model self.old feed.old h
            ≡ record { standing = self.new; feed = feed.new; ended = result } }
        ensures memory { result ≡ TurnEnd.Memory
            → GivesUp P.Tag.eq P.model self.old feed.old h self.new feed.new }
        ensures failure { (why : Stop) → IsFailure why → result ≡ TurnEnd.Stopped why
            → StopsOnly self.old feed.old h why self.new feed.new }
        ensures idle { result ≡ TurnEnd.Idle → Unchanged self.old feed.old self.new feed.new }
        ensures harts { length self.new.machine.core.harts ≡ length self.old.machine.core.harts }
        ensures ram { ram_bytes self.new.machine.core.ram ≡ ram_bytes self.old.machine.core.ram }
        // It never runs out of tag numbers, and of memory only in a policy's service that nothing refuses.
        ensures words { result ≢ TurnEnd.TagsOut }
        ensures served { result ≡ TurnEnd.Memory → is_served P.model self.old.machine h ≡ true }
    {
        if !self.is_ready(h) {
            return TurnEnd::Idle;
        }
        self.ready_turn(h, feed)
    }

    #[inline(always)]
    #[tactic(auto)]
    fn ready_turn(&mut self, h: u32, feed: &mut Feed) -> TurnEnd
        requires hart { h < length self.old.machine.core.harts }
        requires ready { is_ready self.old h ≡ true }
        ensures step { result ≢ TurnEnd.Memory
            → step P.Tag.eq P.model self.old feed.old h
            ≡ record { standing = self.new; feed = feed.new; ended = result } }
        ensures memory { result ≡ TurnEnd.Memory
            → GivesUp P.Tag.eq P.model self.old feed.old h self.new feed.new }
        ensures failure { (why : Stop) → IsFailure why → result ≡ TurnEnd.Stopped why
            → StopsOnly self.old feed.old h why self.new feed.new }
        ensures busy { result ≢ TurnEnd.Idle }
        ensures harts { length self.new.machine.core.harts ≡ length self.old.machine.core.harts }
        ensures ram { ram_bytes self.new.machine.core.ram ≡ ram_bytes self.old.machine.core.ram }
        // It never runs out of tag numbers, and of memory only in a policy's service that nothing refuses.
        ensures words { result ≢ TurnEnd.TagsOut }
        ensures served { result ≡ TurnEnd.Memory → is_served P.model self.old.machine h ≡ true }
    {
        // Serves the proof alone: no rules are kept.
        let _ready = self.is_ready(h);
        let Some(look) = self.step_look(h) else {
            return self.rare_turn(h, feed);
        };
        let outs = match self.ask(h, &look) {
            Ok(outs) => outs,
            Err(why) => return self.stop_asked(h, why),
        };
        self.step(h, &look, outs)
    }

    fn remembered(&self) -> u32 {
        // Serves the proof alone: what reads the engine knows the invariant, that it keeps no record.
        let _halt = &self.halt;
        0
    }

    /// No turn is remembered.
    fn back(&mut self, _feed: &mut Feed) -> bool {
        // Serves the proof alone: what reads the engine knows the invariant, that it keeps no record.
        let _halt = &self.halt;
        false
    }

    fn harts(&self) -> u32 {
        self.core.harts()
    }

    fn ram(&self) -> u32 {
        self.core.ram().bytes()
    }

    fn reg(&self, h: u32, r: u32) -> u32 {
        self.core.hart(h).reg(r)
    }

    fn reg_tag(&self, h: u32, r: u32) -> P::Tag {
        self.core.hart(h).reg_tag(r)
    }

    fn pc(&self, h: u32) -> u32 {
        self.core.hart(h).pc()
    }

    fn pc_tag(&self, h: u32) -> P::Tag {
        self.core.hart(h).pc_tag()
    }

    fn word(&self, address: u32) -> u32 {
        self.core.ram().word(address)
    }

    fn word_tag(&self, address: u32) -> P::Tag {
        self.core.ram().tag(address)
    }

    fn stop(&self, h: u32) -> Option<Stop> {
        self.core.stop(h)
    }

    fn stopped(&self) -> bool {
        self.halt.is_some()
    }

    fn halt(&self) -> Option<Halt> {
        self.halt
    }

    fn policy(&self) -> &P {
        &self.policy
    }

    fn counts(&self) -> Counts {
        let unended = u64::from(self.halt.is_some());
        Counts {
            turns: self.asked.saturating_add(self.unasked),
            hits: 0,
            misses: self.asked.saturating_add(unended),
            sweeps: 0,
        }
    }
}
