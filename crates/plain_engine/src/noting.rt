//! Turns of `Plain` that tell what they replaced, and a turn taken back by that.

ghost use Rattle.std.specs.Prelude.{◌≡◌, ◌≢◌, ℕ, ◌%◌, ◌<◌, [], Option, Some, None, IsOk, IsTrue, false, true, length};
ghost use Rattle.std.specs.List.{All};
ghost use Rattle.std.specs.Option.{ForSome};
ghost use Rattle.policy_trait.specs.Model.{IsCommitted, IsGiven};
ghost use Rattle.monitor_calls.specs.Ends.{job_by};
ghost use Rattle.tag_memory.specs.Ram.{IsPlace, ram_bytes};
ghost use Rattle.turn_steps.specs.Effects.{IsSound};
ghost use Rattle.turn_steps.specs.Feeds.{Tape, tape_of};
ghost use Rattle.turn_steps.specs.Looks.{is_call, is_system};
ghost use Rattle.engine_trait.specs.History.{bare_record, record_by, record_of, record_served, undone};
ghost use Rattle.engine_trait.specs.HistoryLaws.{IsFit};
ghost use Rattle.engine_trait.specs.Machine.{IsMachine};
ghost use Rattle.engine_trait.specs.Standing.{GivesUp, IsFailure, StopsOnly, is_ready, step};
ghost use Rattle.engine_trait.specs.Turn.{is_served, service_on, stopped_at, turn_effect};
ghost use Rattle.plain_engine.specs.Plain.{EndsService, after_asked, after_look_up, after_turn, allowed_record, given_up, turned_back};

use crate::plain::Plain;
use engine_trait::{Feed, Stop, TurnEnd};
use monitor_calls::{Job, ServeEnd};
use policy_trait::{Outs, Policy};
use rv_step::Fault;
use turn_steps::{Look, is_call};
use undo_log::Record;

/// How a turn ended, and what it replaced.
#[derive(Drop)]
pub(crate) struct Noted<T: Copy> {
    pub(crate) end: TurnEnd,
    /// `None` exactly where memory ran out, so that no turn was made.
    pub(crate) made: Option<Record<T, T>>,
}

impl<P: Policy> Plain<P> {
    /// What hart `h` will replace by an instruction that is neither an ECALL nor an EBREAK.
    #[inline(always)]
    pub(crate) fn step_record(&self, h: u32, look: &Look) -> Record<P::Tag, P::Tag>
        requires hart { h < length self.now.machine.core.harts }
        requires plain { is_system look.now.group ≡ false }
        requires sound { IsSound (ram_bytes self.now.machine.core.ram) look.now.effect }
        ensures { (next : Option ℕ)
            → result ≡ record_by look.now.group self.now.machine.core next h look.now }
    {
        self.core.step_record(h, look)
    }

    /// A turn of hart `h`, whichever it is, and what it replaced.
    #[cold]
    #[inline(never)]
    #[tactic(auto)]
    pub(crate) fn noted_turn(&mut self, h: u32, feed: &mut Feed) -> Noted<P::Tag>
        requires hart { h < length self.old.machine.core.harts }
        requires ready { is_ready self.old h ≡ true }
        ensures step { result.end ≢ TurnEnd.Memory
            → step P.Tag.eq P.model self.old feed.old h
            ≡ record { standing = self.new; feed = feed.new; ended = result.end } }
        ensures made { result.end ≢ TurnEnd.Memory
            → result.made ≡ Some (record_of P.model self.old.machine feed.old h) }
        ensures memory { result.end ≡ TurnEnd.Memory
            → GivesUp P.Tag.eq P.model self.old feed.old h self.new feed.new }
        ensures unmade { result.end ≡ TurnEnd.Memory → result.made ≡ None }
        ensures unended { result.end ≡ TurnEnd.Memory → self.new ≡ given_up (after_look_up self.old) }
        ensures failure { (why : Stop) → IsFailure why → result.end ≡ TurnEnd.Stopped why
            → StopsOnly self.old feed.old h why self.new feed.new }
        ensures busy { result.end ≢ TurnEnd.Idle }
        ensures harts { length self.new.machine.core.harts ≡ length self.old.machine.core.harts }
        ensures ram { ram_bytes self.new.machine.core.ram ≡ ram_bytes self.old.machine.core.ram }
        ensures words { result.end ≢ TurnEnd.TagsOut }
        ensures served { result.end ≡ TurnEnd.Memory
            → is_served P.model self.old.machine h ≡ true }
    {
        // Serves the proof alone: no rules are kept.
        let _ready = self.is_ready(h);
        let look = match self.prepare(h) {
            Ok(look) => look,
            Err(why) => return self.noted_stop_unasked(h, why),
        };
        let outs = match self.ask(h, &look) {
            Ok(outs) => outs,
            Err(why) => return self.noted_stop_asked(h, why),
        };
        if is_call(look.group) {
            return self.noted_service(h, &look, outs);
        }
        let made = self.core.record(h, &look, feed.peek());
        Noted {
            end: self.effect(h, feed, &look, outs),
            made: Some(made),
        }
    }

    /// Counts a turn that a check stopped, and stops hart `h`.
    fn noted_stop_unasked(&mut self, h: u32, why: Stop) -> Noted<P::Tag>
        requires { h < length self.old.machine.core.harts }
        ensures standing { self.new ≡ after_turn self.old (stopped_at self.old.machine h why) }
        ensures end { result.end ≡ TurnEnd.Stopped why }
        ensures made { result.made ≡ Some (bare_record self.old.machine.core h) }
    {
        let made = self.core.bare_record(h);
        Noted {
            end: self.stop_unasked(h, why),
            made: Some(made),
        }
    }

    /// Counts a turn that was stopped once its rule was looked up, and stops hart `h`.
    fn noted_stop_asked(&mut self, h: u32, why: Stop) -> Noted<P::Tag>
        requires { h < length self.old.machine.core.harts }
        ensures standing { self.new ≡ after_asked self.old (stopped_at self.old.machine h why) }
        ensures end { result.end ≡ TurnEnd.Stopped why }
        ensures made { result.made ≡ Some (bare_record self.old.machine.core h) }
    {
        let made = self.core.bare_record(h);
        Noted {
            end: self.stop_asked(h, why),
            made: Some(made),
        }
    }

    /// Stops the engine as a whole, since memory ran out in a turn that looked its rule up.
    fn noted_give_up(&mut self) -> Noted<P::Tag>
        requires { self.old.account.halt ≡ None }
        ensures standing { self.new ≡ given_up (after_look_up self.old) }
        ensures end { result.end ≡ TurnEnd.Memory }
        ensures made { result.made ≡ None }
    {
        Noted {
            end: self.give_up(),
            made: None,
        }
    }

    /// A call of a policy's service that the rule allowed.
    #[tactic(auto, unfolding(engine_trait::specs::Turn::turn_job))]
    fn noted_service(&mut self, h: u32, look: &Look, outs: Outs<P::Tag>) -> Noted<P::Tag>
        requires hart { h < length self.old.machine.core.harts }
        requires call { is_call look.now.group ≡ true }
        requires known { IsTrue (P.model.knows self.old.machine.policy look.now.service) }
        requires aligned { look.now.effect.next % 4 ≡ 0 }
        requires running { self.old.account.halt ≡ None }
        ensures served { result.end ≢ TurnEnd.Memory
            → EndsService P.model self.old h look.now outs result.end self.new }
        ensures made { (feed : Tape) → result.end ≢ TurnEnd.Memory
            → result.made ≡ Some (allowed_record P.model self.old.machine feed h look.now outs) }
        ensures memory { result.end ≡ TurnEnd.Memory → self.new ≡ given_up (after_look_up self.old) }
        ensures unmade { result.end ≡ TurnEnd.Memory → result.made ≡ None }
        ensures unrefused { result.end ≡ TurnEnd.Memory
            → IsOk (service_on P.model self.old.machine h look.now outs) }
        ensures busy { result.end ≢ TurnEnd.Idle }
        ensures words { result.end ≢ TurnEnd.TagsOut }
        ensures failure { (why : Stop) → IsFailure why → result.end ≡ TurnEnd.Stopped why
            → self.new.machine ≡ stopped_at self.old.machine h why }
        ensures harts { length self.new.machine.core.harts ≡ length self.old.machine.core.harts }
        ensures bytes { ram_bytes self.new.machine.core.ram ≡ ram_bytes self.old.machine.core.ram }
    {
        match self.plan(h, look, outs) {
            Ok(job) => self.noted_job(h, look, outs, &job),
            Err(ServeEnd::Refused(refused)) => {
                let why = self.core.violation(h, refused);
                self.noted_stop_asked(h, why)
            }
            Err(ServeEnd::Spent) => self.noted_stop_asked(
                h,
                Stop::Fault(Fault::Spent(look.service)),
            ),
            Err(ServeEnd::Memory) => self.noted_give_up(),
        }
    }

    /// Carries out a service that nothing refused.
    fn noted_job(
        &mut self,
        h: u32,
        look: &Look,
        outs: Outs<P::Tag>,
        job: &Job<P::Tag>,
    ) -> Noted<P::Tag>
        requires hart { h < length self.old.machine.core.harts }
        requires given { IsGiven P.model self.old.machine.policy job.now.plan }
        requires places { All (λ word. IsPlace (ram_bytes self.old.machine.core.ram) word.0)
            job.now.words.items }
        requires aligned { look.now.effect.next % 4 ≡ 0 }
        requires running { self.old.account.halt ≡ None }
        ensures served { result.end ≢ TurnEnd.Memory
            → self.new ≡ after_asked self.old (turn_effect P.model self.old.machine (tape_of []) h
            look.now outs (Some (job_by job.now.plan job.now.words.items))).machine }
        ensures made { result.end ≢ TurnEnd.Memory → result.made
            ≡ Some (record_served self.old.machine.core h job.now.words.items job.now.plan) }
        ensures memory { result.end ≡ TurnEnd.Memory → self.new ≡ given_up (after_look_up self.old) }
        ensures unmade { result.end ≡ TurnEnd.Memory → result.made ≡ None }
        ensures end { result.end ≢ TurnEnd.Memory → result.end ≡ TurnEnd.Ran None }
        ensures harts { length self.new.machine.core.harts ≡ length self.old.machine.core.harts }
        ensures bytes { ram_bytes self.new.machine.core.ram ≡ ram_bytes self.old.machine.core.ram }
    {
        let Ok(made) = self
            .core
            .record_served(self.alloc, h, &job.words, &job.plan)
        else {
            return self.noted_give_up();
        };
        match self.carry_out(h, look, outs, job) {
            TurnEnd::Memory => Noted {
                end: TurnEnd::Memory,
                made: None,
            },
            end => Noted {
                end,
                made: Some(made),
            },
        }
    }

    /// Takes the last turn back by what it replaced. It takes no memory.
    pub(crate) fn undo(&mut self, made: &Record<P::Tag, P::Tag>)
        requires fit { IsFit (length self.old.machine.core.harts)
            (ram_bytes self.old.machine.core.ram) made.now }
        requires committed { ForSome made.now.plan
            (IsCommitted P.model P.holds self.old.machine.policy) }
        requires sound { IsMachine P.model (undone P.model self.old.machine made.now) }
        ensures standing { self.new ≡ turned_back P.model self.old made.now }
        ensures harts { length self.new.machine.core.harts ≡ length self.old.machine.core.harts }
        ensures bytes { ram_bytes self.new.machine.core.ram ≡ ram_bytes self.old.machine.core.ram }
    {
        self.core.undo(made);
        if let Some(plan) = made.plan() {
            self.policy.uncommit(plan);
        }
    }
}
