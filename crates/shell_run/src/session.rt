//! A session, and how it executes a command.

ghost use Rattle.std.specs.Prelude.{◌≡◌, ◌≤◌, [], IfErr, IfOk, IfSome, None, OnOk, false, true};
ghost use Rattle.engine_trait.specs.Accounts.{is_over};
ghost use Rattle.shell_turns.specs.Cuts.{ObeyCause, PutsOut};
ghost use Rattle.shell_run.specs.Replies.{IsCut, is_quit, reply_to, turns_asked};
ghost use Rattle.shell_run.specs.Session.{ending, fresh};

use arrayvec::ArrayVec;
use engine_trait::{Feed, LoadEnd, Loader};
use host_io::Sink;
use shell_lang::Command;
use shell_turns::{ObeyEnd, Order};
use std::alloc::Global;
use std::marker::Model;

/// A machine that runs from its start on at the commands of a user, with what they fed it and the breakpoints that they set, at
/// most 64. Contracts see it as a `SessionState`.
#[derive(Drop)]
pub struct Session<L: Loader> {
    pub(crate) alloc: Global,
    pub(crate) loader: L,
    pub(crate) engine: L::E,
    pub(crate) feed: Feed,
    pub(crate) breaks: ArrayVec<u32, 64>,
    ended: Option<ObeyEnd>,
}

impl<L: Loader> Model for Session<L> {
    ghost use Rattle.shell_run.specs.Session.{IsSession, SessionState, session_of};

    ghost Value = { SessionState L.E.P L.E.P.Tag };

    ghost view = { λ s. session_of (L.start s.loader) (L.E.standing s.engine)
        s.feed s.breaks.items s.ended };

    ghost invariant = { λ s. IsSession L.E.P.longest
        (session_of (L.start s.loader) (L.E.standing s.engine) s.feed s.breaks.items s.ended) };
}

impl<L: Loader> Session<L> {
    /// A session at the start that the loader makes, with an empty feed and no breakpoint. `TagsOut` says that the start needs
    /// more tag numbers than there may be.
    pub fn new(alloc: Global, loader: L) -> Result<Session<L>, LoadEnd>
        requires { L.E.P.longest ≤ 460 }
        ensures ok { IfOk result (λ session. session ≡ fresh (L.start loader)) }
        ensures within { OnOk result (is_over (L.start loader).account ≡ false) }
        ensures tags_out { result ≡ Err LoadEnd.TagsOut → is_over (L.start loader).account ≡ true }
    {
        let engine = loader.load()?;
        Ok(Session {
            alloc,
            loader,
            engine,
            feed: Feed::new(alloc),
            breaks: ArrayVec::new(),
            ended: None,
        })
    }

    /// The engine as it stands.
    pub fn engine(&self) -> &L::E
        ensures { L.E.standing result.now ≡ self.now.standing }
    {
        &self.engine
    }

    /// Why the session ended before its commands did, `None` where it goes on.
    pub fn ended(&self) -> Option<ObeyEnd>
        ensures { result ≡ self.now.ended }
    {
        self.ended
    }

    /// Obeys a command, in a session that goes on.
    #[tactic(auto, unfolding(crate::specs::Replies::reply_to), using(shell_turns::proofs::PutLemmas::puts_nothing))]
    fn answer<K: Sink>(&mut self, command: &Command, out: &mut K) -> Result<(), ObeyEnd>
        ensures after { OnOk result (self.new
            ≡ (reply_to L.E.P.Tag.eq L.E.P.model self.old command.now).after) }
        ensures puts { PutsOut (K.taken out.old) (K.taken out.new)
            (reply_to L.E.P.Tag.eq L.E.P.model self.old command.now).pieces result }
        ensures cause { ObeyCause (K.faults out.old) (K.faults out.new) result }
        ensures cut { IfErr result (λ end. IsCut L.E.P.Tag.eq L.E.P.model self.old
            (turns_asked self.old command.now) self.new
            (K.taken out.old) (K.taken out.new) end) }
    {
        match command {
            Command::Blank | Command::Quit => Ok(()),
            Command::Step(h, n) => self.step(*h, *n, out),
            Command::Run(n) => self.run(*n, Order::RoundsFrom(0), out),
            Command::Turns(harts) => self.turns(harts.values(), out),
            Command::Back(turns) => self.back(*turns, out),
            Command::Feed(bytes) => self.fed(bytes.values()),
            Command::Regs(h) => self.registers(*h, out),
            Command::Pc(h) => self.pc(*h, out),
            Command::Mem(a, n) => self.words(*a, *n, out),
            Command::Tags(a, n) => self.tags(*a, *n, out),
            Command::Dis(a, n) => self.statements(*a, *n, out),
            Command::Why(h) => self.why(*h, out),
            Command::Blocks => self.blocks(out),
            Command::Stats => self.stats(out),
            Command::Sweeps => self.sweeps(out),
            Command::Break(a) => self.set_break(*a, out),
            Command::Clear(a) => self.clear_break(*a, out),
            Command::Reset => self.reset(),
        }
    }

    /// Obeys a command: what it replies is put line by line. The answer is whether the session ends with it, as it does with
    /// `quit`.
    ///
    /// After an error the session is stopped, and each later command has the same answer and puts nothing. Where a put failed no
    /// further turn was made: the machine and its account stand after the turn that was then told, if the command made turns, and
    /// as they were, if it made none.
    #[tactic(auto, using(shell_turns::proofs::PutLemmas::puts_as, shell_turns::proofs::PutLemmas::puts_cut_as, crate::proofs::SessionLemmas::ended_stays))]
    pub fn obey<K: Sink>(&mut self, command: &Command, out: &mut K) -> Result<bool, ObeyEnd>
        // A session that goes on: the reply.
        ensures after { OnOk result (self.new
            ≡ (reply_to L.E.P.Tag.eq L.E.P.model self.old command.now).after) }
        ensures quits { IfOk result (λ quits. quits ≡ is_quit command.now) }
        ensures puts { self.old.ended ≡ None → PutsOut (K.taken out.old) (K.taken out.new)
            (reply_to L.E.P.Tag.eq L.E.P.model self.old command.now).pieces result }
        ensures cause { self.old.ended ≡ None
            → ObeyCause (K.faults out.old) (K.faults out.new) result }
        ensures live { OnOk result (self.old.ended ≡ None) }
        ensures goes_on { OnOk result (self.new.ended ≡ None) }

        // A command that was cut short, and a session that had ended before.
        ensures cut { self.old.ended ≡ None → IfErr result (λ end.
            IsCut L.E.P.Tag.eq L.E.P.model (ending self.old end)
            (turns_asked self.old command.now) self.new
            (K.taken out.old) (K.taken out.new) end) }
        ensures same_end { IfSome self.old.ended (λ end. result ≡ Err end) }
        ensures stopped { IfSome self.old.ended (λ end. self.new ≡ self.old) }
        ensures silent { IfSome self.old.ended (λ end. K.taken out.new ≡ K.taken out.old) }
        ensures no_fault { IfSome self.old.ended (λ end. K.faults out.new ≡ K.faults out.old) }
    {
        if let Some(end) = self.ended {
            return Err(end);
        }
        match self.answer(command, out) {
            Ok(()) => Ok(matches!(command, Command::Quit)),
            Err(end) => {
                self.ended = Some(end);
                Err(end)
            }
        }
    }
}
