//! Breakpoints, which are kept in the order in which they were set.

ghost use Rattle.std.specs.Prelude.{◌≡◌, IfErr, OnOk};
ghost use Rattle.shell_turns.specs.Cuts.{ObeyCause, PutsOut};
ghost use Rattle.shell_run.specs.Replies.{breaking, reply_if, clearing};
ghost use Rattle.shell_run.specs.Session.{is_place};

use crate::session::Session;
use engine_trait::Loader;
use host_io::Sink;
use shell_turns::ObeyEnd;

impl<L: Loader> Session<L> {
    /// One more breakpoint. One that is kept already stays, and a 65th is refused.
    #[tactic(auto, using(shell_turns::proofs::PutLemmas::puts_nothing))]
    fn keep_break<K: Sink>(&mut self, address: u32, out: &mut K) -> Result<(), ObeyEnd>
        ensures after { OnOk result (self.new ≡ (breaking self.old address).after) }
        ensures puts { PutsOut (K.taken out.old) (K.taken out.new)
            (breaking self.old address).pieces result }
        ensures cause { ObeyCause (K.faults out.old) (K.faults out.new) result }
        ensures cut { IfErr result (λ end. self.new ≡ self.old) }
    {
        if self.breaks.contains(&address) {
            return Ok(());
        }
        match self.breaks.try_push(address) {
            Ok(()) => Ok(()),
            Err(_) => self.refuse(out),
        }
    }

    /// `break A`: a breakpoint at the address of a word.
    pub(crate) fn set_break<K: Sink>(&mut self, address: u32, out: &mut K) -> Result<(), ObeyEnd>
        ensures after { OnOk result (self.new
            ≡ (reply_if self.old (is_place self.old address) (breaking self.old address)).after) }
        ensures puts { PutsOut (K.taken out.old) (K.taken out.new)
            (reply_if self.old (is_place self.old address) (breaking self.old address)).pieces
            result }
        ensures cause { ObeyCause (K.faults out.old) (K.faults out.new) result }
        ensures cut { IfErr result (λ end. self.new ≡ self.old) }
    {
        if !self.is_place(address) {
            return self.refuse(out);
        }
        self.keep_break(address, out)
    }

    /// `clear A`: no breakpoint at the address of a word.
    #[tactic(auto, using(shell_turns::proofs::PutLemmas::puts_nothing))]
    pub(crate) fn clear_break<K: Sink>(&mut self, address: u32, out: &mut K) -> Result<(), ObeyEnd>
        ensures after { OnOk result (self.new
            ≡ (reply_if self.old (is_place self.old address) (clearing self.old address)).after) }
        ensures puts { PutsOut (K.taken out.old) (K.taken out.new)
            (reply_if self.old (is_place self.old address) (clearing self.old address)).pieces
            result }
        ensures cause { ObeyCause (K.faults out.old) (K.faults out.new) result }
        ensures cut { IfErr result (λ end. self.new ≡ self.old) }
    {
        if !self.is_place(address) {
            return self.refuse(out);
        }
        self.breaks.retain(|place| *place != address);
        Ok(())
    }
}
