//! The policy of secrecy: its answers to the machine.

ghost use Rattle.std.specs.Prelude.{◌≡◌, IfOk};
ghost use Rattle.secrecy_policy.specs.Secrecy.{next_secret, secrecy};

use crate::table::{is_open, refused, row_of};
use crate::tag::SecretTag;
use policy_trait::{
    Answer, Args, Birth, Ins, InsAt, Mask, Outs, Part, Plan, PlanEnd, Policy, Refused, Rest, Shape,
    Why,
};
use pump_words::{Line, write_text};
use rv_decode::Group;
use std::alloc::{AllocError, Global};
use std::marker::Model;

/// The number of the service that answers the next secret byte.
const NEXT_SECRET: u32 = 64;

/// What it answers past the last secret byte.
const NO_SECRET: u32 = u32::MAX;

/// Secrecy of the bytes of a secret file. Contracts see it as these bytes and how many of them were answered.
#[derive(Drop)]
pub struct Secrecy {
    bytes: Vec<u8>,
    next: usize,
}

impl Model for Secrecy {
    ghost use Rattle.secrecy_policy.specs.Secrecy.{IsLeft, SecretState};

    ghost Value = { SecretState };

    ghost view = { λ s. record { bytes = s.bytes.items; next = s.next } };

    ghost invariant = { λ s. IsLeft (record { bytes = s.bytes.items; next = s.next }) };
}

impl Secrecy {
    /// Secrecy of these bytes, before any was answered. The only error is running out of memory.
    pub fn new(alloc: Global, secret: &[u8]) -> Result<Secrecy, AllocError>
        ensures { IfOk result (λ policy. policy ≡ record { bytes = secret.now; next = 0 }) }
    {
        let bytes = secret.to_vec(alloc)?;
        Ok(Secrecy { bytes, next: 0 })
    }

    /// What the service answers: the next secret byte, or `NO_SECRET`.
    fn next_secret(&self) -> u32
        ensures { result ≡ next_secret self.now }
    {
        if self.next < self.bytes.len() {
            u32::from(self.bytes[self.next])
        } else {
            NO_SECRET
        }
    }
}

impl Policy for Secrecy {
    ghost use Rattle.secrecy_policy.specs.Secrecy.{IsLeft, secrecy};
    ghost use Rattle.secrecy_policy.specs.SecrecyLaws.{secrecy_laws};

    type Tag = SecretTag;

    ghost model = { secrecy };

    ghost holds = { IsLeft };

    ghost longest = { 6 };

    fn plain(&self) -> SecretTag {
        // read for the proof of `valid` alone: what reads the bytes knows the invariant
        let _bytes = &self.bytes;
        SecretTag::Open
    }

    #[inline(always)]
    fn rule(&self, group: Group, inputs: Ins<SecretTag>) -> Result<Outs<SecretTag>, Refused>
        ensures { result ≡ secrecy.rule self.now group inputs }
    {
        self.rule_at(
            group,
            &InsAt::new(&inputs.pc, &inputs.ci, &inputs.t1, &inputs.t2, &inputs.tm),
        )
    }

    #[inline(always)]
    fn rule_at(
        &self,
        group: Group,
        inputs: &InsAt<'_, SecretTag>,
    ) -> Result<Outs<SecretTag>, Refused>
        ensures { result ≡ secrecy.rule self.now group inputs.now }
    {
        let row = row_of(group);
        if row.is_met(inputs) {
            Ok(Outs {
                pc: SecretTag::Open,
                result: row.tag(inputs),
            })
        } else {
            Err(refused(Why::Rule(group)))
        }
    }

    fn ignores(&self, group: Group) -> Mask {
        row_of(group).mask()
    }

    #[inline]
    fn peeks(&self) -> bool {
        true
    }

    #[inline]
    fn peek(&self, _shape: Shape, first: &SecretTag, second: &SecretTag) -> Result<(), Refused> {
        if is_open(*first) && is_open(*second) {
            Ok(())
        } else {
            Err(refused(Why::Peek))
        }
    }

    fn knows(&self, number: u32) -> bool {
        number == NEXT_SECRET
    }

    fn uses(&self, _number: u32) -> u8 {
        0
    }

    fn lend(&self, tag: SecretTag) -> Result<(), Part> {
        if is_open(tag) {
            Ok(())
        } else {
            Err(Part::Secret)
        }
    }

    fn plan(
        &self,
        number: u32,
        _arguments: &Args<SecretTag>,
        pc: SecretTag,
    ) -> Result<Plan<SecretTag>, PlanEnd> {
        Ok(Plan {
            service: number,
            pc,
            note: u32::from(self.next < self.bytes.len()),
            range: None,
            zero: false,
            answer: Some(Answer {
                value: self.next_secret(),
                tag: SecretTag::Secret,
                rest: Rest::Plain,
            }),
        })
    }

    fn retag(&self, _plan: &Plan<SecretTag>, old: SecretTag) -> Result<SecretTag, Refused> {
        Ok(old)
    }

    fn wipe(&self, _pc: SecretTag, _old: SecretTag) -> Result<SecretTag, Refused> {
        Ok(SecretTag::Open)
    }

    fn commit(&mut self, _plan: &Plan<SecretTag>) -> Result<(), AllocError> {
        if self.next < self.bytes.len() {
            self.next += 1;
        }
        Ok(())
    }

    #[tactic(auto, using(crate::specs::SecrecyLaws::can_take_back))]
    fn uncommit(&mut self, plan: &Plan<SecretTag>) {
        self.next -= plan.note as usize;
    }

    fn start_pc(&self, _birth: &Birth) -> SecretTag {
        SecretTag::Open
    }

    fn start_word(&self, _birth: &Birth) -> SecretTag {
        SecretTag::Open
    }

    fn show(&self, tag: SecretTag, to: &mut Line) {
        match tag {
            SecretTag::Open => write_text(to, b"open"),
            SecretTag::Secret => write_text(to, b"secret"),
        }
    }

    fn listed(&self, _place: u32) -> Option<(u32, u32, u32)> {
        None
    }

    ghost lawful = { secrecy_laws };
}
