//! The answers of taint to the machine. It has no state and offers no service.

ghost use Rattle.std.specs.Prelude.{◌≡◌, ◌≤◌, OnErr, OnOk};
ghost use Rattle.taint_policy.specs.Taint.{taint};

use crate::table::{refusal, row_of};
use crate::tag::TaintTag;
use policy_trait::{
    Args, Birth, Ins, Mask, Outs, Part, Plan, PlanEnd, Policy, Refused, Shape, Why,
};
use pump_words::{Line, write_text};
use rv_decode::Group;
use std::alloc::AllocError;

/// The policy of taint. It has one value.
#[derive(Clone, Copy, Debug, PartialEq, Eq)]
pub struct Taint;

impl Policy for Taint {
    ghost use Rattle.taint_policy.specs.Taint.{HoldsAlways, taint};
    ghost use Rattle.taint_policy.specs.TaintLaws.{taint_laws};

    type Tag = TaintTag;

    ghost model = { taint };

    ghost holds = { HoldsAlways };

    ghost longest = { 7 };

    fn plain(&self) -> TaintTag {
        TaintTag::Clean
    }

    #[inline(always)]
    fn rule(&self, group: Group, inputs: Ins<TaintTag>) -> Result<Outs<TaintTag>, Refused>
        ensures { result ≡ taint.rule self.now group inputs }
    {
        let row = row_of(group);
        if row.is_met(&inputs) {
            Ok(Outs {
                pc: TaintTag::Clean,
                result: row.tag(&inputs),
            })
        } else {
            Err(refusal(Why::Rule(group)))
        }
    }

    fn ignores(&self, group: Group) -> Mask {
        row_of(group).mask()
    }

    fn peeks(&self) -> bool {
        false
    }

    fn peek(&self, _shape: Shape, _first: &TaintTag, _second: &TaintTag) -> Result<(), Refused> {
        Ok(())
    }

    fn knows(&self, _number: u32) -> bool {
        false
    }

    // No service is known, so the trait's conditions on a known one and on a plan can't be met. These four hold without.

    fn uses(&self, number: u32) -> u8
        ensures value { result ≡ taint.uses self.now number }
        ensures few { result ≤ 3 }
    {
        let _ = number;
        0
    }

    fn lend(&self, _tag: TaintTag) -> Result<(), Part> {
        Ok(())
    }

    fn plan(
        &self,
        number: u32,
        arguments: &Args<TaintTag>,
        pc: TaintTag,
    ) -> Result<Plan<TaintTag>, PlanEnd>
        ensures { result ≡ taint.plan self.now number arguments.now pc }
    {
        let _ = (number, arguments.ram, pc);
        Err(PlanEnd::Spent)
    }

    fn retag(&self, plan: &Plan<TaintTag>, old: TaintTag) -> Result<TaintTag, Refused>
        ensures { result ≡ taint.retag self.now plan.now old }
    {
        let _ = plan.service;
        Ok(old)
    }

    fn wipe(&self, _pc: TaintTag, _old: TaintTag) -> Result<TaintTag, Refused> {
        Ok(TaintTag::Clean)
    }

    fn commit(&mut self, plan: &Plan<TaintTag>) -> Result<(), AllocError>
        ensures ok { OnOk result (self.new ≡ taint.commit self.old plan.now) }
        ensures err { OnErr result (self.new ≡ self.old) }
    {
        let _ = plan.service;
        Ok(())
    }

    fn uncommit(&mut self, plan: &Plan<TaintTag>)
        ensures { self.new ≡ taint.uncommit self.old plan.now }
    {
        let _ = plan.service;
    }

    fn start_pc(&self, _birth: &Birth) -> TaintTag {
        TaintTag::Clean
    }

    fn start_word(&self, _birth: &Birth) -> TaintTag {
        TaintTag::Clean
    }

    fn show(&self, tag: TaintTag, to: &mut Line) {
        match tag {
            TaintTag::Clean => write_text(to, b"clean"),
            TaintTag::Tainted => write_text(to, b"tainted"),
        }
    }

    fn listed(&self, _place: u32) -> Option<(u32, u32, u32)> {
        None
    }

    ghost lawful = { taint_laws };
}
