//! The policy of compartments as a machine asks it.

ghost use Rattle.std.specs.Prelude.{◌≡◌, ◌+◌, ◌≤◌, ◌++◌, codes, length};
ghost use Rattle.std.specs.Fmt.{decimal};
ghost use Rattle.arrayvec.specs.ArrayVec.{array_vec_len};
ghost use Rattle.policy_trait.specs.Sets.{mask_text};
ghost use Rattle.compartment_policy.specs.Compartments.{compartments};

use crate::rules::{entered, is_jump, is_store, is_writer, may_write, refused};
use crate::services::{LET_IN, LET_WRITE, SPLIT, let_other, retagged, split};
use crate::tag::CompartmentTag;
use policy_trait::{
    Args, Birth, CompartmentSet, Ins, InsAt, Mask, Outs, Part, Plan, PlanEnd, Policy, Refused,
    Shape, Why,
};
use pump_words::{Line, dec, write_text};
use rv_decode::Group;
use std::alloc::AllocError;
use std::marker::Model;

/// The policy of compartments. Contracts see it as how many compartments there are, which is the number of the next one, and
/// how many there may be; the numbers below the first are in use.
#[derive(Drop)]
pub struct Compartments {
    count: u32,
    limit: u32,
}

impl Model for Compartments {
    ghost use Rattle.compartment_policy.specs.Compartments.{CompartmentState, IsCount};

    ghost Value = { CompartmentState };

    ghost view = { λ s. record { count = s.count; limit = s.limit } };

    ghost invariant = { λ s. IsCount (record { count = s.count; limit = s.limit }) };
}

impl Compartments {
    /// So many compartments, at least 1, where there may be `limit` of them, at most 128.
    pub fn new(count: u32, limit: u32) -> Compartments
        requires some { 1 ≤ count }
        requires within { count ≤ limit }
        requires few { limit ≤ 128 }
        ensures { result ≡ record { count = count; limit = limit } }
    {
        Compartments { count, limit }
    }
}

impl Policy for Compartments {
    ghost use Rattle.compartment_policy.specs.Compartments.{IsCount, compartments};
    ghost use Rattle.compartment_policy.specs.CompartmentLaws.{compartment_laws};

    type Tag = CompartmentTag;

    ghost model = { compartments };

    ghost holds = { IsCount };

    ghost longest = { 138 };

    fn plain(&self) -> CompartmentTag {
        // read for the proof of `valid` alone: what reads the count knows its invariant
        let _count = &self.count;
        CompartmentTag::Plain
    }

    #[inline(always)]
    fn rule(
        &self,
        group: Group,
        inputs: Ins<CompartmentTag>,
    ) -> Result<Outs<CompartmentTag>, Refused>
        ensures { result ≡ compartments.rule self.now group inputs }
    {
        self.rule_at(
            group,
            &InsAt::new(&inputs.pc, &inputs.ci, &inputs.t1, &inputs.t2, &inputs.tm),
        )
    }

    #[inline(always)]
    fn rule_at(
        &self,
        group: Group,
        inputs: &InsAt<'_, CompartmentTag>,
    ) -> Result<Outs<CompartmentTag>, Refused>
        ensures { result ≡ compartments.rule self.now group inputs.now }
    {
        match entered(inputs.pc, inputs.ci) {
            Some(owner) if !is_store(group) || may_write(owner, inputs.tm) => Ok(Outs {
                pc: CompartmentTag::Pc {
                    owner,
                    jumped: is_jump(group),
                },
                result: if is_store(group) {
                    inputs.tm.copied()
                } else {
                    CompartmentTag::Plain
                },
            }),
            _ => Err(refused(Why::Rule(group))),
        }
    }

    fn ignores(&self, group: Group) -> Mask {
        Mask {
            pc: false,
            ci: false,
            t1: true,
            t2: true,
            tm: !is_store(group),
        }
    }

    fn peeks(&self) -> bool {
        false
    }

    fn peek(
        &self,
        _shape: Shape,
        _first: &CompartmentTag,
        _second: &CompartmentTag,
    ) -> Result<(), Refused> {
        Ok(())
    }

    fn knows(&self, number: u32) -> bool {
        matches!(number, SPLIT | LET_IN | LET_WRITE)
    }

    fn uses(&self, number: u32) -> u8 {
        if number == SPLIT { 2 } else { 3 }
    }

    fn lend(&self, _tag: CompartmentTag) -> Result<(), Part> {
        Ok(())
    }

    fn plan(
        &self,
        number: u32,
        arguments: &Args<CompartmentTag>,
        pc: CompartmentTag,
    ) -> Result<Plan<CompartmentTag>, PlanEnd> {
        if number == SPLIT {
            split(self.count, self.limit, arguments, pc)
        } else {
            let_other(number, self.count, arguments, pc)
        }
    }

    fn retag(
        &self,
        plan: &Plan<CompartmentTag>,
        old: CompartmentTag,
    ) -> Result<CompartmentTag, Refused> {
        // read for the proof alone: what reads the count knows its invariant
        let _count = &self.count;
        retagged(plan, old)
    }

    fn wipe(&self, pc: CompartmentTag, old: CompartmentTag) -> Result<CompartmentTag, Refused> {
        if is_writer(&pc, &old) {
            Ok(old)
        } else {
            Err(refused(Why::Consent))
        }
    }

    fn commit(&mut self, plan: &Plan<CompartmentTag>) -> Result<(), AllocError> {
        if plan.service == SPLIT {
            self.count += 1;
        }
        Ok(())
    }

    fn uncommit(&mut self, plan: &Plan<CompartmentTag>) {
        if plan.service == SPLIT {
            self.count -= 1;
        }
    }

    fn start_pc(&self, birth: &Birth) -> CompartmentTag {
        CompartmentTag::Pc {
            owner: birth.owner,
            jumped: false,
        }
    }

    fn start_word(&self, birth: &Birth) -> CompartmentTag {
        CompartmentTag::Place {
            owner: birth.owner,
            into: birth.into,
            write: birth.write,
        }
    }

    fn show(&self, tag: CompartmentTag, to: &mut Line) {
        match tag {
            CompartmentTag::Plain => write_text(to, b"plain"),
            CompartmentTag::Pc { owner, jumped } => {
                show_owner(to, b"pc(", owner);
                write_text(to, if jumped { b",j)" } else { b",-)" });
            }
            CompartmentTag::Place { owner, into, write } => {
                show_owner(to, b"place(", owner);
                show_set(to, into);
                show_set(to, write);
                write_text(to, b")");
            }
        }
    }

    fn listed(&self, _place: u32) -> Option<(u32, u32, u32)> {
        None
    }

    ghost lawful = { compartment_laws };
}

/// Appends a text and a compartment's number in decimal.
fn show_owner(to: &mut Line, prefix: &[u8], owner: u32)
    requires { array_vec_len to.old + length prefix.now + 20 ≤ 512 }
    ensures text { to.new.items ≡ to.old.items ++ prefix.now ++ decimal owner }
    ensures short { array_vec_len to.new ≤ array_vec_len to.old + length prefix.now + 20 }
{
    write_text(to, prefix);
    dec(to, u64::from(owner));
}

/// Appends a comma and a set.
fn show_set(to: &mut Line, set: CompartmentSet)
    requires { array_vec_len to.old + 33 ≤ 512 }
    ensures text { to.new.items ≡ to.old.items ++ codes "," ++ mask_text set.bits }
    ensures short { array_vec_len to.new ≤ array_vec_len to.old + 33 }
{
    write_text(to, b",");
    set.show(to);
}
