//! The trait of policies.

ghost use Rattle.std.specs.Prelude.{◌≡◌, ◌+◌, ◌≤◌, ◌++◌, ℕ, IsTrue, OnErr, OnOk};
ghost use Rattle.arrayvec.specs.ArrayVec.{array_vec_len};

use crate::birth::Birth;
use crate::rules::{Ins, InsAt, Mask, Outs, Part, Refused, Shape};
use crate::services::{Args, Plan, PlanEnd};
use pump_words::{Line, Same};
use rv_decode::Group;
use std::alloc::AllocError;

/// A software-defined policy over tags. `model` has its whole meaning as functions of the policy's value, which is its
/// configuration and its state together; `holds` is the invariant that the policy keeps; no text of `show` is longer
/// than `longest`.
pub trait Policy: Drop {
    ghost use Rattle.policy_trait.specs.Model.{CanPlan, IsCommitted, IsGiven, PolicyModel};
    ghost use Rattle.policy_trait.specs.PolicyLaws.{KeepsLaws};

    type Tag: Same;

    ghost model: { PolicyModel Self.Tag Self };

    ghost holds: { Self → Type 0 };

    ghost longest: { ℕ };

    /// The plain tag: that of an absent input, and of x0.
    fn plain(&self) -> Self::Tag
        ensures value { result ≡ model.plain self.now }
        ensures valid { holds self.now };

    /// The rule of a group at five tags: the next tags of the pc and of the result, or the refusal.
    fn rule(&self, group: Group, inputs: Ins<Self::Tag>) -> Result<Outs<Self::Tag>, Refused>
        ensures { result ≡ model.rule self.now group inputs };

    /// The rule of a group at five tags that are read where they stand: the same answer as `rule`.
    #[inline(always)]
    fn rule_at(
        &self,
        group: Group,
        inputs: &InsAt<'_, Self::Tag>,
    ) -> Result<Outs<Self::Tag>, Refused>
        ensures { result ≡ model.rule self.now group inputs.now }
    {
        self.rule(group, inputs.read())
    }

    /// Which inputs the rule of a group ignores.
    fn ignores(&self, group: Group) -> Mask
        ensures { result ≡ model.ignores self.now group };

    /// Whether the policy refuses any look that comes before a rule.
    fn peeks(&self) -> bool
        ensures { result ≡ model.peeks self.now };

    /// Whether a turn may look so at values with these tags before its rule is asked. A look at one value has the plain tag as its
    /// second.
    fn peek(&self, shape: Shape, first: &Self::Tag, second: &Self::Tag) -> Result<(), Refused>
        ensures { result ≡ model.peek self.now shape first.now second.now };

    /// Whether the policy offers the service of this number.
    fn knows(&self, number: u32) -> bool
        ensures { result ≡ model.knows self.now number };

    /// How many arguments the service uses, from a0 on.
    fn uses(&self, number: u32) -> u8
        requires { IsTrue (model.knows self.now number) }
        ensures value { result ≡ model.uses self.now number }
        ensures few { result ≤ 3 };

    /// Whether a value with this tag may be an argument of another policy's service; else the part that refuses.
    fn lend(&self, tag: Self::Tag) -> Result<(), Part>
        ensures { result ≡ model.lend self.now tag };

    /// What the service will do with these arguments; `pc` is the pc's tag that the rule gave.
    fn plan(
        &self,
        number: u32,
        arguments: &Args<Self::Tag>,
        pc: Self::Tag,
    ) -> Result<Plan<Self::Tag>, PlanEnd>
        requires { CanPlan model self.now number arguments.now }
        ensures { result ≡ model.plan self.now number arguments.now pc };

    /// The new tag of a word of the plan's range whose tag is `old`.
    fn retag(&self, plan: &Plan<Self::Tag>, old: Self::Tag) -> Result<Self::Tag, Refused>
        requires { IsGiven model self.now plan.now }
        ensures { result ≡ model.retag self.now plan.now old };

    /// The new tag of a word that another policy's service zeroes.
    fn wipe(&self, pc: Self::Tag, old: Self::Tag) -> Result<Self::Tag, Refused>
        ensures { result ≡ model.wipe self.now pc old };

    /// Takes note that the plan was carried out. Where memory runs out nothing changes.
    fn commit(&mut self, plan: &Plan<Self::Tag>) -> Result<(), AllocError>
        requires { IsGiven model self.old plan.now }
        ensures ok { OnOk result (self.new ≡ model.commit self.old plan.now) }
        ensures err { OnErr result (self.new ≡ self.old) };

    /// Takes back the commit of the plan, the last one: the policy is then as it was before. It takes no memory.
    fn uncommit(&mut self, plan: &Plan<Self::Tag>)
        requires { IsCommitted model holds self.old plan.now }
        ensures { self.new ≡ model.uncommit self.old plan.now };

    /// The tag of the pc of a hart whose entry is the word of this birth.
    fn start_pc(&self, birth: &Birth) -> Self::Tag
        ensures { result ≡ model.start_pc self.now birth.now };

    /// The tag of a word of this birth at the start.
    fn start_word(&self, birth: &Birth) -> Self::Tag
        ensures { result ≡ model.start_word self.now birth.now };

    /// Appends the text of a tag.
    fn show(&self, tag: Self::Tag, to: &mut Line)
        requires { array_vec_len to.old + longest ≤ 512 }
        ensures text { to.new.items ≡ to.old.items ++ model.text self.now tag }
        ensures short { array_vec_len to.new ≤ array_vec_len to.old + longest };

    /// The live block of heap memory at this place in the order of their numbers, as number, base and words.
    fn listed(&self, place: u32) -> Option<(u32, u32, u32)>
        ensures { result ≡ model.listed self.now place };

    ghost lawful: { KeepsLaws model holds };
}
