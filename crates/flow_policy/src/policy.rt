//! What control-flow integrity keeps, and its answers to the machine.

ghost use Rattle.std.specs.Prelude.{◌≡◌, ◌+◌, ◌≤◌, ◌++◌, IfOk, OnErr, OnOk};
ghost use Rattle.arrayvec.specs.ArrayVec.{array_vec_len};
ghost use Rattle.flow_policy.specs.Sorted.{AreSorted};
ghost use Rattle.flow_policy.specs.Flow.{entry_label, flow, is_edge, label_text, may_enter};

use crate::table::{effect_of, is_data, label_of, refused};
use crate::tag::FlowTag;
use policy_trait::{
    Args, Birth, Ins, InsAt, Mask, Outs, Part, Plan, PlanEnd, Policy, Refused, Shape, Why,
};
use pump_words::{Line, dec, write_text};
use rv_decode::Group;
use std::alloc::{AllocError, Global};
use std::collections::BTreeSet;
use std::marker::Model;

/// Control-flow integrity. Contracts see it as the list of its edges, as they were given.
#[derive(Drop)]
pub struct Flow {
    /// The edges as they were given, which is what contracts see. No turn reads them.
    edges: Vec<(u32, u32)>,
    /// The same edges in order, each once. A turn finds one here, in a logarithm of their number.
    sorted: BTreeSet<(u32, u32)>,
}

impl Model for Flow {
    ghost use Rattle.std.specs.Prelude.{ℕ, List};
    ghost use Rattle.flow_policy.specs.Sorted.{AreSorted};

    ghost Value = { List (ℕ × ℕ) };

    ghost view = { λ f. f.edges.items };

    ghost invariant = { λ f. AreSorted f.edges.items f.sorted };
}

impl Flow {
    /// The policy of these edges, in any order and however often each. An edge (s, d) says that a JALR labelled s may go
    /// to a word labelled d. The only error is running out of memory.
    pub fn new(alloc: Global, edges: &[(u32, u32)]) -> Result<Flow, AllocError>
        ensures { IfOk result (λ flow. flow ≡ edges.now) }
    {
        Ok(Flow {
            edges: edges.to_vec(alloc)?,
            sorted: sorted(alloc, edges)?,
        })
    }

    /// Whether the edge is there.
    fn is_edge(&self, source: u32, target: u32) -> bool
        ensures { result ≡ is_edge self.now source target }
    {
        self.sorted.contains(&(source, target))
    }

    /// Whether a pc with this tag may come to a code word with this label.
    fn may_enter(&self, pc: FlowTag, label: Option<u32>) -> bool
        ensures { result ≡ may_enter self.now pc label }
    {
        match (pc, label) {
            (FlowTag::Still, _) => true,
            (FlowTag::From(source), Some(target)) => self.is_edge(source, target),
            _ => false,
        }
    }

    /// The label, if there is one, of the code word that the pc may come to; `None` where the policy does not allow it.
    fn entered(&self, pc: FlowTag, instruction: FlowTag) -> Option<Option<u32>>
        ensures { result ≡ entry_label self.now pc instruction }
    {
        let label = label_of(instruction)?;
        self.may_enter(pc, label).then_some(label)
    }
}

impl Policy for Flow {
    ghost use Rattle.flow_policy.specs.Flow.{HoldsAlways, flow};
    ghost use Rattle.flow_policy.specs.FlowLaws.{flow_laws};

    type Tag = FlowTag;

    ghost model = { flow };

    ghost holds = { HoldsAlways };

    ghost longest = { 90 };

    fn plain(&self) -> FlowTag {
        FlowTag::Plain
    }

    #[inline(always)]
    fn rule(&self, group: Group, inputs: Ins<FlowTag>) -> Result<Outs<FlowTag>, Refused>
        ensures { result ≡ flow.rule self.now group inputs }
    {
        self.rule_at(
            group,
            &InsAt::new(&inputs.pc, &inputs.ci, &inputs.t1, &inputs.t2, &inputs.tm),
        )
    }

    #[inline(always)]
    fn rule_at(&self, group: Group, inputs: &InsAt<'_, FlowTag>) -> Result<Outs<FlowTag>, Refused>
        ensures { result ≡ flow.rule self.now group inputs.now }
    {
        match self.entered(*inputs.pc, *inputs.ci) {
            Some(label) => effect_of(group)
                .outs(label, *inputs.tm)
                .ok_or(refused(Why::Rule(group))),
            None => Err(refused(Why::Rule(group))),
        }
    }

    fn ignores(&self, group: Group) -> Mask {
        effect_of(group).mask()
    }

    fn peeks(&self) -> bool {
        false
    }

    fn peek(&self, _shape: Shape, _first: &FlowTag, _second: &FlowTag) -> Result<(), Refused> {
        Ok(())
    }

    fn knows(&self, _number: u32) -> bool {
        false
    }

    // No service is known, so the trait's conditions on a known one and on a plan can't be met. These four hold without.

    fn uses(&self, number: u32) -> u8
        ensures value { result ≡ flow.uses self.now number }
        ensures few { result ≤ 3 }
    {
        let _ = number;
        0
    }

    fn lend(&self, _tag: FlowTag) -> Result<(), Part> {
        Ok(())
    }

    fn plan(
        &self,
        number: u32,
        arguments: &Args<FlowTag>,
        pc: FlowTag,
    ) -> Result<Plan<FlowTag>, PlanEnd>
        ensures { result ≡ flow.plan self.now number arguments.now pc }
    {
        let _ = (number, arguments.ram, pc);
        Err(PlanEnd::Spent)
    }

    fn retag(&self, plan: &Plan<FlowTag>, old: FlowTag) -> Result<FlowTag, Refused>
        ensures { result ≡ flow.retag self.now plan.now old }
    {
        let _ = plan.service;
        Ok(old)
    }

    fn wipe(&self, _pc: FlowTag, old: FlowTag) -> Result<FlowTag, Refused> {
        if is_data(old) {
            Ok(FlowTag::Data)
        } else {
            Err(refused(Why::Consent))
        }
    }

    fn commit(&mut self, plan: &Plan<FlowTag>) -> Result<(), AllocError>
        ensures ok { OnOk result (self.new ≡ flow.commit self.old plan.now) }
        ensures err { OnErr result (self.new ≡ self.old) }
    {
        let _ = plan.service;
        Ok(())
    }

    fn uncommit(&mut self, plan: &Plan<FlowTag>)
        ensures { self.new ≡ flow.uncommit self.old plan.now }
    {
        let _ = plan.service;
    }

    fn start_pc(&self, _birth: &Birth) -> FlowTag {
        FlowTag::Still
    }

    fn start_word(&self, birth: &Birth) -> FlowTag {
        if birth.code {
            FlowTag::Code(birth.label)
        } else {
            FlowTag::Data
        }
    }

    fn show(&self, tag: FlowTag, to: &mut Line) {
        match tag {
            FlowTag::Plain => write_text(to, b"plain"),
            FlowTag::Still => write_text(to, b"still"),
            FlowTag::From(source) => {
                write_text(to, b"from(");
                dec(to, u64::from(source));
                write_text(to, b")");
            }
            FlowTag::Code(label) => {
                write_text(to, b"code(");
                show_label(to, label);
                write_text(to, b")");
            }
            FlowTag::Data => write_text(to, b"data"),
        }
    }

    fn listed(&self, _place: u32) -> Option<(u32, u32, u32)> {
        None
    }

    ghost lawful = { flow_laws };
}

/// The edges in order, each once.
fn sorted(alloc: Global, edges: &[(u32, u32)]) -> Result<BTreeSet<(u32, u32)>, AllocError>
    ensures { IfOk result (AreSorted edges.now) }
{
    edges.iter().copied().collect(alloc)
}

/// Appends a label, or a hyphen where there is none.
fn show_label(to: &mut Line, label: Option<u32>)
    requires { array_vec_len to.old + 20 ≤ 512 }
    ensures text { to.new.items ≡ to.old.items ++ label_text label }
    ensures short { array_vec_len to.new ≤ array_vec_len to.old + 20 }
{
    match label {
        Some(number) => dec(to, u64::from(number)),
        None => write_text(to, b"-"),
    }
}
