//! The tags of all policies together.

ghost use Rattle.std.specs.Prelude.{◌≡◌};
ghost use Rattle.policy_trait.specs.Maps.{ins_by, plan_by};
ghost use Rattle.policy_choice.specs.Flat.{parts_of, plan_among};

use compartment_policy::CompartmentTag;
use flow_policy::FlowTag;
use heap_policy::HeapTag;
use policy_product::rest_of;
use policy_trait::{Answer, InsAt, Plan, TagMap};
use pump_words::Same;
use sealing_policy::SealTag;
use std::marker::Model;

/// The tags of the four policies in the order in which they are asked, each missing where its policy is off.
pub type PartTags = (
    Option<SealTag>,
    (Option<CompartmentTag>, (Option<FlowTag>, Option<HeapTag>)),
);

/// A tag of all policies together: a component for each, missing where the policy is off. Contracts see it as nested pairs.
// The component of compartments is last: it stands at a multiple of 8, and before the others it would leave 8 bytes unused.
#[derive(Clone, Copy, PartialEq, Eq, PartialOrd, Ord, Hash)]
pub struct AllTag {
    pub(crate) seal: Option<SealTag>,
    pub(crate) flow: Option<FlowTag>,
    pub(crate) heap: Option<HeapTag>,
    pub(crate) comp: Option<CompartmentTag>,
}

impl Model for AllTag {
    ghost use Rattle.policy_choice.specs.All.{AllTag};

    ghost Value = { AllTag };

    ghost view = { λ t. (t.seal, (t.comp, (t.flow, t.heap))) };

    ghost inverse = { λ v. record { seal = v.0; comp = v.1.0; flow = v.1.1.0; heap = v.1.1.1 } };
}

impl AllTag {
    /// The tag with these components.
    pub fn of(tags: PartTags) -> AllTag
        ensures { result ≡ tags }
    {
        AllTag {
            seal: tags.0,
            comp: tags.1.0,
            flow: tags.1.1.0,
            heap: tags.1.1.1,
        }
    }

    /// The components of the tag.
    pub fn parts(self) -> PartTags
        ensures { result ≡ self }
    {
        (self.seal, (self.comp, (self.flow, self.heap)))
    }
}

impl Same for AllTag {
    ghost use Rattle.policy_choice.specs.TagLaws.{all_tell};

    ghost same = { all_tell };
}

/// The component of sealing in each tag.
pub(crate) struct Seals;

impl TagMap for Seals {
    type From = AllTag;

    type To = Option<SealTag>;

    ghost image = { λ _ tag. tag.0 };

    fn image(&self, tag: AllTag) -> Option<SealTag> {
        tag.seal
    }
}

/// The component of sealing in each of the tags that stand there.
#[inline]
pub(crate) fn seal_inputs<'a>(inputs: &'a InsAt<'_, AllTag>) -> InsAt<'a, Option<SealTag>>
    ensures { result ≡ ins_by (λ tag. tag.0) inputs.now }
{
    let InsAt { pc, ci, t1, t2, tm } = *inputs;
    InsAt::new(&pc.seal, &ci.seal, &t1.seal, &t2.seal, &tm.seal)
}

/// The plan with the components of sealing.
pub(crate) fn seal_plan(plan: &Plan<AllTag>) -> Plan<Option<SealTag>>
    ensures { result ≡ plan_by (λ tag. tag.0) plan.now }
{
    plan.map(&Seals)
}

/// A plan of sealing among the components of all.
pub(crate) fn seal_among(
    plan: &Plan<Option<SealTag>>,
    pc: AllTag,
    plain: AllTag,
    a0: AllTag,
) -> Plan<AllTag>
    ensures { plan_by parts_of result ≡ plan_among (λ t all. record all { seal = t })
        (parts_of pc) (parts_of plain) (parts_of a0) plan.now }
{
    Plan {
        service: plan.service,
        pc: AllTag {
            seal: plan.pc,
            ..pc
        },
        note: plan.note,
        range: plan.range,
        zero: plan.zero,
        answer: match &plan.answer {
            None => None,
            Some(answer) => Some(Answer {
                value: answer.value,
                tag: AllTag {
                    seal: answer.tag,
                    ..rest_of(answer.rest, plain, a0)
                },
                rest: answer.rest,
            }),
        },
    }
}

/// The component of compartments in each tag.
pub(crate) struct Comps;

impl TagMap for Comps {
    type From = AllTag;

    type To = Option<CompartmentTag>;

    ghost image = { λ _ tag. tag.1.0 };

    fn image(&self, tag: AllTag) -> Option<CompartmentTag> {
        tag.comp
    }
}

/// The component of compartments in each of the tags that stand there.
#[inline]
pub(crate) fn comp_inputs<'a>(inputs: &'a InsAt<'_, AllTag>) -> InsAt<'a, Option<CompartmentTag>>
    ensures { result ≡ ins_by (λ tag. tag.1.0) inputs.now }
{
    let InsAt { pc, ci, t1, t2, tm } = *inputs;
    InsAt::new(&pc.comp, &ci.comp, &t1.comp, &t2.comp, &tm.comp)
}

/// The plan with the components of compartments.
pub(crate) fn comp_plan(plan: &Plan<AllTag>) -> Plan<Option<CompartmentTag>>
    ensures { result ≡ plan_by (λ tag. tag.1.0) plan.now }
{
    plan.map(&Comps)
}

/// A plan of compartments among the components of all.
pub(crate) fn comp_among(
    plan: &Plan<Option<CompartmentTag>>,
    pc: AllTag,
    plain: AllTag,
    a0: AllTag,
) -> Plan<AllTag>
    ensures { plan_by parts_of result ≡ plan_among (λ t all. record all { comp = t })
        (parts_of pc) (parts_of plain) (parts_of a0) plan.now }
{
    Plan {
        service: plan.service,
        pc: AllTag {
            comp: plan.pc,
            ..pc
        },
        note: plan.note,
        range: plan.range,
        zero: plan.zero,
        answer: match &plan.answer {
            None => None,
            Some(answer) => Some(Answer {
                value: answer.value,
                tag: AllTag {
                    comp: answer.tag,
                    ..rest_of(answer.rest, plain, a0)
                },
                rest: answer.rest,
            }),
        },
    }
}

/// The component of control flow in each tag.
pub(crate) struct Flows;

impl TagMap for Flows {
    type From = AllTag;

    type To = Option<FlowTag>;

    ghost image = { λ _ tag. tag.1.1.0 };

    fn image(&self, tag: AllTag) -> Option<FlowTag> {
        tag.flow
    }
}

/// The component of control flow in each of the tags that stand there.
#[inline]
pub(crate) fn flow_inputs<'a>(inputs: &'a InsAt<'_, AllTag>) -> InsAt<'a, Option<FlowTag>>
    ensures { result ≡ ins_by (λ tag. tag.1.1.0) inputs.now }
{
    let InsAt { pc, ci, t1, t2, tm } = *inputs;
    InsAt::new(&pc.flow, &ci.flow, &t1.flow, &t2.flow, &tm.flow)
}

/// The plan with the components of control flow.
pub(crate) fn flow_plan(plan: &Plan<AllTag>) -> Plan<Option<FlowTag>>
    ensures { result ≡ plan_by (λ tag. tag.1.1.0) plan.now }
{
    plan.map(&Flows)
}

/// A plan of control flow among the components of all.
pub(crate) fn flow_among(
    plan: &Plan<Option<FlowTag>>,
    pc: AllTag,
    plain: AllTag,
    a0: AllTag,
) -> Plan<AllTag>
    ensures { plan_by parts_of result ≡ plan_among (λ t all. record all { flow = t })
        (parts_of pc) (parts_of plain) (parts_of a0) plan.now }
{
    Plan {
        service: plan.service,
        pc: AllTag {
            flow: plan.pc,
            ..pc
        },
        note: plan.note,
        range: plan.range,
        zero: plan.zero,
        answer: match &plan.answer {
            None => None,
            Some(answer) => Some(Answer {
                value: answer.value,
                tag: AllTag {
                    flow: answer.tag,
                    ..rest_of(answer.rest, plain, a0)
                },
                rest: answer.rest,
            }),
        },
    }
}

/// The component of heap safety in each tag.
pub(crate) struct Heaps;

impl TagMap for Heaps {
    type From = AllTag;

    type To = Option<HeapTag>;

    ghost image = { λ _ tag. tag.1.1.1 };

    fn image(&self, tag: AllTag) -> Option<HeapTag> {
        tag.heap
    }
}

/// The component of heap safety in each of the tags that stand there.
#[inline]
pub(crate) fn heap_inputs<'a>(inputs: &'a InsAt<'_, AllTag>) -> InsAt<'a, Option<HeapTag>>
    ensures { result ≡ ins_by (λ tag. tag.1.1.1) inputs.now }
{
    let InsAt { pc, ci, t1, t2, tm } = *inputs;
    InsAt::new(&pc.heap, &ci.heap, &t1.heap, &t2.heap, &tm.heap)
}

/// The plan with the components of heap safety.
pub(crate) fn heap_plan(plan: &Plan<AllTag>) -> Plan<Option<HeapTag>>
    ensures { result ≡ plan_by (λ tag. tag.1.1.1) plan.now }
{
    plan.map(&Heaps)
}

/// A plan of heap safety among the components of all.
pub(crate) fn heap_among(
    plan: &Plan<Option<HeapTag>>,
    pc: AllTag,
    plain: AllTag,
    a0: AllTag,
) -> Plan<AllTag>
    ensures { plan_by parts_of result ≡ plan_among (λ t all. record all { heap = t })
        (parts_of pc) (parts_of plain) (parts_of a0) plan.now }
{
    Plan {
        service: plan.service,
        pc: AllTag {
            heap: plan.pc,
            ..pc
        },
        note: plan.note,
        range: plan.range,
        zero: plan.zero,
        answer: match &plan.answer {
            None => None,
            Some(answer) => Some(Answer {
                value: answer.value,
                tag: AllTag {
                    heap: answer.tag,
                    ..rest_of(answer.rest, plain, a0)
                },
                rest: answer.rest,
            }),
        },
    }
}
