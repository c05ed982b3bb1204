//! All policies as one.

ghost use Rattle.std.specs.Prelude.{◌≡◌, ◌+◌, ◌<◌, ◌≤◌, ◌++◌, All, IfOk, IsTrue, Ok, Err, map};
ghost use Rattle.image_format.specs.Conditions.{compartment_limit};
ghost use Rattle.heap_policy.specs.Heap.{heap};
ghost use Rattle.policy_trait.specs.Maps.{args_by, ok_by, plan_by};
ghost use Rattle.policy_trait.specs.Model.{CanPlan};
ghost use Rattle.policy_choice.specs.All.{all, all_lent, all_owner_plan, choice_state, compartment_count, compartments_of, heap_of};
ghost use Rattle.policy_choice.specs.All.{pair_of, part_if};
ghost use Rattle.policy_choice.specs.Flat.{parts_of};

use crate::basis::Basis;
use crate::parts::{ignored_by_both, lend_to_others, show_before, word_tag};
use crate::tag::{
    AllTag, Comps, Flows, Heaps, Seals, comp_among, comp_inputs, comp_plan, flow_among,
    flow_inputs, flow_plan, heap_among, heap_inputs, heap_plan, seal_among, seal_inputs, seal_plan,
};
use compartment_policy::{CompartmentTag, Compartments};
use flow_policy::Flow;
use heap_policy::Heap;
use image_format::{CompartmentRows, Edge, Image, OwnedRange};
use policy_product::Maybe;
use policy_trait::{
    Args, Birth, Ins, InsAt, Mask, Outs, Part, Plan, PlanEnd, Policy, Refused, Shape,
};
use pump_words::Line;
use rv_decode::Group;
use sealing_policy::Sealing;
use std::alloc::{AllocError, Global};
use std::marker::{Model, PhantomData};

/// All policies together, each of them on or off, in the order in which they are asked: sealing, compartments, control flow,
/// heap safety; `T` is the type of their tags. Contracts see it as nested pairs.
#[derive(Drop)]
pub struct Together<T> {
    seal: Maybe<Sealing>,
    comp: Maybe<Compartments>,
    flow: Maybe<Flow>,
    heap: Maybe<Heap>,
    tags: PhantomData<T>,
}

impl<T> Model for Together<T> {
    ghost use Rattle.policy_choice.specs.All.{AllState};

    ghost Value = { AllState };

    ghost view = { λ a. (a.seal, (a.comp, (a.flow, a.heap))) };
}

/// All policies together, with their tags: a type of its own, so that what names it has no nest of types to prove.
pub type All = Together<AllTag>;

/// How many compartments own the words of these rows: one more than the greatest owner, or 1.
fn compartment_count<R: OwnedRange>(rows: &[R]) -> u32
    requires { All (λ row. (R.OwnedRange.row row).owner < compartment_limit R.version) rows.now }
    ensures value { result ≡ compartment_count (map R.OwnedRange.row rows.now) }
    ensures some { 1 ≤ result }
    ensures within { result ≤ compartment_limit R.version }
{
    let mut count = 1;
    for row in rows {
        count = count.max(row.owner() + 1);
    }
    count
}

/// The image's compartments, before words were split off.
fn compartments_of(image: &Image) -> Compartments
    ensures { result ≡ compartments_of image.now }
{
    let count = match image.compartments() {
        CompartmentRows::Narrow(rows) => compartment_count(rows),
        CompartmentRows::Wide(rows) => compartment_count(rows),
    };
    Compartments::new(count, image.version().compartment_limit())
}

/// The edges as pairs of labels.
fn pairs_of(alloc: Global, edges: &[Edge]) -> Result<Vec<(u32, u32)>, AllocError>
    ensures { IfOk result (λ pairs. pairs.items ≡ map pair_of edges.now) }
{
    let mut pairs = Vec::with_capacity(alloc, edges.len())?;
    for edge in edges {
        pairs.push((edge.source, edge.target))?;
    }
    Ok(pairs)
}

/// The parts of the chosen policies, before anything was asked of them.
fn flow_of(alloc: Global, chosen: bool, image: &Image) -> Result<Maybe<Flow>, AllocError>
    ensures { IfOk result (λ flow. flow ≡ part_if chosen (map pair_of image.now.edges)) }
{
    if !chosen {
        return Ok(Maybe { part: None });
    }
    let edges = pairs_of(alloc, image.edges())?;
    Ok(Maybe {
        part: Some(Flow::new(alloc, &edges)?),
    })
}

/// A policy that is on where it is chosen.
fn part_if<P: Policy>(chosen: bool, policy: P) -> Maybe<P>
    ensures { result ≡ part_if chosen policy }
{
    Maybe {
        part: if chosen { Some(policy) } else { None },
    }
}

/// Heap safety over the image's heap region, which lies in its memory, before a block was handed out.
fn heap_of(alloc: Global, image: &Image) -> Heap
    ensures value { result ≡ heap_of image.now }
    ensures room { heap.room result ≤ image.now.ram }
{
    // Serves the proof alone: memory has at most 16 MiB, so that no sum of its sizes wraps.
    let _ram = image.ram();
    Heap::new(alloc, image.heap_base(), image.heap_bytes())
}

/// The chosen policies at the start of the image, before anything was asked of them; the others are off. The image says how
/// many compartments there are and may be, the edges, and where the heap region is; its memory has the bytes that they count
/// on. The only error is running out of memory.
pub fn choose(alloc: Global, basis: Basis, image: &Image) -> Result<All, AllocError>
    ensures value { IfOk result (λ policy. policy ≡ choice_state basis image.now) }
    ensures room { IfOk result (λ policy. all.room policy ≤ image.now.ram) }
{
    let seal = part_if(basis.choice.seal, Sealing::new());
    let comp = part_if(basis.choice.comp, compartments_of(image));
    let flow = flow_of(alloc, basis.choice.flow, image)?;
    let heap = part_if(basis.choice.heap, heap_of(alloc, image));
    Ok(Together {
        seal,
        comp,
        flow,
        heap,
        tags: PhantomData,
    })
}

/// The same component.
#[inline]
fn copied(comp: &Option<CompartmentTag>) -> Option<CompartmentTag>
    ensures { result ≡ comp.now }
{
    match comp {
        None => None,
        Some(tag) => Some(tag.copied()),
    }
}

impl Together<AllTag> {
    /// Whether each policy but the owner lends the arguments that the service uses; the policies are asked in order.
    fn lent(&self, number: u32, arguments: &Args<AllTag>) -> Result<(), PlanEnd>
        requires { IsTrue (all.knows self.now number) }
        ensures { result ≡ all_lent (parts_of self.now) number
            (args_by parts_of arguments.now) }
    {
        let uses = self.uses(number);
        lend_to_others(&self.seal, number, uses, &arguments.map(&Seals))?;
        lend_to_others(&self.comp, number, uses, &arguments.map(&Comps))?;
        lend_to_others(&self.flow, number, uses, &arguments.map(&Flows))?;
        lend_to_others(&self.heap, number, uses, &arguments.map(&Heaps))
    }

    /// The owner's plan of the service, among the components of all.
    fn owner_plan(
        &self,
        number: u32,
        arguments: &Args<AllTag>,
        pc: AllTag,
    ) -> Result<Plan<AllTag>, PlanEnd>
        requires { CanPlan all self.now number arguments.now }
        ensures { ok_by (plan_by parts_of) result ≡ all_owner_plan (parts_of self.now) number
            (args_by parts_of arguments.now) (parts_of pc) }
    {
        let plain = self.plain();
        let a0 = arguments.t0;
        if self.seal.knows(number) {
            let plan = self.seal.plan(number, &arguments.map(&Seals), pc.seal)?;
            return Ok(seal_among(&plan, pc, plain, a0));
        }
        if self.comp.knows(number) {
            let plan = self.comp.plan(number, &arguments.map(&Comps), pc.comp)?;
            return Ok(comp_among(&plan, pc, plain, a0));
        }
        if self.flow.knows(number) {
            let plan = self.flow.plan(number, &arguments.map(&Flows), pc.flow)?;
            return Ok(flow_among(&plan, pc, plain, a0));
        }
        let plan = self.heap.plan(number, &arguments.map(&Heaps), pc.heap)?;
        Ok(heap_among(&plan, pc, plain, a0))
    }
}

impl Policy for Together<AllTag> {
    ghost use Rattle.policy_choice.specs.All.{all};
    ghost use Rattle.policy_choice.specs.AllLaws.{AllHold, all_laws};

    type Tag = AllTag;

    ghost model = { all };

    ghost holds = { AllHold };

    ghost longest = { 411 };

    fn plain(&self) -> AllTag {
        AllTag {
            seal: self.seal.plain(),
            comp: self.comp.plain(),
            flow: self.flow.plain(),
            heap: self.heap.plain(),
        }
    }

    #[inline(always)]
    fn rule(&self, group: Group, inputs: Ins<AllTag>) -> Result<Outs<AllTag>, Refused>
        ensures { result ≡ all.rule self.now group inputs }
    {
        self.rule_at(
            group,
            &InsAt::new(&inputs.pc, &inputs.ci, &inputs.t1, &inputs.t2, &inputs.tm),
        )
    }

    #[inline(always)]
    fn rule_at(&self, group: Group, inputs: &InsAt<'_, AllTag>) -> Result<Outs<AllTag>, Refused>
        ensures { result ≡ all.rule self.now group inputs.now }
    {
        let seal = self.seal.rule_at(group, &seal_inputs(inputs))?;
        let comp = self.comp.rule_at(group, &comp_inputs(inputs))?;
        let flow = self.flow.rule_at(group, &flow_inputs(inputs))?;
        let heap = self.heap.rule_at(group, &heap_inputs(inputs))?;
        Ok(Outs {
            pc: AllTag {
                seal: seal.pc,
                comp: copied(&comp.pc),
                flow: flow.pc,
                heap: heap.pc,
            },
            result: AllTag {
                seal: seal.result,
                comp: comp.result,
                flow: flow.result,
                heap: heap.result,
            },
        })
    }

    fn ignores(&self, group: Group) -> Mask {
        let last = ignored_by_both(self.flow.ignores(group), self.heap.ignores(group));
        let others = ignored_by_both(self.comp.ignores(group), last);
        ignored_by_both(self.seal.ignores(group), others)
    }

    #[inline]
    fn peeks(&self) -> bool {
        self.seal.peeks() || self.comp.peeks() || self.flow.peeks() || self.heap.peeks()
    }

    fn peek(&self, shape: Shape, first: &AllTag, second: &AllTag) -> Result<(), Refused> {
        self.seal.peek(shape, &first.seal, &second.seal)?;
        self.comp.peek(shape, &first.comp, &second.comp)?;
        self.flow.peek(shape, &first.flow, &second.flow)?;
        self.heap.peek(shape, &first.heap, &second.heap)
    }

    fn knows(&self, number: u32) -> bool {
        self.seal.knows(number)
            || self.comp.knows(number)
            || self.flow.knows(number)
            || self.heap.knows(number)
    }

    fn uses(&self, number: u32) -> u8 {
        if self.seal.knows(number) {
            self.seal.uses(number)
        } else if self.comp.knows(number) {
            self.comp.uses(number)
        } else if self.flow.knows(number) {
            self.flow.uses(number)
        } else {
            self.heap.uses(number)
        }
    }

    fn lend(&self, tag: AllTag) -> Result<(), Part> {
        self.seal.lend(tag.seal)?;
        self.comp.lend(tag.comp)?;
        self.flow.lend(tag.flow)?;
        self.heap.lend(tag.heap)
    }

    fn plan(
        &self,
        number: u32,
        arguments: &Args<AllTag>,
        pc: AllTag,
    ) -> Result<Plan<AllTag>, PlanEnd> {
        self.lent(number, arguments)?;
        self.owner_plan(number, arguments, pc)
    }

    fn retag(&self, plan: &Plan<AllTag>, old: AllTag) -> Result<AllTag, Refused> {
        let seal = word_tag(&self.seal, &seal_plan(plan), old.seal)?;
        let comp = word_tag(&self.comp, &comp_plan(plan), old.comp)?;
        let flow = word_tag(&self.flow, &flow_plan(plan), old.flow)?;
        let heap = word_tag(&self.heap, &heap_plan(plan), old.heap)?;
        Ok(AllTag {
            seal,
            comp,
            flow,
            heap,
        })
    }

    fn wipe(&self, pc: AllTag, old: AllTag) -> Result<AllTag, Refused> {
        let seal = self.seal.wipe(pc.seal, old.seal)?;
        let comp = self.comp.wipe(pc.comp, old.comp)?;
        let flow = self.flow.wipe(pc.flow, old.flow)?;
        let heap = self.heap.wipe(pc.heap, old.heap)?;
        Ok(AllTag {
            seal,
            comp,
            flow,
            heap,
        })
    }

    fn commit(&mut self, plan: &Plan<AllTag>) -> Result<(), AllocError> {
        if self.seal.knows(plan.service) {
            self.seal.commit(&seal_plan(plan))
        } else if self.comp.knows(plan.service) {
            self.comp.commit(&comp_plan(plan))
        } else if self.flow.knows(plan.service) {
            self.flow.commit(&flow_plan(plan))
        } else {
            self.heap.commit(&heap_plan(plan))
        }
    }

    fn uncommit(&mut self, plan: &Plan<AllTag>) {
        if self.seal.knows(plan.service) {
            self.seal.uncommit(&seal_plan(plan));
        } else if self.comp.knows(plan.service) {
            self.comp.uncommit(&comp_plan(plan));
        } else if self.flow.knows(plan.service) {
            self.flow.uncommit(&flow_plan(plan));
        } else {
            self.heap.uncommit(&heap_plan(plan));
        }
    }

    fn start_pc(&self, birth: &Birth) -> AllTag {
        AllTag {
            seal: self.seal.start_pc(birth),
            comp: self.comp.start_pc(birth),
            flow: self.flow.start_pc(birth),
            heap: self.heap.start_pc(birth),
        }
    }

    fn start_word(&self, birth: &Birth) -> AllTag {
        AllTag {
            seal: self.seal.start_word(birth),
            comp: self.comp.start_word(birth),
            flow: self.flow.start_word(birth),
            heap: self.heap.start_word(birth),
        }
    }

    fn show(&self, tag: AllTag, to: &mut Line) {
        let mut heap = Line::new();
        self.heap.show(tag.heap, &mut heap);
        let mut flow = Line::new();
        show_before(&self.flow, tag.flow, &heap, &mut flow);
        let mut comp = Line::new();
        show_before(&self.comp, tag.comp, &flow, &mut comp);
        show_before(&self.seal, tag.seal, &comp, to);
    }

    fn listed(&self, place: u32) -> Option<(u32, u32, u32)> {
        if let Some(block) = self.seal.listed(place) {
            return Some(block);
        }
        if let Some(block) = self.comp.listed(place) {
            return Some(block);
        }
        if let Some(block) = self.flow.listed(place) {
            return Some(block);
        }
        self.heap.listed(place)
    }

    ghost lawful = { all_laws };
}
