//! Two policies as one.

ghost use Rattle.std.specs.Prelude.{◌≡◌, ◌+◌, ◌≤◌, ◌++◌, Ok, Err, IsTrue, OnErr, OnOk};
ghost use Rattle.policy_trait.specs.Maps.{args_by};
ghost use Rattle.policy_trait.specs.Model.{CanPlan};
ghost use Rattle.policy_product.specs.Both.{IsApart, answer_before, answer_beside, beside_left, beside_right, both, both_ignore, left, lent_to_left, right, tag_beside, tags_alone};

use crate::others::{first_declined, lend_all, rest_of};
use policy_trait::{
    Answer, Args, Birth, Ins, Mask, Outs, Part, Plan, PlanEnd, Policy, Refused, Shape, TagMap,
};
use pump_words::{Line, write_text};
use rv_decode::Group;
use std::alloc::AllocError;
use std::marker::{Model, PhantomData};

/// Two policies as one, whose services are apart. Its tags are pairs. Contracts see it as the pair of the two.
#[derive(Drop)]
pub struct Both<P: Policy, Q: Policy> {
    left: P,
    right: Q,
}

impl<P: Policy, Q: Policy> Model for Both<P, Q> {
    ghost use Rattle.policy_product.specs.Both.{IsApart};

    ghost Value = { P × Q };

    ghost view = { λ b. (b.left, b.right) };

    ghost invariant = { λ b. IsApart P.model Q.model b.left b.right };
}

/// The left component of each tag.
#[derive(Clone, Copy)]
struct Left<T, U> {
    of: PhantomData<(T, U)>,
}

impl<T: Copy, U: Copy> TagMap for Left<T, U> {
    type From = (T, U);

    type To = T;

    ghost image = { λ _. left };

    fn image(&self, tag: (T, U)) -> T {
        tag.0
    }
}

/// The right component of each tag.
#[derive(Clone, Copy)]
struct Right<T, U> {
    of: PhantomData<(T, U)>,
}

impl<T: Copy, U: Copy> TagMap for Right<T, U> {
    type From = (T, U);

    type To = U;

    ghost image = { λ _. right };

    fn image(&self, tag: (T, U)) -> U {
        tag.1
    }
}

impl<P: Policy, Q: Policy> Both<P, Q> {
    /// The two policies, of which no service is known to both.
    pub fn new(left: P, right: Q) -> Both<P, Q>
        requires { IsApart P.model Q.model left right }
        ensures { result ≡ (left, right) }
    {
        Both { left, right }
    }

    /// The left policy.
    pub fn left(&self) -> &P
        ensures { result.now ≡ self.now.0 }
    {
        &self.left
    }

    /// The right policy.
    pub fn right(&self) -> &Q
        ensures { result.now ≡ self.now.1 }
    {
        &self.right
    }

    /// Whether the right policy lends the arguments of a service of the left one. The parts within the left one are asked before it:
    /// where one of them declines too, that one is told. Who declines is seen by tags alone.
    fn lend_to_left(
        &self,
        number: u32,
        arguments: &Args<(P::Tag, Q::Tag)>,
        pc: P::Tag,
    ) -> Result<(), PlanEnd>
        requires { CanPlan P.model self.now.0 number (args_by left arguments.now) }
        ensures { result ≡ lent_to_left P.model Q.model self.now number arguments.now pc }
    {
        let second = arguments.map(&Right { of: PhantomData });
        match lend_all(&self.right, self.left.uses(number), &second) {
            Ok(()) => Ok(()),
            Err(end) => {
                let first = arguments.map(&Left { of: PhantomData });
                let own = self.left.plan(number, &tags_alone(&first), pc);
                Err(first_declined(end, &own))
            }
        }
    }
}

/// The arguments with values of 0.
fn tags_alone<T: Copy>(arguments: &Args<T>) -> Args<T>
    ensures { result ≡ tags_alone arguments.now }
{
    Args {
        a0: 0,
        a1: 0,
        a2: 0,
        t0: arguments.t0,
        t1: arguments.t1,
        t2: arguments.t2,
        ram: arguments.ram,
    }
}

/// A plan of the left part beside the right part's tags.
fn with_right<T: Copy, U: Copy>(plan: &Plan<T>, pc: U, plain: U, a0: U) -> Plan<(T, U)>
    ensures { result ≡ beside_right pc plain a0 plan.now }
{
    Plan {
        service: plan.service,
        pc: (plan.pc, pc),
        note: plan.note,
        range: plan.range,
        zero: plan.zero,
        answer: match &plan.answer {
            None => None,
            Some(answer) => Some(Answer {
                value: answer.value,
                tag: (answer.tag, rest_of(answer.rest, plain, a0)),
                rest: answer.rest,
            }),
        },
    }
}

/// A plan of the right part beside the left part's tags.
fn with_left<T: Copy, U: Copy>(plan: &Plan<U>, pc: T, plain: T, a0: T) -> Plan<(T, U)>
    ensures { result ≡ beside_left pc plain a0 plan.now }
{
    Plan {
        service: plan.service,
        pc: (pc, plan.pc),
        note: plan.note,
        range: plan.range,
        zero: plan.zero,
        answer: match &plan.answer {
            None => None,
            Some(answer) => Some(Answer {
                value: answer.value,
                tag: (rest_of(answer.rest, plain, a0), answer.tag),
                rest: answer.rest,
            }),
        },
    }
}

/// The policy's new tag of a word of another part's service.
fn beside<P: Policy>(policy: &P, zero: bool, pc: P::Tag, old: P::Tag) -> Result<P::Tag, Refused>
    ensures { result ≡ tag_beside P.model policy.now zero pc old }
{
    if zero { policy.wipe(pc, old) } else { Ok(old) }
}

impl<P: Policy, Q: Policy> Policy for Both<P, Q> {
    ghost use Rattle.policy_product.specs.Both.{BothHold, both};
    ghost use Rattle.policy_product.specs.BothLaws.{both_laws};

    type Tag = (P::Tag, Q::Tag);

    ghost model = { both P.model Q.model };

    ghost holds = { BothHold P.holds Q.holds };

    ghost longest = { P.longest + Q.longest + 1 };

    fn plain(&self) -> (P::Tag, Q::Tag) {
        (self.left.plain(), self.right.plain())
    }

    #[inline(always)]
    fn rule(
        &self,
        group: Group,
        inputs: Ins<(P::Tag, Q::Tag)>,
    ) -> Result<Outs<(P::Tag, Q::Tag)>, Refused>
        ensures { result ≡ (both P.model Q.model).rule self.now group inputs }
    {
        let on_left = inputs.map(&Left { of: PhantomData });
        let on_right = inputs.map(&Right { of: PhantomData });
        let first = self.left.rule(group, on_left)?;
        let second = self.right.rule(group, on_right)?;
        Ok(Outs {
            pc: (first.pc, second.pc),
            result: (first.result, second.result),
        })
    }

    fn ignores(&self, group: Group) -> Mask {
        let first = self.left.ignores(group);
        let second = self.right.ignores(group);
        Mask {
            pc: first.pc && second.pc,
            ci: first.ci && second.ci,
            t1: first.t1 && second.t1,
            t2: first.t2 && second.t2,
            tm: first.tm && second.tm,
        }
    }

    fn peeks(&self) -> bool {
        self.left.peeks() || self.right.peeks()
    }

    fn peek(
        &self,
        shape: Shape,
        first: &(P::Tag, Q::Tag),
        second: &(P::Tag, Q::Tag),
    ) -> Result<(), Refused> {
        self.left.peek(shape, &first.0, &second.0)?;
        self.right.peek(shape, &first.1, &second.1)
    }

    fn knows(&self, number: u32) -> bool {
        self.left.knows(number) || self.right.knows(number)
    }

    fn uses(&self, number: u32) -> u8 {
        if self.left.knows(number) {
            self.left.uses(number)
        } else {
            self.right.uses(number)
        }
    }

    fn lend(&self, tag: (P::Tag, Q::Tag)) -> Result<(), Part> {
        self.left.lend(tag.0)?;
        self.right.lend(tag.1)
    }

    fn plan(
        &self,
        number: u32,
        arguments: &Args<(P::Tag, Q::Tag)>,
        pc: (P::Tag, Q::Tag),
    ) -> Result<Plan<(P::Tag, Q::Tag)>, PlanEnd> {
        let first = arguments.map(&Left { of: PhantomData });
        let second = arguments.map(&Right { of: PhantomData });
        if self.left.knows(number) {
            self.lend_to_left(number, arguments, pc.0)?;
            let plan = self.left.plan(number, &first, pc.0)?;
            Ok(with_right(&plan, pc.1, self.right.plain(), second.t0))
        } else {
            lend_all(&self.left, self.right.uses(number), &first)?;
            let plan = self.right.plan(number, &second, pc.1)?;
            Ok(with_left(&plan, pc.0, self.left.plain(), first.t0))
        }
    }

    fn retag(
        &self,
        plan: &Plan<(P::Tag, Q::Tag)>,
        old: (P::Tag, Q::Tag),
    ) -> Result<(P::Tag, Q::Tag), Refused> {
        if self.left.knows(plan.service) {
            let first = self
                .left
                .retag(&plan.map(&Left { of: PhantomData }), old.0)?;
            let second = beside(&self.right, plan.zero, plan.pc.1, old.1)?;
            return Ok((first, second));
        }
        let first = beside(&self.left, plan.zero, plan.pc.0, old.0)?;
        let second = self
            .right
            .retag(&plan.map(&Right { of: PhantomData }), old.1)?;
        Ok((first, second))
    }

    fn wipe(
        &self,
        pc: (P::Tag, Q::Tag),
        old: (P::Tag, Q::Tag),
    ) -> Result<(P::Tag, Q::Tag), Refused> {
        let first = self.left.wipe(pc.0, old.0)?;
        let second = self.right.wipe(pc.1, old.1)?;
        Ok((first, second))
    }

    fn commit(&mut self, plan: &Plan<(P::Tag, Q::Tag)>) -> Result<(), AllocError> {
        if self.left.knows(plan.service) {
            self.left.commit(&plan.map(&Left { of: PhantomData }))
        } else {
            self.right.commit(&plan.map(&Right { of: PhantomData }))
        }
    }

    fn uncommit(&mut self, plan: &Plan<(P::Tag, Q::Tag)>) {
        if self.left.knows(plan.service) {
            self.left.uncommit(&plan.map(&Left { of: PhantomData }));
        } else {
            self.right.uncommit(&plan.map(&Right { of: PhantomData }));
        }
    }

    fn start_pc(&self, birth: &Birth) -> (P::Tag, Q::Tag) {
        (self.left.start_pc(birth), self.right.start_pc(birth))
    }

    fn start_word(&self, birth: &Birth) -> (P::Tag, Q::Tag) {
        (self.left.start_word(birth), self.right.start_word(birth))
    }

    fn show(&self, tag: (P::Tag, Q::Tag), to: &mut Line) {
        let start = to.len();
        self.left.show(tag.0, to);
        let mut second = Line::new();
        self.right.show(tag.1, &mut second);
        if to.len() != start && !second.is_empty() {
            write_text(to, b"|");
        }
        write_text(to, &second);
    }

    fn listed(&self, place: u32) -> Option<(u32, u32, u32)> {
        match self.left.listed(place) {
            Some(block) => Some(block),
            None => self.right.listed(place),
        }
    }

    ghost lawful = { both_laws P.model Q.model P.holds Q.holds P.lawful Q.lawful };
}
