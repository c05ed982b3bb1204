//! A policy that may be off.

ghost use Rattle.std.specs.Prelude.{◌≡◌, ◌≤◌, ◌++◌, Some, None, length};
ghost use Rattle.policy_product.specs.Maybe.{maybe, some_tag, tag_or};

use policy_trait::{
    Args, Birth, Ins, InsAt, Mask, Outs, Part, Plan, PlanEnd, Policy, Refused, Shape, TagMap,
};
use pump_words::Line;
use rv_decode::Group;
use std::alloc::AllocError;
use std::marker::PhantomData;

/// A policy that may be off. On, a missing tag is read as the policy's plain tag. Off, it allows and ignores everything,
/// knows no service, and has `None` as its one tag.
#[derive(Drop)]
pub struct Maybe<P> {
    /// The policy, where it is on.
    pub part: Option<P>,
}

/// A policy's reading of tags that may be missing, by its plain tag.
#[derive(Clone, Copy)]
struct Reading<T> {
    plain: T,
}

impl<T: Copy> TagMap for Reading<T> {
    type From = Option<T>;

    type To = T;

    ghost image = { λ reading. tag_or reading.plain };

    #[inline(always)]
    fn image(&self, tag: Option<T>) -> T {
        match tag {
            None => self.plain,
            Some(tag) => tag,
        }
    }
}

/// The tag that stands there, or the plain one where it is missing.
#[inline]
fn read_at<'a, T>(tag: &'a Option<T>, plain: &'a T) -> &'a T
    ensures { result.now ≡ tag_or plain.now tag.now }
{
    match tag {
        None => plain,
        Some(tag) => tag,
    }
}

/// How the policy reads tags that may be missing.
#[inline(always)]
fn reading_of<P: Policy>(part: &P) -> Reading<P::Tag>
    ensures { result ≡ record { plain = P.model.plain part.now } }
{
    Reading {
        plain: part.plain(),
    }
}

/// A policy's tags as those of the policy that may be off.
#[derive(Clone, Copy)]
struct Present<T> {
    of: PhantomData<T>,
}

impl<T: Copy> TagMap for Present<T> {
    type From = T;

    type To = Option<T>;

    ghost image = { λ present. some_tag };

    #[inline(always)]
    fn image(&self, tag: T) -> Option<T> {
        Some(tag)
    }
}

impl<P: Policy> Policy for Maybe<P> {
    ghost use Rattle.policy_product.specs.Maybe.{MaybeHolds, maybe};
    ghost use Rattle.policy_product.specs.MaybeLaws.{maybe_laws};

    type Tag = Option<P::Tag>;

    ghost model = { maybe P.model };

    ghost holds = { MaybeHolds P.holds };

    ghost longest = { P.longest };

    fn plain(&self) -> Option<P::Tag> {
        match &self.part {
            None => None,
            Some(part) => Some(part.plain()),
        }
    }

    #[inline(always)]
    fn rule(
        &self,
        group: Group,
        inputs: Ins<Option<P::Tag>>,
    ) -> Result<Outs<Option<P::Tag>>, Refused>
        ensures { result ≡ (maybe P.model).rule self.now group inputs }
    {
        self.rule_at(
            group,
            &InsAt::new(&inputs.pc, &inputs.ci, &inputs.t1, &inputs.t2, &inputs.tm),
        )
    }

    #[inline(always)]
    fn rule_at(
        &self,
        group: Group,
        inputs: &InsAt<'_, Option<P::Tag>>,
    ) -> Result<Outs<Option<P::Tag>>, Refused>
        ensures { result ≡ (maybe P.model).rule self.now group inputs.now }
    {
        match &self.part {
            None => Ok(Outs {
                pc: None,
                result: None,
            }),
            Some(part) => {
                let plain = part.plain();
                let read = InsAt::new(
                    read_at(inputs.pc, &plain),
                    read_at(inputs.ci, &plain),
                    read_at(inputs.t1, &plain),
                    read_at(inputs.t2, &plain),
                    read_at(inputs.tm, &plain),
                );
                match part.rule_at(group, &read) {
                    Ok(outs) => Ok(Outs {
                        pc: Some(outs.pc),
                        result: Some(outs.result),
                    }),
                    Err(refused) => Err(refused),
                }
            }
        }
    }

    fn ignores(&self, group: Group) -> Mask {
        match &self.part {
            None => Mask {
                pc: true,
                ci: true,
                t1: true,
                t2: true,
                tm: true,
            },
            Some(part) => part.ignores(group),
        }
    }

    #[inline]
    fn peeks(&self) -> bool {
        match &self.part {
            None => false,
            Some(part) => part.peeks(),
        }
    }

    fn peek(
        &self,
        shape: Shape,
        first: &Option<P::Tag>,
        second: &Option<P::Tag>,
    ) -> Result<(), Refused> {
        match &self.part {
            None => Ok(()),
            Some(part) => {
                let plain = part.plain();
                part.peek(shape, read_at(first, &plain), read_at(second, &plain))
            }
        }
    }

    fn knows(&self, number: u32) -> bool {
        match &self.part {
            None => false,
            Some(part) => part.knows(number),
        }
    }

    fn uses(&self, number: u32) -> u8 {
        match &self.part {
            None => 0,
            Some(part) => part.uses(number),
        }
    }

    fn lend(&self, tag: Option<P::Tag>) -> Result<(), Part> {
        match &self.part {
            None => Ok(()),
            Some(part) => part.lend(reading_of(part).image(tag)),
        }
    }

    fn plan(
        &self,
        number: u32,
        arguments: &Args<Option<P::Tag>>,
        pc: Option<P::Tag>,
    ) -> Result<Plan<Option<P::Tag>>, PlanEnd> {
        match &self.part {
            None => Err(PlanEnd::Spent),
            Some(part) => {
                let reading = reading_of(part);
                match part.plan(number, &arguments.map(&reading), reading.image(pc)) {
                    Ok(plan) => Ok(plan.map(&Present { of: PhantomData })),
                    Err(end) => Err(end),
                }
            }
        }
    }

    fn retag(
        &self,
        plan: &Plan<Option<P::Tag>>,
        old: Option<P::Tag>,
    ) -> Result<Option<P::Tag>, Refused> {
        match &self.part {
            None => Ok(None),
            Some(part) => {
                let reading = reading_of(part);
                match part.retag(&plan.map(&reading), reading.image(old)) {
                    Ok(tag) => Ok(Some(tag)),
                    Err(refused) => Err(refused),
                }
            }
        }
    }

    fn wipe(&self, pc: Option<P::Tag>, old: Option<P::Tag>) -> Result<Option<P::Tag>, Refused> {
        match &self.part {
            None => Ok(None),
            Some(part) => {
                let reading = reading_of(part);
                match part.wipe(reading.image(pc), reading.image(old)) {
                    Ok(tag) => Ok(Some(tag)),
                    Err(refused) => Err(refused),
                }
            }
        }
    }

    fn commit(&mut self, plan: &Plan<Option<P::Tag>>) -> Result<(), AllocError> {
        match &mut self.part {
            None => Ok(()),
            Some(part) => {
                let reading = reading_of(part);
                let read = plan.map(&reading);
                part.commit(&read)
            }
        }
    }

    fn uncommit(&mut self, plan: &Plan<Option<P::Tag>>) {
        if let Some(part) = &mut self.part {
            let reading = reading_of(part);
            let read = plan.map(&reading);
            part.uncommit(&read);
        }
    }

    fn start_pc(&self, birth: &Birth) -> Option<P::Tag> {
        match &self.part {
            None => None,
            Some(part) => Some(part.start_pc(birth)),
        }
    }

    fn start_word(&self, birth: &Birth) -> Option<P::Tag> {
        match &self.part {
            None => None,
            Some(part) => Some(part.start_word(birth)),
        }
    }

    fn show(&self, tag: Option<P::Tag>, to: &mut Line) {
        match &self.part {
            None => {}
            Some(part) => part.show(reading_of(part).image(tag), to),
        }
    }

    fn listed(&self, place: u32) -> Option<(u32, u32, u32)> {
        match &self.part {
            None => None,
            Some(part) => part.listed(place),
        }
    }

    ghost lawful = { maybe_laws P.model P.holds P.lawful };
}
