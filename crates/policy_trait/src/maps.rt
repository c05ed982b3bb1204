//! Inputs, arguments and plans with each tag changed by one function of tags.

ghost use Rattle.std.specs.Prelude.{◌≡◌};
ghost use Rattle.policy_trait.specs.Maps.{answer_by, args_by, ins_by, plan_by};

use crate::rules::Ins;
use crate::services::{Answer, Args, Plan};

/// A function of tags, as how a policy within a product reads the product's tags.
pub trait TagMap {
    type From: Copy;

    type To;

    ghost image: { Self → Self.From → Self.To };

    /// The tag that stands for this one.
    fn image(&self, tag: Self::From) -> Self::To
        ensures { result ≡ image self.now tag };
}

impl<T: Copy> Ins<T> {
    /// The inputs with each tag changed.
    pub fn map<M: TagMap<From = T>>(&self, map: &M) -> Ins<M::To>
        ensures { result ≡ ins_by (M.image map.now) self.now }
    {
        Ins {
            pc: map.image(self.pc),
            ci: map.image(self.ci),
            t1: map.image(self.t1),
            t2: map.image(self.t2),
            tm: map.image(self.tm),
        }
    }
}

impl<T: Copy> Args<T> {
    /// The arguments with each tag changed.
    pub fn map<M: TagMap<From = T>>(&self, map: &M) -> Args<M::To>
        ensures { result ≡ args_by (M.image map.now) self.now }
    {
        Args {
            a0: self.a0,
            a1: self.a1,
            a2: self.a2,
            t0: map.image(self.t0),
            t1: map.image(self.t1),
            t2: map.image(self.t2),
            ram: self.ram,
        }
    }
}

impl<T: Copy> Answer<T> {
    /// The answer with its tag changed.
    pub fn map<M: TagMap<From = T>>(&self, map: &M) -> Answer<M::To>
        ensures { result ≡ answer_by (M.image map.now) self.now }
    {
        Answer {
            value: self.value,
            tag: map.image(self.tag),
            rest: self.rest,
        }
    }
}

impl<T: Copy> Plan<T> {
    /// The plan with each tag changed.
    pub fn map<M: TagMap<From = T>>(&self, map: &M) -> Plan<M::To>
        ensures { result ≡ plan_by (M.image map.now) self.now }
    {
        Plan {
            service: self.service,
            pc: map.image(self.pc),
            note: self.note,
            range: self.range,
            zero: self.zero,
            answer: match &self.answer {
                None => None,
                Some(answer) => Some(answer.map(map)),
            },
        }
    }
}
