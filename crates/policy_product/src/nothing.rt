//! The policy that is nothing, for engines that no policy was chosen for.

ghost use Rattle.std.specs.Prelude.{◌≡◌, Ok, Err};

use policy_trait::{Args, Birth, Ins, Mask, Outs, Part, Plan, PlanEnd, Policy, Refused, Shape};
use pump_words::Line;
use rv_decode::Group;
use std::alloc::AllocError;

/// The policy that is nothing. It allows and ignores everything and knows no service, and its one tag, `()`, has no size:
/// an engine under it moves none.
#[derive(Clone, Copy)]
pub struct Nothing;

impl Policy for Nothing {
    ghost use Rattle.policy_product.specs.Nothing.{nothing};
    ghost use Rattle.policy_product.specs.NothingLaws.{nothing_laws};

    type Tag = ();

    ghost model = { nothing };

    ghost holds = { λ s. Unit {0} };

    ghost longest = { 0 };

    fn plain(&self) {}

    #[inline(always)]
    fn rule(&self, _group: Group, _inputs: Ins<()>) -> Result<Outs<()>, Refused>
        ensures { result ≡ Ok (record { pc = tt; result = tt }) }
    {
        Ok(Outs { pc: (), result: () })
    }

    fn ignores(&self, _group: Group) -> Mask {
        Mask {
            pc: true,
            ci: true,
            t1: true,
            t2: true,
            tm: true,
        }
    }

    fn peeks(&self) -> bool {
        false
    }

    fn peek(&self, _shape: Shape, _first: &(), _second: &()) -> Result<(), Refused> {
        Ok(())
    }

    fn knows(&self, _number: u32) -> bool {
        false
    }

    // A number that is not known can be asked for too: there is no other.
    fn uses(&self, _number: u32) -> u8
        ensures { result ≡ 0 }
    {
        0
    }

    fn lend(&self, _tag: ()) -> Result<(), Part> {
        Ok(())
    }

    fn plan(&self, _number: u32, _arguments: &Args<()>, _pc: ()) -> Result<Plan<()>, PlanEnd>
        ensures { result ≡ Err PlanEnd.Spent }
    {
        Err(PlanEnd::Spent)
    }

    fn retag(&self, _plan: &Plan<()>, _old: ()) -> Result<(), Refused>
        ensures { result ≡ Ok tt }
    {
        Ok(())
    }

    fn wipe(&self, _pc: (), _old: ()) -> Result<(), Refused> {
        Ok(())
    }

    fn commit(&mut self, _plan: &Plan<()>) -> Result<(), AllocError>
        ensures done { result ≡ Ok tt }
        ensures same { self.new ≡ self.old }
    {
        Ok(())
    }

    fn uncommit(&mut self, _plan: &Plan<()>)
        ensures { self.new ≡ self.old }
    {}

    fn start_pc(&self, _birth: &Birth) {}

    fn start_word(&self, _birth: &Birth) {}

    fn show(&self, _tag: (), _to: &mut Line) {}

    fn listed(&self, _place: u32) -> Option<(u32, u32, u32)> {
        None
    }

    ghost lawful = { nothing_laws };
}
