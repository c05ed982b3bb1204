//! The policy of dynamic sealing.

ghost use Rattle.std.specs.Prelude.{◌≡◌, ◌+◌, ◌≤◌, ◌++◌, length};
ghost use Rattle.std.specs.Fmt.{decimal};
ghost use Rattle.std.specs.Prelude.{codes};
ghost use Rattle.arrayvec.specs.ArrayVec.{array_vec_len};
ghost use Rattle.sealing_policy.specs.Sealing.{key_plan, sealing};

use crate::services::{MAKE_KEY, SEAL, UNSEAL, answer, seal, unseal};
use crate::table::{is_data, refused, row_of};
use crate::tag::SealTag;
use policy_trait::{
    Args, Birth, Ins, InsAt, Mask, Outs, Part, Plan, PlanEnd, Policy, Refused, Rest, Shape, Why,
};
use pump_words::{Line, dec, write_text};
use rv_decode::Group;
use std::alloc::AllocError;
use std::marker::Model;

/// How many keys can be made.
const KEY_LIMIT: u32 = 65_536;

/// Dynamic sealing. Contracts see it as the number of keys made so far, which is the number of the next key.
#[derive(Drop)]
pub struct Sealing {
    keys: u32,
}

impl Model for Sealing {
    ghost use Rattle.std.specs.Prelude.{ℕ};
    ghost use Rattle.sealing_policy.specs.Sealing.{HasFewKeys};

    ghost Value = { ℕ };

    ghost view = { λ s. s.keys };

    ghost invariant = { λ s. HasFewKeys s.keys };
}

impl Sealing {
    /// Sealing before any key was made.
    pub fn new() -> Sealing
        ensures { result ≡ 0 }
    {
        Sealing { keys: 0 }
    }
}

impl Policy for Sealing {
    ghost use Rattle.sealing_policy.specs.Sealing.{HasFewKeys, sealing};
    ghost use Rattle.sealing_policy.specs.SealingLaws.{sealing_laws};

    type Tag = SealTag;

    ghost model = { sealing };

    ghost holds = { HasFewKeys };

    ghost longest = { 90 };

    fn plain(&self) -> SealTag {
        // read for the proof of `valid` alone: what reads the keys knows their invariant
        let _keys = &self.keys;
        SealTag::Data
    }

    #[inline(always)]
    fn rule(&self, group: Group, inputs: Ins<SealTag>) -> Result<Outs<SealTag>, Refused>
        ensures { result ≡ sealing.rule self.now group inputs }
    {
        self.rule_at(
            group,
            &InsAt::new(&inputs.pc, &inputs.ci, &inputs.t1, &inputs.t2, &inputs.tm),
        )
    }

    #[inline(always)]
    fn rule_at(&self, group: Group, inputs: &InsAt<'_, SealTag>) -> Result<Outs<SealTag>, Refused>
        ensures { result ≡ sealing.rule self.now group inputs.now }
    {
        let row = row_of(group);
        if row.is_met(inputs) {
            Ok(Outs {
                pc: SealTag::Data,
                result: row.tag(inputs),
            })
        } else {
            Err(refused(Why::Rule(group)))
        }
    }

    fn ignores(&self, group: Group) -> Mask {
        row_of(group).mask()
    }

    fn peeks(&self) -> bool {
        false
    }

    fn peek(&self, _shape: Shape, _first: &SealTag, _second: &SealTag) -> Result<(), Refused> {
        Ok(())
    }

    fn knows(&self, number: u32) -> bool {
        matches!(number, MAKE_KEY | SEAL | UNSEAL)
    }

    fn uses(&self, number: u32) -> u8 {
        if number == MAKE_KEY { 0 } else { 2 }
    }

    fn lend(&self, tag: SealTag) -> Result<(), Part> {
        if is_data(tag) {
            Ok(())
        } else {
            Err(Part::Seal)
        }
    }

    fn plan(
        &self,
        number: u32,
        arguments: &Args<SealTag>,
        pc: SealTag,
    ) -> Result<Plan<SealTag>, PlanEnd> {
        match number {
            MAKE_KEY => self.make_key(pc),
            SEAL => seal(arguments, pc),
            _ => unseal(arguments, pc),
        }
    }

    fn retag(&self, _plan: &Plan<SealTag>, old: SealTag) -> Result<SealTag, Refused> {
        Ok(old)
    }

    fn wipe(&self, _pc: SealTag, _old: SealTag) -> Result<SealTag, Refused> {
        Ok(SealTag::Data)
    }

    fn commit(&mut self, plan: &Plan<SealTag>) -> Result<(), AllocError> {
        if plan.service == MAKE_KEY {
            self.keys += 1;
        }
        Ok(())
    }

    fn uncommit(&mut self, plan: &Plan<SealTag>) {
        if plan.service == MAKE_KEY {
            self.keys -= 1;
        }
    }

    fn start_pc(&self, _birth: &Birth) -> SealTag {
        SealTag::Data
    }

    fn start_word(&self, _birth: &Birth) -> SealTag {
        SealTag::Data
    }

    fn show(&self, tag: SealTag, to: &mut Line) {
        match tag {
            SealTag::Data => write_text(to, b"data"),
            SealTag::Key(key) => show_number(to, b"key(", key),
            SealTag::Sealed(key) => show_number(to, b"sealed(", key),
        }
    }

    fn listed(&self, _place: u32) -> Option<(u32, u32, u32)> {
        None
    }

    ghost lawful = { sealing_laws };
}

impl Sealing {
    /// The next key, while there is one.
    fn make_key(&self, pc: SealTag) -> Result<Plan<SealTag>, PlanEnd>
        ensures { result ≡ key_plan self.now pc }
    {
        if self.keys < KEY_LIMIT {
            Ok(answer(
                MAKE_KEY,
                pc,
                self.keys,
                SealTag::Key(self.keys),
                Rest::Plain,
            ))
        } else {
            Err(PlanEnd::Spent)
        }
    }
}

/// Appends a number in parentheses behind a text that ends in the opening one.
fn show_number(to: &mut Line, prefix: &[u8], number: u32)
    requires { array_vec_len to.old + length prefix.now + 21 ≤ 512 }
    ensures text { to.new.items ≡ to.old.items ++ prefix.now ++ decimal number ++ codes ")" }
    ensures short { array_vec_len to.new ≤ array_vec_len to.old + length prefix.now + 21 }
{
    write_text(to, prefix);
    dec(to, u64::from(number));
    write_text(to, b")");
}
