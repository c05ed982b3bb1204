//! Which inputs the rule of each group ignores, as a table.

ghost use Rattle.std.specs.Prelude.{◌≡◌};
ghost use Rattle.rv_decode.specs.declared.groups.Group.{Group as AnyGroup};

use crate::word_mask::WordMask;
use policy_trait::Policy;
use rv_decode::Group;
use std::marker::Model;

/// Which inputs the rule of each group ignores. It is made once for a policy, whose services change none of it.
#[derive(Drop)]
pub struct Masks {
    masks: [WordMask; 21],
}

impl Model for Masks {
    ghost use Rattle.rv_decode.specs.declared.groups.Group.{Group};
    ghost use Rattle.policy_trait.specs.declared.rules.Mask.{Mask};
    ghost use Rattle.policy_trait.specs.contracts.rules.Mask as mask;
    ghost use Rattle.miss_handler.specs.Books.{mask_in, masks_code};

    ghost Value = { Group → Mask };

    ghost coded = { masks_code mask.the_row.coded };

    ghost view = { λ m. mask_in m.masks };
}

impl Masks {
    /// The masks of a policy.
    pub fn of<P: Policy>(policy: &P) -> Masks
        ensures { (group : AnyGroup) → result group ≡ P.model.ignores policy.now group }
    {
        Masks {
            masks: [
                WordMask::of(policy.ignores(Group::Const)),
                WordMask::of(policy.ignores(Group::Here)),
                WordMask::of(policy.ignores(Group::Jal)),
                WordMask::of(policy.ignores(Group::Jalr)),
                WordMask::of(policy.ignores(Group::Branch)),
                WordMask::of(policy.ignores(Group::LoadWord)),
                WordMask::of(policy.ignores(Group::LoadPart)),
                WordMask::of(policy.ignores(Group::StoreWord)),
                WordMask::of(policy.ignores(Group::StorePart)),
                WordMask::of(policy.ignores(Group::Move)),
                WordMask::of(policy.ignores(Group::AddImm)),
                WordMask::of(policy.ignores(Group::AluImm)),
                WordMask::of(policy.ignores(Group::Add)),
                WordMask::of(policy.ignores(Group::Sub)),
                WordMask::of(policy.ignores(Group::Alu)),
                WordMask::of(policy.ignores(Group::Fence)),
                WordMask::of(policy.ignores(Group::Exit)),
                WordMask::of(policy.ignores(Group::Put)),
                WordMask::of(policy.ignores(Group::Get)),
                WordMask::of(policy.ignores(Group::Break)),
                WordMask::of(policy.ignores(Group::Call)),
            ],
        }
    }

    /// Which inputs the rule of the group ignores.
    #[inline(always)]
    pub fn mask(&self, group: Group) -> WordMask
        ensures { result ≡ self.now group }
    {
        self.masks[group as usize]
    }
}
