//! What holds of all policies together, for callers that reason about them.

ghost use Rattle.std.specs.Prelude.{◌≡◌, true};
ghost use Rattle.policy_trait.specs.Mirrors.{Mirrors};
ghost use Rattle.image_format.specs.Picture.{Picture};
ghost use Rattle.policy_product.specs.Nothing.{nothing, no_tag};
ghost use Rattle.policy_product.specs.declared.nothing.Nothing.{Nothing};
ghost use Rattle.policy_choice.specs.All.{all, choice_state, flat_all};
ghost use Rattle.policy_choice.specs.Choice.{is_none};
ghost use Rattle.policy_choice.specs.Flat.{parts_of};
ghost use Rattle.policy_choice.specs.Told.{IsToldAs};
ghost use Rattle.policy_choice.specs.declared.basis.Basis.{Basis};

/// All policies together, nested as they are, are the four told flat: each question goes to sealing, compartments, control
/// flow and heap safety in this order, and the first of them that refuses is named.
pub fn flat_law()
    ensures { IsToldAs parts_of parts_of all flat_all }
{}

/// Where no policy is chosen, the policy that is nothing has the rules of all policies together, but that its tags have no
/// content.
pub fn nothing_law()
    ensures { (basis : Basis) (g : Picture) (s : Nothing) → is_none basis.choice ≡ true
        → Mirrors no_tag all (choice_state basis g) nothing s }
{}
