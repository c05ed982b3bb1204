//! What two starts of an image have in common, for callers that reason about them.

ghost use Rattle.std.specs.Prelude.{◌≡◌, true};
ghost use Rattle.image_format.specs.Picture.{Picture};
ghost use Rattle.policy_choice.specs.All.{all};
ghost use Rattle.policy_choice.specs.Choice.{is_none};
ghost use Rattle.policy_product.specs.Nothing.{nothing, no_tag};
ghost use Rattle.policy_choice.specs.declared.basis.Basis.{Basis};
ghost use Rattle.engine_trait.specs.Mirrored.{IsMirrored};
ghost use Rattle.pump_loader.specs.PlainLoads.{bare_start_of, start_of};

/// Where no policy is chosen, the start under the policy that is nothing mirrors that under the chosen ones: it is the same
/// but that its tags have no content.
pub fn bare_law()
    ensures { (basis : Basis) (g : Picture) → is_none basis.choice ≡ true
        → IsMirrored no_tag all nothing (start_of basis g) (bare_start_of g) }
{}
