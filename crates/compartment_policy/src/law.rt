//! Laws of compartments.

ghost use Rattle.std.specs.Prelude.{◌≡◌};
ghost use Rattle.policy_trait.specs.Uses.{UsesExactly};
ghost use Rattle.compartment_policy.specs.Compartments.{CompartmentState, HasFittingNumbers, compartment_text, compartments};
ghost use Rattle.compartment_policy.specs.declared.tag.CompartmentTag.{CompartmentTag};

/// However many compartments there are and may be, a rule uses exactly the inputs that its mask does not ignore: an ignored
/// one changes no answer, and each other one changes some.
pub fn ignores_law()
    ensures { (state : CompartmentState) → UsesExactly compartments state }
{}

/// Two tags of one text are one, where their numbers fit: an owner in 32 bits, a set in 128.
pub fn text_law()
    ensures { (left right : CompartmentTag) → HasFittingNumbers left → HasFittingNumbers right
        → compartment_text left ≡ compartment_text right → left ≡ right }
{}
