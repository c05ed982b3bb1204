//! What the texts of tags of all policies together tell.

ghost use Rattle.std.specs.Prelude.{◌≡◌};
ghost use Rattle.image_format.specs.Picture.{Picture};
ghost use Rattle.policy_choice.specs.All.{AllState, AllTag, all, choice_state};
ghost use Rattle.policy_choice.specs.declared.basis.Basis.{Basis};
ghost use Rattle.policy_choice.specs.declared.choice.Choice.{Choice};
ghost use Rattle.choice_texts.specs.Texts.{IsStateOf, IsTagOf};

/// Whichever policies are chosen, two tags of one text are one tag, where both have a component for just the chosen ones,
/// their numbers are of 32 bits and their sets have 128. At the start of an image each policy is on exactly where it is
/// chosen.
pub fn text_law()
    ensures apart { (choice : Choice) (state : AllState) (x y : AllTag)
        → IsStateOf choice state → IsTagOf choice x → IsTagOf choice y
        → all.text state x ≡ all.text state y → x ≡ y }
    ensures start { (basis : Basis) (g : Picture) → IsStateOf basis.choice (choice_state basis g) }
{}
