//! What holds of every command line.

ghost use Rattle.std.specs.Prelude.{◌≡◌, ℕ, List, IsSome, None};
ghost use Rattle.pump_line.specs.Line.{HasMatch};
ghost use Rattle.pump_line.specs.Request.{request_of};

/// A line asks for something exactly where `clap` names no fault for its words.
pub fn match_law()
    ensures matched { (words : List (List ℕ)) → HasMatch words → IsSome (request_of words) }
    ensures faulty { (words : List (List ℕ)) → ¬ HasMatch words → request_of words ≡ None }
{}
