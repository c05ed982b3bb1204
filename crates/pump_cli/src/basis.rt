//! What the start of a task rests on beside the image.

ghost use Rattle.std.specs.Prelude.{◌≡◌};
ghost use Rattle.pump_cli.specs.Program.{basis_of};

use policy_choice::{Basis, Choice};

/// What the start of a task with this choice rests on beside the image.
pub(crate) fn basis_of(choice: Choice) -> Basis
    ensures { result ≡ basis_of choice }
{
    Basis { choice }
}
