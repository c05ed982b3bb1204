//! Which of the four policies stand beside one's own.

ghost use Rattle.std.specs.Prelude.{◌≡◌};
ghost use Rattle.beside_pump.specs.Lists.{basis_in, no_basis};

use policy_choice::{Basis, Choice, read_choice};

/// The basis that chooses none of the four.
pub(crate) fn no_basis() -> Basis
    ensures { result ≡ no_basis }
{
    Basis {
        choice: Choice::none(),
    }
}

/// The basis of a list of names as that of `pump run --policy`, of the four alone. `None` for any other text, one that names
/// `secret` too: its file would be wanting.
pub(crate) fn basis_in(list: &[u8]) -> Option<Basis>
    ensures { result ≡ basis_in list.now }
{
    match read_choice(list) {
        Some(choice) if !choice.secret => Some(Basis { choice }),
        _ => None,
    }
}
