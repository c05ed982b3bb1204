//! Values that `==` tells apart.

ghost use Rattle.std.specs.Prelude.{◌≡◌, ◌↔◌, IsTrue};
ghost use Rattle.pump_words.specs.Same.{TellsApart};

use std::hash::Hash;

/// A type whose `==` tells any two values apart: two that it calls equal are one.
///
/// An enum with derives, whose fields have the law, has it by `ghost same = { Prim.search rules };`.
pub trait Same: Copy + Eq + Ord + Hash {
    ghost same: { TellsApart Self.eq };
}

impl Same for u32 {
    ghost use Rattle.std.proofs.Common.{rules};

    ghost same = { Prim.search rules };
}

impl Same for () {
    ghost use Rattle.std.proofs.Common.{rules};

    ghost same = { Prim.search rules };
}

impl<T: Same> Same for Option<T> {
    ghost use Rattle.std.proofs.Common.{rules};

    ghost same = { Prim.search (rules, T.same) };
}

impl<A: Same, B: Same> Same for (A, B) {
    ghost use Rattle.std.proofs.Common.{rules};

    ghost same = { Prim.search (rules, A.same, B.same) };
}

/// Whether two values are one.
pub fn is_same<T: Same>(left: &T, right: &T) -> bool
    ensures { IsTrue result ↔ (left.now ≡ right.now) }
{
    *left == *right
}
