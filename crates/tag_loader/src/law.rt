//! What the memory of every image holds at the start, for callers that reason about it.

ghost use Rattle.std.specs.Prelude.{◌≡◌, ℕ, ◌/◌, ◌<◌, length, All};
ghost use Rattle.image_format.specs.Picture.{Picture};
ghost use Rattle.image_format.specs.Conditions.{IsImage};
ghost use Rattle.turn_steps.specs.Values.{IsWord};
ghost use Rattle.engine_trait.specs.Machine.{HasWords};
ghost use Rattle.tag_loader.specs.Start.{memory_of, start_machine};
ghost use Rattle.tag_loader.specs.Memory.{HoldsWords, LiesOutside, WordAt};

use policy_trait::Policy;

/// The memory at the start has one word for each four bytes of the RAM. Each segment's words stand from its address on,
/// so no segment writes over another's, and each word outside all segments is 0. All are below 2^32.
pub fn memory_law()
    ensures size { (g : Picture) → IsImage g → length (memory_of g) ≡ g.ram / 4 }
    ensures held { (g : Picture) → IsImage g → All (HoldsWords g) g.segments }
    ensures others { (g : Picture) (n : ℕ) → IsImage g → n < g.ram / 4
        → All (LiesOutside n) g.segments → WordAt g n 0 }
    ensures words { (g : Picture) → IsImage g → All IsWord (memory_of g) }
{}

/// Every value is a word at the start of every image, under any policy.
pub fn values_law<P: Policy>()
    ensures { (policy : P) (g : Picture) → IsImage g
        → HasWords (start_machine P.model policy g).core }
{}
