//! The first numbers that choose the kinds of a workload's blocks.

ghost use Rattle.std.specs.Prelude.{◌≡◌};
ghost use Rattle.workload.specs.declared.kinds.BlockKind.TheVariants.{Flow, Heap, Sealing};
ghost use Rattle.workload.specs.Kinds.{kind_of, number_after};

/// The number behind 1, and the kinds of the blocks of a workload of one and of a workload of two, as they were worked out
/// apart from the definition.
pub fn first_numbers()
    ensures number { number_after 1 ≡ 1103527590 }
    ensures one_block { kind_of (number_after 1) ≡ Flow }
    ensures first_of_two { kind_of (number_after 2) ≡ Sealing }
    ensures last_of_two { kind_of (number_after (number_after 2)) ≡ Heap }
{}
