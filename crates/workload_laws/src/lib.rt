//! What holds of workloads and the assembler together: the source of each is assembled.
//! Its contract is a law for callers that assemble workloads.
#![tactic(auto)]

ghost use Rattle.std.specs.Prelude.{◌≡◌, ℕ, ◌≤◌, Ok};
ghost use Rattle.asm_emit.specs.Assembled.{image_of_source};
ghost use Rattle.workload.specs.Source.{source_of_workload};
ghost use Rattle.workload_laws.specs.Images.{image_of_workload};

/// The source of a workload of at most 1000 blocks is assembled, and its image is the one that `specs/Images.antt` tells block by
/// block: one run of code from 0 on, 65536 bytes of RAM with the heap at their end, and one hart that starts at 0.
pub fn assembles_law()
    ensures { (count : ℕ) → count ≤ 1000 →
        image_of_source (source_of_workload count) ≡ Ok (image_of_workload count) }
{}
