//! The law of a workload's length.

ghost use Rattle.std.specs.Prelude.{ℕ, ◌≤◌, length};
ghost use Rattle.workload.specs.Source.{source_of_workload};

/// The source of a workload of at most 1000 blocks has at most 2^20 bytes.
pub fn length_law()
    ensures { (count : ℕ) → count ≤ 1000 → length (source_of_workload count) ≤ 1048576 }
{}
