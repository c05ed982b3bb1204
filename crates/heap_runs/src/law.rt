//! What heap safety keeps.

ghost use Rattle.std.specs.Prelude.{◌≡◌, ℕ, ◌+◌, ◌*◌, ◌%◌, ◌^◌, ◌<◌, List, [], length};
ghost use Rattle.policy_trait.specs.declared.birth.Birth.{Birth};
ghost use Rattle.heap_policy.specs.Heap.{empty_heap, heap};
ghost use Rattle.part_turns.specs.Keeps.{Keeps};
ghost use Rattle.part_turns.specs.Start.{first_machine};
ghost use Rattle.heap_runs.specs.BlockBook.{block_book};
ghost use Rattle.heap_runs.specs.HeapInvariant.{HeapInvariant};
ghost use Rattle.heap_runs.specs.HeapSafe.{HeapTurn, is_in_heap};

/// Each turn under heap safety keeps its invariant, and reaches what the block book as it stands allows; so does each turn in
/// which other policies are chosen too.
pub fn block_law()
    ensures { (base top : ℕ)
        → Keeps heap (HeapInvariant base top)
        (λ before event. HeapTurn base top (block_book before) event) }
{}

/// The invariant holds at every start with a heap region of whole words, where the births tell it.
pub fn start_law()
    ensures { (birth : ℕ → Birth) (words entries : List ℕ) (base bytes : ℕ)
        → base % 4 ≡ 0 → base + bytes < 2 ^ 32
        → ((n : ℕ) → n < length words
        → (birth (4 * n)).heap ≡ is_in_heap base (base + bytes) (4 * n))
        → HeapInvariant base (base + bytes) []
        (first_machine heap (empty_heap base bytes) birth words entries) }
{}
