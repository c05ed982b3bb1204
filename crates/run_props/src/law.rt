//! Laws on runs.

ghost use Rattle.std.specs.Prelude.{◌≡◌, ◌≤◌, ℕ, ◌+◌, List, [], All, map, None, Some, false, true};
ghost use Rattle.image_format.specs.Conditions.{IsImage};
ghost use Rattle.image_format.specs.Migrated.{migrated};
ghost use Rattle.image_format.specs.Picture.{Picture};
ghost use Rattle.turn_steps.specs.Feeds.{Tape};
ghost use Rattle.engine_trait.specs.Runs.{Item, run_along};
ghost use Rattle.sealing_policy.specs.Sealing.{sealing};
ghost use Rattle.compartment_policy.specs.Compartments.{compartments, split_service};
ghost use Rattle.flow_policy.specs.Flow.{flow};
ghost use Rattle.heap_policy.specs.Heap.{free_service, heap, malloc_service, pointed_to, words_of};
ghost use Rattle.live_blocks.specs.Space.{first_fit};
ghost use Rattle.live_blocks.specs.declared.block.Block.{Block};
ghost use Rattle.policy_choice.specs.All.{all, choice_state, pair_of};
ghost use Rattle.policy_choice.specs.declared.basis.Basis.{Basis};
ghost use Rattle.policy_parts.specs.Part.{IsPart};
ghost use Rattle.tag_loader.specs.Births.{birth_of};
ghost use Rattle.tag_loader.specs.Start.{memory_of, start_machine};
ghost use Rattle.seal_runs.specs.SealSafe.{SealSafe};
ghost use Rattle.comp_runs.specs.CompSafe.{CompSafe};
ghost use Rattle.flow_runs.specs.FlowSafe.{FlowSafe};
ghost use Rattle.heap_runs.specs.HeapSafe.{HeapSafe};
ghost use Rattle.policy_trait.specs.declared.birth.Birth.{Birth};
ghost use Rattle.engine_trait.specs.Events.{Call, Event, event_of};
ghost use Rattle.engine_trait.specs.Accounts.{is_over};
ghost use Rattle.engine_trait.specs.Machine.{Machine, is_ready_in};
ghost use Rattle.engine_trait.specs.Standing.{Standing};
ghost use Rattle.part_turns.specs.Maps.{event_with};
ghost use Rattle.policy_choice.specs.All.{AllState, AllTag};
ghost use Rattle.seal_runs.specs.SealInvariant.{SealInvariant};
ghost use Rattle.comp_runs.specs.CompInvariant.{CompInvariant};
ghost use Rattle.flow_runs.specs.FlowInvariant.{FlowInvariant};
ghost use Rattle.heap_runs.specs.BlockBook.{block_book};
ghost use Rattle.heap_runs.specs.HeapInvariant.{HeapInvariant};
ghost use Rattle.run_props.specs.Attacks.{GoesAstray, MissesBlock, Trespasses, UnsealsWithoutKey, WouldZero};
ghost use Rattle.run_props.specs.Beside.{beside, beside_start, seen_by_four};
ghost use Rattle.run_props.specs.Ends.{IsStopped};
ghost use Rattle.run_props.specs.Invariant.{MeetsInvariant};
ghost use Rattle.run_props.specs.Migration.{IsUnspent, widened_start};
ghost use Rattle.run_props.specs.Safe.{MeetsInvariants, IsSafe, heap_top, run_of};
ghost use Rattle.run_props.specs.Lenses.{comp_lens, events_by, flow_lens, heap_lens, seal_lens};
ghost use Rattle.run_props.specs.EngineRuns.{IsNeverOver, engine_along, unswept_along};

use compartment_policy::CompartmentTag;
use flow_policy::FlowTag;
use heap_policy::HeapTag;
use policy_trait::Policy;
use sealing_policy::SealTag;

/// Each of the four policies is a part of all of them together, wherever it is chosen.
pub fn parts_law()
    ensures seal { IsPart all sealing seal_lens }
    ensures comp { IsPart all compartments comp_lens }
    ensures flow { IsPart all flow flow_lens }
    ensures heap { IsPart all heap heap_lens }
{}

/// Where sealing is chosen, along any list of turns and fed bytes, each unsealing used its key.
pub fn seal_law()
    ensures { (basis : Basis) (g : Picture) (items : List Item) → IsImage g
        → basis.choice.seal ≡ true → SealSafe (events_by seal_lens (run_of basis g items).events) }
{}

/// Where compartments are chosen, along any list of turns and fed bytes, each store lies in its compartment's permitted
/// words, and a compartment is entered by right alone.
pub fn comp_law()
    ensures { (basis : Basis) (g : Picture) (items : List Item) → IsImage g
        → basis.choice.comp ≡ true
        → CompSafe (birth_of g) g.entries (events_by comp_lens (run_of basis g items).events) }
{}

/// Where control flow is chosen, along any list of turns and fed bytes, each hart runs the image's code alone, and each
/// indirect jump is a listed edge.
pub fn flow_law()
    ensures { (basis : Basis) (g : Picture) (items : List Item) → IsImage g
        → basis.choice.flow ≡ true
        → FlowSafe (birth_of g) (memory_of g) (map pair_of g.edges)
        (events_by flow_lens (run_of basis g items).events) }
{}

/// Where heap safety is chosen, along any list of turns and fed bytes, each heap access lies in its pointer's live block.
pub fn heap_law()
    ensures { (basis : Basis) (g : Picture) (items : List Item) → IsImage g
        → basis.choice.heap ≡ true
        → HeapSafe g.heap_base (heap_top g)
        (events_by heap_lens (run_of basis g items).events) }
{}

/// Each run keeps what is said of each chosen policy, whatever bytes were there to be got at its start.
pub fn run_law()
    ensures { (basis : Basis) (g : Picture) (feed : Tape) (items : List Item) → IsImage g
        → IsSafe basis g
        (run_along all (start_machine all (choice_state basis g) g) feed items).events }
{}

/// Whatever policy stands beside the four, asked last, each run of an image keeps what is said of each chosen one of the four.
pub fn beside_law<Q: Policy>()
    ensures { (basis : Basis) (g : Picture) (own : Q) (feed : Tape) (items : List Item) → IsImage g
        → Q.holds own → Q.model.room own ≤ g.ram
        → IsSafe basis g (seen_by_four
        (run_along (beside Q.model) (beside_start Q.model basis g own) feed items).events) }
{}

/// In each state that a run comes to, the tags say of the places what the books say of the events: it is one of which the
/// invariant of each chosen policy speaks, whatever bytes were there to be got at the run's start.
pub fn invariant_law()
    ensures { (basis : Basis) (g : Picture) (feed : Tape) (items : List Item) → IsImage g
        → MeetsInvariants basis g
        (run_along all (start_machine all (choice_state basis g) g) feed items).events
        (run_along all (start_machine all (choice_state basis g) g) feed items).machine }
{}

/// In every state of which the invariant of sealing speaks, a ready hart's turn that unseals without the key ends in a stop that is
/// no exit.
pub fn seal_attack_law()
    ensures { (events : List (Event SealTag)) (s : Machine AllState AllTag) (feed : Tape) (h : ℕ)
        → MeetsInvariant seal_lens SealInvariant events s → is_ready_in s.core h ≡ true
        → UnsealsWithoutKey (event_with seal_lens.tag (event_of all s feed h))
        → IsStopped (event_of all s feed h) }
{}

/// In every state of which the invariant of compartments speaks, a ready hart's turn ends in a stop that is no exit where it stores
/// to a word that is not permitted, or calls a service that would make such a word zero, or executes a foreign word without right
/// of entry.
pub fn comp_attack_law()
    ensures { (birth : ℕ → Birth) (entries : List ℕ) (events : List (Event CompartmentTag))
        (s : Machine AllState AllTag) (feed : Tape) (h : ℕ)
        → MeetsInvariant comp_lens (CompInvariant birth entries) events s → is_ready_in s.core h ≡ true
        → Trespasses birth entries s.policy events (event_of all s feed h)
        → IsStopped (event_of all s feed h) }
{}

/// Where heap safety is chosen, malloc would make zero the words at which the block fits first, and free those of the live block
/// that the pointer in a0 points to, whichever policies are chosen too.
pub fn zeroing_law()
    ensures malloc { (policy : AllState) (call : Call AllTag) (base : ℕ)
        → heap_lens.is_on policy ≡ true → call.number ≡ malloc_service
        → first_fit (heap_lens.value policy).space (words_of call.arguments.a0) ≡ Some base
        → WouldZero policy call (record { base = base; count = words_of call.arguments.a0 }) }
    ensures free { (policy : AllState) (call : Call AllTag) (block : Block)
        → heap_lens.is_on policy ≡ true → call.number ≡ free_service
        → pointed_to (heap_lens.value policy).space (heap_lens.tag call.arguments.t0) ≡ Some block
        → WouldZero policy call (record { base = block.base; count = block.words }) }
{}

/// In every state of which the invariant of control flow speaks, a ready hart's turn ends in a stop that is no exit where it executes a
/// word outside the code, or one to which no edge leads from the jump before.
pub fn flow_attack_law()
    ensures { (birth : ℕ → Birth) (words : List ℕ) (edges : List (ℕ × ℕ))
        (events : List (Event FlowTag)) (s : Machine AllState AllTag) (feed : Tape) (h : ℕ)
        → MeetsInvariant flow_lens (FlowInvariant birth words edges) events s → is_ready_in s.core h ≡ true
        → GoesAstray birth words edges events (event_with flow_lens.tag (event_of all s feed h))
        → IsStopped (event_of all s feed h) }
{}

/// In every state of which the invariant of heap safety speaks, a ready hart's turn ends in a stop that is no exit where it accesses
/// memory by a pointer that does not reach its live block, or the heap by what is no pointer.
pub fn heap_attack_law()
    ensures { (base top : ℕ) (events : List (Event HeapTag)) (s : Machine AllState AllTag)
        (feed : Tape) (h : ℕ) → MeetsInvariant heap_lens (HeapInvariant base top) events s
        → is_ready_in s.core h ≡ true
        → MissesBlock base top (block_book events)
        (event_with heap_lens.tag (event_of all s feed h))
        → IsStopped (event_of all s feed h) }
{}

/// Along any list of turns and fed bytes, under any policy, an engine that is not stopped as a whole
/// at the end has had the machine's run, whatever it swept: machine, feed and events are the same.
pub fn engine_law<P: Policy>()
    ensures { (e : Standing P P.Tag) (feed : Tape) (items : List Item)
        → (engine_along P.Tag.eq P.model e feed items).account.halt ≡ None
        → (engine_along P.Tag.eq P.model e feed items).trace
        ≡ run_along P.model e.machine feed items }
{}

/// Along any list of turns and fed bytes on which an engine that never sweeps would not run out of
/// tag numbers, an engine that runs does not sweep, under any policy: machine, feed and events are
/// those of the machine's run, and the account, with its counts, is that of the one that never
/// sweeps. The words of that one are never fewer than before: room for them at the list's end is
/// enough.
pub fn sweep_law<P: Policy>()
    ensures trace { (e : Standing P P.Tag) (feed : Tape) (items : List Item)
        → e.account.halt ≡ None → IsNeverOver P.Tag.eq P.model e feed items
        → (engine_along P.Tag.eq P.model e feed items).trace
        ≡ run_along P.model e.machine feed items }
    ensures account { (e : Standing P P.Tag) (feed : Tape) (items : List Item)
        → e.account.halt ≡ None → IsNeverOver P.Tag.eq P.model e feed items
        → (engine_along P.Tag.eq P.model e feed items).account
        ≡ unswept_along P.Tag.eq P.model e.machine feed items e.account }
    ensures sweeps { (e : Standing P P.Tag) (feed : Tape) (items : List Item)
        → e.account.halt ≡ None → IsNeverOver P.Tag.eq P.model e feed items
        → (engine_along P.Tag.eq P.model e feed items).account.sweeps ≡ e.account.sweeps }
    ensures enough { (e : Standing P P.Tag) (feed : Tape) (items : List Item)
        → is_over (unswept_along P.Tag.eq P.model e.machine feed items e.account) ≡ false
        → IsNeverOver P.Tag.eq P.model e feed items }
{}

/// An image that is migrated starts as it did, but that there may be 128 compartments; and along any list of turns and fed bytes in
/// which no split is spent, its run has the events that it had.
pub fn migration_law()
    ensures start { (basis : Basis) (g : Picture)
        → start_machine all (choice_state basis (migrated g)) (migrated g)
        ≡ widened_start basis g }
    ensures events { (basis : Basis) (g : Picture) (feed : Tape) (items : List Item)
        → All (IsUnspent split_service)
        (run_along all (start_machine all (choice_state basis g) g) feed items).events
        → (run_along all (start_machine all (choice_state basis (migrated g)) (migrated g))
        feed items).events
        ≡ (run_along all (start_machine all (choice_state basis g) g) feed items).events }
{}
