//! What the run of the example comes to.

ghost use Rattle.std.specs.Prelude.{◌≡◌, [], Some, map, replicate, slice_get, true};
ghost use Rattle.image_format.specs.Conditions.{IsImage};
ghost use Rattle.turn_steps.specs.Feeds.{tape_of};
ghost use Rattle.engine_trait.specs.Accounts.{counts_of, is_over};
ghost use Rattle.engine_trait.specs.Events.{is_retirement};
ghost use Rattle.engine_trait.specs.Runs.{turn};
ghost use Rattle.policy_choice.specs.All.{all, all_eq};
ghost use Rattle.tag_loader.specs.Births.{birth_of};
ghost use Rattle.seal_runs.specs.KeyBook.{key_book};
ghost use Rattle.comp_runs.specs.OwnerBook.{owner_book};
ghost use Rattle.flow_runs.specs.EdgeWalk.{walk_of};
ghost use Rattle.heap_runs.specs.BlockBook.{block_book};
ghost use Rattle.run_props.specs.Safe.{IsSafe};
ghost use Rattle.run_props.specs.Lenses.{comp_lens, events_by, flow_lens, heap_lens, seal_lens};
ghost use Rattle.run_props.specs.EngineRuns.{IsNeverOver};
ghost use Rattle.run_examples.specs.Counted.{
  counted,
  end_unswept,
  engine_run,
  start_standing,
};
ghost use Rattle.run_examples.specs.Example.{all_four, blocks, events, harts, image, jump, keys, landing, second_walk, shared};

use engine_trait::Halt;

/// In the example's run, of which the laws on runs speak, each turn retires, and the books at its end hold what they are to: the key that was made and what it
/// sealed, the word that a compartment let another one write, where the harts were and the one indirect jump, and the block
/// that was handed out and taken back.
pub fn example_law()
    ensures image { IsImage image }
    ensures safe { IsSafe all_four image events }
    ensures retire { map is_retirement events ≡ replicate 31 true }
    ensures keys { key_book (events_by seal_lens events) ≡ keys }
    ensures shared { owner_book (birth_of image) (events_by comp_lens events) 56 ≡ shared }
    ensures walk { walk_of 1 (events_by flow_lens events) ≡ second_walk }
    ensures jump { slice_get (walk_of 0 (events_by flow_lens events)) 22 ≡ Some jump }
    ensures landing { slice_get (walk_of 0 (events_by flow_lens events)) 23 ≡ Some landing }
    ensures blocks { block_book (events_by heap_lens events) ≡ blocks }
{}

/// The law on sweeps is not empty: with sixteen words for its tags an engine that keeps rules comes
/// through the example's run without a sweep, as one that never sweeps does, and with fifteen that
/// one would not. With thirteen it sweeps twice, so that fewer looks hit, and the events are the
/// same; with twelve it runs out of tag numbers.
pub fn counted_law()
    ensures room { IsNeverOver all_eq all (start_standing 16) (tape_of []) (map turn harts) }
    ensures unswept { counts_of (engine_run 16).account ≡ counted 31 18 13 0 }
    ensures less { is_over (end_unswept 15) ≡ true }
    ensures swept { counts_of (engine_run 13).account ≡ counted 31 15 16 2 }
    ensures same { (engine_run 13).trace.events ≡ events }
    ensures few { counts_of (engine_run 12).account ≡ counted 13 9 5 2 }
    ensures out { (engine_run 12).account.halt ≡ Some Halt.TagNumbers }
{}
