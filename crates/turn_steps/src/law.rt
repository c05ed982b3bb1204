//! What the steps of a turn keep and write, for callers that reason about them.

ghost use Rattle.std.specs.Prelude.{◌≡◌, ℕ, ◌%◌, List, Ok, Option, Some};
ghost use Rattle.std.specs.List.{All};
ghost use Rattle.std.specs.Option.{ForSome};
ghost use Rattle.policy_trait.specs.PolicyLaws.{HasWord};
ghost use Rattle.policy_trait.specs.Maps.{ins_by, outs_by};
ghost use Rattle.policy_trait.specs.declared.rules.Outs.{Outs};
ghost use Rattle.rv_decode.specs.Decoding.{instr_of_word};
ghost use Rattle.rv_decode.specs.Groups.{writes_of};
ghost use Rattle.rv_decode.specs.declared.instructions.Instr.{Instr};
ghost use Rattle.rv_decode.specs.declared.places.Places.{Places};
ghost use Rattle.policy_trait.specs.declared.services.Answer.{Answer};
ghost use Rattle.rv_step.specs.declared.accesses.Access.{Access};
ghost use Rattle.tag_memory.specs.Hart.{HartState, IsHart, IsHartOf, moved_to};
ghost use Rattle.tag_memory.specs.Maps.{hart_by, ram_by};
ghost use Rattle.tag_memory.specs.Ram.{IsPlace, IsRam, IsRamOf, RamState, ram_bytes};
ghost use Rattle.tag_memory.specs.Rows.{StandFrom};
ghost use Rattle.turn_steps.specs.Effects.{IsCarriedOf, IsSound, effect_result, with_result, with_tagged};
ghost use Rattle.turn_steps.specs.Feeds.{Tape};
ghost use Rattle.turn_steps.specs.Looks.{inputs_at, inputs_on, look_result};
ghost use Rattle.turn_steps.specs.Maps.{carry_by};
ghost use Rattle.turn_steps.specs.Peeks.{Peek, peek_by, peeked};
ghost use Rattle.turn_steps.specs.Services.{WritesRow, with_answer, with_words};
ghost use Rattle.turn_steps.specs.Values.{GivesWords, HartHasWords, IsWord, LeavesWords, RamHasWords};
ghost use Rattle.turn_steps.specs.declared.look.Look.{Look};

/// What is looked at can be carried out; its rule is asked with the tags of its instruction's operands, that of an absent
/// one plain; its result's register takes what the place of its instruction's result takes, be that a register or not;
/// and each step of a turn keeps the hart's x0 at 0 and plain, its pc at a word, and memory as large as it was.
pub fn steps_law<T: Copy>()
    ensures looked { (hart : HartState T) (ram : RamState T) (look : Look) → IsHart hart
        → look_result hart ram ≡ Ok look → IsSound (ram_bytes ram) look.effect }
    ensures asked { (hart : HartState T) (ram : RamState T) (look : Look) (instr : Instr)
        → look_result hart ram ≡ Ok look → instr_of_word look.word ≡ Some instr
        → inputs_on hart ram look.places look.effect.access ≡ inputs_at hart ram instr look.effect }
    ensures placed { (hart : HartState T) (ram : RamState T) (look : Look) (instr : Instr)
        → look_result hart ram ≡ Ok look → instr_of_word look.word ≡ Some instr
        → (written : HartState T) (value : ℕ) (tag : T)
        → with_tagged written look.places.result value tag
        ≡ with_result written (writes_of instr look.service) value tag }
    ensures carried { (plain : T) (hart : HartState T) (ram : RamState T) (feed : Tape)
        (look : Look) (outs : Outs T)
        → IsSound (ram_bytes ram) look.effect → IsHartOf plain hart → IsRamOf plain ram
        → IsCarriedOf plain (ram_bytes ram) (effect_result hart ram feed look outs) }
    ensures answered { (plain : T) (hart : HartState T) (answer : Option (Answer T)) (next : ℕ)
        (tag : T) → next % 4 ≡ 0 → IsHartOf plain hart
        → IsHartOf plain (moved_to (with_answer hart answer) next tag) }
{}

/// The words of a row are written each at its place, and every other word is as it was.
pub fn words_law<T: Copy>()
    ensures row { (ram : RamState T) (base : ℕ) (words : List (ℕ × ℕ × T)) → IsRam ram
        → base % 4 ≡ 0 → StandFrom base words → All (λ word. IsPlace (ram_bytes ram) word.0) words
        → WritesRow ram base words (with_words ram words) }
    ensures kept { (plain : T) (ram : RamState T) (words : List (ℕ × ℕ × T)) → IsRamOf plain ram
        → IsRamOf plain (with_words ram words) }
    ensures bytes { (ram : RamState T) (words : List (ℕ × ℕ × T))
        → ram_bytes (with_words ram words) ≡ ram_bytes ram }
{}

/// Where registers and memory have words, what an instruction computes and stores is a word, and what is left has words; so
/// it is after a service's answer and after what it writes, where these are words.
pub fn values_law<T: Copy>()
    ensures looked { (hart : HartState T) (ram : RamState T) (look : Look) → HartHasWords hart
        → look_result hart ram ≡ Ok look → GivesWords look.effect }
    ensures carried { (hart : HartState T) (ram : RamState T) (feed : Tape) (look : Look)
        (outs : Outs T) → GivesWords look.effect → HartHasWords hart → RamHasWords ram
        → LeavesWords (effect_result hart ram feed look outs) }
    ensures answered { (hart : HartState T) (answer : Option (Answer T)) → ForSome answer HasWord
        → HartHasWords hart → HartHasWords (with_answer hart answer) }
    ensures written { (ram : RamState T) (words : List (ℕ × ℕ × T))
        → All (λ word. IsWord word.1) words → RamHasWords ram → RamHasWords (with_words ram words) }
{}

/// A change of each tag leaves what is looked at, and goes through what whoever may refuse a look is asked with, through what the rule is
/// asked with and through the effect.
pub fn map_law<T: Copy, U: Copy>()
    ensures looked { (f : T → U) (hart : HartState T) (ram : RamState T)
        → look_result (hart_by f hart) (ram_by f ram) ≡ look_result hart ram }
    ensures peeked { (f : T → U) (peek : Peek U) (hart : HartState T) (ram : RamState T)
        → peeked peek (hart_by f hart) (ram_by f ram) ≡ peeked (peek_by f peek) hart ram }
    ensures asked { (f : T → U) (hart : HartState T) (ram : RamState T) (places : Places)
        (access : Access) → inputs_on (hart_by f hart) (ram_by f ram) places access
        ≡ ins_by f (inputs_on hart ram places access) }
    ensures carried { (f : T → U) (hart : HartState T) (ram : RamState T) (feed : Tape)
        (look : Look) (outs : Outs T)
        → effect_result (hart_by f hart) (ram_by f ram) feed look (outs_by f outs)
        ≡ carry_by f (effect_result hart ram feed look outs) }
{}
