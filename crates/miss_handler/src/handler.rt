//! `ask`: the answer of a kept rule, or that of the policy's, which is kept then. `settle`: the
//! policy's alone.

ghost use Rattle.std.specs.Prelude.{◌≡◌, ◌↔◌, ◌+◌, ◌<◌, ◌≤◌, [], ◌∷◌, Err, IfOk, IsOk, IsOkAnd, OnErr, OnOk, Ok, Some, if◌then◌else◌, true, is_some, length, slice_get};
ghost use Rattle.policy_trait.specs.declared.rules.Refused.{Refused};
ghost use Rattle.engine_trait.specs.Accounts.{Account, is_kept, looked_up, rule_kept, with_tags};
ghost use Rattle.shared_terms.specs.Counts.{next_count};
ghost use Rattle.rule_cache.specs.Stores.{lookup_of, store_with};
ghost use Rattle.tag_intern.specs.Table.{Extends};
ghost use Rattle.miss_handler.specs.Asked.{AreInWords, AreOutWords, AreRules, answer_on, outs_on, tag_key, word_key};
ghost use Rattle.miss_handler.specs.Answered.{AreWordsOf, IsAnswered, with_outs};
ghost use Rattle.miss_handler.specs.Books.{IgnoresMasked};
ghost use Rattle.miss_handler.specs.Told.{Tells};

use crate::ends::AskEnd;
use crate::rules::Rules;
use policy_trait::{Outs, Refused};
use rule_cache::{InWords, Key, OutWords, RuleStore};
use rv_decode::Group;
use tag_intern::{Decoder, InternEnd, TagTable, has_word};

/// The outputs of the rule of a group at five tags, all as words.
///
/// A kept rule is found, and the policy's rule is not asked then, nothing is appended to the table, and no memory is
/// taken. Else the policy's rule is asked once. Where it refuses, it is not kept. Where it allows, its outputs get words,
/// that of the pc first, and the rule is kept; where they can't, nothing is appended and it is not kept.
#[inline(always)]
pub fn ask<T: TagTable, C: RuleStore, R: Rules<Tag = T::Tag>>(
    tags: &mut T,
    store: &mut C,
    rules: &mut R,
    group: Group,
    words: InWords,
) -> Result<OutWords, AskEnd>
    requires plain_word { slice_get (T.state tags.old).tags 0 ≡ Some (R.book rules.old).plain }
    requires in_words { AreInWords (length (T.state tags.old).tags) words }
    requires rules { AreRules (R.book rules.old) (T.state tags.old).tags (C.state store.old).sets }

    // The answer is that of the policy's rule.
    ensures answer { IfOk result (λ outs.
        answer_on (R.book rules.old) (T.state tags.old).tags group words
        ≡ Ok (outs_on (R.book rules.old) (T.state tags.new).tags outs)) }
    ensures out_words { IfOk result (AreOutWords (length (T.state tags.new).tags)) }
    ensures stopped { (refused : Refused) → (result ≡ Err (AskEnd.Stopped refused))
        ↔ (answer_on (R.book rules.old) (T.state tags.old).tags group words ≡ Err refused) }

    // Beside the account of an engine, the look-up is counted, and an allowed rule is kept and its outputs have words.
    ensures kept { OnOk result ((account : Account T.Tag)
        → Tells (R.book rules.old).plain (T.state tags.old) (C.state store.old) account
        → Tells (R.book rules.old).plain (T.state tags.new) (C.state store.new)
        (rule_kept T.Tag.eq (tag_key (R.book rules.old) (T.state tags.old).tags group words)
        (answer_on (R.book rules.old) (T.state tags.old).tags group words)
        (looked_up T.Tag.eq (tag_key (R.book rules.old) (T.state tags.old).tags group words)
        account))) }
    ensures unkept { OnErr result ((account : Account T.Tag)
        → Tells (R.book rules.old).plain (T.state tags.old) (C.state store.old) account
        → Tells (R.book rules.old).plain (T.state tags.new) (C.state store.new)
        (looked_up T.Tag.eq (tag_key (R.book rules.old) (T.state tags.old).tags group words)
        account)) }

    // It is out of words exactly where the outputs need more than there may be.
    ensures tags_out { result ≡ Err AskEnd.TagsOut
        → IsOkAnd (answer_on (R.book rules.old) (T.state tags.old).tags group words)
        (λ outs. (T.state tags.old).limit
        < length (with_tags T.Tag.eq (T.state tags.old).tags (outs.pc ∷ outs.result ∷ []))) }

    // Memory ran out only where the rule allows and all its outputs can have words.
    ensures memory { result ≡ Err AskEnd.Memory
        → IsOkAnd (answer_on (R.book rules.old) (T.state tags.old).tags group words)
        (λ outs. length (with_tags T.Tag.eq (T.state tags.old).tags (outs.pc ∷ outs.result ∷ []))
        ≤ (T.state tags.old).limit) }
    ensures within { length (T.state tags.new).tags ≤ (T.state tags.new).limit }
    ensures extends { Extends (T.state tags.old).tags (T.state tags.new).tags }
    ensures refused { OnErr result (T.state tags.new ≡ T.state tags.old) }

    // A kept rule is found: nothing that may fail is done, and no rule is asked.
    ensures hit { is_some (lookup_of (word_key (R.book rules.old) group words)
        (C.state store.old)) ≡ true
        → IsOk result }
    ensures known { is_some (lookup_of (word_key (R.book rules.old) group words)
        (C.state store.old)) ≡ true
        → T.state tags.new ≡ T.state tags.old }
    ensures told { (account : Account T.Tag)
        → Tells (R.book rules.old).plain (T.state tags.old) (C.state store.old) account
        → is_kept T.Tag.eq (tag_key (R.book rules.old) (T.state tags.old).tags group words) account
        ≡ is_some (lookup_of (word_key (R.book rules.old) group words) (C.state store.old)) }
    ensures answers { R.answers rules.new
        ≡ (if is_some (lookup_of (word_key (R.book rules.old) group words) (C.state store.old))
        then R.answers rules.old else next_count (R.answers rules.old)) }

    // The rules stay what they are, and each kept one is the policy's answer still.
    ensures book { R.book rules.new ≡ R.book rules.old }
    ensures rules { AreRules (R.book rules.old) (T.state tags.new).tags (C.state store.new).sets }
{
    let _len = tags.len(); // for the proof: no tag has two words
    let key = Key {
        group,
        words: rules.mask(group).masked(words),
    };
    if let Some(outs) = store.find(&key) {
        return Ok(outs);
    }
    // A key of its own, or the one looked up would need a place in memory where it is kept too.
    let key = Key {
        group: key.group,
        words: key.words,
    };
    missed(tags, store, rules, key)
}

/// The outputs of the policy's rule of a group at five tags, all as words, where no rule is kept
/// for them, as behind a sweep: `ask` without a look-up. That was counted before.
///
/// The policy's rule is asked once. Where it refuses, it is not kept. Where it allows, its outputs
/// get words, that of the pc first, and the rule is kept; where they can't, nothing is appended and
/// it is not kept.
#[inline(never)]
pub fn settle<T: TagTable, C: RuleStore, R: Rules<Tag = T::Tag>>(
    tags: &mut T,
    store: &mut C,
    rules: &mut R,
    group: Group,
    words: InWords,
) -> Result<OutWords, AskEnd>
    requires plain_word { slice_get (T.state tags.old).tags 0 ≡ Some (R.book rules.old).plain }
    requires in_words { AreInWords (length (T.state tags.old).tags) words }
    requires rules { AreRules (R.book rules.old) (T.state tags.old).tags (C.state store.old).sets }

    // The answer is that of the policy's rule.
    ensures answer { IfOk result (λ outs.
        answer_on (R.book rules.old) (T.state tags.old).tags group words
        ≡ Ok (outs_on (R.book rules.old) (T.state tags.new).tags outs)) }
    ensures out_words { IfOk result (AreOutWords (length (T.state tags.new).tags)) }
    ensures stopped { (refused : Refused) → (result ≡ Err (AskEnd.Stopped refused))
        ↔ (answer_on (R.book rules.old) (T.state tags.old).tags group words ≡ Err refused) }

    // Beside the account of an engine, an allowed rule is kept and its outputs have words. No
    // look-up is counted.
    ensures kept { OnOk result ((account : Account T.Tag)
        → Tells (R.book rules.old).plain (T.state tags.old) (C.state store.old) account
        → Tells (R.book rules.old).plain (T.state tags.new) (C.state store.new)
        (rule_kept T.Tag.eq (tag_key (R.book rules.old) (T.state tags.old).tags group words)
        (answer_on (R.book rules.old) (T.state tags.old).tags group words)
        account)) }
    ensures unkept { OnErr result (C.state store.new ≡ C.state store.old) }
    ensures refused { OnErr result (T.state tags.new ≡ T.state tags.old) }

    // It is out of words only where the outputs need more than there may be.
    ensures tags_out { result ≡ Err AskEnd.TagsOut
        → IsOkAnd (answer_on (R.book rules.old) (T.state tags.old).tags group words)
        (λ outs. (T.state tags.old).limit
        < length (with_tags T.Tag.eq (T.state tags.old).tags (outs.pc ∷ outs.result ∷ []))) }

    // Memory ran out only where the rule allows and all its outputs can have words.
    ensures memory { result ≡ Err AskEnd.Memory
        → IsOkAnd (answer_on (R.book rules.old) (T.state tags.old).tags group words)
        (λ outs. length (with_tags T.Tag.eq (T.state tags.old).tags (outs.pc ∷ outs.result ∷ []))
        ≤ (T.state tags.old).limit) }
    ensures within { length (T.state tags.new).tags ≤ (T.state tags.new).limit }
    ensures extends { Extends (T.state tags.old).tags (T.state tags.new).tags }
    ensures answers { R.answers rules.new ≡ next_count (R.answers rules.old) }

    // The rules stay what they are, and each kept one is the policy's answer still.
    ensures book { R.book rules.new ≡ R.book rules.old }
    ensures rules { AreRules (R.book rules.old) (T.state tags.new).tags (C.state store.new).sets }
{
    let _len = tags.len(); // for the proof: no tag has two words
    let key = key_of(rules, group, words);
    answered_anew(tags, store, rules, key)
}

/// The key that the rule of a group is kept under, in which each input that it ignores is plain.
fn key_of<R: Rules>(rules: &R, group: Group, words: InWords) -> Key
    ensures key { result ≡ word_key (R.book rules.now) group words }
    ensures law { IgnoresMasked (R.book rules.now) }
{
    let mask = rules.mask(group);
    Key {
        group,
        words: mask.masked(words),
    }
}

/// What the policy's rule answers to a key that is not kept. Where it allows, its outputs get words and the rule is kept;
/// else table and store are as they were.
#[inline(always)]
fn missed<T: TagTable, C: RuleStore, R: Rules<Tag = T::Tag>>(
    tags: &mut T,
    store: &mut C,
    rules: &mut R,
    key: Key,
) -> Result<OutWords, AskEnd>
    ensures answered { IfOk result
        (IsAnswered T.Tag.eq (R.book rules.old) (T.state tags.old) (T.state tags.new) key) }
    ensures kept { IfOk result (λ outs.
        C.state store.new ≡ store_with key outs (C.state store.old)) }
    ensures stopped { (refused : Refused) → (result ≡ Err (AskEnd.Stopped refused))
        ↔ (answer_on (R.book rules.old) (T.state tags.old).tags key.group key.words ≡ Err refused) }
    ensures tags_out { result ≡ Err AskEnd.TagsOut
        → IsOkAnd (answer_on (R.book rules.old) (T.state tags.old).tags key.group key.words)
        (λ outs. (T.state tags.old).limit
        < length (with_outs T.Tag.eq (T.state tags.old).tags outs)) }
    ensures memory { result ≡ Err AskEnd.Memory
        → IsOkAnd (answer_on (R.book rules.old) (T.state tags.old).tags key.group key.words)
        (λ outs. length (with_outs T.Tag.eq (T.state tags.old).tags outs)
        ≤ (T.state tags.old).limit) }
    ensures table { OnErr result (T.state tags.new ≡ T.state tags.old) }
    ensures store { OnErr result (C.state store.new ≡ C.state store.old) }
    ensures within { OnOk result (length (T.state tags.new).tags ≤ (T.state tags.new).limit) }
    ensures answers { R.answers rules.new ≡ next_count (R.answers rules.old) }
    ensures book { R.book rules.new ≡ R.book rules.old }
{
    // Rules of its own, or those that are given would need a place in memory where a rule is found too.
    let mut asked = rules.again();
    let end = answered_anew(tags, store, &mut asked, key);
    *rules = asked;
    end
}

/// The same, of rules that have a place in memory.
#[inline(never)]
fn answered_anew<T: TagTable, C: RuleStore, R: Rules<Tag = T::Tag>>(
    tags: &mut T,
    store: &mut C,
    rules: &mut R,
    key: Key,
) -> Result<OutWords, AskEnd>
    ensures answered { IfOk result
        (IsAnswered T.Tag.eq (R.book rules.old) (T.state tags.old) (T.state tags.new) key) }
    ensures kept { IfOk result (λ outs.
        C.state store.new ≡ store_with key outs (C.state store.old)) }
    ensures stopped { (refused : Refused) → (result ≡ Err (AskEnd.Stopped refused))
        ↔ (answer_on (R.book rules.old) (T.state tags.old).tags key.group key.words ≡ Err refused) }
    ensures tags_out { result ≡ Err AskEnd.TagsOut
        → IsOkAnd (answer_on (R.book rules.old) (T.state tags.old).tags key.group key.words)
        (λ outs. (T.state tags.old).limit
        < length (with_outs T.Tag.eq (T.state tags.old).tags outs)) }
    ensures memory { result ≡ Err AskEnd.Memory
        → IsOkAnd (answer_on (R.book rules.old) (T.state tags.old).tags key.group key.words)
        (λ outs. length (with_outs T.Tag.eq (T.state tags.old).tags outs)
        ≤ (T.state tags.old).limit) }
    ensures table { OnErr result (T.state tags.new ≡ T.state tags.old) }
    ensures store { OnErr result (C.state store.new ≡ C.state store.old) }
    ensures within { OnOk result (length (T.state tags.new).tags ≤ (T.state tags.new).limit) }
    ensures answers { R.answers rules.new ≡ next_count (R.answers rules.old) }
    ensures book { R.book rules.new ≡ R.book rules.old }
{
    let outs = match answer(tags, rules, &key) {
        Ok(outs) => outs,
        Err(refused) => return Err(AskEnd::Stopped(refused)),
    };
    let len = tags.len();
    let words = match intern_outs(tags, outs) {
        Ok(words) => words,
        Err(InternEnd::Full) => return Err(AskEnd::TagsOut),
        Err(InternEnd::Memory) => return Err(AskEnd::Memory),
    };
    if store.keep(key, words).is_err() {
        tags.cut(len);
        return Err(AskEnd::Memory);
    }
    Ok(words)
}

/// The answer of the policy's rule at the tags of a key.
fn answer<T: TagTable, R: Rules<Tag = T::Tag>>(
    tags: &T,
    rules: &mut R,
    key: &Key,
) -> Result<Outs<T::Tag>, Refused>
    ensures answer { result
        ≡ answer_on (R.book rules.old) (T.state tags.now).tags key.now.group key.now.words }
    ensures answers { R.answers rules.new ≡ next_count (R.answers rules.old) }
    ensures book { R.book rules.new ≡ R.book rules.old }
{
    let decoder = Decoder {
        tags,
        plain: rules.plain(),
    };
    rules.answer(key.group, key.words.map(&decoder))
}

/// The words of the outputs, that of the pc first. `Full` is told only where there would be more tags with words than
/// there may be, and `Memory` only where there is room for all outputs. Neither refusal leaves a tag behind.
fn intern_outs<T: TagTable>(tags: &mut T, outs: Outs<T::Tag>) -> Result<OutWords, InternEnd>
    ensures words { IfOk result (AreWordsOf (T.state tags.new).tags outs) }
    ensures grown { OnOk result (T.state tags.new
        ≡ record (T.state tags.old) { tags = with_outs T.Tag.eq (T.state tags.old).tags outs }) }
    ensures within { OnOk result (length (T.state tags.new).tags ≤ (T.state tags.new).limit) }
    ensures full { result ≡ Err InternEnd.Full
        → (T.state tags.old).limit < length (with_outs T.Tag.eq (T.state tags.old).tags outs) }
    ensures memory { result ≡ Err InternEnd.Memory
        → length (with_outs T.Tag.eq (T.state tags.old).tags outs) ≤ (T.state tags.old).limit }
    ensures refused { OnErr result (T.state tags.new ≡ T.state tags.old) }
{
    let len = tags.len();
    let pc = match tags.intern(outs.pc) {
        Ok(pc) => pc,
        Err(_) => return Err(end_without_words(tags, outs)),
    };
    match tags.intern(outs.result) {
        Ok(result) => Ok(OutWords { pc, result }),
        Err(end) => {
            tags.cut(len);
            Err(end)
        }
    }
}

/// Why outputs have no words: there is no room for them, or else memory ran out.
fn end_without_words<T: TagTable>(tags: &T, outs: Outs<T::Tag>) -> InternEnd
    ensures full { (result ≡ InternEnd.Full) ↔ ((T.state tags.now).limit
        < length (with_outs T.Tag.eq (T.state tags.now).tags outs)) }
    ensures memory { (result ≡ InternEnd.Memory) ↔ (length (with_outs T.Tag.eq
        (T.state tags.now).tags outs) ≤ (T.state tags.now).limit) }
{
    let room = tags.limit() - tags.len();
    if new_tags(tags, outs) <= room {
        return InternEnd::Memory;
    }
    InternEnd::Full
}

/// How many more tags have words once the outputs have.
#[tactic(auto, using(crate::proofs::RoomLemmas::outs_add))]
fn new_tags<T: TagTable>(tags: &T, outs: Outs<T::Tag>) -> u32
    ensures count { length (T.state tags.now).tags + result
        ≡ length (with_outs T.Tag.eq (T.state tags.now).tags outs) }
{
    let is_pc_known = has_word(tags, &outs.pc);
    let is_result_known = outs.result == outs.pc || has_word(tags, &outs.result);
    one_unless(is_pc_known) + one_unless(is_result_known)
}

/// One tag, or none where it is known.
fn one_unless(is_known: bool) -> u32
    ensures { result ≡ (if is_known then 0 else 1) }
{
    if is_known { 0 } else { 1 }
}
