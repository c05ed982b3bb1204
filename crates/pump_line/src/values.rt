//! The values of options.

ghost use Rattle.std.specs.Prelude.{◌≡◌, ◌≤◌, IfSome};
ghost use Rattle.pump_line.specs.Task.{cache_of, choice_in, count_of, history_of, most_cache, most_sets};
ghost use Rattle.pump_line.specs.Task.{number_or, number_within, size_of, size_with, tags_of, turns_of, whole_size};
ghost use Rattle.pump_line.specs.Told.{text_value};

use cache_size::CacheSize;
use policy_choice::{Choice, read_choice};
use pump_words::read_number;

/// The most rules that a run keeps whose line says nothing of them.
const DEFAULT_CACHE: u32 = 1_024;

/// The most kept rules that a line can ask for, in all sets together.
const MOST_CACHE: u32 = 65_536;

/// The most sets of kept rules that a line can ask for.
const MOST_SETS: u32 = 64;

/// The most tags that may have words in a run whose line says nothing of them.
const DEFAULT_TAGS: u32 = 65_536;

/// The most tags with words that a line can ask for.
const MOST_TAGS: u32 = 1_048_576;

/// The most turns that can be taken back in a shell whose line says nothing of them.
const DEFAULT_HISTORY: u32 = 0;

/// The most turns to be taken back that a line can ask for.
const MOST_HISTORY: u32 = 65_536;

/// The most turns of a run whose line says nothing of them.
const DEFAULT_TURNS: u32 = 1_000_000;

/// The most turns that a line can ask for.
const MOST_TURNS: u32 = 1_000_000_000;

/// The most blocks that a line can ask for.
const MOST_BLOCKS: u32 = 1_000;

/// The number from `least` to `most` that the text writes in 1 to 10 decimal digits; `None` for any other text.
fn read_number_within(text: &str, least: u32, most: u32) -> Option<u32>
    ensures value { result ≡ number_within least most text.now }
    ensures low { IfSome result (λ n. least ≤ n) }
    ensures high { IfSome result (λ n. n ≤ most) }
{
    let number = read_number(text.as_bytes())?;
    if number < u64::from(least) || number > u64::from(most) {
        return None;
    }
    Some(number as u32)
}

/// The number from `least` to `most` that is an option's value: `default` where the option isn't on the line; `None` for any
/// other text.
fn read_number_or(text: Option<&str>, default: u32, least: u32, most: u32) -> Option<u32>
    ensures { result ≡ number_or default least most (text_value text.entry) }
{
    match text {
        None => Some(default),
        Some(text) => read_number_within(text, least, most),
    }
}

/// The policies that are chosen, from the value of `--policy`: none where the option isn't on the line; `None` for a bad
/// list.
pub(crate) fn choice_from(list: Option<&str>) -> Option<Choice>
    ensures { result ≡ choice_in (text_value list.entry) }
{
    match list {
        None => Some(Choice::none()),
        Some(list) => read_choice(list.as_bytes()),
    }
}

/// The size of one set, from its text: a number from 0 to 65,536; `None` for any other text.
fn read_whole(text: &str) -> Option<CacheSize>
    ensures { result ≡ whole_size text.now }
{
    let ways = read_number_within(text, 0, MOST_CACHE)?;
    Some(CacheSize::one_set(ways))
}

/// The size of several sets, from the texts on both sides of the `x`: 1 to 64 sets of 1 to 65,536 ways each, and at most 65,536 rules in
/// all; `None` for any others.
fn read_sets(sets: &str, ways: &str) -> Option<CacheSize>
    ensures { result ≡ size_with (number_within 1 most_sets sets.now) (number_within 1 most_cache ways.now) }
{
    let sets = read_number_within(sets, 1, MOST_SETS)?;
    let ways = read_number_within(ways, 1, MOST_CACHE)?;
    if sets * ways > MOST_CACHE {
        return None;
    }
    Some(CacheSize { sets, ways })
}

/// The size that a text writes, as `N` or `SxW`; `None` for any other text.
fn read_size(text: &str) -> Option<CacheSize>
    ensures { result ≡ size_of text.now }
{
    match text.split_once('x') {
        None => read_whole(text),
        Some((sets, ways)) => read_sets(sets, ways),
    }
}

/// How many rules are kept, from the value of `--cache`: 1,024 in one set where the option isn't on the line; `None` for a bad text.
pub(crate) fn read_cache(text: Option<&str>) -> Option<CacheSize>
    ensures { result ≡ cache_of (text_value text.entry) }
{
    match text {
        None => Some(CacheSize::one_set(DEFAULT_CACHE)),
        Some(text) => read_size(text),
    }
}

/// The most tags that may have words, from the value of `--tags`: 65,536 where the option isn't on the line; `None` for a
/// text that is no number from 1 to 1,048,576.
pub(crate) fn read_tags(text: Option<&str>) -> Option<u32>
    ensures { result ≡ tags_of (text_value text.entry) }
{
    read_number_or(text, DEFAULT_TAGS, 1, MOST_TAGS)
}

/// The most turns that can be taken back, from the value of `--history`: 0 where the option isn't on the line; `None` for a
/// text that is no number from 0 to 65,536.
pub(crate) fn read_history(text: Option<&str>) -> Option<u32>
    ensures { result ≡ history_of (text_value text.entry) }
{
    read_number_or(text, DEFAULT_HISTORY, 0, MOST_HISTORY)
}

/// The most turns, from the value of `--turns`: 1,000,000 where the option isn't on the line; `None` for a text that is no
/// number from 1 to 1,000,000,000.
pub(crate) fn read_turns(text: Option<&str>) -> Option<u64>
    ensures { result ≡ turns_of (text_value text.entry) }
{
    read_number_or(text, DEFAULT_TURNS, 1, MOST_TURNS).map(u64::from)
}

/// How many blocks a workload has, from the operand of `load`; `None` for a text that is no number from 1 to 1,000.
pub(crate) fn read_count(text: &str) -> Option<u32>
    ensures { result ≡ count_of text.now }
{
    read_number_within(text, 1, MOST_BLOCKS)
}
