//! Keys, outputs and answers in words, as tests name them.

ghost use Rattle.std.specs.Prelude.{◌≡◌};

use policy_trait::{Answer, Rest};
use rule_cache::{InWords, Key, OutWords};
use rv_decode::Group;

/// The key of a group with this word for each tag.
pub(crate) fn key(group: Group, word: u32) -> Key
    ensures group { result.group ≡ group }
    ensures words { result.words ≡ record { pc = word; ci = word; t1 = word; t2 = word; tm = word } }
{
    let words = InWords {
        pc: word,
        ci: word,
        t1: word,
        t2: word,
        tm: word,
    };
    Key { group, words }
}

/// The outputs with these words of the pc and of what is written.
pub(crate) fn outs(pc: u32, written: u32) -> OutWords
    ensures { result ≡ record { pc = pc; result = written } }
{
    OutWords {
        pc,
        result: written,
    }
}

/// The answer of this value, tag and rest.
pub(crate) fn answer_of(parts: (u32, u32, Rest)) -> Answer<u32>
    ensures { result ≡ record { value = parts.0; tag = parts.1; rest = parts.2 } }
{
    let (value, tag, rest) = parts;
    Answer { value, tag, rest }
}
