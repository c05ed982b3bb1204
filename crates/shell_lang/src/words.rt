//! The words of a line, taken off it one after another: what is left of the line stands for the words behind.

ghost use Rattle.std.specs.Prelude.{◌≡◌, ◌+◌, ◌≤◌, [], ◌∷◌, drop, length, IfNone, IfOk, IfSome};
ghost use Rattle.std.specs.List.{position, position_or_len};
ghost use Rattle.shell_lang.specs.Operands.{no_operand, one_operand, two_operands};
ghost use Rattle.shell_lang.specs.Lent.{text_or_bad, lent_pair};
ghost use Rattle.shell_lang.specs.Words.{is_other, is_space, words_of};

use crate::bad_command::BadCommand;

/// Where the text's first space stands.
fn first_space(text: &[u8]) -> Option<usize>
    ensures { result ≡ position is_space text.now }
{
    text.iter().position(|byte| *byte == b' ')
}

/// Where the text's first byte stands that is no space.
fn first_other(text: &[u8]) -> Option<usize>
    ensures { result ≡ position is_other text.now }
{
    text.iter().position(|byte| *byte != b' ')
}

/// How many bytes stand before the text's first space.
#[tactic(auto, using(crate::proofs::WordLemmas::first_or_length))]
fn word_length(text: &[u8]) -> usize
    ensures { result ≡ position_or_len is_space text.now }
{
    first_space(text).unwrap_or(text.len())
}

/// How many spaces the text begins with.
#[tactic(auto, using(crate::proofs::WordLemmas::first_or_length))]
fn leading_spaces(text: &[u8]) -> usize
    ensures { result ≡ position_or_len is_other text.now }
{
    first_other(text).unwrap_or(text.len())
}

/// The text from its first word on.
#[tactic(auto, using(crate::proofs::WordLemmas::position_within))]
fn from_first_word(text: &[u8]) -> &[u8]
    ensures { result.now ≡ drop (position_or_len is_other text.now) text.now }
{
    &text[leading_spaces(text)..]
}

/// The first word of the text, and what is behind it; `None` where there is no word.
pub(crate) fn next_word(text: &[u8]) -> Option<(&[u8], &[u8])>
    ensures some { IfSome result (λ r. words_of text.now ≡ r.0.now ∷ words_of r.1.now) }
    ensures none { IfNone result (words_of text.now ≡ []) }
    ensures within { IfSome result (λ r. length r.0.now + length r.1.now ≤ length text.now) }
{
    let text = from_first_word(text);
    if text.is_empty() {
        return None;
    }
    Some(text.split_at(word_length(text)))
}

/// No operand.
pub(crate) fn no_operand(rest: &[u8]) -> Result<(), BadCommand>
    ensures { result ≡ no_operand (words_of rest.now) }
{
    match next_word(rest) {
        None => Ok(()),
        Some(_) => Err(BadCommand::OperandCount),
    }
}

/// The only operand.
pub(crate) fn one_operand(rest: &[u8]) -> Result<&[u8], BadCommand>
    ensures text { text_or_bad result ≡ one_operand (words_of rest.now) }
    ensures within { IfOk result (λ text. length text.now ≤ length rest.now) }
{
    let (text, rest) = next_word(rest).ok_or(BadCommand::OperandCount)?;
    no_operand(rest)?;
    Ok(text)
}

/// The only two operands.
pub(crate) fn two_operands(rest: &[u8]) -> Result<(&[u8], &[u8]), BadCommand>
    ensures { lent_pair result ≡ two_operands (words_of rest.now) }
{
    let (first, rest) = next_word(rest).ok_or(BadCommand::OperandCount)?;
    let second = one_operand(rest)?;
    Ok((first, second))
}
