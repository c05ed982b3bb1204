//! Where a text is cut, and what is dropped at its ends.

ghost use Rattle.std.specs.Prelude.{◌≡◌};
ghost use Rattle.std.specs.Option.{option_copied};
ghost use Rattle.asm_text.specs.Cuts.{after, after_word, before, first_word, without_blanks, without_end, without_front};

use crate::bytes::is_blank;

/// What stands before the first such byte, and what stands behind it; the whole text and `None` where there is no such byte.
pub fn cut(text: &[u8], byte: u8) -> (&[u8], Option<&[u8]>)
    ensures prefix { result.0.now ≡ before byte text.now }
    ensures rest { option_copied result.1 ≡ after byte text.now }
{
    for (i, here) in text.iter().enumerate() {
        if *here == byte {
            return (&text[..i], Some(&text[i + 1..]));
        }
    }
    (text, None)
}

/// The text up to its first blank, and the text from there on.
pub fn first_word(text: &[u8]) -> (&[u8], &[u8])
    ensures word { result.0.now ≡ first_word text.now }
    ensures rest { result.1.now ≡ after_word text.now }
{
    for (i, here) in text.iter().enumerate() {
        if is_blank(*here) {
            return (&text[..i], &text[i..]);
        }
    }
    (text, &[])
}

/// The text without the blanks that it begins with.
fn trim_front(text: &[u8]) -> &[u8]
    ensures { result.now ≡ without_front text.now }
{
    let mut left = text;
    while let [first, rest @ ..] = left
        && is_blank(*first)
    {
        left = rest;
    }
    left
}

/// The text without the blanks that it ends with.
fn trim_end(text: &[u8]) -> &[u8]
    ensures { result.now ≡ without_end text.now }
{
    let mut left = text;
    while let [rest @ .., last] = left
        && is_blank(*last)
    {
        left = rest;
    }
    left
}

/// The text without the blanks at its ends.
pub fn trim(text: &[u8]) -> &[u8]
    ensures { result.now ≡ without_blanks text.now }
{
    trim_end(trim_front(text))
}
