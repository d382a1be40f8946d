//! The words of a line, with their places.

ghost use Rattle.std.specs.Prelude.{length};
ghost use Rattle.std.specs.Iterator.{at_most};
ghost use Rattle.line_text.specs.Words.{words_of};

use line_text::number::is_digit;
use line_text::words::next_word;

/// A word of a line; where one is missing it has no bytes.
#[derive(Clone, Copy)]
pub(crate) struct Word<'a> {
    pub text: &'a [u8],
    /// What follows it in the line.
    pub rest: &'a [u8],
}

impl Word<'_> {
    /// The line's end, where a word is missing.
    pub fn missing() -> Self {
        Word {
            text: &[],
            rest: &[],
        }
    }
}

/// The words of a line, one after the other.
#[derive(Drop)]
pub(crate) struct Words<'a> {
    rest: &'a [u8],
}

impl<'a> Words<'a> {
    pub fn new(line: &'a [u8]) -> Self {
        Words { rest: line }
    }
}

impl<'a> Iterator for Words<'a> {
    type Item = Word<'a>;

    ghost remaining = { λ words. at_most (length (words_of words.rest.now)) };

    fn next(&mut self) -> Option<Word<'a>> {
        let (text, rest) = next_word(self.rest)?;
        self.rest = rest;
        Some(Word { text, rest })
    }
}

/// The word of a place, from 0; where there is none no bytes, at the line's end.
pub(crate) fn found_at(line: &[u8], place: usize) -> Word<'_> {
    Words::new(line).nth(place).unwrap_or(Word::missing())
}

/// The bytes of the word of a place, from 0.
pub(crate) fn word_at(line: &[u8], place: usize) -> &[u8] {
    found_at(line, place).text
}

/// Whether a word has one of these bytes.
pub(crate) fn has_one_of(word: &[u8], bytes: &[u8]) -> bool {
    word.iter().any(|byte| bytes.contains(byte))
}

/// Whether a word has a capital letter.
pub(crate) fn has_capital(word: &[u8]) -> bool {
    word.iter().any(|byte| byte.is_ascii_uppercase())
}

/// Whether a word begins with a digit, or a line, as those of events do.
pub(crate) fn begins_with_digit(word: &[u8]) -> bool {
    match word.first() {
        Some(first) => is_digit(*first),
        None => false,
    }
}
