//! The words of a line.
ghost use Rattle.std.specs.Prelude.{◌≡◌, ◌∷◌, [], ◌<◌, ◌≤◌, true, length, take, drop, MatchOption, IfSome};
ghost use Rattle.line_text.specs.LineWords.{is_in_word, is_unindented, mode_after as mode_after_byte, words_from, words_of};

use crate::mode::Mode;

/// Where the place after a byte stands.
fn mode_after(mode: Mode, byte: u8) -> Mode
    ensures { result ≡ mode_after_byte mode byte }
{
    match (mode, byte) {
        (Mode::Between | Mode::Word, b' ') => Mode::Between,
        (Mode::Between, b'"') => Mode::Text,
        (Mode::Between | Mode::Word, _) => Mode::Word,
        (Mode::Text, b'"') => Mode::Word,
        (Mode::Text, b'\\') => Mode::Escape,
        (Mode::Text | Mode::Escape, _) => Mode::Text,
    }
}

/// A line without the spaces at its front.
fn after_spaces(line: &[u8]) -> &[u8]
    ensures words { words_of result.now ≡ words_of line.now }
    ensures front { is_unindented result.now ≡ true }
    ensures shorter { length result.now ≤ length line.now }
{
    let mut rest = line;
    while let Some((b' ', later)) = rest.split_first() {
        rest = later;
    }
    rest
}

/// How many bytes belong to the word that has begun before them.
fn word_len(bytes: &[u8], begun: Mode) -> usize
    requires { is_in_word begun ≡ true }
    ensures word { words_from begun bytes.now ≡ take result bytes.now ∷ words_of (drop result bytes.now) }
    ensures within { result ≤ length bytes.now }
{
    let mut mode = begun;
    for (len, byte) in bytes.iter().enumerate() {
        mode = mode_after(mode, *byte);
        if let Mode::Between = mode {
            return len;
        }
    }
    bytes.len()
}

/// The first word of a line, and what follows it.
pub fn next_word(line: &[u8]) -> Option<(&[u8], &[u8])>
    ensures { MatchOption result (words_of line.now ≡ []) (λ found. words_of line.now ≡ found.0.now ∷ words_of found.1.now) }
{
    let line = after_spaces(line);
    let (first, rest) = line.split_first()?;
    let len = word_len(rest, mode_after(Mode::Between, *first));
    Some(line.split_at(len + 1))
}
