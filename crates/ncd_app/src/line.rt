//! Lines and what they ask for.
ghost use Rattle.std.specs.Prelude.{◌≡◌, ◌+◌, ◌∷◌, ◌≤◌, [], false, length, true};
ghost use Rattle.std.specs.List.{list_all};
ghost use Rattle.ncd_app.specs.Commands.{asks, command_about_two, command_in, command_of as command_of_line, is_visible as is_visible_byte, is_word as is_word_of_line, parts_of};

use crate::text::Text;
use line_text::parts::parts_at;

/// What a key stands for.
#[derive(Drop)]
pub enum Record {
    Value(Text),
    /// Another key, which is looked up in its place.
    Alias(Text),
}

/// What a line makes of a key's record: this one, or none.
#[derive(Drop)]
pub struct Change {
    pub key: Text,
    pub made: Option<Record>,
}

/// What a line asks of the table. Its answer is kept.
#[derive(Drop)]
pub enum Question {
    /// What a key stands for.
    Get(Text),
    /// The keys that have a value.
    Who(Text),
}

/// What a line is for.
#[derive(Drop)]
pub enum Command {
    Change(Change),
    Ask(Question),
    /// How many questions were answered from the cache, and how many were not.
    Statistics,
    Bad,
}

fn is_visible(byte: u8) -> bool
    ensures { result ≡ is_visible_byte byte }
{
    b'!' <= byte && byte <= b'~'
}

fn are_visible(bytes: &[u8]) -> bool
    ensures { result ≡ list_all is_visible_byte bytes.now }
{
    bytes.iter().all(|byte| is_visible(*byte))
}

/// Whether these are a word: 1 to 32 bytes from 0x21 to 0x7e.
fn is_word(bytes: &[u8]) -> bool
    ensures { result ≡ is_word_of_line bytes.now }
{
    1 <= bytes.len() && bytes.len() <= 32 && are_visible(bytes)
}

/// What a line of one word is for.
fn alone(word: &[u8]) -> Command
    ensures command { result ≡ command_in (word.now ∷ []) }
    ensures short { asks result ≡ false }
{
    if word == b"stat".as_slice() {
        return Command::Statistics;
    }
    Command::Bad
}

/// What a line of two words is for.
fn about_one(verb: &[u8], word: &[u8]) -> Command
    ensures command { result ≡ command_in (verb.now ∷ word.now ∷ []) }
    ensures short { asks result ≡ true → length verb.now + length word.now ≤ 35 }
{
    if !is_word(word) {
        return Command::Bad;
    }
    let word = Text::of(word);
    if verb == b"get".as_slice() {
        return Command::Ask(Question::Get(word));
    }
    if verb == b"who".as_slice() {
        return Command::Ask(Question::Who(word));
    }
    if verb == b"del".as_slice() {
        return Command::Change(Change {
            key: word,
            made: None,
        });
    }
    Command::Bad
}

/// What a verb with two words is for.
fn with_two_words(verb: &[u8], key: Text, word: Text) -> Command
    ensures { result ≡ command_about_two verb.now key word }
{
    if verb == b"set".as_slice() {
        return Command::Change(Change {
            key,
            made: Some(Record::Value(word)),
        });
    }
    if verb == b"alias".as_slice() {
        return Command::Change(Change {
            key,
            made: Some(Record::Alias(word)),
        });
    }
    Command::Bad
}

/// What a line of three words is for.
fn about_two(verb: &[u8], key: &[u8], word: &[u8]) -> Command
    ensures command { result ≡ command_in (verb.now ∷ key.now ∷ parts_of word.now) }
    ensures short { asks result ≡ false }
{
    if !is_word(key) {
        return Command::Bad;
    }
    if !is_word(word) {
        return Command::Bad;
    }
    with_two_words(verb, Text::of(key), Text::of(word))
}

/// What a line is for. One that asks has at most 36 bytes.
pub fn command_of(line: &[u8]) -> Command
    ensures command { result ≡ command_of_line line.now }
    ensures short { asks result ≡ true → length line.now ≤ 36 }
{
    let Some(first) = parts_at(b' ', line) else {
        return alone(line);
    };
    let Some(second) = parts_at(b' ', first.1) else {
        return about_one(first.0, first.1);
    };
    about_two(first.0, second.0, second.1)
}
