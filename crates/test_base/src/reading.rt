//! Worked lines, words, numbers, names and strings.

use line_text::lines::next_line;
use line_text::names::is_name;
use line_text::number::{Number, bounded_number};
use line_text::parts::{part_before_last, parts_at};
use line_text::string::string_of;
use line_text::words::next_word;
use std::alloc::Global;

const GREATEST: u64 = 18_446_744_073_709_551_615;

/// Whether two bits of text are these.
fn are(found: Option<(&[u8], &[u8])>, expected: Option<(&str, &str)>) -> bool {
    match (found, expected) {
        (Some((front, rest)), Some((first, second))) => {
            front == first.as_bytes() && rest == second.as_bytes()
        }
        (None, None) => true,
        _ => false,
    }
}

#[test]
fn lines_end_at_line_feeds(rt: HostRuntime) {
    for (text, expected) in [
        ("doors script 1\n\nend", Some(("doors script 1", "\nend"))),
        ("\nend", Some(("", "end"))),
        ("end", Some(("end", ""))),
        ("", None),
    ] {
        assert!(rt; are(next_line(text.as_bytes()), expected), "{text}");
    }
}

#[test]
fn spaces_in_strings_part_no_words(rt: HostRuntime) {
    for (line, expected) in [
        (
            "  return \"a \\\" b\"  +",
            Some(("return", " \"a \\\" b\"  +")),
        ),
        (" \"a \\\" b\"  +", Some(("\"a \\\" b\"", "  +"))),
        ("  +", Some(("+", ""))),
        ("  ", None),
    ] {
        assert!(rt; are(next_word(line.as_bytes()), expected), "{line}");
    }
}

/// What a word is expected to be.
#[derive(Clone, Copy)]
enum Expected {
    Found(u64),
    OutOfRange,
    NoNumber,
}

fn is_number(word: &str, low: u64, high: u64, expected: Expected) -> bool {
    match (bounded_number(word.as_bytes(), low, high), expected) {
        (Number::Found(number), Expected::Found(wanted)) => number == wanted,
        (Number::OutOfRange, Expected::OutOfRange) => true,
        (Number::NoNumber, Expected::NoNumber) => true,
        _ => false,
    }
}

static NUMBERS: [(&str, u64, u64, Expected); 16] = [
    ("0", 0, 255, Expected::Found(0)),
    ("255", 0, 255, Expected::Found(255)),
    ("256", 0, 255, Expected::OutOfRange),
    ("0", 1, 4096, Expected::OutOfRange),
    (
        "18446744073709551615",
        0,
        GREATEST,
        Expected::Found(GREATEST),
    ),
    ("18446744073709551616", 0, GREATEST, Expected::OutOfRange),
    (
        "99999999999999999999999999999999999999999",
        0,
        GREATEST,
        Expected::OutOfRange,
    ),
    ("", 0, GREATEST, Expected::NoNumber),
    ("007", 0, GREATEST, Expected::NoNumber),
    ("00", 0, GREATEST, Expected::NoNumber),
    ("+1", 0, GREATEST, Expected::NoNumber),
    ("-1", 0, GREATEST, Expected::NoNumber),
    ("1x", 0, GREATEST, Expected::NoNumber),
    ("x", 0, GREATEST, Expected::NoNumber),
    ("0x1", 0, GREATEST, Expected::NoNumber),
    (" 1", 0, GREATEST, Expected::NoNumber),
];

#[test]
fn numbers_have_ranges(rt: HostRuntime) {
    for row in &NUMBERS {
        let (word, low, high, expected) = *row;
        assert!(rt; is_number(word, low, high, expected), "{word}");
    }
}

#[test]
fn names_have_16_bytes(rt: HostRuntime) {
    for (word, expected) in [
        ("a", true),
        ("z9_", true),
        ("abcdefghijklmnop", true),
        ("", false),
        ("A", false),
        ("_a", false),
        ("9", false),
        ("a-b", false),
        ("abcdefghijklmnopq", false),
    ] {
        assert!(rt; is_name(word.as_bytes()) == expected, "{word}");
    }
}

#[test]
fn words_have_parts(rt: HostRuntime) {
    for (word, expected) in [("v.3.4", Some(("v", "3.4"))), ("v", None)] {
        assert!(rt; are(parts_at(b'.', word.as_bytes()), expected), "{word}");
    }
}

fn has_front(word: &str, expected: Option<&str>) -> bool {
    match (part_before_last(b'!', word.as_bytes()), expected) {
        (Some(front), Some(wanted)) => front == wanted.as_bytes(),
        (None, None) => true,
        _ => false,
    }
}

#[test]
fn words_end_in_marks(rt: HostRuntime) {
    for (word, expected) in [("$v!", Some("$v")), ("!v", None), ("", None)] {
        assert!(rt; has_front(word, expected), "{word}");
    }
}

fn spells(alloc: Global, word: &str, bytes: &[u8]) -> bool {
    matches!(string_of(alloc, word.as_bytes()), Ok(Some(text)) if text.slice() == bytes)
}

static STRINGS: [(&str, &[u8]); 5] = [
    ("\"\"", b""),
    ("\"a b\"", b"a b"),
    ("\"\\\"\\\\\"", b"\"\\"),
    ("\"\\x41\\x0a\"", b"A\n"),
    ("\"\\x00\\xff~\"", b"\x00\xff~"),
];

#[test]
fn strings_spell_bytes(rt: HostRuntime) {
    for row in &STRINGS {
        let (word, bytes) = *row;
        assert!(rt; spells(rt.alloc(), word, bytes), "{word}");
    }
}

static NO_STRINGS: [&str; 12] = [
    "",
    "a",
    "\"",
    "\"a",
    "a\"",
    "\"a\"b",
    "\"a\"\"",
    "\"\\\"",
    "\"\\a\"",
    "\"\\x4\"",
    "\"\\x4G\"",
    "\"\\xAB\"",
];

fn is_no_string(alloc: Global, word: &str) -> bool {
    matches!(string_of(alloc, word.as_bytes()), Ok(None))
}

#[test]
fn other_words_are_no_strings(rt: HostRuntime) {
    for word in &NO_STRINGS {
        assert!(rt; is_no_string(rt.alloc(), *word), "{word}");
    }
}
