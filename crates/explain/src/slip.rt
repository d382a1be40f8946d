//! Why a word is none that may stand in its place, where that is plain.

use crate::operand::{Class, Operand};
use crate::shown::Shown;
use crate::words::{begins_with_digit, has_capital, has_one_of};
use line_text::names::is_name;
use std::fmt;

/// What went wrong in a word.
#[derive(Clone, Copy)]
pub(crate) enum Slip<'a> {
    Plain(&'static str),
    /// A string goes on behind its closing quote with this.
    AfterQuote(&'a [u8]),
    /// A name stands in place of the descriptor in the variable of that name.
    Variable(&'a [u8]),
}

impl<'a> Slip<'a> {
    pub fn of(operand: Operand, word: &'a [u8]) -> Option<Self> {
        let class = operand.class();
        if let (Class::Data, Some(string)) = (class, word.strip_prefix(b"\"")) {
            return Some(slip_of_string(string));
        }
        if let (Class::Data, b"+") = (class, word) {
            return Some(Slip::Plain("no piece of DATA stands before it"));
        }
        if let Some(sentence) = why_no_operand(word) {
            return Some(Slip::Plain(sentence));
        }
        let sentence = match class {
            Class::Name => Some(why_no_name(word)),
            Class::Number | Class::Value => why_no_number(word),
            Class::Descriptor if is_name(word) => return Some(Slip::Variable(word)),
            Class::Descriptor => why_no_descriptor(word),
            Class::Data => why_no_data(word),
            Class::Condition => why_no_condition(word),
            Class::Word | Class::Mark | Class::AfterPiece | Class::End => None,
        };
        Some(Slip::Plain(sentence?))
    }
}

impl fmt::Display for Slip<'_> {
    fn fmt<W: fmt::Write>(&self, f: &mut fmt::Formatter<W>) -> fmt::Result {
        match self {
            Slip::Plain(sentence) => f.write_str(sentence),
            Slip::AfterQuote(rest) => {
                let reason = why_not_after_quote(rest);
                let rest = Shown(rest);
                write!(f, "'{rest}' follows the closing quote at once{reason}")
            }
            Slip::Variable(name) => {
                let name = Shown(name);
                write!(f, "write ${name} for the descriptor in variable '{name}'")
            }
        }
    }
}

/// Of a word in place of any operand.
fn why_no_operand(word: &[u8]) -> Option<&'static str> {
    match word {
        [b'"', ..] => Some("no string stands here"),
        [b'#', ..] | [b'/', b'/' | b'*', ..] => Some("a comment has a line of its own"),
        [b'{' | b'}', ..] => {
            Some(
                "there are no braces: threads, procedures, 'if' and 'repeat' end with a line 'end'",
            )
        }
        b"+" => {
            Some("a + stands between pieces of DATA, and in POLL without spaces, as in in+out")
        }
        [.., b';'] => Some("lines have no ';' at their end"),
        _ => None,
    }
}

fn why_no_name(word: &[u8]) -> &'static str {
    if word.starts_with(b"$") {
        "a name stands here without $"
    } else if begins_with_digit(word) {
        "a name begins with a letter"
    } else if has_capital(word) {
        "names have small letters"
    } else if word.len() > 16 {
        "it has more than 16 bytes"
    } else {
        "it has other bytes than a to z, 0 to 9 and _"
    }
}

/// What is written as a number, and is none.
fn why_not_decimal(word: &[u8]) -> Option<&'static str> {
    match word {
        [b'0', b'x', ..] => Some("numbers are decimal"),
        [b'0', b'0'..=b'9', ..] => Some("numbers have no leading zeros"),
        _ => None,
    }
}

fn why_no_number(word: &[u8]) -> Option<&'static str> {
    match word {
        [b'-' | b'+', ..] => Some("numbers have no sign"),
        [b'$', ..] => Some("a number stands here, and no variable"),
        _ => why_not_decimal(word),
    }
}

fn why_no_descriptor(word: &[u8]) -> Option<&'static str> {
    match word {
        [b'-', ..] => Some("numbers have no sign"),
        _ => why_not_decimal(word),
    }
}

fn why_no_data(word: &[u8]) -> Option<&'static str> {
    if word.contains(&b'+') {
        Some("a + stands between two spaces")
    } else if word.starts_with(b"$") || word.starts_with(b"fill:") {
        None
    } else {
        Some("text stands in quotes, and a variable after $")
    }
}

fn why_no_condition(word: &[u8]) -> Option<&'static str> {
    if word == b"not".as_slice() || word == b"error".as_slice() {
        Some("an 'if' asks for ok, yes, unref or one error, and there is no 'not'")
    } else if word.starts_with(b"e") {
        Some("names of errors have capitals")
    } else {
        None
    }
}

/// Why bytes cannot follow a closing quote.
fn why_not_after_quote(rest: &[u8]) -> &'static str {
    if rest.starts_with(b"+") {
        ": a + stands between two spaces"
    } else if rest.starts_with(b";") {
        ": a line has one command, and no ';'"
    } else if has_one_of(rest, b"\"") {
        ": a quote within a string is written \\\""
    } else {
        ", without a space"
    }
}

/// Why a word is no string, by what follows its opening quote.
fn slip_of_string(string: &[u8]) -> Slip<'_> {
    match after_string(string) {
        None => Slip::Plain("the string has no closing quote"),
        Some([]) => Slip::Plain(
            "in a string a backslash stands before \", \\ or xHH with two of 0-9 a-f",
        ),
        Some(rest) => Slip::AfterQuote(rest),
    }
}

/// What follows the closing quote of a string, without its opening quote.
fn after_string(string: &[u8]) -> Option<&[u8]> {
    let mut is_escaped = false;
    for (place, byte) in string.iter().enumerate() {
        if !is_escaped && *byte == b'"' {
            return Some(string.split_at(place).1.split_at(1).1);
        }
        is_escaped = !is_escaped && *byte == b'\\';
    }
    None
}
