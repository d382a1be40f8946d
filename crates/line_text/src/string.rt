//! Strings between quotes: the bytes that one stands for, and the text of bytes.
ghost use Rattle.std.specs.Prelude.{◌≡◌, ◌<◌, ◌++◌, [], Some, None, true, length, MatchOption, IfOk, IfSome, OnOk, if◌then◌else◌};
ghost use Rattle.line_text.specs.Lines.{is_printable as is_printable_byte};
ghost use Rattle.line_text.specs.Strings.{Plain, Escaped, High, is_hex as is_hex_byte, hex_value as value_of_hex, is_marked as is_marked_byte, text_with_first, text_at_end, text_from, string_of as text_of_string, hex_digit as digit_of_hex, quoted_byte, quoted_text as quoted_bytes};

use crate::number::is_digit;
use dk_base::error::NoMemory;
use dk_base::list::{Bytes, Sequence};
use std::alloc::Global;

/// Whether a line of a script may have this byte.
pub fn is_printable(byte: u8) -> bool
    ensures { result ≡ is_printable_byte byte }
{
    b' ' <= byte && byte <= b'~'
}

fn is_hex(byte: u8) -> bool
    ensures { result ≡ is_hex_byte byte }
{
    is_digit(byte) || (b'a' <= byte && byte <= b'f')
}

/// The value of a hexadecimal digit.
fn hex_value(digit: u8) -> u8
    requires { is_hex_byte digit ≡ true }
    ensures value { result ≡ value_of_hex digit }
    ensures small { result < 16 }
{
    if is_digit(digit) {
        digit - b'0'
    } else {
        digit - b'a' + 10
    }
}

/// Whether a byte stands in a string after a backslash.
fn is_marked(byte: u8) -> bool
    ensures { result ≡ is_marked_byte byte }
{
    byte == b'"' || byte == b'\\'
}

/// The byte of two hexadecimal digits, and what follows them.
fn hex_byte(bytes: &[u8]) -> Option<(u8, &[u8])>
    ensures byte { MatchOption result (text_from High bytes.now ≡ None) (λ found. text_from High bytes.now ≡ text_with_first found.0 (text_from Plain found.1.now)) }
    ensures shorter { IfSome result (λ found. length found.1.now < length bytes.now) }
{
    let (high, rest) = bytes.split_first()?;
    let (low, rest) = rest.split_first()?;
    if !is_hex(*high) || !is_hex(*low) {
        return None;
    }
    Some((16 * hex_value(*high) + hex_value(*low), rest))
}

/// The byte that is spelled after a backslash, and what follows it.
fn escaped_byte(bytes: &[u8]) -> Option<(u8, &[u8])>
    ensures byte { MatchOption result (text_from Escaped bytes.now ≡ None) (λ found. text_from Escaped bytes.now ≡ text_with_first found.0 (text_from Plain found.1.now)) }
    ensures shorter { IfSome result (λ found. length found.1.now < length bytes.now) }
{
    let (first, rest) = bytes.split_first()?;
    if is_marked(*first) {
        return Some((*first, rest));
    }
    if *first == b'x' { hex_byte(rest) } else { None }
}

/// The next byte of a string's text, and what follows it. There is none at the closing quote, and where the spelling is
/// wrong.
fn next_byte(bytes: &[u8]) -> Option<(u8, &[u8])>
    ensures byte { MatchOption result (text_from Plain bytes.now ≡ text_at_end bytes.now) (λ found. text_from Plain bytes.now ≡ text_with_first found.0 (text_from Plain found.1.now)) }
    ensures shorter { IfSome result (λ found. length found.1.now < length bytes.now) }
{
    let (first, rest) = bytes.split_first()?;
    match *first {
        b'"' => None,
        b'\\' => escaped_byte(rest),
        byte if is_printable(byte) => Some((byte, rest)),
        _ => None,
    }
}

/// Whether a string's closing quote is all that is left.
fn is_closing(bytes: &[u8]) -> bool
    ensures { text_at_end bytes.now ≡ (if result then Some [] else None) }
{
    match bytes {
        [quote] => *quote == b'"',
        _ => false,
    }
}

/// The bytes that a string spells from after its first quote.
#[tactic(auto, using(crate::proofs::AfterFront::after_front_byte))]
fn text_of(alloc: Global, bytes: &[u8]) -> Result<Option<Bytes>, NoMemory>
    ensures { IfOk result (λ text. text ≡ text_from Plain bytes.now) }
{
    let mut text = Sequence::new(alloc);
    let mut rest = bytes;
    while let Some((byte, later)) = next_byte(rest) {
        text.push(byte)?;
        rest = later;
    }
    Ok(is_closing(rest).then_some(text))
}

/// The bytes that a string spells: printable bytes in quotes, where `\"`, `\\` and `\xHH` stand for a quote, a backslash
/// and any byte.
pub fn string_of(alloc: Global, word: &[u8]) -> Result<Option<Bytes>, NoMemory>
    ensures { IfOk result (λ text. text ≡ text_of_string word.now) }
{
    match word.split_first() {
        Some((b'"', rest)) => text_of(alloc, rest),
        _ => Ok(None),
    }
}

/// A digit of a number in base 16, in lower case.
pub fn hex_digit(value: u8) -> u8
    requires { value < 16 }
    ensures { result ≡ digit_of_hex value }
{
    if value <= 9 {
        b'0' + value
    } else {
        b'a' - 10 + value
    }
}

/// Puts a byte as a string spells it after a text. Want of memory may leave a part of it there.
fn push_quoted_byte(text: &mut Bytes, byte: u8) -> Result<(), NoMemory>
    ensures { OnOk result (text.new ≡ text.old ++ quoted_byte byte) }
{
    if is_marked(byte) {
        text.push(b'\\')?;
        return text.push(byte);
    }
    if is_printable(byte) {
        return text.push(byte);
    }
    text.push(b'\\')?;
    text.push(b'x')?;
    text.push(hex_digit(byte / 16))?;
    text.push(hex_digit(byte % 16))
}

/// The string that spells these bytes: it has `\"`, `\\` and `\xHH` only for a quote, a backslash and bytes that are not
/// printable.
#[tactic(auto, using(std::proofs::lemmas::List::flat_map_more))]
pub fn quoted_text(alloc: Global, bytes: &[u8]) -> Result<Bytes, NoMemory>
    ensures { IfOk result (λ text. text ≡ quoted_bytes bytes.now) }
{
    let mut text = Sequence::new(alloc);
    text.push(b'"')?;
    for byte in bytes {
        push_quoted_byte(&mut text, *byte)?;
    }
    text.push(b'"')?;
    Ok(text)
}
