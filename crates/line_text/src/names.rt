//! Names: which words are names, and lists of them.
ghost use Rattle.std.specs.Prelude.{◌≡◌, ◌≤◌, ◌+◌, OnOk, OnErr, length};
ghost use Rattle.std.specs.List.{list_all};
ghost use Rattle.line_text.specs.Names.{is_letter as is_letter_byte, is_name_byte as is_name_byte_of, is_name as is_name_word, has_name as has_such_name, with_distinct_name};

use crate::number::is_digit;
use dk_base::error::NoMemory;
use dk_base::list::{Bytes, Sequence};
use std::alloc::Global;

fn is_letter(byte: u8) -> bool
    ensures { result ≡ is_letter_byte byte }
{
    b'a' <= byte && byte <= b'z'
}

fn is_name_byte(byte: u8) -> bool
    ensures { result ≡ is_name_byte_of byte }
{
    is_letter(byte) || is_digit(byte) || byte == b'_'
}

fn are_name_bytes(bytes: &[u8]) -> bool
    ensures { result ≡ list_all is_name_byte_of bytes.now }
{
    bytes.iter().all(|byte| is_name_byte(*byte))
}

/// Whether a word is a name: at most 16 bytes, a letter and then letters, digits or `_`.
pub fn is_name(word: &[u8]) -> bool
    ensures { result ≡ is_name_word word.now }
{
    match word.split_first() {
        None => false,
        Some((first, rest)) => is_letter(*first) && rest.len() <= 15 && are_name_bytes(rest),
    }
}

fn has_name(names: &[Bytes], name: &[u8]) -> bool
    ensures { result ≡ has_such_name names.now name.now }
{
    names.iter().any(|other| other.slice() == name)
}

/// Puts a name after these, unless it is among them. Want of memory leaves them as they were.
pub fn add_name(alloc: Global, names: &mut Sequence<Bytes>, name: &[u8]) -> Result<(), NoMemory>
    ensures ok { OnOk result (names.new ≡ with_distinct_name names.old name.now) }
    ensures few { OnOk result (length names.new ≤ length names.old + 1) }
    ensures err { OnErr result (names.new ≡ names.old) }
{
    if has_name(names.slice(), name) {
        return Ok(());
    }
    names.push(Sequence::from_slice(alloc, name)?)
}
