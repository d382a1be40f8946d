//! Written words and lines.

use dk_base::error::NoMemory;
use dk_base::list::{Bytes, Sequence};
use line_text::names::add_name;
use line_text::string::quoted_text;
use line_text::writer::Writer;
use std::alloc::Global;

fn is_quoted(alloc: Global, bytes: &[u8], expected: &[u8]) -> bool {
    matches!(quoted_text(alloc, bytes), Ok(text) if text.slice() == expected)
}

#[test]
fn strings_are_written(rt: HostRuntime) {
    assert!(rt; is_quoted(rt.alloc(), b"A\n\"\\ ~\x7f", b"\"A\\x0a\\\"\\\\ ~\\x7f\""));
}

fn line(alloc: Global) -> Result<Bytes, NoMemory> {
    let mut writer = Writer::new(alloc)?;
    put_words(alloc, &mut writer)?;
    Ok(writer.into_bytes())
}

fn put_words(alloc: Global, writer: &mut Writer) -> Result<(), NoMemory> {
    writer.first(b"return")?;
    writer.string(alloc, b"A\n")?;
    writer.word(b"+")?;
    writer.number(alloc, 18_446_744_073_709_551_615)?;
    writer.end_line()
}

fn is_line(alloc: Global, expected: &[u8]) -> bool {
    matches!(line(alloc), Ok(text) if text.slice() == expected)
}

#[test]
fn lines_are_written_word_by_word(rt: HostRuntime) {
    let expected = b"return \"A\\x0a\" + 18446744073709551615\n";
    assert!(rt; is_line(rt.alloc(), expected));
}

/// Whether a name is one name, added once or twice.
fn is_added_once(alloc: Global, name: &[u8]) -> bool {
    let mut names = Sequence::new(alloc);
    add_name(alloc, &mut names, name).is_ok()
        && add_name(alloc, &mut names, name).is_ok()
        && names.len() == 1
}

#[test]
fn names_are_added_once(rt: HostRuntime) {
    assert!(rt; is_added_once(rt.alloc(), b"a"));
}
