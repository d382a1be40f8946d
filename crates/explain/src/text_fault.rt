//! What is wrong in a text where its bytes or its first line are read.

use crate::lines::Line;
use crate::shown::{Marked, Shown};
use crate::words::{Word, word_at};
use line_text::string::is_printable;
use std::fmt;

/// A byte that no script has.
#[derive(Clone, Copy)]
enum ByteKind {
    Tab,
    /// A carriage return at the line's end.
    ReturnAtEnd,
    Return,
    /// The first byte of a byte order mark.
    OrderMark,
    /// The first byte of a typographic quote.
    Quote,
    /// Another byte above 0x7e.
    High,
    Control,
}

impl ByteKind {
    /// The kind of a byte, by what follows it in its line.
    fn of(byte: u8, later: &[u8]) -> Self {
        match byte {
            b'\t' => ByteKind::Tab,
            b'\r' if later.is_empty() => ByteKind::ReturnAtEnd,
            b'\r' => ByteKind::Return,
            0xEF => ByteKind::OrderMark,
            0xE2 => ByteKind::Quote,
            0x7F.. => ByteKind::High,
            _ => ByteKind::Control,
        }
    }

    fn name(self) -> &'static str {
        match self {
            ByteKind::Tab => "a tab",
            ByteKind::ReturnAtEnd | ByteKind::Return => "a carriage return",
            ByteKind::OrderMark | ByteKind::Quote | ByteKind::High => "a byte above 0x7e",
            ByteKind::Control => "a control byte",
        }
    }

    fn advice(self) -> &'static str {
        match self {
            ByteKind::Tab => "indent and separate words with spaces",
            ByteKind::ReturnAtEnd => {
                "lines end with a line feed alone: tr -d '\\r' takes carriage returns out"
            }
            ByteKind::Return => "tr '\\r' '\\n' makes line feeds of carriage returns",
            ByteKind::OrderMark => {
                "where it is a byte order mark at the start of the file, save it without; in a string write \\xef"
            }
            ByteKind::Quote => {
                "where it is a typographic quote, write \"; in a string such a byte is written \\xHH; elsewhere it has no place"
            }
            ByteKind::High | ByteKind::Control => {
                "in a string such a byte is written \\xHH; elsewhere it has no place"
            }
        }
    }
}

/// A line has a byte that no script has.
#[derive(Clone, Copy)]
pub(crate) struct ByteFault<'a> {
    kind: ByteKind,
    marked: Marked<'a>,
}

impl<'a> ByteFault<'a> {
    /// The first such byte of a line.
    pub fn of(line: &'a [u8]) -> Option<Self> {
        let place = line.iter().position(|byte| !is_printable(*byte))?;
        let (byte, rest) = line.split_at(place).1.split_at(1);
        Some(ByteFault {
            kind: ByteKind::of(byte[0], rest),
            marked: Marked {
                line,
                word: Word { text: byte, rest },
            },
        })
    }
}

impl fmt::Display for ByteFault<'_> {
    fn fmt<W: fmt::Write>(&self, f: &mut fmt::Formatter<W>) -> fmt::Result {
        let name = self.kind.name();
        let advice = self.kind.advice();
        let marked = self.marked;
        let byte = Shown(marked.word.text);
        let column = marked.start().saturating_add(1);
        writeln!(
            f,
            "{name} ('{byte}') in column {column}\n{marked}    {advice}"
        )
    }
}

/// The first line is not that of a script.
#[derive(Clone, Copy)]
pub(crate) enum HeaderFault<'a> {
    /// There is no line.
    Empty,
    /// Its words are right.
    Spaced { line: &'a [u8] },
    Other { line: &'a [u8] },
}

impl<'a> HeaderFault<'a> {
    pub fn of(text: &[u8], line: Line<'a>) -> Self {
        let line = line.text;
        if text.is_empty() {
            return HeaderFault::Empty;
        }
        let is_header = word_at(line, 0) == b"doors".as_slice()
            && word_at(line, 1) == b"script".as_slice()
            && matches!(word_at(line, 2), [b'1'..=b'4'])
            && word_at(line, 3).is_empty();
        if is_header {
            HeaderFault::Spaced { line }
        } else {
            HeaderFault::Other { line }
        }
    }
}

impl fmt::Display for HeaderFault<'_> {
    fn fmt<W: fmt::Write>(&self, f: &mut fmt::Formatter<W>) -> fmt::Result {
        match self {
            HeaderFault::Empty => f.write_str("the input is empty\n")?,
            HeaderFault::Spaced { line } => {
                let line = Shown(line);
                writeln!(f, "a space too many stands in '{line}'")?;
            }
            HeaderFault::Other { line } => {
                let line = Shown(line);
                writeln!(f, "a script does not begin so\n    {line}")?;
            }
        }
        f.write_str(
            "    the first line is exactly 'doors script 1', or 2, 3 or 4 in place of 1; comments come after it\n",
        )
    }
}
