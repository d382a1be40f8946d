//! Bytes and lines of a text as they are shown.

use crate::words::Word;
use line_text::string::is_printable;
use std::fmt;

/// Of longer words and lines the first bytes are shown.
const SHOWN_MAX: usize = 200;

/// Bytes of a text; those that are not printable are shown as `\xHH`, and of many the first alone.
#[derive(Clone, Copy)]
pub(crate) struct Shown<'a>(pub &'a [u8]);

impl fmt::Display for Shown<'_> {
    fn fmt<W: fmt::Write>(&self, f: &mut fmt::Formatter<W>) -> fmt::Result {
        let bytes = self.0;
        for byte in bytes.split_at(bytes.len().min(SHOWN_MAX)).0 {
            let byte = *byte;
            if is_printable(byte) {
                f.write_char(char::from(byte))?;
            } else {
                write!(f, "\\x{byte:02x}")?;
            }
        }
        if bytes.len() > SHOWN_MAX {
            f.write_str(" ..")?;
        }
        Ok(())
    }
}

/// A line as it stands, and in the next line marks below a word of it. Of a long line the first bytes, without marks.
#[derive(Clone, Copy)]
pub(crate) struct Marked<'a> {
    pub line: &'a [u8],
    pub word: Word<'a>,
}

impl Marked<'_> {
    /// In which byte of the line the word begins, from 0.
    pub fn start(self) -> usize {
        let end = self.line.len().saturating_sub(self.word.rest.len());
        end.saturating_sub(self.word.text.len())
    }
}

impl fmt::Display for Marked<'_> {
    fn fmt<W: fmt::Write>(&self, f: &mut fmt::Formatter<W>) -> fmt::Result {
        writeln!(f, "    {}", Shown(self.line))?;
        if self.line.len() > SHOWN_MAX {
            return Ok(());
        }
        f.write_str("    ")?;
        let start = self.start();
        for _ in 0..start {
            f.write_char(' ')?;
        }
        // only in the word itself a byte can stand that is not printable
        for byte in self.word.text {
            f.write_str(if is_printable(*byte) { "^" } else { "^^^^" })?;
        }
        if start == self.line.len() {
            f.write_str(" ^")?;
        }
        f.write_char('\n')
    }
}
