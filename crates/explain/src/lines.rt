//! The lines of a text, with their numbers.

ghost use Rattle.std.specs.Prelude.{length};
ghost use Rattle.std.specs.Iterator.{at_most};

use crate::form::{Form, form_of};
use crate::words::{Words, word_at};
use line_text::lines::next_line;

/// A line of a text.
#[derive(Clone, Copy)]
pub(crate) struct Line<'a> {
    /// From 1.
    pub number: u64,
    pub text: &'a [u8],
}

impl<'a> Line<'a> {
    /// Its form, where it begins with a keyword.
    pub fn form(self) -> Option<&'static Form> {
        form_of(Words::new(self.text).next()?.text)
    }

    /// The name that it gives to what it declares or begins.
    pub fn name(self) -> &'a [u8] {
        word_at(self.text, 1)
    }
}

/// The lines of a text, one after the other.
#[derive(Drop)]
pub(crate) struct Lines<'a> {
    rest: &'a [u8],
    /// Of the last line that was given, 0 before the first.
    number: u64,
}

impl<'a> Lines<'a> {
    pub fn new(text: &'a [u8]) -> Self {
        Lines {
            rest: text,
            number: 0,
        }
    }
}

impl<'a> Iterator for Lines<'a> {
    type Item = Line<'a>;

    ghost remaining = { λ lines. at_most (length lines.rest.now) };

    fn next(&mut self) -> Option<Line<'a>> {
        let (text, rest) = next_line(self.rest)?;
        self.rest = rest;
        self.number = self.number.saturating_add(1);
        Some(Line {
            number: self.number,
            text,
        })
    }
}

/// The line of this number, without bytes where there is none.
pub(crate) fn line_at(text: &[u8], number: u64) -> &[u8] {
    match Lines::new(text).find(|line| line.number == number) {
        Some(line) => line.text,
        None => &[],
    }
}
