//! What is wrong where the operands of a line are read.

use crate::form::Form;
use crate::operand::{Class, Operand, reading_of};
use crate::outline::Spot;
use crate::report::Report;
use crate::shown::{Marked, Shown};
use crate::slip::Slip;
use crate::words::{Word, Words};
use line_text::number::Number;
use std::alloc::Global;
use std::fmt;

/// What is wrong in the place of an operand.
#[derive(Clone, Copy)]
pub(crate) enum Cause<'a> {
    /// Nothing stands there.
    Missing,
    OutOfRange,
    /// The word is no such operand.
    Unfit(Option<Slip<'a>>),
}

/// The operands of a line are wrong.
#[derive(Clone, Copy)]
pub(crate) enum OperandFault<'a> {
    /// All of them, as they stand together.
    Whole {
        line: &'a [u8],
        form: &'static Form,
    },
    /// One of them.
    One {
        marked: Marked<'a>,
        form: &'static Form,
        operand: Operand,
        cause: Cause<'a>,
    },
}

/// A word of a line, or its end, and what is wanted there.
#[derive(Clone, Copy)]
struct Wrong<'a> {
    word: Word<'a>,
    operand: Operand,
}

/// The first word of a line that has a number out of its range, or else that is no operand, or the line's end where something is missing.
fn find_wrong<'a>(
    alloc: Global,
    report: &mut Report,
    line: &'a [u8],
    form: &Form,
    is_range: bool,
) -> Option<Wrong<'a>> {
    let mut operands = form
        .operands
        .iter()
        .copied()
        .filter(|operand| !matches!(operand, Operand::End));
    let mut next = form.tail;
    for word in Words::new(line).skip(1) {
        let operand = operands.next().unwrap_or(next);
        next = match operand.after_mark(word.text) {
            Some(next) => next,
            None => {
                let is_wrong = match reading_of(alloc, report, operand, word.text) {
                    Number::Found(_) => false,
                    Number::OutOfRange => is_range,
                    Number::NoNumber => !is_range,
                };
                if is_wrong {
                    return Some(Wrong { word, operand });
                }
                operand.after(form.tail)
            }
        };
    }
    let word = Word::missing();
    match operands.next() {
        Some(operand) => Some(Wrong { word, operand }),
        None if next.is_needed() => Some(Wrong {
            word,
            operand: next,
        }),
        None => None,
    }
}

impl<'a> OperandFault<'a> {
    /// What is wrong in a line whose operands are, in number or spelling, or with a number outside its range.
    pub fn of(alloc: Global, report: &mut Report, spot: Spot<'a>, is_range: bool) -> Option<Self> {
        let line = spot.line.text;
        let form = spot.form?;
        let Some(Wrong { word, operand }) = find_wrong(alloc, report, line, form, is_range) else {
            return Some(OperandFault::Whole { line, form });
        };
        let cause = if word.text.is_empty() {
            Cause::Missing
        } else if is_range {
            Cause::OutOfRange
        } else {
            Cause::Unfit(Slip::of(operand, word.text))
        };
        let marked = Marked { line, word };
        Some(OperandFault::One {
            marked,
            form,
            operand,
            cause,
        })
    }
}

impl fmt::Display for OperandFault<'_> {
    fn fmt<W: fmt::Write>(&self, f: &mut fmt::Formatter<W>) -> fmt::Result {
        match self {
            OperandFault::Whole { line, form } => {
                let line = Shown(line);
                let sentence = why_not_whole(form);
                writeln!(f, "{sentence}\n    {line}\n    the form: {form}")
            }
            OperandFault::One {
                marked,
                form,
                operand,
                cause,
            } => {
                let word = Shown(marked.word.text);
                let name = operand.name();
                match cause {
                    Cause::Missing => write!(f, "{name} is missing")?,
                    Cause::OutOfRange => write!(f, "'{word}' is out of range")?,
                    Cause::Unfit(slip) => {
                        match operand.class() {
                            Class::AfterPiece | Class::End => write!(
                                f,
                                "'{word}' has no place here"
                            )?,
                            _ => write!(f, "'{word}' is no {name}")?,
                        }
                        if let Some(slip) = slip {
                            write!(f, ": {slip}")?;
                        }
                    }
                }
                writeln!(f, "\n{marked}    the form: {form}")?;
                write_meaning(f, *operand)
            }
        }
    }
}

/// Which words an operand is, in a line of its own.
fn write_meaning<W: fmt::Write>(f: &mut fmt::Formatter<W>, operand: Operand) -> fmt::Result {
    match operand.class() {
        Class::Mark | Class::End => Ok(()),
        Class::Number => {
            let name = operand.name();
            let (low, high) = operand.range();
            writeln!(f, "    {name} is a number from {low} to {high}")
        }
        _ => {
            let meaning = operand.meaning();
            writeln!(f, "    {meaning}")
        }
    }
}

/// What is wrong in a line whose words all fit their places.
fn why_not_whole(form: &Form) -> &'static str {
    match form.tail {
        Operand::Attr => "an attribute stands twice",
        Operand::Fd => "more than 16 ports",
        Operand::AfterCalled | Operand::AfterReturned => "more than 32 descriptors after 'desc'",
        _ => "its operands are wrong",
    }
}
