//! What is wrong where a line is to begin with a word that has its place there.

use crate::form::{Form, Role};
use crate::outline::{Outline, Spot};
use crate::shown::{Marked, Shown};
use crate::walk::{Opener, Place};
use crate::words::{Words, has_capital, has_one_of};
use line_forms::reason::Reason;
use std::fmt;

/// A line begins with a word that has no place there, or the text ends where it cannot.
#[derive(Clone, Copy)]
pub(crate) enum PlaceFault<'a> {
    /// No line begins so.
    NoKeyword {
        marked: Marked<'a>,
        advice: &'static str,
    },
    /// No line of this version begins so.
    TooNew {
        marked: Marked<'a>,
        form: &'static Form,
    },
    /// Something is open that has no such lines.
    Within {
        marked: Marked<'a>,
        place: Place,
        innermost: Opener<'a>,
        body: Opener<'a>,
    },
    /// No thread and no procedure is open.
    Outside {
        marked: Marked<'a>,
        place: Place,
        role: Role,
        advice: &'static str,
    },
    /// A `repeat` begins with another line than a command.
    NoCommand {
        marked: Marked<'a>,
        innermost: Opener<'a>,
    },
    /// The text ends.
    Unended {
        place: Place,
        innermost: Opener<'a>,
        depth: usize,
    },
}

impl<'a> PlaceFault<'a> {
    pub fn of(outline: &Outline<'a>, reason: Reason) -> Option<Self> {
        let spot = outline.spot();
        let Spot {
            place,
            innermost,
            ..
        } = spot;
        if let Reason::Open = reason {
            return Some(PlaceFault::Unended {
                place,
                innermost: innermost?,
                depth: spot.depth,
            });
        }
        let line = spot.line.text;
        let word = Words::new(line).next()?;
        let marked = Marked { line, word };
        if let Reason::Body = reason {
            return Some(PlaceFault::NoCommand {
                marked,
                innermost: innermost?,
            });
        }
        let wanted = wanted_at(place, outline.version() > 1);
        let Some(form) = spot.form else {
            return Some(PlaceFault::NoKeyword {
                marked,
                advice: advice_on(line, word.text).unwrap_or(wanted),
            });
        };
        if outline.version() < u64::from(form.since) {
            return Some(PlaceFault::TooNew { marked, form });
        }
        Some(match spot.body {
            Some(body) => PlaceFault::Within {
                marked,
                place,
                innermost: innermost?,
                body,
            },
            None => PlaceFault::Outside {
                marked,
                place,
                role: form.role,
                advice: wanted,
            },
        })
    }
}

impl fmt::Display for PlaceFault<'_> {
    fn fmt<W: fmt::Write>(&self, f: &mut fmt::Formatter<W>) -> fmt::Result {
        match self {
            PlaceFault::NoKeyword { marked, advice } => {
                let word = Shown(marked.word.text);
                writeln!(f, "no line begins with '{word}'\n{marked}    {advice}")
            }
            PlaceFault::TooNew { marked, form } => {
                let word = Shown(marked.word.text);
                let versions = versions_since(form.since);
                writeln!(f, "'{word}' needs {versions}\n{marked}    the form: {form}")
            }
            PlaceFault::Within {
                marked,
                place,
                innermost,
                body,
            } => {
                let word = Shown(marked.word.text);
                write!(
                    f,
                    "'{word}' has no place in {innermost}\n{marked}    its 'end' is missing"
                )?;
                match place {
                    Place::Block => writeln!(f, ", and that of {body}"),
                    Place::AfterBlock => writeln!(f, ", or that of a block in it"),
                    _ => writeln!(f),
                }
            }
            PlaceFault::Outside {
                marked,
                place,
                role,
                advice,
            } => {
                let word = Shown(marked.word.text);
                let why = why_not_outside(*place, *role);
                writeln!(f, "'{word}' {why}\n{marked}    {advice}")
            }
            PlaceFault::NoCommand { marked, innermost } => {
                let word = Shown(marked.word.text);
                let number = innermost.0.number;
                writeln!(
                    f,
                    "'{word}' in place of the first command of the 'repeat' in line {number}\n{marked}    the first line in a 'repeat' is a command"
                )
            }
            PlaceFault::Unended {
                place,
                innermost,
                depth,
            } => {
                writeln!(f, "the text ends in {innermost}")?;
                let missing = depth.saturating_add(1);
                match place {
                    Place::Block => writeln!(f, "    {missing} lines 'end' are missing"),
                    Place::AfterBlock => {
                        writeln!(f, "    its 'end' is missing, or that of a block in it")
                    }
                    _ => writeln!(f, "    its 'end' is missing"),
                }
            }
        }
    }
}

/// What lines begin with at a place outside of bodies, where scripts of this version have children or not, and in a body.
fn wanted_at(place: Place, has_children: bool) -> &'static str {
    match place {
        Place::Start if has_children => "wanted here: budget, process, child or schedule",
        Place::Start => "wanted here: budget, process or schedule",
        Place::Processes if has_children => "wanted here: process, child or schedule",
        Place::Processes => "wanted here: process or schedule",
        Place::Members if has_children => {
            "wanted here: thread, spare, proc, process, child or schedule"
        }
        Place::Members => "wanted here: thread, spare, proc, process or schedule",
        Place::Schedule => "after a line 'schedule' only more of them and comments may stand",
        Place::Body | Place::Block | Place::AfterBlock => {
            "wanted here: a command, repeat, if or end"
        }
    }
}

/// Why such a line has no place outside of bodies.
fn why_not_outside(place: Place, role: Role) -> &'static str {
    if let Place::Schedule = place {
        return "has no place after a line 'schedule'";
    }
    match role {
        Role::Budget => "stands once, before the first process",
        Role::End => {
            "closes a thread, a procedure, a 'repeat' or an 'if', and none is open: a process and a spare have no 'end'"
        }
        Role::Thread | Role::Spare | Role::Proc => "stands in a process, and none is open here",
        _ => "stands in a thread or a procedure, and none is open here",
    }
}

/// The versions from this one on, and their first lines.
fn versions_since(version: u32) -> &'static str {
    match version {
        2 => "version 2 or a higher one: the first line 'doors script 2', 3 or 4",
        3 => "version 3 or 4: the first line 'doors script 3' or 4",
        _ => "version 4: the first line 'doors script 4'",
    }
}

/// What is said of words that other languages have.
static OTHER_WORDS: [(&str, &str); 16] = [
    ("endif", "a block ends with 'end'"),
    ("fi", "a block ends with 'end'"),
    ("done", "a block ends with 'end'"),
    (
        "trace",
        "before a trace stands a line that is exactly 'trace', without spaces",
    ),
    ("else", "there is no 'else': write a second 'if'"),
    (
        "wait",
        "to wait for a path: 'await PATH'; for calls: 'serve'",
    ),
    (
        "sleep",
        "time goes by with 'advance N', from version 3 on; to wait for a path: 'await PATH'",
    ),
    ("pause", "to wait for good: 'await never'"),
    ("set", NAME_TABLE),
    ("alias", NAME_TABLE),
    ("del", NAME_TABLE),
    ("who", NAME_TABLE),
    ("stat", NAME_TABLE),
    ("for", "a loop is 'repeat N' .. 'end'"),
    ("while", "a loop is 'repeat N' .. 'end'"),
    ("loop", "a loop is 'repeat N' .. 'end'"),
];

const NAME_TABLE: &str =
    "a line of a name table is DATA of 'ncd', as in: ncd VAR \"set KEY VALUE\"";

/// How words of C's functions begin.
static C_FUNCTIONS: [&str; 4] = ["door_", "port_", "timer_", "pthread_"];

/// How comments of other languages begin.
static OTHER_COMMENTS: [&str; 4] = [";", "//", "/*", "--"];

/// Whether a word begins with one of these.
fn begins_with_one_of(word: &[u8], fronts: &[&str]) -> bool {
    fronts
        .iter()
        .any(|front| word.starts_with(front.as_bytes()))
}

/// What was meant by a line that begins with a word with which no line begins, where that is plain.
fn advice_on(line: &[u8], word: &[u8]) -> Option<&'static str> {
    if line == b"trace".as_slice() {
        return Some(
            "only 'doors check' takes a trace after the script, behind a line 'trace' with its line feed",
        );
    }
    if let Some((_, advice)) = OTHER_WORDS
        .iter()
        .find(|(other, _)| other.as_bytes() == word)
    {
        return Some(advice);
    }
    if word.starts_with(b"\"") {
        Some("a line begins with a command, and not with a string")
    } else if begins_with_one_of(word, &OTHER_COMMENTS) {
        Some("a comment begins with #")
    } else if begins_with_one_of(word, &["{", "}"]) {
        Some("there are no braces: threads, procedures, 'if' and 'repeat' end with a line 'end'")
    } else if begins_with_one_of(word, &C_FUNCTIONS) {
        Some("docs/FROM_C.md has the commands for functions of C")
    } else if has_one_of(word, b"();") {
        Some("words stand between spaces, without brackets, commas and semicolons")
    } else if has_capital(word) {
        Some("words that begin lines have small letters")
    } else {
        None
    }
}
