//! Traces that are not legal.

use crate::bad_line::number_of;
use crate::lines::line_at;
use crate::report::Report;
use crate::run::Run;
use crate::run_told::tell_named;
use crate::shown::Shown;
use crate::words::{begins_with_digit, word_at};
use std::fmt;

/// What `check` says of a trace that is not legal.
#[derive(Clone, Copy)]
pub(crate) struct Verdict<'a> {
    /// The number of the first line that is not legal.
    pub line: u64,
    pub want: &'a [u8],
    pub have: &'a [u8],
}

/// `want` and `have` take so many bytes of a line of an answer, with the space after them.
const NAMED: usize = 5;

/// What stands after `want` or `have` in a line of an answer.
fn after_name(line: &[u8]) -> &[u8] {
    line.split_at(NAMED.min(line.len())).1
}

impl<'a> Verdict<'a> {
    pub fn of(output: &'a [u8]) -> Self {
        Verdict {
            line: number_of(word_at(line_at(output, 1), 2)),
            want: after_name(line_at(output, 2)),
            have: after_name(line_at(output, 3)),
        }
    }

    /// Whether the line is to be that of an event, and there is no event that can stand in it.
    pub fn wants_turn(self) -> bool {
        self.want == b"turn".as_slice()
    }

    /// Why another line is wanted.
    fn reason(self) -> &'static str {
        if self.have.starts_with(b"refused turn ") {
            "a run with a refused turn is not whole, and never legal"
        } else if self.want.is_empty() {
            "after the end line at most one line 'tail N' may stand, N up to the number of events"
        } else if self.want.starts_with(b"end ") {
            "the run is over, and its end line is wanted"
        } else {
            "another line is wanted of this thread"
        }
    }

    /// Why a line is no event's, in a trace that ends before it or not.
    fn no_event(self, is_there: bool) -> &'static str {
        if self.have.is_empty() {
            if is_there {
                "an empty line, and the run is not over"
            } else {
                "the trace ends before its run is over"
            }
        } else if self.have.starts_with(b"end ") {
            "an end line, and the run is not over"
        } else if self.have.starts_with(b"refused turn ") {
            "a run with a refused turn is not whole, and never legal"
        } else {
            "no line of an event, and the run is not over"
        }
    }

    /// How many bytes both lines begin with.
    fn common(self) -> usize {
        let pairs = self.want.iter().zip(self.have.iter());
        pairs.take_while(|(want, have)| want == have).count()
    }

    /// Whether both lines are those of events, with different numbers.
    fn differs_in_number(self) -> bool {
        begins_with_digit(self.want)
            && begins_with_digit(self.have)
            && word_at(self.want, 0) != word_at(self.have, 0)
    }
}

impl fmt::Display for Verdict<'_> {
    fn fmt<W: fmt::Write>(&self, f: &mut fmt::Formatter<W>) -> fmt::Result {
        let number = self.line;
        let reason = self.reason();
        writeln!(f, "doors: line {number} of the trace: {reason}")?;
        write_line(f, "    want", self.want)?;
        write_line(f, "    have", self.have)?;
        let Some(last) = self.have.last() else {
            return Ok(());
        };
        if self.want.is_empty() {
            return Ok(());
        }
        let blank = match *last {
            b'\r' => Some("a carriage return: tr -d '\\r' takes carriage returns out"),
            b' ' => Some("a space"),
            _ => None,
        };
        if blank.is_none() && self.differs_in_number() {
            return writeln!(
                f,
                "    they differ in the number of the event: a line before it is missing, or there is one too many"
            );
        }
        let place = self.common().saturating_add(1);
        writeln!(f, "    they differ from byte {place} on")?;
        if let Some(blank) = blank {
            writeln!(f, "    the line ends with {blank}")?;
        }
        Ok(())
    }
}

/// Writes a line of an answer, which may have no bytes.
fn write_line<W: fmt::Write>(
    f: &mut fmt::Formatter<W>,
    name: &'static str,
    line: &[u8],
) -> fmt::Result {
    if line.is_empty() {
        return writeln!(f, "{name}");
    }
    let line = Shown(line);
    writeln!(f, "{name} {line}")
}

/// Tells why no event can stand in the line.
pub(crate) fn tell_no_turn(report: &mut Report, run: &Run<'_>, verdict: Verdict<'_>) {
    let number = verdict.line;
    report.tell(&format_args!("doors: line {number} of the trace: "));
    if begins_with_digit(verdict.have) {
        let name = word_at(verdict.have, 1);
        if !name.is_empty() {
            return tell_named(report, run, name);
        }
    }
    report.put(verdict.no_event(run.has_last()));
    report.put("\n");
}
