//! A text that is no script: which line is bad, and what is wrong there.

use crate::lines::line_at;
use crate::name_fault::{ManyFault, TwiceFault, UnknownFault};
use crate::operand_fault::OperandFault;
use crate::outline::Outline;
use crate::place_fault::PlaceFault;
use crate::report::Report;
use crate::text_fault::{ByteFault, HeaderFault};
use crate::words::{begins_with_digit, word_at};
use line_forms::reason::Reason;
use line_text::number::{Number, bounded_number};
use std::alloc::Global;
use std::fmt;

/// What `bad line N REASON` says.
#[derive(Clone, Copy)]
pub(crate) struct BadLine {
    pub number: u64,
    pub reason: Reason,
}

static REASONS: [Reason; 12] = [
    Reason::Byte,
    Reason::Header,
    Reason::Word,
    Reason::Form,
    Reason::Range,
    Reason::Twice,
    Reason::Many,
    Reason::Body,
    Reason::Open,
    Reason::Unknown,
    Reason::Size,
    Reason::Trace,
];

/// The number that a word spells, 0 where it spells none.
pub(crate) fn number_of(word: &[u8]) -> u64 {
    match bounded_number(word, 0, u64::MAX) {
        Number::Found(number) => number,
        _ => 0,
    }
}

impl BadLine {
    /// What an output says of a bad line.
    pub fn of(output: &[u8]) -> Option<Self> {
        let line = line_at(output, 1);
        if !line.starts_with(b"bad line ") {
            return None;
        }
        let word = word_at(line, 3);
        let reason = REASONS
            .iter()
            .find(|reason| reason.word().as_bytes() == word)?;
        Some(BadLine {
            number: number_of(word_at(line, 2)),
            reason: *reason,
        })
    }
}

/// Tells a fault, if there is one, of the line of this number.
fn tell<F: fmt::Display + Drop>(report: &mut Report, number: u64, fault: Option<F>) {
    if let Some(fault) = fault {
        report.tell(&format_args!("doors: line {number}: {fault}"));
    }
}

/// What is wrong in the script's text.
pub(crate) fn tell_bad_line(alloc: Global, report: &mut Report, text: &[u8], bad: BadLine) {
    let BadLine { number, reason } = bad;
    let outline = Outline::new(alloc, report, text, number);
    let spot = outline.spot();
    match reason {
        Reason::Byte => tell(report, number, ByteFault::of(spot.line.text)),
        Reason::Header => tell(report, number, Some(HeaderFault::of(text, spot.line))),
        Reason::Many => tell(report, number, Some(ManyFault::of(spot.line))),
        Reason::Twice => tell(report, number, TwiceFault::of(&outline)),
        Reason::Unknown => tell(report, number, UnknownFault::of(&outline)),
        Reason::Form | Reason::Range => {
            let is_range = matches!(reason, Reason::Range);
            let fault = OperandFault::of(alloc, report, spot, is_range);
            tell(report, number, fault);
        }
        _ => tell(report, number, PlaceFault::of(&outline, reason)),
    }
}

/// Of an input of `check` without a line `trace`: that the bad line ends with this word, and has another before it or in it; or where that
/// is the line of an event, the line before it.
pub(crate) fn tell_joined(report: &mut Report, number: u64, text: &[u8]) {
    let mut line = line_at(text, number);
    if begins_with_digit(line) {
        line = line_at(text, number.saturating_sub(1));
    }
    let first = word_at(line, 0);
    if !first.starts_with(b"#") && first != b"trace".as_slice() && line.ends_with(b"trace") {
        report.put(
            "    the script's last line has no line feed, so that 'trace' became a part of it\n",
        );
    }
}
