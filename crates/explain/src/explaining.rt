//! What is said of an answer, for its command, the input, the output and the status.

use crate::bad_line::{BadLine, tell_bad_line, tell_joined};
use crate::command::WordsFault;
use crate::outline::Outline;
use crate::player::Player;
use crate::report::Report;
use crate::run::{Run, Trace};
use crate::run_told::{tell_budget, tell_others, tell_refused, tell_stalled};
use crate::trace_told::{Verdict, tell_no_turn};
use dk_base::error::NoMemory;
use dk_base::list::Bytes;
use line_forms::reason::Reason;
use std::alloc::Global;

/// What an input of `check` is.
const CHECKED: &str =
    "    the input of 'check' is a script, a line that is exactly 'trace', and a trace\n";

/// What is wrong with an input of `check`, by what stands before its line `trace`; without such a line that is all.
fn tell_bad_input(alloc: Global, report: &mut Report, text: &[u8], has_trace: bool, bad: BadLine) {
    if has_trace && text.is_empty() {
        report.put("doors: line 1: no script stands before the line 'trace'\n");
        return report.put(CHECKED);
    }
    if let Reason::Trace = bad.reason {
        let number = bad.number;
        report.tell(&format_args!(
            "doors: line {number}: the input ends without a line 'trace' after the script\n"
        ));
        report.put(CHECKED);
    } else {
        tell_bad_line(alloc, report, text, bad);
    }
    if !has_trace {
        tell_joined(report, bad.number, text);
    }
}

/// What is said of a run that was taken again by the lines of its trace.
fn tell_taken(report: &mut Report, run: &Run<'_>, verdict: Verdict<'_>, status: u8) {
    match status {
        1 => tell_stalled(report, run),
        4 => tell_budget(report, run),
        9 => {
            tell_no_turn(report, run, verdict);
            tell_others(report, run);
        }
        _ => tell_refused(report, run),
    }
}

/// What is said of a run, by its script, the trace that `check` was given, and what a command answered. The run is taken again, but for
/// a trace in which no turn is wanted.
fn tell_run<'a, P: Player>(
    alloc: Global,
    report: &mut Report,
    text: &'a [u8],
    given: Option<&'a [u8]>,
    output: &'a [u8],
    status: u8,
) {
    let verdict = Verdict::of(output);
    if status == 9 && !verdict.wants_turn() {
        return report.tell(&verdict);
    }
    let trace = match given {
        Some(text) => Trace {
            text,
            last: verdict.line,
        },
        None => Trace {
            text: output,
            last: u64::MAX,
        },
    };
    let run = &mut Run::new(alloc, report, text, trace, status != 4);
    if let Err(NoMemory) = P::play(alloc, text, run) {
        report.lose();
    }
    tell_taken(report, run, verdict, status);
}

/// What is said of the answer of a command that reads, and the warnings on the script. Of an input that is not kept no more is told than
/// that it is too long.
fn tell_answer<P: Player>(
    alloc: Global,
    report: &mut Report,
    command: &str,
    input: Option<&[u8]>,
    output: &[u8],
    status: u8,
) {
    let bad = BadLine::of(output);
    if let Some(
        BadLine {
            reason: Reason::Size,
            ..
        },
    ) = bad
    {
        return report.put(
            "doors: the input has too many bytes: a script may have 1048576, the input of 'check' 403701760\n",
        );
    }
    let Some(input) = input else {
        return;
    };
    // no script has a line `trace`
    let (text, trace) = P::parts(input);
    let Some(bad) = bad else {
        if status != 0 {
            tell_run::<P>(alloc, report, text, trace, output, status);
        }
        let outline = Outline::new(alloc, report, text, 0);
        return outline.warner().tell(report);
    };
    if command == "check" {
        // where there is no line `trace`, all is the script's
        tell_bad_input(alloc, report, text, text.len() < input.len(), bad);
    } else {
        tell_bad_line(alloc, report, input, bad);
    }
}

/// What is said on the error stream of a command's answer, by the words, the input, the output and the exit status: for 1 what each
/// thread waits for, for 2 what is wrong in which line, for 3 what is wrong with the words, for 4 which threads could go on, for 8 why
/// the thread cannot take the turn, for 9 what is wanted in the trace; and warnings on the script. The bytes are printable but for line
/// feeds; there are none where nothing is to be said. The one error is that memory runs out.
pub fn explanation<P: Player>(
    alloc: Global,
    words: &[&str],
    input: Option<&[u8]>,
    output: Option<&[u8]>,
    status: u8,
) -> Result<Bytes, NoMemory> {
    let mut report = Report::new(alloc);
    match (status, words, output) {
        (3, _, _) => report.tell(&WordsFault::of(words)),
        (5..=7, _, _) => {}
        (_, [command], Some(output)) => {
            tell_answer::<P>(alloc, &mut report, command, input, output, status);
        }
        _ => {}
    }
    report.into_text()
}
