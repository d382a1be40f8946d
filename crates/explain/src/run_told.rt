//! Runs that stall, that used up their budget, or whose next turn is refused.

use crate::form::Role;
use crate::lines::{Line, Lines};
use crate::report::Report;
use crate::run::Run;
use crate::shown::{Marked, Shown};
use crate::standing::{Standing, ThreadTold, standing_of};
use crate::words::{Word, Words};

/// Tells what the threads of a run wait for that cannot go on. Where a call waits that no thread has accepted, the threads that wait for
/// others are told, too: they are not in the pool of such a call, since no thread can go on.
pub(crate) fn tell_stalled(report: &mut Report, run: &Run<'_>) {
    report.put("doors: no thread can go on\n");
    let mut is_queued = false;
    for thread in run.threads.as_slice() {
        let standing = standing_of(run, thread);
        if standing.is_over() || standing.is_for_calls() {
            continue;
        }
        if let Standing::InCall { server: None, .. } = standing {
            is_queued = true;
        }
        report.put("    ");
        report.tell(&ThreadTold {
            name: thread.name,
            standing,
        });
    }
    if is_queued {
        tell_idle(report, run);
    }
}

/// Tells the threads that wait for calls.
fn tell_idle(report: &mut Report, run: &Run<'_>) {
    let mut is_first = true;
    for thread in run.threads.as_slice() {
        let standing = standing_of(run, thread);
        if standing.is_for_calls() {
            if is_first {
                report.put("    threads that wait for other calls:\n");
                is_first = false;
            }
            report.put("        ");
            report.tell(&ThreadTold {
                name: thread.name,
                standing,
            });
        }
    }
    if is_first {
        report.put("    no thread waits for calls\n");
    }
}

/// Tells that a run has used up its budget.
pub(crate) fn tell_budget(report: &mut Report, run: &Run<'_>) {
    let events = run.events();
    report.tell(&format_args!(
        "doors: the run has as many events as its budget, {events}; threads that could go on:"
    ));
    tell_runnable(report, run);
}

/// Tells the threads that can take the turn that another cannot.
pub(crate) fn tell_others(report: &mut Report, run: &Run<'_>) {
    report.put("    threads that can take this turn:");
    tell_runnable(report, run);
}

/// The threads that can take a turn, to the line's end.
fn tell_runnable(report: &mut Report, run: &Run<'_>) {
    let mut is_first = true;
    for thread in run.threads.as_slice() {
        if thread.is_runnable {
            is_first = false;
            report.put(" ");
            report.tell(&Shown(thread.name));
        }
    }
    if is_first {
        report.put(" none");
    }
    report.put("\n");
}

/// Why a thread of this name cannot take a turn.
pub(crate) fn tell_named(report: &mut Report, run: &Run<'_>, name: &[u8]) {
    let threads = run.threads.as_slice();
    let thread = threads.iter().find(|thread| thread.name == name);
    if let Some(thread) = thread {
        let standing = standing_of(run, thread);
        return report.tell(&ThreadTold { name, standing });
    }
    let name = Shown(name);
    report.tell(&format_args!("there is no thread '{name}'\n"));
}

/// A turn of the schedule.
#[derive(Clone, Copy)]
struct Turn<'a> {
    line: Line<'a>,
    /// The thread.
    word: Word<'a>,
}

/// The turn of this number, from 0, in the schedule of a script.
fn turn_at(text: &[u8], number: u64) -> Option<Turn<'_>> {
    let mut left = number;
    for line in Lines::new(text) {
        if let Some(Role::Schedule) = line.form().map(|form| form.role) {
            for word in Words::new(line.text).skip(1) {
                if left == 0 {
                    return Some(Turn { line, word });
                }
                left -= 1;
            }
        }
    }
    None
}

/// A turn of the schedule that its thread cannot take: the first that the run does not have.
pub(crate) fn tell_refused(report: &mut Report, run: &Run<'_>) {
    let Some(Turn { line, word }) = turn_at(run.text(), run.events()) else {
        return;
    };
    let Line { number, text } = line;
    let turn = run.events().saturating_add(1);
    report.tell(&format_args!("doors: line {number}: turn {turn} is refused: "));
    tell_named(report, run, word.text);
    report.tell(&Marked { line: text, word });
    tell_others(report, run);
}
