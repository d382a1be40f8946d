//! The walk over the lines of a trace: a step and a line made for each line read.

ghost use Rattle.std.specs.Prelude.{◌≡◌, ◌≤◌, ◌<◌, length, bytes_eq, option_map, IfOk, OnOk, true, false};
ghost use Rattle.dk_base.specs.declared.limits.TheConstants.{BUDGET_MAX};
ghost use Rattle.line_text.specs.Words.{lines_of};
ghost use Rattle.spec_scripts.specs.Words.{is_over};
ghost use Rattle.spec_traces.specs.Words.{is_tail_line as is_tail, turn_in_line as turn_of_line, verdict, verdict_after_end, verdict_at_end, verdict_from, verdict_after_tail};
ghost use Rattle.sys_run.specs.Words.{history};
ghost use Rattle.sys_run.specs.Sys.{with_turn};
ghost use Rattle.spec_kernel.specs.Words.{is_runnable};
ghost use Rattle.trace_check.specs.Lines.{ChecksLine};

use dk_base::error::NoMemory;
use dk_base::list::Bytes;
use dk_base::number::Tid;
use line_text::lines::next_line;
use line_text::number::{Number, bounded_number};
use script_lang::script::Script;
use spec_traces::verdict::Verdict;
use std::alloc::Global;
use sys_run::sys::Sys;
use trace_text::{end_line, line, thread_of};

/// Another text is wanted at a line than stands there.
fn differs(alloc: Global, line: u32, want: &[u8], have: &[u8]) -> Result<Verdict, NoMemory>
    ensures { IfOk result (λ found. found ≡ Verdict.Differs line want.now have.now) }
{
    Ok(Verdict::Differs {
        line,
        want: Bytes::from_slice(alloc, want)?,
        have: Bytes::from_slice(alloc, have)?,
    })
}

/// `tail N`, where N is at most so many.
fn is_tail_line(events: u32, line: &[u8]) -> bool
    ensures { result ≡ is_tail events line.now }
{
    match line.strip_prefix(b"tail ") {
        Some(word) => matches!(bounded_number(word, 0, u64::from(events)), Number::Found(_)),
        None => false,
    }
}

/// The verdict on what stands after the line `tail N`.
fn check_after_tail(alloc: Global, events: u32, rest: &[u8]) -> Result<Verdict, NoMemory>
    requires { events ≤ BUDGET_MAX }
    ensures { IfOk result (λ found. found ≡ verdict_after_tail events (lines_of rest.now)) }
{
    match next_line(rest) {
        Some((have, _)) => differs(alloc, events + 3, b"", have),
        None => Ok(Verdict::Legal { events }),
    }
}

/// The verdict on what stands after the end line.
fn check_after_end(alloc: Global, events: u32, rest: &[u8]) -> Result<Verdict, NoMemory>
    requires { events ≤ BUDGET_MAX }
    ensures { IfOk result (λ found. found ≡ verdict_after_end events (lines_of rest.now)) }
{
    match next_line(rest) {
        Some((have, others)) if is_tail_line(events, have) => {
            check_after_tail(alloc, events, others)
        }
        Some((have, _)) => differs(alloc, events + 2, b"", have),
        None => Ok(Verdict::Legal { events }),
    }
}

/// The verdict on what stands after the last event of a run.
fn check_end(alloc: Global, sys: &Sys, rest: &[u8]) -> Result<Verdict, NoMemory>
    ensures { IfOk result (λ found. found ≡ verdict_at_end sys.now.script (history sys.now) (lines_of rest.now)) }
{
    let events = sys.events();
    let waiting = sys.waiting()?;
    let want = end_line(alloc, sys.script(), sys.ending(), events, &waiting)?;
    let Some((last, others)) = next_line(rest) else {
        return differs(alloc, events + 1, want.slice(), b"");
    };
    if is_same_line(last, want.slice()) {
        check_after_end(alloc, events, others)
    } else {
        differs(alloc, events + 1, want.slice(), last)
    }
}

/// The runnable thread that is a line's second word.
fn turn_in_line(sys: &Sys, line: &[u8]) -> Option<Tid>
    ensures { option_map (λ thread. thread.0) result ≡ turn_of_line sys.now.script (history sys.now).state line.now }
{
    match thread_of(sys.script(), line) {
        Some(t) if sys.runnable(t) => Some(t),
        _ => None,
    }
}

/// Lets a thread take the next turn.
fn take_turn(sys: &mut Sys, t: Tid) -> Result<(), NoMemory>
    requires can { is_runnable (history sys.old).state t.0 ≡ true }
    requires left { length sys.old.journal < sys.old.script.budget }
    ensures { OnOk result (sys.new ≡ with_turn sys.old t.0) }
{
    sys.step(t)?;
    Ok(())
}

/// Whether the line that is wanted stands there.
fn is_same_line(have: &[u8], want: &[u8]) -> bool
    ensures { result ≡ bytes_eq have.now want.now }
{
    have == want
}

/// What is found at the next line, where the run is not over. Where the line is that of the next event, the event was made.
fn check_line(alloc: Global, sys: &mut Sys, have: &[u8]) -> Result<Option<Verdict>, NoMemory>
    requires { is_over sys.old.script (history sys.old) ≡ false }
    ensures { IfOk result (ChecksLine sys.old sys.new have.now) }
{
    let Some(t) = turn_in_line(sys, have) else {
        return Ok(Some(differs(alloc, sys.events() + 1, b"turn", have)?));
    };
    take_turn(sys, t)?;
    let number = sys.events();
    let want = line(alloc, sys.script(), sys.event(number - 1))?;
    if is_same_line(have, want.slice()) {
        Ok(None)
    } else {
        Ok(Some(differs(alloc, number, want.slice(), have)?))
    }
}

/// The verdict on lines that stand after those of the events so far.
fn check_lines(alloc: Global, sys: &mut Sys, trace: &[u8]) -> Result<Verdict, NoMemory>
    ensures { IfOk result (λ found. found ≡ verdict_from sys.old.script (history sys.old) (lines_of trace.now)) }
{
    let mut rest = trace;
    while !sys.over() {
        let Some((have, others)) = next_line(rest) else {
            return differs(alloc, sys.events() + 1, b"turn", b"");
        };
        if let Some(found) = check_line(alloc, sys, have)? {
            return Ok(found);
        }
        rest = others;
    }
    check_end(alloc, sys, rest)
}

/// The verdict on a trace: whether it is the text of a legal run of the script, and if not, the first line that differs. The
/// last line may lack its line feed. The trace is walked once; of its lines a copy is made only where one differs.
pub fn check(alloc: Global, script: Script, trace: &[u8]) -> Result<Verdict, NoMemory>
    ensures { IfOk result (λ found. found ≡ verdict script trace.now) }
{
    let mut sys = Sys::new(alloc, script)?;
    check_lines(alloc, &mut sys, trace)
}
