//! What `check` answers and writes for what was read.
ghost use Rattle.std.specs.Prelude.{◌≡◌, ◌≤◌, length, option_copied, IfOk};
ghost use Rattle.line_text.specs.Words.{lines_of};
ghost use Rattle.spec_traces.specs.Words.{verdict};
ghost use Rattle.doors_top.specs.declared.script_in.TheConstants.{SCRIPT_LIMIT};
ghost use Rattle.doors_top.specs.Outcomes.{outcome_of_check, outcome_of_parts, outcome_of_trace, outcome_of_verdict, outcome_with};
ghost use Rattle.dk_base.specs.declared.reading.ReadText.{ReadText};
ghost use Rattle.doors_top.specs.Status.{status_of_verdict};
ghost use Rattle.doors_top.specs.Top.{IsAnswer, IsChecked};

use crate::reply::{Reply, reply_for_bad};
use crate::script_in::{SCRIPT_LIMIT, script_of_text, too_long};
use crate::status::Status;
use dk_base::error::NoMemory;
use dk_base::reading::ReadText;
use line_forms::reason::Reason;
use line_text::lines::next_line;
use script_lang::bad::Bad;
use script_lang::script::Script;
use spec_traces::verdict::Verdict;
use std::alloc::Global;
use trace_check::{parts, text_of_verdict};

fn status_of(found: &Verdict) -> Status
    ensures value { result ≡ status_of_verdict found.now }
    ensures answer { IsAnswer result }
{
    match found {
        Verdict::Legal { .. } => Status::Complete,
        Verdict::Differs { .. } => Status::Illegal,
    }
}

/// How many lines a text has.
fn count_lines(text: &[u8]) -> u32
    requires { length text.now ≤ SCRIPT_LIMIT }
    ensures lines { result ≡ length (lines_of text.now) }
    ensures small { result ≤ SCRIPT_LIMIT }
{
    let mut count = 0;
    let mut rest = text;
    while let Some((_, others)) = next_line(rest) {
        count += 1;
        rest = others;
    }
    count
}

/// The verdict on a trace.
fn reply_for_trace(alloc: Global, script: Script, trace: &[u8]) -> Result<Reply, NoMemory>
    ensures status { IfOk result (λ reply. reply.status ≡ (outcome_of_verdict (verdict script trace.now)).status) }
    ensures text { IfOk result (λ reply. reply.text ≡ (outcome_of_verdict (verdict script trace.now)).text) }
    ensures answer { IfOk result (λ reply. IsAnswer reply.status) }
{
    let found = trace_check::check(alloc, script, trace)?;
    Ok(Reply {
        status: status_of(&found),
        text: text_of_verdict(alloc, &found)?,
    })
}

/// The verdict on the trace, or that no line `trace` follows the script.
fn reply_for_script(
    alloc: Global,
    script: Script,
    text: &[u8],
    trace: Option<&[u8]>,
) -> Result<Reply, NoMemory>
    requires { length text.now ≤ SCRIPT_LIMIT }
    ensures status { IfOk result (λ reply. reply.status ≡ (outcome_of_trace script text.now (option_copied trace.entry)).status) }
    ensures text { IfOk result (λ reply. reply.text ≡ (outcome_of_trace script text.now (option_copied trace.entry)).text) }
    ensures answer { IfOk result (λ reply. IsAnswer reply.status) }
{
    match trace {
        Some(trace) => reply_for_trace(alloc, script, trace),
        None => reply_for_bad(
            alloc,
            Bad {
                line: count_lines(text) + 1,
                reason: Reason::Trace,
            },
        ),
    }
}

/// What `check` makes of the two parts of an input.
fn check_parts(alloc: Global, text: &[u8], trace: Option<&[u8]>) -> Result<Reply, NoMemory>
    ensures status { IfOk result (λ reply. reply.status ≡ (outcome_of_parts text.now (option_copied trace.entry)).status) }
    ensures text { IfOk result (λ reply. reply.text ≡ (outcome_of_parts text.now (option_copied trace.entry)).text) }
    ensures answer { IfOk result (λ reply. IsAnswer reply.status) }
{
    if text.len() > SCRIPT_LIMIT {
        return reply_for_bad(alloc, too_long());
    }
    match script_of_text(alloc, text)? {
        Ok(script) => reply_for_script(alloc, script, text, trace),
        Err(bad) => reply_for_bad(alloc, bad),
    }
}

/// The reply for what was read, of which `IsChecked` says more.
fn reply_for_input(alloc: Global, read: &ReadText) -> Result<Reply, NoMemory>
    ensures status { IfOk result (λ reply. reply.status ≡ (outcome_of_check read.now).status) }
    ensures text { IfOk result (λ reply. reply.text ≡ (outcome_of_check read.now).text) }
    ensures answer { IfOk result (λ reply. IsAnswer reply.status) }
{
    match read {
        ReadText::Whole(input) => {
            let (text, trace) = parts(input.slice());
            check_parts(alloc, text, trace)
        }
        ReadText::TooLong => reply_for_bad(alloc, too_long()),
    }
}

/// The laws on texts of traces, as they speak of what `check` makes.
fn checked_inputs()
    ensures { (read : ReadText) → IsChecked read (outcome_of_check read) }
{
    spec_traces::laws::parts();
    spec_traces::laws::legal_traces();
    spec_traces::laws::first_differences();
    script_lang::laws::text_is_decided();
    script_lang::laws::read_is_spelled();
    spec_requests::laws::sound_scripts();
    law_runs::laws::every_run();
}

/// What `check` answers and writes: the verdict on the trace that follows a script, or what is bad of the script's part. Where a trace
/// follows an accepted script, it is Complete exactly where that is the trace of a legal run of the script, of which the laws of
/// every run hold, and else Illegal with the first line at which it leaves these.
pub fn check(alloc: Global, read: &ReadText) -> Result<Reply, NoMemory>
    ensures answer { IfOk result (λ reply. IsAnswer reply.status) }
    ensures said { IfOk result (λ reply. IsChecked read.now (outcome_with reply.status reply.text)) }
{
    checked_inputs();
    let reply = reply_for_input(alloc, read)?;
    Ok(reply)
}
