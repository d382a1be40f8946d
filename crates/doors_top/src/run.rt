//! What `run` answers and writes for what was read.
ghost use Rattle.std.specs.Prelude.{◌≡◌, ◌+◌, ◌++◌, Some, true, length, sum, IfOk};
ghost use Rattle.spec_requests.specs.Words.{tail_text};
ghost use Rattle.spec_scripts.specs.Words.{ending_of, is_over, text_of_history};
ghost use Rattle.sys_run.specs.Words.{LawsOf, history};
ghost use Rattle.doors_top.specs.declared.script_in.TheConstants.{SCRIPT_LIMIT};
ghost use Rattle.doors_top.specs.Outcomes.{outcome_with};
ghost use Rattle.doors_top.specs.Input.{IsSpelled};
ghost use Rattle.dk_base.specs.Input.{IsWithinLimit};
ghost use Rattle.doors_top.specs.Status.{status_of_ending};
ghost use Rattle.doors_top.specs.Top.{IsAnswer, IsOfSomeRun, IsRan};

use crate::reply::{Reply, reply_for_bad};
use crate::script_in::script_in;
use crate::status::Status;
use dk_base::error::NoMemory;
use dk_base::outside::Gate;
use dk_base::reading::ReadText;
use kernel_lock::run::{Ran, run_threads};
use script_lang::script::Script;
use std::alloc::Global;
use std::sync::Wait;
use std::thread::Threads;
use sys_run::sys::Sys;
use trace_text::text_with_tail;

/// The text of a run that is over, with the line `tail N` after it.
fn reply_with_tail(alloc: Global, sys: &Sys, tail: u64) -> Result<Reply, NoMemory>
    ensures status { IfOk result (λ reply. reply.status ≡ status_of_ending (ending_of (history sys.now).state)) }
    ensures text { IfOk result (λ reply. reply.text ≡ text_of_history sys.now.script (history sys.now) ++ tail_text (Some tail)) }
    ensures answer { IfOk result (λ reply. IsAnswer reply.status) }
{
    let ending = sys.ending();
    let waiting = sys.waiting()?;
    let text = text_with_tail(alloc, sys.script(), sys.journal(), ending, &waiting, tail)?;
    Ok(Reply {
        status: Status::of_ending(ending),
        text,
    })
}

/// The text of a run that is over. The number of its line `tail N` is how many turns the calling thread took.
fn reply_for_ran(alloc: Global, ran: &Ran) -> Result<Reply, NoMemory>
    requires spelled { IsSpelled ran.now.sys.script }
    requires over { is_over ran.now.sys.script (history ran.now.sys) ≡ true }
    requires sum { length ran.now.sys.journal ≡ sum ran.now.by + ran.now.tail }
    requires laws { LawsOf ran.now.sys }
    ensures answer { IfOk result (λ reply. IsAnswer reply.status) }
    ensures run { IfOk result (λ reply. IsOfSomeRun ran.now.sys.script (outcome_with reply.status reply.text)) }
{
    spec_traces::laws::turns_of_texts();
    spec_traces::laws::legal_traces();
    spec_traces::laws::fronts_of_runs();
    ran.sys.events();
    let reply = reply_with_tail(alloc, &ran.sys, ran.tail)?;
    Ok(reply)
}

/// Runs a script.
fn run_script<G: Gate + Sync, R: Threads + Wait + Sync>(
    rt: &R,
    alloc: Global,
    script: Script,
    gate: &G,
) -> Result<Reply, NoMemory>
    requires { IsSpelled script }
    ensures answer { IfOk result (λ reply. IsAnswer reply.status) }
    ensures run { IfOk result (λ reply. IsOfSomeRun script (outcome_with reply.status reply.text)) }
{
    let ran = run_threads(rt, alloc, script, gate)?;
    reply_for_ran(alloc, &ran)
}

/// What `run` answers and writes: the text of a run in which each thread of the script had a driver of its own, or the calling
/// thread where none could be started, in whatever order the system made, and the line `tail N`; or what is bad of the script. The
/// schedule is passed over. It may wait; what it promises holds where it returns.
pub(crate) fn run<G: Gate + Sync, R: Threads + Wait + Sync>(
    rt: &R,
    alloc: Global,
    read: &ReadText,
    gate: &G,
) -> Result<Reply, NoMemory>
    requires { IsWithinLimit SCRIPT_LIMIT read.now }
    ensures answer { IfOk result (λ reply. IsAnswer reply.status) }
    ensures said { IfOk result (λ reply. IsRan read.now (outcome_with reply.status reply.text)) }
{
    script_lang::laws::read_is_spelled();
    match script_in(alloc, read)? {
        Ok(script) => {
            let reply = run_script(rt, alloc, script, gate)?;
            Ok(reply)
        }
        Err(bad) => {
            let reply = reply_for_bad(alloc, bad)?;
            Ok(reply)
        }
    }
}
