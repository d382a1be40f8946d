//! What is found at an end line.

ghost use Rattle.std.specs.Prelude.{◌≡◌, ◌≤◌, IfOk, OnOk, length};
ghost use Rattle.dk_base.specs.declared.limits.TheConstants.{THREADS_MAX};
ghost use Rattle.history_text.specs.declared.place.Stage.{Stage};
ghost use Rattle.history_text.specs.declared.place.Stage.TheVariants.{Ended};
ghost use Rattle.history_text.specs.declared.line.Line.TheVariants.{End};
ghost use Rattle.history_text.specs.ShortNames.{AreShort};
ghost use Rattle.history_text.specs.Words.{line_text};
ghost use Rattle.spec_histories.specs.Histories.{end};
ghost use Rattle.history_check.specs.Findings.{Finds, reached};
ghost use Rattle.history_check.specs.Judging.{found_at_end};
ghost use Rattle.history_check.specs.Turns.{end_line, ending_waiting};

use crate::events::compare;
use crate::finding::Finding;
use dk_base::error::NoMemory;
use dk_base::list::Room;
use dk_base::number::Tid;
use history_text::line::Ending;
use history_text::names::Names;
use history_text::write_end::push_end;
use spec_histories::recorded::RecordsHistory;
use std::alloc::Global;

/// Leaves the end line of the history so far in `room`.
fn write_end<K: RecordsHistory>(
    alloc: Global,
    kernel: &K,
    names: &Names,
    room: &mut Room<u8>,
) -> Result<(), NoMemory>
    ensures { OnOk result (room.new.items ≡ line_text names.now (end_line (end (K.history kernel.now)))) }
{
    let waiting = kernel.waiting(alloc)?;
    let least = kernel.least_runnable();
    names.short();
    match least {
        Some(_) => {
            let nothing: &[Tid] = &[];
            push_ending(room, names, Ending::Open, kernel.events(), nothing)
        }
        None => push_ending(
            room,
            names,
            ending_of(waiting.slice()),
            kernel.events(),
            waiting.slice(),
        ),
    }
}

/// How a history ends in which no thread can go on.
fn ending_of(waiting: &[Tid]) -> Ending
    ensures { result ≡ ending_waiting waiting.now }
{
    if waiting.is_empty() {
        Ending::Complete
    } else {
        Ending::Stalled
    }
}

/// Leaves an end line in `room`.
fn push_ending(
    room: &mut Room<u8>,
    names: &Names,
    ending: Ending,
    number: u64,
    threads: &[Tid],
) -> Result<(), NoMemory>
    requires names { AreShort names.now }
    requires few { length threads.now ≤ THREADS_MAX }
    ensures { OnOk result (room.new.items ≡ line_text names.now (End ending number threads.now)) }
{
    room.clear();
    room.reserve(33 + 17 * threads.len())?;
    push_end(room, names, ending, number, threads);
    Ok(())
}

/// What is found at an end line.
pub(crate) fn find_end<K: RecordsHistory>(
    alloc: Global,
    kernel: &K,
    names: &Names,
    room: &mut Room<u8>,
    text: &[u8],
) -> Result<Finding, NoMemory>
    ensures { (stage : Stage) → IfOk result (λ found. Finds (found_at_end (reached names.now stage (K.history kernel.now)) text.now) (reached names.now Ended (K.history kernel.now)) found) }
{
    write_end(alloc, kernel, names, room)?;
    compare(alloc, text, room.slice())
}
