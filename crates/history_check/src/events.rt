//! What is found at the line of an event.

ghost use Rattle.std.specs.Prelude.{◌≡◌, ℕ, List, IfOk, bytes_eq};
ghost use Rattle.history_text.specs.declared.line.Asked.TheVariants.{Enter, GoOn};
ghost use Rattle.history_text.specs.declared.line.Line.TheVariants.{Event};
ghost use Rattle.history_text.specs.declared.place.Stage.{Stage};
ghost use Rattle.history_text.specs.declared.place.Stage.TheVariants.{Body};
ghost use Rattle.dk_base.specs.declared.event.What.{What};
ghost use Rattle.history_text.specs.Words.{with_line};
ghost use Rattle.history_check.specs.Findings.{Finds, finding_of, reached};
ghost use Rattle.history_check.specs.Judging.{found_at_event, wanted_of_waiting};

use crate::finding::Finding;
use crate::turns::{enter, go_on, may_enter, may_go_on, mention_wait_end};
use dk_base::error::NoMemory;
use dk_base::list::{Bytes, Room};
use dk_base::number::Tid;
use dk_base::request::Request;
use history_text::line::Asked;
use history_text::names::Names;
use spec_histories::recorded::RecordsHistory;
use std::alloc::Global;

fn is_same_line(have: &[u8], want: &[u8]) -> bool
    ensures { result ≡ bytes_eq have.now want.now }
{
    have == want
}

/// Another line is wanted.
fn illegal(alloc: Global, want: &[u8]) -> Result<Finding, NoMemory>
    ensures { IfOk result (λ found. found ≡ Finding.Illegal want.now) }
{
    Ok(Finding::Illegal {
        want: Bytes::from_slice(alloc, want)?,
    })
}

/// The text goes on where the line is the wanted one.
pub(crate) fn compare(alloc: Global, have: &[u8], want: &[u8]) -> Result<Finding, NoMemory>
    ensures { IfOk result (λ found. found ≡ finding_of (bytes_eq have.now want.now) want.now) }
{
    if is_same_line(have, want) {
        Ok(Finding::GoesOn)
    } else {
        illegal(alloc, want)
    }
}

/// What is wanted where a thread does not enter: the end of its wait, or the word `turn`.
fn find_waiting<K: RecordsHistory>(
    alloc: Global,
    kernel: &mut K,
    names: &Names,
    room: &mut Room<u8>,
    thread: Tid,
) -> Result<Finding, NoMemory>
    ensures { (stage : Stage) → IfOk result (λ found. found ≡ Finding.Illegal (wanted_of_waiting (reached names.now stage (K.history kernel.old)) thread)) }
{
    if !may_go_on(kernel, thread) {
        return illegal(alloc, b"turn");
    }
    go_on(kernel, names, room, thread)?;
    illegal(alloc, room.slice())
}

/// What is found where the line tells of a request.
fn find_request<K: RecordsHistory>(
    alloc: Global,
    kernel: &mut K,
    names: &mut Names,
    room: &mut Room<u8>,
    text: &[u8],
    thread: Tid,
    root: Tid,
    request: Request,
) -> Result<Finding, NoMemory>
    ensures { (stage : Stage) (number : ℕ) (answer : List ℕ) → IfOk result (λ found. Finds (found_at_event (reached names.old stage (K.history kernel.old)) text.now (with_line names.old (Event number thread root (Enter request) answer)) thread (Enter request)) (reached names.new Body (K.history kernel.new)) found) }
{
    if may_enter(kernel, thread, &request) {
        enter(kernel, names, room, thread, root, request)?;
        compare(alloc, text, room.slice())
    } else {
        drop(request);
        find_waiting(alloc, kernel, names, room, thread)
    }
}

/// What is found where the line tells of the end of a wait. Its word is compared with the rest of the line.
fn find_wait_end<K: RecordsHistory>(
    alloc: Global,
    kernel: &mut K,
    names: &mut Names,
    room: &mut Room<u8>,
    text: &[u8],
    thread: Tid,
    root: Tid,
) -> Result<Finding, NoMemory>
    ensures { (stage : Stage) (number : ℕ) (what : What) (answer : List ℕ) → IfOk result (λ found. Finds (found_at_event (reached names.old stage (K.history kernel.old)) text.now (with_line names.old (Event number thread root (GoOn what) answer)) thread (GoOn what)) (reached names.new Body (K.history kernel.new)) found) }
{
    if may_go_on(kernel, thread) {
        go_on(kernel, names, room, thread)?;
        mention_wait_end(names, thread, root);
        compare(alloc, text, room.slice())
    } else {
        illegal(alloc, b"turn")
    }
}

/// What is found at an event. Where the text goes on the kernel took the turn, and the names are those after the line.
pub(crate) fn find_event<K: RecordsHistory>(
    alloc: Global,
    kernel: &mut K,
    names: &mut Names,
    room: &mut Room<u8>,
    text: &[u8],
    thread: Tid,
    root: Tid,
    asked: Asked,
) -> Result<Finding, NoMemory>
    ensures { (stage : Stage) (number : ℕ) (answer : List ℕ) → IfOk result (λ found. Finds (found_at_event (reached names.old stage (K.history kernel.old)) text.now (with_line names.old (Event number thread root asked answer)) thread asked) (reached names.new Body (K.history kernel.new)) found) }
{
    match asked {
        Asked::Enter(request) => find_request(
            alloc, kernel, names, room, text, thread, root, request,
        ),
        Asked::GoOn(_what) => find_wait_end(alloc, kernel, names, room, text, thread, root),
    }
}
