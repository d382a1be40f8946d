//! Which turns may be taken, and their lines.

ghost use Rattle.std.specs.Prelude.{◌≡◌, ◌≤◌, ◌++◌, ℕ, List, None, OnOk, Some, true};
ghost use Rattle.dk_base.specs.declared.event.What.{What};
ghost use Rattle.spec_kernel.specs.Words.{MayEnter, MayGoOn, now, root, what_of};
ghost use Rattle.spec_requests.specs.Words.{answer_text};
ghost use Rattle.spec_histories.specs.Histories.{end, grown, next};
ghost use Rattle.history_text.specs.declared.line.Line.TheVariants.{Event};
ghost use Rattle.history_text.specs.declared.line.Asked.TheVariants.{Enter, GoOn};
ghost use Rattle.history_text.specs.LeftText.{left_text};
ghost use Rattle.history_text.specs.Lookups.{procedure_word};
ghost use Rattle.history_text.specs.RequestRoom.{request_room};
ghost use Rattle.history_text.specs.Words.{entry_text, with_line};
ghost use Rattle.history_check.specs.Turns.{may_enter as may_enter_with, may_go_on as may_wait_end};

use dk_base::answer::Answer;
use dk_base::error::NoMemory;
use dk_base::limits::EVENTS_MAX;
use dk_base::list::Room;
use dk_base::number::Tid;
use dk_base::request::Request;
use history_text::names::Names;
use history_text::write_event::{
    LEFT_MAX, REQUEST_MAX, entry_in_parts, push_left, push_left_of_wait,
};
use spec_histories::recorded::RecordsHistory;
use trace_text::answer::{push_answer, reserve_answer};

/// A running thread may enter with this request.
#[tactic(auto, using(crate::proofs::Fitness::fit_test))]
pub(crate) fn may_enter<K: RecordsHistory>(kernel: &K, thread: Tid, request: &Request) -> bool
    ensures value { result ≡ may_enter_with (end (K.history kernel.now)) thread.0 request.now }
    ensures may { result ≡ true → MayEnter (end (K.history kernel.now)) thread.0 request.now }
{
    kernel.is_running(thread) && kernel.fits(thread, request) && kernel.events() < EVENTS_MAX
}

/// The wait of a thread may end.
pub(crate) fn may_go_on<K: RecordsHistory>(kernel: &K, thread: Tid) -> bool
    ensures value { result ≡ may_wait_end (end (K.history kernel.now)) thread.0 }
    ensures may { result ≡ true → MayGoOn (end (K.history kernel.now)) thread.0 }
{
    kernel.runnable(thread) && !kernel.is_running(thread) && kernel.events() < EVENTS_MAX
}

/// Adds the answer of a turn to its line.
fn add_answer(room: &mut Room<u8>, names: &Names, answer: &Answer) -> Result<(), NoMemory>
    ensures { OnOk result (room.new.items ≡ room.old.items ++ answer_text (procedure_word names.now) answer.now) }
{
    reserve_answer(room, names, answer)?;
    push_answer(room, names, answer);
    Ok(())
}

/// Leaves in `room` what stands before the answer of a request.
fn begin_request<K: RecordsHistory>(
    kernel: &K,
    names: &Names,
    room: &mut Room<u8>,
    thread: Tid,
    request: &Request,
) -> Result<(), NoMemory>
    requires { request_room request.now ≤ REQUEST_MAX }
    ensures { OnOk result (room.new.items ≡ left_text names.now (now (end (K.history kernel.now))) thread (record { 0 = root (end (K.history kernel.now)) thread.0 }) (Enter request.now)) }
{
    room.clear();
    room.reserve(LEFT_MAX)?;
    names.short();
    push_left(
        room,
        names,
        kernel.events() + 1,
        thread,
        kernel.root(thread),
        request,
    );
    Ok(())
}

/// The same of the end of a wait.
fn begin_wait_end<K: RecordsHistory>(
    kernel: &K,
    names: &Names,
    room: &mut Room<u8>,
    thread: Tid,
) -> Result<(), NoMemory>
    ensures { OnOk result (room.new.items ≡ left_text names.now (now (end (K.history kernel.now))) thread (record { 0 = root (end (K.history kernel.now)) thread.0 }) (GoOn (what_of (end (K.history kernel.now)) thread.0 None))) }
{
    room.clear();
    room.reserve(LEFT_MAX)?;
    names.short();
    push_left_of_wait(
        room,
        names,
        kernel.events() + 1,
        thread,
        kernel.root(thread),
        kernel.what_of_wait(thread),
    );
    Ok(())
}

/// The names after the line of a request.
fn mention_request(names: &mut Names, thread: Tid, root: Tid, request: &Request)
    ensures { (number : ℕ) (answer : List ℕ) → names.new ≡ with_line names.old (Event number thread root (Enter request.now) answer) }
{
    let process = names.process_of(thread);
    let root_process = names.process_of(root);
    names.mention(process);
    names.mention(root_process);
    let mentioned = names.mentioned_by(request);
    names.mention(mentioned);
}

/// The names after the line of the end of a wait.
pub(crate) fn mention_wait_end(names: &mut Names, thread: Tid, root: Tid)
    ensures { (number : ℕ) (what : What) (answer : List ℕ) → names.new ≡ with_line names.old (Event number thread root (GoOn what) answer) }
{
    let process = names.process_of(thread);
    let root_process = names.process_of(root);
    names.mention(process);
    names.mention(root_process);
}

/// A thread enters with a request. The line of that turn is left in `room`, and the names are those after it. A request that was read
/// can be written; that it can is tested again, since what its room is follows from the test.
pub(crate) fn enter<K: RecordsHistory>(
    kernel: &mut K,
    names: &mut Names,
    room: &mut Room<u8>,
    thread: Tid,
    root: Tid,
    request: Request,
) -> Result<(), NoMemory>
    requires { MayEnter (end (K.history kernel.old)) thread.0 request }
    ensures text { OnOk result (room.new.items ≡ entry_text names.old (next (K.history kernel.old) thread.0 (Some request))) }
    ensures history { OnOk result (K.history kernel.new ≡ grown (K.history kernel.old) (next (K.history kernel.old) thread.0 (Some request))) }
    ensures names { OnOk result ((number : ℕ) (answer : List ℕ) → names.new ≡ with_line names.old (Event number thread root (Enter request) answer)) }
{
    if !names.may_write(thread, &request) {
        drop(request);
        return Err(NoMemory);
    }
    entry_in_parts();
    begin_request(kernel, names, room, thread, &request)?;
    mention_request(names, thread, root, &request);
    let answer = kernel.enter(thread, request)?;
    add_answer(room, names, &answer)
}

/// The wait of a thread ends. The line of that turn is left in `room`.
pub(crate) fn go_on<K: RecordsHistory>(
    kernel: &mut K,
    names: &Names,
    room: &mut Room<u8>,
    thread: Tid,
) -> Result<(), NoMemory>
    requires { MayGoOn (end (K.history kernel.old)) thread.0 }
    ensures text { OnOk result (room.new.items ≡ entry_text names.now (next (K.history kernel.old) thread.0 None)) }
    ensures history { OnOk result (K.history kernel.new ≡ grown (K.history kernel.old) (next (K.history kernel.old) thread.0 None)) }
{
    entry_in_parts();
    begin_wait_end(kernel, names, room, thread)?;
    let answer = kernel.go_on(thread)?;
    add_answer(room, names, &answer)
}
