//! The acts of leaving, and how a server learns that its client has left. What becomes of calls, notices and threads
//! stands in the store. Each act tells which threads park again by it, since their callers left.
ghost use Rattle.std.specs.Prelude.{◌≡◌, None, false, is_some, true, IfOk, OnErr, OnOk};
ghost use Rattle.dk_base.specs.ByNumber.{at_number};
ghost use Rattle.spec_records.specs.Words.{first_refusal};
ghost use Rattle.spec_kernel.specs.Words.{StandsFor, Subject, exit, fork, forking_tests, interrupt, kill, leave_process, process_of, revoke, revoking_tests, state_of, test_cancel, wake};
ghost use Rattle.kernel_core.specs.Kept.{HasNothingPast};
ghost use Rattle.law_states.specs.Events.{is_leaving};
ghost use Rattle.kernel_core.specs.Entries.{entry_about};
ghost use Rattle.kernel_core.specs.Forking.{MayFork};
ghost use Rattle.kernel_store.specs.Words.{CanLeave, FillsNoPool, IsActive, KeepsForNotices, KeepsPools, MayBegin, NothingAfter, ParksAgain, stored_state};

use crate::descriptors::door_named;
use dk_base::answer::Answer;
use dk_base::error::{Errno, NoMemory};
use dk_base::number::{Fd, Pid, Tid};
use dk_base::request::Request;
use dk_base::thread_set::ThreadSet;
use kernel_store::store::Store;
use spec_records::leaving::Leaver;
use spec_records::record::ThreadState;
use std::alloc::Global;

/// A thread is interrupted: its call ends with EINTR, or its wait for the events of a port. Any other thread goes on.
pub fn interrupt(
    store: &mut Store,
    alloc: Global,
    thread: Tid,
    parked: &mut ThreadSet,
) -> Result<Answer, NoMemory>
    requires can_leave { CanLeave store.old }
    ensures state { OnOk result (StandsFor (stored_state store.new) (interrupt (stored_state store.old) thread.0).state) }
    ensures answer { IfOk result (λ answer. answer ≡ (interrupt (stored_state store.old) thread.0).answer) }
    ensures keeps { OnOk result (KeepsForNotices store.old store.new) }
    ensures parked { OnOk result (ParksAgain parked.new store.old store.new) }
    ensures parked_as_before { OnErr result (parked.new ≡ parked.old) }
    ensures as_before { OnErr result (stored_state store.new ≡ stored_state store.old) }
    ensures fills { OnErr result (FillsNoPool store.old store.new) }
{
    *parked = store.leave(alloc, Leaver::Interrupted { thread })?;
    Ok(Answer::Done)
}

/// All threads of a process end, its doors become invalid, and its descriptors are closed.
fn leave_process(
    store: &mut Store,
    alloc: Global,
    p: Pid,
    parked: &mut ThreadSet,
) -> Result<(), NoMemory>
    requires can_leave { CanLeave store.old }
    requires declared { is_some (at_number (stored_state store.old).process_table.processes p.0) ≡ true }
    ensures state { OnOk result (StandsFor (stored_state store.new) (leave_process (stored_state store.old) p.0)) }
    ensures keeps { OnOk result (KeepsForNotices store.old store.new) }
    ensures parked { OnOk result (ParksAgain parked.new store.old store.new) }
    ensures parked_as_before { OnErr result (parked.new ≡ parked.old) }
    ensures as_before { OnErr result (stored_state store.new ≡ stored_state store.old) }
    ensures fills { OnErr result (FillsNoPool store.old store.new) }
{
    *parked = store.leave(alloc, Leaver::EndedProcess { process: p })?;
    store.end_process(p);
    Ok(())
}

/// A thread ends, and its process with it where the thread is its last that is neither done nor dormant.
pub fn exit(
    store: &mut Store,
    alloc: Global,
    t: Tid,
    p: Pid,
    parked: &mut ThreadSet,
) -> Result<Answer, NoMemory>
    requires can_leave { CanLeave store.old }
    requires declared { is_some (at_number (stored_state store.old).process_table.processes p.0) ≡ true }
    ensures state { OnOk result (StandsFor (stored_state store.new) (exit (stored_state store.old) t.0 p.0).state) }
    ensures answer { IfOk result (λ answer. answer ≡ (exit (stored_state store.old) t.0 p.0).answer) }
    ensures keeps { OnOk result (KeepsForNotices store.old store.new) }
    ensures parked { OnOk result (ParksAgain parked.new store.old store.new) }
    ensures parked_as_before { OnErr result (parked.new ≡ parked.old) }
    ensures as_before { OnErr result (stored_state store.new ≡ stored_state store.old) }
    ensures fills { OnErr result (FillsNoPool store.old store.new) }
{
    if store.processes().is_last(t, p) {
        leave_process(store, alloc, p, parked)?;
        return Ok(Answer::Done);
    }
    *parked = store.leave(alloc, Leaver::Ended { thread: t })?;
    Ok(Answer::Done)
}

/// A process ends, whoever asks. One that has ended stays so.
pub fn kill(
    store: &mut Store,
    alloc: Global,
    p: Pid,
    parked: &mut ThreadSet,
) -> Result<Answer, NoMemory>
    requires none_past { HasNothingPast (stored_state store.old) }
    requires can_leave { CanLeave store.old }
    ensures state { OnOk result (StandsFor (stored_state store.new) (kill (stored_state store.old) p.0).state) }
    ensures answer { IfOk result (λ answer. answer ≡ (kill (stored_state store.old) p.0).answer) }
    ensures keeps { OnOk result (KeepsForNotices store.old store.new) }
    ensures parked { OnOk result (ParksAgain parked.new store.old store.new) }
    ensures parked_as_before { OnErr result (parked.new ≡ parked.old) }
    ensures as_before { OnErr result (stored_state store.new ≡ stored_state store.old) }
    ensures fills { OnErr result (FillsNoPool store.old store.new) }
{
    if !store.processes().is_live(p) {
        return Ok(Answer::Done);
    }
    leave_process(store, alloc, p, parked)?;
    Ok(Answer::Done)
}

/// door_revoke(3C): EBADF for no door or an invalid one, EPERM for another process's.
pub fn revoke_refusal(store: &Store, p: Pid, fd: Fd) -> Option<Errno>
    ensures { result ≡ first_refusal (revoking_tests (stored_state store.now) p.0 fd) }
{
    store.doors().check_revoke(door_named(store, p, fd), p)
}

/// door_revoke(3C): the door is invalid, and its descriptor is closed.
pub fn revoke(
    store: &mut Store,
    alloc: Global,
    p: Pid,
    fd: Fd,
    parked: &mut ThreadSet,
) -> Result<Answer, NoMemory>
    requires allowed { first_refusal (revoking_tests (stored_state store.old) p.0 fd) ≡ None }
    requires can_leave { CanLeave store.old }
    ensures state { OnOk result (StandsFor (stored_state store.new) (revoke (stored_state store.old) p.0 fd).state) }
    ensures answer { IfOk result (λ answer. answer ≡ (revoke (stored_state store.old) p.0 fd).answer) }
    ensures keeps { OnOk result (KeepsForNotices store.old store.new) }
    ensures parked { OnOk result (ParksAgain parked.new store.old store.new) }
    ensures parked_as_before { OnErr result (parked.new ≡ parked.old) }
    ensures as_before { OnErr result (stored_state store.new ≡ stored_state store.old) }
    ensures fills { OnErr result (FillsNoPool store.old store.new) }
{
    let door = door_named(store, p, fd);
    *parked = store.leave(alloc, Leaver::Revoked { door })?;
    store.close(p, fd);
    store.revoke(door, p);
    Ok(Answer::Done)
}

/// fork(2): EAGAIN for a child that has begun.
pub fn fork_refusal(store: &Store, child: Pid) -> Option<Errno>
    ensures { result ≡ first_refusal (forking_tests (stored_state store.now) child.0) }
{
    if store.processes().is_unborn(child) {
        None
    } else {
        Some(Errno::EAGAIN)
    }
}

/// fork(2): a child of the thread's process, which has not begun, begins.
pub fn fork(
    store: &mut Store,
    alloc: Global,
    t: Tid,
    p: Pid,
    child: Pid,
    parked: &mut ThreadSet,
) -> Result<Answer, NoMemory>
    requires can_leave { CanLeave store.old }
    requires may { MayBegin p.0 child.0 (stored_state store.old) }
    ensures state { OnOk result (StandsFor (stored_state store.new) (fork (stored_state store.old) t.0 p.0 child.0).state) }
    ensures answer { IfOk result (λ answer. answer ≡ (fork (stored_state store.old) t.0 p.0 child.0).answer) }
    ensures keeps { OnOk result (KeepsForNotices store.old store.new) }
    ensures parked { OnOk result (ParksAgain parked.new store.old store.new) }
    ensures parked_as_before { OnErr result (parked.new ≡ parked.old) }
    ensures as_before { OnErr result (stored_state store.new ≡ stored_state store.old) }
    ensures fills { OnErr result (FillsNoPool store.old store.new) }
{
    *parked = store.fork(alloc, t, p, child)?;
    Ok(Answer::Child { process: child })
}

/// Whether the client of a thread's invocation has left it. A thread without an invocation is told no.
pub fn test_cancel(store: &Store, t: Tid) -> Answer
    ensures { result ≡ (test_cancel (stored_state store.now) t.0).answer }
{
    let yes = match store.processes().invocation(t) {
        Some(invocation) => invocation.cancelled,
        None => false,
    };
    Answer::Cancel { yes }
}

/// A thread whose door became invalid while it was parked goes on, and is told EINVAL.
pub fn wake(store: &mut Store, t: Tid) -> Answer
    requires { IsActive (state_of (stored_state store.old) t.0) }
    ensures state { stored_state store.new ≡ (wake (stored_state store.old) t.0).state }
    ensures answer { result ≡ (wake (stored_state store.old) t.0).answer }
    ensures keeps { KeepsPools store.old store.new }
{
    store.turn(t, ThreadState::Running);
    Answer::Failure(Errno::EINVAL)
}

/// An entry by which callers, threads or doors leave, or which asks whether a client has left. `parked` is told which threads
/// park again.
#[tactic(auto, using(crate::proofs::Live::entry_kept, crate::proofs::Live::live_state))]
pub fn enter(
    store: &mut Store,
    alloc: Global,
    t: Tid,
    p: Pid,
    request: Request,
    parked: &mut ThreadSet,
) -> Result<Answer, NoMemory>
    requires none_past { HasNothingPast (stored_state store.old) }
    requires latest { NothingAfter store.old.events store.old }
    requires can_leave { is_leaving request ≡ true → CanLeave store.old }
    requires declared { is_some (at_number (stored_state store.old).process_table.processes p.0) ≡ true }
    requires own { p.0 ≡ process_of (stored_state store.old) t.0 }
    requires may_fork { MayFork (stored_state store.old) t.0 request }
    ensures state { OnOk result (StandsFor (stored_state store.new) (entry_about Subject.leaving (stored_state store.old) t.0 p.0 request).state) }
    ensures answer { IfOk result (λ answer. answer ≡ (entry_about Subject.leaving (stored_state store.old) t.0 p.0 request).answer) }
    ensures keeps { OnOk result (KeepsForNotices store.old store.new) }
    ensures parked { is_leaving request ≡ true → OnOk result (ParksAgain parked.new store.old store.new) }
    ensures parked_as_before { OnErr result (parked.new ≡ parked.old) }
    ensures stays { is_leaving request ≡ false → store.new ≡ store.old }
    ensures as_before { OnErr result (stored_state store.new ≡ stored_state store.old) }
    ensures fills { OnErr result (FillsNoPool store.old store.new) }
{
    match request {
        Request::Revoke { fd } => match revoke_refusal(store, p, fd) {
            Some(error) => Ok(Answer::Failure(error)),
            None => revoke(store, alloc, p, fd, parked),
        },
        Request::Interrupt { thread } => interrupt(store, alloc, thread, parked),
        Request::Kill { process } => kill(store, alloc, process, parked),
        Request::Exit => exit(store, alloc, t, p, parked),
        Request::Fork { child } => match fork_refusal(store, child) {
            Some(error) => Ok(Answer::Failure(error)),
            None => fork(store, alloc, t, p, child, parked),
        },
        Request::TestCancel => Ok(test_cancel(store, t)),
        _ => Ok(Answer::Done),
    }
}
