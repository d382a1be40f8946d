//! The acts of descriptors and names. What needs a free or an open descriptor, or a free path, has the condition that it is
//! not refused.
ghost use Rattle.std.specs.Prelude.{◌≡◌, ◌∷◌, [], None, false, is_none, true};
ghost use Rattle.spec_records.specs.Words.{first_refusal, lowest_free};
ghost use Rattle.spec_kernel.specs.Words.{Subject, attach, attach_tests, await, close, close_tests, detach, detach_tests, door_named, dup, dup_tests, end_await, insert_object, is_running, object_at, open_path, open_tests, state_of, table_of};
ghost use Rattle.kernel_core.specs.Entries.{entry_about};
ghost use Rattle.kernel_store.specs.Words.{CanHold, HasRoomForReferences, HasRoomToAttach, IsActive, KeepsPools, stored_state};

use dk_base::answer::Answer;
use dk_base::error::Errno;
use dk_base::number::{Fd, PathId, Pid, Tid};
use dk_base::object::Obj;
use dk_base::request::Request;
use kernel_store::store::Store;
use spec_records::record::ThreadState;

/// The number of the door that a descriptor names, 0 for none.
pub fn door_named(store: &Store, p: Pid, fd: Fd) -> u32
    ensures { result ≡ door_named (object_at (stored_state store.now) p.0 fd) }
{
    match store.object_at(p, fd) {
        Some(Obj::Door(door)) => door,
        _ => 0,
    }
}

/// An object gets the lowest descriptor that is free, of which there is one.
pub fn add_row(store: &mut Store, p: Pid, object: Obj) -> Answer
    requires free { is_none (lowest_free (table_of (stored_state store.old) p.0)) ≡ false }
    requires can_hold { CanHold store.old (object ∷ []) }
    ensures state { stored_state store.new ≡ (insert_object (stored_state store.old) p.0 object).state }
    ensures answer { result ≡ (insert_object (stored_state store.old) p.0 object).answer }
    ensures keeps { KeepsPools store.old store.new }
{
    let fd = store.insert(p, object);
    Answer::NewFd { fd }
}

/// close(2): EBADF.
pub fn close_refusal(store: &Store, p: Pid, fd: Fd) -> Option<Errno>
    ensures { result ≡ first_refusal (close_tests (stored_state store.now) p.0 fd) }
{
    if store.object_at(p, fd).is_none() {
        return Some(Errno::EBADF);
    }
    None
}

/// close(2): the descriptor is free again.
pub fn close(store: &mut Store, p: Pid, fd: Fd) -> Answer
    requires references { HasRoomForReferences store.old }
    requires allowed { first_refusal (close_tests (stored_state store.old) p.0 fd) ≡ None }
    ensures state { stored_state store.new ≡ (close (stored_state store.old) p.0 fd).state }
    ensures answer { result ≡ (close (stored_state store.old) p.0 fd).answer }
    ensures keeps { KeepsPools store.old store.new }
{
    store.close(p, fd);
    Answer::Done
}

/// dup(2): EBADF, EMFILE.
pub fn dup_refusal(store: &Store, p: Pid, fd: Fd) -> Option<Errno>
    ensures { result ≡ first_refusal (dup_tests (stored_state store.now) p.0 fd) }
{
    if store.object_at(p, fd).is_none() {
        return Some(Errno::EBADF);
    }
    if store.is_full(p) {
        return Some(Errno::EMFILE);
    }
    None
}

/// dup(2): the same object at the lowest descriptor that is free.
pub fn dup(store: &mut Store, p: Pid, fd: Fd) -> Answer
    requires allowed { first_refusal (dup_tests (stored_state store.old) p.0 fd) ≡ None }
    requires references { HasRoomForReferences store.old }
    ensures state { stored_state store.new ≡ (dup (stored_state store.old) p.0 fd).state }
    ensures answer { result ≡ (dup (stored_state store.old) p.0 fd).answer }
    ensures keeps { KeepsPools store.old store.new }
{
    match store.object_at(p, fd) {
        Some(object) => add_row(store, p, object),
        None => Answer::Done,
    }
}

/// fattach(3C): EBADF, EINVAL for what is no door, or EBUSY.
pub fn attach_refusal(store: &Store, p: Pid, fd: Fd, path: PathId) -> Option<Errno>
    ensures { result ≡ first_refusal (attach_tests (stored_state store.now) p.0 fd path) }
{
    match store.object_at(p, fd) {
        None => Some(Errno::EBADF),
        Some(Obj::Door(_)) if store.has_name(path) => Some(Errno::EBUSY),
        Some(Obj::Door(_)) => None,
        Some(_) => Some(Errno::EINVAL),
    }
}

/// fattach(3C): the door is attached to the path.
pub fn attach(store: &mut Store, p: Pid, fd: Fd, path: PathId) -> Answer
    requires room { HasRoomToAttach store.old }
    requires allowed { first_refusal (attach_tests (stored_state store.old) p.0 fd path) ≡ None }
    ensures state { stored_state store.new ≡ (attach (stored_state store.old) p.0 fd path).state }
    ensures answer { result ≡ (attach (stored_state store.old) p.0 fd path).answer }
    ensures keeps { KeepsPools store.old store.new }
{
    if let Some(Obj::Door(door)) = store.object_at(p, fd) {
        store.attach(path, door);
    }
    Answer::Done
}

/// fdetach(3C): EINVAL for a path without a door.
pub fn detach_refusal(store: &Store, path: PathId) -> Option<Errno>
    ensures { result ≡ first_refusal (detach_tests (stored_state store.now) path) }
{
    if !store.has_name(path) {
        return Some(Errno::EINVAL);
    }
    None
}

/// fdetach(3C): the path has no door any more.
pub fn detach(store: &mut Store, path: PathId) -> Answer
    requires { HasRoomForReferences store.old }
    ensures state { stored_state store.new ≡ (detach (stored_state store.old) path).state }
    ensures answer { result ≡ (detach (stored_state store.old) path).answer }
    ensures keeps { KeepsPools store.old store.new }
{
    store.detach(path);
    Answer::Done
}

/// open(2) of a path with a door: ENOENT, EMFILE.
pub fn open_refusal(store: &Store, p: Pid, path: PathId) -> Option<Errno>
    ensures { result ≡ first_refusal (open_tests (stored_state store.now) p.0 path) }
{
    if !store.has_name(path) {
        return Some(Errno::ENOENT);
    }
    if store.is_full(p) {
        return Some(Errno::EMFILE);
    }
    None
}

/// open(2) of a path with a door: the door at the lowest descriptor that is free.
pub fn open_path(store: &mut Store, p: Pid, path: PathId) -> Answer
    requires allowed { first_refusal (open_tests (stored_state store.old) p.0 path) ≡ None }
    requires references { HasRoomForReferences store.old }
    ensures state { stored_state store.new ≡ (open_path (stored_state store.old) p.0 path).state }
    ensures answer { result ≡ (open_path (stored_state store.old) p.0 path).answer }
    ensures keeps { KeepsPools store.old store.new }
{
    let door = store.door_attached(path);
    add_row(store, p, Obj::Door(door))
}

/// Done where a door is attached to the path, else the thread, which runs, waits until one is.
#[tactic(auto, using(crate::proofs::Idle::running_active))]
pub fn await_path(store: &mut Store, t: Tid, path: PathId) -> Answer
    requires { is_running (stored_state store.old) t.0 ≡ true }
    ensures state { stored_state store.new ≡ (await (stored_state store.old) t.0 path).state }
    ensures answer { result ≡ (await (stored_state store.old) t.0 path).answer }
    ensures keeps { KeepsPools store.old store.new }
{
    if store.has_name(path) {
        return Answer::Done;
    }
    store.turn(t, ThreadState::Awaiting { path });
    Answer::Wait
}

/// The end of the wait for a path.
pub fn found(store: &mut Store, t: Tid) -> Answer
    requires active { IsActive (state_of (stored_state store.old) t.0) }
    ensures state { stored_state store.new ≡ (end_await (stored_state store.old) t.0).state }
    ensures answer { result ≡ (end_await (stored_state store.old) t.0).answer }
    ensures keeps { KeepsPools store.old store.new }
{
    store.turn(t, ThreadState::Running);
    Answer::Done
}

/// An entry about descriptors or names, by a thread that runs.
pub fn enter(store: &mut Store, t: Tid, p: Pid, request: Request) -> Answer
    requires room { HasRoomToAttach store.old }
    requires running { is_running (stored_state store.old) t.0 ≡ true }
    ensures state { stored_state store.new ≡ (entry_about Subject.descriptors (stored_state store.old) t.0 p.0 request).state }
    ensures answer { result ≡ (entry_about Subject.descriptors (stored_state store.old) t.0 p.0 request).answer }
    ensures keeps { KeepsPools store.old store.new }
{
    match request {
        Request::Close { fd } => match close_refusal(store, p, fd) {
            Some(error) => Answer::Failure(error),
            None => close(store, p, fd),
        },
        Request::Dup { fd } => match dup_refusal(store, p, fd) {
            Some(error) => Answer::Failure(error),
            None => dup(store, p, fd),
        },
        Request::Attach { fd, path } => match attach_refusal(store, p, fd, path) {
            Some(error) => Answer::Failure(error),
            None => attach(store, p, fd, path),
        },
        Request::Detach { path } => match detach_refusal(store, path) {
            Some(error) => Answer::Failure(error),
            None => detach(store, path),
        },
        Request::Open { path } => match open_refusal(store, p, path) {
            Some(error) => Answer::Failure(error),
            None => open_path(store, p, path),
        },
        Request::Await { path } => await_path(store, t, path),
        _ => Answer::Done,
    }
}
