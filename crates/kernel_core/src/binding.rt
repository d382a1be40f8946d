//! The acts of bindings.
ghost use Rattle.std.specs.Prelude.{◌≡◌, None, true};
ghost use Rattle.spec_records.specs.Words.{first_refusal};
ghost use Rattle.spec_kernel.specs.Words.{Subject, bind, binding_tests, bound_tests, information_of_bound, is_running, queried_tests, unbind};
ghost use Rattle.kernel_core.specs.Entries.{entry_about};
ghost use Rattle.kernel_store.specs.Words.{FillsNoPool, stored_state};

use crate::descriptors::door_named;
use crate::information::information_of;
use dk_base::answer::Answer;
use dk_base::error::Errno;
use dk_base::number::{Fd, Pid, Tid};
use dk_base::request::Request;
use kernel_store::store::Store;
use spec_records::pool::LOST_DOOR;

/// door_bind(3C): EBADF for no door or an invalid one, EINVAL for one that is not private or is another process's.
pub fn bind_refusal(store: &Store, p: Pid, fd: Fd) -> Option<Errno>
    ensures { result ≡ first_refusal (binding_tests (stored_state store.now) p.0 fd) }
{
    store.doors().check_bind(door_named(store, p, fd), p)
}

/// door_bind(3C): the thread, which runs, is bound to the door, in place of one that it was bound to.
pub fn bind(store: &mut Store, t: Tid, p: Pid, fd: Fd) -> Answer
    requires { is_running (stored_state store.old) t.0 ≡ true }
    ensures state { stored_state store.new ≡ (bind (stored_state store.old) t.0 p.0 fd).state }
    ensures answer { result ≡ (bind (stored_state store.old) t.0 p.0 fd).answer }
    ensures keeps { FillsNoPool store.old store.new }
{
    let door = door_named(store, p, fd);
    store.bind(t, door);
    Answer::Done
}

/// EBADF for a thread that is bound to no door.
pub fn bound_refusal(store: &Store, t: Tid) -> Option<Errno>
    ensures { result ≡ first_refusal (bound_tests (stored_state store.now) t.0) }
{
    if store.bound_door(t).is_none() {
        return Some(Errno::EBADF);
    }
    None
}

/// door_unbind(3C): the thread, which runs, is bound to no door.
pub fn unbind(store: &mut Store, t: Tid) -> Answer
    requires running { is_running (stored_state store.old) t.0 ≡ true }
    requires allowed { first_refusal (bound_tests (stored_state store.old) t.0) ≡ None }
    ensures state { stored_state store.new ≡ (unbind (stored_state store.old) t.0).state }
    ensures answer { result ≡ (unbind (stored_state store.old) t.0).answer }
    ensures keeps { FillsNoPool store.old store.new }
{
    store.unbind(t);
    Answer::Done
}

/// EBADF for a thread that is bound to no door, or to the one that is lost.
pub fn query_refusal(store: &Store, t: Tid) -> Option<Errno>
    ensures { result ≡ first_refusal (queried_tests (stored_state store.now) t.0) }
{
    match store.bound_door(t) {
        Some(door) if door != LOST_DOOR => None,
        _ => Some(Errno::EBADF),
    }
}

/// door_info(3C) of DOOR_QUERY: what the process is told of the door that the thread is bound to.
pub fn information_of_bound(store: &Store, t: Tid, p: Pid) -> Answer
    ensures { result ≡ (information_of_bound (stored_state store.now) t.0 p.0).answer }
{
    information_of(store, p, store.bound_door(t).unwrap_or(0))
}

/// An entry about bindings, by a thread that runs.
pub fn enter(store: &mut Store, t: Tid, p: Pid, request: Request) -> Answer
    requires { is_running (stored_state store.old) t.0 ≡ true }
    ensures state { stored_state store.new ≡ (entry_about Subject.bindings (stored_state store.old) t.0 p.0 request).state }
    ensures answer { result ≡ (entry_about Subject.bindings (stored_state store.old) t.0 p.0 request).answer }
    ensures keeps { FillsNoPool store.old store.new }
{
    match request {
        Request::Bind { fd } => match bind_refusal(store, p, fd) {
            Some(error) => Answer::Failure(error),
            None => bind(store, t, p, fd),
        },
        Request::Unbind => match bound_refusal(store, t) {
            Some(error) => Answer::Failure(error),
            None => unbind(store, t),
        },
        Request::InfoQuery => match query_refusal(store, t) {
            Some(error) => Answer::Failure(error),
            None => information_of_bound(store, t, p),
        },
        _ => Answer::Done,
    }
}
