//! The acts that tell of a door and of a client, and that change a door's parameters. What changes something has the condition
//! that it is not refused.
ghost use Rattle.std.specs.Prelude.{◌≡◌, None};
ghost use Rattle.spec_records.specs.Words.{first_refusal};
ghost use Rattle.spec_kernel.specs.Words.{Subject, credentials, credentials_tests, door_tests, information, information_of, parameter, set_parameter, set_parameter_tests};
ghost use Rattle.kernel_core.specs.Entries.{entry_about};
ghost use Rattle.kernel_store.specs.Words.{KeepsPools, stored_state};

use crate::descriptors::door_named;
use dk_base::answer::Answer;
use dk_base::error::Errno;
use dk_base::number::{Fd, Pid, Tid};
use dk_base::object::Obj;
use dk_base::request::{Param, Request};
use kernel_store::store::Store;

/// EBADF for a descriptor that names no door.
pub fn door_refusal(store: &Store, p: Pid, fd: Fd) -> Option<Errno>
    ensures { result ≡ first_refusal (door_tests (stored_state store.now) p.0 fd) }
{
    match store.object_at(p, fd) {
        Some(Obj::Door(_)) => None,
        _ => Some(Errno::EBADF),
    }
}

/// What a process is told of a door.
pub fn information_of(store: &Store, p: Pid, door: u32) -> Answer
    ensures { result ≡ (information_of (stored_state store.now) p.0 door).answer }
{
    Answer::Info(store.doors().info(door, p, store.references(door)))
}

/// door_info(3C): what the process is told of the door.
pub fn information(store: &Store, p: Pid, fd: Fd) -> Answer
    ensures { result ≡ (information (stored_state store.now) p.0 fd).answer }
{
    information_of(store, p, door_named(store, p, fd))
}

/// door_getparam(3C): the value of a parameter.
pub fn parameter(store: &Store, p: Pid, fd: Fd, param: Param) -> Answer
    ensures { result ≡ (parameter (stored_state store.now) p.0 fd param).answer }
{
    Answer::Param {
        value: store.doors().getparam(door_named(store, p, fd), param),
    }
}

/// door_setparam(3C): EBADF, EPERM, ENOTSUP, EINVAL.
pub fn set_parameter_refusal(
    store: &Store,
    p: Pid,
    fd: Fd,
    param: Param,
    value: u64,
) -> Option<Errno>
    ensures { result ≡ first_refusal (set_parameter_tests (stored_state store.now) p.0 fd param value) }
{
    store
        .doors()
        .check_param(door_named(store, p, fd), p, param, value)
}

/// door_setparam(3C): the parameter has this value.
pub fn set_parameter(store: &mut Store, p: Pid, fd: Fd, param: Param, value: u64) -> Answer
    requires { first_refusal (set_parameter_tests (stored_state store.old) p.0 fd param value) ≡ None }
    ensures state { stored_state store.new ≡ (set_parameter (stored_state store.old) p.0 fd param value).state }
    ensures answer { result ≡ (set_parameter (stored_state store.old) p.0 fd param value).answer }
    ensures keeps { KeepsPools store.old store.new }
{
    let door = door_named(store, p, fd);
    store.set_param(door, p, param, value);
    Answer::Done
}

/// door_cred(3C): EINVAL without a client.
pub fn credentials_refusal(store: &Store, t: Tid) -> Option<Errno>
    ensures { result ≡ first_refusal (credentials_tests (stored_state store.now) t.0) }
{
    if store.calls().client(t).is_none() {
        return Some(Errno::EINVAL);
    }
    None
}

/// door_cred(3C): the process of the client.
pub fn credentials(store: &Store, t: Tid) -> Answer
    ensures { result ≡ (credentials (stored_state store.now) t.0).answer }
{
    let process = match store.calls().client(t) {
        Some(call) => store.processes().process_of(call.caller),
        None => Pid(0),
    };
    Answer::Client { process }
}

/// An entry that tells of a door or a client, or changes a door's parameters.
pub fn enter(store: &mut Store, t: Tid, p: Pid, request: Request) -> Answer
    ensures state { stored_state store.new ≡ (entry_about Subject.information (stored_state store.old) t.0 p.0 request).state }
    ensures answer { result ≡ (entry_about Subject.information (stored_state store.old) t.0 p.0 request).answer }
    ensures keeps { KeepsPools store.old store.new }
{
    match request {
        Request::Info { fd } => match door_refusal(store, p, fd) {
            Some(error) => Answer::Failure(error),
            None => information(store, p, fd),
        },
        Request::GetParam { fd, param } => match door_refusal(store, p, fd) {
            Some(error) => Answer::Failure(error),
            None => parameter(store, p, fd, param),
        },
        Request::SetParam { fd, param, value } => {
            match set_parameter_refusal(store, p, fd, param, value) {
                Some(error) => Answer::Failure(error),
                None => set_parameter(store, p, fd, param, value),
            }
        }
        Request::Cred => match credentials_refusal(store, t) {
            Some(error) => Answer::Failure(error),
            None => credentials(store, t),
        },
        _ => Answer::Done,
    }
}
