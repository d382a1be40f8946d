//! The acts of associations. The memory that one needs is taken before its first change.
ghost use Rattle.std.specs.Prelude.{◌≡◌, ◌<◌, ◌≤◌, IfOk, OnErr, OnOk, length};
ghost use Rattle.dk_base.specs.declared.limits.TheConstants.{EVENTS_MAX};
ghost use Rattle.spec_records.specs.Words.{first_refusal};
ghost use Rattle.spec_kernel.specs.Words.{Subject, associate, associating_tests, dissociate, dissociating_tests, key_at, port_at, watched, object_at};
ghost use Rattle.kernel_core.specs.Entries.{entry_about};
ghost use Rattle.kernel_core.specs.Numbers.{HasNumbersLeft};
ghost use Rattle.kernel_store.specs.Words.{KeepsPools, stored_state};

use crate::ports::{named_port, port_at};
use dk_base::answer::Answer;
use dk_base::error::{Errno, NoMemory};
use dk_base::number::{Fd, Pid, Tid};
use dk_base::object::Obj;
use dk_base::request::Request;
use dk_base::set::PollSet;
use kernel_store::store::Store;
use spec_records::association::AssocKey;
use std::alloc::Global;

/// A port and a descriptor of a process.
fn key_at(store: &Store, p: Pid, port: Fd, object: Fd) -> AssocKey
    ensures { result ≡ key_at (stored_state store.now) p.0 port object }
{
    AssocKey {
        port: port_at(store, p, port),
        process: p,
        fd: object,
    }
}

/// What a descriptor names: where it is not open, no door.
fn watched(store: &Store, p: Pid, fd: Fd) -> Obj
    ensures { result ≡ watched (object_at (stored_state store.now) p.0 fd) }
{
    store.object_at(p, fd).unwrap_or(Obj::Door(0))
}

/// port_associate(3C): EBADF where the port's descriptor is not open, EBADFD where it names no port, or where the object's is not open.
fn associating_refusal(store: &Store, p: Pid, port: Fd, object: Fd) -> Option<Errno>
    ensures { result ≡ first_refusal (associating_tests (stored_state store.now) p.0 port object) }
{
    match named_port(store, p, port) {
        Ok(_) => match store.object_at(p, object) {
            Some(_) => None,
            None => Some(Errno::EBADFD),
        },
        Err(error) => Some(error),
    }
}

/// port_associate(3C): an association, armed, in place of one of the same port and descriptor.
fn associate(
    store: &mut Store,
    alloc: Global,
    p: Pid,
    port: Fd,
    object: Fd,
    events: PollSet,
    user: u64,
) -> Result<Answer, NoMemory>
    requires made { port_at (stored_state store.old) p.0 port ≤ length (stored_state store.old).channels.ports }
    requires few { (stored_state store.old).channels.associations.made < EVENTS_MAX }
    ensures state { OnOk result (stored_state store.new ≡ (associate (stored_state store.old) p.0 port object events user).state) }
    ensures answer { IfOk result (λ answer. answer ≡ (associate (stored_state store.old) p.0 port object events user).answer) }
    ensures as_before { OnErr result (stored_state store.new ≡ stored_state store.old) }
    ensures keeps { KeepsPools store.old store.new }
{
    let key = key_at(store, p, port, object);
    let watched = watched(store, p, object);
    store.reserve_association(key.port, watched, alloc)?;
    store.associate(key, watched, events, user);
    Ok(Answer::Done)
}

/// port_dissociate(3C): EBADF where the port's descriptor is not open, EBADFD where it names no port, or where the object's is not open,
/// ENOENT where there is no such association.
fn dissociating_refusal(store: &Store, p: Pid, port: Fd, object: Fd) -> Option<Errno>
    ensures { result ≡ first_refusal (dissociating_tests (stored_state store.now) p.0 port object) }
{
    if let Some(error) = associating_refusal(store, p, port, object) {
        return Some(error);
    }
    match store.number_at(key_at(store, p, port, object)) {
        Some(_) => None,
        None => Some(Errno::ENOENT),
    }
}

/// port_dissociate(3C): the association ends.
fn dissociate(store: &mut Store, p: Pid, port: Fd, object: Fd) -> Answer
    ensures state { stored_state store.new ≡ (dissociate (stored_state store.old) p.0 port object).state }
    ensures answer { result ≡ (dissociate (stored_state store.old) p.0 port object).answer }
    ensures keeps { KeepsPools store.old store.new }
{
    let key = key_at(store, p, port, object);
    store.dissociate(key);
    Answer::Done
}

/// An entry about associations. Want of memory leaves all as it was.
pub fn enter(
    store: &mut Store,
    alloc: Global,
    t: Tid,
    p: Pid,
    request: Request,
) -> Result<Answer, NoMemory>
    requires { HasNumbersLeft (stored_state store.old) }
    ensures state { OnOk result (stored_state store.new ≡ (entry_about Subject.associations (stored_state store.old) t.0 p.0 request).state) }
    ensures answer { IfOk result (λ answer. answer ≡ (entry_about Subject.associations (stored_state store.old) t.0 p.0 request).answer) }
    ensures as_before { OnErr result (stored_state store.new ≡ stored_state store.old) }
    ensures keeps { KeepsPools store.old store.new }
{
    match request {
        Request::Associate {
            port,
            object,
            events,
            user,
        } => match associating_refusal(store, p, port, object) {
            Some(error) => Ok(Answer::Failure(error)),
            None => associate(store, alloc, p, port, object, events, user),
        },
        Request::Dissociate { port, object } => match dissociating_refusal(store, p, port, object) {
            Some(error) => Ok(Answer::Failure(error)),
            None => Ok(dissociate(store, p, port, object)),
        },
        _ => Ok(Answer::Done),
    }
}
