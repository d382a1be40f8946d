//! The acts of event ports, and the end of the wait at one. The memory that an act needs is taken before its first change.
ghost use Rattle.std.specs.Prelude.{◌≡◌, ◌++◌, ◌<◌, List, None, Some, false, true, IfErr, IfOk, OnErr, OnOk, length};
ghost use Rattle.dk_base.specs.declared.answer.Answer.TheVariants as answer;
ghost use Rattle.dk_base.specs.declared.limits.TheConstants.{EVENTS_MAX};
ghost use Rattle.dk_base.specs.declared.object.Obj.TheVariants as obj;
ghost use Rattle.spec_records.specs.Words.{Test, events_found, first_refusal, is_ready_for};
ghost use Rattle.spec_kernel.specs.Words.{Subject, after_sending, alert, alerting_tests, create_port, create_port_tests, end_getting, get, get_many, getting_many_tests, getting_tests, is_running, object_at, port, port_at, port_tests, retrieve, send, send_many, sending_error, sending_tests, state_of, tell_queued, wait_for, with_ports};
ghost use Rattle.kernel_core.specs.Entries.{entry_about};
ghost use Rattle.kernel_core.specs.Finding.{CanEndGetting, CanSendEach, HasRoomToFind};
ghost use Rattle.kernel_core.specs.Handed.{events_at_end};
ghost use Rattle.kernel_core.specs.Numbers.{HasNumbersLeft};
ghost use Rattle.kernel_store.specs.Words.{HasRoomForEvents, HasRoomForReferences, IsActive, IsRoomFor, KeepsPools, KeepsRoomForEventsButOne, stored_state};

use crate::acts::Ending;
use dk_base::answer::Answer;
use dk_base::error::{Errno, NoMemory};
use dk_base::list::{ErrList, Room};
use dk_base::number::{Fd, Pid, Tid};
use dk_base::object::{EventRec, Obj};
use dk_base::request::{AlertMode, Request};
use kernel_store::store::Store;
use spec_records::record::ThreadState;
use std::alloc::Global;

/// Room for what a get finds: the events as they are retrieved, and the numbers of the associations that queued them.
#[derive(Drop)]
pub struct Found {
    records: Room<EventRec>,
    numbers: Room<u32>,
}

/// Room for so many events.
pub fn room_to_find(alloc: Global, n: usize) -> Result<Found, NoMemory>
    ensures { IfOk result (HasRoomToFind n) }
{
    Ok(Found {
        records: Room::with_room(alloc, n)?,
        numbers: Room::with_room(alloc, n)?,
    })
}

/// The number of the port that a descriptor names, 0 for none.
pub fn port_at(store: &Store, p: Pid, fd: Fd) -> u32
    ensures { result ≡ port_at (stored_state store.now) p.0 fd }
{
    match store.object_at(p, fd) {
        Some(Obj::Port(port)) => port,
        _ => 0,
    }
}

/// The port that a descriptor names: EBADF where it is not open, EBADFD where it names no port.
pub fn named_port(store: &Store, p: Pid, fd: Fd) -> Result<u32, Errno>
    ensures ok { IfOk result (λ q. object_at (stored_state store.now) p.0 fd ≡ Some (obj.Port q)) }
    ensures err { IfErr result (λ e. (others : List Test) → first_refusal (port_tests (object_at (stored_state store.now) p.0 fd) ++ others) ≡ Some e) }
{
    match store.object_at(p, fd) {
        Some(Obj::Port(port)) => Ok(port),
        Some(_) => Err(Errno::EBADFD),
        None => Err(Errno::EBADF),
    }
}

/// port_create(3C): EMFILE.
fn create_refusal(store: &Store, p: Pid) -> Option<Errno>
    ensures { result ≡ first_refusal (create_port_tests (stored_state store.now) p.0) }
{
    if store.is_full(p) {
        return Some(Errno::EMFILE);
    }
    None
}

/// port_create(3C): another port, at the lowest descriptor that is free.
fn create(store: &mut Store, alloc: Global, p: Pid) -> Result<Answer, NoMemory>
    requires allowed { first_refusal (create_port_tests (stored_state store.old) p.0) ≡ None }
    requires few { length (stored_state store.old).channels.ports < EVENTS_MAX }
    requires references { HasRoomForReferences store.old }
    ensures state { OnOk result (stored_state store.new ≡ (create_port (stored_state store.old) p.0).state) }
    ensures answer { IfOk result (λ answer. answer ≡ (create_port (stored_state store.old) p.0).answer) }
    ensures as_before { OnErr result (stored_state store.new ≡ stored_state store.old) }
    ensures keeps { KeepsPools store.old store.new }
{
    store.reserve_port()?;
    Ok(Answer::NewFd {
        fd: store.make_port(alloc, p),
    })
}

/// What a get of one event finds at a port that has one, or an alert.
fn retrieve_first(store: &mut Store, q: u32) -> Answer
    requires { is_ready_for 1 (port (stored_state store.old) q) ≡ true }
    ensures state { stored_state store.new ≡ (retrieve (stored_state store.old) q 1 true).state }
    ensures answer { result ≡ (retrieve (stored_state store.old) q 1 true).answer }
    ensures keeps { KeepsPools store.old store.new }
{
    Answer::OneEvent(store.take_first(q).rec)
}

/// What a get of at most `max` events finds at a port.
fn retrieve_found(store: &mut Store, q: u32, max: u32, found: Found) -> Answer
    requires { HasRoomToFind (length (events_found max (port (stored_state store.old) q))) found }
    ensures state { stored_state store.new ≡ (retrieve (stored_state store.old) q max false).state }
    ensures answer { result ≡ (retrieve (stored_state store.old) q max false).answer }
    ensures keeps { KeepsPools store.old store.new }
{
    let Found {
        mut records,
        mut numbers,
    } = found;
    store.take_found(q, max, &mut records, &mut numbers);
    Answer::Events(records.into_list())
}

/// A thread, which runs, waits at a port for so many events, of which it takes at most `max`.
#[tactic(auto, using(crate::proofs::Idle::running_active))]
fn wait_for(store: &mut Store, t: Tid, q: u32, max: u32, nget: u32, one: bool) -> Answer
    requires { is_running (stored_state store.old) t.0 ≡ true }
    ensures state { stored_state store.new ≡ (wait_for (stored_state store.old) t.0 q max nget one).state }
    ensures answer { result ≡ (wait_for (stored_state store.old) t.0 q max nget one).answer }
    ensures keeps { KeepsPools store.old store.new }
{
    store.turn(
        t,
        ThreadState::Getting {
            port: q,
            max,
            nget,
            one,
            interrupted: false,
        },
    );
    Answer::Wait
}

/// port_get(3C): EBADF, EBADFD, ETIME without a wait.
fn getting_refusal(store: &Store, p: Pid, fd: Fd, wait: bool) -> Option<Errno>
    ensures { result ≡ first_refusal (getting_tests (stored_state store.now) p.0 fd wait) }
{
    match named_port(store, p, fd) {
        Ok(port) => store.get_refusal(port, wait),
        Err(error) => Some(error),
    }
}

/// port_get(3C): the alert or the oldest event, or a wait of the thread, which runs.
fn get(store: &mut Store, t: Tid, p: Pid, fd: Fd) -> Answer
    requires { is_running (stored_state store.old) t.0 ≡ true }
    ensures state { stored_state store.new ≡ (get (stored_state store.old) t.0 p.0 fd).state }
    ensures answer { result ≡ (get (stored_state store.old) t.0 p.0 fd).answer }
    ensures keeps { KeepsPools store.old store.new }
{
    let port = port_at(store, p, fd);
    if store.ready_for(port, 1) {
        retrieve_first(store, port)
    } else {
        wait_for(store, t, port, 1, 1, true)
    }
}

/// port_getn(3C): EBADF, EBADFD, EINVAL for more events than are taken, ETIME without a wait.
fn getting_many_refusal(
    store: &Store,
    p: Pid,
    fd: Fd,
    max: u32,
    nget: u32,
    wait: bool,
) -> Option<Errno>
    ensures { result ≡ first_refusal (getting_many_tests (stored_state store.now) p.0 fd max nget wait) }
{
    match named_port(store, p, fd) {
        Ok(port) => store.getn_refusal(port, max, nget, wait),
        Err(error) => Some(error),
    }
}

/// How many events are queued at a port.
fn tell_queued(store: &Store, q: u32) -> Answer
    requires { HasNumbersLeft (stored_state store.now) }
    ensures { result ≡ (tell_queued (stored_state store.now) q).answer }
{
    Answer::Available {
        n: store.queued(q) as u32,
    }
}

/// port_getn(3C): with `max` 0 how many events are queued; else the alert alone, or the oldest events, or a wait of the thread, which
/// runs.
fn get_many(
    store: &mut Store,
    alloc: Global,
    t: Tid,
    p: Pid,
    fd: Fd,
    max: u32,
    nget: u32,
) -> Result<Answer, NoMemory>
    requires running { is_running (stored_state store.old) t.0 ≡ true }
    requires numbers { HasNumbersLeft (stored_state store.old) }
    ensures state { OnOk result (stored_state store.new ≡ (get_many (stored_state store.old) t.0 p.0 fd max nget).state) }
    ensures answer { IfOk result (λ answer. answer ≡ (get_many (stored_state store.old) t.0 p.0 fd max nget).answer) }
    ensures as_before { OnErr result (stored_state store.new ≡ stored_state store.old) }
    ensures keeps { KeepsPools store.old store.new }
{
    let port = port_at(store, p, fd);
    if max == 0 {
        return Ok(tell_queued(store, port));
    }
    if !store.ready_for(port, nget) {
        return Ok(wait_for(store, t, port, max, nget, false));
    }
    let found = room_to_find(alloc, store.found(port, max))?;
    Ok(retrieve_found(store, port, max, found))
}

/// The end of that wait: EINTR where the thread was interrupted, EBADF where nothing refers to the port any more, else what is found.
pub fn end_getting(
    store: &mut Store,
    t: Tid,
    q: u32,
    max: u32,
    one: bool,
    interrupted: bool,
    found: Found,
) -> Answer
    requires active { IsActive (state_of (stored_state store.old) t.0) }
    requires can_end { CanEndGetting (stored_state store.old) q max one interrupted }
    requires room { one ≡ false → HasRoomToFind (length (events_found max (port (stored_state store.old) q))) found }
    ensures state { stored_state store.new ≡ (end_getting (stored_state store.old) t.0 q max one interrupted).state }
    ensures answer { result ≡ (end_getting (stored_state store.old) t.0 q max one interrupted).answer }
    ensures keeps { KeepsPools store.old store.new }
{
    store.turn(t, ThreadState::Running);
    if interrupted {
        return Answer::Failure(Errno::EINTR);
    }
    if !store.has_port_references(q) {
        return Answer::Failure(Errno::EBADF);
    }
    if one {
        retrieve_first(store, q)
    } else {
        retrieve_found(store, q, max, found)
    }
}

/// How many events the end of a wait for several finds.
pub fn count_found(store: &Store, ending: Ending) -> usize
    ensures { result ≡ length (events_at_end (stored_state store.now) ending) }
{
    match ending {
        Ending::Got {
            port,
            max,
            one: false,
            ..
        } => store.found(port, max),
        _ => 0,
    }
}

/// port_send(3C): EBADF, EBADFD, EAGAIN where the port is full.
fn sending_refusal(store: &Store, p: Pid, fd: Fd) -> Option<Errno>
    ensures { result ≡ first_refusal (sending_tests (stored_state store.now).channels.ports (object_at (stored_state store.now) p.0 fd)) }
{
    match named_port(store, p, fd) {
        Ok(port) => store.send_refusal(port),
        Err(error) => Some(error),
    }
}

/// port_send(3C): a user event is queued.
fn send(store: &mut Store, p: Pid, fd: Fd, events: u32, user: u64) -> Result<Answer, NoMemory>
    requires { first_refusal (sending_tests (stored_state store.old).channels.ports (object_at (stored_state store.old) p.0 fd)) ≡ None }
    ensures state { OnOk result (stored_state store.new ≡ (send (stored_state store.old) p.0 fd events user).state) }
    ensures answer { IfOk result (λ answer. answer ≡ (send (stored_state store.old) p.0 fd events user).answer) }
    ensures as_before { OnErr result (stored_state store.new ≡ stored_state store.old) }
    ensures keeps { KeepsPools store.old store.new }
{
    let port = port_at(store, p, fd);
    store.reserve_events(port, 1)?;
    store.send_fitting(port, events, user);
    Ok(Answer::Done)
}

/// A user event is sent to what a descriptor names. Tells why it was not, if it was not.
fn send_one(store: &mut Store, p: Pid, fd: Fd, events: u32, user: u64) -> Option<Errno>
    requires { HasRoomForEvents store.old (port_at (stored_state store.old) p.0 fd) 1 }
    ensures error { result ≡ sending_error (stored_state store.old).channels.ports (object_at (stored_state store.old) p.0 fd) }
    ensures state { stored_state store.new ≡ with_ports (stored_state store.old) (after_sending (stored_state store.old).channels.ports (object_at (stored_state store.old) p.0 fd) events user) }
    ensures rooms { KeepsRoomForEventsButOne store.old store.new }
    ensures keeps { KeepsPools store.old store.new }
{
    match named_port(store, p, fd) {
        Ok(port) => store.send_if_allowed(port, events, user),
        Err(error) => Some(error),
    }
}

/// Room at each port that one of these descriptors names for as many events as there are descriptors.
fn reserve_each(store: &mut Store, p: Pid, fds: &[Fd]) -> Result<(), NoMemory>
    ensures state { stored_state store.new ≡ stored_state store.old }
    ensures keeps { KeepsPools store.old store.new }
    ensures room { OnOk result (CanSendEach store.new p.0 fds.now (length fds.now)) }
{
    for fd in fds {
        let port = port_at(store, p, *fd);
        store.reserve_events(port, fds.len())?;
    }
    Ok(())
}

/// A user event is sent to what each of these descriptors names, in order. Tells of each why it was not, if it was not.
fn send_each(
    store: &mut Store,
    p: Pid,
    fds: &[Fd],
    events: u32,
    user: u64,
    mut errors: Room<Option<Errno>>,
) -> ErrList
    requires room { CanSendEach store.old p.0 fds.now (length fds.now) }
    requires errors { IsRoomFor (length fds.now) errors }
    ensures state { stored_state store.new ≡ (send_many (stored_state store.old) p.0 fds.now events user).state }
    ensures errors { answer.Errors result ≡ (send_many (stored_state store.old) p.0 fds.now events user).answer }
    ensures keeps { KeepsPools store.old store.new }
{
    for fd in fds {
        errors.push(send_one(store, p, *fd, events, user));
    }
    errors.into_list()
}

/// port_sendn(3C): each is sent to in order, or has its error of port_send(3C).
fn send_many(
    store: &mut Store,
    alloc: Global,
    p: Pid,
    fds: &[Fd],
    events: u32,
    user: u64,
) -> Result<Answer, NoMemory>
    ensures state { OnOk result (stored_state store.new ≡ (send_many (stored_state store.old) p.0 fds.now events user).state) }
    ensures answer { IfOk result (λ answer. answer ≡ (send_many (stored_state store.old) p.0 fds.now events user).answer) }
    ensures as_before { OnErr result (stored_state store.new ≡ stored_state store.old) }
    ensures keeps { KeepsPools store.old store.new }
{
    let errors = Room::with_room(alloc, fds.len())?;
    reserve_each(store, p, fds)?;
    Ok(Answer::Errors(send_each(store, p, fds, events, user, errors)))
}

/// port_alert(3C): EBADF, EBADFD, EINVAL for no mode, EBUSY for an update with events in alert mode.
fn alerting_refusal(store: &Store, p: Pid, fd: Fd, mode: AlertMode, events: u32) -> Option<Errno>
    ensures { result ≡ first_refusal (alerting_tests (stored_state store.now) p.0 fd mode events) }
{
    match named_port(store, p, fd) {
        Ok(port) => store.alert_refusal(port, mode, events),
        Err(error) => Some(error),
    }
}

/// port_alert(3C): an alert in place of an earlier one, or the end of alert mode.
fn alert(store: &mut Store, p: Pid, fd: Fd, events: u32, user: u64) -> Answer
    ensures state { stored_state store.new ≡ (alert (stored_state store.old) p.0 fd events user).state }
    ensures answer { result ≡ (alert (stored_state store.old) p.0 fd events user).answer }
    ensures keeps { KeepsPools store.old store.new }
{
    let port = port_at(store, p, fd);
    store.set_alert(port, events, user);
    Answer::Done
}

/// An entry about ports, by a thread that runs. Want of memory leaves all as it was.
pub fn enter(
    store: &mut Store,
    alloc: Global,
    t: Tid,
    p: Pid,
    request: Request,
) -> Result<Answer, NoMemory>
    requires running { is_running (stored_state store.old) t.0 ≡ true }
    requires numbers { HasNumbersLeft (stored_state store.old) }
    requires references { HasRoomForReferences store.old }
    ensures state { OnOk result (stored_state store.new ≡ (entry_about Subject.ports (stored_state store.old) t.0 p.0 request).state) }
    ensures answer { IfOk result (λ answer. answer ≡ (entry_about Subject.ports (stored_state store.old) t.0 p.0 request).answer) }
    ensures as_before { OnErr result (stored_state store.new ≡ stored_state store.old) }
    ensures keeps { KeepsPools store.old store.new }
{
    match request {
        Request::PortCreate => match create_refusal(store, p) {
            Some(error) => Ok(Answer::Failure(error)),
            None => create(store, alloc, p),
        },
        Request::Get { port, wait } => match getting_refusal(store, p, port, wait) {
            Some(error) => Ok(Answer::Failure(error)),
            None => Ok(get(store, t, p, port)),
        },
        Request::GetN {
            port,
            max,
            nget,
            wait,
        } => match getting_many_refusal(store, p, port, max, nget, wait) {
            Some(error) => Ok(Answer::Failure(error)),
            None => get_many(store, alloc, t, p, port, max, nget),
        },
        Request::Send { port, events, user } => match sending_refusal(store, p, port) {
            Some(error) => Ok(Answer::Failure(error)),
            None => send(store, p, port, events, user),
        },
        Request::SendN {
            ports,
            events,
            user,
        } => send_many(store, alloc, p, ports.slice(), events, user),
        Request::Alert {
            port,
            mode,
            events,
            user,
        } => match alerting_refusal(store, p, port, mode, events) {
            Some(error) => Ok(Answer::Failure(error)),
            None => Ok(alert(store, p, port, events, user)),
        },
        _ => Ok(Answer::Done),
    }
}
