//! Worked rows: turns of the kernel, what each is answered and whom it wakes.

use crate::turns::{
    ALERT, CLIENT, DUE_ONCE, DUE_SEVEN, DUE_THRICE, EVENT, Entry, Gives, Row, SERVER, Turn,
    right_turns_of_fork, right_turns_of_new,
};
use dk_base::error::Errno;
use dk_base::number::{Fd, Pid};
use dk_base::object::Pass;
use kernel_core::kernel::Kernel;
use std::test::Fail;

/// The second process.
const OTHER: Pid = Pid(2);

/// The first one.
const SAME: Pid = Pid(1);

/// A client waits for an echo server's path, opens it, calls it and exits: each thread's turn, what it is answered, and
/// whom that wakes.
static ECHO: [Row; 11] = [
    (SERVER, Turn::Enters(Entry::Create), Gives::NewFd(0), &[]),
    (CLIENT, Turn::Enters(Entry::Await), Gives::Wait, &[]),
    (SERVER, Turn::Enters(Entry::Attach), Gives::Done, &[CLIENT]),
    (
        SERVER,
        Turn::Enters(Entry::Return(b"", &[])),
        Gives::Wait,
        &[],
    ),
    (CLIENT, Turn::GoesOn, Gives::Done, &[]),
    (CLIENT, Turn::Enters(Entry::Open), Gives::NewFd(0), &[]),
    (
        CLIENT,
        Turn::Enters(Entry::Call(b"hi", &[])),
        Gives::WaitCall(1),
        &[SERVER],
    ),
    (SERVER, Turn::GoesOn, Gives::Entered(1, b"hi", &[]), &[]),
    (
        SERVER,
        Turn::Enters(Entry::Return(b"hi", &[])),
        Gives::Wait,
        &[CLIENT],
    ),
    (CLIENT, Turn::GoesOn, Gives::Grown(b"hi", &[]), &[]),
    (CLIENT, Turn::Enters(Entry::Exit), Gives::Done, &[]),
];

const ZERO: Pass = Pass {
    fd: Fd(0),
    release: false,
};

const ONE: Pass = Pass {
    fd: Fd(1),
    release: false,
};

const TWO: Pass = Pass {
    fd: Fd(2),
    release: false,
};

const THREE: Pass = Pass {
    fd: Fd(3),
    release: false,
};

const FOUR: Pass = Pass {
    fd: Fd(4),
    release: false,
};

const ONE_RELEASED: Pass = Pass {
    fd: Fd(1),
    release: true,
};

const TWO_RELEASED: Pass = Pass {
    fd: Fd(2),
    release: true,
};

const THREE_RELEASED: Pass = Pass {
    fd: Fd(3),
    release: true,
};

/// Descriptors go with a return that has no client, with a call and with its results, some of them released: the objects keep
/// their order and get the lowest numbers that are free. What cannot be passed is refused, and stays open.
static PASSING: [Row; 22] = [
    (SERVER, Turn::Enters(Entry::Create), Gives::NewFd(0), &[]),
    (SERVER, Turn::Enters(Entry::Create), Gives::NewFd(1), &[]),
    (SERVER, Turn::Enters(Entry::Attach), Gives::Done, &[]),
    (
        SERVER,
        Turn::Enters(Entry::Return(b"", &[ZERO, ONE_RELEASED])),
        Gives::Wait,
        &[],
    ),
    (CLIENT, Turn::Enters(Entry::Open), Gives::NewFd(0), &[]),
    (CLIENT, Turn::Enters(Entry::Create), Gives::NewFd(1), &[]),
    (CLIENT, Turn::Enters(Entry::Create), Gives::NewFd(2), &[]),
    (
        CLIENT,
        Turn::Enters(Entry::Call(b"hi", &[TWO, ONE_RELEASED])),
        Gives::WaitCall(1),
        &[SERVER],
    ),
    (
        SERVER,
        Turn::GoesOn,
        Gives::Entered(1, b"hi", &[Fd(1), Fd(2)]),
        &[],
    ),
    (SERVER, Turn::Enters(Entry::Info(1)), Gives::Unique(4), &[]),
    (SERVER, Turn::Enters(Entry::Info(2)), Gives::Unique(3), &[]),
    (
        SERVER,
        Turn::Enters(Entry::Return(b"hi", &[TWO_RELEASED, ONE])),
        Gives::Wait,
        &[CLIENT],
    ),
    (
        CLIENT,
        Turn::GoesOn,
        Gives::Grown(b"hi", &[Fd(1), Fd(3)]),
        &[],
    ),
    (CLIENT, Turn::Enters(Entry::Info(1)), Gives::Unique(3), &[]),
    (CLIENT, Turn::Enters(Entry::Info(3)), Gives::Unique(4), &[]),
    (
        CLIENT,
        Turn::Enters(Entry::Call(b"hi", &[FOUR])),
        Gives::Failure(Errno::EINVAL),
        &[],
    ),
    (
        CLIENT,
        Turn::Enters(Entry::Call(b"hi", &[ZERO, ZERO])),
        Gives::WaitCall(2),
        &[SERVER],
    ),
    (
        SERVER,
        Turn::GoesOn,
        Gives::Entered(2, b"hi", &[Fd(2), Fd(3)]),
        &[],
    ),
    (
        SERVER,
        Turn::Enters(Entry::Return(b"hi", &[THREE_RELEASED, THREE])),
        Gives::Failure(Errno::EINVAL),
        &[],
    ),
    (SERVER, Turn::Enters(Entry::Info(3)), Gives::Unique(1), &[]),
    (
        SERVER,
        Turn::Enters(Entry::Return(b"hi", &[])),
        Gives::Wait,
        &[CLIENT],
    ),
    (CLIENT, Turn::GoesOn, Gives::Grown(b"hi", &[]), &[]),
];

/// A call whose server has no descriptor free for what it passes, and then one that passes nothing.
static FULL_SERVER: [Row; 12] = [
    (SERVER, Turn::Enters(Entry::Create), Gives::NewFd(0), &[]),
    (SERVER, Turn::Enters(Entry::Create), Gives::NewFd(1), &[]),
    (SERVER, Turn::Enters(Entry::Attach), Gives::Done, &[]),
    (
        SERVER,
        Turn::Enters(Entry::Return(b"", &[])),
        Gives::Wait,
        &[],
    ),
    (CLIENT, Turn::Enters(Entry::Open), Gives::NewFd(0), &[]),
    (CLIENT, Turn::Enters(Entry::Create), Gives::NewFd(1), &[]),
    (
        CLIENT,
        Turn::Enters(Entry::Call(b"hi", &[ONE_RELEASED])),
        Gives::WaitCall(1),
        &[SERVER],
    ),
    (SERVER, Turn::GoesOn, Gives::EnterFailed(1), &[CLIENT]),
    (CLIENT, Turn::GoesOn, Gives::Failure(Errno::EMFILE), &[]),
    (CLIENT, Turn::Enters(Entry::Create), Gives::NewFd(1), &[]),
    (
        CLIENT,
        Turn::Enters(Entry::Call(b"hi", &[])),
        Gives::WaitCall(2),
        &[SERVER],
    ),
    (SERVER, Turn::GoesOn, Gives::Entered(2, b"hi", &[]), &[]),
];

/// Results whose caller has no descriptor free for what they pass, and then some that pass nothing.
static FULL_CLIENT: [Row; 15] = [
    (SERVER, Turn::Enters(Entry::Create), Gives::NewFd(0), &[]),
    (SERVER, Turn::Enters(Entry::Create), Gives::NewFd(1), &[]),
    (SERVER, Turn::Enters(Entry::Attach), Gives::Done, &[]),
    (
        SERVER,
        Turn::Enters(Entry::Return(b"", &[])),
        Gives::Wait,
        &[],
    ),
    (CLIENT, Turn::Enters(Entry::Open), Gives::NewFd(0), &[]),
    (CLIENT, Turn::Enters(Entry::Create), Gives::NewFd(1), &[]),
    (
        CLIENT,
        Turn::Enters(Entry::Call(b"hi", &[])),
        Gives::WaitCall(1),
        &[SERVER],
    ),
    (SERVER, Turn::GoesOn, Gives::Entered(1, b"hi", &[]), &[]),
    (
        SERVER,
        Turn::Enters(Entry::Return(b"hi", &[ONE_RELEASED])),
        Gives::Wait,
        &[CLIENT],
    ),
    (CLIENT, Turn::GoesOn, Gives::Failure(Errno::EMFILE), &[]),
    (
        CLIENT,
        Turn::Enters(Entry::Call(b"hi", &[])),
        Gives::WaitCall(2),
        &[SERVER],
    ),
    (SERVER, Turn::GoesOn, Gives::Entered(2, b"hi", &[]), &[]),
    (SERVER, Turn::Enters(Entry::Create), Gives::NewFd(1), &[]),
    (
        SERVER,
        Turn::Enters(Entry::Return(b"hi", &[])),
        Gives::Wait,
        &[CLIENT],
    ),
    (CLIENT, Turn::GoesOn, Gives::Grown(b"hi", &[]), &[]),
];

/// The client closes the last descriptor but the server's own, whose path is taken away: the server is told, idle as it is. Then it
/// copies its descriptor and closes the copy, and is told once it has returned.
static NOTICED: [Row; 11] = [
    (
        SERVER,
        Turn::Enters(Entry::CreateNoticed),
        Gives::NewFd(0),
        &[],
    ),
    (SERVER, Turn::Enters(Entry::Attach), Gives::Done, &[]),
    (
        SERVER,
        Turn::Enters(Entry::Return(b"", &[])),
        Gives::Wait,
        &[],
    ),
    (CLIENT, Turn::Enters(Entry::Open), Gives::NewFd(0), &[]),
    (CLIENT, Turn::Enters(Entry::Detach), Gives::Done, &[]),
    (
        CLIENT,
        Turn::Enters(Entry::Close(0)),
        Gives::Done,
        &[SERVER],
    ),
    (SERVER, Turn::GoesOn, Gives::EnteredNotice(1), &[]),
    (SERVER, Turn::Enters(Entry::Dup), Gives::NewFd(1), &[]),
    (SERVER, Turn::Enters(Entry::Close(1)), Gives::Done, &[]),
    (
        SERVER,
        Turn::Enters(Entry::Return(b"", &[])),
        Gives::Wait,
        &[],
    ),
    (SERVER, Turn::GoesOn, Gives::EnteredNotice(2), &[]),
];

/// A pipe is written and read, is empty, has no reader and no writer, and needs two descriptors.
static PIPES: [Row; 14] = [
    (SERVER, Turn::Enters(Entry::Pipe), Gives::TwoFds(0, 1), &[]),
    (
        SERVER,
        Turn::Enters(Entry::Pipe),
        Gives::Failure(Errno::EMFILE),
        &[],
    ),
    (
        SERVER,
        Turn::Enters(Entry::Read(0)),
        Gives::Failure(Errno::EAGAIN),
        &[],
    ),
    (
        SERVER,
        Turn::Enters(Entry::Write(1, b"hello")),
        Gives::Count(5),
        &[],
    ),
    (
        SERVER,
        Turn::Enters(Entry::Write(0, b"hello")),
        Gives::Failure(Errno::EBADF),
        &[],
    ),
    (
        SERVER,
        Turn::Enters(Entry::Read(1)),
        Gives::Failure(Errno::EBADF),
        &[],
    ),
    (
        SERVER,
        Turn::Enters(Entry::Read(0)),
        Gives::Data(b"hel"),
        &[],
    ),
    (
        SERVER,
        Turn::Enters(Entry::Read(0)),
        Gives::Data(b"lo"),
        &[],
    ),
    (SERVER, Turn::Enters(Entry::Close(0)), Gives::Done, &[]),
    (
        SERVER,
        Turn::Enters(Entry::Write(1, b"lost")),
        Gives::Failure(Errno::EPIPE),
        &[],
    ),
    (SERVER, Turn::Enters(Entry::Close(1)), Gives::Done, &[]),
    (SERVER, Turn::Enters(Entry::Pipe), Gives::TwoFds(0, 1), &[]),
    (SERVER, Turn::Enters(Entry::Close(1)), Gives::Done, &[]),
    (SERVER, Turn::Enters(Entry::Read(0)), Gives::Data(b""), &[]),
];

/// Events are sent to a port, are counted, and are retrieved; an alert stands in their place.
static PORTS: [Row; 12] = [
    (
        SERVER,
        Turn::Enters(Entry::PortCreate),
        Gives::NewFd(0),
        &[],
    ),
    (
        SERVER,
        Turn::Enters(Entry::Get(0, false)),
        Gives::Failure(Errno::ETIME),
        &[],
    ),
    (SERVER, Turn::Enters(Entry::Send(0)), Gives::Done, &[]),
    (
        SERVER,
        Turn::Enters(Entry::CountQueued(0)),
        Gives::Available(1),
        &[],
    ),
    (
        SERVER,
        Turn::Enters(Entry::Get(0, false)),
        Gives::OneEvent(EVENT),
        &[],
    ),
    (
        SERVER,
        Turn::Enters(Entry::SendEach(&[Fd(0), Fd(1), Fd(0), Fd(0)])),
        Gives::Errors(&[None, Some(Errno::EBADF), None, None]),
        &[],
    ),
    (
        SERVER,
        Turn::Enters(Entry::GetMany(0, 1, false)),
        Gives::Events(&[EVENT, EVENT]),
        &[],
    ),
    (
        SERVER,
        Turn::Enters(Entry::GetMany(0, 3, false)),
        Gives::Failure(Errno::EINVAL),
        &[],
    ),
    (SERVER, Turn::Enters(Entry::Alert(0)), Gives::Done, &[]),
    (
        SERVER,
        Turn::Enters(Entry::GetMany(0, 2, true)),
        Gives::Events(&[ALERT]),
        &[],
    ),
    (SERVER, Turn::Enters(Entry::EndAlert(0)), Gives::Done, &[]),
    (
        SERVER,
        Turn::Enters(Entry::Get(0, true)),
        Gives::OneEvent(EVENT),
        &[],
    ),
];

/// A thread waits at a port for one event, then for two, and then until nothing refers to the port any more.
static WAITING: [Row; 11] = [
    (
        SERVER,
        Turn::Enters(Entry::PortCreate),
        Gives::NewFd(0),
        &[],
    ),
    (SERVER, Turn::Enters(Entry::Get(0, true)), Gives::Wait, &[]),
    (CLIENT, Turn::Enters(Entry::Send(0)), Gives::Done, &[SERVER]),
    (SERVER, Turn::GoesOn, Gives::OneEvent(EVENT), &[]),
    (
        SERVER,
        Turn::Enters(Entry::GetMany(0, 2, true)),
        Gives::Wait,
        &[],
    ),
    (CLIENT, Turn::Enters(Entry::Send(0)), Gives::Done, &[]),
    (CLIENT, Turn::Enters(Entry::Send(0)), Gives::Done, &[SERVER]),
    (SERVER, Turn::GoesOn, Gives::Events(&[EVENT, EVENT]), &[]),
    (SERVER, Turn::Enters(Entry::Get(0, true)), Gives::Wait, &[]),
    (
        CLIENT,
        Turn::Enters(Entry::Close(0)),
        Gives::Done,
        &[SERVER],
    ),
    (SERVER, Turn::GoesOn, Gives::Failure(Errno::EBADF), &[]),
];

/// A timer is due several times at once, and is taken; it is armed for one moment, and ends.
static TIMERS: [Row; 13] = [
    (
        SERVER,
        Turn::Enters(Entry::PortCreate),
        Gives::NewFd(0),
        &[],
    ),
    (
        SERVER,
        Turn::Enters(Entry::CreateTimer(0)),
        Gives::Count(0),
        &[],
    ),
    (
        SERVER,
        Turn::Enters(Entry::SetTimer(0, 3, 2)),
        Gives::Done,
        &[],
    ),
    (SERVER, Turn::Advances(2), Gives::Done, &[]),
    (
        SERVER,
        Turn::Enters(Entry::Get(0, false)),
        Gives::Failure(Errno::ETIME),
        &[],
    ),
    (SERVER, Turn::Advances(6), Gives::Done, &[]),
    (
        SERVER,
        Turn::Enters(Entry::Get(0, true)),
        Gives::OneEvent(DUE_THRICE),
        &[],
    ),
    (
        SERVER,
        Turn::Enters(Entry::SetTimer(0, 5, 0)),
        Gives::Done,
        &[],
    ),
    (SERVER, Turn::Advances(4), Gives::Done, &[]),
    (SERVER, Turn::Advances(10), Gives::Done, &[]),
    (
        SERVER,
        Turn::Enters(Entry::GetMany(0, 1, true)),
        Gives::Events(&[DUE_ONCE]),
        &[],
    ),
    (
        SERVER,
        Turn::Enters(Entry::DeleteTimer(0)),
        Gives::Done,
        &[],
    ),
    (
        SERVER,
        Turn::Enters(Entry::SetTimer(0, 1, 1)),
        Gives::Failure(Errno::EINVAL),
        &[],
    ),
];

/// What a timer queued grows in its place, and is withdrawn as the timer is armed anew.
static GROWING: [Row; 11] = [
    (
        SERVER,
        Turn::Enters(Entry::PortCreate),
        Gives::NewFd(0),
        &[],
    ),
    (
        SERVER,
        Turn::Enters(Entry::CreateTimer(0)),
        Gives::Count(0),
        &[],
    ),
    (
        SERVER,
        Turn::Enters(Entry::SetTimer(0, 1, 1)),
        Gives::Done,
        &[],
    ),
    (SERVER, Turn::Advances(4), Gives::Done, &[]),
    (SERVER, Turn::Enters(Entry::Send(0)), Gives::Done, &[]),
    (SERVER, Turn::Advances(3), Gives::Done, &[]),
    (
        SERVER,
        Turn::Enters(Entry::GetMany(0, 2, false)),
        Gives::Events(&[DUE_SEVEN, EVENT]),
        &[],
    ),
    (SERVER, Turn::Advances(1), Gives::Done, &[]),
    (
        SERVER,
        Turn::Enters(Entry::SetTimer(0, 9, 0)),
        Gives::Done,
        &[],
    ),
    (
        SERVER,
        Turn::Enters(Entry::Get(0, false)),
        Gives::Failure(Errno::ETIME),
        &[],
    ),
    (
        SERVER,
        Turn::Enters(Entry::Cache(b"set a b")),
        Gives::Data(b""),
        &[],
    ),
];

/// A thread that waits at a port is woken as another process moves the clock on.
static WOKEN: [Row; 8] = [
    (
        SERVER,
        Turn::Enters(Entry::PortCreate),
        Gives::NewFd(0),
        &[],
    ),
    (
        SERVER,
        Turn::Enters(Entry::CreateTimer(0)),
        Gives::Count(0),
        &[],
    ),
    (
        SERVER,
        Turn::Enters(Entry::SetTimer(0, 2, 0)),
        Gives::Done,
        &[],
    ),
    (SERVER, Turn::Enters(Entry::Get(0, true)), Gives::Wait, &[]),
    (CLIENT, Turn::Advances(1), Gives::Done, &[]),
    (CLIENT, Turn::Advances(1), Gives::Done, &[SERVER]),
    (
        CLIENT,
        Turn::Enters(Entry::DeleteTimer(0)),
        Gives::Failure(Errno::EINVAL),
        &[],
    ),
    (SERVER, Turn::GoesOn, Gives::OneEvent(DUE_ONCE), &[]),
];

/// A child has begun: its thread runs, with a table of its own, and serves a client in the parent.
static FORKED: [Row; 9] = [
    (CLIENT, Turn::Enters(Entry::Create), Gives::NewFd(0), &[]),
    (CLIENT, Turn::Enters(Entry::Attach), Gives::Done, &[]),
    (
        CLIENT,
        Turn::Enters(Entry::Return(b"", &[])),
        Gives::Wait,
        &[],
    ),
    (
        SERVER,
        Turn::Enters(Entry::Info(0)),
        Gives::Failure(Errno::EBADF),
        &[],
    ),
    (SERVER, Turn::Enters(Entry::Open), Gives::NewFd(0), &[]),
    (
        SERVER,
        Turn::Enters(Entry::Call(b"hi", &[])),
        Gives::WaitCall(1),
        &[CLIENT],
    ),
    (CLIENT, Turn::GoesOn, Gives::Entered(1, b"hi", &[]), &[]),
    (
        CLIENT,
        Turn::Enters(Entry::Return(b"hi", &[])),
        Gives::Wait,
        &[SERVER],
    ),
    (SERVER, Turn::GoesOn, Gives::Grown(b"hi", &[]), &[]),
];

#[test]
fn a_child_begins(rt: HostRuntime) -> Result<(), Fail> {
    let alloc = rt.alloc();
    let right = right_turns_of_fork(alloc, &FORKED);
    assert!(rt; right == FORKED.len(), "turn {right}");
    Ok(())
}

#[test]
fn echo(rt: HostRuntime) -> Result<(), Fail> {
    let alloc = rt.alloc();
    let right = right_turns_of_new(alloc, 16, OTHER, &ECHO);
    assert!(rt; right == ECHO.len(), "turn {right}");
    Ok(())
}

#[test]
fn descriptors_go_with_a_call_and_its_results(rt: HostRuntime) -> Result<(), Fail> {
    let alloc = rt.alloc();
    let right = right_turns_of_new(alloc, 4, OTHER, &PASSING);
    assert!(rt; right == PASSING.len(), "turn {right}");
    Ok(())
}

#[test]
fn full_tables_take_no_descriptors(rt: HostRuntime) -> Result<(), Fail> {
    let alloc = rt.alloc();
    let right = right_turns_of_new(alloc, 2, OTHER, &FULL_SERVER);
    assert!(rt; right == FULL_SERVER.len(), "server, turn {right}");
    let right = right_turns_of_new(alloc, 2, OTHER, &FULL_CLIENT);
    assert!(rt; right == FULL_CLIENT.len(), "client, turn {right}");
    Ok(())
}

#[test]
fn a_server_is_told_of_a_last_reference(rt: HostRuntime) -> Result<(), Fail> {
    let alloc = rt.alloc();
    let right = right_turns_of_new(alloc, 2, OTHER, &NOTICED);
    assert!(rt; right == NOTICED.len(), "turn {right}");
    Ok(())
}

#[test]
fn bytes_go_through_a_pipe_and_events_through_a_port(rt: HostRuntime) -> Result<(), Fail> {
    let alloc = rt.alloc();
    let right = right_turns_of_new(alloc, 2, OTHER, &PIPES);
    assert!(rt; right == PIPES.len(), "pipe, turn {right}");
    let right = right_turns_of_new(alloc, 2, OTHER, &PORTS);
    assert!(rt; right == PORTS.len(), "port, turn {right}");
    let right = right_turns_of_new(alloc, 2, SAME, &WAITING);
    assert!(rt; right == WAITING.len(), "waiting, turn {right}");
    Ok(())
}

#[test]
fn timers_tell_a_port_as_the_clock_moves_on(rt: HostRuntime) -> Result<(), Fail> {
    let alloc = rt.alloc();
    let right = right_turns_of_new(alloc, 2, OTHER, &TIMERS);
    assert!(rt; right == TIMERS.len(), "timers, turn {right}");
    let right = right_turns_of_new(alloc, 2, OTHER, &GROWING);
    assert!(rt; right == GROWING.len(), "growing, turn {right}");
    let right = right_turns_of_new(alloc, 2, OTHER, &WOKEN);
    assert!(rt; right == WOKEN.len(), "woken, turn {right}");
    Ok(())
}

fn needs_send<T: Send>() {}

/// A kernel may go to another thread.
#[test]
fn kernel_is_send() {
    needs_send::<Kernel>();
}
