//! The acts of timers and of the clock that they are on. The memory that one needs is taken before its first change.
ghost use Rattle.std.specs.Prelude.{◌≡◌, ◌≤◌, ◌<◌, None, IfOk, OnErr, OnOk, length};
ghost use Rattle.dk_base.specs.declared.limits.TheConstants.{ADVANCE_MAX, CLOCK_MAX, DELAY_MAX, EVENTS_MAX};
ghost use Rattle.spec_records.specs.Words.{first_refusal};
ghost use Rattle.spec_kernel.specs.Words.{IsFit, Subject, advance, create_timer, creating_timer_tests, delete_timer, port_at, set_timer};
ghost use Rattle.kernel_core.specs.Entries.{entry_about};
ghost use Rattle.kernel_core.specs.Numbers.{HasNumbersLeft};
ghost use Rattle.kernel_store.specs.Words.{KeepsPools, stored_state};

use crate::ports::{named_port, port_at};
use dk_base::answer::Answer;
use dk_base::error::{Errno, NoMemory};
use dk_base::list::Room;
use dk_base::number::{Fd, Pid, Tid};
use dk_base::request::Request;
use kernel_store::store::Store;
use std::alloc::Global;

/// timer_create(3C): EBADF where the port's descriptor is not open, EBADFD where it names no port, EAGAIN where the process has 32 timers.
fn creating_refusal(store: &Store, p: Pid, port: Fd) -> Option<Errno>
    ensures { result ≡ first_refusal (creating_timer_tests (stored_state store.now) p.0 port) }
{
    match named_port(store, p, port) {
        Ok(_) => store.create_timer_refusal(p),
        Err(error) => Some(error),
    }
}

/// timer_create(3C): a timer of the process that tells this port, not armed.
fn create(store: &mut Store, p: Pid, port: Fd, user: u64) -> Result<Answer, NoMemory>
    requires allowed { first_refusal (creating_timer_tests (stored_state store.old) p.0 port) ≡ None }
    requires made { port_at (stored_state store.old) p.0 port ≤ length (stored_state store.old).channels.ports }
    requires few { (stored_state store.old).channels.timers.made < EVENTS_MAX }
    ensures state { OnOk result (stored_state store.new ≡ (create_timer (stored_state store.old) p.0 port user).state) }
    ensures answer { IfOk result (λ answer. answer ≡ (create_timer (stored_state store.old) p.0 port user).answer) }
    ensures as_before { OnErr result (stored_state store.new ≡ stored_state store.old) }
    ensures keeps { KeepsPools store.old store.new }
{
    let port = port_at(store, p, port);
    store.reserve_timer(port)?;
    Ok(Answer::Count {
        n: store.create_timer(p, port, user),
    })
}

/// timer_settime(3C): the timer is armed anew, or is left not armed where `first` is 0.
fn set(store: &mut Store, p: Pid, timer: u32, first: u64, interval: u64) -> Answer
    requires first { first ≤ DELAY_MAX }
    requires interval { interval ≤ DELAY_MAX }
    ensures state { stored_state store.new ≡ (set_timer (stored_state store.old) p.0 timer first interval).state }
    ensures answer { result ≡ (set_timer (stored_state store.old) p.0 timer first interval).answer }
    ensures keeps { KeepsPools store.old store.new }
{
    store.set_timer(p, timer, first, interval);
    Answer::Done
}

/// timer_delete(3C): the timer ends.
fn delete(store: &mut Store, p: Pid, timer: u32) -> Answer
    ensures state { stored_state store.new ≡ (delete_timer (stored_state store.old) p.0 timer).state }
    ensures answer { result ≡ (delete_timer (stored_state store.old) p.0 timer).answer }
    ensures keeps { KeepsPools store.old store.new }
{
    store.delete_timer(p, timer);
    Answer::Done
}

/// The clock moves on: each timer that is due then tells its port.
fn advance(store: &mut Store, alloc: Global, by: u64) -> Result<Answer, NoMemory>
    requires by { by ≤ ADVANCE_MAX }
    requires clock { (stored_state store.old).channels.timers.clock ≤ CLOCK_MAX }
    ensures state { OnOk result (stored_state store.new ≡ (advance (stored_state store.old) by).state) }
    ensures answer { IfOk result (λ answer. answer ≡ (advance (stored_state store.old) by).answer) }
    ensures as_before { OnErr result (stored_state store.new ≡ stored_state store.old) }
    ensures keeps { KeepsPools store.old store.new }
{
    let mut due = Room::with_room(alloc, store.timer_count())?;
    store.advance(by, &mut due);
    Ok(Answer::Done)
}

/// An entry about timers. Want of memory leaves all as it was.
pub fn enter(
    store: &mut Store,
    alloc: Global,
    t: Tid,
    p: Pid,
    request: Request,
) -> Result<Answer, NoMemory>
    requires numbers { HasNumbersLeft (stored_state store.old) }
    requires fit { IsFit (stored_state store.old) t.0 request }
    ensures state { OnOk result (stored_state store.new ≡ (entry_about Subject.timers (stored_state store.old) t.0 p.0 request).state) }
    ensures answer { IfOk result (λ answer. answer ≡ (entry_about Subject.timers (stored_state store.old) t.0 p.0 request).answer) }
    ensures as_before { OnErr result (stored_state store.new ≡ stored_state store.old) }
    ensures keeps { KeepsPools store.old store.new }
{
    match request {
        Request::TimerCreate { port, user } => match creating_refusal(store, p, port) {
            Some(error) => Ok(Answer::Failure(error)),
            None => create(store, p, port, user),
        },
        Request::TimerSet {
            timer,
            first,
            interval,
        } => match store.timer_refusal(p, timer) {
            Some(error) => Ok(Answer::Failure(error)),
            None => Ok(set(store, p, timer, first, interval)),
        },
        Request::TimerDelete { timer } => match store.timer_refusal(p, timer) {
            Some(error) => Ok(Answer::Failure(error)),
            None => Ok(delete(store, p, timer)),
        },
        Request::Advance { by } => advance(store, alloc, by),
        _ => Ok(Answer::Done),
    }
}
