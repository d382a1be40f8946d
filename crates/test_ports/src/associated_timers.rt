//! Timers that tell ports: what is queued, counts more, keeps its place, and is withdrawn.

use dk_base::error::Errno;
use dk_base::limits::{ADVANCE_MAX, CLOCK_MAX, DELAY_MAX};
use dk_base::list::Room;
use dk_base::number::Pid;
use dk_base::object::{EventRec, Src};
use kernel_ports::ending::Ending;
use kernel_ports::ports::AssociatedPorts;
use std::alloc::Global;
use std::test::Fail;

const fn user(events: u32, user: u64) -> EventRec {
    EventRec {
        source: Src::User,
        object: 0,
        events,
        user,
    }
}

/// What a timer of this id tells, with the count of its moments and its user value.
const fn timer(id: u32, count: u32, user: u64) -> EventRec {
    EventRec {
        source: Src::Timer,
        object: id,
        events: count,
        user,
    }
}

/// Whether a port is made.
fn is_made(alloc: Global, ports: &mut AssociatedPorts, number: u32) -> bool {
    if ports.reserve_port().is_err() || ports.ports().count() >= 3 {
        return false;
    }
    ports.create(alloc) == number
}

/// Whether a timer of a process is made that tells a port, under this id.
fn creates(ports: &mut AssociatedPorts, process: u32, q: u32, user: u64, id: u32) -> bool {
    let process = Pid(process);
    if ports.reserve_timer(q).is_err()
        || q as usize > ports.ports().count()
        || ports.timers().made() >= 100
        || ports.timers().create_refusal(process).is_some()
    {
        return false;
    }
    ports.create_timer(process, q, user) == id
}

/// Whether a timer that tells this port, or none, is armed or left not armed.
fn sets(
    ports: &mut AssociatedPorts,
    (process, id): (u32, u32),
    first: u64,
    interval: u64,
    told: Option<u32>,
) -> bool {
    if first > DELAY_MAX || interval > DELAY_MAX {
        return false;
    }
    ports.set_timer(Pid(process), id, first, interval) == told
}

/// Whether the timers of these numbers are told, each with this count, as the clock moves on by so much.
fn advances(alloc: Global, ports: &mut AssociatedPorts, by: u64, expected: &[(u32, u32)]) -> bool {
    let Ok(mut told) = Room::with_room(alloc, ports.timers().len()) else {
        return false;
    };
    if by > ADVANCE_MAX || ports.timers().clock() > CLOCK_MAX {
        return false;
    }
    ports.advance(by, &mut told);
    let all = told.slice();
    if all.len() != expected.len() {
        return false;
    }
    for i in 0..all.len() {
        if all[i].tag.number != expected[i].0 || all[i].count != expected[i].1 {
            return false;
        }
    }
    true
}

/// Whether a user event is sent.
fn sends(ports: &mut AssociatedPorts, q: u32, events: u32) -> bool {
    if ports.room(q, 1).is_err() {
        return false;
    }
    ports.send_if_allowed(q, events, 9).is_none()
}

/// Whether these events, and no others, are retrieved of a port.
fn gives(alloc: Global, ports: &mut AssociatedPorts, q: u32, expected: &[EventRec]) -> bool {
    let found = ports.ports().found(q, 64);
    let (Ok(mut into), Ok(mut ids)) = (Room::with_room(alloc, found), Room::with_room(alloc, found))
    else {
        return false;
    };
    ports.take_found(q, 64, &mut into, &mut ids);
    into.slice() == expected
}

/// Whether the timers of a process end, where it had one or not.
fn ends(alloc: Global, ports: &mut AssociatedPorts, process: u32, had: bool) -> bool {
    let mut ending = Ending::new(alloc);
    if ending.reserve(0, ports.timers().len()).is_err() {
        return false;
    }
    ports.end_timers(Pid(process), &mut ending) == had
}

/// Two timers are due at one moment, in order of number whichever was armed first. The first counts more moments at its place, before an
/// event that was sent; what was retrieved is queued anew.
fn tell_in_order(alloc: Global, ports: &mut AssociatedPorts) -> bool {
    creates(ports, 1, 1, 11, 0)
        && creates(ports, 2, 1, 22, 0)
        && creates(ports, 1, 1, 33, 1)
        && sets(ports, (2, 0), 3, 0, Some(1))
        && sets(ports, (1, 0), 3, 2, Some(1))
        && sets(ports, (1, 1), 0, 5, Some(1))
        && advances(alloc, ports, 2, &[])
        && advances(alloc, ports, 1, &[(1, 1), (2, 1)])
        && sends(ports, 1, 5)
        && advances(alloc, ports, 4, &[(1, 2)])
        && gives(
            alloc,
            ports,
            1,
            &[timer(0, 3, 11), timer(0, 1, 22), user(5, 9)],
        )
        && advances(alloc, ports, 2, &[(1, 1)])
        && gives(alloc, ports, 1, &[timer(0, 1, 11)])
}

/// A timer that is set again or deleted, and one whose process ends, has nothing queued; the others of its port have. Its id is taken
/// again.
fn are_withdrawn(alloc: Global, ports: &mut AssociatedPorts) -> bool {
    creates(ports, 1, 1, 1, 0)
        && creates(ports, 1, 2, 2, 1)
        && creates(ports, 2, 1, 3, 0)
        && sets(ports, (1, 0), 1, 1, Some(1))
        && sets(ports, (1, 1), 1, 1, Some(2))
        && sets(ports, (2, 0), 1, 1, Some(1))
        && sets(ports, (2, 1), 1, 1, None)
        && advances(alloc, ports, 2, &[(1, 2), (2, 2), (3, 2)])
        && sets(ports, (1, 0), 9, 0, Some(1))
        && gives(alloc, ports, 1, &[timer(0, 2, 3)])
        && ports.delete_timer(Pid(1), 1) == Some(2)
        && ports.delete_timer(Pid(1), 1).is_none()
        && gives(alloc, ports, 2, &[])
        && creates(ports, 1, 2, 4, 1)
        && sets(ports, (1, 1), 1, 0, Some(2))
        && advances(alloc, ports, 1, &[(3, 1), (4, 1)])
        && ends(alloc, ports, 1, true)
        && ends(alloc, ports, 1, false)
        && gives(alloc, ports, 2, &[])
        && advances(alloc, ports, 9, &[(3, 9)])
        && gives(alloc, ports, 1, &[timer(0, 10, 3)])
}

/// A process has 32 timers, and no more; another process has its own.
fn are_at_most_32(ports: &mut AssociatedPorts) -> bool {
    for id in 0..32 {
        if !creates(ports, 1, 1, 7, id) {
            return false;
        }
    }
    ports.timers().create_refusal(Pid(1)) == Some(Errno::EAGAIN)
        && creates(ports, 2, 1, 7, 0)
        && ports.delete_timer(Pid(1), 5) == Some(1)
        && ports.delete_timer(Pid(1), 3) == Some(1)
        && creates(ports, 1, 1, 7, 3)
        && creates(ports, 1, 1, 7, 5)
        && ports.timers().create_refusal(Pid(1)) == Some(Errno::EAGAIN)
}

#[test]
fn timers_tell_in_order(rt: HostRuntime) {
    let alloc = rt.alloc();
    let mut ports = AssociatedPorts::new(alloc);
    assert!(rt; is_made(alloc, &mut ports, 1) && tell_in_order(alloc, &mut ports));
}

#[test]
fn timers_withdraw_their_events(rt: HostRuntime) {
    let alloc = rt.alloc();
    let mut ports = AssociatedPorts::new(alloc);
    assert!(rt; is_made(alloc, &mut ports, 1) && is_made(alloc, &mut ports, 2));
    assert!(rt; are_withdrawn(alloc, &mut ports));
}

#[test]
fn a_process_has_32_timers(rt: HostRuntime) {
    let alloc = rt.alloc();
    let mut ports = AssociatedPorts::new(alloc);
    assert!(rt; is_made(alloc, &mut ports, 1) && are_at_most_32(&mut ports));
}
