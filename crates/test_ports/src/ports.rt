//! Ports that are full, in alert mode, and asked for events.
ghost use Rattle.std.specs.Prelude.{◌≡◌, false};
ghost use Rattle.spec_records.specs.Words.{is_user_event};

use dk_base::error::{Errno, Refusal};
use dk_base::list::{IdList, Room};
use dk_base::object::{EventRec, Src};
use dk_base::request::AlertMode;
use event_port::ports::Ports;
use spec_records::port::Queued;
use std::alloc::Global;
use std::test::Fail;

const fn user(events: u32, user: u64) -> EventRec {
    EventRec {
        source: Src::User,
        object: 0,
        events,
        user,
    }
}

const fn alert(events: u32, user: u64) -> EventRec {
    EventRec {
        source: Src::Alert,
        object: 0,
        events,
        user,
    }
}

/// Whether another port is made, under this number.
fn is_made(alloc: Global, ports: &mut Ports, number: u32) -> bool {
    if ports.reserve().is_err() || ports.count() >= 3 {
        return false;
    }
    ports.create(alloc) == number
}

/// Whether so many user events are sent.
fn sends(ports: &mut Ports, p: u32, many: u32) -> bool {
    for n in 0..many {
        if ports.send(p, n, 7) != Ok(()) {
            return false;
        }
    }
    true
}

/// Whether a getn answers this count, and gives these events.
fn gives(
    alloc: Global,
    ports: &mut Ports,
    p: u32,
    (max, nget): (u32, u32),
    count: Result<u32, Errno>,
    expected: &[EventRec],
) -> bool {
    let found = ports.found(p, max);
    if ports.queued(p) >= 4_000_000_000 {
        return false;
    }
    let (Ok(mut into), Ok(mut ids)) = (Room::with_room(alloc, found), Room::with_room(alloc, found))
    else {
        return false;
    };
    ports.getn(p, max, nget, &mut into, &mut ids) == count
        && into.slice() == expected
        && ids.len() == 0
}

/// Whether a user event sent to each of these ports answers these errors.
fn sends_each(
    alloc: Global,
    ports: &mut Ports,
    numbers: &[u32],
    expected: &[Option<Errno>],
) -> bool {
    let (Ok(list), Ok(mut errors)) = (
        IdList::from_slice(alloc, numbers),
        Room::with_room(alloc, numbers.len()),
    ) else {
        return false;
    };
    ports.sendn(&list, 2, 2, &mut errors) == Ok(()) && errors.slice() == expected
}

#[test]
fn a_full_port_takes_no_user_event(rt: HostRuntime) {
    let alloc = rt.alloc();
    let mut ports = Ports::new(alloc);
    assert!(rt; is_made(alloc, &mut ports, 1) && is_made(alloc, &mut ports, 2));
    assert!(rt; sends(&mut ports, 1, 1024));
    assert!(rt; ports.send(1, 1, 1) == Err(Refusal::No(Errno::EAGAIN)));
    assert!(rt;
        sends_each(
            alloc,
            &mut ports,
            &[1, 2, 1],
            &[Some(Errno::EAGAIN), None, Some(Errno::EAGAIN)]
        )
    );
    assert!(rt; gives(alloc, &mut ports, 1, (0, 0), Ok(1024), &[]));
    assert!(rt; gives(alloc, &mut ports, 2, (1, 1), Ok(1), &[user(2, 2)]));
    assert!(rt; gives(alloc, &mut ports, 1, (1, 1), Ok(1), &[user(0, 7)]));
    assert!(rt; sends_each(alloc, &mut ports, &[1, 1], &[None, Some(Errno::EAGAIN)]));
    assert!(rt; ports.queued(1) == 1024 && ports.queued(2) == 0);
}

/// Room for two events is taken at the first port, and one is sent to the second. Then two at the first take no memory: that there is
/// room is a condition of each.
fn has_room_still(ports: &mut Ports) -> bool {
    if ports.room(1, 2).is_err() || ports.send(2, 1, 1).is_err() {
        return false;
    }
    ports.send_if_allowed(1, 2, 2).is_none() && ports.send_if_allowed(1, 3, 3).is_none()
}

#[test]
fn a_port_keeps_its_room_for_itself(rt: HostRuntime) {
    let alloc = rt.alloc();
    let mut ports = Ports::new(alloc);
    assert!(rt; is_made(alloc, &mut ports, 1) && is_made(alloc, &mut ports, 2));
    assert!(rt; has_room_still(&mut ports) && ports.queued(1) == 2 && ports.queued(2) == 1);
}

/// Whether a get answers this.
fn gets(ports: &mut Ports, expected: Result<EventRec, Errno>) -> bool {
    let answer = match ports.get(1) {
        Ok(q) => Ok(q.rec),
        Err(error) => Err(error),
    };
    answer == expected
}

#[test]
fn an_alert_goes_first_and_stays(rt: HostRuntime) {
    let alloc = rt.alloc();
    let mut ports = Ports::new(alloc);
    assert!(rt; is_made(alloc, &mut ports, 1));
    assert!(rt; ports.send(1, 3, 9) == Ok(()));
    assert!(rt; ports.alert(1, AlertMode::Update, 1, 4) == Ok(()));
    assert!(rt; ports.alert(1, AlertMode::Update, 2, 5) == Err(Errno::EBUSY));
    assert!(rt; ports.alert(1, AlertMode::Nothing, 0, 5) == Err(Errno::EINVAL));
    assert!(rt; gives(alloc, &mut ports, 1, (2, 2), Ok(1), &[alert(1, 4)]));
    assert!(rt; gives(alloc, &mut ports, 1, (0, 2), Ok(1), &[]));
    assert!(rt; ports.alert(1, AlertMode::Set, 6, 8) == Ok(()));
    assert!(rt; gets(&mut ports, Ok(alert(6, 8))) && gets(&mut ports, Ok(alert(6, 8))));
    assert!(rt; ports.alert(1, AlertMode::Update, 0, 0) == Ok(()));
    assert!(rt; gets(&mut ports, Ok(user(3, 9))) && gets(&mut ports, Err(Errno::ETIME)));
    assert!(rt; ports.alert(1, AlertMode::Set, 0, 0) == Ok(()));
}

/// A port with so many events, in alert mode or not, is asked for at most `max` and at least `nget`: what that answers.
const GETN: [(bool, u32, u32, u32, Result<u32, Errno>); 13] = [
    (false, 0, 0, 0, Ok(0)),
    (false, 3, 0, 9, Ok(3)),
    (true, 3, 0, 9, Ok(3)),
    (false, 3, 2, 3, Err(Errno::EINVAL)),
    (true, 3, 2, 3, Err(Errno::EINVAL)),
    (false, 3, 4, 4, Err(Errno::ETIME)),
    (true, 0, 4, 4, Ok(1)),
    (false, 3, 4, 3, Ok(3)),
    (false, 3, 2, 1, Ok(2)),
    (false, 3, 2, 0, Ok(2)),
    (false, 0, 2, 0, Ok(0)),
    (false, 0, 1, 1, Err(Errno::ETIME)),
    (false, 100, 64, 64, Ok(64)),
];

/// How many events are gone after that answer: none where they were counted, refused or passed over by an alert.
fn gone_after(is_alert: bool, max: u32, answer: Result<u32, Errno>) -> u64 {
    match answer {
        Ok(n) if max > 0 && !is_alert => n as u64,
        _ => 0,
    }
}

fn answers(
    alloc: Global,
    (is_alert, queued, max, nget, expected): (bool, u32, u32, u32, Result<u32, Errno>),
) -> bool {
    let mut ports = Ports::new(alloc);
    if !(is_made(alloc, &mut ports, 1) && sends(&mut ports, 1, queued)) {
        return false;
    }
    if is_alert {
        ports.set_alert(1, 5, 5);
    }
    let found = ports.found(1, max);
    let (Ok(mut into), Ok(mut ids)) = (Room::with_room(alloc, found), Room::with_room(alloc, found))
    else {
        return false;
    };
    if ports.queued(1) >= 4_000_000_000 {
        return false;
    }
    let answer = ports.getn(1, max, nget, &mut into, &mut ids);
    let left = ports.queued(1);
    answer == expected && left.saturating_add(gone_after(is_alert, max, answer)) == queued as u64
}

#[test]
fn getn_has_a_table(rt: HostRuntime) {
    for row in GETN {
        assert!(rt; answers(rt.alloc(), row));
    }
}

/// An event that an association queued.
const fn fired(number: u32) -> Queued
    ensures { is_user_event result ≡ false }
{
    Queued {
        rec: EventRec {
            source: Src::Fd,
            object: 3,
            events: 1,
            user: 5,
        },
        assoc: Some(number),
        timer: None,
    }
}

/// An event that a timer queued.
const fn due(number: u32, count: u32) -> Queued
    ensures { is_user_event result ≡ false }
{
    Queued {
        rec: EventRec {
            source: Src::Timer,
            object: 4,
            events: count,
            user: 6,
        },
        assoc: None,
        timer: Some(number),
    }
}

/// Whether the events of associations are queued between user events.
fn are_posted(ports: &mut Ports) -> bool {
    ports.send(1, 1, 1) == Ok(())
        && ports.post(1, fired(7)).is_ok()
        && ports.post(1, fired(8)).is_ok()
        && ports.send(1, 2, 2) == Ok(())
}

/// Whether three events are found then, with these numbers of associations.
fn are_taken(alloc: Global, ports: &mut Ports, expected: &[EventRec], numbers: &[u32]) -> bool {
    let found = ports.found(1, 64);
    let (Ok(mut into), Ok(mut ids)) = (Room::with_room(alloc, found), Room::with_room(alloc, found))
    else {
        return false;
    };
    ports.take_found(1, 64, &mut into, &mut ids);
    into.slice() == expected && ids.slice() == numbers
}

#[test]
fn an_association_withdraws_its_event(rt: HostRuntime) {
    let alloc = rt.alloc();
    let mut ports = Ports::new(alloc);
    assert!(rt; is_made(alloc, &mut ports, 1));
    assert!(rt; are_posted(&mut ports));
    assert!(rt; ports.withdraw(1, 7) && !ports.withdraw(1, 7) && !ports.withdraw(2, 8));
    assert!(rt;
        are_taken(
            alloc,
            &mut ports,
            &[user(1, 1), fired(8).rec, user(2, 2)],
            &[8]
        )
    );
    assert!(rt; !ports.withdraw(1, 8) && ports.queued(1) == 0);
}

/// Whether the events of two timers are queued, the second after a user event.
fn are_due(ports: &mut Ports) -> bool {
    ports.post(1, due(7, 3)).is_ok()
        && ports.send(1, 1, 1) == Ok(())
        && ports.post(1, due(8, 2)).is_ok()
}

#[test]
fn a_timer_withdraws_its_event(rt: HostRuntime) {
    let alloc = rt.alloc();
    let mut ports = Ports::new(alloc);
    assert!(rt; is_made(alloc, &mut ports, 1));
    assert!(rt; are_due(&mut ports));
    assert!(rt; !ports.withdraw(1, 7) && ports.queued(1) == 3);
    assert!(rt;
        ports.withdraw_timer(1, 7) && !ports.withdraw_timer(1, 7) && !ports.withdraw_timer(2, 8)
    );
    assert!(rt; are_taken(alloc, &mut ports, &[user(1, 1), due(8, 2).rec], &[]));
    assert!(rt; !ports.withdraw_timer(1, 8) && ports.queued(1) == 0);
}

/// Whether a full port still takes the event of a timer, which does not count.
fn is_due_at_a_full_port(ports: &mut Ports) -> bool {
    sends(ports, 1, 1023)
        && ports.post(1, due(7, 1)).is_ok()
        && ports.send(1, 2, 2) == Ok(())
        && ports.post(1, due(8, 1)).is_ok()
        && ports.send(1, 3, 3) == Err(Refusal::No(Errno::EAGAIN))
}

#[test]
fn events_of_timers_do_not_fill_a_port(rt: HostRuntime) {
    let alloc = rt.alloc();
    let mut ports = Ports::new(alloc);
    assert!(rt; is_made(alloc, &mut ports, 1));
    assert!(rt; is_due_at_a_full_port(&mut ports) && ports.queued(1) == 1026);
}
