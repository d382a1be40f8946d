//! Timers that are armed, set again and deleted, whose process ends, and whose moments come one at a time or many at once.

use dk_base::error::{Errno, Refusal};
use dk_base::limits::{ADVANCE_MAX, CLOCK_MAX, DELAY_MAX};
use dk_base::list::Room;
use dk_base::number::Pid;
use spec_records::timer::{Due, Tag};
use std::alloc::Global;
use timer_src::timers::Timers;

/// A timer of these, `first` and `interval`, by which the clock moves on, and how many moments are told each time.
const RUNS: [(u64, u64, [(u64, u32); 4]); 12] = [
    (0, 0, [(1, 0), (1, 0), (10_000, 0), (1, 0)]),
    (0, 5, [(5, 0), (5, 0), (10_000, 0), (1, 0)]),
    (1, 0, [(1, 1), (1, 0), (10_000, 0), (1, 0)]),
    (1, 1, [(1, 1), (1, 1), (10_000, 10_000), (2, 2)]),
    (3, 2, [(2, 0), (6, 3), (1, 1), (10_000, 5_000)]),
    (2, 3, [(1, 0), (1, 1), (3, 1), (10_000, 3_333)]),
    (5, 0, [(4, 0), (10, 1), (10_000, 0), (1, 0)]),
    (5, 7, [(0, 0), (5, 1), (0, 0), (14, 2)]),
    (
        10_000,
        10_000,
        [(9_999, 0), (1, 1), (10_000, 1), (9_999, 0)],
    ),
    (1, 10_000, [(10_000, 1), (1, 1), (9_999, 0), (1, 1)]),
    (7, 1_000_000_000, [(6, 0), (1, 1), (10_000, 0), (10_000, 0)]),
    (
        1_000_000_000,
        1,
        [(1, 0), (10_000, 0), (10_000, 0), (10_000, 0)],
    ),
];

const fn tag(port: u32, number: u32) -> Tag {
    Tag { port, number }
}

const fn due(port: u32, number: u32, id: u32, count: u32, user: u64) -> Due {
    Due {
        tag: tag(port, number),
        id,
        count,
        user,
    }
}

/// Whether a timer is made for a process, under this id, or it is refused.
fn creates(
    timers: &mut Timers,
    process: u32,
    port: u32,
    user: u64,
    expected: Result<u32, Refusal>,
) -> bool {
    if timers.made() >= 100 {
        return false;
    }
    timers.create(Pid(process), port, user) == expected
}

/// Whether a timer is set, and its tag told, or it is refused.
fn sets(
    timers: &mut Timers,
    process: u32,
    id: u32,
    first: u64,
    interval: u64,
    expected: Result<Tag, Errno>,
) -> bool {
    if first > DELAY_MAX || interval > DELAY_MAX {
        return false;
    }
    timers.set(Pid(process), id, first, interval) == expected
}

/// Whether this is told as the clock moves on by so much.
fn advances(alloc: Global, timers: &mut Timers, by: u64, expected: &[Due]) -> bool {
    if by > ADVANCE_MAX || timers.clock() > CLOCK_MAX {
        return false;
    }
    let Ok(mut told) = Room::with_room(alloc, timers.len()) else {
        return false;
    };
    timers.advance(by, &mut told);
    told.slice() == expected
}

/// Whether the timers with these tags end with their process.
#[tactic(auto, using(timer_src::proofs::Kept::shorter))]
fn ends(alloc: Global, timers: &mut Timers, process: u32, expected: &[Tag]) -> bool {
    let Ok(mut told) = Room::with_room(alloc, timers.len()) else {
        return false;
    };
    timers.end_process(Pid(process), &mut told);
    told.slice() == expected
}

/// Whether the one timer is told with this count as the clock moves on, or nothing where that is 0.
fn counts(alloc: Global, timers: &mut Timers, by: u64, count: u32) -> bool {
    if count == 0 {
        advances(alloc, timers, by, &[])
    } else {
        advances(alloc, timers, by, &[due(7, 1, 0, count, 9)])
    }
}

fn runs(alloc: Global, first: u64, interval: u64, steps: &[(u64, u32)]) -> bool {
    let mut timers = Timers::new(alloc);
    if !creates(&mut timers, 1, 7, 9, Ok(0))
        || !sets(&mut timers, 1, 0, first, interval, Ok(tag(7, 1)))
    {
        return false;
    }
    for (by, count) in steps {
        if !counts(alloc, &mut timers, *by, *count) {
            return false;
        }
    }
    true
}

#[test]
fn moments_are_counted(rt: HostRuntime) {
    for (first, interval, steps) in RUNS {
        assert!(rt; runs(rt.alloc(), first, interval, &steps));
    }
}

/// Nothing is told as the clock moves on by 10,000 so often.
fn stays_quiet(alloc: Global, timers: &mut Timers, times: u32) -> bool {
    for _ in 0..times {
        if !advances(alloc, timers, 10_000, &[]) {
            return false;
        }
    }
    true
}

/// The greatest delay, to the last moment that the clock can reach.
fn waits_longest(alloc: Global) -> bool {
    let mut timers = Timers::new(alloc);
    creates(&mut timers, 1, 7, 9, Ok(0))
        && sets(&mut timers, 1, 0, DELAY_MAX, DELAY_MAX, Ok(tag(7, 1)))
        && stays_quiet(alloc, &mut timers, 99_999)
        && counts(alloc, &mut timers, 9_999, 0)
        && counts(alloc, &mut timers, 1, 1)
        && timers.clock() == 1_000_000_000
        && sets(&mut timers, 1, 0, 1, 1, Ok(tag(7, 1)))
        && counts(alloc, &mut timers, 10_000, 10_000)
        && timers.clock() == 1_000_010_000
        && sets(&mut timers, 1, 0, DELAY_MAX, DELAY_MAX, Ok(tag(7, 1)))
}

#[test]
fn the_greatest_delay(rt: HostRuntime) {
    assert!(rt; waits_longest(rt.alloc()));
}

/// Timers of two processes that are due at one moment, armed in another order than that of their numbers.
fn tells_in_order(alloc: Global) -> bool {
    let mut timers = Timers::new(alloc);
    creates(&mut timers, 1, 5, 10, Ok(0))
        && creates(&mut timers, 2, 6, 20, Ok(0))
        && creates(&mut timers, 1, 5, 30, Ok(1))
        && sets(&mut timers, 1, 1, 4, 0, Ok(tag(5, 3)))
        && sets(&mut timers, 1, 0, 4, 2, Ok(tag(5, 1)))
        && sets(&mut timers, 2, 0, 2, 2, Ok(tag(6, 2)))
        && advances(alloc, &mut timers, 3, &[due(6, 2, 0, 1, 20)])
        && advances(
            alloc,
            &mut timers,
            1,
            &[
                due(5, 1, 0, 1, 10),
                due(6, 2, 0, 1, 20),
                due(5, 3, 1, 1, 30),
            ],
        )
        && advances(
            alloc,
            &mut timers,
            4,
            &[due(5, 1, 0, 2, 10), due(6, 2, 0, 2, 20)],
        )
}

#[test]
fn timers_are_told_in_order(rt: HostRuntime) {
    assert!(rt; tells_in_order(rt.alloc()));
}

/// A timer that is set again before, at and after its moment, and left not armed.
fn sets_again(alloc: Global) -> bool {
    let mut timers = Timers::new(alloc);
    creates(&mut timers, 1, 7, 9, Ok(0))
        && sets(&mut timers, 1, 0, 5, 0, Ok(tag(7, 1)))
        && counts(alloc, &mut timers, 4, 0)
        && sets(&mut timers, 1, 0, 3, 0, Ok(tag(7, 1)))
        && counts(alloc, &mut timers, 1, 0)
        && counts(alloc, &mut timers, 2, 1)
        && sets(&mut timers, 1, 0, 2, 2, Ok(tag(7, 1)))
        && counts(alloc, &mut timers, 2, 1)
        && sets(&mut timers, 1, 0, 3, 0, Ok(tag(7, 1)))
        && counts(alloc, &mut timers, 2, 0)
        && counts(alloc, &mut timers, 1, 1)
        && sets(&mut timers, 1, 0, 2, 2, Ok(tag(7, 1)))
        && counts(alloc, &mut timers, 5, 2)
        && sets(&mut timers, 1, 0, 1, 0, Ok(tag(7, 1)))
        && sets(&mut timers, 1, 0, 0, 1, Ok(tag(7, 1)))
        && counts(alloc, &mut timers, 10_000, 0)
}

#[test]
fn timers_are_set_again(rt: HostRuntime) {
    assert!(rt; sets_again(rt.alloc()));
}

/// So many timers of a process, under the ids from 0 on.
fn fills(timers: &mut Timers, process: u32, count: u32) -> bool {
    for id in 0..count {
        if !creates(timers, process, 7, 9, Ok(id)) {
            return false;
        }
    }
    true
}

/// A process with 32 timers gets no other until one is deleted; its lowest free id is taken again, under a new number.
fn takes_ids_again(alloc: Global) -> bool {
    let mut timers = Timers::new(alloc);
    fills(&mut timers, 1, 31)
        && timers.create_refusal(Pid(1)).is_none()
        && creates(&mut timers, 1, 7, 9, Ok(31))
        && timers.create_refusal(Pid(1)) == Some(Errno::EAGAIN)
        && creates(&mut timers, 1, 7, 9, Err(Refusal::No(Errno::EAGAIN)))
        && timers.len() == 32
        && timers.made() == 32
        && creates(&mut timers, 2, 7, 9, Ok(0))
        && timers.delete(Pid(1), 9) == Ok(tag(7, 10))
        && timers.delete(Pid(1), 5) == Ok(tag(7, 6))
        && creates(&mut timers, 1, 8, 9, Ok(5))
        && creates(&mut timers, 1, 8, 9, Ok(9))
        && creates(&mut timers, 1, 8, 9, Err(Refusal::No(Errno::EAGAIN)))
        && sets(&mut timers, 1, 5, 1, 0, Ok(tag(8, 34)))
        && sets(&mut timers, 1, 9, 1, 0, Ok(tag(8, 35)))
        && sets(&mut timers, 1, 31, 1, 0, Ok(tag(7, 32)))
        && advances(
            alloc,
            &mut timers,
            1,
            &[
                due(7, 32, 31, 1, 9),
                due(8, 34, 5, 1, 9),
                due(8, 35, 9, 1, 9),
            ],
        )
}

#[test]
fn ids_are_taken_again(rt: HostRuntime) {
    assert!(rt; takes_ids_again(rt.alloc()));
}

/// A process ends among others: its timers end, armed or not, and go on no more.
fn ends_process(alloc: Global) -> bool {
    let mut timers = Timers::new(alloc);
    creates(&mut timers, 1, 5, 10, Ok(0))
        && creates(&mut timers, 2, 6, 20, Ok(0))
        && creates(&mut timers, 1, 7, 30, Ok(1))
        && creates(&mut timers, 1, 5, 40, Ok(2))
        && sets(&mut timers, 1, 0, 1, 1, Ok(tag(5, 1)))
        && sets(&mut timers, 2, 0, 1, 1, Ok(tag(6, 2)))
        && sets(&mut timers, 1, 2, 1, 1, Ok(tag(5, 4)))
        && ends(alloc, &mut timers, 1, &[tag(5, 1), tag(7, 3), tag(5, 4)])
        && timers.len() == 1
        && advances(alloc, &mut timers, 3, &[due(6, 2, 0, 3, 20)])
        && sets(&mut timers, 1, 0, 1, 1, Err(Errno::EINVAL))
        && ends(alloc, &mut timers, 1, &[])
        && creates(&mut timers, 1, 5, 50, Ok(0))
        && sets(&mut timers, 1, 0, 2, 0, Ok(tag(5, 5)))
        && advances(
            alloc,
            &mut timers,
            2,
            &[due(6, 2, 0, 2, 20), due(5, 5, 0, 1, 50)],
        )
}

#[test]
fn timers_end_with_their_process(rt: HostRuntime) {
    assert!(rt; ends_process(rt.alloc()));
}

/// Whether a process has no timer with this id.
fn refuses(timers: &mut Timers, process: u32, id: u32) -> bool {
    timers.timer_refusal(Pid(process), id) == Some(Errno::EINVAL)
        && sets(timers, process, id, 1, 1, Err(Errno::EINVAL))
        && timers.delete(Pid(process), id) == Err(Errno::EINVAL)
}

/// What is refused changes nothing.
fn refuses_others(alloc: Global) -> bool {
    let mut timers = Timers::new(alloc);
    creates(&mut timers, 1, 7, 9, Ok(0))
        && creates(&mut timers, 1, 8, 8, Ok(1))
        && sets(&mut timers, 1, 0, 2, 0, Ok(tag(7, 1)))
        && timers.delete(Pid(1), 1) == Ok(tag(8, 2))
        && refuses(&mut timers, 1, 1)
        && refuses(&mut timers, 1, 32)
        && refuses(&mut timers, 1, 4_294_967_295)
        && refuses(&mut timers, 2, 0)
        && timers.timer_refusal(Pid(1), 0).is_none()
        && timers.len() == 1
        && timers.made() == 2
        && counts(alloc, &mut timers, 2, 1)
}

#[test]
fn other_ids_are_refused(rt: HostRuntime) {
    assert!(rt; refuses_others(rt.alloc()));
}

/// Room that was taken before makes a timer without memory.
fn reserves(alloc: Global) -> bool {
    let mut timers = Timers::new(alloc);
    timers.reserve().is_ok() && timers.len() == 0 && creates(&mut timers, 1, 7, 9, Ok(0))
}

#[test]
fn room_is_taken_before(rt: HostRuntime) {
    assert!(rt; reserves(rt.alloc()));
}
