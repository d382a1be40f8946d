//! Server pools: who is picked, what is served first, when the queue is full, bindings and spare threads.

use dk_base::error::Errno;
use dk_base::list::Room;
use dk_base::number::{Pid, Tid};
use dk_base::object::Item;
use server_pool::facts::BindFacts;
use server_pool::pools::Pools;
use spec_records::pool::{Pool, Waiting};
use std::alloc::Global;
use std::process::Abort;

const SERVED: Pool = Pool::Common(Pid(1));

const PRIVATE: Pool = Pool::Private(1);

/// What is asked of the pools, and what they answer.
enum Act {
    /// A process and a door are added, and so two pools.
    AddTwo,
    /// A thread parks at an event, if it may.
    Park(Tid, Pool, u64, bool),
    /// The same, where room for two threads is taken.
    ParkWithRoom(Tid, Pool, u64),
    Unpark(Tid, Pool, bool),
    Pick(Pool, Option<u32>),
    /// An item waits, if there is room for it.
    Queue(Pool, Item, Result<(), Errno>),
    /// The same, where room for two is taken.
    QueueWithRoom(Pool, Item),
    /// Calls wait whose numbers are from one to below another.
    QueueCalls(u32, u32),
    CountCalls(Pool, usize),
    Withdraw(Pool, Item, bool),
    /// The next item is served by the thread that is picked.
    Match(Pool, u32, Item),
    MatchNothing(Pool),
    Bind(Tid, u32),
    Bound(Tid, Option<u32>),
    Unbind(Tid, Result<u32, Errno>),
    /// Thread 3 would be bound to door 7, which is valid or not, private or not, and of its own process or not.
    TryBind(bool, bool, bool, Option<Errno>),
    AddProcess,
    /// A spare is added, if its number is above those of the others.
    AddSpare(Pid, Tid, bool),
    TakeSpare(Pid, Option<Tid>),
    WithdrawSpare(Pid, Tid),
    /// How many threads are parked and items wait.
    Size(usize),
    /// Door 1 goes, with so many items that wait there and so many threads that are parked there.
    DropDoor(usize, usize),
}

/// Whether a process and a door are added with ample memory.
fn are_two_pools_added(pools: &mut Pools) -> bool {
    if pools.add_process().is_err() || pools.reserve_door().is_err() {
        return false;
    }
    pools.add_door();
    pools.has(SERVED) && pools.has(PRIVATE) && !pools.has(Pool::Private(2))
}

/// Whether a thread parks in a pool that is there, after all that are parked there.
fn is_parked(pools: &mut Pools, t: Tid, pool: Pool, since: u64) -> bool {
    if !pools.has(pool) || pools.room(pool).is_err() || !pools.is_later(t, pool, since) {
        return false;
    }
    pools.park(t, pool, since);
    true
}

/// The same, where room for two threads is taken.
fn is_parked_with_room(pools: &mut Pools, t: Tid, pool: Pool, since: u64) -> bool {
    if !pools.has(pool) || pools.room_for_threads(pool, 2).is_err() {
        return false;
    }
    if !pools.is_later(t, pool, since) {
        return false;
    }
    pools.park(t, pool, since);
    true
}

/// Whether this becomes of an item in a pool that is there.
fn is_queued(pools: &mut Pools, pool: Pool, item: Item, gives: Result<(), Errno>) -> bool {
    if !pools.has(pool) || pools.room(pool).is_err() {
        return false;
    }
    let waiting = Waiting {
        item,
        made: 1,
        door: 1,
    };
    pools.enqueue(pool, waiting) == gives
}

/// Whether an item waits in a pool that is there, where room for two is taken.
fn is_queued_with_room(pools: &mut Pools, pool: Pool, item: Item) -> bool {
    if !pools.has(pool) || pools.room_for_items(pool, 2).is_err() {
        return false;
    }
    let waiting = Waiting {
        item,
        made: 1,
        door: 1,
    };
    pools.enqueue(pool, waiting).is_ok()
}

fn are_queued(pools: &mut Pools, from: u32, to: u32) -> bool {
    for number in from..to {
        if !is_queued(pools, SERVED, Item::Call(number), Ok(())) {
            return false;
        }
    }
    true
}

fn is_picked(pools: &Pools, pool: Pool, t: Option<u32>) -> bool {
    match pools.pick(pool) {
        Some(parked) => t == Some(parked.thread.0),
        None => t.is_none(),
    }
}

fn is_same(item: Item, other: Item) -> bool {
    match (item, other) {
        (Item::Call(c), Item::Call(d)) => c == d,
        (Item::Notice(m), Item::Notice(n)) => m == n,
        _ => false,
    }
}

/// Whether an item is next, and is matched with the thread that is picked.
fn is_matched(pools: &mut Pools, pool: Pool, t: u32, item: Item) -> bool {
    is_picked(pools, pool, Some(t))
        && matches!(pools.next(pool), Some(w) if is_same(w.item, item))
        && matches!(pools.match_next(pool), Some(m) if m.thread.0 == t && is_same(m.item, item))
}

/// Whether a thread is bound to a door, in place of the one that it was bound to.
fn is_bound(pools: &mut Pools, t: Tid, d: u32) -> bool {
    pools.bind(t, d);
    pools.bound(t) == Some(d)
}

/// What a thread is told that is bound to a door of which this is known.
fn told(pools: &mut Pools, valid: bool, is_private: bool, own: bool) -> Option<Errno> {
    let facts = BindFacts {
        valid,
        is_private,
        own,
    };
    pools.try_bind(Tid(3), 7, facts).err()
}

fn is_spare_added(pools: &mut Pools, p: Pid, t: Tid) -> bool {
    pools.is_above_spares(p, t) && pools.add_spare(p, t).is_ok()
}

fn is_spare_withdrawn(pools: &mut Pools, p: Pid, t: Tid) -> bool {
    pools.withdraw_spare(p, t);
    true
}

/// Whether door 1 goes with so many items that wait there and so many threads that are parked there, and thread 5 is unbound.
fn is_door_dropped(alloc: Global, pools: &mut Pools, waits: usize, parks: usize) -> bool {
    let waiting = pools.waiting_at(SERVED, 1);
    let parked = pools.parked_in(PRIVATE);
    let Ok(mut items) = Room::with_room(alloc, waiting) else {
        return false;
    };
    let Ok(mut threads) = Room::with_room(alloc, parked) else {
        return false;
    };
    pools.drop_door(SERVED, 1, &mut items, &mut threads);
    items.len() == waits && threads.len() == parks && pools.bound(Tid(5)).is_none()
}

/// What is asked of bindings, of spares and of doors.
fn does_without_queue(alloc: Global, pools: &mut Pools, act: &Act) -> bool {
    match act {
        Act::Bind(t, d) => is_bound(pools, *t, *d),
        Act::Bound(t, gives) => pools.bound(*t) == *gives,
        Act::Unbind(t, gives) => pools.unbind(*t) == *gives,
        Act::TryBind(valid, private, own, gives) => told(pools, *valid, *private, *own) == *gives,
        Act::AddProcess => pools.add_process().is_ok(),
        Act::AddSpare(p, t, gives) => is_spare_added(pools, *p, *t) == *gives,
        Act::TakeSpare(p, gives) => pools.take_spare(*p) == *gives,
        Act::WithdrawSpare(p, t) => is_spare_withdrawn(pools, *p, *t),
        Act::Size(gives) => pools.size() == *gives,
        Act::DropDoor(waits, parks) => is_door_dropped(alloc, pools, *waits, *parks),
        _ => false,
    }
}

fn does(alloc: Global, pools: &mut Pools, act: &Act) -> bool {
    match act {
        Act::AddTwo => are_two_pools_added(pools),
        Act::Park(t, pool, since, gives) => is_parked(pools, *t, *pool, *since) == *gives,
        Act::ParkWithRoom(t, pool, since) => is_parked_with_room(pools, *t, *pool, *since),
        Act::Unpark(t, pool, gives) => pools.unpark(*t, *pool) == *gives,
        Act::Pick(pool, gives) => is_picked(pools, *pool, *gives),
        Act::Queue(pool, item, gives) => is_queued(pools, *pool, *item, *gives),
        Act::QueueWithRoom(pool, item) => is_queued_with_room(pools, *pool, *item),
        Act::QueueCalls(from, to) => are_queued(pools, *from, *to),
        Act::CountCalls(pool, gives) => pools.calls_waiting(*pool) == *gives,
        Act::Withdraw(pool, item, gives) => pools.withdraw(*pool, *item) == *gives,
        Act::Match(pool, t, item) => is_matched(pools, *pool, *t, *item),
        Act::MatchNothing(pool) => pools.match_next(*pool).is_none(),
        _ => does_without_queue(alloc, pools, act),
    }
}

/// How many acts are answered as they are written.
fn right_acts(alloc: Global, pools: &mut Pools, acts: &[Act]) -> usize {
    for (i, act) in acts.iter().enumerate() {
        if !does(alloc, pools, act) {
            return i;
        }
    }
    acts.len()
}

/// The same of new pools.
fn right_acts_of_new(alloc: Global, acts: &[Act]) -> usize {
    match Pools::new(alloc) {
        Ok(mut pools) => right_acts(alloc, &mut pools, acts),
        Err(_) => 0,
    }
}

fn are_right<R: Abort>(rt: &R, alloc: Global, acts: &[Act]) {
    let right = right_acts_of_new(alloc, acts);
    assert!(rt; right == acts.len(), "act {right}");
}

/// A notice waits beyond 32 calls, and another pool has calls of its own. A call that is withdrawn makes room for another.
static CALLS: [Act; 17] = [
    Act::AddTwo,
    Act::QueueCalls(1, 2),
    Act::CountCalls(SERVED, 1),
    Act::QueueCalls(2, 3),
    Act::CountCalls(SERVED, 2),
    Act::QueueCalls(3, 33),
    Act::CountCalls(SERVED, 32),
    Act::Queue(SERVED, Item::Call(33), Err(Errno::EAGAIN)),
    Act::Queue(SERVED, Item::Notice(1), Ok(())),
    Act::Queue(PRIVATE, Item::Call(33), Ok(())),
    Act::CountCalls(SERVED, 32),
    Act::CountCalls(PRIVATE, 1),
    Act::QueueWithRoom(SERVED, Item::Notice(2)),
    Act::Withdraw(SERVED, Item::Call(7), true),
    Act::Withdraw(SERVED, Item::Call(7), false),
    Act::Queue(SERVED, Item::Call(34), Ok(())),
    Act::Queue(SERVED, Item::Call(35), Err(Errno::EAGAIN)),
];

#[test]
fn at_most_32_calls_wait_in_a_pool(rt: HostRuntime) {
    are_right(&rt, rt.alloc(), &CALLS);
}

/// Thread 5 parks at event 3, threads 2 and 4 at event 7; after them thread 1 cannot park at event 6, nor thread 3 at event 7.
/// Two of the three are matched with what waits, and the third is unparked.
static PARKING: [Act; 25] = [
    Act::AddTwo,
    Act::Pick(SERVED, None),
    Act::Park(Tid(5), SERVED, 3, true),
    Act::Park(Tid(2), SERVED, 7, true),
    Act::Park(Tid(4), SERVED, 7, true),
    Act::Park(Tid(1), SERVED, 6, false),
    Act::Park(Tid(3), SERVED, 7, false),
    Act::ParkWithRoom(Tid(3), PRIVATE, 7),
    Act::MatchNothing(SERVED),
    Act::Queue(SERVED, Item::Notice(9), Ok(())),
    Act::Queue(SERVED, Item::Call(1), Ok(())),
    Act::MatchNothing(PRIVATE),
    Act::Match(SERVED, 4, Item::Notice(9)),
    Act::CountCalls(SERVED, 1),
    Act::Match(SERVED, 2, Item::Call(1)),
    Act::CountCalls(SERVED, 0),
    Act::Pick(SERVED, Some(5)),
    Act::Pick(PRIVATE, Some(3)),
    Act::Unpark(Tid(3), SERVED, false),
    Act::Unpark(Tid(5), SERVED, true),
    Act::Unpark(Tid(5), SERVED, false),
    Act::Pick(SERVED, None),
    Act::Queue(SERVED, Item::Call(2), Ok(())),
    Act::MatchNothing(SERVED),
    Act::Pick(PRIVATE, Some(3)),
];

#[test]
fn the_thread_that_parked_last_is_picked(rt: HostRuntime) {
    are_right(&rt, rt.alloc(), &PARKING);
}

/// Thread 64 is bound to door 3, then to door 5, then to none.
static BINDING: [Act; 7] = [
    Act::Unbind(Tid(64), Err(Errno::EBADF)),
    Act::Bind(Tid(64), 3),
    Act::Bind(Tid(64), 5),
    Act::Bound(Tid(1), None),
    Act::Unbind(Tid(64), Ok(5)),
    Act::Unbind(Tid(64), Err(Errno::EBADF)),
    Act::Bound(Tid(64), None),
];

#[test]
fn a_thread_is_bound_to_one_door(rt: HostRuntime) {
    are_right(&rt, rt.alloc(), &BINDING);
}

static REFUSED: [Act; 6] = [
    Act::TryBind(false, false, false, Some(Errno::EBADF)),
    Act::TryBind(true, false, true, Some(Errno::EINVAL)),
    Act::TryBind(true, true, false, Some(Errno::EINVAL)),
    Act::Bound(Tid(3), None),
    Act::TryBind(true, true, true, None),
    Act::Bound(Tid(3), Some(7)),
];

#[test]
fn only_a_private_door_of_the_process_is_bound(rt: HostRuntime) {
    are_right(&rt, rt.alloc(), &REFUSED);
}

/// Two calls and a notice wait at door 1, which threads 5 and 2 are bound to and parked at. What waits there leaves with them.
static DROPPED: [Act; 10] = [
    Act::Bind(Tid(5), 1),
    Act::Bind(Tid(2), 1),
    Act::AddTwo,
    Act::QueueCalls(1, 3),
    Act::Queue(SERVED, Item::Notice(1), Ok(())),
    Act::Park(Tid(5), PRIVATE, 3, true),
    Act::Park(Tid(2), PRIVATE, 7, true),
    Act::Size(5),
    Act::DropDoor(3, 2),
    Act::Size(0),
];

#[test]
fn a_door_is_dropped_with_what_waits_there(rt: HostRuntime) {
    are_right(&rt, rt.alloc(), &DROPPED);
}

/// The lowest of three spares is taken, twice, and that of another process. Of three further ones, the second is withdrawn.
static SPARES: [Act; 18] = [
    Act::AddProcess,
    Act::AddProcess,
    Act::AddSpare(Pid(1), Tid(2), true),
    Act::AddSpare(Pid(1), Tid(5), true),
    Act::AddSpare(Pid(1), Tid(9), true),
    Act::AddSpare(Pid(1), Tid(9), false),
    Act::AddSpare(Pid(2), Tid(3), true),
    Act::TakeSpare(Pid(1), Some(Tid(2))),
    Act::TakeSpare(Pid(1), Some(Tid(5))),
    Act::TakeSpare(Pid(2), Some(Tid(3))),
    Act::TakeSpare(Pid(2), None),
    Act::AddSpare(Pid(2), Tid(11), true),
    Act::AddSpare(Pid(2), Tid(12), true),
    Act::AddSpare(Pid(2), Tid(13), true),
    Act::WithdrawSpare(Pid(2), Tid(12)),
    Act::TakeSpare(Pid(2), Some(Tid(11))),
    Act::TakeSpare(Pid(2), Some(Tid(13))),
    Act::TakeSpare(Pid(2), None),
];

#[test]
fn the_lowest_spare_is_taken(rt: HostRuntime) {
    are_right(&rt, rt.alloc(), &SPARES);
}
