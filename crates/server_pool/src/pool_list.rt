//! Pools that are numbered from 1. A number that no pool has is that of no pool: nothing changes.
ghost use Rattle.std.specs.Prelude.{◌≡◌, ◌+◌, ◌<◌, ◌≤◌, ◌++◌, Err, Ok, IfNone, IfSome, None, OnErr, OnOk, OnSome, false, if◌then◌else◌, is_some, length, map, min, sum_by, true};
ghost use Rattle.std.specs.List.{list_any};
ghost use Rattle.dk_base.specs.declared.error.Errno.TheVariants.{EAGAIN};
ghost use Rattle.dk_base.specs.ByNumber.{at_number};
ghost use Rattle.server_pool.specs.Words.{AllParkedBefore, PoolValue, change_at_number, drop_door_in, drop_threads_in, enqueue_in, first_match, is_call_too_many, is_thread, is_waiting_as, items_at, items_waiting_at, match_in, park_in, pool_or_empty, pool_size, thread_of, unpark_in, with_room, withdraw_in};

use crate::facts::Match;
use crate::numbered::place_of;
use crate::pool::ServerPool;
use dk_base::error::{Errno, NoMemory};
use dk_base::list::Room;
use dk_base::number::Tid;
use dk_base::object::Item;
use spec_records::pool::{Parked, Waiting};

/// Room for another thread and another item of a pool, if it is there.
#[tactic(auto, using(spec_records::proofs::Places::numbered_here))]
pub fn room_at(pools: &mut [ServerPool], number: u32) -> Result<(), NoMemory>
    ensures same { pools.new ≡ change_at_number pools.old number (with_room (pool_or_empty (at_number pools.new number)).thread_room (pool_or_empty (at_number pools.new number)).item_room) }
    ensures threads { (pool_or_empty (at_number pools.old number)).thread_room ≤ (pool_or_empty (at_number pools.new number)).thread_room }
    ensures items { (pool_or_empty (at_number pools.old number)).item_room ≤ (pool_or_empty (at_number pools.new number)).item_room }
    ensures thread { OnOk result (is_some (at_number pools.old number) ≡ true → 0 < (pool_or_empty (at_number pools.new number)).thread_room) }
    ensures item { OnOk result (is_some (at_number pools.old number) ≡ true → 0 < (pool_or_empty (at_number pools.new number)).item_room) }
{
    match place_of(pools, number) {
        Some(place) => {
            let pool = &mut pools[place];
            pool.room()
        }
        None => Ok(()),
    }
}

/// Room for so many more threads of a pool, if it is there.
#[tactic(auto, using(spec_records::proofs::Places::numbered_here))]
pub fn room_for_threads_at(pools: &mut [ServerPool], number: u32, n: usize) -> Result<(), NoMemory>
    ensures same { pools.new ≡ change_at_number pools.old number (with_room (pool_or_empty (at_number pools.new number)).thread_room (pool_or_empty (at_number pools.new number)).item_room) }
    ensures threads { (pool_or_empty (at_number pools.old number)).thread_room ≤ (pool_or_empty (at_number pools.new number)).thread_room }
    ensures items { (pool_or_empty (at_number pools.old number)).item_room ≤ (pool_or_empty (at_number pools.new number)).item_room }
    ensures ok { OnOk result (is_some (at_number pools.old number) ≡ true → n ≤ (pool_or_empty (at_number pools.new number)).thread_room) }
{
    match place_of(pools, number) {
        Some(place) => {
            let pool = &mut pools[place];
            pool.room_for_threads(n)
        }
        None => Ok(()),
    }
}

/// Room for so many more items of a pool, if it is there.
#[tactic(auto, using(spec_records::proofs::Places::numbered_here))]
pub fn room_for_items_at(pools: &mut [ServerPool], number: u32, n: usize) -> Result<(), NoMemory>
    ensures same { pools.new ≡ change_at_number pools.old number (with_room (pool_or_empty (at_number pools.new number)).thread_room (pool_or_empty (at_number pools.new number)).item_room) }
    ensures threads { (pool_or_empty (at_number pools.old number)).thread_room ≤ (pool_or_empty (at_number pools.new number)).thread_room }
    ensures items { (pool_or_empty (at_number pools.old number)).item_room ≤ (pool_or_empty (at_number pools.new number)).item_room }
    ensures ok { OnOk result (is_some (at_number pools.old number) ≡ true → n ≤ (pool_or_empty (at_number pools.new number)).item_room) }
{
    match place_of(pools, number) {
        Some(place) => {
            let pool = &mut pools[place];
            pool.room_for_items(n)
        }
        None => Ok(()),
    }
}

/// A thread parks in a pool after all the others. It takes no memory.
#[tactic(auto, using(spec_records::proofs::Places::numbered_here))]
pub fn park_at(pools: &mut [ServerPool], number: u32, x: Parked)
    requires room { 0 < (pool_or_empty (at_number pools.old number)).thread_room }
    requires later { AllParkedBefore (pool_or_empty (at_number pools.old number)).parked x }
    ensures { pools.new ≡ change_at_number pools.old number (park_in x) }
{
    if let Some(place) = place_of(pools, number) {
        let pool = &mut pools[place];
        pool.park(x);
    }
}

/// The pick of a pool and its oldest item leave, where there are both.
#[tactic(auto, using(spec_records::proofs::Places::numbered_here))]
pub fn match_at(pools: &mut [ServerPool], number: u32) -> Option<Match>
    ensures result { let pool = pool_or_empty (at_number pools.old number) in result ≡ first_match pool.parked pool.waiting }
    ensures some { OnSome result (pools.new ≡ change_at_number pools.old number match_in) }
    ensures none { IfNone result (pools.new ≡ pools.old) }
{
    match place_of(pools, number) {
        Some(place) => {
            let pool = &mut pools[place];
            pool.match_next()
        }
        None => None,
    }
}

/// A thread leaves a pool. Says whether it was there.
#[tactic(auto, using(spec_records::proofs::Places::numbered_here))]
pub fn unpark_at(pools: &mut [ServerPool], number: u32, t: Tid) -> bool
    ensures result { result ≡ list_any (is_thread t.0) (pool_or_empty (at_number pools.old number)).parked }
    ensures pools { pools.new ≡ change_at_number pools.old number (unpark_in t.0) }
{
    match place_of(pools, number) {
        Some(place) => {
            let pool = &mut pools[place];
            pool.unpark(t)
        }
        None => false,
    }
}

/// An item waits behind the others, where it is a notice or fewer than 32 calls wait. It takes no memory.
#[tactic(auto, using(spec_records::proofs::Places::numbered_here))]
pub fn enqueue_fitting_at(pools: &mut [ServerPool], number: u32, w: Waiting)
    requires room { 0 < (pool_or_empty (at_number pools.old number)).item_room }
    requires few { is_call_too_many w (pool_or_empty (at_number pools.old number)).waiting ≡ false }
    ensures { pools.new ≡ change_at_number pools.old number (enqueue_in w) }
{
    if let Some(place) = place_of(pools, number) {
        let pool = &mut pools[place];
        pool.enqueue_fitting(w);
    }
}

/// An item waits behind the others, which takes no memory. EAGAIN for a call where 32 calls wait.
#[tactic(auto, using(spec_records::proofs::Places::numbered_here))]
pub fn enqueue_at(pools: &mut [ServerPool], number: u32, w: Waiting) -> Result<(), Errno>
    requires { 0 < (pool_or_empty (at_number pools.old number)).item_room }
    ensures result { result ≡ (if is_call_too_many w (pool_or_empty (at_number pools.old number)).waiting then Err EAGAIN else Ok tt) }
    ensures ok { OnOk result (pools.new ≡ change_at_number pools.old number (enqueue_in w)) }
    ensures err { OnErr result (pools.new ≡ pools.old) }
{
    match place_of(pools, number) {
        Some(place) => {
            let pool = &mut pools[place];
            pool.enqueue(w)
        }
        None => Ok(()),
    }
}

/// An item leaves a pool. Says whether it was there.
#[tactic(auto, using(spec_records::proofs::Places::numbered_here))]
pub fn withdraw_at(pools: &mut [ServerPool], number: u32, item: Item) -> bool
    ensures result { result ≡ list_any (is_waiting_as item) (pool_or_empty (at_number pools.old number)).waiting }
    ensures pools { pools.new ≡ change_at_number pools.old number (withdraw_in item) }
{
    match place_of(pools, number) {
        Some(place) => {
            let pool = &mut pools[place];
            pool.withdraw(item)
        }
        None => false,
    }
}

/// The items of a pool that wait at a door leave it, and follow what is in `into`. It takes no memory.
#[tactic(auto, using(spec_records::proofs::Places::numbered_here))]
pub fn drop_items_at(pools: &mut [ServerPool], number: u32, d: u32, into: &mut Room<Item>)
    requires { items_waiting_at d (pool_or_empty (at_number pools.old number)).waiting ≤ into.old.spare }
    ensures pools { pools.new ≡ change_at_number pools.old number (drop_door_in d) }
    ensures items { into.new.items ≡ into.old.items ++ items_at d (pool_or_empty (at_number pools.old number)).waiting }
    ensures spare { into.old.spare ≤ into.new.spare + items_waiting_at d (pool_or_empty (at_number pools.old number)).waiting }
{
    if let Some(place) = place_of(pools, number) {
        let pool = &mut pools[place];
        pool.drop_items(d, into);
    }
}

/// The threads of a pool leave it, and follow what is in `into`. It takes no memory.
#[tactic(auto, using(spec_records::proofs::Places::numbered_here))]
pub fn drop_threads_at(pools: &mut [ServerPool], number: u32, into: &mut Room<Tid>)
    requires { length (pool_or_empty (at_number pools.old number)).parked ≤ into.old.spare }
    ensures pools { pools.new ≡ change_at_number pools.old number drop_threads_in }
    ensures threads { into.new.items ≡ into.old.items ++ map thread_of (pool_or_empty (at_number pools.old number)).parked }
{
    if let Some(place) = place_of(pools, number) {
        let pool = &mut pools[place];
        pool.drop_threads(into);
    }
}

/// How many threads and items there are in all, where the number can be told.
pub fn size_of(pools: &[ServerPool]) -> usize
    ensures { result ≡ min (sum_by pool_size pools.now) usize.MAX }
{
    let mut size = 0usize;
    for pool in pools {
        size = size
            .saturating_add(pool.parked_count())
            .saturating_add(pool.waiting_count());
    }
    size
}
