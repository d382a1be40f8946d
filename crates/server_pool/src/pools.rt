//! All server pools, with the bindings of threads and the spare threads of each process.
ghost use Rattle.std.specs.Prelude.{◌≡◌, ℕ, ◌+◌, ◌-◌, ◌<◌, ◌≤◌, ◌++◌, ◌↔◌, [], ◌∷◌, Err, Ok, IfOk, IfNone, IsTrue, OnErr, OnOk, OnSome, if◌then◌else◌, is_some, length, map, min, ok_or, sum_by, true, false};
ghost use Rattle.std.specs.List.{list_any};
ghost use Rattle.std.specs.Option.{option_copied, option_map};
ghost use Rattle.dk_base.specs.declared.error.Errno.TheVariants.{EAGAIN, EBADF};
ghost use Rattle.dk_base.specs.declared.limits.TheConstants.{THREADS_MAX};
ghost use Rattle.spec_records.specs.declared.pool.Pool.TheVariants.{Private};
ghost use Rattle.spec_records.specs.declared.pool.TheConstants.{LOST_DOOR};
ghost use Rattle.spec_records.specs.Words.{bind_lost, bind_thread, bound_at, unbind_thread};
ghost use Rattle.server_pool.specs.Words.{AllBelow, AllParkedBefore, IsAscending, IsStack, change_pool, change_spares, count_calls, drop_door_in, drop_threads_in, empty_pool, enqueue_in, first_match, is_call_too_many, is_thread, is_waiting_as, item_room_in, items_at, items_waiting_at, lowest_spare, match_in, may_bind, next_of, no_pools, park_in, pick_of, pool_at, queue_in, size_in, spares_of, stack_in, thread_of, thread_room_in, unbind_each, unpark_in, with_room, with_spare, withdraw_in, without_highest, without_lowest, without_spare};

use crate::bindings::{bound_at, no_bindings, set_binding};
use crate::facts::{BindFacts, Match};
use crate::pool::ServerPool;
use crate::pool_list::{
    drop_items_at, drop_threads_at, enqueue_at, enqueue_fitting_at, match_at, park_at, room_at,
    room_for_items_at, room_for_threads_at, size_of, unpark_at, withdraw_at,
};
use crate::spares::{Spares, add_spare_at, take_back_at, take_spare_at, withdraw_spare_at};
use dk_base::error::{Errno, NoMemory};
use dk_base::limits::THREADS_MAX;
use dk_base::list::Room;
use dk_base::number::{Pid, Tid};
use dk_base::object::Item;
use spec_records::numbered::numbered_item;
use spec_records::pool::{LOST_DOOR, Parked, Pool, Waiting};
use std::alloc::Global;
use std::marker::Model;

/// What server pools hold. Clauses see the bindings of threads, the pools of processes and of doors, the spares of each process,
/// and how many more doors take no memory. A pool that is not there has no thread and no item, and a change of it changes nothing.
#[derive(Drop)]
pub struct Pools {
    alloc: Global,
    bindings: Vec<Option<u32>>,
    common: Vec<ServerPool>,
    private: Vec<ServerPool>,
    spares: Vec<Spares>,
}

impl Model for Pools {
    ghost use Rattle.std.specs.Prelude.{◌≡◌, ◌-◌, length, vec_len, vec_capacity};
    ghost use Rattle.dk_base.specs.declared.limits.TheConstants.{THREADS_MAX};
    ghost use Rattle.server_pool.specs.Words.{PoolsValue};

    ghost Value = { PoolsValue };

    ghost view = { λ p. record { bindings = p.bindings.items; common = p.common.items; private = p.private.items; spares = p.spares.items; door_room = vec_capacity p.private - vec_len p.private } };

    ghost invariant = { λ p. (length p.bindings.items ≡ THREADS_MAX) × (length p.common.items ≡ length p.spares.items) };
}

impl Pools {
    /// No process and no door, and no thread is bound.
    pub fn new(alloc: Global) -> Result<Self, NoMemory>
        ensures { IfOk result (λ pools. pools ≡ no_pools) }
    {
        Ok(Pools {
            alloc,
            bindings: no_bindings(alloc, THREADS_MAX)?,
            common: Vec::new(alloc),
            private: Vec::new(alloc),
            spares: Vec::new(alloc),
        })
    }

    /// Another process, under the next number, with an empty pool and no spare. Want of memory changes nothing.
    pub fn add_process(&mut self) -> Result<(), NoMemory>
        ensures ok { OnOk result (self.new ≡ record self.old { common = self.old.common ++ empty_pool ∷ []; spares = self.old.spares ++ [] ∷ [] }) }
        ensures err { OnErr result (self.new ≡ self.old) }
    {
        if self.common.reserve(1).is_err() || self.spares.reserve(1).is_err() {
            return Err(NoMemory);
        }
        self.common.push_reserved(ServerPool::new(self.alloc));
        self.spares.push_reserved(Spares::new(self.alloc));
        Ok(())
    }

    /// Room for another door. Want of memory changes nothing.
    pub fn reserve_door(&mut self) -> Result<(), NoMemory>
        ensures same { self.new ≡ record self.old { door_room = self.new.door_room } }
        ensures room { OnOk result (0 < self.new.door_room) }
        ensures kept { self.old.door_room ≤ self.new.door_room }
        ensures err { OnErr result (self.new ≡ self.old) }
    {
        match self.private.reserve(1) {
            Ok(()) => Ok(()),
            Err(_) => Err(NoMemory),
        }
    }

    /// Another door, under the next number, with an empty pool. It takes no memory.
    pub fn add_door(&mut self)
        requires { 0 < self.old.door_room }
        ensures { self.new ≡ record self.old { private = self.old.private ++ empty_pool ∷ []; door_room = self.old.door_room - 1 } }
    {
        self.private.push_reserved(ServerPool::new(self.alloc));
    }

    /// Room for another thread and another item in a pool, if it is there. Want of memory changes nothing but the room,
    /// which is never less than it was.
    pub fn room(&mut self, pool: Pool) -> Result<(), NoMemory>
        ensures same { self.new ≡ change_pool self.old pool (with_room (thread_room_in self.new pool) (item_room_in self.new pool)) }
        ensures threads { thread_room_in self.old pool ≤ thread_room_in self.new pool }
        ensures items { item_room_in self.old pool ≤ item_room_in self.new pool }
        ensures thread { OnOk result (is_some (pool_at self.old pool) ≡ true → 0 < thread_room_in self.new pool) }
        ensures item { OnOk result (is_some (pool_at self.old pool) ≡ true → 0 < item_room_in self.new pool) }
    {
        match pool {
            Pool::Common(p) => room_at(&mut self.common, p.0),
            Pool::Private(d) => room_at(&mut self.private, d),
        }
    }

    /// Room for so many more threads in a pool, if it is there. Want of memory changes nothing but the room, which is never
    /// less than it was.
    pub fn room_for_threads(&mut self, pool: Pool, n: usize) -> Result<(), NoMemory>
        ensures same { self.new ≡ change_pool self.old pool (with_room (thread_room_in self.new pool) (item_room_in self.new pool)) }
        ensures threads { thread_room_in self.old pool ≤ thread_room_in self.new pool }
        ensures items { item_room_in self.old pool ≤ item_room_in self.new pool }
        ensures ok { OnOk result (is_some (pool_at self.old pool) ≡ true → n ≤ thread_room_in self.new pool) }
    {
        match pool {
            Pool::Common(p) => room_for_threads_at(&mut self.common, p.0, n),
            Pool::Private(d) => room_for_threads_at(&mut self.private, d, n),
        }
    }

    /// Room for so many more items in a pool, if it is there. Want of memory changes nothing but the room, which is never less
    /// than it was.
    pub fn room_for_items(&mut self, pool: Pool, n: usize) -> Result<(), NoMemory>
        ensures same { self.new ≡ change_pool self.old pool (with_room (thread_room_in self.new pool) (item_room_in self.new pool)) }
        ensures threads { thread_room_in self.old pool ≤ thread_room_in self.new pool }
        ensures items { item_room_in self.old pool ≤ item_room_in self.new pool }
        ensures ok { OnOk result (is_some (pool_at self.old pool) ≡ true → n ≤ item_room_in self.new pool) }
    {
        match pool {
            Pool::Common(p) => room_for_items_at(&mut self.common, p.0, n),
            Pool::Private(d) => room_for_items_at(&mut self.private, d, n),
        }
    }

    /// The door that a thread is bound to.
    pub fn bound(&self, t: Tid) -> Option<u32>
        ensures door { result ≡ bound_at self.now.bindings t.0 }
        ensures places { length self.now.bindings ≡ THREADS_MAX }
    {
        bound_at(&self.bindings, t)
    }

    /// door_bind(3C): a thread is bound to a door, in place of the one that it was bound to. What the call is refused with is
    /// tested before.
    pub fn bind(&mut self, t: Tid, d: u32)
        ensures { self.new ≡ record self.old { bindings = bind_thread self.old.bindings t.0 d } }
    {
        set_binding(&mut self.bindings, t, Some(d));
    }

    /// A thread that is not parked is bound to the door that is lost, in place of the one that it was bound to (fork(2)).
    pub fn bind_lost(&mut self, t: Tid)
        requires { (pool : Pool) → list_any (is_thread t.0) (stack_in self.old pool) ≡ false }
        ensures bindings { self.new ≡ record self.old { bindings = bind_lost self.old.bindings t.0 } }
        ensures bound { 1 ≤ t.0 → t.0 ≤ THREADS_MAX → bound_at self.new.bindings t.0 ≡ Some LOST_DOOR }
    {
        set_binding(&mut self.bindings, t, Some(LOST_DOOR));
    }

    /// The same, of a door of which this is known: EBADF where it is not valid, EINVAL where it is not private or another process's.
    /// An error changes nothing.
    pub fn try_bind(&mut self, t: Tid, d: u32, facts: BindFacts) -> Result<(), Errno>
        ensures result { result ≡ may_bind facts }
        ensures ok { OnOk result (self.new ≡ record self.old { bindings = bind_thread self.old.bindings t.0 d }) }
        ensures err { OnErr result (self.new ≡ self.old) }
    {
        if !facts.valid {
            return Err(Errno::EBADF);
        }
        if !facts.is_private || !facts.own {
            return Err(Errno::EINVAL);
        }
        self.bind(t, d);
        Ok(())
    }

    /// A thread is bound to no door.
    pub fn drop_binding(&mut self, t: Tid)
        ensures { self.new ≡ record self.old { bindings = unbind_thread self.old.bindings t.0 } }
    {
        set_binding(&mut self.bindings, t, None);
    }

    /// door_unbind(3C): a thread is bound to no door, and the one that it was bound to is answered. EBADF for a thread that is
    /// bound to none, which changes nothing.
    pub fn unbind(&mut self, t: Tid) -> Result<u32, Errno>
        ensures result { result ≡ ok_or (bound_at self.old.bindings t.0) EBADF }
        ensures ok { OnOk result (self.new ≡ record self.old { bindings = unbind_thread self.old.bindings t.0 }) }
        ensures err { OnErr result (self.new ≡ self.old) }
    {
        let Some(door) = self.bound(t) else {
            return Err(Errno::EBADF);
        };
        self.drop_binding(t);
        Ok(door)
    }

    fn pool(&self, pool: Pool) -> Option<&ServerPool>
        ensures { option_copied result ≡ pool_at self.now pool }
    {
        match pool {
            Pool::Common(p) => numbered_item(&self.common, p.0),
            Pool::Private(d) => numbered_item(&self.private, d),
        }
    }

    /// Whether a pool is there.
    pub fn has(&self, pool: Pool) -> bool
        ensures { result ≡ is_some (pool_at self.now pool) }
    {
        self.pool(pool).is_some()
    }

    /// Whether a thread would park in a pool after all that are parked there.
    pub fn is_later(&self, t: Tid, pool: Pool, since: u64) -> bool
        ensures { IsTrue result ↔ AllParkedBefore (stack_in self.now pool) (record { thread = t; pool = pool; since = since }) }
    {
        let x = Parked {
            thread: t,
            pool,
            since,
        };
        match self.pool(pool) {
            Some(pool) => pool.is_later(x),
            None => true,
        }
    }

    /// A thread parks in a pool that is there, after all that are parked there: at a later event, or at the same event with a
    /// greater number. It takes no memory.
    pub fn park(&mut self, t: Tid, pool: Pool, since: u64)
        requires room { 0 < thread_room_in self.old pool }
        requires later { AllParkedBefore (stack_in self.old pool) (record { thread = t; pool = pool; since = since }) }
        ensures { self.new ≡ change_pool self.old pool (park_in (record { thread = t; pool = pool; since = since })) }
    {
        let x = Parked {
            thread: t,
            pool,
            since,
        };
        match pool {
            Pool::Common(p) => park_at(&mut self.common, p.0, x),
            Pool::Private(d) => park_at(&mut self.private, d, x),
        }
    }

    /// The thread of a pool that parked last; of several that parked at one event, the one with the greatest number.
    pub fn pick(&self, pool: Pool) -> Option<Parked>
        ensures pick { result ≡ pick_of (stack_in self.now pool) }
        ensures stack { IsStack (stack_in self.now pool) }
    {
        match self.pool(pool) {
            Some(pool) => pool.pick(),
            None => None,
        }
    }

    /// The oldest item that waits in a pool.
    pub fn next(&self, pool: Pool) -> Option<Waiting>
        ensures { result ≡ next_of (queue_in self.now pool) }
    {
        match self.pool(pool) {
            Some(pool) => pool.next(),
            None => None,
        }
    }

    /// The pick of a pool and its oldest item leave it, where there are both; else nothing changes.
    pub fn match_next(&mut self, pool: Pool) -> Option<Match>
        ensures result { result ≡ first_match (stack_in self.old pool) (queue_in self.old pool) }
        ensures some { OnSome result (self.new ≡ change_pool self.old pool match_in) }
        ensures none { IfNone result (self.new ≡ self.old) }
    {
        match pool {
            Pool::Common(p) => match_at(&mut self.common, p.0),
            Pool::Private(d) => match_at(&mut self.private, d),
        }
    }

    /// A thread leaves a pool, where the others keep their order. Says whether it was parked there.
    pub fn unpark(&mut self, t: Tid, pool: Pool) -> bool
        ensures result { result ≡ list_any (is_thread t.0) (stack_in self.old pool) }
        ensures pool { self.new ≡ change_pool self.old pool (unpark_in t.0) }
    {
        match pool {
            Pool::Common(p) => unpark_at(&mut self.common, p.0, t),
            Pool::Private(d) => unpark_at(&mut self.private, d, t),
        }
    }

    /// How many calls wait in a pool.
    pub fn calls_waiting(&self, pool: Pool) -> usize
        ensures { result ≡ count_calls (queue_in self.now pool) }
    {
        match self.pool(pool) {
            Some(pool) => pool.calls_waiting(),
            None => 0,
        }
    }

    /// An item waits in a pool, behind the others: a notice, or a call where fewer than 32 calls wait there. It takes no memory.
    pub fn enqueue_fitting(&mut self, pool: Pool, w: Waiting)
        requires room { 0 < item_room_in self.old pool }
        requires few { is_call_too_many w (queue_in self.old pool) ≡ false }
        ensures { self.new ≡ change_pool self.old pool (enqueue_in w) }
    {
        match pool {
            Pool::Common(p) => enqueue_fitting_at(&mut self.common, p.0, w),
            Pool::Private(d) => enqueue_fitting_at(&mut self.private, d, w),
        }
    }

    /// An item waits in a pool, behind the others, which takes no memory. EAGAIN for a call where 32 calls wait there, which
    /// changes nothing (door_call(3C)).
    pub fn enqueue(&mut self, pool: Pool, w: Waiting) -> Result<(), Errno>
        requires { 0 < item_room_in self.old pool }
        ensures result { result ≡ (if is_call_too_many w (queue_in self.old pool) then Err EAGAIN else Ok tt) }
        ensures ok { OnOk result (self.new ≡ change_pool self.old pool (enqueue_in w)) }
        ensures err { OnErr result (self.new ≡ self.old) }
    {
        match pool {
            Pool::Common(p) => enqueue_at(&mut self.common, p.0, w),
            Pool::Private(d) => enqueue_at(&mut self.private, d, w),
        }
    }

    /// An item leaves the queue of a pool, where the others keep their order. Says whether it waited there.
    pub fn withdraw(&mut self, pool: Pool, item: Item) -> bool
        ensures result { result ≡ list_any (is_waiting_as item) (queue_in self.old pool) }
        ensures pool { self.new ≡ change_pool self.old pool (withdraw_in item) }
    {
        match pool {
            Pool::Common(p) => withdraw_at(&mut self.common, p.0, item),
            Pool::Private(d) => withdraw_at(&mut self.private, d, item),
        }
    }

    /// How many items of a pool wait at a door.
    pub fn waiting_at(&self, pool: Pool, d: u32) -> usize
        ensures { result ≡ items_waiting_at d (queue_in self.now pool) }
    {
        match self.pool(pool) {
            Some(pool) => pool.waiting_at(d),
            None => 0,
        }
    }

    /// The items that wait at a door leave the pool that serves it, and follow what is in `into`, the oldest first. The others keep
    /// their order. It takes no memory.
    pub fn drop_items(&mut self, pool: Pool, d: u32, into: &mut Room<Item>)
        requires { items_waiting_at d (queue_in self.old pool) ≤ into.old.spare }
        ensures pool { self.new ≡ change_pool self.old pool (drop_door_in d) }
        ensures items { into.new.items ≡ into.old.items ++ items_at d (queue_in self.old pool) }
        ensures spare { into.old.spare ≤ into.new.spare + items_waiting_at d (queue_in self.old pool) }
    {
        match pool {
            Pool::Common(p) => drop_items_at(&mut self.common, p.0, d, into),
            Pool::Private(e) => drop_items_at(&mut self.private, e, d, into),
        }
    }

    /// How many threads are parked in a pool.
    pub fn parked_in(&self, pool: Pool) -> usize
        ensures { result ≡ length (stack_in self.now pool) }
    {
        match self.pool(pool) {
            Some(pool) => pool.parked_count(),
            None => 0,
        }
    }

    /// The threads that are parked in the pool of a private door leave it, in the order in which they parked.
    fn drop_threads(&mut self, d: u32, into: &mut Room<Tid>)
        requires { length (stack_in self.old (Private d)) ≤ into.old.spare }
        ensures pool { self.new ≡ change_pool self.old (Private d) drop_threads_in }
        ensures threads { into.new.items ≡ into.old.items ++ map thread_of (stack_in self.old (Private d)) }
    {
        drop_threads_at(&mut self.private, d, into);
    }

    /// These threads are bound to no door.
    fn unbind_all(&mut self, threads: &[Tid])
        ensures { self.new ≡ record self.old { bindings = unbind_each self.old.bindings threads.now } }
    {
        for t in threads {
            self.drop_binding(*t);
        }
    }

    /// A door is lost: the items that wait at it leave the pool that serves it, and the threads that are parked in the pool of its own,
    /// if it is private, leave that and are unbound. Both follow what is in the lists, in their order. It takes no memory.
    pub fn drop_door(&mut self, pool: Pool, d: u32, items: &mut Room<Item>, threads: &mut Room<Tid>)
        requires items { items_waiting_at d (queue_in self.old pool) ≤ items.old.spare }
        requires threads { length (stack_in self.old (Private d)) ≤ threads.old.spare }
        requires none_listed { threads.old.items ≡ [] }
        ensures pools { let left = change_pool (change_pool self.old pool (drop_door_in d)) (Private d) drop_threads_in in self.new ≡ record left { bindings = unbind_each self.old.bindings threads.new.items } }
        ensures items { items.new.items ≡ items.old.items ++ items_at d (queue_in self.old pool) }
        ensures threads { threads.new.items ≡ map thread_of (stack_in self.old (Private d)) }
    {
        self.drop_items(pool, d, items);
        self.drop_threads(d, threads);
        self.unbind_all(threads.slice());
    }

    /// How many items wait and how many threads are parked, in all pools, where the number can be told.
    pub fn size(&self) -> usize
        ensures { result ≡ min (size_in self.now) usize.MAX }
    {
        size_of(&self.common).saturating_add(size_of(&self.private))
    }

    /// Whether a number is above those of all spares of a process.
    pub fn is_above_spares(&self, p: Pid, t: Tid) -> bool
        ensures { IsTrue result ↔ AllBelow t.0 (spares_of self.now p.0) }
    {
        match numbered_item(&self.spares, p.0) {
            Some(spares) => spares.are_below(t),
            None => true,
        }
    }

    /// Another spare of a process, with a number above those of its others. A number that no process has gets none. Want of
    /// memory changes nothing.
    pub fn add_spare(&mut self, p: Pid, t: Tid) -> Result<(), NoMemory>
        requires { AllBelow t.0 (spares_of self.old p.0) }
        ensures ok { OnOk result (self.new ≡ change_spares self.old p.0 (with_spare t.0)) }
        ensures err { OnErr result (self.new ≡ self.old) }
    {
        add_spare_at(&mut self.spares, p.0, t)
    }

    /// The lowest spare of a process leaves, where it has one.
    pub fn take_spare(&mut self, p: Pid) -> Option<Tid>
        ensures result { option_map (λ t. t.0) result ≡ lowest_spare (spares_of self.old p.0) }
        ensures left { self.new ≡ change_spares self.old p.0 without_lowest }
        ensures ascending { IsAscending (spares_of self.old p.0) }
    {
        take_spare_at(&mut self.spares, p.0)
    }

    /// The highest spare of a process leaves, where it has one: the one that was added last, if none was taken since.
    pub fn take_back(&mut self, p: Pid)
        ensures { self.new ≡ change_spares self.old p.0 without_highest }
    {
        take_back_at(&mut self.spares, p.0)
    }

    /// A thread that ends before it was started is no spare of its process any more; the others keep their order.
    pub fn withdraw_spare(&mut self, p: Pid, t: Tid)
        ensures { self.new ≡ change_spares self.old p.0 (without_spare t.0) }
    {
        withdraw_spare_at(&mut self.spares, p.0, t)
    }
}
