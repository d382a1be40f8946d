//! One server pool.
ghost use Rattle.std.specs.Prelude.{◌≡◌, ◌+◌, ◌++◌, ◌∷◌, ◌<◌, ◌≤◌, ◌↔◌, [], Err, Ok, IfNone, IsTrue, OnErr, OnOk, OnSome, false, if◌then◌else◌, length, map, true, vec_capacity};
ghost use Rattle.std.specs.List.{list_any};
ghost use Rattle.std.specs.VecDeque.{deque_capacity};
ghost use Rattle.dk_base.specs.declared.error.Errno.TheVariants.{EAGAIN};
ghost use Rattle.server_pool.specs.Words.{AllParkedBefore, IsStack, ParkedBefore, count_calls, drop_door_in, drop_threads_in, empty_pool, enqueue_in, first_match, is_call, is_call_too_many, is_item, is_thread, is_waiting_as, items_at, items_waiting_at, match_in, next_of, park_in, pick_of, thread_of, unpark_in, with_room, withdraw_in, without_door, without_item, without_thread};

use crate::facts::Match;
use dk_base::error::{Errno, NoMemory};
use dk_base::limits::QUEUE_MAX;
use dk_base::list::Room;
use dk_base::number::Tid;
use dk_base::object::Item;
use spec_records::pool::{Parked, Waiting};
use std::alloc::Global;
use std::collections::VecDeque;
use std::marker::Model;

/// The threads that are parked in a pool, and what waits in it. Clauses see both as lists, and how many more of each take
/// no memory.
#[derive(Drop)]
pub struct ServerPool {
    /// In the order in which they parked: the pick is the last.
    parked: Vec<Parked>,
    /// The oldest first.
    waiting: VecDeque<Waiting>,
    /// How many of the items are calls.
    calls: usize,
}

impl Model for ServerPool {
    ghost use Rattle.std.specs.Prelude.{◌≡◌, ◌-◌, vec_len, vec_capacity};
    ghost use Rattle.std.specs.VecDeque.{deque_len, deque_capacity};
    ghost use Rattle.server_pool.specs.Words.{IsStack, PoolValue, count_calls};

    ghost Value = { PoolValue };

    ghost view = { λ p. record { parked = p.parked.items; waiting = p.waiting.items; thread_room = vec_capacity p.parked - vec_len p.parked; item_room = deque_capacity p.waiting - deque_len p.waiting } };

    ghost invariant = { λ p. IsStack p.parked.items × (p.calls ≡ count_calls p.waiting.items) };
}

fn is_call(item: Item) -> bool
    ensures { result ≡ is_call item }
{
    matches!(item, Item::Call(_))
}

fn is_item(item: Item, other: Item) -> bool
    ensures { result ≡ is_item item other }
{
    match (item, other) {
        (Item::Call(c), Item::Call(d)) => c == d,
        (Item::Notice(m), Item::Notice(n)) => m == n,
        _ => false,
    }
}

fn is_waiting_as(item: Item, w: &Waiting) -> bool
    ensures { result ≡ is_waiting_as item w.now }
{
    is_item(item, w.item)
}

fn count_calls(waiting: &VecDeque<Waiting>) -> usize
    ensures { result ≡ count_calls waiting.now.items }
{
    waiting.iter().filter(|w| is_call(w.item)).count()
}

/// How many of these calls are left without an item.
fn calls_without(calls: usize, item: Item) -> usize
    requires { is_call item ≡ true → 0 < calls }
    ensures { result + (if is_call item then 1 else 0) ≡ calls }
{
    if is_call(item) { calls - 1 } else { calls }
}

fn is_parked(parked: &[Parked], t: Tid) -> bool
    ensures { result ≡ list_any (is_thread t.0) parked.now }
{
    parked.iter().any(|x| x.thread.0 == t.0)
}

/// Whether `x` parked at an earlier event than `y`, or at the same event with a lower number.
fn parked_before(x: Parked, y: Parked) -> bool
    ensures { IsTrue result ↔ ParkedBefore x y }
{
    x.since < y.since || (x.since == y.since && x.thread.0 < y.thread.0)
}

fn remove_thread(parked: &mut Vec<Parked>, t: Tid)
    ensures items { parked.new.items ≡ without_thread t.0 parked.old.items }
    ensures capacity { vec_capacity parked.new ≡ vec_capacity parked.old }
{
    parked.retain(|x| x.thread.0 != t.0);
}

fn waits(waiting: &VecDeque<Waiting>, item: Item) -> bool
    ensures { result ≡ list_any (is_waiting_as item) waiting.now.items }
{
    waiting.iter().any(|w| is_waiting_as(item, w))
}

fn remove_item(waiting: &mut VecDeque<Waiting>, item: Item)
    ensures items { waiting.new.items ≡ without_item item waiting.old.items }
    ensures capacity { deque_capacity waiting.new ≡ deque_capacity waiting.old }
{
    waiting.retain(|w| !is_waiting_as(item, w));
}

/// An item follows what is in `into` where it waits at a door.
fn list_item(w: Waiting, d: u32, into: &mut Room<Item>)
    requires { items_waiting_at d (w ∷ []) ≤ into.old.spare }
    ensures items { into.new.items ≡ into.old.items ++ items_at d (w ∷ []) }
    ensures spare { into.old.spare ≤ into.new.spare + items_waiting_at d (w ∷ []) }
{
    if w.door == d {
        into.push(w.item);
    }
}

/// The items that wait at a door follow what is in `into`, the oldest first. It takes no memory.
fn list_items(waiting: &VecDeque<Waiting>, d: u32, into: &mut Room<Item>)
    requires { items_waiting_at d waiting.now.items ≤ into.old.spare }
    ensures items { into.new.items ≡ into.old.items ++ items_at d waiting.now.items }
    ensures spare { into.old.spare ≤ into.new.spare + items_waiting_at d waiting.now.items }
{
    for i in 0..waiting.len() {
        list_item(waiting[i], d, into);
    }
}

fn remove_door(waiting: &mut VecDeque<Waiting>, d: u32)
    ensures items { waiting.new.items ≡ without_door d waiting.old.items }
    ensures capacity { deque_capacity waiting.new ≡ deque_capacity waiting.old }
{
    waiting.retain(|w| w.door != d);
}

/// The threads follow what is in `into`, in the order in which they parked. It takes no memory.
fn list_threads(parked: &[Parked], into: &mut Room<Tid>)
    requires { length parked.now ≤ into.old.spare }
    ensures { into.new.items ≡ into.old.items ++ map thread_of parked.now }
{
    for x in parked {
        into.push(x.thread);
    }
}

impl ServerPool {
    /// Nothing, and no room.
    pub fn new(alloc: Global) -> Self
        ensures { result ≡ empty_pool }
    {
        ServerPool {
            parked: Vec::new(alloc),
            waiting: VecDeque::from_vec(Vec::new(alloc)),
            calls: 0,
        }
    }

    /// Room for another thread and another item. Want of memory leaves all but the room as it was.
    pub fn room(&mut self) -> Result<(), NoMemory>
        ensures same { self.new ≡ with_room self.new.thread_room self.new.item_room self.old }
        ensures threads { self.old.thread_room ≤ self.new.thread_room }
        ensures items { self.old.item_room ≤ self.new.item_room }
        ensures thread { OnOk result (0 < self.new.thread_room) }
        ensures item { OnOk result (0 < self.new.item_room) }
    {
        if self.parked.reserve(1).is_err() {
            return Err(NoMemory);
        }
        match self.waiting.reserve(1) {
            Ok(()) => Ok(()),
            Err(_) => Err(NoMemory),
        }
    }

    /// Room for so many more threads. Want of memory changes nothing.
    pub fn room_for_threads(&mut self, n: usize) -> Result<(), NoMemory>
        ensures same { self.new ≡ with_room self.new.thread_room self.new.item_room self.old }
        ensures threads { self.old.thread_room ≤ self.new.thread_room }
        ensures items { self.old.item_room ≤ self.new.item_room }
        ensures ok { OnOk result (n ≤ self.new.thread_room) }
    {
        match self.parked.reserve(n) {
            Ok(()) => Ok(()),
            Err(_) => Err(NoMemory),
        }
    }

    /// Room for so many more items. Want of memory changes nothing.
    pub fn room_for_items(&mut self, n: usize) -> Result<(), NoMemory>
        ensures same { self.new ≡ with_room self.new.thread_room self.new.item_room self.old }
        ensures threads { self.old.thread_room ≤ self.new.thread_room }
        ensures items { self.old.item_room ≤ self.new.item_room }
        ensures ok { OnOk result (n ≤ self.new.item_room) }
    {
        match self.waiting.reserve(n) {
            Ok(()) => Ok(()),
            Err(_) => Err(NoMemory),
        }
    }

    /// Whether a thread would park after all the others.
    pub fn is_later(&self, x: Parked) -> bool
        ensures { IsTrue result ↔ AllParkedBefore self.now.parked x }
    {
        match self.pick() {
            Some(top) => parked_before(top, x),
            None => true,
        }
    }

    /// A thread parks after all the others. It takes no memory.
    #[tactic(auto, using(crate::proofs::Order::stack_push))]
    pub fn park(&mut self, x: Parked)
        requires room { 0 < self.old.thread_room }
        requires later { AllParkedBefore self.old.parked x }
        ensures { self.new ≡ park_in x self.old }
    {
        self.parked.push_reserved(x);
    }

    /// The thread that parked last; of several that parked at one event, the one with the greatest number.
    #[tactic(auto, using(crate::proofs::Order::picked))]
    pub fn pick(&self) -> Option<Parked>
        ensures pick { result ≡ pick_of self.now.parked }
        ensures stack { IsStack self.now.parked }
    {
        self.parked.last().copied()
    }

    /// The oldest item.
    pub fn next(&self) -> Option<Waiting>
        ensures { result ≡ next_of self.now.waiting }
    {
        self.waiting.front().copied()
    }

    /// The pick and the oldest item leave, where there are both.
    pub fn match_next(&mut self) -> Option<Match>
        ensures result { result ≡ first_match self.old.parked self.old.waiting }
        ensures some { OnSome result (self.new ≡ match_in self.old) }
        ensures none { IfNone result (self.new ≡ self.old) }
    {
        if self.parked.is_empty() {
            return None;
        }
        let first = self.waiting.pop_front()?;
        self.calls = calls_without(self.calls, first.item);
        let top = self.parked.take_last();
        Some(Match {
            thread: top.thread,
            item: first.item,
        })
    }

    /// A thread leaves, and the others keep their order. Says whether it was there.
    pub fn unpark(&mut self, t: Tid) -> bool
        ensures result { result ≡ list_any (is_thread t.0) self.old.parked }
        ensures pool { self.new ≡ unpark_in t.0 self.old }
    {
        let there = is_parked(&self.parked, t);
        remove_thread(&mut self.parked, t);
        there
    }

    /// How many calls wait.
    pub fn calls_waiting(&self) -> usize
        ensures { result ≡ count_calls self.now.waiting }
    {
        self.calls
    }

    /// An item waits behind the others: a notice, or a call where fewer than 32 calls wait. It takes no memory.
    pub fn enqueue_fitting(&mut self, w: Waiting)
        requires room { 0 < self.old.item_room }
        requires few { is_call_too_many w self.old.waiting ≡ false }
        ensures { self.new ≡ enqueue_in w self.old }
    {
        if is_call(w.item) {
            self.calls += 1;
        }
        self.waiting.push_back_reserved(w);
    }

    /// The same. EAGAIN for a call where 32 calls wait, which changes nothing.
    pub fn enqueue(&mut self, w: Waiting) -> Result<(), Errno>
        requires { 0 < self.old.item_room }
        ensures result { result ≡ (if is_call_too_many w self.old.waiting then Err EAGAIN else Ok tt) }
        ensures ok { OnOk result (self.new ≡ enqueue_in w self.old) }
        ensures err { OnErr result (self.new ≡ self.old) }
    {
        if is_call(w.item) && self.calls >= QUEUE_MAX {
            return Err(Errno::EAGAIN);
        }
        self.enqueue_fitting(w);
        Ok(())
    }

    /// An item leaves, and the others keep their order. Says whether it was there.
    pub fn withdraw(&mut self, item: Item) -> bool
        ensures result { result ≡ list_any (is_waiting_as item) self.old.waiting }
        ensures pool { self.new ≡ withdraw_in item self.old }
    {
        let there = waits(&self.waiting, item);
        remove_item(&mut self.waiting, item);
        self.calls = count_calls(&self.waiting);
        there
    }
    /// How many items wait.
    pub fn waiting_count(&self) -> usize
        ensures { result ≡ length self.now.waiting }
    {
        self.waiting.len()
    }

    /// How many items wait at a door.
    pub fn waiting_at(&self, d: u32) -> usize
        ensures { result ≡ items_waiting_at d self.now.waiting }
    {
        self.waiting.iter().filter(|w| w.door == d).count()
    }

    /// The items that wait at a door leave, and follow what is in `into`, the oldest first. The others keep their order. It takes no
    /// memory.
    pub fn drop_items(&mut self, d: u32, into: &mut Room<Item>)
        requires { items_waiting_at d self.old.waiting ≤ into.old.spare }
        ensures pool { self.new ≡ drop_door_in d self.old }
        ensures items { into.new.items ≡ into.old.items ++ items_at d self.old.waiting }
        ensures spare { into.old.spare ≤ into.new.spare + items_waiting_at d self.old.waiting }
    {
        list_items(&self.waiting, d, into);
        remove_door(&mut self.waiting, d);
        self.calls = count_calls(&self.waiting);
    }

    /// How many threads are parked.
    pub fn parked_count(&self) -> usize
        ensures { result ≡ length self.now.parked }
    {
        self.parked.len()
    }

    /// All threads leave, and follow what is in `into`, in the order in which they parked. It takes no memory.
    pub fn drop_threads(&mut self, into: &mut Room<Tid>)
        requires { length self.old.parked ≤ into.old.spare }
        ensures pool { self.new ≡ drop_threads_in self.old }
        ensures threads { into.new.items ≡ into.old.items ++ map thread_of self.old.parked }
    {
        list_threads(&self.parked, into);
        self.parked.clear();
    }
}
