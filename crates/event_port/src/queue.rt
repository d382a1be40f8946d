//! One port.
ghost use Rattle.std.specs.Prelude.{◌≡◌, ◌+◌, ◌<◌, ◌≤◌, ◌++◌, ◌∷◌, ◌^◌, [], OnErr, OnOk, false, filter, if◌then◌else◌, is_some, length, position, slice_get, take, true};
ghost use Rattle.std.specs.List.{list_any};
ghost use Rattle.std.specs.VecDeque.{deque_capacity, deque_len};
ghost use Rattle.dk_base.specs.declared.limits.TheConstants.{USER_EVENTS_MAX};
ghost use Rattle.event_port.specs.Words.{timer_count, without_oldest};
ghost use Rattle.spec_records.specs.Words.{alert_event, associations_of, change_first, events_found, first_found, grown_event, has_event_of, has_timer_event, is_event_of, is_full_port, is_other_event, is_other_timer_event, is_timer_event, is_user_event, new_port, records_of, user_event, user_events, with_alert, with_event, with_grown_event, without_event, without_found, without_timer_event};

use dk_base::error::NoMemory;
use dk_base::limits::USER_EVENTS_MAX;
use dk_base::list::Room;
use dk_base::object::{EventRec, Src};
use spec_records::port::{Alert, Queued};
use std::alloc::Global;
use std::collections::VecDeque;
use std::marker::Model;

/// A port. Clauses see its record and how many more events take no memory (`room`).
#[derive(Drop)]
pub struct PortQueue {
    number: u32,
    alert: Option<Alert>,
    /// The oldest first.
    queue: VecDeque<Queued>,
    /// How many of the events are user events.
    users: usize,
}

impl Model for PortQueue {
    ghost use Rattle.std.specs.Prelude.{◌≡◌, ◌≤◌, ◌-◌};
    ghost use Rattle.std.specs.VecDeque.{deque_len, deque_capacity};
    ghost use Rattle.dk_base.specs.declared.limits.TheConstants.{USER_EVENTS_MAX};
    ghost use Rattle.spec_records.specs.Words.{user_events};
    ghost use Rattle.event_port.specs.Words.{PortValue};

    ghost Value = { PortValue };

    ghost view = { λ x. record { port = record { number = x.number; alert = x.alert; queue = x.queue.items }; room = deque_capacity x.queue - deque_len x.queue } };

    ghost invariant = { λ x. (x.users ≡ user_events x.queue.items) × (x.users ≤ USER_EVENTS_MAX) };
}

fn is_user_event(q: &Queued) -> bool
    ensures { result ≡ is_user_event q.now }
{
    matches!(q.rec.source, Src::User)
}

fn user_event(events: u32, user: u64) -> Queued
    ensures { result ≡ user_event events user }
{
    Queued {
        rec: EventRec {
            source: Src::User,
            object: 0,
            events,
            user,
        },
        assoc: None,
        timer: None,
    }
}

fn alert_event(alert: Alert) -> Queued
    ensures { result ≡ alert_event alert }
{
    Queued {
        rec: EventRec {
            source: Src::Alert,
            object: 0,
            events: alert.events,
            user: alert.user,
        },
        assoc: None,
        timer: None,
    }
}

fn count_users(queue: &VecDeque<Queued>) -> usize
    ensures { result ≡ user_events queue.now.items }
{
    queue.iter().filter(|q| is_user_event(q)).count()
}

fn is_event_of(q: &Queued, assoc: u32) -> bool
    ensures { result ≡ is_event_of assoc q.now }
{
    match q.assoc {
        Some(number) => number == assoc,
        None => false,
    }
}

fn has_event_of(queue: &VecDeque<Queued>, assoc: u32) -> bool
    ensures { result ≡ list_any (is_event_of assoc) queue.now.items }
{
    queue.iter().any(|q| is_event_of(q, assoc))
}

fn remove_event(queue: &mut VecDeque<Queued>, assoc: u32)
    ensures items { queue.new.items ≡ filter (is_other_event assoc) queue.old.items }
    ensures len { deque_len queue.new ≤ deque_len queue.old }
    ensures capacity { deque_capacity queue.new ≡ deque_capacity queue.old }
{
    queue.retain(|q| !is_event_of(q, assoc));
}

fn is_timer_event(q: &Queued, timer: u32) -> bool
    ensures { result ≡ is_timer_event timer q.now }
{
    match q.timer {
        Some(number) => number == timer,
        None => false,
    }
}

fn has_timer_event(queue: &VecDeque<Queued>, timer: u32) -> bool
    ensures { result ≡ list_any (is_timer_event timer) queue.now.items }
{
    queue.iter().any(|q| is_timer_event(q, timer))
}

/// The place of the event of a timer.
fn place_of_timer(queue: &VecDeque<Queued>, timer: u32) -> Option<usize>
    ensures { result ≡ position (is_timer_event timer) queue.now.items }
{
    queue.iter().position(|q| is_timer_event(q, timer))
}

fn grow_event(q: &mut Queued, by: u32)
    requires { q.old.rec.events + by < 2 ^ 32 }
    ensures { q.new ≡ grown_event by q.old }
{
    q.rec.events += by;
}

fn remove_timer(queue: &mut VecDeque<Queued>, timer: u32)
    ensures items { queue.new.items ≡ filter (is_other_timer_event timer) queue.old.items }
    ensures len { deque_len queue.new ≤ deque_len queue.old }
    ensures capacity { deque_capacity queue.new ≡ deque_capacity queue.old }
{
    queue.retain(|q| !is_timer_event(q, timer));
}

/// How many user events are left without this one.
fn users_without(users: usize, q: &Queued) -> usize
    requires { is_user_event q.now ≡ true → 0 < users }
    ensures { result + (if is_user_event q.now then 1 else 0) ≡ users }
{
    if is_user_event(q) { users - 1 } else { users }
}

/// An event as it is retrieved follows what is in `into`, and the number of the association that queued it, if one did, what is in
/// `ids`. It takes no memory.
fn hand_out(q: Queued, into: &mut Room<EventRec>, ids: &mut Room<u32>)
    requires records { 0 < into.old.spare }
    requires numbers { 0 < ids.old.spare }
    ensures records { into.new.items ≡ into.old.items ++ records_of (q ∷ []) }
    ensures numbers { ids.new.items ≡ ids.old.items ++ associations_of (q ∷ []) }
    ensures record_room { into.old.spare ≤ into.new.spare + 1 }
    ensures number_room { ids.old.spare ≤ ids.new.spare + 1 }
{
    into.push(q.rec);
    if let Some(number) = q.assoc {
        ids.push(number);
    }
}

impl PortQueue {
    /// A port without an alert, at which nothing is queued.
    pub fn new(alloc: Global, number: u32) -> Self
        ensures { result.port ≡ new_port number }
    {
        PortQueue {
            number,
            alert: None,
            queue: VecDeque::new(alloc),
            users: 0,
        }
    }

    /// Room for so many more events. Want of memory leaves all but the room as it was.
    pub fn reserve(&mut self, n: usize) -> Result<(), NoMemory>
        ensures port { self.new.port ≡ self.old.port }
        ensures kept { self.old.room ≤ self.new.room }
        ensures ok { OnOk result (n ≤ self.new.room) }
        ensures cause { OnErr result (self.old.room < n) }
    {
        match self.queue.reserve(n) {
            Ok(()) => Ok(()),
            Err(_) => Err(NoMemory),
        }
    }

    /// How many events are queued.
    pub fn len(&self) -> usize
        ensures len { result ≡ length self.now.port.queue }
        ensures few { user_events self.now.port.queue ≤ USER_EVENTS_MAX }
    {
        self.queue.len()
    }

    /// Whether no further user event is taken.
    pub fn is_full(&self) -> bool
        ensures { result ≡ is_full_port self.now.port }
    {
        self.users >= USER_EVENTS_MAX
    }

    /// A user event is queued, where the port is not full. It takes no memory.
    pub fn send(&mut self, events: u32, user: u64)
        requires room { 0 < self.old.room }
        requires few { is_full_port self.old.port ≡ false }
        ensures port { self.new.port ≡ with_event (user_event events user) self.old.port }
        ensures room { self.old.room ≡ self.new.room + 1 }
    {
        self.queue.push_back_reserved(user_event(events, user));
        self.users += 1;
    }

    /// An event that is no user event is queued. It takes no memory.
    pub fn post(&mut self, q: Queued)
        requires room { 0 < self.old.room }
        requires other { is_user_event q ≡ false }
        ensures port { self.new.port ≡ with_event q self.old.port }
        ensures room { self.old.room ≡ self.new.room + 1 }
        ensures places { self.old.room + length self.old.port.queue ≤ self.new.room + length self.new.port.queue }
    {
        self.queue.push_back_reserved(q);
    }

    /// What an association queued leaves, and the others keep their order. Says whether there was such an event.
    pub fn withdraw(&mut self, assoc: u32) -> bool
        ensures result { result ≡ has_event_of assoc self.old.port }
        ensures port { self.new.port ≡ without_event assoc self.old.port }
        ensures room { self.old.room ≤ self.new.room }
        ensures places { self.old.room + length self.old.port.queue ≤ self.new.room + length self.new.port.queue }
    {
        let there = has_event_of(&self.queue, assoc);
        remove_event(&mut self.queue, assoc);
        self.users = count_users(&self.queue);
        there
    }

    /// The event that a timer queued counts so many more, and keeps its place. Says whether there was such an event.
    pub fn grow(&mut self, timer: u32, by: u32) -> bool
        requires { timer_count timer self.old.port + by < 2 ^ 32 }
        ensures result { result ≡ has_timer_event timer self.old.port }
        ensures port { self.new.port ≡ with_grown_event timer by self.old.port }
        ensures none { result ≡ false → self.new.port ≡ self.old.port }
        ensures room { self.new.room ≡ self.old.room }
    {
        match place_of_timer(&self.queue, timer) {
            Some(place) => {
                grow_event(&mut self.queue[place], by);
                true
            }
            None => false,
        }
    }

    /// What a timer queued leaves, and the others keep their order. Says whether there was such an event.
    pub fn withdraw_timer(&mut self, timer: u32) -> bool
        ensures result { result ≡ has_timer_event timer self.old.port }
        ensures port { self.new.port ≡ without_timer_event timer self.old.port }
        ensures room { self.old.room ≤ self.new.room }
        ensures places { self.old.room + length self.old.port.queue ≤ self.new.room + length self.new.port.queue }
    {
        let there = has_timer_event(&self.queue, timer);
        remove_timer(&mut self.queue, timer);
        self.users = count_users(&self.queue);
        there
    }

    /// An alert in place of an earlier one. Without events alert mode ends.
    pub fn set_alert(&mut self, events: u32, user: u64)
        ensures port { self.new.port ≡ with_alert events user self.old.port }
        ensures room { self.new.room ≡ self.old.room }
    {
        self.alert = if events == 0 {
            None
        } else {
            Some(Alert { events, user })
        };
    }

    pub fn is_alert(&self) -> bool
        ensures { result ≡ is_some self.now.port.alert }
    {
        self.alert.is_some()
    }

    /// The oldest event is taken.
    fn take_oldest(&mut self) -> Option<Queued>
        ensures first { result ≡ slice_get self.old.port.queue 0 }
        ensures port { self.new.port ≡ without_oldest 1 self.old.port }
        ensures room { self.old.room ≤ self.new.room }
        ensures places { self.old.room + length self.old.port.queue ≤ self.new.room + length self.new.port.queue }
    {
        let q = self.queue.pop_front()?;
        self.users = users_without(self.users, &q);
        Some(q)
    }

    /// The alert, which stays, or the oldest event, which is taken.
    pub fn take_first(&mut self) -> Option<Queued>
        ensures first { result ≡ first_found self.old.port }
        ensures port { self.new.port ≡ without_found 1 self.old.port }
        ensures room { self.old.room ≤ self.new.room }
        ensures places { self.old.room + length self.old.port.queue ≤ self.new.room + length self.new.port.queue }
    {
        match self.alert {
            Some(alert) => Some(alert_event(alert)),
            None => self.take_oldest(),
        }
    }

    /// The oldest event, if there is one, is taken and handed out.
    #[tactic(auto, using(crate::proofs::Taken::first_taken, crate::proofs::Taken::nothing_taken))]
    fn move_oldest(&mut self, into: &mut Room<EventRec>, ids: &mut Room<u32>)
        requires record_room { 0 < into.old.spare }
        requires number_room { 0 < ids.old.spare }
        ensures port { self.new.port ≡ without_oldest 1 self.old.port }
        ensures records { into.new.items ≡ into.old.items ++ records_of (take 1 self.old.port.queue) }
        ensures numbers { ids.new.items ≡ ids.old.items ++ associations_of (take 1 self.old.port.queue) }
        ensures room { self.old.room ≤ self.new.room }
        ensures places { self.old.room + length self.old.port.queue ≤ self.new.room + length self.new.port.queue }
        ensures record_spare { into.old.spare ≤ into.new.spare + 1 }
        ensures number_spare { ids.old.spare ≤ ids.new.spare + 1 }
    {
        if let Some(q) = self.take_oldest() {
            hand_out(q, into, ids);
        }
    }

    /// So many of the oldest events, as far as there are any, are taken and handed out.
    fn take_many(&mut self, count: usize, into: &mut Room<EventRec>, ids: &mut Room<u32>)
        requires record_room { count ≤ into.old.spare }
        requires number_room { count ≤ ids.old.spare }
        ensures port { self.new.port ≡ without_oldest count self.old.port }
        ensures records { into.new.items ≡ into.old.items ++ records_of (take count self.old.port.queue) }
        ensures numbers { ids.new.items ≡ ids.old.items ++ associations_of (take count self.old.port.queue) }
        ensures room { self.old.room ≤ self.new.room }
        ensures places { self.old.room + length self.old.port.queue ≤ self.new.room + length self.new.port.queue }
        ensures record_spare { into.old.spare ≤ into.new.spare + count }
        ensures number_spare { ids.old.spare ≤ ids.new.spare + count }
    {
        for _ in 0..count {
            self.move_oldest(into, ids);
        }
    }

    /// What a get of at most `max` finds is taken, but for an alert, which stays, and is handed out. It takes no memory.
    pub fn take_found(&mut self, max: u32, into: &mut Room<EventRec>, ids: &mut Room<u32>)
        requires record_room { length (events_found max self.old.port) ≤ into.old.spare }
        requires number_room { length (events_found max self.old.port) ≤ ids.old.spare }
        ensures port { self.new.port ≡ without_found max self.old.port }
        ensures records { into.new.items ≡ into.old.items ++ records_of (events_found max self.old.port) }
        ensures numbers { ids.new.items ≡ ids.old.items ++ associations_of (events_found max self.old.port) }
        ensures room { self.old.room ≤ self.new.room }
        ensures places { self.old.room + length self.old.port.queue ≤ self.new.room + length self.new.port.queue }
        ensures record_spare { into.old.spare ≤ into.new.spare + length (events_found max self.old.port) }
        ensures number_spare { ids.old.spare ≤ ids.new.spare + length (events_found max self.old.port) }
    {
        if let Some(alert) = self.alert {
            hand_out(alert_event(alert), into, ids);
            return;
        }
        let count = self.queue.len().min(max as usize);
        self.take_many(count, into, ids);
    }
}
