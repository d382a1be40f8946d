//! The ports of a kernel.
ghost use Rattle.std.specs.Prelude.{◌≡◌, ◌+◌, ◌<◌, ◌≤◌, ◌++◌, ◌^◌, [], All, IfErr, IfOk, IsOk, None, OnErr, OnOk, Some, false, is_some, length, map, true};
ghost use Rattle.dk_base.specs.declared.limits.TheConstants.{EVENTS_MAX, USER_EVENTS_MAX};
ghost use Rattle.spec_records.specs.Words.{alert_port, alert_tests, associations_of, events_found, events_given, first_found, first_refusal, get_tests, getn_count, getn_tests, grow_timer, has_event_of, has_timer_event, is_full_port, is_ready_for, is_user_event, make_port, must_wait, port_of, post_event, records_of, send_each, send_error, send_errors, send_event, send_if_allowed, take_events, unless_refused_with, user_events, withdraw_event, withdraw_timer};
ghost use Rattle.event_port.specs.Words.{AnswersOrWants, HasRoomAt, KeepsPlaces, KeepsRoom, KeepsRoomAtOthers, KeepsRoomButNamed, KeepsRoomButOne, answer_of, timer_count};

use crate::queue::PortQueue;
use dk_base::error::{Errno, NoMemory, Refusal};
use dk_base::list::{IdList, Room};
use dk_base::object::EventRec;
use dk_base::request::AlertMode;
use spec_records::numbered::{numbered_item, place_of};
use spec_records::port::Queued;
use std::alloc::Global;
use std::marker::Model;

/// Ports, numbered from 1 in the order in which they were made. No port is ever taken out. A number that no port has reads as a port
/// without an alert, at which nothing is queued. Clauses see the ports (`ports`), how many more events take no memory at each (`rooms`),
/// and how many more ports take none (`spare`).
#[derive(Drop)]
pub struct Ports {
    queues: Vec<PortQueue>,
}

impl Model for Ports {
    ghost use Rattle.std.specs.Prelude.{◌-◌, map, vec_capacity, vec_len};
    ghost use Rattle.event_port.specs.Words.{PortsValue, port_with, room_with};

    ghost Value = { PortsValue };

    ghost view = { λ s. record { ports = map port_with s.queues.items; rooms = map room_with s.queues.items; spare = vec_capacity s.queues - vec_len s.queues } };
}

impl Ports {
    /// No port. It takes no memory.
    pub fn new(alloc: Global) -> Self
        ensures { result.ports ≡ [] }
    {
        Ports {
            queues: Vec::new(alloc),
        }
    }

    /// How many ports there are.
    pub fn count(&self) -> usize
        ensures { result ≡ length self.now.ports }
    {
        self.queues.len()
    }

    /// Room for another port. Want of memory leaves all as it was.
    pub fn reserve(&mut self) -> Result<(), NoMemory>
        ensures ports { self.new.ports ≡ self.old.ports }
        ensures rooms { self.new.rooms ≡ self.old.rooms }
        ensures room { OnOk result (0 < self.new.spare) }
        ensures kept { self.old.spare ≤ self.new.spare }
    {
        match self.queues.reserve(1) {
            Ok(()) => Ok(()),
            Err(_) => Err(NoMemory),
        }
    }

    /// port_create(3C): another port, under the next number, which is answered. It takes no memory, and each other port keeps its room.
    #[tactic(auto, using(crate::proofs::Changed::room_of_made))]
    pub fn create(&mut self, alloc: Global) -> u32
        requires room { 0 < self.old.spare }
        requires few { length self.old.ports < EVENTS_MAX }
        ensures number { result ≡ length self.old.ports + 1 }
        ensures made { self.new.ports ≡ make_port self.old.ports }
        ensures rooms { KeepsRoomAtOthers result self.old.rooms self.new.rooms }
    {
        let number = self.queues.len() as u32 + 1;
        self.queues.push_reserved(PortQueue::new(alloc, number));
        number
    }

    /// Room for so many more events at a port. What is queued at another port uses up none of it. No port has less room than before.
    /// Want of memory leaves all but the room as it was.
    #[tactic(auto, using(spec_records::proofs::ChangedNumbers::changed_through, crate::proofs::Changed::room_kept, crate::proofs::Changed::same_ports, crate::proofs::Changed::room_at, crate::proofs::Changed::room_after, crate::proofs::Changed::room_nowhere))]
    pub fn room(&mut self, p: u32, n: usize) -> Result<(), NoMemory>
        ensures ports { self.new.ports ≡ self.old.ports }
        ensures kept { KeepsRoom self.old.rooms self.new.rooms }
        ensures ok { OnOk result (HasRoomAt self.new.rooms p n) }
        ensures succeeds { HasRoomAt self.old.rooms p n → IsOk result }
    {
        match place_of(&self.queues, p) {
            Some(place) => {
                let port = &mut self.queues[place];
                port.reserve(n)
            }
            None => Ok(()),
        }
    }

    /// How many events are queued at a port, of which at most 1,024 are user events.
    pub fn queued(&self, p: u32) -> u64
        ensures queued { result ≡ length (port_of self.now.ports p).queue }
        ensures few { user_events (port_of self.now.ports p).queue ≤ USER_EVENTS_MAX }
    {
        match numbered_item(&self.queues, p) {
            Some(port) => port.len() as u64,
            None => 0,
        }
    }

    /// Whether a port is in alert mode.
    pub fn is_alert(&self, p: u32) -> bool
        ensures { result ≡ is_some (port_of self.now.ports p).alert }
    {
        match numbered_item(&self.queues, p) {
            Some(port) => port.is_alert(),
            None => false,
        }
    }

    /// Whether a port takes no further user event.
    pub fn is_full(&self, p: u32) -> bool
        ensures { result ≡ is_full_port (port_of self.now.ports p) }
    {
        match numbered_item(&self.queues, p) {
            Some(port) => port.is_full(),
            None => false,
        }
    }

    /// Whether a port is in alert mode, or has so many events.
    pub fn ready_for(&self, p: u32, nget: u32) -> bool
        ensures { result ≡ is_ready_for nget (port_of self.now.ports p) }
    {
        self.is_alert(p) || self.queued(p) >= nget as u64
    }

    /// How many events a get of at most `max` finds at a port: one in alert mode, else as many as are queued.
    pub fn found(&self, p: u32, max: u32) -> usize
        ensures { result ≡ length (events_found max (port_of self.now.ports p)) }
    {
        if self.is_alert(p) {
            return 1;
        }
        self.queued(p).min(max as u64) as usize
    }

    /// Why a user event cannot be sent to a port (port_send(3C)): EAGAIN where 1,024 are queued.
    pub fn send_refusal(&self, p: u32) -> Option<Errno>
        ensures { result ≡ send_error self.now.ports p }
    {
        if self.is_full(p) {
            Some(Errno::EAGAIN)
        } else {
            None
        }
    }

    /// A user event is queued at a port that is not full. It takes no memory.
    #[tactic(auto, using(spec_records::proofs::ChangedNumbers::changed_through, crate::proofs::Changed::room_less, crate::proofs::Changed::room_left, crate::proofs::Changed::room_of_others, crate::proofs::Changed::change_none))]
    pub fn send_fitting(&mut self, p: u32, events: u32, user: u64)
        requires room { HasRoomAt self.old.rooms p 1 }
        requires allowed { send_error self.old.ports p ≡ None }
        ensures ports { self.new.ports ≡ send_event self.old.ports p events user }
        ensures rooms { KeepsRoomButOne self.old.rooms self.new.rooms }
        ensures others { KeepsRoomAtOthers p self.old.rooms self.new.rooms }
        ensures spare { self.new.spare ≡ self.old.spare }
    {
        if let Some(place) = place_of(&self.queues, p) {
            let port = &mut self.queues[place];
            port.send(events, user);
        }
    }

    /// A user event is queued at a port (port_send(3C)). EAGAIN where 1,024 are queued. Else memory may be wanted, but not where there
    /// was room. Either leaves the ports as they were. It uses up room for one event at most, and each other port keeps its room.
    pub fn send(&mut self, p: u32, events: u32, user: u64) -> Result<(), Refusal>
        ensures answer { AnswersOrWants result (send_error self.old.ports p) }
        ensures reserved { HasRoomAt self.old.rooms p 1 → result ≡ answer_of (send_error self.old.ports p) }
        ensures ports { OnOk result (self.new.ports ≡ send_event self.old.ports p events user) }
        ensures kept { OnErr result (self.new.ports ≡ self.old.ports) }
        ensures rooms { KeepsRoomButOne self.old.rooms self.new.rooms }
        ensures others { KeepsRoomAtOthers p self.old.rooms self.new.rooms }
    {
        if let Some(error) = self.send_refusal(p) {
            return Err(Refusal::No(error));
        }
        if self.room(p, 1).is_err() {
            return Err(Refusal::Memory);
        }
        self.send_fitting(p, events, user);
        Ok(())
    }

    /// An event that is no user event is queued at a port, last. It takes no memory.
    #[tactic(auto, using(spec_records::proofs::ChangedNumbers::changed_through, crate::proofs::Changed::room_less, crate::proofs::Changed::places_kept, crate::proofs::Changed::same_places, crate::proofs::Changed::room_left, crate::proofs::Changed::room_of_others, crate::proofs::Changed::change_none))]
    pub fn post_fitting(&mut self, p: u32, q: Queued)
        requires room { HasRoomAt self.old.rooms p 1 }
        requires other { is_user_event q ≡ false }
        ensures ports { self.new.ports ≡ post_event self.old.ports p q }
        ensures rooms { KeepsRoomButOne self.old.rooms self.new.rooms }
        ensures others { KeepsRoomAtOthers p self.old.rooms self.new.rooms }
        ensures places { KeepsPlaces self.old self.new }
        ensures spare { self.new.spare ≡ self.old.spare }
    {
        if let Some(place) = place_of(&self.queues, p) {
            let port = &mut self.queues[place];
            port.post(q);
        }
    }

    /// The same. Memory may be wanted, but not where there was room; that leaves the ports as they were. Each other port keeps its room.
    pub fn post(&mut self, p: u32, q: Queued) -> Result<(), NoMemory>
        requires other { is_user_event q ≡ false }
        ensures reserved { HasRoomAt self.old.rooms p 1 → IsOk result }
        ensures ports { OnOk result (self.new.ports ≡ post_event self.old.ports p q) }
        ensures kept { OnErr result (self.new.ports ≡ self.old.ports) }
        ensures rooms { KeepsRoomButOne self.old.rooms self.new.rooms }
        ensures others { KeepsRoomAtOthers p self.old.rooms self.new.rooms }
    {
        self.room(p, 1)?;
        self.post_fitting(p, q);
        Ok(())
    }

    /// What an association queued at a port leaves, and the others keep their order. Says whether there was such an event.
    #[tactic(auto, using(spec_records::proofs::ChangedNumbers::changed_through, crate::proofs::Changed::room_kept, crate::proofs::Changed::places_kept, crate::proofs::Changed::same_places, crate::proofs::Changed::change_none, crate::proofs::Changed::no_port_read))]
    pub fn withdraw(&mut self, p: u32, assoc: u32) -> bool
        ensures result { result ≡ has_event_of assoc (port_of self.old.ports p) }
        ensures ports { self.new.ports ≡ withdraw_event self.old.ports p assoc }
        ensures rooms { KeepsRoom self.old.rooms self.new.rooms }
        ensures places { KeepsPlaces self.old self.new }
        ensures spare { self.new.spare ≡ self.old.spare }
    {
        match place_of(&self.queues, p) {
            Some(place) => {
                let port = &mut self.queues[place];
                port.withdraw(assoc)
            }
            None => false,
        }
    }

    /// The event that a timer queued at a port counts so many more, and keeps its place. Says whether there was such an event; where there
    /// was none, nothing changes. It takes no memory.
    #[tactic(auto, using(spec_records::proofs::ChangedNumbers::changed_through, crate::proofs::Changed::room_kept, crate::proofs::Changed::same_ports, crate::proofs::Changed::change_none, crate::proofs::Changed::no_port_read))]
    pub fn grow(&mut self, p: u32, timer: u32, by: u32) -> bool
        requires { timer_count timer (port_of self.old.ports p) + by < 2 ^ 32 }
        ensures result { result ≡ has_timer_event timer (port_of self.old.ports p) }
        ensures ports { self.new.ports ≡ grow_timer self.old.ports p timer by }
        ensures none { result ≡ false → self.new.ports ≡ self.old.ports }
        ensures rooms { KeepsRoom self.old.rooms self.new.rooms }
        ensures spare { self.new.spare ≡ self.old.spare }
    {
        match place_of(&self.queues, p) {
            Some(place) => {
                let port = &mut self.queues[place];
                port.grow(timer, by)
            }
            None => false,
        }
    }

    /// What a timer queued at a port leaves, and the others keep their order. Says whether there was such an event. Its place is free for
    /// another event.
    #[tactic(auto, using(spec_records::proofs::ChangedNumbers::changed_through, crate::proofs::Changed::room_kept, crate::proofs::Changed::places_kept, crate::proofs::Changed::same_places, crate::proofs::Changed::change_none, crate::proofs::Changed::no_port_read))]
    pub fn withdraw_timer(&mut self, p: u32, timer: u32) -> bool
        ensures result { result ≡ has_timer_event timer (port_of self.old.ports p) }
        ensures ports { self.new.ports ≡ withdraw_timer self.old.ports p timer }
        ensures rooms { KeepsRoom self.old.rooms self.new.rooms }
        ensures places { KeepsPlaces self.old self.new }
        ensures spare { self.new.spare ≡ self.old.spare }
    {
        match place_of(&self.queues, p) {
            Some(place) => {
                let port = &mut self.queues[place];
                port.withdraw_timer(timer)
            }
            None => false,
        }
    }

    /// Why a port's alert cannot be set (port_alert(3C)): EINVAL for no mode, EBUSY for an update with events in alert mode.
    pub fn alert_refusal(&self, p: u32, mode: AlertMode, events: u32) -> Option<Errno>
        ensures { result ≡ first_refusal (alert_tests mode events (port_of self.now.ports p)) }
    {
        match mode {
            AlertMode::Nothing => Some(Errno::EINVAL),
            AlertMode::Update if events != 0 && self.is_alert(p) => Some(Errno::EBUSY),
            _ => None,
        }
    }

    /// A port has this alert in place of an earlier one. Without events alert mode ends.
    #[tactic(auto, using(spec_records::proofs::ChangedNumbers::changed_through, crate::proofs::Changed::room_kept, crate::proofs::Changed::change_none))]
    pub fn set_alert(&mut self, p: u32, events: u32, user: u64)
        ensures ports { self.new.ports ≡ alert_port self.old.ports p events user }
        ensures rooms { KeepsRoom self.old.rooms self.new.rooms }
        ensures spare { self.new.spare ≡ self.old.spare }
    {
        if let Some(place) = place_of(&self.queues, p) {
            let port = &mut self.queues[place];
            port.set_alert(events, user);
        }
    }

    /// The same (port_alert(3C)). EINVAL for no mode, EBUSY for an update with events in alert mode; either changes nothing.
    pub fn alert(&mut self, p: u32, mode: AlertMode, events: u32, user: u64) -> Result<(), Errno>
        ensures answer { result ≡ unless_refused_with (first_refusal (alert_tests mode events (port_of self.old.ports p))) }
        ensures ports { OnOk result (self.new.ports ≡ alert_port self.old.ports p events user) }
        ensures rooms { KeepsRoom self.old.rooms self.new.rooms }
        ensures kept { OnErr result (self.new ≡ self.old) }
    {
        match self.alert_refusal(p, mode, events) {
            Some(error) => Err(error),
            None => {
                self.set_alert(p, events, user);
                Ok(())
            }
        }
    }

    /// A user event is queued at a port where there is room, or the error is told (port_sendn(3C)). It takes no memory.
    pub fn send_if_allowed(&mut self, p: u32, events: u32, user: u64) -> Option<Errno>
        requires { HasRoomAt self.old.rooms p 1 }
        ensures error { result ≡ send_error self.old.ports p }
        ensures ports { self.new.ports ≡ send_if_allowed self.old.ports p events user }
        ensures rooms { KeepsRoomButOne self.old.rooms self.new.rooms }
        ensures others { KeepsRoomAtOthers p self.old.rooms self.new.rooms }
        ensures spare { self.new.spare ≡ self.old.spare }
    {
        let refused = self.send_refusal(p);
        if refused.is_none() {
            self.send_fitting(p, events, user);
        }
        refused
    }

    /// Room at each of these ports for as many events as there are ports. Want of memory leaves all but the room as it was.
    fn room_for_each(&mut self, ps: &[u32]) -> Result<(), NoMemory>
        ensures ports { self.new.ports ≡ self.old.ports }
        ensures kept { KeepsRoom self.old.rooms self.new.rooms }
        ensures ok { OnOk result (All (λ p. HasRoomAt self.new.rooms p (length ps.now)) ps.now) }
    {
        for p in ps {
            self.room(*p, ps.len())?;
        }
        Ok(())
    }

    /// Each of these ports in order is sent to, or its error told. It takes no memory.
    #[tactic(auto, using(crate::proofs::Named::none_named, crate::proofs::Named::one_more_named, crate::proofs::Named::all_named))]
    fn send_each(&mut self, ps: &[u32], events: u32, user: u64, into: &mut Room<Option<Errno>>)
        requires rooms { All (λ p. HasRoomAt self.old.rooms p (length ps.now)) ps.now }
        requires spare { length ps.now ≤ into.old.spare }
        ensures ports { self.new.ports ≡ send_each self.old.ports ps.now events user }
        ensures errors { into.new.items ≡ into.old.items ++ send_errors self.old.ports ps.now events user }
        ensures spare { into.old.spare ≤ into.new.spare + length ps.now }
        ensures rooms { KeepsRoomButNamed ps.now self.old.rooms self.new.rooms }
    {
        for p in ps {
            let error = self.send_if_allowed(*p, events, user);
            into.push(error);
        }
    }

    /// A user event is queued at each of these ports in order that is not full (port_sendn(3C)), and one entry for each, its error if
    /// there is one, follows what is in `into`. Want of memory leaves the ports and `into` as they were. Each port keeps its room, but for
    /// one event at most each time that it is named.
    #[tactic(auto, using(crate::proofs::Named::named_after_room, crate::proofs::Named::named_not_sent))]
    pub fn sendn(
        &mut self,
        ps: &IdList,
        events: u32,
        user: u64,
        into: &mut Room<Option<Errno>>,
    ) -> Result<(), NoMemory>
        requires { length ps.now ≤ into.old.spare }
        ensures ports { OnOk result (self.new.ports ≡ send_each self.old.ports ps.now events user) }
        ensures errors { OnOk result (into.new.items ≡ into.old.items ++ send_errors self.old.ports ps.now events user) }
        ensures spare { into.old.spare ≤ into.new.spare + length ps.now }
        ensures kept { OnErr result (self.new.ports ≡ self.old.ports) }
        ensures rooms { KeepsRoomButNamed ps.now self.old.rooms self.new.rooms }
        ensures same { OnErr result (into.new ≡ into.old) }
    {
        self.room_for_each(ps.slice())?;
        self.send_each(ps.slice(), events, user, into);
        Ok(())
    }

    #[tactic(auto, using(spec_records::proofs::ChangedNumbers::changed_through, crate::proofs::Changed::room_kept, crate::proofs::Changed::places_kept, crate::proofs::Changed::same_places, crate::proofs::Changed::change_none, crate::proofs::Changed::no_port_read))]
    fn take_first_at(&mut self, p: u32) -> Option<Queued>
        ensures first { result ≡ first_found (port_of self.old.ports p) }
        ensures ports { self.new.ports ≡ take_events self.old.ports p 1 }
        ensures rooms { KeepsRoom self.old.rooms self.new.rooms }
        ensures places { KeepsPlaces self.old self.new }
        ensures spare { self.new.spare ≡ self.old.spare }
    {
        match place_of(&self.queues, p) {
            Some(place) => {
                let port = &mut self.queues[place];
                port.take_first()
            }
            None => None,
        }
    }

    /// A port's alert, which stays, or its oldest event, which is taken; the port has one of the two. It takes no memory.
    pub fn take_first(&mut self, p: u32) -> Queued
        requires { is_ready_for 1 (port_of self.old.ports p) ≡ true }
        ensures first { first_found (port_of self.old.ports p) ≡ Some result }
        ensures ports { self.new.ports ≡ take_events self.old.ports p 1 }
        ensures rooms { KeepsRoom self.old.rooms self.new.rooms }
        ensures places { KeepsPlaces self.old self.new }
        ensures spare { self.new.spare ≡ self.old.spare }
    {
        let Some(q) = self.take_first_at(p) else {
            unreachable!()
        };
        q
    }

    /// Why port_get(3C) gives nothing: ETIME without a wait where a port has no alert and no event.
    pub fn get_refusal(&self, p: u32, wait: bool) -> Option<Errno>
        ensures { result ≡ first_refusal (get_tests wait (port_of self.now.ports p)) }
    {
        if !wait && !self.ready_for(p, 1) {
            Some(Errno::ETIME)
        } else {
            None
        }
    }

    /// port_get(3C) without a wait: a port's alert, which stays, or its oldest event, which is taken. ETIME where it has neither, which
    /// changes nothing.
    pub fn get(&mut self, p: u32) -> Result<Queued, Errno>
        ensures refused { IfErr result (λ e. first_refusal (get_tests false (port_of self.old.ports p)) ≡ Some e) }
        ensures allowed { OnOk result (first_refusal (get_tests false (port_of self.old.ports p)) ≡ None) }
        ensures first { IfOk result (λ q. first_found (port_of self.old.ports p) ≡ Some q) }
        ensures ports { OnOk result (self.new.ports ≡ take_events self.old.ports p 1) }
        ensures rooms { KeepsRoom self.old.rooms self.new.rooms }
        ensures places { KeepsPlaces self.old self.new }
        ensures kept { OnErr result (self.new ≡ self.old) }
    {
        match self.get_refusal(p, false) {
            Some(error) => Err(error),
            None => Ok(self.take_first(p)),
        }
    }

    /// What a get of at most `max` finds at a port is taken, but for an alert, which stays. As it is retrieved it follows what is in
    /// `into`, and the numbers of the associations that queued it what is in `ids`. It takes no memory.
    #[tactic(auto, using(spec_records::proofs::ChangedNumbers::changed_through, crate::proofs::Changed::room_kept, crate::proofs::Changed::places_kept, crate::proofs::Changed::same_places, crate::proofs::Changed::change_none, crate::proofs::Changed::no_port_read))]
    pub fn take_found(&mut self, p: u32, max: u32, into: &mut Room<EventRec>, ids: &mut Room<u32>)
        requires record_room { length (events_found max (port_of self.old.ports p)) ≤ into.old.spare }
        requires number_room { length (events_found max (port_of self.old.ports p)) ≤ ids.old.spare }
        ensures ports { self.new.ports ≡ take_events self.old.ports p max }
        ensures records { into.new.items ≡ into.old.items ++ records_of (events_found max (port_of self.old.ports p)) }
        ensures numbers { ids.new.items ≡ ids.old.items ++ associations_of (events_found max (port_of self.old.ports p)) }
        ensures rooms { KeepsRoom self.old.rooms self.new.rooms }
        ensures places { KeepsPlaces self.old self.new }
        ensures spare { self.new.spare ≡ self.old.spare }
        ensures record_spare { into.old.spare ≤ into.new.spare + length (events_found max (port_of self.old.ports p)) }
        ensures number_spare { ids.old.spare ≤ ids.new.spare + length (events_found max (port_of self.old.ports p)) }
    {
        if let Some(place) = place_of(&self.queues, p) {
            let port = &mut self.queues[place];
            port.take_found(max, into, ids);
        }
    }

    /// Whether a getn gives nothing yet: but for `max` 0, the port is not ready for `nget`.
    pub fn must_wait(&self, p: u32, max: u32, nget: u32) -> bool
        ensures { result ≡ must_wait max nget (port_of self.now.ports p) }
    {
        max != 0 && !self.ready_for(p, nget)
    }

    /// Why port_getn(3C) gives nothing: but for `max` 0, EINVAL where `nget` is above it, and ETIME without a wait where the port is not
    /// ready for `nget`.
    pub fn getn_refusal(&self, p: u32, max: u32, nget: u32, wait: bool) -> Option<Errno>
        ensures { result ≡ first_refusal (getn_tests wait max nget (port_of self.now.ports p)) }
    {
        if max != 0 && nget > max {
            return Some(Errno::EINVAL);
        }
        if !wait && self.must_wait(p, max, nget) {
            return Some(Errno::ETIME);
        }
        None
    }

    /// port_getn(3C) without a wait. With `max` 0 it tells how many events are queued, and takes none. Else the alert, which stays, or the
    /// oldest events, at most `max`, which are taken, follow what is in `into`, the numbers of their associations what is in `ids`, and
    /// it tells how many they are. What `getn_refusal` says changes nothing.
    pub fn getn(
        &mut self,
        p: u32,
        max: u32,
        nget: u32,
        into: &mut Room<EventRec>,
        ids: &mut Room<u32>,
    ) -> Result<u32, Errno>
        requires record_room { length (events_given max (port_of self.old.ports p)) ≤ into.old.spare }
        requires number_room { length (events_given max (port_of self.old.ports p)) ≤ ids.old.spare }
        requires few { length (port_of self.old.ports p).queue < 4000000000 }
        ensures refused { IfErr result (λ e. first_refusal (getn_tests false max nget (port_of self.old.ports p)) ≡ Some e) }
        ensures allowed { OnOk result (first_refusal (getn_tests false max nget (port_of self.old.ports p)) ≡ None) }
        ensures count { IfOk result (λ n. n ≡ getn_count max (port_of self.old.ports p)) }
        ensures ports { OnOk result (self.new.ports ≡ take_events self.old.ports p max) }
        ensures records { OnOk result (into.new.items ≡ into.old.items ++ records_of (events_given max (port_of self.old.ports p))) }
        ensures numbers { OnOk result (ids.new.items ≡ ids.old.items ++ associations_of (events_given max (port_of self.old.ports p))) }
        ensures rooms { KeepsRoom self.old.rooms self.new.rooms }
        ensures places { KeepsPlaces self.old self.new }
        ensures kept { OnErr result (self.new ≡ self.old) }
        ensures same_records { OnErr result (into.new ≡ into.old) }
        ensures same_numbers { OnErr result (ids.new ≡ ids.old) }
    {
        if let Some(error) = self.getn_refusal(p, max, nget, false) {
            return Err(error);
        }
        if max == 0 {
            return Ok(self.queued(p) as u32);
        }
        let count = self.found(p, max);
        self.take_found(p, max, into, ids);
        Ok(count as u32)
    }
}
