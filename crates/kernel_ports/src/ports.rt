//! The ports of a kernel with their associations and timers.
ghost use Rattle.std.specs.Prelude.{◌≡◌, ℕ, ◌+◌, ◌<◌, ◌≤◌, ◌++◌, ◌^◌, [], None, Some, IfSome, IsOk, IsSome, OnOk, false, filter, length, true};
ghost use Rattle.dk_base.specs.declared.limits.TheConstants.{ADVANCE_MAX, CLOCK_MAX, DELAY_MAX, EVENTS_MAX};
ghost use Rattle.dk_base.specs.declared.object.Obj.{Obj};
ghost use Rattle.spec_records.specs.Words.{advance_clock, alert_port, all_fired, associate, associations_of, associations_of_process, associations_of_row, create_timer, create_timer_error, delete_timer, dissociate, dues, end_process_associations, end_process_timers, end_row, events_found, fire_all, first_found, free_id, has_key, is_ready_for, make_port, no_associations, no_timers, port_of, post_fired, ready_object, records_of, retrieve_associations, send_error, send_event, send_if_allowed, set_timer, take_events, tell_dues, timer_at, timers_of, withdraw_events, withdraw_timers, without_queued};
ghost use Rattle.event_port.specs.Words.{KeepsPlaces, KeepsRoom, KeepsRoomAtOthers, KeepsRoomButOne};
ghost use Rattle.port_assoc.specs.Words.{KeepsRoom as KeepsRoomForAssociations};
ghost use Rattle.kernel_ports.specs.Words.{AreAllNamed};
ghost use Rattle.kernel_ports.specs.Ended.{withdraw_each};
ghost use Rattle.kernel_ports.specs.Words.{HasRoomForEvents, HasRoomForTimer, HasRoomToAssociate, HasRoomToEnd, HasRoomToFire, port_told};

use crate::changed::{Changed, Ends};
use crate::due::{tell_dues, withdraw_tags};
use crate::ending::Ending;
use crate::tell::tell_ports;
use dk_base::error::{Errno, NoMemory};
use dk_base::list::Room;
use dk_base::number::{Fd, Pid};
use dk_base::object::{EventRec, Obj};
use dk_base::set::PollSet;
use event_port::ports::Ports;
use pipe_obj::pipes::Pipes;
use port_assoc::assocs::Assocs;
use spec_records::association::AssocKey;
use spec_records::port::Queued;
use spec_records::timer::Due;
use std::alloc::Global;
use std::marker::Model;
use timer_src::timers::Timers;

/// The ports of a kernel, and what tells them: associations of objects, and timers. At every moment each port has room for one event
/// more of each association of it that is armed, and of each timer of it that has none queued. So what fires, and what is due as the
/// clock moves on, is queued without memory.
pub struct AssociatedPorts {
    ports: Ports,
    assocs: Assocs,
    timers: Timers,
}

/// By hand, so that dropping these ports is one call for its holder, who would otherwise drop each of its parts.
impl Drop for AssociatedPorts {
    fn drop(self) {
        let AssociatedPorts {
            ports: _,
            assocs: _,
            timers: _,
        } = self;
    }
}

impl Model for AssociatedPorts {
    ghost use Rattle.kernel_ports.specs.Words.{AssociatedPortsValue, HasRoomToFire};

    ghost Value = { AssociatedPortsValue };

    ghost view = { λ s. record { ports = s.ports; assocs = s.assocs; timers = s.timers } };

    ghost invariant = { λ s. HasRoomToFire s.ports s.assocs.list s.timers.list };
}

/// The events of these associations were retrieved: each of them ends.
fn retrieve(assocs: &mut Assocs, ids: &[u32])
    ensures list { assocs.new.list ≡ retrieve_associations assocs.old.list ids.now }
    ensures room { KeepsRoomForAssociations assocs.old assocs.new }
{
    for id in ids {
        assocs.retrieved(*id);
    }
}

/// The associations that watch by this descriptor of a process end, and what they queued is withdrawn.
fn end_row(assocs: &mut Assocs, ports: &mut Ports, process: Pid, fd: Fd)
    ensures list { assocs.new.list ≡ end_row assocs.old.list process.0 fd }
    ensures ports { ports.new.ports ≡ withdraw_events ports.old.ports (associations_of_row assocs.old.list.associations process.0 fd) }
    ensures rooms { KeepsRoom ports.old.rooms ports.new.rooms }
    ensures places { KeepsPlaces ports.old ports.new }
{
    while let Some(a) = assocs.end_first_of_row(process, fd) {
        ports.withdraw(a.key.port, a.number);
    }
}

/// What associations of these numbers queued is withdrawn, each at its port.
fn withdraw_each(ports: &mut Ports, at: &[u32], ids: &[u32])
    requires { length at.now ≡ length ids.now }
    ensures ports { ports.new.ports ≡ withdraw_each ports.old.ports at.now ids.now }
    ensures rooms { KeepsRoom ports.old.rooms ports.new.rooms }
    ensures places { KeepsPlaces ports.old ports.new }
{
    for i in 0..at.len() {
        ports.withdraw(at[i], ids[i]);
    }
}

impl AssociatedPorts {
    /// No port, no association and no timer; the clock at 0. It takes no memory.
    pub fn new(alloc: Global) -> Self
        ensures ports { result.ports.ports ≡ [] }
        ensures list { result.assocs.list ≡ no_associations }
        ensures timers { result.timers.list ≡ no_timers }
    {
        AssociatedPorts {
            ports: Ports::new(alloc),
            assocs: Assocs::new(alloc),
            timers: Timers::new(alloc),
        }
    }

    /// Its caller also learns here that there is room for what can fire and for what can be due.
    pub fn ports(&self) -> &Ports
        ensures ports { result.now ≡ self.now.ports }
        ensures room { HasRoomToFire self.now.ports self.now.assocs.list self.now.timers.list }
    {
        &self.ports
    }

    /// The associations, in order of number.
    pub fn assocs(&self) -> &Assocs
        ensures { result.now ≡ self.now.assocs }
    {
        &self.assocs
    }

    /// The timers, in order of number, and their clock.
    pub fn timers(&self) -> &Timers
        ensures { result.now ≡ self.now.timers }
    {
        &self.timers
    }

    // ports

    /// Room for another port. Want of memory leaves all as it was.
    pub fn reserve_port(&mut self) -> Result<(), NoMemory>
        ensures assocs { self.new.assocs ≡ self.old.assocs }
        ensures timers { self.new.timers ≡ self.old.timers }
        ensures ports { self.new.ports.ports ≡ self.old.ports.ports }
        ensures rooms { self.new.ports.rooms ≡ self.old.ports.rooms }
        ensures room { OnOk result (0 < self.new.ports.spare) }
        ensures kept { self.old.ports.spare ≤ self.new.ports.spare }
    {
        self.ports.reserve()
    }

    /// port_create(3C): another port, under the next number, which is answered. It takes no memory, and each other port keeps its room.
    pub fn create(&mut self, alloc: Global) -> u32
        requires room { 0 < self.old.ports.spare }
        requires few { length self.old.ports.ports < EVENTS_MAX }
        ensures number { result ≡ length self.old.ports.ports + 1 }
        ensures assocs { self.new.assocs ≡ self.old.assocs }
        ensures timers { self.new.timers ≡ self.old.timers }
        ensures made { self.new.ports.ports ≡ make_port self.old.ports.ports }
        ensures rooms { KeepsRoomAtOthers result self.old.ports.rooms self.new.ports.rooms }
    {
        self.ports.create(alloc)
    }

    /// How many associations and timers there are. Each has a number of its own, of 32 bits.
    fn listed(&self) -> usize
        ensures listed { result ≡ length self.now.assocs.list.associations + length self.now.timers.list.timers }
        ensures few { result < 2 ^ 33 }
    {
        let _associations = self.assocs.made();
        let _timers = self.timers.made();
        self.assocs.len() + self.timers.len()
    }

    /// So many, and one for each association and each timer, where that is a number.
    fn beside_all(&self, n: usize) -> Option<usize>
        ensures all { IfSome result (λ all. all ≡ n + length self.now.assocs.list.associations + length self.now.timers.list.timers) }
        ensures some { n < 2 ^ 63 → IsSome result }
    {
        n.checked_add(self.listed())
    }

    /// Room for so many more events at a port, beside one of each association and of each timer. What is queued at another port uses up
    /// none of it. No port has less room than before. Want of memory leaves all but the room as it was.
    pub fn room(&mut self, q: u32, n: usize) -> Result<(), NoMemory>
        ensures assocs { self.new.assocs ≡ self.old.assocs }
        ensures timers { self.new.timers ≡ self.old.timers }
        ensures ports { self.new.ports.ports ≡ self.old.ports.ports }
        ensures kept { KeepsRoom self.old.ports.rooms self.new.ports.rooms }
        ensures ok { OnOk result (HasRoomForEvents self.new.ports self.new.assocs.list self.new.timers.list q n) }
        ensures succeeds { n < 2 ^ 63 → HasRoomForEvents self.old.ports self.old.assocs.list self.old.timers.list q n → IsOk result }
    {
        match self.beside_all(n) {
            Some(all) => self.ports.room(q, all),
            None => Err(NoMemory),
        }
    }

    /// A user event is queued at a port that is not full. It takes no memory.
    pub fn send_fitting(&mut self, q: u32, events: u32, user: u64)
        requires room { HasRoomForEvents self.old.ports self.old.assocs.list self.old.timers.list q 1 }
        requires allowed { send_error self.old.ports.ports q ≡ None }
        ensures assocs { self.new.assocs ≡ self.old.assocs }
        ensures timers { self.new.timers ≡ self.old.timers }
        ensures ports { self.new.ports.ports ≡ send_event self.old.ports.ports q events user }
        ensures rooms { KeepsRoomButOne self.old.ports.rooms self.new.ports.rooms }
        ensures others { KeepsRoomAtOthers q self.old.ports.rooms self.new.ports.rooms }
    {
        self.ports.send_fitting(q, events, user)
    }

    /// A user event is queued at a port where there is room, or the error is told (port_sendn(3C)). It takes no memory.
    pub fn send_if_allowed(&mut self, q: u32, events: u32, user: u64) -> Option<Errno>
        requires { HasRoomForEvents self.old.ports self.old.assocs.list self.old.timers.list q 1 }
        ensures error { result ≡ send_error self.old.ports.ports q }
        ensures assocs { self.new.assocs ≡ self.old.assocs }
        ensures timers { self.new.timers ≡ self.old.timers }
        ensures ports { self.new.ports.ports ≡ send_if_allowed self.old.ports.ports q events user }
        ensures rooms { KeepsRoomButOne self.old.ports.rooms self.new.ports.rooms }
        ensures others { KeepsRoomAtOthers q self.old.ports.rooms self.new.ports.rooms }
    {
        self.ports.send_if_allowed(q, events, user)
    }

    /// A port has this alert in place of an earlier one. Without events alert mode ends.
    pub fn set_alert(&mut self, q: u32, events: u32, user: u64)
        ensures assocs { self.new.assocs ≡ self.old.assocs }
        ensures timers { self.new.timers ≡ self.old.timers }
        ensures ports { self.new.ports.ports ≡ alert_port self.old.ports.ports q events user }
        ensures rooms { KeepsRoom self.old.ports.rooms self.new.ports.rooms }
    {
        self.ports.set_alert(q, events, user)
    }

    // what is retrieved

    /// A port's alert, which stays, or its oldest event, which is taken; the port has one of the two. The association ends whose event
    /// it was; a timer does not. It takes no memory.
    pub fn take_first(&mut self, q: u32) -> Queued
        requires { is_ready_for 1 (port_of self.old.ports.ports q) ≡ true }
        ensures first { first_found (port_of self.old.ports.ports q) ≡ Some result }
        ensures ports { self.new.ports.ports ≡ take_events self.old.ports.ports q 1 }
        ensures list { self.new.assocs.list ≡ retrieve_associations self.old.assocs.list (associations_of (events_found 1 (port_of self.old.ports.ports q))) }
        ensures timers { self.new.timers ≡ self.old.timers }
        ensures rooms { KeepsRoom self.old.ports.rooms self.new.ports.rooms }
    {
        let taken = self.ports.take_first(q);
        if let Some(id) = taken.assoc {
            self.assocs.retrieved(id);
        }
        taken
    }

    /// What a get of at most `max` finds at a port is taken, but for an alert, which stays. As it is retrieved it follows what is in
    /// `into`. The associations end whose events it was, and timers do not; `ids` is empty room for their numbers. It takes no memory.
    pub fn take_found(&mut self, q: u32, max: u32, into: &mut Room<EventRec>, ids: &mut Room<u32>)
        requires record_room { length (events_found max (port_of self.old.ports.ports q)) ≤ into.old.spare }
        requires number_room { length (events_found max (port_of self.old.ports.ports q)) ≤ ids.old.spare }
        requires none { ids.old.items ≡ [] }
        ensures ports { self.new.ports.ports ≡ take_events self.old.ports.ports q max }
        ensures list { self.new.assocs.list ≡ retrieve_associations self.old.assocs.list (associations_of (events_found max (port_of self.old.ports.ports q))) }
        ensures timers { self.new.timers ≡ self.old.timers }
        ensures records { into.new.items ≡ into.old.items ++ records_of (events_found max (port_of self.old.ports.ports q)) }
        ensures rooms { KeepsRoom self.old.ports.rooms self.new.ports.rooms }
    {
        self.ports.take_found(q, max, into, ids);
        retrieve(&mut self.assocs, ids.slice());
    }

    // associations

    /// Room for another association of an object with a port, and for the event that it queues. Want of memory leaves all but the room
    /// as it was.
    pub fn reserve(&mut self, q: u32, object: Obj, alloc: Global) -> Result<(), NoMemory>
        ensures ports { self.new.ports.ports ≡ self.old.ports.ports }
        ensures kept { KeepsRoom self.old.ports.rooms self.new.ports.rooms }
        ensures list { self.new.assocs.list ≡ self.old.assocs.list }
        ensures timers { self.new.timers ≡ self.old.timers }
        ensures ok { OnOk result (HasRoomToAssociate self.new.ports self.new.assocs self.new.timers.list q object) }
        ensures succeeds { HasRoomToAssociate self.old.ports self.old.assocs self.old.timers.list q object → IsOk result }
    {
        self.room(q, 1)?;
        self.assocs.reserve(object, alloc)
    }

    /// An object is associated with a port that was made, by a descriptor of a process (port_associate(3C)). The association is armed,
    /// has a new number, and stands last. One with the same key ends, and what it queued is withdrawn. It takes no memory.
    pub fn associate(&mut self, key: AssocKey, object: Obj, events: PollSet, user: u64)
        requires room { HasRoomToAssociate self.old.ports self.old.assocs self.old.timers.list key.port object }
        requires made { key.port ≤ length self.old.ports.ports }
        requires few { self.old.assocs.list.made < EVENTS_MAX }
        ensures ports { self.new.ports.ports ≡ withdraw_events self.old.ports.ports (filter (has_key key) self.old.assocs.list.associations) }
        ensures list { self.new.assocs.list ≡ associate self.old.assocs.list key object events user }
        ensures timers { self.new.timers ≡ self.old.timers }
    {
        if let Some(replaced) = self.assocs.associate_fitting(key, object, events, user) {
            self.ports.withdraw(key.port, replaced);
        }
    }

    /// The association of a key ends, if there is one, and what it queued is withdrawn (port_dissociate(3C)).
    pub fn dissociate(&mut self, key: AssocKey)
        ensures ports { self.new.ports.ports ≡ withdraw_events self.old.ports.ports (filter (has_key key) self.old.assocs.list.associations) }
        ensures list { self.new.assocs.list ≡ dissociate self.old.assocs.list key }
        ensures timers { self.new.timers ≡ self.old.timers }
        ensures rooms { KeepsRoom self.old.ports.rooms self.new.ports.rooms }
    {
        if let Ok(ended) = self.assocs.dissociate(key) {
            self.ports.withdraw(key.port, ended);
        }
    }

    // timers

    /// Room for another timer of a port, and for the event that it queues. Want of memory leaves all but the room as it was.
    pub fn reserve_timer(&mut self, q: u32) -> Result<(), NoMemory>
        ensures ports { self.new.ports.ports ≡ self.old.ports.ports }
        ensures kept { KeepsRoom self.old.ports.rooms self.new.ports.rooms }
        ensures assocs { self.new.assocs ≡ self.old.assocs }
        ensures list { self.new.timers.list ≡ self.old.timers.list }
        ensures ok { OnOk result (HasRoomForTimer self.new.ports self.new.assocs.list self.new.timers q) }
        ensures succeeds { HasRoomForTimer self.old.ports self.old.assocs.list self.old.timers q → IsOk result }
    {
        self.room(q, 1)?;
        self.timers.reserve()
    }

    /// A timer of a process that has fewer than 32 tells a port that was made, with this user value (timer_create(3C)). It is not armed,
    /// and has a new number. Its id, which is answered, is the lowest of the process that is free. It takes no memory.
    pub fn create_timer(&mut self, process: Pid, q: u32, user: u64) -> u32
        requires room { HasRoomForTimer self.old.ports self.old.assocs.list self.old.timers q }
        requires made { q ≤ length self.old.ports.ports }
        requires few { self.old.timers.list.made < EVENTS_MAX }
        requires allowed { create_timer_error self.old.timers.list.timers process.0 ≡ None }
        ensures id { result ≡ free_id self.old.timers.list.timers process.0 }
        ensures list { self.new.timers.list ≡ create_timer self.old.timers.list process.0 q user }
        ensures ports { self.new.ports ≡ self.old.ports }
        ensures assocs { self.new.assocs ≡ self.old.assocs }
    {
        self.timers.create_fitting(process, q, user)
    }

    /// The timer of a process with this id is armed anew, or left not armed where `first` is 0 (timer_settime(3C)). What it queued is
    /// withdrawn. Its port is told; where there is no such timer, nothing changes. It takes no memory.
    pub fn set_timer(&mut self, process: Pid, id: u32, first: u64, interval: u64) -> Option<u32>
        requires first { first ≤ DELAY_MAX }
        requires interval { interval ≤ DELAY_MAX }
        ensures port { result ≡ port_told (timer_at self.old.timers.list.timers process.0 id) }
        ensures list { self.new.timers.list ≡ set_timer self.old.timers.list process.0 id first interval }
        ensures ports { self.new.ports.ports ≡ without_queued self.old.ports.ports (timer_at self.old.timers.list.timers process.0 id) }
        ensures rooms { KeepsRoom self.old.ports.rooms self.new.ports.rooms }
        ensures assocs { self.new.assocs ≡ self.old.assocs }
    {
        let Ok(tag) = self.timers.set(process, id, first, interval) else {
            return None;
        };
        self.ports.withdraw_timer(tag.port, tag.number);
        Some(tag.port)
    }

    /// The timer of a process with this id ends (timer_delete(3C)), and what it queued is withdrawn. Its port is told; where there is no
    /// such timer, nothing changes.
    pub fn delete_timer(&mut self, process: Pid, id: u32) -> Option<u32>
        ensures port { result ≡ port_told (timer_at self.old.timers.list.timers process.0 id) }
        ensures list { self.new.timers.list ≡ delete_timer self.old.timers.list process.0 id }
        ensures ports { self.new.ports.ports ≡ without_queued self.old.ports.ports (timer_at self.old.timers.list.timers process.0 id) }
        ensures rooms { KeepsRoom self.old.ports.rooms self.new.ports.rooms }
        ensures assocs { self.new.assocs ≡ self.old.assocs }
    {
        let Ok(ended) = self.timers.delete(process, id) else {
            return None;
        };
        self.ports.withdraw_timer(ended.port, ended.number);
        Some(ended.port)
    }

    /// The clock moves on by so much. Each timer with moments that it reaches, in order of number, tells its port how many they are: its
    /// queued event counts so many more and keeps its place, or one is queued last. What was told fills `into`. It takes no memory, and
    /// looks at no timer that has no moment to come.
    pub fn advance(&mut self, by: u64, into: &mut Room<Due>)
        requires by { by ≤ ADVANCE_MAX }
        requires clock { self.old.timers.list.clock ≤ CLOCK_MAX }
        requires room { length self.old.timers.list.timers ≤ into.old.spare }
        requires none { into.old.items ≡ [] }
        ensures dues { into.new.items ≡ dues self.old.timers.list by }
        ensures list { self.new.timers.list ≡ advance_clock self.old.timers.list by }
        ensures ports { self.new.ports.ports ≡ tell_dues self.old.ports.ports (dues self.old.timers.list by) }
        ensures assocs { self.new.assocs ≡ self.old.assocs }
    {
        self.timers.advance(by, into);
        tell_dues(&mut self.ports, into.slice());
    }

    // what follows an act

    /// A process ends: its timers end, and what they queued is withdrawn. `ending` is for what the call lists. It takes no memory. Says
    /// whether the process had a timer.
    pub fn end_timers(&mut self, process: Pid, ending: &mut Ending) -> bool
        requires { (n : ℕ) × HasRoomToEnd ending.old n (length self.old.timers.list.timers) }
        ensures list { self.new.timers.list ≡ end_process_timers self.old.timers.list process.0 }
        ensures ports { self.new.ports.ports ≡ withdraw_timers self.old.ports.ports (timers_of self.old.timers.list.timers process.0) }
        ensures rooms { KeepsRoom self.old.ports.rooms self.new.ports.rooms }
        ensures assocs { self.new.assocs ≡ self.old.assocs }
        ensures none { result ≡ false → self.new.ports.ports ≡ self.old.ports.ports }
        ensures kept { (n m : ℕ) → HasRoomToEnd ending.old n m → HasRoomToEnd ending.new n m }
    {
        ending.clear();
        self.timers.end_process(process, &mut ending.tags);
        withdraw_tags(&mut self.ports, ending.tags.slice());
        let many = ending.tags.len();
        ending.clear();
        many > 0
    }

    /// A descriptor of a process is closed: the associations that watch by it end, and what they queued is withdrawn.
    pub fn end_row(&mut self, process: Pid, fd: Fd)
        ensures ports { self.new.ports.ports ≡ withdraw_events self.old.ports.ports (associations_of_row self.old.assocs.list.associations process.0 fd) }
        ensures list { self.new.assocs.list ≡ end_row self.old.assocs.list process.0 fd }
        ensures timers { self.new.timers ≡ self.old.timers }
        ensures rooms { KeepsRoom self.old.ports.rooms self.new.ports.rooms }
    {
        end_row(&mut self.assocs, &mut self.ports, process, fd);
    }

    /// A process ends: all associations that watch by its descriptors end, and what they queued is withdrawn. `ending` is for what the
    /// call lists. It takes no memory.
    pub fn end_process(&mut self, process: Pid, ending: &mut Ending)
        requires { (m : ℕ) × HasRoomToEnd ending.old (length self.old.assocs.list.associations) m }
        ensures ports { self.new.ports.ports ≡ withdraw_events self.old.ports.ports (associations_of_process self.old.assocs.list.associations process.0) }
        ensures list { self.new.assocs.list ≡ end_process_associations self.old.assocs.list process.0 }
        ensures timers { self.new.timers ≡ self.old.timers }
        ensures rooms { KeepsRoom self.old.ports.rooms self.new.ports.rooms }
        ensures kept { (n m : ℕ) → HasRoomToEnd ending.old n m → HasRoomToEnd ending.new n m }
    {
        ending.clear();
        self.assocs
            .end_process(process, &mut ending.ports, &mut ending.ids);
        withdraw_each(&mut self.ports, ending.ports.slice(), ending.ids.slice());
        ending.clear();
    }

    /// Ports are told: all associations that are to fire queue their events, in order of number, and are no longer armed, where an event
    /// changed this pipe, and these ends of pipes lost their references in it. `changed` is for what the call lists. It takes no memory.
    /// Says whether any fired.
    pub fn tell(
        &mut self,
        pipes: &Pipes,
        pipe: Option<Ends>,
        gone: &[Obj],
        changed: &mut Room<Changed>,
    ) -> bool
        requires listed { length gone.now + 2 ≤ changed.old.spare }
        requires named { (refs : Obj → ℕ) × AreAllNamed pipes.now.items refs pipe gone.now self.old.assocs.list.associations }
        ensures timers { self.new.timers ≡ self.old.timers }
        ensures list { (refs : Obj → ℕ) → AreAllNamed pipes.now.items refs pipe gone.now self.old.assocs.list.associations → self.new.assocs.list ≡ fire_all self.old.assocs.list (ready_object pipes.now.items refs) }
        ensures ports { (refs : Obj → ℕ) → AreAllNamed pipes.now.items refs pipe gone.now self.old.assocs.list.associations → self.new.ports.ports ≡ post_fired self.old.ports.ports (all_fired (ready_object pipes.now.items refs) self.old.assocs.list.associations) }
        ensures none { result ≡ false → (self.new.assocs ≡ self.old.assocs) × (self.new.ports ≡ self.old.ports) }
    {
        tell_ports(
            &mut self.assocs,
            &mut self.ports,
            pipes,
            pipe,
            gone,
            changed,
        )
    }
}
