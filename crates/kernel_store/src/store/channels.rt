//! Pipes, event ports, and associations of objects with these. A number that no pipe or port has reads as an empty one, and a change of it changes nothing.
ghost use Rattle.std.specs.Prelude.{◌≡◌, ◌+◌, ◌<◌, ◌≤◌, ◌++◌, ◌^◌, [], length, min, None, Some, IsOk, OnOk, true, is_some};
ghost use Rattle.dk_base.specs.declared.answer.Answer.TheVariants.{NewFd, TwoFds};
ghost use Rattle.dk_base.specs.declared.limits.TheConstants.{EVENTS_MAX, PIPE_MAX, USER_EVENTS_MAX};
ghost use Rattle.spec_records.specs.Words.{alert_port, alert_tests, events_found, first_found, first_refusal, fitting, free_rows, get_tests, getn_tests, is_ready_for, lowest_free, number_in, oldest, read_pipe, read_tests, records_of, send_error, send_event, send_if_allowed, send_tests, user_events, write_pipe, write_tests};
ghost use Rattle.spec_kernel.specs.Types.{Pool};
ghost use Rattle.spec_kernel.specs.Words.{associated, association_of_key, create_port, dissociated, has_port_references, held_in, pipe, port, readers_of, table_of, take_found, with_channels, with_pipes, with_ports, writers_of};
ghost use Rattle.event_port.specs.Words.{KeepsRoom};
ghost use Rattle.kernel_store.specs.Channels.{HasRoomForEvents, HasRoomForPipe, HasRoomForPort, HasRoomToAssociate, KeepsRoomForEvents, KeepsRoomForEventsButOne};
ghost use Rattle.kernel_store.specs.Frames.{KeepsPools};
ghost use Rattle.kernel_store.specs.Stored.{HasRoom, HasRoomForNotices, stored_state};

use crate::ports::note_port;
use crate::store::Store;
use dk_base::error::{Errno, NoMemory};
use dk_base::list::Room;
use dk_base::number::{Fd, Pid};
use dk_base::object::{EventRec, Obj};
use dk_base::request::AlertMode;
use dk_base::set::PollSet;
use spec_records::association::AssocKey;
use spec_records::port::Queued;
use std::alloc::Global;

impl Store {
    // memory

    /// Takes the memory for another pipe. It changes nothing else.
    pub fn reserve_pipe(&mut self, alloc: Global) -> Result<(), NoMemory>
        ensures same { self.new ≡ record (self.old) { pipes = self.new.pipes } }
        ensures state { stored_state self.new ≡ stored_state self.old }
        ensures keeps { KeepsPools self.old self.new }
        ensures room { OnOk result (HasRoomForPipe self.new) }
        ensures spare { self.old.pipes.spare ≤ self.new.pipes.spare }
        ensures kept { (touched : Pool) → HasRoom self.old touched → HasRoom self.new touched }
        ensures notices { HasRoomForNotices self.old → HasRoomForNotices self.new }
    {
        self.pipes.reserve(alloc)
    }

    /// Takes the memory for another port. It changes nothing else.
    pub fn reserve_port(&mut self) -> Result<(), NoMemory>
        ensures same { self.new ≡ record (self.old) { ports = self.new.ports } }
        ensures rooms { self.new.ports.rooms ≡ self.old.ports.rooms }
        ensures state { stored_state self.new ≡ stored_state self.old }
        ensures keeps { KeepsPools self.old self.new }
        ensures room { OnOk result (HasRoomForPort self.new) }
        ensures spare { self.old.ports.spare ≤ self.new.ports.spare }
        ensures kept { (touched : Pool) → HasRoom self.old touched → HasRoom self.new touched }
        ensures notices { HasRoomForNotices self.old → HasRoomForNotices self.new }
    {
        self.ports.reserve_port()
    }

    /// Takes the memory for so many more events at a port, beside one of each association. It changes nothing else, and wants none where
    /// there was room.
    #[tactic(auto, using(crate::proofs::EventRoom::more_room))]
    pub fn reserve_events(&mut self, q: u32, n: usize) -> Result<(), NoMemory>
        ensures same { self.new ≡ record (self.old) { ports = self.new.ports } }
        ensures rooms { KeepsRoomForEvents self.old self.new }
        ensures state { stored_state self.new ≡ stored_state self.old }
        ensures keeps { KeepsPools self.old self.new }
        ensures room { OnOk result (HasRoomForEvents self.new q n) }
        ensures succeeds { n < 2 ^ 63 → HasRoomForEvents self.old q n → IsOk result }
        ensures kept { (touched : Pool) → HasRoom self.old touched → HasRoom self.new touched }
        ensures notices { HasRoomForNotices self.old → HasRoomForNotices self.new }
    {
        self.ports.room(q, n)
    }

    /// Takes the memory for another association of an object with a port, and for the event that it queues. It changes nothing else, and
    /// wants none where there was room.
    pub fn reserve_association(
        &mut self,
        q: u32,
        object: Obj,
        alloc: Global,
    ) -> Result<(), NoMemory>
        ensures same { self.new ≡ record (self.old) { ports = self.new.ports; assocs = self.new.assocs } }
        ensures state { stored_state self.new ≡ stored_state self.old }
        ensures keeps { KeepsPools self.old self.new }
        ensures room { OnOk result (HasRoomToAssociate self.new q object) }
        ensures succeeds { HasRoomToAssociate self.old q object → IsOk result }
        ensures kept { (touched : Pool) → HasRoom self.old touched → HasRoom self.new touched }
        ensures notices { HasRoomForNotices self.old → HasRoomForNotices self.new }
    {
        self.ports.reserve(q, object, alloc)
    }

    // pipes

    /// A process gets the two ends of another pipe, which is empty, at its two lowest free descriptors: the reading end at the first
    /// of them (pipe(2)). It takes no memory.
    pub fn make_pipe(&mut self, p: Pid) -> (Fd, Fd)
        requires free { 2 ≤ free_rows (table_of (stored_state self.old) p.0) }
        requires room { HasRoomForPipe self.old }
        requires few { length (stored_state self.old).channels.pipes < EVENTS_MAX }
        requires references { 2 ≤ self.old.left }
        ensures state { stored_state self.new ≡ (pipe (stored_state self.old) p.0).state }
        ensures answer { TwoFds result.0 result.1 ≡ (pipe (stored_state self.old) p.0).answer }
        ensures left { self.old.left ≤ self.new.left + 2 }
        ensures keeps { KeepsPools self.old self.new }
    {
        let number = self.pipes.create();
        self.held
            .insert_two(p, Obj::PipeIn(number), Obj::PipeOut(number))
    }

    /// How many bytes a pipe holds.
    pub fn bytes_held(&self, n: u32) -> usize
        ensures held { result ≡ length (held_in (stored_state self.now) n) }
        ensures few { length (held_in (stored_state self.now) n) ≤ PIPE_MAX }
    {
        self.pipes.held(n)
    }

    /// Why these bytes cannot be written to a pipe (write(2)): EPIPE where nothing refers to its reading end, EAGAIN for some bytes where
    /// it is full.
    pub fn write_refusal(&self, n: u32, bytes: &[u8]) -> Option<Errno>
        ensures { result ≡ first_refusal (write_tests (held_in (stored_state self.now) n) bytes.now (readers_of (stored_state self.now) n)) }
    {
        let readers = self.references_to(Obj::PipeIn(n));
        self.pipes.write_refusal(n, bytes, readers)
    }

    /// As many of these bytes as fit follow those of a pipe. Tells how many.
    pub fn write_fitting(&mut self, n: u32, bytes: &[u8]) -> u32
        ensures state { stored_state self.new ≡ with_pipes (stored_state self.old) (write_pipe (stored_state self.old).channels.pipes n bytes.now) }
        ensures count { result ≡ length (fitting (held_in (stored_state self.old) n) bytes.now) }
        ensures left { self.new.left ≡ self.old.left }
        ensures keeps { KeepsPools self.old self.new }
    {
        self.pipes.write_fitting(n, bytes)
    }

    /// Why nothing can be read from a pipe (read(2)): EAGAIN where it holds nothing and something refers to its writing end.
    pub fn read_refusal(&self, n: u32) -> Option<Errno>
        ensures { result ≡ first_refusal (read_tests (held_in (stored_state self.now) n) (writers_of (stored_state self.now) n)) }
    {
        let writers = self.references_to(Obj::PipeOut(n));
        self.pipes.read_refusal(n, writers)
    }

    /// The oldest bytes of a pipe, at most `max`, leave it, and follow what is in `into`. Tells how many. It takes no memory.
    pub fn take_oldest(&mut self, n: u32, max: u32, into: &mut Room<u8>) -> u32
        requires { min max (length (held_in (stored_state self.old) n)) ≤ into.old.spare }
        ensures state { stored_state self.new ≡ with_pipes (stored_state self.old) (read_pipe (stored_state self.old).channels.pipes n max) }
        ensures count { result ≡ length (oldest (held_in (stored_state self.old) n) max) }
        ensures bytes { into.new.items ≡ into.old.items ++ oldest (held_in (stored_state self.old) n) max }
        ensures left { self.new.left ≡ self.old.left }
        ensures keeps { KeepsPools self.old self.new }
    {
        self.pipes.take_oldest(n, max, into)
    }

    // ports

    /// A process gets another port, at which nothing is queued, at its lowest free descriptor (port_create(3C)). It takes no memory.
    pub fn make_port(&mut self, alloc: Global, p: Pid) -> Fd
        requires free { is_some (lowest_free (table_of (stored_state self.old) p.0)) ≡ true }
        requires room { HasRoomForPort self.old }
        requires few { length (stored_state self.old).channels.ports < EVENTS_MAX }
        requires references { 1 ≤ self.old.left }
        ensures state { stored_state self.new ≡ (create_port (stored_state self.old) p.0).state }
        ensures answer { NewFd result ≡ (create_port (stored_state self.old) p.0).answer }
        ensures left { self.old.left ≤ self.new.left + 1 }
        ensures keeps { KeepsPools self.old self.new }
    {
        let number = self.ports.create(alloc);
        let fd = self.held.insert(p, Obj::Port(number));
        note_port(
            &mut self.ended,
            number,
            &self.processes,
            &self.held,
            &self.ports,
        );
        fd
    }

    /// Whether anything refers to a port.
    pub fn has_port_references(&self, q: u32) -> bool
        ensures { result ≡ has_port_references (stored_state self.now) q }
    {
        self.references_to(Obj::Port(q)) != 0
    }

    /// How many events are queued at a port, of which at most 1,024 are user events.
    pub fn queued(&self, q: u32) -> u64
        ensures queued { result ≡ length (port (stored_state self.now) q).queue }
        ensures few { user_events (port (stored_state self.now) q).queue ≤ USER_EVENTS_MAX }
    {
        self.ports.ports().queued(q)
    }

    /// Whether a port is in alert mode, or has so many events.
    pub fn ready_for(&self, q: u32, nget: u32) -> bool
        ensures { result ≡ is_ready_for nget (port (stored_state self.now) q) }
    {
        self.ports.ports().ready_for(q, nget)
    }

    /// How many events a get of at most `max` finds at a port.
    pub fn found(&self, q: u32, max: u32) -> usize
        ensures { result ≡ length (events_found max (port (stored_state self.now) q)) }
    {
        self.ports.ports().found(q, max)
    }

    /// Why a user event cannot be sent to a port (port_send(3C)): EAGAIN where it is full.
    pub fn send_refusal(&self, q: u32) -> Option<Errno>
        ensures { result ≡ first_refusal (send_tests (port (stored_state self.now) q)) }
    {
        self.ports.ports().send_refusal(q)
    }

    /// A user event is queued at a port that is not full. It takes no memory.
    #[tactic(auto, using(crate::proofs::EventRoom::room_but_one))]
    pub fn send_fitting(&mut self, q: u32, events: u32, user: u64)
        requires room { HasRoomForEvents self.old q 1 }
        requires allowed { first_refusal (send_tests (port (stored_state self.old) q)) ≡ None }
        ensures state { stored_state self.new ≡ with_ports (stored_state self.old) (send_event (stored_state self.old).channels.ports q events user) }
        ensures rooms { KeepsRoomForEventsButOne self.old self.new }
        ensures left { self.new.left ≡ self.old.left }
        ensures keeps { KeepsPools self.old self.new }
    {
        self.ports.send_fitting(q, events, user);
        note_port(&mut self.ended, q, &self.processes, &self.held, &self.ports);
    }

    /// A user event is queued at a port that is not full, or else the error is told (port_sendn(3C)). It takes no memory.
    #[tactic(auto, using(crate::proofs::EventRoom::room_but_one))]
    pub fn send_if_allowed(&mut self, q: u32, events: u32, user: u64) -> Option<Errno>
        requires room { HasRoomForEvents self.old q 1 }
        ensures error { result ≡ send_error (stored_state self.old).channels.ports q }
        ensures state { stored_state self.new ≡ with_ports (stored_state self.old) (send_if_allowed (stored_state self.old).channels.ports q events user) }
        ensures rooms { KeepsRoomForEventsButOne self.old self.new }
        ensures left { self.new.left ≡ self.old.left }
        ensures keeps { KeepsPools self.old self.new }
    {
        let error = self.ports.send_if_allowed(q, events, user);
        note_port(&mut self.ended, q, &self.processes, &self.held, &self.ports);
        error
    }

    /// Why a port's alert cannot be set (port_alert(3C)): EINVAL for no mode, EBUSY for an update with events in alert mode.
    pub fn alert_refusal(&self, q: u32, mode: AlertMode, events: u32) -> Option<Errno>
        ensures { result ≡ first_refusal (alert_tests mode events (port (stored_state self.now) q)) }
    {
        self.ports.ports().alert_refusal(q, mode, events)
    }

    /// A port has this alert in place of an earlier one. Without events alert mode ends.
    pub fn set_alert(&mut self, q: u32, events: u32, user: u64)
        ensures state { stored_state self.new ≡ with_ports (stored_state self.old) (alert_port (stored_state self.old).channels.ports q events user) }
        ensures rooms { KeepsRoom self.old.ports.rooms self.new.ports.rooms }
        ensures left { self.new.left ≡ self.old.left }
        ensures keeps { KeepsPools self.old self.new }
    {
        self.ports.set_alert(q, events, user);
        note_port(&mut self.ended, q, &self.processes, &self.held, &self.ports);
    }

    /// Why port_get(3C) gives nothing: ETIME without a wait where a port is not ready for one event.
    pub fn get_refusal(&self, q: u32, wait: bool) -> Option<Errno>
        ensures { result ≡ first_refusal (get_tests wait (port (stored_state self.now) q)) }
    {
        self.ports.ports().get_refusal(q, wait)
    }

    /// Why port_getn(3C) gives nothing: but for `max` 0, EINVAL where `nget` is above it, and ETIME without a wait where the port is not
    /// ready for `nget`.
    pub fn getn_refusal(&self, q: u32, max: u32, nget: u32, wait: bool) -> Option<Errno>
        ensures { result ≡ first_refusal (getn_tests wait max nget (port (stored_state self.now) q)) }
    {
        self.ports.ports().getn_refusal(q, max, nget, wait)
    }

    /// The alert of a port, which stays, or its oldest event, which is taken; the port has one of the two. The association ends whose
    /// event it was. It takes no memory.
    pub fn take_first(&mut self, q: u32) -> Queued
        requires { is_ready_for 1 (port (stored_state self.old) q) ≡ true }
        ensures state { stored_state self.new ≡ with_channels (stored_state self.old) (take_found (stored_state self.old).channels q 1) }
        ensures first { first_found (port (stored_state self.old) q) ≡ Some result }
        ensures rooms { KeepsRoom self.old.ports.rooms self.new.ports.rooms }
        ensures left { self.new.left ≡ self.old.left }
        ensures keeps { KeepsPools self.old self.new }
    {
        let first = self.ports.take_first(q);
        note_port(&mut self.ended, q, &self.processes, &self.held, &self.ports);
        first
    }

    /// What a get of at most `max` finds at a port is taken, but for an alert, which stays. As it is retrieved it follows what is in
    /// `into`. The associations end whose events it was; `ids` is empty room for their numbers. It takes no memory.
    pub fn take_found(&mut self, q: u32, max: u32, into: &mut Room<EventRec>, ids: &mut Room<u32>)
        requires record_room { length (events_found max (port (stored_state self.old) q)) ≤ into.old.spare }
        requires number_room { length (events_found max (port (stored_state self.old) q)) ≤ ids.old.spare }
        requires none { ids.old.items ≡ [] }
        ensures state { stored_state self.new ≡ with_channels (stored_state self.old) (take_found (stored_state self.old).channels q max) }
        ensures records { into.new.items ≡ into.old.items ++ records_of (events_found max (port (stored_state self.old) q)) }
        ensures rooms { KeepsRoom self.old.ports.rooms self.new.ports.rooms }
        ensures left { self.new.left ≡ self.old.left }
        ensures keeps { KeepsPools self.old self.new }
    {
        self.ports.take_found(q, max, into, ids);
        note_port(&mut self.ended, q, &self.processes, &self.held, &self.ports);
    }

    // associations

    /// The number of the association of a port with a descriptor of a process.
    pub fn number_at(&self, key: AssocKey) -> Option<u32>
        ensures { result ≡ number_in (association_of_key (stored_state self.now) key) }
    {
        self.ports.assocs().number_at(key)
    }

    /// An object is associated with a port that was made, by a descriptor of a process (port_associate(3C)). The association is armed.
    /// One of the same port and descriptor ends, and what it queued is withdrawn. It takes no memory.
    pub fn associate(&mut self, key: AssocKey, object: Obj, events: PollSet, user: u64)
        requires room { HasRoomToAssociate self.old key.port object }
        requires made { key.port ≤ length (stored_state self.old).channels.ports }
        requires few { (stored_state self.old).channels.associations.made < EVENTS_MAX }
        ensures state { stored_state self.new ≡ with_channels (stored_state self.old) (associated (stored_state self.old).channels key object events user) }
        ensures left { self.new.left ≡ self.old.left }
        ensures keeps { KeepsPools self.old self.new }
    {
        self.ports.associate(key, object, events, user);
        note_port(
            &mut self.ended,
            key.port,
            &self.processes,
            &self.held,
            &self.ports,
        );
    }

    /// The association of a port with a descriptor of a process ends, if there is one, and what it queued is withdrawn
    /// (port_dissociate(3C)).
    pub fn dissociate(&mut self, key: AssocKey)
        ensures state { stored_state self.new ≡ with_channels (stored_state self.old) (dissociated (stored_state self.old).channels key) }
        ensures left { self.new.left ≡ self.old.left }
        ensures keeps { KeepsPools self.old self.new }
    {
        self.ports.dissociate(key);
        note_port(
            &mut self.ended,
            key.port,
            &self.processes,
            &self.held,
            &self.ports,
        );
    }
}
