//! What the kernel holds, by subject.
ghost use Rattle.std.specs.Prelude.{◌≡◌, ℕ, ◌<◌, ◌∷◌, [], true, is_none, is_some, IfOk, IfSome};
ghost use Rattle.dk_base.specs.declared.limits.TheConstants.{EVENTS_MAX};
ghost use Rattle.dk_base.specs.declared.object.Obj.TheVariants as obj;
ghost use Rattle.spec_records.specs.Words.{door_attached, free_rows, is_bad_pass, lowest_free};
ghost use Rattle.spec_kernel.specs.Words.{bound_of, calls_waiting, door_of, has_invalid_door, has_room, name_of, no_process, now, object_at, pool_of, reference_count, references_of, table_of};
ghost use Rattle.law_pools.specs.Words.{own_pool};
ghost use Rattle.kernel_store.specs.Frames.{IsAtRest};
ghost use Rattle.kernel_store.specs.Turning.{can_turn};
ghost use Rattle.dk_base.specs.Words.{has};
ghost use Rattle.kernel_store.specs.Stored.{AreThere, IsAgreed, may_have_notice_in, stored_state};

mod calls;
mod channels;
mod descriptors;
mod forking;
mod settling;
mod steps;
mod telling;
mod threads;
mod timers;

use call_tree::calls::Calls;
use dk_base::error::NoMemory;
use dk_base::list::{ObjList, PassList, Room};
use dk_base::number::{Fd, PathId, Pid, Tid};
use dk_base::object::Obj;
use dk_base::thread_set::ThreadSet;
use door_object::doors::Doors;
use event_port::ports::Ports;
use exit_paths::who_leaves::own_pool;
use kernel_holdings::holdings::Holdings;
use kernel_ports::ports::AssociatedPorts;
use pipe_obj::pipes::Pipes;
use proc_table::procs::Procs;
use server_pool::pools::Pools;
use spec_records::pool::Pool;
use spec_records::record::Door;
use std::alloc::Global;
use std::marker::Model;
use unref_notice::notices::Notices;

/// What the kernel holds. It keeps the calls that are live, and the notices that are not past or that a rule asks for again. At
/// every moment the pools hold the threads, the calls and the notices that the records have there, and the caller and the server of
/// each call are threads that say so; what refers to a door refers to one that is there; who waits for a path, and whether a door is
/// attached to it, is known without a look at the names; who waits at a port, and whether the wait can end, without a look at the ports;
/// and which pools may be short of room for notices.
#[derive(Drop)]
pub struct Store {
    processes: Procs,
    pools: Pools,
    held: Holdings,
    doors: Doors,
    notices: Notices,
    events: u64,
    /// No thread parked, and no call or notice was made, after this event.
    latest: u64,
    /// Of the threads that wait for a path, those where a door is attached to it.
    named: ThreadSet,
    /// Of the threads that wait at a port and were not interrupted, those whose wait can end.
    ended: ThreadSet,
    /// The pools that were made or got an item since room for notices was last taken. All others have it.
    short: Room<Pool>,
    pipes: Pipes,
    ports: AssociatedPorts,
}

impl Model for Store {
    ghost use Rattle.law_calls.specs.Words.{AreBacked};
    ghost use Rattle.law_pools.specs.Words.{Agrees};
    ghost use Rattle.kernel_store.specs.Noticing.{HaveItemRoomBut};
    ghost use Rattle.kernel_store.specs.Stored.{ReferToDoors, StoreValue};
    ghost use Rattle.kernel_store.specs.Turning.{KnowsPaths, KnowsPorts};

    ghost Value = { StoreValue };

    ghost view = { λ s. record { processes = s.processes; pools = s.pools; tables = s.held.tables; names = s.held.names; doors = s.doors; calls = s.held.calls; notices = s.notices; events = s.events; latest = s.latest; opening = s.held.opening; left = s.held.left; short_room = s.short.spare; pipes = s.pipes; ports = s.ports.ports; assocs = s.ports.assocs; timers = s.ports.timers } };

    ghost invariant = { λ s. Agrees s.latest s.processes s.doors.items s.held.calls.tree s.notices.list s.pools × ReferToDoors s.doors.items s.held × AreBacked s.processes s.held.calls.tree.calls × KnowsPaths s.processes s.held.names.names s.named × HaveItemRoomBut s.short.items s.pools × KnowsPorts s.processes s.held s.ports.ports.ports s.ended };
}

impl Store {
    pub fn new(alloc: Global) -> Result<Self, NoMemory>
        ensures state { IfOk result (λ s. stored_state s ≡ no_process) }
        ensures rest { IfOk result (IsAtRest 0) }
    {
        Ok(Store {
            processes: Procs::new(alloc),
            pools: Pools::new(alloc)?,
            held: Holdings::new(alloc),
            doors: Doors::new(alloc),
            notices: Notices::new(alloc),
            events: 0,
            latest: 0,
            named: ThreadSet::new(),
            ended: ThreadSet::new(),
            short: Room::new(alloc),
            pipes: Pipes::new(alloc),
            ports: AssociatedPorts::new(alloc),
        })
    }

    // readers

    pub fn processes(&self) -> &Procs
        ensures { result.now ≡ self.now.processes }
    {
        &self.processes
    }

    pub fn doors(&self) -> &Doors
        ensures { result.now ≡ self.now.doors }
    {
        &self.doors
    }

    pub fn calls(&self) -> &Calls
        ensures { result.now ≡ self.now.calls }
    {
        self.held.calls()
    }

    /// Its caller also learns here that the pools hold what the records say.
    pub fn notices(&self) -> &Notices
        ensures notices { result.now ≡ self.now.notices }
        ensures agreed { IsAgreed self.now }
    {
        &self.notices
    }

    pub fn pipes(&self) -> &Pipes
        ensures { result.now ≡ self.now.pipes }
    {
        &self.pipes
    }

    pub fn ports(&self) -> &Ports
        ensures { result.now ≡ self.now.ports }
    {
        self.ports.ports()
    }

    /// How many events there were.
    pub fn events(&self) -> u64
        ensures { result ≡ (stored_state self.now).events }
    {
        self.events
    }

    /// The number of the next event.
    pub fn now(&self) -> u64
        requires { self.now.events < EVENTS_MAX }
        ensures { result ≡ now (stored_state self.now) }
    {
        self.events + 1
    }

    /// The door that a thread is bound to.
    pub fn bound_door(&self, t: Tid) -> Option<u32>
        ensures { result ≡ bound_of (stored_state self.now) t.0 }
    {
        self.pools.bound(t)
    }

    /// Whether a thread is bound to a door that is not valid.
    pub fn has_invalid_door(&self, t: Tid) -> bool
        ensures { result ≡ has_invalid_door (stored_state self.now) t.0 }
    {
        match self.pools.bound(t) {
            Some(door) => !self.doors.valid(door),
            None => false,
        }
    }

    /// The pool in which a thread parks.
    pub fn own_pool(&self, t: Tid) -> Pool
        ensures { result ≡ own_pool (stored_state self.now) t.0 }
    {
        own_pool(&self.processes, &self.pools, t)
    }

    /// How many calls wait in a pool.
    pub fn calls_waiting(&self, pool: Pool) -> usize
        ensures { result ≡ calls_waiting (stored_state self.now) pool }
    {
        self.pools.calls_waiting(pool)
    }

    /// How many references a door has: descriptors, names, and what is in transit with calls.
    pub fn references(&self, d: u32) -> u64
        ensures { result ≡ reference_count (stored_state self.now) d }
    {
        self.held.references_to(Obj::Door(d))
    }

    /// How many references an object has.
    pub fn references_to(&self, object: Obj) -> u64
        ensures { result ≡ references_of (stored_state self.now) object }
    {
        self.held.references_to(object)
    }

    /// What a descriptor of a process names.
    pub fn object_at(&self, p: Pid, fd: Fd) -> Option<Obj>
        ensures object { result ≡ object_at (stored_state self.now) p.0 fd }
        ensures there { IfSome result (λ o. AreThere self.now.doors.items (o ∷ [])) }
    {
        self.held.object_at(p, fd)
    }

    /// Whether a process has no free descriptor.
    pub fn is_full(&self, p: Pid) -> bool
        ensures { result ≡ is_none (lowest_free (table_of (stored_state self.now) p.0)) }
    {
        self.held.tables().is_full(p)
    }

    /// How many descriptors of a process are free.
    pub fn free_rows(&self, p: Pid) -> u32
        ensures { result ≡ free_rows (table_of (stored_state self.now) p.0) }
    {
        self.held.tables().free_rows(p)
    }

    /// Whether these descriptors cannot be passed out of a process's table (door_call(3C)).
    pub fn is_bad_pass(&self, p: Pid, pass: &PassList) -> bool
        ensures { result ≡ is_bad_pass (table_of (stored_state self.now) p.0) pass.now }
    {
        self.held.tables().is_bad_pass(p, pass)
    }

    /// Whether a process has a free descriptor for each of these objects.
    pub fn has_room(&self, p: Pid, objects: &ObjList) -> bool
        ensures { result ≡ has_room (stored_state self.now) p.0 objects.now }
    {
        self.held.tables().has_room(p, objects)
    }

    /// Whether a door is attached to a path.
    pub fn has_name(&self, path: PathId) -> bool
        ensures { result ≡ is_some (name_of (stored_state self.now) path) }
    {
        self.held.names().has(path)
    }

    /// The number of the door that is attached to a path, 0 for none.
    pub fn door_attached(&self, path: PathId) -> u32
        ensures door { result ≡ door_attached (name_of (stored_state self.now) path) }
        ensures there { is_some (name_of (stored_state self.now) path) ≡ true → AreThere self.now.doors.items (obj.Door result ∷ []) }
    {
        self.held.door_attached(path)
    }

    /// The threads that can take a turn.
    pub fn runnable(&self) -> ThreadSet
        ensures { (t : ℕ) → has result t ≡ can_turn (stored_state self.now) t }
    {
        let going = self.processes.going();
        let collecting = self.held.calls().collecting();
        let found = self.processes.awaiting().and(self.named);
        let ended = self.processes.getting().and(self.ended);
        going.or(collecting).or(found).or(ended)
    }

    pub fn door(&self, d: u32) -> Option<Door>
        ensures { result ≡ door_of (stored_state self.now) d }
    {
        self.doors.door(d)
    }

    /// Whether a door is there of which another notice can be made.
    pub fn may_have_notice(&self, d: u32) -> bool
        ensures { result ≡ may_have_notice_in (stored_state self.now) d (door_of (stored_state self.now) d) }
    {
        self.doors.may_take_notice(d, self.notices.has(d))
    }

    /// The pool that serves a door.
    pub fn pool_of(&self, d: u32) -> Pool
        ensures { result ≡ pool_of (stored_state self.now) d }
    {
        self.doors.pool_of(d)
    }
}
