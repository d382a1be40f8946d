//! The associations of a kernel.
ghost use Rattle.std.specs.Prelude.{◌≡◌, ◌+◌, ◌<◌, ◌≤◌, ◌++◌, ◌^◌, None, OnErr, OnOk, IfOk, IsOk, Some, find, length, ok_or};
ghost use Rattle.dk_base.specs.declared.limits.TheConstants.{EVENTS_MAX};
ghost use Rattle.spec_records.specs.Words.{IsAscending, armed_at, associate, association_at, association_number, associations_of_process, associations_of_row, dissociate, end_process_associations, end_row, fire_first, fired_of, first_fired, has_key, is_fired_by, is_of_row, no_associations, number_in, numbers_of, ports_of, retrieve_association};
ghost use Rattle.port_assoc.specs.Lists.{without_first};
ghost use Rattle.port_assoc.specs.Table.{HaveDistinctKeys};
ghost use Rattle.port_assoc.specs.Words.{HasRoomFor, IsAlone, KeepsRoom};

use crate::key::row_at;
use crate::process_end::end_watches;
use crate::rows::Rows;
use crate::table::Table;
use crate::watch_list::told_events;
use crate::watchers::Watchers;
use dk_base::error::{Errno, NoMemory};
use dk_base::list::Room;
use dk_base::number::{Fd, Pid};
use dk_base::object::{EventRec, Obj, Src};
use dk_base::set::PollSet;
use spec_records::association::{AssocKey, Association, Fired};
use spec_records::port::Queued;
use std::alloc::Global;
use std::marker::Model;

/// Associations in the order of their numbers, which go up from 1; none is used twice. Each queues one event at most. Clauses see how
/// many were made and those that have not ended (`list`), and for which objects another takes no memory (`HasRoomFor`).
#[derive(Drop)]
pub struct Assocs {
    made: u32,
    table: Table,
    watchers: Watchers,
    rows: Rows,
}

impl Model for Assocs {
    ghost use Rattle.std.specs.Prelude.{min};
    ghost use Rattle.spec_records.specs.Words.{IsAscending, association_number};
    ghost use Rattle.port_assoc.specs.Value.{AreCounted, AssocsValue, IsWatched};

    ghost Value = { AssocsValue };

    ghost view = { λ s. record { list = record { made = s.made; associations = s.table.items }; spare = min s.table.spare s.rows.spare; lists = s.watchers } };

    ghost invariant = { λ s. IsWatched s.table.items s.watchers × IsAscending association_number 0 s.made s.table.items × AreCounted s.table.items s.rows.counts };
}

/// What an association queues where its object is ready for these.
fn fired(a: &Association, ready: PollSet) -> Fired
    ensures { result ≡ fired_of ready a.now }
{
    Fired {
        port: a.key.port,
        queued: Queued {
            rec: EventRec {
                source: Src::Fd,
                object: a.key.fd.0,
                events: told_events(ready, a.events),
                user: a.user,
            },
            assoc: Some(a.number),
            timer: None,
        },
    }
}

impl Assocs {
    /// No association, and no room.
    pub fn new(alloc: Global) -> Self
        ensures { result.list ≡ no_associations }
    {
        Assocs {
            made: 0,
            table: Table::new(alloc),
            watchers: Watchers::new(alloc),
            rows: Rows::new(alloc),
        }
    }

    /// How many associations there are.
    pub fn len(&self) -> usize
        ensures len { result ≡ length self.now.list.associations }
        ensures small { result < 2 ^ 63 }
    {
        self.table.len()
    }

    /// How many associations were made, which is the number of the latest. The numbers of those that have not ended go up, and none is
    /// above it, so the next number is a new one.
    pub fn made(&self) -> u32
        ensures made { result ≡ self.now.list.made }
        ensures numbers { IsAscending association_number 0 self.now.list.made self.now.list.associations }
    {
        self.made
    }

    /// The number of the association of a port with a descriptor of a process.
    pub fn number_at(&self, key: AssocKey) -> Option<u32>
        ensures { result ≡ number_in (association_at self.now.list.associations key) }
    {
        let a = self.table.get(key)?;
        Some(a.number)
    }

    /// How many associations of a port are armed: so many events can be queued there before another is made.
    pub fn armed(&self, port: u32) -> u64
        ensures { result ≡ armed_at self.now.list.associations port }
    {
        self.table.armed(port)
    }

    /// Room for another that watches this object. Want of memory leaves all but the room as it was.
    pub fn reserve(&mut self, object: Obj, alloc: Global) -> Result<(), NoMemory>
        ensures list { self.new.list ≡ self.old.list }
        ensures room { OnOk result (HasRoomFor self.new object) }
        ensures succeeds { HasRoomFor self.old object → IsOk result }
    {
        self.table.reserve()?;
        self.rows.reserve()?;
        self.watchers.reserve(object, alloc)
    }

    /// An association that is there ends.
    #[tactic(auto, using(crate::proofs::Watching::watches_ended, crate::proofs::Numbers::numbers_left))]
    fn end_found(&mut self, a: Association)
        requires { association_at self.old.list.associations a.key ≡ Some a }
        ensures made { self.new.list.made ≡ self.old.list.made }
        ensures left { self.new.list.associations ≡ without_first (has_key a.key) self.old.list.associations }
        ensures distinct { HaveDistinctKeys self.old.list.associations }
        ensures room { KeepsRoom self.old self.new }
    {
        self.table.remove(a.key);
        self.watchers.end(a);
        self.rows.down(row_at(a.key.process, a.key.fd));
    }

    /// The association of a key ends, if there is one, and is told.
    fn end(&mut self, key: AssocKey) -> Option<Association>
        ensures ended { result ≡ association_at self.old.list.associations key }
        ensures alone { IsAlone self.old.list key }
        ensures list { self.new.list ≡ dissociate self.old.list key }
        ensures room { KeepsRoom self.old self.new }
    {
        let a = self.table.get(key)?;
        self.end_found(a);
        Some(a)
    }

    /// An object is associated with a port by a descriptor of a process (port_associate(3C)). The association is armed, has a new
    /// number, and stands last. One with the same key ends, and its number is told. It takes no memory.
    #[tactic(auto, using(crate::proofs::Watching::armed_made, crate::proofs::Numbers::numbers_made))]
    pub fn associate_fitting(
        &mut self,
        key: AssocKey,
        object: Obj,
        events: PollSet,
        user: u64,
    ) -> Option<u32>
        requires room { HasRoomFor self.old object }
        requires few { self.old.list.made < EVENTS_MAX }
        ensures replaced { result ≡ number_in (association_at self.old.list.associations key) }
        ensures alone { IsAlone self.old.list key }
        ensures list { self.new.list ≡ associate self.old.list key object events user }
    {
        let replaced = self.end(key);
        self.made += 1;
        let a = Association {
            number: self.made,
            key,
            object,
            events,
            user,
            armed: true,
        };
        self.table.push(a);
        self.watchers.push(a);
        self.rows.up(row_at(key.process, key.fd));
        let ended = replaced?;
        Some(ended.number)
    }

    /// The same. Want of memory leaves the associations as they were; it does not come where there was room.
    pub fn associate(
        &mut self,
        key: AssocKey,
        object: Obj,
        events: PollSet,
        user: u64,
        alloc: Global,
    ) -> Result<Option<u32>, NoMemory>
        requires few { self.old.list.made < EVENTS_MAX }
        ensures reserved { HasRoomFor self.old object → IsOk result }
        ensures replaced { IfOk result (λ n. n ≡ number_in (association_at self.old.list.associations key)) }
        ensures list { OnOk result (self.new.list ≡ associate self.old.list key object events user) }
        ensures kept { OnErr result (self.new.list ≡ self.old.list) }
    {
        self.reserve(object, alloc)?;
        Ok(self.associate_fitting(key, object, events, user))
    }

    /// The association of a key ends, and its number is told (port_dissociate(3C)). ENOENT where there is none.
    pub fn dissociate(&mut self, key: AssocKey) -> Result<u32, Errno>
        ensures answer { result ≡ ok_or (number_in (association_at self.old.list.associations key)) Errno.ENOENT }
        ensures alone { IsAlone self.old.list key }
        ensures list { self.new.list ≡ dissociate self.old.list key }
        ensures kept { OnErr result (self.new.list ≡ self.old.list) }
        ensures room { KeepsRoom self.old self.new }
    {
        match self.end(key) {
            Some(a) => Ok(a.number),
            None => Err(Errno::ENOENT),
        }
    }

    /// The first that watches by this descriptor of a process ends, if there is one, and is told. Where there is none, no association
    /// is looked at.
    pub fn end_first_of_row(&mut self, process: Pid, fd: Fd) -> Option<Association>
        ensures ended { result ≡ find (is_of_row process.0 fd) self.old.list.associations }
        ensures made { self.new.list.made ≡ self.old.list.made }
        ensures left { self.new.list.associations ≡ without_first (is_of_row process.0 fd) self.old.list.associations }
        ensures room { KeepsRoom self.old self.new }
    {
        if self.rows.count(row_at(process, fd)) == 0 {
            return None;
        }
        let a = self.table.first_of_row(process, fd)?;
        self.end_found(a);
        Some(a)
    }

    /// A descriptor of a process is closed: all that watch by it end. Their ports and their numbers follow, in order, what is in the
    /// lists.
    pub fn drop_fd(&mut self, process: Pid, fd: Fd, ports: &mut Room<u32>, ids: &mut Room<u32>)
        requires port_room { length self.old.list.associations ≤ ports.old.spare }
        requires id_room { length self.old.list.associations ≤ ids.old.spare }
        ensures list { self.new.list ≡ end_row self.old.list process.0 fd }
        ensures ports { ports.new.items ≡ ports.old.items ++ ports_of (associations_of_row self.old.list.associations process.0 fd) }
        ensures ids { ids.new.items ≡ ids.old.items ++ numbers_of (associations_of_row self.old.list.associations process.0 fd) }
        ensures room { KeepsRoom self.old self.new }
    {
        while let Some(a) = self.end_first_of_row(process, fd) {
            ports.push(a.key.port);
            ids.push(a.number);
        }
    }

    /// A process ends: all that watch by its descriptors end, in one pass. Their ports and their numbers follow, in order, what is in the
    /// lists.
    pub fn end_process(&mut self, process: Pid, ports: &mut Room<u32>, ids: &mut Room<u32>)
        requires port_room { length self.old.list.associations ≤ ports.old.spare }
        requires id_room { length self.old.list.associations ≤ ids.old.spare }
        ensures list { self.new.list ≡ end_process_associations self.old.list process.0 }
        ensures ports { ports.new.items ≡ ports.old.items ++ ports_of (associations_of_process self.old.list.associations process.0) }
        ensures ids { ids.new.items ≡ ids.old.items ++ numbers_of (associations_of_process self.old.list.associations process.0) }
        ensures port_places { length ports.old.items + ports.old.spare ≤ length ports.new.items + ports.new.spare }
        ensures id_places { length ids.old.items + ids.old.spare ≤ length ids.new.items + ids.new.spare }
        ensures room { KeepsRoom self.old self.new }
    {
        end_watches(&self.table, &mut self.watchers, process, ports, ids);
        self.table.end_process(process);
        self.rows.end_process(process);
    }

    /// The event of an association was retrieved: it ends.
    pub fn retrieved(&mut self, id: u32)
        ensures list { self.new.list ≡ retrieve_association self.old.list id }
        ensures room { KeepsRoom self.old self.new }
    {
        if let Some(a) = self.table.numbered(id) {
            self.end_found(a);
        }
    }

    /// The number of the first armed one that watches an object and is told something, where the object is ready for these. No other
    /// object's are looked at.
    pub fn first_told(&self, object: Obj, ready: PollSet) -> Option<u32>
        ensures { result ≡ number_in (find (is_fired_by object ready) self.now.list.associations) }
    {
        self.watchers.first_told(object, ready)
    }

    /// The first armed one that watches an object and is told something, where the object is ready for these, is armed no more. What
    /// it queues is told. No other object's are looked at.
    pub fn fire(&mut self, object: Obj, ready: PollSet) -> Option<Fired>
        ensures fired { result ≡ first_fired object ready self.old.list.associations }
        ensures list { self.new.list ≡ fire_first self.old.list object ready }
        ensures room { KeepsRoom self.old self.new }
    {
        let a = self.watchers.take_told(object, ready)?;
        self.table.disarm(a.key);
        Some(fired(&a, ready))
    }
}
