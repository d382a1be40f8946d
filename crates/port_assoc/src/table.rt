//! Associations by their keys, in order.
ghost use Rattle.std.specs.Prelude.{◌≡◌, ◌+◌, ◌<◌, ◌≤◌, ◌++◌, ◌^◌, ℕ, [], ◌∷◌, None, IsOk, OnOk, count_by, false, filter, find, length, position, slice_get, true};
ghost use Rattle.std.specs.List.Sorted.{IsPartitionPoint, IsPartitionedBy};
ghost use Rattle.spec_records.specs.Words.{IsAscending, armed_at, association_at, association_number, change_first, disarmed, has_key, has_number, is_of_other_process, is_of_row};
ghost use Rattle.port_assoc.specs.Lists.{without_first};
ghost use Rattle.indexmap.specs.IndexMap.{keys};
ghost use Rattle.port_assoc.specs.Table.{HaveDistinctKeys, is_armed_entry, is_entry_below, is_key_of_other_process, is_key_of_row};

use crate::key::{Key, key_of};
use crate::watch::{Watch, association_of};
use dk_base::error::NoMemory;
use dk_base::number::{Fd, Pid};
use indexmap::IndexMap;
use spec_records::association::{AssocKey, Association};
use std::alloc::Global;
use std::marker::Model;

/// Associations, each under its key, in the order in which they were made. Clauses see them (`items`), and how many more take no
/// memory (`spare`).
#[derive(Drop)]
pub struct Table {
    entries: IndexMap<Key, Watch>,
}

impl Model for Table {
    ghost use Rattle.indexmap.specs.IndexMap.{spare, IsUnique};
    ghost use Rattle.dk_base.specs.Spare.{RoomValue};
    ghost use Rattle.spec_records.specs.declared.association.Association.{Association};
    ghost use Rattle.port_assoc.specs.Keys.{same_key};
    ghost use Rattle.port_assoc.specs.Table.{associations_in};

    ghost Value = { RoomValue Association };

    ghost view = { λ t. record { items = associations_in t.entries.entries; spare = spare t.entries } };

    ghost invariant = { λ t. IsUnique same_key t.entries };
}

/// The place of the first key with this descriptor of a process.
fn place_of_row(entries: &IndexMap<Key, Watch>, process: Pid, fd: Fd) -> Option<usize>
    ensures { result ≡ position (is_key_of_row process.0 fd) (keys entries.now) }
{
    entries
        .keys()
        .position(|key| key.process == process.0 && key.fd == fd.0)
}

/// How many entries have smaller numbers. They stand first.
fn count_below(entries: &IndexMap<Key, Watch>, n: u32) -> usize
    requires { IsPartitionedBy (is_entry_below n) entries.now.entries }
    ensures { IsPartitionPoint (λ e. is_entry_below n e ≡ true) (λ e. is_entry_below n e ≡ false) entries.now.entries result }
{
    entries.partition_point(|_key, watch| watch.number < n)
}

/// How many armed entries there are of a port.
fn count_armed(entries: &IndexMap<Key, Watch>, port: u32) -> usize
    ensures { result ≡ count_by (is_armed_entry port) entries.now.entries }
{
    entries
        .iter()
        .filter(|entry| entry.1.armed && entry.0.port == port)
        .count()
}

impl Table {
    /// No association, and no room.
    pub fn new(alloc: Global) -> Self
        ensures { result.items ≡ [] }
    {
        Table {
            entries: IndexMap::new(alloc),
        }
    }

    /// Room for another. Want of memory leaves all but the room as it was.
    pub fn reserve(&mut self) -> Result<(), NoMemory>
        ensures items { self.new.items ≡ self.old.items }
        ensures room { OnOk result (0 < self.new.spare) }
        ensures kept { self.old.spare ≤ self.new.spare }
        ensures succeeds { 0 < self.old.spare → IsOk result }
    {
        match self.entries.reserve(1) {
            Ok(()) => Ok(()),
            Err(_) => Err(NoMemory),
        }
    }

    /// How many there are.
    pub fn len(&self) -> usize
        ensures len { result ≡ length self.now.items }
        ensures small { result < 2 ^ 63 }
    {
        self.entries.len()
    }

    /// The association of a key.
    #[tactic(auto, using(crate::proofs::Entries::found_at, crate::proofs::Entries::distinct_keys))]
    pub fn get(&self, key: AssocKey) -> Option<Association>
        ensures found { result ≡ association_at self.now.items key }
        ensures distinct { HaveDistinctKeys self.now.items }
    {
        let place = key_of(key);
        match self.entries.get(&place) {
            Some(watch) => Some(association_of(place, *watch)),
            None => None,
        }
    }

    /// The association at a place, from 0 in order.
    #[tactic(auto, using(crate::proofs::Entries::at_place, crate::proofs::Entries::at_none))]
    pub fn at(&self, place: usize) -> Option<Association>
        ensures { result ≡ slice_get self.now.items place }
    {
        match self.entries.get_index(place) {
            Some((key, watch)) => Some(association_of(*key, *watch)),
            None => None,
        }
    }

    /// The first that watches by this descriptor of a process.
    #[tactic(auto, using(crate::proofs::Entries::distinct_keys, crate::proofs::Entries::row_place, crate::proofs::Lists::find_place, spec_records::proofs::Places::find_nowhere))]
    pub fn first_of_row(&self, process: Pid, fd: Fd) -> Option<Association>
        ensures found { result ≡ find (is_of_row process.0 fd) self.now.items }
        ensures distinct { HaveDistinctKeys self.now.items }
    {
        let place = place_of_row(&self.entries, process, fd)?;
        self.at(place)
    }

    /// The association of a number, where they stand in order of number. It is looked for by halves.
    #[tactic(auto, using(crate::proofs::Entries::distinct_keys))]
    pub fn numbered(&self, n: u32) -> Option<Association>
        requires { (made : ℕ) × IsAscending association_number 0 made self.now.items }
        ensures found { result ≡ find (has_number n) self.now.items }
        ensures distinct { HaveDistinctKeys self.now.items }
    {
        let place = count_below(&self.entries, n);
        let a = self.at(place)?;
        if a.number == n { Some(a) } else { None }
    }

    /// How many associations of a port are armed.
    #[tactic(auto, using(crate::proofs::Entries::armed_entries))]
    pub fn armed(&self, port: u32) -> u64
        ensures { result ≡ armed_at self.now.items port }
    {
        count_armed(&self.entries, port) as u64
    }

    /// The association of a key leaves. The others keep their order.
    #[tactic(auto, using(crate::proofs::Entries::removed, crate::proofs::Entries::distinct_keys))]
    pub fn remove(&mut self, key: AssocKey)
        ensures distinct { HaveDistinctKeys self.old.items }
        ensures items { self.new.items ≡ without_first (has_key key) self.old.items }
        ensures spare { self.old.spare ≤ self.new.spare }
    {
        self.entries.shift_remove(&key_of(key));
    }

    /// All of a process leave, in one pass. The others keep their order.
    pub fn end_process(&mut self, process: Pid)
        ensures items { self.new.items ≡ filter (is_of_other_process process.0) self.old.items }
        ensures spare { self.old.spare ≤ self.new.spare }
    {
        self.entries.retain(
            |key: &Key, watch: &mut Watch| -> bool
                ensures { (result ≡ is_key_of_other_process process.0 key.now) × (watch.new ≡ watch.old) }
            { key.process != process.0 },
        );
    }

    /// Another, as the last, where there is none of its key. It takes no memory.
    pub fn push(&mut self, a: Association)
        requires room { 0 < self.old.spare }
        requires free { association_at self.old.items a.key ≡ None }
        ensures items { self.new.items ≡ self.old.items ++ a ∷ [] }
    {
        self.entries
            .insert(
                key_of(a.key),
                Watch {
                    number: a.number,
                    object: a.object,
                    events: a.events,
                    user: a.user,
                    armed: a.armed,
                },
            )
            .unwrap();
    }

    /// The association of a key, if there is one, is armed no more.
    #[tactic(auto, using(crate::proofs::Entries::disarmed_at, crate::proofs::Entries::none_disarmed, crate::proofs::Entries::distinct_keys))]
    pub fn disarm(&mut self, key: AssocKey)
        ensures distinct { HaveDistinctKeys self.old.items }
        ensures items { self.new.items ≡ change_first (has_key key) disarmed self.old.items }
        ensures spare { self.old.spare ≤ self.new.spare }
    {
        if let Some(watch) = self.entries.get_mut(&key_of(key)) {
            watch.armed = false;
        }
    }
}
