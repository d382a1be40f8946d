//! Timers by their keys, in the order in which they were made.
ghost use Rattle.std.specs.Prelude.{◌≡◌, ◌+◌, ◌<◌, ◌≤◌, ◌++◌, ◌^◌, [], ◌∷◌, None, IsOk, OnOk, filter, length, slice_get};
ghost use Rattle.spec_records.specs.Words.{change_first, is_other_timer, is_timer, is_timer_of_other, timer_at, with_arming};
ghost use Rattle.timer_src.specs.Keys.{is_key_of_other_process};
ghost use Rattle.timer_src.specs.Lists.{without_first};
ghost use Rattle.timer_src.specs.Table.{HaveDistinctIds};

use crate::key::{Key, key_at};
use crate::slot::{Slot, timer_of};
use dk_base::error::NoMemory;
use dk_base::number::Pid;
use indexmap::IndexMap;
use spec_records::timer::{Arming, Timer};
use std::alloc::Global;
use std::marker::Model;

/// Timers, each under its process and its id, in the order in which they were made. Clauses see them (`items`), and how many more take
/// no memory (`spare`).
#[derive(Drop)]
pub struct Table {
    entries: IndexMap<Key, Slot>,
}

impl Model for Table {
    ghost use Rattle.indexmap.specs.IndexMap.{spare, IsUnique};
    ghost use Rattle.dk_base.specs.Spare.{RoomValue};
    ghost use Rattle.spec_records.specs.declared.timer.Timer.{Timer};
    ghost use Rattle.timer_src.specs.Keys.{same_key};
    ghost use Rattle.timer_src.specs.Table.{timers_in};

    ghost Value = { RoomValue Timer };

    ghost view = { λ t. record { items = timers_in t.entries.entries; spare = spare t.entries } };

    ghost invariant = { λ t. IsUnique same_key t.entries };
}

impl Table {
    /// No timer, and no room.
    pub fn new(alloc: Global) -> Self
        ensures { result.items ≡ [] }
    {
        Table {
            entries: IndexMap::new(alloc),
        }
    }

    /// Room for another. Want of memory leaves all but the room as it was.
    pub fn reserve(&mut self) -> Result<(), NoMemory>
        ensures items { self.new.items ≡ self.old.items }
        ensures room { OnOk result (0 < self.new.spare) }
        ensures kept { self.old.spare ≤ self.new.spare }
        ensures succeeds { 0 < self.old.spare → IsOk result }
    {
        match self.entries.reserve(1) {
            Ok(()) => Ok(()),
            Err(_) => Err(NoMemory),
        }
    }

    /// How many there are.
    pub fn len(&self) -> usize
        ensures len { result ≡ length self.now.items }
        ensures small { result < 2 ^ 63 }
    {
        self.entries.len()
    }

    /// The timer of a process with this id.
    #[tactic(auto, using(crate::proofs::Entries::found_at, crate::proofs::Entries::distinct_ids))]
    pub fn get(&self, process: Pid, id: u32) -> Option<Timer>
        ensures found { result ≡ timer_at self.now.items process.0 id }
        ensures distinct { HaveDistinctIds self.now.items }
    {
        let place = key_at(process, id);
        match self.entries.get(&place) {
            Some(slot) => Some(timer_of(place, *slot)),
            None => None,
        }
    }

    /// The timer at a place, from 0 in order.
    #[tactic(auto, using(crate::proofs::Entries::at_place, crate::proofs::Entries::at_none))]
    pub fn at(&self, place: usize) -> Option<Timer>
        ensures { result ≡ slice_get self.now.items place }
    {
        match self.entries.get_index(place) {
            Some((key, slot)) => Some(timer_of(*key, *slot)),
            None => None,
        }
    }

    /// Another, as the last, where there is none of its process with its id. It takes no memory.
    pub fn push(&mut self, t: Timer)
        requires room { 0 < self.old.spare }
        requires free { timer_at self.old.items t.process.0 t.id ≡ None }
        ensures items { self.new.items ≡ self.old.items ++ t ∷ [] }
        ensures spare { self.old.spare ≤ self.new.spare + 1 }
    {
        self.entries
            .insert(
                key_at(t.process, t.id),
                Slot {
                    port: t.port,
                    user: t.user,
                    number: t.number,
                    arming: t.arming,
                },
            )
            .unwrap();
    }

    /// The timer of a process with this id, if there is one, is armed so.
    #[tactic(auto, using(crate::proofs::Entries::armed_at, crate::proofs::Entries::none_armed))]
    pub fn set_arming(&mut self, process: Pid, id: u32, arming: Option<Arming>)
        ensures items { self.new.items ≡ change_first (is_timer process.0 id) (with_arming arming) self.old.items }
        ensures spare { self.old.spare ≤ self.new.spare }
    {
        if let Some(slot) = self.entries.get_mut(&key_at(process, id)) {
            slot.arming = arming;
        }
    }

    /// The timer of a process with this id, if there is one, leaves. The others keep their order.
    #[tactic(auto, using(crate::proofs::Entries::removed, crate::proofs::Alone::others_of_id, crate::proofs::Entries::distinct_ids))]
    pub fn remove(&mut self, process: Pid, id: u32)
        ensures first { self.new.items ≡ without_first (is_timer process.0 id) self.old.items }
        ensures items { self.new.items ≡ filter (is_other_timer process.0 id) self.old.items }
        ensures spare { self.old.spare ≤ self.new.spare }
    {
        self.entries.shift_remove(&key_at(process, id));
    }

    /// All of a process leave, in one pass. The others keep their order.
    pub fn end_process(&mut self, process: Pid)
        ensures items { self.new.items ≡ filter (is_timer_of_other process.0) self.old.items }
        ensures spare { self.old.spare ≤ self.new.spare }
    {
        self.entries.retain(
            |key: &Key, slot: &mut Slot| -> bool
                ensures { (result ≡ is_key_of_other_process process.0 key.now) × (slot.new ≡ slot.old) }
            { key.process != process.0 },
        );
    }
}
