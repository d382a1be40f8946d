//! The armed associations of one object.
ghost use Rattle.std.specs.Prelude.{◌≡◌, ◌+◌, ◌<◌, ◌≤◌, ◌++◌, [], ◌∷◌, IsOk, OnOk, find, position};
ghost use Rattle.spec_records.specs.Words.{has_key, is_told, number_in, told_events};
ghost use Rattle.port_assoc.specs.Lists.{without_first};

use dk_base::error::NoMemory;
use dk_base::set::PollSet;
use spec_records::association::{AssocKey, Association};
use std::alloc::Global;
use std::marker::Model;

/// Armed associations of one object, in order. Clauses see them (`items`), and how many more take no memory (`spare`).
#[derive(Drop)]
pub struct WatchList {
    list: Vec<Association>,
}

impl Model for WatchList {
    ghost use Rattle.std.specs.Prelude.{◌-◌, vec_capacity, vec_len};
    ghost use Rattle.dk_base.specs.Spare.{RoomValue};
    ghost use Rattle.spec_records.specs.declared.association.Association.{Association};

    ghost Value = { RoomValue Association };

    ghost view = { λ w. record { items = w.list.items; spare = vec_capacity w.list - vec_len w.list } };
}

/// The events that an association is told, where its object is ready for these and it asked for those.
pub fn told_events(ready: PollSet, asked: PollSet) -> u32
    ensures { result ≡ told_events ready asked }
{
    ready.0 & (asked.0 | (PollSet::ERR.0 | PollSet::HUP.0))
}

fn is_told(ready: PollSet, a: &Association) -> bool
    ensures { result ≡ is_told ready a.now }
{
    told_events(ready, a.events) != 0
}

/// Whether an association has this key.
fn has_key(key: AssocKey, a: &Association) -> bool
    ensures { result ≡ has_key key a.now }
{
    key.port == a.key.port && (key.process.0 == a.key.process.0 && key.fd.0 == a.key.fd.0)
}

/// The place of the first that is told something, where the object is ready for these.
fn place_told(list: &[Association], ready: PollSet) -> Option<usize>
    ensures { result ≡ position (is_told ready) list.now }
{
    list.iter().position(|a| is_told(ready, a))
}

/// The place of the first with this key.
fn place_of(list: &[Association], key: AssocKey) -> Option<usize>
    ensures { result ≡ position (has_key key) list.now }
{
    list.iter().position(|a| has_key(key, a))
}

impl WatchList {
    /// No association, and no room.
    pub fn new(alloc: Global) -> Self
        ensures { result.items ≡ [] }
    {
        WatchList {
            list: Vec::new(alloc),
        }
    }

    /// Room for another. Want of memory leaves all but the room as it was.
    pub fn reserve(&mut self) -> Result<(), NoMemory>
        ensures items { self.new.items ≡ self.old.items }
        ensures room { OnOk result (0 < self.new.spare) }
        ensures succeeds { 0 < self.old.spare → IsOk result }
    {
        match self.list.reserve(1) {
            Ok(()) => Ok(()),
            Err(_) => Err(NoMemory),
        }
    }

    /// Another, as the last. It takes no memory.
    pub fn push(&mut self, a: Association)
        requires room { 0 < self.old.spare }
        ensures items { self.new.items ≡ self.old.items ++ a ∷ [] }
    {
        self.list.push_reserved(a);
    }

    /// The number of the first that is told something, where the object is ready for these.
    #[tactic(auto, using(spec_records::proofs::Places::found_there, spec_records::proofs::Places::find_nowhere))]
    pub fn first_told(&self, ready: PollSet) -> Option<u32>
        ensures { result ≡ number_in (find (is_told ready) self.now.items) }
    {
        let place = place_told(&self.list, ready)?;
        Some(self.list[place].number)
    }

    /// The first that is told something, where the object is ready for these, leaves.
    #[tactic(auto, using(spec_records::proofs::Places::found_there, spec_records::proofs::Places::find_nowhere, crate::proofs::Lists::place_out, crate::proofs::Lists::none_out))]
    pub fn take_told(&mut self, ready: PollSet) -> Option<Association>
        ensures result { result ≡ find (is_told ready) self.old.items }
        ensures items { self.new.items ≡ without_first (is_told ready) self.old.items }
        ensures spare { self.old.spare ≤ self.new.spare }
    {
        let place = place_told(&self.list, ready)?;
        Some(self.list.remove(place))
    }

    /// The first with this key leaves, if there is one.
    #[tactic(auto, using(crate::proofs::Lists::place_out, crate::proofs::Lists::none_out))]
    pub fn remove(&mut self, key: AssocKey)
        ensures items { self.new.items ≡ without_first (has_key key) self.old.items }
        ensures spare { self.old.spare ≤ self.new.spare }
    {
        if let Some(place) = place_of(&self.list, key) {
            self.list.remove(place);
        }
    }
}
