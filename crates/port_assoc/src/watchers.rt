//! The armed associations of each object.
ghost use Rattle.std.specs.Prelude.{◌≡◌, ◌+◌, ◌<◌, ◌≤◌, ◌++◌, [], ◌∷◌, IsOk, OnOk, find, if◌then◌else◌, true};
ghost use Rattle.dk_base.specs.declared.object.Obj.{Obj};
ghost use Rattle.spec_records.specs.Words.{has_key, is_object, is_told, is_watcher, number_in};
ghost use Rattle.port_assoc.specs.Keys.{object_key};
ghost use Rattle.port_assoc.specs.Lists.{without_first};
ghost use Rattle.port_assoc.specs.Watchers.{has_list, room_at, watchers_of};

use crate::key::{ObjectKey, object_key};
use crate::watch_list::WatchList;
use dk_base::error::NoMemory;
use dk_base::object::Obj;
use dk_base::set::PollSet;
use indexmap::IndexMap;
use spec_records::association::{AssocKey, Association};
use std::alloc::Global;
use std::marker::Model;

/// For each object that is or was watched, the armed associations that watch it. Clauses see those of an object (`watchers_of`), and
/// how many more of it take no memory (`room_at`).
#[derive(Drop)]
pub struct Watchers {
    lists: IndexMap<ObjectKey, WatchList>,
}

impl Model for Watchers {
    ghost use Rattle.port_assoc.specs.Watchers.{WatchLists};

    ghost Value = { WatchLists };

    ghost view = { λ w. w.lists.entries };
}

impl Watchers {
    /// No object is watched.
    pub fn new(alloc: Global) -> Self
        ensures { result ≡ [] }
    {
        Watchers {
            lists: IndexMap::new(alloc),
        }
    }

    /// There is a list for an object. Want of memory leaves all as it was.
    fn enter(&mut self, key: ObjectKey, alloc: Global) -> Result<(), NoMemory>
        ensures watchers { (o : Obj) → watchers_of self.new o ≡ watchers_of self.old o }
        ensures there { OnOk result (has_list self.new key ≡ true) }
        ensures succeeds { has_list self.old key ≡ true → IsOk result × (self.new ≡ self.old) }
    {
        if self.lists.contains_key(&key) {
            return Ok(());
        }
        if self.lists.reserve(1).is_err() {
            return Err(NoMemory);
        }
        self.lists.insert(key, WatchList::new(alloc)).unwrap();
        Ok(())
    }

    /// Room for another association that watches this object. Want of memory leaves all but the room as it was.
    pub fn reserve(&mut self, object: Obj, alloc: Global) -> Result<(), NoMemory>
        ensures watchers { (o : Obj) → watchers_of self.new o ≡ watchers_of self.old o }
        ensures room { OnOk result (0 < room_at self.new object) }
        ensures succeeds { 0 < room_at self.old object → IsOk result }
    {
        let key = object_key(object);
        self.enter(key, alloc)?;
        match self.lists.get_mut(&key) {
            Some(list) => list.reserve(),
            None => Err(NoMemory),
        }
    }

    /// Another association watches its object, as the last. It takes no memory.
    pub fn push(&mut self, a: Association)
        requires room { 0 < room_at self.old a.object }
        ensures watchers { (o : Obj) → watchers_of self.new o ≡ (if is_object o a.object then watchers_of self.old o ++ a ∷ [] else watchers_of self.old o) }
    {
        let key = object_key(a.object);
        if let Some(list) = self.lists.get_mut(&key) {
            list.push(a);
        }
    }

    /// The number of the first association of an object that is told something, where the object is ready for these.
    pub fn first_told(&self, object: Obj, ready: PollSet) -> Option<u32>
        ensures { result ≡ number_in (find (is_told ready) (watchers_of self.now object)) }
    {
        let key = object_key(object);
        match self.lists.get(&key) {
            Some(list) => list.first_told(ready),
            None => None,
        }
    }

    /// The first association of an object that is told something, where the object is ready for these, watches no more.
    pub fn take_told(&mut self, object: Obj, ready: PollSet) -> Option<Association>
        ensures result { result ≡ find (is_told ready) (watchers_of self.old object) }
        ensures watchers { (o : Obj) → watchers_of self.new o ≡ (if is_object o object then without_first (is_told ready) (watchers_of self.old o) else watchers_of self.old o) }
        ensures room { (o : Obj) → room_at self.old o ≤ room_at self.new o }
    {
        let key = object_key(object);
        match self.lists.get_mut(&key) {
            Some(list) => list.take_told(ready),
            None => None,
        }
    }

    /// The first association of an object with this key watches no more, if there is one. No list has less room than before.
    fn remove(&mut self, object: Obj, key: AssocKey)
        ensures watchers { (o : Obj) → watchers_of self.new o ≡ (if is_object o object then without_first (has_key key) (watchers_of self.old o) else watchers_of self.old o) }
        ensures room { (o : Obj) → room_at self.old o ≤ room_at self.new o }
    {
        let place = object_key(object);
        if let Some(list) = self.lists.get_mut(&place) {
            list.remove(key);
        }
    }

    /// An association that ends watches no more. No list has less room than before.
    pub fn end(&mut self, a: Association)
        ensures watchers { (o : Obj) → watchers_of self.new o ≡ (if is_watcher o a then without_first (has_key a.key) (watchers_of self.old o) else watchers_of self.old o) }
        ensures room { (o : Obj) → room_at self.old o ≤ room_at self.new o }
    {
        if a.armed {
            self.remove(a.object, a.key);
        }
    }
}
