//! How many notices there are of each door.
ghost use Rattle.std.specs.Prelude.{◌≡◌, ◌+◌, ◌-◌, ◌==◌, ◌<◌, ◌≤◌, ◌^◌, ℕ, [], OnOk, if◌then◌else◌};
ghost use Rattle.unref_notice.specs.DoorCounts.{notices_of};

use dk_base::error::NoMemory;
use indexmap::IndexMap;
use std::alloc::Global;
use std::marker::Model;

/// How many notices there are of each door that had one. Clauses see the doors with their counts, and how many more doors take no
/// memory (`spare`).
#[derive(Drop)]
pub struct DoorCounts {
    counts: IndexMap<u32, usize>,
}

impl Model for DoorCounts {
    ghost use Rattle.indexmap.specs.IndexMap.{spare};
    ghost use Rattle.unref_notice.specs.DoorCounts.{DoorCountsValue};

    ghost Value = { DoorCountsValue };

    ghost view = { λ c. record { entries = c.counts.entries; spare = spare c.counts } };
}

impl DoorCounts {
    /// No door had a notice, and there is no room.
    pub fn new(alloc: Global) -> Self
        ensures { result.entries ≡ [] }
    {
        DoorCounts {
            counts: IndexMap::new(alloc),
        }
    }

    /// Room for so many more doors. Want of memory leaves the counts as they were.
    pub fn reserve(&mut self, n: usize) -> Result<(), NoMemory>
        ensures entries { self.new.entries ≡ self.old.entries }
        ensures kept { self.old.spare ≤ self.new.spare }
        ensures room { OnOk result (n ≤ self.new.spare) }
    {
        match self.counts.reserve(n) {
            Ok(()) => Ok(()),
            Err(_) => Err(NoMemory),
        }
    }

    /// How many notices there are of a door.
    pub fn count(&self, d: u32) -> usize
        ensures { result ≡ notices_of self.now.entries d }
    {
        match self.counts.get(&d) {
            Some(count) => *count,
            None => 0,
        }
    }

    /// Another notice of a door. It takes no memory.
    pub fn add(&mut self, d: u32)
        requires room { 0 < self.old.spare }
        requires few { notices_of self.old.entries d < 2 ^ 63 }
        ensures counts { (e : ℕ) → notices_of self.new.entries e ≡ notices_of self.old.entries e + (if d == e then 1 else 0) }
        ensures spare { self.old.spare ≤ self.new.spare + 1 }
    {
        let count = self.count(d);
        self.counts.insert(d, count + 1).unwrap();
    }

    /// One notice of a door fewer.
    pub fn take(&mut self, d: u32)
        ensures counts { (e : ℕ) → notices_of self.new.entries e ≡ notices_of self.old.entries e - (if d == e then 1 else 0) }
        ensures spare { self.old.spare ≤ self.new.spare }
    {
        if let Some(count) = self.counts.get_mut(&d) {
            *count = count.saturating_sub(1);
        }
    }
}
