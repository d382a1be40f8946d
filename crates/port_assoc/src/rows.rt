//! How many associations there are of each descriptor of a process.
ghost use Rattle.std.specs.Prelude.{◌≡◌, ◌+◌, ◌-◌, ◌<◌, ◌≤◌, [], IsOk, OnOk, if◌then◌else◌};
ghost use Rattle.port_assoc.specs.declared.key.Row.{Row};
ghost use Rattle.port_assoc.specs.Keys.{same_row};
ghost use Rattle.port_assoc.specs.Rows.{count_at, is_row_of_other_process};

use crate::key::Row;
use dk_base::error::NoMemory;
use dk_base::number::Pid;
use indexmap::IndexMap;
use std::alloc::Global;
use std::marker::Model;

/// How many associations there are of each descriptor of a process that has some: no other takes memory. Clauses see the counts
/// (`count_at`), and how many more descriptors take no memory (`spare`).
#[derive(Drop)]
pub struct Rows {
    counts: IndexMap<Row, u32>,
}

impl Model for Rows {
    ghost use Rattle.indexmap.specs.IndexMap.{spare};
    ghost use Rattle.port_assoc.specs.Rows.{RowsValue};

    ghost Value = { RowsValue };

    ghost view = { λ r. record { counts = r.counts.entries; spare = spare r.counts } };
}

impl Rows {
    /// No association, and no room.
    pub fn new(alloc: Global) -> Self
        ensures { result.counts ≡ [] }
    {
        Rows {
            counts: IndexMap::new(alloc),
        }
    }

    /// Room for another, of whatever descriptor. Want of memory leaves all but the room as it was.
    pub fn reserve(&mut self) -> Result<(), NoMemory>
        ensures counts { self.new.counts ≡ self.old.counts }
        ensures room { OnOk result (0 < self.new.spare) }
        ensures kept { self.old.spare ≤ self.new.spare }
        ensures succeeds { 0 < self.old.spare → IsOk result }
    {
        match self.counts.reserve(1) {
            Ok(()) => Ok(()),
            Err(_) => Err(NoMemory),
        }
    }

    /// How many associations of a descriptor there are.
    pub fn count(&self, row: Row) -> u32
        ensures { result ≡ count_at self.now.counts row }
    {
        match self.counts.get(&row) {
            Some(count) => *count,
            None => 0,
        }
    }

    /// Another association of a descriptor. It takes no memory.
    pub fn up(&mut self, row: Row)
        requires room { 0 < self.old.spare }
        requires few { count_at self.old.counts row < 4294967295 }
        ensures { (r : Row) → count_at self.new.counts r ≡ count_at self.old.counts r + (if same_row row r then 1 else 0) }
    {
        match self.counts.get_mut(&row) {
            Some(count) => *count += 1,
            None => {
                self.counts.insert(row, 1).unwrap();
            }
        }
    }

    /// One association of a descriptor fewer, if there is one. A descriptor that has none is kept no more.
    pub fn down(&mut self, row: Row)
        ensures counts { (r : Row) → count_at self.new.counts r ≡ count_at self.old.counts r - (if same_row row r then 1 else 0) }
        ensures spare { self.old.spare ≤ self.new.spare }
    {
        let count = self.count(row);
        if count > 1 {
            if let Some(place) = self.counts.get_mut(&row) {
                *place = count - 1;
            }
        } else {
            self.counts.swap_remove(&row);
        }
    }

    /// The descriptors of a process have none any more, in one pass.
    pub fn end_process(&mut self, process: Pid)
        ensures counts { (r : Row) → count_at self.new.counts r ≡ (if is_row_of_other_process process.0 r then count_at self.old.counts r else 0) }
        ensures spare { self.old.spare ≤ self.new.spare }
    {
        self.counts.retain(
            |row: &Row, count: &mut u32| -> bool
                ensures { (result ≡ is_row_of_other_process process.0 row.now) × (count.new ≡ count.old) }
            { row.process != process.0 },
        );
    }
}
