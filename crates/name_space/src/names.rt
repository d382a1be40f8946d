//! The doors attached to paths: fattach(3C), fdetach(3C), and open(2) of such a path.
ghost use Rattle.std.specs.Prelude.{◌≡◌, ◌+◌, ◌<◌, ◌≤◌, ◌^◌, [], false, if◌then◌else◌, is_ok, is_some, length, ok_or, slice_get, IsOk, OnOk, OnErr};
ghost use Rattle.spec_records.specs.Words.{name_in, with_name, without_name};
ghost use Rattle.name_space.specs.NameTable.{HasRoomForName, HaveDistinctPaths, attached_door};

use dk_base::error::{Errno, NoMemory};
use dk_base::number::PathId;
use indexmap::IndexMap;
use spec_records::record::Name;
use std::alloc::Global;
use std::marker::Model;

/// The doors attached to paths: at most one to a path, in the order in which they were attached. Clauses see the names and
/// `spare`, how many more take no memory.
#[derive(Drop)]
pub struct Names {
    doors: IndexMap<u32, u32>,
}

impl Model for Names {
    ghost use Rattle.std.specs.Prelude.{nat_eq};
    ghost use Rattle.indexmap.specs.IndexMap.{spare, IsUnique};
    ghost use Rattle.name_space.specs.NameTable.{NameTable, names_in};

    ghost Value = { NameTable };

    ghost view = { λ n. record { names = names_in n.doors.entries; spare = spare n.doors } };

    ghost invariant = { λ n. IsUnique nat_eq n.doors };
}

impl Names {
    /// No name. It takes no memory.
    pub fn new(alloc: Global) -> Self
        ensures { result.names ≡ [] }
    {
        Names {
            doors: IndexMap::new(alloc),
        }
    }

    /// Room for another name, which cannot fail where there is room. Want of memory leaves the names as they were.
    pub fn reserve(&mut self) -> Result<(), NoMemory>
        ensures names { self.new.names ≡ self.old.names }
        ensures room { OnOk result (HasRoomForName self.new) }
        ensures kept { self.old.spare ≤ self.new.spare }
        ensures succeeds { HasRoomForName self.old → IsOk result }
    {
        match self.doors.reserve(1) {
            Ok(()) => Ok(()),
            Err(_) => Err(NoMemory),
        }
    }

    /// Attaches a door to a path, as the last name (fattach(3C)). It takes no memory. EBUSY where the path has a door, which
    /// leaves all as it was.
    pub fn attach(&mut self, path: PathId, door: u32) -> Result<(), Errno>
        requires { HasRoomForName self.old }
        ensures answer { result ≡ (if is_some (name_in self.old.names path) then Err Errno.EBUSY else Ok tt) }
        ensures ok { OnOk result (self.new.names ≡ with_name self.old.names path door) }
        ensures spare { self.old.spare ≤ self.new.spare + 1 }
        ensures err { OnErr result (self.new ≡ self.old) }
    {
        if self.has(path) {
            return Err(Errno::EBUSY);
        }
        self.attach_free(path, door);
        Ok(())
    }

    /// Attaches a door to a path that has none, as the last name (fattach(3C)). It takes no memory.
    pub fn attach_free(&mut self, path: PathId, door: u32)
        requires room { HasRoomForName self.old }
        requires free { is_some (name_in self.old.names path) ≡ false }
        ensures names { self.new.names ≡ with_name self.old.names path door }
        ensures spare { self.old.spare ≤ self.new.spare + 1 }
    {
        self.doors.insert(path.0, door).unwrap();
    }

    /// Detaches the door of a path, and tells its number (fdetach(3C)). The other names keep their order. EINVAL where the path
    /// has no door, which leaves all as it was.
    pub fn detach(&mut self, path: PathId) -> Result<u32, Errno>
        ensures answer { result ≡ ok_or (attached_door self.old.names path) Errno.EINVAL }
        ensures names { self.new.names ≡ without_name self.old.names path }
        ensures spare { self.old.spare ≤ self.new.spare }
        ensures err { OnErr result (self.new.names ≡ self.old.names) }
        ensures distinct { HaveDistinctPaths self.old.names }
    {
        match self.doors.shift_remove(&path.0) {
            Some(door) => Ok(door),
            None => Err(Errno::EINVAL),
        }
    }

    /// The number of the door attached to a path. ENOENT where there is none (open(2)).
    pub fn look(&self, path: PathId) -> Result<u32, Errno>
        ensures door { result ≡ ok_or (attached_door self.now.names path) Errno.ENOENT }
        ensures there { is_ok result ≡ is_some (name_in self.now.names path) }
    {
        match self.doors.get(&path.0) {
            Some(door) => Ok(*door),
            None => Err(Errno::ENOENT),
        }
    }

    /// Whether a door is attached to a path.
    pub fn has(&self, path: PathId) -> bool
        ensures { result ≡ is_some (name_in self.now.names path) }
    {
        self.doors.contains_key(&path.0)
    }

    /// How many names there are. No path has two.
    pub fn len(&self) -> usize
        ensures len { result ≡ length self.now.names }
        ensures small { result < 2 ^ 63 }
        ensures distinct { HaveDistinctPaths self.now.names }
    {
        self.doors.len()
    }

    /// The name at a place, from 0 in the order of attaching, or nothing past the last.
    pub fn name_at(&self, place: usize) -> Option<Name>
        ensures { result ≡ slice_get self.now.names place }
    {
        match self.doors.get_index(place) {
            Some((path, door)) => Some(Name {
                path: PathId(*path),
                door: *door,
            }),
            None => None,
        }
    }
}
