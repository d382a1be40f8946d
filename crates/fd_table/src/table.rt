//! The table of a process's descriptors.
ghost use Rattle.std.specs.Prelude.{◌≡◌, ◌+◌, ◌<◌, ◌≤◌, ◌++◌, List, Option, Some, None, IfOk, IfErr, OnOk, OnErr, is_none, is_some, length, true};
ghost use Rattle.spec_records.specs.Words.{close_row, close_table, descriptor, empty_table, first_refusal, free_place, free_rows, insert_row, insert_rows, lowest_free, new_descriptors, object_named, objects_of, with_row};
ghost use Rattle.fd_table.specs.Duplicated.{dup_row, dup_tests};

use crate::rows::{close_rows, list_objects, lowest_from};
use dk_base::error::{Errno, NoMemory};
use dk_base::list::{ObjList, Room};
use dk_base::number::Fd;
use dk_base::object::Obj;
use std::alloc::Global;
use std::marker::Model;

/// The descriptors of a process: a row for each number that it may give, from 0 on. Clauses see the rows, each with the object
/// that its descriptor names, if there is one.
#[derive(Drop)]
pub struct FdTable {
    rows: Vec<Option<Obj>>,
    /// The lowest free row, or the number of rows where none is free.
    lowest: u32,
    /// How many rows are free.
    free: u32,
}

impl Model for FdTable {
    ghost use Rattle.std.specs.Prelude.{◌≡◌, ◌≤◌, List, Option, length};
    ghost use Rattle.dk_base.specs.declared.object.Obj.{Obj};
    ghost use Rattle.spec_records.specs.Words.{free_rows};
    ghost use Rattle.fd_table.specs.Rows.{ROWS_MAX, lowest_row};

    ghost Value = { List (Option Obj) };

    ghost view = { λ t. t.rows.items };

    ghost invariant = { λ t. (length t.rows.items ≤ ROWS_MAX) × (t.lowest ≡ lowest_row t.rows.items) × (t.free ≡ free_rows t.rows.items) };
}

impl FdTable {
    /// `limit` rows, all free. All the memory that the table will need is taken here.
    pub fn new(alloc: Global, limit: u32) -> Result<Self, NoMemory>
        ensures { IfOk result (λ t. t ≡ empty_table limit) }
    {
        match vec![in alloc; None; limit as usize] {
            Ok(rows) => Ok(FdTable {
                rows,
                lowest: 0,
                free: limit,
            }),
            Err(_) => Err(NoMemory),
        }
    }

    /// How many rows there are.
    pub fn len(&self) -> u32
        ensures { result ≡ length self.now }
    {
        self.rows.len() as u32
    }

    /// How many rows are free.
    pub fn free(&self) -> u32
        ensures { result ≡ free_rows self.now }
    {
        self.free
    }

    /// Whether no row is free: what would get a descriptor is refused with EMFILE.
    pub fn is_full(&self) -> bool
        ensures { result ≡ is_none (lowest_free self.now) }
    {
        self.lowest as usize >= self.rows.len()
    }

    /// The lowest free descriptor, none where no row is free.
    pub fn lowest_free(&self) -> Option<u32>
        ensures { result ≡ lowest_free self.now }
    {
        if (self.lowest as usize) < self.rows.len() {
            Some(self.lowest)
        } else {
            None
        }
    }

    /// What a descriptor names, none for a free row and for a number past the last row.
    pub fn get(&self, fd: Fd) -> Option<Obj>
        ensures { result ≡ object_named self.now fd }
    {
        match self.rows.get(fd.0 as usize) {
            Some(row) => *row,
            None => None,
        }
    }

    /// The object gets this descriptor, of a table with so many rows, in which it names nothing (fork(2)). It takes no memory.
    pub fn put(&mut self, fd: Fd, object: Obj)
        requires below { fd.0 < length self.old }
        requires free { object_named self.old fd ≡ None }
        ensures row { self.new ≡ with_row self.old fd.0 (Some object) }
        ensures there { object_named self.new fd ≡ Some object }
        ensures others { (other : Fd) → (other.0 ≡ fd.0 → ⊥) → object_named self.new other ≡ object_named self.old other }
    {
        self.rows[fd.0 as usize] = Some(object);
        self.free -= 1;
        if fd.0 == self.lowest {
            self.lowest = lowest_from(&self.rows, fd.0 + 1);
        }
    }

    /// The object gets the lowest free descriptor (open(2)), of a table with a free row.
    pub fn insert_free(&mut self, object: Obj) -> Fd
        requires { is_some (lowest_free self.old) ≡ true }
        ensures row { self.new ≡ insert_row self.old object }
        ensures fd { result ≡ descriptor (free_place self.old) }
        ensures free { free_rows self.new + 1 ≡ free_rows self.old }
    {
        let place = self.lowest;
        self.rows[place as usize] = Some(object);
        self.lowest = lowest_from(&self.rows, place + 1);
        self.free -= 1;
        Fd(place)
    }

    /// The object gets the lowest free descriptor (open(2)). EMFILE where no row is free leaves the table as it was.
    pub fn insert(&mut self, object: Obj) -> Result<Fd, Errno>
        ensures ok { IfOk result (λ fd. lowest_free self.old ≡ Some fd.0) }
        ensures row { OnOk result (self.new ≡ insert_row self.old object) }
        ensures err { IfErr result (λ e. e ≡ Errno.EMFILE) }
        ensures full { OnErr result (lowest_free self.old ≡ None) }
        ensures kept { OnErr result (self.new ≡ self.old) }
    {
        if self.is_full() {
            return Err(Errno::EMFILE);
        }
        Ok(self.insert_free(object))
    }

    /// Each object in turn gets the lowest free descriptor, and their numbers follow what is in `into` (door_call(3C)). EMFILE
    /// where fewer rows are free than there are objects leaves the table and `into` as they were.
    pub fn insert_all(&mut self, objects: &ObjList, into: &mut Room<Fd>) -> Result<(), Errno>
        requires { length objects.now ≤ into.old.spare }
        ensures ok { OnOk result (length objects.now ≤ free_rows self.old) }
        ensures rows { OnOk result (self.new ≡ insert_rows self.old objects.now) }
        ensures fds { OnOk result (into.new.items ≡ into.old.items ++ new_descriptors self.old objects.now) }
        ensures spare { into.old.spare ≤ into.new.spare + length objects.now }
        ensures err { IfErr result (λ e. e ≡ Errno.EMFILE) }
        ensures full { OnErr result (free_rows self.old < length objects.now) }
        ensures kept { OnErr result (self.new ≡ self.old) }
        ensures same { OnErr result (into.new ≡ into.old) }
    {
        if (self.free as usize) < objects.len() {
            return Err(Errno::EMFILE);
        }
        self.insert_each(objects.slice(), into);
        Ok(())
    }

    /// Each object in turn gets the lowest free descriptor (door_call(3C)), of a table with a free row for each, and their numbers
    /// follow what is in `into`.
    pub fn insert_each(&mut self, objects: &[Obj], into: &mut Room<Fd>)
        requires free { length objects.now ≤ free_rows self.old }
        requires spare { length objects.now ≤ into.old.spare }
        ensures rows { self.new ≡ insert_rows self.old objects.now }
        ensures fds { into.new.items ≡ into.old.items ++ new_descriptors self.old objects.now }
        ensures spare { into.old.spare ≤ into.new.spare + length objects.now }
    {
        for object in objects {
            let fd = self.insert_free(*object);
            into.push(fd);
        }
    }

    /// A descriptor is closed (close(2)), and what it named is answered. EBADF where it names nothing leaves the table as it was.
    pub fn remove(&mut self, fd: Fd) -> Result<Obj, Errno>
        ensures ok { IfOk result (λ o. object_named self.old fd ≡ Some o) }
        ensures row { OnOk result (self.new ≡ close_row self.old fd.0) }
        ensures err { IfErr result (λ e. e ≡ Errno.EBADF) }
        ensures absent { OnErr result (object_named self.old fd ≡ None) }
        ensures kept { OnErr result (self.new ≡ self.old) }
    {
        let Some(object) = self.get(fd) else {
            return Err(Errno::EBADF);
        };
        self.close(fd);
        Ok(object)
    }

    /// A descriptor that names something is closed (close(2)).
    pub fn close(&mut self, fd: Fd)
        requires { is_some (object_named self.old fd) ≡ true }
        ensures { self.new ≡ close_row self.old fd.0 }
    {
        self.rows[fd.0 as usize] = None;
        self.lowest = self.lowest.min(fd.0);
        self.free += 1;
    }

    /// The lowest free descriptor names what `fd` names (dup(2)). EBADF where `fd` names nothing, then EMFILE where no row is
    /// free; either leaves the table as it was.
    pub fn dup(&mut self, fd: Fd) -> Result<Fd, Errno>
        ensures ok { IfOk result (λ new. lowest_free self.old ≡ Some new.0) }
        ensures named { OnOk result (first_refusal (dup_tests self.old fd) ≡ None) }
        ensures row { OnOk result (self.new ≡ dup_row self.old fd) }
        ensures err { IfErr result (λ e. first_refusal (dup_tests self.old fd) ≡ Some e) }
        ensures kept { OnErr result (self.new ≡ self.old) }
    {
        let Some(object) = self.get(fd) else {
            return Err(Errno::EBADF);
        };
        self.insert(object)
    }

    /// Each descriptor is closed. It takes no memory.
    pub fn close_all(&mut self)
        ensures { self.new ≡ close_table self.old }
    {
        self.lowest = 0;
        self.free = self.rows.len() as u32;
        close_rows(&mut self.rows);
    }

    /// Each descriptor is closed, and what they named follows what is in `into`, in order of descriptor. It takes no memory.
    pub fn drain(&mut self, into: &mut Room<Obj>)
        requires { length self.old ≤ into.old.spare }
        ensures rows { self.new ≡ close_table self.old }
        ensures items { into.new.items ≡ into.old.items ++ objects_of self.old }
        ensures spare { into.old.spare ≤ into.new.spare + length self.old }
    {
        list_objects(&self.rows, into);
        self.close_all();
    }
}
