//! The descriptor tables of processes, at their places.
ghost use Rattle.std.specs.Prelude.{◌≡◌, ◌+◌, ◌<◌, ◌≤◌, ◌++◌, [], ◌∷◌, length, None, true, is_none, is_some, nat_le, IfSome, IfNone, OnOk, OnErr};
ghost use Rattle.dk_base.specs.ByNumber.{at_number};
ghost use Rattle.spec_records.specs.Words.{close_row, close_table, descriptor, empty_table, free_place, free_rows, insert_row, insert_rows, is_bad_pass, lowest_free, new_descriptors, object_named, objects_of, objects_passed, release_rows, table_in, with_table};

use arg_transfer::passing::{check_pass, install_fitting, take_out};
use dk_base::error::NoMemory;
use dk_base::list::{FdList, ObjList, PassList, Room};
use dk_base::number::{Fd, Pid};
use dk_base::object::Obj;
use fd_table::table::FdTable;
use fork_step::forking::fork_rows;
use spec_records::numbered::numbered_item;
use std::alloc::Global;
use std::marker::Model;

/// The tables of processes, which are numbered from 1 by their places. A number that no process has reads as an empty table.
#[derive(Drop)]
pub struct Tables {
    tables: Vec<FdTable>,
}

impl Model for Tables {
    ghost use Rattle.std.specs.Prelude.{List, Option};
    ghost use Rattle.spec_kernel.specs.Types.{Obj};

    ghost Value = { List (List (Option Obj)) };

    ghost view = { λ t. t.tables.items };
}

/// The place of a process's table.
fn table_place(tables: &[FdTable], p: Pid) -> Option<usize>
    ensures some { IfSome result (λ i. (i + 1 ≡ p.0) × (i < length tables.now)) }
    ensures none { IfNone result (at_number tables.now p.0 ≡ None) }
{
    if p.0 == 0 || p.0 as usize > tables.len() {
        return None;
    }
    Some(p.0 as usize - 1)
}

impl Tables {
    pub fn new(alloc: Global) -> Self
        ensures { result ≡ [] }
    {
        Tables {
            tables: Vec::new(alloc),
        }
    }

    /// The table of another process, which may have so many descriptors. Want of memory changes nothing.
    pub fn add(&mut self, alloc: Global, limit: u32) -> Result<(), NoMemory>
        ensures ok { OnOk result (self.new ≡ self.old ++ empty_table limit ∷ []) }
        ensures err { OnErr result (self.new ≡ self.old) }
    {
        let table = FdTable::new(alloc, limit)?;
        match self.tables.push(table) {
            Ok(()) => Ok(()),
            Err(_) => Err(NoMemory),
        }
    }

    /// What a descriptor of a process names.
    pub fn object_at(&self, p: Pid, fd: Fd) -> Option<Obj>
        ensures { result ≡ object_named (table_in self.now p.0) fd }
    {
        match numbered_item(&self.tables, p.0) {
            Some(table) => table.get(fd),
            None => None,
        }
    }

    /// How many rows a process's table has, free ones with the others.
    pub fn row_count(&self, p: Pid) -> u32
        ensures { result ≡ length (table_in self.now p.0) }
    {
        match numbered_item(&self.tables, p.0) {
            Some(table) => table.len(),
            None => 0,
        }
    }

    /// Whether a process has no free descriptor.
    pub fn is_full(&self, p: Pid) -> bool
        ensures { result ≡ is_none (lowest_free (table_in self.now p.0)) }
    {
        match numbered_item(&self.tables, p.0) {
            Some(table) => table.is_full(),
            None => true,
        }
    }

    /// An object gets the lowest free descriptor of a process that has one.
    pub fn insert(&mut self, p: Pid, object: Obj) -> Fd
        requires { is_some (lowest_free (table_in self.old p.0)) ≡ true }
        ensures tables { self.new ≡ with_table self.old p.0 (insert_row (table_in self.old p.0) object) }
        ensures fd { result ≡ descriptor (free_place (table_in self.old p.0)) }
    {
        let table = &mut self.tables[p.0 as usize - 1];
        table.insert_free(object)
    }

    /// How many descriptors of a process are free.
    pub fn free_rows(&self, p: Pid) -> u32
        ensures { result ≡ free_rows (table_in self.now p.0) }
    {
        match numbered_item(&self.tables, p.0) {
            Some(table) => table.free(),
            None => 0,
        }
    }

    /// Two objects get the two lowest free descriptors of a process that has so many, the first one the lower.
    pub fn insert_two(&mut self, p: Pid, first: Obj, second: Obj) -> (Fd, Fd)
        requires { 2 ≤ free_rows (table_in self.old p.0) }
        ensures tables { self.new ≡ with_table self.old p.0 (insert_rows (table_in self.old p.0) (first ∷ second ∷ [])) }
        ensures first { result.0 ≡ descriptor (free_place (table_in self.old p.0)) }
        ensures second { result.1 ≡ descriptor (free_place (insert_row (table_in self.old p.0) first)) }
    {
        let table = &mut self.tables[p.0 as usize - 1];
        let low = table.insert_free(first);
        let high = table.insert_free(second);
        (low, high)
    }

    /// Closes a descriptor of a process that names something.
    pub fn close(&mut self, p: Pid, fd: Fd)
        requires { is_some (object_named (table_in self.old p.0) fd) ≡ true }
        ensures { self.new ≡ with_table self.old p.0 (close_row (table_in self.old p.0) fd.0) }
    {
        let table = &mut self.tables[p.0 as usize - 1];
        table.close(fd);
    }

    /// Closes each descriptor of a process.
    pub fn close_all(&mut self, p: Pid)
        ensures { self.new ≡ with_table self.old p.0 (close_table (table_in self.old p.0)) }
    {
        if let Some(place) = table_place(&self.tables, p) {
            let table = &mut self.tables[place];
            table.close_all();
        }
    }

    /// The table of a process, which has no row, gets those of a process below it, under the same numbers. What they name follows what is
    /// in `added`. It takes no memory.
    pub fn copy_rows(&mut self, parent: Pid, child: Pid, added: &mut Room<Obj>)
        requires order { (1 ≤ parent.0) × (parent.0 < child.0) × (child.0 ≤ length self.old) }
        requires none { objects_of (table_in self.old child.0) ≡ [] }
        requires limits { length (table_in self.old child.0) ≡ length (table_in self.old parent.0) }
        requires room { length (objects_of (table_in self.old parent.0)) ≤ added.old.spare }
        ensures tables { self.new ≡ with_table self.old child.0 (table_in self.old parent.0) }
        ensures added { added.new.items ≡ added.old.items ++ objects_of (table_in self.old parent.0) }
    {
        let (lower, upper) = self.tables.split_at_mut(child.0 as usize - 1);
        fork_rows(&lower[parent.0 as usize - 1], &mut upper[0], added);
    }

    /// Whether these descriptors cannot be passed out of a process's table (door_call(3C)).
    pub fn is_bad_pass(&self, p: Pid, pass: &PassList) -> bool
        ensures { result ≡ is_bad_pass (table_in self.now p.0) pass.now }
    {
        match numbered_item(&self.tables, p.0) {
            Some(table) => check_pass(table, pass).is_err(),
            None => !pass.is_empty(),
        }
    }

    /// What a process's descriptors name follows what is in `into`, and those with release are closed. It takes no memory.
    pub fn take_out(&mut self, p: Pid, pass: &PassList, into: &mut Room<Obj>)
        requires { length pass.now ≤ into.old.spare }
        ensures tables { self.new ≡ with_table self.old p.0 (release_rows (table_in self.old p.0) pass.now) }
        ensures items { into.new.items ≡ into.old.items ++ objects_passed (table_in self.old p.0) pass.now }
    {
        if let Some(place) = table_place(&self.tables, p) {
            let table = &mut self.tables[place];
            take_out(table, pass, into);
        }
    }

    /// Whether a process has a free descriptor for each of these objects.
    pub fn has_room(&self, p: Pid, objects: &ObjList) -> bool
        ensures { result ≡ nat_le (length objects.now) (free_rows (table_in self.now p.0)) }
    {
        match numbered_item(&self.tables, p.0) {
            Some(table) => objects.len() <= table.free() as usize,
            None => objects.is_empty(),
        }
    }

    /// Objects get the lowest free descriptors of a process that has one for each, in order. It takes no memory.
    pub fn install(&mut self, p: Pid, objects: &ObjList, mut fds: Room<Fd>) -> FdList
        requires empty { fds.items ≡ [] }
        requires room { length objects.now ≤ fds.spare }
        requires free { nat_le (length objects.now) (free_rows (table_in self.old p.0)) ≡ true }
        ensures tables { self.new ≡ with_table self.old p.0 (insert_rows (table_in self.old p.0) objects.now) }
        ensures fds { result ≡ new_descriptors (table_in self.old p.0) objects.now }
    {
        let Some(place) = table_place(&self.tables, p) else {
            return fds.into_list();
        };
        let table = &mut self.tables[place];
        install_fitting(table, objects, &mut fds);
        fds.into_list()
    }
}
