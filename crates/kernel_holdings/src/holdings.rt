//! Descriptors, names and calls, with the references of each object counted.
ghost use Rattle.std.specs.Prelude.{◌≡◌, ◌+◌, ◌<◌, ◌≤◌, ◌^◌, ◌++◌, ◌∷◌, ◌||◌, ℕ, [], true, false, filter, find, if◌then◌else◌, is_some, length, IfOk, IfSome, IsSome, None, OnOk, OnErr, Some};
ghost use Rattle.std.specs.List.{list_any};
ghost use Rattle.std.specs.Option.{option_to_list};
ghost use Rattle.dk_base.specs.declared.limits.TheConstants.{DESCRIPTORS_MAX, PASS_MAX, PROCESSES_MAX};
ghost use Rattle.dk_base.specs.declared.object.Obj.{Obj};
ghost use Rattle.dk_base.specs.declared.object.Obj.TheVariants as obj;
ghost use Rattle.spec_records.specs.declared.record.Call.{Call};
ghost use Rattle.spec_records.specs.Words.{AreNumbered, close_row, close_table, collect_call, count_object, descriptor, door_attached, empty_table, enter_call, fail_call, free_place, free_rows, give_call, has_double_release, insert_row, insert_rows, is_client_call_of, is_given_as, is_object, is_queued_as, is_served_by, is_to_collect_as, leaving_of, live_calls, lowest_free, name_in, new_descriptors, notice_doors, object_named, objects_of, objects_passed, open_call, release_rows, return_call, table_in, with_name, with_table, without_name};
ghost use Rattle.name_space.specs.Words.{HasRoomForName};
ghost use Rattle.call_tree.specs.Calls.{args_in};
ghost use Rattle.call_tree.specs.Words.{HasRoomForCall, IsThread, is_called_by, outcome_in, queued_call};
ghost use Rattle.exit_paths.specs.Words.{CanExit, HasExited, IsAsBefore, in_transit};
ghost use Rattle.unref_notice.specs.declared.counts.TheConstants.{STEP_MAX};
ghost use Rattle.unref_notice.specs.Words.{count_of, was_shared};
ghost use Rattle.kernel_holdings.specs.Words.{CanEnd, ChangesOnly, HasRoomToHold, TRANSIT_MAX, has_fallen_to_one, has_lost_all, references_of, references_to, results_in};

use crate::fallen::tell;
use crate::leaving::leave;
use crate::lowered::{count_results, lower_released, lower_results, lower_table};
use crate::tables::Tables;
use call_tree::calls::Calls;
use call_tree::parts::{Args, Outcome};
use dk_base::error::{Errno, NoMemory};
use dk_base::list::{Bytes, FdList, ObjList, PassList, Room};
use dk_base::number::{Fd, PathId, Pid, Tid};
use dk_base::object::Obj;
use door_object::doors::Doors;
use exit_paths::left::Left;
use name_space::names::Names;
use proc_table::procs::Procs;
use server_pool::pools::Pools;
use spec_records::leaving::Leaver;
use std::alloc::Global;
use std::marker::Model;
use unref_notice::counts::{Counts, STEP_MAX};

/// What refers to objects. At every moment the count of each object is that of the descriptors that name it, of its names, and of
/// what is in transit of it with calls; and it is known how many objects are in transit in all. Clauses see tables, names and calls, of
/// the counts those at the beginning of the step, and how often a reference may yet come or go in the step (`left`).
pub struct Holdings {
    tables: Tables,
    names: Names,
    calls: Calls,
    counts: Counts,
    /// How many objects are in transit with calls.
    carried: usize,
}

/// By hand, so that dropping what refers to objects is one call for its holder, who would otherwise drop each of its parts.
impl Drop for Holdings {
    fn drop(self) {
        let Holdings {
            tables: _,
            names: _,
            calls: _,
            counts: _,
            carried: _,
        } = self;
    }
}

impl Model for Holdings {
    ghost use Rattle.std.specs.Prelude.{◌≡◌};
    ghost use Rattle.exit_paths.specs.Words.{in_transit};
    ghost use Rattle.kernel_holdings.specs.Words.{HoldFew, HoldingsValue, IsCountOf};

    ghost Value = { HoldingsValue };

    ghost view = { λ h. record { tables = h.tables; names = h.names; calls = h.calls; opening = h.counts.opening; left = h.counts.left } };

    ghost invariant = { λ h. IsCountOf h.counts.counts h.tables h.names.names h.calls.tree.calls × HoldFew h.tables h.calls.tree.calls × (h.carried ≡ in_transit h.calls.tree.calls) };
}

impl Holdings {
    /// No process, name, call or door. It takes no memory.
    pub fn new(alloc: Global) -> Self
        ensures tables { result.tables ≡ [] }
        ensures names { result.names.names ≡ [] }
        ensures calls { result.calls.tree ≡ record { made = 0; calls = [] } }
        ensures opening { result.opening ≡ [] }
    {
        Holdings {
            tables: Tables::new(alloc),
            names: Names::new(alloc),
            calls: Calls::new(alloc),
            counts: Counts::new(alloc),
            carried: 0,
        }
    }

    // readers

    pub fn tables(&self) -> &Tables
        ensures { result.now ≡ self.now.tables }
    {
        &self.tables
    }

    pub fn names(&self) -> &Names
        ensures { result.now ≡ self.now.names }
    {
        &self.names
    }

    pub fn calls(&self) -> &Calls
        ensures { result.now ≡ self.now.calls }
    {
        &self.calls
    }

    /// How many references an object has: descriptors, names, and what is in transit with calls.
    pub fn references_to(&self, object: Obj) -> u64
        ensures { result ≡ references_of self.now object }
    {
        self.counts.count(object)
    }

    /// What a descriptor of a process names.
    pub fn object_at(&self, p: Pid, fd: Fd) -> Option<Obj>
        ensures object { result ≡ object_named (table_in self.now.tables p.0) fd }
        ensures held { IfSome result (λ x. (o : Obj) → count_object o (x ∷ []) ≤ references_of self.now o) }
    {
        self.tables.object_at(p, fd)
    }

    /// The number of the door that is attached to a path, 0 for none.
    pub fn door_attached(&self, path: PathId) -> u32
        ensures door { result ≡ door_attached (name_in self.now.names.names path) }
        ensures held { is_some (name_in self.now.names.names path) ≡ true → (o : Obj) → count_object o (obj.Door result ∷ []) ≤ references_of self.now o }
    {
        match self.names.look(path) {
            Ok(door) => door,
            Err(_) => 0,
        }
    }

    /// No object has more references than can be counted, were there some more.
    fn are_few(&self)
        ensures { (o : Obj) → references_to self.now.tables self.now.names.names self.now.calls.tree.calls o + STEP_MAX ≤ 18446744073709551615 }
    {
        self.calls.are_sound();
        self.names.len();
    }

    /// So few objects are in transit that those of one more call can be counted with them.
    fn carries_few(&self)
        ensures { in_transit self.now.calls.tree.calls ≤ TRANSIT_MAX }
    {
        self.calls.are_sound();
    }

    // memory

    /// Room for another name and another call. Want of memory changes nothing but room.
    pub fn reserve(&mut self) -> Result<(), NoMemory>
        ensures tables { self.new.tables ≡ self.old.tables }
        ensures names { self.new.names.names ≡ self.old.names.names }
        ensures calls { self.new.calls.tree ≡ self.old.calls.tree }
        ensures opening { self.new.opening ≡ self.old.opening }
        ensures left { self.new.left ≡ self.old.left }
        ensures room { OnOk result (HasRoomToHold self.new) }
    {
        self.names.reserve()?;
        self.calls.reserve()
    }

    // steps

    /// A step begins, with as many references to each object as there are now. References may come and go in it as often as in any
    /// step, which takes no memory then. Want of memory leaves all else as it was.
    pub fn start_step(&mut self) -> Result<(), NoMemory>
        ensures same { self.new ≡ record (self.old) { opening = self.new.opening; left = self.new.left } }
        ensures opening { (o : Obj) → count_of self.new.opening o ≡ references_to self.old.tables self.old.names.names self.old.calls.tree.calls o }
        ensures left { OnOk result (STEP_MAX ≤ self.new.left) }
    {
        self.counts.start_step();
        self.counts.room(STEP_MAX)
    }

    /// The doors that take notices, had more than one reference when the step began, and have one now, in the order of their
    /// numbers, follow what is in `into`. Only the doors are looked at to which references came or went. It takes no memory.
    pub fn end_of_step(&mut self, doors: &Doors, into: &mut Room<u32>)
        requires numbered { AreNumbered doors.now.items }
        requires room { length (filter (was_shared self.old.opening) (notice_doors doors.now.items)) ≤ into.old.spare }
        ensures same { self.new ≡ self.old }
        ensures items { into.new.items ≡ into.old.items ++ filter (has_fallen_to_one self.old) (notice_doors doors.now.items) }
        ensures few { length into.new.items ≤ length into.old.items + STEP_MAX }
    {
        self.counts.end_of_step();
        tell(self.counts.fallen(), doors, into);
    }

    /// The ends of pipes that had references when the step began, and have none now, follow what is in `into`, each once, in any order.
    /// Only the objects are looked at to which references came or went. It takes no memory.
    pub fn gone(&self, into: &mut Room<Obj>)
        requires { STEP_MAX ≤ into.old.spare }
        ensures each { (o : Obj) → count_object o into.new.items ≡ count_object o into.old.items + (if has_lost_all self.now o then 1 else 0) }
        ensures members { (o : Obj) → list_any (is_object o) into.new.items ≡ (list_any (is_object o) into.old.items || has_lost_all self.now o) }
        ensures few { length into.new.items ≤ length into.old.items + STEP_MAX }
    {
        self.counts.gone(into);
    }

    // what is counted

    /// The table of another process, which may have so many descriptors. Want of memory changes nothing.
    pub fn add_table(&mut self, alloc: Global, limit: u32) -> Result<(), NoMemory>
        requires processes { length self.old.tables < PROCESSES_MAX }
        requires limit { limit ≤ DESCRIPTORS_MAX }
        ensures ok { OnOk result (self.new ≡ record (self.old) { tables = self.old.tables ++ empty_table limit ∷ [] }) }
        ensures err { OnErr result (self.new ≡ self.old) }
        ensures references { (o : Obj) → references_of self.new o ≤ references_of self.old o }
        ensures others { ChangesOnly [] self.old self.new }
    {
        self.tables.add(alloc, limit)
    }

    // descriptors

    /// An object gets the lowest free descriptor of a process that has one.
    pub fn insert(&mut self, p: Pid, object: Obj) -> Fd
        requires free { is_some (lowest_free (table_in self.old.tables p.0)) ≡ true }
        requires left { 1 ≤ self.old.left }
        ensures same { self.new ≡ record (self.old) { tables = with_table self.old.tables p.0 (insert_row (table_in self.old.tables p.0) object); left = self.new.left } }
        ensures fd { result ≡ descriptor (free_place (table_in self.old.tables p.0)) }
        ensures left { self.old.left ≤ self.new.left + 1 }
        ensures references { (o : Obj) → references_of self.new o ≤ references_of self.old o + count_object o (object ∷ []) }
        ensures others { ChangesOnly (object ∷ []) self.old self.new }
    {
        self.are_few();
        self.counts.up(object);
        self.tables.insert(p, object)
    }

    /// Two objects get the two lowest free descriptors of a process that has so many, the first one the lower.
    pub fn insert_two(&mut self, p: Pid, first: Obj, second: Obj) -> (Fd, Fd)
        requires free { 2 ≤ free_rows (table_in self.old.tables p.0) }
        requires left { 2 ≤ self.old.left }
        ensures same { self.new ≡ record (self.old) { tables = with_table self.old.tables p.0 (insert_rows (table_in self.old.tables p.0) (first ∷ second ∷ [])); left = self.new.left } }
        ensures first { result.0 ≡ descriptor (free_place (table_in self.old.tables p.0)) }
        ensures second { result.1 ≡ descriptor (free_place (insert_row (table_in self.old.tables p.0) first)) }
        ensures left { self.old.left ≤ self.new.left + 2 }
        ensures references { (o : Obj) → references_of self.new o ≤ references_of self.old o + count_object o (first ∷ second ∷ []) }
        ensures others { ChangesOnly (first ∷ second ∷ []) self.old self.new }
    {
        self.are_few();
        self.counts.up(first);
        self.counts.up(second);
        self.tables.insert_two(p, first, second)
    }

    /// Closes a descriptor of a process that names something.
    pub fn close(&mut self, p: Pid, fd: Fd)
        requires named { is_some (object_named (table_in self.old.tables p.0) fd) ≡ true }
        requires left { 1 ≤ self.old.left }
        ensures same { self.new ≡ record (self.old) { tables = with_table self.old.tables p.0 (close_row (table_in self.old.tables p.0) fd.0); left = self.new.left } }
        ensures left { self.old.left ≤ self.new.left + 1 }
        ensures references { (o : Obj) → references_of self.new o ≤ references_of self.old o }
        ensures others { ChangesOnly (option_to_list (object_named (table_in self.old.tables p.0) fd)) self.old self.new }
    {
        if let Some(object) = self.tables.object_at(p, fd) {
            self.tables.close(p, fd);
            self.counts.down(object);
        }
    }

    /// Closes each descriptor of a process.
    pub fn close_all(&mut self, p: Pid)
        requires left { DESCRIPTORS_MAX ≤ self.old.left }
        ensures same { self.new ≡ record (self.old) { tables = with_table self.old.tables p.0 (close_table (table_in self.old.tables p.0)); left = self.new.left } }
        ensures left { self.old.left ≤ self.new.left + DESCRIPTORS_MAX }
        ensures references { (o : Obj) → references_of self.new o ≤ references_of self.old o }
    {
        lower_table(&mut self.counts, &self.tables, p);
        self.tables.close_all(p);
    }

    /// The table of a process, which has no row, gets those of a process below it, under the same numbers (fork(2)). What they name is
    /// handed out. It takes no memory.
    pub fn copy_rows(&mut self, parent: Pid, child: Pid, added: &mut Room<Obj>)
        requires order { (1 ≤ parent.0) × (parent.0 < child.0) × (child.0 ≤ length self.old.tables) }
        requires none { objects_of (table_in self.old.tables child.0) ≡ [] }
        requires limits { length (table_in self.old.tables child.0) ≡ length (table_in self.old.tables parent.0) }
        requires empty { added.old.items ≡ [] }
        requires room { DESCRIPTORS_MAX ≤ added.old.spare }
        requires left { DESCRIPTORS_MAX ≤ self.old.left }
        ensures same { self.new ≡ record (self.old) { tables = with_table self.old.tables child.0 (table_in self.old.tables parent.0); left = self.new.left } }
        ensures added { added.new.items ≡ objects_of (table_in self.old.tables parent.0) }
        ensures left { self.old.left ≤ self.new.left + DESCRIPTORS_MAX }
        ensures references { (o : Obj) → references_of self.new o ≤ references_of self.old o + count_object o added.new.items }
        ensures others { ChangesOnly added.new.items self.old self.new }
    {
        self.are_few();
        self.tables.copy_rows(parent, child, added);
        self.counts.up_all(added.slice());
    }

    /// What a process's descriptors name follows what is in `into`, and those with release are closed. It takes no memory.
    pub fn take_out(&mut self, p: Pid, pass: &PassList, into: &mut Room<Obj>)
        requires once { has_double_release pass.now ≡ false }
        requires room { length pass.now ≤ into.old.spare }
        requires left { DESCRIPTORS_MAX ≤ self.old.left }
        ensures same { self.new ≡ record (self.old) { tables = with_table self.old.tables p.0 (release_rows (table_in self.old.tables p.0) pass.now); left = self.new.left } }
        ensures items { into.new.items ≡ into.old.items ++ objects_passed (table_in self.old.tables p.0) pass.now }
        ensures left { self.old.left ≤ self.new.left + DESCRIPTORS_MAX }
        ensures references { (o : Obj) → references_of self.new o ≤ references_of self.old o }
        ensures others { ChangesOnly (objects_passed (table_in self.old.tables p.0) pass.now) self.old self.new }
        ensures held { (o : Obj) → references_of self.old o ≡ 0 → count_object o (objects_passed (table_in self.old.tables p.0) pass.now) ≡ 0 }
    {
        lower_released(&mut self.counts, &self.tables, p, pass);
        self.tables.take_out(p, pass, into);
    }

    /// Objects get the lowest free descriptors of a process that has one for each, in order. It takes no memory.
    pub fn install(&mut self, p: Pid, objects: &ObjList, fds: Room<Fd>) -> FdList
        requires empty { fds.items ≡ [] }
        requires fds_room { length objects.now ≤ fds.spare }
        requires free { length objects.now ≤ free_rows (table_in self.old.tables p.0) }
        requires left { length objects.now ≤ self.old.left }
        ensures same { self.new ≡ record (self.old) { tables = with_table self.old.tables p.0 (insert_rows (table_in self.old.tables p.0) objects.now); left = self.new.left } }
        ensures fds { result ≡ new_descriptors (table_in self.old.tables p.0) objects.now }
        ensures left { self.old.left ≤ self.new.left + length objects.now }
        ensures references { (o : Obj) → references_of self.new o ≤ references_of self.old o + count_object o objects.now }
        ensures others { ChangesOnly objects.now self.old self.new }
    {
        self.are_few();
        self.counts.up_all(objects.slice());
        self.tables.install(p, objects, fds)
    }

    // names

    /// Attaches a door to a path that has none, which takes no memory.
    pub fn attach(&mut self, path: PathId, door: u32)
        requires name_room { HasRoomForName self.old.names }
        requires free { is_some (name_in self.old.names.names path) ≡ false }
        requires left { 1 ≤ self.old.left }
        ensures names { self.new.names.names ≡ with_name self.old.names.names path door }
        ensures same { self.new ≡ record (self.old) { names = self.new.names; left = self.new.left } }
        ensures left { self.old.left ≤ self.new.left + 1 }
        ensures references { (o : Obj) → references_of self.new o ≤ references_of self.old o + count_object o (obj.Door door ∷ []) }
        ensures others { ChangesOnly (obj.Door door ∷ []) self.old self.new }
    {
        self.are_few();
        self.counts.up(Obj::Door(door));
        self.names.attach_free(path, door);
    }

    /// A path has no door any more.
    pub fn detach(&mut self, path: PathId)
        requires left { 1 ≤ self.old.left }
        ensures names { self.new.names.names ≡ without_name self.old.names.names path }
        ensures same { self.new ≡ record (self.old) { names = self.new.names; left = self.new.left } }
        ensures left { self.old.left ≤ self.new.left + 1 }
        ensures references { (o : Obj) → references_of self.new o ≤ references_of self.old o }
        ensures ports { (q : ℕ) → references_of self.new (obj.Port q) ≡ references_of self.old (obj.Port q) }
    {
        if let Ok(door) = self.names.detach(path) {
            self.counts.down(Obj::Door(door));
        }
    }

    // calls

    /// Another call, which waits, by a thread that waits in none, at the event `made`. Its number is answered. It takes no memory.
    pub fn open_call(
        &mut self,
        caller: Tid,
        door: u32,
        args: Args,
        rsize: u64,
        no_cancel: bool,
        made: u64,
    ) -> u32
        requires few { length args.objects ≤ PASS_MAX }
        requires call_room { HasRoomForCall self.old.calls }
        requires numbers { self.old.calls.tree.made + 1 < 2 ^ 32 }
        requires thread { IsThread caller.0 }
        requires waits_not { find (is_called_by caller.0) self.old.calls.tree.calls ≡ None }
        requires left { PASS_MAX ≤ self.old.left }
        ensures number { result ≡ self.old.calls.tree.made + 1 }
        ensures calls { self.new.calls.tree ≡ open_call self.old.calls.tree (queued_call result made caller.0 door args.bytes args.objects rsize no_cancel) }
        ensures spare { self.old.calls.spare ≤ self.new.calls.spare + 1 }
        ensures same { self.new ≡ record (self.old) { calls = self.new.calls; left = self.new.left } }
        ensures left { self.old.left ≤ self.new.left + PASS_MAX }
        ensures references { (o : Obj) → references_of self.new o ≤ references_of self.old o + count_object o args.objects }
        ensures others { ChangesOnly args.objects self.old self.new }
    {
        self.are_few();
        self.carries_few();
        self.counts.up_all(args.objects.slice());
        self.carried += args.objects.len();
        self.calls
            .open_call(caller, door, args, rsize, no_cancel, made)
    }

    /// A waiting call is given to a thread, which serves no call and waits in none.
    pub fn give_call(&mut self, c: u32, to: Tid)
        requires queued { IsSome (find (is_queued_as c) self.old.calls.tree.calls) }
        requires serves_none { find (is_served_by to.0) self.old.calls.tree.calls ≡ None }
        requires waits_not { find (is_called_by to.0) self.old.calls.tree.calls ≡ None }
        requires thread { IsThread to.0 }
        ensures calls { self.new.calls.tree ≡ give_call self.old.calls.tree c to.0 }
        ensures same { self.new ≡ record (self.old) { calls = self.new.calls } }
        ensures references { (o : Obj) → references_of self.new o ≤ references_of self.old o }
        ensures others { ChangesOnly [] self.old self.new }
    {
        self.calls.give(c, to);
    }

    /// The thread that a call was given to enters it. The arguments are handed out: their objects are no longer in transit.
    pub fn enter_call(&mut self, c: u32, t: Tid) -> Args
        requires given { IsSome (find (is_given_as c t.0) self.old.calls.tree.calls) }
        requires left { PASS_MAX ≤ self.old.left }
        ensures calls { self.new.calls.tree ≡ enter_call self.old.calls.tree c t.0 }
        ensures args { args_in (find (is_given_as c t.0) self.old.calls.tree.calls) ≡ Some result }
        ensures same { self.new ≡ record (self.old) { calls = self.new.calls; left = self.new.left } }
        ensures left { self.old.left ≤ self.new.left + PASS_MAX }
        ensures few { length result.objects ≤ PASS_MAX }
        ensures references { (o : Obj) → references_of self.new o ≤ references_of self.old o }
        ensures others { ChangesOnly result.objects self.old self.new }
        ensures held { (o : Obj) → count_object o result.objects ≤ references_of self.old o }
    {
        self.calls.are_sound();
        let args = self.calls.enter_inv(c);
        self.counts.down_all(args.objects.slice());
        self.carried -= args.objects.len();
        args
    }

    /// The call that a thread was given ends EMFILE. The objects of its arguments are no longer in transit, and are handed out.
    pub fn fail_call(&mut self, c: u32, t: Tid) -> ObjList
        requires given { IsSome (find (is_given_as c t.0) self.old.calls.tree.calls) }
        requires left { PASS_MAX ≤ self.old.left }
        ensures calls { self.new.calls.tree ≡ fail_call self.old.calls.tree c t.0 }
        ensures same { self.new ≡ record (self.old) { calls = self.new.calls; left = self.new.left } }
        ensures left { self.old.left ≤ self.new.left + PASS_MAX }
        ensures references { (o : Obj) → references_of self.new o ≤ references_of self.old o }
        ensures others { ChangesOnly result self.old self.new }
    {
        self.calls.are_sound();
        let objects = self.calls.refuse(c, Errno::EMFILE);
        self.counts.down_all(objects.slice());
        self.carried -= objects.len();
        objects
    }

    /// A thread returns to its client (door_return(3C)). Without a client nothing changes, and the results are dropped.
    pub fn give_back(&mut self, t: Tid, bytes: Bytes, objects: ObjList)
        requires few { is_some (find (is_client_call_of t.0) self.old.calls.tree.calls) ≡ true → length objects ≤ PASS_MAX }
        requires left { PASS_MAX ≤ self.old.left }
        ensures calls { self.new.calls.tree ≡ return_call self.old.calls.tree t.0 bytes objects }
        ensures same { self.new ≡ record (self.old) { calls = self.new.calls; left = self.new.left } }
        ensures left { self.old.left ≤ self.new.left + PASS_MAX }
        ensures references { (o : Obj) → references_of self.new o ≤ references_of self.old o + count_object o objects }
        ensures others { ChangesOnly objects self.old self.new }
    {
        if self.calls.client(t).is_none() {
            return;
        }
        self.are_few();
        self.carries_few();
        self.counts.up_all(objects.slice());
        self.carried += objects.len();
        self.calls.finish(t, bytes, objects);
    }

    /// The caller of a call that is ready, which it collects.
    fn collector(&self, c: u32) -> Tid
        requires { IsSome (find (is_to_collect_as c) self.now.calls.tree.calls) }
        ensures { (call : Call) → find (is_to_collect_as c) self.now.calls.tree.calls ≡ Some call → result ≡ call.caller }
    {
        match self.calls.ready_call(c) {
            Some(call) => call.caller,
            None => Tid(0),
        }
    }

    /// A call that is ready is collected, and is forgotten: its results are no longer in transit.
    pub fn collect_call(&mut self, c: u32) -> Outcome
        requires ready { IsSome (find (is_to_collect_as c) self.old.calls.tree.calls) }
        requires left { PASS_MAX ≤ self.old.left }
        ensures calls { (at : ℕ) → self.new.calls.tree ≡ live_calls (collect_call self.old.calls.tree c at) }
        ensures outcome { outcome_in (find (is_to_collect_as c) self.old.calls.tree.calls) ≡ Some result }
        ensures same { self.new ≡ record (self.old) { calls = self.new.calls; left = self.new.left } }
        ensures left { self.old.left ≤ self.new.left + PASS_MAX }
        ensures few { length (results_in result) ≤ PASS_MAX }
        ensures references { (o : Obj) → references_of self.new o ≤ references_of self.old o }
        ensures others { ChangesOnly (results_in result) self.old self.new }
        ensures held { (o : Obj) → count_object o (results_in result) ≤ references_of self.old o }
    {
        self.calls.are_sound();
        let caller = self.collector(c);
        let outcome = self.calls.collect(caller);
        lower_results(&mut self.counts, &outcome);
        self.carried -= count_results(&outcome);
        outcome
    }

    /// Callers, threads and doors leave, of which it is told: threads, calls and pools are left together, and what is in transit with
    /// calls that end is dropped. `lost` are the doors of a process that ends at which something may wait. Want of memory leaves all as
    /// it was.
    pub fn leave(
        &mut self,
        alloc: Global,
        who: Leaver,
        procs: &mut Procs,
        pools: &mut Pools,
        doors: &Doors,
        lost: &[u32],
        step: u64,
    ) -> Result<Left, NoMemory>
        requires can { CanExit step doors.now.items (record { procs = procs.old; calls = self.old.calls; pools = pools.old }) }
        requires ends { CanEnd who lost.now procs.old doors.now.items pools.old }
        requires left { TRANSIT_MAX ≤ self.old.left }
        ensures left { IfOk result (λ left. HasExited (leaving_of procs.old doors.now.items who) step doors.now.items (record { procs = procs.old; calls = self.old.calls; pools = pools.old }) (record { procs = procs.new; calls = self.new.calls; pools = pools.new }) left) }
        ensures as_before { OnErr result (IsAsBefore (record { procs = procs.old; calls = self.old.calls; pools = pools.old }) (record { procs = procs.new; calls = self.new.calls; pools = pools.new })) }
        ensures same { self.new ≡ record (self.old) { calls = self.new.calls; left = self.new.left } }
        ensures uses { self.old.left ≤ self.new.left + TRANSIT_MAX }
        ensures unused { OnErr result (self.new.left ≡ self.old.left) }
        ensures references { (o : Obj) → references_of self.new o ≤ references_of self.old o }
        ensures others { IfOk result (λ left. ChangesOnly left.dropped self.old self.new) }
    {
        self.calls.are_sound();
        let left = leave(
            alloc,
            who,
            procs,
            &mut self.calls,
            pools,
            doors,
            lost,
            step,
            self.carried,
        )?;
        self.counts.down_all(left.dropped.slice());
        self.carried -= left.dropped.len();
        Ok(left)
    }
}
