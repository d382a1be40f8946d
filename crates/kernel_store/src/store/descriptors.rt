//! Descriptors, names, and doors.
ghost use Rattle.std.specs.Prelude.{◌≡◌, ◌+◌, ◌<◌, ◌≤◌, ◌++◌, ◌∷◌, [], length, None, true, false, is_some};
ghost use Rattle.dk_base.specs.declared.limits.TheConstants.{DESCRIPTORS_MAX, EVENTS_MAX};
ghost use Rattle.dk_base.specs.declared.object.Obj.TheVariants as obj;
ghost use Rattle.name_space.specs.Words.{HasRoomForName};
ghost use Rattle.spec_kernel.specs.Types.{Pool};
ghost use Rattle.spec_records.specs.Words.{close_row, descriptor, first_refusal, free_place, has_double_release, has_told_attributes, insert_row, lowest_free, new_descriptors, objects_passed, revoke_door, revoke_tests, set_param, set_param_tests, with_door, with_name, without_name};
ghost use Rattle.spec_kernel.specs.Words.{door_of, has_room, name_of, object_at, table_of, tables_after_pass, tables_with, with_table_of};
ghost use Rattle.kernel_store.specs.Frames.{FillsNoPool, IsRoomFor, KeepsPools};
ghost use Rattle.kernel_store.specs.Stored.{ArePlaced, AreThere, CanHold, HasRoom, HasRoomForDoor, HasRoomForReferences, stored_state};

use crate::paths::find_all;
use crate::ports::{has_port, is_port, names_port, note_references};
use crate::store::Store;
use dk_base::list::{FdList, ObjList, PassList, Room};
use dk_base::number::{Fd, PathId, Pid};
use dk_base::object::Obj;
use dk_base::request::Param;
use dk_base::set::Attrs;
use spec_records::pool::Pool;

impl Store {
    // descriptors and names

    /// An object gets the lowest free descriptor of a process that has one.
    pub fn insert(&mut self, p: Pid, object: Obj) -> Fd
        requires free { is_some (lowest_free (table_of (stored_state self.old) p.0)) ≡ true }
        requires can_hold { CanHold self.old (object ∷ []) }
        ensures state { stored_state self.new ≡ with_table_of (stored_state self.old) p.0 (insert_row (table_of (stored_state self.old) p.0) object) }
        ensures fd { result ≡ descriptor (free_place (table_of (stored_state self.old) p.0)) }
        ensures keeps { KeepsPools self.old self.new }
    {
        let fd = self.held.insert(p, object);
        note_references(
            &mut self.ended,
            is_port(object),
            &self.processes,
            &self.held,
            &self.ports,
        );
        fd
    }

    /// Closes a descriptor of a process that names something.
    pub fn close(&mut self, p: Pid, fd: Fd)
        requires named { is_some (object_at (stored_state self.old) p.0 fd) ≡ true }
        requires references { HasRoomForReferences self.old }
        ensures state { stored_state self.new ≡ with_table_of (stored_state self.old) p.0 (close_row (table_of (stored_state self.old) p.0) fd.0) }
        ensures keeps { KeepsPools self.old self.new }
    {
        let of_port = names_port(&self.held, p, fd);
        self.held.close(p, fd);
        note_references(
            &mut self.ended,
            of_port,
            &self.processes,
            &self.held,
            &self.ports,
        );
    }

    /// What a process's descriptors name follows what is in `into`, and those with release are closed. It takes no memory.
    pub fn take_out(&mut self, p: Pid, pass: &PassList, into: &mut Room<Obj>)
        requires once { has_double_release pass.now ≡ false }
        requires room { length pass.now ≤ into.old.spare }
        requires references { DESCRIPTORS_MAX ≤ self.old.left }
        ensures state { stored_state self.new ≡ record (stored_state self.old) { tables = tables_after_pass (stored_state self.old) p.0 pass.now } }
        ensures items { into.new.items ≡ into.old.items ++ objects_passed (table_of (stored_state self.old) p.0) pass.now }
        ensures there { AreThere self.new.doors.items (objects_passed (table_of (stored_state self.old) p.0) pass.now) }
        ensures left { self.old.left ≤ self.new.left + DESCRIPTORS_MAX }
        ensures keeps { KeepsPools self.old self.new }
        ensures kept { (touched : Pool) → HasRoom self.old touched → HasRoom self.new touched }
    {
        self.held.take_out(p, pass, into);
        note_references(
            &mut self.ended,
            has_port(into.slice()),
            &self.processes,
            &self.held,
            &self.ports,
        );
    }

    /// Objects get the lowest free descriptors of a process that has one for each, in order. It takes no memory.
    pub fn install(&mut self, p: Pid, objects: &ObjList, fds: Room<Fd>) -> FdList
        requires room { IsRoomFor (length objects.now) fds }
        requires free { has_room (stored_state self.old) p.0 objects.now ≡ true }
        requires can_hold { CanHold self.old objects.now }
        ensures state { stored_state self.new ≡ record (stored_state self.old) { tables = tables_with (stored_state self.old) p.0 objects.now } }
        ensures fds { result ≡ new_descriptors (table_of (stored_state self.old) p.0) objects.now }
        ensures keeps { KeepsPools self.old self.new }
    {
        let fds = self.held.install(p, objects, fds);
        note_references(
            &mut self.ended,
            has_port(objects.slice()),
            &self.processes,
            &self.held,
            &self.ports,
        );
        fds
    }

    /// Attaches a door to a path that has none, which takes no memory.
    pub fn attach(&mut self, path: PathId, door: u32)
        requires room { HasRoomForName self.old.names }
        requires free { is_some (name_of (stored_state self.old) path) ≡ false }
        requires can_hold { CanHold self.old (obj.Door door ∷ []) }
        ensures state { stored_state self.new ≡ record (stored_state self.old) { names = with_name (stored_state self.old).names path door } }
        ensures keeps { KeepsPools self.old self.new }
    {
        self.held.attach(path, door);
        self.named = find_all(&self.processes, self.held.names());
    }

    /// A path has no door any more.
    pub fn detach(&mut self, path: PathId)
        requires { HasRoomForReferences self.old }
        ensures state { stored_state self.new ≡ record (stored_state self.old) { names = without_name (stored_state self.old).names path } }
        ensures keeps { KeepsPools self.old self.new }
    {
        self.held.detach(path);
        self.named = find_all(&self.processes, self.held.names());
    }

    // doors

    /// Another door, under the next number, which takes no memory. The attributes are none that door_create(3C) refuses.
    pub fn add_door(&mut self, owner: Pid, entry: u32, cookie: u64, attrs: Attrs) -> u32
        requires few { length (stored_state self.old).doors < EVENTS_MAX }
        requires room { HasRoomForDoor self.old }
        requires placed { ArePlaced (stored_state self.old) }
        requires allowed { has_told_attributes attrs ≡ false }
        ensures state { stored_state self.new ≡ record (stored_state self.old) { doors = with_door (stored_state self.old).doors owner.0 entry cookie attrs } }
        ensures number { result ≡ length (stored_state self.old).doors + 1 }
        ensures there { AreThere self.new.doors.items (obj.Door result ∷ []) }
        ensures left { self.new.left ≡ self.old.left }
        ensures keeps { FillsNoPool self.old self.new }
    {
        let number = self.doors.create_allowed(owner, entry, cookie, attrs);
        self.pools.add_door();
        self.short.push(Pool::Private(number));
        number
    }

    /// A parameter of a door, where door_setparam(3C) by process `p` is not refused.
    pub fn set_param(&mut self, d: u32, p: Pid, param: Param, value: u64)
        requires { first_refusal (set_param_tests p.0 (door_of (stored_state self.old) d) param value) ≡ None }
        ensures state { stored_state self.new ≡ record (stored_state self.old) { doors = set_param (stored_state self.old).doors d param value } }
        ensures keeps { KeepsPools self.old self.new }
    {
        self.doors.set_param_allowed(d, param, value);
    }

    /// A door is revoked, where door_revoke(3C) by process `p` is not refused.
    pub fn revoke(&mut self, d: u32, p: Pid)
        requires { first_refusal (revoke_tests p.0 (door_of (stored_state self.old) d)) ≡ None }
        ensures state { stored_state self.new ≡ record (stored_state self.old) { doors = revoke_door (stored_state self.old).doors d } }
        ensures keeps { KeepsPools self.old self.new }
    {
        self.doors.revoke_allowed(d);
    }
}
