//! The doors of a kernel.
ghost use Rattle.std.specs.Prelude.{◌≡◌, ℕ, ◌+◌, ◌<◌, ◌≤◌, [], ◌∷◌, ◌++◌, vec_len, vec_capacity, false, length, if◌then◌else◌, None, Ok, Some, Err, IfOk, OnOk, OnErr};
ghost use Rattle.dk_base.specs.declared.error.Errno.TheVariants.{EINVAL};
ghost use Rattle.dk_base.specs.declared.limits.TheConstants.{EVENTS_MAX};
ghost use Rattle.dk_base.specs.ByNumber.{at_number};
ghost use Rattle.spec_records.specs.Words.{bind_tests, end_owner, first_refusal, has_common_door, has_many, has_told_attributes, info_in, is_notice_door, is_valid_in, limit_tests, may_take_notice_in, new_door, notice_doors, param_in, pool_in, refused_where, revoke_door, revoke_tests, set_param, set_param_tests, takes_notices, unless_refused_with, valid_doors_of, with_door};

use crate::attributes::{first_desc_max, has_told_attributes, takes_notices};
use crate::door::{
    bind_refusal, has_many, is_common_of, is_valid_in, mark_revoked, may_take_notice, pool_in,
    revoke_refusal,
};
use crate::info::info_in;
use crate::limits::limit_refusal;
use crate::owner_lists::{LISTS, end_listed, list_of, list_owned, note_common};
use crate::params::{change_param, param_in, param_refusal};
use dk_base::answer::DoorInfo;
use dk_base::error::{Errno, NoMemory};
use dk_base::list::DoorList;
use dk_base::number::Pid;
use dk_base::request::Param;
use dk_base::set::Attrs;
use spec_records::pool::Pool;
use spec_records::record::Door;
use std::alloc::Global;
use std::marker::Model;

/// Doors, numbered from 1 in the order in which they were made. No door is ever taken out. A number that no door has
/// reads as no door. Clauses see the doors (`items`) and how many more take no memory (`spare`).
#[derive(Drop)]
pub struct Doors {
    doors: Vec<Door>,
    /// The numbers of those of which notices can be made.
    with_notices: Vec<u32>,
    /// For each door the number of the one before it in its owner's list, 0 for none.
    earlier: Vec<u32>,
    /// For each list the number of its last door, 0 for none.
    last: [u32; LISTS],
    /// For each number that a process may have, whether a door of it is not private.
    common: [bool; LISTS],
}

impl Model for Doors {
    ghost use Rattle.std.specs.Prelude.{◌-◌, min, vec_len, vec_capacity};
    ghost use Rattle.dk_base.specs.Spare.{RoomValue};
    ghost use Rattle.spec_records.specs.declared.record.Door.{Door};
    ghost use Rattle.door_object.specs.OwnerLists.{AreListed, as_made};

    ghost Value = { RoomValue Door };

    ghost view = { λ s. record {
      items = s.doors.items;
      spare = min (vec_capacity s.doors - vec_len s.doors)
          (min (vec_capacity s.with_notices - vec_len s.with_notices) (vec_capacity s.earlier - vec_len s.earlier));
    } };

    ghost invariant = { λ s. AreListed (as_made s.doors.items) s.with_notices.items s.earlier.items s.last s.common };
}

fn door_at(doors: &[Door], d: u32) -> Option<Door>
    ensures { result ≡ at_number doors.now d }
{
    if d == 0 {
        None
    } else {
        doors.get(d as usize - 1).copied()
    }
}

fn new_door(number: u32, owner: Pid, entry: u32, cookie: u64, attrs: Attrs) -> Door
    ensures { result ≡ new_door number owner.0 entry cookie attrs }
{
    Door {
        number,
        owner,
        entry,
        cookie,
        attrs,
        data_max: u64::MAX,
        data_min: 0,
        desc_max: first_desc_max(attrs),
        revoked: false,
        owner_ended: false,
    }
}

#[tactic(auto, using(spec_records::proofs::Places::numbered_here))]
fn revoke_at(doors: &mut [Door], d: u32)
    ensures { doors.new ≡ revoke_door doors.old d }
{
    if d == 0 {
        return;
    }
    let place = d as usize - 1;
    if place < doors.len() {
        let door = &mut doors[place];
        mark_revoked(door);
    }
}

#[tactic(auto, using(spec_records::proofs::Places::numbered_here))]
fn set_param_at(doors: &mut [Door], d: u32, param: Param, value: u64)
    ensures { doors.new ≡ set_param doors.old d param value }
{
    if d == 0 {
        return;
    }
    let place = d as usize - 1;
    if place < doors.len() {
        let door = &mut doors[place];
        change_param(door, param, value);
    }
}

fn has_common_door(doors: &[Door], p: Pid) -> bool
    ensures { result ≡ has_common_door doors.now p.0 }
{
    doors.iter().any(|door| is_common_of(door, p))
}

fn list_noticed(with_notices: &mut Vec<u32>, number: u32, attrs: Attrs)
    requires { vec_len with_notices.old < vec_capacity with_notices.old }
    ensures items { with_notices.new.items ≡ (if takes_notices attrs then with_notices.old.items ++ number ∷ [] else with_notices.old.items) }
    ensures len { vec_len with_notices.new ≤ vec_len with_notices.old + 1 }
    ensures capacity { vec_capacity with_notices.new ≡ vec_capacity with_notices.old }
{
    if takes_notices(attrs) {
        with_notices.push_reserved(number);
    }
}

impl Doors {
    /// No door, and no room.
    pub fn new(alloc: Global) -> Self
        ensures { result ≡ record { items = []; spare = 0 } }
    {
        Doors {
            doors: Vec::new(alloc),
            with_notices: Vec::new(alloc),
            earlier: Vec::new(alloc),
            last: [0; LISTS],
            common: [false; LISTS],
        }
    }

    /// How many doors were made.
    pub fn count(&self) -> usize
        ensures { result ≡ length self.now.items }
    {
        self.doors.len()
    }

    /// Room for another door. Want of memory changes nothing, and comes only where there is no room yet.
    pub fn reserve(&mut self) -> Result<(), NoMemory>
        ensures items { self.new.items ≡ self.old.items }
        ensures room { OnOk result (0 < self.new.spare) }
        ensures kept { self.old.spare ≤ self.new.spare }
        ensures err { OnErr result (self.new ≡ self.old) }
        ensures cause { OnErr result (self.old.spare ≡ 0) }
    {
        if self.with_notices.reserve(1).is_err() || self.earlier.reserve(1).is_err() {
            return Err(NoMemory);
        }
        match self.doors.reserve(1) {
            Ok(()) => Ok(()),
            Err(_) => Err(NoMemory),
        }
    }

    /// What door_create(3C) is refused with: EINVAL for attributes that only door_info(3C) tells.
    pub fn check_create(attrs: Attrs) -> Option<Errno>
        ensures { result ≡ first_refusal (refused_where (has_told_attributes attrs) EINVAL ∷ []) }
    {
        if has_told_attributes(attrs) {
            return Some(Errno::EINVAL);
        }
        None
    }

    /// door_create(3C): another door of a process, whose number is answered, under the next number. It takes no memory.
    /// EINVAL for attributes that only door_info(3C) tells, which changes nothing.
    pub fn create(
        &mut self,
        owner: Pid,
        entry: u32,
        cookie: u64,
        attrs: Attrs,
    ) -> Result<u32, Errno>
        requires room { 0 < self.old.spare }
        requires few { length self.old.items < EVENTS_MAX }
        ensures result { result ≡ (if has_told_attributes attrs then Err EINVAL else Ok (length self.old.items + 1)) }
        ensures made { OnOk result (self.new.items ≡ with_door self.old.items owner.0 entry cookie attrs) }
        ensures spare { self.old.spare ≤ self.new.spare + 1 }
        ensures err { OnErr result (self.new ≡ self.old) }
    {
        if let Some(error) = Doors::check_create(attrs) {
            return Err(error);
        }
        Ok(self.create_allowed(owner, entry, cookie, attrs))
    }

    /// The same, with attributes that `check_create` does not refuse.
    pub fn create_allowed(&mut self, owner: Pid, entry: u32, cookie: u64, attrs: Attrs) -> u32
        requires room { 0 < self.old.spare }
        requires few { length self.old.items < EVENTS_MAX }
        requires allowed { has_told_attributes attrs ≡ false }
        ensures number { result ≡ length self.old.items + 1 }
        ensures made { self.new.items ≡ with_door self.old.items owner.0 entry cookie attrs }
        ensures spare { self.old.spare ≤ self.new.spare + 1 }
    {
        let number = self.doors.len() as u32 + 1;
        list_noticed(&mut self.with_notices, number, attrs);
        let list = list_of(owner);
        self.earlier.push_reserved(self.last[list]);
        self.last[list] = number;
        note_common(&mut self.common, owner, attrs);
        self.doors
            .push_reserved(new_door(number, owner, entry, cookie, attrs));
        number
    }

    /// The door of a number, if there is one, valid or not.
    pub fn door(&self, d: u32) -> Option<Door>
        ensures { result ≡ at_number self.now.items d }
    {
        door_at(&self.doors, d)
    }

    /// Whether a number is that of a door that is not revoked, and whose owner has not ended.
    pub fn valid(&self, d: u32) -> bool
        ensures { result ≡ is_valid_in (at_number self.now.items d) }
    {
        is_valid_in(self.door(d))
    }

    /// The numbers of the doors of which notices can be made, in order.
    pub fn notice_doors(&self) -> &[u32]
        ensures { result.now ≡ notice_doors self.now.items }
    {
        self.with_notices.as_slice()
    }

    /// Whether a door is there of which notices can be made, valid or not.
    pub fn takes_notices(&self, d: u32) -> bool
        ensures there { (x : Door) → at_number self.now.items d ≡ Some x → result ≡ is_notice_door x }
        ensures none { at_number self.now.items d ≡ None → result ≡ false }
    {
        match self.door(d) {
            Some(door) => takes_notices(door.attrs),
            None => false,
        }
    }

    /// Whether any number of notices of a door can be made.
    pub fn takes_many(&self, d: u32) -> bool
        ensures { result ≡ has_many (at_number self.now.items d) }
    {
        has_many(self.door(d))
    }

    /// Whether a notice of a door can be made, where it had one or not: of one that is there and valid, has DOOR_UNREF or
    /// DOOR_UNREF_MULTI, and had none or has the latter.
    pub fn may_take_notice(&self, d: u32, had: bool) -> bool
        ensures { result ≡ may_take_notice_in had (at_number self.now.items d) }
    {
        may_take_notice(self.door(d), had)
    }

    /// The pool that serves a door, that of process 0 for no door.
    pub fn pool_of(&self, d: u32) -> Pool
        ensures { result ≡ pool_in (at_number self.now.items d) }
    {
        pool_in(self.door(d))
    }

    /// What door_bind(3C) by a thread of a process is refused with: EBADF for no door or one that is not valid, EINVAL for one that is
    /// not private or is another's.
    pub fn check_bind(&self, d: u32, by: Pid) -> Option<Errno>
        ensures { result ≡ first_refusal (bind_tests by.0 (at_number self.now.items d)) }
    {
        bind_refusal(self.door(d), by)
    }

    /// Whether a process ever made a door that is not private, valid or not.
    pub fn has_common(&self, p: Pid) -> bool
        ensures { result ≡ has_common_door self.now.items p.0 }
    {
        let place = p.0 as usize;
        if place < LISTS {
            self.common[place]
        } else {
            // No process has such a number.
            has_common_door(&self.doors, p)
        }
    }

    /// What door_revoke(3C) by a process is refused with: EBADF for no door or one that is not valid, EPERM for another's.
    pub fn check_revoke(&self, d: u32, by: Pid) -> Option<Errno>
        ensures { result ≡ first_refusal (revoke_tests by.0 (at_number self.now.items d)) }
    {
        revoke_refusal(self.door(d), by)
    }

    /// door_revoke(3C) by a process: EBADF, EPERM (see `check_revoke`). An error changes nothing.
    pub fn revoke(&mut self, d: u32, by: Pid) -> Result<(), Errno>
        ensures result { result ≡ unless_refused_with (first_refusal (revoke_tests by.0 (at_number self.old.items d))) }
        ensures ok { OnOk result (self.new ≡ record self.old { items = revoke_door self.old.items d }) }
        ensures err { OnErr result (self.new ≡ self.old) }
    {
        if let Some(error) = self.check_revoke(d, by) {
            return Err(error);
        }
        self.revoke_allowed(d);
        Ok(())
    }

    /// A door is revoked that a process may revoke, as `check_revoke` tells.
    pub fn revoke_allowed(&mut self, d: u32)
        requires { (by : ℕ) × (first_refusal (revoke_tests by (at_number self.old.items d)) ≡ None) }
        ensures { self.new ≡ record self.old { items = revoke_door self.old.items d } }
    {
        revoke_at(&mut self.doors, d);
    }

    /// The doors of a process that are valid, in order. Only want of memory fails.
    pub fn owned(&self, alloc: Global, p: Pid) -> Result<DoorList, NoMemory>
        ensures { IfOk result (λ owned. owned ≡ valid_doors_of p.0 self.now.items) }
    {
        list_owned(alloc, &self.doors, &self.earlier, self.last[list_of(p)], p)
    }

    /// The doors of a process that ends are no longer valid.
    pub fn owner_ended(&mut self, p: Pid)
        ensures { self.new ≡ record self.old { items = end_owner self.old.items p.0 } }
    {
        let last = self.last[list_of(p)];
        end_listed(&mut self.doors, &self.earlier, last, p);
    }

    /// door_info(3C): what process `by` is told of a door that has so many references. Of no door nothing is told: no
    /// target, and 0 for all else.
    pub fn info(&self, d: u32, by: Pid, refs: u64) -> DoorInfo
        ensures { result ≡ info_in by.0 refs (at_number self.now.items d) }
    {
        info_in(self.door(d), by, refs)
    }

    /// door_getparam(3C): a parameter's value, in bytes or descriptors, 0 for no door.
    pub fn getparam(&self, d: u32, param: Param) -> u64
        ensures { result ≡ param_in param (at_number self.now.items d) }
    {
        param_in(self.door(d), param)
    }

    /// What door_setparam(3C) by a process is refused with: EBADF for no door or one that is not valid, EPERM for
    /// another's, ENOTSUP for descriptors where the door refuses them, EINVAL where no call would have a size that fits.
    pub fn check_param(&self, d: u32, by: Pid, param: Param, value: u64) -> Option<Errno>
        ensures { result ≡ first_refusal (set_param_tests by.0 (at_number self.now.items d) param value) }
    {
        param_refusal(self.door(d), by, param, value)
    }

    /// door_setparam(3C) by a process: EBADF, EPERM, ENOTSUP, EINVAL (see `check_param`). An error changes nothing.
    pub fn setparam(&mut self, d: u32, by: Pid, param: Param, value: u64) -> Result<(), Errno>
        ensures result { result ≡ unless_refused_with (first_refusal (set_param_tests by.0 (at_number self.old.items d) param value)) }
        ensures ok { OnOk result (self.new ≡ record self.old { items = set_param self.old.items d param value }) }
        ensures err { OnErr result (self.new ≡ self.old) }
    {
        if let Some(error) = self.check_param(d, by, param, value) {
            return Err(error);
        }
        self.set_param_allowed(d, param, value);
        Ok(())
    }

    /// A parameter of a door is set that a process may set so, as `check_param` tells.
    pub fn set_param_allowed(&mut self, d: u32, param: Param, value: u64)
        requires { (by : ℕ) × (first_refusal (set_param_tests by (at_number self.old.items d) param value) ≡ None) }
        ensures { self.new ≡ record self.old { items = set_param self.old.items d param value } }
    {
        set_param_at(&mut self.doors, d, param, value);
    }

    /// What door_call(3C) is refused with by a door's limits (see `check_limits`).
    pub fn limit_refusal(&self, d: u32, size: u64, descriptors: u64) -> Option<Errno>
        ensures { result ≡ first_refusal (limit_tests (at_number self.now.items d) size descriptors) }
    {
        limit_refusal(self.door(d), size, descriptors)
    }

    /// door_call(3C), a call of so many bytes and descriptors: EBADF for no door or one that is not valid, ENOBUFS for a
    /// size outside the door's, ENOTSUP and ENFILE for descriptors that it refuses or that are too many for it, E2BIG for
    /// more than any call may have.
    pub fn check_limits(&self, d: u32, size: u64, descriptors: u64) -> Result<(), Errno>
        ensures { result ≡ unless_refused_with (first_refusal (limit_tests (at_number self.now.items d) size descriptors)) }
    {
        match self.limit_refusal(d, size, descriptors) {
            Some(error) => Err(error),
            None => Ok(()),
        }
    }
}
