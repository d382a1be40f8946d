//! The doors of an owner: each door has the number of the one before it in its owner's list.
ghost use Rattle.std.specs.Prelude.{◌≡◌, ◌++◌, [], ◌∷◌, IfOk, OnOk, if◌then◌else◌, length, slice_set, true};
ghost use Rattle.spec_records.specs.Words.{end_owner, is_private, is_valid_of, valid_doors_of};
ghost use Rattle.door_object.specs.OwnerLists.{AreLinked, as_made, last_of, list_of};

use crate::attributes::is_private;
use crate::door::{end_owner, is_valid_of};
use dk_base::error::NoMemory;
use dk_base::limits::PROCESSES_MAX;
use dk_base::list::DoorList;
use dk_base::number::Pid;
use dk_base::set::Attrs;
use spec_records::record::Door;
use std::alloc::Global;

/// How many lists there are: one for each number from 0 that a process may have. Numbers that no process has share them.
pub const LISTS: usize = PROCESSES_MAX as usize + 1;

pub fn list_of(owner: Pid) -> usize
    ensures { result ≡ list_of owner.0 }
{
    owner.0 as usize % LISTS
}

/// A door of a process was made with these attributes.
pub fn note_common(common: &mut [bool], owner: Pid, attrs: Attrs)
    ensures { common.new ≡ (if is_private attrs then common.old else slice_set common.old owner.0 true) }
{
    let place = owner.0 as usize;
    if !is_private(attrs) && place < common.len() {
        common[place] = true;
    }
}

/// The doors of a process that ends, from the last of its list on.
pub fn end_listed(doors: &mut [Door], earlier: &[u32], last: u32, p: Pid)
    requires linked { AreLinked (as_made doors.old) earlier.now }
    requires last { last ≡ last_of p.0 doors.old (length doors.old) }
    ensures { doors.new ≡ end_owner doors.old p.0 }
{
    let mut number = last;
    while number > 0 {
        let place = number as usize - 1;
        end_owner(&mut doors[place], p);
        number = earlier[place];
    }
}

fn push_valid(owned: &mut Vec<u32>, door: &Door, p: Pid) -> Result<(), NoMemory>
    ensures { OnOk result (owned.new.items ≡ (if is_valid_of p.0 door.now then owned.old.items ++ door.now.number ∷ [] else owned.old.items)) }
{
    if is_valid_of(door, p) && owned.push(door.number).is_err() {
        return Err(NoMemory);
    }
    Ok(())
}

/// The valid doors of a process, in order, from the last of its list on.
pub fn list_owned(
    alloc: Global,
    doors: &[Door],
    earlier: &[u32],
    last: u32,
    p: Pid,
) -> Result<DoorList, NoMemory>
    requires linked { AreLinked (as_made doors.now) earlier.now }
    requires last { last ≡ last_of p.0 doors.now (length doors.now) }
    ensures { IfOk result (λ owned. owned ≡ valid_doors_of p.0 doors.now) }
{
    let mut owned = Vec::new(alloc);
    let mut number = last;
    while number > 0 {
        let place = number as usize - 1;
        push_valid(&mut owned, &doors[place], p)?;
        number = earlier[place];
    }
    owned.reverse();
    DoorList::from_slice(alloc, &owned)
}
