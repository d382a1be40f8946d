//! What door_info(3C) tells of a door.
ghost use Rattle.std.specs.Prelude.{◌≡◌};
ghost use Rattle.spec_records.specs.Words.{info_in, info_of, target_of, told_attributes};

use crate::attributes::attributes_where;
use bitflags::Flags;
use dk_base::answer::DoorInfo;
use dk_base::number::Pid;
use dk_base::set::Attrs;
use spec_records::record::Door;

/// The process that serves a door.
fn target_of(door: &Door) -> Option<Pid>
    ensures { result ≡ target_of door.now }
{
    if door.owner_ended {
        None
    } else {
        Some(door.owner)
    }
}

/// Those of creation, DOOR_LOCAL for its own process, DOOR_REVOKED, DOOR_IS_UNREF where one reference is left.
fn told_attributes(door: &Door, by: Pid, refs: u64) -> Attrs
    ensures { result ≡ told_attributes by.0 refs door.now }
{
    let local = attributes_where(door.owner.0 == by.0, Attrs::LOCAL);
    let revoked = attributes_where(door.revoked, Attrs::REVOKED);
    let unref = attributes_where(refs == 1, Attrs::IS_UNREF);
    door.attrs.union(local.union(revoked.union(unref)))
}

fn info_of(door: &Door, by: Pid, refs: u64) -> DoorInfo
    ensures { result ≡ info_of by.0 refs door.now }
{
    DoorInfo {
        target: target_of(door),
        entry: door.entry,
        cookie: door.cookie,
        attrs: told_attributes(door, by, refs),
        unique: door.number as u64,
    }
}

/// What process `by` is told of a door that has so many references. Of no door nothing is told.
pub fn info_in(door: Option<Door>, by: Pid, refs: u64) -> DoorInfo
    ensures { result ≡ info_in by.0 refs door }
{
    match door {
        Some(door) => info_of(&door, by, refs),
        None => DoorInfo {
            target: None,
            entry: 0,
            cookie: 0,
            attrs: Attrs(0),
            unique: 0,
        },
    }
}
