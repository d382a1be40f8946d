//! Objects that changed, whose associations fire in order of number.
ghost use Rattle.std.specs.Prelude.{◌≡◌, ℕ};
ghost use Rattle.spec_records.specs.Words.{no_associations};
ghost use Rattle.kernel_ports.specs.Words.{HasRoomForArmed};

use dk_base::list::Room;
use dk_base::number::{Fd, Pid};
use dk_base::object::Obj;
use dk_base::set::PollSet;
use event_port::ports::Ports;
use kernel_ports::changed::Ends;
use kernel_ports::tell::tell_ports;
use pipe_obj::pipes::Pipes;
use port_assoc::assocs::Assocs;
use spec_records::association::AssocKey;
use std::alloc::Global;
use std::test::Fail;

/// What all ask for.
const IN: PollSet = PollSet(1);

/// The port and the descriptor of each association in order, and what it watches.
const WATCHED: [(u32, u32, Obj); 7] = [
    (1, 3, Obj::PipeIn(1)),
    (2, 4, Obj::PipeOut(2)),
    (1, 5, Obj::PipeOut(2)),
    (1, 6, Obj::PipeIn(1)),
    (1, 7, Obj::PipeIn(3)),
    (1, 8, Obj::PipeOut(2)),
    (2, 9, Obj::PipeIn(1)),
];

/// The writing end of the first pipe has gone before, so that its reading end is ready for `hup`.
const HUNG_UP: Ends = Ends {
    pipe: 1,
    readers: 1,
    writers: 0,
};

/// Whether two ports are made.
fn are_made(alloc: Global, ports: &mut Ports) -> bool {
    for _ in 0..2 {
        if ports.reserve().is_err() || ports.count() >= 3 {
            return false;
        }
        ports.create(alloc);
    }
    true
}

/// Whether an object is associated with a port, which gets room for its event.
fn associates(alloc: Global, assocs: &mut Assocs, ports: &mut Ports, row: (u32, u32, Obj)) -> bool
    requires { HasRoomForArmed assocs.old.list.associations ports.old.rooms }
    ensures { HasRoomForArmed assocs.new.list.associations ports.new.rooms }
{
    let key = AssocKey {
        port: row.0,
        process: Pid(1),
        fd: Fd(row.1),
    };
    let armed = assocs.armed(key.port);
    if armed >= 100 || ports.room(key.port, armed as usize + 1).is_err() {
        return false;
    }
    if assocs.made() >= 100 || assocs.reserve(row.2, alloc).is_err() {
        return false;
    }
    assocs.associate_fitting(key, row.2, IN, 7).is_none()
}

/// Whether all are associated.
fn are_associated(alloc: Global, assocs: &mut Assocs, ports: &mut Ports) -> bool
    requires { HasRoomForArmed assocs.old.list.associations ports.old.rooms }
    ensures { HasRoomForArmed assocs.new.list.associations ports.new.rooms }
{
    for row in WATCHED {
        if !associates(alloc, assocs, ports, row) {
            return false;
        }
    }
    true
}

/// Whether all events that are queued at a port are of these associations, in order.
fn are_queued(alloc: Global, ports: &mut Ports, p: u32, numbers: &[u32]) -> bool {
    let found = ports.found(p, 64);
    let (Ok(mut into), Ok(mut ids)) = (Room::with_room(alloc, found), Room::with_room(alloc, found))
    else {
        return false;
    };
    ports.take_found(p, 64, &mut into, &mut ids);
    ids.slice() == numbers
}

/// Whether an event changed the first pipe, and the reading end of the second went in it: all of both are told, and none of the third.
fn fire_in_order(alloc: Global, assocs: &mut Assocs, ports: &mut Ports, pipes: &Pipes) -> bool
    requires { assocs.old.list ≡ no_associations }
{
    if !are_made(alloc, ports) || !are_associated(alloc, assocs, ports) {
        return false;
    }
    let Ok(mut changed) = Room::with_room(alloc, 3) else {
        return false;
    };
    let told = tell_ports(
        assocs,
        ports,
        pipes,
        Some(HUNG_UP),
        &[Obj::PipeIn(2)],
        &mut changed,
    );
    told && assocs.armed(1) == 1
        && assocs.armed(2) == 0
        && are_queued(alloc, ports, 1, &[1, 3, 4, 6])
        && are_queued(alloc, ports, 2, &[2, 7])
}

fn are_told(alloc: Global) -> bool {
    let mut assocs = Assocs::new(alloc);
    let mut ports = Ports::new(alloc);
    let pipes = Pipes::new(alloc);
    fire_in_order(alloc, &mut assocs, &mut ports, &pipes)
}

#[test]
fn changed_objects_fire_in_order(rt: HostRuntime) {
    assert!(rt; are_told(rt.alloc()));
}
