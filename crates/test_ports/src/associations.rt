//! Associations that fire, are replaced, end, and whose descriptors are closed.

use dk_base::error::Errno;
use dk_base::list::Room;
use dk_base::number::{Fd, Pid};
use dk_base::object::{EventRec, Obj, Src};
use dk_base::set::PollSet;
use port_assoc::assocs::Assocs;
use spec_records::association::AssocKey;
use std::alloc::Global;
use std::test::Fail;

const IN: u32 = 1;

const OUT: u32 = 4;

const ERR: u32 = 8;

const HUP: u32 = 16;

/// What was asked for, and what the object is ready for: what is told.
const TOLD: [(u32, u32, Option<u32>); 9] = [
    (IN, IN, Some(IN)),
    (IN, OUT, None),
    (IN, 0, None),
    (OUT, OUT | ERR, Some(OUT | ERR)),
    (OUT, IN | HUP, Some(HUP)),
    (IN | HUP, IN | HUP, Some(IN | HUP)),
    (0, ERR, Some(ERR)),
    (0, IN | OUT, None),
    (IN | OUT, IN, Some(IN)),
];

const fn key(port: u32, process: u32, fd: u32) -> AssocKey {
    AssocKey {
        port,
        process: Pid(process),
        fd: Fd(fd),
    }
}

/// Whether an object is associated, in place of this one.
fn associates(
    alloc: Global,
    assocs: &mut Assocs,
    key: AssocKey,
    object: Obj,
    events: u32,
    replaced: Option<u32>,
) -> bool {
    if assocs.made() >= 100 {
        return false;
    }
    assocs.associate(key, object, PollSet(events), 7, alloc) == Ok(replaced)
}

/// Whether an association fires, or none: its port, its number, its descriptor and what it is told.
fn fires(
    assocs: &mut Assocs,
    object: Obj,
    ready: u32,
    expected: Option<(u32, u32, u32, u32)>,
) -> bool {
    match (assocs.fire(object, PollSet(ready)), expected) {
        (Some(fired), Some((port, number, fd, events))) => {
            let rec = EventRec {
                source: Src::Fd,
                object: fd,
                events,
                user: 7,
            };
            fired.port == port && fired.queued.assoc == Some(number) && fired.queued.rec == rec
        }
        (None, None) => true,
        _ => false,
    }
}

/// Whether one that asked for these, whose object is ready for those, is told this, and never again.
fn tells(alloc: Global, assocs: &mut Assocs, asked: u32, ready: u32, told: Option<u32>) -> bool {
    let expected = match told {
        Some(events) => Some((2, 1, 9, events)),
        None => None,
    };
    associates(alloc, assocs, key(2, 3, 9), Obj::PipeIn(5), asked, None)
        && fires(assocs, Obj::PipeOut(5), ready, None)
        && fires(assocs, Obj::PipeIn(5), ready, expected)
        && (told.is_none() || fires(assocs, Obj::PipeIn(5), ready, None))
}

/// Three ports watch one pipe; another end is watched too.
fn are_watched(alloc: Global, assocs: &mut Assocs) -> bool {
    associates(alloc, assocs, key(1, 1, 3), Obj::PipeIn(1), IN, None)
        && associates(alloc, assocs, key(2, 1, 3), Obj::PipeIn(1), IN, None)
        && associates(alloc, assocs, key(1, 1, 4), Obj::PipeOut(1), OUT, None)
        && associates(alloc, assocs, key(1, 2, 3), Obj::PipeIn(1), IN, None)
}

fn fires_in_order(assocs: &mut Assocs) -> bool {
    assocs.armed(1) == 3
        && fires(assocs, Obj::PipeIn(1), IN, Some((1, 1, 3, IN)))
        && fires(assocs, Obj::PipeIn(1), IN, Some((2, 2, 3, IN)))
        && fires(assocs, Obj::PipeIn(1), IN, Some((1, 4, 3, IN)))
        && fires(assocs, Obj::PipeIn(1), IN, None)
        && fires(assocs, Obj::PipeOut(1), OUT, Some((1, 3, 4, OUT)))
        && assocs.armed(1) == 0
        && assocs.len() == 4
}

/// One that has fired is replaced, and its number is told; the new one stands last.
fn replaces(alloc: Global, assocs: &mut Assocs) -> bool {
    fires(assocs, Obj::PipeIn(1), IN, Some((1, 1, 3, IN)))
        && associates(alloc, assocs, key(1, 1, 3), Obj::PipeIn(1), IN, Some(1))
        && associates(alloc, assocs, key(2, 1, 3), Obj::PipeIn(2), IN, Some(2))
        && assocs.number_at(key(1, 1, 3)) == Some(5)
        && assocs.len() == 4
        && fires(assocs, Obj::PipeIn(1), IN, Some((1, 4, 3, IN)))
        && fires(assocs, Obj::PipeIn(1), IN, Some((1, 5, 3, IN)))
        && fires(assocs, Obj::PipeIn(1), IN, None)
}

/// One that ended is not found again, and does not fire.
fn ends(assocs: &mut Assocs) -> bool {
    if assocs.dissociate(key(2, 1, 3)) != Ok(2)
        || assocs.dissociate(key(2, 1, 3)) != Err(Errno::ENOENT)
    {
        return false;
    }
    assocs.retrieved(1);
    assocs.retrieved(9);
    assocs.number_at(key(1, 1, 3)).is_none()
        && assocs.len() == 2
        && assocs.made() == 4
        && fires(assocs, Obj::PipeIn(1), IN, Some((1, 4, 3, IN)))
}

/// The event of one in the middle of the list is retrieved: it alone ends, and once.
fn is_retrieved(alloc: Global, assocs: &mut Assocs) -> bool {
    assocs.retrieved(3);
    assocs.retrieved(3);
    assocs.retrieved(5);
    assocs.number_at(key(1, 1, 4)).is_none()
        && assocs.number_at(key(1, 1, 3)) == Some(1)
        && assocs.number_at(key(2, 1, 3)) == Some(2)
        && assocs.number_at(key(1, 2, 3)) == Some(4)
        && assocs.len() == 3
        && fires(assocs, Obj::PipeOut(1), OUT, None)
        && associates(alloc, assocs, key(1, 1, 4), Obj::PipeOut(1), OUT, None)
        && assocs.number_at(key(1, 1, 4)) == Some(5)
}

/// Whether what ends as a descriptor is closed is of these ports and numbers, in order.
fn drops(
    alloc: Global,
    assocs: &mut Assocs,
    process: u32,
    fd: u32,
    ports: &[u32],
    numbers: &[u32],
) -> bool {
    let count = assocs.len();
    let (Ok(mut told), Ok(mut ids)) = (Room::with_room(alloc, count), Room::with_room(alloc, count))
    else {
        return false;
    };
    assocs.drop_fd(Pid(process), Fd(fd), &mut told, &mut ids);
    told.slice() == ports && ids.slice() == numbers
}

/// A descriptor is closed: all that watch by it end, whether they have fired or not.
fn closes(alloc: Global, assocs: &mut Assocs) -> bool {
    fires(assocs, Obj::PipeIn(1), IN, Some((1, 1, 3, IN)))
        && drops(alloc, assocs, 1, 3, &[1, 2], &[1, 2])
        && assocs.len() == 2
        && fires(assocs, Obj::PipeIn(1), IN, Some((1, 4, 3, IN)))
        && fires(assocs, Obj::PipeIn(1), IN, None)
}

/// Descriptors are closed that have no associations, or none any more, beside others: nothing ends, and nothing is told. One that is
/// associated again, and whose association is replaced, has one.
fn closes_again(alloc: Global, assocs: &mut Assocs) -> bool {
    let row = key(3, 1, 4);
    drops(alloc, assocs, 1, 5, &[], &[])
        && drops(alloc, assocs, 1, 4, &[1], &[3])
        && drops(alloc, assocs, 1, 4, &[], &[])
        && associates(alloc, assocs, row, Obj::PipeIn(1), IN, None)
        && associates(alloc, assocs, row, Obj::PipeOut(1), OUT, Some(5))
        && drops(alloc, assocs, 1, 4, &[3], &[6])
        && drops(alloc, assocs, 1, 4, &[], &[])
        && assocs.len() == 3
}

/// Whether what ends with a process is of these ports and numbers, in order.
fn ends_all(
    alloc: Global,
    assocs: &mut Assocs,
    process: u32,
    ports: &[u32],
    numbers: &[u32],
) -> bool {
    let count = assocs.len();
    let (Ok(mut told), Ok(mut ids)) = (Room::with_room(alloc, count), Room::with_room(alloc, count))
    else {
        return false;
    };
    assocs.end_process(Pid(process), &mut told, &mut ids);
    told.slice() == ports && ids.slice() == numbers
}

/// A process ends: all its own end, whether they have fired or not; another's is left.
fn ends_with_process(alloc: Global, assocs: &mut Assocs) -> bool {
    fires(assocs, Obj::PipeIn(1), IN, Some((1, 1, 3, IN)))
        && ends_all(alloc, assocs, 1, &[1, 2, 1], &[1, 2, 3])
        && assocs.len() == 1
        && assocs.first_told(Obj::PipeOut(1), PollSet(OUT)).is_none()
        && assocs.first_told(Obj::PipeIn(1), PollSet(IN)) == Some(4)
        && fires(assocs, Obj::PipeIn(1), IN, Some((1, 4, 3, IN)))
}

/// What is done with the associations that are watched.
#[derive(Clone, Copy)]
enum Deed {
    FireInOrder,
    Replace,
    End,
    Retrieve,
    Close,
    CloseAgain,
    EndProcess,
}

/// What ends some of them.
const ENDS: [Deed; 6] = [
    Deed::Replace,
    Deed::End,
    Deed::Retrieve,
    Deed::Close,
    Deed::CloseAgain,
    Deed::EndProcess,
];

fn does(alloc: Global, assocs: &mut Assocs, deed: Deed) -> bool {
    match deed {
        Deed::FireInOrder => fires_in_order(assocs),
        Deed::Replace => replaces(alloc, assocs),
        Deed::End => ends(assocs),
        Deed::Retrieve => is_retrieved(alloc, assocs),
        Deed::Close => closes(alloc, assocs),
        Deed::CloseAgain => closes_again(alloc, assocs),
        Deed::EndProcess => ends_with_process(alloc, assocs),
    }
}

fn is_done(alloc: Global, deed: Deed) -> bool {
    let mut assocs = Assocs::new(alloc);
    are_watched(alloc, &mut assocs) && does(alloc, &mut assocs, deed)
}

fn is_told(alloc: Global, asked: u32, ready: u32, told: Option<u32>) -> bool {
    let mut assocs = Assocs::new(alloc);
    tells(alloc, &mut assocs, asked, ready, told)
}

#[test]
fn associations_are_told_once(rt: HostRuntime) {
    for (asked, ready, told) in TOLD {
        assert!(rt; is_told(rt.alloc(), asked, ready, told));
    }
}

#[test]
fn associations_fire_in_order(rt: HostRuntime) {
    assert!(rt; is_done(rt.alloc(), Deed::FireInOrder));
}

#[test]
fn associations_end(rt: HostRuntime) {
    for deed in ENDS {
        assert!(rt; is_done(rt.alloc(), deed));
    }
}
