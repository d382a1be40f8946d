//! With ample memory lists grow.

use dk_base::list::{Bytes, Room, Sequence, TidList};
use dk_base::number::Tid;
use std::alloc::Global;
use std::test::Fail;

fn is_copied(alloc: Global, bytes: &Bytes, expected: &[u8]) -> bool {
    matches!(bytes.copy(alloc), Ok(copy) if copy.slice() == expected)
}

#[test]
fn lists(rt: HostRuntime) -> Result<(), Fail> {
    let alloc = rt.alloc();
    let mut bytes = Bytes::from_slice(alloc, b"door")?;
    bytes.push(b's')?;
    bytes.append(b" and ports")?;
    assert!(rt; !bytes.is_empty() && is_copied(alloc, &bytes, b"doors and ports"));
    Ok(())
}

/// Five threads, the last three in room that was taken later.
fn five(alloc: Global) -> Result<TidList, Fail> {
    let mut room = Room::with_room(alloc, 2)?;
    room.push(Tid(3));
    room.push(Tid(4));
    room.reserve(3)?;
    room.append(&[Tid(5), Tid(6)]);
    room.push(Tid(7));
    Ok(room.into_list())
}

/// How many items are left after a room is cleared.
fn cleared(list: Sequence<Tid>) -> usize {
    let mut room = list.into_room();
    room.clear();
    room.len()
}

#[test]
fn rooms(rt: HostRuntime) -> Result<(), Fail> {
    let list = five(rt.alloc())?;
    assert!(rt; list.slice() == [Tid(3), Tid(4), Tid(5), Tid(6), Tid(7)].as_slice());
    assert!(rt; cleared(list) == 0);
    Ok(())
}
