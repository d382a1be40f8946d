//! Doors attached to paths, detached, looked up and counted.

use dk_base::error::Errno;
use dk_base::number::PathId;
use name_space::names::Names;

/// What is asked of the names: a door is attached to a path, or a path's door is detached or looked up.
enum Asks {
    Attach(u32, u32),
    Detach(u32),
    Look(u32),
}

static ROWS: [(Asks, Result<u32, Errno>); 10] = [
    (Asks::Attach(3, 7), Ok(7)),
    (Asks::Attach(4, 7), Ok(7)),
    (Asks::Attach(3, 8), Err(Errno::EBUSY)),
    (Asks::Look(3), Ok(7)),
    (Asks::Attach(9, 8), Ok(8)),
    (Asks::Detach(3), Ok(7)),
    (Asks::Detach(3), Err(Errno::EINVAL)),
    (Asks::Look(3), Err(Errno::ENOENT)),
    (Asks::Look(4), Ok(7)),
    (Asks::Attach(3, 8), Ok(8)),
];

/// Attaches a door with ample memory, and tells its number. EAGAIN stands for want of memory.
fn attach(names: &mut Names, path: u32, door: u32) -> Result<u32, Errno> {
    let Ok(()) = names.reserve() else {
        return Err(Errno::EAGAIN);
    };
    match names.attach(PathId(path), door) {
        Ok(()) => Ok(door),
        Err(error) => Err(error),
    }
}

fn answer(names: &mut Names, asks: &Asks) -> Result<u32, Errno> {
    match asks {
        Asks::Attach(path, door) => attach(names, *path, *door),
        Asks::Detach(path) => names.detach(PathId(*path)),
        Asks::Look(path) => names.look(PathId(*path)),
    }
}

fn stands_at(names: &Names, place: usize, path: u32, door: u32) -> bool {
    matches!(names.name_at(place), Some(name) if name.path.0 == path && name.door == door)
}

/// The order is that of attaching, without those that were detached.
fn are_in_order(names: &Names) -> bool {
    names.len() == 3
        && stands_at(names, 0, 4, 7)
        && stands_at(names, 1, 9, 8)
        && stands_at(names, 2, 3, 8)
        && names.name_at(3).is_none()
}

fn answers_all(names: &mut Names) -> bool {
    for (asks, expected) in &ROWS {
        if answer(names, asks) != *expected {
            return false;
        }
    }
    true
}

#[test]
fn doors_are_attached_and_detached(rt: HostRuntime) {
    let mut names = Names::new(rt.alloc());
    assert!(rt; answers_all(&mut names) && are_in_order(&names));
}
