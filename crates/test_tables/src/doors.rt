//! Doors: attributes that are refused, parameters, limits of calls, and what is told of a door.

use dk_base::answer::DoorInfo;
use dk_base::error::Errno;
use dk_base::number::Pid;
use dk_base::request::Param;
use dk_base::set::Attrs;
use door_object::doors::Doors;
use spec_records::pool::Pool;
use std::alloc::Global;
use std::process::Abort;

const GREATEST: u64 = 18_446_744_073_709_551_615;

const OWNER: Pid = Pid(1);

const OTHER: Pid = Pid(2);

/// Attributes, and whether a door is made that has them.
static MADE: [(Attrs, bool); 9] = [
    (Attrs(0), true),
    (Attrs::UNREF, true),
    (Attrs::PRIVATE, true),
    (Attrs::LOCAL, false),
    (Attrs::REVOKED, false),
    (Attrs::UNREF_MULTI, true),
    (Attrs::IS_UNREF, false),
    (Attrs::REFUSE_DESC, true),
    (Attrs::NO_CANCEL, true),
];

/// Makes another door of the owner, with entry 7 and cookie 9.
fn make(doors: &mut Doors, attrs: Attrs) -> Option<Result<u32, Errno>> {
    if doors.reserve().is_err() || doors.count() >= 1_000_000 {
        return None;
    }
    Some(doors.create(OWNER, 7, 9, attrs))
}

fn is_made(alloc: Global, attrs: Attrs, expected: bool) -> bool {
    let mut doors = Doors::new(alloc);
    match make(&mut doors, attrs) {
        Some(Ok(number)) => expected && number == 1 && doors.valid(1),
        Some(Err(error)) => !expected && error == Errno::EINVAL && doors.count() == 0,
        None => false,
    }
}

#[test]
fn three_attributes_are_only_told(rt: HostRuntime) {
    let alloc = rt.alloc();
    for (attrs, expected) in &MADE {
        assert!(rt; is_made(alloc, *attrs, *expected), "{}", attrs.0);
    }
}

fn is_refused(answer: Result<(), Errno>, expected: Option<Errno>) -> bool {
    match (answer, expected) {
        (Ok(()), None) => true,
        (Err(error), Some(wanted)) => error == wanted,
        _ => false,
    }
}

/// A door's attributes, a parameter and its new value, the error, and the value afterwards. Each row has a door of its own.
static SET: [(Attrs, Param, u64, Option<Errno>, u64); 12] = [
    (Attrs(0), Param::DataMax, 0, None, 0),
    (Attrs(0), Param::DataMax, 1, None, 1),
    (Attrs(0), Param::DataMax, GREATEST, None, GREATEST),
    (Attrs(0), Param::DataMin, 0, None, 0),
    (Attrs(0), Param::DataMin, 1, None, 1),
    (Attrs(0), Param::DataMin, GREATEST, None, GREATEST),
    (Attrs(0), Param::DescMax, 0, None, 0),
    (Attrs(0), Param::DescMax, 1, None, 1),
    (Attrs(0), Param::DescMax, GREATEST, None, GREATEST),
    (Attrs::REFUSE_DESC, Param::DescMax, 0, None, 0),
    (
        Attrs::REFUSE_DESC,
        Param::DescMax,
        1,
        Some(Errno::ENOTSUP),
        0,
    ),
    (
        Attrs::REFUSE_DESC,
        Param::DescMax,
        GREATEST,
        Some(Errno::ENOTSUP),
        0,
    ),
];

fn is_set(
    alloc: Global,
    attrs: Attrs,
    param: Param,
    value: u64,
    expected: Option<Errno>,
    after: u64,
) -> bool {
    let mut doors = Doors::new(alloc);
    make(&mut doors, attrs).is_some()
        && is_refused(doors.setparam(1, OWNER, param, value), expected)
        && doors.getparam(1, param) == after
}

#[test]
fn parameters_are_set(rt: HostRuntime) {
    let alloc = rt.alloc();
    for (attrs, param, value, expected, after) in &SET {
        assert!(rt;
            is_set(alloc, *attrs, *param, *value, *expected, *after),
            "{value}"
        );
    }
}

/// Sizes and numbers of descriptors, and the error, at a door that takes 10 to 5000 bytes and 20 descriptors.
static LIMITS: [(u64, u64, Option<Errno>); 10] = [
    (9, 21, Some(Errno::ENOBUFS)),
    (5001, 17, Some(Errno::ENOBUFS)),
    (10, 21, Some(Errno::ENFILE)),
    (5000, 21, Some(Errno::ENFILE)),
    (10, 20, Some(Errno::E2BIG)),
    (10, 17, Some(Errno::E2BIG)),
    (4097, 0, Some(Errno::E2BIG)),
    (5000, 0, Some(Errno::E2BIG)),
    (10, 16, None),
    (4096, 0, None),
];

/// The same at a door that refuses descriptors.
static REFUSING: [(u64, u64, Option<Errno>); 5] = [
    (4097, 1, Some(Errno::ENOTSUP)),
    (0, 1, Some(Errno::ENOTSUP)),
    (4097, 0, Some(Errno::E2BIG)),
    (0, 0, None),
    (4096, 0, None),
];

static LIMITED: [(Param, u64); 3] = [
    (Param::DataMin, 10),
    (Param::DataMax, 5000),
    (Param::DescMax, 20),
];

fn set_limits(doors: &mut Doors) -> bool {
    for (param, value) in &LIMITED {
        if doors.setparam(1, OWNER, *param, *value).is_err() {
            return false;
        }
    }
    true
}

/// Calls of a door with so many bytes and descriptors, and the error of each.
fn are_limited<R: Abort>(rt: &R, doors: &Doors, door: u32, rows: &[(u64, u64, Option<Errno>)]) {
    for (size, descriptors, expected) in rows {
        assert!(rt;
            is_refused(doors.check_limits(door, *size, *descriptors), *expected),
            "{size} {descriptors}"
        );
    }
}

/// Two doors, the first with limits, the second with DOOR_REFUSE_DESC.
fn are_made(doors: &mut Doors) -> bool {
    make(doors, Attrs(0)).is_some()
        && make(doors, Attrs::REFUSE_DESC).is_some()
        && set_limits(doors)
}

/// Whether the owner may not set a least size above the greatest, and another process may set and revoke nothing.
fn are_refused(doors: &mut Doors) -> bool {
    is_refused(doors.check_limits(3, 5001, 21), Some(Errno::EBADF))
        && is_refused(
            doors.setparam(1, OWNER, Param::DataMin, 5001),
            Some(Errno::EINVAL),
        )
        && is_refused(
            doors.setparam(1, OWNER, Param::DataMax, 9),
            Some(Errno::EINVAL),
        )
        && is_refused(
            doors.setparam(1, OTHER, Param::DataMax, 9),
            Some(Errno::EPERM),
        )
        && is_refused(doors.revoke(1, OTHER), Some(Errno::EPERM))
        && is_refused(doors.revoke(1, OWNER), None)
        && is_refused(doors.check_limits(1, 5001, 21), Some(Errno::EBADF))
}

fn have_an_order<R: Abort>(rt: &R, doors: &mut Doors) {
    assert!(rt; are_made(doors));
    are_limited(rt, doors, 1, &LIMITS);
    are_limited(rt, doors, 2, &REFUSING);
    assert!(rt; are_refused(doors));
}

#[test]
fn limits_have_an_order(rt: HostRuntime) {
    let mut doors = Doors::new(rt.alloc());
    have_an_order(&rt, &mut doors);
}

/// Whether this is told of door 1: its target, and its attributes.
fn tells(info: &DoorInfo, target: Option<u32>, attrs: u32) -> bool {
    let is_target = match (info.target, target) {
        (Some(process), Some(number)) => process.0 == number,
        (None, None) => true,
        _ => false,
    };
    is_target && info.entry == 7 && info.cookie == 9 && info.unique == 1 && info.attrs.0 == attrs
}

fn is_pool(pool: Pool, private: bool) -> bool {
    match pool {
        Pool::Private(number) => private && number == 1,
        Pool::Common(process) => !private && process.0 == 1,
    }
}

fn owns_the_second(alloc: Global, doors: &Doors) -> bool {
    matches!(doors.owned(alloc, OWNER), Ok(owned) if owned.slice() == [2].as_slice())
}

/// Whether a private door is told of before it is revoked, after that, and once its owner has ended.
fn is_told_of(alloc: Global, doors: &mut Doors) -> bool {
    if make(doors, Attrs::PRIVATE).is_none() || make(doors, Attrs(0)).is_none() {
        return false;
    }
    let before = is_pool(doors.pool_of(1), true)
        && is_pool(doors.pool_of(2), false)
        && tells(&doors.info(1, OWNER, 2), Some(1), 6)
        && tells(&doors.info(1, OTHER, 2), Some(1), 2)
        && tells(&doors.info(1, OTHER, 1), Some(1), 34)
        && doors.revoke(1, OWNER).is_ok()
        && tells(&doors.info(1, OTHER, 2), Some(1), 10)
        && owns_the_second(alloc, doors);
    doors.owner_ended(OWNER);
    before && tells(&doors.info(1, OTHER, 1), None, 42) && !doors.valid(2)
}

#[test]
fn a_door_is_told_of(rt: HostRuntime) {
    let alloc = rt.alloc();
    let mut doors = Doors::new(alloc);
    assert!(rt; is_told_of(alloc, &mut doors));
}
