//! Descriptors of a process.
ghost use Rattle.std.specs.Prelude.{◌+◌, ◌≤◌, length};
ghost use Rattle.dk_base.specs.declared.limits.TheConstants.{DESCRIPTORS_MAX};

use dk_base::error::Errno;
use dk_base::list::{ObjList, Room};
use dk_base::number::Fd;
use dk_base::object::Obj;
use fd_table::table::FdTable;
use std::alloc::Global;

/// Whether this is so of a new table of so many rows.
pub(crate) fn is_so_of_rows(
    alloc: Global,
    rows: u32,
    check: fn(Global, &mut FdTable) -> bool,
) -> bool
    requires rows { rows ≤ DESCRIPTORS_MAX }
    requires check { IsAlwaysCallable check }
{
    match FdTable::new(alloc, rows) {
        Ok(mut table) => check(alloc, &mut table),
        Err(_) => false,
    }
}

/// Whether the next objects get the numbers from 0 on, this many.
fn gives_numbers(table: &mut FdTable, many: u32) -> bool {
    for number in 0..many {
        if table.insert(Obj::Door(1)) != Ok(Fd(number)) {
            return false;
        }
    }
    true
}

fn is_full(table: &mut FdTable) -> bool {
    table.free() == 0
        && table.lowest_free().is_none()
        && table.insert(Obj::Door(1)) == Err(Errno::EMFILE)
}

fn fills(alloc: Global, limit: u32) -> bool
    requires { limit ≤ DESCRIPTORS_MAX }
{
    match FdTable::new(alloc, limit) {
        Ok(mut table) => {
            table.free() == limit && gives_numbers(&mut table, limit) && is_full(&mut table)
        }
        Err(_) => false,
    }
}

#[test]
fn tables_have_limits(rt: HostRuntime) {
    assert!(rt; fills(rt.alloc(), 0));
    assert!(rt; fills(rt.alloc(), 1));
    assert!(rt; fills(rt.alloc(), 256));
}

/// What is asked of a table, and what it answers.
enum Act {
    Insert(Obj, Result<Fd, Errno>),
    Remove(Fd, Result<Obj, Errno>),
    Dup(Fd, Result<Fd, Errno>),
    Get(Fd, Option<Obj>),
}

/// A table of three rows. The last act leaves the rows 0 and 2.
static ACTS: [Act; 15] = [
    Act::Insert(Obj::Door(1), Ok(Fd(0))),
    Act::Insert(Obj::Port(1), Ok(Fd(1))),
    Act::Dup(Fd(0), Ok(Fd(2))),
    Act::Dup(Fd(1), Err(Errno::EMFILE)),
    Act::Dup(Fd(3), Err(Errno::EBADF)),
    Act::Remove(Fd(1), Ok(Obj::Port(1))),
    Act::Remove(Fd(1), Err(Errno::EBADF)),
    Act::Remove(Fd(0), Ok(Obj::Door(1))),
    Act::Dup(Fd(1), Err(Errno::EBADF)),
    Act::Insert(Obj::PipeIn(1), Ok(Fd(0))),
    Act::Insert(Obj::PipeOut(1), Ok(Fd(1))),
    Act::Insert(Obj::Door(2), Err(Errno::EMFILE)),
    Act::Get(Fd(2), Some(Obj::Door(1))),
    Act::Get(Fd(3), None),
    Act::Remove(Fd(1), Ok(Obj::PipeOut(1))),
];

fn does(table: &mut FdTable, act: &Act) -> bool {
    match act {
        Act::Insert(object, gives) => table.insert(*object) == *gives,
        Act::Remove(fd, gives) => table.remove(*fd) == *gives,
        Act::Dup(fd, gives) => table.dup(*fd) == *gives,
        Act::Get(fd, gives) => table.get(*fd) == *gives,
    }
}

fn does_all(table: &mut FdTable) -> bool {
    for act in &ACTS {
        if !does(table, act) {
            return false;
        }
    }
    true
}

/// Whether these objects are drained, and every row is free then.
fn drains(table: &mut FdTable, into: &mut Room<Obj>, expected: &[Obj]) -> bool
    requires { 3 ≤ into.old.spare }
{
    if table.len() != 3 {
        return false;
    }
    table.drain(into);
    table.free() == 3 && into.slice() == expected
}

fn is_given_again(alloc: Global, table: &mut FdTable) -> bool {
    let Ok(mut drained) = Room::with_room(alloc, 3) else {
        return false;
    };
    does_all(table) && drains(table, &mut drained, &[Obj::PipeIn(1), Obj::Door(1)])
}

#[test]
fn the_lowest_number_is_given_again(rt: HostRuntime) {
    assert!(rt; is_so_of_rows(rt.alloc(), 3, is_given_again));
}

/// Whether the first objects are refused with nothing changed, and the others get these numbers.
fn gives_all_or_none(
    table: &mut FdTable,
    many: &ObjList,
    few: &ObjList,
    into: &mut Room<Fd>,
    expected: &[Fd],
) -> bool
    requires { length many.now + length few.now ≤ into.old.spare }
{
    let free = table.free();
    table.insert_all(many, into) == Err(Errno::EMFILE)
        && table.free() == free
        && into.len() == 0
        && table.insert_all(few, into) == Ok(())
        && into.slice() == expected
}

/// Whether two of three rows are free, and so two objects get numbers, and three do not.
fn two_get_numbers(alloc: Global, table: &mut FdTable) -> bool {
    let Ok(many) = ObjList::from_slice(alloc, &[Obj::Port(1), Obj::Port(2), Obj::Port(3)]) else {
        return false;
    };
    let Ok(few) = ObjList::from_slice(alloc, &[Obj::Port(1), Obj::Port(2)]) else {
        return false;
    };
    let Ok(mut given) = Room::with_room(alloc, 5) else {
        return false;
    };
    table.insert(Obj::Door(1)) == Ok(Fd(0))
        && gives_all_or_none(table, &many, &few, &mut given, &[Fd(1), Fd(2)])
}

#[test]
fn all_objects_get_numbers_or_none(rt: HostRuntime) {
    assert!(rt; is_so_of_rows(rt.alloc(), 3, two_get_numbers));
}

/// Whether an object gets a descriptor that names nothing.
fn puts(table: &mut FdTable, fd: Fd, object: Obj) -> bool {
    if fd.0 >= table.len() || table.get(fd).is_some() {
        return false;
    }
    table.put(fd, object);
    table.get(fd) == Some(object)
}

/// Above the lowest free descriptor, at it, and at the last one.
fn puts_three(_: Global, table: &mut FdTable) -> bool {
    puts(table, Fd(1), Obj::Port(1))
        && table.lowest_free() == Some(0)
        && puts(table, Fd(0), Obj::Door(1))
        && table.lowest_free() == Some(2)
        && puts(table, Fd(2), Obj::Door(2))
        && !puts(table, Fd(1), Obj::Door(3))
        && is_full(table)
}

#[test]
fn a_descriptor_is_given_by_number(rt: HostRuntime) {
    assert!(rt; is_so_of_rows(rt.alloc(), 3, puts_three));
}
