//! What a child gets as it begins, and what its parent's callers lose.
ghost use Rattle.std.specs.Prelude.{◌≡◌, ◌≤◌, [], true, flat_map, length};
ghost use Rattle.spec_records.specs.declared.pool.Pool.{Pool};
ghost use Rattle.spec_records.specs.Words.{objects_of};
ghost use Rattle.call_tree.specs.Words.{transit_in};
ghost use Rattle.server_pool.specs.Words.{stack_in};

use crate::descriptors::is_so_of_rows;
use call_tree::calls::Calls;
use call_tree::parts::{Args, Outcome};
use dk_base::error::Errno;
use dk_base::list::{Bytes, ObjList, Room, TidList};
use dk_base::number::{Fd, Tid};
use dk_base::object::Obj;
use fd_table::table::FdTable;
use fork_step::forking::{fork_binding, fork_calls, fork_rows};
use server_pool::pools::Pools;
use std::alloc::Global;

/// Whether descriptors 0 and 2 are given, and 1 is free.
fn gives_two(table: &mut FdTable) -> bool {
    table.insert(Obj::Door(1)) == Ok(Fd(0))
        && table.insert(Obj::Port(1)) == Ok(Fd(1))
        && table.insert(Obj::Door(2)) == Ok(Fd(2))
        && table.remove(Fd(1)) == Ok(Obj::Port(1))
}

/// Whether the child has the two rows of its parent, and they are told.
fn are_copied(parent: &FdTable, child: &mut FdTable, added: &mut Room<Obj>) -> bool
    requires none { objects_of child.old ≡ [] }
    requires room { 3 ≤ added.old.spare }
{
    if parent.len() != 3 || child.len() != 3 {
        return false;
    }
    fork_rows(parent, child, added);
    child.get(Fd(0)) == Some(Obj::Door(1))
        && child.get(Fd(2)) == Some(Obj::Door(2))
        && child.lowest_free() == Some(1)
        && child.free() == 1
        && added.slice() == [Obj::Door(1), Obj::Door(2)].as_slice()
}

/// Whether a child with three rows gets those of its parent.
fn is_forked(alloc: Global, parent: &mut FdTable) -> bool {
    let (Ok(mut child), Ok(mut added)) = (FdTable::new(alloc, 3), Room::with_room(alloc, 3)) else {
        return false;
    };
    gives_two(parent) && are_copied(parent, &mut child, &mut added)
}

#[test]
fn rows_are_copied_under_their_numbers(rt: HostRuntime) {
    assert!(rt; is_so_of_rows(rt.alloc(), 3, is_forked));
}

/// The first call, of thread 1, with two objects.
fn opens_first(alloc: Global, calls: &mut Calls) -> bool
    requires { calls.old.tree ≡ record { made = 0; calls = [] } }
    ensures { result ≡ true → length (flat_map transit_in calls.new.tree.calls) ≤ 2 }
{
    if calls.reserve().is_err() {
        return false;
    }
    let Ok(objects) = ObjList::from_slice(alloc, &[Obj::Door(1), Obj::Port(2)]) else {
        return false;
    };
    let bytes = Bytes::new(alloc);
    calls.open_call(Tid(1), 3, Args { bytes, objects }, 0, false, 1);
    true
}

/// Whether thread 1 is interrupted, and thread 2, which waits in no call, is as it was.
fn are_interrupted(
    calls: &mut Calls,
    callers: &TidList,
    dropped: &mut Room<Obj>,
    given: &mut Room<Tid>,
    cancelled: &mut Room<Tid>,
) -> bool
    requires dropped { length (flat_map transit_in calls.old.tree.calls) ≤ dropped.old.spare }
    requires given { length callers.now ≤ given.old.spare }
    requires cancelled { length callers.now ≤ cancelled.old.spare }
{
    fork_calls(calls, callers, dropped, given, cancelled);
    dropped.slice() == [Obj::Door(1), Obj::Port(2)].as_slice()
        && given.len() == 0
        && cancelled.len() == 0
        && calls.ready(Tid(1))
        && matches!(calls.collect(Tid(1)), Outcome::Ended(Errno::EINTR))
        && calls.len() == 0
}

/// Whether a call is made, and its caller is interrupted.
fn is_caller_interrupted(alloc: Global, calls: &mut Calls, callers: &TidList) -> bool
    requires tree { calls.old.tree ≡ record { made = 0; calls = [] } }
    requires few { length callers.now ≤ 2 }
{
    if !opens_first(alloc, calls) {
        return false;
    }
    let (Ok(mut dropped), Ok(mut given), Ok(mut cancelled)) = (
        Room::with_room(alloc, 2),
        Room::with_room(alloc, 2),
        Room::with_room(alloc, 2),
    ) else {
        return false;
    };
    are_interrupted(calls, callers, &mut dropped, &mut given, &mut cancelled)
}

/// The same of new calls, and of two threads.
fn is_one_of_two_interrupted(alloc: Global) -> bool {
    match TidList::from_slice(alloc, &[Tid(1), Tid(2)]) {
        Ok(callers) => is_caller_interrupted(alloc, &mut Calls::new(alloc), &callers),
        Err(_) => false,
    }
}

#[test]
fn callers_are_interrupted(rt: HostRuntime) {
    assert!(rt; is_one_of_two_interrupted(rt.alloc()));
}

/// Whether the first thread of a child is bound to the door that is lost, where its parent's thread is bound to one.
fn is_bound_to_lost(pools: &mut Pools) -> bool
    requires { (pool : Pool) → stack_in pools.old pool ≡ [] }
{
    fork_binding(pools, Tid(1), Some(Tid(2)));
    if pools.bound(Tid(2)).is_some() {
        return false;
    }
    pools.bind(Tid(1), 7);
    fork_binding(pools, Tid(1), Some(Tid(2)));
    pools.unbind(Tid(2)) == Ok(0) && pools.bound(Tid(1)) == Some(7)
}

/// The same of new pools.
fn is_bound_to_lost_at_first(alloc: Global) -> bool {
    match Pools::new(alloc) {
        Ok(mut pools) => is_bound_to_lost(&mut pools),
        Err(_) => false,
    }
}

#[test]
fn a_child_is_bound_to_the_lost_door(rt: HostRuntime) {
    assert!(rt; is_bound_to_lost_at_first(rt.alloc()));
}
