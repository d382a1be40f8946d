//! The parts of a fork.
ghost use Rattle.std.specs.Prelude.{◌≡◌, ◌+◌, ◌<◌, ◌≤◌, ◌++◌, [], false, None, IfSome, flat_map, length};
ghost use Rattle.std.specs.List.{list_any};
ghost use Rattle.std.specs.Option.{option_to_list};
ghost use Rattle.spec_records.specs.Words.{object_named, objects_of, with_row};
ghost use Rattle.spec_records.specs.declared.pool.Pool.{Pool};
ghost use Rattle.server_pool.specs.Words.{is_thread, stack_in};
ghost use Rattle.call_tree.specs.Words.{transit_in};
ghost use Rattle.fork_step.specs.Forking.{abandon_each, after_one, bindings_of_child, cancelled_by_each, cancelled_by_one, dropped_by_each, dropped_by_one, parked_by_each, parked_by_one};

use call_tree::calls::Calls;
use call_tree::parts::Leave;
use dk_base::list::{Room, TidList};
use dk_base::number::{Fd, Tid};
use dk_base::object::Obj;
use fd_table::table::FdTable;
use server_pool::pools::Pools;

/// What a descriptor names in the table of the parent, if it names something, gets the same number in that of the child, and follows
/// what is in `added`.
fn fork_row(parent: &FdTable, child: &mut FdTable, fd: Fd, added: &mut Room<Obj>)
    requires below { fd.0 < length child.old }
    requires free { object_named child.old fd ≡ None }
    requires room { length (option_to_list (object_named parent.now fd)) ≤ added.old.spare }
    ensures row { child.new ≡ with_row child.old fd.0 (object_named parent.now fd) }
    ensures added { added.new.items ≡ added.old.items ++ option_to_list (object_named parent.now fd) }
    ensures spare { added.old.spare ≤ added.new.spare + length (option_to_list (object_named parent.now fd)) }
{
    match parent.get(fd) {
        Some(object) => {
            child.put(fd, object);
            added.push(object);
        }
        None => {}
    }
}

/// The table of a child, which has no row, gets the rows of its parent's under the same numbers. What they name follows what is in
/// `added`, in order of number. It takes no memory.
pub fn fork_rows(parent: &FdTable, child: &mut FdTable, added: &mut Room<Obj>)
    requires none { objects_of child.old ≡ [] }
    requires limits { length child.old ≡ length parent.now }
    requires room { length (objects_of parent.now) ≤ added.old.spare }
    ensures rows { child.new ≡ parent.now }
    ensures added { added.new.items ≡ added.old.items ++ objects_of parent.now }
    ensures spare { added.old.spare ≤ added.new.spare + length (objects_of parent.now) }
{
    for number in 0..parent.len() {
        fork_row(parent, child, Fd(number), added);
    }
}

/// A thread follows what is in a list, if there is one.
fn push_if_some(list: &mut Room<Tid>, t: Option<Tid>)
    requires { 0 < list.old.spare }
    ensures items { list.new.items ≡ list.old.items ++ option_to_list t }
    ensures spare { list.old.spare ≤ list.new.spare + 1 }
{
    if let Some(t) = t {
        list.push(t);
    }
}

/// A caller is interrupted: it leaves the call in which it waits, if it waits in one.
fn fork_call(
    calls: &mut Calls,
    t: Tid,
    dropped: &mut Room<Obj>,
    parked: &mut Room<Tid>,
    cancelled: &mut Room<Tid>,
)
    requires dropped_room { length (flat_map transit_in calls.old.tree.calls) ≤ dropped.old.spare }
    requires parked_room { 0 < parked.old.spare }
    requires cancelled_room { 0 < cancelled.old.spare }
    ensures tree { calls.new.tree ≡ after_one calls.old.tree t }
    ensures dropped { dropped.new.items ≡ dropped.old.items ++ dropped_by_one calls.old.tree t }
    ensures parked { parked.new.items ≡ parked.old.items ++ parked_by_one calls.old.tree t }
    ensures cancelled { cancelled.new.items ≡ cancelled.old.items ++ cancelled_by_one calls.old.tree t }
    ensures spare { calls.old.spare ≤ calls.new.spare }
    ensures dropped_left { length (flat_map transit_in calls.new.tree.calls) ≤ dropped.new.spare }
    ensures parked_left { parked.old.spare ≤ parked.new.spare + 1 }
    ensures cancelled_left { cancelled.old.spare ≤ cancelled.new.spare + 1 }
{
    calls.are_sound();
    let Some(_) = calls.called_by(t) else {
        return;
    };
    let left = calls.abandon(t, Leave::Interrupted);
    dropped.append(left.dropped.slice());
    push_if_some(parked, left.parked);
    push_if_some(cancelled, left.cancelled);
}

/// Each of these callers is interrupted, one after the other: it leaves the call in which it waits, if it waits in one. What is no
/// longer in transit, the threads that were given their calls, and those that are in them and are to be told so, follow what is in
/// the lists. It takes no memory.
pub fn fork_calls(
    calls: &mut Calls,
    callers: &TidList,
    dropped: &mut Room<Obj>,
    parked: &mut Room<Tid>,
    cancelled: &mut Room<Tid>,
)
    requires dropped_room { length (flat_map transit_in calls.old.tree.calls) ≤ dropped.old.spare }
    requires parked_room { length callers.now ≤ parked.old.spare }
    requires cancelled_room { length callers.now ≤ cancelled.old.spare }
    ensures tree { calls.new.tree ≡ abandon_each calls.old.tree callers.now }
    ensures dropped { dropped.new.items ≡ dropped.old.items ++ dropped_by_each calls.old.tree callers.now }
    ensures parked { parked.new.items ≡ parked.old.items ++ parked_by_each calls.old.tree callers.now }
    ensures cancelled { cancelled.new.items ≡ cancelled.old.items ++ cancelled_by_each calls.old.tree callers.now }
    ensures spare { calls.old.spare ≤ calls.new.spare }
{
    for t in callers.slice() {
        fork_call(calls, *t, dropped, parked, cancelled);
    }
}

/// Where the thread that forks is bound to a door, the first thread of the child, which is not parked, is bound to the one that is
/// lost (door_bind(3C)).
pub fn fork_binding(pools: &mut Pools, t: Tid, first: Option<Tid>)
    requires { IfSome first (λ u. (pool : Pool) → list_any (is_thread u.0) (stack_in pools.old pool) ≡ false) }
    ensures { pools.new ≡ record pools.old { bindings = bindings_of_child pools.old.bindings t.0 first } }
{
    if pools.bound(t).is_none() {
        return;
    }
    if let Some(first) = first {
        pools.bind_lost(first);
    }
}
