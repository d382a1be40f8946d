//! What waits in pools and does so no longer.
ghost use Rattle.std.specs.Prelude.{◌≡◌, ℕ, ◌≤◌, ◌++◌, ◌==◌, ◌&&◌, [], Bool, IfOk, find, false, length, true};
ghost use Rattle.std.specs.List.{list_any};
ghost use Rattle.dk_base.specs.ByNumber.{at_number};
ghost use Rattle.dk_base.specs.declared.limits.TheConstants.{THREADS_MAX};
ghost use Rattle.dk_base.specs.Words.{has};
ghost use Rattle.spec_records.specs.Words.{is_pool, pool_in};
ghost use Rattle.spec_kernel.specs.Types.{Pool, Waiting};
ghost use Rattle.server_pool.specs.Words.{is_waiting_at};
ghost use Rattle.call_tree.specs.Words.{is_called_by};
ghost use Rattle.exit_paths.specs.Queues.{Dropped, is_at_lost, is_call_of, is_call_of_any, is_queued_at, waiting_total};
ghost use Rattle.exit_paths.specs.Words.{HaveLeft, is_thread_of};

use call_tree::calls::Calls;
use call_tree::stage::is_queued;
use dk_base::error::NoMemory;
use dk_base::list::Room;
use dk_base::number::{Pid, Tid};
use dk_base::object::Item;
use dk_base::thread_set::ThreadSet;
use door_object::doors::Doors;
use proc_table::procs::Procs;
use proc_table::walk::Walk;
use server_pool::pools::Pools;
use spec_records::record::Call;
use std::alloc::Global;

/// A call leaves the pool of its door, if it waits there. The call itself stays as it is.
fn withdraw_call(pools: &mut Pools, doors: &Doors, call: &Call)
    ensures { HaveLeft (is_queued_at doors.now.items call.now) pools.old pools.new }
{
    if is_queued(&call.stage) {
        let pool = doors.pool_of(call.door);
        pools.withdraw(pool, Item::Call(call.number));
    }
}

/// The call in which a thread waits leaves the pool of its door, if it waits there. The call itself stays as it is.
pub fn withdraw_caller(pools: &mut Pools, doors: &Doors, calls: &Calls, t: Tid)
    ensures { HaveLeft (is_call_of doors.now.items (find (is_called_by t.0) calls.now.tree.calls)) pools.old pools.new }
{
    if let Some(call) = calls.called_by(t) {
        withdraw_call(pools, doors, call);
    }
}

/// The calls of the threads of a process leave the pools in which they wait.
pub fn withdraw_all(pools: &mut Pools, doors: &Doors, calls: &Calls, procs: &Procs, p: Pid)
    ensures { HaveLeft (is_call_of_any doors.now.items calls.now.tree.calls (is_thread_of procs.now p.0) (length procs.now.threads)) pools.old pools.new }
{
    let threads = procs.threads_of(p);
    let mut walk = Walk::over(threads);
    while let Some(t) = walk.next() {
        withdraw_caller(pools, doors, calls, t);
    }
}

/// The calls of these callers leave the pools in which they wait.
pub fn withdraw_callers(pools: &mut Pools, doors: &Doors, calls: &Calls, callers: ThreadSet)
    ensures { HaveLeft (is_call_of_any doors.now.items calls.now.tree.calls (has callers) THREADS_MAX) pools.old pools.new }
{
    let mut walk = Walk::over(callers);
    while let Some(t) = walk.next() {
        withdraw_caller(pools, doors, calls, t);
    }
}

/// How many items wait at these doors, where the number can be told.
fn count_waiting(pools: &Pools, doors: &Doors, lost: &[u32]) -> Result<usize, NoMemory>
    ensures { IfOk result (λ n. n ≡ waiting_total doors.now.items pools.now lost.now) }
{
    let mut total = 0usize;
    for d in lost {
        match total.checked_add(pools.waiting_at(doors.pool_of(*d), *d)) {
            Some(next) => total = next,
            None => return Err(NoMemory),
        }
    }
    Ok(total)
}

/// Room for all items that wait at these doors.
pub fn room_for_items(
    alloc: Global,
    pools: &Pools,
    doors: &Doors,
    lost: &[u32],
) -> Result<Room<Item>, NoMemory>
    ensures empty { IfOk result (λ room. room.items ≡ []) }
    ensures spare { IfOk result (λ room. waiting_total doors.now.items pools.now lost.now ≤ room.spare) }
{
    let total = count_waiting(pools, doors, lost)?;
    Room::with_room(alloc, total)
}

/// The items that wait at doors that are lost leave their pools, and are listed. The calls and notices themselves stay as they are. It
/// takes no memory.
pub fn drop_doors(pools: &mut Pools, doors: &Doors, lost: &[u32], into: &mut Room<Item>)
    requires { waiting_total doors.now.items pools.old lost.now ≤ into.old.spare }
    ensures left { HaveLeft (is_at_lost doors.now.items lost.now) pools.old pools.new }
    ensures told { Dropped doors.now.items lost.now pools.old into.old.items into.new.items }
{
    for d in lost {
        pools.drop_items(doors.pool_of(*d), *d, into);
    }
}
