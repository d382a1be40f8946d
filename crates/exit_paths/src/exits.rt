//! The exit paths.
ghost use Rattle.std.specs.Prelude.{◌≡◌, ◌≤◌, ℕ, IfOk, OnErr, is_some, true};
ghost use Rattle.dk_base.specs.ByNumber.{at_number};
ghost use Rattle.spec_records.specs.Words.{forking, interruption, process_end, revocation, thread_end};
ghost use Rattle.exit_paths.specs.Words.{AreLost, CanExit, HasExited, IsAsBefore, in_transit};

use crate::calls::{end_all, end_caller, end_server, leave_call, refuse_lost};
use crate::fates::{
    are_few, desert_server, deserted_by, end_thread, fellow_callers, leave_threads, make_room,
    parked_of, room_for_server, servers_of, touched_by, woken_of,
};
use crate::left::Left;
use crate::marks::{has_turned, is_idle_thread, list_new, list_one, room_for_all, room_for_one};
use crate::queues::{drop_doors, room_for_items, withdraw_all, withdraw_caller, withdraw_callers};
use call_tree::calls::Calls;
use call_tree::laws::parts_of_leaving;
use call_tree::parts::Leave;
use dk_base::error::NoMemory;
use dk_base::list::{ItemList, Room, TidList};
use dk_base::number::{Pid, Tid};
use dk_base::thread_set::ThreadSet;
use door_object::doors::Doors;
use fork_step::forking::fork_calls;
use proc_table::procs::Procs;
use server_pool::pools::Pools;
use spec_records::leaving::Leaver;
use std::alloc::Global;

/// A thread is interrupted: its call ends EINTR, unless it was returned or has ended, and its wait for the events of a port is marked.
/// The thread that was given the call is parked again; the one that is in it is told so by its flag, unless the call's door has
/// DOOR_NO_CANCEL (door_create(3C)). Want of memory leaves all as it was.
pub fn interrupt(
    alloc: Global,
    procs: &mut Procs,
    calls: &mut Calls,
    pools: &mut Pools,
    doors: &Doors,
    t: Tid,
    step: u64,
) -> Result<Left, NoMemory>
    requires { CanExit step doors.now.items (record { procs = procs.old; calls = calls.old; pools = pools.old }) }
    ensures left { IfOk result (HasExited (interruption t.0) step doors.now.items (record { procs = procs.old; calls = calls.old; pools = pools.old }) (record { procs = procs.new; calls = calls.new; pools = pools.new })) }
    ensures as_before { OnErr result (IsAsBefore (record { procs = procs.old; calls = calls.old; pools = pools.old }) (record { procs = procs.new; calls = calls.new; pools = pools.new })) }
{
    calls.are_sound();
    are_few(procs);
    parts_of_leaving();
    let deserted = deserted_by(calls, t);
    room_for_server(pools, procs, deserted)?;
    let parked = room_for_one(alloc)?;
    let woken = room_for_one(alloc)?;
    let server = parked_of(deserted, t);
    let was_idle = is_idle_thread(procs, server);
    let was_ready = calls.ready(t);
    withdraw_caller(pools, doors, calls, t);
    procs.interrupt(t);
    desert_server(procs, pools, deserted, step);
    let dropped = leave_call(alloc, calls, t, Leave::Interrupted);
    let parks = has_turned(was_idle, is_idle_thread(procs, server));
    let wakes = has_turned(was_ready, calls.ready(t));
    Ok(Left {
        dropped,
        parked: list_one(parked, server, parks),
        woken: list_one(woken, t, wakes),
        untaken: ItemList::new(alloc),
    })
}

/// A thread forks: the calls of the other threads of its process end EINTR, each as for `interrupt`. At most `carried` objects are in
/// transit with calls. Want of memory leaves all as it was.
pub fn fork_exit(
    alloc: Global,
    procs: &mut Procs,
    calls: &mut Calls,
    pools: &mut Pools,
    doors: &Doors,
    t: Tid,
    step: u64,
    carried: usize,
) -> Result<Left, NoMemory>
    requires can { CanExit step doors.now.items (record { procs = procs.old; calls = calls.old; pools = pools.old }) }
    requires carried { in_transit calls.old.tree.calls ≤ carried }
    ensures left { IfOk result (HasExited (forking procs.old t.0) step doors.now.items (record { procs = procs.old; calls = calls.old; pools = pools.old }) (record { procs = procs.new; calls = calls.new; pools = pools.new })) }
    ensures as_before { OnErr result (IsAsBefore (record { procs = procs.old; calls = calls.old; pools = pools.old }) (record { procs = procs.new; calls = calls.new; pools = pools.new })) }
{
    calls.are_sound();
    are_few(procs);
    parts_of_leaving();
    let callers = fellow_callers(procs, t);
    let touched = servers_of(procs, calls, callers);
    make_room(pools, procs, touched)?;
    let parked = room_for_all(alloc)?;
    let woken = room_for_all(alloc)?;
    let mut given = room_for_all(alloc)?;
    let mut cancelled = room_for_all(alloc)?;
    let mut those = room_for_all(alloc)?;
    let mut dropped = Room::with_room(alloc, carried)?;
    let was_idle = procs.idle();
    let was_ready = calls.collecting();
    callers.list(&mut those);
    withdraw_callers(pools, doors, calls, callers);
    leave_threads(
        procs,
        pools,
        Leaver::Forked { thread: t },
        callers,
        calls,
        touched,
        step,
    );
    fork_calls(
        calls,
        &those.into_list(),
        &mut dropped,
        &mut given,
        &mut cancelled,
    );
    Ok(Left {
        dropped: dropped.into_list(),
        parked: list_new(parked, was_idle, procs.idle()),
        woken: list_new(woken, was_ready, calls.collecting()),
        untaken: ItemList::new(alloc),
    })
}

/// A thread ends, and its process goes on: its call is forgotten, as for `interrupt` for the thread that serves it, and the call that it
/// serves ends EINTR. At most `carried` objects are in transit with calls. Want of memory leaves all as it was.
pub fn thread_exit(
    alloc: Global,
    procs: &mut Procs,
    calls: &mut Calls,
    pools: &mut Pools,
    doors: &Doors,
    t: Tid,
    step: u64,
    carried: usize,
) -> Result<Left, NoMemory>
    requires can { CanExit step doors.now.items (record { procs = procs.old; calls = calls.old; pools = pools.old }) }
    requires carried { in_transit calls.old.tree.calls ≤ carried }
    ensures left { IfOk result (HasExited (thread_end t.0) step doors.now.items (record { procs = procs.old; calls = calls.old; pools = pools.old }) (record { procs = procs.new; calls = calls.new; pools = pools.new })) }
    ensures as_before { OnErr result (IsAsBefore (record { procs = procs.old; calls = calls.old; pools = pools.old }) (record { procs = procs.new; calls = calls.new; pools = pools.new })) }
{
    calls.are_sound();
    are_few(procs);
    parts_of_leaving();
    let deserted = deserted_by(calls, t);
    room_for_server(pools, procs, deserted)?;
    let parked = room_for_one(alloc)?;
    let woken = room_for_one(alloc)?;
    let mut dropped = Room::with_room(alloc, carried)?;
    let server = parked_of(deserted, t);
    let client = woken_of(calls, t);
    let was_idle = is_idle_thread(procs, server);
    let was_ready = calls.ready(client);
    withdraw_caller(pools, doors, calls, t);
    desert_server(procs, pools, deserted, step);
    end_thread(procs, pools, t);
    end_caller(alloc, calls, t, &mut dropped);
    end_server(calls, t, &mut dropped);
    let parks = has_turned(was_idle, is_idle_thread(procs, server));
    let wakes = has_turned(was_ready, calls.ready(client));
    Ok(Left {
        dropped: dropped.into_list(),
        parked: list_one(parked, server, parks),
        woken: list_one(woken, client, wakes),
        untaken: ItemList::new(alloc),
    })
}

/// A process ends with all its threads and doors. `lost` are the numbers of its doors at which something may wait: calls there end
/// EBADF, and notices leave their queues. The process itself, and its doors, end by the calls that end these. Want of memory leaves all
/// as it was.
pub fn proc_exit(
    alloc: Global,
    procs: &mut Procs,
    calls: &mut Calls,
    pools: &mut Pools,
    doors: &Doors,
    p: Pid,
    lost: &[u32],
    step: u64,
    carried: usize,
) -> Result<Left, NoMemory>
    requires can { CanExit step doors.now.items (record { procs = procs.old; calls = calls.old; pools = pools.old }) }
    requires declared { is_some (at_number procs.old.processes p.0) ≡ true }
    requires lost { AreLost (process_end procs.old doors.now.items p.0) lost.now pools.old }
    requires carried { in_transit calls.old.tree.calls ≤ carried }
    ensures left { IfOk result (HasExited (process_end procs.old doors.now.items p.0) step doors.now.items (record { procs = procs.old; calls = calls.old; pools = pools.old }) (record { procs = procs.new; calls = calls.new; pools = pools.new })) }
    ensures as_before { OnErr result (IsAsBefore (record { procs = procs.old; calls = calls.old; pools = pools.old }) (record { procs = procs.new; calls = calls.new; pools = pools.new })) }
{
    calls.are_sound();
    are_few(procs);
    parts_of_leaving();
    let touched = touched_by(procs, calls, p);
    make_room(pools, procs, touched)?;
    let parked = room_for_all(alloc)?;
    let woken = room_for_all(alloc)?;
    let mut dropped = Room::with_room(alloc, carried)?;
    let mut untaken = room_for_items(alloc, pools, doors, lost)?;
    let was_idle = procs.idle();
    let was_ready = calls.collecting();
    let who = Leaver::EndedProcess { process: p };
    drop_doors(pools, doors, lost, &mut untaken);
    withdraw_all(pools, doors, calls, procs, p);
    leave_threads(procs, pools, who, ThreadSet::new(), calls, touched, step);
    refuse_lost(calls, doors, who, untaken.slice(), &mut dropped);
    end_all(alloc, calls, procs, p, &mut dropped);
    Ok(Left {
        dropped: dropped.into_list(),
        parked: list_new(parked, was_idle, procs.idle()),
        woken: list_new(woken, was_ready, calls.collecting()),
        untaken: untaken.into_list(),
    })
}

/// A door is revoked (door_revoke(3C)): calls that wait there end EBADF, and notices leave their queues. Calls and notices that were
/// given or entered go on. Threads that are parked at it wake by what follows every act. Want of memory leaves all as it was.
pub fn revoke_all(
    alloc: Global,
    procs: &Procs,
    calls: &mut Calls,
    pools: &mut Pools,
    doors: &Doors,
    d: u32,
    carried: usize,
) -> Result<Left, NoMemory>
    requires can { (now : ℕ) × CanExit now doors.now.items (record { procs = procs.now; calls = calls.old; pools = pools.old }) }
    requires carried { in_transit calls.old.tree.calls ≤ carried }
    ensures left { (step : ℕ) → IfOk result (HasExited (revocation d) step doors.now.items (record { procs = procs.now; calls = calls.old; pools = pools.old }) (record { procs = procs.now; calls = calls.new; pools = pools.new })) }
    ensures as_before { OnErr result (IsAsBefore (record { procs = procs.now; calls = calls.old; pools = pools.old }) (record { procs = procs.now; calls = calls.new; pools = pools.new })) }
{
    calls.are_sound();
    parts_of_leaving();
    let woken = room_for_all(alloc)?;
    let mut dropped = Room::with_room(alloc, carried)?;
    let mut untaken = room_for_items(alloc, pools, doors, &[d])?;
    let was_ready = calls.collecting();
    let who = Leaver::Revoked { door: d };
    drop_doors(pools, doors, &[d], &mut untaken);
    refuse_lost(calls, doors, who, untaken.slice(), &mut dropped);
    Ok(Left {
        dropped: dropped.into_list(),
        parked: TidList::new(alloc),
        woken: list_new(woken, was_ready, calls.collecting()),
        untaken: untaken.into_list(),
    })
}
