//! Which exit path is taken.
ghost use Rattle.std.specs.Prelude.{◌≡◌, ◌≤◌, IfOk, OnErr};
ghost use Rattle.spec_records.specs.Words.{leaving_of};
ghost use Rattle.exit_paths.specs.Words.{CanExit, HasExited, IsAsBefore, in_transit};
ghost use Rattle.kernel_holdings.specs.Words.{CanEnd};

use call_tree::calls::Calls;
use dk_base::error::NoMemory;
use door_object::doors::Doors;
use exit_paths::exits::{fork_exit, interrupt, proc_exit, revoke_all, thread_exit};
use exit_paths::left::Left;
use proc_table::procs::Procs;
use server_pool::pools::Pools;
use spec_records::leaving::Leaver;
use std::alloc::Global;

/// Callers, threads and doors leave, of which it is told. At most `carried` objects are in transit with calls. Want of memory leaves
/// all as it was.
pub fn leave(
    alloc: Global,
    who: Leaver,
    procs: &mut Procs,
    calls: &mut Calls,
    pools: &mut Pools,
    doors: &Doors,
    lost: &[u32],
    step: u64,
    carried: usize,
) -> Result<Left, NoMemory>
    requires can { CanExit step doors.now.items (record { procs = procs.old; calls = calls.old; pools = pools.old }) }
    requires ends { CanEnd who lost.now procs.old doors.now.items pools.old }
    requires carried { in_transit calls.old.tree.calls ≤ carried }
    ensures left { IfOk result (HasExited (leaving_of procs.old doors.now.items who) step doors.now.items (record { procs = procs.old; calls = calls.old; pools = pools.old }) (record { procs = procs.new; calls = calls.new; pools = pools.new })) }
    ensures as_before { OnErr result (IsAsBefore (record { procs = procs.old; calls = calls.old; pools = pools.old }) (record { procs = procs.new; calls = calls.new; pools = pools.new })) }
{
    match who {
        Leaver::Interrupted { thread } => interrupt(
            alloc, procs, calls, pools, doors, thread, step,
        ),
        Leaver::Ended { thread } => thread_exit(
            alloc, procs, calls, pools, doors, thread, step, carried,
        ),
        Leaver::EndedProcess { process } => proc_exit(
            alloc, procs, calls, pools, doors, process, lost, step, carried,
        ),
        Leaver::Revoked { door } => revoke_all(alloc, procs, calls, pools, doors, door, carried),
        Leaver::Forked { thread } => fork_exit(
            alloc, procs, calls, pools, doors, thread, step, carried,
        ),
    }
}
