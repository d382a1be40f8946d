//! Exit paths of a kernel without a process: nothing is told, and nothing is refused for want of memory.
ghost use Rattle.std.specs.Prelude.{◌≡◌, ◌≤◌};
ghost use Rattle.exit_paths.specs.Words.{CanExit, in_transit};

use call_tree::calls::Calls;
use dk_base::error::NoMemory;
use dk_base::number::Tid;
use door_object::doors::Doors;
use exit_paths::exits::{fork_exit, interrupt, revoke_all, thread_exit};
use exit_paths::left::Left;
use proc_table::procs::Procs;
use server_pool::pools::Pools;
use std::alloc::Global;

fn is_silent(left: &Result<Left, NoMemory>) -> bool {
    match left {
        Ok(left) => {
            left.dropped.is_empty()
                && left.parked.is_empty()
                && left.woken.is_empty()
                && left.untaken.is_empty()
        }
        Err(_) => false,
    }
}

/// What nobody is there for: a thread that is not there is interrupted, ends or forks, or a door that is not there is revoked.
enum Exit {
    Interrupt,
    End,
    Fork,
    Revocation,
}

static EXITS: [Exit; 4] = [Exit::Interrupt, Exit::End, Exit::Fork, Exit::Revocation];

fn leave(
    alloc: Global,
    procs: &mut Procs,
    calls: &mut Calls,
    pools: &mut Pools,
    doors: &Doors,
    exit: &Exit,
) -> Result<Left, NoMemory>
    requires can { CanExit 0 doors.now.items (record { procs = procs.old; calls = calls.old; pools = pools.old }) }
    requires carried { in_transit calls.old.tree.calls ≤ 0 }
{
    match exit {
        Exit::Interrupt => interrupt(alloc, procs, calls, pools, doors, Tid(1), 0),
        Exit::End => thread_exit(alloc, procs, calls, pools, doors, Tid(1), 0, 0),
        Exit::Fork => fork_exit(alloc, procs, calls, pools, doors, Tid(1), 0, 0),
        Exit::Revocation => revoke_all(alloc, procs, calls, pools, doors, 1, 0),
    }
}

/// Whether nothing is left behind.
fn leaves_nothing(
    alloc: Global,
    procs: &mut Procs,
    calls: &mut Calls,
    pools: &mut Pools,
    doors: &Doors,
    exit: &Exit,
) -> bool
    requires can { CanExit 0 doors.now.items (record { procs = procs.old; calls = calls.old; pools = pools.old }) }
    requires carried { in_transit calls.old.tree.calls ≤ 0 }
{
    is_silent(&leave(alloc, procs, calls, pools, doors, exit))
}

fn tells_nothing(alloc: Global, exit: &Exit) -> bool {
    let Ok(mut pools) = Pools::new(alloc) else {
        return false;
    };
    let mut procs = Procs::new(alloc);
    let mut calls = Calls::new(alloc);
    let doors = Doors::new(alloc);
    leaves_nothing(alloc, &mut procs, &mut calls, &mut pools, &doors, exit)
}

#[test]
fn nothing_is_told_of_nobody(rt: HostRuntime) {
    for exit in &EXITS {
        assert!(rt; tells_nothing(rt.alloc(), exit));
    }
}
