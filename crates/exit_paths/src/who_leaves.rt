//! Who leaves, of threads and of doors, and the pool in which a thread parks.
ghost use Rattle.std.specs.Prelude.{◌≡◌, List};
ghost use Rattle.dk_base.specs.ByNumber.{at_number};
ghost use Rattle.spec_records.specs.Words.{ProcessTable, is_owned_by, leaving_of};
ghost use Rattle.spec_kernel.specs.Types.{Door};
ghost use Rattle.exit_paths.specs.Words.{own_pool_in};

use dk_base::number::{Pid, Tid};
use door_object::doors::Doors;
use proc_table::procs::Procs;
use server_pool::pools::Pools;
use spec_records::leaving::Leaver;
use spec_records::pool::Pool;

/// Whether a thread ends.
pub fn ends(who: Leaver, processes: &Procs, t: Tid) -> bool
    ensures { (doors : List Door) → result ≡ (leaving_of processes.now doors who).ends t.0 }
{
    match who {
        Leaver::Ended { thread } => t.0 == thread.0,
        Leaver::EndedProcess { process } => processes.process_of(t).0 == process.0,
        _ => false,
    }
}

/// Whether a process made a door.
fn is_owned(doors: &Doors, d: u32, p: Pid) -> bool
    ensures { result ≡ is_owned_by p.0 (at_number doors.now.items d) }
{
    match doors.door(d) {
        Some(door) => door.owner.0 == p.0,
        None => false,
    }
}

/// Whether a door becomes invalid.
pub fn loses(who: Leaver, doors: &Doors, d: u32) -> bool
    ensures { (table : ProcessTable) → result ≡ (leaving_of table doors.now.items who).loses d }
{
    match who {
        Leaver::EndedProcess { process } => is_owned(doors, d, process),
        Leaver::Revoked { door } => d == door,
        _ => false,
    }
}

/// The pool in which a thread parks. Of the door that is lost there is none.
pub fn own_pool(processes: &Procs, pools: &Pools, t: Tid) -> Pool
    ensures { result ≡ own_pool_in processes.now pools.now.bindings t.0 }
{
    match pools.bound(t) {
        Some(door) => Pool::Private(door),
        None => Pool::Common(processes.process_of(t)),
    }
}
