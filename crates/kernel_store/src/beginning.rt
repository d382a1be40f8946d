//! Threads of child processes, as they are made and as they begin (fork(2)).
ghost use Rattle.std.specs.Prelude.{◌≡◌, ◌||◌, ◌+◌, ◌++◌, ◌∷◌, [], filter, length, true, OnErr, OnOk};
ghost use Rattle.dk_base.specs.ByNumber.{at_number};
ghost use Rattle.spec_records.specs.Words.{is_live_in, is_unborn_in, new_thread_where};
ghost use Rattle.server_pool.specs.Words.{change_spares};
ghost use Rattle.kernel_store.specs.Forking.{stays_spare};

use dk_base::error::ProcFault;
use dk_base::number::{Pid, Tid};
use proc_table::procs::Procs;
use server_pool::pools::Pools;

/// Whether a thread that is made is Dormant: a spare one, or one of a process that has not begun.
pub fn begins_dormant(processes: &Procs, p: Pid, spare: bool) -> bool
    ensures { result ≡ (spare || is_unborn_in (at_number processes.now.processes p.0)) }
{
    spare || processes.is_unborn(p)
}

/// Another thread of a process that lives or has not begun, under the next number. Want of memory changes nothing.
pub fn add_thread(processes: &mut Procs, p: Pid, spare: bool) -> Result<Tid, ProcFault>
    requires { (is_live_in (at_number processes.old.processes p.0) || is_unborn_in (at_number processes.old.processes p.0)) ≡ true }
    ensures ok { OnOk result (processes.new ≡ record processes.old { threads = processes.old.threads ++ new_thread_where (is_unborn_in (at_number processes.old.processes p.0)) (length processes.old.threads + 1) p.0 spare ∷ [] }) }
    ensures err { OnErr result (processes.new ≡ processes.old) }
{
    if processes.is_unborn(p) {
        return processes.add_unborn_thread(p, spare);
    }
    processes.add_thread(p, spare)
}

/// The threads of a child process that are no spares, which run from now on, are none in the pools. It takes no memory.
pub fn withdraw_firsts(pools: &mut Pools, processes: &Procs, child: Pid)
    ensures { pools.new ≡ change_spares pools.old child.0 (filter (stays_spare processes.now child.0)) }
{
    let mut rest = processes.threads_of(child);
    while let Some(t) = rest.least() {
        rest.put(t, false);
        if !processes.is_spare(t) {
            pools.withdraw_spare(child, t);
        }
    }
}
