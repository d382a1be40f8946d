//! Which threads wait for a path that a door is attached to.
ghost use Rattle.std.specs.Prelude.{◌≡◌, ◌≢◌, ◌<◌, ◌≤◌, ℕ, is_some};
ghost use Rattle.dk_base.specs.declared.limits.TheConstants.{THREADS_MAX};
ghost use Rattle.dk_base.specs.declared.number.PathId.{PathId};
ghost use Rattle.spec_records.specs.declared.record.ThreadState.TheVariants as is;
ghost use Rattle.spec_records.specs.Words.{name_in, state_in, thread_at};
ghost use Rattle.dk_base.specs.Words.{has};
ghost use Rattle.kernel_store.specs.Turning.{KnowsPaths, is_found_at};

use dk_base::number::Tid;
use dk_base::thread_set::ThreadSet;
use name_space::names::Names;
use proc_table::procs::Procs;
use spec_records::record::ThreadState;

/// Whether a thread at this waits for a path that a door is attached to.
fn is_found(names: &Names, state: &ThreadState) -> bool
    ensures { result ≡ is_found_at names.now.names state.now }
{
    match state {
        ThreadState::Awaiting { path } => names.has(*path),
        _ => false,
    }
}

/// A thread turns to another state, and no name comes or goes.
pub fn note_turn(named: &mut ThreadSet, names: &Names, t: Tid, state: &ThreadState)
    requires { (0 < t.0) × (t.0 ≤ THREADS_MAX) }
    ensures here { has named.new t.0 ≡ is_found_at names.now.names state.now }
    ensures others { (u : ℕ) → u ≢ t.0 → has named.new u ≡ has named.old u }
{
    named.put(t, is_found(names, state));
}

/// A name came or went: of the threads that wait for a path, those where a door is attached to it.
pub fn find_all(processes: &Procs, names: &Names) -> ThreadSet
    ensures { KnowsPaths processes.now names.now.names result }
{
    let mut named = ThreadSet::new();
    let mut rest = processes.awaiting();
    while let Some(t) = rest.least() {
        rest.put(t, false);
        named.put(t, is_found(names, processes.state(t)));
    }
    named
}
