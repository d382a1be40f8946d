//! Which thread runs, and at which thread a walk along the calls ends.
ghost use Rattle.std.specs.Prelude.{◌≡◌};
ghost use Rattle.spec_kernel.specs.Words.{is_running_state, root};
ghost use Rattle.kernel_store.specs.Words.{stored_state};

use dk_base::number::Tid;
use kernel_store::store::Store;
use spec_records::record::ThreadState;

pub fn is_running_state(state: &ThreadState) -> bool
    ensures { result ≡ is_running_state state.now }
{
    matches!(state, ThreadState::Running)
}

/// The end of the walk from a thread to the caller of the call that it serves, and so on.
pub fn root(store: &Store, t: Tid) -> Tid
    ensures { result.0 ≡ root (stored_state store.now) t.0 }
{
    store.calls().root_of(t)
}
