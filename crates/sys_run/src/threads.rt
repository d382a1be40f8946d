//! What the threads of a kernel are at, all together.
ghost use Rattle.std.specs.Prelude.{◌≡◌, IfOk};
ghost use Rattle.spec_kernel.specs.Words.{is_waiting_state, waiting_threads};
ghost use Rattle.sys_run.specs.Threads.{is_any};

use dk_base::error::NoMemory;
use dk_base::list::TidList;
use dk_base::number::Tid;
use kernel_core::kernel::Kernel;
use spec_records::record::ThreadState;
use std::alloc::Global;

fn is_waiting(state: &ThreadState) -> bool
    ensures { result ≡ is_waiting_state state.now }
{
    matches!(
        state,
        ThreadState::Calling { .. } | ThreadState::Getting { .. } | ThreadState::Awaiting { .. }
    )
}

/// The threads that are Calling, Getting or Awaiting, in order.
pub(crate) fn all_waiting(alloc: Global, kernel: &Kernel) -> Result<TidList, NoMemory>
    ensures { IfOk result (λ waiting. waiting ≡ waiting_threads kernel.now) }
{
    let mut waiting = TidList::new(alloc);
    for below in 0..kernel.threads() {
        let t = Tid(below + 1);
        if is_waiting(kernel.state(t)) {
            waiting.push(t)?;
        }
    }
    Ok(waiting)
}

/// Whether some thread is Calling, Getting or Awaiting.
pub(crate) fn is_any_waiting(kernel: &Kernel) -> bool
    ensures { result ≡ is_any (waiting_threads kernel.now) }
{
    let mut any = false;
    for below in 0..kernel.threads() {
        any = any || is_waiting(kernel.state(Tid(below + 1)));
    }
    any
}
