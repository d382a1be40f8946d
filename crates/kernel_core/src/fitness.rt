//! Which requests are fit.
ghost use Rattle.std.specs.Prelude.{◌≡◌, ◌↔◌, Some, true};
ghost use Rattle.spec_records.specs.Words.{pid};
ghost use Rattle.spec_kernel.specs.Words.{IsFit, parent_of, process_of};
ghost use Rattle.kernel_store.specs.Words.{stored_state};

use dk_base::limits::{ADVANCE_MAX, ANSWER_ITEMS_MAX, CLOCK_MAX, DATA_MAX, DELAY_MAX};
use dk_base::number::{Pid, Tid};
use dk_base::request::Request;
use kernel_store::store::Store;

/// Whether the threads and processes that a request of a thread names are there, and its counts are in range.
pub fn is_fit(store: &Store, t: Tid, request: &Request) -> bool
    ensures { (result ≡ true) ↔ IsFit (stored_state store.now) t.0 request.now }
{
    match request {
        Request::Interrupt { thread } => 1 <= thread.0
            && thread.0 <= store.processes().thread_count(),
        Request::Kill { process } => 1 <= process.0
            && process.0 <= store.processes().process_count(),
        Request::Fork { child } => is_child_of_own(store, t, *child),
        Request::Read { max, .. } => 1 <= *max && *max as usize <= DATA_MAX,
        Request::GetN { max, .. } => *max <= ANSWER_ITEMS_MAX,
        Request::TimerSet {
            first,
            interval,
            ..
        } => *first <= DELAY_MAX && *interval <= DELAY_MAX,
        Request::Advance { by } => 1 <= *by && *by <= ADVANCE_MAX && store.clock() <= CLOCK_MAX,
        _ => true,
    }
}

/// Whether a process is a child of the process of a thread.
fn is_child_of_own(store: &Store, t: Tid, child: Pid) -> bool
    ensures { (result ≡ true) ↔ (parent_of (stored_state store.now) child.0 ≡ Some (pid (process_of (stored_state store.now) t.0))) }
{
    match store.processes().parent_of(child) {
        Some(parent) => parent.0 == store.processes().process_of(t).0,
        None => false,
    }
}
