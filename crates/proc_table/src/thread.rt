//! What becomes of one thread, and what is asked of one.
ghost use Rattle.std.specs.Prelude.{◌≡◌};
ghost use Rattle.spec_records.specs.Words.{begun_thread, cancelled_thread, ended_thread, idle_thread, interrupted_thread, is_active, is_active_of, is_calling, is_first_of, is_idle, thread_at_state, thread_in_invocation, thread_outside};
ghost use Rattle.proc_table.specs.Ends.{ended_where_of};

use dk_base::number::{Pid, Tid};
use dk_base::object::{Inv, Item};
use spec_records::record::{Thread, ThreadState};

/// Whether a thread at this keeps its process from ending.
pub fn is_active(state: &ThreadState) -> bool
    ensures { result ≡ is_active state.now }
{
    !matches!(state, ThreadState::Done | ThreadState::Dormant)
}

/// Whether a thread at this is parked.
pub fn is_idle(state: &ThreadState) -> bool
    ensures { result ≡ is_idle state.now }
{
    matches!(state, ThreadState::Idle { .. })
}

/// Whether this is a thread of process `p` that is neither Done nor Dormant.
pub fn is_active_of(thread: &Thread, p: Pid) -> bool
    ensures { result ≡ is_active_of p.0 thread.now }
{
    thread.process.0 == p.0 && is_active(&thread.state)
}

/// Whether this is a thread of process `p` that is no spare.
pub fn is_first_of(thread: &Thread, p: Pid) -> bool
    ensures { result ≡ is_first_of p.0 thread.now }
{
    thread.process.0 == p.0 && !thread.spare
}

/// It runs, where it is one of process `p` and no spare: the process begins.
pub fn begin_where_first(thread: &mut Thread, p: Pid)
    ensures { thread.new ≡ begun_thread p.0 thread.old }
{
    if is_first_of(thread, p) {
        thread.state = ThreadState::Running;
    }
}

/// Whether a thread at this waits for a call.
pub fn is_calling(state: &ThreadState) -> bool
    ensures { result ≡ is_calling state.now }
{
    matches!(state, ThreadState::Calling { .. })
}

/// It turns to another state.
pub fn turn(thread: &mut Thread, state: ThreadState)
    ensures { thread.new ≡ thread_at_state state thread.old }
{
    thread.state = state;
}

/// It enters the invocation of an item.
pub fn enter(thread: &mut Thread, item: Item)
    ensures { thread.new ≡ thread_in_invocation item thread.old }
{
    thread.invocation = Some(Inv {
        item,
        cancelled: false,
    });
    thread.state = ThreadState::Running;
}

/// Its invocation ends, and it goes on.
pub fn end_invocation(thread: &mut Thread)
    ensures { thread.new ≡ thread_outside thread.old }
{
    thread.invocation = None;
}

/// It is in no invocation any more, and turns to another state.
fn leave(thread: &mut Thread, state: ThreadState)
    ensures { thread.new ≡ record thread.old { invocation = None; state = state } }
{
    end_invocation(thread);
    thread.state = state;
}

/// Its invocation ends, and it is parked.
pub fn park(thread: &mut Thread, since: u64)
    ensures { thread.new ≡ idle_thread since thread.old }
{
    leave(thread, ThreadState::Idle { since });
}

/// It ends.
pub fn end(thread: &mut Thread)
    ensures { thread.new ≡ ended_thread thread.old }
{
    leave(thread, ThreadState::Done);
}

/// It ends where it is one of process `p`.
pub fn end_where_of(thread: &mut Thread, p: Pid)
    ensures { thread.new ≡ ended_where_of p.0 thread.old }
{
    if thread.process.0 == p.0 {
        end(thread);
    }
}

/// The flag of its invocation is set, if it is in one.
pub fn cancel(thread: &mut Thread)
    ensures { thread.new ≡ cancelled_thread thread.old }
{
    if let Some(invocation) = thread.invocation {
        thread.invocation = Some(Inv {
            item: invocation.item,
            cancelled: true,
        });
    }
}

/// Its wait for the events of a port is marked, if it is at one.
pub fn interrupt(thread: &mut Thread)
    ensures { thread.new ≡ interrupted_thread thread.old }
{
    if let ThreadState::Getting { interrupted, .. } = &mut thread.state {
        *interrupted = true;
    }
}
