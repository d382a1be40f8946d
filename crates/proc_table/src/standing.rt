//! Which threads can take a turn by what they are at alone, which wait for a path or at a port, which are parked, and which keep their
//! processes from ending.
ghost use Rattle.std.specs.Prelude.{◌≡◌, ◌<◌, ◌≤◌, [], length};
ghost use Rattle.dk_base.specs.declared.limits.TheConstants.{THREADS_MAX};
ghost use Rattle.proc_table.specs.Standing.{AreNoted, IsNotedAt, goes_on, is_awaiting, is_getting};

use crate::thread::{is_active, is_idle};
use dk_base::number::Tid;
use dk_base::thread_set::ThreadSet;
use spec_records::record::{Thread, ThreadState};

/// Of all threads, those that can take a turn by what they are at alone, those that wait for a path, those that wait at a port and were
/// not interrupted, those that are parked, and those that are neither Done nor Dormant.
#[derive(Clone, Copy)]
pub struct Standing {
    pub going: ThreadSet,
    pub awaiting: ThreadSet,
    pub getting: ThreadSet,
    pub idle: ThreadSet,
    pub active: ThreadSet,
}

/// Whether a thread at this can take a turn, whatever calls and names there are.
fn goes_on(state: &ThreadState) -> bool
    ensures { result ≡ goes_on state.now }
{
    match state {
        ThreadState::Running
        | ThreadState::Given { .. }
        | ThreadState::Working { .. }
        | ThreadState::FailedReturn => true,
        ThreadState::Getting { interrupted, .. } => *interrupted,
        ThreadState::Dormant
        | ThreadState::Idle { .. }
        | ThreadState::Calling { .. }
        | ThreadState::Awaiting { .. }
        | ThreadState::Done => false,
    }
}

fn is_awaiting(state: &ThreadState) -> bool
    ensures { result ≡ is_awaiting state.now }
{
    matches!(state, ThreadState::Awaiting { .. })
}

fn is_getting(state: &ThreadState) -> bool
    ensures { result ≡ is_getting state.now }
{
    match state {
        ThreadState::Getting { interrupted, .. } => !*interrupted,
        _ => false,
    }
}

impl Standing {
    /// Of no thread.
    pub fn new() -> Self
        ensures { AreNoted result [] }
    {
        Standing {
            going: ThreadSet::new(),
            awaiting: ThreadSet::new(),
            getting: ThreadSet::new(),
            idle: ThreadSet::new(),
            active: ThreadSet::new(),
        }
    }

    /// A thread is at this from now on.
    pub fn note(&mut self, t: Tid, state: &ThreadState)
        requires { (0 < t.0) × (t.0 ≤ THREADS_MAX) }
        ensures { IsNotedAt t.0 state.now self.old self.new }
    {
        self.going.put(t, goes_on(state));
        self.awaiting.put(t, is_awaiting(state));
        self.getting.put(t, is_getting(state));
        self.idle.put(t, is_idle(state));
        self.active.put(t, is_active(state));
    }

    /// Of these threads, numbered from 1.
    pub fn of(threads: &[Thread]) -> Self
        requires { length threads.now ≤ THREADS_MAX }
        ensures { AreNoted result threads.now }
    {
        let mut standing = Standing::new();
        for i in 0..threads.len() {
            standing.note(Tid(i as u32 + 1), &threads[i].state);
        }
        standing
    }
}
