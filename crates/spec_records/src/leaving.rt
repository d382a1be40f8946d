//! Who leaves its calls.
use dk_base::number::{Pid, Tid};

/// Who leaves a call, or what can be called no more.
#[derive(Clone, Copy)]
pub enum Leaver {
    /// A thread is interrupted, and goes on.
    Interrupted { thread: Tid },
    /// A thread ends, and its process goes on.
    Ended { thread: Tid },
    /// A process ends, with all its threads and doors.
    EndedProcess { process: Pid },
    /// A door is revoked (door_revoke(3C)).
    Revoked { door: u32 },
    /// A thread forks: the other threads of its process are interrupted that wait for calls.
    Forked { thread: Tid },
}
