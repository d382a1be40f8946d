//! Why nothing was done.

#[derive(Clone, Copy, PartialEq, Eq)]
pub enum Refusal {
    /// The kernel has had its last event.
    Full,
    /// A thread that is not there, or does not run, cannot enter.
    NotRunning,
    /// A thread that is not there, or runs, or whose wait cannot end, cannot go on.
    NotReady,
    /// There is no such operation, a number is out of its range, or something that is named is not there.
    NotFit,
    NoMemory,
}

/// Why there is no kernel.
#[derive(Clone, Copy, PartialEq, Eq)]
pub enum Unopened {
    /// There are too many processes or threads, a limit is too great, or a parent does not stand before its child.
    NoOpening,
    NoMemory,
    NoRoom,
}
