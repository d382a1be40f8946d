//! What a look under the lock gives.
use crate::running::looks::{AllIdle, Ended, GoesOn, Idle};
use dk_base::list::TidList;
use dk_base::number::Tid;
use sys_run::asked::SharedRun;
use work_ops::task::Task;

/// Whom to notify after a turn.
#[derive(Drop)]
pub struct ToNotify {
    /// The threads that were not runnable before and are now.
    pub woken: TidList,
    /// Whether the calling thread drives one of them.
    pub calling: bool,
    /// Whether the run is over, so that all are notified.
    pub over: bool,
}

/// What a driver finds under the lock.
#[derive(Drop)]
pub enum Turn<S: SharedRun> {
    /// It took one turn.
    Taken(ToNotify),
    /// Its thread is at this task, which it is to compute without the lock.
    Works(Task),
    /// Its thread is not runnable, and the run goes on.
    Waits(Idle<S>),
    /// The run is over, or was stopped.
    Ended,
}

/// What came of a task that a driver computed.
#[derive(Drop)]
pub enum HandedIn {
    /// It ended its thread's task, which is one turn.
    Taken(ToNotify),
    /// Its thread is not at this task any more, and the run goes on.
    Dropped,
    /// The run is over, or was stopped.
    Ended,
}

/// What the calling thread finds under the lock.
#[derive(Drop)]
pub enum Next<S: SharedRun> {
    /// This thread, whose start was refused, is runnable, and the run goes on.
    Runnable(Tid, GoesOn<S>),
    /// None of them is runnable, and the run goes on.
    Waits(AllIdle<S>),
    /// The run is over, or was stopped.
    Ended(Ended<S>),
}
