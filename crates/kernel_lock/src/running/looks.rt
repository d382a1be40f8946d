//! What a look under the lock found, for the time after it. By such values a driver goes on, waits and leaves; only the methods of
//! what lies under the lock make them.
ghost use Rattle.std.specs.Prelude.{◌≡◌, true, false, None};
ghost use Rattle.spec_kernel.specs.Words.{is_runnable};
ghost use Rattle.sys_run.specs.Sys.{state_of_run};
ghost use Rattle.kernel_lock.specs.Ends.{first_runnable_of, has_ended, is_member};

use dk_base::number::Tid;
use dk_base::outside::Gate;
use std::snapshot::Snapshot;
use sys_run::asked::SharedRun;

/// A run that went on. It serves for one pass of the gate.
#[derive(Drop)]
pub struct GoesOn<S: SharedRun> {
    run: Snapshot<S>,
    ghost goes_on: { has_ended (S.run run.value) false ≡ false },
}

/// A run that had ended: it was over, or was stopped.
#[derive(Drop)]
pub struct Ended<S: SharedRun> {
    run: Snapshot<S>,
    /// Whether it was stopped, since memory was wanting.
    pub stopped: bool,
    ghost ended: { has_ended (S.run run.value) stopped ≡ true },
}

/// A run that went on, and a thread of it that was not runnable, so that its driver waits once.
#[derive(Drop)]
pub struct Idle<S: SharedRun> {
    run: Snapshot<S>,
    thread: Tid,
    ghost goes_on: { has_ended (S.run run.value) false ≡ false },
    ghost not_runnable: { is_runnable (state_of_run (S.run run.value)) thread.0 ≡ false },
}

/// A run that went on, and in which no thread whose start was refused was runnable, so that the calling thread waits once.
#[derive(Drop)]
pub struct AllIdle<S: SharedRun> {
    run: Snapshot<S>,
    marks: Snapshot<Vec<Tid>>,
    ghost goes_on: { has_ended (S.run run.value) false ≡ false },
    ghost none_runnable: { first_runnable_of (state_of_run (S.run run.value)) marks.value.items ≡ None },
}

/// The mark of a thread whose start was refused.
#[derive(Drop)]
pub struct Marked {
    marks: Snapshot<Vec<Tid>>,
    /// The thread.
    pub thread: Tid,
    ghost marked: { is_member marks.value.items thread.0 ≡ true },
}

/// Why a driver leaves.
#[derive(Drop)]
pub enum Left<S: SharedRun> {
    /// The run had ended.
    Ended(Ended<S>),
    /// The start of its thread was refused.
    Refused(Marked),
}

impl<S: SharedRun> GoesOn<S> {
    /// A look at a run that goes on.
    pub(super) fn seen(run: &S) -> Self
        requires { has_ended (S.run run.now) false ≡ false }
        ensures { result.run.value ≡ run.now }
    {
        GoesOn {
            run: Snapshot::of(run),
        }
    }

    /// Passes the gate, which may wait. A later pass needs a later look.
    pub(crate) fn pass<G: Gate>(self, gate: &G, t: Tid) {
        let GoesOn { run: _ } = self;
        gate.pass(t);
    }
}

impl<S: SharedRun> Ended<S> {
    /// A look at a run that has ended.
    pub(super) fn seen(run: &S, stopped: bool) -> Self
        requires { has_ended (S.run run.now) stopped ≡ true }
        ensures run { result.run.value ≡ run.now }
        ensures stopped { result.stopped ≡ stopped }
    {
        Ended {
            run: Snapshot::of(run),
            stopped,
        }
    }
}

impl<S: SharedRun> Idle<S> {
    /// A look at a run that goes on, and at a thread that is not runnable.
    pub(super) fn seen(run: &S, thread: Tid) -> Self
        requires goes_on { has_ended (S.run run.now) false ≡ false }
        requires not_runnable { is_runnable (state_of_run (S.run run.now)) thread.0 ≡ false }
        ensures run { result.run.value ≡ run.now }
        ensures thread { result.thread ≡ thread }
    {
        Idle {
            run: Snapshot::of(run),
            thread,
        }
    }

    /// The thread, whose driver waits now. A later wait needs a later look.
    pub(crate) fn into_thread(self) -> Tid
        ensures { result ≡ self.thread }
    {
        let Idle { run: _, thread } = self;
        thread
    }
}

impl<S: SharedRun> AllIdle<S> {
    /// A look at a run that goes on, and at the marks, no thread of which is runnable.
    pub(super) fn seen(run: &S, marks: &Vec<Tid>) -> Self
        requires goes_on { has_ended (S.run run.now) false ≡ false }
        requires none_runnable { first_runnable_of (state_of_run (S.run run.now)) marks.now.items ≡ None }
        ensures run { result.run.value ≡ run.now }
        ensures marks { result.marks.value ≡ marks.now }
    {
        AllIdle {
            run: Snapshot::of(run),
            marks: Snapshot::of(marks),
        }
    }
}

impl Marked {
    /// A look at the marks, of which one is the thread's.
    pub(super) fn seen(marks: &Vec<Tid>, thread: Tid) -> Self
        requires { is_member marks.now.items thread.0 ≡ true }
        ensures marks { result.marks.value ≡ marks.now }
        ensures thread { result.thread ≡ thread }
    {
        Marked {
            marks: Snapshot::of(marks),
            thread,
        }
    }
}
