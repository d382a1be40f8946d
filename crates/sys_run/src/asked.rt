//! What is asked of a run that threads share.

use dk_base::error::NoMemory;
use dk_base::list::TidList;
use dk_base::number::Tid;
use work_ops::task::{Done, Task};

/// A run that threads share, as its lock asks it. It is a trait so that the lock names no run, whose type tells of all parts of the
/// kernel. Its methods are those of `Sys`.
pub trait SharedRun: Drop {
    ghost use Rattle.std.specs.Prelude.{◌≡◌, ◌↔◌, ◌<◌, IsTrue, true, length, IfOk, OnOk, OnErr};
    ghost use Rattle.spec_kernel.specs.Words.{is_runnable};
    ghost use Rattle.spec_scripts.specs.Words.{is_over};
    ghost use Rattle.sys_run.specs.Sys.{IsJournal, SysValue, WorksOn, history, is_working, state_of_run, threads_woken_by, with_turn};

    /// The script with the journal of the events so far.
    ghost run: { Self → SysValue };

    /// How many threads the script declares.
    fn threads(&self) -> u32
        ensures { result ≡ length (run self.now).script.threads };

    /// Whether a thread can take a turn; false for a thread that the script does not declare.
    fn runnable(&self, t: Tid) -> bool
        ensures { result ≡ is_runnable (state_of_run (run self.now)) t.0 };

    /// Whether a thread is at a task; false for a thread that the script does not declare.
    fn working(&self, t: Tid) -> bool
        ensures { result ≡ is_working (state_of_run (run self.now)) t.0 };

    /// Whether a thread is at the task that was done.
    fn works_on(&self, t: Tid, done: &Done) -> bool
        ensures { IsTrue result ↔ WorksOn (run self.now) t.0 done.now };

    /// No thread is runnable, or the budget is used up.
    fn over(&self) -> bool
        ensures { result ≡ is_over (run self.now).script (history (run self.now)) };

    /// How many events there were.
    fn events(&self) -> u32
        ensures count { result ≡ length (run self.now).journal }
        ensures journal { IsJournal (run self.now) };

    /// A thread's task, to be done apart from the run.
    fn lend(&self, t: Tid) -> Result<Task, NoMemory>
        requires { is_working (state_of_run (run self.now)) t.0 ≡ true }
        ensures { IfOk result (λ task. WorksOn (run self.now) t.0 task) };

    /// One turn of a thread: exactly its event is appended. Answers, in order, the threads that were not runnable before
    /// and are now. Want of memory leaves all as it was.
    fn step(&mut self, t: Tid) -> Result<TidList, NoMemory>
        requires can { is_runnable (state_of_run (run self.old)) t.0 ≡ true }
        requires left { length (run self.old).journal < (run self.old).script.budget }
        ensures event { OnOk result (run self.new ≡ with_turn (run self.old) t.0) }
        ensures woken { IfOk result (λ woken. woken ≡ threads_woken_by (run self.old) t.0) }
        ensures err { OnErr result (run self.new ≡ run self.old) };

    /// The turn of a thread at whose task `done` is: exactly its event is appended. Answers, in order, the threads that were not
    /// runnable before and are now. Want of memory leaves all as it was.
    fn hand_in(&mut self, t: Tid, done: Done) -> Result<TidList, NoMemory>
        requires works { WorksOn (run self.old) t.0 done }
        requires left { length (run self.old).journal < (run self.old).script.budget }
        ensures event { OnOk result (run self.new ≡ with_turn (run self.old) t.0) }
        ensures woken { IfOk result (λ woken. woken ≡ threads_woken_by (run self.old) t.0) }
        ensures err { OnErr result (run self.new ≡ run self.old) };
}
