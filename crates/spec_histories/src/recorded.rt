//! What is asked of a kernel whose turns are a history.

use crate::opening::{OpeningProcess, OpeningThread};
use dk_base::answer::Answer;
use dk_base::error::NoMemory;
use dk_base::event::What;
use dk_base::list::TidList;
use dk_base::number::Tid;
use dk_base::request::Request;
use std::alloc::Global;

/// A kernel with the history of its turns, which is stated and not stored. The readers tell of the state at its end.
pub trait RecordsHistory: Drop {
    ghost use Rattle.std.specs.Prelude.{◌≡◌, ◌↔◌, ◌≤◌, IfOk, None, OnOk, Some, length, nat_lt, true};
    ghost use Rattle.std.specs.Option.{option_map};
    ghost use Rattle.dk_base.specs.declared.limits.TheConstants.{CLOCK_MAX, EVENTS_MAX, THREADS_MAX};
    ghost use Rattle.spec_kernel.specs.Words.{IsFit, MayTurn, is_runnable, is_running, least_runnable, root, waiting_threads, what_of};
    ghost use Rattle.spec_histories.specs.Histories.{History, IsHistory, begun, end, grown, next};
    ghost use Rattle.spec_histories.specs.Openings.{opening_of};

    /// The history so far.
    ghost history: { Self → History };

    /// A kernel of these processes and threads, which begins a history. Memory lacks where they are more than a kernel has, and where a
    /// parent does not stand before its child, or a thread's process is none of them.
    fn open(
        alloc: Global,
        processes: &[OpeningProcess],
        threads: &[OpeningThread],
    ) -> Result<Self, NoMemory>
        ensures begins { IfOk result (λ kernel. history kernel ≡ begun (opening_of processes.now threads.now)) };

    /// The history is legal, whatever was answered before. It does nothing.
    fn legal(&self)
        ensures { IsHistory (history self.now) };

    /// How many events there were.
    fn events(&self) -> u64
        ensures state { result ≡ (end (history self.now)).events }
        ensures few { result ≤ EVENTS_MAX };

    /// Whether the clock has passed the latest from which it moves.
    fn is_late(&self) -> bool
        ensures state { result ≡ nat_lt CLOCK_MAX (end (history self.now)).channels.timers.clock };

    /// Whether a thread runs, or its wait can end.
    fn runnable(&self, thread: Tid) -> bool
        ensures state { result ≡ is_runnable (end (history self.now)) thread.0 };

    fn is_running(&self, thread: Tid) -> bool
        ensures state { result ≡ is_running (end (history self.now)) thread.0 };

    /// Whether the threads and processes that a request of a thread names are there, and its counts are in range.
    fn fits(&self, thread: Tid, request: &Request) -> bool
        ensures state { (result ≡ true) ↔ IsFit (end (history self.now)) thread.0 request.now };

    /// The end of the walk from a thread to the caller of the call that it serves, and so on.
    fn root(&self, thread: Tid) -> Tid
        ensures state { result.0 ≡ root (end (history self.now)) thread.0 };

    /// The word of the end of a thread's wait.
    fn what_of_wait(&self, thread: Tid) -> What
        ensures state { result ≡ what_of (end (history self.now)) thread.0 None };

    /// The least thread that can take a turn, if one can.
    fn least_runnable(&self) -> Option<Tid>
        ensures state { option_map (λ t. t.0) result ≡ least_runnable (end (history self.now)) };

    /// The threads that wait in a call, at a port or for a path, in order.
    fn waiting(&self, alloc: Global) -> Result<TidList, NoMemory>
        ensures state { IfOk result (λ waiting. waiting ≡ waiting_threads (end (history self.now))) }
        ensures few { IfOk result (λ waiting. length waiting ≤ THREADS_MAX) };

    /// A thread that runs enters the kernel.
    fn enter(&mut self, thread: Tid, request: Request) -> Result<Answer, NoMemory>
        requires { MayTurn (end (history self.old)) thread.0 (Some request) }
        ensures done { OnOk result (history self.new ≡ grown (history self.old) (next (history self.old) thread.0 (Some request))) }
        ensures told { IfOk result (λ answer. answer ≡ (next (history self.old) thread.0 (Some request)).answer) };

    /// The wait of a thread ends.
    fn go_on(&mut self, thread: Tid) -> Result<Answer, NoMemory>
        requires { MayTurn (end (history self.old)) thread.0 None }
        ensures done { OnOk result (history self.new ≡ grown (history self.old) (next (history self.old) thread.0 None)) }
        ensures told { IfOk result (λ answer. answer ≡ (next (history self.old) thread.0 None).answer) };
}
