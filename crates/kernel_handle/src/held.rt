//! The kernel with the history of its turns, with no type parameter.
ghost use Rattle.std.specs.Prelude.{◌≡◌, ◌↔◌, ◌≤◌, IfErr, IfOk, None, OnErr, OnOk, Some, length, true};
ghost use Rattle.std.specs.Option.{option_map};
ghost use Rattle.dk_base.specs.declared.limits.TheConstants.{EVENTS_MAX, THREADS_MAX};
ghost use Rattle.spec_kernel.specs.Words.{IsFit, is_runnable, is_running, least_runnable, now, root, state_of, waiting_threads};
ghost use Rattle.spec_kernel.specs.Small.{IsSmall};
ghost use Rattle.spec_histories.specs.Histories.{IsHistory, begun, end, grown, next};
ghost use Rattle.spec_histories.specs.Openings.{opening_of};
ghost use Rattle.kernel_handle.specs.Openings.{IsNoOpening};
ghost use Rattle.kernel_handle.specs.Shapes.{processes_of, threads_of};
ghost use Rattle.kernel_handle.specs.Told.{IsRefused, entry_told};

use crate::opening::{NotOpening, open};
use crate::recorder::{Recorder, Refused, Told};
use crate::shape::{ProcessShape, processes_of, threads_of};
use dk_base::error::NoMemory;
use dk_base::limits::PROCESSES_MAX;
use dk_base::list::TidList;
use dk_base::number::Tid;
use dk_base::request::Request;
use kernel_core::kernel::Kernel;
use spec_histories::opening::{OpeningProcess, OpeningThread};
use spec_records::record::ThreadState;
use std::alloc::Global;
use std::marker::Model;

/// Contracts see it as the history, which is legal.
pub struct Held {
    recorder: Recorder<Kernel>,
}

/// By hand, so that dropping it is one call for its holder, who would otherwise drop each of its parts.
impl Drop for Held {
    fn drop(self) {
        let Held { recorder: _ } = self;
    }
}

impl Model for Held {
    ghost use Rattle.spec_histories.specs.Histories.{History};

    ghost Value = { History };

    ghost view = { λ h. h.recorder };
}

impl Held {
    /// A history begins with these processes and threads, which are numbered from 1 by their places.
    pub fn open(
        alloc: Global,
        processes: &[OpeningProcess],
        threads: &[OpeningThread],
    ) -> Result<Held, NotOpening>
        ensures begins { IfOk result (λ held. held ≡ begun (opening_of processes.now threads.now)) }
        ensures legal { IfOk result IsHistory }
        ensures refused { IfErr result (IsNoOpening processes.now threads.now) }
    {
        let kernel = open(alloc, processes, threads)?;
        Ok(Held {
            recorder: Recorder::new(kernel),
        })
    }

    /// A history begins with processes of these shapes.
    pub fn of_shapes(alloc: Global, shapes: &[ProcessShape]) -> Result<Held, NotOpening>
        ensures begins { IfOk result (λ held. held ≡ begun (opening_of (processes_of shapes.now) (threads_of shapes.now))) }
        ensures legal { IfOk result IsHistory }
        ensures refused { IfErr result (IsNoOpening (processes_of shapes.now) (threads_of shapes.now)) }
    {
        if shapes.len() > PROCESSES_MAX as usize {
            return Err(NotOpening::ManyProcesses);
        }
        let threads = threads_of(alloc, shapes)?;
        let processes = processes_of(alloc, shapes)?;
        Held::open(alloc, &processes, &threads)
    }

    /// A thread that runs enters the kernel. Where it is refused, nothing changed.
    pub fn enter(&mut self, thread: Tid, request: Request) -> Result<Told, Refused>
        ensures done { OnOk result (self.new ≡ grown self.old (next self.old thread.0 (Some request))) }
        ensures told { IfOk result (λ told. entry_told thread.0 (Some request) told ≡ next self.old thread.0 (Some request)) }
        ensures small { IfOk result (λ told. IsSmall (Some request) told.stepped.answer) }
        ensures few { IfOk result (λ told. length told.stepped.woken ≤ THREADS_MAX) }
        ensures legal { IsHistory self.new }
        ensures same { OnErr result (self.new ≡ self.old) }
        ensures refused { IfErr result (λ why. IsRefused (end self.old) thread.0 (Some request) why) }
    {
        self.recorder.enter(thread, request)
    }

    /// The wait of a thread ends. Where it is refused, nothing changed.
    pub fn go_on(&mut self, thread: Tid) -> Result<Told, Refused>
        ensures done { OnOk result (self.new ≡ grown self.old (next self.old thread.0 None)) }
        ensures told { IfOk result (λ told. entry_told thread.0 None told ≡ next self.old thread.0 None) }
        ensures small { IfOk result (λ told. IsSmall None told.stepped.answer) }
        ensures few { IfOk result (λ told. length told.stepped.woken ≤ THREADS_MAX) }
        ensures legal { IsHistory self.new }
        ensures same { OnErr result (self.new ≡ self.old) }
        ensures refused { IfErr result (λ why. IsRefused (end self.old) thread.0 None why) }
    {
        self.recorder.go_on(thread)
    }

    // readers, all of the state at the end of the history

    /// The history is legal, whatever was answered before.
    pub fn legal(&self)
        ensures { IsHistory self.now }
    {
        self.recorder.legal();
    }

    /// How many events there were.
    pub fn events(&self) -> u64
        ensures entries { result ≡ length self.now.entries }
        ensures state { result ≡ (end self.now).events }
        ensures few { result ≤ EVENTS_MAX }
    {
        self.recorder.events()
    }

    /// The number that the next event has.
    pub fn number(&self) -> u64
        ensures { result ≡ now (end self.now) }
    {
        self.recorder.number()
    }

    /// The clock of the timers.
    pub fn clock(&self) -> u64
        ensures { result ≡ (end self.now).channels.timers.clock }
    {
        self.recorder.clock()
    }

    /// How many threads there are, ended ones and spares with them.
    pub fn threads(&self) -> u32
        ensures count { result ≡ length (end self.now).process_table.threads }
        ensures few { result ≤ THREADS_MAX }
    {
        self.recorder.threads()
    }

    /// Whether a thread runs, or its wait can end.
    pub fn runnable(&self, thread: Tid) -> bool
        ensures { result ≡ is_runnable (end self.now) thread.0 }
    {
        self.recorder.runnable(thread)
    }

    pub fn is_running(&self, thread: Tid) -> bool
        ensures { result ≡ is_running (end self.now) thread.0 }
    {
        self.recorder.is_running(thread)
    }

    /// What a thread is at. A number that no thread has reads as Done.
    pub fn state(&self, thread: Tid) -> &ThreadState
        ensures { result.now ≡ state_of (end self.now) thread.0 }
    {
        self.recorder.state(thread)
    }

    /// The end of the walk from a thread to the caller of the call that it serves, and so on.
    pub fn root(&self, thread: Tid) -> Tid
        ensures { result.0 ≡ root (end self.now) thread.0 }
    {
        self.recorder.root(thread)
    }

    /// Whether the threads and processes that a request of a thread names are there, and its counts are in range.
    pub fn fits(&self, thread: Tid, request: &Request) -> bool
        ensures { (result ≡ true) ↔ IsFit (end self.now) thread.0 request.now }
    {
        self.recorder.fits(thread, request)
    }

    /// The least thread that can take a turn, if one can.
    pub fn least_runnable(&self) -> Option<Tid>
        ensures { option_map (λ t. t.0) result ≡ least_runnable (end self.now) }
    {
        self.recorder.least_runnable()
    }

    /// The threads that wait in a call, at a port or for a path, in order.
    pub fn waiting(&self, alloc: Global) -> Result<TidList, NoMemory>
        ensures { IfOk result (λ waiting. waiting ≡ waiting_threads (end self.now)) }
    {
        self.recorder.waiting(alloc)
    }
}
