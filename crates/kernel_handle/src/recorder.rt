//! A kernel with the history of its turns.
ghost use Rattle.std.specs.Prelude.{◌≡◌, ◌↔◌, ◌≤◌, IfErr, IfOk, None, OnErr, OnOk, Some, length, true};
ghost use Rattle.std.specs.Option.{option_map};
ghost use Rattle.dk_base.specs.declared.limits.TheConstants.{EVENTS_MAX, THREADS_MAX};
ghost use Rattle.spec_kernel.specs.Words.{IsFit, MayTurn, State, is_runnable, is_running, is_waiting_state, least_runnable, now, root, state_of, waiting_threads, what_of};
ghost use Rattle.spec_kernel.specs.Small.{IsSmall};
ghost use Rattle.spec_histories.specs.Histories.{IsHistory, begun, end, grown, next};
ghost use Rattle.kernel_handle.specs.Told.{IsRefused, entry_told};

use crate::story::Story;
use dk_base::error::NoMemory;
use dk_base::event::{Stepped, What};
use dk_base::limits::EVENTS_MAX;
use dk_base::list::TidList;
use dk_base::number::Tid;
use dk_base::request::Request;
use spec_kernel::answering::Answers;
use spec_kernel::what::{of_entry, of_wait};
use spec_records::record::ThreadState;
use std::alloc::Global;
use std::marker::Model;

/// What a turn gave: the number of its event, from 1; the thread's root in the state before; the word of its request, or of the end of its
/// wait; its answer, and the threads that can go on since.
#[derive(Drop)]
pub struct Told {
    pub number: u64,
    pub root: Tid,
    pub what: What,
    pub stepped: Stepped,
}

/// Why there was no turn.
#[derive(Clone, Copy, Debug, PartialEq, Eq)]
pub enum Refused {
    /// The kernel has had its last event.
    Full,
    /// It enters, and there is no such thread, or it does not run.
    NotRunning,
    /// Its wait is to end, and there is no such thread, or it runs, or its wait cannot end.
    NotReady,
    /// It enters, and a thread or process that the request names is not there, or a count is out of range.
    NotFit,
    NoMemory,
}

/// A kernel with the history of its turns. Contracts see it as the history, which is legal, and at whose end the kernel stands. The history
/// is not stored.
#[derive(Drop)]
pub struct Recorder<K: Answers> {
    kernel: K,
    story: Story,
}

impl<K: Answers> Model for Recorder<K> {
    ghost use Rattle.spec_histories.specs.Histories.{History, IsRecord};

    ghost Value = { History };

    ghost view = { λ r. r.story.history };

    ghost invariant = { λ r. IsRecord (K.keeps r.kernel) r.story.history };
}

impl<K: Answers> Recorder<K> {
    /// A kernel that has made no event begins a history.
    pub fn new(kernel: K) -> Self
        requires { (K.keeps kernel).events ≡ 0 }
        ensures begins { result ≡ begun (K.keeps kernel) }
        ensures legal { IsHistory result }
    {
        Recorder::opened(kernel)
    }

    // The opening is named here, for the call of `begin`, which no argument tells of it.
    fn opened(kernel: K) -> Self
        ghost opening: { State }
        requires state { K.keeps kernel ≡ opening }
        requires no_event { opening.events ≡ 0 }
        ensures begins { result ≡ begun opening }
        ensures legal { IsHistory result }
    {
        let _ = kernel.events();
        Recorder {
            story: Story::begin(),
            kernel,
        }
    }

    /// A thread that runs enters the kernel. Where it is refused, nothing changed.
    pub fn enter(&mut self, thread: Tid, request: Request) -> Result<Told, Refused>
        ensures done { OnOk result (self.new ≡ grown self.old (next self.old thread.0 (Some request))) }
        ensures told { IfOk result (λ told. entry_told thread.0 (Some request) told ≡ next self.old thread.0 (Some request)) }
        ensures small { IfOk result (λ told. IsSmall (Some request) told.stepped.answer) }
        ensures few { IfOk result (λ told. length told.stepped.woken ≤ THREADS_MAX) }
        ensures legal { IsHistory self.new }
        ensures same { OnErr result (self.new ≡ self.old) }
        ensures refused { IfErr result (λ why. IsRefused (end self.old) thread.0 (Some request) why) }
    {
        if self.kernel.events() >= EVENTS_MAX {
            return Err(Refused::Full);
        }
        if !self.kernel.is_running(thread) {
            return Err(Refused::NotRunning);
        }
        if !self.kernel.fits(thread, &request) {
            return Err(Refused::NotFit);
        }
        let what = of_entry(&request);
        match self.take(thread, Some(request), what) {
            Ok(told) => Ok(told),
            Err(NoMemory) => Err(Refused::NoMemory),
        }
    }

    /// The wait of a thread ends. Where it is refused, nothing changed.
    pub fn go_on(&mut self, thread: Tid) -> Result<Told, Refused>
        ensures done { OnOk result (self.new ≡ grown self.old (next self.old thread.0 None)) }
        ensures told { IfOk result (λ told. entry_told thread.0 None told ≡ next self.old thread.0 None) }
        ensures small { IfOk result (λ told. IsSmall None told.stepped.answer) }
        ensures few { IfOk result (λ told. length told.stepped.woken ≤ THREADS_MAX) }
        ensures legal { IsHistory self.new }
        ensures same { OnErr result (self.new ≡ self.old) }
        ensures refused { IfErr result (λ why. IsRefused (end self.old) thread.0 None why) }
    {
        if self.kernel.events() >= EVENTS_MAX {
            return Err(Refused::Full);
        }
        if !self.kernel.runnable(thread) || self.kernel.is_running(thread) {
            return Err(Refused::NotReady);
        }
        let what = of_wait(self.kernel.state(thread));
        match self.take(thread, None, what) {
            Ok(told) => Ok(told),
            Err(NoMemory) => Err(Refused::NoMemory),
        }
    }

    // A turn that may be taken.
    fn take(&mut self, thread: Tid, request: Option<Request>, what: What) -> Result<Told, NoMemory>
        requires may { MayTurn (end self.old) thread.0 request }
        requires what { what ≡ what_of (end self.old) thread.0 request }
        ensures done { OnOk result (self.new ≡ grown self.old (next self.old thread.0 request)) }
        ensures told { IfOk result (λ told. entry_told thread.0 request told ≡ next self.old thread.0 request) }
        ensures small { IfOk result (λ told. IsSmall request told.stepped.answer) }
        ensures few { IfOk result (λ told. length told.stepped.woken ≤ THREADS_MAX) }
        ensures legal { IsHistory self.new }
        ensures same { OnErr result (self.new ≡ self.old) }
    {
        let number = self.number();
        let _ = self.kernel.threads();
        let root = self.kernel.root(thread);
        let story = Story::with(&self.story, &thread, &request);
        match self.kernel.turn(thread, request) {
            Ok(stepped) => {
                self.story = story;
                Ok(Told {
                    number,
                    root,
                    what,
                    stepped,
                })
            }
            Err(NoMemory) => Err(NoMemory),
        }
    }

    // readers, all of the state at the end of the history

    /// The history is legal, whatever was answered before.
    pub fn legal(&self)
        ensures { IsHistory self.now }
    {
        let _ = &self.kernel;
    }

    /// How many events there were.
    pub fn events(&self) -> u64
        ensures entries { result ≡ length self.now.entries }
        ensures state { result ≡ (end self.now).events }
        ensures few { result ≤ EVENTS_MAX }
    {
        self.kernel.events()
    }

    /// The number that the next event has.
    pub fn number(&self) -> u64
        ensures { result ≡ now (end self.now) }
    {
        self.events() + 1
    }

    /// The clock of the timers.
    pub fn clock(&self) -> u64
        ensures { result ≡ (end self.now).channels.timers.clock }
    {
        self.kernel.clock()
    }

    /// How many threads there are, ended ones and spares with them.
    pub fn threads(&self) -> u32
        ensures count { result ≡ length (end self.now).process_table.threads }
        ensures few { result ≤ THREADS_MAX }
    {
        self.kernel.threads()
    }

    /// Whether a thread runs, or its wait can end.
    pub fn runnable(&self, thread: Tid) -> bool
        ensures { result ≡ is_runnable (end self.now) thread.0 }
    {
        self.kernel.runnable(thread)
    }

    pub fn is_running(&self, thread: Tid) -> bool
        ensures { result ≡ is_running (end self.now) thread.0 }
    {
        self.kernel.is_running(thread)
    }

    /// What a thread is at. A number that no thread has reads as Done.
    pub fn state(&self, thread: Tid) -> &ThreadState
        ensures { result.now ≡ state_of (end self.now) thread.0 }
    {
        self.kernel.state(thread)
    }

    /// The end of the walk from a thread to the caller of the call that it serves, and so on.
    pub fn root(&self, thread: Tid) -> Tid
        ensures { result.0 ≡ root (end self.now) thread.0 }
    {
        self.kernel.root(thread)
    }

    /// Whether the threads and processes that a request of a thread names are there, and its counts are in range.
    pub fn fits(&self, thread: Tid, request: &Request) -> bool
        ensures { (result ≡ true) ↔ IsFit (end self.now) thread.0 request.now }
    {
        self.kernel.fits(thread, request)
    }

    /// The least thread that can take a turn, if one can.
    pub fn least_runnable(&self) -> Option<Tid>
        ensures { option_map (λ t. t.0) result ≡ least_runnable (end self.now) }
    {
        self.kernel.least_runnable()
    }

    /// The threads that wait in a call, at a port or for a path, in order.
    pub fn waiting(&self, alloc: Global) -> Result<TidList, NoMemory>
        ensures { IfOk result (λ waiting. waiting ≡ waiting_threads (end self.now)) }
    {
        let mut waiting = TidList::new(alloc);
        for below in 0..self.threads() {
            let thread = Tid(below + 1);
            if is_waiting(self.state(thread)) {
                waiting.push(thread)?;
            }
        }
        Ok(waiting)
    }
}

fn is_waiting(state: &ThreadState) -> bool
    ensures { result ≡ is_waiting_state state.now }
{
    matches!(
        state,
        ThreadState::Calling { .. } | ThreadState::Getting { .. } | ThreadState::Awaiting { .. }
    )
}
