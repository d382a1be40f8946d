//! The kernel: one entry or one end of a wait at a time, and who can take a turn.
ghost use Rattle.std.specs.Prelude.{ℕ, ◌≡◌, ◌+◌, ◌*◌, ◌<◌, ◌≤◌, ◌↔◌, Some, None, true, false, length, IfOk, IsOk, OnOk, OnErr};
ghost use Rattle.std.specs.Option.{option_map};
ghost use Rattle.std.specs.List.{AllByRecursion, list_any};
ghost use Rattle.dk_base.specs.declared.answer.Answer.TheVariants.{Failure};
ghost use Rattle.dk_base.specs.declared.error.ProcFault.TheVariants.{Full};
ghost use Rattle.spec_kernel.specs.Types.{Errno};
ghost use Rattle.dk_base.specs.declared.limits.TheConstants.{ADVANCE_MAX, DESCRIPTORS_MAX, PROCESSES_MAX, THREADS_MAX, EVENTS_MAX};
ghost use Rattle.spec_kernel.specs.Words.{IsFit, IsOpening, IsStep, MayGoOn, StandsFor, State, is_runnable, is_running, is_thread_of, least_runnable, opening, process_of, refusal_of, root, state_of, step, table_of, with_child, with_event_counted, with_new_thread, with_processes};
ghost use Rattle.kernel_core.specs.Entries.{is_cache_line};
ghost use Rattle.kernel_core.specs.Kept.{IsKept};
ghost use Rattle.kernel_store.specs.Words.{IsAtRest, stored_state};
ghost use Rattle.spec_kernel.specs.Small.{IsSmall};
ghost use Rattle.kernel_core.specs.Within.{IsWithin};
ghost use Rattle.kernel_core.specs.Acted.{IsBetweenEvents};

use crate::event::Parts;
use crate::fitness::is_fit;
use crate::turns::{self, is_running_state};
use dk_base::error::{NoMemory, ProcFault};
use dk_base::event::Stepped;
use dk_base::limits::THREADS_MAX;
use dk_base::list::{IdList, Room};
use dk_base::number::{Pid, Tid};
use dk_base::request::Request;
use kernel_store::store::Store;
use kernel_store::told::TellingRooms;
use spec_records::record::ThreadState;
use std::alloc::Global;
use std::marker::Model;

/// A kernel. Clauses see the written state that it keeps, in which the calls that were answered or left, and
/// the notices that no rule asks for again, are forgotten.
pub struct Kernel {
    alloc: Global,
    parts: Parts,
}

/// By hand, so that dropping a kernel is one call for its holder, who would otherwise drop each of its parts.
impl Drop for Kernel {
    fn drop(self) {
        let Kernel { alloc: _, parts: _ } = self;
    }
}

impl Model for Kernel {
    ghost Value = { State };

    ghost view = { λ k. stored_state k.parts.store };

    ghost invariant = { λ k. IsKept (stored_state k.parts.store) × IsWithin (stored_state k.parts.store) × IsBetweenEvents k.parts };
}

impl Kernel {
    /// Processes with these limits of descriptors, numbered from 1, and nothing else.
    pub fn new(alloc: Global, limits: &IdList) -> Result<Self, NoMemory>
        requires processes { length limits.now ≤ PROCESSES_MAX }
        requires limits { AllByRecursion (λ n. n ≤ DESCRIPTORS_MAX) limits.now }
        ensures { IfOk result (λ k. k ≡ opening limits.now) }
    {
        let store = with_processes(Store::new(alloc)?, alloc, limits.slice())?;
        let parts = Parts {
            store,
            fallen: Room::new(alloc),
            woken: Room::new(alloc),
            rooms: TellingRooms::new(alloc),
            released: Room::new(alloc),
        };
        Ok(Kernel { alloc, parts })
    }

    /// A process is a child of another, which may have as many descriptors, and has not begun. No event was made yet, and the child has no
    /// thread yet.
    pub fn make_child(&mut self, child: Pid, parent: Pid)
        requires opening { self.old.events ≡ 0 }
        requires order { (1 ≤ parent.0) × (parent.0 < child.0) × (child.0 ≤ length self.old.process_table.processes) }
        requires limits { length (table_of self.old child.0) ≡ length (table_of self.old parent.0) }
        requires no_thread { list_any (is_thread_of child.0) self.old.process_table.threads ≡ false }
        ensures { self.new ≡ with_child self.old child.0 parent.0 }
    {
        self.parts.store.make_child(child, parent);
    }

    /// Another thread of a process, which runs, or is a spare one that was not started; one of a process that has not begun is Dormant.
    pub fn add_thread(&mut self, process: Pid, spare: bool) -> Result<Tid, ProcFault>
        requires opening { self.old.events ≡ 0 }
        requires declared { (1 ≤ process.0) × (process.0 ≤ length self.old.process_table.processes) }
        ensures ok { OnOk result (self.new ≡ with_new_thread self.old process.0 spare) }
        ensures number { IfOk result (λ t. t.0 ≡ length self.old.process_table.threads + 1) }
        ensures full { (result ≡ Err Full) ↔ (length self.old.process_table.threads ≡ THREADS_MAX) }
        ensures err { OnErr result (self.new ≡ self.old) }
    {
        if self.parts.store.processes().thread_count() == THREADS_MAX {
            return Err(ProcFault::Full);
        }
        match self.parts.store.add_thread(process, spare) {
            Ok(thread) => Ok(thread),
            Err(_) => Err(ProcFault::Memory),
        }
    }

    /// A kernel entry of a thread that runs. Where it is refused, it answers the refusal and nothing changes but the number
    /// of events. Want of memory leaves the kernel as it was. A line for a name service cache takes no memory.
    pub fn enter(&mut self, t: Tid, request: Request) -> Result<Stepped, NoMemory>
        requires running { is_running self.old t.0 ≡ true }
        requires fit { IsFit self.old t.0 request }
        requires few { self.old.events < EVENTS_MAX }
        ensures step { IfOk result (λ s. (m : State) → StandsFor self.old m → IsStep (step m t.0 (Some request)) self.new s) }
        ensures refused { IfOk result (λ s. (e : Errno) → refusal_of self.old t.0 (process_of self.old t.0) request ≡ Some e → (s.answer ≡ Failure e) × (self.new ≡ with_event_counted self.old)) }
        ensures refused_step { (m : State) → StandsFor self.old m → (e : Errno) → refusal_of m t.0 (process_of m t.0) request ≡ Some e → (step m t.0 (Some request)).state ≡ with_event_counted m }
        ensures small { IfOk result (λ s. IsSmall (Some request) s.answer) }
        ensures line { is_cache_line request ≡ true → IsOk result }
        ensures err { OnErr result (self.new ≡ self.old) }
    {
        self.parts.enter(self.alloc, t, request)
    }

    /// The end of a wait of a thread that is runnable. Want of memory leaves the kernel as it was.
    pub fn go_on(&mut self, t: Tid) -> Result<Stepped, NoMemory>
        requires { MayGoOn self.old t.0 }
        ensures step { IfOk result (λ s. (m : State) → StandsFor self.old m → IsStep (step m t.0 None) self.new s) }
        ensures small { IfOk result (λ s. IsSmall None s.answer) }
        ensures err { OnErr result (self.new ≡ self.old) }
    {
        self.parts.go_on(self.alloc, t)
    }

    /// Whether a thread can take a turn: it runs, or its wait can end.
    pub fn runnable(&self, t: Tid) -> bool
        ensures kept { result ≡ is_runnable self.now t.0 }
        ensures stands { (m : State) → StandsFor self.now m → result ≡ is_runnable m t.0 }
    {
        self.parts.store.runnable().has(t)
    }

    /// The least thread that can take a turn.
    pub fn least_runnable(&self) -> Option<Tid>
        ensures kept { option_map (λ t. t.0) result ≡ least_runnable self.now }
        ensures stands { (m : State) → StandsFor self.now m → option_map (λ t. t.0) result ≡ least_runnable m }
    {
        self.parts.store.runnable().least()
    }

    pub fn is_running(&self, t: Tid) -> bool
        ensures kept { result ≡ is_running self.now t.0 }
        ensures stands { (m : State) → StandsFor self.now m → result ≡ is_running m t.0 }
    {
        is_running_state(self.parts.store.processes().state(t))
    }

    /// Whether the threads and processes that a request of a thread names are there, and its counts are in range.
    pub fn fits(&self, t: Tid, request: &Request) -> bool
        ensures { (result ≡ true) ↔ IsFit self.now t.0 request.now }
    {
        is_fit(&self.parts.store, t, request)
    }

    /// The end of the walk from a thread to the caller of the call that it serves, and so on.
    pub fn root(&self, t: Tid) -> Tid
        ensures kept { result.0 ≡ root self.now t.0 }
        ensures stands { (m : State) → StandsFor self.now m → result.0 ≡ root m t.0 }
    {
        turns::root(&self.parts.store, t)
    }

    /// What a thread is at. A number that no thread has reads as Done.
    pub fn state(&self, t: Tid) -> &ThreadState
        ensures kept { result.now ≡ state_of self.now t.0 }
        ensures stands { (m : State) → StandsFor self.now m → result.now ≡ state_of m t.0 }
    {
        self.parts.store.processes().state(t)
    }

    pub fn threads(&self) -> u32
        ensures count { result ≡ length self.now.process_table.threads }
        ensures few { length self.now.process_table.threads ≤ THREADS_MAX }
        ensures stands { (m : State) → StandsFor self.now m → result ≡ length m.process_table.threads }
    {
        self.parts.store.processes().thread_count()
    }

    /// The clock of the timers.
    pub fn clock(&self) -> u64
        ensures kept { result ≡ self.now.channels.timers.clock }
        ensures stands { (m : State) → StandsFor self.now m → result ≡ m.channels.timers.clock }
    {
        self.parts.store.clock()
    }

    /// How many events there were.
    pub fn events(&self) -> u64
        ensures count { result ≡ self.now.events }
        ensures few { self.now.events ≤ EVENTS_MAX }
        ensures clock { self.now.channels.timers.clock ≤ ADVANCE_MAX * result }
        ensures opening { self.now.events ≡ 0 → IsOpening self.now }
        ensures stands { (m : State) → StandsFor self.now m → result ≡ m.events }
    {
        self.parts.store.events()
    }
}

fn with_processes(mut store: Store, alloc: Global, limits: &[u32]) -> Result<Store, NoMemory>
    requires processes { length store.processes.processes + length limits.now ≤ PROCESSES_MAX }
    requires tables { length store.tables + length limits.now ≤ PROCESSES_MAX }
    requires limits { AllByRecursion (λ n. n ≤ DESCRIPTORS_MAX) limits.now }
    ensures state { IfOk result (λ s. stored_state s ≡ with_processes (stored_state store) limits.now) }
    ensures rest { IfOk result (λ s. (n : ℕ) → IsAtRest n store → IsAtRest n s) }
{
    for limit in limits {
        store = store.with_process(alloc, *limit)?;
    }
    Ok(store)
}
