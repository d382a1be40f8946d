//! Processes and threads.
ghost use Rattle.std.specs.Prelude.{◌≡◌, ℕ, ◌+◌, ◌<◌, ◌≤◌, ◌++◌, ◌∷◌, ◌↔◌, [], false, true, false, length, None, count_by, map, position, IfNone, IfOk, IfSome, OnOk, OnErr};
ghost use Rattle.std.specs.List.{list_any};
ghost use Rattle.std.specs.Option.{option_map};
ghost use Rattle.dk_base.specs.declared.error.ProcFault.TheVariants.{Full};
ghost use Rattle.dk_base.specs.declared.limits.TheConstants.{PROCESSES_MAX, THREADS_MAX};
ghost use Rattle.dk_base.specs.ByNumber.{at_number};
ghost use Rattle.spec_records.specs.declared.record.ThreadState.TheVariants.{Done};
ghost use Rattle.proc_table.specs.Ends.{end_proc, ended_where_of};
ghost use Rattle.proc_table.specs.Crews.{is_of};
ghost use Rattle.proc_table.specs.Begins.{first_number};
ghost use Rattle.proc_table.specs.Standing.{goes_on, is_awaiting, is_getting};
ghost use Rattle.dk_base.specs.Words.{has, with_thread};
ghost use Rattle.spec_records.specs.Words.{ProcessTable, active_threads, begin_process, begun_thread, cancelled_thread, change_process, change_thread, end_invocation, end_process, end_thread, enter_thread, give_thread, interrupted_thread, invocation_in, is_active_of, is_done, is_fellow_caller, is_first_of, is_idle, is_idle_thread, is_last, is_live_in, is_spare_in, is_unborn_in, keeps_alive, live_process, make_child, new_process, new_thread, opening_state, parent_in, park_thread, process_in, set_thread_state, state_in, thread_at, unborn_thread};

use crate::crews::Crews;
use crate::standing::Standing;
use crate::thread::{
    begin_where_first, cancel, end, end_invocation, end_where_of, enter, interrupt, is_active_of,
    is_calling, is_first_of, park, turn,
};
use dk_base::error::ProcFault;
use dk_base::limits::{PROCESSES_MAX, THREADS_MAX};
use dk_base::number::{Pid, Tid};
use dk_base::object::{Inv, Item};
use dk_base::thread_set::ThreadSet;
use spec_records::numbered::{numbered_item, place_of};
use spec_records::record::{Process, ProcessStage, Thread, ThreadState};
use std::alloc::Global;
use std::marker::Model;

/// Processes and threads, numbered from 1: at most 64 of each. A number that no thread has reads as that of a Done thread
/// of process 0, and a change of it changes nothing.
#[derive(Drop)]
pub struct Procs {
    processes: Vec<Process>,
    threads: Vec<Thread>,
    standing: Standing,
    crews: Crews,
    /// The state that a number reads as which no thread has.
    absent: ThreadState,
}

impl Model for Procs {
    ghost use Rattle.std.specs.Prelude.{◌≡◌, ◌≤◌, length};
    ghost use Rattle.dk_base.specs.declared.limits.TheConstants.{PROCESSES_MAX, THREADS_MAX};
    ghost use Rattle.spec_records.specs.declared.record.ThreadState.TheVariants.{Done};
    ghost use Rattle.spec_records.specs.Words.{ProcessTable};
    ghost use Rattle.proc_table.specs.Crews.{AreCrews};
    ghost use Rattle.proc_table.specs.Standing.{AreNoted};

    ghost Value = { ProcessTable };

    ghost view = { λ p. record { processes = p.processes.items; threads = p.threads.items } };

    ghost invariant = { λ p. (p.absent ≡ Done) × (length p.processes.items ≤ PROCESSES_MAX) × (length p.threads.items ≤ THREADS_MAX) × AreNoted p.standing p.threads.items × AreCrews p.crews p.threads.items };
}

/// What a thread is at as it is added.
fn opening_state(spare: bool) -> ThreadState
    ensures { result ≡ opening_state spare }
{
    if spare {
        ThreadState::Dormant
    } else {
        ThreadState::Running
    }
}

/// The place of a thread that has not ended.
#[tactic(auto, using(crate::proofs::Places::thread_there))]
fn thread_place(threads: &[Thread], t: Tid) -> usize
    requires { is_done (state_in (at_number threads.now t.0)) ≡ false }
    ensures there { result < length threads.now }
    ensures place { result + 1 ≡ t.0 }
{
    t.0 as usize - 1
}

/// The place of a thread, if it is there.
fn find_place(threads: &[Thread], t: Tid) -> Option<usize>
    ensures place { IfSome result (λ place. (place + 1 ≡ t.0) × (place < length threads.now)) }
    ensures none { IfNone result (at_number threads.now t.0 ≡ None) }
{
    if t.0 == 0 {
        return None;
    }
    let place = t.0 as usize - 1;
    if place < threads.len() {
        Some(place)
    } else {
        None
    }
}

/// A set without a thread that is one of the threads 1 to `count`.
fn without(mut set: ThreadSet, t: Tid, count: u32) -> ThreadSet
    requires { count ≤ THREADS_MAX }
    ensures within { (u : ℕ) → u ≤ count → has result u ≡ with_thread set t.0 false u }
    ensures none { (u : ℕ) → has set u ≡ false → has result u ≡ false }
{
    if 0 < t.0 && t.0 <= count {
        set.put(t, false);
    }
    set
}

fn count_active(threads: &[Thread], p: Pid) -> usize
    ensures { result ≡ count_by (is_active_of p.0) threads.now }
{
    threads
        .iter()
        .filter(|thread| is_active_of(thread, p))
        .count()
}

/// The place, from 0, of the least thread of a process that is no spare.
fn first_place(threads: &[Thread], p: Pid) -> Option<usize>
    ensures { result ≡ position (is_first_of p.0) threads.now }
{
    threads.iter().position(|thread| is_first_of(thread, p))
}

/// The threads of a process run that are no spares.
fn begin_threads(threads: &mut [Thread], p: Pid)
    ensures { threads.new ≡ map (begun_thread p.0) threads.old }
{
    for i in 0..threads.len() {
        let thread = &mut threads[i];
        begin_where_first(thread, p);
    }
}

/// All threads of a process end.
fn end_threads(threads: &mut [Thread], p: Pid)
    ensures { threads.new ≡ map (ended_where_of p.0) threads.old }
{
    for i in 0..threads.len() {
        let thread = &mut threads[i];
        end_where_of(thread, p);
    }
}

impl Procs {
    /// No process and no thread yet. It takes no memory.
    pub fn new(alloc: Global) -> Self
        ensures { result ≡ record { processes = []; threads = [] } }
    {
        Procs {
            processes: Vec::new(alloc),
            threads: Vec::new(alloc),
            standing: Standing::new(),
            crews: Crews::new(),
            absent: ThreadState::Done,
        }
    }

    /// Another process, which lives, under the next number. It may have `limit` descriptors.
    /// It is Full exactly where 64 processes are there, and Memory is want of memory. Either leaves all as it was.
    pub fn add_proc(&mut self, limit: u32) -> Result<Pid, ProcFault>
        ensures ok { OnOk result (self.new ≡ record self.old { processes = self.old.processes ++ new_process (length self.old.processes + 1) limit ∷ [] }) }
        ensures number { IfOk result (λ p. p.0 ≡ length self.old.processes + 1) }
        ensures full { (result ≡ Err Full) ↔ (length self.old.processes ≡ PROCESSES_MAX) }
        ensures err { OnErr result (self.new ≡ self.old) }
    {
        let count = self.processes.len() as u32;
        if count == PROCESSES_MAX {
            return Err(ProcFault::Full);
        }
        let number = count + 1;
        let process = Process {
            number,
            made: 0,
            limit,
            parent: None,
            stage: ProcessStage::Live,
        };
        match self.processes.push(process) {
            Ok(()) => Ok(Pid(number)),
            Err(_) => Err(ProcFault::Memory),
        }
    }

    /// A process is a child of another, and has not begun. A number that no process has is none.
    pub fn make_child(&mut self, child: Pid, parent: Pid)
        ensures { self.new ≡ make_child self.old child.0 parent.0 }
    {
        if let Some(place) = place_of(&self.processes, child.0) {
            let process = &mut self.processes[place];
            process.parent = Some(parent);
            process.stage = ProcessStage::Unborn;
        }
    }

    /// Another thread of a process that has not begun, under the next number: it is Dormant, whether or not it is a spare.
    /// It is Full exactly where 64 threads are there, and Memory is want of memory. Either leaves all as it was.
    pub fn add_unborn_thread(&mut self, p: Pid, spare: bool) -> Result<Tid, ProcFault>
        requires { is_unborn_in (at_number self.old.processes p.0) ≡ true }
        ensures ok { OnOk result (self.new ≡ record self.old { threads = self.old.threads ++ unborn_thread (length self.old.threads + 1) p.0 spare ∷ [] }) }
        ensures number { IfOk result (λ t. t.0 ≡ length self.old.threads + 1) }
        ensures full { (result ≡ Err Full) ↔ (length self.old.threads ≡ THREADS_MAX) }
        ensures err { OnErr result (self.new ≡ self.old) }
    {
        let count = self.threads.len() as u32;
        if count == THREADS_MAX {
            return Err(ProcFault::Full);
        }
        let number = count + 1;
        let thread = Thread {
            number,
            made: 0,
            process: p,
            spare,
            invocation: None,
            state: ThreadState::Dormant,
        };
        match self.threads.push(thread) {
            Ok(()) => {
                self.standing.note(Tid(number), &ThreadState::Dormant);
                self.crews.add(p, Tid(number));
                Ok(Tid(number))
            }
            Err(_) => Err(ProcFault::Memory),
        }
    }

    /// Another thread of a process that lives, under the next number: one that runs, or a spare one that is Dormant.
    /// It is Full exactly where 64 threads are there, and Memory is want of memory. Either leaves all as it was.
    pub fn add_thread(&mut self, p: Pid, spare: bool) -> Result<Tid, ProcFault>
        requires { is_live_in (at_number self.old.processes p.0) ≡ true }
        ensures ok { OnOk result (self.new ≡ record self.old { threads = self.old.threads ++ new_thread (length self.old.threads + 1) p.0 spare ∷ [] }) }
        ensures number { IfOk result (λ t. t.0 ≡ length self.old.threads + 1) }
        ensures full { (result ≡ Err Full) ↔ (length self.old.threads ≡ THREADS_MAX) }
        ensures err { OnErr result (self.new ≡ self.old) }
    {
        let count = self.threads.len() as u32;
        if count == THREADS_MAX {
            return Err(ProcFault::Full);
        }
        let number = count + 1;
        let thread = Thread {
            number,
            made: 0,
            process: p,
            spare,
            invocation: None,
            state: opening_state(spare),
        };
        match self.threads.push(thread) {
            Ok(()) => {
                self.standing.note(Tid(number), &opening_state(spare));
                self.crews.add(p, Tid(number));
                Ok(Tid(number))
            }
            Err(_) => Err(ProcFault::Memory),
        }
    }

    /// How many processes there are, ended ones with them: 0 to 64.
    pub fn process_count(&self) -> u32
        ensures count { result ≡ length self.now.processes }
        ensures few { length self.now.processes ≤ PROCESSES_MAX }
    {
        self.processes.len() as u32
    }

    /// How many threads there are, ended ones and spares with them: 0 to 64.
    pub fn thread_count(&self) -> u32
        ensures count { result ≡ length self.now.threads }
        ensures few { length self.now.threads ≤ THREADS_MAX }
    {
        self.threads.len() as u32
    }

    /// Whether a process lives. A number that no process has doesn't.
    pub fn is_live(&self, p: Pid) -> bool
        ensures { result ≡ is_live_in (at_number self.now.processes p.0) }
    {
        match numbered_item(&self.processes, p.0) {
            Some(process) => matches!(process.stage, ProcessStage::Live),
            None => false,
        }
    }

    /// Whether a process is a child that has not begun. A number that no process has isn't.
    pub fn is_unborn(&self, p: Pid) -> bool
        ensures { result ≡ is_unborn_in (at_number self.now.processes p.0) }
    {
        match numbered_item(&self.processes, p.0) {
            Some(process) => matches!(process.stage, ProcessStage::Unborn),
            None => false,
        }
    }

    /// The process that a process is a child of, if it is one.
    pub fn parent_of(&self, p: Pid) -> Option<Pid>
        ensures { result ≡ parent_in (at_number self.now.processes p.0) }
    {
        match numbered_item(&self.processes, p.0) {
            Some(process) => process.parent,
            None => None,
        }
    }

    /// Whether a thread is a spare, started or not. A number that no thread has isn't.
    pub fn is_spare(&self, t: Tid) -> bool
        ensures { result ≡ is_spare_in (thread_at self.now t.0) }
    {
        match numbered_item(&self.threads, t.0) {
            Some(thread) => thread.spare,
            None => false,
        }
    }

    /// The least thread of a process that is no spare, if it has one.
    pub fn first_thread(&self, p: Pid) -> Option<Tid>
        ensures { option_map (λ t. t.0) result ≡ first_number self.now p.0 }
    {
        match first_place(&self.threads, p) {
            Some(place) => Some(Tid(place as u32 + 1)),
            None => None,
        }
    }

    /// Whether `u` is another thread of `t`'s process, and waits for a call.
    pub fn is_fellow_caller(&self, t: Tid, u: Tid) -> bool
        ensures { result ≡ is_fellow_caller self.now t.0 u.0 }
    {
        u.0 != t.0 && self.process_of(u).0 == self.process_of(t).0 && is_calling(self.state(u))
    }

    /// A thread's process, 0 for a number that no thread has.
    pub fn process_of(&self, t: Tid) -> Pid
        ensures { result.0 ≡ process_in (thread_at self.now t.0) }
    {
        match numbered_item(&self.threads, t.0) {
            Some(thread) => thread.process,
            None => Pid(0),
        }
    }

    /// What a thread is at. A number that no thread has reads as Done.
    pub fn state(&self, t: Tid) -> &ThreadState
        ensures { result.now ≡ state_in (thread_at self.now t.0) }
    {
        match numbered_item(&self.threads, t.0) {
            Some(thread) => &thread.state,
            None => &self.absent,
        }
    }

    /// The invocation of a server procedure that a thread is in. A number that no thread has is in none.
    pub fn invocation(&self, t: Tid) -> Option<Inv>
        ensures { result ≡ invocation_in (thread_at self.now t.0) }
    {
        match numbered_item(&self.threads, t.0) {
            Some(thread) => thread.invocation,
            None => None,
        }
    }

    /// The threads of a process, ended ones and spares with them.
    pub fn threads_of(&self, p: Pid) -> ThreadSet
        ensures { (t : ℕ) → has result t ≡ is_of p.0 (thread_at self.now t) }
    {
        self.crews.of(p)
    }

    /// Whether no thread of a process but `t` is neither Done nor Dormant.
    pub fn is_last(&self, t: Tid, p: Pid) -> bool
        ensures { result ≡ is_last self.now t.0 p.0 }
    {
        let others = self.threads_of(p).and(self.standing.active);
        match without(others, t, self.thread_count()).least() {
            Some(_) => false,
            None => true,
        }
    }

    /// Whether a thread is parked.
    pub fn has_idle(&self) -> bool
        ensures { result ≡ list_any is_idle_thread self.now.threads }
    {
        match self.standing.idle.least() {
            Some(_) => true,
            None => false,
        }
    }

    /// How many threads of a process are neither Done nor Dormant: 0 to 64.
    pub fn active_threads(&self, p: Pid) -> u32
        ensures { result ≡ active_threads self.now p.0 }
    {
        count_active(&self.threads, p) as u32
    }

    /// The threads that can take a turn by what they are at alone.
    pub fn going(&self) -> ThreadSet
        ensures { (t : ℕ) → has result t ≡ goes_on (state_in (thread_at self.now t)) }
    {
        self.standing.going
    }

    /// The threads that wait for a path.
    pub fn awaiting(&self) -> ThreadSet
        ensures { (t : ℕ) → has result t ≡ is_awaiting (state_in (thread_at self.now t)) }
    {
        self.standing.awaiting
    }

    /// The threads that wait at a port and were not interrupted.
    pub fn getting(&self) -> ThreadSet
        ensures { (t : ℕ) → has result t ≡ is_getting (state_in (thread_at self.now t)) }
    {
        self.standing.getting
    }

    /// The threads that are parked.
    pub fn idle(&self) -> ThreadSet
        ensures { (t : ℕ) → has result t ≡ is_idle (state_in (thread_at self.now t)) }
    {
        self.standing.idle
    }

    /// A thread that has not ended turns to another state.
    #[tactic(auto, using(spec_records::proofs::Places::numbered_here))]
    fn set_state(&mut self, t: Tid, state: ThreadState)
        requires { is_done (state_in (thread_at self.old t.0)) ≡ false }
        ensures { self.new ≡ set_thread_state self.old t.0 state }
    {
        let place = thread_place(&self.threads, t);
        let thread = &mut self.threads[place];
        turn(thread, state);
        self.standing.note(t, &thread.state);
    }

    /// A thread that is neither Done nor Idle turns to another such state. It neither ends nor enters or leaves a pool of idle
    /// threads, which the conditions say for what stands above; the change itself needs only that the thread has not ended.
    pub fn turn(&mut self, t: Tid, state: ThreadState)
        requires not_done { is_done (state_in (thread_at self.old t.0)) ≡ false }
        requires not_idle { is_idle (state_in (thread_at self.old t.0)) ≡ false }
        requires to_not_done { is_done state ≡ false }
        requires to_not_idle { is_idle state ≡ false }
        ensures { self.new ≡ set_thread_state self.old t.0 state }
    {
        self.set_state(t, state);
    }

    /// An item is given to a thread that is Idle, which leaves its pool (door_call(3C)).
    #[tactic(auto, using(crate::proofs::Places::idle_is_not_done))]
    pub fn give(&mut self, t: Tid, item: Item)
        requires { is_idle (state_in (thread_at self.old t.0)) ≡ true }
        ensures { self.new ≡ give_thread self.old t.0 item }
    {
        self.set_state(t, ThreadState::Given { item });
    }

    /// A thread that is Idle at a door that is lost leaves its pool, and is woken with EINVAL (door_return(3C)).
    #[tactic(auto, using(crate::proofs::Places::idle_is_not_done))]
    pub fn fail(&mut self, t: Tid)
        requires { is_idle (state_in (thread_at self.old t.0)) ≡ true }
        ensures { self.new ≡ set_thread_state self.old t.0 ThreadState.FailedReturn }
    {
        self.set_state(t, ThreadState::FailedReturn);
    }

    /// A thread enters the invocation of the item that it was given, and runs. The change itself needs only that the thread
    /// has not ended; that it is this item is for what stands above.
    #[tactic(auto, using(spec_records::proofs::Places::numbered_here))]
    pub fn enter(&mut self, t: Tid, item: Item)
        requires { state_in (thread_at self.old t.0) ≡ ThreadState.Given item }
        ensures { self.new ≡ enter_thread self.old t.0 item }
    {
        let place = thread_place(&self.threads, t);
        let thread = &mut self.threads[place];
        enter(thread, item);
        self.standing.note(t, &thread.state);
    }

    /// A thread's invocation ends, and it is parked since an event (door_return(3C)). That it enters a pool is for what stands
    /// above.
    #[tactic(auto, using(spec_records::proofs::Places::numbered_here))]
    pub fn park(&mut self, t: Tid, since: u64)
        ensures { self.new ≡ park_thread self.old t.0 since }
    {
        if let Some(place) = find_place(&self.threads, t) {
            let thread = &mut self.threads[place];
            park(thread, since);
            self.standing.note(t, &thread.state);
        }
    }

    /// A thread ends, and leaves the invocation that it is in. Says whether it was the last thread of its process that was
    /// neither Done nor Dormant.
    #[tactic(auto, using(spec_records::proofs::Places::numbered_here))]
    pub fn end_thread(&mut self, t: Tid) -> bool
        ensures state { self.new ≡ end_thread self.old t.0 }
        ensures last { result ≡ is_last self.old t.0 (process_in (thread_at self.old t.0)) }
    {
        let last = self.is_last(t, self.process_of(t));
        if let Some(place) = find_place(&self.threads, t) {
            let thread = &mut self.threads[place];
            end(thread);
            self.standing.note(t, &thread.state);
        }
        last
    }

    /// The caller of the thread's invocation has left it, so the flag of the invocation is set (DOOR_NO_CANCEL,
    /// door_create(3C)). A thread that is in none stays as it is.
    #[tactic(auto, using(spec_records::proofs::Places::numbered_here))]
    pub fn cancel(&mut self, t: Tid)
        ensures { self.new ≡ change_thread self.old t.0 cancelled_thread }
    {
        if let Some(place) = find_place(&self.threads, t) {
            let thread = &mut self.threads[place];
            cancel(thread);
        }
    }

    /// A thread is interrupted: its wait for the events of a port is marked. A thread at anything else stays as it is.
    #[tactic(auto, using(spec_records::proofs::Places::numbered_here))]
    pub fn interrupt(&mut self, t: Tid)
        ensures { self.new ≡ change_thread self.old t.0 interrupted_thread }
    {
        if let Some(place) = find_place(&self.threads, t) {
            let thread = &mut self.threads[place];
            interrupt(thread);
            self.standing.note(t, &thread.state);
        }
    }

    /// A thread's invocation ends, and the thread goes on as it was.
    #[tactic(auto, using(spec_records::proofs::Places::numbered_here))]
    pub fn end_invocation(&mut self, t: Tid)
        requires { is_done (state_in (thread_at self.old t.0)) ≡ false }
        ensures { self.new ≡ end_invocation self.old t.0 }
    {
        let place = thread_place(&self.threads, t);
        let thread = &mut self.threads[place];
        end_invocation(thread);
    }

    /// A process lives from now on; its threads stay as they are. A number that no process has begins none.
    fn start_process(&mut self, p: Pid)
        ensures { self.new ≡ change_process self.old p.0 live_process }
    {
        if let Some(place) = place_of(&self.processes, p.0) {
            self.processes[place].stage = ProcessStage::Live;
        }
    }

    /// A child process begins: its threads run that are no spares. A number that no process has begins none.
    pub fn begin(&mut self, child: Pid)
        ensures { self.new ≡ begin_process self.old child.0 }
    {
        begin_threads(&mut self.threads, child);
        self.standing = Standing::of(&self.threads);
        self.start_process(child);
    }

    /// A process ends; its threads stay as they are. A number that no process has ends no process.
    #[tactic(auto, using(spec_records::proofs::Places::numbered_here))]
    pub fn end_process(&mut self, p: Pid)
        ensures { self.new ≡ end_process self.old p.0 }
    {
        if p.0 == 0 {
            return;
        }
        let place = p.0 as usize - 1;
        if place < self.processes.len() {
            self.processes[place].stage = ProcessStage::Ended;
        }
    }
    /// A process ends with all its threads, which leave the invocations that they are in. A number that no process has ends no
    /// process; that of a thread without one is 0.
    pub fn end_proc(&mut self, p: Pid)
        ensures { self.new ≡ end_proc self.old p.0 }
    {
        end_threads(&mut self.threads, p);
        self.standing = Standing::of(&self.threads);
        self.end_process(p);
    }
}
