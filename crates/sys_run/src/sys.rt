//! A run of a script: its kernel, where its threads stand, its name tables, and the journal of its events, one turn at a time.
ghost use Rattle.std.specs.Prelude.{◌≡◌, ◌↔◌, IsTrue, ℕ, ◌+◌, ◌<◌, ◌≤◌, [], length, slice_get, Some, IfOk, option_map, OnOk, OnErr, take, true, false, All};
ghost use Rattle.dk_base.specs.declared.limits.TheConstants.{BUDGET_MAX};
ghost use Rattle.spec_kernel.specs.Words.{is_runnable, state_of, waiting_threads};
ghost use Rattle.spec_events.specs.Words.{output_at};
ghost use Rattle.spec_requests.specs.Words.{IsDeclaredEvent, IsDeclaredThread, request_after};
ghost use Rattle.spec_scripts.specs.Words.{ending_of, is_over, scheduled_turns, tid_number};
ghost use Rattle.sys_run.specs.Sys.{with_journal, history, state_of_run, with_turn, with_turns, turns_left, next_turn, scheduled_turn, threads_woken_by, LawsOf, IsJournal, WorksOn, is_working};

use crate::kernel_looks::{ending_of, next_scheduled, next_thread};
use crate::name_tables::NameTables;
use crate::opening::{first_machines, open};
use crate::threads::all_waiting;
use crate::turn::take_turn;
use dk_base::error::NoMemory;
use dk_base::event::Event;
use dk_base::list::{Bytes, TidList};
use dk_base::number::Tid;
use dk_base::request::Request;
use kernel_core::kernel::Kernel;
use script_lang::script::Script;
use spec_records::record::ThreadState;
use spec_requests::ending::Ending;
use std::alloc::Global;
use std::marker::Model;
use thread_machine::machine::Machine;
use work_ops::task::{Done, Task, run};

/// How playing a schedule ends.
#[derive(Clone, Copy, Debug, PartialEq, Eq)]
pub enum Played {
    /// All turns were taken that the budget reaches.
    Over,
    /// The thread of this turn, counted from 1, was not runnable.
    Refused { turn: u32, thread: Tid },
}

/// A script, the kernel, a name table for each process, and the journal of the events so far. The journal is a run of the script from
/// its opening state, in which its threads took turns, and kernel, machines and tables stand after it.
pub struct Sys {
    alloc: Global,
    script: Script,
    kernel: Kernel,
    machines: Vec<Machine>,
    tables: NameTables,
    journal: Vec<Event>,
}

/// By hand, so that dropping a run is one call for its holder, who would otherwise drop each of its parts.
impl Drop for Sys {
    fn drop(self) {
        let Sys {
            alloc: _,
            script: _,
            kernel: _,
            machines: _,
            tables: _,
            journal: _,
        } = self;
    }
}

impl Model for Sys {
    ghost use Rattle.sys_run.specs.Sys.{SysValue, IsSys};

    ghost Value = { SysValue };

    ghost view = { λ s. record { script = s.script; journal = s.journal.items } };

    ghost invariant = { λ s. IsSys s.script s.journal.items s.kernel s.machines.items s.tables };
}

impl Sys {
    ghost use Rattle.sys_run.specs.Schedules.{PlaysSchedule};

    /// No event yet.
    pub fn new(alloc: Global, script: Script) -> Result<Self, NoMemory>
        ensures { IfOk result (λ sys. sys ≡ with_journal script []) }
    {
        script.is_spelled();
        spec_requests::laws::sound_scripts();
        let kernel = open(alloc, &script)?;
        let machines = first_machines(alloc, &script)?;
        let tables = NameTables::new(alloc, script.processes())?;
        let journal = Vec::new(alloc);
        Ok(Sys {
            alloc,
            script,
            kernel,
            machines,
            tables,
            journal,
        })
    }

    /// One turn of a thread: exactly its event is appended. Answers, in order, the threads that were not runnable before
    /// and are now. Want of memory leaves all as it was.
    pub fn step(&mut self, t: Tid) -> Result<TidList, NoMemory>
        requires can { is_runnable (state_of_run self.old) t.0 ≡ true }
        requires left { length self.old.journal < self.old.script.budget }
        ensures event { OnOk result (self.new ≡ with_turn self.old t.0) }
        ensures woken { IfOk result (λ woken. woken ≡ threads_woken_by self.old t.0) }
        ensures laws { OnOk result (LawsOf self.new) }
        ensures err { OnErr result (self.new ≡ self.old) }
    {
        if self.working(t) {
            let task = self.lend(t)?;
            let done = run(self.alloc, task)?;
            return self.hand_in(t, done);
        }
        self.take(t, None)
    }

    /// A thread's task, to be done apart from the run.
    pub fn lend(&self, t: Tid) -> Result<Task, NoMemory>
        requires { is_working (state_of_run self.now) t.0 ≡ true }
        ensures { IfOk result (λ task. WorksOn self.now t.0 task) }
    {
        match self.kernel.state(t) {
            ThreadState::Working { op, input } => Ok(Task::new(*op, input.copy(self.alloc)?)),
            _ => unreachable!(),
        }
    }

    /// The turn of a thread at whose task `done` is: exactly its event is appended. Answers, in order, the threads that were not
    /// runnable before and are now. Want of memory leaves all as it was.
    pub fn hand_in(&mut self, t: Tid, done: Done) -> Result<TidList, NoMemory>
        requires works { WorksOn self.old t.0 done }
        requires left { length self.old.journal < self.old.script.budget }
        ensures event { OnOk result (self.new ≡ with_turn self.old t.0) }
        ensures woken { IfOk result (λ woken. woken ≡ threads_woken_by self.old t.0) }
        ensures laws { OnOk result (LawsOf self.new) }
        ensures err { OnErr result (self.new ≡ self.old) }
    {
        self.take(t, Some(done.into_output()))
    }

    /// Whether a thread is at a task; false for a thread that the script does not declare.
    pub fn working(&self, t: Tid) -> bool
        ensures { result ≡ is_working (state_of_run self.now) t.0 }
    {
        matches!(self.kernel.state(t), ThreadState::Working { .. })
    }

    /// Whether a thread is at the task that was done.
    pub fn works_on(&self, t: Tid, done: &Done) -> bool
        ensures { IsTrue result ↔ WorksOn self.now t.0 done.now }
    {
        match self.kernel.state(t) {
            ThreadState::Working { op, input } => done.is_of(*op, input),
            _ => false,
        }
    }

    /// The request that a thread makes at its turn, or made where its turn ends a wait.
    pub fn request(&self, t: Tid) -> Result<Request, NoMemory>
        requires { is_runnable (state_of_run self.now) t.0 ≡ true }
        ensures { IfOk result (λ request. request ≡ request_after self.now.script t.0 self.now.journal) }
    {
        self.machines[t.0 as usize - 1].next(self.alloc, &self.script)
    }

    // One turn of a thread, with the bytes of its task where it ends one.
    fn take(&mut self, t: Tid, output: Option<Bytes>) -> Result<TidList, NoMemory>
        requires output { output ≡ output_at (state_of (state_of_run self.old) t.0) }
        requires can { is_runnable (state_of_run self.old) t.0 ≡ true }
        requires left { length self.old.journal < self.old.script.budget }
        ensures event { OnOk result (self.new ≡ with_turn self.old t.0) }
        ensures woken { IfOk result (λ woken. woken ≡ threads_woken_by self.old t.0) }
        ensures laws { OnOk result (LawsOf self.new) }
        ensures err { OnErr result (self.new ≡ self.old) }
    {
        let machine = &mut self.machines[t.0 as usize - 1];
        let woken = take_turn(
            self.alloc,
            &self.script,
            &mut self.kernel,
            machine,
            &mut self.tables,
            &mut self.journal,
            t,
            output,
        )?;
        law_runs::laws::every_run();
        Ok(woken)
    }

    /// Takes the schedule's turns, as far as the budget reaches, up to one whose thread is not runnable. After want of
    /// memory the turns so far stand.
    pub fn play_schedule(&mut self) -> Result<Played, NoMemory>
        requires { self.old.journal ≡ [] }
        ensures played { IfOk result (λ played. PlaysSchedule self.old self.new played) }
        ensures laws { LawsOf self.new }
        ensures err { OnErr result ((k : ℕ) × (self.new ≡ with_turns self.old (take k (scheduled_turns self.old.script)))) }
    {
        self.laws();
        while let Some(t) = self.next_scheduled() {
            self.laws();
            if !self.runnable(t) {
                return Ok(Played::Refused {
                    turn: self.events() + 1,
                    thread: t,
                });
            }
            self.step(t)?;
        }
        self.laws();
        Ok(Played::Over)
    }

    /// The least runnable thread takes a turn, again and again, until the run is over. Answers how many turns were taken.
    /// After want of memory the turns so far stand.
    pub fn finish(&mut self) -> Result<u64, NoMemory>
        ensures turns { OnOk result (self.new ≡ with_turns self.old (turns_left self.old)) }
        ensures count { IfOk result (λ n. n ≡ length (turns_left self.old)) }
        ensures over { OnOk result (is_over self.new.script (history self.new) ≡ true) }
        ensures laws { LawsOf self.new }
        ensures err { OnErr result ((k : ℕ) × (self.new ≡ with_turns self.old (take k (turns_left self.old)))) }
    {
        self.laws();
        let mut turns = 0;
        while let Some(t) = self.next_thread() {
            self.laws();
            self.step(t)?;
            turns += 1;
        }
        self.laws();
        Ok(turns)
    }

    // The laws hold of the journal's run.
    fn laws(&self)
        ensures run { IsJournal self.now }
        ensures laws { LawsOf self.now }
        ensures small { self.now.script.budget ≤ BUDGET_MAX }
    {
        let _journal = &self.journal;
        law_runs::laws::every_run();
    }

    // The thread that `finish` lets take the next turn.
    fn next_thread(&self) -> Option<Tid>
        ensures { option_map tid_number result ≡ next_turn self.now }
    {
        next_thread(&self.script, &self.kernel)
    }

    // The thread that `play_schedule` lets take the next turn.
    fn next_scheduled(&self) -> Option<Tid>
        ensures { result ≡ scheduled_turn self.now }
    {
        next_scheduled(&self.script, &self.kernel)
    }

    /// Whether a thread can take a turn; false for a thread that the script does not declare.
    pub fn runnable(&self, t: Tid) -> bool
        ensures { result ≡ is_runnable (state_of_run self.now) t.0 }
    {
        self.kernel.runnable(t)
    }

    /// No thread is runnable, or the budget is used up.
    pub fn over(&self) -> bool
        ensures { result ≡ is_over self.now.script (history self.now) }
    {
        match self.next_thread() {
            Some(_) => false,
            None => true,
        }
    }

    /// How the run stands, by its last state: Budget where some thread can go on, so at the end of a run the budget is used up.
    pub fn ending(&self) -> Ending
        ensures { result ≡ ending_of (state_of_run self.now) }
    {
        ending_of(&self.kernel)
    }

    pub fn script(&self) -> &Script
        ensures { result.now ≡ self.now.script }
    {
        &self.script
    }

    /// How many events there were.
    pub fn events(&self) -> u32
        ensures count { result ≡ length self.now.journal }
        ensures run { IsJournal self.now }
    {
        self.journal.len() as u32
    }

    /// The event of a place, counted from 0. All that it names is declared in the script.
    pub fn event(&self, i: u32) -> &Event
        requires { i < length self.now.journal }
        ensures event { slice_get self.now.journal i ≡ Some result.now }
        ensures declared { IsDeclaredEvent self.now.script result.now }
    {
        &self.journal[i as usize]
    }

    /// All events, in order.
    pub fn journal(&self) -> &[Event]
        ensures events { result.now ≡ self.now.journal }
        ensures run { result.now ≡ (history self.now).events }
        ensures declared { All (IsDeclaredEvent self.now.script) result.now }
        ensures laws { LawsOf self.now }
    {
        law_runs::laws::every_run();
        self.journal.as_slice()
    }

    /// The threads that are Calling, Getting or Awaiting, in order. Each is declared in the script.
    pub fn waiting(&self) -> Result<TidList, NoMemory>
        ensures threads { IfOk result (λ waiting. waiting ≡ waiting_threads (state_of_run self.now)) }
        ensures declared { IfOk result (λ waiting. All (IsDeclaredThread self.now.script) waiting) }
    {
        all_waiting(self.alloc, &self.kernel)
    }
}
