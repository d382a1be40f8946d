//! A run whose events are told one after another, and not kept.
ghost use Rattle.std.specs.Prelude.{◌≡◌, ◌≤◌, ◌++◌, ◌∷◌, [], Some, length, IfErr, IfOk, OnErr, OnOk};
ghost use Rattle.dk_base.specs.declared.limits.TheConstants.{BUDGET_MAX};
ghost use Rattle.spec_kernel.specs.Words.{waiting_threads};
ghost use Rattle.spec_events.specs.Words.{output_at};
ghost use Rattle.spec_scripts.specs.Words.{ending_of as ending_of_state};
ghost use Rattle.sys_run.specs.Playing.{EndsIfTold, EndsPlay, told_events, turn_of_play};
ghost use Rattle.sys_run.specs.Sys.{LawsOf, history, state_of_run, with_journal};

use crate::kernel_looks::{ending_of, next_scheduled, next_thread};
use crate::name_tables::NameTables;
use crate::opening::{first_machines, open};
use crate::sys::Played;
use crate::threads::all_waiting;
use crate::turn::turn_with_room;
use dk_base::error::NoMemory;
use dk_base::event::Event;
use dk_base::list::{Bytes, TidList};
use dk_base::number::Tid;
use kernel_core::kernel::Kernel;
use script_lang::script::Script;
use spec_records::record::ThreadState;
use spec_requests::ending::Ending;
use std::alloc::Global;
use std::marker::Model;
use thread_machine::machine::Machine;
use work_ops::task::{Task, run};

/// What is told of a run: an event, or how it ended.
#[derive(Drop)]
pub enum Told {
    Event { event: Event },
    End { played: Played },
}

/// The run that `play` makes of a script, turn by turn. Kernel, machines and name tables stand after the turns so far, of which the
/// kernel has the number alone. Clauses see the journal of their events, as of a `Sys`.
pub struct Playing {
    alloc: Global,
    script: Script,
    kernel: Kernel,
    machines: Vec<Machine>,
    tables: NameTables,
}

/// By hand, so that dropping a run is one call for its holder, who would otherwise drop each of its parts.
impl Drop for Playing {
    fn drop(self) {
        let Playing {
            alloc: _,
            script: _,
            kernel: _,
            machines: _,
            tables: _,
        } = self;
    }
}

impl Model for Playing {
    ghost use Rattle.sys_run.specs.Sys.{SysValue, with_journal, IsSys};
    ghost use Rattle.sys_run.specs.Playing.{first_events};

    ghost Value = { SysValue };

    ghost view = { λ s. with_journal s.script (first_events s.script s.kernel.events) };

    ghost invariant = { λ s. IsSys s.script (first_events s.script s.kernel.events) s.kernel s.machines.items s.tables };
}

/// The bytes of a thread's task, if it is at one.
fn task_output(alloc: Global, state: &ThreadState) -> Result<Option<Bytes>, NoMemory>
    ensures { IfOk result (λ output. output ≡ output_at state.now) }
{
    match state {
        ThreadState::Working { op, input } => {
            let task = Task::new(*op, input.copy(alloc)?);
            let done = run(alloc, task)?;
            Ok(Some(done.into_output()))
        }
        _ => Ok(None),
    }
}

impl Playing {
    /// No event yet.
    pub fn new(alloc: Global, script: Script) -> Result<Self, NoMemory>
        ensures { IfOk result (λ playing. playing ≡ with_journal script []) }
    {
        script.is_spelled();
        spec_requests::laws::sound_scripts();
        let kernel = open(alloc, &script)?;
        let machines = first_machines(alloc, &script)?;
        let tables = NameTables::new(alloc, script.processes())?;
        Ok(Playing {
            alloc,
            script,
            kernel,
            machines,
            tables,
        })
    }

    // The thread that takes the next turn, or how the run ended.
    fn turn_or_end(&self) -> Result<Tid, Played>
        ensures turn { IfOk result (λ t. turn_of_play self.now ≡ Some t.0) }
        ensures ended { IfErr result (EndsPlay self.now.script self.now) }
    {
        match next_scheduled(&self.script, &self.kernel) {
            Some(t) if self.kernel.runnable(t) => Ok(t),
            Some(t) => Err(Played::Refused {
                turn: self.kernel.events() as u32 + 1,
                thread: t,
            }),
            None => match next_thread(&self.script, &self.kernel) {
                Some(t) => Ok(t),
                None => Err(Played::Over),
            },
        }
    }

    // The turn of the thread that is next. Its event.
    fn take(&mut self, t: Tid) -> Result<Event, NoMemory>
        requires { turn_of_play self.old ≡ Some t.0 }
        ensures event { IfOk result (λ event. self.new ≡ with_journal self.old.script (self.old.journal ++ event ∷ [])) }
        ensures err { OnErr result (self.new ≡ self.old) }
    {
        let output = task_output(self.alloc, self.kernel.state(t))?;
        let machine = &mut self.machines[t.0 as usize - 1];
        let turned = turn_with_room(
            self.alloc,
            &self.script,
            &mut self.kernel,
            machine,
            &mut self.tables,
            t,
            output,
        )?;
        Ok(turned.event)
    }

    // What holds of the run so far.
    fn laws(&self)
        ensures run { self.now.journal ≡ (history self.now).events }
        ensures few { length self.now.journal ≤ BUDGET_MAX }
        ensures laws { LawsOf self.now }
    {
        let _machines = &self.machines;
        law_runs::laws::every_run();
    }

    /// The next turn of `play`, and its event; or how the run ended. Want of memory leaves all as it was.
    pub fn next(&mut self) -> Result<Told, NoMemory>
        ensures event { IfOk result (λ told. self.new ≡ with_journal self.old.script (self.old.journal ++ told_events told)) }
        ensures ended { IfOk result (EndsIfTold self.old.script self.new) }
        ensures run { OnOk result (self.new.journal ≡ (history self.new).events) }
        ensures few { OnOk result (length self.new.journal ≤ BUDGET_MAX) }
        ensures laws { OnOk result (LawsOf self.new) }
        ensures err { OnErr result (self.new ≡ self.old) }
    {
        match self.turn_or_end() {
            Ok(t) => {
                let event = self.take(t)?;
                self.laws();
                Ok(Told::Event { event })
            }
            Err(played) => {
                self.laws();
                Ok(Told::End { played })
            }
        }
    }

    /// How the run stands, by its last state: Budget where some thread can go on, so at the end of a run the budget is used up.
    pub fn ending(&self) -> Ending
        ensures { result ≡ ending_of_state (state_of_run self.now) }
    {
        ending_of(&self.kernel)
    }

    /// How many events there were.
    pub fn events(&self) -> u32
        ensures { result ≡ length (history self.now).events }
    {
        self.kernel.events() as u32
    }

    /// The threads that are Calling, Getting or Awaiting, in order.
    pub fn waiting(&self) -> Result<TidList, NoMemory>
        ensures { IfOk result (λ waiting. waiting ≡ waiting_threads (state_of_run self.now)) }
    {
        all_waiting(self.alloc, &self.kernel)
    }

    pub fn script(&self) -> &Script
        ensures { result.now ≡ self.now.script }
    {
        &self.script
    }
}
