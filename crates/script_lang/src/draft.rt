//! A script while its lines are read.
ghost use Rattle.std.specs.Prelude.{◌≡◌, ◌≤◌, ◌∷◌, ◌++◌, [], true, length, OnOk};
ghost use Rattle.dk_base.specs.declared.limits.TheConstants.{DEPTH_MAX};
ghost use Rattle.line_forms.specs.Words.{depth_after as depth_after_item, kind_of as kind_of_line};
ghost use Rattle.script_lang.specs.Scripts.{limit_at, script_child, script_process};
ghost use Rattle.script_lang.specs.IsScript.{IsScript};
ghost use Rattle.script_lang.specs.Drafts.{empty_draft, draft_in_body, draft_after_body, draft_after, draft_with_part, draft_with_process, draft_with_thread, draft_with_procedure, draft_with_line, script_of_draft};

use crate::blocks::{depth_after, kind_of};
use crate::item::ScriptLine;
use crate::script::{Part, Procedure, Script, ScriptProcess, ScriptThread};
use dk_base::error::NoMemory;
use dk_base::limits::{BUDGET_MAX, DESCRIPTORS_MAX};
use dk_base::list::{Bytes, Sequence, TidList};
use dk_base::number::{Pid, Tid};
use line_forms::line::{Body, Line};
use line_forms::tables::Tables;
use std::alloc::Global;
use std::mem;

/// Whose body the lines are in.
#[derive(Drop)]
pub enum Owner {
    Nobody,
    Thread(Bytes),
    Procedure(Bytes),
}

/// The parts of a script that the lines so far declare, and the body that they have begun.
#[derive(Drop)]
pub struct Draft {
    pub budget: u32,
    pub processes: Sequence<ScriptProcess>,
    pub threads: Sequence<ScriptThread>,
    pub procedures: Sequence<Procedure>,
    pub order: Sequence<Part>,
    pub schedule: TidList,
    pub owner: Owner,
    pub body: Body,
}

/// The limit of a process of these, or the greatest where there is none of this number.
fn limit_at(processes: &[ScriptProcess], p: Pid) -> u32
    ensures { result ≡ limit_at processes.now p }
{
    if p.0 == 0 {
        return DESCRIPTORS_MAX;
    }
    match processes.get(p.0 as usize - 1) {
        Some(process) => process.limit,
        None => DESCRIPTORS_MAX,
    }
}

impl Draft {
    /// The draft of no lines.
    pub fn new(alloc: Global) -> Self
        ensures { result ≡ empty_draft }
    {
        Draft {
            budget: BUDGET_MAX,
            processes: Sequence::new(alloc),
            threads: Sequence::new(alloc),
            procedures: Sequence::new(alloc),
            order: Sequence::new(alloc),
            schedule: Sequence::new(alloc),
            owner: Owner::Nobody,
            body: Sequence::new(alloc),
        }
    }

    /// A body begins, of a thread or a procedure.
    fn open(&mut self, alloc: Global, part: Part, owner: Owner) -> Result<(), NoMemory>
        ensures { OnOk result (self.new ≡ draft_in_body self.old part owner) }
    {
        self.order.push(part)?;
        self.owner = owner;
        self.body = Sequence::new(alloc);
        Ok(())
    }

    fn add_thread(
        &mut self,
        process: Pid,
        name: Bytes,
        spare: bool,
        body: Body,
    ) -> Result<(), NoMemory>
        requires { process.0 ≡ length self.old.processes }
        ensures { OnOk result (self.new ≡ draft_with_thread self.old name spare body) }
    {
        self.threads.push(ScriptThread {
            name,
            process,
            spare,
            body,
        })
    }

    fn add_procedure(&mut self, process: Pid, name: Bytes, body: Body) -> Result<(), NoMemory>
        requires { process.0 ≡ length self.old.processes }
        ensures { OnOk result (self.new ≡ draft_with_procedure self.old name body) }
    {
        self.procedures.push(Procedure {
            name,
            process,
            body,
        })
    }

    /// The body ends.
    fn close(&mut self, alloc: Global, process: Pid) -> Result<(), NoMemory>
        requires { process.0 ≡ length self.old.processes }
        ensures { OnOk result (self.new ≡ draft_after_body self.old) }
    {
        let body = mem::replace(&mut self.body, Sequence::new(alloc));
        match mem::replace(&mut self.owner, Owner::Nobody) {
            Owner::Nobody => Ok(()),
            Owner::Thread(name) => self.add_thread(process, name, false, body),
            Owner::Procedure(name) => self.add_procedure(process, name, body),
        }
    }

    /// A line of the body, or its end, where so many blocks are open before it.
    fn add_line(
        &mut self,
        alloc: Global,
        process: Pid,
        depth: u32,
        line: Line,
    ) -> Result<(), NoMemory>
        requires process { process.0 ≡ length self.old.processes }
        requires depth { depth ≤ DEPTH_MAX }
        ensures { OnOk result (self.new ≡ draft_with_line self.old line (depth_after_item depth (kind_of_line line))) }
    {
        match depth_after(depth, kind_of(&line)) {
            Some(_) => self.body.push(line),
            None => self.close(alloc, process),
        }
    }

    fn add_process(&mut self, name: Bytes, limit: u32) -> Result<(), NoMemory>
        ensures { OnOk result (self.new ≡ draft_with_part (draft_with_process self.old (script_process name limit)) Part.Process) }
    {
        self.processes.push(ScriptProcess {
            name,
            limit,
            parent: None,
        })?;
        self.order.push(Part::Process)
    }

    /// A child, which has the limit of its parent.
    fn add_child(&mut self, name: Bytes, parent: Pid) -> Result<(), NoMemory>
        ensures { OnOk result (self.new ≡ draft_with_part (draft_with_process self.old (script_child name parent)) Part.Process) }
    {
        let limit = limit_at(self.processes.slice(), parent);
        self.processes.push(ScriptProcess {
            name,
            limit,
            parent: Some(parent),
        })?;
        self.order.push(Part::Process)
    }

    fn add_spare(&mut self, alloc: Global, process: Pid, name: Bytes) -> Result<(), NoMemory>
        requires { process.0 ≡ length self.old.processes }
        ensures { OnOk result (self.new ≡ draft_with_part (draft_with_thread self.old name true []) Part.Thread) }
    {
        self.add_thread(process, name, true, Sequence::new(alloc))?;
        self.order.push(Part::Thread)
    }

    fn add_turns(&mut self, threads: &[Tid]) -> Result<(), NoMemory>
        ensures { OnOk result (self.new ≡ record self.old { schedule = self.old.schedule ++ threads.now }) }
    {
        self.schedule.append(threads)
    }

    /// The item that stands after these lines, where this is the last process, and so many blocks are open before it.
    pub fn add(
        &mut self,
        alloc: Global,
        process: Pid,
        depth: u32,
        item: ScriptLine,
    ) -> Result<(), NoMemory>
        requires process { process.0 ≡ length self.old.processes }
        requires depth { depth ≤ DEPTH_MAX }
        ensures { OnOk result (self.new ≡ draft_after self.old depth item) }
    {
        match item {
            ScriptLine::Budget { events } => self.budget = events,
            ScriptLine::Process { name, limit } => self.add_process(name, limit)?,
            ScriptLine::Child { name, parent } => self.add_child(name, parent)?,
            ScriptLine::Spare { name } => self.add_spare(alloc, process, name)?,
            ScriptLine::Thread { name } => self.open(alloc, Part::Thread, Owner::Thread(name))?,
            ScriptLine::Procedure { name } => {
                self.open(alloc, Part::Procedure, Owner::Procedure(name))?;
            }
            ScriptLine::Do { line } => self.add_line(alloc, process, depth, line)?,
            ScriptLine::Schedule { threads } => self.add_turns(threads.slice())?,
        }
        Ok(())
    }

    /// The script of these parts, with these names, of a text of this version.
    pub fn into_script(self, version: u32, tables: Tables) -> Script
        requires { IsScript tables (script_of_draft version tables.paths self) }
        ensures { result ≡ script_of_draft version tables.paths self }
    {
        Script {
            version,
            budget: self.budget,
            processes: self.processes,
            threads: self.threads,
            procedures: self.procedures,
            order: self.order,
            schedule: self.schedule,
            tables,
        }
    }
}
