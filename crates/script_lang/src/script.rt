//! Scripts: processes, threads, spares and server procedures, with their bodies.
use crate::laws;
use dk_base::list::{Bytes, Sequence, TidList};
use dk_base::number::{Pid, Tid};
use line_forms::line::Body;
use line_forms::tables::Tables;
use std::marker::Model;

/// A process of a script. Processes are numbered from 1 in order, children with them.
#[derive(Drop, PartialEq)]
pub struct ScriptProcess {
    pub name: Bytes,
    /// How many descriptors it may have, at most 256; a child as many as its parent.
    pub limit: u32,
    /// The process that it is a child of, if it is one.
    pub parent: Option<Pid>,
}

/// A thread of a script, or a spare, whose body is empty. They are numbered together from 1 in order.
#[derive(Drop, PartialEq)]
pub struct ScriptThread {
    pub name: Bytes,
    pub process: Pid,
    pub spare: bool,
    pub body: Body,
}

/// A server procedure. Procedures are numbered from 0 over the whole script; the number is the `entry` of its doors.
#[derive(Drop, PartialEq)]
pub struct Procedure {
    pub name: Bytes,
    pub process: Pid,
    pub body: Body,
}

/// What a line declares.
#[derive(Clone, Copy, PartialEq, Eq)]
pub enum Part {
    /// A process or a child.
    Process,
    /// A thread or a spare.
    Thread,
    Procedure,
}

/// A script.
pub struct Script {
    /// The version of the language that its text is in.
    pub(crate) version: u32,
    pub(crate) budget: u32,
    pub(crate) processes: Sequence<ScriptProcess>,
    pub(crate) threads: Sequence<ScriptThread>,
    pub(crate) procedures: Sequence<Procedure>,
    pub(crate) order: Sequence<Part>,
    pub(crate) schedule: TidList,
    /// The names with their numbers, those of paths among them.
    pub(crate) tables: Tables,
}

/// By hand, so that dropping a script is one call for its holder, who would otherwise drop each of its parts.
impl Drop for Script {
    fn drop(self) {
        let Script {
            version: _,
            budget: _,
            processes: _,
            threads: _,
            procedures: _,
            order: _,
            schedule: _,
            tables: _,
        } = self;
    }
}

impl Model for Script {
    ghost use Rattle.script_lang.specs.Value.{ScriptValue};

    ghost Value = { ScriptValue };

    ghost use Rattle.script_lang.specs.IsScript.{IsScript};

    ghost view = { λ s. record { version = s.version; budget = s.budget; processes = s.processes; threads = s.threads; procedures = s.procedures; order = s.order; paths = s.tables.paths; schedule = s.schedule } };

    ghost invariant = { λ s. IsScript s.tables (record { version = s.version; budget = s.budget; processes = s.processes; threads = s.threads; procedures = s.procedures; order = s.order; paths = s.tables.paths; schedule = s.schedule }) };
}

impl Script {
    ghost use Rattle.std.specs.Prelude.{◌≡◌, ◌<◌, ◌≤◌, length, Some, Ok, option_map, slice_get};
    ghost use Rattle.dk_base.specs.ByNumber.{at_number};
    ghost use Rattle.script_lang.specs.Canonical.{canonical_text};
    ghost use Rattle.script_lang.specs.Parsing.{parse_result};
    ghost use Rattle.script_lang.specs.Spelled.{spells};

    /// The canonical text of every script spells it, and is read as it. It does nothing: callers have the law by it.
    pub fn is_spelled(&self)
        ensures spelled { spells (canonical_text self.now) self.now }
        ensures again { parse_result (canonical_text self.now) ≡ Ok self.now }
    {
        let _tables = &self.tables;
        laws::read_is_spelled();
    }

    /// The version of the language that its text is in, from 1 to 4.
    pub fn version(&self) -> u32
        ensures { result ≡ self.now.version }
    {
        self.version
    }

    /// At most this many events are made.
    pub fn budget(&self) -> u32
        ensures { result ≡ self.now.budget }
    {
        self.budget
    }

    /// The threads and spares whose turns come first, in order.
    pub fn schedule(&self) -> &TidList
        ensures { result.now ≡ self.now.schedule }
    {
        &self.schedule
    }

    /// How many processes there are.
    pub fn processes(&self) -> u32
        ensures { result ≡ length self.now.processes }
    {
        self.tables.process_count()
    }

    /// How many threads and spares there are.
    pub fn threads(&self) -> u32
        ensures { result ≡ length self.now.threads }
    {
        self.tables.thread_count()
    }

    /// How many descriptors a process may have.
    pub fn limit(&self, process: Pid) -> u32
        requires first { 1 ≤ process.0 }
        requires declared { process.0 ≤ length self.now.processes }
        ensures { option_map (λ of. of.limit) (at_number self.now.processes process.0) ≡ Some result }
    {
        self.processes.slice()[process.0 as usize - 1].limit
    }

    /// The process that a process is a child of, if it is one.
    pub fn parent(&self, process: Pid) -> Option<Pid>
        requires first { 1 ≤ process.0 }
        requires declared { process.0 ≤ length self.now.processes }
        ensures { option_map (λ of. of.parent) (at_number self.now.processes process.0) ≡ Some result }
    {
        self.processes.slice()[process.0 as usize - 1].parent
    }

    /// The process of a thread or a spare.
    pub fn process_of(&self, thread: Tid) -> Pid
        requires first { 1 ≤ thread.0 }
        requires declared { thread.0 ≤ length self.now.threads }
        ensures { option_map (λ of. of.process) (at_number self.now.threads thread.0) ≡ Some result }
    {
        self.threads.slice()[thread.0 as usize - 1].process
    }

    /// Whether it is a spare.
    pub fn is_spare(&self, thread: Tid) -> bool
        requires first { 1 ≤ thread.0 }
        requires declared { thread.0 ≤ length self.now.threads }
        ensures { option_map (λ of. of.spare) (at_number self.now.threads thread.0) ≡ Some result }
    {
        self.threads.slice()[thread.0 as usize - 1].spare
    }

    pub fn thread_name(&self, thread: Tid) -> &Bytes
        requires first { 1 ≤ thread.0 }
        requires declared { thread.0 ≤ length self.now.threads }
        ensures { option_map (λ of. of.name) (at_number self.now.threads thread.0) ≡ Some result.now }
    {
        &self.threads.slice()[thread.0 as usize - 1].name
    }

    /// The lines of a thread; a spare has none.
    pub fn thread_body(&self, thread: Tid) -> &Body
        requires first { 1 ≤ thread.0 }
        requires declared { thread.0 ≤ length self.now.threads }
        ensures { option_map (λ of. of.body) (at_number self.now.threads thread.0) ≡ Some result.now }
    {
        &self.threads.slice()[thread.0 as usize - 1].body
    }

    /// The name of a server procedure.
    pub fn entry_name(&self, entry: u32) -> &Bytes
        requires { entry < length self.now.procedures }
        ensures { option_map (λ of. of.name) (slice_get self.now.procedures entry) ≡ Some result.now }
    {
        &self.procedures.slice()[entry as usize].name
    }

    /// The lines of a server procedure.
    pub fn proc_body(&self, entry: u32) -> &Body
        requires { entry < length self.now.procedures }
        ensures { option_map (λ of. of.body) (slice_get self.now.procedures entry) ≡ Some result.now }
    {
        &self.procedures.slice()[entry as usize].body
    }

    /// The threads with the spares, in order.
    pub fn thread_list(&self) -> &[ScriptThread]
        ensures { result.now ≡ self.now.threads }
    {
        self.threads.slice()
    }

    /// The server procedures, in order.
    pub fn procedure_list(&self) -> &[Procedure]
        ensures { result.now ≡ self.now.procedures }
    {
        self.procedures.slice()
    }
}
