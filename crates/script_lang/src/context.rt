//! What the lines so far declare, as far as the next line needs it.
ghost use Rattle.std.specs.Prelude.{◌≡◌, ◌≤◌, ◌∷◌, ◌++◌, [], length, OnErr, OnOk};
ghost use Rattle.dk_base.specs.declared.limits.TheConstants.{PROCESSES_MAX};
ghost use Rattle.line_text.specs.Words.{has_name as has_such_name};
ghost use Rattle.script_lang.specs.Adds.{Adds, name_fault};

use crate::blocks::{depth_after, kind_of};
use crate::item::{ScriptLine, ScriptPlace};
use crate::variables::add_variables;
use dk_base::limits::{DEPTH_MAX, VARIABLES_MAX};
use dk_base::list::{Bytes, Sequence};
use line_forms::line::{Kind, Line};
use line_forms::reason::Reason;
use line_reader::fault::Fault;
use std::alloc::Global;
use std::marker::Model;

fn has_name(names: &[Bytes], name: &[u8]) -> bool
    ensures { result ≡ has_such_name names.now name.now }
{
    names.iter().any(|other| other.slice() == name)
}

/// Declares a name where these are.
fn declare(alloc: Global, names: &mut Sequence<Bytes>, name: &[u8]) -> Result<(), Fault>
    ensures names { Adds (name_fault names.old name.now) (names.old ++ name.now ∷ []) result names.new }
    ensures few { OnOk result (length names.new ≤ 64) }
    ensures err { OnErr result (names.new ≡ names.old) }
{
    if has_name(names.slice(), name) {
        return Err(Fault::Bad(Reason::Twice));
    }
    if names.len() >= 64 {
        return Err(Fault::Bad(Reason::Many));
    }
    names.push(Sequence::from_slice(alloc, name)?)?;
    Ok(())
}

/// What stands before a line.
#[derive(Drop)]
pub struct Context {
    place: ScriptPlace,
    processes: Sequence<Bytes>,
    threads: Sequence<Bytes>,
    procedures: Sequence<Bytes>,
    variables: Sequence<Bytes>,
    depth: u32,
    after_repeat: bool,
}

impl Model for Context {
    ghost use Rattle.std.specs.Prelude.{◌≤◌, length};
    ghost use Rattle.dk_base.specs.declared.limits.TheConstants.{DEPTH_MAX, PROCESSES_MAX};
    ghost use Rattle.script_lang.specs.Context.{ContextValue};

    ghost Value = { ContextValue };

    ghost view = { λ s. record { place = s.place; processes = s.processes; threads = s.threads; procedures = s.procedures; variables = s.variables; depth = s.depth; after_repeat = s.after_repeat } };

    ghost invariant = { λ s. (length s.processes ≤ PROCESSES_MAX) × (s.depth ≤ DEPTH_MAX) };
}

impl Context {
    ghost use Rattle.std.specs.Prelude.{◌≡◌, ◌≤◌, ◌&&◌, ◌||◌, nat_le, nat_lt, length};
    ghost use Rattle.script_lang.specs.Adds.{Adds, name_fault, line_fault};
    ghost use Rattle.script_lang.specs.Context.{first_context, is_closed as is_closed_context, place_fault, context_after, context_at_place, context_with_process, context_with_spare, context_with_procedure, context_in_body, context_with_line, is_block_start};

    /// After the first line of a text.
    pub fn new(alloc: Global) -> Self
        ensures { result ≡ first_context }
    {
        Context {
            place: ScriptPlace::Start,
            processes: Sequence::new(alloc),
            threads: Sequence::new(alloc),
            procedures: Sequence::new(alloc),
            variables: Sequence::new(alloc),
            depth: 0,
            after_repeat: false,
        }
    }

    pub fn place(&self) -> ScriptPlace
        ensures { result ≡ self.now.place }
    {
        self.place
    }

    /// The number of the last process, or 0.
    pub fn process(&self) -> u32
        ensures number { result ≡ length self.now.processes }
        ensures few { result ≤ PROCESSES_MAX }
    {
        self.processes.len() as u32
    }

    /// How many blocks are open in this body.
    pub fn depth(&self) -> u32
        ensures number { result ≡ self.now.depth }
        ensures few { result ≤ DEPTH_MAX }
    {
        self.depth
    }

    /// Whether the text may end here.
    pub fn is_closed(&self) -> bool
        ensures { result ≡ is_closed_context self.now }
    {
        !matches!(self.place, ScriptPlace::Body)
    }

    fn go_to(&mut self, place: ScriptPlace)
        ensures { self.new ≡ context_at_place self.old place }
    {
        self.place = place;
    }

    fn add_process(&mut self, alloc: Global, name: &[u8]) -> Result<(), Fault>
        ensures { Adds (name_fault self.old.processes name.now) (context_with_process self.old name.now) result self.new }
    {
        declare(alloc, &mut self.processes, name)?;
        self.procedures = Sequence::new(alloc);
        self.place = ScriptPlace::Members;
        Ok(())
    }

    fn add_thread(&mut self, alloc: Global, name: &[u8]) -> Result<(), Fault>
        ensures { Adds (name_fault self.old.threads name.now) (context_with_spare self.old name.now) result self.new }
    {
        declare(alloc, &mut self.threads, name)
    }

    fn add_procedure(&mut self, alloc: Global, name: &[u8]) -> Result<(), Fault>
        ensures { Adds (name_fault self.old.procedures name.now) (context_with_procedure self.old name.now) result self.new }
    {
        declare(alloc, &mut self.procedures, name)?;
        self.begin_body(alloc);
        Ok(())
    }

    fn begin_body(&mut self, alloc: Global)
        ensures { self.new ≡ context_in_body self.old }
    {
        self.place = ScriptPlace::Body;
        self.variables = Sequence::new(alloc);
        self.depth = 0;
        self.after_repeat = false;
    }

    /// The line is over a limit: its variables are among those here.
    fn is_over_limit(&self, kind: Kind) -> bool
        ensures { result ≡ (is_block_start kind && nat_le DEPTH_MAX self.now.depth) || nat_lt VARIABLES_MAX (length self.now.variables) }
    {
        (matches!(kind, Kind::Loop | Kind::Test) && self.depth >= DEPTH_MAX)
            || self.variables.len() > VARIABLES_MAX
    }

    fn add_line(&mut self, alloc: Global, line: &Line) -> Result<(), Fault>
        ensures { Adds (line_fault self.old line.now) (context_with_line self.old line.now) result self.new }
    {
        let kind = kind_of(line);
        add_variables(alloc, &mut self.variables, line)?;
        if self.is_over_limit(kind) {
            return Err(Fault::Bad(Reason::Many));
        }
        if self.after_repeat && !matches!(kind, Kind::Act) {
            return Err(Fault::Bad(Reason::Body));
        }
        self.after_repeat = matches!(kind, Kind::Loop);
        match depth_after(self.depth, kind) {
            Some(depth) => self.depth = depth,
            None => self.place = ScriptPlace::Members,
        }
        Ok(())
    }

    /// Puts an item after these lines, if it may stand there. After a fault no more may be put.
    pub fn add(&mut self, alloc: Global, item: &ScriptLine) -> Result<(), Fault>
        ensures { Adds (place_fault self.old item.now) (context_after self.old item.now) result self.new }
    {
        match item {
            ScriptLine::Budget { .. } => self.go_to(ScriptPlace::Processes),
            ScriptLine::Process { name, .. } => self.add_process(alloc, name.slice())?,
            ScriptLine::Child { name, .. } => self.add_process(alloc, name.slice())?,
            ScriptLine::Spare { name } => self.add_thread(alloc, name.slice())?,
            ScriptLine::Thread { name } => {
                self.add_thread(alloc, name.slice())?;
                self.begin_body(alloc);
            }
            ScriptLine::Procedure { name } => self.add_procedure(alloc, name.slice())?,
            ScriptLine::Do { line } => self.add_line(alloc, line)?,
            ScriptLine::Schedule { .. } => self.go_to(ScriptPlace::Schedule),
        }
        Ok(())
    }
}
