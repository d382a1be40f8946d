//! What a line declares and mentions.
ghost use Rattle.std.specs.Prelude.{◌≡◌, IfOk};
ghost use Rattle.history_text.specs.Changes.{called_process, new_process};

use crate::calling::{call_members, reversed_copies, threads_of_members};
use crate::line::{Asked, Line, Member};
use crate::named::{NamedProcedure, NamedProcess};
use crate::names::Names;
use crate::short::{are_members_short, are_short, is_short};
use dk_base::error::NoMemory;
use dk_base::list::Bytes;
use dk_base::number::{Pid, Tid};
use std::alloc::Global;

/// More than this is nowhere declared, so that each number has 32 bits.
const COUNT_MAX: usize = 4_294_967_290;

fn named_process(
    alloc: Global,
    name: &Bytes,
    limit: u32,
    parent: Option<Pid>,
) -> Result<NamedProcess, NoMemory>
    ensures { IfOk result (λ process. process ≡ new_process name.now limit parent) }
{
    Ok(NamedProcess {
        declared: name.copy(alloc)?,
        given: None,
        limit,
        parent,
        mentioned: false,
    })
}

fn call_process(process: &mut NamedProcess, name: Bytes)
    ensures { process.new ≡ called_process name process.old }
{
    process.given = Some(name);
}

impl Names {
    ghost use Rattle.std.specs.Prelude.{◌≡◌, OnErr, OnOk, false, true};
    ghost use Rattle.history_text.specs.NameLimits.{is_short};
    ghost use Rattle.line_text.specs.Words.{has_name};
    ghost use Rattle.history_text.specs.Lookups.{process_of};
    ghost use Rattle.history_text.specs.Changes.{called_process, changed_at, new_process, with_asked_mention, with_line, with_mention, with_names, with_path, with_procedure, with_process};
    ghost use Rattle.history_text.specs.Faults.{is_twice};

    #[tactic(auto, using(crate::proofs::ShortKept::all_snoc, crate::proofs::ShortKept::all_append, crate::proofs::ShortKept::all_new))]
    fn add_process(
        &mut self,
        alloc: Global,
        name: &Bytes,
        limit: u32,
        parent: Option<Pid>,
        members: &[Member],
    ) -> Result<(), NoMemory>
        ensures ok { OnOk result (self.new ≡ with_process self.old (new_process name.now limit parent) members.now) }
        ensures err { OnErr result (self.new ≡ self.old) }
    {
        if self.processes.len() >= COUNT_MAX || !is_short(name) || !are_members_short(members) {
            return Err(NoMemory);
        }
        let process = named_process(alloc, name, limit, parent)?;
        let mut more = threads_of_members(alloc, self.processes.len() as u32 + 1, members)?;
        if more.len() >= COUNT_MAX || self.threads.len() >= COUNT_MAX - more.len() {
            return Err(NoMemory);
        }
        if self.processes.reserve(1).is_err() {
            return Err(NoMemory);
        }
        if self.threads.append(&mut more).is_err() {
            return Err(NoMemory);
        }
        self.processes.push_reserved(process);
        Ok(())
    }

    // It takes no memory.
    fn call_child(&mut self, child: Pid, name: Bytes)
        requires { is_short name ≡ true }
        ensures { self.new ≡ record self.old { processes = changed_at self.old.processes child.0 (called_process name) } }
    {
        if 1 <= child.0 && child.0 as usize <= self.processes.len() {
            call_process(&mut self.processes[child.0 as usize - 1], name);
        }
    }

    fn call(
        &mut self,
        alloc: Global,
        child: Pid,
        name: &Bytes,
        members: &[Bytes],
    ) -> Result<(), NoMemory>
        ensures ok { OnOk result (self.new ≡ with_names self.old child.0 name.now members.now) }
        ensures err { OnErr result (self.new ≡ self.old) }
    {
        if !is_short(name) || !are_short(members) {
            return Err(NoMemory);
        }
        let name = name.copy(alloc)?;
        let copies = reversed_copies(alloc, members)?;
        call_members(self.threads.as_mut_slice(), child.0, copies);
        self.call_child(child, name);
        Ok(())
    }

    #[tactic(auto, using(crate::proofs::ShortKept::all_snoc))]
    fn add_procedure(&mut self, alloc: Global, name: &Bytes, process: Pid) -> Result<(), NoMemory>
        ensures ok { OnOk result (self.new ≡ with_procedure self.old process.0 name.now) }
        ensures err { OnErr result (self.new ≡ self.old) }
    {
        if self.procedures.len() >= COUNT_MAX || !is_short(name) {
            return Err(NoMemory);
        }
        let procedure = NamedProcedure {
            process: process.0,
            name: name.copy(alloc)?,
        };
        if self.procedures.push(procedure).is_err() {
            return Err(NoMemory);
        }
        Ok(())
    }

    #[tactic(auto, using(crate::proofs::ShortKept::all_snoc))]
    fn add_path(&mut self, alloc: Global, name: &Bytes, text: &Bytes) -> Result<(), NoMemory>
        requires name { has_name self.old.paths name.now ≡ false }
        requires text { has_name self.old.texts text.now ≡ false }
        ensures ok { OnOk result (self.new ≡ with_path self.old name.now text.now) }
        ensures err { OnErr result (self.new ≡ self.old) }
    {
        if self.paths.len() >= COUNT_MAX || !is_short(name) {
            return Err(NoMemory);
        }
        self.paths.add(alloc, name.slice())?;
        if self.texts.add(alloc, text.slice()).is_err() {
            self.paths.remove_last();
            return Err(NoMemory);
        }
        Ok(())
    }

    fn mention_of_event(&mut self, thread: Tid, root: Tid, asked: &Asked)
        ensures { self.new ≡ with_asked_mention (with_mention (with_mention self.old (process_of self.old thread)) (process_of self.old root)) asked.now }
    {
        let process = self.process_of(thread);
        let root_process = self.process_of(root);
        self.mention(process);
        self.mention(root_process);
        if let Asked::Enter(request) = asked {
            let mentioned = self.mentioned_by(request);
            self.mention(mentioned);
        }
    }

    /// What a line declares is declared, and what it mentions is mentioned. Want of memory leaves all as it was.
    #[tactic(auto, using(crate::proofs::Once::once_of_path))]
    pub fn with_line(&mut self, alloc: Global, line: &Line) -> Result<(), NoMemory>
        requires { is_twice self.old line.now ≡ false }
        ensures ok { OnOk result (self.new ≡ with_line self.old line.now) }
        ensures err { OnErr result (self.new ≡ self.old) }
    {
        match line {
            Line::Process {
                name,
                limit,
                members,
            } => self.add_process(alloc, name, *limit, None, members.slice()),
            Line::Child {
                name,
                parent,
                members,
            } => {
                let limit = self.limit_of(*parent);
                self.add_process(alloc, name, limit, Some(*parent), members.slice())
            }
            Line::Name {
                child,
                name,
                members,
            } => self.call(alloc, *child, name, members.slice()),
            Line::Procedure { name, process } => {
                self.add_procedure(alloc, name, *process)?;
                self.mention(process.0);
                Ok(())
            }
            Line::Path { name, text } => self.add_path(alloc, name, text),
            Line::Event {
                thread,
                root,
                asked,
                ..
            } => {
                self.mention_of_event(*thread, *root, asked);
                Ok(())
            }
            Line::End { .. } => Ok(()),
        }
    }
}
