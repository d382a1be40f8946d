//! The names that a script declares, with their numbers.
ghost use Rattle.std.specs.Prelude.{◌≡◌, IfOk};

use crate::paths::PathTable;
use crate::search::{ProcedureName, name_at, place_of, place_of_procedure, procedure_at};
use dk_base::duplicate::Duplicate;
use dk_base::error::NoMemory;
use dk_base::list::{Bytes, Sequence};
use dk_base::number::{PathId, Pid, Tid};
use std::alloc::Global;
use std::marker::Model;

/// The names of a script with their numbers. Processes, and threads with spares, are numbered from 1 in the order of
/// their lines, procedures from 0 over the whole script in the order of their lines, and paths from 0 in the order of
/// their first uses.
#[derive(Drop)]
pub struct Tables {
    processes: Sequence<Bytes>,
    /// Of each process that which it is a child of, if it is one.
    parents: Vec<Option<Pid>>,
    threads: Sequence<Bytes>,
    procedures: Sequence<ProcedureName>,
    paths: PathTable,
}

impl Model for Tables {
    ghost use Rattle.line_forms.specs.Tables.{Tables as Names};

    ghost Value = { Names };

    ghost use Rattle.line_forms.specs.TableLimits.{HasNumbers};

    ghost view = { λ tables. record { processes = tables.processes; parents = tables.parents.items; threads = tables.threads; procedures = tables.procedures; paths = tables.paths } };

    ghost invariant = { λ tables. HasNumbers tables.processes tables.threads tables.procedures };
}

fn copy_of(alloc: Global, parents: &[Option<Pid>]) -> Result<Vec<Option<Pid>>, NoMemory>
    ensures { IfOk result (λ copy. copy.items ≡ parents.now) }
{
    match Vec::from_slice(alloc, parents) {
        Ok(parents) => Ok(parents),
        Err(_) => Err(NoMemory),
    }
}

impl Tables {
    ghost use Rattle.std.specs.Prelude.{◌≡◌, ◌<◌, ◌↔◌, ◌∷◌, ◌++◌, [], length, take, IfOk, IsTrue, OnOk, OnErr};
    ghost use Rattle.line_text.specs.Words.{with_distinct_name};
    ghost use Rattle.line_forms.specs.Tables.{child_number as child_numbered, earlier_number as earlier_numbered, is_child as is_child_of, process_number as process_numbered, thread_number as thread_numbered, entry_number as entry_numbered, path_number as path_numbered};
    ghost use Rattle.line_forms.specs.CanonicalWords.{process_word, thread_word, procedure_word, path_word};
    ghost use Rattle.line_forms.specs.TableChanges.{no_names, tables_with_process, tables_with_thread, tables_with_procedure, tables_with_path};

    /// No name.
    pub fn new(alloc: Global) -> Self
        ensures { result ≡ no_names }
    {
        Tables {
            processes: Sequence::new(alloc),
            parents: Vec::new(alloc),
            threads: Sequence::new(alloc),
            procedures: Sequence::new(alloc),
            paths: PathTable::new(alloc),
        }
    }

    /// Gives a process, which may be a child of another, the next number. Want of memory leaves all as it was.
    pub fn add_process(
        &mut self,
        alloc: Global,
        name: &[u8],
        parent: Option<Pid>,
    ) -> Result<(), NoMemory>
        requires { length self.old.processes < 4294967294 }
        ensures ok { OnOk result (self.new ≡ tables_with_process self.old name.now parent) }
        ensures err { OnErr result (self.new ≡ self.old) }
    {
        let name = Sequence::from_slice(alloc, name)?;
        if self.parents.reserve(1).is_err() {
            return Err(NoMemory);
        }
        self.processes.push(name)?;
        self.parents.push_reserved(parent);
        Ok(())
    }

    /// Gives a thread or a spare the next number. Want of memory leaves all as it was.
    pub fn add_thread(&mut self, alloc: Global, name: &[u8]) -> Result<(), NoMemory>
        requires { length self.old.threads < 4294967294 }
        ensures ok { OnOk result (self.new ≡ tables_with_thread self.old name.now) }
        ensures err { OnErr result (self.new ≡ self.old) }
    {
        self.threads.push(Sequence::from_slice(alloc, name)?)
    }

    /// Gives a procedure of this process the next number. Want of memory leaves all as it was.
    pub fn add_procedure(
        &mut self,
        alloc: Global,
        process: u32,
        name: &[u8],
    ) -> Result<(), NoMemory>
        requires { length self.old.procedures < 4294967294 }
        ensures ok { OnOk result (self.new ≡ tables_with_procedure self.old process name.now) }
        ensures err { OnErr result (self.new ≡ self.old) }
    {
        let name = Sequence::from_slice(alloc, name)?;
        self.procedures.push(ProcedureName::new(process, name))
    }

    /// Gives a path that is not there the next number. Want of memory leaves all as it was.
    pub fn add_path(&mut self, alloc: Global, name: &[u8]) -> Result<(), NoMemory>
        requires { length self.old.paths < 4294967294 }
        ensures ok { OnOk result (self.new ≡ tables_with_path self.old name.now) }
        ensures err { OnErr result (self.new ≡ self.old) }
    {
        self.paths.add(alloc, name)
    }

    pub fn process_count(&self) -> u32
        ensures { result ≡ length self.now.processes }
    {
        self.processes.len() as u32
    }

    pub fn thread_count(&self) -> u32
        ensures { result ≡ length self.now.threads }
    {
        self.threads.len() as u32
    }

    pub fn procedure_count(&self) -> u32
        ensures { result ≡ length self.now.procedures }
    {
        self.procedures.len() as u32
    }

    /// The number of the process of this name.
    pub fn process_number(&self, name: &[u8]) -> Option<u32>
        ensures { result ≡ process_numbered self.now name.now }
    {
        let place = place_of(self.processes.slice(), name)?;
        Some(place as u32 + 1)
    }

    /// The same, of the first processes, which are so many.
    pub fn earlier_number(&self, before: u32, name: &[u8]) -> Option<u32>
        ensures { result ≡ earlier_numbered (take before self.now.processes) name.now }
    {
        let names = self.processes.slice();
        let place = place_of(&names[..names.len().min(before as usize)], name)?;
        Some(place as u32 + 1)
    }

    /// Whether a process is a child of this one.
    fn is_child(&self, process: u32, number: u32) -> bool
        ensures { result ≡ is_child_of self.now process number }
    {
        if number == 0 {
            return false;
        }
        match self.parents.get(number as usize - 1) {
            Some(Some(parent)) => parent.0 == process,
            _ => false,
        }
    }

    /// The number of this process's child of this name.
    pub fn child_number(&self, process: u32, name: &[u8]) -> Option<u32>
        ensures { result ≡ child_numbered self.now process name.now }
    {
        let number = self.process_number(name)?;
        if self.is_child(process, number) {
            Some(number)
        } else {
            None
        }
    }

    /// The number of the thread or spare of this name.
    pub fn thread_number(&self, name: &[u8]) -> Option<u32>
        ensures { result ≡ thread_numbered self.now name.now }
    {
        let place = place_of(self.threads.slice(), name)?;
        Some(place as u32 + 1)
    }

    /// The number of this process's procedure of this name.
    pub fn entry_number(&self, process: u32, name: &[u8]) -> Option<u32>
        ensures { result ≡ entry_numbered self.now process name.now }
    {
        let place = place_of_procedure(self.procedures.slice(), process, name)?;
        Some(place as u32)
    }

    /// The number of a path. One that is not there gets the next.
    pub fn path_number(&self, name: &[u8]) -> u32
        ensures { result ≡ path_numbered self.now name.now }
    {
        self.paths.number_of(name)
    }

    /// The name of a process, or nothing where there is none.
    pub fn process_name(&self, process: Pid) -> &[u8]
        ensures { result.now ≡ process_word self.now process }
    {
        name_at(self.processes.slice(), process.0)
    }

    /// The name of a thread or spare, or nothing where there is none.
    pub fn thread_name(&self, thread: Tid) -> &[u8]
        ensures { result.now ≡ thread_word self.now thread }
    {
        name_at(self.threads.slice(), thread.0)
    }

    /// The name of a procedure, or nothing where there is none.
    pub fn procedure_name(&self, entry: u32) -> &[u8]
        ensures { result.now ≡ procedure_word self.now entry }
    {
        procedure_at(self.procedures.slice(), entry)
    }

    /// The path of a number, or nothing where there is none.
    pub fn path_name(&self, path: PathId) -> &[u8]
        ensures { result.now ≡ path_word self.now path }
    {
        self.paths.name_of(path.0)
    }

    pub fn copy(&self, alloc: Global) -> Result<Self, NoMemory>
        ensures { IfOk result (λ copy. copy ≡ self.now) }
    {
        Ok(Tables {
            processes: self.processes.duplicate(alloc)?,
            parents: copy_of(alloc, &self.parents)?,
            threads: self.threads.duplicate(alloc)?,
            procedures: self.procedures.duplicate(alloc)?,
            paths: self.paths.copy()?,
        })
    }

    /// Whether the same paths have the same numbers.
    pub fn same_paths(&self, other: &Tables) -> bool
        ensures { IsTrue result ↔ (self.now.paths ≡ other.now.paths) }
    {
        self.paths.same(&other.paths)
    }
}
