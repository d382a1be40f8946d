//! What the lines of a history have declared: processes, threads, procedures and paths by name.

use crate::named::{
    NamedProcedure, NamedProcess, NamedThread, place_of_procedure, place_of_process,
    place_of_thread, place_of_used_name,
};
use crate::table::Table;
use dk_base::number::{PathId, Pid, Tid};
use std::alloc::Global;
use std::marker::Model;

/// What the lines of a history have declared so far. Processes, and threads with spares, are numbered from 1 in the order of
/// their lines; procedures and paths from 0.
#[derive(Drop)]
pub struct Names {
    pub(crate) processes: Vec<NamedProcess>,
    pub(crate) threads: Vec<NamedThread>,
    pub(crate) procedures: Vec<NamedProcedure>,
    pub(crate) paths: Table,
    /// Of each path, in the same order, what programs call it.
    pub(crate) texts: Table,
}

impl Model for Names {
    ghost use Rattle.std.specs.Prelude.{◌<◌, length};
    ghost use Rattle.history_text.specs.Names.{Names as Declared};
    ghost use Rattle.history_text.specs.NameLimits.{AreLimited};

    ghost Value = { Declared };

    ghost view = { λ names. record { processes = names.processes.items; threads = names.threads.items; procedures = names.procedures.items; paths = names.paths; texts = names.texts } };

    ghost invariant = { λ names. AreLimited names.processes.items names.threads.items names.procedures.items names.paths };
}

impl Names {
    ghost use Rattle.std.specs.Prelude.{◌≡◌, ◌||◌, option_copied};
    ghost use Rattle.line_text.specs.Words.{has_name};
    ghost use Rattle.dk_base.specs.ByNumber.{at_number};
    ghost use Rattle.history_text.specs.Names.{no_names};
    ghost use Rattle.history_text.specs.Lookups.{process_word, thread_word, procedure_word, path_word, process_number as process_numbered, thread_number as thread_numbered, procedure_number as procedure_numbered, path_number as path_numbered, process_of as process_of_thread, parent_of as parent_of_process, limit_of as limit_of_process, member_count as members_of, procedure_count as procedures_of, child_number as child_numbered, used_process_number as used_process_numbered, is_process_name_used as is_process_name, is_thread_name_used as is_thread_name};
    ghost use Rattle.history_text.specs.Faults.{is_name_too_late as is_name_late};

    /// Nothing.
    pub fn new(alloc: Global) -> Self
        ensures { result ≡ no_names }
    {
        Names {
            processes: Vec::new(alloc),
            threads: Vec::new(alloc),
            procedures: Vec::new(alloc),
            paths: Table::new(alloc),
            texts: Table::new(alloc),
        }
    }

    /// The process of a number.
    fn process_at(&self, number: u32) -> Option<&NamedProcess>
        ensures { option_copied result ≡ at_number self.now.processes number }
    {
        if number == 0 {
            return None;
        }
        self.processes.get(number as usize - 1)
    }

    /// The thread or spare of a number.
    fn thread_at(&self, thread: Tid) -> Option<&NamedThread>
        ensures { option_copied result ≡ at_number self.now.threads thread.0 }
    {
        if thread.0 == 0 {
            return None;
        }
        self.threads.get(thread.0 as usize - 1)
    }

    /// What a process is called, or nothing where there is none.
    pub fn process_name(&self, process: Pid) -> &[u8]
        ensures { result.now ≡ process_word self.now process }
    {
        match self.process_at(process.0) {
            Some(process) => process.name(),
            None => &[],
        }
    }

    /// What a thread or spare is called, or nothing where there is none.
    pub fn thread_name(&self, thread: Tid) -> &[u8]
        ensures { result.now ≡ thread_word self.now thread }
    {
        match self.thread_at(thread) {
            Some(thread) => thread.name(),
            None => &[],
        }
    }

    /// The name of a procedure, or nothing where there is none.
    pub fn procedure_name(&self, entry: u32) -> &[u8]
        ensures { result.now ≡ procedure_word self.now entry }
    {
        match self.procedures.get(entry as usize) {
            Some(procedure) => procedure.name.slice(),
            None => &[],
        }
    }

    /// The name of a path, or nothing where there is none.
    pub fn path_name(&self, path: PathId) -> &[u8]
        ensures { result.now ≡ path_word self.now path }
    {
        self.paths.at(path.0 as usize)
    }

    /// The number of the process that is called so.
    pub fn process_number(&self, name: &[u8]) -> Option<u32>
        ensures { result ≡ process_numbered self.now name.now }
    {
        let place = place_of_process(&self.processes, name)?;
        Some(place as u32 + 1)
    }

    /// The number of the thread or spare that is called so.
    pub fn thread_number(&self, name: &[u8]) -> Option<u32>
        ensures { result ≡ thread_numbered self.now name.now }
    {
        let place = place_of_thread(&self.threads, name)?;
        Some(place as u32 + 1)
    }

    /// The number of this process's procedure of this name.
    pub fn procedure_number(&self, process: u32, name: &[u8]) -> Option<u32>
        ensures { result ≡ procedure_numbered self.now process name.now }
    {
        let place = place_of_procedure(&self.procedures, process, name)?;
        Some(place as u32)
    }

    /// The number of the path of this name.
    pub fn path_number(&self, name: &[u8]) -> Option<u32>
        ensures { result ≡ path_numbered self.now name.now }
    {
        let place = self.paths.number_of(name)?;
        Some(place as u32)
    }

    /// The process of a thread, or 0 where there is none of this number.
    pub fn process_of(&self, thread: Tid) -> u32
        ensures { result ≡ process_of_thread self.now thread }
    {
        match self.thread_at(thread) {
            Some(thread) => thread.process,
            None => 0,
        }
    }

    /// The process that one is a child of, if it is one.
    pub fn parent_of(&self, process: u32) -> Option<Pid>
        ensures { result ≡ parent_of_process self.now process }
    {
        let process = self.process_at(process)?;
        process.parent
    }

    /// The number of this process's child that is called so.
    pub fn child_number(&self, process: u32, name: &[u8]) -> Option<u32>
        ensures { result ≡ child_numbered self.now process name.now }
    {
        let number = self.process_number(name)?;
        let parent = self.parent_of(number)?;
        if parent.0 == process {
            Some(number)
        } else {
            None
        }
    }

    /// The number of the process that is called so, or was.
    pub fn used_process_number(&self, name: &[u8]) -> Option<u32>
        ensures { result ≡ used_process_numbered self.now name.now }
    {
        let place = place_of_used_name(&self.processes, name)?;
        Some(place as u32 + 1)
    }

    /// How many descriptors a process may have, or 0 where there is none of this number.
    pub fn limit_of(&self, process: Pid) -> u32
        ensures { result ≡ limit_of_process self.now process }
    {
        match self.process_at(process.0) {
            Some(process) => process.limit,
            None => 0,
        }
    }

    /// How many threads and spares a process has.
    pub fn member_count(&self, process: u32) -> usize
        ensures { result ≡ members_of self.now process }
    {
        self.threads
            .iter()
            .filter(|thread| thread.process == process)
            .count()
    }

    /// How many procedures a process has.
    pub fn procedure_count(&self, process: u32) -> usize
        ensures { result ≡ procedures_of self.now process }
    {
        self.procedures
            .iter()
            .filter(|procedure| procedure.process == process)
            .count()
    }

    /// Whether a process is called so, or was.
    pub fn is_process_name_used(&self, name: &[u8]) -> bool
        ensures { result ≡ is_process_name self.now name.now }
    {
        self.processes
            .iter()
            .any(|process| process.was_called(name))
    }

    /// Whether a thread or spare is called so, or was.
    pub fn is_thread_name_used(&self, name: &[u8]) -> bool
        ensures { result ≡ is_thread_name self.now name.now }
    {
        self.threads.iter().any(|thread| thread.was_called(name))
    }

    /// Whether a line `name` gave a child its name, or something mentioned it.
    pub fn is_name_too_late(&self, child: Pid) -> bool
        ensures { result ≡ is_name_late self.now child }
    {
        match self.process_at(child.0) {
            Some(process) => process.given.is_some() || process.mentioned,
            None => false,
        }
    }

    /// Whether a path has this name, or this text.
    pub fn has_path(&self, name: &[u8], text: &[u8]) -> bool
        ensures { result ≡ (has_name self.now.paths name.now || has_name self.now.texts text.now) }
    {
        self.paths.has(name) || self.texts.has(text)
    }
}
