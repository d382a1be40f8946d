//! Operands that are names.

ghost use Rattle.std.specs.Prelude.{◌≡◌};
ghost use Rattle.line_reader.specs.Operands.{name as name_read, procedure as procedure_read, thread_from_word as thread_from_word_read, thread as thread_read, process as process_read, parent as parent_read, child as child_read, path as path_read};
ghost use Rattle.line_reader.specs.Combinators.{items_to};
ghost use Rattle.line_reader.specs.Operands.{is_no_stop};
ghost use Rattle.line_reader.specs.ListContracts.{next_item};
ghost use Rattle.line_reader.specs.OperandContracts.{Reads};

use crate::fault::Fault;
use crate::operands::Operands;
use dk_base::list::{Bytes, Sequence, TidList};
use dk_base::number::{PathId, Pid, Tid};
use line_forms::tables::Tables;
use std::alloc::Global;

impl<'a> Operands<'a> {
    /// NAME, VAR.
    pub fn variable(&mut self, alloc: Global) -> Result<Bytes, Fault>
        ensures { Reads name_read self.old result self.new }
    {
        let name = self.name()?;
        Ok(Sequence::from_slice(alloc, name)?)
    }

    /// PROC: a procedure of this process.
    pub fn procedure(&mut self, tables: &Tables, process: u32) -> Result<u32, Fault>
        ensures { Reads (procedure_read tables.now process) self.old result self.new }
    {
        let name = self.name()?;
        Ok(self.declared_number(tables.entry_number(process, name)))
    }

    /// The thread or spare whose name a word is.
    pub fn thread_from_word(&mut self, tables: &Tables, word: &[u8]) -> Result<Tid, Fault>
        ensures { Reads (thread_from_word_read tables.now word.now) self.old result self.new }
    {
        let name = self.name_from_word(word)?;
        Ok(Tid(self.declared_number(tables.thread_number(name))))
    }

    /// THREAD.
    pub fn thread(&mut self, tables: &Tables) -> Result<Tid, Fault>
        ensures { Reads (thread_read tables.now) self.old result self.new }
    {
        let word = self.next_word()?;
        self.thread_from_word(tables, word)
    }

    fn next_thread(&mut self, tables: &Tables) -> Result<Option<Tid>, Fault>
        ensures { Reads (next_item is_no_stop (thread_from_word_read tables.now)) self.old result self.new }
    {
        if self.peek().is_none() {
            return Ok(None);
        }
        Ok(Some(self.thread(tables)?))
    }

    /// THREAD .. to the line's end.
    pub fn threads(&mut self, alloc: Global, tables: &Tables) -> Result<TidList, Fault>
        ensures { Reads (items_to is_no_stop (thread_from_word_read tables.now)) self.old result self.new }
    {
        let mut threads = Sequence::new(alloc);
        while let Some(thread) = self.next_thread(tables)? {
            threads.push(thread)?;
        }
        Ok(threads)
    }

    /// PROCESS.
    pub fn process(&mut self, tables: &Tables) -> Result<Pid, Fault>
        ensures { Reads (process_read tables.now) self.old result self.new }
    {
        let name = self.name()?;
        Ok(Pid(self.declared_number(tables.process_number(name))))
    }

    /// PARENT: a process that stands before, where so many do.
    pub fn parent(&mut self, tables: &Tables, before: u32) -> Result<Pid, Fault>
        ensures { Reads (parent_read tables.now before) self.old result self.new }
    {
        let name = self.name()?;
        Ok(Pid(self.declared_number(tables.earlier_number(before, name))))
    }

    /// CHILD: a child of this process.
    pub fn child(&mut self, tables: &Tables, process: u32) -> Result<Pid, Fault>
        ensures { Reads (child_read tables.now process) self.old result self.new }
    {
        let name = self.name()?;
        Ok(Pid(self.declared_number(tables.child_number(process, name))))
    }

    /// PATH.
    pub fn path(&mut self, tables: &Tables) -> Result<PathId, Fault>
        ensures { Reads (path_read tables.now) self.old result self.new }
    {
        let name = self.name()?;
        Ok(PathId(tables.path_number(name)))
    }
}
