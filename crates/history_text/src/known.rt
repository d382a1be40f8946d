//! Operands that are names of what is declared.

ghost use Rattle.std.specs.Prelude.{◌≡◌};
ghost use Rattle.line_reader.specs.Combinators.{items_to};
ghost use Rattle.line_reader.specs.ListContracts.{next_item};
ghost use Rattle.line_reader.specs.OperandContracts.{Reads};
ghost use Rattle.line_reader.specs.Operands.{is_no_stop, name_from_word as name_from_word_read};
ghost use Rattle.history_text.specs.Operands.{process as process_read, thread as thread_read, thread_from_word as thread_from_word_read, child as child_read, procedure as procedure_read, path as path_read, names_to_end as names_to_end_read};

use crate::line::NameList;
use crate::names::Names;
use crate::operands::Operands;
use dk_base::list::{Bytes, Sequence, TidList};
use dk_base::number::{PathId, Pid, Tid};
use line_reader::fault::Fault;
use std::alloc::Global;

impl<'a> Operands<'a> {
    /// PROCESS
    pub fn process(&mut self, names: &Names) -> Result<Pid, Fault>
        ensures { Reads (process_read names.now) self.old result self.new }
    {
        let name = self.name()?;
        Ok(Pid(self.declared_number(names.process_number(name))))
    }

    /// The thread or spare whose name a word is.
    fn thread_from_word(&mut self, names: &Names, word: &[u8]) -> Result<Tid, Fault>
        ensures { Reads (thread_from_word_read names.now word.now) self.old result self.new }
    {
        let name = self.name_from_word(word)?;
        Ok(Tid(self.declared_number(names.thread_number(name))))
    }

    /// THREAD
    pub fn thread(&mut self, names: &Names) -> Result<Tid, Fault>
        ensures { Reads (thread_read names.now) self.old result self.new }
    {
        let word = self.next_word()?;
        self.thread_from_word(names, word)
    }

    /// CHILD of this process
    pub fn child(&mut self, names: &Names, process: u32) -> Result<Pid, Fault>
        ensures { Reads (child_read names.now process) self.old result self.new }
    {
        let name = self.name()?;
        Ok(Pid(self.declared_number(names.child_number(process, name))))
    }

    /// PROC of this process
    pub fn procedure(&mut self, names: &Names, process: u32) -> Result<u32, Fault>
        ensures { Reads (procedure_read names.now process) self.old result self.new }
    {
        let name = self.name()?;
        Ok(self.declared_number(names.procedure_number(process, name)))
    }

    /// PATH
    pub fn path(&mut self, names: &Names) -> Result<PathId, Fault>
        ensures { Reads (path_read names.now) self.old result self.new }
    {
        let name = self.name()?;
        Ok(PathId(self.declared_number(names.path_number(name))))
    }

    fn next_thread(&mut self, names: &Names) -> Result<Option<Tid>, Fault>
        ensures { Reads (next_item is_no_stop (thread_from_word_read names.now)) self.old result self.new }
    {
        if self.peek().is_none() {
            return Ok(None);
        }
        Ok(Some(self.thread(names)?))
    }

    /// THREAD .. to the last word.
    pub fn threads(&mut self, alloc: Global, names: &Names) -> Result<TidList, Fault>
        ensures { Reads (items_to is_no_stop (thread_from_word_read names.now)) self.old result self.new }
    {
        let mut threads = Sequence::new(alloc);
        while let Some(thread) = self.next_thread(names)? {
            threads.push(thread)?;
        }
        Ok(threads)
    }

    fn next_name(&mut self, alloc: Global) -> Result<Option<Bytes>, Fault>
        ensures { Reads (next_item is_no_stop name_from_word_read) self.old result self.new }
    {
        if self.peek().is_none() {
            return Ok(None);
        }
        Ok(Some(self.own_name(alloc)?))
    }

    /// NAME .. to the last word.
    pub fn names_to_end(&mut self, alloc: Global) -> Result<NameList, Fault>
        ensures { Reads names_to_end_read self.old result self.new }
    {
        let mut names = Sequence::new(alloc);
        while let Some(name) = self.next_name(alloc)? {
            names.push(name)?;
        }
        Ok(names)
    }
}
