//! What the crates above read of a line.

ghost use Rattle.std.specs.Prelude.{◌≡◌};
ghost use Rattle.line_reader.specs.Combinators.{Rest, rest_of, items_to, optional_word as optional_word_read, value_at_end as value_at_end_read};
ghost use Rattle.line_reader.specs.Operands.{is_no_stop, number as number_read, name as name_read, parent as parent_read, thread_from_word as thread_from_word_read};
ghost use Rattle.line_reader.specs.Commands.{line_with as line_with_read};
ghost use Rattle.line_reader.specs.OperandContracts.{Gives, ReadsOn};

use crate::fault::Fault;
use crate::operands::Operands;
use dk_base::list::{Bytes, TidList};
use dk_base::number::Pid;
use line_forms::keyword::Keyword;
use line_forms::line::Line;
use line_forms::tables::Tables;
use std::alloc::Global;
use std::marker::Model;

/// What is left of a line. A call that may fail takes it and gives it back after what it read, so that after a fault
/// there is none.
#[derive(Drop)]
pub struct LineRest<'a> {
    operands: Operands<'a>,
}

impl<'a> Model for LineRest<'a> {
    ghost use Rattle.line_reader.specs.Combinators.{Rest};

    ghost Value = { Rest };

    ghost view = { λ rest. rest.operands };
}

impl<'a> LineRest<'a> {
    ghost use Rattle.line_text.specs.Words.{words_of};

    /// All words of a line.
    pub fn new(line: &'a [u8]) -> Self
        ensures { result ≡ rest_of (words_of line.now) }
    {
        LineRest {
            operands: Operands::new(line),
        }
    }

    /// Whether each name so far was declared.
    pub fn is_known(&self) -> bool
        ensures { result ≡ self.now.known }
    {
        self.operands.is_known()
    }

    /// Whether the next word is this one, which is then read.
    pub fn optional_word(&mut self, keyword: &[u8]) -> bool
        ensures { Gives (optional_word_read keyword.now) self.old result self.new }
    {
        self.operands.optional_word(keyword)
    }

    /// A number of 32 bits from `low` to `high`, or 0 where it is another.
    pub fn small_number(self, low: u32, high: u32) -> Result<(u32, Self), Fault>
        ensures { ReadsOn (number_read low high) self.entry result }
    {
        let mut operands = self.operands;
        let number = operands.small_number(low, high)?;
        Ok((number, LineRest { operands }))
    }

    /// NAME, VAR.
    pub fn variable(self, alloc: Global) -> Result<(Bytes, Self), Fault>
        ensures { ReadsOn name_read self.entry result }
    {
        let mut operands = self.operands;
        let name = operands.variable(alloc)?;
        Ok((name, LineRest { operands }))
    }

    /// PARENT: a process that stands before, where so many do.
    pub fn parent(self, tables: &Tables, before: u32) -> Result<(Pid, Self), Fault>
        ensures { ReadsOn (parent_read tables.now before) self.entry result }
    {
        let mut operands = self.operands;
        let parent = operands.parent(tables, before)?;
        Ok((parent, LineRest { operands }))
    }

    /// THREAD .. to the line's end.
    pub fn threads(self, alloc: Global, tables: &Tables) -> Result<(TidList, Self), Fault>
        ensures { ReadsOn (items_to is_no_stop (thread_from_word_read tables.now)) self.entry result }
    {
        let mut operands = self.operands;
        let threads = operands.threads(alloc, tables)?;
        Ok((threads, LineRest { operands }))
    }

    /// What follows the first word of a line, in a body of this process.
    pub fn line(
        self,
        alloc: Global,
        tables: &Tables,
        process: u32,
        keyword: Keyword,
    ) -> Result<(Line, Self), Fault>
        ensures { ReadsOn (line_with_read tables.now process keyword) self.entry result }
    {
        let mut operands = self.operands;
        let line = operands.line(alloc, tables, process, keyword)?;
        Ok((line, LineRest { operands }))
    }

    /// The line ends here, with this value.
    pub fn value_at_end<T: Drop>(self, value: T) -> Result<(T, Self), Fault>
        ensures { ReadsOn (value_at_end_read value) self.entry result }
    {
        let value = self.operands.value_at_end(value)?;
        Ok((value, self))
    }
}
