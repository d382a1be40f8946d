//! Operands that are descriptors.

ghost use Rattle.std.specs.Prelude.{◌≡◌, ◌≤◌, ◌<◌, length, codes, IfOk, IfSome};
ghost use Rattle.line_text.specs.Words.{part_before_last as front_of_word, parts_at as parts_of_word};
ghost use Rattle.line_reader.specs.Operands.{number as number_read, number_from_word as number_from_word_read, variable_parts, descriptor_number as descriptor_number_read, name_from_word as name_from_word_read, fd_from_word as fd_from_word_read, fd as fd_read, pass_from_word as pass_from_word_read, is_rsize, is_no_stop, passes as passes_read, rsize as rsize_read, ports as ports_read};
ghost use Rattle.line_reader.specs.Combinators.{list_in_range, items_to};
ghost use Rattle.line_reader.specs.ListContracts.{is_at_stop, next_item};
ghost use Rattle.line_reader.specs.OperandContracts.{Reads};

use crate::fault::Fault;
use crate::operands::Operands;
use dk_base::list::{Bytes, Sequence};
use line_forms::line::{FdArg, FdArgList, PassArg, PassArgList};
use line_forms::reason::Reason;
use line_text::parts::{part_before_last, parts_at};
use std::alloc::Global;

impl<'a> Operands<'a> {
    /// The number of 32 bits from `low` to `high` that a word spells, or 0 where it spells another.
    pub fn small_number_from_word(&mut self, low: u32, high: u32, word: &[u8]) -> Result<u32, Fault>
        ensures { Reads (number_from_word_read low high word.now) self.old result self.new }
    {
        let number = self.number_from_word(u64::from(low), u64::from(high), word)?;
        Ok(number as u32)
    }

    /// A number of 32 bits from `low` to `high`.
    pub fn small_number(&mut self, low: u32, high: u32) -> Result<u32, Fault>
        ensures { Reads (number_read low high) self.old result self.new }
    {
        let word = self.next_word()?;
        self.small_number_from_word(low, high, word)
    }

    /// The name that a word is.
    pub fn variable_from_word(&self, alloc: Global, word: &[u8]) -> Result<Bytes, Fault>
        ensures { Reads (name_from_word_read word.now) self.now result self.now }
    {
        let name = self.name_from_word(word)?;
        Ok(Sequence::from_slice(alloc, name)?)
    }

    /// What stands after the `$` of a descriptor.
    fn variable_fd(&mut self, alloc: Global, word: &[u8]) -> Result<FdArg, Fault>
        ensures { Reads (variable_parts word.now (parts_of_word 46 word.now)) self.old result self.new }
    {
        match parts_at(b'.', word) {
            None => Ok(FdArg::Of {
                name: self.variable_from_word(alloc, word)?,
                k: 0,
            }),
            Some((name, index)) => {
                let name = self.variable_from_word(alloc, name)?;
                let k = self.small_number_from_word(0, 15, index)?;
                Ok(FdArg::Of { name, k })
            }
        }
    }

    fn descriptor_number(&mut self, word: &[u8]) -> Result<FdArg, Fault>
        ensures { Reads (descriptor_number_read word.now) self.old result self.new }
    {
        Ok(FdArg::Number(self.small_number_from_word(0, 255, word)?))
    }

    /// The descriptor that a word spells.
    pub fn fd_from_word(&mut self, alloc: Global, word: &[u8]) -> Result<FdArg, Fault>
        ensures { Reads (fd_from_word_read word.now) self.old result self.new }
    {
        match word.split_first() {
            None => Err(Fault::Bad(Reason::Form)),
            Some((b'$', variable)) => self.variable_fd(alloc, variable),
            Some(_) => self.descriptor_number(word),
        }
    }

    /// FD: a number from 0 to 255, `$VAR`, or `$VAR.K` with K from 0 to 15.
    pub fn fd(&mut self, alloc: Global) -> Result<FdArg, Fault>
        ensures { Reads fd_read self.old result self.new }
    {
        let word = self.next_word()?;
        self.fd_from_word(alloc, word)
    }

    /// The descriptor to be passed that a word spells.
    pub fn pass_from_word(&mut self, alloc: Global, word: &[u8]) -> Result<PassArg, Fault>
        ensures { Reads (pass_from_word_read word.now) self.old result self.new }
    {
        match part_before_last(b'!', word) {
            None => Ok(PassArg {
                fd: self.fd_from_word(alloc, word)?,
                release: false,
            }),
            Some(front) => Ok(PassArg {
                fd: self.fd_from_word(alloc, front)?,
                release: true,
            }),
        }
    }

    /// Whether the descriptors to be passed end here.
    fn is_after_passes(&self) -> bool
        ensures { result ≡ is_at_stop is_rsize self.now.words }
    {
        match self.peek() {
            None => true,
            Some(word) => word == b"rsize".as_slice(),
        }
    }

    fn next_pass(&mut self, alloc: Global) -> Result<Option<PassArg>, Fault>
        ensures { Reads (next_item is_rsize pass_from_word_read) self.old result self.new }
    {
        if self.is_after_passes() {
            return Ok(None);
        }
        let word = self.next_word()?;
        Ok(Some(self.pass_from_word(alloc, word)?))
    }

    fn next_port(&mut self, alloc: Global) -> Result<Option<FdArg>, Fault>
        ensures { Reads (next_item is_no_stop fd_from_word_read) self.old result self.new }
    {
        if self.peek().is_none() {
            return Ok(None);
        }
        let word = self.next_word()?;
        Ok(Some(self.fd_from_word(alloc, word)?))
    }

    /// Nothing for 4096, or `rsize N`.
    pub fn rsize(&mut self) -> Result<u64, Fault>
        ensures { Reads rsize_read self.old result self.new }
    {
        if self.optional_word(b"rsize") {
            self.number(0, u64::MAX)
        } else {
            Ok(4096)
        }
    }

    /// Descriptors to be passed up to the word `rsize` or the line's end.
    fn pass_list(&mut self, alloc: Global) -> Result<PassArgList, Fault>
        ensures { Reads (items_to is_rsize pass_from_word_read) self.old result self.new }
    {
        let mut passes = Sequence::new(alloc);
        while let Some(pass) = self.next_pass(alloc)? {
            passes.push(pass)?;
        }
        Ok(passes)
    }

    /// Nothing, or `desc PASS ..` (1 to 32).
    pub fn passes(&mut self, alloc: Global) -> Result<PassArgList, Fault>
        ensures { Reads passes_read self.old result self.new }
    {
        if !self.optional_word(b"desc") {
            return Ok(Sequence::new(alloc));
        }
        let passes = self.pass_list(alloc)?;
        if 1 <= passes.len() && passes.len() <= 32 {
            Ok(passes)
        } else {
            Err(Fault::Bad(Reason::Form))
        }
    }

    /// Descriptors up to the line's end.
    fn port_list(&mut self, alloc: Global) -> Result<FdArgList, Fault>
        ensures { Reads (items_to is_no_stop fd_from_word_read) self.old result self.new }
    {
        let mut ports = Sequence::new(alloc);
        while let Some(port) = self.next_port(alloc)? {
            ports.push(port)?;
        }
        Ok(ports)
    }

    /// FD .. (1 to 16) to the line's end.
    pub fn ports(&mut self, alloc: Global) -> Result<FdArgList, Fault>
        ensures { Reads ports_read self.old result self.new }
    {
        let ports = self.port_list(alloc)?;
        if 1 <= ports.len() && ports.len() <= 16 {
            Ok(ports)
        } else {
            Err(Fault::Bad(Reason::Form))
        }
    }
}
