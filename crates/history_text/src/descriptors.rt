//! Operands that are descriptors.

ghost use Rattle.std.specs.Prelude.{◌≡◌};
ghost use Rattle.line_text.specs.Words.{part_before_last as front_of_word};
ghost use Rattle.line_reader.specs.Combinators.{items_to};
ghost use Rattle.line_reader.specs.ListContracts.{is_at_stop, next_item};
ghost use Rattle.line_reader.specs.OperandContracts.{Reads};
ghost use Rattle.line_reader.specs.Operands.{is_no_stop, is_rsize};
ghost use Rattle.history_text.specs.Operands.{fd as fd_read, fd_from_word as fd_from_word_read, pass_from_word as pass_from_word_read, passes as passes_read, ports as ports_read};

use crate::operands::Operands;
use dk_base::list::{FdList, PassList, Sequence};
use dk_base::number::Fd;
use dk_base::object::Pass;
use line_forms::reason::Reason;
use line_reader::fault::Fault;
use line_text::parts::part_before_last;
use std::alloc::Global;

impl<'a> Operands<'a> {
    /// The descriptor that a word spells.
    fn fd_from_word(&mut self, word: &[u8]) -> Result<Fd, Fault>
        ensures { Reads (fd_from_word_read word.now) self.old result self.new }
    {
        Ok(Fd(self.small_number_from_word(0, u32::MAX, word)?))
    }

    /// FD
    pub fn fd(&mut self) -> Result<Fd, Fault>
        ensures { Reads fd_read self.old result self.new }
    {
        let word = self.next_word()?;
        self.fd_from_word(word)
    }

    /// The descriptor to be passed that a word spells.
    fn pass_from_word(&mut self, word: &[u8]) -> Result<Pass, Fault>
        ensures { Reads (pass_from_word_read word.now) self.old result self.new }
    {
        match part_before_last(b'!', word) {
            None => Ok(Pass {
                fd: self.fd_from_word(word)?,
                release: false,
            }),
            Some(front) => Ok(Pass {
                fd: self.fd_from_word(front)?,
                release: true,
            }),
        }
    }

    /// Whether the descriptors to be passed end here.
    fn is_after_passes(&self) -> bool
        ensures { result ≡ is_at_stop is_rsize self.now.words }
    {
        match self.peek() {
            None => true,
            Some(word) => word == b"rsize".as_slice(),
        }
    }

    fn next_pass(&mut self) -> Result<Option<Pass>, Fault>
        ensures { Reads (next_item is_rsize pass_from_word_read) self.old result self.new }
    {
        if self.is_after_passes() {
            return Ok(None);
        }
        let word = self.next_word()?;
        Ok(Some(self.pass_from_word(word)?))
    }

    /// Descriptors to be passed, up to the word `rsize` or the last word.
    fn pass_list(&mut self, alloc: Global) -> Result<PassList, Fault>
        ensures { Reads (items_to is_rsize pass_from_word_read) self.old result self.new }
    {
        let mut passes = Sequence::new(alloc);
        while let Some(pass) = self.next_pass()? {
            passes.push(pass)?;
        }
        Ok(passes)
    }

    /// Nothing, or `desc PASS {PASS}` (1 to 32).
    pub fn passes(&mut self, alloc: Global) -> Result<PassList, Fault>
        ensures { Reads passes_read self.old result self.new }
    {
        if !self.optional_word(b"desc") {
            return Ok(Sequence::new(alloc));
        }
        let passes = self.pass_list(alloc)?;
        if 1 <= passes.len() && passes.len() <= 32 {
            Ok(passes)
        } else {
            Err(Fault::Bad(Reason::Form))
        }
    }

    fn next_port(&mut self) -> Result<Option<Fd>, Fault>
        ensures { Reads (next_item is_no_stop fd_from_word_read) self.old result self.new }
    {
        if self.peek().is_none() {
            return Ok(None);
        }
        let word = self.next_word()?;
        Ok(Some(self.fd_from_word(word)?))
    }

    /// Descriptors up to the last word.
    fn port_list(&mut self, alloc: Global) -> Result<FdList, Fault>
        ensures { Reads (items_to is_no_stop fd_from_word_read) self.old result self.new }
    {
        let mut ports = Sequence::new(alloc);
        while let Some(port) = self.next_port()? {
            ports.push(port)?;
        }
        Ok(ports)
    }

    /// FD {FD} (1 to 16) to the last word.
    pub fn ports(&mut self, alloc: Global) -> Result<FdList, Fault>
        ensures { Reads ports_read self.old result self.new }
    {
        let ports = self.port_list(alloc)?;
        if 1 <= ports.len() && ports.len() <= 16 {
            Ok(ports)
        } else {
            Err(Fault::Bad(Reason::Form))
        }
    }
}
