//! Operands that are words of a table.

ghost use Rattle.std.specs.Prelude.{◌≡◌};
ghost use Rattle.line_reader.specs.Operands.{attributes as attributes_read, poll as poll_read, param as param_read, mode as mode_read, op as op_read, condition as condition_read, value_from_word as value_from_word_read, value as value_read, wait_option as wait_option_read};
ghost use Rattle.line_reader.specs.OperandContracts.{Reads, Gives};

use crate::fault::Fault;
use crate::operands::Operands;
use dk_base::request::{AlertMode, Op, Param};
use dk_base::set::{Attrs, PollSet};
use line_forms::enumerated::{cond_of, mode_of, op_of, param_of};
use line_forms::line::Cond;
use line_forms::reason::Reason;
use line_forms::sets::{poll_of, with_attribute};

impl<'a> Operands<'a> {
    /// POLL
    pub fn poll(&mut self) -> Result<PollSet, Fault>
        ensures { Reads poll_read self.old result self.new }
    {
        let word = self.next_word()?;
        poll_of(word).ok_or(Fault::Bad(Reason::Form))
    }

    /// PARAM
    pub fn param(&mut self) -> Result<Param, Fault>
        ensures { Reads param_read self.old result self.new }
    {
        let word = self.next_word()?;
        param_of(word).ok_or(Fault::Bad(Reason::Form))
    }

    /// MODE
    pub fn mode(&mut self) -> Result<AlertMode, Fault>
        ensures { Reads mode_read self.old result self.new }
    {
        let word = self.next_word()?;
        mode_of(word).ok_or(Fault::Bad(Reason::Form))
    }

    /// OP
    pub fn op(&mut self) -> Result<Op, Fault>
        ensures { Reads op_read self.old result self.new }
    {
        let word = self.next_word()?;
        op_of(word).ok_or(Fault::Bad(Reason::Form))
    }

    /// COND
    pub fn condition(&mut self) -> Result<Cond, Fault>
        ensures { Reads condition_read self.old result self.new }
    {
        let word = self.next_word()?;
        cond_of(word).ok_or(Fault::Bad(Reason::Form))
    }

    fn value_from_word(&mut self, word: &[u8]) -> Result<u64, Fault>
        ensures { Reads (value_from_word_read word.now) self.old result self.new }
    {
        if word == b"max".as_slice() {
            return Ok(u64::MAX);
        }
        self.number_from_word(0, u64::MAX, word)
    }

    /// The N of `setparam`: a number, or `max`, the greatest.
    pub fn value(&mut self) -> Result<u64, Fault>
        ensures { Reads value_read self.old result self.new }
    {
        let word = self.next_word()?;
        self.value_from_word(word)
    }

    /// Nothing, or `nowait`: whether it waits.
    pub fn wait_option(&mut self) -> bool
        ensures { Gives wait_option_read self.old result self.new }
    {
        !self.optional_word(b"nowait")
    }

    /// ATTR .. to the line's end, each at most once, in any order.
    pub fn attributes(&mut self) -> Result<Attrs, Fault>
        ensures { Reads attributes_read self.old result self.new }
    {
        let mut set = 0;
        while let Some(word) = self.word() {
            match with_attribute(set, word) {
                Some(more) => set = more,
                None => return Err(Fault::Bad(Reason::Form)),
            }
        }
        Ok(Attrs(set))
    }
}
