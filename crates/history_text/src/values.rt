//! Operands that are strings, and words of tables.

ghost use Rattle.std.specs.Prelude.{◌≡◌, ◌≤◌, IfOk};
ghost use Rattle.line_forms.specs.FlagWords.{flag_word};
ghost use Rattle.line_forms.specs.Sets.{attribute_flags, flag};
ghost use Rattle.line_reader.specs.OperandContracts.{Reads, Gives};
ghost use Rattle.line_reader.specs.Operands.{mode as mode_read, param as param_read, poll as poll_read};
ghost use Rattle.history_text.specs.Operands.{attributes as attributes_read, canonical_string as canonical_string_of, data_bytes as data_bytes_read, optional_flag, string as string_read, value as value_read, value_from_word as value_from_word_read, waits as waits_read};

use crate::limits::REQUEST_DATA_MAX;
use crate::operands::Operands;
use dk_base::error::NoMemory;
use dk_base::list::{Bytes, Sequence};
use dk_base::request::{AlertMode, Param};
use dk_base::set::{Attrs, PollSet};
use line_forms::enumerated::{mode_of, param_of};
use line_forms::reason::Reason;
use line_forms::sets::{attribute_word, poll_of};
use line_reader::fault::Fault;
use line_text::string::{quoted_text, string_of};
use std::alloc::Global;

/// The bytes that a string spells, where it is the one spelling of them.
fn canonical_string(alloc: Global, word: &[u8]) -> Result<Option<Bytes>, NoMemory>
    ensures { IfOk result (λ text. text ≡ canonical_string_of word.now) }
{
    let Some(text) = string_of(alloc, word)? else {
        return Ok(None);
    };
    let spelling = quoted_text(alloc, text.slice())?;
    if spelling.slice() == word {
        Ok(Some(text))
    } else {
        Ok(None)
    }
}

impl<'a> Operands<'a> {
    /// STRING, of at least `low` bytes and at most `high`. One of more or less is read as none.
    pub fn string(&mut self, alloc: Global, low: usize, high: usize) -> Result<Bytes, Fault>
        ensures { Reads (string_read low high) self.old result self.new }
    {
        let word = self.next_word()?;
        let Some(text) = canonical_string(alloc, word)? else {
            return Err(Fault::Bad(Reason::Form));
        };
        if low <= text.len() && text.len() <= high {
            return Ok(text);
        }
        self.out_of_range();
        Ok(Sequence::new(alloc))
    }

    /// DATA
    pub fn data(&mut self, alloc: Global) -> Result<Bytes, Fault>
        ensures { Reads data_bytes_read self.old result self.new }
    {
        self.string(alloc, 0, REQUEST_DATA_MAX)
    }

    /// POLL
    pub fn poll(&mut self) -> Result<PollSet, Fault>
        ensures { Reads poll_read self.old result self.new }
    {
        let word = self.next_word()?;
        poll_of(word).ok_or(Fault::Bad(Reason::Form))
    }

    /// PARAM
    pub fn param(&mut self) -> Result<Param, Fault>
        ensures { Reads param_read self.old result self.new }
    {
        let word = self.next_word()?;
        param_of(word).ok_or(Fault::Bad(Reason::Form))
    }

    /// MODE
    pub fn mode(&mut self) -> Result<AlertMode, Fault>
        ensures { Reads mode_read self.old result self.new }
    {
        let word = self.next_word()?;
        mode_of(word).ok_or(Fault::Bad(Reason::Form))
    }

    fn value_from_word(&mut self, word: &[u8]) -> Result<u64, Fault>
        ensures { Reads (value_from_word_read word.now) self.old result self.new }
    {
        if word == b"max".as_slice() {
            return Ok(u64::MAX);
        }
        let value = self.number_from_word(0, u64::MAX, word)?;
        if value == u64::MAX {
            return Err(Fault::Bad(Reason::Form));
        }
        Ok(value)
    }

    /// The value of `setparam`: a number, of which the greatest is `max`.
    pub fn value(&mut self) -> Result<u64, Fault>
        ensures { Reads value_read self.old result self.new }
    {
        let word = self.next_word()?;
        self.value_from_word(word)
    }

    /// Nothing, or `nowait`: whether it waits.
    pub fn waits(&mut self) -> bool
        ensures { Gives waits_read self.old result self.new }
    {
        !self.optional_word(b"nowait")
    }

    /// The bits of an attribute whose word stands here, which is then read, or none.
    fn attribute(&mut self, bits: u32) -> u32
        ensures bits { Gives (optional_flag (flag (flag_word attribute_flags bits) bits)) self.old result self.new }
        ensures few { result ≤ bits }
    {
        if self.optional_word(attribute_word(bits).as_bytes()) {
            bits
        } else {
            0
        }
    }

    /// ATTR .., each at most once and in the table's order.
    pub fn attributes(&mut self) -> Attrs
        ensures { Gives attributes_read self.old result self.new }
    {
        let unref = self.attribute(1);
        let private = self.attribute(2);
        let local = self.attribute(4);
        let revoked = self.attribute(8);
        let unref_multi = self.attribute(16);
        let is_unref = self.attribute(32);
        let refuse_desc = self.attribute(64);
        let no_cancel = self.attribute(128);
        let last = unref_multi + (is_unref + (refuse_desc + no_cancel));
        Attrs(unref + (private + (local + (revoked + last))))
    }
}
