//! The words of a line of a history, read one after the other.
ghost use Rattle.std.specs.Prelude.{◌≡◌, ◌∷◌, [], false, Ok, Some, None, MatchResult, MatchOption, option_copied};
ghost use Rattle.line_reader.specs.Combinators.{Rest, rest_of, next_word as next_word_read, optional_word as optional_word_read, value_at_end as value_at_end_read, declared_number as declared_number_read};
ghost use Rattle.line_reader.specs.Operands.{number as number_read, number_from_word as number_from_word_read, name_from_word as name_from_word_read, name as name_read};
ghost use Rattle.line_reader.specs.OperandContracts.{Reads, Fails, Gives, first_word};
ghost use Rattle.history_text.specs.Events.{words_until};
ghost use Rattle.history_text.specs.Operands.{the_word as the_word_read};

use dk_base::list::{Bytes, Sequence};
use line_forms::reason::Reason;
use line_reader::fault::Fault;
use line_text::names::is_name;
use line_text::number::{Number, bounded_number};
use line_text::words;
use std::alloc::Global;
use std::marker::Model;

/// The first word and what follows it, of a line, or of its words before its first `=`.
pub fn next_of(line: &[u8], asked: bool) -> Option<(&[u8], &[u8])>
    ensures { MatchOption result (words_until asked line.now ≡ []) (λ found. words_until asked line.now ≡ found.0.now ∷ words_until asked found.1.now) }
{
    let (word, rest) = words::next_word(line)?;
    if asked && word == b"=".as_slice() {
        return None;
    }
    Some((word, rest))
}

/// The words that are still to be read, of a line, or of those before its first `=`; whether each number so far was in its
/// range, and whether each name so far was declared.
#[derive(Drop)]
pub struct Operands<'a> {
    line: &'a [u8],
    /// Its `=` ends the words.
    asked: bool,
    in_range: bool,
    known: bool,
}

impl<'a> Model for Operands<'a> {
    ghost use Rattle.line_reader.specs.Combinators.{Rest};
    ghost use Rattle.history_text.specs.Events.{words_until};

    ghost Value = { Rest };

    ghost view = { λ operands. record { words = words_until operands.asked operands.line.now; in_range = operands.in_range; known = operands.known } };
}

impl<'a> Operands<'a> {
    /// All words of a line, or those before its first `=`.
    pub fn new(line: &'a [u8], asked: bool) -> Self
        ensures { result ≡ rest_of (words_until asked line.now) }
    {
        Operands {
            line,
            asked,
            in_range: true,
            known: true,
        }
    }

    /// Whether each name so far was declared.
    pub fn is_known(&self) -> bool
        ensures { result ≡ self.now.known }
    {
        self.known
    }

    /// The next word, which is still to be read.
    pub fn peek(&self) -> Option<&'a [u8]>
        ensures { MatchOption result (first_word self.now.words ≡ None) (λ word. first_word self.now.words ≡ Some word.now) }
    {
        let (word, _) = next_of(self.line, self.asked)?;
        Some(word)
    }

    /// The next word.
    pub fn next_word(&mut self) -> Result<&'a [u8], Fault>
        ensures { MatchResult result (λ word. next_word_read self.old ≡ Ok (word.now, self.new)) (λ fault. Fails (next_word_read self.old) fault) }
    {
        match next_of(self.line, self.asked) {
            Some((word, rest)) => {
                self.line = rest;
                Ok(word)
            }
            None => Err(Fault::Bad(Reason::Form)),
        }
    }

    /// Whether the next word is this one, which is then read.
    pub fn optional_word(&mut self, keyword: &[u8]) -> bool
        ensures { Gives (optional_word_read keyword.now) self.old result self.new }
    {
        match next_of(self.line, self.asked) {
            Some((word, rest)) if word == keyword => {
                self.line = rest;
                true
            }
            _ => false,
        }
    }

    /// This word.
    pub fn the_word(&mut self, keyword: &[u8]) -> Result<bool, Fault>
        ensures { Reads (the_word_read keyword.now) self.old result self.new }
    {
        if self.optional_word(keyword) {
            Ok(true)
        } else {
            Err(Fault::Bad(Reason::Form))
        }
    }

    /// The line ends here, with this value.
    pub fn value_at_end<T: Drop>(&self, value: T) -> Result<T, Fault>
        ensures { Reads (value_at_end_read value) self.now result self.now }
    {
        if next_of(self.line, self.asked).is_some() {
            return Err(Fault::Bad(Reason::Form));
        }
        if self.in_range {
            Ok(value)
        } else {
            Err(Fault::Bad(Reason::Range))
        }
    }

    /// The number of a name, or 0 where it is not declared.
    pub fn declared_number(&mut self, number: Option<u32>) -> u32
        ensures { Gives (declared_number_read number) self.old result self.new }
    {
        match number {
            Some(number) => number,
            None => {
                self.known = false;
                0
            }
        }
    }

    /// A number or a length was outside its range.
    pub fn out_of_range(&mut self)
        ensures { self.new ≡ record self.old { in_range = false } }
    {
        self.in_range = false;
    }

    /// The number from `low` to `high` that a word spells, or 0 where it spells another.
    pub fn number_from_word(&mut self, low: u64, high: u64, word: &[u8]) -> Result<u64, Fault>
        ensures { Reads (number_from_word_read low high word.now) self.old result self.new }
    {
        match bounded_number(word, low, high) {
            Number::Found(number) => Ok(number),
            Number::OutOfRange => {
                self.in_range = false;
                Ok(0)
            }
            Number::NoNumber => Err(Fault::Bad(Reason::Form)),
        }
    }

    /// A number from `low` to `high`.
    pub fn number(&mut self, low: u64, high: u64) -> Result<u64, Fault>
        ensures { Reads (number_read low high) self.old result self.new }
    {
        let word = self.next_word()?;
        self.number_from_word(low, high, word)
    }

    /// The number of 32 bits from `low` to `high` that a word spells, or 0 where it spells another.
    pub fn small_number_from_word(&mut self, low: u32, high: u32, word: &[u8]) -> Result<u32, Fault>
        ensures { Reads (number_from_word_read low high word.now) self.old result self.new }
    {
        let number = self.number_from_word(u64::from(low), u64::from(high), word)?;
        Ok(number as u32)
    }

    /// A number of 32 bits from `low` to `high`.
    pub fn small_number(&mut self, low: u32, high: u32) -> Result<u32, Fault>
        ensures { Reads (number_read low high) self.old result self.new }
    {
        let word = self.next_word()?;
        self.small_number_from_word(low, high, word)
    }

    /// The name that a word is.
    pub fn name_from_word<'w>(&self, word: &'w [u8]) -> Result<&'w [u8], Fault>
        ensures { MatchResult result (λ name. name_from_word_read word.now self.now ≡ Ok (name.now, self.now)) (λ fault. Fails (name_from_word_read word.now self.now) fault) }
    {
        if is_name(word) {
            Ok(word)
        } else {
            Err(Fault::Bad(Reason::Form))
        }
    }

    /// A name.
    pub fn name(&mut self) -> Result<&'a [u8], Fault>
        ensures { MatchResult result (λ name. name_read self.old ≡ Ok (name.now, self.new)) (λ fault. Fails (name_read self.old) fault) }
    {
        let word = self.next_word()?;
        self.name_from_word(word)
    }

    /// The same, with memory of its own.
    pub fn own_name(&mut self, alloc: Global) -> Result<Bytes, Fault>
        ensures { Reads name_read self.old result self.new }
    {
        let name = self.name()?;
        Ok(Sequence::from_slice(alloc, name)?)
    }
}
