//! The operands of a line, taken one after the other.
ghost use Rattle.std.specs.Prelude.{◌≡◌, ◌∷◌, [], Ok, Some, None, MatchResult, MatchOption, option_copied};
ghost use Rattle.line_reader.specs.Combinators.{Rest, rest_of, next_word as next_word_read, optional_word as optional_word_read, value_at_end as value_at_end_read, declared_number as declared_number_read};
ghost use Rattle.line_reader.specs.Operands.{number as number_read, number_from_word as number_from_word_read, name_from_word as name_from_word_read, name as name_read};
ghost use Rattle.line_reader.specs.ListContracts.{any_word};
ghost use Rattle.line_reader.specs.OperandContracts.{Reads, Fails, Gives, first_word};

use crate::fault::Fault;
use line_forms::reason::Reason;
use line_text::names::is_name;
use line_text::number::{Number, bounded_number};
use line_text::words;
use std::marker::Model;

/// The words of a line that are still to be read; whether each number so far was in its range, and whether each name so
/// far was declared.
#[derive(Drop)]
pub struct Operands<'a> {
    line: &'a [u8],
    in_range: bool,
    known: bool,
}

impl<'a> Model for Operands<'a> {
    ghost use Rattle.line_text.specs.Words.{words_of};
    ghost use Rattle.line_reader.specs.Combinators.{Rest};

    ghost Value = { Rest };

    ghost view = { λ operands. record { words = words_of operands.line.now; in_range = operands.in_range; known = operands.known } };
}

impl<'a> Operands<'a> {
    ghost use Rattle.line_text.specs.Words.{words_of};

    /// All words of a line.
    pub fn new(line: &'a [u8]) -> Self
        ensures { result ≡ rest_of (words_of line.now) }
    {
        Operands {
            line,
            in_range: true,
            known: true,
        }
    }

    /// Whether each name so far was declared.
    pub fn is_known(&self) -> bool
        ensures { result ≡ self.now.known }
    {
        self.known
    }

    /// The next word, which is still to be read.
    pub fn peek(&self) -> Option<&'a [u8]>
        ensures { MatchOption result (first_word self.now.words ≡ None) (λ word. first_word self.now.words ≡ Some word.now) }
    {
        let (word, _) = words::next_word(self.line)?;
        Some(word)
    }

    /// The next word, if there is one.
    pub fn word(&mut self) -> Option<&'a [u8]>
        ensures { Gives any_word self.old (option_copied result) self.new }
    {
        let (word, rest) = words::next_word(self.line)?;
        self.line = rest;
        Some(word)
    }

    /// The next word.
    pub fn next_word(&mut self) -> Result<&'a [u8], Fault>
        ensures { MatchResult result (λ word. next_word_read self.old ≡ Ok (word.now, self.new)) (λ fault. Fails (next_word_read self.old) fault) }
    {
        match words::next_word(self.line) {
            Some((word, rest)) => {
                self.line = rest;
                Ok(word)
            }
            None => Err(Fault::Bad(Reason::Form)),
        }
    }

    /// Whether the next word is this one, which is then read.
    pub fn optional_word(&mut self, keyword: &[u8]) -> bool
        ensures { Gives (optional_word_read keyword.now) self.old result self.new }
    {
        match words::next_word(self.line) {
            Some((word, rest)) if word == keyword => {
                self.line = rest;
                true
            }
            _ => false,
        }
    }

    /// The line ends here, with this value.
    pub fn value_at_end<T: Drop>(&self, value: T) -> Result<T, Fault>
        ensures { Reads (value_at_end_read value) self.now result self.now }
    {
        if words::next_word(self.line).is_some() {
            return Err(Fault::Bad(Reason::Form));
        }
        if self.in_range {
            Ok(value)
        } else {
            Err(Fault::Bad(Reason::Range))
        }
    }

    /// The number of a name, or 0 where it is not declared.
    pub fn declared_number(&mut self, number: Option<u32>) -> u32
        ensures { Gives (declared_number_read number) self.old result self.new }
    {
        match number {
            Some(number) => number,
            None => {
                self.known = false;
                0
            }
        }
    }

    /// The number from `low` to `high` that a word spells, or 0 where it spells another.
    pub fn number_from_word(&mut self, low: u64, high: u64, word: &[u8]) -> Result<u64, Fault>
        ensures { Reads (number_from_word_read low high word.now) self.old result self.new }
    {
        match bounded_number(word, low, high) {
            Number::Found(number) => Ok(number),
            Number::OutOfRange => {
                self.in_range = false;
                Ok(0)
            }
            Number::NoNumber => Err(Fault::Bad(Reason::Form)),
        }
    }

    /// A number from `low` to `high`.
    pub fn number(&mut self, low: u64, high: u64) -> Result<u64, Fault>
        ensures { Reads (number_read low high) self.old result self.new }
    {
        let word = self.next_word()?;
        self.number_from_word(low, high, word)
    }

    /// The name that a word is.
    pub fn name_from_word<'w>(&self, word: &'w [u8]) -> Result<&'w [u8], Fault>
        ensures { MatchResult result (λ name. name_from_word_read word.now self.now ≡ Ok (name.now, self.now)) (λ fault. Fails (name_from_word_read word.now self.now) fault) }
    {
        if is_name(word) {
            Ok(word)
        } else {
            Err(Fault::Bad(Reason::Form))
        }
    }

    /// A name.
    pub fn name(&mut self) -> Result<&'a [u8], Fault>
        ensures { MatchResult result (λ name. name_read self.old ≡ Ok (name.now, self.new)) (λ fault. Fails (name_read self.old) fault) }
    {
        let word = self.next_word()?;
        self.name_from_word(word)
    }
}
