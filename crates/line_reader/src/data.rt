//! Operands that are data.

ghost use Rattle.std.specs.Prelude.{◌≡◌, ◌∷◌};
ghost use Rattle.line_text.specs.Words.{parts_at as parts_of_word};
ghost use Rattle.line_reader.specs.Operands.{text_piece as text_piece_read, variable_piece as variable_piece_read, fill_parts, piece_from_word as piece_from_word_read, pieces as pieces_read, pieces_after as pieces_after_read};
ghost use Rattle.line_reader.specs.ListContracts.{next_piece as next_piece_read};
ghost use Rattle.line_reader.specs.OperandContracts.{Reads};

use crate::fault::Fault;
use crate::operands::Operands;
use dk_base::list::Sequence;
use line_forms::line::{Piece, PieceList};
use line_forms::reason::Reason;
use line_text::parts::parts_at;
use line_text::string::string_of;
use std::alloc::Global;

impl<'a> Operands<'a> {
    fn text_piece(&self, alloc: Global, word: &[u8]) -> Result<Piece, Fault>
        ensures { Reads (text_piece_read word.now) self.now result self.now }
    {
        match string_of(alloc, word)? {
            Some(text) => Ok(Piece::Text(text)),
            None => Err(Fault::Bad(Reason::Form)),
        }
    }

    fn fill_piece(&mut self, word: &[u8]) -> Result<Piece, Fault>
        ensures { Reads (fill_parts (parts_of_word 58 word.now)) self.old result self.new }
    {
        match parts_at(b':', word) {
            Some((b"fill", count)) => Ok(Piece::Fill(self.small_number_from_word(0, 8192, count)?)),
            _ => Err(Fault::Bad(Reason::Form)),
        }
    }

    /// The piece of data that a word spells: a string, `$VAR`, or `fill:N` with N from 0 to 8192.
    fn piece_from_word(&mut self, alloc: Global, word: &[u8]) -> Result<Piece, Fault>
        ensures { Reads (piece_from_word_read word.now) self.old result self.new }
    {
        match word.split_first() {
            None => Err(Fault::Bad(Reason::Form)),
            Some((b'"', _)) => self.text_piece(alloc, word),
            Some((b'$', variable)) => Ok(Piece::Of(self.variable_from_word(alloc, variable)?)),
            Some(_) => self.fill_piece(word),
        }
    }

    fn next_piece(&mut self, alloc: Global) -> Result<Option<Piece>, Fault>
        ensures { Reads next_piece_read self.old result self.new }
    {
        if !self.optional_word(b"+") {
            return Ok(None);
        }
        let word = self.next_word()?;
        Ok(Some(self.piece_from_word(alloc, word)?))
    }

    /// The pieces after the first, each after the word `+`.
    fn pieces_after(&mut self, alloc: Global, first: Piece) -> Result<PieceList, Fault>
        ensures { Reads (pieces_after_read first) self.old result self.new }
    {
        let mut pieces = Sequence::new(alloc);
        pieces.push(first)?;
        while let Some(piece) = self.next_piece(alloc)? {
            pieces.push(piece)?;
        }
        Ok(pieces)
    }

    /// DATA: pieces joined by the word `+`.
    pub fn pieces(&mut self, alloc: Global) -> Result<PieceList, Fault>
        ensures { Reads pieces_read self.old result self.new }
    {
        let word = self.next_word()?;
        let first = self.piece_from_word(alloc, word)?;
        self.pieces_after(alloc, first)
    }
}
