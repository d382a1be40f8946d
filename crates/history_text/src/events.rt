//! An event's line: its words up to the first that is `=`, a space, that word, a space, and the answer.

ghost use Rattle.std.specs.Prelude.{◌≡◌, ◌++◌, ◌∷◌, [], Some, None, MatchOption, MatchResult, option_copied, slice_get};
ghost use Rattle.line_text.specs.Words.{words_of};
ghost use Rattle.line_reader.specs.OperandContracts.{Reads, Fails};
ghost use Rattle.history_text.specs.Events.{after_front as after_front_of, after_words, answer_of as answer_in, event_line, event_read, is_answer as is_answer_text, words_asked};

use crate::kinds::what_of;
use crate::line::Line;
use crate::names::Names;
use crate::operands::{Operands, next_of};
use dk_base::event::What;
use dk_base::list::Sequence;
use line_forms::reason::Reason;
use line_reader::fault::Fault;
use line_text::parts::part_before_last;
use line_text::words::next_word;
use std::alloc::Global;

/// The bytes after these, where a text begins with them.
pub fn after_front<'a>(front: &[u8], bytes: &'a [u8]) -> Option<&'a [u8]>
    ensures { option_copied result ≡ after_front_of front.now bytes.now }
{
    let mut left = front;
    let mut rest = bytes;
    while let Some((first, others)) = left.split_first() {
        let (byte, later) = rest.split_first()?;
        if *first != *byte {
            return None;
        }
        left = others;
        rest = later;
    }
    Some(rest)
}

/// The bytes after a word and a space.
#[tactic(auto, using(crate::proofs::Fronts::after_two_fronts))]
fn after_word<'a>(word: &[u8], bytes: &'a [u8]) -> Option<&'a [u8]>
    ensures { option_copied result ≡ after_front_of (word.now ++ 32 ∷ []) bytes.now }
{
    let rest = after_front(word, bytes)?;
    after_front(b" ", rest)
}

/// Whether an answer has a byte, and no space at either end.
fn is_answer(answer: &[u8]) -> bool
    ensures { result ≡ is_answer_text answer.now }
{
    match answer.split_first() {
        None => false,
        Some((first, _)) => *first != b' ' && part_before_last(b' ', answer).is_none(),
    }
}

/// What stands after the `=` of an event, where its words stand between single spaces.
fn after_asked(line: &[u8]) -> Option<&[u8]>
    ensures { option_copied result ≡ after_words (words_asked line.now) line.now }
{
    let mut later = line;
    let mut rest = line;
    while let Some((word, after)) = next_of(later, true) {
        rest = after_word(word, rest)?;
        later = after;
    }
    after_front(b"= ", rest)
}

/// The answer of an event.
fn answer_of(line: &[u8]) -> Option<&[u8]>
    ensures { option_copied result ≡ answer_in line.now }
{
    let answer = after_asked(line)?;
    if is_answer(answer) {
        Some(answer)
    } else {
        None
    }
}

/// The fourth word of a line.
fn fourth_word(line: &[u8]) -> Option<&[u8]>
    ensures { option_copied result ≡ slice_get (words_of line.now) 3 }
{
    let (_, rest) = next_word(line)?;
    let (_, rest) = next_word(rest)?;
    let (_, rest) = next_word(rest)?;
    let (word, _) = next_word(rest)?;
    Some(word)
}

impl<'a> Operands<'a> {
    /// The words of an event, with its answer.
    fn event(
        &mut self,
        alloc: Global,
        names: &Names,
        late: bool,
        what: What,
        answer: &[u8],
    ) -> Result<Line, Fault>
        ensures { Reads (event_line names.now late what answer.now) self.old result self.new }
    {
        let number = self.number(0, u64::MAX)?;
        let thread = self.thread(names)?;
        let root = self.thread(names)?;
        let _ = self.next_word()?;
        let asked = self.asked(alloc, names, names.process_of(thread), late, what)?;
        self.value_at_end(Line::Event {
            number,
            thread,
            root,
            asked,
            answer: Sequence::from_slice(alloc, answer)?,
        })
    }
}

/// What the line of an event says, and what is left of it.
pub fn event_of<'a>(
    alloc: Global,
    names: &Names,
    late: bool,
    line: &'a [u8],
) -> Result<(Line, Operands<'a>), Fault>
    ensures { MatchResult result (λ found. event_read names.now late line.now ≡ Ok found) (λ fault. Fails (event_read names.now late line.now) fault) }
{
    let Some(word) = fourth_word(line) else {
        return Err(Fault::Bad(Reason::Form));
    };
    let Some(what) = what_of(word) else {
        return Err(Fault::Bad(Reason::Word));
    };
    let Some(answer) = answer_of(line) else {
        return Err(Fault::Bad(Reason::Form));
    };
    let mut operands = Operands::new(line, true);
    let event = operands.event(alloc, names, late, what, answer)?;
    Ok((event, operands))
}
