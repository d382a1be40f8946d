//! Reading a line.

ghost use Rattle.std.specs.Prelude.{◌≡◌, ◌∷◌, ◌++◌, [], Ok, MatchResult, bytes_eq, option_copied};
ghost use Rattle.std.specs.List.{list_all};
ghost use Rattle.line_reader.specs.OperandContracts.{Fails};
ghost use Rattle.line_text.specs.Words.{is_printable as is_printable_byte, spaced_words, words_of};
ghost use Rattle.history_text.specs.Events.{after_front as after_front_of};
ghost use Rattle.history_text.specs.Reading.{byte_fault as byte_fault_of, declared_fault, is_skipped as is_line_skipped, is_spaced as is_line_spaced, kind_at as kind_at_place, line_by_words as line_words_read, line_of_kind as line_of_kind_read, line_read, spaced_line as spaced_line_read};

use crate::events::{after_front, event_of};
use crate::faults::{is_many, is_twice};
use crate::kinds::{kind_of, may_stand};
use crate::limits::LINE_MAX;
use crate::line::Line;
use crate::names::Names;
use crate::operands::Operands;
use crate::place::{Kind, Place};
use line_forms::reason::Reason;
use line_reader::fault::Fault;
use line_text::string::is_printable;
use line_text::words::next_word;
use std::alloc::Global;

/// Whether a line is not read: it has only spaces, or its first byte other than a space is `#`.
pub fn is_skipped(line: &[u8]) -> bool
    ensures { result ≡ is_line_skipped line.now }
{
    for byte in line {
        if *byte != b' ' {
            return *byte == b'#';
        }
    }
    true
}

fn are_printable(line: &[u8]) -> bool
    ensures { result ≡ list_all is_printable_byte line.now }
{
    line.iter().all(|byte| is_printable(*byte))
}

/// Why the bytes of a line, which may be one that is skipped, are bad.
pub fn byte_fault(line: &[u8]) -> Option<Reason>
    ensures { result ≡ byte_fault_of line.now }
{
    if line.len() > LINE_MAX {
        return Some(Reason::Size);
    }
    if are_printable(line) {
        None
    } else {
        Some(Reason::Byte)
    }
}

/// The bytes after a space and a word.
#[tactic(auto, using(crate::proofs::Fronts::after_two_fronts))]
fn after_space<'a>(word: &[u8], bytes: &'a [u8]) -> Option<&'a [u8]>
    ensures { option_copied result ≡ after_front_of (32 ∷ [] ++ word.now) bytes.now }
{
    let rest = after_front(b" ", bytes)?;
    after_front(word, rest)
}

/// Whether each word of the rest of a line stands after one space, and nothing after the last.
#[tactic(auto, using(crate::proofs::SpacedLine::spaced_word, crate::proofs::SpacedLine::spaced_lacks_word))]
fn are_spaced(words: &[u8], line: &[u8]) -> bool
    ensures { result ≡ bytes_eq (spaced_words (words_of words.now)) line.now }
{
    let mut later = words;
    let mut rest = line;
    while let Some((word, after)) = next_word(later) {
        match after_space(word, rest) {
            Some(left) => rest = left,
            None => return false,
        }
        later = after;
    }
    rest.is_empty()
}

/// Whether the words of a line stand between single spaces, and none at either end.
fn is_spaced(line: &[u8]) -> bool
    ensures { result ≡ is_line_spaced line.now }
{
    let Some((word, after)) = next_word(line) else {
        return line.is_empty();
    };
    match after_front(word, line) {
        Some(rest) => are_spaced(after, rest),
        None => false,
    }
}

/// What a line of this kind, which is no event, says, and what is left of it.
fn spaced_line<'a>(
    alloc: Global,
    names: &Names,
    line: &'a [u8],
    kind: Kind,
) -> Result<(Line, Operands<'a>), Fault>
    ensures { MatchResult result (λ found. spaced_line_read names.now line.now kind ≡ Ok found) (λ fault. Fails (spaced_line_read names.now line.now kind) fault) }
{
    if !is_spaced(line) {
        return Err(Fault::Bad(Reason::Form));
    }
    let mut operands = Operands::new(line, false);
    let _ = operands.next_word()?;
    let read = operands.line_after_first(alloc, names, kind)?;
    Ok((read, operands))
}

/// What a line of this kind says, and what is left of it.
fn line_of_kind<'a>(
    alloc: Global,
    names: &Names,
    late: bool,
    line: &'a [u8],
    kind: Kind,
) -> Result<(Line, Operands<'a>), Fault>
    ensures { MatchResult result (λ found. line_of_kind_read names.now late line.now kind ≡ Ok found) (λ fault. Fails (line_of_kind_read names.now late line.now kind) fault) }
{
    if kind == Kind::Event {
        return event_of(alloc, names, late, line);
    }
    spaced_line(alloc, names, line, kind)
}

/// The kind of a line that may come.
fn kind_at(place: Place, line: &[u8]) -> Option<Kind>
    ensures { result ≡ kind_at_place place line.now }
{
    let (word, _) = next_word(line)?;
    let kind = kind_of(word)?;
    if may_stand(place.stage, kind) {
        Some(kind)
    } else {
        None
    }
}

/// What a line says, and what is left of it.
fn line_by_words<'a>(
    alloc: Global,
    names: &Names,
    place: Place,
    line: &'a [u8],
) -> Result<(Line, Operands<'a>), Fault>
    ensures { MatchResult result (λ found. line_words_read names.now place line.now ≡ Ok found) (λ fault. Fails (line_words_read names.now place line.now) fault) }
{
    let Some(kind) = kind_at(place, line) else {
        return Err(Fault::Bad(Reason::Word));
    };
    line_of_kind(alloc, names, place.late, line, kind)
}

/// The reason for which a line that is well formed is bad, if there is one.
fn fault_of(names: &Names, place: Place, line: &Line, known: bool) -> Option<Reason>
    ensures { result ≡ declared_fault names.now place line.now known }
{
    if is_twice(names, line) {
        return Some(Reason::Twice);
    }
    if is_many(names, place, line) {
        return Some(Reason::Many);
    }
    if known { None } else { Some(Reason::Unknown) }
}

/// What a line is, where these names are declared before it.
#[tactic(auto, unfolding(crate::specs::Reading::line_read))]
pub fn read_line(alloc: Global, names: &Names, place: Place, line: &[u8]) -> Result<Line, Fault>
    ensures { MatchResult result (λ found. line_read names.now place line.now ≡ Ok found) (λ fault. Fails (line_read names.now place line.now) fault) }
{
    if let Some(reason) = byte_fault(line) {
        return Err(Fault::Bad(reason));
    }
    let (read, operands) = line_by_words(alloc, names, place, line)?;
    match fault_of(names, place, &read, operands.is_known()) {
        Some(reason) => Err(Fault::Bad(reason)),
        None => Ok(read),
    }
}
