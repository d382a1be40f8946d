//! Texts that take room as they grow. Want of memory may leave a part of what was to be added.

ghost use Rattle.std.specs.Prelude.{◌≡◌, ◌∷◌, ◌++◌, [], decimal, OnOk};
ghost use Rattle.spec_requests.specs.TraceNames.{procedure_name};
ghost use Rattle.spec_requests.specs.Words.{answer_text, what_word};

use super::answer::{push_answer, reserve_answer};
use super::append::{push_number, push_spaced};
use super::what_word::push_what;
use dk_base::answer::Answer;
use dk_base::error::NoMemory;
use dk_base::event::What;
use dk_base::list::Room;
use script_lang::script::Script;

pub fn add_word(text: &mut Room<u8>, word: &str) -> Result<(), NoMemory>
    ensures { OnOk result (text.new.items ≡ text.old.items ++ word.now) }
{
    text.reserve(word.len())?;
    text.append(word.as_bytes());
    Ok(())
}

/// A space, and a word after it.
pub fn add_spaced(text: &mut Room<u8>, word: &[u8]) -> Result<(), NoMemory>
    ensures { OnOk result (text.new.items ≡ text.old.items ++ 32 ∷ word.now) }
{
    text.reserve(word.len() + 1)?;
    push_spaced(text, word);
    Ok(())
}

/// In decimal.
pub fn add_number(text: &mut Room<u8>, number: u64) -> Result<(), NoMemory>
    ensures { OnOk result (text.new.items ≡ text.old.items ++ decimal number) }
{
    text.reserve(20)?;
    push_number(text, number);
    Ok(())
}

/// A space, and after it the word of what an event is.
pub fn add_what(text: &mut Room<u8>, what: What) -> Result<(), NoMemory>
    ensures { OnOk result (text.new.items ≡ text.old.items ++ 32 ∷ what_word what) }
{
    text.reserve(11)?;
    text.push(b' ');
    push_what(text, what);
    Ok(())
}

/// A space, and an answer after it.
pub fn add_answer(text: &mut Room<u8>, script: &Script, answer: &Answer) -> Result<(), NoMemory>
    ensures { OnOk result (text.new.items ≡ text.old.items ++ 32 ∷ answer_text (procedure_name script.now) answer.now) }
{
    add_word(text, " ")?;
    reserve_answer(text, script, answer)?;
    push_answer(text, script, answer);
    Ok(())
}

/// The end of a line.
pub fn add_line_end(text: &mut Room<u8>) -> Result<(), NoMemory>
    ensures { OnOk result (text.new.items ≡ text.old.items ++ 10 ∷ []) }
{
    text.reserve(1)?;
    text.push(b'\n');
    Ok(())
}
