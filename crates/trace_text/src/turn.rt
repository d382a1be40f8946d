//! Whose turn a line of a trace tells.
ghost use Rattle.std.specs.Prelude.{◌≡◌, option_map, option_copied, MatchOption};
ghost use Rattle.spec_requests.specs.Words.{NamesThread, second_word as second_word_of_line, thread_in_line as thread_of_line};

use dk_base::number::Tid;
use script_lang::script::Script;

/// A line's second word; words stand between runs of spaces.
fn second_word(line: &[u8]) -> Option<&[u8]>
    ensures { option_copied result ≡ second_word_of_line line.now }
{
    line.split(|byte| *byte == b' ')
        .filter(|word| !word.is_empty())
        .nth(1)
}

/// The declared thread that is a line's second word.
pub fn thread_of(script: &Script, line: &[u8]) -> Option<Tid>
    ensures value { option_map (λ thread. thread.0) result ≡ thread_of_line script.now line.now }
    ensures named { MatchOption result ((thread : Tid) → NamesThread script.now line.now thread → ⊥) (λ thread. NamesThread script.now line.now thread) }
{
    script.thread_named(second_word(line)?)
}
