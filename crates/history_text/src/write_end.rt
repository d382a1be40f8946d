//! The end line of a history, written in room that was taken before.

ghost use Rattle.std.specs.Prelude.{◌≡◌, ◌≤◌, ◌+◌, ◌*◌, ◌++◌, ◌∷◌, codes, length, map};
ghost use Rattle.line_text.specs.Words.{spaced_words};
ghost use Rattle.trace_text.specs.Taken.{TakesAtMost};
ghost use Rattle.history_text.specs.declared.line.Line.TheVariants.{End};
ghost use Rattle.history_text.specs.LineWords.{ending_word, line_text};
ghost use Rattle.history_text.specs.Lookups.{thread_word};
ghost use Rattle.history_text.specs.ShortNames.{AreShort};

use crate::line::Ending;
use crate::names::Names;
use crate::write_names::name_of_thread;
use dk_base::list::Room;
use dk_base::number::Tid;
use trace_text::append::{push_spaced, push_spaced_number, push_word};

fn push_threads(text: &mut Room<u8>, names: &Names, threads: &[Tid])
    requires names { AreShort names.now }
    requires room { 17 * length threads.now ≤ text.old.spare }
    ensures items { text.new.items ≡ text.old.items ++ spaced_words (map (thread_word names.now) threads.now) }
    ensures room { TakesAtMost text.old text.new (17 * length threads.now) }
{
    for thread in threads {
        push_spaced(text, name_of_thread(names, *thread));
    }
}

fn push_ending(text: &mut Room<u8>, ending: Ending)
    requires { 12 ≤ text.old.spare }
    ensures items { text.new.items ≡ text.old.items ++ codes "end" ++ 32 ∷ ending_word ending }
    ensures room { TakesAtMost text.old text.new 12 }
{
    match ending {
        Ending::Complete => push_word(text, "end complete"),
        Ending::Stalled => push_word(text, "end stalled"),
        Ending::Open => push_word(text, "end open"),
    }
}

/// How a history of so many events ends; `threads` are those that wait where it is stalled.
pub fn push_end(text: &mut Room<u8>, names: &Names, ending: Ending, number: u64, threads: &[Tid])
    requires names { AreShort names.now }
    requires room { 33 + 17 * length threads.now ≤ text.old.spare }
    ensures items { text.new.items ≡ text.old.items ++ line_text names.now (End ending number threads.now) }
    ensures room { TakesAtMost text.old text.new (33 + 17 * length threads.now) }
{
    push_ending(text, ending);
    push_spaced_number(text, number);
    push_threads(text, names, threads);
}
