//! The last lines of traces. Want of memory may leave a part of what was to be added.

ghost use Rattle.std.specs.Prelude.{◌≡◌, ◌++◌, Some, flat_map, OnOk};
ghost use Rattle.spec_requests.specs.Words.{end_line_of, ending_word, refused_line_of, spaced_name, tail_text, waiting_text};

use super::grown::{add_line_end, add_number, add_spaced, add_word};
use dk_base::error::NoMemory;
use dk_base::list::Room;
use dk_base::number::Tid;
use script_lang::script::Script;
use spec_requests::ending::Ending;

fn push_names(text: &mut Room<u8>, script: &Script, threads: &[Tid]) -> Result<(), NoMemory>
    ensures { OnOk result (text.new.items ≡ text.old.items ++ flat_map (spaced_name script.now) threads.now) }
{
    for thread in threads {
        add_spaced(text, script.name_of_thread(*thread))?;
    }
    Ok(())
}

fn word_of_ending(ending: Ending) -> &'static str
    ensures { result.now ≡ ending_word ending }
{
    match ending {
        Ending::Complete => "complete",
        Ending::Stalled => "stalled",
        Ending::Budget => "budget",
    }
}

/// The threads that wait, of which a stalled run tells.
fn push_waiting(
    text: &mut Room<u8>,
    script: &Script,
    ending: Ending,
    waiting: &[Tid],
) -> Result<(), NoMemory>
    ensures { OnOk result (text.new.items ≡ text.old.items ++ waiting_text script.now ending waiting.now) }
{
    match ending {
        Ending::Complete | Ending::Budget => Ok(()),
        Ending::Stalled => push_names(text, script, waiting),
    }
}

/// Adds the end line of a run of `count` events. `waiting` are the threads that wait, of which a stalled run tells.
#[tactic(auto, unfolding(spec_requests::specs::TraceText::end_line_of))]
pub fn push_end_line(
    text: &mut Room<u8>,
    script: &Script,
    ending: Ending,
    count: u64,
    waiting: &[Tid],
) -> Result<(), NoMemory>
    ensures { OnOk result (text.new.items ≡ text.old.items ++ end_line_of script.now ending count waiting.now) }
{
    add_word(text, "end")?;
    add_spaced(text, word_of_ending(ending).as_bytes())?;
    add_word(text, " ")?;
    add_number(text, count)?;
    push_waiting(text, script, ending, waiting)
}

/// Adds the line that tells of a schedule's turn, counted from 1, that its thread could not take.
#[tactic(auto, unfolding(spec_requests::specs::TraceText::refused_line_of))]
pub fn push_refused_line(
    text: &mut Room<u8>,
    script: &Script,
    turn: u32,
    thread: Tid,
) -> Result<(), NoMemory>
    ensures { OnOk result (text.new.items ≡ text.old.items ++ refused_line_of script.now turn thread) }
{
    add_word(text, "refused turn ")?;
    add_number(text, u64::from(turn))?;
    add_spaced(text, script.name_of_thread(thread))
}

/// Adds the line `tail N`.
pub fn push_tail(text: &mut Room<u8>, tail: u64) -> Result<(), NoMemory>
    ensures { OnOk result (text.new.items ≡ text.old.items ++ tail_text (Some tail)) }
{
    add_word(text, "tail ")?;
    add_number(text, tail)?;
    add_line_end(text)
}
