//! Event lines. Want of memory may leave a part of what was to be added.

ghost use Rattle.std.specs.Prelude.{◌≡◌, [], ◌∷◌, ◌++◌, OnOk};
ghost use Rattle.spec_requests.specs.Words.{line_of, lines_text};

use super::grown::{add_answer, add_line_end, add_number, add_spaced, add_what};
use dk_base::error::NoMemory;
use dk_base::event::Event;
use dk_base::list::Room;
use script_lang::script::Script;

/// Adds the event's line, `NUMBER THREAD ROOT WHAT ANSWER`.
#[tactic(auto, unfolding(spec_requests::specs::TraceText::line_of))]
pub fn push_line(text: &mut Room<u8>, script: &Script, event: &Event) -> Result<(), NoMemory>
    ensures { OnOk result (text.new.items ≡ text.old.items ++ line_of script.now event.now) }
{
    add_number(text, u64::from(event.number))?;
    add_spaced(text, script.name_of_thread(event.thread))?;
    add_spaced(text, script.name_of_thread(event.root))?;
    add_what(text, event.what)?;
    add_answer(text, script, &event.answer)
}

/// Adds the event's line, with its line feed.
pub fn push_whole_line(text: &mut Room<u8>, script: &Script, event: &Event) -> Result<(), NoMemory>
    ensures { OnOk result (text.new.items ≡ text.old.items ++ (line_of script.now event.now ++ 10 ∷ [])) }
{
    push_line(text, script, event)?;
    add_line_end(text)
}

/// Adds the line of each event, with its line feed.
pub fn push_lines(text: &mut Room<u8>, script: &Script, events: &[Event]) -> Result<(), NoMemory>
    ensures { OnOk result (text.new.items ≡ text.old.items ++ lines_text script.now events.now) }
{
    for event in events {
        push_whole_line(text, script, event)?;
    }
    Ok(())
}
