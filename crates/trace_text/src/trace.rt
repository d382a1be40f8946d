//! Lines and whole texts of traces.

ghost use Rattle.std.specs.Prelude.{◌≡◌, ◌++◌, Some, IfOk, OnOk};
ghost use Rattle.spec_requests.specs.Words.{end_line_of, line_of, tail_text, trace_text};

use super::event_line::{push_line, push_lines};
use super::grown::add_line_end;
use super::last_line::{push_end_line, push_tail};
use dk_base::error::NoMemory;
use dk_base::event::Event;
use dk_base::list::{Bytes, Room, TidList};
use script_lang::script::Script;
use spec_requests::ending::Ending;
use std::alloc::Global;

/// The line of an event, `NUMBER THREAD ROOT WHAT ANSWER`, without a line feed. A number that is no thread's or no
/// procedure's has the empty name.
pub fn line(alloc: Global, script: &Script, event: &Event) -> Result<Bytes, NoMemory>
    ensures { IfOk result (λ text. text ≡ line_of script.now event.now) }
{
    let mut text = Room::new(alloc);
    push_line(&mut text, script, event)?;
    Ok(text.into_list())
}

/// The end line of a run of `n` events, without a line feed. `waiting` are the threads that wait at the end, of which a
/// stalled run tells.
pub fn end_line(
    alloc: Global,
    script: &Script,
    ending: Ending,
    n: u32,
    waiting: &TidList,
) -> Result<Bytes, NoMemory>
    ensures { IfOk result (λ text. text ≡ end_line_of script.now ending n waiting.now) }
{
    let mut text = Room::new(alloc);
    push_end_line(&mut text, script, ending, u64::from(n), waiting.slice())?;
    Ok(text.into_list())
}

/// Adds the line of each event and the end line.
#[tactic(auto, unfolding(spec_requests::specs::TraceText::trace_text))]
fn push_run(
    text: &mut Room<u8>,
    script: &Script,
    events: &[Event],
    ending: Ending,
    waiting: &TidList,
) -> Result<(), NoMemory>
    ensures { OnOk result (text.new.items ≡ text.old.items ++ trace_text script.now events.now ending waiting.now) }
{
    push_lines(text, script, events)?;
    push_end_line(text, script, ending, events.len() as u64, waiting.slice())?;
    add_line_end(text)
}

/// The text of a run with these events and this end, with the line `tail N` after it, for any number; `waiting` are the threads that wait
/// at the end, of which a stalled run tells.
pub fn text_with_tail(
    alloc: Global,
    script: &Script,
    events: &[Event],
    ending: Ending,
    waiting: &TidList,
    tail: u64,
) -> Result<Bytes, NoMemory>
    ensures { IfOk result (λ text. text ≡ trace_text script.now events.now ending waiting.now ++ tail_text (Some tail)) }
{
    let mut text = Room::new(alloc);
    push_run(&mut text, script, events, ending, waiting)?;
    push_tail(&mut text, tail)?;
    Ok(text.into_list())
}
