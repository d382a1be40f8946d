//! The text of a run, line by line as its events are told.

ghost use Rattle.std.specs.Prelude.{◌≡◌, ◌∷◌, ◌++◌, [], List, IfOk, length};
ghost use Rattle.spec_requests.specs.Types.{Event as EventValue};
ghost use Rattle.spec_requests.specs.Words.{lines_text, refused_text, trace_text};

use super::event_line::push_whole_line;
use super::grown::add_line_end;
use super::last_line::{push_end_line, push_refused_line};
use dk_base::error::NoMemory;
use dk_base::event::Event;
use dk_base::list::{Bytes, Room, TidList};
use dk_base::number::Tid;
use script_lang::script::Script;
use spec_requests::ending::Ending;
use std::alloc::Global;
use std::marker::Model;

/// The lines of the events so far. Each call that may want memory takes them, so that after an error there are none.
#[derive(Drop)]
pub struct RunText {
    text: Room<u8>,
}

impl Model for RunText {
    ghost use Rattle.std.specs.Prelude.{ℕ, List};

    ghost Value = { List ℕ };

    ghost view = { λ t. t.text.items };
}

impl RunText {
    /// No event yet.
    pub fn new(alloc: Global) -> Self
        ensures { result ≡ [] }
    {
        RunText {
            text: Room::new(alloc),
        }
    }

    /// The line of another event follows.
    #[tactic(auto, using(crate::proofs::RunLines::one_more))]
    pub fn with_event(self, script: &Script, event: &Event) -> Result<Self, NoMemory>
        ensures { IfOk result (λ text. (es : List EventValue) → self ≡ lines_text script.now es → text ≡ lines_text script.now (es ++ event.now ∷ [])) }
    {
        let mut text = self.text;
        push_whole_line(&mut text, script, event)?;
        Ok(RunText { text })
    }

    /// The text of a run that ends after these events, `count` of them; `waiting` are the threads that wait at the end, of which a stalled
    /// run tells.
    #[tactic(auto, unfolding(spec_requests::specs::TraceText::trace_text))]
    pub fn with_end(
        self,
        script: &Script,
        ending: Ending,
        count: u64,
        waiting: &TidList,
    ) -> Result<Bytes, NoMemory>
        ensures { IfOk result (λ text. (es : List EventValue) → self ≡ lines_text script.now es → count ≡ length es → text ≡ trace_text script.now es ending waiting.now) }
    {
        let mut text = self.text;
        push_end_line(&mut text, script, ending, count, waiting.slice())?;
        add_line_end(&mut text)?;
        Ok(text.into_list())
    }

    /// The text of a run that ends since a turn of its schedule, counted from 1, is refused: its thread could not take it.
    #[tactic(auto, unfolding(spec_requests::specs::TraceText::refused_text))]
    pub fn with_refused_turn(
        self,
        script: &Script,
        turn: u32,
        thread: Tid,
    ) -> Result<Bytes, NoMemory>
        ensures { IfOk result (λ text. (es : List EventValue) → self ≡ lines_text script.now es → text ≡ refused_text script.now es turn thread) }
    {
        let mut text = self.text;
        push_refused_line(&mut text, script, turn, thread)?;
        add_line_end(&mut text)?;
        Ok(text.into_list())
    }
}
