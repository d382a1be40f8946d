//! What `play` answers and writes for what was read.
ghost use Rattle.std.specs.Prelude.{◌≡◌, IfOk, OnOk, []};
ghost use Rattle.spec_requests.specs.Words.{lines_text, refused_text};
ghost use Rattle.spec_scripts.specs.Words.{ending_of, refusal, text_of_history};
ghost use Rattle.sys_run.specs.Words.{EndsPlay, LawsOf, history};
ghost use Rattle.doors_top.specs.declared.script_in.TheConstants.{SCRIPT_LIMIT};
ghost use Rattle.dk_base.specs.Input.{IsWithinLimit};
ghost use Rattle.doors_top.specs.Outcomes.{outcome_of_turns, outcome_with};
ghost use Rattle.doors_top.specs.Status.{status_of_ending};
ghost use Rattle.doors_top.specs.Top.{IsAnswer, IsPlayed, LawsOfScript};

use crate::reply::{Reply, reply_for_bad};
use crate::script_in::script_in;
use crate::status::Status;
use dk_base::error::NoMemory;
use dk_base::number::Tid;
use dk_base::reading::ReadText;
use script_lang::script::Script;
use std::alloc::Global;
use sys_run::playing::{Playing, Told};
use sys_run::sys::Played;
use trace_text::RunText;

/// What was told of a run: the lines of its events, and how it ended.
#[derive(Drop)]
struct Taken {
    text: RunText,
    played: Played,
}

/// Takes the turns that `play` takes, and adds the line of each event as it is told. No event is kept.
fn take_turns(alloc: Global, playing: &mut Playing) -> Result<Taken, NoMemory>
    requires { playing.old.journal ≡ [] }
    ensures script { OnOk result (playing.new.script ≡ playing.old.script) }
    ensures lines { IfOk result (λ taken. taken.text ≡ lines_text playing.new.script (history playing.new).events) }
    ensures ended { IfOk result (λ taken. EndsPlay playing.old.script playing.new taken.played) }
    ensures laws { OnOk result (LawsOf playing.new) }
{
    let mut text = RunText::new(alloc);
    loop {
        match playing.next()? {
            Told::Event { event } => text = text.with_event(playing.script(), &event)?,
            Told::End { played } => return Ok(Taken { text, played }),
        }
    }
}

/// The text of a run that ends after its last turn.
fn reply_at_end(playing: &Playing, text: RunText) -> Result<Reply, NoMemory>
    requires { text ≡ lines_text playing.now.script (history playing.now).events }
    ensures status { IfOk result (λ reply. reply.status ≡ status_of_ending (ending_of (history playing.now).state)) }
    ensures text { IfOk result (λ reply. reply.text ≡ text_of_history playing.now.script (history playing.now)) }
    ensures answer { IfOk result (λ reply. IsAnswer reply.status) }
{
    let ending = playing.ending();
    let waiting = playing.waiting()?;
    let text = text.with_end(
        playing.script(),
        ending,
        u64::from(playing.events()),
        &waiting,
    )?;
    Ok(Reply {
        status: Status::of_ending(ending),
        text,
    })
}

/// The text of a run whose next turn is refused.
fn reply_for_refusal(
    playing: &Playing,
    text: RunText,
    turn: u32,
    thread: Tid,
) -> Result<Reply, NoMemory>
    requires { text ≡ lines_text playing.now.script (history playing.now).events }
    ensures status { IfOk result (λ reply. reply.status ≡ Status.Turn) }
    ensures text { IfOk result (λ reply. reply.text ≡ refused_text playing.now.script (history playing.now).events turn thread) }
{
    let text = text.with_refused_turn(playing.script(), turn, thread)?;
    Ok(Reply {
        status: Status::Turn,
        text,
    })
}

/// Takes the turns of the schedule and then all others, and gives the text of the run.
fn play_turns(alloc: Global, playing: &mut Playing) -> Result<Reply, NoMemory>
    requires { playing.old.journal ≡ [] }
    ensures status { IfOk result (λ reply. reply.status ≡ (outcome_of_turns playing.old.script (refusal playing.old.script)).status) }
    ensures text { IfOk result (λ reply. reply.text ≡ (outcome_of_turns playing.old.script (refusal playing.old.script)).text) }
    ensures answer { IfOk result (λ reply. IsAnswer reply.status) }
    ensures laws { IfOk result (λ _. LawsOfScript playing.old.script (refusal playing.old.script)) }
{
    let Taken { text, played } = take_turns(alloc, playing)?;
    match played {
        Played::Over => {
            let reply = reply_at_end(playing, text)?;
            Ok(reply)
        }
        Played::Refused { turn, thread } => {
            let reply = reply_for_refusal(playing, text, turn, thread)?;
            Ok(reply)
        }
    }
}

/// What `play` makes of a script.
fn play_script(alloc: Global, script: Script) -> Result<Reply, NoMemory>
    ensures status { IfOk result (λ reply. reply.status ≡ (outcome_of_turns script (refusal script)).status) }
    ensures text { IfOk result (λ reply. reply.text ≡ (outcome_of_turns script (refusal script)).text) }
    ensures answer { IfOk result (λ reply. IsAnswer reply.status) }
    ensures laws { IfOk result (λ _. LawsOfScript script (refusal script)) }
{
    let mut playing = Playing::new(alloc, script)?;
    play_turns(alloc, &mut playing)
}

/// What `play` answers and writes: the text of the run that the turns of the script make, or what is bad of the script.
pub fn play(alloc: Global, read: &ReadText) -> Result<Reply, NoMemory>
    requires { IsWithinLimit SCRIPT_LIMIT read.now }
    ensures answer { IfOk result (λ reply. IsAnswer reply.status) }
    ensures said { IfOk result (λ reply. IsPlayed read.now (outcome_with reply.status reply.text)) }
{
    spec_scripts::laws::played_turns();
    match script_in(alloc, read)? {
        Ok(script) => {
            let reply = play_script(alloc, script)?;
            Ok(reply)
        }
        Err(bad) => {
            let reply = reply_for_bad(alloc, bad)?;
            Ok(reply)
        }
    }
}
