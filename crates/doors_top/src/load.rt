//! What `load` answers and writes.
ghost use Rattle.std.specs.Prelude.{◌≡◌, ◌≤◌, ◌++◌, [], IfOk, codes};
ghost use Rattle.load_gen.specs.declared.load_script.TheConstants.{CALLS_MAX};
ghost use Rattle.load_gen.specs.Words.{load_script};
ghost use Rattle.spec_scripts.specs.Words.{turns_of_play};
ghost use Rattle.sys_run.specs.Words.{with_journal};
ghost use Rattle.doors_top.specs.Outcomes.{outcome_of_load, outcome_with};
ghost use Rattle.doors_top.specs.Status.{status_of_ending};
ghost use Rattle.doors_top.specs.Top.{IsAnswer, IsLoaded, LawsOfTurns};

use crate::reply::Reply;
use crate::status::Status;
use dk_base::error::NoMemory;
use load_gen::{SummaryLine, generate, summary};
use std::alloc::Global;
use sys_run::playing::Playing;

/// The line with a line feed, and the status that tells of how the run ended.
fn reply_for_told(told: SummaryLine) -> Result<Reply, NoMemory>
    ensures status { IfOk result (λ reply. reply.status ≡ status_of_ending told.ending) }
    ensures text { IfOk result (λ reply. reply.text ≡ told.line ++ codes "\n") }
    ensures answer { IfOk result (λ reply. IsAnswer reply.status) }
{
    let SummaryLine { line, ending } = told;
    let mut text = line;
    text.append(b"\n")?;
    Ok(Reply {
        status: Status::of_ending(ending),
        text,
    })
}

/// Takes all turns of the load. No line of a trace is written, and no event is kept.
fn play_load(alloc: Global, n: u32, playing: Playing) -> Result<Reply, NoMemory>
    requires { playing ≡ with_journal (load_script n) [] }
    ensures answer { IfOk result (λ reply. IsAnswer reply.status) }
    ensures made { IfOk result (λ reply. outcome_with reply.status reply.text ≡ outcome_of_load n) }
    ensures laws { IfOk result (λ _. LawsOfTurns (load_script n) (turns_of_play (load_script n))) }
{
    load_gen::laws::loads();
    let told = summary(alloc, n, playing)?;
    let reply = reply_for_told(told)?;
    Ok(reply)
}

/// What `load` answers and writes: the line that tells of the run that `play` makes of the script of `n` calls.
pub fn load(alloc: Global, n: u32) -> Result<Reply, NoMemory>
    requires least { 1 ≤ n }
    requires most { n ≤ CALLS_MAX }
    ensures answer { IfOk result (λ reply. IsAnswer reply.status) }
    ensures made { IfOk result (λ reply. outcome_with reply.status reply.text ≡ outcome_of_load n) }
    ensures loaded { IfOk result (λ _. IsLoaded n) }
{
    load_gen::laws::loads();
    spec_scripts::laws::played_turns();
    let script = generate(alloc, n)?;
    let playing = Playing::new(alloc, script)?;
    let reply = play_load(alloc, n, playing)?;
    Ok(reply)
}
