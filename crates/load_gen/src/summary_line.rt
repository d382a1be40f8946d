//! The line that tells of a run of a load.

ghost use Rattle.std.specs.Prelude.{◌≡◌, ◌<◌, ◌++◌, ◌∷◌, [], List, None, length, IfOk, OnOk, decimal};
ghost use Rattle.dk_base.specs.declared.limits.TheConstants.{BUDGET_MAX};
ghost use Rattle.spec_requests.specs.Types.{Event as EventValue};
ghost use Rattle.spec_requests.specs.Words.{ending_word};
ghost use Rattle.spec_scripts.specs.Words.{History, ending_of, refusal};
ghost use Rattle.sys_run.specs.Words.{IsPlay, LawsOf, history};
ghost use Rattle.load_gen.specs.Summaries.{collects_results, makes_call, summary_of};
ghost use Rattle.load_gen.specs.Tallies.{IsTallyOf};
ghost use Rattle.load_gen.specs.Told.{IsSummaryOf};

use dk_base::answer::Answer;
use dk_base::error::NoMemory;
use dk_base::event::{Event, What};
use dk_base::list::Bytes;
use itoa::Buffer;
use spec_requests::ending::Ending;
use std::alloc::Global;
use sys_run::playing::{Playing, Told};

/// What is told of a run of a load: its line, without a line feed, which says how many calls were made, how many collects answered results,
/// how many events there were, and how the run ended; and this ending as a value.
#[derive(Drop)]
pub struct SummaryLine {
    pub line: Bytes,
    pub ending: Ending,
}

/// How many calls were made, how many collects answered results, and how many events there were.
#[derive(Clone, Copy)]
struct Tally {
    calls: u64,
    results: u64,
    events: u64,
}

#[tactic(auto, unfolding(crate::specs::Summaries::makes_call))]
fn is_call_made(event: &Event) -> bool
    ensures { result ≡ makes_call event.now }
{
    matches!(event.what, What::Call) && matches!(event.answer, Answer::WaitCall { .. })
}

#[tactic(auto, unfolding(crate::specs::Summaries::collects_results))]
fn is_results_collected(event: &Event) -> bool
    ensures { result ≡ collects_results event.now }
{
    matches!(event.what, What::Collect) && matches!(event.answer, Answer::Results { .. })
}

/// Counts an event more.
fn count(tally: &mut Tally, event: &Event)
    requires { (es : List EventValue) × IsTallyOf tally.old es × (length es < BUDGET_MAX) }
    ensures { (es : List EventValue) → IsTallyOf tally.old es → IsTallyOf tally.new (es ++ event.now ∷ []) }
{
    tally.calls += u64::from(is_call_made(event));
    tally.results += u64::from(is_results_collected(event));
    tally.events += 1;
}

/// Takes the turns that `play` takes, and counts their events as they are told.
fn count_all(playing: &mut Playing) -> Result<Tally, NoMemory>
    requires { playing.old.journal ≡ [] }
    ensures counted { IfOk result (λ tally. IsTallyOf tally (history playing.new).events) }
    ensures script { OnOk result (playing.new.script ≡ playing.old.script) }
    ensures played { OnOk result (refusal playing.old.script ≡ None → IsPlay playing.old.script playing.new) }
    ensures laws { OnOk result (LawsOf playing.new) }
{
    let mut tally = Tally {
        calls: 0,
        results: 0,
        events: 0,
    };
    while let Told::Event { event } = playing.next()? {
        count(&mut tally, &event);
    }
    Ok(tally)
}

fn word_of(ending: Ending) -> &'static [u8]
    ensures { result.now ≡ ending_word ending }
{
    match ending {
        Ending::Complete => b"complete",
        Ending::Stalled => b"stalled",
        Ending::Budget => b"budget",
    }
}

/// Adds a word and a number. Want of memory may leave the word alone.
fn push_counted(text: &mut Bytes, word: &[u8], number: u64) -> Result<(), NoMemory>
    ensures { OnOk result (text.new ≡ text.old ++ word.now ++ decimal number) }
{
    text.append(word)?;
    text.append(Buffer::new().format(number).as_bytes())
}

/// The line of a load of `n` calls, without a line feed.
#[tactic(auto, unfolding(crate::specs::Summaries::summary_of))]
fn line_of(alloc: Global, n: u32, tally: Tally, ending: Ending) -> Result<Bytes, NoMemory>
    ensures { IfOk result (λ line. (h : History) → IsTallyOf tally h.events → ending ≡ ending_of h.state → line ≡ summary_of n h) }
{
    let mut line = Bytes::new(alloc);
    push_counted(&mut line, b"load ", u64::from(n))?;
    push_counted(&mut line, b" calls ", tally.calls)?;
    push_counted(&mut line, b" ok ", tally.results)?;
    push_counted(&mut line, b" events ", tally.events)?;
    line.append(b" end ")?;
    line.append(word_of(ending))?;
    Ok(line)
}

/// Takes the turns that `play` takes, in a run that has no event yet, and tells of it as of a load of `n` calls. A call that was refused
/// was not made. Want of memory is the only error, and drops the run.
pub fn summary(alloc: Global, n: u32, playing: Playing) -> Result<SummaryLine, NoMemory>
    requires { playing.journal ≡ [] }
    ensures { IfOk result (λ summary. IsSummaryOf n playing.script summary) }
{
    let mut playing = playing;
    let tally = count_all(&mut playing)?;
    let ending = playing.ending();
    let line = line_of(alloc, n, tally, ending)?;
    Ok(SummaryLine { line, ending })
}
