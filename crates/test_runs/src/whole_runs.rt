//! Runs of whole scripts: what is done with them, and how they end.
ghost use Rattle.std.specs.Prelude.{◌≡◌, []};

use dk_base::answer::Answer;
use dk_base::event::{Event, What};
use dk_base::number::Tid;
use script_lang::parse::parse;
use script_lang::script::Script;
use std::alloc::Global;
use std::test::Fail;
use sys_run::playing::{Playing, Told};
use sys_run::sys::{Played, Sys};

const FIRST: Tid = Tid(1);

const SECOND: Tid = Tid(2);

/// What is done with a run that has no event yet.
#[derive(Clone, Copy)]
enum Deed {
    /// The first thread takes a turn, and waits; then the second exits.
    OneWaits,
    /// The schedule is played, so many events are made, and so many turns are left after it, all by these threads.
    Plays(Played, u32, u64, &'static [Tid]),
}

/// A text's script, and what is done with its run.
#[derive(Clone, Copy)]
struct Row {
    name: &'static str,
    text: &'static str,
    deed: Deed,
}

static ROWS: [Row; 8] = [
    Row {
        name: "one waits for a path that nobody attaches, and one exits",
        text: "doors script 1\nprocess p limit 4\nthread w\n await nowhere\nend\nthread i\nend\n",
        deed: Deed::OneWaits,
    },
    Row {
        name: "a client calls in a loop, and the server echoes",
        text: "doors script 1\nprocess srv\nthread s\n create d echo 7\n attach $d path\n serve\nend\nproc echo\n return $arg\nend\nprocess cli\nthread c\n await path\n open d path\n repeat 3\n  call r $d \"hi\"\n end\nend\n",
        deed: Deed::Plays(
            Played::Over,
            0,
            18,
            &[
                FIRST, FIRST, FIRST, SECOND, SECOND, SECOND, FIRST, FIRST, SECOND, SECOND, FIRST,
                FIRST, SECOND, SECOND, FIRST, FIRST, SECOND, SECOND,
            ],
        ),
    },
    Row {
        name: "another thread than the least one",
        text: "doors script 1\nprocess p\nthread w\n await x\nend\nthread i\nend\nschedule i w\n",
        deed: Deed::Plays(Played::Over, 2, 0, &[SECOND, FIRST]),
    },
    Row {
        name: "a scheduled thread before the least one",
        text: "doors script 1\nprocess p\nthread w\n await x\nend\nthread i\nend\nschedule i\n",
        deed: Deed::Plays(Played::Over, 1, 1, &[SECOND, FIRST]),
    },
    Row {
        name: "a thread that waits",
        text: "doors script 1\nprocess p\nthread w\n await x\nend\nthread i\nend\nschedule w w i\n",
        deed: Deed::Plays(
            Played::Refused {
                turn: 2,
                thread: FIRST,
            },
            1,
            1,
            &[FIRST, SECOND],
        ),
    },
    Row {
        name: "longer than the budget",
        text: "doors script 1\nbudget 3\nprocess p\nthread w\n repeat 9\n  open d x\n end\nend\nschedule w w w w w\n",
        deed: Deed::Plays(Played::Over, 3, 0, &[FIRST, FIRST, FIRST]),
    },
    Row {
        name: "the turn that is not runnable is above the budget",
        text: "doors script 1\nbudget 1\nprocess p\nthread w\n await x\nend\nschedule w w\n",
        deed: Deed::Plays(Played::Over, 1, 0, &[FIRST]),
    },
    Row {
        name: "it goes on after the run is over",
        text: "doors script 1\nprocess p\nthread i\nend\nschedule i i\n",
        deed: Deed::Plays(
            Played::Refused {
                turn: 2,
                thread: FIRST,
            },
            1,
            0,
            &[FIRST],
        ),
    },
];

/// Whether the first thread's turn wakes nobody.
fn steps(sys: &mut Sys) -> bool {
    if !sys.runnable(FIRST) || sys.events() >= sys.script().budget() {
        return false;
    }
    matches!(sys.step(FIRST), Ok(woken) if woken.is_empty())
}

fn is_event(event: &Event, deed: What) -> bool {
    match deed {
        What::Await => matches!(event.what, What::Await) && matches!(event.answer, Answer::Wait),
        _ => matches!(event.what, What::Exit) && matches!(event.answer, Answer::Done),
    }
}

fn waits_and_exits(events: &[Event]) -> bool {
    events.len() == 2 && is_event(&events[0], What::Await) && is_event(&events[1], What::Exit)
}

fn one_waits(sys: &mut Sys) -> bool {
    steps(sys)
        && matches!(sys.finish(), Ok(1))
        && matches!(sys.waiting(), Ok(waiting) if waiting.slice() == [FIRST].as_slice())
        && waits_and_exits(sys.journal())
}

/// Whether these threads took the turns.
fn are_turns(events: &[Event], threads: &[Tid]) -> bool {
    events.len() == threads.len()
        && events
            .iter()
            .zip(threads.iter())
            .all(|(event, thread)| event.thread == *thread)
}

fn plays(sys: &mut Sys, ends: Played, scheduled: u32, left: u64, threads: &[Tid]) -> bool
    requires { sys.old.journal ≡ [] }
{
    matches!(sys.play_schedule(), Ok(played) if played == ends)
        && sys.events() == scheduled
        && matches!(sys.finish(), Ok(turns) if turns == left)
        && are_turns(sys.journal(), threads)
}

fn does(sys: &mut Sys, deed: Deed) -> bool
    requires { sys.old.journal ≡ [] }
{
    match deed {
        Deed::OneWaits => one_waits(sys),
        Deed::Plays(ends, scheduled, left, threads) => plays(sys, ends, scheduled, left, threads),
    }
}

fn run_does(alloc: Global, script: Script, deed: Deed) -> bool {
    match Sys::new(alloc, script) {
        Ok(mut sys) => does(&mut sys, deed),
        Err(_) => false,
    }
}

fn is_right(alloc: Global, row: &Row) -> bool {
    if row.text.len() >= 4_000_000_000 {
        return false;
    }
    match parse(alloc, row.text.as_bytes()) {
        Ok(script) => run_does(alloc, script, row.deed),
        Err(_) => false,
    }
}

#[test]
fn runs(rt: HostRuntime) -> Result<(), Fail> {
    for row in &ROWS {
        let is_right = is_right(rt.alloc(), row);
        assert!(rt; is_right, "{}", row.name);
    }
    Ok(())
}

/// Two processes ask their name tables in turn.
const TABLES: &str =
    "doors script 4\nprocess p\nthread w\n ncd r \"set k v\"\n ncd r \"get k\"\n ncd r \"get k\"\n ncd r \"stat\"\nend\nprocess q\nthread v\n ncd r \"get k\"\n ncd r \"get k\"\n ncd r \"set k u\"\n ncd r \"get k\"\nend\nschedule w v w v w v w v\n";

/// What they are replied, turn by turn; an exit has no text.
static REPLIES: [&str; 10] = [
    "ok",
    "none",
    "value v",
    "none",
    "value v",
    "ok",
    "hits 1 misses 1",
    "value u",
    "",
    "",
];

/// Some turns of another kind: a task is done, the run ends in a third way, and lines are replied to.
static OTHERS: [&str; 3] = [
    "doors script 1\nprocess p\nthread w\n work h digest \"hi\"\nend\n",
    "doors script 1\nbudget 3\nprocess p\nthread w\n repeat 9\n  open d x\n end\nend\n",
    TABLES,
];

/// Whether two answers have the same bytes of a task or of a reply, or neither has any.
fn have_same_bytes(told: &Answer, kept: &Answer) -> bool {
    match (told, kept) {
        (Answer::Data { bytes: told }, Answer::Data { bytes: kept }) => {
            told.slice() == kept.slice()
        }
        (Answer::Data { .. }, _) | (_, Answer::Data { .. }) => false,
        _ => true,
    }
}

fn is_same(told: &Event, kept: &Event) -> bool {
    told.number == kept.number
        && told.thread == kept.thread
        && told.root == kept.root
        && told.what == kept.what
        && have_same_bytes(&told.answer, &kept.answer)
}

fn tells_event(playing: &mut Playing, kept: &Event) -> bool {
    matches!(playing.next(), Ok(Told::Event { event }) if is_same(&event, kept))
}

/// Whether exactly these events are told, and then this end.
fn tells(playing: &mut Playing, journal: &[Event], ends: Played) -> bool {
    for kept in journal {
        if !tells_event(playing, kept) {
            return false;
        }
    }
    matches!(playing.next(), Ok(Told::End { played }) if played == ends)
}

/// Plays the schedule, and then all turns that are left unless it is refused.
fn play_all(sys: &mut Sys) -> Option<Played>
    requires { sys.old.journal ≡ [] }
{
    match sys.play_schedule() {
        Ok(Played::Over) if sys.finish().is_ok() => Some(Played::Over),
        Ok(Played::Refused { turn, thread }) => Some(Played::Refused { turn, thread }),
        _ => None,
    }
}

/// Whether the run of a script is told as it was kept.
fn is_told(playing: &mut Playing, sys: &mut Sys) -> bool
    requires { sys.old.journal ≡ [] }
{
    match play_all(sys) {
        Some(ends) => tells(playing, sys.journal(), ends) && playing.ending() == sys.ending(),
        None => false,
    }
}

fn is_told_and_kept(alloc: Global, told: Script, kept: Script) -> bool {
    match (Playing::new(alloc, told), Sys::new(alloc, kept)) {
        (Ok(mut playing), Ok(mut sys)) => is_told(&mut playing, &mut sys),
        _ => false,
    }
}

fn is_told_of(alloc: Global, text: &str) -> bool {
    if text.len() >= 4_000_000_000 {
        return false;
    }
    match (parse(alloc, text.as_bytes()), parse(alloc, text.as_bytes())) {
        (Ok(told), Ok(kept)) => is_told_and_kept(alloc, told, kept),
        _ => false,
    }
}

/// The events that are told are those that are kept.
#[test]
fn told_events(rt: HostRuntime) -> Result<(), Fail> {
    for row in &ROWS {
        let is_right = is_told_of(rt.alloc(), row.text);
        assert!(rt; is_right, "{}", row.name);
    }
    for text in &OTHERS {
        let is_right = is_told_of(rt.alloc(), *text);
        assert!(rt; is_right, "{text}");
    }
    Ok(())
}

fn is_reply(event: &Event, reply: &str) -> bool {
    match &event.answer {
        Answer::Data { bytes } => bytes.slice() == reply.as_bytes(),
        _ => reply.is_empty(),
    }
}

fn are_replies(events: &[Event], replies: &[&str]) -> bool {
    events.len() == replies.len()
        && events
            .iter()
            .zip(replies.iter())
            .all(|(event, reply)| is_reply(event, reply))
}

fn is_replied(alloc: Global, script: Script) -> bool {
    match Sys::new(alloc, script) {
        Ok(mut sys) => play_all(&mut sys).is_some() && are_replies(sys.journal(), &REPLIES),
        Err(_) => false,
    }
}

fn is_replied_of(alloc: Global, text: &str) -> bool {
    if text.len() >= 4_000_000_000 {
        return false;
    }
    match parse(alloc, text.as_bytes()) {
        Ok(script) => is_replied(alloc, script),
        Err(_) => false,
    }
}

/// Each process has a table of its own, with its own cache, and the journal has the bytes of its replies; `told_events` looks that a
/// run which is told has the same.
#[test]
fn replies(rt: HostRuntime) -> Result<(), Fail> {
    let is_right = is_replied_of(rt.alloc(), TABLES);
    assert!(rt; is_right, "replies of two tables");
    Ok(())
}

fn needs_send<T: Send>() {}

/// A whole run may go to another thread.
#[test]
fn sys_is_send() {
    needs_send::<Sys>();
}
