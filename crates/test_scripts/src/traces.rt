//! The lines of traces.

use dk_base::answer::{Answer, DoorInfo};
use dk_base::error::{Errno, NoMemory};
use dk_base::event::{Event, What};
use dk_base::list::{Bytes, ErrList, EventList, FdList, TidList};
use dk_base::number::{Fd, Pid, Tid};
use dk_base::object::{EventRec, Src};
use dk_base::set::Attrs;
use script_lang::parse::parse;
use script_lang::script::Script;
use spec_requests::ending::Ending;
use std::alloc::Global;
use std::process::Abort;
use std::test::Fail;
use trace_text::{RunText, end_line, line, text_with_tail, thread_of};

/// A server `s` with a procedure `echo`, a client `c`, and a spare.
const SCRIPT: &str =
    "doors script 1\nprocess srv\nthread s\nend\nproc echo\nend\nprocess cli\nthread c\nend\nspare spare_1\n";

const S: Tid = Tid(1);

const C: Tid = Tid(2);

const SPARE: Tid = Tid(3);

fn script<R: Abort>(rt: &R, alloc: Global) -> Result<Script, Fail> {
    assert!(rt; SCRIPT.len() < 4_000_000_000);
    Ok(parse(alloc, SCRIPT.as_bytes())?)
}

fn is_text(text: &Result<Bytes, NoMemory>, expected: &str) -> bool {
    matches!(text, Ok(text) if text.slice() == expected.as_bytes())
}

/// Whether the line of event 7, a turn of `s` for `c`, is this.
fn shows(alloc: Global, script: &Script, what: What, answer: Answer, expected: &str) -> bool {
    let event = Event {
        number: 7,
        thread: S,
        root: C,
        what,
        answer,
    };
    is_text(&line(alloc, script, &event), expected)
}

/// The word of each kind of event, where it fails.
static WORDS: [(What, &str); 44] = [
    (What::Create, "7 s c create EINTR"),
    (What::Call, "7 s c call EINTR"),
    (What::Return, "7 s c return EINTR"),
    (What::Revoke, "7 s c revoke EINTR"),
    (What::Bind, "7 s c bind EINTR"),
    (What::Unbind, "7 s c unbind EINTR"),
    (What::Info, "7 s c info EINTR"),
    (What::GetParam, "7 s c getparam EINTR"),
    (What::SetParam, "7 s c setparam EINTR"),
    (What::Cred, "7 s c cred EINTR"),
    (What::TestCancel, "7 s c testcancel EINTR"),
    (What::Close, "7 s c close EINTR"),
    (What::Dup, "7 s c dup EINTR"),
    (What::Attach, "7 s c attach EINTR"),
    (What::Detach, "7 s c detach EINTR"),
    (What::Open, "7 s c open EINTR"),
    (What::Await, "7 s c await EINTR"),
    (What::Pipe, "7 s c pipe EINTR"),
    (What::Write, "7 s c write EINTR"),
    (What::Read, "7 s c read EINTR"),
    (What::PortCreate, "7 s c pcreate EINTR"),
    (What::Associate, "7 s c associate EINTR"),
    (What::Dissociate, "7 s c dissociate EINTR"),
    (What::Get, "7 s c get EINTR"),
    (What::GetN, "7 s c getn EINTR"),
    (What::Send, "7 s c send EINTR"),
    (What::SendN, "7 s c sendn EINTR"),
    (What::Alert, "7 s c alert EINTR"),
    (What::TimerCreate, "7 s c tcreate EINTR"),
    (What::TimerSet, "7 s c tset EINTR"),
    (What::TimerDelete, "7 s c tdelete EINTR"),
    (What::Advance, "7 s c advance EINTR"),
    (What::Interrupt, "7 s c interrupt EINTR"),
    (What::Kill, "7 s c kill EINTR"),
    (What::Exit, "7 s c exit EINTR"),
    (What::Fork, "7 s c fork EINTR"),
    (What::Work, "7 s c work EINTR"),
    (What::Ncd, "7 s c ncd EINTR"),
    (What::Accept, "7 s c accept EINTR"),
    (What::Collect, "7 s c collect EINTR"),
    (What::Got, "7 s c got EINTR"),
    (What::Found, "7 s c found EINTR"),
    (What::Done, "7 s c done EINTR"),
    (What::Woken, "7 s c woken EINTR"),
];

fn words<R: Abort>(rt: &R, alloc: Global, script: &Script) {
    for row in &WORDS {
        let (what, expected) = *row;
        let is_shown = shows(alloc, script, what, Answer::Failure(Errno::EINTR), expected);
        assert!(rt; is_shown, "{expected}");
    }
}

#[derive(Clone, Copy)]
enum Plain {
    Wait,
    WaitCall,
    Done,
    NewFd,
    TwoFds,
    Count,
    Available,
    Client,
    Child,
    Cancelled,
    NotCancelled,
    EnterFailed,
    Notice,
    Greatest,
    NextGreatest,
    OneEvent,
    Failure,
}

static PLAIN: [(What, Plain, &str); 17] = [
    (What::Return, Plain::Wait, "7 s c return wait"),
    (What::Call, Plain::WaitCall, "7 s c call wait c12"),
    (What::Attach, Plain::Done, "7 s c attach ok"),
    (What::Dup, Plain::NewFd, "7 s c dup ok fd 255"),
    (What::Pipe, Plain::TwoFds, "7 s c pipe ok fd 0 1"),
    (What::Write, Plain::Count, "7 s c write ok 4096"),
    (What::GetN, Plain::Available, "7 s c getn ok 64"),
    (What::Cred, Plain::Client, "7 s c cred ok process 2"),
    (What::Fork, Plain::Child, "7 s c fork ok process 2"),
    (
        What::TestCancel,
        Plain::Cancelled,
        "7 s c testcancel ok yes",
    ),
    (
        What::TestCancel,
        Plain::NotCancelled,
        "7 s c testcancel ok no",
    ),
    (What::Accept, Plain::EnterFailed, "7 s c accept EMFILE c3"),
    (
        What::Accept,
        Plain::Notice,
        "7 s c accept enter n1 echo 7 unref",
    ),
    (What::GetParam, Plain::Greatest, "7 s c getparam ok max"),
    (
        What::GetParam,
        Plain::NextGreatest,
        "7 s c getparam ok 18446744073709551614",
    ),
    (What::Get, Plain::OneEvent, "7 s c get ok fd:3:none:5"),
    (What::Woken, Plain::Failure, "7 s c woken EINVAL"),
];

fn answer_of(form: Plain) -> Answer {
    match form {
        Plain::Wait => Answer::Wait,
        Plain::WaitCall => Answer::WaitCall { call: 12 },
        Plain::Done => Answer::Done,
        Plain::NewFd => Answer::NewFd { fd: Fd(255) },
        Plain::TwoFds => Answer::TwoFds {
            read: Fd(0),
            write: Fd(1),
        },
        Plain::Count => Answer::Count { n: 4096 },
        Plain::Available => Answer::Available { n: 64 },
        Plain::Client => Answer::Client { process: Pid(2) },
        Plain::Child => Answer::Child { process: Pid(2) },
        Plain::Cancelled => Answer::Cancel { yes: true },
        Plain::NotCancelled => Answer::Cancel { yes: false },
        Plain::EnterFailed => Answer::EnterFailed { call: 3 },
        Plain::Notice => Answer::EnteredNotice {
            notice: 1,
            entry: 0,
            cookie: 7,
        },
        Plain::Greatest => Answer::Param { value: u64::MAX },
        Plain::NextGreatest => Answer::Param {
            value: u64::MAX - 1,
        },
        Plain::OneEvent => Answer::OneEvent(port_event(Src::Fd, 3, 0)),
        Plain::Failure => Answer::Failure(Errno::EINVAL),
    }
}

fn plain_answers<R: Abort>(rt: &R, alloc: Global, script: &Script) {
    for row in &PLAIN {
        let (what, form, expected) = *row;
        assert!(rt;
            shows(alloc, script, what, answer_of(form), expected),
            "{expected}"
        );
    }
}

static DOORS: [(Option<Pid>, u32, &str); 3] = [
    (
        Some(Pid(1)),
        68,
        "7 s c info ok target 1 proc echo cookie 9 attr local+refuse-desc unique 1",
    ),
    (
        None,
        0,
        "7 s c info ok target -1 proc echo cookie 9 attr none unique 1",
    ),
    (
        None,
        255,
        "7 s c info ok target -1 proc echo cookie 9 attr unref+private+local+revoked+unref-multi+is-unref+refuse-desc+no-cancel unique 1",
    ),
];

fn info(target: Option<Pid>, attrs: u32) -> Answer {
    Answer::Info(DoorInfo {
        target,
        entry: 0,
        cookie: 9,
        attrs: Attrs(attrs),
        unique: 1,
    })
}

fn doors<R: Abort>(rt: &R, alloc: Global, script: &Script) {
    for row in &DOORS {
        let (target, attrs, expected) = *row;
        let is_shown = shows(alloc, script, What::Info, info(target, attrs), expected);
        assert!(rt; is_shown, "{expected}");
    }
}

fn entered(alloc: Global, fds: &[Fd]) -> Result<Answer, Fail> {
    let bytes = Bytes::from_slice(alloc, b"hi")?;
    let fds = FdList::from_slice(alloc, fds)?;
    Ok(Answer::Entered {
        call: 2,
        entry: 0,
        cookie: 7,
        bytes,
        fds,
    })
}

static ENTERED: [(&[Fd], &str); 2] = [
    (&[], "7 s c accept enter c2 echo 7 \"hi\""),
    (
        &[Fd(1), Fd(4)],
        "7 s c accept enter c2 echo 7 \"hi\" fd 1 4",
    ),
];

fn invocations<R: Abort>(rt: &R, alloc: Global, script: &Script) -> Result<(), Fail> {
    for row in &ENTERED {
        let (fds, expected) = *row;
        let is_shown = shows(alloc, script, What::Accept, entered(alloc, fds)?, expected);
        assert!(rt; is_shown, "{expected}");
    }
    Ok(())
}

fn results(alloc: Global, fds: &[Fd], grown: bool) -> Result<Answer, Fail> {
    let bytes = Bytes::from_slice(alloc, b"hi")?;
    let fds = FdList::from_slice(alloc, fds)?;
    Ok(Answer::Results { bytes, fds, grown })
}

static RESULTS: [(&[Fd], bool, &str); 3] = [
    (&[], false, "7 s c collect ok \"hi\""),
    (&[], true, "7 s c collect ok \"hi\" grown"),
    (&[Fd(0)], true, "7 s c collect ok \"hi\" fd 0 grown"),
];

fn collected_results<R: Abort>(rt: &R, alloc: Global, script: &Script) -> Result<(), Fail> {
    for row in &RESULTS {
        let (fds, grown, expected) = *row;
        let answer = results(alloc, fds, grown)?;
        assert!(rt;
            shows(alloc, script, What::Collect, answer, expected),
            "{expected}"
        );
    }
    Ok(())
}

fn port_event(source: Src, object: u32, events: u32) -> EventRec {
    EventRec {
        source,
        object,
        events,
        user: 5,
    }
}

fn many_events(alloc: Global, told: &[EventRec]) -> Result<Answer, Fail> {
    Ok(Answer::Events(EventList::from_slice(alloc, told)?))
}

fn errors(alloc: Global, errors: &[Option<Errno>]) -> Result<Answer, Fail> {
    Ok(Answer::Errors(ErrList::from_slice(alloc, errors)?))
}

fn port_answers<R: Abort>(rt: &R, alloc: Global, script: &Script) -> Result<(), Fail> {
    let told = [
        port_event(Src::Fd, 3, 29),
        port_event(Src::User, 0, 2),
        port_event(Src::Alert, 0, 1),
        port_event(Src::Timer, 31, u32::MAX),
    ];
    let text = "7 s c got ok 4 fd:3:in+out+err+hup:5 user:0:2:5 alert:0:1:5 timer:31:4294967295:5";
    assert!(rt; shows(alloc, script, What::Got, many_events(alloc, &told)?, text));
    let text = "7 s c getn ok 0";
    assert!(rt; shows(alloc, script, What::GetN, many_events(alloc, &[])?, text));
    let failed = [None, Some(Errno::EAGAIN)];
    let text = "7 s c sendn ok ok EAGAIN";
    assert!(rt; shows(alloc, script, What::SendN, errors(alloc, &failed)?, text));
    Ok(())
}

/// Data of up to 64 bytes stands in quotes. The digest of more is that of sha256sum(1).
static DATA: [(&[u8], &str); 4] = [
    (b"", "7 s c done ok \"\""),
    (
        b"a\"\\\n~\x7f z\xff",
        "7 s c done ok \"a\\\"\\\\\\x0a~\\x7f z\\xff\"",
    ),
    (
        &[b'x'; 64],
        "7 s c done ok \"xxxxxxxxxxxxxxxxxxxxxxxxxxxxxxxxxxxxxxxxxxxxxxxxxxxxxxxxxxxxxxxx\"",
    ),
    (
        &[b'x'; 65],
        "7 s c done ok sha256:65:9537c5fdf120482f7d58d25e9ed583f52c02b4e304ea814db1633ad565aed7e9",
    ),
];

fn shown_data<R: Abort>(rt: &R, alloc: Global, script: &Script) -> Result<(), Fail> {
    for row in &DATA {
        let (data, expected) = *row;
        let bytes = Bytes::from_slice(alloc, data)?;
        let is_shown = shows(alloc, script, What::Done, Answer::Data { bytes }, expected);
        assert!(rt; is_shown, "{expected}");
    }
    Ok(())
}

static END_LINES: [(Ending, &str); 3] = [
    (Ending::Complete, "end complete 0"),
    (Ending::Stalled, "end stalled 0 s c"),
    (Ending::Budget, "end budget 0"),
];

fn end_lines<R: Abort>(rt: &R, alloc: Global, script: &Script, waiting: &TidList) {
    for row in &END_LINES {
        let (ending, expected) = *row;
        let text = end_line(alloc, script, ending, 0, waiting);
        assert!(rt; is_text(&text, expected), "{expected}");
    }
}

/// The lines of events, one after another.
fn lines_of(alloc: Global, script: &Script, events: &[Event]) -> Result<RunText, NoMemory> {
    let mut text = RunText::new(alloc);
    for event in events {
        text = text.with_event(script, event)?;
    }
    Ok(text)
}

fn texts_of_events<R: Abort>(
    rt: &R,
    alloc: Global,
    script: &Script,
    events: &[Event],
    waiting: &TidList,
) -> Result<(), NoMemory> {
    let run = lines_of(alloc, script, events)?.with_end(script, Ending::Stalled, 2, waiting);
    let expected = "1 s s create ok fd 0\n2 c c await wait\nend stalled 2 c\n";
    assert!(rt; is_text(&run, expected));
    let cut = lines_of(alloc, script, events)?.with_refused_turn(script, 3, C);
    let expected = "1 s s create ok fd 0\n2 c c await wait\nrefused turn 3 c\n";
    assert!(rt; is_text(&cut, expected));
    let tailed = text_with_tail(alloc, script, events, Ending::Stalled, waiting, 2);
    let expected = "1 s s create ok fd 0\n2 c c await wait\nend stalled 2 c\ntail 2\n";
    assert!(rt; is_text(&tailed, expected));
    Ok(())
}

fn whole_texts<R: Abort>(
    rt: &R,
    alloc: Global,
    script: &Script,
    waiting: &TidList,
) -> Result<(), NoMemory> {
    let events = [
        Event {
            number: 1,
            thread: S,
            root: S,
            what: What::Create,
            answer: Answer::NewFd { fd: Fd(0) },
        },
        Event {
            number: 2,
            thread: C,
            root: C,
            what: What::Await,
            answer: Answer::Wait,
        },
    ];
    texts_of_events(rt, alloc, script, &events, waiting)
}

/// Lines with the thread that each names.
static NAMED: [(&str, Option<Tid>); 11] = [
    ("7 s c done ok \"hi\"", Some(S)),
    ("7 c", Some(C)),
    ("  7   spare_1  c done ok ", Some(SPARE)),
    ("x c s", Some(C)),
    ("7 srv s done ok", None),
    ("7 echo s done ok", None),
    ("7 ss s done ok", None),
    ("7 S s done ok", None),
    ("7", None),
    ("s ", None),
    ("", None),
];

fn threads_of_lines<R: Abort>(rt: &R, script: &Script) {
    for row in &NAMED {
        let (text, thread) = *row;
        assert!(rt; thread_of(script, text.as_bytes()) == thread, "{text}");
    }
}

fn lines<R: Abort>(rt: &R, alloc: Global, script: &Script) -> Result<(), Fail> {
    words(rt, alloc, script);
    plain_answers(rt, alloc, script);
    doors(rt, alloc, script);
    invocations(rt, alloc, script)?;
    collected_results(rt, alloc, script)?;
    port_answers(rt, alloc, script)?;
    shown_data(rt, alloc, script)
}

fn ends<R: Abort>(rt: &R, alloc: Global, script: &Script) -> Result<(), Fail> {
    let waiting = TidList::from_slice(alloc, &[S, C])?;
    end_lines(rt, alloc, script, &waiting);
    Ok(())
}

fn whole_runs<R: Abort>(rt: &R, alloc: Global, script: &Script) -> Result<(), Fail> {
    let waiting = TidList::from_slice(alloc, &[C])?;
    whole_texts(rt, alloc, script, &waiting)?;
    Ok(())
}

fn texts<R: Abort>(rt: &R, alloc: Global, script: &Script) -> Result<(), Fail> {
    lines(rt, alloc, script)?;
    ends(rt, alloc, script)?;
    whole_runs(rt, alloc, script)?;
    threads_of_lines(rt, script);
    Ok(())
}

#[test]
fn texts_of_traces(rt: HostRuntime) -> Result<(), Fail> {
    let alloc = rt.alloc();
    texts(&rt, alloc, &script(&rt, alloc)?)
}
