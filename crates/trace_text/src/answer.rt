//! Answers as lines show them. A text that adds one takes no memory; `reserve_answer` takes the room for it before.

ghost use Rattle.std.specs.Prelude.{◌≡◌, ◌≤◌, ◌+◌, ◌*◌, ◌++◌, flat_map, decimal, length, OnOk};
ghost use Rattle.dk_base.specs.Words.{errno_name};
ghost use Rattle.spec_requests.specs.Words.{answer_text, entered_text, event_text, fds_text, grown_text, info_text, invocation_text, made_text, notice_text, results_text, source_text, spaced_error, spaced_event, spaced_fd, target_text};
ghost use Rattle.trace_text.specs.AnswerRoom.{answer_room, count_listed, shown_procedure};
ghost use Rattle.trace_text.specs.Taken.{TakesAtMost};

use super::append::{
    push_counted, push_number, push_spaced, push_spaced_number, push_value, push_word,
};
use super::data_text::push_data;
use super::names::NamesProcedures;
use super::sets::{push_attributes, push_poll};
use dk_base::answer::{Answer, DoorInfo};
use dk_base::error::{Errno, NoMemory};
use dk_base::list::Room;
use dk_base::number::{Fd, Pid};
use dk_base::object::{EventRec, Src};
use dk_base::set::PollSet;

fn push_each_fd(text: &mut Room<u8>, fds: &[Fd])
    requires { 21 * length fds.now ≤ text.old.spare }
    ensures items { text.new.items ≡ text.old.items ++ flat_map spaced_fd fds.now }
    ensures room { TakesAtMost text.old text.new (21 * length fds.now) }
{
    for fd in fds {
        push_spaced_number(text, u64::from(fd.0));
    }
}

fn push_fds(text: &mut Room<u8>, fds: &[Fd])
    requires { 3 + 21 * length fds.now ≤ text.old.spare }
    ensures items { text.new.items ≡ text.old.items ++ fds_text fds.now }
    ensures room { TakesAtMost text.old text.new (3 + 21 * length fds.now) }
{
    if !fds.is_empty() {
        push_word(text, " fd");
        push_each_fd(text, fds);
    }
}

fn push_target(text: &mut Room<u8>, target: Option<Pid>)
    requires { 20 ≤ text.old.spare }
    ensures items { text.new.items ≡ text.old.items ++ target_text target }
    ensures room { TakesAtMost text.old text.new 20 }
{
    match target {
        Some(process) => push_number(text, u64::from(process.0)),
        None => push_word(text, "-1"),
    }
}

/// Whose door it is, and what it was made with; `procedure` is the name of the procedure.
fn push_made(text: &mut Room<u8>, procedure: &[u8], info: &DoorInfo)
    requires { length procedure.now + 64 ≤ text.old.spare }
    ensures items { text.new.items ≡ text.old.items ++ made_text procedure.now info.now }
    ensures room { TakesAtMost text.old text.new (length procedure.now + 64) }
{
    push_word(text, "ok target ");
    push_target(text, info.target);
    push_word(text, " proc");
    push_spaced(text, procedure);
    push_counted(text, " cookie ", info.cookie);
}

/// What door_info(3C) tells.
fn push_info(text: &mut Room<u8>, procedure: &[u8], info: &DoorInfo)
    requires { length procedure.now + 198 ≤ text.old.spare }
    ensures items { text.new.items ≡ text.old.items ++ info_text procedure.now info.now }
    ensures room { TakesAtMost text.old text.new (length procedure.now + 198) }
{
    push_made(text, procedure, info);
    push_word(text, " attr ");
    push_attributes(text, info.attrs);
    push_counted(text, " unique ", info.unique);
}

fn push_source(text: &mut Room<u8>, event: EventRec)
    requires { 48 ≤ text.old.spare }
    ensures items { text.new.items ≡ text.old.items ++ source_text event.source event }
    ensures room { TakesAtMost text.old text.new 48 }
{
    match event.source {
        Src::Fd => {
            push_counted(text, "fd:", u64::from(event.object));
            push_word(text, ":");
            push_poll(text, PollSet(event.events));
        }
        Src::User => push_counted(text, "user:0:", u64::from(event.events)),
        Src::Alert => push_counted(text, "alert:0:", u64::from(event.events)),
        Src::Timer => {
            push_counted(text, "timer:", u64::from(event.object));
            push_counted(text, ":", u64::from(event.events));
        }
    }
}

fn push_event(text: &mut Room<u8>, event: EventRec)
    requires { 69 ≤ text.old.spare }
    ensures items { text.new.items ≡ text.old.items ++ event_text event }
    ensures room { TakesAtMost text.old text.new 69 }
{
    push_source(text, event);
    push_counted(text, ":", event.user);
}

fn push_events(text: &mut Room<u8>, events: &[EventRec])
    requires { 70 * length events.now ≤ text.old.spare }
    ensures items { text.new.items ≡ text.old.items ++ flat_map spaced_event events.now }
    ensures room { TakesAtMost text.old text.new (70 * length events.now) }
{
    for event in events {
        push_word(text, " ");
        push_event(text, *event);
    }
}

#[tactic(auto, using(crate::proofs::Short::errno_short))]
fn push_errno(text: &mut Room<u8>, errno: Errno)
    requires { 7 ≤ text.old.spare }
    ensures items { text.new.items ≡ text.old.items ++ errno_name errno }
    ensures room { TakesAtMost text.old text.new 7 }
{
    push_word(text, errno.name());
}

fn push_error(text: &mut Room<u8>, error: Option<Errno>)
    requires { 8 ≤ text.old.spare }
    ensures items { text.new.items ≡ text.old.items ++ spaced_error error }
    ensures room { TakesAtMost text.old text.new 8 }
{
    push_word(text, " ");
    match error {
        Some(errno) => push_errno(text, errno),
        None => push_word(text, "ok"),
    }
}

fn push_errors(text: &mut Room<u8>, errors: &[Option<Errno>])
    requires { 8 * length errors.now ≤ text.old.spare }
    ensures items { text.new.items ≡ text.old.items ++ flat_map spaced_error errors.now }
    ensures room { TakesAtMost text.old text.new (8 * length errors.now) }
{
    for error in errors {
        push_error(text, *error);
    }
}

/// How an invocation begins; `item` is the letter of what it serves, `procedure` the name of the procedure.
fn push_invocation(text: &mut Room<u8>, procedure: &[u8], item: &str, number: u32, cookie: u64)
    requires { length procedure.now + length item.now + 48 ≤ text.old.spare }
    ensures items { text.new.items ≡ text.old.items ++ invocation_text procedure.now item.now number cookie }
    ensures room { TakesAtMost text.old text.new (length procedure.now + length item.now + 48) }
{
    push_word(text, "enter ");
    push_counted(text, item, u64::from(number));
    push_spaced(text, procedure);
    push_spaced_number(text, cookie);
}

fn push_entered(
    text: &mut Room<u8>,
    procedure: &[u8],
    call: u32,
    cookie: u64,
    bytes: &[u8],
    fds: &[Fd],
)
    requires { length procedure.now + 311 + 21 * length fds.now ≤ text.old.spare }
    ensures items { text.new.items ≡ text.old.items ++ entered_text procedure.now call cookie bytes.now fds.now }
    ensures room { TakesAtMost text.old text.new (length procedure.now + 311 + 21 * length fds.now) }
{
    push_invocation(text, procedure, "c", call, cookie);
    push_word(text, " ");
    push_data(text, bytes);
    push_fds(text, fds);
}

fn push_notice(text: &mut Room<u8>, procedure: &[u8], notice: u32, cookie: u64)
    requires { length procedure.now + 55 ≤ text.old.spare }
    ensures items { text.new.items ≡ text.old.items ++ notice_text procedure.now notice cookie }
    ensures room { TakesAtMost text.old text.new (length procedure.now + 55) }
{
    push_invocation(text, procedure, "n", notice, cookie);
    push_word(text, " unref");
}

fn push_grown(text: &mut Room<u8>, grown: bool)
    requires { 6 ≤ text.old.spare }
    ensures items { text.new.items ≡ text.old.items ++ grown_text grown }
    ensures room { TakesAtMost text.old text.new 6 }
{
    if grown {
        push_word(text, " grown");
    }
}

fn push_results(text: &mut Room<u8>, bytes: &[u8], fds: &[Fd], grown: bool)
    requires { 270 + 21 * length fds.now ≤ text.old.spare }
    ensures items { text.new.items ≡ text.old.items ++ results_text bytes.now fds.now grown }
    ensures room { TakesAtMost text.old text.new (270 + 21 * length fds.now) }
{
    push_word(text, "ok ");
    push_data(text, bytes);
    push_fds(text, fds);
    push_grown(text, grown);
}

/// The answer's text after a text; `names` is what procedures are called. It takes no memory.
pub fn push_answer<N: NamesProcedures>(text: &mut Room<u8>, names: &N, answer: &Answer)
    requires { answer_room (N.procedures names.now) answer.now ≤ text.old.spare }
    ensures items { text.new.items ≡ text.old.items ++ answer_text (N.procedures names.now) answer.now }
    ensures room { TakesAtMost text.old text.new (answer_room (N.procedures names.now) answer.now) }
{
    match answer {
        Answer::Wait => push_word(text, "wait"),
        Answer::WaitCall { call } => push_counted(text, "wait c", u64::from(*call)),
        Answer::Done => push_word(text, "ok"),
        Answer::NewFd { fd } => push_counted(text, "ok fd ", u64::from(fd.0)),
        Answer::TwoFds { read, write } => {
            push_counted(text, "ok fd ", u64::from(read.0));
            push_spaced_number(text, u64::from(write.0));
        }
        Answer::Count { n } | Answer::Available { n } => push_counted(text, "ok ", u64::from(*n)),
        Answer::Param { value } => {
            push_word(text, "ok ");
            push_value(text, *value);
        }
        Answer::Info(info) => push_info(text, names.name_of_procedure(info.entry), info),
        Answer::Client { process } => push_counted(text, "ok process ", u64::from(process.0)),
        Answer::Child { process } => push_counted(text, "ok process ", u64::from(process.0)),
        Answer::Cancel { yes } => push_word(text, if *yes { "ok yes" } else { "ok no" }),
        Answer::Data { bytes } => {
            push_word(text, "ok ");
            push_data(text, bytes.slice());
        }
        Answer::Entered {
            call,
            entry,
            cookie,
            bytes,
            fds,
        } => push_entered(
            text,
            names.name_of_procedure(*entry),
            *call,
            *cookie,
            bytes.slice(),
            fds.slice(),
        ),
        Answer::EnteredNotice {
            notice,
            entry,
            cookie,
        } => push_notice(text, names.name_of_procedure(*entry), *notice, *cookie),
        Answer::EnterFailed { call } => push_counted(text, "EMFILE c", u64::from(*call)),
        Answer::Results { bytes, fds, grown } => {
            push_results(text, bytes.slice(), fds.slice(), *grown);
        }
        Answer::OneEvent(event) => {
            push_word(text, "ok ");
            push_event(text, *event);
        }
        Answer::Events(events) => {
            push_counted(text, "ok ", events.len() as u64);
            push_events(text, events.slice());
        }
        Answer::Errors(errors) => {
            push_word(text, "ok");
            push_errors(text, errors.slice());
        }
        Answer::Failure(errno) => push_errno(text, *errno),
    }
}

/// How many descriptors, events or errors it lists.
fn listed(answer: &Answer) -> usize
    ensures { result ≡ count_listed answer.now }
{
    match answer {
        Answer::Entered { fds, .. } | Answer::Results { fds, .. } => fds.len(),
        Answer::Events(events) => events.len(),
        Answer::Errors(errors) => errors.len(),
        _ => 0,
    }
}

/// The name of the procedure that it shows, if it shows one.
fn procedure_of<'a, N: NamesProcedures>(names: &'a N, answer: &Answer) -> &'a [u8]
    ensures { result.now ≡ shown_procedure (N.procedures names.now) answer.now }
{
    match answer {
        Answer::Info(info) => names.name_of_procedure(info.entry),
        Answer::Entered { entry, .. } | Answer::EnteredNotice { entry, .. } => {
            names.name_of_procedure(*entry)
        }
        _ => &[],
    }
}

/// Takes room for the answer's text.
pub fn reserve_answer<N: NamesProcedures>(
    text: &mut Room<u8>,
    names: &N,
    answer: &Answer,
) -> Result<(), NoMemory>
    ensures items { text.new.items ≡ text.old.items }
    ensures spare { OnOk result (answer_room (N.procedures names.now) answer.now ≤ text.new.spare) }
{
    let Some(items) = listed(answer).checked_mul(70) else {
        return Err(NoMemory);
    };
    let Some(room) = items.checked_add(320 + procedure_of(names, answer).len()) else {
        return Err(NoMemory);
    };
    text.reserve(room)
}
