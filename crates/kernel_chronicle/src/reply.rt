//! The words of a reply, in room that was taken before.
ghost use Rattle.std.specs.Prelude.{◌≡◌, ◌≤◌, ◌+◌, ◌*◌, ◌++◌, length, map, flat_map};
ghost use Rattle.kernel_chronicle.specs.Replies.{answer_bytes, answer_items, answer_numbers, errno_number, error_number, event_numbers, fd_number, flag_number, source_number, target_number, thread_number, words_of};
ghost use Rattle.kernel_chronicle.specs.declared.reply.TheConstants.{ITEMS_MAX};

use dk_base::answer::Answer;
use dk_base::error::Errno;
use dk_base::list::Room;
use dk_base::number::{Fd, Pid, Tid};
use dk_base::object::{EventRec, Src};

/// The most items of an answer: four for each of 64 events.
pub const ITEMS_MAX: usize = 256;

fn number_of_errno(errno: Errno) -> u64
    ensures { result ≡ errno_number errno }
{
    match errno {
        Errno::E2BIG => 1,
        Errno::EAGAIN => 2,
        Errno::EBADF => 3,
        Errno::EBADFD => 4,
        Errno::EBUSY => 5,
        Errno::EINTR => 6,
        Errno::EINVAL => 7,
        Errno::EMFILE => 8,
        Errno::ENFILE => 9,
        Errno::ENOBUFS => 10,
        Errno::ENOENT => 11,
        Errno::ENOTSUP => 12,
        Errno::EPERM => 13,
        Errno::EPIPE => 14,
        Errno::ETIME => 15,
    }
}

fn number_of_error(error: Option<Errno>) -> u64
    ensures { result ≡ error_number error }
{
    match error {
        Some(errno) => number_of_errno(errno),
        None => 0,
    }
}

fn number_of_source(source: Src) -> u64
    ensures { result ≡ source_number source }
{
    match source {
        Src::Fd => 0,
        Src::User => 1,
        Src::Alert => 2,
        Src::Timer => 3,
    }
}

fn number_of_flag(flag: bool) -> u64
    ensures { result ≡ flag_number flag }
{
    if flag { 1 } else { 0 }
}

fn number_of_target(target: Option<Pid>) -> u64
    ensures { result ≡ target_number target }
{
    match target {
        Some(process) => u64::from(process.0),
        None => 0,
    }
}

/// The kind of an answer, and its numbers.
fn numbers_of(answer: &Answer) -> [u64; 6]
    ensures { result ≡ answer_numbers answer.now }
{
    match answer {
        Answer::Wait => [1, 0, 0, 0, 0, 0],
        Answer::WaitCall { call } => [2, u64::from(*call), 0, 0, 0, 0],
        Answer::Done => [3, 0, 0, 0, 0, 0],
        Answer::NewFd { fd } => [4, u64::from(fd.0), 0, 0, 0, 0],
        Answer::TwoFds { read, write } => [5, u64::from(read.0), u64::from(write.0), 0, 0, 0],
        Answer::Count { n } => [6, u64::from(*n), 0, 0, 0, 0],
        Answer::Available { n } => [7, u64::from(*n), 0, 0, 0, 0],
        Answer::Param { value } => [8, *value, 0, 0, 0, 0],
        Answer::Info(info) => [
            9,
            number_of_target(info.target),
            u64::from(info.entry),
            info.cookie,
            u64::from(info.attrs.0),
            info.unique,
        ],
        Answer::Client { process } => [10, u64::from(process.0), 0, 0, 0, 0],
        Answer::Child { process } => [11, u64::from(process.0), 0, 0, 0, 0],
        Answer::Cancel { yes } => [12, number_of_flag(*yes), 0, 0, 0, 0],
        Answer::Data { .. } => [13, 0, 0, 0, 0, 0],
        Answer::Entered {
            call,
            entry,
            cookie,
            ..
        } => [14, u64::from(*call), u64::from(*entry), *cookie, 0, 0],
        Answer::EnteredNotice {
            notice,
            entry,
            cookie,
        } => [15, u64::from(*notice), u64::from(*entry), *cookie, 0, 0],
        Answer::EnterFailed { call } => [16, u64::from(*call), 0, 0, 0, 0],
        Answer::Results { grown, .. } => [17, number_of_flag(*grown), 0, 0, 0, 0],
        Answer::OneEvent(_) => [18, 0, 0, 0, 0, 0],
        Answer::Events(_) => [19, 0, 0, 0, 0, 0],
        Answer::Errors(_) => [20, 0, 0, 0, 0, 0],
        Answer::Failure(errno) => [21, number_of_errno(*errno), 0, 0, 0, 0],
    }
}

/// The bytes that an answer hands over.
pub fn bytes_of(answer: &Answer) -> &[u8]
    ensures { result.now ≡ answer_bytes answer.now }
{
    match answer {
        Answer::Data { bytes } => bytes.slice(),
        Answer::Entered { bytes, .. } => bytes.slice(),
        Answer::Results { bytes, .. } => bytes.slice(),
        _ => &[],
    }
}

#[tactic(auto, using(crate::proofs::Counts::count_events, crate::proofs::Counts::few_events))]
fn count_of_items(answer: &Answer) -> u64
    requires { length (answer_items answer.now) ≤ ITEMS_MAX }
    ensures { result ≡ length (answer_items answer.now) }
{
    match answer {
        Answer::Entered { fds, .. } => fds.len() as u64,
        Answer::Results { fds, .. } => fds.len() as u64,
        Answer::OneEvent(_) => 4,
        Answer::Events(events) => 4 * events.len() as u64,
        Answer::Errors(errors) => errors.len() as u64,
        _ => 0,
    }
}

fn push_fds(words: &mut Room<u64>, fds: &[Fd])
    requires { length fds.now ≤ words.old.spare }
    ensures items { words.new.items ≡ words.old.items ++ map fd_number fds.now }
    ensures spare { words.old.spare ≤ words.new.spare + length fds.now }
{
    for fd in fds {
        words.push(u64::from(fd.0));
    }
}

fn push_threads(words: &mut Room<u64>, threads: &[Tid])
    requires { length threads.now ≤ words.old.spare }
    ensures items { words.new.items ≡ words.old.items ++ map thread_number threads.now }
    ensures spare { words.old.spare ≤ words.new.spare + length threads.now }
{
    for thread in threads {
        words.push(u64::from(thread.0));
    }
}

fn push_errors(words: &mut Room<u64>, errors: &[Option<Errno>])
    requires { length errors.now ≤ words.old.spare }
    ensures items { words.new.items ≡ words.old.items ++ map error_number errors.now }
    ensures spare { words.old.spare ≤ words.new.spare + length errors.now }
{
    for error in errors {
        words.push(number_of_error(*error));
    }
}

fn push_event(words: &mut Room<u64>, event: EventRec)
    requires { 4 ≤ words.old.spare }
    ensures items { words.new.items ≡ words.old.items ++ event_numbers event }
    ensures spare { words.old.spare ≤ words.new.spare + 4 }
{
    words.append(&[
        number_of_source(event.source),
        u64::from(event.object),
        u64::from(event.events),
        event.user,
    ]);
}

fn push_events(words: &mut Room<u64>, events: &[EventRec])
    requires { 4 * length events.now ≤ words.old.spare }
    ensures items { words.new.items ≡ words.old.items ++ flat_map event_numbers events.now }
    ensures spare { words.old.spare ≤ words.new.spare + 4 * length events.now }
{
    for event in events {
        push_event(words, *event);
    }
}

#[tactic(auto, using(crate::proofs::Counts::count_events))]
fn push_items(words: &mut Room<u64>, answer: &Answer)
    requires { length (answer_items answer.now) ≤ words.old.spare }
    ensures items { words.new.items ≡ words.old.items ++ answer_items answer.now }
    ensures spare { words.old.spare ≤ words.new.spare + length (answer_items answer.now) }
{
    match answer {
        Answer::Entered { fds, .. } => push_fds(words, fds.slice()),
        Answer::Results { fds, .. } => push_fds(words, fds.slice()),
        Answer::OneEvent(event) => push_event(words, *event),
        Answer::Events(events) => push_events(words, events.slice()),
        Answer::Errors(errors) => push_errors(words, errors.slice()),
        _ => {}
    }
}

/// It takes no memory.
pub fn push_reply(words: &mut Room<u64>, number: u64, root: Tid, answer: &Answer, woken: &[Tid])
    requires few { length (answer_items answer.now) ≤ ITEMS_MAX }
    requires spare { 11 + length (answer_items answer.now) + length woken.now ≤ words.old.spare }
    ensures { words.new.items ≡ words.old.items ++ words_of number root.0 answer.now woken.now }
{
    words.append(&[number, u64::from(root.0)]);
    words.append(&numbers_of(answer));
    words.append(&[
        bytes_of(answer).len() as u64,
        count_of_items(answer),
        woken.len() as u64,
    ]);
    push_items(words, answer);
    push_threads(words, woken);
}
