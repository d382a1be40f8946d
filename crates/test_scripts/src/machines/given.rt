//! What a thread is given.
ghost use Rattle.std.specs.Prelude.{◌≡◌, true};
ghost use Rattle.thread_machine.specs.Words.{HasDeclaredEntry, IsMachine};

use dk_base::answer::{Answer, DoorInfo};
use dk_base::error::{Errno, NoMemory};
use dk_base::list::{Bytes, ErrList, EventList, FdList};
use dk_base::number::{Fd, Pid};
use dk_base::object::{EventRec, Src};
use dk_base::set::Attrs;
use script_lang::script::Script;
use std::alloc::Global;
use thread_machine::machine::Machine;

/// An answer.
#[derive(Clone, Copy)]
pub(crate) enum Given {
    Wait,
    WaitCall,
    Done,
    NewFd(u32),
    TwoFds(u32, u32),
    Count(u32),
    Available(u32),
    Param(u64),
    Info,
    Client,
    Child,
    Cancel(bool),
    Data(&'static [u8]),
    Entered(&'static [u8], &'static [Fd]),
    Notice,
    EnterFailed,
    Results(&'static [u8], &'static [Fd]),
    OneEvent,
    Events,
    Errors,
    Errno(Errno),
}

const EVENT: EventRec = EventRec {
    source: Src::User,
    object: 0,
    events: 1,
    user: 2,
};

const INFO: DoorInfo = DoorInfo {
    target: Some(Pid(1)),
    entry: 0,
    cookie: 7,
    attrs: Attrs(0),
    unique: 1,
};

/// An answer with no list.
fn plain(given: Given) -> Answer {
    match given {
        Given::Wait => Answer::Wait,
        Given::WaitCall => Answer::WaitCall { call: 1 },
        Given::NewFd(fd) => Answer::NewFd { fd: Fd(fd) },
        Given::TwoFds(read, write) => Answer::TwoFds {
            read: Fd(read),
            write: Fd(write),
        },
        Given::Count(n) => Answer::Count { n },
        Given::Available(n) => Answer::Available { n },
        Given::Param(value) => Answer::Param { value },
        Given::Info => Answer::Info(INFO),
        Given::Client => Answer::Client { process: Pid(1) },
        Given::Child => Answer::Child { process: Pid(2) },
        Given::Cancel(yes) => Answer::Cancel { yes },
        Given::Notice => Answer::EnteredNotice {
            notice: 1,
            entry: 0,
            cookie: u64::MAX,
        },
        Given::EnterFailed => Answer::EnterFailed { call: 1 },
        Given::OneEvent => Answer::OneEvent(EVENT),
        Given::Errno(errno) => Answer::Failure(errno),
        _ => Answer::Done,
    }
}

fn entered(alloc: Global, bytes: &[u8], fds: &[Fd]) -> Result<Answer, NoMemory> {
    let bytes = Bytes::from_slice(alloc, bytes)?;
    let fds = FdList::from_slice(alloc, fds)?;
    Ok(Answer::Entered {
        call: 1,
        entry: 0,
        cookie: 70,
        bytes,
        fds,
    })
}

fn results(alloc: Global, bytes: &[u8], fds: &[Fd]) -> Result<Answer, NoMemory> {
    let bytes = Bytes::from_slice(alloc, bytes)?;
    let fds = FdList::from_slice(alloc, fds)?;
    Ok(Answer::Results {
        bytes,
        fds,
        grown: false,
    })
}

fn answer(alloc: Global, given: Given) -> Result<Answer, NoMemory> {
    match given {
        Given::Data(bytes) => {
            let bytes = Bytes::from_slice(alloc, bytes)?;
            Ok(Answer::Data { bytes })
        }
        Given::Entered(bytes, fds) => entered(alloc, bytes, fds),
        Given::Results(bytes, fds) => results(alloc, bytes, fds),
        Given::Events => {
            let events = EventList::from_slice(alloc, &[EVENT])?;
            Ok(Answer::Events(events))
        }
        Given::Errors => {
            let errors = ErrList::from_slice(alloc, &[None, Some(Errno::EAGAIN)])?;
            Ok(Answer::Errors(errors))
        }
        _ => Ok(plain(given)),
    }
}

/// Whether the procedure of an answer that enters is declared.
fn is_declared(script: &Script, answer: &Answer) -> bool
    ensures { result ≡ true → HasDeclaredEntry script.now answer.now }
{
    match answer {
        Answer::Entered { entry, .. } | Answer::EnteredNotice { entry, .. } => {
            (*entry as usize) < script.procedure_list().len()
        }
        _ => true,
    }
}

fn takes(alloc: Global, script: &Script, machine: &mut Machine, answer: &Answer) -> bool
    requires { IsMachine script.now machine.old }
    ensures { IsMachine script.now machine.new }
{
    if machine.make_room(alloc).is_err() || !is_declared(script, answer) {
        return false;
    }
    machine.take(script, answer);
    true
}

/// Whether it can be given this, and is given it.
pub(crate) fn is_given(alloc: Global, script: &Script, machine: &mut Machine, given: Given) -> bool
    requires { IsMachine script.now machine.old }
    ensures { IsMachine script.now machine.new }
{
    match answer(alloc, given) {
        Ok(answer) => takes(alloc, script, machine, &answer),
        Err(_) => false,
    }
}
