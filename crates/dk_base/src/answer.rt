//! What a kernel entry, or the end of a wait, answers.
ghost use Rattle.std.specs.Prelude.{◌≡◌, IfOk};

use crate::error::{Errno, NoMemory};
use crate::list::{Bytes, ErrList, EventList, FdList};
use crate::number::{Fd, Pid};
use crate::object::EventRec;
use crate::set::Attrs;
use std::alloc::Global;

/// What door_info(3C) tells. `unique` is the door's number; there is no target where the owner has ended.
#[derive(Clone, Copy)]
pub struct DoorInfo {
    pub target: Option<Pid>,
    pub entry: u32,
    pub cookie: u64,
    pub attrs: Attrs,
    pub unique: u64,
}

/// The answer of a kernel entry, or of the end of a wait.
#[derive(Drop)]
pub enum Answer {
    /// The thread waits.
    Wait,
    /// The thread waits for this call.
    WaitCall {
        call: u32,
    },
    Done,
    NewFd {
        fd: Fd,
    },
    TwoFds {
        read: Fd,
        write: Fd,
    },
    Count {
        n: u32,
    },
    Available {
        n: u32,
    },
    Param {
        value: u64,
    },
    Info(DoorInfo),
    Client {
        process: Pid,
    },
    /// This child process began.
    Child {
        process: Pid,
    },
    Cancel {
        yes: bool,
    },
    Data {
        bytes: Bytes,
    },
    /// A call's invocation begins.
    Entered {
        call: u32,
        entry: u32,
        cookie: u64,
        bytes: Bytes,
        fds: FdList,
    },
    /// An unreferenced notice's invocation begins.
    EnteredNotice {
        notice: u32,
        entry: u32,
        cookie: u64,
    },
    /// Too few descriptors are free for this call's.
    EnterFailed {
        call: u32,
    },
    /// What the server returned; `grown` where the bytes are more than the caller's `rsize`.
    Results {
        bytes: Bytes,
        fds: FdList,
        grown: bool,
    },
    OneEvent(EventRec),
    Events(EventList),
    Errors(ErrList),
    Failure(Errno),
}

impl Answer {
    pub fn copy(&self, alloc: Global) -> Result<Self, NoMemory>
        ensures { IfOk result (λ copy. copy ≡ self.now) }
    {
        Ok(match self {
            Answer::Wait => Answer::Wait,
            Answer::WaitCall { call } => Answer::WaitCall { call: *call },
            Answer::Done => Answer::Done,
            Answer::NewFd { fd } => Answer::NewFd { fd: *fd },
            Answer::TwoFds { read, write } => Answer::TwoFds {
                read: *read,
                write: *write,
            },
            Answer::Count { n } => Answer::Count { n: *n },
            Answer::Available { n } => Answer::Available { n: *n },
            Answer::Param { value } => Answer::Param { value: *value },
            Answer::Info(info) => Answer::Info(*info),
            Answer::Client { process } => Answer::Client { process: *process },
            Answer::Child { process } => Answer::Child { process: *process },
            Answer::Cancel { yes } => Answer::Cancel { yes: *yes },
            Answer::Data { bytes } => Answer::Data {
                bytes: bytes.copy(alloc)?,
            },
            Answer::Entered {
                call,
                entry,
                cookie,
                bytes,
                fds,
            } => Answer::Entered {
                call: *call,
                entry: *entry,
                cookie: *cookie,
                bytes: bytes.copy(alloc)?,
                fds: fds.copy(alloc)?,
            },
            Answer::EnteredNotice {
                notice,
                entry,
                cookie,
            } => Answer::EnteredNotice {
                notice: *notice,
                entry: *entry,
                cookie: *cookie,
            },
            Answer::EnterFailed { call } => Answer::EnterFailed { call: *call },
            Answer::Results { bytes, fds, grown } => Answer::Results {
                bytes: bytes.copy(alloc)?,
                fds: fds.copy(alloc)?,
                grown: *grown,
            },
            Answer::OneEvent(event) => Answer::OneEvent(*event),
            Answer::Events(events) => Answer::Events(events.copy(alloc)?),
            Answer::Errors(errors) => Answer::Errors(errors.copy(alloc)?),
            Answer::Failure(errno) => Answer::Failure(*errno),
        })
    }
}
