//! Processes, threads, doors, names, calls and notices.
ghost use Rattle.std.specs.Prelude.{◌≡◌, IfOk};

use dk_base::error::{Errno, NoMemory};
use dk_base::list::{Bytes, ObjList};
use dk_base::number::{PathId, Pid, Tid};
use dk_base::object::{Inv, Item};
use dk_base::request::Op;
use dk_base::set::Attrs;
use std::alloc::Global;

/// Whether a process lives.
#[derive(Clone, Copy)]
pub enum ProcessStage {
    /// A child process that has not begun (fork(2)).
    Unborn,
    Live,
    Ended,
}

/// A process, the event that made it (0 for those of the opening state), how many descriptors it may have, and the process that it is
/// a child of, if it is one.
#[derive(Clone, Copy)]
pub struct Process {
    pub number: u32,
    pub made: u64,
    pub limit: u32,
    pub parent: Option<Pid>,
    pub stage: ProcessStage,
}

/// What a thread is at.
#[derive(Drop)]
pub enum ThreadState {
    /// A spare server thread that was not started, or a thread of a child process that has not begun.
    Dormant,
    Running,
    /// Parked in a pool since this event.
    Idle {
        since: u64,
    },
    Given {
        item: Item,
    },
    Calling {
        call: u32,
    },
    Getting {
        port: u32,
        max: u32,
        nget: u32,
        one: bool,
        interrupted: bool,
    },
    Awaiting {
        path: PathId,
    },
    Working {
        op: Op,
        input: Bytes,
    },
    /// It was idle while the private door that it was bound to was not valid; it is woken with EINVAL.
    FailedReturn,
    Done,
}

impl ThreadState {
    pub fn copy(&self, alloc: Global) -> Result<Self, NoMemory>
        ensures { IfOk result (λ copy. copy ≡ self.now) }
    {
        Ok(match self {
            ThreadState::Dormant => ThreadState::Dormant,
            ThreadState::Running => ThreadState::Running,
            ThreadState::Idle { since } => ThreadState::Idle { since: *since },
            ThreadState::Given { item } => ThreadState::Given { item: *item },
            ThreadState::Calling { call } => ThreadState::Calling { call: *call },
            ThreadState::Getting {
                port,
                max,
                nget,
                one,
                interrupted,
            } => ThreadState::Getting {
                port: *port,
                max: *max,
                nget: *nget,
                one: *one,
                interrupted: *interrupted,
            },
            ThreadState::Awaiting { path } => ThreadState::Awaiting { path: *path },
            ThreadState::Working { op, input } => ThreadState::Working {
                op: *op,
                input: input.copy(alloc)?,
            },
            ThreadState::FailedReturn => ThreadState::FailedReturn,
            ThreadState::Done => ThreadState::Done,
        })
    }
}

/// A thread, the event that made it, its process, whether it is a spare, its invocation of a server procedure, and its state.
#[derive(Drop)]
pub struct Thread {
    pub number: u32,
    pub made: u64,
    pub process: Pid,
    pub spare: bool,
    pub invocation: Option<Inv>,
    pub state: ThreadState,
}

/// A door as door_create(3C) made it, with the parameters of door_setparam(3C).
#[derive(Clone, Copy)]
pub struct Door {
    pub number: u32,
    pub owner: Pid,
    pub entry: u32,
    pub cookie: u64,
    pub attrs: Attrs,
    pub data_max: u64,
    pub data_min: u64,
    pub desc_max: u64,
    pub revoked: bool,
    /// The process that made it has ended.
    pub owner_ended: bool,
}

/// A door attached to a path (fattach(3C)).
#[derive(Clone, Copy)]
pub struct Name {
    pub path: PathId,
    pub door: u32,
}

/// Where a call stands.
#[derive(Drop)]
pub enum CallStage {
    /// It waits for a server thread.
    Queued,
    Given { to: Tid },
    Entered { by: Tid },
    /// Its server returned these results, which its caller has not collected.
    Returned { bytes: Bytes, objects: ObjList },
    /// It ended without results; its caller has not collected the error.
    Ended { error: Errno },
    /// Its caller collected it at this event.
    Answered { at: u64 },
    /// Its caller ended.
    Gone,
}

/// A door call. Its bytes and objects are those of the arguments while it is queued or given, and then leave it.
/// `abandoned` is set where the caller left while a server thread was in the call.
#[derive(Drop)]
pub struct Call {
    pub number: u32,
    pub made: u64,
    pub caller: Tid,
    pub door: u32,
    pub bytes: Bytes,
    pub objects: ObjList,
    pub rsize: u64,
    /// Its door has DOOR_NO_CANCEL (door_create(3C)).
    pub no_cancel: bool,
    pub abandoned: bool,
    pub stage: CallStage,
}

/// Where an unreferenced notice stands.
#[derive(Clone, Copy)]
pub enum NoticeStage {
    Waiting,
    Given { to: Tid },
    Entered { by: Tid },
    /// Its invocation ended, or the thread that it was given to did.
    Over,
    /// Its door became invalid while it waited.
    Dropped,
}

/// An unreferenced notice of a door (DOOR_UNREF, door_create(3C)).
#[derive(Clone, Copy)]
pub struct Notice {
    pub number: u32,
    pub made: u64,
    pub door: u32,
    pub stage: NoticeStage,
}
