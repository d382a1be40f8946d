//! Kernel entries with their operands.
ghost use Rattle.std.specs.Prelude.{◌≡◌, IfOk};

use crate::error::NoMemory;
use crate::list::{Bytes, FdList, PassList};
use crate::number::{Fd, PathId, Pid, Tid};
use crate::set::{Attrs, PollSet};
use std::alloc::Global;

/// A door's parameters (door_getparam(3C), door_setparam(3C)).
#[derive(Clone, Copy, PartialEq, Eq)]
pub enum Param {
    DataMax,
    DataMin,
    DescMax,
}

/// The modes of port_alert(3C).
#[derive(Clone, Copy, PartialEq, Eq)]
pub enum AlertMode {
    Set,
    Update,
    Nothing,
}

/// What a task computes of its input.
#[derive(Clone, Copy, PartialEq, Eq)]
pub enum Op {
    Upper,
    Reverse,
    Sum,
    Digest,
}

/// A kernel entry with its operands.
#[derive(Drop)]
pub enum Request {
    Create {
        entry: u32,
        cookie: u64,
        attrs: Attrs,
    },
    Call {
        door: Fd,
        bytes: Bytes,
        pass: PassList,
        rsize: u64,
    },
    Return {
        bytes: Bytes,
        pass: PassList,
    },
    Revoke {
        fd: Fd,
    },
    Bind {
        fd: Fd,
    },
    Unbind,
    Info {
        fd: Fd,
    },
    InfoQuery,
    GetParam {
        fd: Fd,
        param: Param,
    },
    SetParam {
        fd: Fd,
        param: Param,
        value: u64,
    },
    Cred,
    TestCancel,
    Close {
        fd: Fd,
    },
    Dup {
        fd: Fd,
    },
    Attach {
        fd: Fd,
        path: PathId,
    },
    Detach {
        path: PathId,
    },
    Open {
        path: PathId,
    },
    Await {
        path: PathId,
    },
    Pipe,
    Write {
        fd: Fd,
        bytes: Bytes,
    },
    Read {
        fd: Fd,
        max: u32,
    },
    PortCreate,
    Associate {
        port: Fd,
        object: Fd,
        events: PollSet,
        user: u64,
    },
    Dissociate {
        port: Fd,
        object: Fd,
    },
    Get {
        port: Fd,
        wait: bool,
    },
    GetN {
        port: Fd,
        max: u32,
        nget: u32,
        wait: bool,
    },
    Send {
        port: Fd,
        events: u32,
        user: u64,
    },
    SendN {
        ports: FdList,
        events: u32,
        user: u64,
    },
    Alert {
        port: Fd,
        mode: AlertMode,
        events: u32,
        user: u64,
    },
    /// A timer that tells a port (timer_create(3C)).
    TimerCreate {
        port: Fd,
        user: u64,
    },
    /// A timer of the process is armed, or with a `first` of 0 is left not armed (timer_settime(3C)).
    TimerSet {
        timer: u32,
        first: u64,
        interval: u64,
    },
    /// A timer of the process ends (timer_delete(3C)).
    TimerDelete {
        timer: u32,
    },
    /// The clock moves on.
    Advance {
        by: u64,
    },
    Interrupt {
        thread: Tid,
    },
    Kill {
        process: Pid,
    },
    Exit,
    /// A child process begins, with what its parent has open (fork(2)).
    Fork {
        child: Pid,
    },
    Work {
        op: Op,
        bytes: Bytes,
    },
    /// A line for the process's name service cache.
    Ncd {
        line: Bytes,
    },
}

impl Request {
    pub fn copy(&self, alloc: Global) -> Result<Self, NoMemory>
        ensures { IfOk result (λ copy. copy ≡ self.now) }
    {
        Ok(match self {
            Request::Create {
                entry,
                cookie,
                attrs,
            } => Request::Create {
                entry: *entry,
                cookie: *cookie,
                attrs: *attrs,
            },
            Request::Call {
                door,
                bytes,
                pass,
                rsize,
            } => Request::Call {
                door: *door,
                bytes: bytes.copy(alloc)?,
                pass: pass.copy(alloc)?,
                rsize: *rsize,
            },
            Request::Return { bytes, pass } => Request::Return {
                bytes: bytes.copy(alloc)?,
                pass: pass.copy(alloc)?,
            },
            Request::Revoke { fd } => Request::Revoke { fd: *fd },
            Request::Bind { fd } => Request::Bind { fd: *fd },
            Request::Unbind => Request::Unbind,
            Request::Info { fd } => Request::Info { fd: *fd },
            Request::InfoQuery => Request::InfoQuery,
            Request::GetParam { fd, param } => Request::GetParam {
                fd: *fd,
                param: *param,
            },
            Request::SetParam { fd, param, value } => Request::SetParam {
                fd: *fd,
                param: *param,
                value: *value,
            },
            Request::Cred => Request::Cred,
            Request::TestCancel => Request::TestCancel,
            Request::Close { fd } => Request::Close { fd: *fd },
            Request::Dup { fd } => Request::Dup { fd: *fd },
            Request::Attach { fd, path } => Request::Attach {
                fd: *fd,
                path: *path,
            },
            Request::Detach { path } => Request::Detach { path: *path },
            Request::Open { path } => Request::Open { path: *path },
            Request::Await { path } => Request::Await { path: *path },
            Request::Pipe => Request::Pipe,
            Request::Write { fd, bytes } => Request::Write {
                fd: *fd,
                bytes: bytes.copy(alloc)?,
            },
            Request::Read { fd, max } => Request::Read { fd: *fd, max: *max },
            Request::PortCreate => Request::PortCreate,
            Request::Associate {
                port,
                object,
                events,
                user,
            } => Request::Associate {
                port: *port,
                object: *object,
                events: *events,
                user: *user,
            },
            Request::Dissociate { port, object } => Request::Dissociate {
                port: *port,
                object: *object,
            },
            Request::Get { port, wait } => Request::Get {
                port: *port,
                wait: *wait,
            },
            Request::GetN {
                port,
                max,
                nget,
                wait,
            } => Request::GetN {
                port: *port,
                max: *max,
                nget: *nget,
                wait: *wait,
            },
            Request::Send { port, events, user } => Request::Send {
                port: *port,
                events: *events,
                user: *user,
            },
            Request::SendN {
                ports,
                events,
                user,
            } => Request::SendN {
                ports: ports.copy(alloc)?,
                events: *events,
                user: *user,
            },
            Request::Alert {
                port,
                mode,
                events,
                user,
            } => Request::Alert {
                port: *port,
                mode: *mode,
                events: *events,
                user: *user,
            },
            Request::TimerCreate { port, user } => Request::TimerCreate {
                port: *port,
                user: *user,
            },
            Request::TimerSet {
                timer,
                first,
                interval,
            } => Request::TimerSet {
                timer: *timer,
                first: *first,
                interval: *interval,
            },
            Request::TimerDelete { timer } => Request::TimerDelete { timer: *timer },
            Request::Advance { by } => Request::Advance { by: *by },
            Request::Interrupt { thread } => Request::Interrupt { thread: *thread },
            Request::Kill { process } => Request::Kill { process: *process },
            Request::Exit => Request::Exit,
            Request::Fork { child } => Request::Fork { child: *child },
            Request::Work { op, bytes } => Request::Work {
                op: *op,
                bytes: bytes.copy(alloc)?,
            },
            Request::Ncd { line } => Request::Ncd {
                line: line.copy(alloc)?,
            },
        })
    }
}
