//! Copies of lines and of their operands.

use crate::line::{FdArg, Line, PassArg, Piece};
use dk_base::duplicate::Duplicate;
use dk_base::error::NoMemory;
use std::alloc::Global;

impl Duplicate for FdArg {
    fn duplicate(&self, alloc: Global) -> Result<Self, NoMemory> {
        match self {
            FdArg::Number(number) => Ok(FdArg::Number(*number)),
            FdArg::Of { name, k } => Ok(FdArg::Of {
                name: name.copy(alloc)?,
                k: *k,
            }),
        }
    }
}

impl Duplicate for PassArg {
    fn duplicate(&self, alloc: Global) -> Result<Self, NoMemory> {
        Ok(PassArg {
            fd: self.fd.duplicate(alloc)?,
            release: self.release,
        })
    }
}

impl Duplicate for Piece {
    fn duplicate(&self, alloc: Global) -> Result<Self, NoMemory> {
        match self {
            Piece::Text(text) => Ok(Piece::Text(text.copy(alloc)?)),
            Piece::Of(variable) => Ok(Piece::Of(variable.copy(alloc)?)),
            Piece::Fill(count) => Ok(Piece::Fill(*count)),
        }
    }
}

impl Duplicate for Line {
    fn duplicate(&self, alloc: Global) -> Result<Self, NoMemory> {
        match self {
            Line::Create {
                var,
                entry,
                cookie,
                attrs,
            } => Ok(Line::Create {
                var: var.copy(alloc)?,
                entry: *entry,
                cookie: *cookie,
                attrs: *attrs,
            }),
            Line::Call {
                var,
                fd,
                bytes,
                pass,
                rsize,
            } => Ok(Line::Call {
                var: var.copy(alloc)?,
                fd: fd.duplicate(alloc)?,
                bytes: bytes.duplicate(alloc)?,
                pass: pass.duplicate(alloc)?,
                rsize: *rsize,
            }),
            Line::Return { bytes, pass } => Ok(Line::Return {
                bytes: bytes.duplicate(alloc)?,
                pass: pass.duplicate(alloc)?,
            }),
            Line::Serve => Ok(Line::Serve),
            Line::Revoke { fd } => Ok(Line::Revoke {
                fd: fd.duplicate(alloc)?,
            }),
            Line::Bind { fd } => Ok(Line::Bind {
                fd: fd.duplicate(alloc)?,
            }),
            Line::Unbind => Ok(Line::Unbind),
            Line::Info { fd } => Ok(Line::Info {
                fd: fd.duplicate(alloc)?,
            }),
            Line::InfoQuery => Ok(Line::InfoQuery),
            Line::GetParam { fd, param } => Ok(Line::GetParam {
                fd: fd.duplicate(alloc)?,
                param: *param,
            }),
            Line::SetParam { fd, param, value } => Ok(Line::SetParam {
                fd: fd.duplicate(alloc)?,
                param: *param,
                value: *value,
            }),
            Line::Cred => Ok(Line::Cred),
            Line::TestCancel => Ok(Line::TestCancel),
            Line::Exit => Ok(Line::Exit),
            Line::Close { fd } => Ok(Line::Close {
                fd: fd.duplicate(alloc)?,
            }),
            Line::Dup { var, fd } => Ok(Line::Dup {
                var: var.copy(alloc)?,
                fd: fd.duplicate(alloc)?,
            }),
            Line::Attach { fd, path } => Ok(Line::Attach {
                fd: fd.duplicate(alloc)?,
                path: *path,
            }),
            Line::Detach { path } => Ok(Line::Detach { path: *path }),
            Line::Open { var, path } => Ok(Line::Open {
                var: var.copy(alloc)?,
                path: *path,
            }),
            Line::Await { path } => Ok(Line::Await { path: *path }),
            Line::Pipe { reading, writing } => Ok(Line::Pipe {
                reading: reading.copy(alloc)?,
                writing: writing.copy(alloc)?,
            }),
            Line::Write { fd, bytes } => Ok(Line::Write {
                fd: fd.duplicate(alloc)?,
                bytes: bytes.duplicate(alloc)?,
            }),
            Line::Read { var, fd, max } => Ok(Line::Read {
                var: var.copy(alloc)?,
                fd: fd.duplicate(alloc)?,
                max: *max,
            }),
            Line::PortCreate { var } => Ok(Line::PortCreate {
                var: var.copy(alloc)?,
            }),
            Line::Associate {
                port,
                object,
                events,
                user,
            } => Ok(Line::Associate {
                port: port.duplicate(alloc)?,
                object: object.duplicate(alloc)?,
                events: *events,
                user: *user,
            }),
            Line::Dissociate { port, object } => Ok(Line::Dissociate {
                port: port.duplicate(alloc)?,
                object: object.duplicate(alloc)?,
            }),
            Line::Get { port, wait } => Ok(Line::Get {
                port: port.duplicate(alloc)?,
                wait: *wait,
            }),
            Line::GetN {
                port,
                max,
                nget,
                wait,
            } => Ok(Line::GetN {
                port: port.duplicate(alloc)?,
                max: *max,
                nget: *nget,
                wait: *wait,
            }),
            Line::Send { port, events, user } => Ok(Line::Send {
                port: port.duplicate(alloc)?,
                events: *events,
                user: *user,
            }),
            Line::SendN {
                events,
                user,
                ports,
            } => Ok(Line::SendN {
                events: *events,
                user: *user,
                ports: ports.duplicate(alloc)?,
            }),
            Line::Alert {
                port,
                mode,
                events,
                user,
            } => Ok(Line::Alert {
                port: port.duplicate(alloc)?,
                mode: *mode,
                events: *events,
                user: *user,
            }),
            Line::TimerCreate { port, user } => Ok(Line::TimerCreate {
                port: port.duplicate(alloc)?,
                user: *user,
            }),
            Line::TimerSet {
                timer,
                first,
                interval,
            } => Ok(Line::TimerSet {
                timer: *timer,
                first: *first,
                interval: *interval,
            }),
            Line::TimerDelete { timer } => Ok(Line::TimerDelete { timer: *timer }),
            Line::Advance { by } => Ok(Line::Advance { by: *by }),
            Line::Interrupt { thread } => Ok(Line::Interrupt { thread: *thread }),
            Line::Kill { process } => Ok(Line::Kill { process: *process }),
            Line::Fork { child } => Ok(Line::Fork { child: *child }),
            Line::Work { var, op, bytes } => Ok(Line::Work {
                var: var.copy(alloc)?,
                op: *op,
                bytes: bytes.duplicate(alloc)?,
            }),
            Line::Ncd { var, bytes } => Ok(Line::Ncd {
                var: var.copy(alloc)?,
                bytes: bytes.duplicate(alloc)?,
            }),
            Line::Repeat { times } => Ok(Line::Repeat { times: *times }),
            Line::If { cond } => Ok(Line::If { cond: *cond }),
            Line::End => Ok(Line::End),
        }
    }
}
