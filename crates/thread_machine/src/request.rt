//! The request of a command, with the values of its variables.
ghost use Rattle.std.specs.Prelude.{◌≡◌, IfOk};
ghost use Rattle.spec_requests.specs.Words.{request_at};
ghost use Rattle.thread_machine.specs.Slots.{slot_value};

use crate::variables::Variables;
use dk_base::error::NoMemory;
use dk_base::list::{Bytes, PassList};
use dk_base::request::Request;
use line_forms::line::Line;
use std::alloc::Global;

impl Variables {
    /// The request of a command.
    pub fn request(&self, alloc: Global, line: &Line) -> Result<Request, NoMemory>
        ensures { IfOk result (λ request. request ≡ request_at (slot_value self.now.set) line.now) }
    {
        Ok(match line {
            Line::Create {
                entry,
                cookie,
                attrs,
                ..
            } => Request::Create {
                entry: *entry,
                cookie: *cookie,
                attrs: *attrs,
            },
            Line::Call {
                fd,
                bytes,
                pass,
                rsize,
                ..
            } => Request::Call {
                door: self.fd(fd),
                bytes: self.data(alloc, bytes.slice())?,
                pass: self.passes(alloc, pass.slice())?,
                rsize: *rsize,
            },
            Line::Return { bytes, pass } => Request::Return {
                bytes: self.data(alloc, bytes.slice())?,
                pass: self.passes(alloc, pass.slice())?,
            },
            Line::Serve => Request::Return {
                bytes: Bytes::new(alloc),
                pass: PassList::new(alloc),
            },
            Line::Revoke { fd } => Request::Revoke { fd: self.fd(fd) },
            Line::Bind { fd } => Request::Bind { fd: self.fd(fd) },
            Line::Unbind => Request::Unbind,
            Line::Info { fd } => Request::Info { fd: self.fd(fd) },
            Line::InfoQuery => Request::InfoQuery,
            Line::GetParam { fd, param } => Request::GetParam {
                fd: self.fd(fd),
                param: *param,
            },
            Line::SetParam { fd, param, value } => Request::SetParam {
                fd: self.fd(fd),
                param: *param,
                value: *value,
            },
            Line::Cred => Request::Cred,
            Line::TestCancel => Request::TestCancel,
            Line::Close { fd } => Request::Close { fd: self.fd(fd) },
            Line::Dup { fd, .. } => Request::Dup { fd: self.fd(fd) },
            Line::Attach { fd, path } => Request::Attach {
                fd: self.fd(fd),
                path: *path,
            },
            Line::Detach { path } => Request::Detach { path: *path },
            Line::Open { path, .. } => Request::Open { path: *path },
            Line::Await { path } => Request::Await { path: *path },
            Line::Pipe { .. } => Request::Pipe,
            Line::Write { fd, bytes } => Request::Write {
                fd: self.fd(fd),
                bytes: self.data(alloc, bytes.slice())?,
            },
            Line::Read { fd, max, .. } => Request::Read {
                fd: self.fd(fd),
                max: *max,
            },
            Line::PortCreate { .. } => Request::PortCreate,
            Line::Associate {
                port,
                object,
                events,
                user,
            } => Request::Associate {
                port: self.fd(port),
                object: self.fd(object),
                events: *events,
                user: *user,
            },
            Line::Dissociate { port, object } => Request::Dissociate {
                port: self.fd(port),
                object: self.fd(object),
            },
            Line::Get { port, wait } => Request::Get {
                port: self.fd(port),
                wait: *wait,
            },
            Line::GetN {
                port,
                max,
                nget,
                wait,
            } => Request::GetN {
                port: self.fd(port),
                max: *max,
                nget: *nget,
                wait: *wait,
            },
            Line::Send { port, events, user } => Request::Send {
                port: self.fd(port),
                events: *events,
                user: *user,
            },
            Line::SendN {
                events,
                user,
                ports,
            } => Request::SendN {
                ports: self.fds(alloc, ports.slice())?,
                events: *events,
                user: *user,
            },
            Line::Alert {
                port,
                mode,
                events,
                user,
            } => Request::Alert {
                port: self.fd(port),
                mode: *mode,
                events: *events,
                user: *user,
            },
            Line::TimerCreate { port, user } => Request::TimerCreate {
                port: self.fd(port),
                user: *user,
            },
            Line::TimerSet {
                timer,
                first,
                interval,
            } => Request::TimerSet {
                timer: *timer,
                first: *first,
                interval: *interval,
            },
            Line::TimerDelete { timer } => Request::TimerDelete { timer: *timer },
            Line::Advance { by } => Request::Advance { by: *by },
            Line::Interrupt { thread } => Request::Interrupt { thread: *thread },
            Line::Kill { process } => Request::Kill { process: *process },
            Line::Fork { child } => Request::Fork { child: *child },
            Line::Work { op, bytes, .. } => Request::Work {
                op: *op,
                bytes: self.data(alloc, bytes.slice())?,
            },
            Line::Ncd { bytes, .. } => Request::Ncd {
                line: self.data(alloc, bytes.slice())?,
            },
            Line::Exit | Line::Repeat { .. } | Line::If { .. } | Line::End => Request::Exit,
        })
    }
}
