//! What a thread is to ask.

use dk_base::list::Bytes;
use dk_base::number::Fd;
use dk_base::object::Pass;
use dk_base::request::{AlertMode, Op, Param, Request};

/// A request: its descriptors, then its other operands in the order of its command.
#[derive(Clone, Copy)]
pub(crate) enum Asks {
    /// Of the first procedure, with this cookie and these attributes.
    Create(u64, u32),
    Call(u32, &'static [u8], &'static [Pass], u64),
    /// Without descriptors.
    Return(&'static [u8]),
    Revoke(u32),
    Bind(u32),
    Unbind,
    Info(u32),
    InfoQuery,
    GetParam(u32, Param),
    SetParam(u32, Param, u64),
    Cred,
    TestCancel,
    Close(u32),
    Dup(u32),
    Attach(u32, u32),
    Detach(u32),
    Open(u32),
    Await(u32),
    Pipe,
    Write(u32, &'static [u8]),
    Read(u32, u32),
    PortCreate,
    Associate(u32, u32, u32, u64),
    Dissociate(u32, u32),
    Get(u32, bool),
    GetN(u32, u32, u32, bool),
    Send(u32, u32, u64),
    SendN(&'static [Fd], u32, u64),
    Alert(u32, AlertMode, u32, u64),
    TimerCreate(u32, u64),
    TimerSet(u32, u64, u64),
    TimerDelete(u32),
    Advance(u64),
    Interrupt(u32),
    Kill(u32),
    Exit,
    Fork(u32),
    Work(Op, &'static [u8]),
    Ncd(&'static [u8]),
}

fn has(bytes: &Bytes, wanted: &[u8]) -> bool {
    bytes.slice() == wanted
}

/// Whether a request is what is wanted.
pub(crate) fn is_asked(request: &Request, asks: Asks) -> bool {
    match request {
        Request::Create {
            entry,
            cookie,
            attrs,
        } => {
            *entry == 0
                && matches!(asks, Asks::Create(wanted, bits) if *cookie == wanted && attrs.0 == bits)
        }
        Request::Call {
            door,
            bytes,
            pass,
            rsize,
        } => {
            matches!(asks, Asks::Call(fd, text, passed, size) if door.0 == fd && has(bytes, text) && pass.slice() == passed && *rsize == size)
        }
        Request::Return { bytes, pass } => {
            pass.is_empty() && matches!(asks, Asks::Return(text) if has(bytes, text))
        }
        Request::Unbind => matches!(asks, Asks::Unbind),
        Request::InfoQuery => matches!(asks, Asks::InfoQuery),
        Request::Cred => matches!(asks, Asks::Cred),
        Request::TestCancel => matches!(asks, Asks::TestCancel),
        Request::Exit => matches!(asks, Asks::Exit),
        Request::Revoke { fd } => matches!(asks, Asks::Revoke(n) if fd.0 == n),
        Request::Bind { fd } => matches!(asks, Asks::Bind(n) if fd.0 == n),
        Request::Info { fd } => matches!(asks, Asks::Info(n) if fd.0 == n),
        Request::Close { fd } => matches!(asks, Asks::Close(n) if fd.0 == n),
        Request::Dup { fd } => matches!(asks, Asks::Dup(n) if fd.0 == n),
        Request::GetParam { fd, param } => {
            matches!(asks, Asks::GetParam(n, wanted) if fd.0 == n && *param == wanted)
        }
        Request::SetParam { fd, param, value } => {
            matches!(asks, Asks::SetParam(n, wanted, number) if fd.0 == n && *param == wanted && *value == number)
        }
        Request::Attach { fd, path } => {
            matches!(asks, Asks::Attach(n, at) if fd.0 == n && path.0 == at)
        }
        Request::Detach { path } => matches!(asks, Asks::Detach(at) if path.0 == at),
        Request::Open { path } => matches!(asks, Asks::Open(at) if path.0 == at),
        Request::Await { path } => matches!(asks, Asks::Await(at) if path.0 == at),
        Request::Interrupt { thread } => matches!(asks, Asks::Interrupt(t) if thread.0 == t),
        Request::Kill { process } => matches!(asks, Asks::Kill(p) if process.0 == p),
        Request::Fork { child } => matches!(asks, Asks::Fork(p) if child.0 == p),
        _ => is_transfer(request, asks),
    }
}

/// Whether a request of timers is what is wanted.
fn is_of_timers(request: &Request, asks: Asks) -> bool {
    match request {
        Request::TimerCreate { port, user } => {
            matches!(asks, Asks::TimerCreate(n, value) if port.0 == n && *user == value)
        }
        Request::TimerSet {
            timer,
            first,
            interval,
        } => {
            matches!(asks, Asks::TimerSet(id, delay, period) if *timer == id && *first == delay && *interval == period)
        }
        Request::TimerDelete { timer } => matches!(asks, Asks::TimerDelete(id) if *timer == id),
        Request::Advance { by } => matches!(asks, Asks::Advance(n) if *by == n),
        _ => false,
    }
}

/// Whether a request of pipes, ports, tasks or the cache is what is wanted.
fn is_transfer(request: &Request, asks: Asks) -> bool {
    match request {
        Request::Pipe => matches!(asks, Asks::Pipe),
        Request::PortCreate => matches!(asks, Asks::PortCreate),
        Request::Write { fd, bytes } => {
            matches!(asks, Asks::Write(n, text) if fd.0 == n && has(bytes, text))
        }
        Request::Read { fd, max } =>
            matches!(asks, Asks::Read(n, most) if fd.0 == n && *max == most),
        Request::Associate {
            port,
            object,
            events,
            user,
        } => {
            matches!(asks, Asks::Associate(n, of, bits, value) if port.0 == n && object.0 == of && events.0 == bits && *user == value)
        }
        Request::Dissociate { port, object } => {
            matches!(asks, Asks::Dissociate(n, of) if port.0 == n && object.0 == of)
        }
        Request::Get { port, wait } => {
            matches!(asks, Asks::Get(n, waits) if port.0 == n && *wait == waits)
        }
        Request::GetN {
            port,
            max,
            nget,
            wait,
        } => {
            matches!(asks, Asks::GetN(n, most, least, waits) if port.0 == n && *max == most && *nget == least && *wait == waits)
        }
        Request::Send { port, events, user } => {
            matches!(asks, Asks::Send(n, bits, value) if port.0 == n && *events == bits && *user == value)
        }
        Request::SendN {
            ports,
            events,
            user,
        } => {
            matches!(asks, Asks::SendN(fds, bits, value) if ports.slice() == fds && *events == bits && *user == value)
        }
        Request::Alert {
            port,
            mode,
            events,
            user,
        } => {
            matches!(asks, Asks::Alert(n, wanted, bits, value) if port.0 == n && *mode == wanted && *events == bits && *user == value)
        }
        Request::Work { op, bytes } => {
            matches!(asks, Asks::Work(wanted, text) if *op == wanted && has(bytes, text))
        }
        Request::Ncd { line } => matches!(asks, Asks::Ncd(text) if has(line, text)),
        _ => is_of_timers(request, asks),
    }
}
