//! What an entry closes, and of which pipe it readies an end, as its request says before its act.
ghost use Rattle.std.specs.Prelude.{◌≡◌, Some, IfOk, if◌then◌else◌, true};
ghost use Rattle.dk_base.specs.declared.object.Obj.{Obj};
ghost use Rattle.law_channels.specs.Changed.{readied_by};
ghost use Rattle.law_channels.specs.Closed.{Closing, closed_by, released};
ghost use Rattle.law_channels.specs.Ends.{is_end};
ghost use Rattle.dk_base.specs.Words.{RoomValue};
ghost use Rattle.kernel_store.specs.Words.{closing_of, is_of_pipe, stored_state};
ghost use Rattle.kernel_store.specs.declared.told.ClosedRows.TheVariants as list_of;
ghost use Rattle.spec_kernel.specs.Words.{object_at};

use crate::pipes::pipe_at;
use dk_base::error::NoMemory;
use dk_base::list::{PassList, Room};
use dk_base::number::{Fd, Pid, Tid};
use dk_base::object::Obj;
use dk_base::request::Request;
use kernel_store::store::Store;
use kernel_store::told::ClosedRows;
use std::alloc::Global;
use std::mem;

/// The descriptors that a call or a return releases, in what is kept for them, which they take with them.
fn released(alloc: Global, pass: &PassList, room: &mut Room<Fd>) -> Result<Room<Fd>, NoMemory>
    ensures { IfOk result (λ fds. fds.items ≡ released pass.now) }
{
    let items = pass.slice();
    room.clear();
    for x in items {
        if x.release {
            room.reserve(1)?;
            room.push(x.fd);
        }
    }
    Ok(mem::replace(room, Room::new(alloc)))
}

/// All rows of a process that ends.
fn rows_at_end(p: Pid, ends: bool) -> ClosedRows
    ensures { closing_of result ≡ (if ends then Closing.process p.0 else Closing.nothing) }
{
    if ends {
        ClosedRows::Process(p)
    } else {
        ClosedRows::Nothing
    }
}

/// The rows that an entry of thread `t` of process `p` closes. Those that a call or a return releases are listed in what is kept for them.
pub fn closed_by(
    store: &Store,
    alloc: Global,
    t: Tid,
    p: Pid,
    request: &Request,
    room: &mut Room<Fd>,
) -> Result<ClosedRows, NoMemory>
    ensures { IfOk result (λ rows. closing_of rows ≡ closed_by (stored_state store.now) t.0 p.0 request.now) }
{
    match request {
        Request::Close { fd } | Request::Revoke { fd } => Ok(ClosedRows::Row(p, *fd)),
        Request::Call { pass, .. } | Request::Return { pass, .. } => {
            Ok(ClosedRows::Rows(p, released(alloc, pass, room)?))
        }
        Request::Kill { process } => {
            Ok(rows_at_end(*process, store.processes().is_live(*process)))
        }
        Request::Exit => Ok(rows_at_end(p, store.processes().is_last(t, p))),
        _ => Ok(ClosedRows::Nothing),
    }
}

/// What descriptors were listed in, once they are told of, is kept for the next ones.
pub fn put_back(closed: ClosedRows, room: &mut Room<Fd>)
    ensures { (p : Pid) (fds : RoomValue Fd) → closed ≡ list_of.Rows p fds → room.new ≡ fds }
{
    if let ClosedRows::Rows(_, fds) = closed {
        *room = fds;
    }
}

/// The pipe whose end a descriptor names.
fn pipe_named(store: &Store, p: Pid, fd: Fd) -> Option<u32>
    ensures { (o : Obj) → object_at (stored_state store.now) p.0 fd ≡ Some o → is_end o ≡ true → is_of_pipe result o ≡ true }
{
    match store.object_at(p, fd) {
        Some(Obj::PipeIn(pipe)) | Some(Obj::PipeOut(pipe)) => Some(pipe),
        _ => None,
    }
}

/// The pipe of which an entry of process `p` readies or newly watches an end.
pub fn pipe_readied(store: &Store, p: Pid, request: &Request) -> Option<u32>
    ensures { (o : Obj) → readied_by (stored_state store.now) p.0 request.now ≡ Some o → is_end o ≡ true → is_of_pipe result o ≡ true }
{
    match request {
        Request::Write { fd, .. } | Request::Read { fd, .. } => Some(pipe_at(store, p, *fd)),
        Request::Associate { object, .. } => pipe_named(store, p, *object),
        _ => None,
    }
}
