//! The acts of pipes. The memory that one needs is taken before its first change.
ghost use Rattle.std.specs.Prelude.{◌≡◌, ◌<◌, None, IfOk, OnErr, OnOk, length};
ghost use Rattle.dk_base.specs.declared.limits.TheConstants.{EVENTS_MAX};
ghost use Rattle.spec_records.specs.Words.{first_refusal};
ghost use Rattle.spec_kernel.specs.Words.{Subject, object_at, pipe, pipe_at, pipe_tests, read, reading_tests, write, writing_tests};
ghost use Rattle.kernel_core.specs.Entries.{entry_about};
ghost use Rattle.kernel_store.specs.Words.{HasRoomForReferences, KeepsPools, stored_state};

use dk_base::answer::Answer;
use dk_base::error::{Errno, NoMemory};
use dk_base::list::{Bytes, Room};
use dk_base::number::{Fd, Pid, Tid};
use dk_base::object::Obj;
use dk_base::request::Request;
use kernel_store::store::Store;
use std::alloc::Global;

/// The number of the pipe whose end a descriptor names, 0 for none.
pub fn pipe_at(store: &Store, p: Pid, fd: Fd) -> u32
    ensures { result ≡ pipe_at (stored_state store.now) p.0 fd }
{
    match store.object_at(p, fd) {
        Some(Obj::PipeIn(pipe)) | Some(Obj::PipeOut(pipe)) => pipe,
        _ => 0,
    }
}

/// pipe(2): EMFILE where fewer than two descriptors are free.
fn pipe_refusal(store: &Store, p: Pid) -> Option<Errno>
    ensures { result ≡ first_refusal (pipe_tests (stored_state store.now) p.0) }
{
    if store.free_rows(p) < 2 {
        return Some(Errno::EMFILE);
    }
    None
}

/// pipe(2): the two ends of another pipe, at the two lowest descriptors that are free.
fn pipe(store: &mut Store, alloc: Global, p: Pid) -> Result<Answer, NoMemory>
    requires allowed { first_refusal (pipe_tests (stored_state store.old) p.0) ≡ None }
    requires few { length (stored_state store.old).channels.pipes < EVENTS_MAX }
    requires references { HasRoomForReferences store.old }
    ensures state { OnOk result (stored_state store.new ≡ (pipe (stored_state store.old) p.0).state) }
    ensures answer { IfOk result (λ answer. answer ≡ (pipe (stored_state store.old) p.0).answer) }
    ensures as_before { OnErr result (stored_state store.new ≡ stored_state store.old) }
    ensures keeps { KeepsPools store.old store.new }
{
    store.reserve_pipe(alloc)?;
    let (read, write) = store.make_pipe(p);
    Ok(Answer::TwoFds { read, write })
}

/// write(2): EBADF for what is no writing end, EPIPE where nothing refers to the reading end, EAGAIN for some bytes where the pipe is full.
fn writing_refusal(store: &Store, p: Pid, fd: Fd, bytes: &Bytes) -> Option<Errno>
    ensures { result ≡ first_refusal (writing_tests (stored_state store.now) p.0 fd bytes.now) }
{
    match store.object_at(p, fd) {
        Some(Obj::PipeOut(pipe)) => store.write_refusal(pipe, bytes.slice()),
        _ => Some(Errno::EBADF),
    }
}

/// write(2): as many bytes as fit.
fn write(store: &mut Store, p: Pid, fd: Fd, bytes: &Bytes) -> Answer
    ensures state { stored_state store.new ≡ (write (stored_state store.old) p.0 fd bytes.now).state }
    ensures answer { result ≡ (write (stored_state store.old) p.0 fd bytes.now).answer }
    ensures keeps { KeepsPools store.old store.new }
{
    let pipe = pipe_at(store, p, fd);
    Answer::Count {
        n: store.write_fitting(pipe, bytes.slice()),
    }
}

/// read(2): EBADF for what is no reading end, EAGAIN where nothing is held and something refers to the writing end.
fn reading_refusal(store: &Store, p: Pid, fd: Fd) -> Option<Errno>
    ensures { result ≡ first_refusal (reading_tests (stored_state store.now) p.0 fd) }
{
    match store.object_at(p, fd) {
        Some(Obj::PipeIn(pipe)) => store.read_refusal(pipe),
        _ => Some(Errno::EBADF),
    }
}

/// read(2): at most so many of the oldest bytes.
fn read(store: &mut Store, alloc: Global, p: Pid, fd: Fd, max: u32) -> Result<Answer, NoMemory>
    ensures state { OnOk result (stored_state store.new ≡ (read (stored_state store.old) p.0 fd max).state) }
    ensures answer { IfOk result (λ answer. answer ≡ (read (stored_state store.old) p.0 fd max).answer) }
    ensures as_before { OnErr result (stored_state store.new ≡ stored_state store.old) }
    ensures keeps { KeepsPools store.old store.new }
{
    let pipe = pipe_at(store, p, fd);
    let mut bytes = Room::with_room(alloc, store.bytes_held(pipe).min(max as usize))?;
    store.take_oldest(pipe, max, &mut bytes);
    Ok(Answer::Data {
        bytes: bytes.into_list(),
    })
}

/// An entry about pipes. Want of memory leaves all as it was.
pub fn enter(
    store: &mut Store,
    alloc: Global,
    t: Tid,
    p: Pid,
    request: Request,
) -> Result<Answer, NoMemory>
    requires few { length (stored_state store.old).channels.pipes < EVENTS_MAX }
    requires references { HasRoomForReferences store.old }
    ensures state { OnOk result (stored_state store.new ≡ (entry_about Subject.pipes (stored_state store.old) t.0 p.0 request).state) }
    ensures answer { IfOk result (λ answer. answer ≡ (entry_about Subject.pipes (stored_state store.old) t.0 p.0 request).answer) }
    ensures as_before { OnErr result (stored_state store.new ≡ stored_state store.old) }
    ensures keeps { KeepsPools store.old store.new }
{
    match request {
        Request::Pipe => match pipe_refusal(store, p) {
            Some(error) => Ok(Answer::Failure(error)),
            None => pipe(store, alloc, p),
        },
        Request::Write { fd, bytes } => match writing_refusal(store, p, fd, &bytes) {
            Some(error) => Ok(Answer::Failure(error)),
            None => Ok(write(store, p, fd, &bytes)),
        },
        Request::Read { fd, max } => match reading_refusal(store, p, fd) {
            Some(error) => Ok(Answer::Failure(error)),
            None => read(store, alloc, p, fd, max),
        },
        _ => Ok(Answer::Done),
    }
}
