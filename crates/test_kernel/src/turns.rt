//! A kernel of two processes, and the turns of two threads, of one process each or of the same.
ghost use Rattle.std.specs.Prelude.{ℕ, ◌≡◌, ◌≤◌, [], Option, Some, IfOk, length};
ghost use Rattle.spec_records.specs.Words.{pid};
ghost use Rattle.dk_base.specs.declared.limits.TheConstants.{DESCRIPTORS_MAX};
ghost use Rattle.spec_kernel.specs.Words.{IsFit, State, parent_of, process_of, table_of};

use dk_base::answer::Answer;
use dk_base::error::{Errno, NoMemory};
use dk_base::event::Stepped;
use dk_base::list::{Bytes, FdList, IdList, PassList};
use dk_base::number::{Fd, PathId, Pid, Tid};
use dk_base::object::{EventRec, Pass, Src};
use dk_base::request::{AlertMode, Request};
use dk_base::set::Attrs;
use kernel_core::kernel::Kernel;
use std::alloc::Global;

/// An entry of a thread.
#[derive(Clone, Copy)]
pub enum Entry {
    Create,
    /// A door that has a notice each time that one reference is left.
    CreateNoticed,
    Close(u32),
    Dup,
    Attach,
    Detach,
    Await,
    Open,
    Info(u32),
    Call(&'static [u8], &'static [Pass]),
    Return(&'static [u8], &'static [Pass]),
    Exit,
    Pipe,
    Write(u32, &'static [u8]),
    /// At most three bytes.
    Read(u32),
    PortCreate,
    Get(u32, bool),
    /// At most two events, of so many at least.
    GetMany(u32, u32, bool),
    /// How many events are queued.
    CountQueued(u32),
    Send(u32),
    SendEach(&'static [Fd]),
    /// An alert.
    Alert(u32),
    /// The end of alert mode.
    EndAlert(u32),
    CreateTimer(u32),
    /// Its first moment, and what lies between two.
    SetTimer(u32, u16, u16),
    DeleteTimer(u32),
    /// A line for a name service cache.
    Cache(&'static [u8]),
}

/// What is sent.
pub const EVENT: EventRec = EventRec {
    source: Src::User,
    object: 0,
    events: 3,
    user: 4,
};

/// An alert as it is retrieved.
pub const ALERT: EventRec = EventRec {
    source: Src::Alert,
    object: 0,
    events: 5,
    user: 6,
};

/// What the timer with id 0 tells that was due once.
pub const DUE_ONCE: EventRec = EventRec {
    source: Src::Timer,
    object: 0,
    events: 1,
    user: 7,
};

/// What it tells that was due three times.
pub const DUE_THRICE: EventRec = EventRec {
    events: 3,
    ..DUE_ONCE
};

/// What it tells that was due seven times.
pub const DUE_SEVEN: EventRec = EventRec {
    events: 7,
    ..DUE_ONCE
};

/// A turn of a thread.
#[derive(Clone, Copy)]
pub enum Turn {
    Enters(Entry),
    /// The clock moves on.
    Advances(u16),
    GoesOn,
}

/// An answer.
#[derive(Clone, Copy)]
pub enum Gives {
    Wait,
    WaitCall(u32),
    Done,
    NewFd(u32),
    Unique(u64),
    Entered(u32, &'static [u8], &'static [Fd]),
    EnterFailed(u32),
    EnteredNotice(u32),
    Grown(&'static [u8], &'static [Fd]),
    TwoFds(u32, u32),
    Count(u32),
    Data(&'static [u8]),
    Available(u32),
    OneEvent(EventRec),
    Events(&'static [EventRec]),
    Errors(&'static [Option<Errno>]),
    Child(u32),
    Failure(Errno),
}

/// A thread's turn, what it is answered, and whom that wakes.
pub type Row = (Tid, Turn, Gives, &'static [Tid]);

/// The first thread, of process 1.
pub const SERVER: Tid = Tid(1);

/// The second thread.
pub const CLIENT: Tid = Tid(2);

fn is_answer(answer: &Answer, gives: Gives) -> bool {
    match gives {
        Gives::Wait => matches!(answer, Answer::Wait),
        Gives::WaitCall(number) => matches!(answer, Answer::WaitCall { call } if *call == number),
        Gives::Done => matches!(answer, Answer::Done),
        Gives::NewFd(number) => matches!(answer, Answer::NewFd { fd } if fd.0 == number),
        Gives::Unique(number) => matches!(answer, Answer::Info(info) if info.unique == number),
        Gives::Entered(number, text, numbers) => {
            matches!(answer, Answer::Entered { call, entry: 7, cookie: 9, bytes, fds } if *call == number && bytes.slice() == text && fds.slice() == numbers)
        }
        Gives::EnterFailed(number) => {
            matches!(answer, Answer::EnterFailed { call } if *call == number)
        }
        Gives::EnteredNotice(number) => {
            matches!(answer, Answer::EnteredNotice { notice, entry: 7, cookie: 9 } if *notice == number)
        }
        Gives::Grown(text, numbers) => {
            matches!(answer, Answer::Results { bytes, fds, grown: true } if bytes.slice() == text && fds.slice() == numbers)
        }
        Gives::TwoFds(low, high) => {
            matches!(answer, Answer::TwoFds { read, write } if read.0 == low && write.0 == high)
        }
        Gives::Count(number) => matches!(answer, Answer::Count { n } if *n == number),
        Gives::Data(text) => matches!(answer, Answer::Data { bytes } if bytes.slice() == text),
        Gives::Available(number) => matches!(answer, Answer::Available { n } if *n == number),
        Gives::OneEvent(event) => matches!(answer, Answer::OneEvent(told) if *told == event),
        Gives::Events(events) => {
            matches!(answer, Answer::Events(told) if told.slice() == events)
        }
        Gives::Errors(errors) => {
            matches!(answer, Answer::Errors(told) if told.slice() == errors)
        }
        Gives::Child(number) => {
            matches!(answer, Answer::Child { process } if process.0 == number)
        }
        Gives::Failure(errno) => matches!(answer, Answer::Failure(error) if *error == errno),
    }
}

fn is_step(stepped: &Result<Stepped, NoMemory>, gives: Gives, wakes: &[Tid]) -> bool {
    matches!(stepped, Ok(stepped) if is_answer(&stepped.answer, gives) && stepped.woken.slice() == wakes)
}

/// An entry about pipes or ports.
fn request_about_channels(alloc: Global, entry: Entry) -> Result<Request, NoMemory>
    ensures fit { IfOk result (λ r. (m : State) (t : ℕ) → IsFit m t r) }
{
    match entry {
        Entry::Pipe => Ok(Request::Pipe),
        Entry::Write(fd, text) => Ok(Request::Write {
            fd: Fd(fd),
            bytes: Bytes::from_slice(alloc, text)?,
        }),
        Entry::Read(fd) => Ok(Request::Read { fd: Fd(fd), max: 3 }),
        Entry::Get(port, wait) => Ok(Request::Get {
            port: Fd(port),
            wait,
        }),
        Entry::GetMany(port, nget, wait) => Ok(Request::GetN {
            port: Fd(port),
            max: 2,
            nget,
            wait,
        }),
        Entry::CountQueued(port) => Ok(Request::GetN {
            port: Fd(port),
            max: 0,
            nget: 0,
            wait: false,
        }),
        Entry::Send(port) => Ok(Request::Send {
            port: Fd(port),
            events: EVENT.events,
            user: EVENT.user,
        }),
        Entry::SendEach(ports) => Ok(Request::SendN {
            ports: FdList::from_slice(alloc, ports)?,
            events: EVENT.events,
            user: EVENT.user,
        }),
        Entry::Alert(port) => Ok(Request::Alert {
            port: Fd(port),
            mode: AlertMode::Set,
            events: ALERT.events,
            user: ALERT.user,
        }),
        Entry::EndAlert(port) => Ok(Request::Alert {
            port: Fd(port),
            mode: AlertMode::Set,
            events: 0,
            user: 0,
        }),
        _ => Ok(Request::PortCreate),
    }
}

/// An entry about timers, or a line for a cache.
fn request_about_timers(alloc: Global, entry: Entry) -> Result<Request, NoMemory>
    ensures fit { IfOk result (λ r. (m : State) (t : ℕ) → IsFit m t r) }
{
    match entry {
        Entry::CreateTimer(port) => Ok(Request::TimerCreate {
            port: Fd(port),
            user: 7,
        }),
        Entry::SetTimer(timer, first, interval) => Ok(Request::TimerSet {
            timer,
            first: first as u64,
            interval: interval as u64,
        }),
        Entry::DeleteTimer(timer) => Ok(Request::TimerDelete { timer }),
        Entry::Cache(line) => Ok(Request::Ncd {
            line: Bytes::from_slice(alloc, line)?,
        }),
        _ => request_about_channels(alloc, entry),
    }
}

fn request(alloc: Global, entry: Entry) -> Result<Request, NoMemory>
    ensures fit { IfOk result (λ r. (m : State) (t : ℕ) → IsFit m t r) }
{
    match entry {
        Entry::Create => Ok(Request::Create {
            entry: 7,
            cookie: 9,
            attrs: Attrs(0),
        }),
        Entry::CreateNoticed => Ok(Request::Create {
            entry: 7,
            cookie: 9,
            attrs: Attrs::UNREF_MULTI,
        }),
        Entry::Close(fd) => Ok(Request::Close { fd: Fd(fd) }),
        Entry::Dup => Ok(Request::Dup { fd: Fd(0) }),
        Entry::Attach => Ok(Request::Attach {
            fd: Fd(0),
            path: PathId(0),
        }),
        Entry::Detach => Ok(Request::Detach { path: PathId(0) }),
        Entry::Await => Ok(Request::Await { path: PathId(0) }),
        Entry::Open => Ok(Request::Open { path: PathId(0) }),
        Entry::Info(fd) => Ok(Request::Info { fd: Fd(fd) }),
        Entry::Call(text, passed) => {
            let pass = PassList::from_slice(alloc, passed)?;
            let bytes = Bytes::from_slice(alloc, text)?;
            Ok(Request::Call {
                door: Fd(0),
                bytes,
                pass,
                rsize: 1,
            })
        }
        Entry::Exit => Ok(Request::Exit),
        Entry::Return(text, passed) => {
            let pass = PassList::from_slice(alloc, passed)?;
            let bytes = Bytes::from_slice(alloc, text)?;
            Ok(Request::Return { bytes, pass })
        }
        _ => request_about_timers(alloc, entry),
    }
}

fn enters(alloc: Global, kernel: &mut Kernel, t: Tid, entry: Entry) -> Result<Stepped, NoMemory> {
    if !kernel.is_running(t) || kernel.events() >= 1_000_000 {
        return Err(NoMemory);
    }
    match request(alloc, entry) {
        Ok(request) => kernel.enter(t, request),
        Err(error) => Err(error),
    }
}

/// The clock moves on by so much, 10,000 at most.
fn advances(kernel: &mut Kernel, t: Tid, by: u16) -> Result<Stepped, NoMemory> {
    if !kernel.is_running(t) || kernel.events() >= 100_000 || by == 0 || by > 10_000 {
        return Err(NoMemory);
    }
    kernel.enter(t, Request::Advance { by: by as u64 })
}

fn goes_on(kernel: &mut Kernel, t: Tid) -> Result<Stepped, NoMemory> {
    if !kernel.runnable(t) || kernel.is_running(t) || kernel.events() >= 1_000_000 {
        return Err(NoMemory);
    }
    kernel.go_on(t)
}

fn takes_turn(alloc: Global, kernel: &mut Kernel, t: Tid, turn: Turn) -> Result<Stepped, NoMemory> {
    match turn {
        Turn::Enters(entry) => enters(alloc, kernel, t, entry),
        Turn::Advances(by) => advances(kernel, t, by),
        Turn::GoesOn => goes_on(kernel, t),
    }
}

fn is_turn(
    alloc: Global,
    kernel: &mut Kernel,
    t: Tid,
    turn: Turn,
    gives: Gives,
    wakes: &[Tid],
) -> bool {
    is_step(&takes_turn(alloc, kernel, t, turn), gives, wakes)
}

/// How many turns go as they are written.
fn right_turns(alloc: Global, kernel: &mut Kernel, rows: &[Row]) -> usize {
    for (i, (t, turn, gives, wakes)) in rows.iter().enumerate() {
        if !is_turn(alloc, kernel, *t, *turn, *gives, wakes) {
            return i;
        }
    }
    rows.len()
}

/// The same, after a thread was added to the first of two processes and one to this process.
fn right_turns_of_two(alloc: Global, kernel: &mut Kernel, second: Pid, rows: &[Row]) -> usize
    requires two { length kernel.old.process_table.processes ≡ 2 }
    requires declared { (1 ≤ second.0) × (second.0 ≤ 2) }
{
    if kernel.events() != 0 {
        return 0;
    }
    if !matches!(kernel.add_thread(Pid(1), false), Ok(SERVER)) {
        return 0;
    }
    if !matches!(kernel.add_thread(second, false), Ok(CLIENT)) {
        return 0;
    }
    right_turns(alloc, kernel, rows)
}

/// A child of the thread's process begins.
fn forks(kernel: &mut Kernel, t: Tid, child: Pid) -> Result<Stepped, NoMemory>
    requires { parent_of kernel.old child.0 ≡ Some (pid (process_of kernel.old t.0)) }
{
    if !kernel.is_running(t) || kernel.events() >= 1_000_000 {
        return Err(NoMemory);
    }
    kernel.enter(t, Request::Fork { child })
}

/// The child begins, and its thread is woken.
fn is_fork(kernel: &mut Kernel, t: Tid, child: Pid) -> bool
    requires { parent_of kernel.old child.0 ≡ Some (pid (process_of kernel.old t.0)) }
{
    is_step(&forks(kernel, t, child), Gives::Child(2), &[CLIENT])
}

/// How many turns go as they are written, after the thread of process 1 has forked process 2, its child.
fn right_turns_of_child(alloc: Global, kernel: &mut Kernel, rows: &[Row]) -> usize
    requires two { length kernel.old.process_table.processes ≡ 2 }
    requires alike { length (table_of kernel.old 2) ≡ length (table_of kernel.old 1) }
    requires none { kernel.old.process_table.threads ≡ [] }
    requires opening { kernel.old.events ≡ 0 }
{
    kernel.make_child(Pid(2), Pid(1));
    if !matches!(kernel.add_thread(Pid(1), false), Ok(SERVER)) {
        return 0;
    }
    if !matches!(kernel.add_thread(Pid(2), false), Ok(CLIENT)) {
        return 0;
    }
    if kernel.runnable(CLIENT) {
        return 0;
    }
    if !is_fork(kernel, SERVER, Pid(2)) {
        return 0;
    }
    right_turns(alloc, kernel, rows)
}

/// The same of a kernel whose processes have this limit of descriptors.
pub fn right_turns_of_fork(alloc: Global, rows: &[Row]) -> usize {
    let Ok(limits) = IdList::from_slice(alloc, &[16, 16]) else {
        return 0;
    };
    match Kernel::new(alloc, &limits) {
        Ok(mut kernel) => right_turns_of_child(alloc, &mut kernel, rows),
        Err(_) => 0,
    }
}

/// The same of two threads, the second of this process, in a kernel whose processes have this limit of descriptors.
#[tactic(auto, using(spec_kernel::proofs::Opening::opening_processes))]
pub fn right_turns_of_new(alloc: Global, limit: u32, second: Pid, rows: &[Row]) -> usize
    requires declared { (1 ≤ second.0) × (second.0 ≤ 2) }
    requires limit { limit ≤ DESCRIPTORS_MAX }
{
    let Ok(limits) = IdList::from_slice(alloc, &[limit, limit]) else {
        return 0;
    };
    match Kernel::new(alloc, &limits) {
        Ok(mut kernel) => right_turns_of_two(alloc, &mut kernel, second, rows),
        Err(_) => 0,
    }
}
