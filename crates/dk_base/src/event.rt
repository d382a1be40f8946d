//! Events of a run, and what one step of a kernel gives.
use crate::answer::Answer;
use crate::list::TidList;
use crate::number::Tid;

/// The kernel entry, or the end of a wait, that an event is. `serve` is Return, and both forms of info are Info.
#[derive(Clone, Copy, PartialEq, Eq)]
pub enum What {
    Create,
    Call,
    Return,
    Revoke,
    Bind,
    Unbind,
    Info,
    GetParam,
    SetParam,
    Cred,
    TestCancel,
    Close,
    Dup,
    Attach,
    Detach,
    Open,
    Await,
    Pipe,
    Write,
    Read,
    PortCreate,
    Associate,
    Dissociate,
    Get,
    GetN,
    Send,
    SendN,
    Alert,
    TimerCreate,
    TimerSet,
    TimerDelete,
    Advance,
    Interrupt,
    Kill,
    Exit,
    Fork,
    Work,
    Ncd,
    Accept,
    Collect,
    Got,
    Found,
    Done,
    Woken,
}

/// One event of a run. `root` is the thread's root in the state before the event; events are numbered from 1.
#[derive(Drop)]
pub struct Event {
    pub number: u32,
    pub thread: Tid,
    pub root: Tid,
    pub what: What,
    pub answer: Answer,
}

/// What one event gives: its answer, and in order the threads that were not runnable before and are now.
#[derive(Drop)]
pub struct Stepped {
    pub answer: Answer,
    pub woken: TidList,
}
