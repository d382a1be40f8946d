//! The lines of a history as values.

use dk_base::event::What;
use dk_base::list::{Bytes, Sequence, TidList};
use dk_base::number::{Pid, Tid};
use dk_base::request::Request;

/// A thread of a process, or a spare, with the name that it is declared by.
#[derive(Drop)]
pub struct Member {
    pub spare: bool,
    pub name: Bytes,
}

pub type MemberList = Sequence<Member>;

pub type NameList = Sequence<Bytes>;

/// What a thread does in an event: it asks for something, or its wait ends.
#[derive(Drop)]
pub enum Asked {
    Enter(Request),
    /// The end of which wait it is.
    GoOn(What),
}

/// How a history stands at its end.
#[derive(Clone, Copy, PartialEq, Eq)]
pub enum Ending {
    /// No thread can go on, and none waits in a call, at a port or for a path.
    Complete,
    /// No thread can go on, and some wait so.
    Stalled,
    /// Some thread can go on.
    Open,
}

/// A line of a history. Processes, threads, procedures and paths are known by their numbers where they are declared, and by
/// their names where the line declares them.
#[derive(Drop)]
pub enum Line {
    /// `process NAME limit N` and its members: a process that is there from the start
    Process {
        name: Bytes,
        limit: u32,
        members: MemberList,
    },
    /// `child NAME of PROCESS` and its members: a process that is unborn until that one forks it
    Child {
        name: Bytes,
        parent: Pid,
        members: MemberList,
    },
    /// `name CHILD NAME NAME ..`: new names of a child and of its members in their order
    Name {
        child: Pid,
        name: Bytes,
        members: NameList,
    },
    /// `proc NAME of PROCESS`: a procedure that doors of the process may have
    Procedure {
        name: Bytes,
        process: Pid,
    },
    /// `path NAME STRING`: what programs call it
    Path {
        name: Bytes,
        text: Bytes,
    },
    /// `NUMBER THREAD ROOT`, what is asked, `=` and the answer, which is a text and no more
    Event {
        number: u64,
        thread: Tid,
        root: Tid,
        asked: Asked,
        answer: Bytes,
    },
    /// `end`, how, after so many events, and the threads that wait in a stalled history
    End {
        ending: Ending,
        number: u64,
        threads: TidList,
    },
}
