//! Threads of scripts, what they ask and what they are given.

use super::asks::Asks;
use super::given::Given;
use dk_base::error::Errno;
use dk_base::number::Fd;
use dk_base::object::Pass;
use dk_base::request::{AlertMode, Op, Param};

/// A thread of a text's script asks this and is given that, one step after another.
#[derive(Clone, Copy)]
pub(crate) struct Row {
    pub(crate) name: &'static str,
    pub(crate) text: &'static str,
    pub(crate) thread: u32,
    pub(crate) steps: &'static [(Asks, Given)],
}

pub(crate) const ROWS: [Row; 12] = [
    Row {
        name: "commands of doors",
        text: "doors script 1\nprocess a\nthread t\ncreate d e 7 unref\ncreate d e 8\nattach $d p\nopen v p\ndup w $v\nrevoke $w\nbind $v.1\nunbind\ninfo $d\ninfo query\ngetparam $d data-max\nsetparam $d desc-max max\ncred\ntestcancel\nclose 9\ndetach p\nawait p\nexit\nend\nproc e\nend\n",
        thread: 1,
        steps: &COMMANDS_OF_DOORS,
    },
    Row {
        name: "commands of pipes and ports",
        text: "doors script 1\nprocess a\nthread t\npipe r w\nwrite $w \"ab\"\nread v $r 4096\nread v $r 1\nwrite $w $v\npipe x x\nclose $x\npcreate p\nassociate $p $r in+hup 5\ndissociate $p $r\nget $p\nget $p nowait\ngetn $p 0 0\ngetn $p 4 1 nowait\nsend $p 1 2\nsendn 1 2 $p 3\nalert $p set 1 2\ninterrupt t\nkill a\nwork v upper \"x\" + $v\nwrite 1 $v\nend\n",
        thread: 1,
        steps: &COMMANDS_OF_PIPES_AND_PORTS,
    },
    Row {
        name: "calls",
        text: "doors script 1\nprocess a\nthread t\nopen d p\ncall d $d \"h\" + fill:2 desc $d! 7 rsize 9\nif EINTR\ncall d $d \"\"\nend\nclose $d.1\nwork d reverse $d\nclose $d\nend\n",
        thread: 1,
        steps: &CALLS,
    },
    Row {
        name: "a procedure",
        text: SERVER,
        thread: 2,
        steps: &A_PROCEDURE,
    },
    Row {
        name: "a notice",
        text: SERVER,
        thread: 2,
        steps: &A_NOTICE,
    },
    Row {
        name: "a spare",
        text: SERVER,
        thread: 1,
        steps: &A_SPARE,
    },
    Row {
        name: "forks",
        text: "doors script 2\nprocess a\nthread t\nfork b\nfork b\nend\nchild b of a\nthread u\nclose 0\nend\n",
        thread: 1,
        steps: &FORKS,
    },
    Row {
        name: "commands of timers",
        text: "doors script 3\nprocess a\nthread t\npcreate q\ntcreate $q 7\ntcreate 9 0\ntset 0 3 2\ntset 31 1000000000 1000000000\nadvance 10000\nget $q\ntdelete 0\ntdelete 0\nclose $q\nend\n",
        thread: 1,
        steps: &COMMANDS_OF_TIMERS,
    },
    Row {
        name: "a reply of the cache sets bytes alone",
        text: "doors script 4\nprocess a\nthread t\nopen v p\nncd v \"get \" + $v + fill:2\nclose $v\nncd w $v + \"!\"\nwrite 1 $w + $v\nend\n",
        thread: 1,
        steps: &A_REPLY_SETS_BYTES_ALONE,
    },
    Row {
        name: "a loop is entered again",
        text: "doors script 1\nprocess a\nthread t\nrepeat 2\nclose 1\nrepeat 3\nclose 2\nend\nif EBADF\nclose 3\nif ok\nclose 4\nend\nend\nend\nclose 5\nend\n",
        thread: 1,
        steps: &A_LOOP_IS_ENTERED_AGAIN,
    },
    Row {
        name: "a read sets bytes alone",
        text: "doors script 1\nprocess a\nthread t\nopen v p\nread v $v 1\nclose $v\nopen v p\nclose $v\nwrite 1 $v\nend\n",
        thread: 1,
        steps: &A_READ_SETS_BYTES_ALONE,
    },
    Row {
        name: "each command ends on an error",
        text: "doors script 1\nprocess a\nthread t\ncreate d e 7 unref\ncall r $d \"h\" rsize 9\nreturn $r\nserve\nrevoke 0\nbind $d\nunbind\ninfo 255\ninfo query\ngetparam 1 data-min\nsetparam 1 desc-max 0\ncred\ntestcancel\nexit\nclose $d\ndup w $d.3\nattach $w p\ndetach q\nopen v p\nawait q\npipe x y\nwrite $y $x\nread v $x 1\npcreate p\nassociate $p $x none 5\ndissociate $p 3\nget $p\ngetn $p 64 1\nsend $p 1 2\nsendn 1 2 $p 9\nalert $p none 0 0\ninterrupt t\nkill a\nwork v sum $v\nif ok\nserve\nend\nif EINTR\nclose 7\nend\nend\nproc e\nend\n",
        thread: 1,
        steps: &ERRORS,
    },
];

/// The descriptor that a variable with none gives.
const UNSET: u32 = u32::MAX;

const PASSED: [Pass; 2] = [
    Pass {
        fd: Fd(4),
        release: true,
    },
    Pass {
        fd: Fd(7),
        release: false,
    },
];

/// A procedure that asks whether it is cancelled, and whether a notice began it.
const SERVER: &str =
    "doors script 1\nprocess a\nspare s\nthread t\nclose 1\nserve\nend\nproc e\nif ok\ntestcancel\nend\nif yes\nclose $arg\nend\nif unref\nclose 5\nend\nreturn $arg + \":\" + $cookie\nend\n";

const COMMANDS_OF_DOORS: [(Asks, Given); 20] = [
    (Asks::Create(7, 1), Given::NewFd(3)),
    (Asks::Create(8, 0), Given::Errno(Errno::EMFILE)),
    (Asks::Attach(3, 0), Given::Done),
    (Asks::Open(0), Given::NewFd(4)),
    (Asks::Dup(4), Given::NewFd(5)),
    (Asks::Revoke(5), Given::Errno(Errno::EPERM)),
    (Asks::Bind(UNSET), Given::Errno(Errno::EBADF)),
    (Asks::Unbind, Given::Done),
    (Asks::Info(3), Given::Info),
    (Asks::InfoQuery, Given::Errno(Errno::EBADF)),
    (Asks::GetParam(3, Param::DataMax), Given::Param(1)),
    (Asks::SetParam(3, Param::DescMax, u64::MAX), Given::Done),
    (Asks::Cred, Given::Client),
    (Asks::TestCancel, Given::Cancel(false)),
    (Asks::Close(9), Given::Errno(Errno::EBADF)),
    (Asks::Detach(0), Given::Done),
    (Asks::Await(0), Given::Wait),
    (Asks::Await(0), Given::Done),
    (Asks::Exit, Given::Done),
    (Asks::Exit, Given::Done),
];

const COMMANDS_OF_PIPES_AND_PORTS: [(Asks, Given); 24] = [
    (Asks::Pipe, Given::TwoFds(1, 2)),
    (Asks::Write(2, b"ab"), Given::Count(2)),
    (Asks::Read(1, 4096), Given::Data(b"ab")),
    (Asks::Read(1, 1), Given::Errno(Errno::EAGAIN)),
    (Asks::Write(2, b"ab"), Given::Count(1)),
    (Asks::Pipe, Given::TwoFds(5, 6)),
    (Asks::Close(6), Given::Done),
    (Asks::PortCreate, Given::NewFd(7)),
    (Asks::Associate(7, 1, 17, 5), Given::Done),
    (Asks::Dissociate(7, 1), Given::Errno(Errno::ENOENT)),
    (Asks::Get(7, true), Given::Wait),
    (Asks::Get(7, true), Given::OneEvent),
    (Asks::Get(7, false), Given::Errno(Errno::ETIME)),
    (Asks::GetN(7, 0, 0, true), Given::Available(3)),
    (Asks::GetN(7, 4, 1, false), Given::Events),
    (Asks::Send(7, 1, 2), Given::Errno(Errno::EAGAIN)),
    (Asks::SendN(&[Fd(7), Fd(3)], 1, 2), Given::Errors),
    (
        Asks::Alert(7, AlertMode::Set, 1, 2),
        Given::Errno(Errno::EBUSY),
    ),
    (Asks::Interrupt(1), Given::Done),
    (Asks::Kill(1), Given::Done),
    (Asks::Work(Op::Upper, b"xab"), Given::Wait),
    (Asks::Work(Op::Upper, b"xab"), Given::Data(b"XAB")),
    (Asks::Write(1, b"XAB"), Given::Errno(Errno::EBADF)),
    (Asks::Exit, Given::Done),
];

const FORKS: [(Asks, Given); 3] = [
    (Asks::Fork(2), Given::Child),
    (Asks::Fork(2), Given::Errno(Errno::EAGAIN)),
    (Asks::Exit, Given::Done),
];

/// What a command on timers is answered sets no variable.
const COMMANDS_OF_TIMERS: [(Asks, Given); 12] = [
    (Asks::PortCreate, Given::NewFd(3)),
    (Asks::TimerCreate(3, 7), Given::Count(0)),
    (Asks::TimerCreate(9, 0), Given::Errno(Errno::EBADF)),
    (Asks::TimerSet(0, 3, 2), Given::Done),
    (
        Asks::TimerSet(31, 1_000_000_000, 1_000_000_000),
        Given::Errno(Errno::EINVAL),
    ),
    (Asks::Advance(10_000), Given::Done),
    (Asks::Get(3, true), Given::Wait),
    (Asks::Get(3, true), Given::OneEvent),
    (Asks::TimerDelete(0), Given::Done),
    (Asks::TimerDelete(0), Given::Errno(Errno::EINVAL)),
    (Asks::Close(3), Given::Done),
    (Asks::Exit, Given::Done),
];

/// Setting a variable replaces its whole value.
const A_REPLY_SETS_BYTES_ALONE: [(Asks, Given); 6] = [
    (Asks::Open(0), Given::NewFd(4)),
    (Asks::Ncd(b"get xx"), Given::Data(b"none")),
    (Asks::Close(UNSET), Given::Done),
    (Asks::Ncd(b"none!"), Given::Data(b"bad")),
    (Asks::Write(1, b"badnone"), Given::Done),
    (Asks::Exit, Given::Done),
];

/// Results set bytes and descriptors, an error leaves them, and a block goes by the last answer.
const CALLS: [(Asks, Given); 8] = [
    (Asks::Open(0), Given::NewFd(4)),
    (Asks::Call(4, b"hxx", &PASSED, 9), Given::WaitCall),
    (
        Asks::Call(4, b"hxx", &PASSED, 9),
        Given::Errno(Errno::EINTR),
    ),
    (
        Asks::Call(4, b"", &[], 4096),
        Given::Results(b"ok", &[Fd(8), Fd(9)]),
    ),
    (Asks::Close(9), Given::Done),
    (Asks::Work(Op::Reverse, b"ok"), Given::Data(b"ko")),
    (Asks::Close(UNSET), Given::Done),
    (Asks::Exit, Given::Done),
];

/// An accept that fails leaves the command; one that enters begins with the last answer `ok`.
const A_PROCEDURE: [(Asks, Given); 11] = [
    (Asks::Close(1), Given::Errno(Errno::EBADF)),
    (Asks::Return(b""), Given::Wait),
    (Asks::Return(b""), Given::EnterFailed),
    (Asks::Return(b""), Given::Entered(b"hi", &[Fd(6)])),
    (Asks::TestCancel, Given::Cancel(true)),
    (Asks::Close(6), Given::Done),
    (Asks::Return(b"hi:70"), Given::Wait),
    (Asks::Return(b"hi:70"), Given::Errno(Errno::EINVAL)),
    (Asks::Return(b""), Given::Wait),
    (Asks::Return(b""), Given::Errno(Errno::EINVAL)),
    (Asks::Return(b""), Given::Wait),
];

/// A notice has no bytes and no descriptors, and `unref` holds.
const A_NOTICE: [(Asks, Given); 6] = [
    (Asks::Close(1), Given::Done),
    (Asks::Return(b""), Given::Entered(b"old", &[])),
    (Asks::TestCancel, Given::Notice),
    (Asks::TestCancel, Given::Cancel(false)),
    (Asks::Close(5), Given::Done),
    (Asks::Return(b":18446744073709551615"), Given::Wait),
];

/// A spare begins as a procedure with no command.
const A_SPARE: [(Asks, Given); 4] = [
    (Asks::Return(b""), Given::Wait),
    (Asks::Return(b""), Given::Entered(b"", &[])),
    (Asks::TestCancel, Given::Done),
    (Asks::Return(b":70"), Given::Done),
];

const A_LOOP_IS_ENTERED_AGAIN: [(Asks, Given); 11] = [
    (Asks::Close(1), Given::Done),
    (Asks::Close(2), Given::Done),
    (Asks::Close(2), Given::Done),
    (Asks::Close(2), Given::Done),
    (Asks::Close(1), Given::Done),
    (Asks::Close(2), Given::Done),
    (Asks::Close(2), Given::Done),
    (Asks::Close(2), Given::Errno(Errno::EBADF)),
    (Asks::Close(3), Given::Errno(Errno::EBADF)),
    (Asks::Close(5), Given::Done),
    (Asks::Exit, Given::Done),
];

/// Setting a variable replaces its whole value.
const A_READ_SETS_BYTES_ALONE: [(Asks, Given); 7] = [
    (Asks::Open(0), Given::NewFd(4)),
    (Asks::Read(4, 1), Given::Data(b"x")),
    (Asks::Close(UNSET), Given::Done),
    (Asks::Open(0), Given::NewFd(6)),
    (Asks::Close(6), Given::Done),
    (Asks::Write(1, b""), Given::Done),
    (Asks::Exit, Given::Done),
];

/// On an error each command ends, and every variable stays as it was: none is set.
const ERRORS: [(Asks, Given); 36] = [
    (Asks::Create(7, 1), Given::Errno(Errno::EINTR)),
    (Asks::Call(UNSET, b"h", &[], 9), Given::Errno(Errno::EINTR)),
    (Asks::Return(b""), Given::Errno(Errno::EINTR)),
    (Asks::Return(b""), Given::Errno(Errno::EINTR)),
    (Asks::Revoke(0), Given::Errno(Errno::EINTR)),
    (Asks::Bind(UNSET), Given::Errno(Errno::EINTR)),
    (Asks::Unbind, Given::Errno(Errno::EINTR)),
    (Asks::Info(255), Given::Errno(Errno::EINTR)),
    (Asks::InfoQuery, Given::Errno(Errno::EINTR)),
    (
        Asks::GetParam(1, Param::DataMin),
        Given::Errno(Errno::EINTR),
    ),
    (
        Asks::SetParam(1, Param::DescMax, 0),
        Given::Errno(Errno::EINTR),
    ),
    (Asks::Cred, Given::Errno(Errno::EINTR)),
    (Asks::TestCancel, Given::Errno(Errno::EINTR)),
    (Asks::Exit, Given::Errno(Errno::EINTR)),
    (Asks::Close(UNSET), Given::Errno(Errno::EINTR)),
    (Asks::Dup(UNSET), Given::Errno(Errno::EINTR)),
    (Asks::Attach(UNSET, 0), Given::Errno(Errno::EINTR)),
    (Asks::Detach(1), Given::Errno(Errno::EINTR)),
    (Asks::Open(0), Given::Errno(Errno::EINTR)),
    (Asks::Await(1), Given::Errno(Errno::EINTR)),
    (Asks::Pipe, Given::Errno(Errno::EINTR)),
    (Asks::Write(UNSET, b""), Given::Errno(Errno::EINTR)),
    (Asks::Read(UNSET, 1), Given::Errno(Errno::EINTR)),
    (Asks::PortCreate, Given::Errno(Errno::EINTR)),
    (
        Asks::Associate(UNSET, UNSET, 0, 5),
        Given::Errno(Errno::EINTR),
    ),
    (Asks::Dissociate(UNSET, 3), Given::Errno(Errno::EINTR)),
    (Asks::Get(UNSET, true), Given::Errno(Errno::EINTR)),
    (Asks::GetN(UNSET, 64, 1, true), Given::Errno(Errno::EINTR)),
    (Asks::Send(UNSET, 1, 2), Given::Errno(Errno::EINTR)),
    (
        Asks::SendN(&[Fd(UNSET), Fd(9)], 1, 2),
        Given::Errno(Errno::EINTR),
    ),
    (
        Asks::Alert(UNSET, AlertMode::Nothing, 0, 0),
        Given::Errno(Errno::EINTR),
    ),
    (Asks::Interrupt(1), Given::Errno(Errno::EINTR)),
    (Asks::Kill(1), Given::Errno(Errno::EINTR)),
    (Asks::Work(Op::Sum, b""), Given::Errno(Errno::EINTR)),
    (Asks::Close(7), Given::Errno(Errno::EINTR)),
    (Asks::Exit, Given::Errno(Errno::EINTR)),
];
