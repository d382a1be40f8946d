//! The lines of bodies, with their operands.
use dk_base::error::Errno;
use dk_base::list::{Bytes, Sequence};
use dk_base::number::{PathId, Pid, Tid};
use dk_base::request::{AlertMode, Op, Param};
use dk_base::set::{Attrs, PollSet};

/// A descriptor as a line names it.
#[derive(Drop, PartialEq)]
pub enum FdArg {
    /// At most 255.
    Number(u32),
    /// `$NAME.K`: the variable's descriptor `k`, at most 15. `$NAME` is `$NAME.0`.
    Of { name: Bytes, k: u32 },
}

pub type FdArgList = Sequence<FdArg>;

/// A descriptor to be passed. `release` is `!`, DOOR_RELEASE (door_call(3C)).
#[derive(Drop, PartialEq)]
pub struct PassArg {
    pub fd: FdArg,
    pub release: bool,
}

pub type PassArgList = Sequence<PassArg>;

/// A piece of data.
#[derive(Drop, PartialEq)]
pub enum Piece {
    /// A string's bytes.
    Text(Bytes),
    /// The bytes of a variable.
    Of(Bytes),
    /// So many bytes `x`, at most 8,192.
    Fill(u32),
}

pub type PieceList = Sequence<Piece>;

/// What an `if` tests.
#[derive(Clone, Copy, PartialEq, Eq)]
pub enum Cond {
    /// `ok`: the last answer is no errno.
    Good,
    Yes,
    Unref,
    Errno(Errno),
}

/// A line of a body. The fields of a command are its operands in their order; variables are named by their bytes,
/// procedures, paths, threads and processes by their numbers.
#[derive(Drop, PartialEq)]
pub enum Line {
    /// `create VAR PROC COOKIE ATTR ..` (door_create(3C))
    Create {
        var: Bytes,
        entry: u32,
        cookie: u64,
        attrs: Attrs,
    },
    /// `call VAR FD DATA`, `desc PASS ..`, `rsize N` (door_call(3C))
    Call {
        var: Bytes,
        fd: FdArg,
        bytes: PieceList,
        pass: PassArgList,
        rsize: u64,
    },
    /// `return DATA`, `desc PASS ..` (door_return(3C))
    Return {
        bytes: PieceList,
        pass: PassArgList,
    },
    /// `serve`
    Serve,
    /// `revoke FD` (door_revoke(3C))
    Revoke {
        fd: FdArg,
    },
    /// `bind FD` (door_bind(3C))
    Bind {
        fd: FdArg,
    },
    /// `unbind` (door_unbind(3C))
    Unbind,
    /// `info FD` (door_info(3C))
    Info {
        fd: FdArg,
    },
    /// `info query` (door_info(3C))
    InfoQuery,
    /// `getparam FD PARAM` (door_getparam(3C))
    GetParam {
        fd: FdArg,
        param: Param,
    },
    /// `setparam FD PARAM N` (door_setparam(3C))
    SetParam {
        fd: FdArg,
        param: Param,
        value: u64,
    },
    /// `cred` (door_cred(3C))
    Cred,
    /// `testcancel` (pthread_testcancel(3C))
    TestCancel,
    /// `exit` (pthread_exit(3C))
    Exit,
    /// `close FD` (close(2))
    Close {
        fd: FdArg,
    },
    /// `dup VAR FD` (dup(2))
    Dup {
        var: Bytes,
        fd: FdArg,
    },
    /// `attach FD PATH` (fattach(3C))
    Attach {
        fd: FdArg,
        path: PathId,
    },
    /// `detach PATH` (fdetach(3C))
    Detach {
        path: PathId,
    },
    /// `open VAR PATH` (open(2))
    Open {
        var: Bytes,
        path: PathId,
    },
    /// `await PATH`
    Await {
        path: PathId,
    },
    /// `pipe VAR VAR`: the reading and the writing end (pipe(2))
    Pipe {
        reading: Bytes,
        writing: Bytes,
    },
    /// `write FD DATA` (write(2))
    Write {
        fd: FdArg,
        bytes: PieceList,
    },
    /// `read VAR FD N` (read(2))
    Read {
        var: Bytes,
        fd: FdArg,
        max: u32,
    },
    /// `pcreate VAR` (port_create(3C))
    PortCreate {
        var: Bytes,
    },
    /// `associate FD FD POLL USER` (port_associate(3C))
    Associate {
        port: FdArg,
        object: FdArg,
        events: PollSet,
        user: u64,
    },
    /// `dissociate FD FD` (port_dissociate(3C))
    Dissociate {
        port: FdArg,
        object: FdArg,
    },
    /// `get FD`, `get FD nowait` (port_get(3C))
    Get {
        port: FdArg,
        wait: bool,
    },
    /// `getn FD MAX NGET`, `getn FD MAX NGET nowait` (port_getn(3C))
    GetN {
        port: FdArg,
        max: u32,
        nget: u32,
        wait: bool,
    },
    /// `send FD EV USER` (port_send(3C))
    Send {
        port: FdArg,
        events: u32,
        user: u64,
    },
    /// `sendn EV USER FD ..` (port_sendn(3C))
    SendN {
        events: u32,
        user: u64,
        ports: FdArgList,
    },
    /// `alert FD MODE EV USER` (port_alert(3C))
    Alert {
        port: FdArg,
        mode: AlertMode,
        events: u32,
        user: u64,
    },
    /// `tcreate FD USER` (timer_create(3C))
    TimerCreate {
        port: FdArg,
        user: u64,
    },
    /// `tset ID FIRST INTERVAL` (timer_settime(3C)): at most 31, DELAY_MAX and DELAY_MAX
    TimerSet {
        timer: u32,
        first: u64,
        interval: u64,
    },
    /// `tdelete ID` (timer_delete(3C))
    TimerDelete {
        timer: u32,
    },
    /// `advance N`: from 1 to ADVANCE_MAX
    Advance {
        by: u64,
    },
    /// `interrupt THREAD` (pthread_kill(3C))
    Interrupt {
        thread: Tid,
    },
    /// `kill PROCESS` (kill(2))
    Kill {
        process: Pid,
    },
    /// `fork CHILD` (fork(2))
    Fork {
        child: Pid,
    },
    /// `work VAR OP DATA`
    Work {
        var: Bytes,
        op: Op,
        bytes: PieceList,
    },
    /// `ncd VAR DATA`
    Ncd {
        var: Bytes,
        bytes: PieceList,
    },
    /// `repeat N`
    Repeat {
        times: u32,
    },
    /// `if COND`
    If {
        cond: Cond,
    },
    /// `end` of a `repeat` or an `if`
    End,
}

/// The lines of a thread or a procedure, in order.
pub type Body = Sequence<Line>;

/// What a line does to the blocks of its body.
#[derive(Clone, Copy, PartialEq, Eq)]
pub enum Kind {
    /// A command, which makes a request.
    Act,
    /// A `repeat`.
    Loop,
    /// An `if`.
    Test,
    /// An `end`, of a `repeat`, an `if` or the body.
    Closing,
}
