//! The forms of lines, by the words that begin them.

use crate::operand::Operand;
use std::fmt;

/// What a word is that begins a line.
#[derive(Clone, Copy)]
pub(crate) enum Role {
    Budget,
    Process,
    Child,
    Spare,
    Thread,
    Proc,
    Schedule,
    Create,
    Interrupt,
    /// `kill` or `fork`.
    Kill,
    Bind,
    Serve,
    Exit,
    /// `repeat` or `if`.
    Block,
    End,
    /// Another command.
    Command,
}

/// What stands in a line that begins with a keyword.
pub(crate) struct Form {
    pub keyword: &'static str,
    /// What follows it, as it is told.
    pub rest: &'static str,
    /// The least version of scripts that have it.
    pub since: u32,
    pub role: Role,
    /// What the line has in any case, and then `End`. A `Var` is a variable that it sets; at most two stand there, before all others.
    pub operands: [Operand; 4],
    /// What may follow.
    pub tail: Operand,
}

impl Form {
    /// Whether such a line sets a variable.
    pub fn sets_variables(&self) -> bool {
        matches!(self.operands, [Operand::Var, ..])
    }
}

impl fmt::Display for Form {
    fn fmt<W: fmt::Write>(&self, f: &mut fmt::Formatter<W>) -> fmt::Result {
        f.write_str(self.keyword)?;
        if self.rest.is_empty() {
            return Ok(());
        }
        write!(f, " {}", self.rest)
    }
}

/// The form of a line that begins with this word.
pub(crate) fn form_of(word: &[u8]) -> Option<&'static Form> {
    FORMS.iter().find(|form| form.keyword.as_bytes() == word)
}

static FORMS: [Form; 49] = [
    Form {
        keyword: "create",
        rest: "VAR PROC COOKIE [ATTR ...]",
        since: 1,
        role: Role::Create,
        operands: [Operand::Var, Operand::Proc, Operand::Cookie, Operand::End],
        tail: Operand::Attr,
    },
    Form {
        keyword: "call",
        rest: "VAR FD DATA [desc PASS ...] [rsize N]",
        since: 1,
        role: Role::Command,
        operands: [Operand::Var, Operand::Fd, Operand::Piece, Operand::End],
        tail: Operand::AfterCalled,
    },
    Form {
        keyword: "return",
        rest: "DATA [desc PASS ...]",
        since: 1,
        role: Role::Command,
        operands: [Operand::Piece, Operand::End, Operand::End, Operand::End],
        tail: Operand::AfterReturned,
    },
    Form {
        keyword: "serve",
        rest: "",
        since: 1,
        role: Role::Serve,
        operands: [Operand::End, Operand::End, Operand::End, Operand::End],
        tail: Operand::End,
    },
    Form {
        keyword: "revoke",
        rest: "FD",
        since: 1,
        role: Role::Command,
        operands: [Operand::Fd, Operand::End, Operand::End, Operand::End],
        tail: Operand::End,
    },
    Form {
        keyword: "bind",
        rest: "FD",
        since: 1,
        role: Role::Bind,
        operands: [Operand::Fd, Operand::End, Operand::End, Operand::End],
        tail: Operand::End,
    },
    Form {
        keyword: "unbind",
        rest: "",
        since: 1,
        role: Role::Command,
        operands: [Operand::End, Operand::End, Operand::End, Operand::End],
        tail: Operand::End,
    },
    Form {
        keyword: "info",
        rest: "FD, or info query",
        since: 1,
        role: Role::Command,
        operands: [Operand::Door, Operand::End, Operand::End, Operand::End],
        tail: Operand::End,
    },
    Form {
        keyword: "getparam",
        rest: "FD PARAM",
        since: 1,
        role: Role::Command,
        operands: [Operand::Fd, Operand::Param, Operand::End, Operand::End],
        tail: Operand::End,
    },
    Form {
        keyword: "setparam",
        rest: "FD PARAM N",
        since: 1,
        role: Role::Command,
        operands: [Operand::Fd, Operand::Param, Operand::Value, Operand::End],
        tail: Operand::End,
    },
    Form {
        keyword: "cred",
        rest: "",
        since: 1,
        role: Role::Command,
        operands: [Operand::End, Operand::End, Operand::End, Operand::End],
        tail: Operand::End,
    },
    Form {
        keyword: "testcancel",
        rest: "",
        since: 1,
        role: Role::Command,
        operands: [Operand::End, Operand::End, Operand::End, Operand::End],
        tail: Operand::End,
    },
    Form {
        keyword: "exit",
        rest: "",
        since: 1,
        role: Role::Exit,
        operands: [Operand::End, Operand::End, Operand::End, Operand::End],
        tail: Operand::End,
    },
    Form {
        keyword: "close",
        rest: "FD",
        since: 1,
        role: Role::Command,
        operands: [Operand::Fd, Operand::End, Operand::End, Operand::End],
        tail: Operand::End,
    },
    Form {
        keyword: "dup",
        rest: "VAR FD",
        since: 1,
        role: Role::Command,
        operands: [Operand::Var, Operand::Fd, Operand::End, Operand::End],
        tail: Operand::End,
    },
    Form {
        keyword: "attach",
        rest: "FD PATH",
        since: 1,
        role: Role::Command,
        operands: [Operand::Fd, Operand::Path, Operand::End, Operand::End],
        tail: Operand::End,
    },
    Form {
        keyword: "detach",
        rest: "PATH",
        since: 1,
        role: Role::Command,
        operands: [Operand::Path, Operand::End, Operand::End, Operand::End],
        tail: Operand::End,
    },
    Form {
        keyword: "open",
        rest: "VAR PATH",
        since: 1,
        role: Role::Command,
        operands: [Operand::Var, Operand::Path, Operand::End, Operand::End],
        tail: Operand::End,
    },
    Form {
        keyword: "await",
        rest: "PATH",
        since: 1,
        role: Role::Command,
        operands: [Operand::Path, Operand::End, Operand::End, Operand::End],
        tail: Operand::End,
    },
    Form {
        keyword: "pipe",
        rest: "VAR VAR",
        since: 1,
        role: Role::Command,
        operands: [Operand::Var, Operand::Var, Operand::End, Operand::End],
        tail: Operand::End,
    },
    Form {
        keyword: "write",
        rest: "FD DATA",
        since: 1,
        role: Role::Command,
        operands: [Operand::Fd, Operand::Piece, Operand::End, Operand::End],
        tail: Operand::AfterData,
    },
    Form {
        keyword: "read",
        rest: "VAR FD N",
        since: 1,
        role: Role::Command,
        operands: [Operand::Var, Operand::Fd, Operand::Bytes, Operand::End],
        tail: Operand::End,
    },
    Form {
        keyword: "pcreate",
        rest: "VAR",
        since: 1,
        role: Role::Command,
        operands: [Operand::Var, Operand::End, Operand::End, Operand::End],
        tail: Operand::End,
    },
    Form {
        keyword: "associate",
        rest: "FD FD POLL USER",
        since: 1,
        role: Role::Command,
        operands: [Operand::Fd, Operand::Fd, Operand::Poll, Operand::User],
        tail: Operand::End,
    },
    Form {
        keyword: "dissociate",
        rest: "FD FD",
        since: 1,
        role: Role::Command,
        operands: [Operand::Fd, Operand::Fd, Operand::End, Operand::End],
        tail: Operand::End,
    },
    Form {
        keyword: "get",
        rest: "FD [nowait]",
        since: 1,
        role: Role::Command,
        operands: [Operand::Fd, Operand::End, Operand::End, Operand::End],
        tail: Operand::NoWait,
    },
    Form {
        keyword: "getn",
        rest: "FD MAX NGET [nowait]",
        since: 1,
        role: Role::Command,
        operands: [Operand::Fd, Operand::Max, Operand::NGet, Operand::End],
        tail: Operand::NoWait,
    },
    Form {
        keyword: "send",
        rest: "FD EV USER",
        since: 1,
        role: Role::Command,
        operands: [Operand::Fd, Operand::Ev, Operand::User, Operand::End],
        tail: Operand::End,
    },
    Form {
        keyword: "sendn",
        rest: "EV USER FD ...",
        since: 1,
        role: Role::Command,
        operands: [Operand::Ev, Operand::User, Operand::Fd, Operand::End],
        tail: Operand::Fd,
    },
    Form {
        keyword: "alert",
        rest: "FD MODE EV USER",
        since: 1,
        role: Role::Command,
        operands: [Operand::Fd, Operand::Mode, Operand::Ev, Operand::User],
        tail: Operand::End,
    },
    Form {
        keyword: "tcreate",
        rest: "FD USER",
        since: 3,
        role: Role::Command,
        operands: [Operand::Fd, Operand::User, Operand::End, Operand::End],
        tail: Operand::End,
    },
    Form {
        keyword: "tset",
        rest: "ID FIRST INTERVAL",
        since: 3,
        role: Role::Command,
        operands: [Operand::Id, Operand::First, Operand::Interval, Operand::End],
        tail: Operand::End,
    },
    Form {
        keyword: "tdelete",
        rest: "ID",
        since: 3,
        role: Role::Command,
        operands: [Operand::Id, Operand::End, Operand::End, Operand::End],
        tail: Operand::End,
    },
    Form {
        keyword: "advance",
        rest: "N",
        since: 3,
        role: Role::Command,
        operands: [Operand::Advance, Operand::End, Operand::End, Operand::End],
        tail: Operand::End,
    },
    Form {
        keyword: "interrupt",
        rest: "THREAD",
        since: 1,
        role: Role::Interrupt,
        operands: [Operand::Thread, Operand::End, Operand::End, Operand::End],
        tail: Operand::End,
    },
    Form {
        keyword: "kill",
        rest: "PROCESS",
        since: 1,
        role: Role::Kill,
        operands: [Operand::Process, Operand::End, Operand::End, Operand::End],
        tail: Operand::End,
    },
    Form {
        keyword: "fork",
        rest: "CHILD",
        since: 2,
        role: Role::Kill,
        operands: [Operand::Child, Operand::End, Operand::End, Operand::End],
        tail: Operand::End,
    },
    Form {
        keyword: "work",
        rest: "VAR OP DATA",
        since: 1,
        role: Role::Command,
        operands: [Operand::Var, Operand::Op, Operand::Piece, Operand::End],
        tail: Operand::AfterData,
    },
    Form {
        keyword: "ncd",
        rest: "VAR DATA",
        since: 4,
        role: Role::Command,
        operands: [Operand::Var, Operand::Piece, Operand::End, Operand::End],
        tail: Operand::AfterData,
    },
    Form {
        keyword: "repeat",
        rest: "N",
        since: 1,
        role: Role::Block,
        operands: [Operand::Times, Operand::End, Operand::End, Operand::End],
        tail: Operand::End,
    },
    Form {
        keyword: "if",
        rest: "COND",
        since: 1,
        role: Role::Block,
        operands: [Operand::Cond, Operand::End, Operand::End, Operand::End],
        tail: Operand::End,
    },
    Form {
        keyword: "end",
        rest: "",
        since: 1,
        role: Role::End,
        operands: [Operand::End, Operand::End, Operand::End, Operand::End],
        tail: Operand::End,
    },
    Form {
        keyword: "process",
        rest: "NAME [limit N]",
        since: 1,
        role: Role::Process,
        operands: [Operand::Name, Operand::End, Operand::End, Operand::End],
        tail: Operand::LimitWord,
    },
    Form {
        keyword: "thread",
        rest: "NAME",
        since: 1,
        role: Role::Thread,
        operands: [Operand::Name, Operand::End, Operand::End, Operand::End],
        tail: Operand::End,
    },
    Form {
        keyword: "spare",
        rest: "NAME",
        since: 1,
        role: Role::Spare,
        operands: [Operand::Name, Operand::End, Operand::End, Operand::End],
        tail: Operand::End,
    },
    Form {
        keyword: "proc",
        rest: "NAME",
        since: 1,
        role: Role::Proc,
        operands: [Operand::Name, Operand::End, Operand::End, Operand::End],
        tail: Operand::End,
    },
    Form {
        keyword: "child",
        rest: "NAME of PARENT",
        since: 2,
        role: Role::Child,
        operands: [Operand::Name, Operand::Of, Operand::Parent, Operand::End],
        tail: Operand::End,
    },
    Form {
        keyword: "budget",
        rest: "N",
        since: 1,
        role: Role::Budget,
        operands: [Operand::Budget, Operand::End, Operand::End, Operand::End],
        tail: Operand::End,
    },
    Form {
        keyword: "schedule",
        rest: "THREAD ...",
        since: 1,
        role: Role::Schedule,
        operands: [Operand::Thread, Operand::End, Operand::End, Operand::End],
        tail: Operand::Thread,
    },
];
