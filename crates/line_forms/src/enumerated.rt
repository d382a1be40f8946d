//! Operands that are one of a few words.

ghost use Rattle.std.specs.Prelude.{◌≡◌};
ghost use Rattle.line_forms.specs.Enumerated.{param_word as param_spelling, param_of as param_spelled, mode_word as mode_spelling, mode_of as mode_spelled, op_word as op_spelling, op_of as op_spelled, cond_word as cond_spelling, cond_of as cond_spelled, errno_of as errno_spelled};

use crate::line::Cond;
use dk_base::error::Errno;
use dk_base::request::{AlertMode, Op, Param};

/// PARAM
pub fn param_word(param: Param) -> &'static str
    ensures { result.now ≡ param_spelling param }
{
    match param {
        Param::DataMax => "data-max",
        Param::DataMin => "data-min",
        Param::DescMax => "desc-max",
    }
}

/// The parameter that a word spells.
pub fn param_of(word: &[u8]) -> Option<Param>
    ensures { result ≡ param_spelled word.now }
{
    [Param::DataMax, Param::DataMin, Param::DescMax]
        .iter()
        .copied()
        .find(|param| word == param_word(*param).as_bytes())
}

/// MODE
pub fn mode_word(mode: AlertMode) -> &'static str
    ensures { result.now ≡ mode_spelling mode }
{
    match mode {
        AlertMode::Set => "set",
        AlertMode::Update => "update",
        AlertMode::Nothing => "none",
    }
}

/// The mode that a word spells.
pub fn mode_of(word: &[u8]) -> Option<AlertMode>
    ensures { result ≡ mode_spelled word.now }
{
    [AlertMode::Set, AlertMode::Update, AlertMode::Nothing]
        .iter()
        .copied()
        .find(|mode| word == mode_word(*mode).as_bytes())
}

/// OP
pub fn op_word(op: Op) -> &'static str
    ensures { result.now ≡ op_spelling op }
{
    match op {
        Op::Upper => "upper",
        Op::Reverse => "reverse",
        Op::Sum => "sum",
        Op::Digest => "digest",
    }
}

/// The operation that a word spells.
pub fn op_of(word: &[u8]) -> Option<Op>
    ensures { result ≡ op_spelled word.now }
{
    [Op::Upper, Op::Reverse, Op::Sum, Op::Digest]
        .iter()
        .copied()
        .find(|op| word == op_word(*op).as_bytes())
}

const ERRNOS: [Errno; 15] = [
    Errno::E2BIG,
    Errno::EAGAIN,
    Errno::EBADF,
    Errno::EBADFD,
    Errno::EBUSY,
    Errno::EINTR,
    Errno::EINVAL,
    Errno::EMFILE,
    Errno::ENFILE,
    Errno::ENOBUFS,
    Errno::ENOENT,
    Errno::ENOTSUP,
    Errno::EPERM,
    Errno::EPIPE,
    Errno::ETIME,
];

/// The error number that a word names.
fn errno_of(word: &[u8]) -> Option<Errno>
    ensures { result ≡ errno_spelled word.now }
{
    ERRNOS
        .iter()
        .copied()
        .find(|errno| word == errno.name().as_bytes())
}

/// COND
pub fn cond_word(cond: Cond) -> &'static str
    ensures { result.now ≡ cond_spelling cond }
{
    match cond {
        Cond::Good => "ok",
        Cond::Yes => "yes",
        Cond::Unref => "unref",
        Cond::Errno(errno) => errno.name(),
    }
}

/// The condition that a word spells.
pub fn cond_of(word: &[u8]) -> Option<Cond>
    ensures { result ≡ cond_spelled word.now }
{
    if word == b"ok".as_slice() {
        Some(Cond::Good)
    } else if word == b"yes".as_slice() {
        Some(Cond::Yes)
    } else if word == b"unref".as_slice() {
        Some(Cond::Unref)
    } else {
        errno_of(word).map(Cond::Errno)
    }
}
