//! Errors: want of memory, a stream that failed, and the error numbers that the kernel answers.
use std::fmt;
use thiserror::Error;

/// Want of memory.
#[derive(Clone, Copy, Debug, PartialEq, Eq, Error)]
#[error("out of memory")]
pub struct NoMemory;

/// A read or a write failed.
#[derive(Clone, Copy, Debug, PartialEq, Eq, Error)]
#[error("the outside failed")]
pub struct Failed;

/// The error numbers that kernel entries and ends of waits answer.
#[derive(Clone, Copy, Debug, PartialEq, Eq)]
pub enum Errno {
    E2BIG,
    EAGAIN,
    EBADF,
    EBADFD,
    EBUSY,
    EINTR,
    EINVAL,
    EMFILE,
    ENFILE,
    ENOBUFS,
    ENOENT,
    ENOTSUP,
    EPERM,
    EPIPE,
    ETIME,
}

impl Errno {
    ghost use Rattle.std.specs.Prelude.{◌≡◌};
    ghost use Rattle.dk_base.specs.Errno.{errno_name};

    /// The name in capitals.
    pub fn name(self) -> &'static str
        ensures { result.now ≡ errno_name self }
    {
        match self {
            Errno::E2BIG => "E2BIG",
            Errno::EAGAIN => "EAGAIN",
            Errno::EBADF => "EBADF",
            Errno::EBADFD => "EBADFD",
            Errno::EBUSY => "EBUSY",
            Errno::EINTR => "EINTR",
            Errno::EINVAL => "EINVAL",
            Errno::EMFILE => "EMFILE",
            Errno::ENFILE => "ENFILE",
            Errno::ENOBUFS => "ENOBUFS",
            Errno::ENOENT => "ENOENT",
            Errno::ENOTSUP => "ENOTSUP",
            Errno::EPERM => "EPERM",
            Errno::EPIPE => "EPIPE",
            Errno::ETIME => "ETIME",
        }
    }
}

impl fmt::Display for Errno {
    ghost use Rattle.std.specs.Prelude.{Some};
    ghost use Rattle.dk_base.specs.Errno.{errno_name};

    ghost output = { λ errno. Some (errno_name errno) };

    fn fmt<W: fmt::Write>(&self, f: &mut fmt::Formatter<W>) -> fmt::Result {
        f.write_str(self.name())
    }
}

/// A refusal of a call that may also want memory.
#[derive(Clone, Copy, Debug, PartialEq, Eq, Error)]
pub enum Refusal {
    #[error("{0}")]
    No(Errno),
    #[error("out of memory")]
    Memory,
}

/// What keeps a process or a thread from being added.
#[derive(Clone, Copy, Debug, PartialEq, Eq, Error)]
pub enum ProcFault {
    #[error("64 threads are there")]
    Full,
    #[error("out of memory")]
    Memory,
}
