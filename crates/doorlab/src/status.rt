//! The exit statuses of `doorlab`.
ghost use Rattle.std.specs.Prelude.{◌≡◌};
ghost use Rattle.std.specs.Option.{option_copied};
ghost use Rattle.doorlab.specs.Status.{status_code, status_message};

/// How a command ended.
#[derive(Clone, Copy, Debug, PartialEq, Eq)]
pub enum Status {
    /// What was asked was done, and what was judged is legal.
    Done,
    /// The text is none of a history.
    Bad,
    /// The words are no command.
    Usage,
    /// Want of memory.
    Memory,
    /// The file could not be opened. Nothing was written.
    NotOpened,
    /// The text could not be read. Nothing was written.
    ReadFault,
    /// The output could not be written.
    WriteFault,
    /// The history is not legal.
    Illegal,
}

impl Status {
    /// The exit status.
    pub fn code(self) -> u8
        ensures { result ≡ status_code self }
    {
        match self {
            Status::Done => 0,
            Status::Bad => 2,
            Status::Usage => 3,
            Status::Memory => 5,
            Status::NotOpened | Status::ReadFault => 6,
            Status::WriteFault => 7,
            Status::Illegal => 9,
        }
    }

    /// What is said of it on the error stream: one line for a status of which the output tells nothing.
    pub fn message(self) -> Option<&'static str>
        ensures { option_copied result ≡ status_message self }
    {
        match self {
            Status::Memory => Some("doorlab: out of memory"),
            Status::NotOpened => Some("doorlab: the file could not be opened"),
            Status::ReadFault => Some("doorlab: the history could not be read"),
            Status::WriteFault => Some("doorlab: the standard output could not be written"),
            Status::Done | Status::Bad | Status::Usage | Status::Illegal => None,
        }
    }
}
