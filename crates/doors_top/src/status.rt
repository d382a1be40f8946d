//! The exit statuses of `doors`.
ghost use Rattle.std.specs.Prelude.{◌≡◌};
ghost use Rattle.std.specs.Option.{option_copied};
ghost use Rattle.doors_top.specs.Status.{status_code, status_message, status_of_ending};
ghost use Rattle.doors_top.specs.Top.{IsAnswer};

use spec_requests::ending::Ending;

/// How a command ended.
#[derive(Clone, Copy, Debug, PartialEq, Eq)]
pub enum Status {
    /// `play`, `run`, `load`: no thread can go on, and none waits for another. `show`: the input is a script. `check`: the trace is that of a legal run.
    Complete,
    /// No thread can go on, and some wait in a call, at a port or for a path.
    Stalled,
    /// The input is no script, or too long, or for `check` a script without a line `trace` after it.
    Script,
    /// The words are no command.
    Usage,
    /// The script's budget of events is used up.
    Budget,
    /// Want of memory.
    Memory,
    /// The input could not be read. Nothing was written.
    ReadFault,
    /// The output could not be written.
    WriteFault,
    /// A turn of the schedule is refused.
    Turn,
    /// `check`: the trace is that of no legal run.
    Illegal,
}

impl Status {
    /// The status of a run that ended so.
    pub(crate) fn of_ending(ending: Ending) -> Self
        ensures value { result ≡ status_of_ending ending }
        ensures answer { IsAnswer result }
    {
        match ending {
            Ending::Complete => Status::Complete,
            Ending::Stalled => Status::Stalled,
            Ending::Budget => Status::Budget,
        }
    }

    /// The exit status.
    pub fn code(self) -> u8
        ensures { result ≡ status_code self }
    {
        match self {
            Status::Complete => 0,
            Status::Stalled => 1,
            Status::Script => 2,
            Status::Usage => 3,
            Status::Budget => 4,
            Status::Memory => 5,
            Status::ReadFault => 6,
            Status::WriteFault => 7,
            Status::Turn => 8,
            Status::Illegal => 9,
        }
    }

    /// What is said of it on the error stream: one line for a status of which the output tells nothing or not enough.
    pub fn message(self) -> Option<&'static str>
        ensures { option_copied result ≡ status_message self }
    {
        match self {
            Status::Usage => Some(
                "doors: give one word, play, run, show or check, and a script as the input (check: a script, a line trace and a trace), or load and a number from 1 to 16000; read on in README.md",
            ),
            Status::Memory => Some("doors: out of memory"),
            Status::ReadFault => Some("doors: the standard input could not be read"),
            Status::WriteFault => Some("doors: the standard output could not be written"),
            Status::Complete
            | Status::Stalled
            | Status::Script
            | Status::Budget
            | Status::Turn
            | Status::Illegal => None,
        }
    }
}
