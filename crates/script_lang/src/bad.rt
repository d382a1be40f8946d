//! Why a text was not read: its first bad line, or want of memory.
ghost use Rattle.std.specs.Prelude.{◌≡◌};
ghost use Rattle.script_lang.specs.declared.bad.ParseFault.TheVariants.{Memory};

use dk_base::error::NoMemory;
use line_forms::reason::Reason;
use line_reader::fault::Fault;
use thiserror::Error;

/// The first bad line of a text, counted from 1, and the reason.
#[derive(Clone, Copy, Debug, PartialEq, Eq, Error)]
#[error("bad line {line} {reason}")]
pub struct Bad {
    pub line: u32,
    pub reason: Reason,
}

/// Why a text was not read.
#[derive(Clone, Copy, Debug, PartialEq, Eq, Error)]
pub enum ParseFault {
    #[error("{0}")]
    Bad(Bad),
    #[error("out of memory")]
    Memory,
}

impl From<NoMemory> for ParseFault {
    ghost from_gives = { λ _ fault. fault ≡ Memory };

    fn from(_: NoMemory) -> Self {
        ParseFault::Memory
    }
}

impl ParseFault {
    ghost use Rattle.std.specs.Prelude.{◌≡◌};
    ghost use Rattle.script_lang.specs.Faults.{fault_at};

    /// The fault of a line.
    pub fn at(line: u32, fault: Fault) -> Self
        ensures { result ≡ fault_at line fault }
    {
        match fault {
            Fault::Bad(reason) => ParseFault::Bad(Bad { line, reason }),
            Fault::Memory => ParseFault::Memory,
        }
    }
}
