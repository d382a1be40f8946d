//! Why a line was not read: it is bad, or memory is wanting.
use dk_base::error::NoMemory;
use line_forms::reason::Reason;
use thiserror::Error;

/// Why a line was not read.
#[derive(Clone, Copy, Debug, PartialEq, Eq, Error)]
pub enum Fault {
    #[error("{0}")]
    Bad(Reason),
    #[error("out of memory")]
    Memory,
}

impl From<NoMemory> for Fault {
    ghost use Rattle.std.specs.Prelude.{◌≡◌};
    ghost use Rattle.line_reader.specs.declared.fault.Fault.TheVariants.{Memory as MemoryFault};

    ghost from_gives = { λ _ fault. fault ≡ MemoryFault };

    fn from(_: NoMemory) -> Self {
        Fault::Memory
    }
}
