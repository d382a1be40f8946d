//! Reading all that a source has, up to a limit.
ghost use Rattle.std.specs.Prelude.{◌≡◌, ◌≤◌, ◌++◌, IfSome, IfOk, OnOk, OnErr, IsErrOf};
ghost use Rattle.dk_base.specs.Outside.{Rose};
ghost use Rattle.dk_base.specs.Input.{text_within_limit, IsWithinLimit, LeavesNone, LeavesRest};

use crate::error::{Failed, NoMemory};
use crate::list::Bytes;
use crate::outside::Source;
use std::alloc::Global;
use thiserror::Error;

const CHUNK: usize = 4096;

/// What was read.
#[derive(Drop)]
pub enum ReadText {
    /// All bytes up to the end of the input.
    Whole(Bytes),
    /// More bytes than the limit. The source may have some left.
    TooLong,
}

/// What keeps a text from being read.
#[derive(Clone, Copy, Debug, PartialEq, Eq, Error)]
pub enum ReadingFault {
    #[error("out of memory")]
    Memory,
    #[error("a read failed")]
    Failed,
}

impl From<NoMemory> for ReadingFault {
    ghost use Rattle.dk_base.specs.declared.reading.ReadingFault.TheVariants.{Memory};

    ghost from_gives = { λ _ fault. fault ≡ Memory };

    fn from(_: NoMemory) -> Self {
        ReadingFault::Memory
    }
}

impl From<Failed> for ReadingFault {
    ghost use Rattle.dk_base.specs.declared.reading.ReadingFault.TheVariants.{Failed};

    ghost from_gives = { λ _ fault. fault ≡ Failed };

    fn from(_: Failed) -> Self {
        ReadingFault::Failed
    }
}

/// Reads up to the end of the input, or until more than `limit` bytes were read. A fault loses what was read.
pub fn read_all<S: Source>(
    alloc: Global,
    source: &mut S,
    limit: usize,
) -> Result<ReadText, ReadingFault>
    ensures text { IfSome (S.left source.old) (λ bytes. IfOk result (λ text. text ≡ text_within_limit bytes limit)) }
    ensures within { IfOk result (IsWithinLimit limit) }
    ensures ended { IfSome (S.left source.old) (λ _. IfOk result (λ text. LeavesNone text (S.left source.new))) }
    ensures rest { LeavesRest (S.left source.old) (S.left source.new) }
    ensures steady { S.faults source.old ≤ S.faults source.new }
    ensures cause { IsErrOf result ReadingFault.Failed → Rose (S.faults source.old) (S.faults source.new) }
{
    let mut bytes = Bytes::new(alloc);
    let mut chunk = [0; CHUNK];
    while bytes.len() <= limit {
        let count = source.read(&mut chunk)?;
        if count == 0 {
            return Ok(ReadText::Whole(bytes));
        }
        bytes.append(&chunk[..count])?;
    }
    Ok(ReadText::TooLong)
}
