//! What the commands have in common: an input is read, and what was made is written.
ghost use Rattle.std.specs.Prelude.{◌≡◌, ◌≢◌, IfOk, IsErrOf, IfErr};
ghost use Rattle.dk_base.specs.Words.{Rose};
ghost use Rattle.dk_base.specs.Input.{LeavesRest};
ghost use Rattle.doors_top.specs.Outcomes.{outcome_with};
ghost use Rattle.doors_top.specs.Top.{HasText, IsAnswer, IsRead, IsWritten, IsWrittenOf, LeavesOutput};

use crate::reply::Reply;
use crate::status::Status;
use dk_base::error::NoMemory;
use dk_base::outside::{Sink, Source};
use dk_base::reading::{ReadText, ReadingFault, read_all};
use dk_base::writing::write_all;
use std::alloc::Global;

/// Reads an input. Where memory lacks or a read fails, the status of the command is that.
pub(crate) fn read_input<S: Source>(
    alloc: Global,
    src: &mut S,
    limit: usize,
) -> Result<ReadText, Status>
    ensures read { IfOk result (IsRead limit (S.left src.old) (S.left src.new)) }
    ensures no_text { IfErr result (λ status. HasText status → ⊥) }
    ensures rest { LeavesRest (S.left src.old) (S.left src.new) }
    ensures cause { IsErrOf result Status.ReadFault → Rose (S.faults src.old) (S.faults src.new) }
{
    match read_all(alloc, src, limit) {
        Ok(read) => Ok(read),
        Err(ReadingFault::Memory) => Err(Status::Memory),
        Err(ReadingFault::Failed) => Err(Status::ReadFault),
    }
}

/// Writes a reply's text. The status is the reply's, or WriteFault where a write failed.
fn write_reply<O: Sink>(out: &mut O, reply: &Reply) -> Status
    requires { IsAnswer reply.now.status }
    ensures written { IsWritten (outcome_with reply.now.status reply.now.text) (O.held out.old) (O.held out.new) result }
    ensures cause { result ≡ Status.WriteFault → Rose (O.faults out.old) (O.faults out.new) }
    ensures text { HasText result }
{
    match write_all(out, reply.text.slice()) {
        Ok(()) => reply.status,
        Err(_) => Status::WriteFault,
    }
}

/// Writes what a command made, or nothing where memory lacked for it.
pub(crate) fn write_made<O: Sink>(out: &mut O, made: Result<Reply, NoMemory>) -> Status
    requires { IfOk made (λ reply. IsAnswer reply.status) }
    ensures written { HasText result → IsWrittenOf made (O.held out.old) (O.held out.new) result }
    ensures output { LeavesOutput O.faults out.old out.new result }
    ensures no_read_fault { result ≢ Status.ReadFault }
{
    match made {
        Ok(reply) => write_reply(out, &reply),
        Err(_) => Status::Memory,
    }
}
