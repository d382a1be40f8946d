//! `doorlab history`: the verdict on a history, from what is read to what is written.

ghost use Rattle.std.specs.Prelude.{◌≡◌, ◌≢◌, IfErr, IfOk, IsErrOf};
ghost use Rattle.dk_base.specs.Words.{Rose};
ghost use Rattle.dk_base.specs.Input.{LeavesRest};
ghost use Rattle.history_check.specs.declared.verdict.Verdict.{Verdict};
ghost use Rattle.doorlab.specs.History.{Answered, HasText, IsAnswer, IsRead, IsReplyTo, IsWritten, IsWrittenOf, LeavesInput, LeavesOutput, verdict_of};
ghost use Rattle.doorlab.specs.Status.{status_of_verdict};

use crate::status::Status;
use dk_base::error::NoMemory;
use dk_base::list::Bytes;
use dk_base::outside::{Sink, Source};
use dk_base::reading::{ReadText, ReadingFault, read_all};
use dk_base::writing::write_all;
use history_check::{Verdict, check, text_of_verdict};
use line_forms::reason::Reason;
use spec_histories::recorded::RecordsHistory;
use std::alloc::Global;

/// The most bytes of a text. A million events of the longest lines have less.
pub const HISTORY_LIMIT: usize = 1_099_511_627_776;

/// A status with the text that goes with it.
#[derive(Drop)]
pub(crate) struct Reply {
    pub(crate) status: Status,
    pub(crate) text: Bytes,
}

fn status_of(found: &Verdict) -> Status
    ensures value { result ≡ status_of_verdict found.now }
    ensures answer { IsAnswer result }
{
    match found {
        Verdict::Legal { .. } => Status::Done,
        Verdict::Cut { .. } | Verdict::Bad { .. } => Status::Bad,
        Verdict::Illegal { .. } => Status::Illegal,
    }
}

/// The verdict on what was read.
fn verdict_on<K: RecordsHistory>(alloc: Global, read: &ReadText) -> Result<Verdict, NoMemory>
    ensures { IfOk result (λ found. found ≡ verdict_of read.now) }
{
    match read {
        ReadText::Whole(text) => check::<K>(alloc, text.slice()),
        ReadText::TooLong => Ok(Verdict::Bad {
            line: 0,
            reason: Reason::Size,
        }),
    }
}

fn reply_for<K: RecordsHistory>(alloc: Global, read: &ReadText) -> Result<Reply, NoMemory>
    ensures told { IfOk result (IsReplyTo (verdict_of read.now)) }
    ensures answer { IfOk result (λ reply. IsAnswer reply.status) }
{
    let found = verdict_on::<K>(alloc, read)?;
    let text = text_of_verdict(alloc, &found)?;
    Ok(Reply {
        status: status_of(&found),
        text,
    })
}

/// Reads the history. Where memory lacks or a read fails, the status is that.
fn read_history<S: Source>(alloc: Global, src: &mut S) -> Result<ReadText, Status>
    ensures read { IfOk result (IsRead (S.left src.old) (S.left src.new)) }
    ensures no_text { IfErr result (λ status. HasText status → ⊥) }
    ensures rest { LeavesRest (S.left src.old) (S.left src.new) }
    ensures cause { IsErrOf result Status.ReadFault → Rose (S.faults src.old) (S.faults src.new) }
{
    match read_all(alloc, src, HISTORY_LIMIT) {
        Ok(read) => Ok(read),
        Err(ReadingFault::Memory) => Err(Status::Memory),
        Err(ReadingFault::Failed) => Err(Status::ReadFault),
    }
}

/// Writes a reply's text. The status is the reply's, or WriteFault where a write failed.
fn write_reply<O: Sink>(out: &mut O, reply: &Reply) -> Status
    requires { IsAnswer reply.now.status }
    ensures written { (found : Verdict) → IsReplyTo found reply.now → IsWritten found (O.held out.old) (O.held out.new) result }
    ensures cause { result ≡ Status.WriteFault → Rose (O.faults out.old) (O.faults out.new) }
    ensures text { HasText result }
{
    match write_all(out, reply.text.slice()) {
        Ok(()) => reply.status,
        Err(_) => Status::WriteFault,
    }
}

/// Writes what was made, or nothing where memory lacked for it.
fn write_made<O: Sink>(out: &mut O, made: Result<Reply, NoMemory>) -> Status
    requires { IfOk made (λ reply. IsAnswer reply.status) }
    ensures written { HasText result → IsWrittenOf made (O.held out.old) (O.held out.new) result }
    ensures output { LeavesOutput O.faults out.old out.new result }
    ensures no_read_fault { result ≢ Status.ReadFault }
{
    match made {
        Ok(reply) => write_reply(out, &reply),
        Err(_) => Status::Memory,
    }
}

/// Reads a text to its end, and writes the verdict on it, with its status. An answer comes with its whole text, WriteFault with a front
/// of it. With ReadFault and with Memory the output is as it was. What is left of the input is the end of what was left.
pub(crate) fn answer_history<K: RecordsHistory, S: Source, O: Sink>(
    alloc: Global,
    src: &mut S,
    out: &mut O,
) -> Status
    ensures answer { HasText result → Answered (S.left src.old) (S.left src.new) (O.held out.old) (O.held out.new) result }
    ensures input { LeavesInput S.left S.faults src.old src.new result }
    ensures output { LeavesOutput O.faults out.old out.new result }
{
    match read_history(alloc, src) {
        Ok(read) => write_made(out, reply_for::<K>(alloc, &read)),
        Err(fault) => fault,
    }
}
