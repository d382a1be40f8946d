//! What a kernel does not answer.
ghost use Rattle.std.specs.Prelude.{◌≡◌, IfOk};
ghost use Rattle.spec_kernel.specs.Words.{StandsFor, State};
ghost use Rattle.spec_histories.specs.Replies.{refusal};

use crate::call::{SeatAct, SeatReply};
use dk_base::error::NoMemory;
use dk_base::number::Tid;
use spec_kernel::answering::Answers;
use spec_records::record::ThreadState;
use std::alloc::Global;

fn two_copies(alloc: Global, state: &ThreadState) -> Result<(ThreadState, ThreadState), NoMemory>
    ensures { IfOk result (λ copies. (copies.0 ≡ state.now) × (copies.1 ≡ state.now)) }
{
    let copy = state.copy(alloc)?;
    Ok((copy, state.copy(alloc)?))
}

/// What a call is refused with, twice.
pub fn refusals<K: Answers>(
    alloc: Global,
    kernel: &K,
    thread: Tid,
    act: &SeatAct,
) -> Result<(SeatReply, SeatReply), NoMemory>
    ensures kept { IfOk result (λ r. (m : State) → StandsFor (K.keeps kernel.now) m → r.0 ≡ refusal m thread.0 act.now) }
    ensures told { IfOk result (λ r. r.1 ≡ r.0) }
{
    match act {
        SeatAct::Enter(_) => {
            let (kept, told) = two_copies(alloc, kernel.state(thread))?;
            Ok((SeatReply::NotRunning(kept), SeatReply::NotRunning(told)))
        }
        SeatAct::GoOn => Ok((SeatReply::NotReady, SeatReply::NotReady)),
    }
}
