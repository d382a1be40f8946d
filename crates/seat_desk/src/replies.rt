//! The kernel's reply to a call, once for the caller and once for the history.
ghost use Rattle.std.specs.Prelude.{◌≡◌, ◌<◌, IfOk, OnErr};
ghost use Rattle.dk_base.specs.declared.limits.TheConstants.{EVENTS_MAX};
ghost use Rattle.spec_kernel.specs.Words.{StandsFor, State};
ghost use Rattle.spec_histories.specs.Replies.{IsFitAct, is_answered, reply_of, state_by};

use dk_base::error::NoMemory;
use dk_base::number::Tid;
use spec_histories::asked::Asked;
use spec_histories::call::{SeatAct, SeatReply};
use spec_histories::refusal::refusals;
use spec_kernel::answering::Answers;
use std::alloc::Global;

/// A call with its reply, for the history, and the same reply for the caller.
pub struct Replied {
    pub act: SeatAct,
    pub kept: SeatReply,
    pub told: SeatReply,
}

/// Whether the kernel answers the call.
fn is_answered<K: Answers>(kernel: &K, thread: Tid, act: &SeatAct) -> bool
    ensures kept { result ≡ is_answered (K.keeps kernel.now) thread.0 act.now }
    ensures stands { (m : State) → StandsFor (K.keeps kernel.now) m → result ≡ is_answered m thread.0 act.now }
{
    match act {
        SeatAct::Enter(_) => kernel.is_running(thread),
        SeatAct::GoOn => kernel.runnable(thread) && !kernel.is_running(thread),
    }
}

/// The kernel's own call is the last that may answer want of memory, which leaves the kernel as it was.
pub fn reply<K: Answers>(
    alloc: Global,
    kernel: &mut K,
    thread: Tid,
    act: SeatAct,
) -> Result<Replied, NoMemory>
    requires fit { IsFitAct (K.keeps kernel.old) thread.0 act }
    requires few { (K.keeps kernel.old).events < EVENTS_MAX }
    ensures act { IfOk result (λ r. r.act ≡ act) }
    ensures kept { IfOk result (λ r. (m : State) → StandsFor (K.keeps kernel.old) m → r.kept ≡ reply_of m thread.0 act) }
    ensures told { IfOk result (λ r. r.told ≡ r.kept) }
    ensures state { IfOk result (λ _. (m : State) → StandsFor (K.keeps kernel.old) m → StandsFor (K.keeps kernel.new) (state_by m thread.0 act)) }
    ensures err { OnErr result (K.keeps kernel.new ≡ K.keeps kernel.old) }
{
    let asked = Asked::new(alloc, &act)?;
    if is_answered(kernel, thread, &act) {
        let answer = kernel.turn(thread, act.into_request())?.answer;
        let Asked { act, room } = asked;
        Ok(Replied {
            act,
            told: SeatReply::Answer(room.fill(&answer)),
            kept: SeatReply::Answer(answer),
        })
    } else {
        let (kept, told) = refusals(alloc, kernel, thread, &act)?;
        Ok(Replied { act, kept, told })
    }
}
