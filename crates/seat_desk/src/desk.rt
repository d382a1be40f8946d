//! A kernel with the history of its calls.
ghost use Rattle.std.specs.Prelude.{◌≡◌, ◌≤◌, [], ◌∷◌, ◌++◌, IfErr, IfOk, OnErr, length};
ghost use Rattle.seat_table.specs.declared.limits.TheConstants.{HISTORY_MAX};
ghost use Rattle.seat_desk.specs.History.{IsFitAct, IsLegal, by};

use crate::opening::Opening;
use crate::replies::{Replied, reply};
use dk_base::error::NoMemory;
use dk_base::list::Room;
use dk_base::number::Tid;
use seat_table::Recorded;
use spec_histories::call::{SeatAct, SeatReply};
use spec_histories::entry::SeatEntry;
use spec_kernel::answering::Answers;
use std::alloc::{AllocFailed, Global};
use std::marker::{Model, PhantomData};

/// A kernel with the history of its calls. Contracts see it as the history, which is legal. The kernel is in a box, for a desk is moved at each turn.
pub struct Desk<K: Answers, J: Opening> {
    alloc: Global,
    kernel: Box<K>,
    history: Room<SeatEntry>,
    of: PhantomData<J>,
}

/// By hand, so that dropping a desk is one call for its holder.
impl<K: Answers, J: Opening> Drop for Desk<K, J> {
    fn drop(self) {
        let Desk {
            alloc: _,
            kernel: _,
            history: _,
            of: _,
        } = self;
    }
}

impl<K: Answers, J: Opening> Model for Desk<K, J> {
    ghost use Rattle.std.specs.Prelude.{List};
    ghost use Rattle.spec_histories.specs.declared.entry.SeatEntry.{SeatEntry};
    ghost use Rattle.seat_desk.specs.Desk.{IsDesk};

    ghost Value = { List SeatEntry };

    ghost view = { λ d. d.history.items };

    ghost invariant = { λ d. IsDesk J.opening (K.keeps d.kernel.value) d.history.items };
}

impl<K: Answers, J: Opening> Recorded<SeatEntry> for Desk<K, J> {
    ghost history = { λ d. d };

    ghost seat = { λ e. e.seat };
}

impl<K: Answers, J: Opening> Desk<K, J> {
    /// A desk without entries. Where memory runs out the kernel comes back in its state.
    pub fn new(alloc: Global, kernel: K) -> Result<Self, K>
        requires opening { K.keeps kernel ≡ J.opening }
        requires no_event { (K.keeps kernel).events ≡ 0 }
        ensures ok { IfOk result (λ d. d ≡ []) }
        ensures err { IfErr result (λ k. K.keeps k ≡ K.keeps kernel) }
    {
        let _ = kernel.events();
        match Box::new(alloc, kernel) {
            Ok(kernel) => Ok(Desk {
                alloc,
                kernel,
                history: Room::new(alloc),
                of: PhantomData,
            }),
            Err(AllocFailed { value }) => Err(value),
        }
    }

    /// The kernel of a desk without entries, in the state that it came with.
    pub fn into_kernel(self) -> K
        requires { self ≡ [] }
        ensures { K.keeps result ≡ J.opening }
    {
        let Desk {
            alloc: _,
            kernel,
            history: _,
            of: _,
        } = self;
        Box::into_inner(kernel)
    }

    /// One call. The kernel's own call is the last that may answer want of memory, which leaves the desk as it was.
    pub fn make(
        &mut self,
        seat: u32,
        number: u64,
        thread: Tid,
        act: SeatAct,
    ) -> Result<SeatReply, NoMemory>
        requires number { number ≡ length (by seat self.old) }
        requires fit { IsFitAct J.opening thread.0 act }
        requires few { length self.old ≤ HISTORY_MAX }
        ensures done { IfOk result (λ r. self.new ≡ self.old ++ record { seat = seat; number = number; thread = thread; act = act; reply = r } ∷ []) }
        ensures legal { IfOk result (λ _. IsLegal J.opening self.new) }
        ensures err { OnErr result (self.new ≡ self.old) }
    {
        self.history.reserve(1)?;
        let Replied { act, kept, told } = reply(self.alloc, &mut *self.kernel, thread, act)?;
        self.history.push(SeatEntry {
            seat,
            number,
            thread,
            act,
            reply: kept,
        });
        Ok(told)
    }
}
