//! Handing in what a driver computed without the lock.
ghost use Rattle.std.specs.Prelude.{◌≡◌, false, IfOk, OnErr};
ghost use Rattle.sys_run.specs.Sys.{WorksOn};
ghost use Rattle.kernel_lock.specs.Ends.{has_ended};
ghost use Rattle.kernel_lock.specs.Turning.{held, IsHandedIn, stopped_by};

use crate::running::{Running, to_notify};
use crate::share::TurnShare;
use crate::turns::HandedIn;
use dk_base::error::NoMemory;
use dk_base::number::Tid;
use std::sync::ledger::Ledger;
use sys_run::asked::SharedRun;
use work_ops::task::Done;

impl<S: SharedRun, L: Ledger> Running<S, L> {
    /// The end of a thread's task, where the thread is at the one that was done and the run goes on; else what was done is
    /// dropped. A hold that books a turn is one `SharedRun::hand_in`, and names exactly the threads that it made runnable. Want of
    /// memory takes no turn, and stops the run.
    pub fn hand_in(
        &mut self,
        t: Tid,
        done: Done,
        mine: &mut TurnShare<L>,
    ) -> Result<HandedIn, NoMemory>
        ensures handed { IfOk result (IsHandedIn
            (held (S.run self.old.sys) self.old.stopped self.old.refused.items mine.old.turns)
            (held (S.run self.new.sys) self.new.stopped self.new.refused.items mine.new.turns)
            t.0 done) }
        ensures err { OnErr result (
            held (S.run self.new.sys) self.new.stopped self.new.refused.items mine.new.turns
            ≡ stopped_by (held (S.run self.old.sys) self.old.stopped self.old.refused.items mine.old.turns)) }
    {
        if self.has_ended() {
            return Ok(HandedIn::Ended);
        }
        if !self.sys.works_on(t, &done) {
            return Ok(HandedIn::Dropped);
        }
        self.end_task(t, done, mine)
    }

    // The end of the task that a thread is at.
    fn end_task(
        &mut self,
        t: Tid,
        done: Done,
        mine: &mut TurnShare<L>,
    ) -> Result<HandedIn, NoMemory>
        requires works { WorksOn (S.run self.old.sys) t.0 done }
        requires goes_on { has_ended (S.run self.old.sys) self.old.stopped ≡ false }
        ensures handed { IfOk result (IsHandedIn
            (held (S.run self.old.sys) self.old.stopped self.old.refused.items mine.old.turns)
            (held (S.run self.new.sys) self.new.stopped self.new.refused.items mine.new.turns)
            t.0 done) }
        ensures err { OnErr result (
            held (S.run self.new.sys) self.new.stopped self.new.refused.items mine.new.turns
            ≡ stopped_by (held (S.run self.old.sys) self.old.stopped self.old.refused.items mine.old.turns)) }
    {
        let Running {
            sys,
            stopped,
            refused,
            book,
        } = self;
        sys.events();
        match sys.hand_in(t, done) {
            Ok(woken) => {
                mine.book(book);
                let over = sys.over();
                Ok(HandedIn::Taken(to_notify(refused.as_slice(), woken, over)))
            }
            Err(NoMemory) => {
                *stopped = true;
                Err(NoMemory)
            }
        }
    }
}
