//! What lies under the lock.
ghost use Rattle.std.specs.Prelude.{◌≡◌, length, true, false, ◌||◌, IfErr, IfOk, OnOk, OnErr, option_copied};
ghost use Rattle.spec_kernel.specs.Words.{is_runnable};
ghost use Rattle.sys_run.specs.Sys.{is_working, state_of_run};
ghost use Rattle.kernel_lock.specs.Ends.{first_runnable_of, has_ended, is_member};
ghost use Rattle.kernel_lock.specs.Leaving.{IsLeft};
ghost use Rattle.kernel_lock.specs.Turning.{held, is_any_of, IsTurn, IsNext, stopped_by, with_refused};

pub mod looks;

use crate::running::looks::{AllIdle, Ended, GoesOn, Idle, Left, Marked};
use crate::share::TurnShare;
use crate::turns::{Next, ToNotify, Turn};
use dk_base::error::NoMemory;
use dk_base::list::TidList;
use dk_base::number::Tid;
use std::sync::ledger::{Book, Ledger};
use sys_run::asked::SharedRun;

/// The run, and whether it was stopped. As many turns are booked as the journal has events.
#[derive(Drop)]
pub struct Running<S: SharedRun, L: Ledger> {
    pub(crate) sys: S,
    /// Memory was wanting, so every driver leaves.
    pub(crate) stopped: bool,
    /// The threads whose start was refused.
    pub(crate) refused: Vec<Tid>,
    pub(crate) book: Book<L>,
    pub(crate) ghost booked: { book.total ≡ length (S.run sys).journal },
}

/// Whether a thread is one of these.
fn is_one_of(threads: &[Tid], t: Tid) -> bool
    ensures { result ≡ is_member threads.now t.0 }
{
    threads.iter().any(|other| other.0 == t.0)
}

/// Whether one of the woken threads is one of these.
fn is_any_one_of(threads: &[Tid], woken: &[Tid]) -> bool
    ensures { result ≡ is_any_of threads.now woken.now }
{
    woken.iter().any(|t| is_one_of(threads, *t))
}

/// Whom to notify, where a turn woke these threads and left the run over or not.
pub(crate) fn to_notify(refused: &[Tid], woken: TidList, over: bool) -> ToNotify
    ensures woken { result.woken ≡ woken }
    ensures calling { result.calling ≡ is_any_of refused.now woken }
    ensures over { result.over ≡ over }
{
    let calling = is_any_one_of(refused, woken.slice());
    ToNotify {
        woken,
        calling,
        over,
    }
}

/// The first of these threads that is runnable.
fn first_runnable<'a, S: SharedRun>(sys: &S, threads: &'a [Tid]) -> Option<&'a Tid>
    ensures { option_copied result ≡ first_runnable_of (state_of_run (S.run sys.now)) threads.now }
{
    threads.iter().find(|t| sys.runnable(**t))
}

impl<S: SharedRun, L: Ledger> Running<S, L> {
    /// A run that is not stopped, and these threads, whose start was refused.
    pub fn new(sys: S, refused: Vec<Tid>, book: Book<L>) -> Self
        requires { book.total ≡ length (S.run sys).journal }
        ensures { held (S.run result.sys) result.stopped result.refused.items 0 ≡ held (S.run sys) false refused.items 0 }
    {
        Running {
            sys,
            stopped: false,
            refused,
            book,
        }
    }

    /// A turn of a thread, where it may take one. A look that books a turn is one step, and names exactly the threads that the
    /// step made runnable. A thread that is at a task takes none here: its task is lent. Want of memory takes no turn, and stops
    /// the run.
    pub fn turn(&mut self, t: Tid, mine: &mut TurnShare<L>) -> Result<Turn<S>, NoMemory>
        ensures turn { IfOk result (IsTurn
            (held (S.run self.old.sys) self.old.stopped self.old.refused.items mine.old.turns)
            (held (S.run self.new.sys) self.new.stopped self.new.refused.items mine.new.turns)
            t.0) }
        ensures err { OnErr result (
            held (S.run self.new.sys) self.new.stopped self.new.refused.items mine.new.turns
            ≡ stopped_by (held (S.run self.old.sys) self.old.stopped self.old.refused.items mine.old.turns)) }
    {
        if self.has_ended() {
            return Ok(Turn::Ended);
        }
        if !self.sys.runnable(t) {
            return Ok(Turn::Waits(Idle::seen(&self.sys, t)));
        }
        if !self.sys.working(t) {
            return self.take(t, mine);
        }
        match self.sys.lend(t) {
            Ok(task) => Ok(Turn::Works(task)),
            Err(NoMemory) => {
                self.stopped = true;
                Err(NoMemory)
            }
        }
    }

    // A turn of a runnable thread that is at no task.
    fn take(&mut self, t: Tid, mine: &mut TurnShare<L>) -> Result<Turn<S>, NoMemory>
        requires can { is_runnable (state_of_run (S.run self.old.sys)) t.0 ≡ true }
        requires no_task { is_working (state_of_run (S.run self.old.sys)) t.0 ≡ false }
        requires goes_on { has_ended (S.run self.old.sys) self.old.stopped ≡ false }
        ensures turn { IfOk result (IsTurn
            (held (S.run self.old.sys) self.old.stopped self.old.refused.items mine.old.turns)
            (held (S.run self.new.sys) self.new.stopped self.new.refused.items mine.new.turns)
            t.0) }
        ensures err { OnErr result (
            held (S.run self.new.sys) self.new.stopped self.new.refused.items mine.new.turns
            ≡ stopped_by (held (S.run self.old.sys) self.old.stopped self.old.refused.items mine.old.turns)) }
    {
        let Running {
            sys,
            stopped,
            refused,
            book,
        } = self;
        sys.events();
        match sys.step(t) {
            Ok(woken) => {
                mine.book(book);
                let over = sys.over();
                Ok(Turn::Taken(to_notify(refused.as_slice(), woken, over)))
            }
            Err(NoMemory) => {
                *stopped = true;
                Err(NoMemory)
            }
        }
    }

    /// Stops the run, so that every driver leaves.
    pub fn stop(&mut self) -> Ended<S>
        ensures stopped { held (S.run self.new.sys) self.new.stopped self.new.refused.items 0
            ≡ stopped_by (held (S.run self.old.sys) self.old.stopped self.old.refused.items 0) }
        ensures look { result.stopped ≡ true }
    {
        self.stopped = true;
        Ended::seen(&self.sys, true)
    }

    /// Which thread whose start was refused is runnable.
    pub fn next_refused(&self) -> Next<S>
        ensures { IsNext (held (S.run self.now.sys) self.now.stopped self.now.refused.items 0) result }
    {
        let going = match self.standing() {
            Ok(going) => going,
            Err(ended) => return Next::Ended(ended),
        };
        match first_runnable(&self.sys, self.refused.as_slice()) {
            Some(t) => Next::Runnable(*t, going),
            None => Next::Waits(AllIdle::seen(&self.sys, &self.refused)),
        }
    }

    /// Marks a thread whose start was refused. Want of memory stops the run.
    pub fn refuse(&mut self, t: Tid) -> Result<Marked, Ended<S>>
        ensures marked { OnOk result (
            held (S.run self.new.sys) self.new.stopped self.new.refused.items 0
            ≡ with_refused (held (S.run self.old.sys) self.old.stopped self.old.refused.items 0) t) }
        ensures err { OnErr result (
            held (S.run self.new.sys) self.new.stopped self.new.refused.items 0
            ≡ stopped_by (held (S.run self.old.sys) self.old.stopped self.old.refused.items 0)) }
        ensures thread { IfOk result (λ look. look.thread ≡ t) }
        ensures look { IfErr result (λ look. look.stopped ≡ true) }
    {
        let Running {
            sys,
            stopped,
            refused,
            book: _,
        } = self;
        match refused.push(t) {
            Ok(()) => Ok(Marked::seen(refused, t)),
            Err(_) => {
                *stopped = true;
                Err(Ended::seen(sys, true))
            }
        }
    }

    /// Whether a driver of this thread is wanted: the run goes on, and its start was not refused. The error is why not.
    pub fn needs_driver(&self, t: Tid) -> Result<GoesOn<S>, Left<S>>
        ensures needs { OnOk result ((has_ended (S.run self.now.sys) self.now.stopped || is_member self.now.refused.items t.0) ≡ false) }
        ensures needs_none { OnErr result ((has_ended (S.run self.now.sys) self.now.stopped || is_member self.now.refused.items t.0) ≡ true) }
        ensures going { IfOk result (λ look. look.run.value ≡ self.now.sys) }
        ensures left { IfErr result (λ left. IsLeft t.0 left) }
    {
        let going = match self.standing() {
            Ok(going) => going,
            Err(ended) => return Err(Left::Ended(ended)),
        };
        if is_one_of(self.refused.as_slice(), t) {
            return Err(Left::Refused(Marked::seen(&self.refused, t)));
        }
        Ok(going)
    }

    /// How the run stands: what who looks does next.
    pub fn standing(&self) -> Result<GoesOn<S>, Ended<S>>
        ensures goes_on { OnOk result (has_ended (S.run self.now.sys) self.now.stopped ≡ false) }
        ensures ended { OnErr result (has_ended (S.run self.now.sys) self.now.stopped ≡ true) }
        ensures going { IfOk result (λ look. look.run.value ≡ self.now.sys) }
        ensures run { IfErr result (λ look. look.run.value ≡ self.now.sys) }
        ensures stopped { IfErr result (λ look. look.stopped ≡ self.now.stopped) }
    {
        if self.has_ended() {
            return Err(Ended::seen(&self.sys, self.stopped));
        }
        Ok(GoesOn::seen(&self.sys))
    }

    // Whether no turn may be taken any more.
    pub(crate) fn has_ended(&self) -> bool
        ensures { result ≡ has_ended (S.run self.now.sys) self.now.stopped }
    {
        self.stopped || self.sys.over()
    }
}
