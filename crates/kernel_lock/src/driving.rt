//! The loops of those who take turns. Each goes on by a look that found that the run goes on, and leaves by one that found why.
ghost use Rattle.std.specs.Prelude.{◌≡◌, IfErr, IfOk, true};
ghost use Rattle.kernel_lock.specs.Ends.{has_ended};
ghost use Rattle.kernel_lock.specs.Leaving.{IsLeft};

use crate::running::looks::{Ended, GoesOn, Left};
use crate::share::TurnShare;
use crate::shared::Shared;
use crate::turns::{HandedIn, Next, Turn};
use dk_base::error::NoMemory;
use dk_base::number::Tid;
use dk_base::outside::Gate;
use std::sync::Wait;
use std::sync::ledger::Ledger;
use sys_run::asked::SharedRun;
use work_ops::task::{Done, Task, run};

/// What a driver that has left gives back: its share, and why it left.
pub type Departed<S, L> = (TurnShare<L>, Left<S>);

/// What a driver does after a look under the lock, while the run goes on: it computes this task and hands it in, or looks again.
#[derive(Drop)]
struct Pass<S: SharedRun> {
    task: Option<Task>,
    going: GoesOn<S>,
}

/// Notifies those whom a look woke. How the run stood then decides what the driver does next.
fn after<S: SharedRun, L: Ledger>(
    shared: &Shared<S, L>,
    turn: Result<Turn<S>, NoMemory>,
    standing: Result<GoesOn<S>, Ended<S>>,
) -> Result<Pass<S>, Ended<S>> {
    let task = match turn {
        Ok(Turn::Works(task)) => Some(task),
        Ok(Turn::Taken(whom)) => {
            shared.notify(&whom);
            None
        }
        Ok(Turn::Waits(_idle)) => None,
        Ok(Turn::Ended) => None,
        Err(NoMemory) => {
            shared.notify_all();
            None
        }
    };
    Ok(Pass {
        task,
        going: standing?,
    })
}

/// Waits until a thread is runnable, and takes its turn or is lent its task.
fn take_turn<S: SharedRun, L: Ledger, R: Wait>(
    rt: &R,
    shared: &Shared<S, L>,
    t: Tid,
    mine: &mut TurnShare<L>,
) -> Result<Pass<S>, Ended<S>> {
    let mut held = shared.running.lock(rt);
    for _ in rt.forever() {
        match held.turn(t, mine) {
            Ok(Turn::Waits(idle)) => held = shared.condvar(idle.into_thread()).wait(rt, held),
            turn => {
                let standing = held.standing();
                drop(held);
                return after(shared, turn, standing);
            }
        }
    }
    unreachable!()
}

/// Stops the run, since memory is wanting.
fn stop<S: SharedRun, L: Ledger, R: Wait>(rt: &R, shared: &Shared<S, L>) -> Ended<S>
    ensures { result.stopped ≡ true }
{
    let ended = shared.running.lock(rt).stop();
    shared.notify_all();
    ended
}

/// Computes a task without the lock. Where memory for it is wanting, the run is stopped.
fn compute<S: SharedRun, L: Ledger, R: Wait>(
    rt: &R,
    shared: &Shared<S, L>,
    task: Task,
) -> Result<Done, Ended<S>>
    ensures done { IfOk result (λ done. done ≡ task) }
    ensures stopped { IfErr result (λ look. look.stopped ≡ true) }
{
    match run(shared.alloc, task) {
        Ok(done) => Ok(done),
        Err(_) => Err(stop(rt, shared)),
    }
}

/// Hands in what was computed for a thread.
fn hand_in<S: SharedRun, L: Ledger, R: Wait>(
    rt: &R,
    shared: &Shared<S, L>,
    t: Tid,
    done: Done,
    mine: &mut TurnShare<L>,
) -> Result<GoesOn<S>, Ended<S>> {
    let mut held = shared.running.lock(rt);
    let handed = held.hand_in(t, done, mine);
    let next = held.standing();
    drop(held);
    match handed {
        Ok(HandedIn::Taken(whom)) => shared.notify(&whom),
        Ok(HandedIn::Dropped) | Ok(HandedIn::Ended) => {}
        Err(NoMemory) => shared.notify_all(),
    }
    next
}

/// Goes on after a look for a thread: a task that was lent is computed without the lock, and handed in once the gate is passed
/// again.
fn go_on<G: Gate, S: SharedRun, L: Ledger, R: Wait>(
    rt: &R,
    shared: &Shared<S, L>,
    t: Tid,
    gate: &G,
    mine: &mut TurnShare<L>,
    pass: Pass<S>,
) -> Result<GoesOn<S>, Ended<S>> {
    let Pass { task, going } = pass;
    let Some(task) = task else {
        return Ok(going);
    };
    let done = compute(rt, shared, task)?;
    going.pass(gate, t);
    hand_in(rt, shared, t, done, mine)
}

/// Passes the gate, and takes a turn of a thread.
fn take_next<G: Gate, S: SharedRun, L: Ledger, R: Wait>(
    rt: &R,
    shared: &Shared<S, L>,
    t: Tid,
    gate: &G,
    mine: &mut TurnShare<L>,
    going: GoesOn<S>,
) -> Result<GoesOn<S>, Ended<S>> {
    going.pass(gate, t);
    let pass = take_turn(rt, shared, t, mine)?;
    go_on(rt, shared, t, gate, mine, pass)
}

/// Drives one thread: passes the gate without the lock, waits until its thread is runnable, and takes its turn, until the run
/// has ended. A task it computes without the lock, and passes the gate again before it hands that in. It leaves only where a look
/// found that the run had ended, or, before its first turn, that the thread's start is marked as refused; after want of memory
/// the run is stopped. Its share's number is the turns that it took.
pub fn drive<G: Gate, S: SharedRun, L: Ledger, R: Wait>(
    rt: &R,
    shared: &Shared<S, L>,
    t: Tid,
    gate: &G,
    share: TurnShare<L>,
) -> Departed<S, L>
    ensures { IsLeft t.0 result.1 }
{
    let mut share = share;
    let mut going = match shared.running.lock(rt).needs_driver(t) {
        Ok(going) => going,
        Err(why) => return (share, why),
    };
    for _ in rt.forever() {
        match take_next(rt, shared, t, gate, &mut share, going) {
            Ok(next) => going = next,
            Err(ended) => return (share, Left::Ended(ended)),
        }
    }
    unreachable!()
}

/// Waits until a thread whose start was refused is runnable.
fn next_refused<S: SharedRun, L: Ledger, R: Wait>(
    rt: &R,
    shared: &Shared<S, L>,
) -> Result<(Tid, GoesOn<S>), Ended<S>> {
    let mut held = shared.running.lock(rt);
    for _ in rt.forever() {
        match held.next_refused() {
            Next::Waits(idle) => held = shared.calling(idle).wait(rt, held),
            Next::Runnable(t, going) => return Ok((t, going)),
            Next::Ended(ended) => return Err(ended),
        }
    }
    unreachable!()
}

/// A turn or the task of a thread whose start was refused, if it is still runnable.
fn take_refused<S: SharedRun, L: Ledger, R: Wait>(
    rt: &R,
    shared: &Shared<S, L>,
    t: Tid,
    mine: &mut TurnShare<L>,
) -> Result<Pass<S>, Ended<S>> {
    let mut held = shared.running.lock(rt);
    let turn = held.turn(t, mine);
    let standing = held.standing();
    drop(held);
    after(shared, turn, standing)
}

/// Waits until a thread whose start was refused is runnable, passes the gate, and takes its turn.
fn take_next_refused<G: Gate, S: SharedRun, L: Ledger, R: Wait>(
    rt: &R,
    shared: &Shared<S, L>,
    gate: &G,
    mine: &mut TurnShare<L>,
) -> Result<GoesOn<S>, Ended<S>> {
    let (t, going) = next_refused(rt, shared)?;
    going.pass(gate, t);
    let pass = take_refused(rt, shared, t, mine)?;
    go_on(rt, shared, t, gate, mine, pass)
}

/// Drives all threads whose start was refused, from the calling thread. It waits only while none of them is runnable, and leaves
/// only where a look found that the run had ended.
pub(crate) fn drive_refused<G: Gate, S: SharedRun, L: Ledger, R: Wait>(
    rt: &R,
    shared: &Shared<S, L>,
    gate: &G,
    share: TurnShare<L>,
) -> (TurnShare<L>, Ended<S>)
    ensures { has_ended (S.run result.1.run.value) result.1.stopped ≡ true }
{
    let mut share = share;
    for _ in rt.forever() {
        match take_next_refused(rt, shared, gate, &mut share) {
            Ok(_) => {}
            Err(ended) => return (share, ended),
        }
    }
    unreachable!()
}
