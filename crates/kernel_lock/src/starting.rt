//! Starting the drivers and joining them.
ghost use Rattle.std.specs.Prelude.{◌≡◌, ◌+◌, ◌≤◌, ◌<◌, length, ◌^◌, sum, vec_len, vec_capacity, IfOk, OnOk};
ghost use Rattle.kernel_lock.specs.Leaving.{IsLeft};

use crate::driving::{Departed, drive, drive_refused};
use crate::running::looks::Left;
use crate::share::TurnShare;
use crate::shared::Shared;
use dk_base::error::NoMemory;
use dk_base::list::{CountList, Room};
use dk_base::number::Tid;
use dk_base::outside::Gate;
use std::alloc::Global;
use std::sync::Wait;
use std::sync::ledger::{Ledger, Share};
use std::thread::{JoinHandle, Scope, Threads};
use sys_run::asked::SharedRun;

/// A driver that was started, or one that left at once since its start was refused.
#[derive(Drop)]
enum Driver<S: SharedRun, L: Ledger> {
    Started(JoinHandle<Departed<S, L>>),
    Refused(Departed<S, L>),
}

impl<S: SharedRun, L: Ledger> Driver<S, L> {
    /// Waits until the driver has left, and gives its share.
    fn join<R: Threads>(self, rt: &R) -> TurnShare<L> {
        let (share, _) = match self {
            Driver::Started(handle) => handle.join(rt),
            Driver::Refused(departed) => departed,
        };
        share
    }
}

/// What all drivers took, by thread, and what the calling thread took.
#[derive(Drop)]
pub struct Driven<L: Ledger> {
    pub(crate) all: Share<L>,
    pub(crate) by: CountList,
    pub(crate) tail: u64,
}

/// A share for each thread.
fn split<L: Ledger>(
    alloc: Global,
    rest: &mut Share<L>,
    threads: u32,
) -> Result<Vec<TurnShare<L>>, NoMemory>
    requires parts { threads < rest.old.parts }
    requires amount { rest.old.amount ≡ 0 }
    ensures count { IfOk result (λ shares. vec_len shares ≡ threads) }
    ensures parts { OnOk result (rest.new.parts + threads ≡ rest.old.parts) }
    ensures amount { rest.new.amount ≡ 0 }
{
    let mut shares = Vec::new(alloc);
    for _ in 0..threads {
        if shares.push(TurnShare::new(rest.split_off(1, 0))).is_err() {
            return Err(NoMemory);
        }
    }
    Ok(shares)
}

fn room_for<S: SharedRun, L: Ledger>(
    alloc: Global,
    threads: usize,
) -> Result<Vec<Driver<S, L>>, NoMemory>
    ensures room { IfOk result (λ room. threads ≤ vec_capacity room) }
    ensures empty { IfOk result (λ room. vec_len room ≡ 0) }
{
    match Vec::with_capacity(alloc, threads) {
        Ok(room) => Ok(room),
        Err(_) => Err(NoMemory),
    }
}

/// Marks a thread that the calling thread drives. Where memory for the mark is wanting, the run is stopped.
fn refuse<S: SharedRun, L: Ledger, R: Wait>(rt: &R, shared: &Shared<S, L>, t: Tid) -> Left<S>
    ensures { IsLeft t.0 result }
{
    let marked = shared.running.lock(rt).refuse(t);
    match marked {
        Ok(mark) => Left::Refused(mark),
        Err(ended) => {
            shared.notify_all();
            Left::Ended(ended)
        }
    }
}

/// Starts the driver of a thread. A refused start hands its closure back: the thread is marked, and the closure gives its share
/// back at once.
fn start<
    's,
    E,
    S: SharedRun + Send + 's,
    L: Ledger + Send + Sync + 's,
    G: Gate + Sync + 's,
    R: Threads + Wait + Sync + 's,
>(
    rt: &'s R,
    scope: &Scope<'s, E>,
    shared: &'s Shared<S, L>,
    gate: &'s G,
    t: Tid,
    share: TurnShare<L>,
) -> Driver<S, L> {
    match scope.spawn(move || drive(rt, shared, t, gate, share)) {
        Ok(handle) => Driver::Started(handle),
        Err(refused) => {
            refuse(rt, shared, t);
            Driver::Refused((refused.value)())
        }
    }
}

/// Starts the drivers of the first `most` threads, and refuses those of the others. Their list has its room already.
fn start_all<
    's,
    E,
    S: SharedRun + Send + 's,
    L: Ledger + Send + Sync + 's,
    G: Gate + Sync + 's,
    R: Threads + Wait + Sync + 's,
>(
    rt: &'s R,
    scope: &Scope<'s, E>,
    shared: &'s Shared<S, L>,
    gate: &'s G,
    shares: Vec<TurnShare<L>>,
    room: Vec<Driver<S, L>>,
    most: u32,
) -> Vec<Driver<S, L>>
    requires few { vec_len shares < 2 ^ 32 }
    requires empty { vec_len room ≡ 0 }
    requires room { vec_len shares ≤ vec_capacity room }
    ensures { vec_len result ≡ vec_len shares }
{
    let mut drivers = room;
    let mut number = 0;
    for share in shares {
        number += 1;
        let driver = if number <= most {
            start(rt, scope, shared, gate, Tid(number), share)
        } else {
            let why = refuse(rt, shared, Tid(number));
            Driver::Refused((share, why))
        };
        drivers.push_reserved(driver);
    }
    drivers
}

/// Waits until all drivers have left, and adds their shares up.
fn join_all<S: SharedRun, L: Ledger, R: Threads>(
    rt: &R,
    drivers: Vec<Driver<S, L>>,
    all: &mut Share<L>,
    by: &mut Room<u64>,
)
    requires { vec_len drivers ≤ by.old.spare }
    ensures parts { all.new.parts ≡ all.old.parts + vec_len drivers }
    ensures amount { all.new.amount + sum by.old.items ≡ all.old.amount + sum by.new.items }
    ensures count { length by.new.items ≡ length by.old.items + vec_len drivers }
{
    for driver in drivers {
        let share = driver.join(rt);
        by.push(share.turns());
        all.merge(share.into_share());
    }
}

/// Starts all drivers, drives from the calling thread those that could not be started, and joins all.
pub(crate) fn drive_all<
    's,
    E,
    S: SharedRun + Send + 's,
    L: Ledger + Send + Sync + 's,
    G: Gate + Sync + 's,
    R: Threads + Wait + Sync + 's,
>(
    rt: &'s R,
    alloc: Global,
    scope: &Scope<'s, E>,
    shared: &'s Shared<S, L>,
    gate: &'s G,
    threads: u32,
    most: u32,
    all: Share<L>,
) -> Result<Driven<L>, NoMemory>
    requires parts { all.parts ≡ threads + 1 }
    requires amount { all.amount ≡ 0 }
    ensures parts { IfOk result (λ driven. driven.all.parts ≡ threads + 1) }
    ensures amount { IfOk result (λ driven. driven.all.amount ≡ sum driven.by + driven.tail) }
    ensures count { IfOk result (λ driven. length driven.by ≡ threads) }
{
    let mut all = all;
    let shares = split(alloc, &mut all, threads)?;
    let room = room_for(alloc, threads as usize)?;
    let mut by = Room::with_room(alloc, threads as usize)?;
    let drivers = start_all(rt, scope, shared, gate, shares, room, most);
    let (mine, _) = drive_refused(rt, shared, gate, TurnShare::new(all));
    let tail = mine.turns();
    let mut all = mine.into_share();
    join_all(rt, drivers, &mut all, &mut by);
    Ok(Driven {
        all,
        by: by.into_list(),
        tail,
    })
}
