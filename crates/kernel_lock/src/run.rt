//! A whole run of a script on threads.
ghost use Rattle.std.specs.Prelude.{◌≡◌, ◌+◌, ◌<◌, ◌≤◌, ◌^◌, [], length, sum, true, false, IfOk, OnOk};
ghost use Rattle.spec_scripts.specs.Words.{is_over};
ghost use Rattle.sys_run.specs.Words.{LawsOf, history};

use crate::running::Running;
use crate::shared::Shared;
use crate::starting::{Driven, drive_all};
use dk_base::error::NoMemory;
use dk_base::list::{CountList, Room};
use dk_base::outside::Gate;
use script_lang::script::Script;
use std::alloc::Global;
use std::marker::Brand;
use std::sync::Wait;
use std::sync::ledger::{Blank, Ledger, Share};
use std::thread;
use std::thread::Threads;
use sys_run::asked::SharedRun;
use sys_run::sys::Sys;

/// A run, and who took its turns. All of them together are its events.
#[derive(Drop)]
pub struct Ran {
    /// The run, which is over.
    pub sys: Sys,
    /// How many turns the driver of each thread of the script booked, in order.
    pub by: CountList,
    /// How many turns the calling thread took, 0 to the number of events.
    pub tail: u64,
}

/// A run after the joins, and who took its turns. All of them together are its events.
#[derive(Drop)]
struct Joined<S> {
    sys: S,
    by: CountList,
    tail: u64,
}

/// Drives all threads, and returns once all drivers have left.
fn drive_in_scope<
    S: SharedRun + Send,
    L: Ledger + Send + Sync,
    G: Gate + Sync,
    R: Threads + Wait + Sync,
>(
    rt: &R,
    alloc: Global,
    shared: &Shared<S, L>,
    gate: &G,
    threads: u32,
    most: u32,
    all: Share<L>,
) -> Result<Driven<L>, NoMemory>
    requires parts { all.parts ≡ threads + 1 }
    requires amount { all.amount ≡ 0 }
    ensures parts { IfOk result (λ driven. driven.all.parts ≡ threads + 1) }
    ensures amount { IfOk result (λ driven. driven.all.amount ≡ sum driven.by + driven.tail) }
    ensures count { IfOk result (λ driven. length driven.by ≡ threads) }
{
    thread::scope(
        thread::scope_env(),
        rt,
        move |scope| -> Result<Driven<L>, NoMemory>
            requires parts { all.parts ≡ threads + 1 }
            requires amount { all.amount ≡ 0 }
            ensures parts { IfOk result (λ driven. driven.all.parts ≡ threads + 1) }
            ensures amount { IfOk result (λ driven. driven.all.amount ≡ sum driven.by + driven.tail) }
            ensures count { IfOk result (λ driven. length driven.by ≡ threads) }
        { drive_all(rt, alloc, scope, shared, gate, threads, most, all) },
    )
}

/// The run after the joins. With all parts of the ledger, what was booked is what the journal has.
fn after_joins<S: SharedRun, L: Ledger>(
    shared: Shared<S, L>,
    driven: Driven<L>,
) -> Result<Joined<S>, NoMemory>
    requires parts { driven.all.parts ≡ L.parts }
    requires amount { driven.all.amount ≡ sum driven.by + driven.tail }
    ensures sum { IfOk result (λ joined. length (S.run joined.sys).journal ≡ sum joined.by + joined.tail) }
    ensures by { IfOk result (λ joined. joined.by ≡ driven.by) }
{
    let Driven { mut all, by, tail } = driven;
    let Running {
        sys,
        stopped,
        refused: _,
        mut book,
    } = shared.into_running();
    if stopped {
        return Err(NoMemory);
    }
    book.audit(&mut all);
    Ok(Joined { sys, by, tail })
}

/// Drives all threads of a run that has no event yet, as far as the drivers take it.
fn run_until_joined<
    S: SharedRun + Send,
    L: Ledger + Send + Sync,
    G: Gate + Sync,
    R: Threads + Wait + Sync,
>(rt: &R, alloc: Global, blank: Blank, sys: S, gate: &G, most: u32) -> Result<Joined<S>, NoMemory>
    requires name { blank.name ≡ L.name }
    requires parts { blank.parts ≡ L.parts }
    requires one_each { blank.parts ≡ length (S.run sys).script.threads + 1 }
    requires empty { (S.run sys).journal ≡ [] }
    ensures sum { IfOk result (λ joined. length (S.run joined.sys).journal ≡ sum joined.by + joined.tail) }
    ensures by { IfOk result (λ joined. length joined.by ≡ length (S.run sys).script.threads) }
{
    let threads = sys.threads();
    let (book, all) = blank.open::<L>();
    let shared = Shared::new(alloc, sys, book)?;
    let driven = drive_in_scope(rt, alloc, &shared, gate, threads, most, all)?;
    after_joins(shared, driven)
}

/// The turns that are left, and how many they were. The journal has as many events more.
fn finish_counted(sys: &mut Sys) -> Result<u64, NoMemory>
    ensures script { OnOk result (sys.new.script ≡ sys.old.script) }
    ensures over { OnOk result (is_over sys.new.script (history sys.new) ≡ true) }
    ensures count { IfOk result (λ n. length sys.new.journal ≡ length sys.old.journal + n) }
    ensures small { OnOk result (length sys.new.journal < 2 ^ 32) }
    ensures laws { LawsOf sys.new }
{
    let left = sys.finish()?;
    sys.events();
    Ok(left)
}

/// The calling thread takes what is left.
fn finish(joined: Joined<Sys>) -> Result<Ran, NoMemory>
    requires { length joined.sys.journal ≡ sum joined.by + joined.tail }
    ensures script { IfOk result (λ done. done.sys.script ≡ joined.sys.script) }
    ensures over { IfOk result (λ done. is_over done.sys.script (history done.sys) ≡ true) }
    ensures sum { IfOk result (λ done. length done.sys.journal ≡ sum done.by + done.tail) }
    ensures by { IfOk result (λ done. done.by ≡ joined.by) }
    ensures laws { IfOk result (λ done. LawsOf done.sys) }
{
    let Joined { mut sys, by, tail } = joined;
    let left = finish_counted(&mut sys)?;
    Ok(Ran {
        sys,
        by,
        tail: tail + left,
    })
}

/// The calling thread takes all turns.
fn run_alone(alloc: Global, script: Script) -> Result<Ran, NoMemory>
    ensures script { IfOk result (λ ran. ran.sys.script ≡ script) }
    ensures over { IfOk result (λ ran. is_over ran.sys.script (history ran.sys) ≡ true) }
    ensures sum { IfOk result (λ ran. length ran.sys.journal ≡ sum ran.by + ran.tail) }
    ensures by { IfOk result (λ ran. length ran.by ≡ length script.threads) }
    ensures laws { IfOk result (λ ran. LawsOf ran.sys) }
{
    let by = zeros(alloc, script.threads())?;
    let sys = Sys::new(alloc, script)?;
    finish(Joined { sys, by, tail: 0 })
}

/// So many zeros, in room that was taken before. It takes no memory.
fn fill_with_zeros(mut room: Room<u64>, n: u32) -> CountList
    requires empty { room.items ≡ [] }
    requires room { n ≤ room.spare }
    ensures sum { sum result ≡ 0 }
    ensures count { length result ≡ n }
{
    for _ in 0..n {
        room.push(0);
    }
    room.into_list()
}

fn zeros(alloc: Global, n: u32) -> Result<CountList, NoMemory>
    ensures sum { IfOk result (λ zeros. sum zeros ≡ 0) }
    ensures count { IfOk result (λ zeros. length zeros ≡ n) }
{
    let room = Room::with_room(alloc, n as usize)?;
    Ok(fill_with_zeros(room, n))
}

/// The run after the joins, to its end. A lock's value is known by its type alone, so its script is compared with the one that
/// was given; where they differ, the given one is run anew.
fn run_to_end(alloc: Global, joined: Joined<Sys>, script: Script) -> Result<Ran, NoMemory>
    requires sum { length joined.sys.journal ≡ sum joined.by + joined.tail }
    requires by { length joined.by ≡ length script.threads }
    ensures script { IfOk result (λ done. done.sys.script ≡ script) }
    ensures over { IfOk result (λ done. is_over done.sys.script (history done.sys) ≡ true) }
    ensures sum { IfOk result (λ done. length done.sys.journal ≡ sum done.by + done.tail) }
    ensures by { IfOk result (λ done. length done.by ≡ length script.threads) }
    ensures laws { IfOk result (λ done. LawsOf done.sys) }
{
    if joined.sys.script().same(&script) {
        finish(joined)
    } else {
        run_alone(alloc, script)
    }
}

/// As `run_threads`, but starts at most so many threads: the calling thread drives the others. It passes the gate for one that is
/// runnable, so a gate must not wait there for another of those.
pub fn run_threads_on<G: Gate + Sync, R: Threads + Wait + Sync>(
    rt: &R,
    alloc: Global,
    script: Script,
    gate: &G,
    most: u32,
) -> Result<Ran, NoMemory>
    ensures script { IfOk result (λ ran. ran.sys.script ≡ script) }
    ensures over { IfOk result (λ ran. is_over ran.sys.script (history ran.sys) ≡ true) }
    ensures sum { IfOk result (λ ran. length ran.sys.journal ≡ sum ran.by + ran.tail) }
    ensures by { IfOk result (λ ran. length ran.by ≡ length script.threads) }
    ensures laws { IfOk result (λ ran. LawsOf ran.sys) }
{
    let copy = script.copy(alloc)?;
    let parts = script.threads() as u64 + 1;
    let sys = Sys::new(alloc, script)?;
    let joined = run_until_joined::<Sys, Brand, G, R>(
        rt,
        alloc,
        Blank::new(parts),
        sys,
        gate,
        most,
    )?;
    run_to_end(alloc, joined, copy)
}

/// Runs each thread of a script on a thread of its own, in whatever order the system makes. The run that is answered is of this
/// script and over, its events are as many as the turns of all drivers and of the calling thread, and the laws of every run hold of
/// it. Each driver passes the gate before it looks for its turn, and before it hands in a task that it computed. It may wait, and
/// returns when all drivers have left. Want of memory is the only error, and nothing of the run is kept then.
pub fn run_threads<G: Gate + Sync, R: Threads + Wait + Sync>(
    rt: &R,
    alloc: Global,
    script: Script,
    gate: &G,
) -> Result<Ran, NoMemory>
    ensures script { IfOk result (λ ran. ran.sys.script ≡ script) }
    ensures over { IfOk result (λ ran. is_over ran.sys.script (history ran.sys) ≡ true) }
    ensures sum { IfOk result (λ ran. length ran.sys.journal ≡ sum ran.by + ran.tail) }
    ensures by { IfOk result (λ ran. length ran.by ≡ length script.threads) }
    ensures laws { IfOk result (λ ran. LawsOf ran.sys) }
{
    run_threads_on(rt, alloc, script, gate, u32::MAX)
}
