//! What becomes of threads and of their pools where callers are interrupted, threads end and doors are lost.
ghost use Rattle.std.specs.Prelude.{◌≡◌, ℕ, ◌+◌, ◌<◌, ◌≤◌, List, IfSome, OnOk, false, true, find, is_some, length};
ghost use Rattle.dk_base.specs.declared.limits.TheConstants.{THREADS_MAX};
ghost use Rattle.spec_records.specs.Words.{CallTree, NoticeList, change_thread, deserted_in, end_thread, interrupted_where, is_fellow_caller, is_served_by, leaving_of, left_thread_of, left_threads, parked_at, park_thread, thread_at};
ghost use Rattle.spec_kernel.specs.Types.{Door, Parked, Pool, Thread};
ghost use Rattle.server_pool.specs.Words.{AllParkedBefore, pool_at, stack_in, thread_room_in};
ghost use Rattle.call_tree.specs.Words.{caller_among, is_called_by};
ghost use Rattle.law_pools.specs.Words.{Agrees, AgreesSomehow};
ghost use Rattle.proc_table.specs.Words.{is_of};
ghost use Rattle.dk_base.specs.Words.{has};
ghost use Rattle.exit_paths.specs.Words.{CanParkAgain, HasNoLessRoom, HoldsSame, KeepsItems, deserted_as, deserted_in_call, fated, own_pool_in, parked_of, parks_again, serves_given, with_deserted, with_interrupted, woken_of};

use crate::who_leaves::{ends, own_pool};
use call_tree::calls::Calls;
use dk_base::error::NoMemory;
use dk_base::number::{Pid, Tid};
use dk_base::thread_set::ThreadSet;
use proc_table::procs::Procs;
use proc_table::walk::Walk;
use server_pool::pools::Pools;
use spec_records::leaving::Leaver;
use spec_records::record::{CallStage, ThreadState};

// threads

/// What becomes of a thread whose caller leaves.
#[derive(Clone, Copy)]
pub enum Desertion {
    /// It goes on.
    Stays,
    /// It is parked again.
    Parks,
    /// It goes on, with the flag of its invocation set.
    IsCancelled,
}

/// What becomes of a thread: the end comes before all else.
#[derive(Clone, Copy)]
struct Fate {
    ends: bool,
    interrupted: bool,
    desertion: Desertion,
}

/// What the caller of a thread's call leaves it at: parked again where it was given the call, with the flag of its invocation set
/// where it has entered the call, unless the call's door has DOOR_NO_CANCEL (door_create(3C)).
fn desertion_of(
    who: Leaver,
    interrupted: ThreadSet,
    processes: &Procs,
    calls: &Calls,
    t: Tid,
) -> Desertion
    ensures left { (doors : List Door) (now : ℕ) (x : Thread) → deserted_in (with_interrupted (has interrupted) (leaving_of processes.now doors who)) now (find (is_served_by t.0) calls.now.tree.calls) x ≡ deserted_as now result x }
    ensures parks { parks_again result ≡ true → serves_given calls.now.tree.calls t.0 ≡ true }
{
    let Some(call) = calls.served_by(t) else {
        return Desertion::Stays;
    };
    if !ends(who, processes, call.caller) && !interrupted.has(call.caller) {
        return Desertion::Stays;
    }
    match call.stage {
        CallStage::Given { .. } => Desertion::Parks,
        CallStage::Entered { .. } if !call.no_cancel => Desertion::IsCancelled,
        _ => Desertion::Stays,
    }
}

/// What becomes of a thread, as long as the calls and the processes of threads are as they were.
fn fate_of(who: Leaver, interrupted: ThreadSet, processes: &Procs, calls: &Calls, t: Tid) -> Fate
    ensures fate { (doors : List Door) (now : ℕ) (x : Thread) → x.number ≡ t.0 → left_thread_of (with_interrupted (has interrupted) (leaving_of processes.now doors who)) now calls.now.tree.calls x ≡ fated now result x }
    ensures parks { parks_again result.desertion ≡ true → serves_given calls.now.tree.calls t.0 ≡ true }
{
    Fate {
        ends: ends(who, processes, t),
        interrupted: interrupted.has(t),
        desertion: desertion_of(who, interrupted, processes, calls, t),
    }
}

/// A thread leaves its pool where it is parked, and the spares of its process where it is one. Its own record stays as it is.
fn take_out(pools: &mut Pools, processes: &Procs, t: Tid)
    ensures agreed { (n : ℕ) (doors : List Door) (tree : CallTree) (list : NoticeList) → Agrees n processes.now doors tree list pools.old → Agrees n (end_thread processes.now t.0) doors tree list pools.new }
    ensures keeps { KeepsItems pools.old pools.new }
    ensures room { (pool : Pool) → thread_room_in pools.old pool ≤ thread_room_in pools.new pool }
    ensures above { (pool : Pool) (x : Parked) → AllParkedBefore (stack_in pools.old pool) x → AllParkedBefore (stack_in pools.new pool) x }
{
    match processes.state(t) {
        ThreadState::Idle { .. } => {
            let pool = own_pool(processes, pools, t);
            pools.unpark(t, pool);
        }
        ThreadState::Dormant => pools.withdraw_spare(processes.process_of(t), t),
        _ => {}
    }
}

/// A thread ends.
pub fn end_thread(processes: &mut Procs, pools: &mut Pools, t: Tid)
    ensures thread { processes.new ≡ end_thread processes.old t.0 }
    ensures agreed { (n : ℕ) (doors : List Door) (tree : CallTree) (list : NoticeList) → Agrees n processes.old doors tree list pools.old → Agrees n processes.new doors tree list pools.new }
    ensures keeps { KeepsItems pools.old pools.new }
    ensures room { (pool : Pool) → thread_room_in pools.old pool ≤ thread_room_in pools.new pool }
{
    take_out(pools, processes, t);
    processes.end_thread(t);
}

/// A thread that is there parks at an event, after all that are parked in its pool. It takes no memory.
fn park_again(processes: &mut Procs, pools: &mut Pools, t: Tid, since: u64)
    requires { CanParkAgain processes.old pools.old t.0 since }
    ensures thread { processes.new ≡ park_thread processes.old t.0 since }
    ensures agreed { (doors : List Door) (tree : CallTree) (list : NoticeList) → Agrees since processes.old doors tree list pools.old → Agrees since processes.new doors tree list pools.new }
    ensures keeps { KeepsItems pools.old pools.new }
    ensures room_left { (pool : Pool) → thread_room_in pools.old pool ≤ thread_room_in pools.new pool + 1 }
{
    let pool = own_pool(processes, pools, t);
    take_out(pools, processes, t);
    pools.park(t, pool, since);
    processes.park(t, since);
}

/// A thread that is there goes on as its caller has left it.
fn desert(processes: &mut Procs, pools: &mut Pools, t: Tid, desertion: Desertion, now: u64)
    requires { parks_again desertion ≡ true → CanParkAgain processes.old pools.old t.0 now }
    ensures thread { processes.new ≡ change_thread processes.old t.0 (deserted_as now desertion) }
    ensures agreed { (doors : List Door) (tree : CallTree) (list : NoticeList) → Agrees now processes.old doors tree list pools.old → Agrees now processes.new doors tree list pools.new }
    ensures keeps { KeepsItems pools.old pools.new }
    ensures room_left { (pool : Pool) → thread_room_in pools.old pool ≤ thread_room_in pools.new pool + 1 }
{
    match desertion {
        Desertion::Stays => {}
        Desertion::Parks => park_again(processes, pools, t, now),
        Desertion::IsCancelled => processes.cancel(t),
    }
}

/// A thread is interrupted, or stays as it is.
fn interrupt_where(processes: &mut Procs, t: Tid, interrupted: bool)
    ensures { processes.new ≡ change_thread processes.old t.0 (interrupted_where interrupted) }
{
    if interrupted {
        processes.interrupt(t);
    }
}

/// One thread that is there meets its fate.
fn leave_thread(processes: &mut Procs, pools: &mut Pools, t: Tid, fate: Fate, now: u64)
    requires { parks_again fate.desertion ≡ true → CanParkAgain processes.old pools.old t.0 now }
    ensures thread { processes.new ≡ change_thread processes.old t.0 (fated now fate) }
    ensures agreed { (doors : List Door) (tree : CallTree) (list : NoticeList) → Agrees now processes.old doors tree list pools.old → Agrees now processes.new doors tree list pools.new }
    ensures keeps { KeepsItems pools.old pools.new }
    ensures room_left { (pool : Pool) → thread_room_in pools.old pool ≤ thread_room_in pools.new pool + 1 }
{
    if fate.ends {
        end_thread(processes, pools, t);
        return;
    }
    interrupt_where(processes, t, fate.interrupted);
    desert(processes, pools, t, fate.desertion, now);
}

/// What becomes of all threads at an event, where those are given that are interrupted, and those that may change, and the lowest of them
/// is first. It takes no memory. The calls are not yet changed.
pub fn leave_threads(
    processes: &mut Procs,
    pools: &mut Pools,
    who: Leaver,
    interrupted: ThreadSet,
    calls: &Calls,
    touched: ThreadSet,
    now: u64,
)
    requires agreed { AgreesSomehow now processes.old pools.old }
    requires numbered { (t : ℕ) (x : Thread) → thread_at processes.old t ≡ Some x → x.number ≡ t }
    requires earlier { (t : ℕ) (x : Parked) → parked_at processes.old pools.old.bindings t ≡ Some x → x.since < now }
    requires interrupted { (doors : List Door) (u : ℕ) → has interrupted u ≡ (leaving_of processes.old doors who).interrupts u }
    requires there { (t : ℕ) → has touched t ≡ true → is_some (thread_at processes.old t) ≡ true }
    requires room { (t : ℕ) → has touched t ≡ true → serves_given calls.now.tree.calls t ≡ true → length processes.old.threads ≤ thread_room_in pools.old (own_pool_in processes.old pools.old.bindings t) }
    requires others { (doors : List Door) (t : ℕ) (x : Thread) → has touched t ≡ false → thread_at processes.old t ≡ Some x → left_thread_of (leaving_of processes.old doors who) now calls.now.tree.calls x ≡ x }
    ensures threads { (doors : List Door) → processes.new ≡ left_threads (leaving_of processes.old doors who) now calls.now.tree.calls processes.old }
    ensures agreed { (doors : List Door) (tree : CallTree) (list : NoticeList) → Agrees now processes.old doors tree list pools.old → Agrees now processes.new doors tree list pools.new }
    ensures keeps { KeepsItems pools.old pools.new }
{
    let mut walk = Walk::over(touched);
    while let Some(t) = walk.next() {
        let fate = fate_of(who, interrupted, processes, calls, t);
        leave_thread(processes, pools, t, fate, now);
    }
}

// one caller

/// The thread that serves the call of a caller that leaves, and what becomes of it.
#[derive(Clone, Copy)]
pub struct Deserted {
    pub server: Tid,
    pub desertion: Desertion,
}

/// Of the call in which a thread waits: the thread that it was given to, or that is in it and is to learn that its caller leaves.
pub fn deserted_by(calls: &Calls, t: Tid) -> Option<Deserted>
    ensures { result ≡ deserted_in_call (find (is_called_by t.0) calls.now.tree.calls) }
{
    let call = calls.called_by(t)?;
    match call.stage {
        CallStage::Given { to } => Some(Deserted {
            server: to,
            desertion: Desertion::Parks,
        }),
        CallStage::Entered { by } if !call.no_cancel => Some(Deserted {
            server: by,
            desertion: Desertion::IsCancelled,
        }),
        _ => None,
    }
}

/// The thread that may be parked as a caller leaves: the server of its call, or else itself.
pub fn parked_of(deserted: Option<Deserted>, t: Tid) -> Tid
    ensures { result.0 ≡ parked_of deserted t.0 }
{
    match deserted {
        Some(deserted) => deserted.server,
        None => t,
    }
}

/// The thread whose call may end as a thread does: its client, or else itself.
pub fn woken_of(calls: &Calls, t: Tid) -> Tid
    ensures { result.0 ≡ woken_of (caller_among calls.now.tree.calls t.0) t.0 }
{
    match calls.caller_of(t) {
        Some(client) => client,
        None => t,
    }
}

/// There are no more threads than there may be.
pub fn are_few(processes: &Procs)
    ensures { length processes.now.threads ≤ THREADS_MAX }
{
    processes.thread_count();
}

/// Whether a thread is there.
fn is_there(processes: &Procs, t: Tid) -> bool
    ensures { result ≡ is_some (thread_at processes.now t.0) }
{
    0 < t.0 && t.0 <= processes.thread_count()
}

/// The thread whose caller leaves goes on as its caller has left it. It takes no memory.
pub fn desert_server(processes: &mut Procs, pools: &mut Pools, deserted: Option<Deserted>, now: u64)
    requires { IfSome deserted (λ d. parks_again d.desertion ≡ true → is_some (thread_at processes.old d.server.0) ≡ true → CanParkAgain processes.old pools.old d.server.0 now) }
    ensures thread { processes.new ≡ with_deserted now deserted processes.old }
    ensures agreed { (doors : List Door) (tree : CallTree) (list : NoticeList) → Agrees now processes.old doors tree list pools.old → Agrees now processes.new doors tree list pools.new }
    ensures keeps { KeepsItems pools.old pools.new }
{
    let Some(deserted) = deserted else {
        return;
    };
    if is_there(processes, deserted.server) {
        desert(processes, pools, deserted.server, deserted.desertion, now);
    }
}

// a process

/// The thread whose caller leaves is one of a set, if it is there.
fn put_server(touched: &mut ThreadSet, processes: &Procs, deserted: Option<Deserted>)
    ensures more { (u : ℕ) → has touched.old u ≡ true → has touched.new u ≡ true }
    ensures there { ((u : ℕ) → has touched.old u ≡ true → is_some (thread_at processes.now u) ≡ true) → (u : ℕ) → has touched.new u ≡ true → is_some (thread_at processes.now u) ≡ true }
    ensures server { IfSome deserted (λ d. is_some (thread_at processes.now d.server.0) ≡ true → has touched.new d.server.0 ≡ true) }
{
    let Some(deserted) = deserted else {
        return;
    };
    are_few(processes);
    if !is_there(processes, deserted.server) {
        return;
    }
    touched.put(deserted.server, true);
}

/// The threads that the end of a process may change: its own, and those that serve their calls.
pub fn touched_by(processes: &Procs, calls: &Calls, p: Pid) -> ThreadSet
    ensures there { (t : ℕ) → has result t ≡ true → is_some (thread_at processes.now t) ≡ true }
    ensures own { (t : ℕ) → is_of p.0 (thread_at processes.now t) ≡ true → has result t ≡ true }
    ensures servers { (t : ℕ) → is_of p.0 (thread_at processes.now t) ≡ true → IfSome (deserted_in_call (find (is_called_by t) calls.now.tree.calls)) (λ d. is_some (thread_at processes.now d.server.0) ≡ true → has result d.server.0 ≡ true) }
{
    let own = processes.threads_of(p);
    let mut touched = own;
    let mut walk = Walk::over(own);
    while let Some(t) = walk.next() {
        put_server(&mut touched, processes, deserted_by(calls, t));
    }
    touched
}

// a fork

/// The other threads of a thread's process that wait for calls.
pub fn fellow_callers(processes: &Procs, t: Tid) -> ThreadSet
    ensures { (u : ℕ) → has result u ≡ is_fellow_caller processes.now t.0 u }
{
    let mut callers = ThreadSet::new();
    let own = processes.threads_of(processes.process_of(t));
    let mut walk = Walk::over(own);
    while let Some(u) = walk.next() {
        callers.put(u, processes.is_fellow_caller(t, u));
    }
    callers
}

/// The threads that serve the calls of these callers, as far as they may change.
pub fn servers_of(processes: &Procs, calls: &Calls, callers: ThreadSet) -> ThreadSet
    ensures there { (t : ℕ) → has result t ≡ true → is_some (thread_at processes.now t) ≡ true }
    ensures servers { (t : ℕ) → has callers t ≡ true → IfSome (deserted_in_call (find (is_called_by t) calls.now.tree.calls)) (λ d. is_some (thread_at processes.now d.server.0) ≡ true → has result d.server.0 ≡ true) }
{
    let mut touched = ThreadSet::new();
    let mut walk = Walk::over(callers);
    while let Some(t) = walk.next() {
        put_server(&mut touched, processes, deserted_by(calls, t));
    }
    touched
}

// memory

/// Room in the pool of the thread whose caller leaves. Want of memory changes nothing but room, of which there is never less than
/// before.
pub fn room_for_server(
    pools: &mut Pools,
    processes: &Procs,
    deserted: Option<Deserted>,
) -> Result<(), NoMemory>
    ensures same { HoldsSame pools.old pools.new }
    ensures kept { HasNoLessRoom pools.old pools.new }
    ensures room { OnOk result (IfSome deserted (λ d. is_some (pool_at pools.new (own_pool_in processes.now pools.new.bindings d.server.0)) ≡ true → 0 < thread_room_in pools.new (own_pool_in processes.now pools.new.bindings d.server.0))) }
{
    let Some(deserted) = deserted else {
        return Ok(());
    };
    let pool = own_pool(processes, pools, deserted.server);
    pools.room_for_threads(pool, 1)
}

/// Room in the pool of each of these threads for as many more threads as there are in all. Want of memory changes nothing but room, of
/// which there is never less than before.
pub fn make_room(pools: &mut Pools, processes: &Procs, touched: ThreadSet) -> Result<(), NoMemory>
    ensures same { HoldsSame pools.old pools.new }
    ensures kept { HasNoLessRoom pools.old pools.new }
    ensures room { OnOk result ((t : ℕ) → has touched t ≡ true → is_some (pool_at pools.new (own_pool_in processes.now pools.new.bindings t)) ≡ true → length processes.now.threads ≤ thread_room_in pools.new (own_pool_in processes.now pools.new.bindings t)) }
{
    let count = processes.thread_count();
    let mut walk = Walk::over(touched);
    while let Some(t) = walk.next() {
        let pool = own_pool(processes, pools, t);
        pools.room_for_threads(pool, count as usize)?;
    }
    Ok(())
}
