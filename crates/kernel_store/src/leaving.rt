//! Threads that park, and what becomes of notices where threads end and doors are lost.
ghost use Rattle.std.specs.Prelude.{◌≡◌, ◌+◌, ◌<◌, ◌≤◌, ◌++◌, ℕ, List, Some, true, IfOk, length};
ghost use Rattle.std.specs.List.{list_any};
ghost use Rattle.dk_base.specs.declared.object.Item.TheVariants as item;
ghost use Rattle.spec_records.specs.declared.leaving.Leaver.TheVariants.{Ended, EndedProcess};
ghost use Rattle.spec_records.specs.Words.{end_notice, kept_notices, leaving_of, left_notices, park_thread};
ghost use Rattle.spec_kernel.specs.Types.{Door};
ghost use Rattle.server_pool.specs.Words.{change_pool, park_in};
ghost use Rattle.exit_paths.specs.Words.{CanParkAgain, own_pool_in};
ghost use Rattle.unref_notice.specs.Words.{AreAllLeft, IsAllEntered, is_notice_item};
ghost use Rattle.kernel_store.specs.Held.{TellsHeld, held_at};

use dk_base::error::NoMemory;
use dk_base::list::Room;
use dk_base::number::{Pid, Tid};
use dk_base::object::Item;
use door_object::doors::Doors;
use exit_paths::who_leaves::{ends, loses, own_pool};
use proc_table::procs::Procs;
use proc_table::walk::Walk;
use server_pool::pools::Pools;
use spec_records::leaving::Leaver;
use spec_records::record::ThreadState;
use std::alloc::Global;
use unref_notice::notices::Notices;

// threads

/// A thread that is there, and that no pool has, parks at an event, after all that are parked in its pool. It takes no memory.
pub fn park(processes: &mut Procs, pools: &mut Pools, t: Tid, since: u64)
    requires { CanParkAgain processes.old pools.old t.0 since }
    ensures thread { processes.new ≡ park_thread processes.old t.0 since }
    ensures pools { pools.new ≡ change_pool pools.old (own_pool_in processes.old pools.old.bindings t.0) (park_in (record { thread = t; pool = own_pool_in processes.old pools.old.bindings t.0; since = since })) }
{
    let pool = own_pool(processes, pools, t);
    pools.park(t, pool, since);
    processes.park(t, since);
}

// notices

/// The item that a thread was given, or that its invocation is of.
pub fn held_by(processes: &Procs, t: Tid) -> Option<Item>
    ensures { result ≡ held_at processes.now t.0 }
{
    match processes.state(t) {
        ThreadState::Given { item } => Some(*item),
        _ => match processes.invocation(t) {
            Some(invocation) => Some(invocation.item),
            None => None,
        },
    }
}

/// What a thread has follows what is in `into`, if the thread ends. It takes no memory.
fn note_held(processes: &Procs, who: Leaver, t: Tid, into: &mut Room<Item>)
    requires { 0 < into.old.spare }
    ensures spare { into.old.spare ≤ into.new.spare + 1 }
    ensures kept { (c : ℕ) → list_any (is_notice_item c) into.old.items ≡ true → list_any (is_notice_item c) into.new.items ≡ true }
    ensures noted { (doors : List Door) (c : ℕ) → (leaving_of processes.now doors who).ends t.0 ≡ true → held_at processes.now t.0 ≡ Some (item.Notice c) → list_any (is_notice_item c) into.new.items ≡ true }
{
    if !ends(who, processes, t) {
        return;
    }
    if let Some(item) = held_by(processes, t) {
        into.push(item);
    }
}

/// What the threads of a process have, which end.
fn held_by_all(alloc: Global, processes: &Procs, process: Pid) -> Result<Room<Item>, NoMemory>
    ensures { IfOk result (λ held. (doors : List Door) → TellsHeld (leaving_of processes.now doors (EndedProcess process)) processes.now (length processes.now.threads) held.items) }
{
    let count = processes.thread_count();
    let mut held = Room::with_room(alloc, count as usize)?;
    let threads = processes.threads_of(process);
    let mut walk = Walk::over(threads);
    while let Some(t) = walk.next() {
        note_held(processes, Leaver::EndedProcess { process }, t, &mut held);
    }
    Ok(held)
}

/// What a thread has that ends.
fn held_by_one(alloc: Global, processes: &Procs, thread: Tid) -> Result<Room<Item>, NoMemory>
    ensures { IfOk result (λ held. (doors : List Door) → TellsHeld (leaving_of processes.now doors (Ended thread)) processes.now (length processes.now.threads) held.items) }
{
    let mut held = Room::with_room(alloc, 1)?;
    note_held(processes, Leaver::Ended { thread }, thread, &mut held);
    Ok(held)
}

/// The items that threads have which end, before they do.
pub fn held_items(alloc: Global, processes: &Procs, who: Leaver) -> Result<Room<Item>, NoMemory>
    ensures { IfOk result (λ held. (doors : List Door) → TellsHeld (leaving_of processes.now doors who) processes.now (length processes.now.threads) held.items) }
{
    match who {
        Leaver::Ended { thread } => held_by_one(alloc, processes, thread),
        Leaver::EndedProcess { process } => held_by_all(alloc, processes, process),
        _ => Ok(Room::new(alloc)),
    }
}

/// What becomes of the notices, after the threads: of those that waited at lost doors, and of those that threads had which ended. Those
/// that are past then and that no rule asks for again are forgotten.
pub fn leave_notices(
    notices: &mut Notices,
    who: Leaver,
    waiting: &[Item],
    held: &[Item],
    processes: &Procs,
    doors: &Doors,
)
    requires left { AreAllLeft (leaving_of processes.now doors.now.items who) (waiting.now ++ held.now) notices.old.list.notices }
    requires kept { kept_notices doors.now.items notices.old.list ≡ notices.old.list }
    ensures list { notices.new.list ≡ kept_notices doors.now.items (left_notices (leaving_of processes.now doors.now.items who) notices.old.list) }
    ensures room { notices.old.spare ≤ notices.new.spare }
{
    notices.leave(
        waiting,
        held,
        |t| ends(who, processes, Tid(t)),
        |d| loses(who, doors, d),
        |d| doors.takes_many(d),
    );
}

/// The notice that a thread has entered, which the item is that it serves, is over. It is forgotten, unless a rule asks for it again.
pub fn end_notice(notices: &mut Notices, serves: Option<Item>, t: Tid, doors: &Doors)
    requires entered { IsAllEntered serves t.0 notices.old.list.notices }
    requires kept { kept_notices doors.now.items notices.old.list ≡ notices.old.list }
    ensures list { notices.new.list ≡ kept_notices doors.now.items (end_notice notices.old.list t.0) }
    ensures room { notices.old.spare ≤ notices.new.spare }
{
    notices.end(serves, t, |d| doors.takes_many(d));
}
