//! What becomes of calls, one after the other, and what leaves transit with them.
ghost use Rattle.std.specs.Prelude.{◌≡◌, ℕ, ◌≤◌, Bool, List, IsSome, find, false, length};
ghost use Rattle.dk_base.specs.declared.error.Errno.TheVariants.{EBADF};
ghost use Rattle.spec_records.specs.Words.{CallTree, ProcessTable, is_queued_as, leaving_of};
ghost use Rattle.spec_kernel.specs.Types.{Call, Obj};
ghost use Rattle.call_tree.specs.Words.{AreSound, abandon_call, calls_so_far, is_called_by, lose_server, refuse_call};
ghost use Rattle.call_tree.specs.declared.parts.Leave.TheVariants.{Finished};
ghost use Rattle.exit_paths.specs.Words.{AreRefused, DropsTransit, HaveEnded, all_left, in_transit, is_thread_of, refused_item};

use crate::who_leaves::loses;
use call_tree::calls::Calls;
use call_tree::laws::parts_of_leaving;
use call_tree::parts::Leave;
use call_tree::stage::is_queued;
use dk_base::error::Errno;
use dk_base::list::{ObjList, Room};
use dk_base::number::{Pid, Tid};
use dk_base::object::{Item, Obj};
use door_object::doors::Doors;
use proc_table::procs::Procs;
use proc_table::walk::Walk;
use spec_records::leaving::Leaver;
use std::alloc::Global;

/// The caller of a call leaves it, if it waits in one. What is no longer in transit is handed out.
pub fn leave_call(alloc: Global, calls: &mut Calls, t: Tid, why: Leave) -> ObjList
    ensures tree { calls.new.tree ≡ abandon_call calls.old.tree t.0 why }
    ensures dropped { DropsTransit calls.old.tree.calls calls.new.tree.calls result }
    ensures spare { calls.old.spare ≤ calls.new.spare }
{
    calls.are_sound();
    parts_of_leaving();
    if calls.called_by(t).is_none() {
        return ObjList::new(alloc);
    }
    calls.abandon(t, why).dropped
}

/// A caller ends. What is no longer in transit follows what is in `into`. It takes no memory.
pub fn end_caller(alloc: Global, calls: &mut Calls, t: Tid, into: &mut Room<Obj>)
    requires { in_transit calls.old.tree.calls ≤ into.old.spare }
    ensures tree { calls.new.tree ≡ abandon_call calls.old.tree t.0 Finished }
    ensures dropped { (first : List Call) → DropsTransit first calls.old.tree.calls into.old.items → DropsTransit first calls.new.tree.calls into.new.items }
    ensures room { in_transit calls.new.tree.calls ≤ into.new.spare }
    ensures spare { calls.old.spare ≤ calls.new.spare }
{
    let dropped = leave_call(alloc, calls, t, Leave::Finished);
    into.append(dropped.slice());
}

/// A thread that serves a call ends. What is no longer in transit follows what is in `into`. It takes no memory.
pub fn end_server(calls: &mut Calls, u: Tid, into: &mut Room<Obj>)
    requires { in_transit calls.old.tree.calls ≤ into.old.spare }
    ensures tree { calls.new.tree ≡ lose_server calls.old.tree u.0 }
    ensures dropped { (first : List Call) → DropsTransit first calls.old.tree.calls into.old.items → DropsTransit first calls.new.tree.calls into.new.items }
    ensures room { in_transit calls.new.tree.calls ≤ into.new.spare }
    ensures spare { calls.old.spare ≤ calls.new.spare }
{
    let dropped = calls.server_left(u);
    into.append(dropped.slice());
}

/// A call that waits at a door that is lost ends with EBADF. What is no longer in transit follows what is in `into`. It takes no memory.
fn refuse(calls: &mut Calls, c: u32, into: &mut Room<Obj>)
    requires queued { IsSome (find (is_queued_as c) calls.old.tree.calls) }
    requires room { in_transit calls.old.tree.calls ≤ into.old.spare }
    ensures tree { calls.new.tree ≡ refuse_call calls.old.tree c EBADF }
    ensures dropped { (first : List Call) → DropsTransit first calls.old.tree.calls into.old.items → DropsTransit first calls.new.tree.calls into.new.items }
    ensures room { in_transit calls.new.tree.calls ≤ into.new.spare }
    ensures spare { calls.old.spare ≤ calls.new.spare }
{
    calls.are_sound();
    let dropped = calls.refuse(c, Errno::EBADF);
    into.append(dropped.slice());
}

/// The call of an item ends EBADF, if it waits at a door that is lost. It takes no memory.
fn refuse_item(calls: &mut Calls, doors: &Doors, who: Leaver, item: Item, into: &mut Room<Obj>)
    requires { in_transit calls.old.tree.calls ≤ into.old.spare }
    ensures tree { (table : ProcessTable) → calls.new.tree ≡ refused_item (leaving_of table doors.now.items who).loses item calls.old.tree }
    ensures dropped { (first : List Call) → DropsTransit first calls.old.tree.calls into.old.items → DropsTransit first calls.new.tree.calls into.new.items }
    ensures room { in_transit calls.new.tree.calls ≤ into.new.spare }
    ensures spare { calls.old.spare ≤ calls.new.spare }
{
    calls.are_sound();
    let Item::Call(c) = item else {
        return;
    };
    let Some(call) = calls.call(c) else {
        return;
    };
    if is_queued(&call.stage) && loses(who, doors, call.door) {
        let number = call.number;
        refuse(calls, number, into);
    }
}

/// The calls among some items that wait at doors that are lost end EBADF. What is no longer in transit follows what is in `into`. It
/// takes no memory.
pub fn refuse_lost(
    calls: &mut Calls,
    doors: &Doors,
    who: Leaver,
    items: &[Item],
    into: &mut Room<Obj>,
)
    requires { in_transit calls.old.tree.calls ≤ into.old.spare }
    ensures tree { (table : ProcessTable) → AreRefused (leaving_of table doors.now.items who).loses items.now calls.old.tree calls.new.tree }
    ensures dropped { (first : List Call) → DropsTransit first calls.old.tree.calls into.old.items → DropsTransit first calls.new.tree.calls into.new.items }
    ensures room { in_transit calls.new.tree.calls ≤ into.new.spare }
    ensures spare { calls.old.spare ≤ calls.new.spare }
{
    calls.are_sound();
    parts_of_leaving();
    for i in 0..items.len() {
        calls.are_sound();
        refuse_item(calls, doors, who, items[i], into);
    }
}

/// A thread that ends leaves its call, and the call that it serves ends. It takes no memory.
fn end_thread(alloc: Global, calls: &mut Calls, t: Tid, into: &mut Room<Obj>)
    requires { in_transit calls.old.tree.calls ≤ into.old.spare }
    ensures tree { calls.new.tree ≡ lose_server (abandon_call calls.old.tree t.0 Finished) t.0 }
    ensures dropped { (first : List Call) → DropsTransit first calls.old.tree.calls into.old.items → DropsTransit first calls.new.tree.calls into.new.items }
    ensures room { in_transit calls.new.tree.calls ≤ into.new.spare }
    ensures spare { calls.old.spare ≤ calls.new.spare }
{
    end_caller(alloc, calls, t, into);
    end_server(calls, t, into);
}

/// All threads of a process that end leave their calls, and the calls that they serve end. It takes no memory.
pub fn end_all(alloc: Global, calls: &mut Calls, procs: &Procs, p: Pid, into: &mut Room<Obj>)
    requires { in_transit calls.old.tree.calls ≤ into.old.spare }
    ensures tree { (tree : CallTree) (refused : ℕ → Bool) → AreSound tree → calls.old.tree ≡ calls_so_far (all_left (λ t. false) refused) tree → HaveEnded (is_thread_of procs.now p.0) refused (length procs.now.threads) tree calls.new.tree }
    ensures dropped { (first : List Call) → DropsTransit first calls.old.tree.calls into.old.items → DropsTransit first calls.new.tree.calls into.new.items }
    ensures room { in_transit calls.new.tree.calls ≤ into.new.spare }
    ensures spare { calls.old.spare ≤ calls.new.spare }
{
    parts_of_leaving();
    let threads = procs.threads_of(p);
    let mut walk = Walk::over(threads);
    while let Some(t) = walk.next() {
        end_thread(alloc, calls, t, into);
    }
}
