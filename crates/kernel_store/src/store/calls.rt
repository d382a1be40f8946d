//! Calls and notices, and the threads that serve them.
ghost use Rattle.std.specs.Prelude.{◌≡◌, ℕ, ◌+◌, ◌<◌, ◌≤◌, ◌^◌, ◌∷◌, List, false, true, find, length, is_some, IfNone, IsSome, OnSome, Some};
ghost use Rattle.dk_base.specs.declared.object.Item.TheVariants as item;
ghost use Rattle.dk_base.specs.declared.limits.TheConstants.{PASS_MAX, QUEUE_MAX};
ghost use Rattle.spec_records.specs.declared.record.ThreadState.TheVariants as is;
ghost use Rattle.spec_records.specs.Words.{collect_call, end_invocation, end_notice, enter_call, enter_notice, enter_thread, fail_call, is_client_call_of, is_given_as, is_given_notice_as, is_to_collect_as, kept_notices, live_calls, make_notice, open_call, park_thread, return_call, set_thread_state, unbind_thread};
ghost use Rattle.call_tree.specs.Calls.{args_in};
ghost use Rattle.call_tree.specs.Words.{outcome_in, queued_call};
ghost use Rattle.spec_kernel.specs.Types.{Pool};
ghost use Rattle.spec_kernel.specs.Words.{bound_of, calls_waiting, has_invalid_door, is_running, is_valid, now, pool_of, state_of};
ghost use Rattle.law_pools.specs.Words.{own_pool};
ghost use Rattle.kernel_holdings.specs.Words.{results_in};
ghost use Rattle.dk_base.specs.declared.thread_set.ThreadSet.{ThreadSet};
ghost use Rattle.kernel_store.specs.Frames.{CanAct, CanSettle, FillsNoPool, FillsNoQueue, FillsOnePool, IsInEvent, KeepsPools, serves_any};
ghost use Rattle.kernel_store.specs.Held.{AreHeld};
ghost use Rattle.kernel_store.specs.Stored.{AreThere, CanMake, HasRoomForReferences, stored_state};

use crate::leaving::{end_notice, held_by, park};
use crate::ports::{has_port, have_port, note_references};
use crate::store::Store;
use call_tree::parts::{Args, Outcome};
use dk_base::list::{Bytes, ObjList};
use dk_base::number::Tid;
use dk_base::object::Item;
use spec_records::pool::Waiting;
use spec_records::record::{Notice, ThreadState};

impl Store {
    // calls

    /// A thread that runs makes a call at this event and waits in it. The call waits in the pool of its door, which has room for it.
    /// Its number is answered. It takes no memory.
    pub fn open_call(&mut self, t: Tid, door: u32, args: Args, rsize: u64, no_cancel: bool) -> u32
        requires numbers { (stored_state self.old).call_tree.made + 1 < 2 ^ 32 }
        requires running { is_running (stored_state self.old) t.0 ≡ true }
        requires door { is_valid (stored_state self.old) door ≡ true }
        requires can_act { CanAct (pool_of (stored_state self.old) door) self.old }
        requires references { HasRoomForReferences self.old }
        requires few { calls_waiting (stored_state self.old) (pool_of (stored_state self.old) door) < QUEUE_MAX }
        requires there { AreThere self.old.doors.items args.objects }
        requires small { length args.objects ≤ PASS_MAX }
        ensures number { result ≡ (stored_state self.old).call_tree.made + 1 }
        ensures state { stored_state self.new ≡ record (stored_state self.old) { process_table = set_thread_state (stored_state self.old).process_table t.0 (is.Calling result); call_tree = open_call (stored_state self.old).call_tree (queued_call result (now (stored_state self.old)) t.0 door args.bytes args.objects rsize no_cancel) } }
        ensures keeps { FillsOnePool (pool_of (stored_state self.old) door) self.old self.new }
    {
        let of_port = has_port(args.objects.slice());
        let pool = self.doors.pool_of(door);
        let _threads = self.processes.thread_count();
        self.latest = self.events + 1;
        let call = self
            .held
            .open_call(t, door, args, rsize, no_cancel, self.latest);
        note_references(
            &mut self.ended,
            of_port,
            &self.processes,
            &self.held,
            &self.ports,
        );
        let waiting = Waiting {
            item: Item::Call(call),
            made: self.latest,
            door,
        };
        self.pools.enqueue_fitting(pool, waiting);
        self.short.push(pool);
        self.processes.turn(t, ThreadState::Calling { call });
        call
    }

    /// The thread that was given a call enters it. The arguments are handed out.
    pub fn enter_call(&mut self, c: u32, t: Tid) -> Args
        requires given { state_of (stored_state self.old) t.0 ≡ is.Given (item.Call c) }
        requires there { IsSome (find (is_given_as c t.0) (stored_state self.old).call_tree.calls) }
        requires references { HasRoomForReferences self.old }
        ensures state { stored_state self.new ≡ record (stored_state self.old) { process_table = enter_thread (stored_state self.old).process_table t.0 (item.Call c); call_tree = enter_call (stored_state self.old).call_tree c t.0 } }
        ensures args { args_in (find (is_given_as c t.0) (stored_state self.old).call_tree.calls) ≡ Some result }
        ensures there { AreThere self.new.doors.items result.objects }
        ensures small { length result.objects ≤ PASS_MAX }
        ensures left { self.old.left ≤ self.new.left + PASS_MAX }
        ensures keeps { KeepsPools self.old self.new }
    {
        let args = self.held.enter_call(c, t);
        note_references(
            &mut self.ended,
            has_port(args.objects.slice()),
            &self.processes,
            &self.held,
            &self.ports,
        );
        self.processes.enter(t, Item::Call(c));
        args
    }

    /// The call that a thread was given ends EMFILE, and the thread is parked again. The objects of the arguments are handed out.
    pub fn fail_call(&mut self, c: u32, t: Tid) -> ObjList
        requires given { state_of (stored_state self.old) t.0 ≡ is.Given (item.Call c) }
        requires there { IsSome (find (is_given_as c t.0) (stored_state self.old).call_tree.calls) }
        requires can_act { CanAct (own_pool (stored_state self.old) t.0) self.old }
        requires references { HasRoomForReferences self.old }
        ensures state { stored_state self.new ≡ record (stored_state self.old) { process_table = park_thread (stored_state self.old).process_table t.0 (now (stored_state self.old)); call_tree = fail_call (stored_state self.old).call_tree c t.0 } }
        ensures keeps { FillsOnePool (own_pool (stored_state self.old) t.0) self.old self.new }
        ensures queues { FillsNoQueue self.old self.new }
    {
        self.latest = self.events + 1;
        park(&mut self.processes, &mut self.pools, t, self.latest);
        let objects = self.held.fail_call(c, t);
        note_references(
            &mut self.ended,
            has_port(objects.slice()),
            &self.processes,
            &self.held,
            &self.ports,
        );
        objects
    }

    /// A thread that runs returns to its client, if it has one, or its notice is over, and it is parked (door_return(3C)). It is not bound
    /// to a door that is not valid.
    pub fn return_call(&mut self, t: Tid, bytes: Bytes, objects: ObjList)
        requires running { is_running (stored_state self.old) t.0 ≡ true }
        requires parks { has_invalid_door (stored_state self.old) t.0 ≡ false }
        requires can_act { CanAct (own_pool (stored_state self.old) t.0) self.old }
        requires held { AreHeld (stored_state self.old) }
        requires references { HasRoomForReferences self.old }
        requires there { AreThere self.old.doors.items objects }
        requires small { is_some (find (is_client_call_of t.0) (stored_state self.old).call_tree.calls) ≡ true → length objects ≤ PASS_MAX }
        ensures state { stored_state self.new ≡ record (stored_state self.old) { process_table = park_thread (stored_state self.old).process_table t.0 (now (stored_state self.old)); call_tree = return_call (stored_state self.old).call_tree t.0 bytes objects; notice_list = kept_notices (stored_state self.old).doors (end_notice (stored_state self.old).notice_list t.0) } }
        ensures keeps { FillsOnePool (own_pool (stored_state self.old) t.0) self.old self.new }
        ensures queues { FillsNoQueue self.old self.new }
    {
        let serves = held_by(&self.processes, t);
        self.latest = self.events + 1;
        let of_port = has_port(objects.slice());
        park(&mut self.processes, &mut self.pools, t, self.latest);
        self.held.give_back(t, bytes, objects);
        note_references(
            &mut self.ended,
            of_port,
            &self.processes,
            &self.held,
            &self.ports,
        );
        end_notice(&mut self.notices, serves, t, &self.doors);
    }

    /// A thread that runs and is bound returns to its client, if it has one, or its notice is over, and it is bound to no door; it
    /// is not parked.
    pub fn return_unbound(&mut self, t: Tid, bytes: Bytes, objects: ObjList)
        requires running { is_running (stored_state self.old) t.0 ≡ true }
        requires bound { is_some (bound_of (stored_state self.old) t.0) ≡ true }
        requires held { AreHeld (stored_state self.old) }
        requires there { AreThere self.old.doors.items objects }
        requires small { is_some (find (is_client_call_of t.0) (stored_state self.old).call_tree.calls) ≡ true → length objects ≤ PASS_MAX }
        requires references { HasRoomForReferences self.old }
        ensures state { stored_state self.new ≡ record (stored_state self.old) { process_table = end_invocation (stored_state self.old).process_table t.0; bindings = unbind_thread (stored_state self.old).bindings t.0; call_tree = return_call (stored_state self.old).call_tree t.0 bytes objects; notice_list = kept_notices (stored_state self.old).doors (end_notice (stored_state self.old).notice_list t.0) } }
        ensures keeps { FillsNoPool self.old self.new }
    {
        let serves = held_by(&self.processes, t);
        let of_port = has_port(objects.slice());
        self.processes.end_invocation(t);
        self.pools.drop_binding(t);
        self.held.give_back(t, bytes, objects);
        note_references(
            &mut self.ended,
            of_port,
            &self.processes,
            &self.held,
            &self.ports,
        );
        end_notice(&mut self.notices, serves, t, &self.doors);
    }

    /// A caller collects its call, which is forgotten, and goes on.
    pub fn collect_call(&mut self, c: u32, t: Tid) -> Outcome
        requires calling { state_of (stored_state self.old) t.0 ≡ is.Calling c }
        requires ready { IsSome (find (is_to_collect_as c) (stored_state self.old).call_tree.calls) }
        requires references { HasRoomForReferences self.old }
        ensures state { (at : ℕ) → stored_state self.new ≡ record (stored_state self.old) { process_table = set_thread_state (stored_state self.old).process_table t.0 is.Running; call_tree = live_calls (collect_call (stored_state self.old).call_tree c at) } }
        ensures outcome { outcome_in (find (is_to_collect_as c) (stored_state self.old).call_tree.calls) ≡ Some result }
        ensures there { AreThere self.new.doors.items (results_in result) }
        ensures small { length (results_in result) ≤ PASS_MAX }
        ensures left { self.old.left ≤ self.new.left + PASS_MAX }
        ensures keeps { KeepsPools self.old self.new }
    {
        let outcome = self.held.collect_call(c);
        note_references(
            &mut self.ended,
            have_port(&outcome),
            &self.processes,
            &self.held,
            &self.ports,
        );
        self.processes.turn(t, ThreadState::Running);
        outcome
    }

    // notices

    /// A notice of a valid door is made at this event, and waits in its pool, after what waits there. It takes no memory.
    pub fn make_notice(&mut self, d: u32)
        requires valid { is_valid (stored_state self.old) d ≡ true }
        requires within { IsInEvent self.old }
        requires room { (ds : List ℕ) × CanMake self.old (d ∷ ds) }
        ensures state { stored_state self.new ≡ record (stored_state self.old) { notice_list = make_notice (stored_state self.old).notice_list (now (stored_state self.old)) d } }
        ensures latest { self.new.latest ≡ now (stored_state self.old) }
        ensures left { (ds : List ℕ) → CanMake self.old (d ∷ ds) → CanMake self.new ds }
        ensures served { (touched : Pool) (parked : ThreadSet) (ds : List ℕ) → serves_any (stored_state self.old) ds (pool_of (stored_state self.old) d) ≡ true → CanSettle touched parked ds self.old → CanSettle touched parked ds self.new }
    {
        let pool = self.doors.pool_of(d);
        self.latest = self.events + 1;
        let number = self.notices.make(d, self.latest);
        let waiting = Waiting {
            item: Item::Notice(number),
            made: self.latest,
            door: d,
        };
        self.pools.enqueue_fitting(pool, waiting);
        self.short.push(pool);
    }

    /// The thread that was given a notice enters it. The record as it was is handed out, if there is one.
    pub fn enter_notice(&mut self, n: u32, t: Tid) -> Option<Notice>
        requires { state_of (stored_state self.old) t.0 ≡ is.Given (item.Notice n) }
        ensures entered { OnSome result (stored_state self.new ≡ record (stored_state self.old) { process_table = enter_thread (stored_state self.old).process_table t.0 (item.Notice n); notice_list = enter_notice (stored_state self.old).notice_list n t.0 }) }
        ensures none { IfNone result (stored_state self.new ≡ stored_state self.old) }
        ensures before { result ≡ find (is_given_notice_as n t.0) (stored_state self.old).notice_list.notices }
        ensures keeps { KeepsPools self.old self.new }
    {
        let Some(notice) = self.notices.enter(n, t) else {
            return None;
        };
        self.processes.enter(t, Item::Notice(n));
        Some(notice)
    }
}
