//! The door calls of a kernel.
ghost use Rattle.std.specs.Prelude.{◌≡◌, ◌+◌, ◌<◌, ◌≤◌, ◌^◌, ℕ, [], true, find, is_some, length, slice_get, IsOk, IsSome, None, OnOk, Some};
ghost use Rattle.std.specs.Option.{option_copied, option_map};
ghost use Rattle.dk_base.specs.declared.error.Errno.TheVariants.{EMFILE};
ghost use Rattle.spec_records.specs.declared.record.Call.{Call};
ghost use Rattle.spec_records.specs.Words.{collect_call, enter_call, fail_call, give_call, is_client_call_of, is_given_as, is_queued_as, is_served_by, is_to_collect_as, live_calls, open_call, return_call};
ghost use Rattle.call_tree.specs.Words.{is_call};
ghost use Rattle.dk_base.specs.Words.{has};
ghost use Rattle.call_tree.specs.Calls.{IsThread, abandon_call, args_in, cancelled_by, dropped_objects, is_called_by, is_given_call, is_ready_of, is_waiting_as, lose_server, outcome_in, parked_thread, queued_call, refuse_call};
ghost use Rattle.call_tree.specs.LiveCalls.{HasRoomForCall};
ghost use Rattle.call_tree.specs.Sound.{AreSound};
ghost use Rattle.call_tree.specs.Walks.{argument_objects, caller_among, door_in, lead_in, root_in};

use crate::index::CallIndex;
use crate::leave::{cancelled_in, given_to, leave, outcome};
use crate::parts::{Abandoned, Args, Leave, Outcome};
use crate::stage::{
    is_client_call_of, is_given, is_given_as, is_queued, is_to_collect_as, is_waiting,
};
use dk_base::error::{Errno, NoMemory};
use dk_base::list::{Bytes, ObjList};
use dk_base::number::Tid;
use dk_base::thread_set::ThreadSet;
use spec_records::record::{Call, CallStage};
use std::alloc::Global;
use std::marker::Model;

/// Door calls, in the order in which they were made: those that are neither answered nor left by a caller that ended, and
/// how many were made in all. Clauses see both (`tree`) and how many further calls take no memory (`spare`).
#[derive(Drop)]
pub struct Calls {
    alloc: Global,
    index: CallIndex,
}

impl Model for Calls {
    ghost use Rattle.call_tree.specs.Index.{tree_in};
    ghost use Rattle.call_tree.specs.LiveCalls.{CallsValue};

    ghost Value = { CallsValue };

    ghost view = { λ s. record { tree = tree_in s.index; spare = s.index.spare } };
}

/// The key of a call that is known to be there.
fn known(key: Option<usize>) -> usize
    requires { IsSome key }
    ensures { key ≡ Some result }
{
    match key {
        Some(key) => key,
        None => 0,
    }
}

impl Calls {
    /// No call was made. It takes no memory.
    pub fn new(alloc: Global) -> Self
        ensures { result.tree ≡ record { made = 0; calls = [] } }
    {
        Calls {
            alloc,
            index: CallIndex::new(alloc),
        }
    }

    /// How many calls were made. The next one's number is one more.
    pub fn made(&self) -> u32
        ensures { result ≡ self.now.tree.made }
    {
        self.index.made()
    }

    /// What the calls are to each other.
    pub fn are_sound(&self)
        ensures { AreSound self.now.tree }
    {
        self.index.are_single();
    }

    /// How many calls there are.
    pub fn len(&self) -> usize
        ensures { result ≡ length self.now.tree.calls }
    {
        self.index.len()
    }

    /// The call at a place in the order in which they were made.
    pub fn at_place(&self, place: usize) -> &Call
        requires { place < length self.now.tree.calls }
        ensures { slice_get self.now.tree.calls place ≡ Some result.now }
    {
        self.index.at_place(place)
    }

    /// The call of a number, where it is live: it was not collected, and its caller did not end.
    pub fn call(&self, c: u32) -> Option<&Call>
        ensures { option_copied result ≡ find (is_call c) self.now.tree.calls }
    {
        match self.index.of_number(c) {
            Some(key) => Some(self.index.at(key)),
            None => None,
        }
    }

    /// The call in which a thread waits.
    pub fn called_by(&self, t: Tid) -> Option<&Call>
        ensures { option_copied result ≡ find (is_called_by t.0) self.now.tree.calls }
    {
        match self.index.of_caller(t) {
            Some(key) => Some(self.index.at(key)),
            None => None,
        }
    }

    /// The call that a thread was given or has entered, where its caller has not left.
    pub fn served_by(&self, t: Tid) -> Option<&Call>
        ensures { option_copied result ≡ find (is_served_by t.0) self.now.tree.calls }
    {
        match self.index.of_server(t) {
            Some(key) => Some(self.index.at(key)),
            None => None,
        }
    }

    /// The call that a thread was given under this number.
    pub fn given(&self, c: u32, t: Tid) -> Option<&Call>
        ensures { option_copied result ≡ find (is_given_as c t.0) self.now.tree.calls }
    {
        let Some(key) = self.index.of_server(t) else {
            return None;
        };
        let call = self.index.at(key);
        if is_given_as(call, c, t) {
            Some(call)
        } else {
            None
        }
    }

    /// The call that a thread has entered, where its caller has not left: that of its client (door_cred(3C), door_return(3C)).
    pub fn client(&self, t: Tid) -> Option<&Call>
        ensures { option_copied result ≡ find (is_client_call_of t.0) self.now.tree.calls }
    {
        let Some(key) = self.index.of_server(t) else {
            return None;
        };
        let call = self.index.at(key);
        if is_client_call_of(call, t) {
            Some(call)
        } else {
            None
        }
    }

    /// The call of a number, where its caller can collect the results or the error.
    pub fn ready_call(&self, c: u32) -> Option<&Call>
        ensures { option_copied result ≡ find (is_to_collect_as c) self.now.tree.calls }
    {
        let Some(key) = self.index.of_number(c) else {
            return None;
        };
        let call = self.index.at(key);
        if is_to_collect_as(call, c) {
            Some(call)
        } else {
            None
        }
    }

    /// The threads whose calls were returned or have ended.
    pub fn collecting(&self) -> ThreadSet
        ensures { (t : ℕ) → has result t ≡ is_some (find (is_ready_of t) self.now.tree.calls) }
    {
        self.index.collecting()
    }

    /// The caller of the call that a thread serves.
    pub fn caller_of(&self, u: Tid) -> Option<Tid>
        ensures { option_map (λ t. t.0) result ≡ caller_among self.now.tree.calls u.0 }
    {
        match self.index.of_server(u) {
            Some(key) => Some(self.index.at(key).caller),
            None => None,
        }
    }

    /// The end of the walk from a thread to the caller of the call that it serves, and so on: the thread itself where it
    /// serves none. Nothing is walked where no thread serves a call of this one.
    pub fn root_of(&self, t: Tid) -> Tid
        ensures { result.0 ≡ root_in self.now.tree t.0 }
    {
        self.index.root_of(t)
    }

    /// The end of the walk from a thread to the thread that serves its call, and so on: the thread itself where none does.
    /// Nothing is walked where the thread serves no call.
    pub fn lead_of(&self, t: Tid) -> Tid
        ensures { result.0 ≡ lead_in self.now.tree t.0 }
    {
        self.index.lead_of(t)
    }

    /// The number of the door of a call.
    pub fn door_of(&self, c: u32) -> u32
        requires { IsSome (find (is_call c) self.now.tree.calls) }
        ensures { door_in (find (is_call c) self.now.tree.calls) ≡ Some result }
    {
        let key = known(self.index.of_number(c));
        self.index.at(key).door
    }

    /// How many objects come with the arguments of a call that no thread has entered.
    pub fn objects_of(&self, c: u32) -> usize
        requires { IsSome (find (is_waiting_as c) self.now.tree.calls) }
        ensures { result ≡ length (argument_objects (find (is_call c) self.now.tree.calls)) }
    {
        let key = known(self.index.of_number(c));
        self.index.at(key).objects.len()
    }

    /// Whether a call waits for a server thread.
    pub fn is_queued(&self, c: u32) -> bool
        ensures { result ≡ is_some (find (is_queued_as c) self.now.tree.calls) }
    {
        match self.index.of_number(c) {
            Some(key) => is_queued(&self.index.at(key).stage),
            None => false,
        }
    }

    /// Whether a call was given to a thread, which has not entered it.
    pub fn is_given(&self, c: u32) -> bool
        ensures { result ≡ is_some (find (is_given_call c) self.now.tree.calls) }
    {
        match self.index.of_number(c) {
            Some(key) => is_given(&self.index.at(key).stage),
            None => false,
        }
    }

    /// Whether no thread has entered a call, and it has not ended.
    pub fn is_waiting(&self, c: u32) -> bool
        ensures { result ≡ is_some (find (is_waiting_as c) self.now.tree.calls) }
    {
        match self.index.of_number(c) {
            Some(key) => is_waiting(&self.index.at(key).stage),
            None => false,
        }
    }

    /// Whether a thread's call was returned or ended.
    pub fn ready(&self, caller: Tid) -> bool
        ensures { result ≡ is_some (find (is_ready_of caller.0) self.now.tree.calls) }
    {
        self.index.collecting().has(caller)
    }

    /// Room for another call. Want of memory leaves the calls as they were, and does not come where there is room.
    pub fn reserve(&mut self) -> Result<(), NoMemory>
        ensures tree { self.new.tree ≡ self.old.tree }
        ensures room { OnOk result (HasRoomForCall self.new) }
        ensures kept { self.old.spare ≤ self.new.spare }
        ensures succeeds { HasRoomForCall self.old → IsOk result }
    {
        self.index.reserve()
    }

    /// Another call (door_call(3C)), which waits, by a thread that waits in none, at the event `made`. Its number is answered. It
    /// takes no memory.
    pub fn open_call(
        &mut self,
        caller: Tid,
        door: u32,
        args: Args,
        rsize: u64,
        no_cancel: bool,
        made: u64,
    ) -> u32
        requires room { HasRoomForCall self.old }
        requires numbers { self.old.tree.made + 1 < 2 ^ 32 }
        requires thread { IsThread caller.0 }
        requires waits_not { find (is_called_by caller.0) self.old.tree.calls ≡ None }
        ensures number { result ≡ self.old.tree.made + 1 }
        ensures tree { self.new.tree ≡ open_call self.old.tree (queued_call result made caller.0 door args.bytes args.objects rsize no_cancel) }
        ensures spare { self.old.spare ≤ self.new.spare + 1 }
    {
        let number = self.index.made() + 1;
        self.index.open(Call {
            number,
            made,
            caller,
            door,
            bytes: args.bytes,
            objects: args.objects,
            rsize,
            no_cancel,
            abandoned: false,
            stage: CallStage::Queued,
        });
        number
    }

    /// A waiting call is given to a thread, which serves no call and waits in none.
    pub fn give(&mut self, c: u32, u: Tid)
        requires queued { IsSome (find (is_queued_as c) self.old.tree.calls) }
        requires serves_none { find (is_served_by u.0) self.old.tree.calls ≡ None }
        requires waits_not { find (is_called_by u.0) self.old.tree.calls ≡ None }
        requires thread { IsThread u.0 }
        ensures tree { self.new.tree ≡ give_call self.old.tree c u.0 }
        ensures spare { self.new.spare ≡ self.old.spare }
    {
        let key = known(self.index.of_number(c));
        self.index.give(key, u);
    }

    /// The thread that a call was given to enters it. The arguments are handed out.
    pub fn enter_inv(&mut self, c: u32) -> Args
        requires { IsSome (find (is_given_call c) self.old.tree.calls) }
        ensures tree { (t : ℕ) → IsSome (find (is_given_as c t) self.old.tree.calls) → self.new.tree ≡ enter_call self.old.tree c t }
        ensures args { args_in (find (is_call c) self.old.tree.calls) ≡ Some result }
        ensures spare { self.new.spare ≡ self.old.spare }
    {
        let key = known(self.index.of_number(c));
        let call = self.index.enter(self.alloc, key);
        Args {
            bytes: call.bytes,
            objects: call.objects,
        }
    }

    /// A call that no thread has entered ends with an error. Its objects are handed out.
    pub fn refuse(&mut self, c: u32, e: Errno) -> ObjList
        requires { IsSome (find (is_waiting_as c) self.old.tree.calls) }
        ensures tree { self.new.tree ≡ refuse_call self.old.tree c e }
        ensures failed { (t : ℕ) → IsSome (find (is_given_as c t) self.old.tree.calls) → e ≡ EMFILE → self.new.tree ≡ fail_call self.old.tree c t }
        ensures objects { result ≡ argument_objects (find (is_call c) self.old.tree.calls) }
        ensures spare { self.new.spare ≡ self.old.spare }
    {
        let key = known(self.index.of_number(c));
        let call = self
            .index
            .end(self.alloc, key, CallStage::Ended { error: e }, false);
        call.objects
    }

    /// A thread returns to its client (door_return(3C)), and serves no call any more.
    pub fn finish(&mut self, u: Tid, bytes: Bytes, objects: ObjList)
        requires { IsSome (find (is_client_call_of u.0) self.old.tree.calls) }
        ensures tree { self.new.tree ≡ return_call self.old.tree u.0 bytes objects }
        ensures spare { self.new.spare ≡ self.old.spare }
    {
        let key = known(self.index.of_server(u));
        let returned = CallStage::Returned { bytes, objects };
        self.index.end(self.alloc, key, returned, false);
    }

    /// A thread without a client returns. Its caller cut the chain when it left, so nothing is left to do.
    pub fn drop_service(&mut self, u: Tid)
        requires { find (is_served_by u.0) self.old.tree.calls ≡ None }
        ensures { self.new ≡ self.old }
    {}

    /// A caller leaves its call: it is interrupted, and collects EINTR unless the call was returned or ended before, or it ends,
    /// and the call is forgotten.
    pub fn abandon(&mut self, caller: Tid, why: Leave) -> Abandoned
        requires { IsSome (find (is_called_by caller.0) self.old.tree.calls) }
        ensures tree { self.new.tree ≡ abandon_call self.old.tree caller.0 why }
        ensures dropped { result.dropped ≡ dropped_objects why (find (is_called_by caller.0) self.old.tree.calls) }
        ensures parked { option_map (λ t. t.0) result.parked ≡ parked_thread (find (is_called_by caller.0) self.old.tree.calls) }
        ensures cancelled { option_map (λ t. t.0) result.cancelled ≡ cancelled_by (find (is_called_by caller.0) self.old.tree.calls) }
        ensures spare { self.old.spare ≤ self.new.spare }
    {
        let key = known(self.index.of_caller(caller));
        let call = self.index.at(key);
        let parked = given_to(&call.stage);
        let cancelled = cancelled_in(call);
        let dropped = leave(self.alloc, &mut self.index, key, why);
        Abandoned {
            dropped,
            parked,
            cancelled,
        }
    }

    /// A thread ends. The call that it serves ends EINTR, and the objects of its arguments are handed out.
    pub fn server_left(&mut self, u: Tid) -> ObjList
        ensures tree { self.new.tree ≡ lose_server self.old.tree u.0 }
        ensures objects { result ≡ argument_objects (find (is_served_by u.0) self.old.tree.calls) }
        ensures spare { self.new.spare ≡ self.old.spare }
    {
        let Some(key) = self.index.of_server(u) else {
            return ObjList::new(self.alloc);
        };
        let ended = CallStage::Ended {
            error: Errno::EINTR,
        };
        self.index.end(self.alloc, key, ended, false).objects
    }

    /// A caller collects its call, which leaves.
    pub fn collect(&mut self, caller: Tid) -> Outcome
        requires { IsSome (find (is_ready_of caller.0) self.old.tree.calls) }
        ensures tree { (call : Call) → find (is_called_by caller.0) self.old.tree.calls ≡ Some call → (at : ℕ) → self.new.tree ≡ live_calls (collect_call self.old.tree call.number at) }
        ensures outcome { outcome_in (find (is_called_by caller.0) self.old.tree.calls) ≡ Some result }
        ensures spare { self.old.spare < self.new.spare }
    {
        let key = known(self.index.of_caller(caller));
        outcome(self.index.remove(key))
    }
}
