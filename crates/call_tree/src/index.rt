//! The live calls by their keys, found by caller, by server and by number, with the shuttles of their chains.
ghost use Rattle.std.specs.Prelude.{◌≡◌, ◌<◌, ◌≤◌, ◌+◌, ◌++◌, ◌∷◌, [], ℕ, true, find, is_some, length, slice_get, IsOk, IsSome, None, OnOk, Some};
ghost use Rattle.spec_records.specs.declared.record.Call.{Call};
ghost use Rattle.spec_records.specs.declared.record.CallStage.TheVariants as stage;
ghost use Rattle.spec_records.specs.Words.{IsAscending, at_stage, call_number, is_given_to, is_served_by, is_to_collect, tid, without_arguments_at};
ghost use Rattle.call_tree.specs.Words.{HasKey, IsFound, calls_in, is_call, look, with_call, without_key};
ghost use Rattle.call_tree.specs.Words.{LinksValue, at};
ghost use Rattle.call_tree.specs.Calls.{IsThread, is_called_by, is_given, is_ready_of};
ghost use Rattle.dk_base.specs.Words.{has};
ghost use Rattle.call_tree.specs.Index.{AreSingle, IsSound, Released, moved_to, server_number, tree_in};
ghost use Rattle.call_tree.specs.Walks.{lead_in, root_in};

use crate::records::Records;
use crate::shuttles::Shuttles;
use crate::stage::{entered, server_number};
use dk_base::error::NoMemory;
use dk_base::list::{Bytes, ObjList};
use dk_base::number::Tid;
use dk_base::thread_set::ThreadSet;
use spec_records::record::{Call, CallStage};
use std::alloc::Global;
use std::marker::Model;

/// Calls by their keys. Of each thread, the key of its call and that of the call which it serves, each one more; 0 is none.
#[derive(Drop)]
pub struct CallIndex {
    links: Shuttles,
    records: Records,
    callers: [usize; 65],
    servers: [usize; 65],
    /// The callers whose calls were returned or have ended.
    collecting: ThreadSet,
}

impl Model for CallIndex {
    ghost use Rattle.call_tree.specs.Words.{look};
    ghost use Rattle.call_tree.specs.Words.{at};
    ghost use Rattle.call_tree.specs.Index.{AreCollecting, IndexValue, IsWhole};

    ghost Value = { IndexValue };

    ghost view = { λ s. record { made = s.links.top; entries = s.records.entries; spare = s.records.spare } };

    ghost invariant = { λ s. IsWhole s.links s.records.entries s.callers s.servers × AreCollecting (λ k. look k s.records.entries) (at s.callers) s.collecting };
}

fn zeros() -> [usize; 65]
    ensures { (t : ℕ) → at result t ≡ 0 }
{
    [0; 65]
}

/// What an index has of a thread.
fn place(places: &[usize; 65], t: Tid) -> usize
    ensures { result ≡ at places.now t.0 }
{
    match places.get(t.0 as usize) {
        Some(place) => *place,
        None => 0,
    }
}

/// The token goes up to the caller of the call that a thread serves; 0 is none.
fn release(links: &mut Shuttles, servers: &mut [usize; 65], u: u32)
    requires { 0 < u → (u ≤ 64) × (0 < at links.old.up u) }
    ensures { Released u links.old links.new servers.old servers.new }
{
    if u != 0 {
        servers[u as usize] = 0;
        links.unlink(u);
    }
}

/// A call at a stage, which its arguments leave.
fn moved(alloc: Global, call: &Call, stage: CallStage, abandoned: bool) -> Call
    ensures { result ≡ moved_to stage abandoned call.now }
{
    Call {
        number: call.number,
        made: call.made,
        caller: call.caller,
        door: call.door,
        bytes: Bytes::new(alloc),
        objects: ObjList::new(alloc),
        rsize: call.rsize,
        no_cancel: call.no_cancel,
        abandoned,
        stage,
    }
}

impl CallIndex {
    pub fn new(alloc: Global) -> Self
        ensures made { result.made ≡ 0 }
        ensures entries { result.entries ≡ [] }
    {
        CallIndex {
            links: Shuttles::new(),
            records: Records::new(alloc),
            callers: zeros(),
            servers: zeros(),
            collecting: ThreadSet::new(),
        }
    }

    pub fn made(&self) -> u32
        ensures { result ≡ self.now.made }
    {
        self.links.top()
    }

    /// What keys say of calls.
    pub fn are_single(&self)
        ensures single { AreSingle self.now.entries }
        ensures rising { IsAscending call_number 0 self.now.made (calls_in self.now.entries) }
    {
        let _read = self.links.top();
    }

    pub fn reserve(&mut self) -> Result<(), NoMemory>
        ensures same { self.new ≡ record self.old { spare = self.new.spare } }
        ensures room { OnOk result (0 < self.new.spare) }
        ensures kept { self.old.spare ≤ self.new.spare }
        ensures succeeds { 0 < self.old.spare → IsOk result }
    {
        self.records.reserve()
    }

    pub fn len(&self) -> usize
        ensures { result ≡ length self.now.entries }
    {
        self.records.len()
    }

    pub fn at_place(&self, place: usize) -> &Call
        requires { place < length self.now.entries }
        ensures call { slice_get (calls_in self.now.entries) place ≡ Some result.now }
        ensures single { AreSingle self.now.entries }
    {
        self.records.at_place(place)
    }

    pub fn root_of(&self, t: Tid) -> Tid
        ensures { result.0 ≡ root_in (tree_in self.now) t.0 }
    {
        Tid(self.links.root_of(t.0))
    }

    pub fn lead_of(&self, t: Tid) -> Tid
        ensures { result.0 ≡ lead_in (tree_in self.now) t.0 }
    {
        Tid(self.links.lead_of(t.0))
    }

    /// The key of the call of a number.
    pub fn of_number(&self, c: u32) -> Option<usize>
        ensures found { IsFound (is_call c) self.now.entries result }
        ensures single { AreSingle self.now.entries }
    {
        self.records.key_of(c)
    }

    /// The key of the call in which a thread waits.
    pub fn of_caller(&self, t: Tid) -> Option<usize>
        ensures found { IsFound (is_called_by t.0) self.now.entries result }
        ensures single { AreSingle self.now.entries }
    {
        match place(&self.callers, t) {
            0 => None,
            next => Some(next - 1),
        }
    }

    /// The key of the call that a thread serves.
    pub fn of_server(&self, t: Tid) -> Option<usize>
        ensures found { IsFound (is_served_by t.0) self.now.entries result }
        ensures single { AreSingle self.now.entries }
    {
        match place(&self.servers, t) {
            0 => None,
            next => Some(next - 1),
        }
    }

    /// The callers whose calls were returned or have ended.
    pub fn collecting(&self) -> ThreadSet
        ensures { (t : ℕ) → has result t ≡ is_some (find (is_ready_of t) (calls_in self.now.entries)) }
    {
        self.collecting
    }

    pub fn at(&self, key: usize) -> &Call
        requires { HasKey self.now.entries key }
        ensures call { look key self.now.entries ≡ Some result.now }
        ensures single { AreSingle self.now.entries }
    {
        self.records.at(key)
    }

    /// Another call, which waits. It takes no memory.
    pub fn open(&mut self, call: Call)
        requires room { 0 < self.old.spare }
        requires next { call.number ≡ self.old.made + 1 }
        requires queued { call.stage ≡ stage.Queued }
        requires sound { IsSound call }
        requires waits_not { find (is_called_by call.caller.0) (calls_in self.old.entries) ≡ None }
        ensures tree { tree_in self.new ≡ record { made = call.number; calls = calls_in self.old.entries ++ call ∷ [] } }
        ensures spare { self.old.spare ≤ self.new.spare + 1 }
    {
        self.links.raise(call.number);
        let caller = call.caller.0;
        let key = self.records.push(call);
        self.callers[caller as usize] = key + 1;
    }

    /// The token goes down to the thread that a waiting call is given to.
    pub fn give(&mut self, key: usize, u: Tid)
        requires queued { (call : Call) × (look key self.old.entries ≡ Some call) × (call.stage ≡ stage.Queued) }
        requires serves_none { find (is_served_by u.0) (calls_in self.old.entries) ≡ None }
        requires waits_not { find (is_called_by u.0) (calls_in self.old.entries) ≡ None }
        requires thread { IsThread u.0 }
        ensures { (call : Call) → look key self.old.entries ≡ Some call → self.new ≡ record self.old { entries = with_call key (at_stage (stage.Given (tid u.0)) call) self.old.entries } }
    {
        let call = self.records.at(key);
        let caller = call.caller.0;
        let number = call.number;
        self.records.set_stage(key, CallStage::Given { to: u });
        self.servers[u.0 as usize] = self.callers[caller as usize];
        self.links.link(caller, u.0, number);
    }

    /// A thread enters the call that it was given. The record as it was is handed out.
    pub fn enter(&mut self, alloc: Global, key: usize) -> Call
        requires { (call : Call) × (look key self.old.entries ≡ Some call) × (is_given call.stage ≡ true) }
        ensures before { look key self.old.entries ≡ Some result }
        ensures after { (t : ℕ) → is_given_to t result.stage ≡ true → self.new ≡ record self.old { entries = with_call key (without_arguments_at (stage.Entered (tid t)) result) self.old.entries } }
    {
        let call = self.records.at(key);
        let next = moved(alloc, call, entered(&call.stage), call.abandoned);
        self.records.replace(key, next)
    }

    /// A call is returned or ends, so that no thread serves it. The record as it was is handed out.
    pub fn end(&mut self, alloc: Global, key: usize, stage: CallStage, abandoned: bool) -> Call
        requires has { HasKey self.old.entries key }
        requires ended { is_to_collect stage ≡ true }
        ensures before { look key self.old.entries ≡ Some result }
        ensures after { self.new ≡ record self.old { entries = with_call key (moved_to stage abandoned result) self.old.entries } }
    {
        let call = self.records.at(key);
        let u = server_number(call);
        self.collecting.put(call.caller, true);
        let next = moved(alloc, call, stage, abandoned);
        release(&mut self.links, &mut self.servers, u);
        self.records.replace(key, next)
    }

    /// A call leaves, and is handed out.
    pub fn remove(&mut self, key: usize) -> Call
        requires { HasKey self.old.entries key }
        ensures single { AreSingle self.old.entries }
        ensures before { look key self.old.entries ≡ Some result }
        ensures after { self.new ≡ record { made = self.old.made; entries = without_key key self.old.entries; spare = self.new.spare } }
        ensures spare { self.old.spare < self.new.spare }
    {
        let call = self.records.at(key);
        let caller = call.caller.0;
        let u = server_number(call);
        release(&mut self.links, &mut self.servers, u);
        self.collecting.put(Tid(caller), false);
        self.callers[caller as usize] = 0;
        self.records.remove(key)
    }
}
