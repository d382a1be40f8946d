//! The records of door calls in the order in which they were made, each under a key that stays its own while it is kept.
#![tactic(auto)]

ghost use Rattle.std.specs.Prelude.{◌≡◌, ℕ, true, false, nat_lt, ◌<◌, ◌≤◌, ◌+◌, ◌++◌, ◌==◌, ◌∷◌, [], IsOk, OnOk, Some, None, find, length, position, slice_get};
ghost use Rattle.std.specs.List.{position_or_len};
ghost use Rattle.std.specs.List.Sorted.{IsNonDecreasingBy, IsPartitionPoint};
ghost use Rattle.slab.specs.Slab.{get};
ghost use Rattle.spec_records.specs.Words.{IsAscending, at_stage, call_number};
ghost use Rattle.spec_records.specs.declared.record.Call.{Call};
ghost use Rattle.call_tree.specs.Kept.{HasKey, IsFound, calls_in, is_call, look, number_in, passes, with_call, without_key};

use dk_base::error::NoMemory;
use slab::Slab;
use spec_records::record::{Call, CallStage};
use std::alloc::Global;
use std::marker::Model;
use std::mem;

/// Calls in a slab, and their keys in the order in which they were made. Clauses see the calls with their keys in that order.
#[derive(Drop)]
pub struct Records {
    slab: Slab<Call>,
    order: Vec<usize>,
}

impl Model for Records {
    ghost use Rattle.slab.specs.Slab.{get, slab_len};
    ghost use Rattle.std.specs.Prelude.{◌-◌, min, vec_len, vec_capacity, length};
    ghost use Rattle.call_tree.specs.Kept.{RecordsValue, entries_of, AreKept};

    ghost Value = { RecordsValue };

    ghost view = { λ s. record {
      entries = entries_of (get s.slab) s.order.items;
      spare = min (s.slab.capacity - slab_len s.slab) (vec_capacity s.order - vec_len s.order);
    } };

    ghost invariant = { λ s. AreKept (get s.slab) s.order.items };
}

fn position_of(order: &[usize], key: usize) -> Option<usize>
    ensures { result ≡ position (λ k. k == key) order.now }
{
    order.iter().position(|k| *k == key)
}

/// The place of a key, or the length.
fn place_of(order: &[usize], key: usize) -> usize
    ensures { result ≡ position_or_len (λ k. k == key) order.now }
{
    match position_of(order, key) {
        Some(place) => place,
        None => order.len(),
    }
}

/// Whether the call of a key has this number.
fn is_numbered(slab: &Slab<Call>, key: usize, c: u32) -> bool
    ensures { result ≡ passes (is_call c) (get slab.now key) }
{
    match slab.get(key) {
        Some(call) => call.number == c,
        None => false,
    }
}

/// Whether the number of a key's call is below this one.
fn is_below(slab: &Slab<Call>, key: usize, c: u32) -> bool
    ensures { result ≡ nat_lt (number_in (get slab.now key)) c }
{
    match slab.get(key) {
        Some(call) => call.number < c,
        None => 0 < c,
    }
}

/// How many keys have calls of smaller numbers. They stand first.
fn count_below(slab: &Slab<Call>, order: &[usize], c: u32) -> usize
    requires { IsNonDecreasingBy (λ k. number_in (get slab.now k)) order.now }
    ensures { IsPartitionPoint (λ k. nat_lt (number_in (get slab.now k)) c ≡ true) (λ k. nat_lt (number_in (get slab.now k)) c ≡ false) order.now result }
{
    order.partition_point(|key| is_below(slab, *key, c))
}

impl Records {
    /// No record. It takes no memory.
    pub fn new(alloc: Global) -> Self
        ensures { result.entries ≡ [] }
    {
        Records {
            slab: Slab::new(alloc),
            order: Vec::new(alloc),
        }
    }

    /// Room for another record. Want of memory leaves the records as they were.
    pub fn reserve(&mut self) -> Result<(), NoMemory>
        ensures entries { self.new.entries ≡ self.old.entries }
        ensures room { OnOk result (0 < self.new.spare) }
        ensures kept { self.old.spare ≤ self.new.spare }
        ensures succeeds { 0 < self.old.spare → IsOk result }
    {
        let Ok(()) = self.slab.reserve(1) else {
            return Err(NoMemory);
        };
        match self.order.reserve(1) {
            Ok(()) => Ok(()),
            Err(_) => Err(NoMemory),
        }
    }

    pub fn len(&self) -> usize
        ensures { result ≡ length self.now.entries }
    {
        self.order.len()
    }

    /// The record at a place in the order in which they were made.
    pub fn at_place(&self, place: usize) -> &Call
        requires { place < length self.now.entries }
        ensures { slice_get (calls_in self.now.entries) place ≡ Some result.now }
    {
        &self.slab[self.order[place]]
    }

    /// The key of the call of a number, where the calls stand in order of number.
    pub fn key_of(&self, c: u32) -> Option<usize>
        requires { (made : ℕ) × IsAscending call_number 0 made (calls_in self.now.entries) }
        ensures { IsFound (is_call c) self.now.entries result }
    {
        let place = count_below(&self.slab, &self.order, c);
        if place >= self.order.len() {
            return None;
        }
        let key = self.order[place];
        if is_numbered(&self.slab, key, c) {
            Some(key)
        } else {
            None
        }
    }

    pub fn at(&self, key: usize) -> &Call
        requires { HasKey self.now.entries key }
        ensures { look key self.now.entries ≡ Some result.now }
    {
        &self.slab[key]
    }

    /// Another record after the others, under the key that is answered. It takes no memory.
    pub fn push(&mut self, call: Call) -> usize
        requires { 0 < self.old.spare }
        ensures entries { self.new.entries ≡ self.old.entries ++ (result, call) ∷ [] }
        ensures fresh { look result self.old.entries ≡ None }
        ensures bound { result + 1 < 18446744073709551616 }
        ensures spare { self.old.spare ≤ self.new.spare + 1 }
    {
        let key = self.slab.insert_reserved(call);
        let _room = self.slab.capacity();
        self.order.push_reserved(key);
        key
    }

    /// Another record in the place of one, which is handed out.
    pub fn replace(&mut self, key: usize, call: Call) -> Call
        requires { HasKey self.old.entries key }
        ensures after { self.new ≡ record self.old { entries = with_call key call self.old.entries } }
        ensures before { look key self.old.entries ≡ Some result }
    {
        let slot = &mut self.slab[key];
        mem::replace(slot, call)
    }

    /// Another stage of a call.
    pub fn set_stage(&mut self, key: usize, stage: CallStage)
        requires { HasKey self.old.entries key }
        ensures { (call : Call) → look key self.old.entries ≡ Some call → self.new ≡ record self.old { entries = with_call key (at_stage stage call) self.old.entries } }
    {
        let slot = &mut self.slab[key];
        slot.stage = stage;
    }

    /// A record leaves, and is handed out.
    pub fn remove(&mut self, key: usize) -> Call
        requires { HasKey self.old.entries key }
        ensures after { self.new.entries ≡ without_key key self.old.entries }
        ensures before { look key self.old.entries ≡ Some result }
        ensures room { self.old.spare < self.new.spare }
    {
        let place = place_of(&self.order, key);
        self.order.remove(place);
        self.slab.remove(key)
    }
}
