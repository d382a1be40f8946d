//! The timers that have a moment to come, in order of number.
ghost use Rattle.std.specs.Prelude.{◌≡◌, ◌+◌, ◌<◌, ◌≤◌, ◌++◌, ℕ, [], ◌∷◌, IsOk, OnOk, false, filter, length, true};
ghost use Rattle.std.specs.List.Sorted.{IsPartitionPoint, IsPartitionedBy};
ghost use Rattle.dk_base.specs.declared.limits.TheConstants.{CLOCK_LAST};
ghost use Rattle.spec_records.specs.Words.{IsAscending};
ghost use Rattle.timer_src.specs.Pending.{is_above, is_at, is_below, is_pending_of_other, pending_number, stepped_all, told};

use crate::pending::{Pending, step, tell};
use dk_base::error::NoMemory;
use dk_base::list::Room;
use dk_base::number::Pid;
use spec_records::timer::Due;
use std::alloc::Global;
use std::marker::Model;

/// The timers that have a moment to come, in order of number: no other is looked at as the clock moves on. Clauses see them, and how
/// many fit without memory (`capacity`).
#[derive(Drop)]
pub struct Armed {
    pendings: Vec<Pending>,
}

impl Model for Armed {
    ghost use Rattle.std.specs.Prelude.{vec_capacity};
    ghost use Rattle.timer_src.specs.Pending.{ArmedValue};

    ghost Value = { ArmedValue };

    ghost view = { λ a. record { items = a.pendings.items; capacity = vec_capacity a.pendings } };
}

/// How many have smaller numbers. They stand first.
fn count_below(pendings: &[Pending], number: u32) -> usize
    requires { IsPartitionedBy (is_below number) pendings.now }
    ensures within { result ≤ length pendings.now }
    ensures point { IsPartitionPoint (λ p. is_below number p ≡ true) (λ p. is_below number p ≡ false) pendings.now result }
{
    pendings.partition_point(|p| p.number < number)
}

/// Whether the one at a place has this number.
fn is_at(pendings: &[Pending], place: usize, number: u32) -> bool
    ensures there { result ≡ is_at number pendings.now place }
    ensures within { result ≡ true → place < length pendings.now }
{
    match pendings.get(place) {
        Some(p) => p.number == number,
        None => false,
    }
}

impl Armed {
    /// None, and no room.
    pub fn new(alloc: Global) -> Self
        ensures { result.items ≡ [] }
    {
        Armed {
            pendings: Vec::new(alloc),
        }
    }

    /// Room for so many in all. Want of memory leaves all but the room as it was.
    pub fn reserve(&mut self, n: usize) -> Result<(), NoMemory>
        ensures items { self.new.items ≡ self.old.items }
        ensures room { OnOk result (n ≤ self.new.capacity) }
        ensures kept { self.old.capacity ≤ self.new.capacity }
        ensures succeeds { n ≤ self.old.capacity → IsOk result }
    {
        if n <= self.pendings.capacity() {
            return Ok(());
        }
        match self.pendings.reserve(n) {
            Ok(()) => Ok(()),
            Err(_) => Err(NoMemory),
        }
    }

    /// One, in place of that of its number, if there is one. It is looked for by halves. It takes no memory.
    pub fn put(&mut self, p: Pending)
        requires order { (made : ℕ) × IsAscending pending_number 0 made self.old.items }
        requires room { length (filter (is_below p.number) self.old.items ++ filter (is_above p.number) self.old.items) < self.old.capacity }
        ensures items { self.new.items ≡ filter (is_below p.number) self.old.items ++ p ∷ filter (is_above p.number) self.old.items }
        ensures capacity { self.new.capacity ≡ self.old.capacity }
    {
        let place = count_below(self.pendings.as_slice(), p.number);
        if is_at(self.pendings.as_slice(), place, p.number) {
            self.pendings[place] = p;
        } else {
            self.pendings.insert(place, p).unwrap();
        }
    }

    /// The one of a number leaves, if there is one. It is looked for by halves.
    pub fn remove(&mut self, number: u32)
        requires { (made : ℕ) × IsAscending pending_number 0 made self.old.items }
        ensures items { self.new.items ≡ filter (is_below number) self.old.items ++ filter (is_above number) self.old.items }
        ensures capacity { self.new.capacity ≡ self.old.capacity }
    {
        let place = count_below(self.pendings.as_slice(), number);
        if is_at(self.pendings.as_slice(), place, number) {
            self.pendings.remove(place);
        }
    }

    /// Those of a process leave, in one pass.
    pub fn end_process(&mut self, process: Pid)
        ensures items { self.new.items ≡ filter (is_pending_of_other process.0) self.old.items }
        ensures capacity { self.new.capacity ≡ self.old.capacity }
    {
        self.pendings.retain(|p| p.process != process.0);
    }

    /// The clock moves on to this: what is due is told in order, and each has its first moment after the clock, or leaves where there is
    /// none. It takes no memory.
    pub fn advance(&mut self, clock: u64, into: &mut Room<Due>)
        requires late { clock ≤ CLOCK_LAST }
        requires room { length self.old.items ≤ into.old.spare }
        ensures told { into.new.items ≡ into.old.items ++ told clock self.old.items }
        ensures places { length into.old.items + into.old.spare ≤ length into.new.items + into.new.spare }
        ensures items { self.new.items ≡ stepped_all clock self.old.items }
        ensures capacity { self.new.capacity ≡ self.old.capacity }
    {
        tell(self.pendings.as_slice(), clock, into);
        step(self.pendings.as_mut_slice(), clock);
        self.pendings.retain(|p| p.next > clock);
    }
}
