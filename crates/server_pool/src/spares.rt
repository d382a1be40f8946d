//! The spare threads of one process.
ghost use Rattle.std.specs.Prelude.{◌≡◌, ◌↔◌, [], IsTrue, OnErr, OnOk, nat_lt};
ghost use Rattle.std.specs.List.{list_all};
ghost use Rattle.std.specs.Option.{option_map};
ghost use Rattle.dk_base.specs.ByNumber.{at_number};
ghost use Rattle.server_pool.specs.Words.{AllBelow, IsAscending, change_at_number, lowest_spare, spares_or_none, with_spare, without_highest, without_lowest, without_spare};

use crate::numbered::place_of;
use dk_base::error::NoMemory;
use dk_base::number::Tid;
use std::alloc::Global;
use std::collections::VecDeque;
use std::marker::Model;

/// The spare threads of a process that were not started. Clauses see their numbers, the lowest first.
#[derive(Drop)]
pub struct Spares {
    threads: VecDeque<u32>,
}

impl Model for Spares {
    ghost use Rattle.std.specs.Prelude.{ℕ, List};
    ghost use Rattle.server_pool.specs.Words.{IsAscending};

    ghost Value = { List ℕ };

    ghost view = { λ s. s.threads.items };

    ghost invariant = { λ s. IsAscending s.threads.items };
}

fn all_below(threads: &VecDeque<u32>, t: Tid) -> bool
    ensures { result ≡ list_all (λ u. nat_lt u t.0) threads.now.items }
{
    threads.iter().all(|u| *u < t.0)
}

fn remove_spare(threads: &mut VecDeque<u32>, t: Tid)
    ensures { threads.new.items ≡ without_spare t.0 threads.old.items }
{
    threads.retain(|u| *u != t.0);
}

impl Spares {
    /// None.
    pub fn new(alloc: Global) -> Self
        ensures { result ≡ [] }
    {
        Spares {
            threads: VecDeque::new(alloc),
        }
    }

    /// Whether a number is above all of them.
    pub fn are_below(&self, t: Tid) -> bool
        ensures { IsTrue result ↔ AllBelow t.0 self.now }
    {
        all_below(&self.threads, t)
    }

    /// Another spare, above the others. Want of memory changes nothing.
    pub fn add(&mut self, t: Tid) -> Result<(), NoMemory>
        requires { AllBelow t.0 self.old }
        ensures ok { OnOk result (self.new ≡ with_spare t.0 self.old) }
        ensures err { OnErr result (self.new ≡ self.old) }
    {
        match self.threads.push_back(t.0) {
            Ok(()) => Ok(()),
            Err(_) => Err(NoMemory),
        }
    }

    /// The lowest leaves, where there is one.
    pub fn take(&mut self) -> Option<Tid>
        ensures result { option_map (λ t. t.0) result ≡ lowest_spare self.old }
        ensures left { self.new ≡ without_lowest self.old }
        ensures ascending { IsAscending self.old }
    {
        let lowest = self.threads.pop_front()?;
        Some(Tid(lowest))
    }

    /// The highest leaves, where there is one.
    #[tactic(auto, using(crate::proofs::Order::ordered_take))]
    pub fn take_back(&mut self)
        ensures { self.new ≡ without_highest self.old }
    {
        let left = self.threads.len().saturating_sub(1);
        self.threads.truncate(left);
    }

    /// A thread leaves, if it is one of them; the others keep their order.
    pub fn withdraw(&mut self, t: Tid)
        ensures { self.new ≡ without_spare t.0 self.old }
    {
        remove_spare(&mut self.threads, t);
    }
}

/// Another spare of a process, above the others. Want of memory changes nothing.
#[tactic(auto, using(spec_records::proofs::Places::numbered_here))]
pub fn add_spare_at(spares: &mut [Spares], number: u32, t: Tid) -> Result<(), NoMemory>
    requires { AllBelow t.0 (spares_or_none (at_number spares.old number)) }
    ensures ok { OnOk result (spares.new ≡ change_at_number spares.old number (with_spare t.0)) }
    ensures err { OnErr result (spares.new ≡ spares.old) }
{
    match place_of(spares, number) {
        Some(place) => {
            let of_process = &mut spares[place];
            of_process.add(t)
        }
        None => Ok(()),
    }
}

/// The lowest spare of a process leaves, where it has one.
#[tactic(auto, using(spec_records::proofs::Places::numbered_here))]
pub fn take_spare_at(spares: &mut [Spares], number: u32) -> Option<Tid>
    ensures result { option_map (λ t. t.0) result ≡ lowest_spare (spares_or_none (at_number spares.old number)) }
    ensures left { spares.new ≡ change_at_number spares.old number without_lowest }
    ensures ascending { IsAscending (spares_or_none (at_number spares.old number)) }
{
    match place_of(spares, number) {
        Some(place) => {
            let of_process = &mut spares[place];
            of_process.take()
        }
        None => None,
    }
}

/// The highest spare of a process leaves, where it has one.
#[tactic(auto, using(spec_records::proofs::Places::numbered_here))]
pub fn take_back_at(spares: &mut [Spares], number: u32)
    ensures { spares.new ≡ change_at_number spares.old number without_highest }
{
    if let Some(place) = place_of(spares, number) {
        let of_process = &mut spares[place];
        of_process.take_back();
    }
}

/// A thread is no spare of a process any more, if it was one.
#[tactic(auto, using(spec_records::proofs::Places::numbered_here))]
pub fn withdraw_spare_at(spares: &mut [Spares], number: u32, t: Tid)
    ensures { spares.new ≡ change_at_number spares.old number (without_spare t.0) }
{
    if let Some(place) = place_of(spares, number) {
        let of_process = &mut spares[place];
        of_process.withdraw(t);
    }
}
