//! One variable, with room that is taken once.
ghost use Rattle.std.specs.Prelude.{◌≡◌, ◌≤◌, length, IfOk, MatchOption, slice_get};
ghost use Rattle.spec_requests.specs.Words.{greatest_data as greatest_data_of, with_both};
ghost use Rattle.thread_machine.specs.Slots.{empty_slot, greatest_descriptors as greatest_descriptors_of, greatest_name as greatest_name_of, visible_value};

use crate::fill::{fill, first_items};
use dk_base::error::NoMemory;
use dk_base::list::Room;
use dk_base::number::Fd;
use std::alloc::Global;
use std::marker::Model;

/// A data expression is cut to so many bytes.
#[tactic(auto, unfolding(spec_requests::specs::Variables::greatest_data))]
pub fn greatest_data() -> usize
    ensures { result ≡ greatest_data_of }
{
    8192
}

/// An operand names no later descriptor of a variable.
#[tactic(auto, unfolding(crate::specs::Slots::greatest_descriptors))]
pub fn greatest_descriptors() -> usize
    ensures { result ≡ greatest_descriptors_of }
{
    16
}

/// A name has at most so many bytes.
#[tactic(auto, unfolding(crate::specs::Slots::greatest_name))]
pub fn greatest_name() -> usize
    ensures { result ≡ greatest_name_of }
{
    16
}

/// A variable with fixed room, which keeps as much of its value as a request can show.
#[derive(Drop)]
pub struct Variable {
    name: Room<u8>,
    bytes: Room<u8>,
    descriptors: Room<Fd>,
}

impl Model for Variable {
    ghost use Rattle.std.specs.Prelude.{◌+◌, ◌≤◌, length};
    ghost use Rattle.thread_machine.specs.Slots.{Slot, greatest_name, greatest_descriptors};
    ghost use Rattle.spec_requests.specs.Words.{greatest_data};

    ghost Value = { Slot };

    ghost view = { λ v. record { name = v.name.items; value = record { bytes = v.bytes.items; descriptors = v.descriptors.items } } };

    ghost invariant = { λ v. (greatest_name ≤ length v.name.items + v.name.spare) × (greatest_data ≤ length v.bytes.items + v.bytes.spare) × (greatest_descriptors ≤ length v.descriptors.items + v.descriptors.spare) };
}

impl Variable {
    /// No name and no value, and room for the longest. Want of memory is the only error.
    pub fn new(alloc: Global) -> Result<Self, NoMemory>
        ensures { IfOk result (λ variable. variable ≡ empty_slot) }
    {
        Ok(Variable {
            name: Room::with_room(alloc, greatest_name())?,
            bytes: Room::with_room(alloc, greatest_data())?,
            descriptors: Room::with_room(alloc, greatest_descriptors())?,
        })
    }

    pub fn name(&self) -> &[u8]
        ensures { result.now ≡ self.now.name }
    {
        self.name.slice()
    }

    pub fn bytes(&self) -> &[u8]
        ensures { result.now ≡ self.now.value.bytes }
    {
        self.bytes.slice()
    }

    pub fn descriptors(&self) -> &[Fd]
        ensures { result.now ≡ self.now.value.descriptors }
    {
        self.descriptors.slice()
    }

    /// Gives it a name and a value. It takes no memory.
    pub fn set(&mut self, name: &[u8], bytes: &[u8], descriptors: &[Fd])
        requires { length name.now ≤ greatest_name_of }
        ensures name { self.new.name ≡ name.now }
        ensures value { self.new.value ≡ visible_value (with_both bytes.now descriptors.now) }
    {
        // frames that begin again set the same variables in the same order
        if self.name() != name {
            fill(&mut self.name, name);
        }
        fill(&mut self.bytes, first_items(bytes, greatest_data()));
        fill(
            &mut self.descriptors,
            first_items(descriptors, greatest_descriptors()),
        );
    }
}
