//! The variables of a frame, and what an answer sets.
ghost use Rattle.std.specs.Prelude.{◌≡◌, ◌+◌, ◌<◌, ◌≤◌, [], length, slice_get, Some, OnOk, IfOk, MatchOption, option_copied, position};
ghost use Rattle.spec_requests.specs.Words.{Variables as Values, empty_value, set_each, set_variable, values_of, vars_of, with_both};
ghost use Rattle.thread_machine.specs.Bodies.{IsSpelledLine};
ghost use Rattle.thread_machine.specs.Slots.{Slot, Holds, slot_value, place_of, is_named, greatest_name, set_some, IsShort};

use crate::lines::{first_var, second_var};
use crate::variable::Variable;
use dk_base::answer::Answer;
use dk_base::error::NoMemory;
use dk_base::number::Fd;
use line_forms::line::Line;
use std::alloc::Global;
use std::marker::Model;

/// The variables of a frame: those that are set, and others with their room.
#[derive(Drop)]
pub struct Variables {
    variables: Vec<Variable>,
    set: usize,
}

impl Model for Variables {
    ghost use Rattle.std.specs.Prelude.{◌-◌, ◌≤◌, take, length};
    ghost use Rattle.thread_machine.specs.Slots.{Slots};

    ghost Value = { Slots };

    ghost view = { λ v. record { set = take v.set v.variables.items; spare = length v.variables.items - v.set } };

    ghost invariant = { λ v. v.set ≤ length v.variables.items };
}

/// Where the first variable of this name stands.
fn find(variables: &[Variable], name: &[u8]) -> Option<usize>
    ensures { result ≡ position (is_named name.now) variables.now }
{
    variables
        .iter()
        .position(|variable| variable.name() == name)
}

impl Variables {
    /// None is set.
    pub fn new(alloc: Global) -> Self
        ensures { result.set ≡ [] }
    {
        Variables {
            variables: Vec::new(alloc),
            set: 0,
        }
    }

    fn set_ones(&self) -> &[Variable]
        ensures { result.now ≡ self.now.set }
    {
        &self.variables.as_slice()[..self.set]
    }

    /// Room for two variables more. Want of memory leaves those that are set.
    pub fn make_room(&mut self, alloc: Global) -> Result<(), NoMemory>
        ensures set { self.new.set ≡ self.old.set }
        ensures room { OnOk result (2 ≤ self.new.spare) }
        ensures kept { self.old.spare ≤ self.new.spare }
    {
        while self.variables.len() < self.set + 2 {
            let variable = Variable::new(alloc)?;
            if self.variables.push(variable).is_err() {
                return Err(NoMemory);
            }
        }
        Ok(())
    }

    /// No variable is set.
    pub fn clear(&mut self)
        ensures set { self.new.set ≡ [] }
        ensures spare { self.old.spare ≤ self.new.spare }
    {
        self.set = 0;
    }

    /// The place of a variable, or the one after all.
    fn place(&self, name: &[u8]) -> usize
        ensures { result ≡ place_of self.now.set name.now }
    {
        match find(self.set_ones(), name) {
            Some(place) => place,
            None => self.set,
        }
    }

    /// What a variable has, if it is set.
    pub fn get(&self, name: &[u8]) -> Option<&Variable>
        ensures { MatchOption result (slot_value self.now.set name.now ≡ empty_value) (λ variable. slot_value self.now.set name.now ≡ variable.now.value) }
    {
        let place = self.place(name);
        let set_ones = self.set_ones();
        if place < set_ones.len() {
            Some(&set_ones[place])
        } else {
            None
        }
    }

    /// Replaces a variable's whole value. It takes no memory.
    pub fn set(&mut self, name: &[u8], bytes: &[u8], descriptors: &[Fd])
        requires name { length name.now ≤ greatest_name }
        requires room { 0 < self.old.spare }
        ensures held { (values : Values) → Holds self.old.set values → Holds self.new.set (set_variable values name.now (with_both bytes.now descriptors.now)) }
        ensures spare { self.old.spare ≤ self.new.spare + 1 }
    {
        let place = self.place(name);
        self.variables[place].set(name, bytes, descriptors);
        if place == self.set {
            self.set += 1;
        }
    }

    /// Replaces the value of a variable, if there is one.
    fn set_some(&mut self, name: Option<&[u8]>, bytes: &[u8], descriptors: &[Fd])
        requires name { IsShort (option_copied name) }
        requires room { 0 < self.old.spare }
        ensures held { (values : Values) → Holds self.old.set values → Holds self.new.set (set_some values (option_copied name.entry) (with_both bytes.now descriptors.now)) }
        ensures spare { self.old.spare ≤ self.new.spare + 1 }
    {
        if let Some(name) = name {
            self.set(name, bytes, descriptors);
        }
    }

    /// A command's variables get the values that the answer gives.
    pub fn answer(&mut self, line: &Line, answer: &Answer)
        requires line { IsSpelledLine line.now }
        requires room { 2 ≤ self.old.spare }
        ensures { (values : Values) → Holds self.old.set values → Holds self.new.set (set_each values (vars_of line.now) (values_of answer.now)) }
    {
        match answer {
            Answer::NewFd { fd } => self.set_some(first_var(line), &[], &[*fd]),
            Answer::TwoFds { read, write } => {
                self.set_some(first_var(line), &[], &[*read]);
                self.set_some(second_var(line), &[], &[*write]);
            }
            Answer::Data { bytes } => self.set_some(first_var(line), bytes.slice(), &[]),
            Answer::Results { bytes, fds, .. } => {
                self.set_some(first_var(line), bytes.slice(), fds.slice());
            }
            _ => {}
        }
    }
}
