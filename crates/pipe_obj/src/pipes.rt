//! The pipes of a kernel.
ghost use Rattle.std.specs.Prelude.{◌≡◌, ◌+◌, ◌<◌, ◌≤◌, ◌++◌, [], OnOk, length, min};
ghost use Rattle.dk_base.specs.declared.limits.TheConstants.{EVENTS_MAX, PIPE_MAX};
ghost use Rattle.spec_records.specs.Words.{bytes_of, first_refusal, fitting, make_pipe, oldest, read_pipe, read_tests, ready_in, ready_out, write_pipe, write_tests};

use crate::held;
use crate::numbered::NumberedPipe;
use crate::pipe::Pipe;
use dk_base::error::{Errno, NoMemory};
use dk_base::limits::PIPE_MAX;
use dk_base::list::Room;
use dk_base::set::PollSet;
use spec_records::numbered::{numbered_item, place_of};
use std::alloc::Global;
use std::marker::Model;

/// Pipes, numbered from 1 in the order in which they were made. No pipe is ever taken out. A number that no pipe has reads as an empty
/// one. Clauses see the pipes (`items`) and how many more take no memory (`spare`).
#[derive(Drop)]
pub struct Pipes {
    pipes: Vec<NumberedPipe>,
    /// The memory of the next pipe, once it is taken.
    next: Option<Pipe>,
}

impl Model for Pipes {
    ghost use Rattle.std.specs.Prelude.{◌≡◌, ◌-◌, IfSome, [], if◌then◌else◌, is_some, min, vec_capacity, vec_len};
    ghost use Rattle.dk_base.specs.Spare.{RoomValue};
    ghost use Rattle.spec_records.specs.Words.{Pipe};

    ghost Value = { RoomValue Pipe };

    ghost view = { λ s. record { items = s.pipes.items; spare = min (vec_capacity s.pipes - vec_len s.pipes) (if is_some s.next then 1 else 0) } };

    ghost invariant = { λ s. IfSome s.next (λ p. p ≡ []) };
}

impl Pipes {
    /// No pipe, and no room.
    pub fn new(alloc: Global) -> Self
        ensures { result.items ≡ [] }
    {
        Pipes {
            pipes: Vec::new(alloc),
            next: None,
        }
    }

    /// How many pipes there are.
    pub fn count(&self) -> usize
        ensures { result ≡ length self.now.items }
    {
        self.pipes.len()
    }

    /// Room for another pipe, with all the memory that it will need. Want of memory leaves all as it was.
    pub fn reserve(&mut self, alloc: Global) -> Result<(), NoMemory>
        ensures items { self.new.items ≡ self.old.items }
        ensures room { OnOk result (0 < self.new.spare) }
        ensures kept { self.old.spare ≤ self.new.spare }
    {
        if self.pipes.reserve(1).is_err() {
            return Err(NoMemory);
        }
        if self.next.is_none() {
            self.next = Some(Pipe::new(alloc)?);
        }
        Ok(())
    }

    /// pipe(2): another pipe, which is empty, under the next number, which is answered. It takes no memory.
    pub fn create(&mut self) -> u32
        requires room { 0 < self.old.spare }
        requires few { length self.old.items < EVENTS_MAX }
        ensures number { result ≡ length self.old.items + 1 }
        ensures made { self.new.items ≡ make_pipe self.old.items }
    {
        let number = self.pipes.len() as u32 + 1;
        let Some(pipe) = self.next.take() else {
            unreachable!()
        };
        self.pipes.push_reserved(NumberedPipe { number, pipe });
        number
    }

    /// How many bytes a pipe holds.
    pub fn held(&self, p: u32) -> usize
        ensures held { result ≡ length (bytes_of self.now.items p) }
        ensures few { length (bytes_of self.now.items p) ≤ PIPE_MAX }
    {
        match numbered_item(&self.pipes, p) {
            Some(pipe) => pipe.len(),
            None => 0,
        }
    }

    /// Why these bytes cannot be written to a pipe whose reading end has so many references (write(2)): EPIPE without one, EAGAIN for
    /// some bytes where the pipe is full.
    pub fn write_refusal(&self, p: u32, bytes: &[u8], readers: u64) -> Option<Errno>
        ensures { result ≡ first_refusal (write_tests (bytes_of self.now.items p) bytes.now readers) }
    {
        held::write_refusal(self.held(p), bytes, readers)
    }

    /// As many of these bytes as fit follow those of a pipe. Tells how many, which may be none.
    pub fn write_fitting(&mut self, p: u32, bytes: &[u8]) -> u32
        ensures count { result ≡ length (fitting (bytes_of self.old.items p) bytes.now) }
        ensures pipes { self.new.items ≡ write_pipe self.old.items p bytes.now }
        ensures spare { self.new.spare ≡ self.old.spare }
    {
        match place_of(&self.pipes, p) {
            Some(place) => {
                let pipe = &mut self.pipes[place];
                pipe.write_fitting(bytes)
            }
            None => bytes.len().min(PIPE_MAX) as u32,
        }
    }

    /// Why nothing can be read from a pipe whose writing end has so many references (read(2)): EAGAIN where nothing is held and it has
    /// one.
    pub fn read_refusal(&self, p: u32, writers: u64) -> Option<Errno>
        ensures { result ≡ first_refusal (read_tests (bytes_of self.now.items p) writers) }
    {
        held::read_refusal(self.held(p), writers)
    }

    /// The oldest bytes, at most `max`, leave a pipe, and follow what is in `into`. Tells how many. It takes no memory.
    pub fn take_oldest(&mut self, p: u32, max: u32, into: &mut Room<u8>) -> u32
        requires { min max (length (bytes_of self.old.items p)) ≤ into.old.spare }
        ensures count { result ≡ length (oldest (bytes_of self.old.items p) max) }
        ensures taken { into.new.items ≡ into.old.items ++ oldest (bytes_of self.old.items p) max }
        ensures pipes { self.new.items ≡ read_pipe self.old.items p max }
        ensures spare { self.new.spare ≡ self.old.spare }
    {
        match place_of(&self.pipes, p) {
            Some(place) => {
                let pipe = &mut self.pipes[place];
                pipe.take_oldest(max, into)
            }
            None => 0,
        }
    }

    /// What the reading end of a pipe is ready for, where the writing end has so many references (poll(2)).
    pub fn ready_in(&self, p: u32, writers: u64) -> PollSet
        ensures { result ≡ ready_in (bytes_of self.now.items p) writers }
    {
        held::ready_in(self.held(p), writers)
    }

    /// What the writing end of a pipe is ready for, where the reading end has so many references (poll(2)).
    pub fn ready_out(&self, p: u32, readers: u64) -> PollSet
        ensures { result ≡ ready_out (bytes_of self.now.items p) readers }
    {
        held::ready_out(self.held(p), readers)
    }
}
