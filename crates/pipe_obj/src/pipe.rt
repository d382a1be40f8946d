//! One pipe: pipe(2), read(2), write(2), and what its ends are ready for.
ghost use Rattle.std.specs.Prelude.{◌≡◌, ◌+◌, ◌-◌, ◌<◌, ◌≤◌, ◌++◌, [], None, Some, IfErr, IfOk, OnErr, OnOk, drop, length, min};
ghost use Rattle.dk_base.specs.declared.limits.TheConstants.{PIPE_MAX};
ghost use Rattle.spec_records.specs.Words.{first_refusal, fitting, oldest, read_tests, ready_in, ready_out, write_tests};

use crate::held;
use circular_buffer::HeapCircularBuffer;
use dk_base::error::{Errno, NoMemory};
use dk_base::limits::PIPE_MAX;
use dk_base::list::Room;
use dk_base::set::PollSet;
use std::alloc::Global;
use std::marker::Model;

/// A pipe. Clauses see the bytes that it holds, the oldest first.
#[derive(Drop)]
pub struct Pipe {
    ring: HeapCircularBuffer<u8>,
}

impl Model for Pipe {
    ghost use Rattle.std.specs.Prelude.{◌≡◌, ◌≤◌, ℕ, List, length};
    ghost use Rattle.dk_base.specs.declared.limits.TheConstants.{PIPE_MAX};

    ghost Value = { List ℕ };

    ghost view = { λ p. p.ring.items };

    ghost invariant = { λ p. (p.ring.capacity ≡ PIPE_MAX) × (length p.ring.items ≤ PIPE_MAX) };
}

impl Pipe {
    /// An empty pipe. All the memory that it will need is taken here.
    pub fn new(alloc: Global) -> Result<Self, NoMemory>
        ensures { IfOk result (λ p. p ≡ []) }
    {
        match HeapCircularBuffer::with_capacity(alloc, PIPE_MAX) {
            Ok(ring) => Ok(Pipe { ring }),
            Err(_) => Err(NoMemory),
        }
    }

    /// How many bytes are held.
    pub fn len(&self) -> usize
        ensures len { result ≡ length self.now }
        ensures few { length self.now ≤ PIPE_MAX }
    {
        self.ring.len()
    }

    /// Why these bytes cannot be written, where the reading end has so many references (write(2)): EPIPE without one, EAGAIN for some
    /// bytes where the pipe is full.
    pub fn write_refusal(&self, bytes: &[u8], readers: u64) -> Option<Errno>
        ensures { result ≡ first_refusal (write_tests self.now bytes.now readers) }
    {
        held::write_refusal(self.len(), bytes, readers)
    }

    /// As many of these bytes as fit follow the others. Tells how many, which may be none.
    pub fn write_fitting(&mut self, bytes: &[u8]) -> u32
        ensures count { result ≡ length (fitting self.old bytes.now) }
        ensures bytes { self.new ≡ self.old ++ fitting self.old bytes.now }
    {
        self.ring.fill_from_slice(bytes) as u32
    }

    /// As many of these bytes as fit follow the others (write(2)), where the reading end has so many references. Tells how many. EPIPE
    /// where it has none, EAGAIN for some bytes where the pipe is full; either changes nothing.
    pub fn write(&mut self, bytes: &[u8], readers: u64) -> Result<u32, Errno>
        ensures refused { IfErr result (λ e. first_refusal (write_tests self.old bytes.now readers) ≡ Some e) }
        ensures allowed { OnOk result (first_refusal (write_tests self.old bytes.now readers) ≡ None) }
        ensures count { IfOk result (λ n. n ≡ length (fitting self.old bytes.now)) }
        ensures bytes { OnOk result (self.new ≡ self.old ++ fitting self.old bytes.now) }
        ensures kept { OnErr result (self.new ≡ self.old) }
    {
        match self.write_refusal(bytes, readers) {
            Some(error) => Err(error),
            None => Ok(self.write_fitting(bytes)),
        }
    }

    /// Why nothing can be read, where the writing end has so many references (read(2)): EAGAIN where nothing is held and it has one.
    pub fn read_refusal(&self, writers: u64) -> Option<Errno>
        ensures { result ≡ first_refusal (read_tests self.now writers) }
    {
        held::read_refusal(self.len(), writers)
    }

    /// The oldest bytes, at most `max`, leave the pipe, and follow what is in `into`. Tells how many. It takes no memory.
    pub fn take_oldest(&mut self, max: u32, into: &mut Room<u8>) -> u32
        requires { min max (length self.old) ≤ into.old.spare }
        ensures count { result ≡ length (oldest self.old max) }
        ensures taken { into.new.items ≡ into.old.items ++ oldest self.old max }
        ensures spare { into.old.spare ≤ into.new.spare + length (oldest self.old max) }
        ensures rest { self.new ≡ drop max self.old }
    {
        let held = self.ring.len();
        let count = held.min(max as usize);
        let (front, back) = self.ring.as_slices();
        let first = front.len().min(count);
        into.append(&front[..first]);
        into.append(&back[..count - first]);
        self.ring.truncate_front(held - count);
        count as u32
    }

    /// The oldest bytes, as many as `into` has places, leave the pipe and stand there (read(2)), where the writing end has so many
    /// references. Tells how many, which is none at the end of the pipe. EAGAIN where nothing is held and there is a writer changes
    /// nothing.
    pub fn read(&mut self, into: &mut [u8], writers: u64) -> Result<u32, Errno>
        requires { 0 < length into.old }
        ensures refused { IfErr result (λ e. first_refusal (read_tests self.old writers) ≡ Some e) }
        ensures allowed { OnOk result (first_refusal (read_tests self.old writers) ≡ None) }
        ensures count { IfOk result (λ n. n ≡ length (oldest self.old (length into.old))) }
        ensures read { IfOk result (λ n. into.new ≡ oldest self.old (length into.old) ++ drop n into.old) }
        ensures rest { OnOk result (self.new ≡ drop (length into.old) self.old) }
        ensures kept { OnErr result (self.new ≡ self.old) }
        ensures same { OnErr result (into.new ≡ into.old) }
    {
        match self.read_refusal(writers) {
            Some(error) => Err(error),
            None => Ok(self.ring.read_into(into) as u32),
        }
    }

    /// What the reading end is ready for, where the writing end has so many references (poll(2)).
    pub fn ready_in(&self, writers: u64) -> PollSet
        ensures { result ≡ ready_in self.now writers }
    {
        held::ready_in(self.len(), writers)
    }

    /// What the writing end is ready for, where the reading end has so many references (poll(2)).
    pub fn ready_out(&self, readers: u64) -> PollSet
        ensures { result ≡ ready_out self.now readers }
    {
        held::ready_out(self.len(), readers)
    }
}
