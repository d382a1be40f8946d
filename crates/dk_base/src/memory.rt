//! A source and a sink in memory, which fail at chosen calls.
ghost use Rattle.std.specs.Prelude.{◌≡◌, ◌<◌, ◌≤◌, Some, length, IfOk, OnErr};
ghost use Rattle.std.specs.Io.KnownBytes.{ReadConsumes, WriteAppends};
ghost use Rattle.dk_base.specs.Outside.{Rose};
ghost use Rattle.dk_base.specs.Memory.{fresh_source, read_answer, source_after, buffer_after, fresh_sink, write_answer, sink_after};

use crate::error::{Failed, NoMemory};
use crate::list::{Bytes, CallList};
use crate::outside::{Sink, Source, count_on};
use std::alloc::Global;
use std::marker::Model;

/// A source of given bytes. Clauses see what is left of them, what decides each read, and the counts of reads and faults.
#[derive(Drop)]
pub struct MemSource {
    bytes: Bytes,
    at: usize,
    piece: usize,
    fail: CallList,
    calls: u64,
    faults: u64,
}

impl Model for MemSource {
    ghost use Rattle.std.specs.Prelude.{◌≤◌, length, drop};
    ghost use Rattle.dk_base.specs.Memory.{StoredSource};

    ghost Value = { StoredSource };

    ghost view = { λ s. record { left = drop s.at s.bytes; piece = s.piece; fail = s.fail; calls = s.calls; faults = s.faults } };

    ghost invariant = { λ s. (s.at ≤ length s.bytes) × (1 ≤ s.piece) };
}

impl MemSource {
    /// The calls of `read` whose numbers, from 1, stand in `fail` fail.
    pub fn new(bytes: Bytes, fail: CallList) -> Self
        ensures { result ≡ fresh_source bytes usize.MAX fail }
    {
        MemSource::in_pieces(bytes, usize::MAX, fail)
    }

    /// The same, where one read gives at most `piece` bytes.
    pub fn in_pieces(bytes: Bytes, piece: usize, fail: CallList) -> Self
        requires { 1 ≤ piece }
        ensures { result ≡ fresh_source bytes piece fail }
    {
        MemSource {
            bytes,
            at: 0,
            piece,
            fail,
            calls: 0,
            faults: 0,
        }
    }

    /// How many bytes are left.
    pub fn left(&self) -> usize
        ensures { result ≡ length self.now.left }
    {
        self.bytes.len() - self.at
    }
}

impl Source for MemSource {
    ghost left = { λ s. Some s.left };

    ghost faults = { λ s. s.faults };

    fn read(&mut self, buf: &mut [u8]) -> Result<usize, Failed>
        ensures answer { result ≡ read_answer self.old (length buf.old) }
        ensures after { self.new ≡ source_after self.old (length buf.old) }
        ensures buffer { buf.new ≡ buffer_after self.old buf.old }
        ensures bound { IfOk result (λ n. n ≤ length buf.new) }
        ensures bytes { ReadConsumes (Some self.old.left) (Some self.new.left) result buf.new }
        ensures steady { self.old.faults ≤ self.new.faults }
        ensures cause { OnErr result (Rose self.old.faults self.new.faults) }
    {
        self.calls = count_on(self.calls);
        if self.fail.slice().contains(&self.calls) {
            self.faults = count_on(self.faults);
            return Err(Failed);
        }
        let rest = &self.bytes.slice()[self.at..];
        let n = self.piece.min(buf.len()).min(rest.len());
        buf[..n].copy_from_slice(&rest[..n]);
        self.at += n;
        Ok(n)
    }
}

/// A sink that holds at most so many bytes. Clauses see what it holds, what decides each write, and the counts of writes
/// and faults.
#[derive(Drop)]
pub struct MemSink {
    held: Vec<u8>,
    room: usize,
    piece: usize,
    fail: CallList,
    calls: u64,
    faults: u64,
}

impl Model for MemSink {
    ghost use Rattle.std.specs.Prelude.{◌≤◌, length, vec_capacity};
    ghost use Rattle.dk_base.specs.Memory.{StoredSink};

    ghost Value = { StoredSink };

    ghost view = { λ s. record { held = s.held.items; room = s.room; piece = s.piece; fail = s.fail; calls = s.calls; faults = s.faults } };

    ghost invariant = { λ s. (length s.held.items ≤ s.room) × (s.room ≤ vec_capacity s.held) × (1 ≤ s.piece) };
}

impl MemSink {
    /// A call of `write` takes at most `piece` bytes. It fails where `room` bytes are held, and where its number, from 1,
    /// stands in `fail`. Writes take no memory.
    pub fn new(alloc: Global, room: usize, piece: usize, fail: CallList) -> Result<Self, NoMemory>
        requires { 1 ≤ piece }
        ensures { IfOk result (λ sink. sink ≡ fresh_sink room piece fail) }
    {
        match Vec::with_capacity(alloc, room) {
            Ok(held) => Ok(MemSink {
                held,
                room,
                piece,
                fail,
                calls: 0,
                faults: 0,
            }),
            Err(_) => Err(NoMemory),
        }
    }

    pub fn held(&self) -> &[u8]
        ensures { result.now ≡ self.now.held }
    {
        self.held.as_slice()
    }
}

impl Sink for MemSink {
    ghost held = { λ s. Some s.held };

    ghost faults = { λ s. s.faults };

    fn write(&mut self, piece: &[u8]) -> Result<usize, Failed>
        ensures answer { result ≡ write_answer self.old (length piece.now) }
        ensures after { self.new ≡ sink_after self.old piece.now }
        ensures bound { IfOk result (λ n. n ≤ length piece.now) }
        ensures moves { IfOk result (λ n. 0 < length piece.now → 0 < n) }
        ensures bytes { WriteAppends (Some self.old.held) (Some self.new.held) result piece.now }
        ensures steady { self.old.faults ≤ self.new.faults }
        ensures cause { OnErr result (Rose self.old.faults self.new.faults) }
    {
        self.calls = count_on(self.calls);
        if self.held.len() >= self.room || self.fail.slice().contains(&self.calls) {
            self.faults = count_on(self.faults);
            return Err(Failed);
        }
        let n = self.piece.min(piece.len()).min(self.room - self.held.len());
        self.held.extend_from_slice(&piece[..n]).unwrap();
        Ok(n)
    }
}
