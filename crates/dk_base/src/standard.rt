//! The real outside: std's readers and writers.
ghost use Rattle.std.specs.Prelude.{◌≡◌, None};
ghost use Rattle.std.specs.Io.KnownBytes.{ReadConsumes};

use crate::error::Failed;
use crate::outside::{Sink, Source, count_on};
use std::io::{Read, Write};

/// A reader. What it will give is not told.
#[derive(Drop)]
pub struct StdSource<R> {
    reader: R,
    faults: u64,
}

impl<R: Read> StdSource<R> {
    pub fn new(reader: R) -> Self
        ensures { result.faults ≡ 0 }
    {
        StdSource { reader, faults: 0 }
    }
}

impl<R: Read> Source for StdSource<R> {
    ghost left = { λ _. None };

    ghost faults = { λ s. s.faults };

    fn read(&mut self, buf: &mut [u8]) -> Result<usize, Failed> {
        match self.reader.read(buf) {
            Ok(n) => Ok(n),
            Err(_) => {
                self.faults = count_on(self.faults);
                Err(Failed)
            }
        }
    }
}

/// A writer without a buffer of its own, since nothing flushes it. What it holds is not told.
#[derive(Drop)]
pub struct StdSink<W> {
    writer: W,
    faults: u64,
}

impl<W: Write> StdSink<W> {
    pub fn new(writer: W) -> Self
        ensures { result.faults ≡ 0 }
    {
        StdSink { writer, faults: 0 }
    }
}

impl<W: Write> Sink for StdSink<W> {
    ghost held = { λ _. None };

    ghost faults = { λ s. s.faults };

    fn write(&mut self, piece: &[u8]) -> Result<usize, Failed> {
        match self.writer.write(piece) {
            Ok(n) if n > 0 || piece.is_empty() => Ok(n),
            _ => {
                self.faults = count_on(self.faults);
                Err(Failed)
            }
        }
    }
}
