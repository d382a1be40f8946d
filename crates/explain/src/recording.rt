//! An input and an output that keep what went through them, as long as that is not much.

ghost use Rattle.std.specs.Prelude.{◌≡◌};

use dk_base::error::Failed;
use dk_base::list::Bytes;
use dk_base::outside::{Sink, Source};
use std::alloc::Global;

/// As many bytes are kept at most, of the input and of the output.
const KEPT_MAX: usize = 16_777_216;

/// A source or a sink, and what went through it. To its user it is that source or sink itself.
#[derive(Drop)]
pub struct Recorded<T> {
    inner: T,
    bytes: Bytes,
    /// How many bytes went through. Where they are too many, or memory ran out for some, not all of them are kept.
    count: usize,
}

/// What it gave is kept.
pub type RecordedSource<S> = Recorded<S>;

/// What it took is kept.
pub type RecordedSink<O> = Recorded<O>;

impl<T: Drop> Recorded<T> {
    pub fn new(alloc: Global, inner: T) -> Self {
        Recorded {
            inner,
            bytes: Bytes::new(alloc),
            count: 0,
        }
    }

    /// What went through so far, if all of it is kept.
    pub fn kept(&self) -> Option<&[u8]> {
        if self.bytes.len() == self.count {
            Some(self.bytes.slice())
        } else {
            None
        }
    }

    /// The first `count` of these bytes went through, too; none where a call failed.
    fn keep(&mut self, piece: &[u8], count: usize)
        ensures { self.new.inner ≡ self.old.inner }
    {
        self.count = self.count.saturating_add(count);
        if self.count <= KEPT_MAX {
            let _lost = self.bytes.append(piece.split_at(count.min(piece.len())).0);
        }
    }
}

impl<S: Source + Drop> Source for Recorded<S> {
    ghost left = { λ r. S.left r.inner };

    ghost faults = { λ r. S.faults r.inner };

    fn read(&mut self, buf: &mut [u8]) -> Result<usize, Failed> {
        let result = self.inner.read(buf);
        self.keep(buf, result.unwrap_or(0));
        result
    }
}

impl<O: Sink + Drop> Sink for Recorded<O> {
    ghost held = { λ r. O.held r.inner };

    ghost faults = { λ r. O.faults r.inner };

    fn write(&mut self, piece: &[u8]) -> Result<usize, Failed> {
        let result = self.inner.write(piece);
        self.keep(piece, result.unwrap_or(0));
        result
    }
}
