//! What the program reads from, writes to, and waits at between the turns of its threads.
ghost use Rattle.std.specs.Prelude.{◌≡◌, ℕ, ◌<◌, ◌≤◌, Option, List, length, IfOk, OnErr};
ghost use Rattle.std.specs.Io.KnownBytes.{ReadConsumes, WriteAppends};
ghost use Rattle.dk_base.specs.Outside.{one_more, Rose};

use crate::error::Failed;
use crate::number::Tid;

/// Where input comes from.
pub trait Source {
    /// The bytes that reads will give from here on, where they are told.
    ghost left: { Self → Option (List ℕ) };

    /// How many reads failed.
    ghost faults: { Self → ℕ };

    /// Moves the next bytes into the front of `buf`, and answers how many. 0 with a buffer that is not empty is the end
    /// of the input. What follows those bytes in `buf` is not specified.
    fn read(&mut self, buf: &mut [u8]) -> Result<usize, Failed>
        ensures bound { IfOk result (λ n. n ≤ length buf.new) }
        // A failed read gives nothing, and none is lost.
        ensures bytes { ReadConsumes (left self.old) (left self.new) result buf.new }
        ensures steady { faults self.old ≤ faults self.new }
        ensures cause { OnErr result (Rose (faults self.old) (faults self.new)) };
}

/// Where output goes.
pub trait Sink {
    /// The bytes that the sink holds, where they are told.
    ghost held: { Self → Option (List ℕ) };

    /// How many writes failed.
    ghost faults: { Self → ℕ };

    /// Appends the first bytes of `piece`, and answers how many: at least 1, unless `piece` is empty.
    fn write(&mut self, piece: &[u8]) -> Result<usize, Failed>
        ensures bound { IfOk result (λ n. n ≤ length piece.now) }
        ensures moves { IfOk result (λ n. 0 < length piece.now → 0 < n) }
        // A failed write appends nothing.
        ensures bytes { WriteAppends (held self.old) (held self.new) result piece.now }
        ensures steady { faults self.old ≤ faults self.new }
        ensures cause { OnErr result (Rose (faults self.old) (faults self.new)) };
}

/// Where a driver of threads stops before each turn, without the lock. It changes nothing of the run.
pub trait Gate {
    fn pass(&self, t: Tid);
}

/// The gate that is always open.
#[derive(Clone, Copy)]
pub struct NoGate;

impl Gate for NoGate {
    fn pass(&self, _t: Tid) {}
}

/// A count goes up, and stands still at its type's end.
pub(crate) fn count_on(count: u64) -> u64
    ensures { result ≡ one_more count }
{
    count.saturating_add(1)
}
