//! A seat as the tests use it. Whatever goes over many calls names this trait and no seats, whose type tells of the whole kernel and is dear
//! to prove with.
ghost use Rattle.std.specs.Prelude.{◌≡◌};

use crate::calls::{Asks, Came, Gives};
use dk_base::number::Tid;

pub trait Caller {
    ghost use Rattle.std.specs.Prelude.{◌≡◌, ◌≤◌, ℕ, IfSome};
    ghost use Rattle.atomic_table.specs.Seated.{TableId};

    /// How many threads the kernel has.
    ghost threads: { ℕ };

    /// Of which seats it has one.
    ghost table: { Self → TableId };

    /// What comes of a call, if there is one left.
    fn acts(&mut self, asks: Asks, gives: Gives) -> Came
        ensures table { table self.new ≡ table self.old };

    /// Another one, split off the first of fewer than 64.
    fn split(&mut self, thread: Tid) -> Option<Self>
        requires declared { (1 ≤ thread.0) × (thread.0 ≤ threads) }
        ensures table { table self.new ≡ table self.old }
        ensures new { IfSome result (λ c. table c ≡ table self.old) };

    /// Whether two seats can meet.
    fn meets(&mut self, other: &mut Self) -> bool
        requires tables { table self.old ≡ table other.old };

    /// The length of the history.
    fn seen(&mut self) -> u64
        ensures table { table self.new ≡ table self.old };

    fn calls(&self) -> u32;

    fn seats_made(&self) -> u32;
}

/// Whether a call is replied as it is written.
pub fn is_replied<C: Caller>(caller: &mut C, asks: Asks, gives: Gives) -> bool
    ensures table { C.table caller.new ≡ C.table caller.old }
{
    matches!(caller.acts(asks, gives), Came::AsWritten)
}
