//! A set of threads.
ghost use Rattle.std.specs.Prelude.{◌≡◌, ◌≤◌, ◌<◌, ◌&&◌, ◌||◌, ◌++◌, ◌∷◌, [], ℕ, false, length, map, not, IfNone, IfSome};
ghost use Rattle.dk_base.specs.declared.limits.TheConstants.{THREADS_MAX};
ghost use Rattle.dk_base.specs.Numbers.{tid};
ghost use Rattle.dk_base.specs.ThreadSets.{IsFirst, has, members, with_thread};

use crate::limits::THREADS_MAX;
use crate::list::Room;
use crate::number::Tid;

/// Some of the threads 1 to 64.
#[derive(Clone, Copy)]
pub struct ThreadSet {
    /// Bit n is thread n + 1.
    word: u64,
}

impl ThreadSet {
    /// No thread.
    pub fn new() -> Self
        ensures { (t : ℕ) → has result t ≡ false }
    {
        ThreadSet { word: 0 }
    }

    /// Whether a thread is there. A number that no thread can have is not.
    pub fn has(self, t: Tid) -> bool
        ensures { result ≡ has self t.0 }
    {
        if t.0 == 0 || t.0 > THREADS_MAX {
            return false;
        }
        (self.word >> (t.0 - 1)) & 1 == 1
    }

    /// A thread is there from now on, or is not.
    pub fn put(&mut self, t: Tid, here: bool)
        requires { (0 < t.0) × (t.0 ≤ THREADS_MAX) }
        ensures { (u : ℕ) → has self.new u ≡ with_thread self.old t.0 here u }
    {
        let bit = 1u64 << (t.0 - 1);
        if here {
            self.word |= bit;
        } else {
            self.word &= !bit;
        }
    }

    /// The threads of either set.
    pub fn or(self, other: ThreadSet) -> ThreadSet
        ensures { (t : ℕ) → has result t ≡ (has self t || has other t) }
    {
        ThreadSet {
            word: self.word | other.word,
        }
    }

    /// The threads of both sets.
    pub fn and(self, other: ThreadSet) -> ThreadSet
        ensures { (t : ℕ) → has result t ≡ (has self t && has other t) }
    {
        ThreadSet {
            word: self.word & other.word,
        }
    }

    /// The threads that are not in the other set.
    pub fn without(self, other: ThreadSet) -> ThreadSet
        ensures { (t : ℕ) → has result t ≡ (has self t && not (has other t)) }
    {
        ThreadSet {
            word: self.word & !other.word,
        }
    }

    /// The thread of the least number.
    pub fn least(self) -> Option<Tid>
        ensures first { IfSome result (λ t. IsFirst self t.0) }
        ensures within { IfSome result (λ t. (0 < t.0) × (t.0 ≤ THREADS_MAX)) }
        ensures none { IfNone result ((t : ℕ) → has self t ≡ false) }
    {
        if self.word == 0 {
            return None;
        }
        Some(Tid(self.word.trailing_zeros() + 1))
    }

    /// Takes out the thread of the least number.
    fn take(&mut self) -> Option<Tid>
        ensures some { IfSome result (λ t. map tid (members self.old) ≡ t ∷ map tid (members self.new)) }
        ensures none { IfNone result (members self.old ≡ []) }
    {
        let least = self.least()?;
        self.put(least, false);
        Some(least)
    }

    /// The threads follow what is in a list, in order of number. It takes no memory.
    pub fn list(self, room: &mut Room<Tid>)
        requires { length (members self) ≤ room.old.spare }
        ensures { room.new.items ≡ room.old.items ++ map tid (members self) }
    {
        let mut rest = self;
        while let Some(t) = rest.take() {
            room.push(t);
        }
    }
}
