//! A walk over the threads of a set.
ghost use Rattle.std.specs.Prelude.{◌≡◌, ◌<◌, ◌≤◌, ℕ, false, IfNone, IfSome};
ghost use Rattle.dk_base.specs.declared.limits.TheConstants.{THREADS_MAX};
ghost use Rattle.proc_table.specs.Walk.{IsNext, Walks};
ghost use Rattle.dk_base.specs.Words.{has};

use dk_base::number::Tid;
use dk_base::thread_set::ThreadSet;

/// A walk over the threads of a set, in order of number: those that are still to come, and the last that came.
#[derive(Clone, Copy)]
pub struct Walk {
    pub rest: ThreadSet,
    pub done: u32,
}

impl Walk {
    /// All threads of a set are still to come.
    pub fn over(set: ThreadSet) -> Self
        ensures walks { Walks set result }
        ensures start { result.done ≡ 0 }
        ensures rest { result.rest ≡ set }
    {
        Walk { rest: set, done: 0 }
    }

    /// The next thread.
    pub fn next(&mut self) -> Option<Tid>
        ensures next { (set : ThreadSet) → Walks set self.old → IfSome result (λ t. IsNext set t.0 self.old self.new) }
        ensures within { IfSome result (λ t. (0 < t.0) × (t.0 ≤ THREADS_MAX)) }
        ensures end { (set : ThreadSet) → Walks set self.old → IfNone result ((u : ℕ) → self.old.done < u → has set u ≡ false) }
        ensures same { IfNone result (self.new ≡ self.old) }
    {
        let t = self.rest.least()?;
        self.rest.put(t, false);
        self.done = t.0;
        Some(t)
    }
}
