//! Which threads each process has.
ghost use Rattle.std.specs.Prelude.{◌≡◌, ◌==◌, ◌&&◌, ◌<◌, ◌≤◌, ℕ, false, if◌then◌else◌, slice_get, true};
ghost use Rattle.dk_base.specs.declared.limits.TheConstants.{PROCESSES_MAX, THREADS_MAX};
ghost use Rattle.proc_table.specs.Crews.{has_in};
ghost use Rattle.dk_base.specs.Words.{has};

use dk_base::limits::{PROCESSES_MAX, THREADS_MAX};
use dk_base::number::{Pid, Tid};
use dk_base::thread_set::ThreadSet;

/// A set for each process number from 0 on.
const SETS: usize = 65;

/// Of each process, its threads, ended ones and spares with them.
#[derive(Clone, Copy)]
pub struct Crews {
    pub sets: [ThreadSet; SETS],
}

impl Crews {
    /// No process has a thread.
    pub fn new() -> Self
        ensures { (p t : ℕ) → has_in (slice_get result.sets p) t ≡ false }
    {
        let none = ThreadSet::new();
        Crews { sets: [none; SETS] }
    }

    /// The threads of a process.
    pub fn of(&self, p: Pid) -> ThreadSet
        ensures { (t : ℕ) → has result t ≡ has_in (slice_get self.now.sets p.0) t }
    {
        let place = p.0 as usize;
        if place < SETS {
            self.sets[place]
        } else {
            ThreadSet::new()
        }
    }

    /// A thread is one of a process from now on.
    pub fn add(&mut self, p: Pid, t: Tid)
        requires process { p.0 ≤ PROCESSES_MAX }
        requires thread { (0 < t.0) × (t.0 ≤ THREADS_MAX) }
        ensures { (q u : ℕ) → has_in (slice_get self.new.sets q) u ≡ (if (p.0 == q) && (u == t.0) then true else has_in (slice_get self.old.sets q) u) }
    {
        self.sets[p.0 as usize].put(t, true);
    }
}
