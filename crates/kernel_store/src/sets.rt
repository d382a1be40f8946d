//! Sets of threads.
ghost use Rattle.std.specs.Prelude.{◌≡◌, ◌≤◌, ◌<◌, ◌==◌, ℕ, false, length, true, IfNone, IfSome};
ghost use Rattle.std.specs.List.{All, list_any};
ghost use Rattle.dk_base.specs.declared.limits.TheConstants.{THREADS_MAX};
ghost use Rattle.dk_base.specs.Words.{has, members, with_thread};

use dk_base::number::Tid;
use dk_base::thread_set::ThreadSet;

/// The threads of a list.
pub fn set_of(threads: &[Tid]) -> ThreadSet
    requires { All (λ t. (0 < t.0) × (t.0 ≤ THREADS_MAX)) threads.now }
    ensures { (t : ℕ) → has result t ≡ list_any (λ u. u.0 == t) threads.now }
{
    let mut set = ThreadSet::new();
    for t in threads {
        set.put(*t, true);
    }
    set
}

/// Takes out the thread of the least number.
pub fn take_least(set: &mut ThreadSet) -> Option<Tid>
    ensures here { IfSome result (λ t. has set.old t.0 ≡ true) }
    ensures others { IfSome result (λ t. (u : ℕ) → has set.new u ≡ with_thread set.old t.0 false u) }
    ensures fewer { IfSome result (λ t. length (members set.new) < length (members set.old)) }
    ensures none { IfNone result ((t : ℕ) → has set.old t ≡ false) }
{
    let least = set.least()?;
    set.put(least, false);
    Some(least)
}
