//! Runs with forks that are known beforehand, computed through the definitions. The functions do nothing: they are the laws that the
//! runs are legal, that their events have these answers, and that they are over after these turns.

ghost use Rattle.law_examples.specs.PortRuns.{GoesAs};
ghost use Rattle.law_examples.specs.ForkRuns.{bound_answers, bound_turns, callers_answers, callers_start, callers_turns, shares_answers, shares_turns, two_start};

/// A child has its parent's descriptor, so a notice comes when the first of the two closes it; a second fork of the child is refused.
pub fn shared_rows()
    ensures { GoesAs two_start shares_turns shares_answers }
{}

/// A caller whose process forks is told EINTR; what its server then returns goes nowhere, and the child calls the same door.
pub fn interrupted_caller()
    ensures { GoesAs callers_start callers_turns callers_answers }
{}

/// The child of a bound thread is bound to a door that is lost: nothing is told of it, and a return unbinds it.
pub fn bound_thread()
    ensures { GoesAs two_start bound_turns bound_answers }
{}
