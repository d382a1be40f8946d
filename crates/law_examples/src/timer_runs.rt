//! Runs with timers that are known beforehand, computed through the definitions. The functions do nothing: they are the laws that the
//! runs are legal, that their events have these answers, and that they are over after these turns.

ghost use Rattle.law_examples.specs.PortRuns.{GoesAs, pipe_start};
ghost use Rattle.law_examples.specs.ForkRuns.{two_start};
ghost use Rattle.law_examples.specs.TimerRuns.{children_answers, children_turns, counts_answers, counts_turns, timers_answers, timers_turns};

/// One event counts the moments of a timer that the clock reaches; a timer that has fired once is set again; one that was deleted is no
/// timer.
pub fn timers()
    ensures { GoesAs pipe_start timers_turns timers_answers }
{}

/// An event that counts more keeps its place before a user event; one is withdrawn as its timer is set again; a process has 32 timers.
pub fn counts()
    ensures { GoesAs pipe_start counts_turns counts_answers }
{}

/// A child has none of its parent's timers; a thread that waits for two events is woken as another process moves the clock; and the end
/// of the child ends its timer, whose event is withdrawn.
pub fn children()
    ensures { GoesAs two_start children_turns children_answers }
{}
