//! What the laws of timers speak of, at places of runs that are known beforehand. The functions do nothing: they are the laws that the
//! words of these laws hold there.

ghost use Rattle.std.specs.Prelude.{◌≡◌, [], ◌∷◌, None, Some};
ghost use Rattle.spec_kernel.specs.Words.{state_at};
ghost use Rattle.law_runs.specs.Channels.{port_under};
ghost use Rattle.law_runs.specs.Clock.{clock_at, moments_by, timer_under, timers_made};
ghost use Rattle.law_runs.specs.PortEvents.{PortChange};
ghost use Rattle.law_runs.specs.Ticks.{Arms, count_of_timer, moments_queued, told_since};
ghost use Rattle.law_runs.specs.TimerLives.{Becomes, Ends, IsCreated};
ghost use Rattle.law_examples.specs.ForkRuns.{two_start};
ghost use Rattle.law_examples.specs.PortLaws.{turn_of};
ghost use Rattle.law_examples.specs.PortRuns.{pipe_start};
ghost use Rattle.law_examples.specs.TimerLaws.{arming, port_with, queue_at, queued, queued_of_user, timer_of, timer_of_child};
ghost use Rattle.law_examples.specs.TimerRuns.{children_turns, counts_turns, timers_turns};

/// Timers that are made: the first of a process, the second, and the first of a child whose parent has one.
pub fn made()
    ensures first { IsCreated pipe_start timers_turns 1 (turn_of timers_turns 1) 7 0 }
    ensures second { IsCreated pipe_start counts_turns 10 (turn_of counts_turns 10) 1 1 }
    ensures of_child { IsCreated two_start children_turns 5 (turn_of children_turns 5) 8 0 }
    ensures so_many { timers_made (state_at two_start children_turns 6) ≡ 2 }
{}

/// A timer that is armed, set again, and deleted; and one whose process is killed.
pub fn armed()
    ensures arms { Arms pipe_start timers_turns 2 (timer_of 7 None) (arming 0 3 2) }
    ensures again { Arms pipe_start timers_turns 7 (timer_of 7 (Some (arming 0 3 2))) (arming 8 5 0) }
    ensures set { Becomes pipe_start timers_turns 7 (turn_of timers_turns 7) 0 (λ t. Some (record t { arming = Some (arming 8 5 0) })) }
    ensures deleted { Becomes pipe_start timers_turns 11 (turn_of timers_turns 11) 0 (λ t. None) }
    ensures killed { timer_under (state_at two_start children_turns 13) 2 ≡ None }
{}

/// Moments: with an interval, before the first, and three of them; without one, before it, and long after it.
pub fn moments()
    ensures none_yet { moments_by (arming 0 3 2) 2 ≡ 0 }
    ensures three { moments_by (arming 0 3 2) 8 ≡ 3 }
    ensures none_of_one { moments_by (arming 8 5 0) 12 ≡ 0 }
    ensures one { moments_by (arming 8 5 0) 22 ≡ 1 }
{}

/// An event of three moments, before and after it is told.
pub fn told_at_once()
    ensures clock { clock_at (state_at pipe_start timers_turns 6) ≡ 8 }
    ensures queued { moments_queued 1 (queue_at pipe_start timers_turns 6) ≡ 3 }
    ensures not_told { told_since pipe_start timers_turns 1 2 6 ≡ 0 }
    ensures told { told_since pipe_start timers_turns 1 2 7 ≡ 3 }
    ensures left { moments_queued 1 (queue_at pipe_start timers_turns 7) ≡ 0 }
{}

/// Eight moments of an arming, of which seven are told by one event, and one is queued; it is withdrawn where the timer is set again.
pub fn told_in_parts()
    ensures clock { clock_at (state_at pipe_start counts_turns 8) ≡ 8 }
    ensures all { moments_by (arming 0 1 1) 8 ≡ 8 }
    ensures told { told_since pipe_start counts_turns 1 2 8 ≡ 7 }
    ensures queued { moments_queued 1 (queue_at pipe_start counts_turns 8) ≡ 1 }
    ensures withdrawn { count_of_timer 1 (queue_at pipe_start counts_turns 9) ≡ 0 }
{}

/// Timers of two processes at one port, told by the end of a wait: of each its own.
pub fn told_by_a_wait()
    ensures first { told_since two_start children_turns 1 2 10 ≡ 1 }
    ensures second { told_since two_start children_turns 2 6 10 ≡ 3 }
    ensures left { queue_at two_start children_turns 10 ≡ [] }
{}

/// What an advance makes of a port: an event that is queued, one that counts more at its place, and two in the order of their timers.
pub fn ticked()
    ensures queued { PortChange pipe_start timers_turns 5 (turn_of timers_turns 5) 1 (Some (port_with [])) (Some (port_with (queued 1 3 7 ∷ []))) }
    ensures queued_before { port_under (state_at pipe_start timers_turns 5) 1 ≡ Some (port_with []) }
    ensures queued_after { port_under (state_at pipe_start timers_turns 6) 1 ≡ Some (port_with (queued 1 3 7 ∷ [])) }
    ensures grown { PortChange pipe_start counts_turns 5 (turn_of counts_turns 5) 1 (Some (port_with (queued 1 4 1 ∷ queued_of_user 2 9 ∷ []))) (Some (port_with (queued 1 7 1 ∷ queued_of_user 2 9 ∷ []))) }
    ensures grown_before { port_under (state_at pipe_start counts_turns 5) 1 ≡ Some (port_with (queued 1 4 1 ∷ queued_of_user 2 9 ∷ [])) }
    ensures grown_after { port_under (state_at pipe_start counts_turns 6) 1 ≡ Some (port_with (queued 1 7 1 ∷ queued_of_user 2 9 ∷ [])) }
    ensures in_order { port_under (state_at two_start children_turns 9) 1 ≡ Some (port_with (queued 1 1 7 ∷ queued 2 3 8 ∷ [])) }
{}

/// What withdraws an event: the timer that is set again, and the end of its process.
pub fn withdrawn()
    ensures set_again { PortChange pipe_start counts_turns 8 (turn_of counts_turns 8) 1 (Some (port_with (queued 1 1 1 ∷ []))) (Some (port_with [])) }
    ensures before_set { port_under (state_at pipe_start counts_turns 8) 1 ≡ Some (port_with (queued 1 1 1 ∷ [])) }
    ensures killed { PortChange two_start children_turns 12 (turn_of children_turns 12) 1 (Some (port_with (queued 2 1 8 ∷ []))) (Some (port_with [])) }
    ensures before_kill { port_under (state_at two_start children_turns 12) 1 ≡ Some (port_with (queued 2 1 8 ∷ [])) }
    ensures stood { timer_under (state_at two_start children_turns 12) 2 ≡ Some timer_of_child }
    ensures ends { Ends two_start children_turns 12 (turn_of children_turns 12) timer_of_child }
    ensures after_kill { port_under (state_at two_start children_turns 13) 1 ≡ Some (port_with []) }
{}
