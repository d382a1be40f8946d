//! Runs with pipes and event ports that are known beforehand, computed through the definitions. The functions do nothing: they are the
//! laws that each thread can take its turn, that the events have these answers, and that no thread can take a turn in the end.

ghost use Rattle.law_examples.specs.PortRuns.{GoesAs, alert_answers, alert_start, alert_turns, closed_port_answers, closed_port_start, closed_port_turns, dropped_in_transit_answers, dropped_in_transit_start, dropped_in_transit_turns, full_port_answers, full_port_start, full_port_turns, interrupted_get_answers, interrupted_get_start, interrupted_get_turns, one_event_for_two_answers, one_event_for_two_start, one_event_for_two_turns, passed_ends_answers, passed_ends_start, passed_ends_turns, pipe_answers, pipe_start, pipe_turns};

/// A pipe that is full, then read; whose reading end is closed; and one whose writing end is closed.
pub fn pipe()
    ensures { GoesAs pipe_start pipe_turns pipe_answers }
{}

/// Two threads that wait for more events than there are, and are told an alert, which stays.
pub fn alert()
    ensures { GoesAs alert_start alert_turns alert_answers }
{}

/// A thread that waits for an event, and is interrupted.
pub fn interrupted_get()
    ensures { GoesAs interrupted_get_start interrupted_get_turns interrupted_get_answers }
{}

/// The ends of a pipe that are passed to a server with too few descriptors, and one that is passed to it.
pub fn passed_ends()
    ensures { GoesAs passed_ends_start passed_ends_turns passed_ends_answers }
{}

/// Gets of several events and their refusals; and a port that is closed while a thread waits at it.
pub fn closed_port()
    ensures { GoesAs closed_port_start closed_port_turns closed_port_answers }
{}

/// A port that takes 1,024 events, and refuses one more.
pub fn full_port()
    ensures { GoesAs full_port_start full_port_turns full_port_answers }
{}

/// The last references to a writing end and to a port are in transit, and are dropped.
pub fn dropped_in_transit()
    ensures { GoesAs dropped_in_transit_start dropped_in_transit_turns dropped_in_transit_answers }
{}

/// Two threads that wait for one event: one takes it, and the other waits on.
pub fn one_event_for_two()
    ensures { GoesAs one_event_for_two_start one_event_for_two_turns one_event_for_two_answers }
{}
