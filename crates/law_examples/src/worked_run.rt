//! A run that is known beforehand, computed through the definitions. The function does nothing: it is the law that the run is legal,
//! that its events have these answers, and that what the laws speak of becomes true at these places.

ghost use Rattle.std.specs.Prelude.{◌≡◌, map};
ghost use Rattle.spec_kernel.specs.Words.{IsOpening, IsRun};
ghost use Rattle.spec_events.specs.Words.{events_of};
ghost use Rattle.law_places.specs.Places.{BecomesAnswered, BecomesEntered, BecomesReturned, NoticeBecomesEntered};
ghost use Rattle.law_runs.specs.Notices.{MakesNotice};
ghost use Rattle.law_examples.specs.WorkedRun.{answer_of, answers, start, turns};

/// A client calls a server's door, and closes it; the door's path is detached, and the server is told that one reference is left.
pub fn a_call_and_a_notice()
    ensures opens { IsOpening start }
    ensures is_run { IsRun start turns }
    ensures answered { map answer_of (events_of start turns) ≡ answers }
    ensures enters { BecomesEntered start turns 1 5 }
    ensures returns { BecomesReturned start turns 1 6 }
    ensures collects { BecomesAnswered start turns 1 7 }
    ensures makes_notice { MakesNotice start turns 9 1 1 }
    ensures enters_notice { NoticeBecomesEntered start turns 1 10 }
{}
