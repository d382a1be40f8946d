//! What is told of associations in turns that are known beforehand. The functions do nothing: they are the laws that these turns are
//! answered so.

ghost use Rattle.std.specs.Prelude.{◌≡◌, [], ◌∷◌, None, Some};
ghost use Rattle.spec_kernel.specs.Words.{state_at};
ghost use Rattle.law_runs.specs.Channels.{port_under};
ghost use Rattle.law_runs.specs.Lives.{IsBegun, IsDissociated, associations_made};
ghost use Rattle.law_runs.specs.OneShot.{association_under};
ghost use Rattle.law_runs.specs.PortEvents.{PortChange};
ghost use Rattle.law_examples.specs.AssociationRuns.{answers_of, associations_start, queued_of, reading_answers, reading_turns, with_event_of, writing_answers, writing_turns};
ghost use Rattle.law_examples.specs.PortLaws.{fd, turn_of};

/// A reading end that is ready at once; one that is replaced, and one whose descriptor is closed, while their events are queued.
pub fn reading()
    ensures { answers_of associations_start reading_turns ≡ reading_answers }
{}

/// A reading end that is told that nothing refers to the writing end, and one that is dissociated.
pub fn writing()
    ensures { answers_of associations_start writing_turns ≡ writing_answers }
{}

/// Associations that begin: one whose object is ready at once; one in the place of another, which ends; and one whose object is not
/// ready. So many are made.
pub fn begun()
    ensures ready { IsBegun associations_start reading_turns 3 (turn_of reading_turns 3) 1 }
    ensures in_place { IsBegun associations_start reading_turns 7 (turn_of reading_turns 7) 3 }
    ensures replaced { association_under (state_at associations_start reading_turns 8) 2 ≡ None }
    ensures not_ready { IsBegun associations_start writing_turns 2 (turn_of writing_turns 2) 1 }
    ensures made { associations_made (state_at associations_start reading_turns 10) ≡ 4 }
{}

/// Associations that end: one whose event is taken, one whose descriptor is closed, and one that is dissociated.
pub fn ended()
    ensures taken { association_under (state_at associations_start reading_turns 5) 1 ≡ None }
    ensures closed { association_under (state_at associations_start reading_turns 11) 4 ≡ None }
    ensures dissociated { IsDissociated associations_start writing_turns 7 (turn_of writing_turns 7) (fd 2) (fd 0) }
{}

/// What a port is told: the event of an association that is replaced is withdrawn, and that of the one in its place is queued, which is
/// a change by the law; the event of one whose descriptor is closed is withdrawn; and the close of the last writing end queues one.
pub fn told()
    ensures before { port_under (state_at associations_start reading_turns 7) 1 ≡ Some (with_event_of 2 6) }
    ensures in_place { port_under (state_at associations_start reading_turns 8) 1 ≡ Some (with_event_of 3 7) }
    ensures change { PortChange associations_start reading_turns 7 (turn_of reading_turns 7) 1 (Some (with_event_of 2 6)) (Some (with_event_of 3 7)) }
    ensures before_close { queued_of (port_under (state_at associations_start reading_turns 10) 1) ≡ Some 4 ∷ [] }
    ensures closed { queued_of (port_under (state_at associations_start reading_turns 11) 1) ≡ [] }
    ensures before_hup { queued_of (port_under (state_at associations_start writing_turns 4) 1) ≡ [] }
    ensures hup { queued_of (port_under (state_at associations_start writing_turns 5) 1) ≡ Some 1 ∷ [] }
{}
