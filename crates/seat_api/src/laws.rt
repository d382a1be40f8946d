//! A law of legal histories. Nothing runs here: the function has no body, and a call of it hands the law to the caller's proof.

ghost use Rattle.std.specs.Prelude.{◌≡◌, ◌+◌, ◌≤◌, List, length, map};
ghost use Rattle.dk_base.specs.declared.limits.TheConstants.{EVENTS_MAX};
ghost use Rattle.spec_kernel.specs.Words.{IsRun, State, answers_of, state_after as state_after_turns};
ghost use Rattle.spec_histories.specs.declared.entry.SeatEntry.{SeatEntry};
ghost use Rattle.spec_histories.specs.declared.call.SeatReply.TheVariants.{Answer};
ghost use Rattle.seat_api.specs.History.{AreAnswers, IsLegal, answered, replies, state_after, turns};

/// The answered calls of a legal history are a run from the same state (`run`), the replies to them are the answers of its steps
/// (`answers`), and it leads to the state after the history (`state`). So where all entries are answers, their replies are the answers of the
/// steps of a run (`all`).
pub fn histories_are_runs()
    ensures run { (m : State) (es : List SeatEntry) → IsLegal m es → m.events + length (answered es) ≤ EVENTS_MAX → IsRun m (turns (answered es)) }
    ensures answers { (m : State) (es : List SeatEntry) → IsLegal m es → replies (answered es) ≡ map Answer (answers_of m (turns (answered es))) }
    ensures state { (m : State) (es : List SeatEntry) → IsLegal m es → state_after m es ≡ state_after_turns m (turns (answered es)) }
    ensures all { (m : State) (es : List SeatEntry) → IsLegal m es → AreAnswers es → replies es ≡ map Answer (answers_of m (turns es)) }
{}
