//! The laws of legal histories. Nothing runs here: a call of the function hands them to the caller's proof.
ghost use Rattle.std.specs.Prelude.{◌≡◌, ℕ, map, slice_get, Some};
ghost use Rattle.spec_kernel.specs.Words.{IsRun, State, Turn, state_after, state_at, step};
ghost use Rattle.spec_events.specs.Words.{events_of};
ghost use Rattle.law_runs.specs.Laws.{Laws};
ghost use Rattle.spec_histories.specs.Histories.{Entry, History, IsHistory, end, turns_of};
ghost use Rattle.law_histories.specs.Shown.{HasNoTask, event_shown, event_told};

/// The turns of a legal history are a run (`run`), of which each law holds (`laws`). The answer of an entry is that of the step in the state
/// at its place (`answers`). Where no turn began a task, whose bytes the kernel leaves to others, the entries are the run's events (`events`).
pub fn histories_are_runs()
    ensures run { (h : History) → IsHistory h → IsRun h.opening (turns_of h.entries) }
    ensures laws { (h : History) → IsHistory h → Laws h.opening (turns_of h.entries) }
    ensures answers { (h : History) → IsHistory h → (i : ℕ) (e : Entry) → slice_get h.entries i ≡ Some e → e.answer ≡ (step (state_at h.opening (turns_of h.entries) i) e.turn.thread e.turn.request).answer }
    ensures events { (h : History) → IsHistory h → HasNoTask (turns_of h.entries) → map event_told h.entries ≡ map event_shown (events_of h.opening (turns_of h.entries)) }
{
    law_runs::laws::every_run();
}
