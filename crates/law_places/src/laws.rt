//! What holds at each place of a run. Nothing runs here: a function has no body, and a call of it hands its law to the caller's
//! proof.

ghost use Rattle.std.specs.Prelude.{ℕ, ◌≤◌, List, length};
ghost use Rattle.spec_kernel.specs.Words.{IsOpening, IsRun, State, Turn, state_at};
ghost use Rattle.law_states.specs.Invariant.{Invariant};

/// Each state of a run meets the invariant.
pub fn every_state()
    ensures { (m : State) (xs : List Turn) → IsOpening m → IsRun m xs → (i : ℕ) → i ≤ length xs → Invariant (state_at m xs i) }
{}
