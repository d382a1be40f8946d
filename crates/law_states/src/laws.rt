//! What every event of the written kernel keeps. Nothing runs here: a function has no body, and a call of it hands its laws
//! to the caller's proof.

ghost use Rattle.std.specs.Prelude.{ℕ, Option};
ghost use Rattle.spec_kernel.specs.Types.{Request};
ghost use Rattle.spec_kernel.specs.Words.{IsOpening, MayTurn, State};
ghost use Rattle.law_states.specs.Invariant.{Invariant};
ghost use Rattle.law_states.specs.Events.{Keeps};

/// Every event that may be keeps the invariant, calls, invocations, notices and doors take the arrows of their tables, a door whose
/// references fall to one has just one notice more where it may have one, what its answer tells is so, an entry that is refused
/// changes nothing but the number of events, only an entry of leaving, or the end of a wait of a thread that is bound to an invalid
/// door, leaves a thread idle that is so bound, and the end of a wait has what its thread waits for.
pub fn every_event()
    ensures { (m : State) (t : ℕ) (q : Option Request) → Invariant m → MayTurn m t q → Keeps m t q }
{}

/// The invariant holds of every opening, before the first event.
pub fn every_opening()
    ensures { (m : State) → IsOpening m → Invariant m }
{}
