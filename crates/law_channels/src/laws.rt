//! What every event keeps of pipes, of ports, and of what refers to objects. Nothing runs here: a function has no body, and a call of it
//! hands its laws to the caller's proof.

ghost use Rattle.std.specs.Prelude.{ℕ, List, Option};
ghost use Rattle.spec_kernel.specs.Types.{Request};
ghost use Rattle.spec_kernel.specs.Words.{IsOpening, IsRun, MayTurn, State, Turn, state_after, step};
ghost use Rattle.law_channels.specs.Channels.{AreChannels};

/// It holds of every opening, before the first event.
pub fn every_opening()
    ensures { (m : State) → IsOpening m → AreChannels m }
{}

/// Every event that may be keeps it.
pub fn every_event()
    ensures { (m : State) (t : ℕ) (q : Option Request) → AreChannels m → MayTurn m t q → AreChannels (step m t q).state }
{}

/// It holds after every run.
pub fn every_run()
    ensures { (m : State) (xs : List Turn) → IsOpening m → IsRun m xs → AreChannels (state_after m xs) }
{}
