//! The law of notices. Nothing runs here: a function has no body, and a call of it hands its law to the caller's proof.

ghost use Rattle.std.specs.Prelude.{List};
ghost use Rattle.spec_kernel.specs.Words.{IsOpening, IsRun, State, Turn};
ghost use Rattle.law_runs.specs.Notices.{Notices};

/// The law of notices holds of every run.
pub fn every_run()
    ensures { (m : State) (xs : List Turn) → IsOpening m → IsRun m xs → Notices m xs }
{}
