//! The laws of every run of the written kernel. Nothing runs here: a function has no body, and a call of it hands its laws
//! to the caller's proof.

ghost use Rattle.std.specs.Prelude.{◌≡◌, ◌⊎◌, List, None};
ghost use Rattle.spec_kernel.specs.Types.{Pool};
ghost use Rattle.spec_kernel.specs.Words.{IsOpening, IsRun, State, Turn, calls_waiting, pick, state_after};
ghost use Rattle.law_runs.specs.Laws.{Laws};
ghost use Rattle.law_runs.specs.Pools.{HasNoneIdle};

/// The laws hold of every run: `Laws` has a field for each, of calls, messages and notices, of what is named, held and bound, of answers
/// and ends, of pipes and ports, of waits at ports, of tasks, of associations, and of timers.
#[tactic(auto, using(crate::proofs::EveryRun::laws_hold))]
pub fn every_run()
    ensures { (m : State) (xs : List Turn) → IsOpening m → IsRun m xs → Laws m xs }
{}

/// After every event of a run no door has both an item that waits, a call or a notice, and an idle thread that may serve it
/// (`items`); and, after any turns, no pool has both a waiting call and an idle thread (`calls`).
pub fn no_pool_has_both()
    ensures items { (m : State) (xs : List Turn) → IsOpening m → IsRun m xs → HasNoneIdle (state_after m xs) }
    ensures calls { (m : State) (xs : List Turn) → IsOpening m → (pool : Pool) → (calls_waiting (state_after m xs) pool ≡ 0) ⊎ (pick (state_after m xs) pool ≡ None) }
{}
