//! What an act changes. Nothing runs here: a function has no body, and a call of it hands its law to the caller's proof.

ghost use Rattle.std.specs.Prelude.{ℕ, Option};
ghost use Rattle.law_channels.specs.Changed.{Changes, IsAfterAct, UnbornHaveNoRows};
ghost use Rattle.law_channels.specs.Told.{LeavesToTell};
ghost use Rattle.law_states.specs.Told.{AreTold};
ghost use Rattle.spec_kernel.specs.Types.{Request};
ghost use Rattle.spec_kernel.specs.Words.{State, act, forget, settle_pools};

/// The state that an act leaves is one after it, and stays so while what follows the act goes on, and as it is kept.
pub fn states_after()
    ensures act { (m : State) (t : ℕ) (q : Option Request) → IsAfterAct m t q (act m t q).state }
    ensures settled { (m : State) (t : ℕ) (q : Option Request) (before n : State) → IsAfterAct m t q n → IsAfterAct m t q (settle_pools before n) }
    ensures kept { (m : State) (t : ℕ) (q : Option Request) (n : State) → IsAfterAct m t q n → IsAfterAct m t q (forget n) }
{}

/// Which rows an act closes and which pipe's bytes it changes is told before it, by its request, where no process that has not begun has
/// a row.
pub fn every_act()
    ensures { (m : State) (t : ℕ) (q : Option Request) (n : State) → UnbornHaveNoRows m → IsAfterAct m t q n → Changes m t q n }
{}

/// Where ports were told before an act, and no process that has not begun has a row, the associations of the rows that it closes end, and
/// no other; so do the timers of the process that ends; and what fires watches an object that has changed.
pub fn every_telling()
    ensures { (m : State) (t : ℕ) (q : Option Request) (n : State) → UnbornHaveNoRows m → IsAfterAct m t q n → AreTold m → LeavesToTell m t q n }
{}
