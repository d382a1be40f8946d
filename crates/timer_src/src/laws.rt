//! What the counts of moments are to each other as the clock moves on. Nothing runs here.
ghost use Rattle.std.specs.Prelude.{◌≡◌, ℕ, ◌+◌, ◌<◌, ◌≤◌, [], Some, length};
ghost use Rattle.spec_records.specs.declared.timer.Arming.{Arming};
ghost use Rattle.spec_records.specs.Words.{due_count, moments_until};

/// The moments of an arming up to a clock are those up to an earlier one and those that were counted in between. So while an arming
/// lasts, the counts that were told of it add up to its moments up to the clock.
pub fn counts_add_up()
    ensures { (a : Arming) (after until : ℕ) → after ≤ until → length (moments_until after a) + due_count after until (Some a) ≡ length (moments_until until a) }
{}

/// At the clock of its arming it has no moment yet.
pub fn none_when_armed()
    ensures { (a : Arming) → 0 < a.first → moments_until a.clock a ≡ [] }
{}
