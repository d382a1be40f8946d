//! What is known of the script of a load. Nothing runs here: a call of a function hands its laws to the caller's proof.

ghost use Rattle.std.specs.Prelude.{◌≡◌, ◌≤◌, ℕ, None};
ghost use Rattle.script_lang.specs.Words.{spells};
ghost use Rattle.spec_scripts.specs.Words.{refusal};
ghost use Rattle.load_gen.specs.Loads.{load_script};
ghost use Rattle.load_gen.specs.LoadText.{load_text};

/// The text of a load spells its script. That has no schedule, so no turn of it is refused.
#[tactic(auto, using(crate::proofs::LoadAll::load_read, crate::proofs::Unscheduled::never_refused))]
pub fn loads()
    ensures spelled { (n : ℕ) → 1 ≤ n → n ≤ 16000 → spells (load_text n) (load_script n) }
    ensures unscheduled { (n : ℕ) → refusal (load_script n) ≡ None }
{
    script_lang::laws::read_is_spelled();
}
