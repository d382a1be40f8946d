//! What the answers of the commands say together. Nothing runs here: a call of a function hands its laws to the caller's proof.

ghost use Rattle.std.specs.Prelude.{◌≡◌, ◌≤◌, ℕ, List, true, length};
ghost use Rattle.script_lang.specs.Words.{ScriptValue, canonical_text, spells};
ghost use Rattle.spec_scripts.specs.Words.{IsAllowed, ending_of, is_over, run, text_of_history};
ghost use Rattle.spec_traces.specs.Words.{scheduled};
ghost use Rattle.doors_top.specs.declared.script_in.TheConstants.{SCRIPT_LIMIT};
ghost use Rattle.dk_base.specs.Input.{text_within_limit};
ghost use Rattle.doors_top.specs.Outcomes.{outcome_of_play, outcome_with};
ghost use Rattle.doors_top.specs.Status.{status_of_ending};

/// A run that is over is played again from the canonical text of its script with its turns as the schedule, where that text is
/// within the limit: `play` then answers by the run's end, and writes the run's text.
pub fn replay()
    ensures { (source : List ℕ) (script : ScriptValue) (turns : List ℕ) → spells source script →
        IsAllowed script turns → is_over script (run script turns) ≡ true → length (canonical_text (scheduled script turns)) ≤ SCRIPT_LIMIT →
        outcome_of_play (text_within_limit (canonical_text (scheduled script turns)) SCRIPT_LIMIT)
        ≡ outcome_with (status_of_ending (ending_of (run script turns).state)) (text_of_history script (run script turns)) }
{
    spec_traces::laws::replay();
    script_lang::laws::spelled_is_read();
}
