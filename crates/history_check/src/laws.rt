//! What the definitions of this crate say together. Nothing runs here: a function has no body, and a call of it hands its laws to the
//! caller's proof.

ghost use Rattle.std.specs.Prelude.{◌≡◌, ◌≤◌, ◌-◌, ◌∷◌, ◌++◌, [], ℕ, List, Some, take};
ghost use Rattle.spec_histories.specs.Histories.{IsHistory};
ghost use Rattle.history_check.specs.declared.verdict.Verdict.TheVariants.{Legal};
ghost use Rattle.history_check.specs.LegalTexts.{IsLegalText};
ghost use Rattle.history_check.specs.Verdicts.{history_told, line_found, verdict, verdict_of_lines};
ghost use Rattle.history_check.specs.WholeLines.{whole_lines};

/// A text is found legal exactly where it tells a legal history.
pub fn legal_texts()
    ensures found { (text : List ℕ) (events : ℕ) → verdict text ≡ Legal events → IsHistory (history_told text) → IsLegalText text events }
    ensures again { (text : List ℕ) (events : ℕ) → IsLegalText text events → verdict text ≡ Legal events }
{
    history_text::laws::read_is_written();
}

/// What stands in a legal text up to a line feed is a legal text.
pub fn cut_texts()
    ensures { (text rest : List ℕ) (events : ℕ) → verdict (text ++ 10 ∷ rest) ≡ Legal events → (n : ℕ) × (verdict (text ++ 10 ∷ []) ≡ Legal n) }
{}

/// The lines before the one that a verdict names are a legal text of their own.
pub fn lines_before()
    ensures { (text : List ℕ) (line : ℕ) → 2 ≤ line → line_found (verdict text) ≡ Some line → (n : ℕ) × (verdict_of_lines (take (line - 1) (whole_lines text)) [] ≡ Legal n) }
{}
