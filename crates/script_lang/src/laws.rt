//! Both definitions of the language say the same, every text is decided, and the canonical text of a script spells it. No
//! function here does anything: each carries a law on the definitions.

ghost use Rattle.std.specs.Prelude.{◌≡◌, ℕ, List, Ok, Err};
ghost use Rattle.line_forms.specs.declared.reason.Reason.TheVariants.{Unknown};
ghost use Rattle.script_lang.specs.Canonical.{canonical_text};
ghost use Rattle.script_lang.specs.Decided.{IsDecided, IsOnlyUnknown};
ghost use Rattle.script_lang.specs.Parsing.{bad_line, parse_result};
ghost use Rattle.script_lang.specs.Spelled.{spells};
ghost use Rattle.script_lang.specs.Value.{ScriptValue};

/// What is read is spelled.
pub fn read_is_spelled()
    ensures { (text : List ℕ) (script : ScriptValue) → parse_result text ≡ Ok script → spells text script }
{}

/// What is spelled is read.
pub fn spelled_is_read()
    ensures { (text : List ℕ) (script : ScriptValue) → spells text script → parse_result text ≡ Ok script }
{}

/// Every text either spells exactly one script, or has exactly one first bad line with its reason.
pub fn text_is_decided()
    ensures { (text : List ℕ) → IsDecided text (parse_result text) }
{}

/// The reason `unknown` is the last: a line has it only where no line, nor the end of the text, has another.
pub fn unknown_is_last()
    ensures { (text : List ℕ) (line : ℕ) → parse_result text ≡ Err (bad_line line Unknown) → IsOnlyUnknown text line }
{}

/// The canonical text of a script that some text spells spells it.
pub fn canonical_is_spelled()
    ensures { (text : List ℕ) (script : ScriptValue) → spells text script → spells (canonical_text script) script }
{}
