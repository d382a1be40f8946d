//! What the definitions of this crate say together. Nothing runs here: a function has no body, and a call of it hands its laws to
//! the caller's proof.

ghost use Rattle.std.specs.Prelude.{◌≡◌, ℕ, List, None, Some, true, length, map, All};
ghost use Rattle.script_lang.specs.Words.{ScriptValue, canonical_text, spells};
ghost use Rattle.spec_requests.specs.Words.{thread_named};
ghost use Rattle.spec_scripts.specs.Words.{IsAllowed, is_over, refusal, run, text_of_history, turns_of_play};
ghost use Rattle.spec_traces.specs.declared.verdict.Verdict.TheVariants.{Differs, Legal};
ghost use Rattle.spec_traces.specs.FirstDifferences.{IsFirstDifference};
ghost use Rattle.spec_traces.specs.Fronts.{IsFrontOf, IsFrontOfRun, IsFrontOfTrace};
ghost use Rattle.spec_traces.specs.LegalTraces.{IsLegal, IsTrace};
ghost use Rattle.spec_traces.specs.Replays.{scheduled};
ghost use Rattle.spec_traces.specs.TraceInput.{AreParts, HasNoTrace, script_part, trace_part};
ghost use Rattle.spec_traces.specs.Turns.{HasReadableLine, turn_words, turns_in};
ghost use Rattle.spec_traces.specs.Verdicts.{verdict};

/// The two parts of an input have the first line that is exactly `trace` between them, and no others have. Where there is no such
/// line all of the input is the script's.
pub fn parts()
    ensures found { (input trace : List ℕ) → trace_part input ≡ Some trace → AreParts input (script_part input) trace }
    ensures none { (input : List ℕ) → trace_part input ≡ None → HasNoTrace input }
    ensures again { (input script trace : List ℕ) → AreParts input script trace → (script_part input ≡ script) × (trace_part input ≡ Some trace) }
{}

/// The line of each event of a run has no line feed and begins with a digit, and its second word names the event's thread.
pub fn lines_of_events()
    ensures { (source : List ℕ) (script : ScriptValue) (turns : List ℕ) → spells source script → IsAllowed script turns → All (HasReadableLine script) (run script turns).events }
{}

/// The turns of a run stand in its text, whether it is over or not. In the trace of a legal run each line that begins with a digit
/// names a thread, and these are the run's turns.
pub fn turns_of_texts()
    ensures runs { (source : List ℕ) (script : ScriptValue) (turns : List ℕ) → spells source script → IsAllowed script turns → turns_in script (text_of_history script (run script turns)) ≡ turns }
    ensures traces { (source : List ℕ) (script : ScriptValue) (trace turns : List ℕ) → spells source script → IsTrace script trace turns → turns_in script trace ≡ turns }
    ensures words { (source : List ℕ) (script : ScriptValue) (trace turns : List ℕ) → spells source script → IsTrace script trace turns → map (thread_named script) (turn_words trace) ≡ map Some turns }
{}

/// The verdict is legal exactly where the text is the trace of a legal run, and then just one list of turns makes it.
pub fn legal_traces()
    ensures found { (source : List ℕ) (script : ScriptValue) (trace : List ℕ) (events : ℕ) → spells source script → verdict script trace ≡ Legal events → IsLegal script trace events }
    ensures again { (source : List ℕ) (script : ScriptValue) (trace : List ℕ) (events : ℕ) → spells source script → IsLegal script trace events → verdict script trace ≡ Legal events }
    ensures one { (source : List ℕ) (script : ScriptValue) (trace turns others : List ℕ) → spells source script → IsTrace script trace turns → IsTrace script trace others → turns ≡ others }
{}

/// The verdict is that a line differs exactly where that line is the first at which the text leaves all traces of legal runs.
pub fn first_differences()
    ensures found { (source : List ℕ) (script : ScriptValue) (trace : List ℕ) (line : ℕ) (want have : List ℕ) → spells source script → verdict script trace ≡ Differs line want have → IsFirstDifference script trace line want have }
    ensures again { (source : List ℕ) (script : ScriptValue) (trace : List ℕ) (line : ℕ) (want have : List ℕ) → spells source script → IsFirstDifference script trace line want have → verdict script trace ≡ Differs line want have }
{}

/// What `play` writes of a run that is not refused is the trace of that run, and has the verdict legal.
pub fn played_traces()
    ensures trace { (script : ScriptValue) → refusal script ≡ None → IsTrace script (text_of_history script (run script (turns_of_play script))) (turns_of_play script) }
    ensures legal { (source : List ℕ) (script : ScriptValue) → spells source script → refusal script ≡ None → verdict script (text_of_history script (run script (turns_of_play script))) ≡ Legal (length (turns_of_play script)) }
{}

/// A run that is over can be replayed. Its turns, written into the script as its schedule, are the turns that `play` takes: none is
/// refused, and none comes after them. The run and its text are the same, since a schedule does not count in a run; and the canonical
/// text of the script with that schedule spells it.
pub fn replay()
    ensures run { (script : ScriptValue) (turns others : List ℕ) → run (scheduled script turns) others ≡ run script others }
    ensures unrefused { (script : ScriptValue) (turns : List ℕ) → IsAllowed script turns → refusal (scheduled script turns) ≡ None }
    ensures turns { (script : ScriptValue) (turns : List ℕ) → IsAllowed script turns → is_over script (run script turns) ≡ true → turns_of_play (scheduled script turns) ≡ turns }
    ensures text { (script : ScriptValue) (turns : List ℕ) → text_of_history (scheduled script turns) (run (scheduled script turns) turns) ≡ text_of_history script (run script turns) }
    ensures spelled { (source : List ℕ) (script : ScriptValue) (turns : List ℕ) → spells source script → IsAllowed script turns → spells (canonical_text (scheduled script turns)) (scheduled script turns) }
{}

/// What a failed write leaves of the trace of a run is a prefix of it. The turns of its whole event lines are allowed. After the lines of
/// their run's events there stands a prefix of the end line and of a line `tail N`, where that run is over, and else a prefix of the
/// line of an event that may follow. And only a prefix of the trace of some run that is over is such a text.
pub fn fronts_of_runs()
    ensures found { (source : List ℕ) (script : ScriptValue) (trace turns written : List ℕ) → spells source script → IsTrace script trace turns → IsFrontOf written trace → IsFrontOfRun script written }
    ensures again { (script : ScriptValue) (written : List ℕ) → IsFrontOfRun script written → IsFrontOfTrace script written }
{}
