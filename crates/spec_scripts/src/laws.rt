//! What the runs of a spelled script keep. Nothing runs here: a function has no body, and a call of it hands
//! its laws to the caller's proof.

ghost use Rattle.std.specs.Prelude.{◌≡◌, ℕ, List, [], None, Some, length, true, false};
ghost use Rattle.script_lang.specs.Words.{ScriptValue, spells};
ghost use Rattle.spec_kernel.specs.Words.{MayTurn, is_runnable, state_after};
ghost use Rattle.spec_events.specs.Words.{events_with_replies};
ghost use Rattle.spec_scripts.specs.DeclaredRuns.{IsDeclared};
ghost use Rattle.spec_scripts.specs.Plays.{IsWholePlay, IsRefusedPlay};
ghost use Rattle.spec_scripts.specs.ScriptRuns.{run, request_at_turn, IsAllowed, Refusal, opening_of, refusal, turns_of, turns_of_play};

/// Every thread, process and entry that the events of a run, their answers, the doors of its state and its waiting
/// threads name is declared in the script.
pub fn declared_names()
    ensures { (text : List ℕ) (script : ScriptValue) (ts : List ℕ) → spells text script → IsAllowed script ts → IsDeclared script (run script ts) }
{}

/// Each turn of a runnable thread is one that a kernel takes: what its request names is there, and its counts are in range.
pub fn legal_turns()
    ensures { (text : List ℕ) (script : ScriptValue) (ts : List ℕ) (t : ℕ) → spells text script → IsAllowed script ts → is_runnable (run script ts).state t ≡ true → MayTurn (run script ts).state t (request_at_turn script (run script ts) t) }
{}

/// `play` stops only where the run is over: no thread is runnable then, or there are as many events as the budget. Where a
/// turn of the schedule is refused, the turns before it are taken, and its thread cannot take it.
pub fn played_turns()
    ensures whole { (script : ScriptValue) → refusal script ≡ None → IsWholePlay script (turns_of_play script) }
    ensures refused { (script : ScriptValue) (refused : Refusal) → refusal script ≡ Some refused → IsRefusedPlay script refused }
    ensures counted { (script : ScriptValue) (ts : List ℕ) → length (run script ts).events ≡ length ts }
{}

/// The state and the events of a run are those of its turns from the script's opening state, one turn for each thread of the
/// list; what the cache of a process replied goes by the lines that the process asked it before. So the laws of turns speak of the lines that a run prints.
pub fn turns_of_runs()
    ensures state { (script : ScriptValue) (ts : List ℕ) → (run script ts).state ≡ state_after (opening_of script) (turns_of script ts) }
    ensures events { (script : ScriptValue) (ts : List ℕ) → (run script ts).events ≡ events_with_replies (opening_of script) [] (turns_of script ts) }
    ensures counted { (script : ScriptValue) (ts : List ℕ) → length (turns_of script ts) ≡ length ts }
{}
