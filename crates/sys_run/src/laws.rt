//! What playing a schedule and finishing the run make together, as laws on values of `Sys`. Nothing runs here: a function has no
//! body, and a call of it hands its law to the caller's proof.

ghost use Rattle.std.specs.Prelude.{◌≡◌, []};
ghost use Rattle.script_lang.specs.Words.{ScriptValue};
ghost use Rattle.spec_scripts.specs.Words.{Refusal};
ghost use Rattle.sys_run.specs.Schedules.{HasPlayed, IsRefused, IsPlay, IsBefore};
ghost use Rattle.sys_run.specs.Sys.{SysValue, with_journal, with_turns, turns_left};

/// From an empty journal, the turns of the schedule and then those that are left are the run that `play` makes.
pub fn whole_plays()
    ensures { (script : ScriptValue) (new played finished : SysValue) → new ≡ with_journal script [] → HasPlayed new played → finished ≡ with_turns played (turns_left played) → IsPlay script finished }
{}

/// From an empty journal, the turns before a refused one are the run that `play` makes before it is refused.
pub fn refused_plays()
    ensures { (script : ScriptValue) (refused : Refusal) (new played : SysValue) → new ≡ with_journal script [] → IsRefused new played refused → IsBefore script refused played }
{}
