//! A run with lines for name tables that is known beforehand, computed through the definitions. The function does nothing: it is the law
//! that its events show these answers, and that the words of the law of what events show hold there.

ghost use Rattle.std.specs.Prelude.{◌≡◌, [], ◌∷◌, None, Some, codes, map, take, true};
ghost use Rattle.dk_base.specs.declared.answer.Answer.TheVariants as answer;
ghost use Rattle.dk_base.specs.declared.request.Request.TheVariants as request;
ghost use Rattle.spec_kernel.specs.Words.{least_runnable, state_after};
ghost use Rattle.spec_events.specs.Words.{events_with_replies};
ghost use Rattle.law_runs.specs.EventsShown.{lines_asked, reply_shown};
ghost use Rattle.law_examples.specs.CacheRuns.{cache_answers, cache_start, cache_turns};
ghost use Rattle.law_examples.specs.PortRuns.{take_turns};
ghost use Rattle.law_examples.specs.WorkedRun.{answer_of};

/// Each process has a table of its own: what one set the other does not find, and each counts its own hits and misses. An alias is
/// followed; a line with two spaces together is none.
pub fn replies()
    ensures taken { take_turns cache_start cache_turns ≡ true }
    ensures shown { map answer_of (events_with_replies cache_start [] cache_turns) ≡ cache_answers }
    ensures over { least_runnable (state_after cache_start cache_turns) ≡ None }
    ensures lines { lines_asked cache_start 2 cache_turns ≡ codes "get a" ∷ codes "stat" ∷ [] }
    ensures by_law { reply_shown (lines_asked cache_start 1 (take 4 cache_turns)) (Some (request.Ncd (codes "get c"))) (answer.Data []) ≡ answer.Data (codes "value b") }
{}
