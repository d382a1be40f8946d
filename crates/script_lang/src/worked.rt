//! Worked texts, by the definitions.

ghost use Rattle.std.specs.Prelude.{◌≡◌, [], ◌∷◌, Some, codes};
ghost use Rattle.line_text.specs.Words.{text_of_lines};
ghost use Rattle.line_forms.specs.declared.reason.Reason.TheVariants.{Header, Word, Form, Range, Twice, Body, Open, Unknown};
ghost use Rattle.script_lang.specs.Parsing.{first_bad_line, bad_line, canonical_of_text};

/// Texts that spell no script, with the first bad line and its reason.
pub fn bad_texts()
    ensures empty_input { first_bad_line [] ≡ Some (bad_line 1 Header) }
    ensures bad_range { first_bad_line (text_of_lines (codes "doors script 1" ∷ codes "budget 0" ∷ [])) ≡ Some (bad_line 2 Range) }
    ensures bad_twice { first_bad_line (text_of_lines (codes "doors script 1" ∷ codes "process a" ∷ codes "process a" ∷ [])) ≡ Some (bad_line 3 Twice) }
    ensures bad_open { first_bad_line (text_of_lines (codes "doors script 1" ∷ codes "process a" ∷ codes "thread t" ∷ [])) ≡ Some (bad_line 4 Open) }
    ensures bad_body { first_bad_line (text_of_lines (codes "doors script 1" ∷ codes "process a" ∷ codes "thread t" ∷ codes "repeat 2" ∷ codes "end" ∷ codes "end" ∷ [])) ≡ Some (bad_line 5 Body) }
    ensures bad_unknown { first_bad_line (text_of_lines (codes "doors script 1" ∷ codes "process a" ∷ codes "thread t" ∷ codes "create d nope 0" ∷ codes "end" ∷ [])) ≡ Some (bad_line 4 Unknown) }
{}

/// A text, and the canonical text of the script that it spells.
pub fn shown_text()
    ensures { canonical_of_text (text_of_lines (codes "doors script 1" ∷ [] ∷ codes "process  a" ∷ codes "thread t" ∷ codes " send 3 1 2" ∷ codes " return \"\\x41\\x0a\" + $v desc $d.0!" ∷ codes "end" ∷ [])) ≡ Some (text_of_lines (codes "doors script 1" ∷ codes "budget 100000" ∷ codes "process a limit 256" ∷ codes "thread t" ∷ codes "send 3 1 2" ∷ codes "return \"A\\x0a\" + $v desc $d!" ∷ codes "end" ∷ [])) }
{}

/// Texts of version 1 and 2 that spell no script since they have `child` or `fork`, with the first bad line and its reason.
pub fn bad_children()
    ensures child_in_version_1 { first_bad_line (text_of_lines (codes "doors script 1" ∷ codes "process a" ∷ codes "child k of a" ∷ [])) ≡ Some (bad_line 3 Word) }
    ensures fork_in_version_1 { first_bad_line (text_of_lines (codes "doors script 1" ∷ codes "process a" ∷ codes "thread t" ∷ codes "fork k" ∷ codes "end" ∷ [])) ≡ Some (bad_line 4 Word) }
    ensures version_5 { first_bad_line (text_of_lines (codes "doors script 5" ∷ [])) ≡ Some (bad_line 1 Header) }
    ensures child_of_none { first_bad_line (text_of_lines (codes "doors script 2" ∷ codes "process a" ∷ codes "child k" ∷ [])) ≡ Some (bad_line 3 Form) }
    ensures limited_child { first_bad_line (text_of_lines (codes "doors script 2" ∷ codes "process a" ∷ codes "child k of a limit 3" ∷ [])) ≡ Some (bad_line 3 Form) }
    ensures declared_before { first_bad_line (text_of_lines (codes "doors script 2" ∷ codes "process a" ∷ codes "child a of a" ∷ [])) ≡ Some (bad_line 3 Twice) }
    ensures child_of_itself { first_bad_line (text_of_lines (codes "doors script 2" ∷ codes "process a" ∷ codes "child k of k" ∷ [])) ≡ Some (bad_line 3 Unknown) }
    ensures child_of_a_later_one { first_bad_line (text_of_lines (codes "doors script 2" ∷ codes "child k of a" ∷ codes "process a" ∷ [])) ≡ Some (bad_line 2 Unknown) }
    ensures fork_of_no_child { first_bad_line (text_of_lines (codes "doors script 2" ∷ codes "process a" ∷ codes "thread t" ∷ codes "fork a" ∷ codes "end" ∷ [])) ≡ Some (bad_line 4 Unknown) }
    ensures fork_of_anothers_child { first_bad_line (text_of_lines (codes "doors script 2" ∷ codes "process a" ∷ codes "process b" ∷ codes "thread t" ∷ codes "fork k" ∷ codes "end" ∷ codes "child k of a" ∷ [])) ≡ Some (bad_line 5 Unknown) }
{}

/// A text of version 2 with a child and a grandchild, and its canonical text.
pub fn shown_children()
    ensures { canonical_of_text (text_of_lines (codes "doors script 2" ∷ codes "process a limit 9" ∷ codes "thread t" ∷ codes "  fork   k" ∷ codes "end" ∷ codes "child k  of a" ∷ codes "child g of k" ∷ codes "spare s" ∷ [])) ≡ Some (text_of_lines (codes "doors script 2" ∷ codes "budget 100000" ∷ codes "process a limit 9" ∷ codes "thread t" ∷ codes "fork k" ∷ codes "end" ∷ codes "child k of a" ∷ codes "child g of k" ∷ codes "spare s" ∷ [])) }
{}

/// Texts that spell no script since they have commands on timers or on the cache, with the first bad line and its reason.
pub fn bad_timers()
    ensures timer_in_version_2 { first_bad_line (text_of_lines (codes "doors script 2" ∷ codes "process a" ∷ codes "thread t" ∷ codes "tcreate 0 1" ∷ codes "end" ∷ [])) ≡ Some (bad_line 4 Word) }
    ensures arming_in_version_2 { first_bad_line (text_of_lines (codes "doors script 2" ∷ codes "process a" ∷ codes "thread t" ∷ codes "tset 0 1 0" ∷ codes "end" ∷ [])) ≡ Some (bad_line 4 Word) }
    ensures deletion_in_version_1 { first_bad_line (text_of_lines (codes "doors script 1" ∷ codes "process a" ∷ codes "thread t" ∷ codes "tdelete 0" ∷ codes "end" ∷ [])) ≡ Some (bad_line 4 Word) }
    ensures advance_in_version_1 { first_bad_line (text_of_lines (codes "doors script 1" ∷ codes "process a" ∷ codes "thread t" ∷ codes "advance 1" ∷ codes "end" ∷ [])) ≡ Some (bad_line 4 Word) }
    ensures cache_in_version_3 { first_bad_line (text_of_lines (codes "doors script 3" ∷ codes "process a" ∷ codes "thread t" ∷ codes "ncd v \"stat\"" ∷ codes "end" ∷ [])) ≡ Some (bad_line 4 Word) }
    ensures timer_above_31 { first_bad_line (text_of_lines (codes "doors script 3" ∷ codes "process a" ∷ codes "thread t" ∷ codes "tset 32 1 0" ∷ codes "end" ∷ [])) ≡ Some (bad_line 4 Range) }
    ensures delay_above_the_greatest { first_bad_line (text_of_lines (codes "doors script 3" ∷ codes "process a" ∷ codes "thread t" ∷ codes "tset 0 1000000001 0" ∷ codes "end" ∷ [])) ≡ Some (bad_line 4 Range) }
    ensures interval_above_the_greatest { first_bad_line (text_of_lines (codes "doors script 3" ∷ codes "process a" ∷ codes "thread t" ∷ codes "tset 0 0 1000000001" ∷ codes "end" ∷ [])) ≡ Some (bad_line 4 Range) }
    ensures advance_by_nothing { first_bad_line (text_of_lines (codes "doors script 3" ∷ codes "process a" ∷ codes "thread t" ∷ codes "advance 0" ∷ codes "end" ∷ [])) ≡ Some (bad_line 4 Range) }
    ensures advance_by_too_much { first_bad_line (text_of_lines (codes "doors script 3" ∷ codes "process a" ∷ codes "thread t" ∷ codes "advance 10001" ∷ codes "end" ∷ [])) ≡ Some (bad_line 4 Range) }
    ensures arming_without_interval { first_bad_line (text_of_lines (codes "doors script 3" ∷ codes "process a" ∷ codes "thread t" ∷ codes "tset 0 1" ∷ codes "end" ∷ [])) ≡ Some (bad_line 4 Form) }
    ensures cache_without_line { first_bad_line (text_of_lines (codes "doors script 4" ∷ codes "process a" ∷ codes "thread t" ∷ codes "ncd v" ∷ codes "end" ∷ [])) ≡ Some (bad_line 4 Form) }
{}

/// A text of version 4 with timers and the cache, and its canonical text.
pub fn shown_timers()
    ensures { canonical_of_text (text_of_lines (codes "doors script 4" ∷ codes "process a" ∷ codes "thread t" ∷ codes " tcreate  $p.0 7" ∷ codes "tset 31 1000000000 0" ∷ codes "tdelete   31" ∷ codes "advance 10000 " ∷ codes "ncd v \"get \" + $k" ∷ codes "end" ∷ [])) ≡ Some (text_of_lines (codes "doors script 4" ∷ codes "budget 100000" ∷ codes "process a limit 256" ∷ codes "thread t" ∷ codes "tcreate $p 7" ∷ codes "tset 31 1000000000 0" ∷ codes "tdelete 31" ∷ codes "advance 10000" ∷ codes "ncd v \"get \" + $k" ∷ codes "end" ∷ [])) }
{}
