//! Which command the words are.
ghost use Rattle.std.specs.Prelude.{◌≡◌, ℕ, [], ◌∷◌, Some, IfSome};
ghost use Rattle.load_gen.specs.declared.load_script.TheConstants.{CALLS_MAX};
ghost use Rattle.line_text.specs.Words.{SpellsNumber};
ghost use Rattle.doors_top.specs.Outcomes.{IsLoad, is_check, is_only, is_play, is_run, is_show, texts};

use line_text::number::{Number, bounded_number};
use load_gen::CALLS_MAX;

fn is_word(words: &[&str], word: &str) -> bool
    ensures { result ≡ is_only word.now (texts words.now) }
{
    match words {
        [only] => *only == word,
        _ => false,
    }
}

pub(crate) fn is_play_word(words: &[&str]) -> bool
    ensures { result ≡ is_play (texts words.now) }
{
    is_word(words, "play")
}

pub(crate) fn is_show_word(words: &[&str]) -> bool
    ensures { result ≡ is_show (texts words.now) }
{
    is_word(words, "show")
}

pub(crate) fn is_check_word(words: &[&str]) -> bool
    ensures { result ≡ is_check (texts words.now) }
{
    is_word(words, "check")
}

pub(crate) fn is_run_word(words: &[&str]) -> bool
    ensures { result ≡ is_run (texts words.now) }
{
    is_word(words, "run")
}

/// The number of calls that a word spells.
fn calls_of_word(word: &[u8]) -> Option<u32>
    ensures found { IfSome result (λ n. SpellsNumber 1 CALLS_MAX n word.now) }
    ensures again { (n : ℕ) → SpellsNumber 1 CALLS_MAX n word.now → result ≡ Some n }
{
    line_text::laws::number_is_read_where_spelled();
    match bounded_number(word, 1, u64::from(CALLS_MAX)) {
        Number::Found(n) => Some(n as u32),
        Number::OutOfRange | Number::NoNumber => None,
    }
}

/// The number of calls of two words.
#[tactic(auto, using(crate::proofs::LoadWords::load_found))]
fn calls_of_words(first: &str, second: &str) -> Option<u32>
    ensures found { IfSome result (IsLoad (first.now ∷ second.now ∷ [])) }
    ensures again { (n : ℕ) → IsLoad (first.now ∷ second.now ∷ []) n → result ≡ Some n }
{
    if first == "load" {
        calls_of_word(second.as_bytes())
    } else {
        None
    }
}

/// The number of calls of the words `load N`.
pub(crate) fn calls_of_load(words: &[&str]) -> Option<u32>
    ensures found { IfSome result (IsLoad (texts words.now)) }
    ensures again { (n : ℕ) → IsLoad (texts words.now) n → result ≡ Some n }
{
    match words {
        [first, second] => calls_of_words(first, second),
        _ => None,
    }
}
