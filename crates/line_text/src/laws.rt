//! What is written is read again. No function here does anything: each carries laws on the definitions.

ghost use Rattle.std.specs.Prelude.{◌≡◌, ℕ, ◌≤◌, ◌<◌, ◌^◌, List, true, Some, decimal};
ghost use Rattle.std.specs.List.{list_all};
ghost use Rattle.line_text.specs.declared.number.Number.TheVariants.{Found};
ghost use Rattle.line_text.specs.Lines.{lines_of, text_of_lines, is_one_line};
ghost use Rattle.line_text.specs.LineWords.{words_of, joined_words, is_word, is_plain};
ghost use Rattle.line_text.specs.Numbers.{bounded_number};
ghost use Rattle.line_text.specs.Names.{is_name};
ghost use Rattle.line_text.specs.Strings.{string_of, quoted_text, are_bytes};
ghost use Rattle.line_text.specs.Spelled.{SpellsNumber, SpellsString};

/// The lines of a text of lines are these lines.
pub fn lines_are_read_back()
    ensures { (lines : List (List ℕ)) → list_all is_one_line lines ≡ true → lines_of (text_of_lines lines) ≡ lines }
{}

/// The words of joined words are these words. Names, numbers and strings are words.
pub fn words_are_read_back()
    ensures joined { (words : List (List ℕ)) → list_all is_word words ≡ true → words_of (joined_words words) ≡ words }
    ensures plain { (word : List ℕ) → is_plain word ≡ true → is_word word ≡ true }
    ensures name { (name : List ℕ) → is_name name ≡ true → is_plain name ≡ true }
    ensures number { (n : ℕ) → n < 2 ^ 64 → is_plain (decimal n) ≡ true }
    ensures string { (text word : List ℕ) → SpellsString text word → is_word word ≡ true }
{}

/// A number is read exactly where it is spelled.
pub fn number_is_read_where_spelled()
    ensures again { (low high n : ℕ) (word : List ℕ) → high < 2 ^ 64 → SpellsNumber low high n word → bounded_number low high word ≡ Found n }
    ensures found { (low high n : ℕ) (word : List ℕ) → high < 2 ^ 64 → bounded_number low high word ≡ Found n → SpellsNumber low high n word }
{}

/// A string is read exactly where it is spelled, and the string that is written for bytes spells them.
pub fn string_is_read_where_spelled()
    ensures written { (text : List ℕ) → are_bytes text ≡ true → string_of (quoted_text text) ≡ Some text }
    ensures again { (text word : List ℕ) → SpellsString text word → string_of word ≡ Some text }
    ensures found { (text word : List ℕ) → string_of word ≡ Some text → SpellsString text word }
{}
