//! What is read is spelled, what is spelled is read, and what is written is read again. No function here does anything:
//! each carries laws on the definitions.

ghost use Rattle.std.specs.Prelude.{◌≡◌, ◌≤◌, ℕ, List, ◌∷◌, true, Some};
ghost use Rattle.std.specs.List.{list_all};
ghost use Rattle.line_text.specs.Words.{is_printable, is_word};
ghost use Rattle.line_reader.specs.Types.{Keyword, Line};
ghost use Rattle.line_forms.specs.Words.{AreDistinct, SpellsLine, Tables, keyword_of, keyword_version, keyword_word, line_words};
ghost use Rattle.law_lines.specs.LineLaws.{IsReadBack, WasRead};

/// A word is a keyword exactly where it is that keyword's word, in the texts of the versions that have the keyword.
pub fn keyword_is_read_where_spelled()
    ensures again { (version : ℕ) (keyword : Keyword) → keyword_version keyword ≤ version → keyword_of version (keyword_word keyword) ≡ Some keyword }
    ensures found { (version : ℕ) (word : List ℕ) (keyword : Keyword) → keyword_of version word ≡ Some keyword → word ≡ keyword_word keyword }
    ensures since { (version : ℕ) (word : List ℕ) (keyword : Keyword) → 1 ≤ version → keyword_of version word ≡ Some keyword → keyword_version keyword ≤ version }
{}

/// The words of a line that was read spell it.
pub fn line_read_is_spelled()
    ensures { (tables : Tables) (process : ℕ) (keyword : Keyword) (words : List (List ℕ)) (line : Line) → WasRead tables process keyword words line → SpellsLine tables process line (keyword_word keyword ∷ words) }
{}

/// The words that spell a line are read as this line.
pub fn line_spelled_is_read()
    ensures { (tables : Tables) (process : ℕ) (line : Line) (words : List (List ℕ)) → AreDistinct tables → SpellsLine tables process line words → IsReadBack tables process line words }
{}

/// Where a line has a spelling, its canonical words spell it.
pub fn line_written_is_spelled()
    ensures spelled { (tables : Tables) (process : ℕ) (line : Line) (words : List (List ℕ)) → SpellsLine tables process line words → SpellsLine tables process line (line_words tables line) }
    ensures words { (tables : Tables) (process : ℕ) (line : Line) (words : List (List ℕ)) → SpellsLine tables process line words → list_all is_word (line_words tables line) ≡ true }
{}

/// The canonical words of a line that was read are read as this line.
pub fn line_written_is_read()
    ensures { (tables : Tables) (process : ℕ) (keyword : Keyword) (words : List (List ℕ)) (line : Line) → AreDistinct tables → WasRead tables process keyword words line → IsReadBack tables process line (line_words tables line) }
{}

/// The words that spell a line are printable.
pub fn line_spelled_is_printable()
    ensures { (tables : Tables) (process : ℕ) (line : Line) (words : List (List ℕ)) → SpellsLine tables process line words → list_all (λ word. list_all is_printable word) words ≡ true }
{}
