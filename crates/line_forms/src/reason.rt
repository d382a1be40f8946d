//! Why a line is refused.
use std::fmt;

/// Why a line is bad. Of several that apply to a line it is the first.
#[derive(Clone, Copy, Debug, PartialEq, Eq)]
pub enum Reason {
    /// The line has a byte outside 0x20 to 0x7e.
    Byte,
    /// Line 1 is another or missing.
    Header,
    /// The first word is no word of this place.
    Word,
    /// The operands are wrong in number or spelling.
    Form,
    /// A number is outside its range.
    Range,
    /// A name is declared again.
    Twice,
    /// A limit on a count is exceeded.
    Many,
    /// The line is in place of a loop's first command.
    Body,
    /// The text ends in a block.
    Open,
    /// A procedure of the process, a thread or a process is not declared.
    Unknown,
    /// There are more bytes than the limit.
    Size,
    /// No line `trace` follows the script.
    Trace,
}

impl Reason {
    ghost use Rattle.std.specs.Prelude.{◌≡◌};
    ghost use Rattle.line_forms.specs.ReasonWords.{reason_word};

    /// The word that names it.
    pub fn word(self) -> &'static str
        ensures { result.now ≡ reason_word self }
    {
        match self {
            Reason::Byte => "byte",
            Reason::Header => "header",
            Reason::Word => "word",
            Reason::Form => "form",
            Reason::Range => "range",
            Reason::Twice => "twice",
            Reason::Many => "many",
            Reason::Body => "body",
            Reason::Open => "open",
            Reason::Unknown => "unknown",
            Reason::Size => "size",
            Reason::Trace => "trace",
        }
    }
}

impl fmt::Display for Reason {
    ghost use Rattle.std.specs.Prelude.{Some};
    ghost use Rattle.line_forms.specs.ReasonWords.{reason_word};

    ghost output = { λ reason. Some (reason_word reason) };

    fn fmt<W: fmt::Write>(&self, f: &mut fmt::Formatter<W>) -> fmt::Result {
        f.write_str(self.word())
    }
}
