//! A verdict as text.

ghost use Rattle.std.specs.Prelude.{◌≡◌, ◌∷◌, ◌++◌, [], IfOk, OnOk};
ghost use Rattle.history_check.specs.VerdictText.{bad_line_text, verdict_text, worded_text};

use crate::verdict::Verdict;
use dk_base::error::NoMemory;
use dk_base::list::Bytes;
use line_text::writer::Writer;
use std::alloc::Global;

/// Adds a line of a word and a text after it, if any. Want of memory may leave a part of it.
fn push_worded(text: &mut Writer, word: &[u8], after: &[u8]) -> Result<(), NoMemory>
    ensures { OnOk result (text.new ≡ text.old ++ worded_text word.now after.now ++ 10 ∷ []) }
{
    text.first(word)?;
    if !after.is_empty() {
        text.word(after)?;
    }
    text.end_line()
}

/// Adds the line that tells which line is bad, and why. Want of memory may leave a part of it.
fn push_bad(alloc: Global, text: &mut Writer, line: u64, reason: &str) -> Result<(), NoMemory>
    ensures { OnOk result (text.new ≡ text.old ++ bad_line_text line reason.now) }
{
    text.first(b"bad line")?;
    text.number(alloc, line)?;
    text.word(reason.as_bytes())?;
    text.end_line()
}

/// `legal N`, `bad line N REASON`, or `illegal line N` and two lines more, of what is wanted there and of what stands there.
#[tactic(auto, unfolding(crate::specs::VerdictText::verdict_text))]
pub fn text_of_verdict(alloc: Global, verdict: &Verdict) -> Result<Bytes, NoMemory>
    ensures { IfOk result (λ text. text ≡ verdict_text verdict.now) }
{
    let mut text = Writer::new(alloc)?;
    match verdict {
        Verdict::Legal { events } => {
            text.first(b"legal")?;
            text.number(alloc, *events)?;
            text.end_line()?;
        }
        Verdict::Cut { line } => push_bad(alloc, &mut text, *line, "cut")?,
        Verdict::Bad { line, reason } => push_bad(alloc, &mut text, *line, reason.word())?,
        Verdict::Illegal { line, want, have } => {
            text.first(b"illegal line")?;
            text.number(alloc, *line)?;
            text.end_line()?;
            push_worded(&mut text, b"want", want.slice())?;
            push_worded(&mut text, b"have", have.slice())?;
        }
    }
    Ok(text.into_bytes())
}
