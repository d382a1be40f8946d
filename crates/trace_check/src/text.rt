//! A verdict as text.

ghost use Rattle.std.specs.Prelude.{◌≡◌, ◌∷◌, ◌++◌, [], IfOk, OnOk};
ghost use Rattle.spec_traces.specs.Words.{verdict_text, worded_text};

use dk_base::error::NoMemory;
use dk_base::list::Bytes;
use line_text::writer::Writer;
use spec_traces::verdict::Verdict;
use std::alloc::Global;

/// Adds a line of a word and a text after it, if any. Want of memory may leave a part of it.
fn push_worded(text: &mut Writer, word: &[u8], after: &[u8]) -> Result<(), NoMemory>
    ensures { OnOk result (text.new ≡ text.old ++ worded_text word.now after.now ++ 10 ∷ []) }
{
    text.first(word)?;
    if !after.is_empty() {
        text.word(after)?;
    }
    text.end_line()
}

/// `legal N`, or `illegal line N` and two lines more, of what is wanted there and of what stands there.
#[tactic(auto, unfolding(spec_traces::specs::VerdictText::verdict_text))]
pub fn text_of_verdict(alloc: Global, verdict: &Verdict) -> Result<Bytes, NoMemory>
    ensures { IfOk result (λ text. text ≡ verdict_text verdict.now) }
{
    let mut text = Writer::new(alloc)?;
    match verdict {
        Verdict::Legal { events } => {
            text.first(b"legal")?;
            text.number(alloc, u64::from(*events))?;
            text.end_line()?;
        }
        Verdict::Differs { line, want, have } => {
            text.first(b"illegal line")?;
            text.number(alloc, u64::from(*line))?;
            text.end_line()?;
            push_worded(&mut text, b"want", want.slice())?;
            push_worded(&mut text, b"have", have.slice())?;
        }
    }
    Ok(text.into_bytes())
}
