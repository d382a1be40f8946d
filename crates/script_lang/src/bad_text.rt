//! The line that answers a text that spells no script.
ghost use Rattle.std.specs.Prelude.{◌≡◌, IfOk};
ghost use Rattle.script_lang.specs.BadText.{bad_text as text_of_bad};

use crate::bad::Bad;
use dk_base::error::NoMemory;
use dk_base::list::Bytes;
use line_text::writer::Writer;
use std::alloc::Global;

/// The line that answers a text that spells no script: `bad line N REASON`.
pub fn bad_text(alloc: Global, bad: Bad) -> Result<Bytes, NoMemory>
    ensures { IfOk result (λ text. text ≡ text_of_bad bad) }
{
    let mut text = Writer::new(alloc)?;
    text.first(b"bad")?;
    text.word(b"line")?;
    text.number(alloc, u64::from(bad.line))?;
    text.word(bad.reason.word().as_bytes())?;
    text.end_line()?;
    Ok(text.into_bytes())
}
