//! A line as text.

ghost use Rattle.std.specs.Prelude.{◌≡◌, ◌++◌, IfOk, OnOk, OnErr};
ghost use Rattle.line_text.specs.Words.{joined_words};
ghost use Rattle.line_forms.specs.Words.{keyword_of_line as keyword_that_begins, line_words};

use crate::put_lines::put_line_operands;
use dk_base::error::NoMemory;
use dk_base::list::Bytes;
use line_forms::keyword::Keyword;
use line_forms::keyword_words::word_of;
use line_forms::line::Line;
use line_forms::tables::Tables;
use line_text::writer::Writer;
use std::alloc::Global;

/// The keyword of a line.
pub fn keyword_of_line(line: &Line) -> Keyword
    ensures { result ≡ keyword_that_begins line.now }
{
    match line {
        Line::Create { .. } => Keyword::Create,
        Line::Call { .. } => Keyword::Call,
        Line::Return { .. } => Keyword::Return,
        Line::Serve => Keyword::Serve,
        Line::Revoke { .. } => Keyword::Revoke,
        Line::Bind { .. } => Keyword::Bind,
        Line::Unbind => Keyword::Unbind,
        Line::Info { .. } => Keyword::Info,
        Line::InfoQuery => Keyword::Info,
        Line::GetParam { .. } => Keyword::GetParam,
        Line::SetParam { .. } => Keyword::SetParam,
        Line::Cred => Keyword::Cred,
        Line::TestCancel => Keyword::TestCancel,
        Line::Exit => Keyword::Exit,
        Line::Close { .. } => Keyword::Close,
        Line::Dup { .. } => Keyword::Dup,
        Line::Attach { .. } => Keyword::Attach,
        Line::Detach { .. } => Keyword::Detach,
        Line::Open { .. } => Keyword::Open,
        Line::Await { .. } => Keyword::Await,
        Line::Pipe { .. } => Keyword::Pipe,
        Line::Write { .. } => Keyword::Write,
        Line::Read { .. } => Keyword::Read,
        Line::PortCreate { .. } => Keyword::PortCreate,
        Line::Associate { .. } => Keyword::Associate,
        Line::Dissociate { .. } => Keyword::Dissociate,
        Line::Get { .. } => Keyword::Get,
        Line::GetN { .. } => Keyword::GetN,
        Line::Send { .. } => Keyword::Send,
        Line::SendN { .. } => Keyword::SendN,
        Line::Alert { .. } => Keyword::Alert,
        Line::TimerCreate { .. } => Keyword::TimerCreate,
        Line::TimerSet { .. } => Keyword::TimerSet,
        Line::TimerDelete { .. } => Keyword::TimerDelete,
        Line::Advance { .. } => Keyword::Advance,
        Line::Interrupt { .. } => Keyword::Interrupt,
        Line::Kill { .. } => Keyword::Kill,
        Line::Fork { .. } => Keyword::Fork,
        Line::Work { .. } => Keyword::Work,
        Line::Ncd { .. } => Keyword::Ncd,
        Line::Repeat { .. } => Keyword::Repeat,
        Line::If { .. } => Keyword::If,
        Line::End => Keyword::End,
    }
}

/// The canonical words of a line, with a space between each two.
#[tactic(auto, using(crate::proofs::SpacedWords::line_made))]
fn line_text(alloc: Global, tables: &Tables, line: &Line) -> Result<Bytes, NoMemory>
    ensures { IfOk result (λ text. text ≡ joined_words (line_words tables.now line.now)) }
{
    let mut text = Writer::new(alloc)?;
    text.first(word_of(keyword_of_line(line)).as_bytes())?;
    put_line_operands(alloc, tables, &mut text, line)?;
    Ok(text.into_bytes())
}

/// Puts the canonical words of a line, with a space between each two, after a text. Want of memory leaves it as it was.
pub fn put_line(
    alloc: Global,
    tables: &Tables,
    text: &mut Writer,
    line: &Line,
) -> Result<(), NoMemory>
    ensures ok { OnOk result (text.new ≡ text.old ++ joined_words (line_words tables.now line.now)) }
    ensures err { OnErr result (text.new ≡ text.old) }
{
    let words = line_text(alloc, tables, line)?;
    text.bytes(words.slice())
}
