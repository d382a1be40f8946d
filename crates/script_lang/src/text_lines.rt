//! What one line of a script says.
ghost use Rattle.std.specs.Prelude.{◌≡◌, ◌≤◌, length, Ok, Err, MatchResult, MatchOption, IfOk};
ghost use Rattle.std.specs.List.{list_all};
ghost use Rattle.line_text.specs.Words.{is_printable as is_printable_byte};
ghost use Rattle.line_reader.specs.Words.{Fails, ReadsOn};
ghost use Rattle.script_lang.specs.Dispatch.{item_reader};
ghost use Rattle.script_lang.specs.Items.{item_in_body as item_in_body_read, item_in_context};
ghost use Rattle.script_lang.specs.Parsing.{is_printable_line as is_line_printable, is_skipped as is_line_skipped, line_spelling};

use crate::context::Context;
use crate::item::{ScriptLine, ScriptLineRead, ScriptPlace};
use crate::items::{item_at_start, item_in_members, item_in_processes, item_in_schedule};
use line_forms::keyword_words::keyword_of;
use line_forms::reason::Reason;
use line_forms::tables::Tables;
use line_reader::fault::Fault;
use line_reader::line_rest::LineRest;
use line_text::string::is_printable;
use line_text::words::next_word;
use std::alloc::Global;

/// Whether each byte may stand in a line of a script.
pub fn is_printable_line(line: &[u8]) -> bool
    ensures { result ≡ is_line_printable line.now }
{
    line.iter().all(|byte| is_printable(*byte))
}

/// Whether a line has only spaces, or its first byte other than a space is `#`.
fn is_skipped(line: &[u8]) -> bool
    ensures { result ≡ is_line_skipped line.now }
{
    for byte in line {
        if *byte != b' ' {
            return *byte == b'#';
        }
    }
    true
}

/// Reads the lines of a text of this version, with the names that it declares.
#[derive(Drop)]
pub struct LineReader {
    pub alloc: Global,
    pub version: u32,
    pub tables: Tables,
}

impl LineReader {
    fn item_in_body<'a>(
        &self,
        process: u32,
        word: &[u8],
        rest: LineRest<'a>,
    ) -> Result<(ScriptLine, LineRest<'a>), Fault>
        ensures { ReadsOn (item_reader (item_in_body_read self.now.version self.now.tables process word.now)) rest.entry result }
    {
        let Some(keyword) = keyword_of(self.version, word) else {
            return Err(Fault::Bad(Reason::Word));
        };
        let (line, rest) = rest.line(self.alloc, &self.tables, process, keyword)?;
        Ok((ScriptLine::Do { line }, rest))
    }

    /// The item that begins with this word, after these lines.
    fn item<'a>(
        &self,
        context: &Context,
        word: &[u8],
        rest: LineRest<'a>,
    ) -> Result<(ScriptLine, LineRest<'a>), Fault>
        ensures { ReadsOn (item_reader (item_in_context self.now.version self.now.tables context.now word.now)) rest.entry result }
    {
        match context.place() {
            ScriptPlace::Start => item_at_start(
                self.alloc,
                self.version,
                &self.tables,
                context.process(),
                word,
                rest,
            ),
            ScriptPlace::Processes => item_in_processes(
                self.alloc,
                self.version,
                &self.tables,
                context.process(),
                word,
                rest,
            ),
            ScriptPlace::Members => item_in_members(
                self.alloc,
                self.version,
                &self.tables,
                context.process(),
                word,
                rest,
            ),
            ScriptPlace::Body => self.item_in_body(context.process(), word, rest),
            ScriptPlace::Schedule => item_in_schedule(self.alloc, &self.tables, word, rest),
        }
    }

    /// The item that a line is by its spelling, after these lines; a skipped line is none.
    #[tactic(auto, unfolding(crate::specs::Parsing::line_spelling))]
    pub fn spelling(&self, context: &Context, line: &[u8]) -> Result<Option<ScriptLineRead>, Fault>
        ensures { MatchResult result (λ found. line_spelling self.now.version self.now.tables context.now line.now ≡ Ok found) (λ fault. Fails (line_spelling self.now.version self.now.tables context.now line.now) fault) }
    {
        if !is_printable_line(line) {
            return Err(Fault::Bad(Reason::Byte));
        }
        if is_skipped(line) {
            return Ok(None);
        }
        let Some((word, rest)) = next_word(line) else {
            return Ok(None);
        };
        let (item, rest) = self.item(context, word, LineRest::new(rest))?;
        let known = rest.is_known();
        Ok(Some(ScriptLineRead { item, known }))
    }
}
