//! The lines of a script, read one after the other.
ghost use Rattle.std.specs.Prelude.{◌≡◌, ℕ, ◌∷◌, ◌+◌, ◌<◌, ◌^◌, List, [], length, OnOk, IfOk, IfErr, Ok, Err, None, MatchResult};
ghost use Rattle.script_lang.specs.Context.{first_context};
ghost use Rattle.script_lang.specs.Drafts.{empty_draft};
ghost use Rattle.script_lang.specs.IsScript.{IsScript};
ghost use Rattle.script_lang.specs.TextReaderContracts.{IsInStep, remaining_result, Refuses, AddsScriptLine, ReadsLine, ReadsOne};
ghost use Rattle.line_text.specs.Words.{lines_of};

use crate::bad::ParseFault;
use crate::context::Context;
use crate::draft::Draft;
use crate::item::ScriptLineRead;
use crate::script::Script;
use crate::text_lines::LineReader;
use dk_base::number::Pid;
use line_forms::reason::Reason;
use line_reader::fault::Fault;
use line_text::lines::next_line;

/// What the lines so far are, and what the next ones need.
#[derive(Drop)]
pub struct TextReader {
    pub lines: LineReader,
    pub context: Context,
    pub draft: Draft,
    /// The number of the next line.
    pub number: u32,
    /// The number of the first line that names something that is not declared.
    pub unknown: Option<u32>,
}

impl TextReader {
    /// After the first line.
    pub fn new(lines: LineReader) -> Self
        ensures { result ≡ record { lines = lines; context = first_context; draft = empty_draft; number = 2; unknown = None } }
    {
        let alloc = lines.alloc;
        TextReader {
            lines,
            context: Context::new(alloc),
            draft: Draft::new(alloc),
            number: 2,
            unknown: None,
        }
    }

    /// Adds an item that this line is.
    fn add(&mut self, found: ScriptLineRead) -> Result<(), Fault>
        requires sound { IsInStep self.old }
        ensures names { OnOk result (self.new.lines.tables ≡ self.old.lines.tables) }
        ensures adds { AddsScriptLine self.old found result self.new }
    {
        let alloc = self.lines.alloc;
        let process = Pid(self.context.process());
        let depth = self.context.depth();
        self.context.add(alloc, &found.item)?;
        self.draft.add(alloc, process, depth, found.item)?;
        if self.unknown.is_none() && !found.known {
            self.unknown = Some(self.number);
        }
        Ok(())
    }

    /// Reads the next line, which is not counted yet.
    #[tactic(auto, using(crate::proofs::ReaderSteps::added_reads, crate::proofs::ReaderSteps::added_sound, crate::proofs::ReaderSteps::skipped, crate::proofs::ReaderSteps::misspelled))]
    fn read(&mut self, line: &[u8]) -> Result<(), Fault>
        requires sound { IsInStep self.old }
        ensures sound { OnOk result (IsInStep self.new) }
        ensures number { OnOk result (self.new.number ≡ self.old.number) }
        ensures names { OnOk result (self.new.lines.tables ≡ self.old.lines.tables) }
        ensures read { ReadsLine self.old line.now result self.new }
    {
        match self.lines.spelling(&self.context, line)? {
            Some(found) => self.add(found),
            None => Ok(()),
        }
    }

    /// Reads the next line.
    fn read_line(&mut self, line: &[u8]) -> Result<(), ParseFault>
        requires sound { IsInStep self.old }
        requires number { self.old.number + 1 < 2 ^ 32 }
        ensures sound { OnOk result (IsInStep self.new) }
        ensures number { OnOk result (self.new.number ≡ self.old.number + 1) }
        ensures names { OnOk result (self.new.lines.tables ≡ self.old.lines.tables) }
        ensures read { ReadsOne self.old line.now result self.new }
    {
        let number = self.number;
        match self.read(line) {
            Ok(()) => {
                self.number = number + 1;
                Ok(())
            }
            Err(fault) => Err(ParseFault::at(number, fault)),
        }
    }

    /// Reads the remaining lines.
    pub fn read_lines(&mut self, text: &[u8]) -> Result<(), ParseFault>
        requires sound { IsInStep self.old }
        requires number { self.old.number + length text.now < 2 ^ 32 }
        ensures sound { OnOk result (IsInStep self.new) }
        ensures names { OnOk result (self.new.lines.tables ≡ self.old.lines.tables) }
        ensures read { MatchResult result (λ _. remaining_result self.old (lines_of text.now) ≡ remaining_result self.new []) (λ fault. Refuses (remaining_result self.old (lines_of text.now)) fault) }
    {
        let mut rest = text;
        while let Some((line, later)) = next_line(rest) {
            self.read_line(line)?;
            rest = later;
        }
        Ok(())
    }

    /// The script of a text that ends here.
    #[tactic(auto, using(crate::proofs::ReaderEnd::closed_end, crate::proofs::ReaderEnd::unknown_end, crate::proofs::ReaderEnd::open_end))]
    pub fn finish(self) -> Result<Script, ParseFault>
        requires sound { IsInStep self }
        requires script { IfOk (remaining_result self []) (λ script. IsScript self.lines.tables script) }
        ensures { MatchResult result (λ script. remaining_result self [] ≡ Ok script) (λ fault. Refuses (remaining_result self []) fault) }
    {
        if !self.context.is_closed() {
            return Err(ParseFault::at(self.number, Fault::Bad(Reason::Open)));
        }
        if let Some(line) = self.unknown {
            return Err(ParseFault::at(line, Fault::Bad(Reason::Unknown)));
        }
        let TextReader { lines, draft, .. } = self;
        let LineReader {
            version,
            tables,
            ..
        } = lines;
        Ok(draft.into_script(version, tables))
    }
}
