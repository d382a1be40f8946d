//! A script from its text.
ghost use Rattle.std.specs.Prelude.{◌≡◌, ◌<◌, length, MatchResult, Ok};
ghost use Rattle.script_lang.specs.Parsing.{parse_result, version_of as version_of_line};
ghost use Rattle.script_lang.specs.Decided.{IsParsed};
ghost use Rattle.script_lang.specs.TextReaderContracts.{Refuses};

use crate::bad::ParseFault;
use crate::names::tables_of_text;
use crate::script::Script;
use crate::text_lines::{LineReader, is_printable_line};
use crate::text_reader::TextReader;
use line_forms::reason::Reason;
use line_reader::fault::Fault;
use line_text::lines::next_line;
use std::alloc::Global;

/// The version that a text's first line names.
fn version_of(line: &[u8]) -> Option<u32>
    ensures { result ≡ version_of_line line.now }
{
    if line == b"doors script 1".as_slice() {
        Some(1)
    } else if line == b"doors script 2".as_slice() {
        Some(2)
    } else if line == b"doors script 3".as_slice() {
        Some(3)
    } else if line == b"doors script 4".as_slice() {
        Some(4)
    } else {
        None
    }
}

#[tactic(auto, unfolding(crate::specs::Parsing::parse_result))]
fn read(alloc: Global, text: &[u8]) -> Result<Script, ParseFault>
    requires { length text.now < 4000000000 }
    ensures { MatchResult result (λ script. parse_result text.now ≡ Ok script) (λ fault. Refuses (parse_result text.now) fault) }
{
    let Some((first, rest)) = next_line(text) else {
        return Err(ParseFault::at(1, Fault::Bad(Reason::Header)));
    };
    if !is_printable_line(first) {
        return Err(ParseFault::at(1, Fault::Bad(Reason::Byte)));
    }
    let Some(version) = version_of(first) else {
        return Err(ParseFault::at(1, Fault::Bad(Reason::Header)));
    };
    let tables = tables_of_text(alloc, rest)?;
    let mut reader = TextReader::new(LineReader {
        alloc,
        version,
        tables,
    });
    reader.read_lines(rest)?;
    reader.finish()
}

/// The script that a text spells. A text that spells none gives its first bad line and the reason.
#[tactic(auto, using(crate::proofs::TextDecided::parsed))]
pub fn parse(alloc: Global, text: &[u8]) -> Result<Script, ParseFault>
    requires { length text.now < 4000000000 }
    ensures spelled { IsParsed text.now result }
    ensures read { MatchResult result (λ script. parse_result text.now ≡ Ok script) (λ fault. Refuses (parse_result text.now) fault) }
{
    read(alloc, text)
}
