//! The script of a text that was read.
ghost use Rattle.std.specs.Prelude.{◌≡◌, ◌≤◌, length, IfOk};
ghost use Rattle.script_lang.specs.Words.{bad_line, parse_result};
ghost use Rattle.doors_top.specs.Outcomes.{script_of_input};
ghost use Rattle.dk_base.specs.Input.{IsWithinLimit};
ghost use Rattle.doors_top.specs.declared.script_in.TheConstants.{SCRIPT_LIMIT};
ghost use Rattle.doors_top.specs.Top.{IsDecidedText};

use dk_base::error::NoMemory;
use dk_base::reading::ReadText;
use line_forms::reason::Reason;
use script_lang::bad::{Bad, ParseFault};
use script_lang::laws;
use script_lang::parse::parse;
use script_lang::script::Script;
use std::alloc::Global;

/// The most bytes of a script. Definitions cite this constant too.
pub const SCRIPT_LIMIT: usize = 1_048_576;

/// The most bytes of an input of `check`. By a count by hand the longest script, the longest trace of a run and the lines after it
/// have room in them.
/// Definitions cite this constant too.
pub const CHECK_LIMIT: usize = 403_701_760;

/// The script that a text within the limit spells, or what is bad of it: its first bad line.
pub fn script_of_text(alloc: Global, text: &[u8]) -> Result<Result<Script, Bad>, NoMemory>
    requires { length text.now ≤ SCRIPT_LIMIT }
    ensures script { IfOk result (λ script. script ≡ parse_result text.now) }
{
    match parse(alloc, text) {
        Ok(script) => Ok(Ok(script)),
        Err(ParseFault::Bad(bad)) => Ok(Err(bad)),
        Err(ParseFault::Memory) => Err(NoMemory),
    }
}

/// What is bad where there are more bytes than a limit.
pub fn too_long() -> Bad
    ensures { result ≡ bad_line 0 Reason.Size }
{
    Bad {
        line: 0,
        reason: Reason::Size,
    }
}

/// The script that was read, or what is bad: its first bad line, or line 0 where more bytes were read than a script may have.
pub fn script_in(alloc: Global, read: &ReadText) -> Result<Result<Script, Bad>, NoMemory>
    requires { IsWithinLimit SCRIPT_LIMIT read.now }
    ensures script { IfOk result (λ script. script ≡ script_of_input read.now) }
    ensures spelled { IsDecidedText read.now }
{
    laws::text_is_decided();
    match read {
        ReadText::Whole(bytes) => script_of_text(alloc, bytes.slice()),
        ReadText::TooLong => Ok(Err(too_long())),
    }
}
