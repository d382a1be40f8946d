//! What words say: the first of a line, and the fourth of an event.

ghost use Rattle.std.specs.Prelude.{◌≡◌};
ghost use Rattle.history_text.specs.Declarations.{ending_of as ending_spelled, is_spare_of as is_spare_spelled};
ghost use Rattle.line_forms.specs.Words.{value_of_word};
ghost use Rattle.history_text.specs.Kinds.{worded_kinds, kind_of as kind_spelled, kind_word as kind_spelling, may_stand as may_stand_at, stage_after as stage_behind};
ghost use Rattle.history_text.specs.LineWords.{ending_word as ending_spelling};
ghost use Rattle.history_text.specs.Requests.{what_of as what_spelled, is_wait_end as is_end_of_wait};
ghost use Rattle.spec_requests.specs.Words.{what_word as what_spelling};

use crate::line::{Ending, Line};
use crate::place::{Kind, Stage};
use dk_base::event::What;
use line_text::number::{Number, bounded_number};

/// The word of each kind but an event.
fn kind_word(kind: Kind) -> &'static str
    ensures { result.now ≡ kind_spelling kind }
{
    match kind {
        Kind::Process => "process",
        Kind::Child => "child",
        Kind::Name => "name",
        Kind::Procedure => "proc",
        Kind::Path => "path",
        Kind::End => "end",
        Kind::Event => "",
    }
}

fn worded_kind(word: &[u8]) -> Option<Kind>
    ensures { result ≡ value_of_word kind_spelling worded_kinds word.now }
{
    [
        Kind::Process,
        Kind::Child,
        Kind::Name,
        Kind::Procedure,
        Kind::Path,
        Kind::End,
    ]
    .iter()
    .copied()
    .find(|kind| word == kind_word(*kind).as_bytes())
}

/// What the first word of a line says that it is.
pub fn kind_of(word: &[u8]) -> Option<Kind>
    ensures { result ≡ kind_spelled word.now }
{
    match bounded_number(word, 0, u64::MAX) {
        Number::NoNumber => worded_kind(word),
        _ => Some(Kind::Event),
    }
}

/// Whether a line of this kind may come.
pub fn may_stand(stage: Stage, kind: Kind) -> bool
    ensures { result ≡ may_stand_at stage kind }
{
    match stage {
        Stage::Head => true,
        Stage::Body => kind != Kind::Process && kind != Kind::Child,
        Stage::Ended => false,
    }
}

/// Which lines may come after this one.
pub fn stage_after(stage: Stage, line: &Line) -> Stage
    ensures { result ≡ stage_behind stage line.now }
{
    let _ = stage;
    match line {
        Line::Process { .. } | Line::Child { .. } => Stage::Head,
        Line::End { .. } => Stage::Ended,
        _ => Stage::Body,
    }
}

fn ending_word(ending: Ending) -> &'static str
    ensures { result.now ≡ ending_spelling ending }
{
    match ending {
        Ending::Complete => "complete",
        Ending::Stalled => "stalled",
        Ending::Open => "open",
    }
}

/// How a word says that a history stands at its end.
pub fn ending_of(word: &[u8]) -> Option<Ending>
    ensures { result ≡ ending_spelled word.now }
{
    [Ending::Complete, Ending::Stalled, Ending::Open]
        .iter()
        .copied()
        .find(|ending| word == ending_word(*ending).as_bytes())
}

/// Whether a word says that a member is a spare, or that it is none.
pub fn is_spare_of(word: &[u8]) -> Option<bool>
    ensures { result ≡ is_spare_spelled word.now }
{
    if word == b"thread".as_slice() {
        Some(false)
    } else if word == b"spare".as_slice() {
        Some(true)
    } else {
        None
    }
}

/// The word of what is asked for, or of the end of a wait.
fn what_word(what: What) -> &'static str
    ensures { result.now ≡ what_spelling what }
{
    match what {
        What::Create => "create",
        What::Call => "call",
        What::Return => "return",
        What::Revoke => "revoke",
        What::Bind => "bind",
        What::Unbind => "unbind",
        What::Info => "info",
        What::GetParam => "getparam",
        What::SetParam => "setparam",
        What::Cred => "cred",
        What::TestCancel => "testcancel",
        What::Close => "close",
        What::Dup => "dup",
        What::Attach => "attach",
        What::Detach => "detach",
        What::Open => "open",
        What::Await => "await",
        What::Pipe => "pipe",
        What::Write => "write",
        What::Read => "read",
        What::PortCreate => "pcreate",
        What::Associate => "associate",
        What::Dissociate => "dissociate",
        What::Get => "get",
        What::GetN => "getn",
        What::Send => "send",
        What::SendN => "sendn",
        What::Alert => "alert",
        What::TimerCreate => "tcreate",
        What::TimerSet => "tset",
        What::TimerDelete => "tdelete",
        What::Advance => "advance",
        What::Interrupt => "interrupt",
        What::Kill => "kill",
        What::Exit => "exit",
        What::Fork => "fork",
        What::Work => "work",
        What::Ncd => "ncd",
        What::Accept => "accept",
        What::Collect => "collect",
        What::Got => "got",
        What::Found => "found",
        What::Done => "done",
        What::Woken => "woken",
    }
}

static WHATS: [What; 41] = [
    What::Create,
    What::Call,
    What::Return,
    What::Revoke,
    What::Bind,
    What::Unbind,
    What::Info,
    What::GetParam,
    What::SetParam,
    What::Cred,
    What::TestCancel,
    What::Close,
    What::Dup,
    What::Attach,
    What::Detach,
    What::Open,
    What::Await,
    What::Pipe,
    What::Write,
    What::Read,
    What::PortCreate,
    What::Associate,
    What::Dissociate,
    What::Get,
    What::GetN,
    What::Send,
    What::SendN,
    What::Alert,
    What::TimerCreate,
    What::TimerSet,
    What::TimerDelete,
    What::Advance,
    What::Interrupt,
    What::Kill,
    What::Exit,
    What::Fork,
    What::Accept,
    What::Collect,
    What::Got,
    What::Found,
    What::Woken,
];

/// What the fourth word of an event asks for: a request, or the end of a wait.
pub fn what_of(word: &[u8]) -> Option<What>
    ensures { result ≡ what_spelled word.now }
{
    WHATS
        .iter()
        .copied()
        .find(|what| word == what_word(*what).as_bytes())
}

/// Whether it is the end of a wait.
pub fn is_wait_end(what: What) -> bool
    ensures { result ≡ is_end_of_wait what }
{
    matches!(
        what,
        What::Accept | What::Collect | What::Got | What::Found | What::Woken
    )
}
