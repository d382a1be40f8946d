//! The operands of lines: what stands in the form of a command, and which words each takes.

use crate::report::Report;
use dk_base::limits::{ADVANCE_MAX, BUDGET_MAX, DATA_MAX, DELAY_MAX, DESCRIPTORS_MAX, TIMERS_MAX};
use line_forms::enumerated::{cond_of, mode_of, op_of, param_of};
use line_forms::sets::{poll_of, with_attribute};
use line_text::names::is_name;
use line_text::number::{Number, bounded_number};
use line_text::parts::{part_before_last, parts_at};
use line_text::string::string_of;
use std::alloc::Global;

/// What is wanted at a place of a line.
#[derive(Clone, Copy)]
pub(crate) enum Operand {
    Var,
    Proc,
    Path,
    Thread,
    Process,
    Child,
    Parent,
    Name,
    Fd,
    /// `query`, or a descriptor.
    Door,
    /// A descriptor to be passed.
    Pass,
    /// The same, or the line's end.
    NextPass,
    /// The same, or `rsize`.
    PassOrRsize,
    Piece,
    Attr,
    Param,
    Value,
    Poll,
    Mode,
    Op,
    Cond,
    Cookie,
    User,
    Ev,
    Budget,
    Limit,
    Rsize,
    Bytes,
    Max,
    NGet,
    Id,
    First,
    Interval,
    Advance,
    Times,
    /// The word `of`.
    Of,
    /// The word `nowait`, or the line's end.
    NoWait,
    /// The word `limit`, or the line's end.
    LimitWord,
    /// What may follow a piece of DATA: `+`, and in a `return` `desc`, in a `call` also `rsize`.
    AfterData,
    AfterReturned,
    AfterCalled,
    /// The line's end.
    End,
}

/// The kinds of operands, by which rules speak of words in their place.
#[derive(Clone, Copy)]
pub(crate) enum Class {
    Name,
    Descriptor,
    Data,
    Number,
    /// A number, or `max`.
    Value,
    Condition,
    /// One of a few words.
    Word,
    /// A word that is always the same.
    Mark,
    /// What may follow a piece of DATA.
    AfterPiece,
    /// The line's end, or a word that is always the same.
    End,
}

/// A word that is no operand, and what is wanted after it, where the line has no other operand in any case.
struct Mark {
    word: &'static str,
    next: Operand,
}

const PLUS: Mark = Mark {
    word: "+",
    next: Operand::Piece,
};

const DESC: Mark = Mark {
    word: "desc",
    next: Operand::Pass,
};

const RSIZE: Mark = Mark {
    word: "rsize",
    next: Operand::Rsize,
};

const LIMIT: Mark = Mark {
    word: "limit",
    next: Operand::Limit,
};

const QUERY: Mark = Mark {
    word: "query",
    next: Operand::End,
};

const GREATEST: Mark = Mark {
    word: "max",
    next: Operand::End,
};

const OF: Mark = Mark {
    word: "of",
    next: Operand::End,
};

const NO_WAIT: Mark = Mark {
    word: "nowait",
    next: Operand::End,
};

impl Operand {
    /// As the forms name it.
    pub fn name(self) -> &'static str {
        match self {
            Operand::Var => "VAR",
            Operand::Proc => "PROC",
            Operand::Path => "PATH",
            Operand::Thread => "THREAD",
            Operand::Process => "PROCESS",
            Operand::Child => "CHILD",
            Operand::Parent => "PARENT",
            Operand::Name => "NAME",
            Operand::Fd | Operand::Door => "FD",
            Operand::Pass | Operand::NextPass | Operand::PassOrRsize => "PASS",
            Operand::Piece => "DATA",
            Operand::Attr => "ATTR",
            Operand::Param => "PARAM",
            Operand::Poll => "POLL",
            Operand::Mode => "MODE",
            Operand::Op => "OP",
            Operand::Cond => "COND",
            Operand::Cookie => "COOKIE",
            Operand::User => "USER",
            Operand::Ev => "EV",
            Operand::Max => "MAX",
            Operand::NGet => "NGET",
            Operand::Id => "ID",
            Operand::First => "FIRST",
            Operand::Interval => "INTERVAL",
            Operand::Of => "word 'of'",
            _ => "N",
        }
    }

    pub fn class(self) -> Class {
        match self {
            Operand::Var
            | Operand::Proc
            | Operand::Path
            | Operand::Thread
            | Operand::Process
            | Operand::Child
            | Operand::Parent
            | Operand::Name => Class::Name,
            Operand::Fd
            | Operand::Door
            | Operand::Pass
            | Operand::NextPass
            | Operand::PassOrRsize => Class::Descriptor,
            Operand::Piece => Class::Data,
            Operand::Value => Class::Value,
            Operand::Cond => Class::Condition,
            Operand::Attr | Operand::Param | Operand::Poll | Operand::Mode | Operand::Op => {
                Class::Word
            }
            Operand::Of => Class::Mark,
            Operand::AfterData | Operand::AfterReturned | Operand::AfterCalled => Class::AfterPiece,
            Operand::NoWait | Operand::LimitWord | Operand::End => Class::End,
            _ => Class::Number,
        }
    }

    /// Which words it is, where that is more than a range or a word of the form.
    pub fn meaning(self) -> &'static str {
        match self {
            Operand::Fd => "FD is a number from 0 to 255, $VAR, or $VAR.K with K from 0 to 15",
            Operand::Door => {
                "FD is a number from 0 to 255, $VAR, or $VAR.K with K from 0 to 15; or 'query' stands there"
            }
            Operand::Pass | Operand::NextPass | Operand::PassOrRsize => {
                "PASS is an FD, a number from 0 to 255, $VAR or $VAR.K, which may end with !"
            }
            Operand::Piece => {
                "DATA is strings in quotes, $VAR, and fill:N with N from 0 to 8192, with ' + ' between them"
            }
            Operand::Attr => {
                "ATTR is unref, private, local, revoked, unref-multi, is-unref, refuse-desc or no-cancel, each at most once"
            }
            Operand::Param => "PARAM is data-max, data-min or desc-max",
            Operand::Value => "N is a number from 0 to 18446744073709551615, or max",
            Operand::Poll => {
                "POLL is none, or some of in, out, err, hup in this order, joined by + without spaces"
            }
            Operand::Mode => "MODE is set, update or none",
            Operand::Op => "OP is upper, reverse, sum or digest",
            Operand::Cond => {
                "COND is ok, yes, unref, or an error by its name: E2BIG EAGAIN EBADF EBADFD EBUSY EINTR EINVAL EMFILE ENFILE ENOBUFS ENOENT ENOTSUP EPERM EPIPE ETIME"
            }
            Operand::AfterData => "after a piece of DATA stands ' + ' and another, or nothing",
            Operand::AfterReturned => {
                "after a piece of DATA stands ' + ' and another, or 'desc', or nothing"
            }
            Operand::AfterCalled => {
                "after a piece of DATA stands ' + ' and another, 'desc', 'rsize', or nothing"
            }
            _ => "a name is 1 to 16 bytes: a letter a to z, then letters a to z, digits or _",
        }
    }

    /// The least and the greatest of a number.
    pub fn range(self) -> (u64, u64) {
        match self {
            Operand::Ev => (0, 4_294_967_295),
            Operand::Budget => (1, BUDGET_MAX as u64),
            Operand::Limit => (0, DESCRIPTORS_MAX as u64),
            Operand::Bytes => (1, DATA_MAX as u64),
            Operand::Max | Operand::NGet => (0, 64),
            Operand::Id => (0, TIMERS_MAX as u64 - 1),
            Operand::First | Operand::Interval => (0, DELAY_MAX),
            Operand::Advance => (1, ADVANCE_MAX),
            Operand::Times => (1, 1_000_000),
            _ => (0, u64::MAX),
        }
    }

    /// The words that are no operands, and may stand in its place.
    fn marks(self) -> &'static [Mark] {
        match self {
            Operand::Door => &[QUERY],
            Operand::PassOrRsize => &[RSIZE],
            Operand::Value => &[GREATEST],
            Operand::Of => &[OF],
            Operand::NoWait => &[NO_WAIT],
            Operand::LimitWord => &[LIMIT],
            Operand::AfterData => &[PLUS],
            Operand::AfterReturned => &[PLUS, DESC],
            Operand::AfterCalled => &[PLUS, DESC, RSIZE],
            _ => &[],
        }
    }

    /// What is wanted after a word that is no operand, if it may stand where this one is wanted.
    pub fn after_mark(self, word: &[u8]) -> Option<Operand> {
        let mark = self
            .marks()
            .iter()
            .find(|mark| mark.word.as_bytes() == word)?;
        Some(mark.next)
    }

    /// What may follow it, where the line has no other operand in any case; `tail` is what may follow those.
    pub fn after(self, tail: Operand) -> Operand {
        match self {
            Operand::Rsize | Operand::Limit | Operand::End => Operand::End,
            Operand::Pass | Operand::NextPass | Operand::PassOrRsize => match tail {
                Operand::AfterCalled => Operand::PassOrRsize,
                _ => Operand::NextPass,
            },
            _ => tail,
        }
    }

    /// Whether a line cannot end where it is wanted after all that the line has in any case.
    pub fn is_needed(self) -> bool {
        matches!(
            self,
            Operand::Piece | Operand::Pass | Operand::Rsize | Operand::Limit
        )
    }
}

/// What a word is in place of a descriptor.
fn descriptor_of(word: &[u8]) -> Number {
    let Some(variable) = word.strip_prefix(b"$") else {
        return bounded_number(word, 0, 255);
    };
    let (name, place) = parts_at(b'.', variable).unwrap_or((variable, b"0"));
    if is_name(name) {
        bounded_number(place, 0, 15)
    } else {
        Number::NoNumber
    }
}

/// What a word is in place of a piece of data.
fn piece_of(alloc: Global, report: &mut Report, word: &[u8]) -> Number {
    if let Some(count) = word.strip_prefix(b"fill:") {
        return bounded_number(count, 0, 8192);
    }
    if let Some(variable) = word.strip_prefix(b"$") {
        return fitting(is_name(variable));
    }
    if !word.starts_with(b"\"") {
        return Number::NoNumber;
    }
    match string_of(alloc, word) {
        Ok(text) => fitting(text.is_some()),
        Err(_) => {
            report.lose();
            Number::NoNumber
        }
    }
}

/// A word that is no number: 0 where it fits.
fn fitting(fits: bool) -> Number {
    if fits {
        Number::Found(0)
    } else {
        Number::NoNumber
    }
}

/// What a word that is no mark is in place of an operand: one that fits, and is no number, is 0.
pub(crate) fn reading_of(
    alloc: Global,
    report: &mut Report,
    operand: Operand,
    word: &[u8],
) -> Number {
    match operand.class() {
        Class::Name => fitting(is_name(word)),
        Class::Descriptor => match operand {
            Operand::Fd | Operand::Door => descriptor_of(word),
            // without the mark that closes it when it was passed
            _ => descriptor_of(part_before_last(b'!', word).unwrap_or(word)),
        },
        Class::Data => piece_of(alloc, report, word),
        Class::Number | Class::Value => {
            let (low, high) = operand.range();
            bounded_number(word, low, high)
        }
        Class::Condition => fitting(cond_of(word).is_some()),
        Class::Word => fitting(match operand {
            Operand::Attr => with_attribute(0, word).is_some(),
            Operand::Param => param_of(word).is_some(),
            Operand::Poll => poll_of(word).is_some(),
            Operand::Mode => mode_of(word).is_some(),
            _ => op_of(word).is_some(),
        }),
        Class::Mark | Class::AfterPiece | Class::End => Number::NoNumber,
    }
}
