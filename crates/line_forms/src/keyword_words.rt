//! How a keyword is written, and since which version of the language it is one.
ghost use Rattle.std.specs.Prelude.{◌≡◌};
ghost use Rattle.line_forms.specs.Keywords.{keyword_version, keyword_word, keyword_create_to_info as create_to_info_spelled, keyword_getparam_to_detach as getparam_to_detach_spelled, keyword_open_to_get as open_to_get_spelled, keyword_getn_to_end as getn_to_end_spelled, keyword_since_2 as since_2_spelled, keyword_of as keyword_spelled};

use crate::keyword::Keyword;

/// The word that a keyword is.
pub fn word_of(keyword: Keyword) -> &'static str
    ensures { result.now ≡ keyword_word keyword }
{
    match keyword {
        Keyword::Create => "create",
        Keyword::Call => "call",
        Keyword::Return => "return",
        Keyword::Serve => "serve",
        Keyword::Revoke => "revoke",
        Keyword::Bind => "bind",
        Keyword::Unbind => "unbind",
        Keyword::Info => "info",
        Keyword::GetParam => "getparam",
        Keyword::SetParam => "setparam",
        Keyword::Cred => "cred",
        Keyword::TestCancel => "testcancel",
        Keyword::Exit => "exit",
        Keyword::Close => "close",
        Keyword::Dup => "dup",
        Keyword::Attach => "attach",
        Keyword::Detach => "detach",
        Keyword::Open => "open",
        Keyword::Await => "await",
        Keyword::Pipe => "pipe",
        Keyword::Write => "write",
        Keyword::Read => "read",
        Keyword::PortCreate => "pcreate",
        Keyword::Associate => "associate",
        Keyword::Dissociate => "dissociate",
        Keyword::Get => "get",
        Keyword::GetN => "getn",
        Keyword::Send => "send",
        Keyword::SendN => "sendn",
        Keyword::Alert => "alert",
        Keyword::TimerCreate => "tcreate",
        Keyword::TimerSet => "tset",
        Keyword::TimerDelete => "tdelete",
        Keyword::Advance => "advance",
        Keyword::Interrupt => "interrupt",
        Keyword::Kill => "kill",
        Keyword::Fork => "fork",
        Keyword::Work => "work",
        Keyword::Ncd => "ncd",
        Keyword::Repeat => "repeat",
        Keyword::If => "if",
        Keyword::End => "end",
    }
}

/// The least version in whose texts a keyword is one.
fn version_of(keyword: Keyword) -> u32
    ensures { result ≡ keyword_version keyword }
{
    match keyword {
        Keyword::Fork => 2,
        Keyword::TimerCreate | Keyword::TimerSet | Keyword::TimerDelete | Keyword::Advance => 3,
        Keyword::Ncd => 4,
        _ => 1,
    }
}

const DOOR_KEYWORDS: [Keyword; 8] = [
    Keyword::Create,
    Keyword::Call,
    Keyword::Return,
    Keyword::Serve,
    Keyword::Revoke,
    Keyword::Bind,
    Keyword::Unbind,
    Keyword::Info,
];

#[tactic(auto, unfolding(crate::specs::Keywords::keyword_create_to_info))]
fn keyword_create_to_info(word: &[u8]) -> Option<Keyword>
    ensures { result ≡ create_to_info_spelled word.now }
{
    DOOR_KEYWORDS
        .iter()
        .copied()
        .find(|keyword| word == word_of(*keyword).as_bytes())
}

const DESCRIPTOR_KEYWORDS: [Keyword; 9] = [
    Keyword::GetParam,
    Keyword::SetParam,
    Keyword::Cred,
    Keyword::TestCancel,
    Keyword::Exit,
    Keyword::Close,
    Keyword::Dup,
    Keyword::Attach,
    Keyword::Detach,
];

#[tactic(auto, unfolding(crate::specs::Keywords::keyword_getparam_to_detach))]
fn keyword_getparam_to_detach(word: &[u8]) -> Option<Keyword>
    ensures { result ≡ getparam_to_detach_spelled word.now }
{
    DESCRIPTOR_KEYWORDS
        .iter()
        .copied()
        .find(|keyword| word == word_of(*keyword).as_bytes())
}

const PORT_KEYWORDS: [Keyword; 9] = [
    Keyword::Open,
    Keyword::Await,
    Keyword::Pipe,
    Keyword::Write,
    Keyword::Read,
    Keyword::PortCreate,
    Keyword::Associate,
    Keyword::Dissociate,
    Keyword::Get,
];

#[tactic(auto, unfolding(crate::specs::Keywords::keyword_open_to_get))]
fn keyword_open_to_get(word: &[u8]) -> Option<Keyword>
    ensures { result ≡ open_to_get_spelled word.now }
{
    PORT_KEYWORDS
        .iter()
        .copied()
        .find(|keyword| word == word_of(*keyword).as_bytes())
}

const OTHER_KEYWORDS: [Keyword; 10] = [
    Keyword::GetN,
    Keyword::Send,
    Keyword::SendN,
    Keyword::Alert,
    Keyword::Interrupt,
    Keyword::Kill,
    Keyword::Work,
    Keyword::Repeat,
    Keyword::If,
    Keyword::End,
];

#[tactic(auto, unfolding(crate::specs::Keywords::keyword_getn_to_end))]
fn keyword_getn_to_end(word: &[u8]) -> Option<Keyword>
    ensures { result ≡ getn_to_end_spelled word.now }
{
    OTHER_KEYWORDS
        .iter()
        .copied()
        .find(|keyword| word == word_of(*keyword).as_bytes())
}

const KEYWORDS_SINCE_2: [Keyword; 6] = [
    Keyword::Fork,
    Keyword::TimerCreate,
    Keyword::TimerSet,
    Keyword::TimerDelete,
    Keyword::Advance,
    Keyword::Ncd,
];

/// The keyword that a word is, of those that later versions add.
#[tactic(auto, unfolding(crate::specs::Keywords::keyword_since_2))]
fn keyword_since_2(version: u32, word: &[u8]) -> Option<Keyword>
    ensures { result ≡ since_2_spelled version word.now }
{
    KEYWORDS_SINCE_2.iter().copied().find(|keyword| {
        word == word_of(*keyword).as_bytes() && version_of(*keyword) <= version
    })
}

/// The keyword that a word is, in a text of this version.
pub fn keyword_of(version: u32, word: &[u8]) -> Option<Keyword>
    ensures { result ≡ keyword_spelled version word.now }
{
    keyword_create_to_info(word)
        .or(keyword_getparam_to_detach(word))
        .or(keyword_open_to_get(word))
        .or(keyword_getn_to_end(word))
        .or(keyword_since_2(version, word))
}
