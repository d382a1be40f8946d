//! The word by which a line shows what an event is.

ghost use Rattle.std.specs.Prelude.{◌≡◌, ◌≤◌, ◌++◌};
ghost use Rattle.spec_requests.specs.Words.{what_word};
ghost use Rattle.trace_text.specs.Taken.{TakesAtMost};

use super::append::push_word;
use dk_base::event::What;
use dk_base::list::Room;

fn word_of(what: What) -> &'static str
    ensures { result.now ≡ what_word what }
{
    match what {
        What::Create => "create",
        What::Call => "call",
        What::Return => "return",
        What::Revoke => "revoke",
        What::Bind => "bind",
        What::Unbind => "unbind",
        What::Info => "info",
        What::GetParam => "getparam",
        What::SetParam => "setparam",
        What::Cred => "cred",
        What::TestCancel => "testcancel",
        What::Close => "close",
        What::Dup => "dup",
        What::Attach => "attach",
        What::Detach => "detach",
        What::Open => "open",
        What::Await => "await",
        What::Pipe => "pipe",
        What::Write => "write",
        What::Read => "read",
        What::PortCreate => "pcreate",
        What::Associate => "associate",
        What::Dissociate => "dissociate",
        What::Get => "get",
        What::GetN => "getn",
        What::Send => "send",
        What::SendN => "sendn",
        What::Alert => "alert",
        What::TimerCreate => "tcreate",
        What::TimerSet => "tset",
        What::TimerDelete => "tdelete",
        What::Advance => "advance",
        What::Interrupt => "interrupt",
        What::Kill => "kill",
        What::Exit => "exit",
        What::Fork => "fork",
        What::Work => "work",
        What::Ncd => "ncd",
        What::Accept => "accept",
        What::Collect => "collect",
        What::Got => "got",
        What::Found => "found",
        What::Done => "done",
        What::Woken => "woken",
    }
}

#[tactic(auto, using(crate::proofs::Short::what_short))]
pub fn push_what(text: &mut Room<u8>, what: What)
    requires { 10 ≤ text.old.spare }
    ensures items { text.new.items ≡ text.old.items ++ what_word what }
    ensures room { TakesAtMost text.old text.new 10 }
{
    push_word(text, word_of(what));
}
