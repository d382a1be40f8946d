//! A request as a line's further words, each with a space before it. It is written in room that was taken before.

ghost use Rattle.std.specs.Prelude.{◌≡◌, ◌≤◌, ◌+◌, ◌*◌, [], ◌∷◌, ◌++◌, codes, decimal, length, map};
ghost use Rattle.line_text.specs.Words.{quoted_text, spaced_words};
ghost use Rattle.line_forms.specs.Words.{attribute_words, mode_word as mode_spelling, param_word as param_spelling, poll_word as poll_spelling, value_word, wait_words};
ghost use Rattle.trace_text.specs.Taken.{TakesAtMost};
ghost use Rattle.history_text.specs.Lookups.{path_word, procedure_word};
ghost use Rattle.history_text.specs.LineWords.{desc_words, fd_word, request_words};
ghost use Rattle.history_text.specs.RequestRoom.{request_room};
ghost use Rattle.history_text.specs.ShortNames.{AreShort};

use crate::names::Names;
use crate::write_names::{name_of_path, name_of_procedure, name_of_process, name_of_thread};
use crate::write_operands::{push_attribute_words, push_passes, push_ports, push_wait};
use dk_base::list::Room;
use dk_base::number::{Fd, PathId};
use dk_base::object::Pass;
use dk_base::request::{AlertMode, Param, Request};
use dk_base::set::{Attrs, PollSet};
use line_forms::enumerated::{mode_word, param_word};
use trace_text::append::{push_spaced, push_spaced_number, push_value, push_word};
use trace_text::data_text::push_quoted;
use trace_text::sets::push_poll;

/// A string after a space.
fn push_spaced_string(text: &mut Room<u8>, bytes: &[u8])
    requires { 4 * length bytes.now + 3 ≤ text.old.spare }
    ensures items { text.new.items ≡ text.old.items ++ 32 ∷ quoted_text bytes.now }
    ensures room { TakesAtMost text.old text.new (4 * length bytes.now + 3) }
{
    text.push(b' ');
    push_quoted(text, bytes);
}

/// A request of which a descriptor is the only operand; `word` has a space before it.
fn push_of_fd(text: &mut Room<u8>, word: &str, fd: Fd)
    requires { length word.now + 21 ≤ text.old.spare }
    ensures items { text.new.items ≡ text.old.items ++ word.now ++ spaced_words (fd_word fd ∷ []) }
    ensures room { TakesAtMost text.old text.new (length word.now + 21) }
{
    push_word(text, word);
    push_spaced_number(text, u64::from(fd.0));
}

fn push_create(text: &mut Room<u8>, names: &Names, entry: u32, cookie: u64, attributes: Attrs)
    requires names { AreShort names.now }
    requires room { 160 ≤ text.old.spare }
    ensures items { text.new.items ≡ text.old.items ++ spaced_words (codes "create" ∷ procedure_word names.now entry ∷ decimal cookie ∷ attribute_words attributes) }
    ensures room { TakesAtMost text.old text.new 160 }
{
    push_word(text, " create");
    push_spaced(text, name_of_procedure(names, entry));
    push_spaced_number(text, cookie);
    push_attribute_words(text, attributes);
}

fn push_call(text: &mut Room<u8>, door: Fd, bytes: &[u8], passes: &[Pass], rsize: u64)
    requires { 160 + 4 * length bytes.now + 22 * length passes.now ≤ text.old.spare }
    ensures items { text.new.items ≡ text.old.items ++ spaced_words (codes "call" ∷ fd_word door ∷ quoted_text bytes.now ∷ desc_words passes.now ++ codes "rsize" ∷ decimal rsize ∷ []) }
    ensures room { TakesAtMost text.old text.new (160 + 4 * length bytes.now + 22 * length passes.now) }
{
    push_of_fd(text, " call", door);
    push_spaced_string(text, bytes);
    push_passes(text, passes);
    push_word(text, " rsize");
    push_spaced_number(text, rsize);
}

fn push_return(text: &mut Room<u8>, bytes: &[u8], passes: &[Pass])
    requires { 160 + 4 * length bytes.now + 22 * length passes.now ≤ text.old.spare }
    ensures items { text.new.items ≡ text.old.items ++ spaced_words (codes "return" ∷ quoted_text bytes.now ∷ desc_words passes.now) }
    ensures room { TakesAtMost text.old text.new (160 + 4 * length bytes.now + 22 * length passes.now) }
{
    push_word(text, " return");
    push_spaced_string(text, bytes);
    push_passes(text, passes);
}

/// A request of which two descriptors are the operands; `word` has a space before it.
fn push_of_two_fds(text: &mut Room<u8>, word: &str, first: Fd, second: Fd)
    requires { length word.now + 42 ≤ text.old.spare }
    ensures items { text.new.items ≡ text.old.items ++ word.now ++ spaced_words (fd_word first ∷ fd_word second ∷ []) }
    ensures room { TakesAtMost text.old text.new (length word.now + 42) }
{
    push_of_fd(text, word, first);
    push_spaced_number(text, u64::from(second.0));
}

#[tactic(auto, using(crate::proofs::Spaced::param_short))]
fn push_param(text: &mut Room<u8>, word: &str, fd: Fd, param: Param)
    requires { length word.now + 30 ≤ text.old.spare }
    ensures items { text.new.items ≡ text.old.items ++ word.now ++ spaced_words (fd_word fd ∷ param_spelling param ∷ []) }
    ensures room { TakesAtMost text.old text.new (length word.now + 30) }
{
    push_of_fd(text, word, fd);
    push_spaced(text, param_word(param).as_bytes());
}

fn push_setparam(text: &mut Room<u8>, fd: Fd, param: Param, value: u64)
    requires { 160 ≤ text.old.spare }
    ensures items { text.new.items ≡ text.old.items ++ spaced_words (codes "setparam" ∷ fd_word fd ∷ param_spelling param ∷ value_word value ∷ []) }
    ensures room { TakesAtMost text.old text.new 160 }
{
    push_param(text, " setparam", fd, param);
    push_word(text, " ");
    push_value(text, value);
}

fn push_attach(text: &mut Room<u8>, names: &Names, fd: Fd, path: PathId)
    requires names { AreShort names.now }
    requires room { 160 ≤ text.old.spare }
    ensures items { text.new.items ≡ text.old.items ++ spaced_words (codes "attach" ∷ fd_word fd ∷ path_word names.now path ∷ []) }
    ensures room { TakesAtMost text.old text.new 160 }
{
    push_of_fd(text, " attach", fd);
    push_spaced(text, name_of_path(names, path));
}

fn push_write(text: &mut Room<u8>, fd: Fd, bytes: &[u8])
    requires { 160 + 4 * length bytes.now ≤ text.old.spare }
    ensures items { text.new.items ≡ text.old.items ++ spaced_words (codes "write" ∷ fd_word fd ∷ quoted_text bytes.now ∷ []) }
    ensures room { TakesAtMost text.old text.new (160 + 4 * length bytes.now) }
{
    push_of_fd(text, " write", fd);
    push_spaced_string(text, bytes);
}

fn push_read(text: &mut Room<u8>, fd: Fd, most: u32)
    requires { 160 ≤ text.old.spare }
    ensures items { text.new.items ≡ text.old.items ++ spaced_words (codes "read" ∷ fd_word fd ∷ decimal most ∷ []) }
    ensures room { TakesAtMost text.old text.new 160 }
{
    push_of_fd(text, " read", fd);
    push_spaced_number(text, u64::from(most));
}

fn push_associate(text: &mut Room<u8>, port: Fd, object: Fd, events: PollSet, user: u64)
    requires { 160 ≤ text.old.spare }
    ensures items { text.new.items ≡ text.old.items ++ spaced_words (codes "associate" ∷ fd_word port ∷ fd_word object ∷ poll_spelling events ∷ decimal user ∷ []) }
    ensures room { TakesAtMost text.old text.new 160 }
{
    push_of_fd(text, " associate", port);
    push_spaced_number(text, u64::from(object.0));
    push_word(text, " ");
    push_poll(text, events);
    push_spaced_number(text, user);
}

fn push_get(text: &mut Room<u8>, port: Fd, wait: bool)
    requires { 160 ≤ text.old.spare }
    ensures items { text.new.items ≡ text.old.items ++ spaced_words (codes "get" ∷ fd_word port ∷ wait_words wait) }
    ensures room { TakesAtMost text.old text.new 160 }
{
    push_of_fd(text, " get", port);
    push_wait(text, wait);
}

fn push_getn(text: &mut Room<u8>, port: Fd, most: u32, least: u32, wait: bool)
    requires { 160 ≤ text.old.spare }
    ensures items { text.new.items ≡ text.old.items ++ spaced_words (codes "getn" ∷ fd_word port ∷ decimal most ∷ decimal least ∷ wait_words wait) }
    ensures room { TakesAtMost text.old text.new 160 }
{
    push_of_fd(text, " getn", port);
    push_spaced_number(text, u64::from(most));
    push_spaced_number(text, u64::from(least));
    push_wait(text, wait);
}

fn push_send(text: &mut Room<u8>, port: Fd, events: u32, user: u64)
    requires { 160 ≤ text.old.spare }
    ensures items { text.new.items ≡ text.old.items ++ spaced_words (codes "send" ∷ fd_word port ∷ decimal events ∷ decimal user ∷ []) }
    ensures room { TakesAtMost text.old text.new 160 }
{
    push_of_fd(text, " send", port);
    push_spaced_number(text, u64::from(events));
    push_spaced_number(text, user);
}

fn push_sendn(text: &mut Room<u8>, ports: &[Fd], events: u32, user: u64)
    requires { 160 + 22 * length ports.now ≤ text.old.spare }
    ensures items { text.new.items ≡ text.old.items ++ spaced_words (codes "sendn" ∷ decimal events ∷ decimal user ∷ map fd_word ports.now) }
    ensures room { TakesAtMost text.old text.new (160 + 22 * length ports.now) }
{
    push_word(text, " sendn");
    push_spaced_number(text, u64::from(events));
    push_spaced_number(text, user);
    push_ports(text, ports);
}

#[tactic(auto, using(crate::proofs::Spaced::mode_short))]
fn push_alert(text: &mut Room<u8>, port: Fd, mode: AlertMode, events: u32, user: u64)
    requires { 160 ≤ text.old.spare }
    ensures items { text.new.items ≡ text.old.items ++ spaced_words (codes "alert" ∷ fd_word port ∷ mode_spelling mode ∷ decimal events ∷ decimal user ∷ []) }
    ensures room { TakesAtMost text.old text.new 160 }
{
    push_of_fd(text, " alert", port);
    push_spaced(text, mode_word(mode).as_bytes());
    push_spaced_number(text, u64::from(events));
    push_spaced_number(text, user);
}

fn push_tcreate(text: &mut Room<u8>, port: Fd, user: u64)
    requires { 160 ≤ text.old.spare }
    ensures items { text.new.items ≡ text.old.items ++ spaced_words (codes "tcreate" ∷ fd_word port ∷ decimal user ∷ []) }
    ensures room { TakesAtMost text.old text.new 160 }
{
    push_of_fd(text, " tcreate", port);
    push_spaced_number(text, user);
}

fn push_tset(text: &mut Room<u8>, timer: u32, first: u64, interval: u64)
    requires { 160 ≤ text.old.spare }
    ensures items { text.new.items ≡ text.old.items ++ spaced_words (codes "tset" ∷ decimal timer ∷ decimal first ∷ decimal interval ∷ []) }
    ensures room { TakesAtMost text.old text.new 160 }
{
    push_word(text, " tset");
    push_spaced_number(text, u64::from(timer));
    push_spaced_number(text, first);
    push_spaced_number(text, interval);
}

/// A request of which a number is the only operand; `word` has a space before it.
fn push_of_number(text: &mut Room<u8>, word: &str, number: u64)
    requires { length word.now + 21 ≤ text.old.spare }
    ensures items { text.new.items ≡ text.old.items ++ word.now ++ spaced_words (decimal number ∷ []) }
    ensures room { TakesAtMost text.old text.new (length word.now + 21) }
{
    push_word(text, word);
    push_spaced_number(text, number);
}

/// A request of which a name is the only operand; `word` has a space before it.
fn push_of_name(text: &mut Room<u8>, word: &str, name: &[u8])
    requires { length word.now + length name.now + 1 ≤ text.old.spare }
    ensures items { text.new.items ≡ text.old.items ++ word.now ++ spaced_words (name.now ∷ []) }
    ensures room { TakesAtMost text.old text.new (length word.now + length name.now + 1) }
{
    push_word(text, word);
    push_spaced(text, name);
}

/// The words of a request.
pub fn push_request(text: &mut Room<u8>, names: &Names, request: &Request)
    requires names { AreShort names.now }
    requires room { request_room request.now ≤ text.old.spare }
    ensures items { text.new.items ≡ text.old.items ++ spaced_words (request_words names.now request.now) }
    ensures room { TakesAtMost text.old text.new (request_room request.now) }
{
    match request {
        Request::Create {
            entry,
            cookie,
            attrs,
        } => push_create(text, names, *entry, *cookie, *attrs),
        Request::Call {
            door,
            bytes,
            pass,
            rsize,
        } => push_call(text, *door, bytes.slice(), pass.slice(), *rsize),
        Request::Return { bytes, pass } => push_return(text, bytes.slice(), pass.slice()),
        Request::Revoke { fd } => push_of_fd(text, " revoke", *fd),
        Request::Bind { fd } => push_of_fd(text, " bind", *fd),
        Request::Unbind => push_word(text, " unbind"),
        Request::Info { fd } => push_of_fd(text, " info", *fd),
        Request::InfoQuery => push_word(text, " info query"),
        Request::GetParam { fd, param } => push_param(text, " getparam", *fd, *param),
        Request::SetParam { fd, param, value } => push_setparam(text, *fd, *param, *value),
        Request::Cred => push_word(text, " cred"),
        Request::TestCancel => push_word(text, " testcancel"),
        Request::Close { fd } => push_of_fd(text, " close", *fd),
        Request::Dup { fd } => push_of_fd(text, " dup", *fd),
        Request::Attach { fd, path } => push_attach(text, names, *fd, *path),
        Request::Detach { path } => push_of_name(text, " detach", name_of_path(names, *path)),
        Request::Open { path } => push_of_name(text, " open", name_of_path(names, *path)),
        Request::Await { path } => push_of_name(text, " await", name_of_path(names, *path)),
        Request::Pipe => push_word(text, " pipe"),
        Request::Write { fd, bytes } => push_write(text, *fd, bytes.slice()),
        Request::Read { fd, max } => push_read(text, *fd, *max),
        Request::PortCreate => push_word(text, " pcreate"),
        Request::Associate {
            port,
            object,
            events,
            user,
        } => push_associate(text, *port, *object, *events, *user),
        Request::Dissociate { port, object } => push_of_two_fds(
            text,
            " dissociate",
            *port,
            *object,
        ),
        Request::Get { port, wait } => push_get(text, *port, *wait),
        Request::GetN {
            port,
            max,
            nget,
            wait,
        } => push_getn(text, *port, *max, *nget, *wait),
        Request::Send { port, events, user } => push_send(text, *port, *events, *user),
        Request::SendN {
            ports,
            events,
            user,
        } => push_sendn(text, ports.slice(), *events, *user),
        Request::Alert {
            port,
            mode,
            events,
            user,
        } => push_alert(text, *port, *mode, *events, *user),
        Request::TimerCreate { port, user } => push_tcreate(text, *port, *user),
        Request::TimerSet {
            timer,
            first,
            interval,
        } => push_tset(text, *timer, *first, *interval),
        Request::TimerDelete { timer } => push_of_number(text, " tdelete", u64::from(*timer)),
        Request::Advance { by } => push_of_number(text, " advance", *by),
        Request::Interrupt { thread } => push_of_name(
            text,
            " interrupt",
            name_of_thread(names, *thread),
        ),
        Request::Kill { process } => push_of_name(text, " kill", name_of_process(names, *process)),
        Request::Exit => push_word(text, " exit"),
        Request::Fork { child } => push_of_name(text, " fork", name_of_process(names, *child)),
        Request::Work { .. } => push_word(text, " work"),
        Request::Ncd { .. } => push_word(text, " ncd"),
    }
}
