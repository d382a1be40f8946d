//! The script of a load. It is written as a text, and read.

ghost use Rattle.std.specs.Prelude.{◌≡◌, ◌≤◌, ◌/◌, ◌+◌, ◌-◌, ◌++◌, IfOk, OnOk};
ghost use Rattle.line_text.specs.Words.{text_of_lines};
ghost use Rattle.script_lang.specs.Words.{spells};
ghost use Rattle.load_gen.specs.declared.load_script.TheConstants.{CALLS_MAX};
ghost use Rattle.load_gen.specs.Loads.{load_script, load_calls};
ghost use Rattle.load_gen.specs.LoadText.{client_lines, client_text, load_text};

use dk_base::error::NoMemory;
use dk_base::list::Bytes;
use line_text::writer::Writer;
use script_lang::bad::ParseFault;
use script_lang::parse::parse;
use script_lang::script::Script;
use std::alloc::Global;

/// The most calls of a load.
pub const CALLS_MAX: u32 = 16000;

/// The header, the budget, the server's process, and the first line of the clients' process.
const FIRST_LINES: &[u8] =
    b"doors script 1\nbudget 100000\nprocess srv\nthread s\ncreate d echo 0\nattach $d load\nserve\nend\nproc echo\nclose $arg\nreturn $arg\nend\nprocess cli\n";

/// How many of `n` calls the client of this number makes: the first clients make those that are left over.
fn calls_of(n: u32, client: u32) -> u32
    requires first { 1 ≤ client }
    requires last { client ≤ 4 }
    requires most { n ≤ 16000 }
    ensures { result ≡ load_calls n client }
{
    (n + 4 - client) / 4
}

/// The lines of a client's thread.
fn put_client_lines(
    alloc: Global,
    text: &mut Writer,
    name: &[u8],
    calls: u32,
) -> Result<(), NoMemory>
    ensures { OnOk result (text.new ≡ text.old ++ text_of_lines (client_lines name.now calls)) }
{
    text.first(b"thread")?;
    text.word(name)?;
    text.bytes(b"\nopen d load\nrepeat")?;
    text.number(alloc, u64::from(calls))?;
    text.bytes(b"\ndup e $d\ncall r $d \"k\" desc $e!\nend\nend\n")
}

/// The lines of a client's thread, if it makes a call.
fn put_client(alloc: Global, text: &mut Writer, name: &[u8], calls: u32) -> Result<(), NoMemory>
    ensures { OnOk result (text.new ≡ text.old ++ client_text name.now calls) }
{
    if calls == 0 {
        return Ok(());
    }
    put_client_lines(alloc, text, name, calls)
}

fn put_load(alloc: Global, text: &mut Writer, n: u32) -> Result<(), NoMemory>
    requires { n ≤ 16000 }
    ensures { OnOk result (text.new ≡ text.old ++ load_text n) }
{
    text.bytes(FIRST_LINES)?;
    put_client(alloc, text, b"k1", calls_of(n, 1))?;
    put_client(alloc, text, b"k2", calls_of(n, 2))?;
    put_client(alloc, text, b"k3", calls_of(n, 3))?;
    put_client(alloc, text, b"k4", calls_of(n, 4))
}

/// A text that spells the script of a load.
fn text_of_load(alloc: Global, n: u32) -> Result<Bytes, NoMemory>
    requires { n ≤ 16000 }
    ensures { IfOk result (λ text. text ≡ load_text n) }
{
    let mut text = Writer::new(alloc)?;
    put_load(alloc, &mut text, n)?;
    Ok(text.into_bytes())
}

/// The script of the load of `n` calls, from 1 to `CALLS_MAX`: a server, and a client for each call up to the fourth, which share the
/// calls. The same `n` has the same script. Want of memory is the only error, and leaves nothing behind.
#[tactic(auto, using(crate::proofs::LoadAll::load_read, crate::proofs::LoadLength::load_is_short))]
pub fn generate(alloc: Global, n: u32) -> Result<Script, NoMemory>
    requires first { 1 ≤ n }
    requires last { n ≤ CALLS_MAX }
    ensures exact { IfOk result (λ script. script ≡ load_script n) }
    ensures spelled { IfOk result (λ script. spells (load_text n) script) }
{
    let text = text_of_load(alloc, n)?;
    match parse(alloc, text.slice()) {
        Ok(script) => Ok(script),
        Err(ParseFault::Memory) => Err(NoMemory),
        Err(ParseFault::Bad(_)) => unreachable!(),
    }
}
