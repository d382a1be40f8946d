//! The top call over sources and sinks that give and take little, and that fail.
ghost use Rattle.std.specs.Prelude.{◌≤◌};

mod failing;

use dk_base::list::{Bytes, CallList};
use dk_base::memory::{MemSink, MemSource};
use dk_base::outside::NoGate;
use doors_top::status::Status;
use doors_top::top::{doors_main, plain_main};
use std::alloc::Global;
use std::process::Abort;
use std::sync::Wait;
use std::test::Fail;
use std::thread::Threads;

/// What the top call leaves of the input and writes, and its status.
#[derive(Clone, Copy)]
struct Expected {
    left: usize,
    output: &'static str,
    status: Status,
}

fn ends_with<R: Threads + Wait + Sync>(
    rt: &R,
    alloc: Global,
    words: &[&str],
    source: &mut MemSource,
    sink: &mut MemSink,
    expected: &Expected,
) -> bool {
    let answer = doors_main(rt, alloc, words, source, sink, &NoGate);
    answer == expected.status
        && source.left() == expected.left
        && sink.held() == expected.output.as_bytes()
}

/// Whether the top call ends so over a source that gives and a sink that takes so many bytes a call, and whose read and write
/// of these numbers fail, counted from 1.
fn is_answer<R: Threads + Wait + Sync>(
    rt: &R,
    alloc: Global,
    words: &[&str],
    input: &str,
    piece: usize,
    failing: (u64, u64),
    expected: &Expected,
) -> Result<bool, Fail>
    requires { 1 ≤ piece }
{
    let (read, write) = failing;
    let bytes = Bytes::from_slice(alloc, input.as_bytes())?;
    let reads = CallList::from_slice(alloc, &[read])?;
    let writes = CallList::from_slice(alloc, &[write])?;
    let mut sink = MemSink::new(alloc, 4096, piece, writes)?;
    let mut source = MemSource::in_pieces(bytes, piece, reads);
    Ok(ends_with(rt, alloc, words, &mut source, &mut sink, expected))
}

pub(crate) const ECHO: &str =
    "doors script 1\nprocess srv\nthread s\ncreate d echo 7\nattach $d echo\nserve\nend\nproc echo\nreturn $arg\nend\nprocess cli\nthread c\nawait echo\nopen d echo\ncall r $d \"hi\"\nend\n";

const ECHO_TRACE: &str =
    "1 s s create ok fd 0\n2 s s attach ok\n3 s s return wait\n4 c c await ok\n5 c c open ok fd 0\n6 c c call wait c1\n7 s c accept enter c1 echo 7 \"hi\"\n8 s c return wait\n9 c c collect ok \"hi\"\n10 c c exit ok\nend complete 10\n";

const SPACED: &str =
    "doors script 1\n\nprocess  a\nthread t\n send 3 1 2\n return \"\\x41\\x0a\" + $v desc $d.0!\nend\n";

const CANONICAL: &str =
    "doors script 1\nbudget 100000\nprocess a limit 256\nthread t\nsend 3 1 2\nreturn \"A\\x0a\" + $v desc $d!\nend\n";

/// The words and the input, and then how many of its bytes are left, the output and the status.
static ANSWERS: [(&[&str], &str, usize, &str, Status); 22] = [
    (&["play"], ECHO, 0, ECHO_TRACE, Status::Complete),
    (&["show"], SPACED, 0, CANONICAL, Status::Complete),
    // a wait that nothing ends
    (
        &["play"],
        "doors script 1\nprocess p\nthread t\nawait never\nend\n",
        0,
        "1 t t await wait\nend stalled 1 t\n",
        Status::Stalled,
    ),
    (
        &["play"],
        "doors script 1\nprocess a\nthread t\nrepeat 2\nend\nend\n",
        0,
        "bad line 5 body\n",
        Status::Script,
    ),
    (
        &["show"],
        "doors script 1\nprocess a\nprocess a\n",
        0,
        "bad line 3 twice\n",
        Status::Script,
    ),
    (
        &["play"],
        "doors script 1\nprocess a\nthread s\ndissociate 1 1\nend\n",
        0,
        "1 s s dissociate EBADF\n2 s s exit ok\nend complete 2\n",
        Status::Complete,
    ),
    (
        &["play", "show"],
        ECHO,
        166,
        "usage: doors play|run|show|check|load N\n",
        Status::Usage,
    ),
    // the schedule is passed over
    (
        &["run"],
        "doors script 1\nprocess p\nthread t\nend\nschedule t t\n",
        0,
        "1 t t exit ok\nend complete 1\ntail 0\n",
        Status::Complete,
    ),
    // no thread to start
    (
        &["run"],
        "doors script 1\n",
        0,
        "end complete 0\ntail 0\n",
        Status::Complete,
    ),
    (
        &["run"],
        "doors script 1\nprocess p\nthread t\nawait never\nend\n",
        0,
        "1 t t await wait\nend stalled 1 t\ntail 0\n",
        Status::Stalled,
    ),
    (
        &["run"],
        "doors script 1\nbudget 2\nprocess p\nthread t\nrepeat 9\nopen d x\nend\nend\n",
        0,
        "1 t t open ENOENT\n2 t t open ENOENT\nend budget 2\ntail 0\n",
        Status::Budget,
    ),
    (
        &["run"],
        "doors script 1\nprocess a\nthread t\nrepeat 2\nend\nend\n",
        0,
        "bad line 5 body\n",
        Status::Script,
    ),
    (
        &["run"],
        "doors script 1\nprocess a\nthread s\nwork v upper \"ab\"\nend\n",
        0,
        "1 s s work wait\n2 s s done ok \"AB\"\n3 s s exit ok\nend complete 3\ntail 0\n",
        Status::Complete,
    ),
    (
        &["run", "run"],
        ECHO,
        166,
        "usage: doors play|run|show|check|load N\n",
        Status::Usage,
    ),
    // a schedule longer than the budget
    (
        &["play"],
        "doors script 1\nbudget 2\nprocess p\nthread t\nrepeat 9\nopen d x\nend\nend\nschedule t t t t\n",
        0,
        "1 t t open ENOENT\n2 t t open ENOENT\nend budget 2\n",
        Status::Budget,
    ),
    // a schedule that goes on after the run is over
    (
        &["play"],
        "doors script 1\nprocess p\nthread t\nend\nschedule t t\n",
        0,
        "1 t t exit ok\nrefused turn 2 t\n",
        Status::Turn,
    ),
    (
        &["check"],
        "doors script 1\nprocess p\nthread t\nend\ntrace\n1 t t exit ok\nend complete 1\n",
        0,
        "legal 1\n",
        Status::Complete,
    ),
    (
        &["check"],
        "doors script 1\nprocess p\nthread t\nend\ntrace\n1 t t exit ok\nend stalled 1 t\n",
        0,
        "illegal line 2\nwant end complete 1\nhave end stalled 1 t\n",
        Status::Illegal,
    ),
    // no line `trace`
    (&["check"], ECHO, 0, "bad line 17 trace\n", Status::Script),
    // nothing is read
    (
        &["load", "1"],
        ECHO,
        166,
        "load 1 calls 1 ok 1 events 11 end complete\n",
        Status::Complete,
    ),
    (
        &["load", "01"],
        ECHO,
        166,
        "usage: doors play|run|show|check|load N\n",
        Status::Usage,
    ),
    (
        &["load"],
        ECHO,
        166,
        "usage: doors play|run|show|check|load N\n",
        Status::Usage,
    ),
];

#[test]
fn commands_are_answered(rt: HostRuntime) -> Result<(), Fail> {
    let alloc = rt.alloc();
    for (words, input, left, output, status) in ANSWERS.iter() {
        let expected = Expected {
            left: *left,
            output: *output,
            status: *status,
        };
        let is_whole = is_answer(&rt, alloc, words, input, 4096, (0, 0), &expected)?;
        assert!(rt; is_whole, "{output}");
        let is_in_bytes = is_answer(&rt, alloc, words, input, 1, (0, 0), &expected)?;
        assert!(rt; is_in_bytes, "byte by byte: {output}");
    }
    Ok(())
}

/// One thread that exits, in 38 bytes.
const EXIT: &str = "doors script 1\nprocess p\nthread t\nend\n";

/// The words, the input, the read and the write of five bytes that fail, and then how many bytes of the input are left, the
/// output and the status.
static FAULTS: [(&[&str], &str, (u64, u64), usize, &str, Status); 10] = [
    (&["play"], ECHO, (9, 0), 126, "", Status::ReadFault),
    (&["play"], ECHO, (0, 3), 0, "1 s s crea", Status::WriteFault),
    (&["run"], EXIT, (3, 0), 28, "", Status::ReadFault),
    (&["run"], EXIT, (0, 3), 0, "1 t t exit", Status::WriteFault),
    (&["show"], ECHO, (9, 0), 126, "", Status::ReadFault),
    (&["show"], ECHO, (0, 3), 0, "doors scri", Status::WriteFault),
    (&["check"], ECHO, (9, 0), 126, "", Status::ReadFault),
    (
        &["check"],
        ECHO,
        (0, 3),
        0,
        "bad line 1",
        Status::WriteFault,
    ),
    (
        &["load", "3"],
        ECHO,
        (1, 0),
        166,
        "load 3 calls 3 ok 3 events 27 end complete\n",
        Status::Complete,
    ),
    (
        &["load", "3"],
        ECHO,
        (0, 3),
        166,
        "load 3 cal",
        Status::WriteFault,
    ),
];

#[test]
fn reads_and_writes_fail(rt: HostRuntime) -> Result<(), Fail> {
    let alloc = rt.alloc();
    for (words, input, failing, left, output, status) in FAULTS.iter() {
        let expected = Expected {
            left: *left,
            output: *output,
            status: *status,
        };
        let is_cut = is_answer(&rt, alloc, words, input, 5, *failing, &expected)?;
        assert!(rt; is_cut, "{output}");
    }
    Ok(())
}

fn is_played(alloc: Global, source: &mut MemSource, sink: &mut MemSink) -> bool {
    let answer = plain_main(alloc, &["play"], source, sink);
    answer == Status::Complete && sink.held() == ECHO_TRACE.as_bytes()
}

fn plays(alloc: Global) -> Result<bool, Fail> {
    let bytes = Bytes::from_slice(alloc, ECHO.as_bytes())?;
    let mut sink = MemSink::new(alloc, 4096, 4096, CallList::new(alloc))?;
    let mut source = MemSource::new(bytes, CallList::new(alloc));
    Ok(is_played(alloc, &mut source, &mut sink))
}

#[test]
fn the_plain_call_plays(rt: HostRuntime) -> Result<(), Fail> {
    assert!(rt; plays(rt.alloc())?);
    Ok(())
}
