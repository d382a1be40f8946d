//! What stands in the output where a write fails, at each write in turn. What is looked at is lines alone, and `check` of the whole ones.
ghost use Rattle.std.specs.Prelude.{◌≤◌};

use crate::commands::ECHO;
use dk_base::error::NoMemory;
use dk_base::list::{Bytes, CallList};
use dk_base::memory::{MemSink, MemSource};
use dk_base::outside::NoGate;
use doors_top::status::Status;
use doors_top::top::doors_main;
use std::alloc::Global;
use std::sync::Wait;
use std::test::Fail;
use std::thread::Threads;

/// A server of two threads and four clients with a call each.
const FOUR_CLIENTS: &str =
    "doors script 1\nprocess srv\nthread s1\ncreate d echo 7\nattach $d echo\nserve\nend\nthread s2\nserve\nend\nproc echo\nreturn $arg\nend\nprocess cli\nthread k1\nawait echo\nopen d echo\ncall r $d \"one\"\nend\nthread k2\nawait echo\nopen d echo\ncall r $d \"two\"\nend\nthread k3\nawait echo\nopen d echo\ncall r $d \"three\"\nend\nthread k4\nawait echo\nopen d echo\ncall r $d \"four\"\nend\n";

/// The bytes that a write takes.
const PIECE: usize = 7;

/// What a command answered and wrote.
#[derive(Drop)]
struct Made {
    status: Status,
    output: Bytes,
}

/// Runs a command, and copies what it wrote.
fn outcome<R: Threads + Wait + Sync>(
    rt: &R,
    alloc: Global,
    words: &[&str],
    source: &mut MemSource,
    sink: &mut MemSink,
) -> Result<Made, NoMemory> {
    let status = doors_main(rt, alloc, words, source, sink, &NoGate);
    Ok(Made {
        status,
        output: Bytes::from_slice(alloc, sink.held())?,
    })
}

/// Runs a command over an input, with a sink that takes seven bytes a write and whose write of this number fails; 0 fails none.
fn make<R: Threads + Wait + Sync>(
    rt: &R,
    alloc: Global,
    words: &[&str],
    input: &[u8],
    failing: u64,
) -> Result<Made, NoMemory> {
    let bytes = Bytes::from_slice(alloc, input)?;
    let writes = CallList::from_slice(alloc, &[failing])?;
    let mut sink = MemSink::new(alloc, 65536, PIECE, writes)?;
    let mut source = MemSource::new(bytes, CallList::new(alloc));
    outcome(rt, alloc, words, &mut source, &mut sink)
}

/// The lines of a text that end in a line feed, how many they are, and what stands after them.
#[derive(Drop)]
struct Lines {
    whole: Bytes,
    count: u32,
    rest: Bytes,
}

fn lines_of(alloc: Global, text: &[u8]) -> Result<Lines, NoMemory> {
    let mut whole = Bytes::new(alloc);
    let mut line = Bytes::new(alloc);
    let mut count: u32 = 0;
    for byte in text {
        line.push(*byte)?;
        if *byte == b'\n' {
            whole.append(line.slice())?;
            line = Bytes::new(alloc);
            count = count.wrapping_add(1);
        }
    }
    Ok(Lines {
        whole,
        count,
        rest: line,
    })
}

/// Whether one of two texts begins with the other.
fn is_begun(text: &[u8], other: &[u8]) -> bool {
    text.starts_with(other) || other.starts_with(text)
}

/// What `check` says of a trace of the four clients.
fn judge<R: Threads + Wait + Sync>(rt: &R, alloc: Global, trace: &[u8]) -> Result<Made, NoMemory> {
    let mut input = Bytes::from_slice(alloc, FOUR_CLIENTS.as_bytes())?;
    input.append(b"trace\n")?;
    input.append(trace)?;
    make(rt, alloc, &["check"], input.slice(), 0)
}

/// Whether the whole lines are event lines of a legal run, and then perhaps its end line, and what stands after them begins the next.
fn is_front_of_run<R: Threads + Wait + Sync>(
    rt: &R,
    alloc: Global,
    written: &[u8],
) -> Result<bool, Fail> {
    let lines = lines_of(alloc, written)?;
    match judge(rt, alloc, lines.whole.slice()) {
        Ok(judged) => is_front(alloc, &lines, &judged),
        Err(_) => Ok(false),
    }
}

/// Whether what `check` says of whole lines fits what stands after them.
fn is_front(alloc: Global, lines: &Lines, judged: &Made) -> Result<bool, Fail> {
    let next = lines.count.wrapping_add(1);
    let wanted = format!(in alloc; "illegal line {next}\n")?;
    let number = format!(in alloc; "{next} ")?;
    Ok(fits(
        lines.rest.slice(),
        judged,
        wanted.as_bytes(),
        number.as_bytes(),
    ))
}

fn fits(rest: &[u8], judged: &Made, wanted: &[u8], number: &[u8]) -> bool {
    match judged.status {
        Status::Complete => is_begun(rest, b"tail "),
        Status::Illegal => {
            judged.output.slice().starts_with(wanted)
                && (is_begun(rest, number) || is_begun(rest, b"end "))
        }
        _ => false,
    }
}

/// Whether a run of the four clients whose write of this number fails leaves a front of a legal run. A run of them needs at least a
/// hundred writes.
fn is_cut_run<R: Threads + Wait + Sync>(rt: &R, alloc: Global, failing: u64) -> Result<bool, Fail> {
    let made = make(rt, alloc, &["run"], FOUR_CLIENTS.as_bytes(), failing)?;
    let output = made.output.slice();
    if made.status == Status::WriteFault {
        return is_front_of_run(rt, alloc, output);
    }
    let is_legal = matches!(
        judge(rt, alloc, output),
        Ok(judged) if judged.status == Status::Complete
    );
    Ok(failing > 100 && made.status == Status::Complete && is_legal)
}

/// Whether a write of this number that fails leaves the text's first bytes, as many as the writes before it took; and where there are
/// fewer writes, whether all of the text is written.
fn is_cut_text<R: Threads + Wait + Sync>(
    rt: &R,
    alloc: Global,
    words: &[&str],
    input: &[u8],
    whole: &Made,
    failing: u64,
) -> bool {
    matches!(make(rt, alloc, words, input, failing), Ok(made) if is_cut(&made, whole, failing))
}

fn is_cut(made: &Made, whole: &Made, failing: u64) -> bool {
    let output = made.output.slice();
    let before = failing.wrapping_sub(1).wrapping_mul(PIECE as u64);
    if before < whole.output.len() as u64 {
        made.status == Status::WriteFault
            && output.len() as u64 == before
            && whole.output.slice().starts_with(output)
    } else {
        made.status == whole.status && output == whole.output.slice()
    }
}

/// Whether each write of a command leaves a front of its text where it fails, and the text needs as many writes as this.
fn are_cut_texts<R: Threads + Wait + Sync>(
    rt: &R,
    alloc: Global,
    words: &[&str],
    input: &[u8],
    writes: u64,
) -> Result<bool, Fail> {
    let whole = make(rt, alloc, words, input, 0)?;
    for failing in 1..=150 {
        if !is_cut_text(rt, alloc, words, input, &whole, failing) {
            return Ok(false);
        }
    }
    Ok(whole.output.len() as u64 > writes.wrapping_sub(1).wrapping_mul(PIECE as u64))
}

#[test]
fn each_write_of_a_run_fails(rt: HostRuntime) -> Result<(), Fail> {
    let alloc = rt.alloc();
    for failing in 1..=150 {
        assert!(rt; is_cut_run(&rt, alloc, failing)?, "write {failing}");
    }
    Ok(())
}

/// The words, the input, and how many writes the text needs at least.
static TEXTS: [(&[&str], &str, u64); 4] = [
    (&["play"], FOUR_CLIENTS, 100),
    (&["show"], FOUR_CLIENTS, 60),
    (
        &["check"],
        "doors script 1\nprocess p\nthread t\nend\ntrace\n1 t t exit EBADF\nend complete 1\n",
        8,
    ),
    (&["load", "3"], "", 6),
];

#[test]
fn each_write_of_a_command_fails(rt: HostRuntime) -> Result<(), Fail> {
    let alloc = rt.alloc();
    for (words, input, writes) in TEXTS.iter() {
        let are_cut = are_cut_texts(&rt, alloc, words, input.as_bytes(), *writes)?;
        assert!(rt; are_cut, "{input}");
    }
    Ok(())
}

/// Plays the echo script with a source whose second read fails or not, a sink with so much room whose first write fails or not.
fn play_echo<R: Threads + Wait + Sync>(
    rt: &R,
    alloc: Global,
    read: u64,
    room: usize,
    write: u64,
) -> Result<Made, NoMemory> {
    let bytes = Bytes::from_slice(alloc, ECHO.as_bytes())?;
    let reads = CallList::from_slice(alloc, &[read])?;
    let writes = CallList::from_slice(alloc, &[write])?;
    let mut sink = MemSink::new(alloc, room, 4096, writes)?;
    let mut source = MemSource::new(bytes, reads);
    outcome(rt, alloc, &["play"], &mut source, &mut sink)
}

/// Whether the echo script, played so, ends with this output and status.
fn is_cut_echo<R: Threads + Wait + Sync>(
    rt: &R,
    alloc: Global,
    failing: (u64, usize, u64),
    output: &str,
    status: Status,
) -> bool {
    let (read, room, write) = failing;
    matches!(
        play_echo(rt, alloc, read, room, write),
        Ok(made) if made.status == status && made.output.slice() == output.as_bytes()
    )
}

/// The read that fails, the room of the sink, the write that fails, and then the output and the status; 0 fails none.
static ENDS: [(u64, usize, u64, &str, Status); 3] = [
    (2, 4096, 0, "", Status::ReadFault),
    (0, 20, 0, "1 s s create ok fd 0", Status::WriteFault),
    (0, 4096, 1, "", Status::WriteFault),
];

#[test]
fn the_ends_of_the_program_fail(rt: HostRuntime) -> Result<(), Fail> {
    let alloc = rt.alloc();
    for (read, room, write, output, status) in ENDS.iter() {
        let is_cut = is_cut_echo(&rt, alloc, (*read, *room, *write), output, *status);
        assert!(rt; is_cut, "{output}");
    }
    Ok(())
}
