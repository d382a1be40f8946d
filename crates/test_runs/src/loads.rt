//! Scripts of loads, and the lines that tell of their runs.
ghost use Rattle.std.specs.Prelude.{◌≡◌, []};

use load_gen::{CALLS_MAX, generate, summary};
use script_lang::parse::parse;
use script_lang::print::print;
use script_lang::script::Script;
use std::alloc::Global;
use sys_run::playing::Playing;

/// What `show` prints of a load of so many calls.
static SHOWN: [(u32, &str); 5] = [
    (
        1,
        "doors script 1\nbudget 100000\nprocess srv limit 256\nthread s\ncreate d echo 0\nattach $d load\nserve\nend\nproc echo\nclose $arg\nreturn $arg\nend\nprocess cli limit 256\nthread k1\nopen d load\nrepeat 1\ndup e $d\ncall r $d \"k\" desc $e! rsize 4096\nend\nend\n",
    ),
    (
        2,
        "doors script 1\nbudget 100000\nprocess srv limit 256\nthread s\ncreate d echo 0\nattach $d load\nserve\nend\nproc echo\nclose $arg\nreturn $arg\nend\nprocess cli limit 256\nthread k1\nopen d load\nrepeat 1\ndup e $d\ncall r $d \"k\" desc $e! rsize 4096\nend\nend\nthread k2\nopen d load\nrepeat 1\ndup e $d\ncall r $d \"k\" desc $e! rsize 4096\nend\nend\n",
    ),
    (
        3,
        "doors script 1\nbudget 100000\nprocess srv limit 256\nthread s\ncreate d echo 0\nattach $d load\nserve\nend\nproc echo\nclose $arg\nreturn $arg\nend\nprocess cli limit 256\nthread k1\nopen d load\nrepeat 1\ndup e $d\ncall r $d \"k\" desc $e! rsize 4096\nend\nend\nthread k2\nopen d load\nrepeat 1\ndup e $d\ncall r $d \"k\" desc $e! rsize 4096\nend\nend\nthread k3\nopen d load\nrepeat 1\ndup e $d\ncall r $d \"k\" desc $e! rsize 4096\nend\nend\n",
    ),
    (
        4,
        "doors script 1\nbudget 100000\nprocess srv limit 256\nthread s\ncreate d echo 0\nattach $d load\nserve\nend\nproc echo\nclose $arg\nreturn $arg\nend\nprocess cli limit 256\nthread k1\nopen d load\nrepeat 1\ndup e $d\ncall r $d \"k\" desc $e! rsize 4096\nend\nend\nthread k2\nopen d load\nrepeat 1\ndup e $d\ncall r $d \"k\" desc $e! rsize 4096\nend\nend\nthread k3\nopen d load\nrepeat 1\ndup e $d\ncall r $d \"k\" desc $e! rsize 4096\nend\nend\nthread k4\nopen d load\nrepeat 1\ndup e $d\ncall r $d \"k\" desc $e! rsize 4096\nend\nend\n",
    ),
    (
        5,
        "doors script 1\nbudget 100000\nprocess srv limit 256\nthread s\ncreate d echo 0\nattach $d load\nserve\nend\nproc echo\nclose $arg\nreturn $arg\nend\nprocess cli limit 256\nthread k1\nopen d load\nrepeat 2\ndup e $d\ncall r $d \"k\" desc $e! rsize 4096\nend\nend\nthread k2\nopen d load\nrepeat 1\ndup e $d\ncall r $d \"k\" desc $e! rsize 4096\nend\nend\nthread k3\nopen d load\nrepeat 1\ndup e $d\ncall r $d \"k\" desc $e! rsize 4096\nend\nend\nthread k4\nopen d load\nrepeat 1\ndup e $d\ncall r $d \"k\" desc $e! rsize 4096\nend\nend\n",
    ),
];

fn is_shown(alloc: Global, n: u32, expected: &str) -> bool {
    n >= 1
        && n <= CALLS_MAX
        && matches!(
            generate(alloc, n),
            Ok(script) if is_printed(alloc, &script, expected)
        )
}

fn is_printed(alloc: Global, script: &Script, expected: &str) -> bool {
    matches!(print(alloc, script), Ok(text) if text.slice() == expected.as_bytes())
}

#[test]
fn loads_are_shown(rt: HostRuntime) {
    for (n, expected) in SHOWN.iter() {
        assert!(rt; is_shown(rt.alloc(), *n, expected), "a load of {n}");
    }
}

/// The line of a load's run.
static LOADS: [(u32, &str); 3] = [
    (1, "load 1 calls 1 ok 1 events 11 end complete"),
    (2, "load 2 calls 2 ok 2 events 19 end complete"),
    (5, "load 5 calls 5 ok 5 events 41 end complete"),
];

fn is_summary(alloc: Global, n: u32, playing: Playing, expected: &str) -> bool
    requires { playing.journal ≡ [] }
{
    matches!(summary(alloc, n, playing), Ok(told) if told.line.slice() == expected.as_bytes())
}

fn is_told(alloc: Global, n: u32, script: Script, expected: &str) -> bool {
    match Playing::new(alloc, script) {
        Ok(playing) => is_summary(alloc, n, playing, expected),
        Err(_) => false,
    }
}

fn is_played(alloc: Global, n: u32, expected: &str) -> bool {
    if n < 1 || n > CALLS_MAX {
        return false;
    }
    match generate(alloc, n) {
        Ok(script) => is_told(alloc, n, script, expected),
        Err(_) => false,
    }
}

#[test]
fn loads_are_told(rt: HostRuntime) {
    for (n, expected) in LOADS.iter() {
        assert!(rt; is_played(rt.alloc(), *n, expected), "a load of {n}");
    }
}

/// Runs of other scripts, in which not each call is made, and not each is answered.
static OTHERS: [(&str, &str); 4] = [
    // a call that is refused is not made
    (
        "doors script 1\nprocess p\nthread t\ncall r 9 \"\"\nend\n",
        "load 9 calls 0 ok 0 events 2 end complete",
    ),
    // nobody serves
    (
        "doors script 1\nprocess p\nthread s\ncreate d f 0\nattach $d x\nawait y\nend\nproc f\nend\nprocess q\nthread t\nopen d x\ncall r $d \"\"\nend\n",
        "load 9 calls 1 ok 0 events 5 end stalled",
    ),
    // the caller is interrupted, and collects an error
    (
        "doors script 1\nprocess p\nthread s\ncreate d f 0\nattach $d x\nawait y\nend\nproc f\nend\nprocess q\nthread t\nopen d x\ncall r $d \"\"\nend\nthread u\ninterrupt t\nend\n",
        "load 9 calls 1 ok 0 events 9 end stalled",
    ),
    // the budget ends after the first answer
    (
        "doors script 1\nbudget 8\nprocess p\nthread s\ncreate d f 0\nattach $d x\nserve\nend\nproc f\nreturn $arg\nend\nprocess q\nthread t\nopen d x\nrepeat 2\ncall r $d \"\"\nend\nend\n",
        "load 9 calls 1 ok 1 events 8 end budget",
    ),
];

fn is_told_of(alloc: Global, text: &str, expected: &str) -> bool {
    if text.len() >= 4_000_000_000 {
        return false;
    }
    match parse(alloc, text.as_bytes()) {
        Ok(script) => is_told(alloc, 9, script, expected),
        Err(_) => false,
    }
}

#[test]
fn other_runs_are_told(rt: HostRuntime) {
    for (text, expected) in OTHERS.iter() {
        assert!(rt; is_told_of(rt.alloc(), text, expected), "{expected}");
    }
}
