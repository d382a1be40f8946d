//! Where a thread stands in its script, row by row.
ghost use Rattle.std.specs.Prelude.{◌≡◌, ◌≤◌, length};
ghost use Rattle.thread_machine.specs.Words.{IsMachine};

mod asks;
mod given;
mod rows;

use asks::{Asks, is_asked};
use dk_base::number::Tid;
use dk_base::request::Request;
use given::{Given, is_given};
use rows::{ROWS, Row};
use script_lang::parse::parse;
use script_lang::script::Script;
use std::alloc::Global;
use std::test::Fail;
use thread_machine::machine::Machine;

fn asks_this(alloc: Global, script: &Script, machine: &Machine, asks: Asks) -> bool
    requires { IsMachine script.now machine.now }
{
    matches!(machine.next(alloc, script), Ok(request) if is_asked(&request, asks))
}

/// How many steps go as they are written: the thread asks this, and is given that.
fn right_steps(
    alloc: Global,
    script: &Script,
    machine: &mut Machine,
    steps: &[(Asks, Given)],
) -> usize
    requires { IsMachine script.now machine.old }
{
    for (i, (asks, given)) in steps.iter().enumerate() {
        if !asks_this(alloc, script, machine, *asks) || !is_given(alloc, script, machine, *given) {
            return i;
        }
    }
    steps.len()
}

fn right_steps_of_thread(alloc: Global, script: &Script, row: &Row) -> usize {
    if row.thread < 1 || row.thread as usize > script.thread_list().len() {
        return 0;
    }
    match Machine::new(alloc, script, Tid(row.thread)) {
        Ok(mut machine) => right_steps(alloc, script, &mut machine, row.steps),
        Err(_) => 0,
    }
}

fn right_steps_of_row(alloc: Global, row: &Row) -> usize {
    if row.text.len() >= 4_000_000_000 {
        return 0;
    }
    match parse(alloc, row.text.as_bytes()) {
        Ok(script) => right_steps_of_thread(alloc, &script, row),
        Err(_) => 0,
    }
}

#[test]
fn threads_ask_what_their_lines_say(rt: HostRuntime) -> Result<(), Fail> {
    for row in ROWS {
        let right = right_steps_of_row(rt.alloc(), &row);
        assert!(rt; right == row.steps.len(), "{}: step {right}", row.name);
    }
    Ok(())
}

/// Eight loops in one another, each of two turns.
const EIGHT_DEEP: &str =
    "doors script 1\nprocess a\nthread t\nrepeat 2\nclose 1\nrepeat 2\nclose 2\nrepeat 2\nclose 3\nrepeat 2\nclose 4\nrepeat 2\nclose 5\nrepeat 2\nclose 6\nrepeat 2\nclose 7\nrepeat 2\nclose 8\nend\nend\nend\nend\nend\nend\nend\nend\nend\n";

/// The descriptors that its first commands close.
const CLOSED: [u32; 20] = [1, 2, 3, 4, 5, 6, 7, 8, 8, 7, 8, 8, 6, 7, 8, 8, 7, 8, 8, 5];

/// Whether it closes these, and exits after all its 510 commands.
fn closes(alloc: Global, script: &Script, machine: &mut Machine) -> bool
    requires { IsMachine script.now machine.old }
{
    for i in 0..510 {
        let is_right = match CLOSED.get(i) {
            Some(fd) => asks_this(alloc, script, machine, Asks::Close(*fd)),
            None => true,
        };
        if !is_right || !is_given(alloc, script, machine, Given::Done) {
            return false;
        }
    }
    asks_this(alloc, script, machine, Asks::Exit)
}

/// Whether its bytes are cut after 8192, the last two of which are these.
fn is_cut(request: &Request) -> bool {
    match request {
        Request::Write { bytes, .. } => bytes.slice().get(8190..) == Some(b"xa".as_slice()),
        _ => false,
    }
}

fn writes_cut(alloc: Global, script: &Script, machine: &Machine) -> bool
    requires { IsMachine script.now machine.now }
{
    matches!(machine.next(alloc, script), Ok(request) if is_cut(&request))
}

#[derive(Clone, Copy)]
enum Long {
    Loops,
    Data,
}

fn is_right_thread(alloc: Global, script: &Script, long: Long) -> bool {
    if script.thread_list().is_empty() {
        return false;
    }
    match Machine::new(alloc, script, Tid(1)) {
        Ok(mut machine) => match long {
            Long::Loops => closes(alloc, script, &mut machine),
            Long::Data => writes_cut(alloc, script, &machine),
        },
        Err(_) => false,
    }
}

fn is_right(alloc: Global, text: &str, long: Long) -> bool {
    if text.len() >= 4_000_000_000 {
        return false;
    }
    match parse(alloc, text.as_bytes()) {
        Ok(script) => is_right_thread(alloc, &script, long),
        Err(_) => false,
    }
}

#[test]
fn loops_eight_deep(rt: HostRuntime) -> Result<(), Fail> {
    assert!(rt; is_right(rt.alloc(), EIGHT_DEEP, Long::Loops));
    Ok(())
}

#[test]
fn long_data_is_cut(rt: HostRuntime) -> Result<(), Fail> {
    let text = "doors script 1\nprocess a\nthread t\nwrite 1 fill:8191 + \"ab\" + fill:8192\nend\n";
    assert!(rt; is_right(rt.alloc(), text, Long::Data));
    Ok(())
}

fn needs_send<T: Send>() {}

/// A machine may go to another thread.
#[test]
fn machine_is_send() {
    needs_send::<Machine>();
}
