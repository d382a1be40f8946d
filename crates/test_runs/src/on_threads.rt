//! Whole runs, and what is to be so of them. `run_is` alone owns a run; all else borrows it.

use dk_base::answer::Answer;
use dk_base::error::NoMemory;
use dk_base::event::Event;
use dk_base::number::Tid;
use dk_base::outside::Gate;
use kernel_lock::run::{Ran, run_threads, run_threads_on};
use script_lang::parse::parse;
use script_lang::script::Script;
use spec_requests::ending::Ending;
use std::alloc::Global;
use std::sync::Wait;
use std::sync::atomic::{AtomicU64, Ordering};
use std::thread::Threads;

/// How a run is to end.
#[derive(Clone, Copy)]
pub(crate) struct Expected {
    pub ending: Ending,
    pub threads: usize,
    pub besides: Besides,
}

/// What is to be so of it besides.
#[derive(Clone, Copy)]
pub(crate) enum Besides {
    /// The calling thread took no turn.
    NoTail,
    /// The calling thread drove those of the four that were not started, and took no other turn.
    DrivesRefused,
    /// There are so many events, and each worker's task gave what it is to give.
    Gives { events: u32 },
    /// The first thread took so many turns, the second so many, and the calling thread none.
    Takes { first: u64, second: u64 },
}

/// What each worker's task gives.
static OUTPUTS: [&str; 4] = [
    "AB1",
    "cba",
    "294",
    "ba7816bf8f01cfea414140de5dae2223b00361a396177a9cb410ff61f20015ad",
];

/// How often a gate looks before it fails.
const LOOKS: u32 = 200_000_000;

/// Looks until a word is so much or more. False where it never was.
pub(crate) fn reaches(word: &AtomicU64, count: u64) -> bool {
    for _ in 0..LOOKS {
        if word.load(Ordering::SeqCst) >= count {
            return true;
        }
    }
    false
}

fn sum_of(counts: &[u64]) -> u64 {
    let mut sum: u64 = 0;
    for count in counts {
        sum = sum.wrapping_add(*count);
    }
    sum
}

fn turns_of(events: &[Event], t: Tid) -> u64 {
    let mut turns: u64 = 0;
    for event in events {
        if event.thread == t {
            turns = turns.wrapping_add(1);
        }
    }
    turns
}

/// Whether the driver of each of the first `started` threads took that thread's turns and no others, and the other drivers none.
fn are_own_turns(by: &[u64], events: &[Event], started: u32) -> bool {
    let mut t: u32 = 0;
    for turns in by {
        t = t.wrapping_add(1);
        let own = if t <= started {
            turns_of(events, Tid(t))
        } else {
            0
        };
        if *turns != own {
            return false;
        }
    }
    true
}

/// Whether a run of so many threads ended so, and all its turns are counted.
fn ends(ran: &Ran, ending: Ending, threads: usize, started: u32) -> bool {
    ran.sys.over()
        && ran.sys.ending() == ending
        && ran.by.len() == threads
        && are_own_turns(ran.by.slice(), ran.sys.journal(), started)
        && sum_of(ran.by.slice()).wrapping_add(ran.tail) == ran.sys.events() as u64
}

/// Whether the calling thread took all turns where none was started and none where all four were, and the third thread had turns of
/// its own where it was started.
fn drives_refused(by: &[u64], tail: u64, events: u32, started: u32) -> bool {
    by.len() == 4
        && (started == 0) == (tail == events as u64)
        && (started >= 3) == (by[2] != 0)
        && (started == 4) == (tail == 0)
}

/// Whether a thread's task is done, and gave this.
fn gives(events: &[Event], t: u32, output: &str) -> bool {
    for event in events {
        if let Answer::Data { bytes } = &event.answer {
            if event.thread == Tid(t) {
                return bytes.slice() == output.as_bytes();
            }
        }
    }
    false
}

/// Whether each worker's task gave what it is to give.
fn all_give(events: &[Event]) -> bool {
    let mut t: u32 = 0;
    for output in &OUTPUTS {
        t = t.wrapping_add(1);
        if !gives(events, t, output) {
            return false;
        }
    }
    true
}

fn is_besides(ran: &Ran, most: u32, besides: Besides) -> bool {
    match besides {
        Besides::NoTail => ran.tail == 0,
        Besides::DrivesRefused => {
            drives_refused(ran.by.slice(), ran.tail, ran.sys.events(), most)
        }
        Besides::Gives { events } => ran.sys.events() == events && all_give(ran.sys.journal()),
        Besides::Takes { first, second } => {
            ran.by.slice() == [first, second].as_slice() && ran.tail == 0
        }
    }
}

fn script_of(alloc: Global, text: &str) -> Option<Script> {
    if text.len() >= 4_000_000_000 {
        return None;
    }
    match parse(alloc, text.as_bytes()) {
        Ok(script) => Some(script),
        Err(_) => None,
    }
}

/// A run of which at most so many threads are started, if they are limited.
fn run<G: Gate + Sync, R: Threads + Wait + Sync>(
    rt: &R,
    alloc: Global,
    script: Script,
    gate: &G,
    most: u32,
) -> Result<Ran, NoMemory> {
    if most == u32::MAX {
        run_threads(rt, alloc, script, gate)
    } else {
        run_threads_on(rt, alloc, script, gate, most)
    }
}

/// Whether a run of this text, of which at most so many threads are started, is as expected.
pub(crate) fn run_is<G: Gate + Sync, R: Threads + Wait + Sync>(
    rt: &R,
    alloc: Global,
    text: &str,
    gate: &G,
    most: u32,
    expected: Expected,
) -> bool {
    let Some(script) = script_of(alloc, text) else {
        return false;
    };
    match run(rt, alloc, script, gate, most) {
        Ok(ran) => {
            ends(&ran, expected.ending, expected.threads, most)
                && is_besides(&ran, most, expected.besides)
        }
        Err(_) => false,
    }
}
