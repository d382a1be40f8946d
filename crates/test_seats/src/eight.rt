//! Eight host threads that act at the same time, each with the two seats of a process.
ghost use Rattle.std.specs.Prelude.{◌≡◌, ◌<◌};

use crate::caller::{Caller, is_replied};
use crate::plan::{CALLS, Who, step_at};
use dk_base::number::Tid;
use std::alloc::Global;
use std::sync::Wait;
use std::sync::atomic::{AtomicU64, Ordering};
use std::thread::{self, Threads};

/// How often a host thread looks in vain before it gives up.
const LOOKS: u32 = 1_000_000;

/// How many calls each process has made, by which host threads wait for one another.
#[derive(Drop)]
struct Made {
    of: [AtomicU64; 8],
}

fn none() -> Made {
    Made {
        of: [
            AtomicU64::new(0),
            AtomicU64::new(0),
            AtomicU64::new(0),
            AtomicU64::new(0),
            AtomicU64::new(0),
            AtomicU64::new(0),
            AtomicU64::new(0),
            AtomicU64::new(0),
        ],
    }
}

/// Looks until a word is so much or more, and sleeps between two looks.
fn reaches<R: Wait>(rt: &R, word: &AtomicU64, count: u64) -> bool {
    for _ in 0..LOOKS {
        let found = word.load(Ordering::SeqCst);
        if found >= count {
            return true;
        }
        word.park(rt, (found & 0xffff_ffff) as u32);
    }
    false
}

fn rings(word: &AtomicU64) {
    word.fetch_add(1, Ordering::SeqCst);
    word.wake_all();
}

/// All calls of each process, 64,032 together.
static ALL: [u64; 8] = [CALLS; 8];

/// The seats of a process.
#[derive(Drop)]
struct Pair<C> {
    server: C,
    client: C,
    process: u64,
}

/// How many calls of a pair are replied as they are written.
fn right_calls<R: Wait, C: Caller>(rt: &R, all: &Made, pair: &mut Pair<C>) -> u64 {
    let process = pair.process;
    for made in 0..CALLS {
        let step = step_at(process, made);
        if !reaches(
            rt,
            &all.of[(process.wrapping_add(step.of) % 8) as usize],
            step.made,
        ) {
            return made;
        }
        let caller = match step.who {
            Who::Server => &mut pair.server,
            Who::Client => &mut pair.client,
        };
        if !is_replied(caller, step.asks, step.gives) {
            return made;
        }
        rings(&all.of[(process % 8) as usize]);
    }
    CALLS
}

/// The pair of a process. The clients have the last threads.
fn seated_pair<C: Caller + Drop>(first: &mut C, process: u32) -> Option<Pair<C>>
    requires process { process < 8 }
    requires threads { C.threads ≡ 16 }
{
    let server = first.split(Tid(process + 1))?;
    let client = first.split(Tid(process + 9))?;
    Some(Pair {
        server,
        client,
        process: process as u64,
    })
}

/// Whether there are pairs for all processes, and memory for them.
fn are_made<C: Caller + Drop>(first: &mut C, pairs: &mut Vec<Pair<C>>) -> bool
    requires threads { C.threads ≡ 16 }
{
    for process in 0..8u32 {
        let Some(pair) = seated_pair(first, process) else {
            return false;
        };
        if pairs.push(pair).is_err() {
            return false;
        }
    }
    true
}

/// Whether all calls of all are replied as they are written.
fn all_are_right<R: Threads + Wait + Sync, C: Caller + Send + Drop>(
    rt: &R,
    all: &Made,
    pairs: Vec<Pair<C>>,
) -> bool {
    match thread::map_vec(
        rt,
        pairs,
        &|mut pair: Pair<C>| right_calls(rt, all, &mut pair),
    ) {
        Ok(right) => right.as_slice() == ALL.as_slice(),
        Err(_) => false,
    }
}

/// Whether eight processes make 64,032 calls, each as it is written.
pub fn are_right<R: Threads + Wait + Sync, C: Caller + Send + Drop>(
    rt: &R,
    alloc: Global,
    first: &mut C,
) -> bool
    requires threads { C.threads ≡ 16 }
{
    let mut pairs = Vec::new(alloc);
    are_made(first, &mut pairs) && all_are_right(rt, &none(), pairs) && first.seen() == 64_032
}
