//! Tasks of runs that several threads take: computed, and dropped.

use crate::on_threads::{Besides, Expected, reaches, run_is};
use dk_base::number::Tid;
use dk_base::outside::{Gate, NoGate};
use spec_requests::ending::Ending;
use std::alloc::Global;
use std::process::Abort;
use std::sync::Wait;
use std::sync::atomic::{AtomicU64, Ordering};
use std::test::Fail;
use std::thread::Threads;

const TASKS: &str =
    "doors script 1\nprocess p\nthread w1\n work v upper \"ab1\"\nend\nthread w2\n work v reverse \"abc\"\nend\nthread w3\n work v sum \"abc\"\nend\nthread w4\n work v digest \"abc\"\nend\n";

/// Each worker's task gives its output.
const COMPUTED: Expected = Expected {
    ending: Ending::Complete,
    threads: 4,
    besides: Besides::Gives { events: 12 },
};

/// The second kill is there so that the run goes on after the first.
const KILLED: &str =
    "doors script 1\nprocess p\nthread w\n work v upper \"a\"\nend\nprocess o\nthread k\n kill p\n kill p\nend\n";

/// The worker's task is dropped.
const DROPPED: Expected = Expected {
    ending: Ending::Complete,
    threads: 2,
    besides: Besides::Takes {
        first: 1,
        second: 3,
    },
};

const WORKER: Tid = Tid(1);

const KILLER: Tid = Tid(2);

/// A worker passes a gate before its first turn, before its task is lent, and then before it hands that in.
const HANDS_IN: u64 = 3;

/// One more pass of this gate: how many they are now.
fn count(passes: &AtomicU64) -> u64 {
    passes.fetch_add(1, Ordering::SeqCst).wrapping_add(1)
}

/// Workers that are held before they hand in until all four have computed.
#[derive(Drop)]
struct Workers {
    passes: [AtomicU64; 4],
    computed: AtomicU64,
    failed: AtomicU64,
}

impl Workers {
    fn new() -> Self {
        Workers {
            passes: [
                AtomicU64::new(0),
                AtomicU64::new(0),
                AtomicU64::new(0),
                AtomicU64::new(0),
            ],
            computed: AtomicU64::new(0),
            failed: AtomicU64::new(0),
        }
    }
}

impl Gate for Workers {
    fn pass(&self, t: Tid) {
        let Some(passes) = self.passes.get((t.0 as usize).wrapping_sub(1)) else {
            return;
        };
        if count(passes) == HANDS_IN {
            count(&self.computed);
            if !reaches(&self.computed, 4) {
                self.failed.store(1, Ordering::SeqCst);
            }
        }
    }
}

/// A worker that is held before it hands in until its process was killed, and a killer that is held until the worker has computed,
/// and then until it has dropped what it computed.
#[derive(Drop)]
struct Killing {
    worker: AtomicU64,
    killer: AtomicU64,
    failed: AtomicU64,
}

impl Killing {
    fn new() -> Self {
        Killing {
            worker: AtomicU64::new(0),
            killer: AtomicU64::new(0),
            failed: AtomicU64::new(0),
        }
    }

    /// Looks until the other has passed so often.
    fn wait(&self, passes: &AtomicU64, often: u64) {
        if !reaches(passes, often) {
            self.failed.store(1, Ordering::SeqCst);
        }
    }
}

impl Gate for Killing {
    fn pass(&self, t: Tid) {
        if t == WORKER && count(&self.worker) == HANDS_IN {
            self.wait(&self.killer, 2);
        }
        if t == KILLER {
            match count(&self.killer) {
                1 => self.wait(&self.worker, HANDS_IN),
                2 => self.wait(&self.worker, HANDS_IN + 1),
                _ => {}
            }
        }
    }
}

fn workers_meet<R: Abort + Threads + Wait + Sync>(rt: &R, alloc: Global, gate: &Workers) {
    let is_right = run_is(rt, alloc, TASKS, gate, u32::MAX, COMPUTED);
    assert!(rt; is_right, "each task gave its output");
    assert!(rt; gate.failed.load(Ordering::SeqCst) == 0, "the workers met");
}

/// Four workers are held until all have computed, so each has computed in a thread of its own and has not handed in.
#[test]
fn four_workers_compute_at_once(rt: HostRuntime) -> Result<(), Fail> {
    workers_meet(&rt, rt.alloc(), &Workers::new());
    Ok(())
}

/// The calling thread computes the tasks of those whose start was refused.
#[test]
fn refused_starts_compute(rt: HostRuntime) -> Result<(), Fail> {
    for most in 0..5u32 {
        let is_right = run_is(&rt, rt.alloc(), TASKS, &NoGate, most, COMPUTED);
        assert!(rt; is_right, "with {most} each task gave its output");
    }
    Ok(())
}

fn worker_is_killed<R: Abort + Threads + Wait + Sync>(rt: &R, alloc: Global, gate: &Killing) {
    let is_right = run_is(rt, alloc, KILLED, gate, u32::MAX, DROPPED);
    assert!(rt; is_right, "what was computed is dropped");
    assert!(rt; gate.failed.load(Ordering::SeqCst) == 0, "the two met");
}

/// A worker is killed after it has computed and before it hands in.
#[test]
fn killed_before_it_hands_in(rt: HostRuntime) -> Result<(), Fail> {
    worker_is_killed(&rt, rt.alloc(), &Killing::new());
    Ok(())
}
