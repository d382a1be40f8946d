//! Runs whose turns several threads take: how they end, and who has arrived.

use crate::on_threads::{Besides, Expected, reaches, run_is};
use dk_base::number::Tid;
use dk_base::outside::{Gate, NoGate};
use spec_requests::ending::Ending;
use std::alloc::{AllocError, Global};
use std::process::Abort;
use std::sync::Wait;
use std::sync::atomic::{AtomicU64, Ordering};
use std::test::Fail;
use std::thread::Threads;

const CALLS: &str =
    "doors script 1\nprocess srv\nthread s\n create d shout 1\n attach $d shout\n serve\nend\nthread u\n serve\nend\nproc shout\n return $arg\nend\nprocess cli\nthread k1\n await shout\n open d shout\n call r $d \"one\"\nend\nthread k2\n await shout\n open d shout\n call r $d \"two\"\nend\n";

/// The third thread forks the process of the fourth.
const CHILD: &str =
    "doors script 2\nprocess o\nthread x\n pipe r w\nend\nthread y\n pipe r w\nend\nprocess par\nthread a\n fork kid\nend\nchild kid of par\nthread k\n pipe r w\nend\n";

const FIRST_CLIENT: Tid = Tid(3);

const SECOND_CLIENT: Tid = Tid(4);

/// A run of so many threads that ends so, all of whose turns their drivers take.
fn ends(ending: Ending, threads: usize) -> Expected {
    Expected {
        ending,
        threads,
        besides: Besides::NoTail,
    }
}

/// Two clients, of which one or both are held until the other has arrived.
#[derive(Drop)]
struct Meeting {
    both: bool,
    first: AtomicU64,
    second: AtomicU64,
    failed: AtomicU64,
}

impl Meeting {
    fn new(both: bool) -> Self {
        Meeting {
            both,
            first: AtomicU64::new(0),
            second: AtomicU64::new(0),
            failed: AtomicU64::new(0),
        }
    }

    /// Looks until the other has arrived, unless it once failed to come.
    fn wait(&self, word: &AtomicU64) {
        if self.failed.load(Ordering::SeqCst) == 0 && !reaches(word, 1) {
            self.failed.store(1, Ordering::SeqCst);
        }
    }
}

impl Gate for Meeting {
    fn pass(&self, t: Tid) {
        if t == FIRST_CLIENT {
            self.first.store(1, Ordering::SeqCst);
            self.wait(&self.second);
        }
        if t == SECOND_CLIENT {
            self.second.store(1, Ordering::SeqCst);
            if self.both {
                self.wait(&self.first);
            }
        }
    }
}

fn third_and_fourth_meet<R: Abort + Threads + Wait + Sync>(
    rt: &R,
    alloc: Global,
    text: &str,
    gate: &Meeting,
) {
    let is_right = run_is(rt, alloc, text, gate, u32::MAX, ends(Ending::Complete, 4));
    assert!(rt; is_right, "the run is whole");
    assert!(rt; gate.failed.load(Ordering::SeqCst) == 0, "the two met");
}

/// One client is held until the other has passed, and both are held until the other has arrived.
#[test]
fn clients_run_at_once(rt: HostRuntime) -> Result<(), Fail> {
    third_and_fourth_meet(&rt, rt.alloc(), CALLS, &Meeting::new(false));
    third_and_fourth_meet(&rt, rt.alloc(), CALLS, &Meeting::new(true));
    Ok(())
}

/// A process is held before it forks until the driver of its child's thread has arrived, which waits until that thread runs.
#[test]
fn a_child_is_driven_once_it_runs(rt: HostRuntime) -> Result<(), Fail> {
    third_and_fourth_meet(&rt, rt.alloc(), CHILD, &Meeting::new(false));
    Ok(())
}

/// The calling thread drives those whose start was refused, and takes no other turn.
#[test]
fn refused_starts_are_driven(rt: HostRuntime) -> Result<(), Fail> {
    let expected = Expected {
        ending: Ending::Complete,
        threads: 4,
        besides: Besides::DrivesRefused,
    };
    for most in 0..5u32 {
        let is_right = run_is(&rt, rt.alloc(), CALLS, &NoGate, most, expected);
        assert!(rt; is_right, "with {most} it drove the others alone");
    }
    Ok(())
}

fn add_thread(text: &mut String, alloc: Global, n: u32) -> Result<(), AllocError> {
    let thread = format!(in alloc; "thread t{n}\n open d x\nend\n")?;
    text.push_str(thread.as_str())
}

/// As many threads as there may be, of which each takes two turns.
fn add_threads(text: &mut String, alloc: Global) -> Result<(), AllocError> {
    text.push_str("doors script 1\nprocess p\n")?;
    for n in 0..64u32 {
        add_thread(text, alloc, n)?;
    }
    Ok(())
}

fn wide_run_is_whole<R: Threads + Wait + Sync>(rt: &R, alloc: Global) -> bool {
    let mut text = String::new(alloc);
    add_threads(&mut text, alloc).is_ok()
        && run_is(
            rt,
            alloc,
            text.as_str(),
            &NoGate,
            u32::MAX,
            ends(Ending::Complete, 64),
        )
}

#[test]
fn many_threads_run(rt: HostRuntime) -> Result<(), Fail> {
    let is_right = wide_run_is_whole(&rt, rt.alloc());
    assert!(rt; is_right, "64 threads");
    Ok(())
}

#[test]
fn many_runs_are_whole(rt: HostRuntime) -> Result<(), Fail> {
    let expected = ends(Ending::Complete, 4);
    for _ in 0..200 {
        let is_right = run_is(&rt, rt.alloc(), CALLS, &NoGate, u32::MAX, expected);
        assert!(rt; is_right, "the run is whole");
    }
    Ok(())
}

/// A script whose run is over at once, one that waits for ever, and one that its budget ends.
static SHORT: [(&str, Ending, usize); 3] = [
    ("doors script 1\n", Ending::Complete, 0),
    (
        "doors script 1\nprocess p\nthread w\n await x\nend\nthread i\nend\n",
        Ending::Stalled,
        2,
    ),
    (
        "doors script 1\nbudget 1\nprocess p\nthread w\n await x\nend\nthread i\nend\n",
        Ending::Budget,
        2,
    ),
];

#[test]
fn short_runs_end(rt: HostRuntime) -> Result<(), Fail> {
    for (text, ending, threads) in &SHORT {
        let expected = ends(*ending, *threads);
        let is_right = run_is(&rt, rt.alloc(), text, &NoGate, u32::MAX, expected);
        assert!(rt; is_right, "{text}");
    }
    Ok(())
}
