//! `seat_example`: an event loop and two workers, each a thread of the host that acts as a thread of the kernel by its seat. The loop
//! takes what the workers send to its port, and what is printed is the same whatever the order.
#![tactic(auto)]

ghost use Rattle.std.specs.Prelude.{◌≡◌, ◌+◌, ◌≤◌, IfOk, length};
ghost use Rattle.seat_api.specs.declared.limits.TheConstants.{CALLS_MAX};

use dk_base::answer::Answer;
use dk_base::error::NoMemory;
use dk_base::list::IdList;
use dk_base::number::{Fd, Pid, Tid};
use dk_base::request::Request;
use kernel_core::kernel::Kernel;
use seat_api::entry::SeatReply;
use seat_api::kernel::Answers;
use seat_api::opening::Opening;
use seat_api::seats::{Seat, Seats};
use std::alloc::Global;
use std::io;
use std::marker::Brand;
use std::mem::drop;
use std::sync::Wait;
use std::sync::atomic::{AtomicU64, Ordering};
use std::thread::{Threads, join};

/// How many events a worker sends.
const EVENTS: u64 = 100;

/// The port. All threads are of one process, which has no other descriptor.
const PORT: Fd = Fd(0);

/// A kernel of one process with three threads.
fn one_process(alloc: Global) -> Result<Kernel, NoMemory>
    ensures no_event { IfOk result (λ k. k.events ≡ 0) }
    ensures threads { IfOk result (λ k. length k.process_table.threads ≡ 3) }
{
    let descriptors = IdList::from_slice(alloc, &[8])?;
    let mut kernel = Kernel::new(alloc, &descriptors)?;
    add_threads(&mut kernel)?;
    Ok(kernel)
}

fn add_threads(kernel: &mut Kernel) -> Result<(), NoMemory>
    requires no_event { kernel.old.events ≡ 0 }
    requires process { 1 ≤ length kernel.old.process_table.processes }
    requires threads { length kernel.old.process_table.threads ≡ 0 }
    ensures no_event { kernel.new.events ≡ 0 }
    ensures threads { IfOk result (λ _. length kernel.new.process_table.threads ≡ 3) }
{
    for _ in 0..3u32 {
        if kernel.add_thread(Pid(1), false).is_err() {
            return Err(NoMemory);
        }
    }
    Ok(())
}

/// Tells the loop of one event more, since the kernel wakes its own thread alone and not the host's.
fn ring(bell: &AtomicU64) {
    bell.fetch_add(1, Ordering::SeqCst);
    bell.wake_all();
}

/// Sleeps until the bell was rung more often than this.
fn wait_past<R: Wait>(rt: &R, bell: &AtomicU64, count: u64) {
    for _ in rt.forever() {
        let rung = bell.load(Ordering::SeqCst);
        if rung > count {
            return;
        }
        bell.park(rt, (rung & 0xffff_ffff) as u32);
    }
    unreachable!()
}

/// What a thread of the host does.
trait Work {
    /// What it comes to.
    type Output;

    /// That it may begin.
    ghost ready: { Self → Type 0 };

    fn run(self) -> Self::Output
        requires { ready self };
}

/// The loop and both workers at once. Where there is no thread for the first of two, `join` runs it last: so the loop, which waits for the
/// workers, is the first.
fn run_all<
    R: Threads,
    L: Work<Output = [u64; 2]> + Send + Drop,
    W: Work<Output = ()> + Send + Drop,
>(rt: &R, taker: L, first: W, second: W) -> [u64; 2]
    requires { L.ready taker × W.ready first × W.ready second }
{
    let (counts, _) = join(
        rt,
        || -> [u64; 2]
            requires { L.ready taker }
        { taker.run() },
        || -> ()
            requires { W.ready first × W.ready second }
        { run_both(rt, first, second) },
    );
    counts
}

/// Both workers at once.
fn run_both<R: Threads, W: Work<Output = ()> + Send + Drop>(rt: &R, first: W, second: W)
    requires { W.ready first × W.ready second }
{
    join(
        rt,
        || -> ()
            requires { W.ready first }
        { first.run() },
        || -> ()
            requires { W.ready second }
        { second.run() },
    );
}

/// A worker sends its events, which carry 0, 1, 2 and so on.
#[derive(Drop)]
struct Worker<'a, R, J: Opening, K: Answers> {
    rt: &'a R,
    seats: &'a Seats<J, K>,
    bell: &'a AtomicU64,
    seat: Seat<J, K>,
    number: u32,
}

impl<'a, R: Wait, J: Opening, K: Answers> Work for Worker<'a, R, J, K> {
    type Output = ();

    ghost ready = { λ w. (w.seat.table ≡ w.seats.now) × (w.seat.calls ≡ 0) };

    fn run(self) {
        let Worker {
            rt,
            seats,
            bell,
            mut seat,
            number,
        } = self;
        for user in 0..EVENTS {
            let send = Request::Send {
                port: PORT,
                events: number,
                user,
            };
            drop(seats.enter(rt, &mut seat, send));
            ring(bell);
        }
    }
}

fn is_wait(reply: &Result<SeatReply, NoMemory>) -> bool {
    matches!(reply, Ok(SeatReply::Answer(Answer::Wait)))
}

/// The next event, of which so many were taken. Where there is none yet the kernel's thread waits at the port, and the host's for the bell.
fn next<J: Opening, K: Answers, R: Wait>(
    rt: &R,
    seats: &Seats<J, K>,
    bell: &AtomicU64,
    seat: &mut Seat<J, K>,
    taken: u64,
) -> Result<SeatReply, NoMemory>
    requires own { seat.old.table ≡ seats.now }
    requires calls { seat.old.calls + 2 ≤ CALLS_MAX }
    ensures own { seat.new.table ≡ seats.now }
    ensures calls { seat.new.calls ≤ seat.old.calls + 2 }
{
    let get = Request::Get {
        port: PORT,
        wait: true,
    };
    let reply = seats.enter(rt, seat, get);
    if !is_wait(&reply) {
        return reply;
    }
    drop(reply);
    wait_past(rt, bell, taken);
    seats.go_on(rt, seat)
}

/// Counts an event that carries its worker's next number.
fn count_in_order(counts: &mut [u64; 2], reply: &Result<SeatReply, NoMemory>) {
    if let Ok(SeatReply::Answer(Answer::OneEvent(event))) = reply {
        if let Some(count) = counts.get_mut(event.events as usize) {
            if event.user == *count {
                *count = event.user.wrapping_add(1);
            }
        }
    }
}

/// The event loop takes all events, and counts those of each worker that came in their order.
#[derive(Drop)]
struct EventLoop<'a, R, J: Opening, K: Answers> {
    rt: &'a R,
    seats: &'a Seats<J, K>,
    bell: &'a AtomicU64,
    seat: Seat<J, K>,
}

impl<'a, R: Wait, J: Opening, K: Answers> Work for EventLoop<'a, R, J, K> {
    type Output = [u64; 2];

    ghost ready = { λ e. (e.seat.table ≡ e.seats.now) × (e.seat.calls ≤ 1) };

    fn run(self) -> [u64; 2] {
        let EventLoop {
            rt,
            seats,
            bell,
            mut seat,
        } = self;
        let mut counts = [0, 0];
        for taken in 0..2 * EVENTS {
            let reply = next(rt, seats, bell, &mut seat, taken);
            count_in_order(&mut counts, &reply);
            drop(reply);
        }
        counts
    }
}

/// How many events of each worker came in their order. The first seat makes the port, and splits off the workers'.
fn run_seats<R: Threads + Wait + Sync, J: Opening + Send + Sync, K: Answers + Send + Sync>(
    rt: &R,
    seats: &Seats<J, K>,
    mut taker: Seat<J, K>,
) -> [u64; 2]
    requires own { taker.table ≡ seats.now }
    requires first { (taker.number ≡ 0) × (taker.next ≡ 1) × (taker.calls ≡ 0) }
    requires threads { length J.opening.process_table.threads ≡ 3 }
{
    let bell = &AtomicU64::new(0);
    let first = Worker {
        rt,
        seats,
        bell,
        seat: seats.split(&mut taker, Tid(2)).unwrap(),
        number: 0,
    };
    let second = Worker {
        rt,
        seats,
        bell,
        seat: seats.split(&mut taker, Tid(3)).unwrap(),
        number: 1,
    };
    drop(seats.enter(rt, &mut taker, Request::PortCreate));
    let taker = EventLoop {
        rt,
        seats,
        bell,
        seat: taker,
    };
    run_all(rt, taker, first, second)
}

/// The program over a kernel K, whose state J names. None where there is no memory for the seats.
fn run<J: Opening + Send + Sync, K: Answers + Send + Sync, R: Threads + Wait + Sync>(
    rt: &R,
    alloc: Global,
    kernel: K,
) -> Option<[u64; 2]>
    requires opening { K.keeps kernel ≡ J.opening }
    requires no_event { (K.keeps kernel).events ≡ 0 }
    requires threads { length (K.keeps kernel).process_table.threads ≡ 3 }
{
    match Seats::<J, K>::new(alloc, kernel, Tid(1)) {
        Ok((seats, taker)) => Some(run_seats(rt, &seats, taker)),
        Err(_) => None,
    }
}

fn print<R: Print>(rt: &R, counts: [u64; 2]) -> io::Result<()> {
    let [first, second] = counts;
    println!(rt; "worker 1: {first} events in order\nworker 2: {second} events in order")
}

fn main(rt: HostRuntime) -> io::Result<()> {
    let alloc = rt.alloc();
    let counts = match one_process(alloc) {
        Ok(kernel) => run::<Brand, Kernel, _>(&rt, alloc, kernel),
        Err(NoMemory) => None,
    };
    match counts {
        Some(counts) => print(&rt, counts),
        None => Err(io::ErrorKind::OutOfMemory.into()),
    }
}
