//! Timers that have a moment to come, and what a clock makes of them.
ghost use Rattle.std.specs.Prelude.{◌≡◌, ◌+◌, ◌≤◌, ◌++◌, length, map};
ghost use Rattle.dk_base.specs.declared.limits.TheConstants.{CLOCK_LAST};
ghost use Rattle.timer_src.specs.Pending.{due_pending, next_from, stepped, ticks, told};

use dk_base::list::Room;
use spec_records::timer::{Due, Tag};

/// A timer with its next moment.
#[derive(Clone, Copy)]
pub struct Pending {
    pub number: u32,
    pub process: u32,
    pub id: u32,
    pub port: u32,
    pub user: u64,
    pub next: u64,
    pub interval: u32,
}

/// How many of the moments from `next` on do not come after a clock.
fn ticks(next: u64, interval: u32, clock: u64) -> u64
    requires { clock ≤ CLOCK_LAST }
    ensures count { result ≡ ticks next interval clock }
    ensures few { result ≤ clock + 1 }
{
    if next > clock {
        0
    } else if interval == 0 {
        1
    } else {
        (clock - next) / interval as u64 + 1
    }
}

/// The first of the moments from `next` on that comes after a clock; `next` itself where there is but that one.
fn next_from(next: u64, interval: u32, clock: u64) -> u64
    requires { clock ≤ CLOCK_LAST }
    ensures { result ≡ next_from next interval clock }
{
    if next > clock || interval == 0 {
        next
    } else {
        next + ((clock - next) / interval as u64 + 1) * interval as u64
    }
}

/// What is told of one whose next moment the clock has reached.
fn due_pending(p: Pending, clock: u64) -> Due
    requires { clock ≤ CLOCK_LAST }
    ensures { result ≡ due_pending clock p }
{
    Due {
        tag: Tag {
            port: p.port,
            number: p.number,
        },
        id: p.id,
        count: ticks(p.next, p.interval, clock) as u32,
        user: p.user,
    }
}

/// What is told of those whose next moment the clock has reached follows, in order, what is in `into`. It takes no memory.
pub fn tell(pendings: &[Pending], clock: u64, into: &mut Room<Due>)
    requires late { clock ≤ CLOCK_LAST }
    requires room { length pendings.now ≤ into.old.spare }
    ensures told { into.new.items ≡ into.old.items ++ told clock pendings.now }
    ensures places { length into.old.items + into.old.spare ≤ length into.new.items + into.new.spare }
{
    for p in pendings {
        if p.next <= clock {
            into.push(due_pending(*p, clock));
        }
    }
}

/// Each has its first moment after the clock as its next one, if there is one.
pub fn step(pendings: &mut [Pending], clock: u64)
    requires { clock ≤ CLOCK_LAST }
    ensures { pendings.new ≡ map (stepped clock) pendings.old }
{
    for p in pendings.iter_mut() {
        p.next = next_from(p.next, p.interval, clock);
    }
}
