//! All seats, and all calls of a seat.
ghost use Rattle.std.specs.Prelude.{◌≤◌};

use crate::caller::{Caller, is_replied};
use crate::calls::{Asks, Gives};
use dk_base::number::Tid;
use seat_api::limits::{CALLS_MAX, SEATS_MAX};

/// How many seats are split off until there are as many as there can be. Each enters the kernel: its thread has no client.
fn split_all<C: Caller + Drop>(first: &mut C) -> u32
    requires threads { 1 ≤ C.threads }
{
    for made in 0..SEATS_MAX {
        let Some(mut other) = first.split(Tid(1)) else {
            return made;
        };
        if !is_replied(&mut other, Asks::Cred, Gives::Failure) {
            return made;
        }
    }
    SEATS_MAX
}

/// How many calls a seat makes until it has none left: it goes on from no wait.
fn call_all<C: Caller>(caller: &mut C) -> u32 {
    for made in 0..CALLS_MAX {
        if !is_replied(caller, Asks::GoOn, Gives::NotReady) {
            return made;
        }
    }
    CALLS_MAX
}

/// Whether the first of two seats splits off 62, and no more, and then makes 10,000 calls, and no more.
pub fn are_reached<C: Caller + Drop>(first: &mut C) -> bool
    requires threads { 1 ≤ C.threads }
{
    split_all(first) == 62
        && first.seats_made() == 64
        && call_all(first) == 10_000
        && first.calls() == 10_000
        && first.seen() == 10_062
}
