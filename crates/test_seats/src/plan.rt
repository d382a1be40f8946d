//! What each of eight host threads does with the two seats of a process. It makes a door at the process's path; then 2,000 times it calls the next
//! process's door, whose descriptor is 1, serves a call of its own door, and collects the results.

use crate::calls::{Asks, Gives};

#[derive(Clone, Copy)]
pub enum Who {
    Server,
    Client,
}

/// The calls of each: a round to begin with, and 2,000 more.
pub const CALLS: u64 = 8_004;

/// A call of a seat, and what it is replied. It waits until the process so many further has made so many calls.
#[derive(Clone, Copy)]
pub struct Step {
    pub who: Who,
    pub asks: Asks,
    pub gives: Gives,
    pub of: u64,
    pub made: u64,
}

/// The rows of a round: a step, of whom it waits for calls, and for how many of this round.
type Row = (Who, Asks, Gives, u64, u64);

/// The first round. Paths are those of the process and of the next one.
static BEGINS: [Row; 4] = [
    (Who::Server, Asks::Create, Gives::NewFd(0), 0, 0),
    (Who::Server, Asks::Attach(0), Gives::Done, 0, 0),
    (Who::Server, Asks::Serve, Gives::Wait, 0, 0),
    (Who::Client, Asks::Open(1), Gives::NewFd(1), 1, 3),
];

/// All further rounds.
static ROUND: [Row; 4] = [
    (Who::Client, Asks::Call(1), Gives::WaitCall, 0, 0),
    (Who::Server, Asks::GoOn, Gives::Entered, 7, 1),
    (Who::Server, Asks::Answer, Gives::Wait, 0, 0),
    (Who::Client, Asks::GoOn, Gives::Results, 1, 3),
];

/// The call of a thread of this process after so many.
pub fn step_at(process: u64, calls: u64) -> Step {
    let rows = if calls < 4 { &BEGINS } else { &ROUND };
    let (who, asks, gives, of, in_round) = rows[(calls % 4) as usize];
    Step {
        who,
        asks: placed(asks, process),
        gives,
        of,
        made: in_round.wrapping_add(calls / 4 * 4),
    }
}

/// The same, of paths counted from the process's own.
fn placed(asks: Asks, process: u64) -> Asks {
    match asks {
        Asks::Attach(path) => Asks::Attach(further(process, path)),
        Asks::Open(path) => Asks::Open(further(process, path)),
        _ => asks,
    }
}

/// The path of the process so many further.
fn further(process: u64, path: u32) -> u32 {
    (process.wrapping_add(path as u64) % 8) as u32
}
