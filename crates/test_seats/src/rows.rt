//! One host thread with two seats: each reply, and after each call the length of the history and the calls of its seat.
use crate::caller::{Caller, is_replied};
use crate::calls::{Asks, Came, Gives};
use crate::plan::Who;

/// A server thread and a client thread: a call, and what it is replied.
static ROWS: [(Who, Asks, Gives); 10] = [
    (Who::Server, Asks::Create, Gives::NewFd(0)),
    (Who::Server, Asks::Attach(0), Gives::Done),
    (Who::Server, Asks::Serve, Gives::Wait),
    (Who::Client, Asks::Open(0), Gives::NewFd(0)),
    (Who::Client, Asks::Call(0), Gives::WaitFirstCall),
    (Who::Client, Asks::Cred, Gives::NotRunningInFirstCall),
    (Who::Client, Asks::GoOn, Gives::NotReady),
    (Who::Server, Asks::GoOn, Gives::Entered),
    (Who::Server, Asks::Answer, Gives::Wait),
    (Who::Client, Asks::GoOn, Gives::Results),
];

/// Whether the history has so many entries, and a seat has made so many calls.
fn has<C: Caller>(caller: &mut C, entries: u64, calls: u32) -> bool {
    caller.seen() == entries && caller.calls() == calls
}

/// Whether a call is replied as it is written, at once or at the second try, and is the next of the history and of its seat. The first try is
/// counted where it was entered, and made no entry.
fn is_next<C: Caller>(caller: &mut C, asks: Asks, gives: Gives, before: u64) -> bool {
    let entries = before.wrapping_add(1);
    let calls = caller.calls();
    let again = match caller.acts(asks, gives) {
        Came::AsWritten => return has(caller, entries, calls.wrapping_add(1)),
        Came::NoMemory => calls.wrapping_add(1),
        Came::NotAsked => calls,
        Came::Otherwise => return false,
    };
    has(caller, before, again)
        && is_replied(caller, asks, gives)
        && has(caller, entries, again.wrapping_add(1))
}

/// Whether all rows go as they are written, where so many calls may find no memory.
pub fn are_right<C: Caller>(server: &mut C, client: &mut C, wanting: u32) -> bool {
    let mut done = 0u64;
    for (who, asks, gives) in &ROWS {
        let right = match who {
            Who::Server => is_next(server, *asks, *gives, done),
            Who::Client => is_next(client, *asks, *gives, done),
        };
        if !right {
            return false;
        }
        done = done.wrapping_add(1);
    }
    done == 10 && server.calls().wrapping_add(client.calls()) <= wanting.wrapping_add(10)
}
