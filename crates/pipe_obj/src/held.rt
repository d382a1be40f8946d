//! What depends on how many bytes a pipe holds, and on the references of its other end, alone.
ghost use Rattle.std.specs.Prelude.{◌≡◌, ℕ, List, length};
ghost use Rattle.spec_records.specs.Words.{events_where, first_refusal, read_tests, ready_in, ready_out, write_tests};

use dk_base::error::Errno;
use dk_base::limits::PIPE_MAX;
use dk_base::set::PollSet;

/// write(2): EPIPE without a reference to the reading end, EAGAIN for some bytes where the pipe is full.
pub fn write_refusal(held: usize, bytes: &[u8], readers: u64) -> Option<Errno>
    ensures { (xs : List ℕ) → length xs ≡ held → result ≡ first_refusal (write_tests xs bytes.now readers) }
{
    if readers == 0 {
        return Some(Errno::EPIPE);
    }
    if !bytes.is_empty() && held >= PIPE_MAX {
        return Some(Errno::EAGAIN);
    }
    None
}

/// read(2): EAGAIN where nothing is held and the writing end has a reference.
pub fn read_refusal(held: usize, writers: u64) -> Option<Errno>
    ensures { (xs : List ℕ) → length xs ≡ held → result ≡ first_refusal (read_tests xs writers) }
{
    if held == 0 && writers > 0 {
        Some(Errno::EAGAIN)
    } else {
        None
    }
}

fn events_where(holds: bool, events: PollSet) -> u32
    ensures { result ≡ events_where holds events }
{
    if holds { events.0 } else { 0 }
}

/// What the reading end is ready for (poll(2)).
pub fn ready_in(held: usize, writers: u64) -> PollSet
    ensures { (xs : List ℕ) → length xs ≡ held → result ≡ ready_in xs writers }
{
    let readable = events_where(held > 0, PollSet::IN);
    let hung_up = events_where(writers == 0, PollSet::HUP);
    PollSet(readable | hung_up)
}

/// What the writing end is ready for (poll(2)).
pub fn ready_out(held: usize, readers: u64) -> PollSet
    ensures { (xs : List ℕ) → length xs ≡ held → result ≡ ready_out xs readers }
{
    let writable = events_where(held < PIPE_MAX && readers > 0, PollSet::OUT);
    let broken = events_where(readers == 0, PollSet::ERR);
    PollSet(writable | broken)
}
