//! The numbers by which C is told of threads and of refusals.
ghost use Rattle.std.specs.Prelude.{◌≡◌};
ghost use Rattle.kernel_chronicle.specs.Statuses.{refusal_number, state_number, turn_number, unopened_number};

use crate::refusal::{Refusal, Unopened};
use spec_records::record::ThreadState;

/// Memory lacks.
pub const NO_MEMORY: u32 = 5;

/// A buffer is smaller than its room.
pub const NO_ROOM: u32 = 6;

/// A reason's number is added to this.
pub const BAD: u32 = 16;

pub fn number_of_state(state: &ThreadState) -> u32
    ensures { result ≡ state_number state.now }
{
    match state {
        ThreadState::Dormant => 1,
        ThreadState::Running => 2,
        ThreadState::Idle { .. } => 3,
        ThreadState::Given { .. } => 4,
        ThreadState::Calling { .. } => 5,
        ThreadState::Getting { .. } => 6,
        ThreadState::Awaiting { .. } => 7,
        ThreadState::Working { .. } => 8,
        ThreadState::FailedReturn => 9,
        ThreadState::Done => 10,
    }
}

fn number_of_refusal(refusal: Refusal) -> u32
    ensures { result ≡ refusal_number refusal }
{
    match refusal {
        Refusal::Full => 1,
        Refusal::NotRunning => 2,
        Refusal::NotReady => 3,
        Refusal::NotFit => 4,
        Refusal::NoMemory => 5,
    }
}

pub fn number_of_turn(turn: Result<(), Refusal>) -> u32
    ensures { result ≡ turn_number turn }
{
    match turn {
        Ok(()) => 0,
        Err(refusal) => number_of_refusal(refusal),
    }
}

pub fn number_of_unopened(why: Unopened) -> u32
    ensures { result ≡ unopened_number why }
{
    match why {
        Unopened::NoMemory => 5,
        Unopened::NoRoom => 6,
        Unopened::NoOpening => 7,
    }
}
