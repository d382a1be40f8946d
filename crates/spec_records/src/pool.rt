//! Server pools, and what waits in them.
use dk_base::number::{Pid, Tid};
use dk_base::object::Item;

/// The threads that serve a door: a private door has a pool of its own, the other doors of a process share one
/// (door_create(3C), door_bind(3C)).
#[derive(Clone, Copy)]
pub enum Pool {
    Common(Pid),
    Private(u32),
}

/// No door has this number, so that door is never valid. A thread that begins in a child process, whose parent's thread was bound to a
/// door, is bound to it (door_bind(3C)).
pub const LOST_DOOR: u32 = 0;

/// An idle thread, where it is parked, and since which event.
#[derive(Clone, Copy)]
pub struct Parked {
    pub thread: Tid,
    pub pool: Pool,
    pub since: u64,
}

/// What waits for a thread, the event that made it, and its door.
#[derive(Clone, Copy)]
pub struct Waiting {
    pub item: Item,
    pub made: u64,
    pub door: u32,
}
