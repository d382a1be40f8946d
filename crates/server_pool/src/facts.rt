//! What the pools answer.

use dk_base::number::Tid;
use dk_base::object::Item;

/// A parked thread with the item that it is given.
#[derive(Clone, Copy)]
pub struct Match {
    pub thread: Tid,
    pub item: Item,
}

/// What door_bind(3C) asks of a door: whether it is valid and private, and whether the thread's own process made it.
#[derive(Clone, Copy)]
pub struct BindFacts {
    pub valid: bool,
    pub is_private: bool,
    pub own: bool,
}
