//! What a seat knows of the table. No value of these is made: they are the meaning of a seat, and take no memory.

use std::collections::LinkedList;

/// Whether a seat has a ticket, and how far it is with its turn.
pub enum Stage {
    /// It has none.
    Out,
    Waits(u64),
    Turn(u64),
    /// Its entry is appended.
    Told(u64),
}

pub struct View<E> {
    /// 1 for a seat, 0 for a note of what one has seen.
    pub sits: u64,
    pub number: u64,
    /// The number of the next seat, in the first seat's view, and 0 in the others.
    pub next: u64,
    pub stage: Stage,
    pub draws: u64,
    pub seen: LinkedList<E>,
    pub mine: LinkedList<E>,
    /// The whole history while the seat has the turn.
    pub whole: LinkedList<E>,
    /// What was joined last: the beginnings that two seats had seen.
    pub olds: LinkedList<LinkedList<E>>,
}
