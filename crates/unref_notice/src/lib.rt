//! Unreferenced notices (door_create(3C)): how many references each door has, of which a notice is made when they fall to one; and
//! the notices that wait for a thread, that a thread was given or has entered, and, of a door that has at most one, also one that is
//! over or dropped.
#![tactic(auto)]

mod change;
pub mod counts;
mod door_counts;
mod key;
mod leave;
pub mod notices;
mod stage;
mod tally;
