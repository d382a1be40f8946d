//! The exit paths of a kernel: interrupts, the ends of threads and of processes, and door_revoke(3C). Each leaves threads, door calls and
//! server pools together as they agree.
#![tactic(auto)]

mod calls;
pub mod exits;
mod fates;
pub mod left;
mod marks;
mod queues;
pub mod who_leaves;
