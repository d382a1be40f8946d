//! Runs each thread of a script on a thread of its own, in whatever order the system makes. Those that could not be started are
//! driven by the calling thread.
#![tactic(auto)]

pub mod driving;
mod handing;
pub mod run;
pub mod running;
pub mod share;
pub mod shared;
mod starting;
pub mod turns;
