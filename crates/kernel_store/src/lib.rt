//! What the kernel holds, by subject, over the crates of each: its changes are by meaning, and each leaves what server pools hold
//! in agreement with threads, doors, calls and notices.
#![tactic(auto)]

mod beginning;
mod leaving;
mod notices;
mod paths;
mod ports;
mod sets;
mod starting;
pub mod store;
mod telling;
pub mod told;
