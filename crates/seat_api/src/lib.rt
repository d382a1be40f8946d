//! Seats: a host's own threads act as threads of a kernel, and are answered from one legal history.
#![tactic(auto)]

pub mod entry;
pub mod kernel;
pub mod laws;
pub mod limits;
pub mod opening;
pub mod room;
pub mod seats;
