//! Event ports with the associations of objects with them and with timers: what ports are told after an event, what is queued, what ends,
//! and the room for what can fire and for what can be due.
#![tactic(auto)]

pub mod changed;
mod due;
pub mod ending;
mod fire;
mod listing;
mod next;
pub mod ports;
mod ready;
pub mod tell;
