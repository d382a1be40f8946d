//! Timers on a virtual clock: each tells its port at its moments (timer_create(3C), timer_settime(3C), timer_delete(3C)).
#![tactic(auto)]

mod armed;
mod key;
pub mod laws;
mod pending;
mod process_end;
mod slot;
mod table;
pub mod timers;
