//! A kernel with its history and the text of it: what is asked in numbers, and each turn handed back as a reply and a line.
#![tactic(auto)]

pub mod asked;
mod asking;
pub mod chronicle;
mod declaring;
pub mod handle;
mod loose;
mod opening;
mod refusal;
mod reply;
pub mod rooms;
pub mod status;
mod turns;
