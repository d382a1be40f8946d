//! Histories of a kernel's turns, and of the calls that seats make of it: definitions, in `specs/`, and what calls and replies are.
#![tactic(auto)]

pub mod asked;
pub mod call;
pub mod entry;
pub mod opening;
pub mod recorded;
pub mod refusal;
pub mod room;
