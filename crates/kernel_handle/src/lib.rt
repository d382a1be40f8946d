//! A kernel with the history of its turns, which is stated and not stored.
#![tactic(auto)]

pub mod held;
pub mod opening;
pub mod recorder;
pub mod shape;
mod story;
