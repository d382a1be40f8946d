//! The doors attached to paths, found by their paths.
#![tactic(auto)]

pub mod names;
