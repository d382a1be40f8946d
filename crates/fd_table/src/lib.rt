//! The descriptors of a process.
#![tactic(auto)]

mod rows;
pub mod table;
