//! Tasks: computations apart from the kernel.
#![tactic(auto)]

pub mod digest;
mod ops;
pub mod task;
