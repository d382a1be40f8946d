//! Processes and threads, numbered from 1. Each change of a thread has a name and a condition on what the thread was at.
#![tactic(auto)]

mod crews;
pub mod procs;
mod standing;
mod thread;
pub mod walk;
