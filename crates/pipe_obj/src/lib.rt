//! Pipes (pipe(2)).
#![tactic(auto)]

mod held;
mod numbered;
pub mod pipe;
pub mod pipes;
