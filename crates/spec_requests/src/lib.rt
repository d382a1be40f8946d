//! Which request a thread makes next, what a script declares and needs, and how events and the end of a run are written as text:
//! definitions in `specs/`. No code but the type of a run's ending.
#![tactic(auto)]

pub mod ending;
pub mod laws;
