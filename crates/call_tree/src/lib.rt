//! Door calls that are neither answered nor left, by their stages, and the walks along them (door_call(3C), door_return(3C)).
#![tactic(auto)]

pub mod calls;
mod index;
pub mod laws;
mod leave;
pub mod parts;
mod records;
mod shuttles;
pub mod stage;
